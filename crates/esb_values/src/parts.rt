//! The definitions of what is handed in, which are known only where all parsers come together.

/// What the function that reads blocks gives.
pub trait Blocks {
    ghost use Rattle.std.specs.Prelude.{ℕ};
    ghost use Rattle.esb_tree.specs.declared.statements.Block.{Block};
    ghost use Rattle.esb_grammar.specs.declared.context.Context.{Context};
    ghost use Rattle.esb_reader.specs.declared.node.Node.{Node};
    ghost use Rattle.esb_reader.specs.Places.{Text};
    ghost use Rattle.esb_reader.specs.Reader.{Reader};

    // The block of an arrow function in a context, within a number of levels.
    ghost block: { Context → Text → ℕ → Reader (Node Block) };
}

/// What the function that reads AssignmentExpressions gives.
pub trait Values {
    ghost use Rattle.std.specs.Prelude.{ℕ};
    ghost use Rattle.esb_tree.specs.declared.expressions.Expression.{Expression};
    ghost use Rattle.esb_grammar.specs.declared.context.Context.{Context};
    ghost use Rattle.esb_reader.specs.declared.node.Node.{Node};
    ghost use Rattle.esb_reader.specs.Places.{Text};
    ghost use Rattle.esb_reader.specs.Reader.{Reader};

    // An AssignmentExpression in a context, within a number of levels.
    ghost value: { Context → Text → ℕ → Reader (Node Expression) };
}
