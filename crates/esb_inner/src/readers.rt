//! The definitions of what is handed in.

/// What the functions that are handed in give, by definitions that are known only where all parsers come together.
pub trait Readers {
    ghost use Rattle.std.specs.Prelude.{ℕ, Bool, List};
    ghost use Rattle.esb_tree.specs.declared.expressions.Expression.{Expression};
    ghost use Rattle.esb_tree.specs.declared.statements.Statement.{Statement};
    ghost use Rattle.esb_grammar.specs.declared.context.Context.{Context};
    ghost use Rattle.esb_reader.specs.declared.node.Node.{Node};
    ghost use Rattle.esb_reader.specs.Places.{Text};
    ghost use Rattle.esb_reader.specs.Reader.{Reader};

    // An AssignmentExpression, or where the flag says so an Expression, in a context and within a number of levels.
    ghost expression: { Bool → Context → Text → ℕ → Reader (Node Expression) };

    // A StatementList up to the brace behind it.
    ghost items: { Context → Text → ℕ → Reader (Node (List Statement)) };

    // A LeftHandSideExpression in a context, within a number of levels.
    ghost left: { Context → Text → ℕ → Reader (Node Expression) };
}
