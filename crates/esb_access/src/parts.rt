//! The definitions of what is handed in.

/// What the functions that are handed in give, by definitions that are known only where all parsers come together.
pub trait Parts {
    ghost use Rattle.std.specs.Prelude.{ℕ};
    ghost use Rattle.esb_tree.specs.declared.expressions.Expression.{Expression};
    ghost use Rattle.esb_tree.specs.declared.expressions.Substitutions.{Substitutions};
    ghost use Rattle.esb_tree.specs.declared.patterns.Bracketed.{Bracketed};
    ghost use Rattle.esb_grammar.specs.declared.context.Context.{Context};
    ghost use Rattle.esb_reader.specs.declared.node.Node.{Node};
    ghost use Rattle.esb_reader.specs.Places.{Text};
    ghost use Rattle.esb_reader.specs.Reader.{Reader};

    // A PrimaryExpression in a context, within a number of levels.
    ghost primary: { Context → Text → ℕ → Reader (Node Expression) };

    // Arguments.
    ghost arguments: { Context → Text → ℕ → Reader (Node Bracketed) };

    // A template with substitutions.
    ghost template: { Context → Text → ℕ → Reader (Node Substitutions) };
}
