//! Classes of tokens.

ghost use Rattle.std.specs.Prelude.{◌≡◌, ◌<◌, suc};
ghost use Rattle.esb_grammar.specs.Kinds as spec;
ghost use Rattle.esb_grammar.specs.Grammar as grammar;
ghost use Rattle.esb_expression_laws.specs.Leaves as leaves;
ghost use Rattle.esb_expression_laws.specs.Operators as operators;
ghost use Rattle.esb_operator_laws.specs.Ends as ends;
ghost use Rattle.esb_operator_laws.specs.Unary as unary;

use esb_grammar::{Context, is_literal, is_reference};
use esb_token::{Kind, Token};
use esb_tree::{is_unary, level_of};

/// `this`, a name, a literal, a regular expression, or a template without substitutions (12.1, 12.2).
pub fn is_leaf(context: Context, kind: Kind) -> bool
    ensures { result ≡ leaves.is_leaf context kind }
{
    is_reference(context, kind) || is_literal(kind)
}

/// The operator of an UpdateExpression (12.4).
pub fn is_update(kind: Kind) -> bool
    ensures { result ≡ spec.is_update kind }
{
    matches!(kind, Kind::PlusPlus | Kind::MinusMinus)
}

fn is_await_in(context: Context, kind: Kind) -> bool
    ensures { result ≡ grammar.is_await_in context kind }
{
    match kind {
        Kind::Await => context.has_await,
        _ => false,
    }
}

/// An operator before its operand (12.4, 12.5, 14.7).
pub fn is_prefix(context: Context, kind: Kind) -> bool
    ensures { result ≡ unary.is_prefix context kind }
{
    is_update(kind) || is_unary(kind) || is_await_in(context, kind)
}

/// `++` or `--` on the line of what it changes (12.4).
pub fn begins_postfix(token: Token) -> bool
    ensures { result ≡ ends.begins_postfix token }
{
    is_update(token.kind) && !token.after_line
}

/// An operator between operands, one level looser than `tight`.
pub fn is_operator(context: Context, tight: u8, token: Token) -> bool
    requires { tight < 255 }
    ensures { result ≡ operators.is_operator context (suc tight) token }
{
    level_of(context.has_in, token.kind) == tight + 1
}
