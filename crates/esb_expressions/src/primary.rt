//! Expressions of one token.

ghost use Rattle.esb_reader.specs.Reader.{Gives};
ghost use Rattle.esb_expression_laws.specs.Leaves as spec;

use crate::kinds::is_leaf;
use esb_base::Text;
use esb_grammar::Context;
use esb_reader::{Fault, Node, Reading, take};
use esb_token::Goal;
use esb_tree::Expression;

/// `this`, a name, a literal, a regular expression, or a template without substitutions (ECMA-262, 12.1 and 12.2).
#[tactic(auto, unfolding(esb_expression_laws::specs::Leaves::leaf))]
pub fn leaf(text: &Text, context: Context, at: usize) -> Reading<Node<Expression>>
    ensures { Gives result (spec.leaf text.now context at) }
{
    let (token, end) = take(text, Goal::RegExp, at)?;
    if !is_leaf(context, token.kind) {
        return Err(Fault::NoTree(token.start));
    }
    let tree = Expression::Primary(token);
    Ok((Node { tree, levels: 0 }, end))
}
