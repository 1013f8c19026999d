//! PrimaryExpressions of what was read in them: each stands one level above it and within a number of levels.

ghost use Rattle.esb_tree.specs.declared.expressions.Expression.TheVariants as e;
ghost use Rattle.esb_reader.specs.Reader.{Gives};
ghost use Rattle.esb_primaries.specs.Nodes.{raised};

use esb_nodes::{Discard, Nested};
use esb_reader::{Fault, Node, Reading};
use esb_tree::{Bracketed, Class, Expression, Function, Substitutions};
use std::alloc::Global;

/// A ParenthesizedExpression (12.2.10).
pub fn parenthesized(
    alloc: Global,
    levels: usize,
    list: Node<Bracketed>,
    at: usize,
) -> Reading<Node<Expression>>
    ensures { Gives result (raised levels e.Parenthesized list at) }
{
    if list.levels >= levels {
        list.discard();
        return Err(Fault::NoTree(at));
    }
    let levels = list.levels + 1;
    let tree = Expression::Parenthesized(list.tree.boxed(alloc)?);
    Ok((Node { tree, levels }, at))
}

/// An ArrayLiteral (12.2.5).
pub fn array(
    alloc: Global,
    levels: usize,
    list: Node<Bracketed>,
    at: usize,
) -> Reading<Node<Expression>>
    ensures { Gives result (raised levels e.ArrayLiteral list at) }
{
    if list.levels >= levels {
        list.discard();
        return Err(Fault::NoTree(at));
    }
    let levels = list.levels + 1;
    let tree = Expression::ArrayLiteral(list.tree.boxed(alloc)?);
    Ok((Node { tree, levels }, at))
}

/// An ObjectLiteral (12.2.6).
pub fn object(
    alloc: Global,
    levels: usize,
    list: Node<Bracketed>,
    at: usize,
) -> Reading<Node<Expression>>
    ensures { Gives result (raised levels e.ObjectLiteral list at) }
{
    if list.levels >= levels {
        list.discard();
        return Err(Fault::NoTree(at));
    }
    let levels = list.levels + 1;
    let tree = Expression::ObjectLiteral(list.tree.boxed(alloc)?);
    Ok((Node { tree, levels }, at))
}

/// A TemplateLiteral with substitutions (12.2.9).
pub fn template(
    alloc: Global,
    levels: usize,
    parts: Node<Substitutions>,
    at: usize,
) -> Reading<Node<Expression>>
    ensures { Gives result (raised levels e.TemplateLiteral parts at) }
{
    if parts.levels >= levels {
        parts.discard();
        return Err(Fault::NoTree(at));
    }
    let levels = parts.levels + 1;
    let tree = Expression::TemplateLiteral(parts.tree.boxed(alloc)?);
    Ok((Node { tree, levels }, at))
}

/// A FunctionExpression, also of generators and async functions (14.1, 14.4, 14.5, 14.7).
pub fn function(
    alloc: Global,
    levels: usize,
    function: Node<Function>,
    at: usize,
) -> Reading<Node<Expression>>
    ensures { Gives result (raised levels e.FunctionExpression function at) }
{
    if function.levels >= levels {
        function.discard();
        return Err(Fault::NoTree(at));
    }
    let levels = function.levels + 1;
    let tree = Expression::FunctionExpression(function.tree.boxed(alloc)?);
    Ok((Node { tree, levels }, at))
}

/// A ClassExpression (14.6).
pub fn class(
    alloc: Global,
    levels: usize,
    class: Node<Class>,
    at: usize,
) -> Reading<Node<Expression>>
    ensures { Gives result (raised levels e.ClassExpression class at) }
{
    if class.levels >= levels {
        class.discard();
        return Err(Fault::NoTree(at));
    }
    let levels = class.levels + 1;
    let tree = Expression::ClassExpression(class.tree.boxed(alloc)?);
    Ok((Node { tree, levels }, at))
}
