//! Nodes of the parts that were read.

ghost use Rattle.std.specs.Prelude.{◌≡◌};
ghost use Rattle.esb_reader.specs.Reader.{Gives};
ghost use Rattle.esb_functions.specs.Definitions as definitions;

use esb_nodes::{Discard, Nested};
use esb_reader::{Fault, Node, Reading};
use esb_token::Token;
use esb_tree::{Block, Bracketed, Element, Function, Method, PropertyName};
use std::alloc::Global;

/// A method of its words and the rest, one level above that and within a number of levels.
pub fn make_method(
    levels: usize,
    word: Option<Token>,
    star: Option<Token>,
    rest: Node<(PropertyName, (Bracketed, Block))>,
    at: usize,
) -> Reading<Node<Method>>
    ensures { Gives result (definitions.method_of levels word star rest at) }
{
    if rest.levels >= levels {
        rest.discard();
        return Err(Fault::NoTree(at));
    }
    let levels = rest.levels + 1;
    let (name, (parameters, body)) = rest.tree;
    let tree = Method {
        word,
        star,
        name,
        parameters,
        body,
    };
    Ok((Node { tree, levels }, at))
}

/// A method as a property.
pub fn make_method_property(
    alloc: Global,
    method: Node<Method>,
    at: usize,
) -> Reading<Node<Element>>
    ensures { Gives result (definitions.method_property method at) }
{
    let levels = method.levels;
    let method = method.tree.boxed(alloc)?;
    let tree = Element::MethodProperty(method);
    Ok((Node { tree, levels }, at))
}

/// A function of its words and the rest.
pub fn make_function(
    async_word: Option<Token>,
    word: Token,
    star: Option<Token>,
    rest: Node<(Option<Token>, (Bracketed, Block))>,
) -> Node<Function>
    ensures { result ≡ definitions.function_of async_word word star rest }
{
    let levels = rest.levels;
    let (name, (parameters, body)) = rest.tree;
    let tree = Function {
        async_word,
        word,
        star,
        name,
        parameters,
        body,
    };
    Node { tree, levels }
}
