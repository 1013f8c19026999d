//! What nodes are from outside, as far as the early rules ask.

ghost use Rattle.std.specs.Prelude.{◌≡◌, ◌&&◌, ◌||◌};
ghost use Rattle.esb_early_checks.specs.Shapes as spec;

use esb_grammar::is_binding;
use esb_token::Token;

/// An expression from outside.
#[derive(Clone, Copy)]
pub struct ExpressionShape {
    /// Where its first token stands.
    pub start: usize,
    /// Its token, if it has only one.
    pub token: Option<Token>,
    /// The name that it is, also in parentheses.
    pub name: Option<Token>,
    /// It may be assigned to as it stands: a name or a member, also in parentheses (AssignmentTargetType, ECMA-262, 12.3.1.6).
    pub is_simple: bool,
    /// As parameters it is plain names alone (IsSimpleParameterList, 14.1.13).
    pub is_plain: bool,
}

/// A link of a chain from outside.
#[derive(Clone, Copy)]
pub struct LinkShape {
    /// A member by its name or by an index.
    pub is_access: bool,
    /// The beginning of an optional chain.
    pub is_optional: bool,
    pub is_call: bool,
    /// As parameters its list is plain names alone.
    pub is_plain: bool,
}

/// The links of a chain from outside.
#[derive(Clone, Copy)]
pub struct LinksShape {
    /// There is one.
    pub has_begun: bool,
    /// The first is a call.
    pub begins_with_call: bool,
    /// The last is a member by its name or by an index.
    pub ends_with_access: bool,
    /// One begins an optional chain.
    pub has_optional: bool,
    /// As parameters the list of the last is plain names alone.
    pub is_plain: bool,
}

/// An element of a list from outside.
#[derive(Clone, Copy)]
pub struct ElementShape {
    /// Nothing stands there.
    pub is_hole: bool,
    /// An expression that is not spread.
    pub is_value: bool,
    /// The name that the expression is, also in parentheses.
    pub name: Option<Token>,
    /// The expression may be assigned to as it stands.
    pub is_simple: bool,
    /// As a parameter it is a plain name, or nothing.
    pub is_plain: bool,
    /// The key of a property with a value, if it is not computed.
    pub key: Option<Token>,
}

/// The elements of a list from outside.
#[derive(Clone, Copy)]
pub struct ElementsShape {
    /// The name that the only element is, also in parentheses.
    pub name: Option<Token>,
    /// The only element may be assigned to as it stands.
    pub is_simple: bool,
    /// As parameters they are plain names alone.
    pub is_plain: bool,
    /// There is no element.
    pub is_empty: bool,
    /// There is one element, which is an expression that is not spread.
    pub is_one_value: bool,
}

/// A list in its brackets from outside.
#[derive(Clone, Copy)]
pub struct BracketedShape {
    /// Where it begins.
    pub start: usize,
    pub name: Option<Token>,
    pub is_simple: bool,
    pub is_plain: bool,
    pub is_empty: bool,
    pub is_one_value: bool,
}

/// A property's name from outside.
#[derive(Clone, Copy)]
pub struct PropertyNameShape {
    /// Where its first token stands.
    pub start: usize,
    /// Its token, if it is not computed.
    pub key: Option<Token>,
}

/// An expression that is no name, no member, and no list in parentheses.
pub fn other_shape(start: usize) -> ExpressionShape
    ensures { result ≡ spec.other_shape start }
{
    ExpressionShape {
        start,
        token: None,
        name: None,
        is_simple: false,
        is_plain: false,
    }
}

/// An expression of one token.
pub fn primary_shape(t: Token) -> ExpressionShape
    ensures { result ≡ spec.primary_shape t }
{
    let is_name = is_binding(t.kind);
    ExpressionShape {
        start: t.start,
        token: Some(t),
        name: if is_name { Some(t) } else { None },
        is_simple: is_name,
        is_plain: is_name,
    }
}

/// A list in parentheses.
pub fn parenthesized_shape(list: BracketedShape) -> ExpressionShape
    ensures { result ≡ spec.parenthesized_shape list }
{
    ExpressionShape {
        start: list.start,
        token: None,
        name: list.name,
        is_simple: list.is_simple,
        is_plain: list.is_plain,
    }
}

/// A chain of members and calls (12.3.1.6): no optional chain, and no call at its end.
pub fn member_shape(start: usize, links: LinksShape) -> ExpressionShape
    ensures { result ≡ spec.member_shape start links }
{
    ExpressionShape {
        start,
        token: None,
        name: None,
        is_simple: links.ends_with_access && !links.has_optional,
        is_plain: links.is_plain,
    }
}

/// A member by its name or by an index.
pub fn access_link() -> LinkShape
    ensures { result ≡ spec.access_link }
{
    LinkShape {
        is_access: true,
        is_optional: false,
        is_call: false,
        is_plain: false,
    }
}

/// A call, whose list is plain names alone or not.
pub fn call_link(is_plain: bool) -> LinkShape
    ensures { result ≡ spec.call_link is_plain }
{
    LinkShape {
        is_access: false,
        is_optional: false,
        is_call: true,
        is_plain,
    }
}

/// A template behind its tag.
pub fn template_link() -> LinkShape
    ensures { result ≡ spec.template_link }
{
    LinkShape {
        is_access: false,
        is_optional: false,
        is_call: false,
        is_plain: false,
    }
}

/// What begins with `?.`.
pub fn optional_link() -> LinkShape
    ensures { result ≡ spec.optional_link }
{
    LinkShape {
        is_access: false,
        is_optional: true,
        is_call: false,
        is_plain: false,
    }
}

/// No link so far.
pub fn no_links() -> LinksShape
    ensures { result ≡ spec.no_links }
{
    LinksShape {
        has_begun: false,
        begins_with_call: false,
        ends_with_access: false,
        has_optional: false,
        is_plain: false,
    }
}

/// The same links and one more.
pub fn after_link(links: LinksShape, link: LinkShape) -> LinksShape
    ensures { result ≡ spec.after_link links link }
{
    LinksShape {
        has_begun: true,
        begins_with_call: if links.has_begun {
            links.begins_with_call
        } else {
            link.is_call
        },
        ends_with_access: link.is_access,
        has_optional: links.has_optional || link.is_optional,
        is_plain: link.is_plain,
    }
}

/// A place where nothing stands.
pub fn hole_shape() -> ElementShape
    ensures { result ≡ spec.hole_shape }
{
    ElementShape {
        is_hole: true,
        is_value: false,
        name: None,
        is_simple: false,
        is_plain: true,
        key: None,
    }
}

/// An expression as an element.
pub fn value_shape(x: ExpressionShape) -> ElementShape
    ensures { result ≡ spec.value_shape x }
{
    ElementShape {
        is_hole: false,
        is_value: true,
        name: x.name,
        is_simple: x.is_simple,
        is_plain: x.is_plain,
        key: None,
    }
}

/// Any other element.
pub fn other_element() -> ElementShape
    ensures { result ≡ spec.other_element }
{
    ElementShape {
        is_hole: false,
        is_value: false,
        name: None,
        is_simple: false,
        is_plain: false,
        key: None,
    }
}

/// A property with a value.
pub fn property_element(key: Option<Token>) -> ElementShape
    ensures { result ≡ spec.property_element key }
{
    ElementShape {
        is_hole: false,
        is_value: false,
        name: None,
        is_simple: false,
        is_plain: false,
        key,
    }
}

/// The key of a method of a class that is not static.
pub fn key_of_prototype(static_word: Option<Token>, key: Option<Token>) -> Option<Token>
    ensures { result ≡ spec.key_of_prototype static_word key }
{
    match static_word {
        Some(_) => None,
        None => key,
    }
}

/// The first element and whether the others are plain; `is_only` says that there are no others.
pub fn elements_shape(first: ElementShape, are_others_plain: bool, is_only: bool) -> ElementsShape
    ensures { result ≡ spec.elements_shape first are_others_plain is_only }
{
    ElementsShape {
        name: if is_only { first.name } else { None },
        is_simple: is_only && first.is_simple,
        is_plain: first.is_plain && are_others_plain,
        is_empty: is_only && first.is_hole,
        is_one_value: is_only && first.is_value,
    }
}

/// A list in its brackets.
pub fn bracketed_shape(begin: Token, list: ElementsShape) -> BracketedShape
    ensures { result ≡ spec.bracketed_shape begin list }
{
    BracketedShape {
        start: begin.start,
        name: list.name,
        is_simple: list.is_simple,
        is_plain: list.is_plain,
        is_empty: list.is_empty,
        is_one_value: list.is_one_value,
    }
}

/// A name that is not computed.
pub fn named_shape(name: Token) -> PropertyNameShape
    ensures { result ≡ spec.named_shape name }
{
    PropertyNameShape {
        start: name.start,
        key: Some(name),
    }
}

/// A name that is computed, in brackets.
pub fn computed_shape(begin: Token) -> PropertyNameShape
    ensures { result ≡ spec.computed_shape begin }
{
    PropertyNameShape {
        start: begin.start,
        key: None,
    }
}

/// Where a function begins.
pub fn start_of_function(async_word: Option<Token>, word: Token) -> usize
    ensures { result ≡ spec.start_of_function async_word word }
{
    match async_word {
        Some(first) => first.start,
        None => word.start,
    }
}
