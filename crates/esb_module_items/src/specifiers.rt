//! NamedImports and NamedExports (ECMA-262, 15.2.2 and 15.2.3).

ghost use Rattle.std.specs.Prelude.{◌≡◌, true, false};
ghost use Rattle.esb_module_items.specs.Parts.{maybe_renaming as maybe_renaming_of, next_specifiers as next_specifiers_of, rest_of};
ghost use Rattle.esb_module_laws.specs.Specifiers as spec;
ghost use Rattle.esb_reader.specs.Reader.{Gives};

use crate::kinds::is_given;
use crate::words::is_as;
use esb_base::{List, Text};
use esb_grammar::is_identifier_name;
use esb_reader::{Fault, Node, Reading, expect, peek, take};
use esb_statement_tests::is_comma;
use esb_token::{Goal, Kind, Token};
use esb_tree::{NextSpecifier, Specifier, Specifiers};
use std::alloc::Global;

/// `as` and a name.
fn renaming(text: &Text, at: usize) -> Reading<Node<(Token, Token)>>
    ensures { Gives result (spec.renaming text.now at) }
{
    let (word, at) = take(text, Goal::Div, at)?;
    if !is_as(text, word) {
        return Err(Fault::NoTree(word.start));
    }
    let (name, at) = take(text, Goal::Div, at)?;
    if !is_identifier_name(name.kind) {
        return Err(Fault::NoTree(name.start));
    }
    let tree = (word, name);
    Ok((Node { tree, levels: 0 }, at))
}

/// The same, or nothing.
#[tactic(auto, unfolding(crate::specs::Parts::maybe_renaming))]
pub(crate) fn maybe_renaming(text: &Text, at: usize) -> Reading<Node<Option<(Token, Token)>>>
    ensures { Gives result (maybe_renaming_of text.now at) }
{
    if !is_as(text, peek(text, Goal::Div, at)) {
        let tree = None;
        return Ok((Node { tree, levels: 0 }, at));
    }
    let (renamed, at) = renaming(text, at)?;
    let levels = renamed.levels;
    let tree = Some(renamed.tree);
    Ok((Node { tree, levels }, at))
}

fn make_specifier(name: Token, renamed: Option<(Token, Token)>) -> Specifier
    ensures { result ≡ spec.make_specifier (name, renamed) }
{
    match renamed {
        Some((word, other)) => Specifier::Renamed(name, word, other),
        None => Specifier::Same(name),
    }
}

/// Whether a name may be given.
fn is_allowed(is_import: bool, x: &Specifier) -> bool
    ensures { result ≡ spec.is_allowed is_import x.now }
{
    match x {
        Specifier::NoSpecifier => true,
        Specifier::Same(name) => is_given(is_import, name.kind),
        Specifier::Renamed(_, _, other) => is_given(is_import, other.kind),
    }
}

/// ImportSpecifier or ExportSpecifier.
#[tactic(auto, unfolding(esb_module_laws::specs::Specifiers::specifier, crate::specs::Parts::maybe_renaming))]
fn specifier(text: &Text, is_import: bool, at: usize) -> Reading<Node<Specifier>>
    ensures { Gives result (spec.specifier text.now is_import at) }
{
    let (name, at) = take(text, Goal::Div, at)?;
    if !is_identifier_name(name.kind) {
        return Err(Fault::NoTree(name.start));
    }
    let (renamed, at) = maybe_renaming(text, at)?;
    let levels = renamed.levels;
    let tree = make_specifier(name, renamed.tree);
    if !is_allowed(is_import, &tree) {
        return Err(Fault::NoTree(name.start));
    }
    Ok((Node { tree, levels }, at))
}

/// One, or nothing.
#[tactic(auto, unfolding(esb_module_laws::specs::Specifiers::maybe_specifier))]
fn maybe_specifier(text: &Text, is_import: bool, at: usize) -> Reading<Node<Specifier>>
    ensures { Gives result (spec.maybe_specifier text.now is_import at) }
{
    if is_identifier_name(peek(text, Goal::Div, at).kind) {
        return specifier(text, is_import, at);
    }
    let tree = Specifier::NoSpecifier;
    Ok((Node { tree, levels: 0 }, at))
}

/// A comma, and what stands behind it.
#[tactic(auto, unfolding(esb_module_laws::specs::Specifiers::next_specifier))]
fn next_specifier(text: &Text, is_import: bool, at: usize) -> Reading<Node<NextSpecifier>>
    ensures { Gives result (spec.next_specifier text.now is_import at) }
{
    let (comma, at) = expect(text, Kind::Comma, at)?;
    let (x, at) = maybe_specifier(text, is_import, at)?;
    let levels = x.levels;
    let specifier = x.tree;
    let tree = NextSpecifier { comma, specifier };
    Ok((Node { tree, levels }, at))
}

/// The specifiers behind the first.
#[tactic(auto, unfolding(crate::specs::Parts::next_specifiers, esb_reader::specs::Reader::repeated))]
fn next_specifiers(
    alloc: Global,
    text: &Text,
    is_import: bool,
    start: usize,
) -> Reading<Node<List<NextSpecifier>>>
    ensures { Gives result (next_specifiers_of text.now is_import start) }
{
    let mut at = start;
    let mut tree = List::new(alloc);
    let mut deepest = 0;
    for _turn in 0..text.as_bytes().len() {
        if !is_comma(peek(text, Goal::Div, at).kind) {
            return Ok((
                Node {
                    tree,
                    levels: deepest,
                },
                at,
            ));
        }
        let (next, end) = next_specifier(text, is_import, at)?;
        tree.push(next.tree)?;
        deepest = deepest.max(next.levels);
        at = end;
    }
    Ok((
        Node {
            tree,
            levels: deepest,
        },
        at,
    ))
}

/// These, and the brace behind them.
#[tactic(auto, unfolding(crate::specs::Parts::rest_of, crate::specs::Parts::next_specifiers))]
fn rest(
    alloc: Global,
    text: &Text,
    is_import: bool,
    at: usize,
) -> Reading<Node<(List<NextSpecifier>, Token)>>
    ensures { Gives result (rest_of text.now is_import at) }
{
    let (nexts, at) = next_specifiers(alloc, text, is_import, at)?;
    let (ending, at) = expect(text, Kind::RightBrace, at)?;
    let levels = nexts.levels;
    let tree = (nexts.tree, ending);
    Ok((Node { tree, levels }, at))
}

fn is_something(x: &Specifier) -> bool
    ensures { result ≡ spec.is_something x.now }
{
    !matches!(x, Specifier::NoSpecifier)
}

/// Whether nothing stands in the last place alone, by whether the specifier before these is something.
fn are_filled(before: bool, rest: &[NextSpecifier]) -> bool
    ensures { result ≡ spec.are_filled before rest.now }
{
    let mut filled = before;
    for turn in 0..rest.len() {
        if !filled {
            return false;
        }
        filled = is_something(&rest[turn].specifier);
    }
    true
}

/// The specifiers of an `import` or an `export`, in braces.
#[tactic(auto, unfolding(esb_module_laws::specs::Specifiers::specifiers, crate::specs::Parts::rest_of, crate::specs::Parts::next_specifiers))]
pub(crate) fn specifiers(
    alloc: Global,
    text: &Text,
    is_import: bool,
    at: usize,
) -> Reading<Node<Specifiers>>
    ensures { Gives result (spec.specifiers text.now is_import at) }
{
    let (begin, at) = expect(text, Kind::LeftBrace, at)?;
    let (first, at) = maybe_specifier(text, is_import, at)?;
    let (behind, at) = rest(alloc, text, is_import, at)?;
    let levels = first.levels.max(behind.levels);
    let first = first.tree;
    let (rest, ending) = behind.tree;
    if !are_filled(is_something(&first), rest.as_slice()) {
        return Err(Fault::NoTree(begin.start));
    }
    let tree = Specifiers {
        begin,
        first,
        rest,
        ending,
    };
    Ok((Node { tree, levels }, at))
}
