//! What an `import` binds, and where it is from (ECMA-262, 15.2.2).

ghost use Rattle.std.specs.Prelude.{◌≡◌, true, false};
ghost use Rattle.esb_module_items.specs.Parts.{behind_default as behind_default_of, maybe_from as maybe_from_of};
ghost use Rattle.esb_module_laws.specs.Items as items;
ghost use Rattle.esb_module_laws.specs.Specifiers as spec;
ghost use Rattle.esb_reader.specs.Parts.{made};
ghost use Rattle.esb_reader.specs.Reader.{Gives};

use crate::kinds::is_star;
use crate::specifiers::specifiers;
use crate::words::{is_as, is_from};
use esb_base::Text;
use esb_grammar::is_binding;
use esb_module_laws::Imported;
use esb_reader::{Fault, Node, Reading, expect, peek, take};
use esb_statement_tests::is_comma;
use esb_token::{Goal, Kind, Token};
use esb_tree::ImportClause;
use std::alloc::Global;

/// FromClause: `from` and a string.
pub(crate) fn from_clause(text: &Text, at: usize) -> Reading<Node<(Token, Token)>>
    ensures { Gives result (items.from_clause text.now at) }
{
    let (word, at) = take(text, Goal::Div, at)?;
    if !is_from(text, word) {
        return Err(Fault::NoTree(word.start));
    }
    let (source, at) = expect(text, Kind::Text, at)?;
    let tree = (word, source);
    Ok((Node { tree, levels: 0 }, at))
}

/// The same, or nothing.
#[tactic(auto, unfolding(crate::specs::Parts::maybe_from))]
pub(crate) fn maybe_from(text: &Text, at: usize) -> Reading<Node<Option<(Token, Token)>>>
    ensures { Gives result (maybe_from_of text.now at) }
{
    if !is_from(text, peek(text, Goal::Div, at)) {
        let tree = None;
        return Ok((Node { tree, levels: 0 }, at));
    }
    let (clause, at) = from_clause(text, at)?;
    let levels = clause.levels;
    let tree = Some(clause.tree);
    Ok((Node { tree, levels }, at))
}

/// NameSpaceImport: `*` `as` a name.
fn name_space(text: &Text, at: usize) -> Reading<Node<Imported>>
    ensures { Gives result (made spec.make_name_space 0 (spec.name_space text.now) at) }
{
    let (star, at) = expect(text, Kind::Star, at)?;
    let (word, at) = take(text, Goal::Div, at)?;
    if !is_as(text, word) {
        return Err(Fault::NoTree(word.start));
    }
    let (name, at) = take(text, Goal::Div, at)?;
    if !is_binding(name.kind) {
        return Err(Fault::NoTree(name.start));
    }
    let tree = Imported::NameSpace(star, word, name);
    Ok((Node { tree, levels: 0 }, at))
}

/// NameSpaceImport or NamedImports.
#[tactic(auto, unfolding(esb_module_laws::specs::Specifiers::imported))]
fn imported(alloc: Global, text: &Text, at: usize) -> Reading<Node<Imported>>
    ensures { Gives result (spec.imported text.now at) }
{
    if is_star(peek(text, Goal::Div, at).kind) {
        return name_space(text, at);
    }
    let (list, at) = specifiers(alloc, text, true, at)?;
    let levels = list.levels;
    let tree = Imported::Names(list.tree);
    Ok((Node { tree, levels }, at))
}

/// What stands behind a default: a comma and one of these, or nothing.
#[tactic(auto, unfolding(crate::specs::Parts::behind_default))]
fn behind_default(alloc: Global, text: &Text, at: usize) -> Reading<Node<Option<(Token, Imported)>>>
    ensures { Gives result (behind_default_of text.now at) }
{
    if !is_comma(peek(text, Goal::Div, at).kind) {
        let tree = None;
        return Ok((Node { tree, levels: 0 }, at));
    }
    let (comma, at) = expect(text, Kind::Comma, at)?;
    let (more, at) = imported(alloc, text, at)?;
    let levels = more.levels;
    let tree = Some((comma, more.tree));
    Ok((Node { tree, levels }, at))
}

fn make_default(name: Token, more: Option<(Token, Imported)>) -> ImportClause
    ensures { result ≡ spec.make_default (name, more) }
{
    match more {
        None => ImportClause::DefaultBinding(name),
        Some((comma, Imported::NameSpace(star, word, other))) => {
            ImportClause::DefaultAndNameSpace(name, comma, star, word, other)
        }
        Some((comma, Imported::Names(list))) => ImportClause::DefaultAndNames(name, comma, list),
    }
}

fn make_alone(x: Imported) -> ImportClause
    ensures { result ≡ spec.make_alone x }
{
    match x {
        Imported::NameSpace(star, word, name) => ImportClause::NameSpace(star, word, name),
        Imported::Names(list) => ImportClause::Names(list),
    }
}

/// ImportClause.
#[tactic(auto, unfolding(esb_module_laws::specs::Specifiers::import_clause, crate::specs::Parts::behind_default))]
pub(crate) fn import_clause(alloc: Global, text: &Text, at: usize) -> Reading<Node<ImportClause>>
    ensures { Gives result (spec.import_clause text.now at) }
{
    if !is_binding(peek(text, Goal::Div, at).kind) {
        let (x, at) = imported(alloc, text, at)?;
        let levels = x.levels;
        let tree = make_alone(x.tree);
        return Ok((Node { tree, levels }, at));
    }
    let (name, at) = take(text, Goal::Div, at)?;
    if !is_binding(name.kind) {
        return Err(Fault::NoTree(name.start));
    }
    let (more, at) = behind_default(alloc, text, at)?;
    let levels = more.levels;
    let tree = make_default(name, more.tree);
    Ok((Node { tree, levels }, at))
}
