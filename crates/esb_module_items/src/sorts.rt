//! What a module item is, by its first tokens.

ghost use Rattle.std.specs.Prelude.{◌≡◌};
ghost use Rattle.esb_module_laws.specs.Marks as marks;

use crate::kinds::is_class;
use esb_base::Text;
use esb_module_laws::ItemSort;
use esb_reader::peek;
use esb_statement_tests::{is_async, is_function};
use esb_token::{Goal, Kind, Token};

/// By what stands behind `import`.
fn import_sort(kind: Kind) -> ItemSort
    ensures { result ≡ marks.import_sort kind }
{
    match kind {
        Kind::LeftParenthesis | Kind::Dot => ItemSort::Statement,
        Kind::Text => ItemSort::ImportModule,
        _ => ItemSort::Import,
    }
}

/// By two tokens behind `export` `default`.
fn default_sort(text: &Text, third: Token, fourth: Token) -> ItemSort
    ensures { result ≡ marks.default_sort text.now third fourth }
{
    if is_class(third.kind) {
        return ItemSort::DefaultClass;
    }
    let is_async_function = is_async(text, third)
        && (is_function(fourth.kind) && !fourth.after_line);
    if is_function(third.kind) || is_async_function {
        return ItemSort::DefaultFunction;
    }
    ItemSort::DefaultValue
}

/// By three tokens behind `export`.
fn export_sort(text: &Text, kind: Kind, third: Token, fourth: Token) -> ItemSort
    ensures { result ≡ marks.export_sort text.now kind third fourth }
{
    match kind {
        Kind::Star => ItemSort::ExportAll,
        Kind::LeftBrace => ItemSort::ExportNames,
        Kind::Default => default_sort(text, third, fourth),
        _ => ItemSort::ExportDeclaration,
    }
}

/// What the item at a place of a text is (ECMA-262, 15.2).
#[tactic(auto, unfolding(esb_module_laws::specs::Marks::item_sort_of))]
pub(crate) fn item_sort_at(text: &Text, at: usize) -> ItemSort
    ensures { result ≡ marks.item_sort_at text.now at }
{
    let first = peek(text, Goal::Div, at);
    match first.kind {
        Kind::Import => import_sort(peek(text, Goal::Div, first.end).kind),
        Kind::Export => {
            let second = peek(text, Goal::Div, first.end);
            let third = peek(text, Goal::Div, second.end);
            let fourth = peek(text, Goal::Div, third.end);
            export_sort(text, second.kind, third, fourth)
        }
        _ => ItemSort::Statement,
    }
}
