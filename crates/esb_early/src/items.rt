//! The items of a module, and the first breach of the whole.

ghost use Rattle.std.specs.Prelude.{◌≡◌, IfOk, None};
ghost use Rattle.esb_early_checks.specs.Findings.{Finds, first_of};
ghost use Rattle.esb_early.specs.Items as spec;

use crate::walk::{walk_expression, walk_statement};
use esb_base::{Memory, Text};
use esb_early_checks::{
    Breach, Found, Role, begin, check_bound, check_reference, finish, of_module,
};
use esb_token::Token;
use esb_tree::{ImportClause, ModuleItem, NextSpecifier, Specifier, Specifiers, Tree};
use std::alloc::Global;

/// The name that an import binds, which is the other one, or that an export without a module uses (ECMA-262, 15.2.2, 15.2.3.1).
fn check_name(text: &[u8], is_import: bool, name: Token, other: Token, out: &mut Found)
    ensures { Finds (spec.name_breaches text.now is_import name other) out.old out.new }
{
    if is_import {
        check_bound(text, other, out);
    } else {
        check_reference(text, name, out);
    }
}

fn walk_specifier(text: &[u8], is_import: bool, x: &Specifier, out: &mut Found)
    ensures { Finds (spec.breaches_of_specifier text.now is_import x.now) out.old out.new }
{
    match x {
        Specifier::NoSpecifier => {}
        Specifier::Same(name) => check_name(text, is_import, *name, *name, out),
        Specifier::Renamed(name, _, other) => check_name(text, is_import, *name, *other, out),
    }
}

fn walk_next_specifiers(text: &[u8], is_import: bool, items: &[NextSpecifier], out: &mut Found)
    ensures { Finds (spec.nexts_breaches text.now is_import items.now) out.old out.new }
{
    for item in items {
        walk_specifier(text, is_import, &item.specifier, out);
    }
}

fn walk_specifiers(text: &[u8], is_import: bool, x: &Specifiers, out: &mut Found)
    ensures { Finds (spec.breaches_of_specifiers text.now is_import x.now) out.old out.new }
{
    walk_specifier(text, is_import, &x.first, out);
    walk_next_specifiers(text, is_import, x.rest.as_slice(), out);
}

fn walk_import_clause(text: &[u8], x: &ImportClause, out: &mut Found)
    ensures { Finds (spec.breaches_of_import_clause text.now x.now) out.old out.new }
{
    match x {
        ImportClause::DefaultBinding(name) => check_bound(text, *name, out),
        ImportClause::NameSpace(_, _, name) => check_bound(text, *name, out),
        ImportClause::Names(list) => walk_specifiers(text, true, list, out),
        ImportClause::DefaultAndNameSpace(default, _, _, _, name) => {
            check_bound(text, *default, out);
            check_bound(text, *name, out);
        }
        ImportClause::DefaultAndNames(default, _, list) => {
            check_bound(text, *default, out);
            walk_specifiers(text, true, list, out);
        }
    }
}

fn walk_item(text: &[u8], x: &ModuleItem, out: &mut Found)
    ensures { Finds (spec.breaches_of_item text.now x.now) out.old out.new }
{
    match x {
        ModuleItem::Item(x) => walk_statement(text, x, of_module(), out),
        ModuleItem::ImportModule(_, _, _) => {}
        ModuleItem::Import(_, clause, _, _, _) => walk_import_clause(text, clause, out),
        ModuleItem::ExportAll(_, _, _, _, _) => {}
        ModuleItem::ExportAllAs(_, _, _, _, _, _, _) => {}
        ModuleItem::ExportFrom(_, _, _, _, _) => {}
        ModuleItem::ExportNames(_, list, _) => walk_specifiers(text, false, list, out),
        ModuleItem::ExportDeclaration(_, x) => walk_statement(text, x, of_module(), out),
        ModuleItem::ExportDefaultDeclaration(_, _, x) => walk_statement(text, x, of_module(), out),
        ModuleItem::ExportDefault(_, _, x, _) => {
            walk_expression(text, x, of_module(), Role::Value, out);
        }
    }
}

fn walk_items(text: &[u8], items: &[ModuleItem], out: &mut Found)
    ensures { Finds (spec.breaches_of_items text.now items.now) out.old out.new }
{
    for item in items {
        walk_item(text, item, out);
    }
}

/// The first breach of an early rule in the tree of a module whose text these contents are: the one at the earliest place, and of
/// those at one place the one of the rule with the lowest number. `None` says that no rule is broken. The rules are those that the
/// tree decides alone: all but 1, 5 and 6.
pub fn first_breach(alloc: Global, contents: &Text, tree: &Tree) -> Result<Option<Breach>, Memory>
    ensures { IfOk result (λ first. first ≡ first_of None (spec.breaches contents.now tree.now)) }
{
    let mut out = begin(alloc);
    walk_items(contents.as_bytes(), tree.items.as_slice(), &mut out);
    finish(out)
}
