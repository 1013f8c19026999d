//! The tokens of a module, in the order of its text.

ghost use Rattle.std.specs.Prelude.{◌≡◌, IfOk};
ghost use Rattle.std.specs.List.{flat_map};
ghost use Rattle.esb_tree.specs.Gathered.{Adds};
ghost use Rattle.esb_tree.specs.Modules as spec;
ghost use Rattle.esb_tree.specs.Trees.{completed};

use crate::gathered::{Gathered, begin, finish, put, put_end};
use crate::modules::{ImportClause, ModuleItem, NextSpecifier, Specifier, Specifiers, Tree};
use crate::tokens::{put_expression, put_statement};
use esb_base::{List, Memory};
use esb_token::Token;
use std::alloc::Global;

fn put_specifier(x: &Specifier, out: &mut Gathered)
    ensures { Adds (spec.tokens_of_specifier x.now) out.old out.new }
{
    match x {
        Specifier::NoSpecifier => {}
        Specifier::Same(name) => put(*name, out),
        Specifier::Renamed(name, word, other) => {
            put(*name, out);
            put(*word, out);
            put(*other, out);
        }
    }
}

fn put_next_specifier(x: &NextSpecifier, out: &mut Gathered)
    ensures { Adds (spec.tokens_of_next_specifier x.now) out.old out.new }
{
    put(x.comma, out);
    put_specifier(&x.specifier, out);
}

fn put_next_specifiers(items: &[NextSpecifier], out: &mut Gathered)
    ensures { Adds (flat_map spec.tokens_of_next_specifier items.now) out.old out.new }
{
    for item in items {
        put_next_specifier(item, out);
    }
}

fn put_specifiers(x: &Specifiers, out: &mut Gathered)
    ensures { Adds (spec.tokens_of_specifiers x.now) out.old out.new }
{
    put(x.begin, out);
    put_specifier(&x.first, out);
    put_next_specifiers(x.rest.as_slice(), out);
    put(x.ending, out);
}

fn put_import_clause(x: &ImportClause, out: &mut Gathered)
    ensures { Adds (spec.tokens_of_import_clause x.now) out.old out.new }
{
    match x {
        ImportClause::DefaultBinding(name) => put(*name, out),
        ImportClause::NameSpace(star, word, name) => {
            put(*star, out);
            put(*word, out);
            put(*name, out);
        }
        ImportClause::Names(list) => put_specifiers(list, out),
        ImportClause::DefaultAndNameSpace(default, comma, star, word, name) => {
            put(*default, out);
            put(*comma, out);
            put(*star, out);
            put(*word, out);
            put(*name, out);
        }
        ImportClause::DefaultAndNames(default, comma, list) => {
            put(*default, out);
            put(*comma, out);
            put_specifiers(list, out);
        }
    }
}

fn put_item(x: &ModuleItem, out: &mut Gathered)
    ensures { Adds (spec.tokens_of_item completed x.now) out.old out.new }
{
    match x {
        ModuleItem::Item(x) => put_statement(x, out),
        ModuleItem::ImportModule(word, text, end) => {
            put(*word, out);
            put(*text, out);
            put_end(*end, out);
        }
        ModuleItem::Import(word, clause, from, text, end) => {
            put(*word, out);
            put_import_clause(clause, out);
            put(*from, out);
            put(*text, out);
            put_end(*end, out);
        }
        ModuleItem::ExportAll(word, star, from, text, end) => {
            put(*word, out);
            put(*star, out);
            put(*from, out);
            put(*text, out);
            put_end(*end, out);
        }
        ModuleItem::ExportAllAs(word, star, as_word, name, from, text, end) => {
            put(*word, out);
            put(*star, out);
            put(*as_word, out);
            put(*name, out);
            put(*from, out);
            put(*text, out);
            put_end(*end, out);
        }
        ModuleItem::ExportFrom(word, list, from, text, end) => {
            put(*word, out);
            put_specifiers(list, out);
            put(*from, out);
            put(*text, out);
            put_end(*end, out);
        }
        ModuleItem::ExportNames(word, list, end) => {
            put(*word, out);
            put_specifiers(list, out);
            put_end(*end, out);
        }
        ModuleItem::ExportDeclaration(word, x) => {
            put(*word, out);
            put_statement(x, out);
        }
        ModuleItem::ExportDefaultDeclaration(word, default, x) => {
            put(*word, out);
            put(*default, out);
            put_statement(x, out);
        }
        ModuleItem::ExportDefault(word, default, x, end) => {
            put(*word, out);
            put(*default, out);
            put_expression(x, out);
            put_end(*end, out);
        }
    }
}

fn put_items(items: &[ModuleItem], out: &mut Gathered)
    ensures { Adds (flat_map (spec.tokens_of_item completed) items.now) out.old out.new }
{
    for item in items {
        put_item(item, out);
    }
}

/// The tokens of the tree, with one that no bytes spell for each semicolon that was left out.
pub fn yield_of(alloc: Global, tree: &Tree) -> Result<List<Token>, Memory>
    ensures { IfOk result (λ tokens. tokens ≡ spec.yield tree.now) }
{
    let mut out = begin(alloc);
    put_items(tree.items.as_slice(), &mut out);
    finish(out)
}

/// The tokens of an item of a module, with one that no bytes spell for each semicolon that was left out.
pub fn yield_of_item(alloc: Global, item: &ModuleItem) -> Result<List<Token>, Memory>
    ensures { IfOk result (λ tokens. tokens ≡ spec.tokens_of_item completed item.now) }
{
    let mut out = begin(alloc);
    put_item(item, &mut out);
    finish(out)
}
