//! The parsers that hold one another. Each reads what stands in its nodes within the levels below its own.

ghost use Rattle.std.specs.Prelude.{◌≤◌, true, false, IfOk};
ghost use Rattle.esb_reader.specs.Reader.{Gives};
ghost use Rattle.esb_statement_laws.specs.Items as statements;
ghost use Rattle.esb_statement_laws.specs.Within.{handed};
ghost use Rattle.esb_module_laws.specs.Module.{handed_items};
ghost use Rattle.esb_parse_laws.specs.Readers.{nameless, parts};
ghost use Rattle.esb_parse.specs.Knot as knot;

use esb_access::{Accesses, Parts as AccessParts};
use esb_base::{List, Text};
use esb_expressions::Operators;
use esb_functions::Functions;
use esb_grammar::{Context, Form};
use esb_inner::{Parser, Readers};
use esb_literals::Literals;
use esb_module_items::ItemReaders;
use esb_primaries::Primaries;
use esb_reader::{Fault, Node, Reading};
use esb_statements::{Parts, StatementReaders};
use esb_tree::{Block, Bracketed, Class, Expression, Function, Statement, Substitutions};
use esb_values::{Assignments, Blocks, Commas, Values};
use std::alloc::Global;
use std::marker::PhantomData;

/// Whose members say what the parsers give.
pub(crate) struct Knot;

impl Readers for Knot {
    ghost expression = { knot.expression };

    ghost items = { knot.items };

    ghost left = { knot.left };
}

impl AccessParts for Knot {
    ghost primary = { knot.primary };

    ghost arguments = { knot.arguments };

    ghost template = { knot.template };
}

impl Blocks for Knot {
    ghost block = { knot.block };
}

impl Values for Knot {
    ghost value = { knot.expression false };
}

impl StatementReaders for Knot {
    ghost handed = { λ text. handed text (parts text) };
}

impl ItemReaders for Knot {
    ghost handed = { λ text. handed_items text (parts text) (nameless text) };
}

// ---- expressions

/// AssignmentExpression (ECMA-262, 12.15).
#[cycle(knot)]
fn value(
    alloc: Global,
    text: &Text,
    context: Context,
    levels: usize,
    at: usize,
) -> Reading<Node<Expression>>
    ensures { Gives result (knot.expression false context text.now levels at) }
{
    let parser: Parser<Knot, _, _> = Parser {
        alloc,
        text,
        levels,
        expression,
        items,
        readers: PhantomData,
    };
    let accesses = Accesses {
        parser: &parser,
        primary,
        arguments,
        template,
    };
    let operators: Operators<Knot, _> = Operators {
        alloc,
        text,
        levels,
        left,
        readers: PhantomData,
    };
    let assignments = Assignments {
        accesses: &accesses,
        operators: &operators,
        block,
    };
    assignments.value(context, levels, at)
}

/// AssignmentExpression, or where the flag says so Expression (12.16).
#[cycle(knot)]
pub(crate) fn expression(
    alloc: Global,
    text: &Text,
    commas: bool,
    context: Context,
    levels: usize,
    at: usize,
) -> Reading<Node<Expression>>
    ensures value { Gives result (knot.expression commas context text.now levels at) }
    ensures room { IfOk result (λ p. p.0.levels ≤ levels) }
{
    if !commas {
        return value(alloc, text, context, levels, at);
    }
    let commas: Commas<Knot, _> = Commas {
        alloc,
        text,
        levels,
        value,
        readers: PhantomData,
    };
    commas.expression(context, levels, at)
}

/// LeftHandSideExpression (12.3).
#[cycle(knot)]
pub(crate) fn left(
    alloc: Global,
    text: &Text,
    context: Context,
    levels: usize,
    at: usize,
) -> Reading<Node<Expression>>
    ensures { Gives result (knot.left context text.now levels at) }
{
    let parser: Parser<Knot, _, _> = Parser {
        alloc,
        text,
        levels,
        expression,
        items,
        readers: PhantomData,
    };
    let accesses = Accesses {
        parser: &parser,
        primary,
        arguments,
        template,
    };
    accesses.left(context, true, levels, at)
}

/// PrimaryExpression (12.2).
#[cycle(knot)]
fn primary(
    alloc: Global,
    text: &Text,
    context: Context,
    levels: usize,
    at: usize,
) -> Reading<Node<Expression>>
    ensures { Gives result (knot.primary context text.now levels at) }
{
    let parser: Parser<Knot, _, _> = Parser {
        alloc,
        text,
        levels,
        expression,
        items,
        readers: PhantomData,
    };
    let primaries = Primaries {
        parser: &parser,
        head: left,
    };
    primaries.primary(context, levels, at)
}

/// Arguments (12.3.8).
#[cycle(knot)]
fn arguments(
    alloc: Global,
    text: &Text,
    context: Context,
    levels: usize,
    at: usize,
) -> Reading<Node<Bracketed>>
    ensures { Gives result (knot.arguments context text.now levels at) }
{
    let parser: Parser<Knot, _, _> = Parser {
        alloc,
        text,
        levels,
        expression,
        items,
        readers: PhantomData,
    };
    let literals = Literals { parser: &parser };
    literals.bracketed(Form::Arguments, context, levels, at)
}

/// A template with substitutions (12.2.9).
#[cycle(knot)]
fn template(
    alloc: Global,
    text: &Text,
    context: Context,
    levels: usize,
    at: usize,
) -> Reading<Node<Substitutions>>
    ensures { Gives result (knot.template context text.now levels at) }
{
    let parser: Parser<Knot, _, _> = Parser {
        alloc,
        text,
        levels,
        expression,
        items,
        readers: PhantomData,
    };
    let literals = Literals { parser: &parser };
    literals.template(context, levels, at)
}

/// FunctionBody in its braces (14.1).
#[cycle(knot)]
fn block(
    alloc: Global,
    text: &Text,
    context: Context,
    levels: usize,
    at: usize,
) -> Reading<Node<Block>>
    ensures { Gives result (knot.block context text.now levels at) }
{
    let parser: Parser<Knot, _, _> = Parser {
        alloc,
        text,
        levels,
        expression,
        items,
        readers: PhantomData,
    };
    let functions = Functions { parser: &parser };
    functions.block(context, levels, at)
}

// ---- what stands in a statement within a number of levels

/// AssignmentExpression or Expression.
#[cycle(knot)]
pub(crate) fn value_below(
    alloc: Global,
    text: &Text,
    commas: bool,
    context: Context,
    levels: usize,
    at: usize,
) -> Reading<Node<Expression>>
    ensures { Gives result ((handed text.now (parts text.now) levels).expression commas context at) }
{
    if levels == 0 {
        return Err(Fault::NoTree(at));
    }
    expression(alloc, text, commas, context, levels - 1, at)
}

/// BindingIdentifier or BindingPattern (13.3).
#[cycle(knot)]
fn target(
    alloc: Global,
    text: &Text,
    context: Context,
    levels: usize,
    at: usize,
) -> Reading<Node<Expression>>
    ensures { Gives result ((handed text.now (parts text.now) levels).target context at) }
{
    let parser: Parser<Knot, _, _> = Parser {
        alloc,
        text,
        levels,
        expression,
        items,
        readers: PhantomData,
    };
    let literals = Literals { parser: &parser };
    literals.target_below(context, levels, at)
}

/// The same with its value, which may be absent (13.3).
#[cycle(knot)]
fn binding(
    alloc: Global,
    text: &Text,
    context: Context,
    levels: usize,
    at: usize,
) -> Reading<Node<Expression>>
    ensures { Gives result ((handed text.now (parts text.now) levels).binding context at) }
{
    let parser: Parser<Knot, _, _> = Parser {
        alloc,
        text,
        levels,
        expression,
        items,
        readers: PhantomData,
    };
    let literals = Literals { parser: &parser };
    literals.loose(context, levels, at)
}

/// A declaration of a function, of a generator, or of their async kinds (14.1, 14.4, 14.5, 14.7).
#[cycle(knot)]
fn function(alloc: Global, text: &Text, levels: usize, at: usize) -> Reading<Node<Function>>
    ensures { Gives result ((handed text.now (parts text.now) levels).function at) }
{
    let parser: Parser<Knot, _, _> = Parser {
        alloc,
        text,
        levels,
        expression,
        items,
        readers: PhantomData,
    };
    let functions = Functions { parser: &parser };
    functions.function(true, levels, at)
}

/// ClassDeclaration (14.6).
#[cycle(knot)]
fn class(
    alloc: Global,
    text: &Text,
    context: Context,
    levels: usize,
    at: usize,
) -> Reading<Node<Class>>
    ensures { Gives result ((handed text.now (parts text.now) levels).class context at) }
{
    let parser: Parser<Knot, _, _> = Parser {
        alloc,
        text,
        levels,
        expression,
        items,
        readers: PhantomData,
    };
    let functions = Functions { parser: &parser };
    functions.class(&left, true, context, levels, at)
}

/// StatementList (13.2).
#[cycle(knot)]
fn items_below(
    alloc: Global,
    text: &Text,
    context: Context,
    levels: usize,
    at: usize,
) -> Reading<Node<List<Statement>>>
    ensures { Gives result ((handed text.now (parts text.now) levels).items context at) }
{
    if levels == 0 {
        return Err(Fault::NoTree(at));
    }
    items(alloc, text, context, levels - 1, at)
}

/// Statement (13).
#[cycle(knot)]
fn statement_below(
    alloc: Global,
    text: &Text,
    context: Context,
    levels: usize,
    at: usize,
) -> Reading<Node<Statement>>
    ensures { Gives result ((handed text.now (parts text.now) levels).statement context at) }
{
    if levels == 0 {
        return Err(Fault::NoTree(at));
    }
    statement(alloc, text, context, false, levels - 1, at)
}

// ---- statements

/// StatementList (13.2), up to what ends one.
#[cycle(knot)]
#[tactic(auto, unfolding(esb_statements::specs::Reads::ReadsExpressions, esb_statements::specs::Reads::ReadsTargets, esb_statements::specs::Reads::ReadsBindings, esb_statements::specs::Reads::ReadsFunctions, esb_statements::specs::Reads::ReadsClasses, esb_statements::specs::Reads::ReadsItems, esb_statements::specs::Reads::ReadsStatements))]
pub(crate) fn items(
    alloc: Global,
    text: &Text,
    context: Context,
    levels: usize,
    at: usize,
) -> Reading<Node<List<Statement>>>
    ensures value { Gives result (knot.items context text.now levels at) }
    ensures room { IfOk result (λ p. p.0.levels ≤ levels) }
{
    let parts: Parts<Knot, _, _, _, _, _, _, _> = Parts {
        alloc,
        text,
        levels,
        expression: value_below,
        target,
        binding,
        function,
        class,
        items: items_below,
        statement: statement_below,
        readers: PhantomData,
    };
    parts.items(context, at)
}

/// Statement (13), or where the flag says so StatementListItem.
#[cycle(knot)]
#[tactic(auto, unfolding(esb_statements::specs::Reads::ReadsExpressions, esb_statements::specs::Reads::ReadsTargets, esb_statements::specs::Reads::ReadsBindings, esb_statements::specs::Reads::ReadsFunctions, esb_statements::specs::Reads::ReadsClasses, esb_statements::specs::Reads::ReadsItems, esb_statements::specs::Reads::ReadsStatements))]
pub(crate) fn statement(
    alloc: Global,
    text: &Text,
    context: Context,
    declarations: bool,
    levels: usize,
    at: usize,
) -> Reading<Node<Statement>>
    ensures { Gives result (statements.statement text.now context levels (handed text.now (parts text.now) levels) declarations at) }
{
    let parts: Parts<Knot, _, _, _, _, _, _, _> = Parts {
        alloc,
        text,
        levels,
        expression: value_below,
        target,
        binding,
        function,
        class,
        items: items_below,
        statement: statement_below,
        readers: PhantomData,
    };
    parts.statement(context, declarations, at)
}
