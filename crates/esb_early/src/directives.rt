//! Directive prologues (ECMA-262, 14.1.1).

ghost use Rattle.std.specs.Prelude.{◌≡◌, map, nat_eq};
ghost use Rattle.std.specs.Cmp.Lexicographic.{pointwise};
ghost use Rattle.esb_early.specs.Directives as spec;
ghost use Rattle.esb_early_checks.specs.Findings.{Finds};
ghost use Rattle.esb_early.specs.Rules as rules;
ghost use Rattle.esb_early_checks.specs.Tests as tests;

use esb_early_checks::{Found, Rule, is_same, report_if};
use esb_names::{bytes_of, inside, is_text};
use esb_token::Token;
use esb_tree::{Block, Expression, Statement};

/// A Use Strict Directive behind parameters that aren't plain names.
const STRICT: Rule = 16;

/// The token that an expression is.
fn token_of(x: &Expression) -> Option<Token>
    ensures { result ≡ (rules.shape_of_expression x.now).token }
{
    match x {
        Expression::Primary(t) => Some(*t),
        Expression::MetaProperty(_, _, _) => None,
        Expression::ArrayLiteral(_) => None,
        Expression::ObjectLiteral(_) => None,
        Expression::Parenthesized(_) => None,
        Expression::TemplateLiteral(_) => None,
        Expression::FunctionExpression(_) => None,
        Expression::ClassExpression(_) => None,
        Expression::Member(_, _) => None,
        Expression::New(_, _, _) => None,
        Expression::NewPlain(_, _) => None,
        Expression::ImportCall(_, _, _, _) => None,
        Expression::PrefixUpdate(_, _) => None,
        Expression::PostfixUpdate(_, _) => None,
        Expression::Unary(_, _) => None,
        Expression::Await(_, _) => None,
        Expression::Binary(_, _) => None,
        Expression::Conditional(_, _, _, _, _) => None,
        Expression::Assignment(_, _, _) => None,
        Expression::Arrow(_, _, _) => None,
        Expression::AsyncArrow(_, _, _, _) => None,
        Expression::Yield(_) => None,
        Expression::YieldValue(_, _) => None,
        Expression::YieldEach(_, _, _) => None,
    }
}

/// The directive of a statement whose expression is this token alone.
fn directive_of(token: Option<Token>) -> Option<Token>
    ensures { result ≡ spec.directive_of token }
{
    match token {
        Some(t) => { if is_text(t.kind) { Some(t) } else { None } }
        None => None,
    }
}

/// The string of a directive.
fn directive(x: &Statement) -> Option<Token>
    ensures { result ≡ rules.directive_of_statement x.now }
{
    match x {
        Statement::BlockStatement(_) => None,
        Statement::Variables(_, _) => None,
        Statement::Empty(_) => None,
        Statement::ExpressionStatement(x, _) => directive_of(token_of(x)),
        Statement::If(_, _, _) => None,
        Statement::DoWhile(_, _, _, _, _, _, _) => None,
        Statement::While(_, _, _, _, _) => None,
        Statement::For(_, _, _, _, _, _, _, _, _) => None,
        Statement::ForEach(_, _, _, _, _, _, _, _) => None,
        Statement::Continue(_, _, _) => None,
        Statement::Break(_, _, _) => None,
        Statement::Return(_, _, _) => None,
        Statement::Switch(_, _, _, _, _, _, _) => None,
        Statement::Labelled(_, _, _) => None,
        Statement::Throw(_, _, _) => None,
        Statement::Try(_, _, _, _) => None,
        Statement::Debugger(_, _) => None,
        Statement::FunctionDeclaration(_) => None,
        Statement::ClassDeclaration(_) => None,
    }
}

/// Whether a directive is `use strict`.
fn is_use_strict(text: &[u8], t: Token) -> bool
    ensures { result ≡ spec.is_use_strict text.now t }
{
    is_same(inside(bytes_of(text, t)), b"use strict")
}

/// The first Use Strict Directive of a body.
fn use_strict(text: &[u8], body: &[Statement]) -> Option<Token>
    ensures { result ≡ spec.use_strict text.now (map (λ f. f.directive) (map rules.facts_of_statement body.now)) }
{
    for statement in body {
        match directive(statement) {
            Some(t) => {
                if is_use_strict(text, t) {
                    return Some(t);
                }
            }
            None => return None,
        }
    }
    None
}

fn check_directive(is_plain: bool, directive: Option<Token>, out: &mut Found)
    ensures { Finds (tests.strict_breaches is_plain directive) out.old out.new }
{
    match directive {
        Some(t) => report_if(!is_plain, t.start, STRICT, out),
        None => {}
    }
}

/// A Use Strict Directive in the body of a function whose parameters are plain names or not (14.1.2, 14.2.1, 14.3.1).
pub fn check_strict(text: &[u8], is_plain: bool, body: &Block, out: &mut Found)
    ensures { Finds (tests.strict_breaches is_plain (rules.use_strict_of_block body.now text.now)) out.old out.new }
{
    check_directive(is_plain, use_strict(text, body.body.as_slice()), out);
}
