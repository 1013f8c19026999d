//! The early rules that are tests of one node.

ghost use Rattle.std.specs.Prelude.{◌≡◌, nat_eq};
ghost use Rattle.std.specs.Cmp.Lexicographic.{pointwise};
ghost use Rattle.esb_grammar.specs.Kinds as kinds;
ghost use Rattle.esb_early_checks.specs.Findings.{Finds};
ghost use Rattle.esb_early_checks.specs.Tests as spec;

use crate::breach::Rule;
use crate::found::{Found, report_if};
use crate::roles::{
    ListRole, Place, Role, is_assigned, is_pattern, is_simple, is_target, may_have_default,
};
use crate::setting::Setting;
use crate::shapes::{BracketedShape, LinksShape};
use esb_grammar::is_binding;
use esb_names::{bytes_of, has_escape, is_constructor, is_proto_in, is_spelled};
use esb_token::{Kind, Token};

/// `return` outside a function.
const RETURN: Rule = 4;

/// What is assigned to is no target.
const TARGET: Rule = 7;

/// `eval` or `arguments` is assigned to or bound.
const RESTRICTED: Rule = 8;

/// `delete` of a name.
const DELETE: Rule = 10;

/// A second constructor, or one that is more than a method.
const CONSTRUCTOR: Rule = 11;

/// A second `__proto__: v`.
const PROTO: Rule = 12;

/// `super` or `new.target` where neither may stand.
const SUPER: Rule = 13;

/// A reserved word as a name.
const RESERVED: Rule = 14;

/// `yield` or `await` in parameters.
const OPERATOR: Rule = 15;

/// A default in an object that is no pattern.
const DEFAULT: Rule = 17;

/// The parameters of a getter or a setter.
const ACCESSOR: Rule = 18;

fn is_word_to_d(text: &[u8], t: Token) -> bool
    ensures { result ≡ spec.is_word_to_d text.now t }
{
    is_spelled(text, b"await", t)
        || is_spelled(text, b"break", t)
        || is_spelled(text, b"case", t)
        || is_spelled(text, b"catch", t)
        || is_spelled(text, b"class", t)
        || is_spelled(text, b"const", t)
        || is_spelled(text, b"continue", t)
        || is_spelled(text, b"debugger", t)
        || is_spelled(text, b"default", t)
        || is_spelled(text, b"delete", t)
        || is_spelled(text, b"do", t)
}

fn is_word_to_h(text: &[u8], t: Token) -> bool
    ensures { result ≡ spec.is_word_to_h text.now t }
{
    is_spelled(text, b"else", t)
        || is_spelled(text, b"enum", t)
        || is_spelled(text, b"export", t)
        || is_spelled(text, b"extends", t)
        || is_spelled(text, b"false", t)
        || is_spelled(text, b"finally", t)
        || is_spelled(text, b"for", t)
        || is_spelled(text, b"function", t)
}

fn is_word_to_n(text: &[u8], t: Token) -> bool
    ensures { result ≡ spec.is_word_to_n text.now t }
{
    is_spelled(text, b"if", t)
        || is_spelled(text, b"implements", t)
        || is_spelled(text, b"import", t)
        || is_spelled(text, b"in", t)
        || is_spelled(text, b"instanceof", t)
        || is_spelled(text, b"interface", t)
        || is_spelled(text, b"let", t)
        || is_spelled(text, b"new", t)
        || is_spelled(text, b"null", t)
}

fn is_word_to_s(text: &[u8], t: Token) -> bool
    ensures { result ≡ spec.is_word_to_s text.now t }
{
    is_spelled(text, b"package", t)
        || is_spelled(text, b"private", t)
        || is_spelled(text, b"protected", t)
        || is_spelled(text, b"public", t)
        || is_spelled(text, b"return", t)
        || is_spelled(text, b"static", t)
        || is_spelled(text, b"super", t)
        || is_spelled(text, b"switch", t)
}

fn is_word_to_z(text: &[u8], t: Token) -> bool
    ensures { result ≡ spec.is_word_to_z text.now t }
{
    is_spelled(text, b"this", t)
        || is_spelled(text, b"throw", t)
        || is_spelled(text, b"true", t)
        || is_spelled(text, b"try", t)
        || is_spelled(text, b"typeof", t)
        || is_spelled(text, b"var", t)
        || is_spelled(text, b"void", t)
        || is_spelled(text, b"while", t)
        || is_spelled(text, b"with", t)
        || is_spelled(text, b"yield", t)
}

fn is_reserved_word(text: &[u8], t: Token) -> bool
    ensures { result ≡ spec.is_reserved_word text.now t }
{
    is_word_to_d(text, t)
        || is_word_to_h(text, t)
        || is_word_to_n(text, t)
        || is_word_to_s(text, t)
        || is_word_to_z(text, t)
}

fn is_name(kind: Kind) -> bool
    ensures { result ≡ kinds.is_name kind }
{
    matches!(kind, Kind::Name)
}

/// Whether a token that stands for a name is a reserved word, as it is or with escapes.
fn is_reserved(text: &[u8], t: Token) -> bool
    ensures { result ≡ spec.is_reserved text.now t }
{
    !is_name(t.kind) || has_escape(bytes_of(text, t)) && is_reserved_word(text, t)
}

fn is_eval_or_arguments(text: &[u8], t: Token) -> bool
    ensures { result ≡ spec.is_eval_or_arguments text.now t }
{
    is_spelled(text, b"eval", t) || is_spelled(text, b"arguments", t)
}

/// A name that is used, or a label (ECMA-262, 12.1.1).
pub fn check_reference(text: &[u8], t: Token, out: &mut Found)
    ensures { Finds (spec.reference_breaches text.now t) out.old out.new }
{
    report_if(is_reserved(text, t), t.start, RESERVED, out);
}

/// A name that is bound or assigned to (12.1.1, 12.1.3).
pub fn check_bound(text: &[u8], t: Token, out: &mut Found)
    ensures { Finds (spec.bound_breaches text.now t) out.old out.new }
{
    check_reference(text, t, out);
    report_if(is_eval_or_arguments(text, t), t.start, RESTRICTED, out);
}

/// The name of a function or a class, which may be absent.
pub fn check_declared(text: &[u8], name: Option<Token>, out: &mut Found)
    ensures { Finds (spec.declared_breaches text.now name) out.old out.new }
{
    match name {
        Some(name) => check_bound(text, name, out),
        None => {}
    }
}

/// What is no name, no member and no pattern (12.4.1, 12.15.1, 12.15.5.1, 13.7.5.1).
pub fn check_value(role: Role, start: usize, out: &mut Found)
    ensures { Finds (spec.value_breaches role start) out.old out.new }
{
    report_if(is_target(role), start, TARGET, out);
}

/// An array or an object, where it may not be a pattern.
pub fn check_literal(role: Role, start: usize, out: &mut Found)
    ensures { Finds (spec.literal_breaches role start) out.old out.new }
{
    report_if(is_simple(role), start, TARGET, out);
}

/// An expression of one token.
pub fn check_primary(text: &[u8], t: Token, role: Role, out: &mut Found)
    ensures { Finds (spec.primary_breaches text.now t role) out.old out.new }
{
    if is_binding(t.kind) {
        if is_target(role) {
            check_bound(text, t, out);
        } else {
            check_reference(text, t, out);
        }
    } else {
        check_value(role, t.start, out);
    }
}

/// A list in parentheses, of which a single name or member may be assigned to.
pub fn check_parenthesized(text: &[u8], role: Role, list: BracketedShape, out: &mut Found)
    ensures { Finds (spec.parenthesized_breaches text.now role list) out.old out.new }
{
    match list.name {
        Some(name) => {
            let broken = is_assigned(role) && is_eval_or_arguments(text, name);
            report_if(broken, name.start, RESTRICTED, out);
        }
        None => report_if(
            is_assigned(role) && !list.is_simple,
            list.start,
            TARGET,
            out,
        ),
    }
}

/// A chain of members and calls (12.3.1.6).
pub fn check_member(role: Role, links: LinksShape, start: usize, out: &mut Found)
    ensures { Finds (spec.member_breaches role links start) out.old out.new }
{
    let may_be_assigned = links.ends_with_access && !links.has_optional;
    report_if(is_assigned(role) && !may_be_assigned, start, TARGET, out);
}

fn is_assign(kind: Kind) -> bool
    ensures { result ≡ kinds.is_assign kind }
{
    matches!(kind, Kind::Assign)
}

/// An assignment as what is assigned to: in a pattern it is a target and its default.
pub fn check_assignment(role: Role, operator: Token, start: usize, out: &mut Found)
    ensures { Finds (spec.assignment_breaches role operator start) out.old out.new }
{
    let is_default = may_have_default(role) && is_assign(operator.kind);
    report_if(is_target(role) && !is_default, start, TARGET, out);
}

/// `...` in a pattern, which is its last element (12.15.5).
pub fn check_spread(place: Place, out: &mut Found)
    ensures { Finds (spec.spread_breaches place) out.old out.new }
{
    report_if(
        is_pattern(place.role) && !place.is_last,
        place.begin,
        TARGET,
        out,
    );
}

/// A method, which no pattern has.
pub fn check_method_property(place: Place, out: &mut Found)
    ensures { Finds (spec.method_property_breaches place) out.old out.new }
{
    report_if(is_pattern(place.role), place.begin, TARGET, out);
}

/// A property that is one name.
pub fn check_shorthand(text: &[u8], name: Token, place: Place, out: &mut Found)
    ensures { Finds (spec.shorthand_breaches text.now name place) out.old out.new }
{
    if is_pattern(place.role) {
        check_bound(text, name, out);
    } else {
        check_reference(text, name, out);
    }
}

/// A name, `=` and a default, which no object has (12.2.6.1).
pub fn check_initialized(text: &[u8], name: Token, sign: Token, place: Place, out: &mut Found)
    ensures { Finds (spec.initialized_breaches text.now name sign place) out.old out.new }
{
    if is_pattern(place.role) {
        check_bound(text, name, out);
    } else {
        check_reference(text, name, out);
        report_if(true, sign.start, DEFAULT, out);
    }
}

fn is_super(kind: Kind) -> bool
    ensures { result ≡ spec.is_super kind }
{
    matches!(kind, Kind::Super)
}

fn is_new(kind: Kind) -> bool
    ensures { result ≡ spec.is_new kind }
{
    matches!(kind, Kind::New)
}

fn is_delete(kind: Kind) -> bool
    ensures { result ≡ spec.is_delete kind }
{
    matches!(kind, Kind::Delete)
}

/// `return` (13.10, 15.2.1.1).
pub fn check_return(word: Token, setting: Setting, out: &mut Found)
    ensures { Finds (spec.return_breaches word setting) out.old out.new }
{
    report_if(!setting.in_function, word.start, RETURN, out);
}

/// `super` before a member or a call (14.1.2, 14.3.1, 14.6.1, 15.2.1.1).
pub fn check_super(token: Option<Token>, is_call: bool, setting: Setting, out: &mut Found)
    ensures { Finds (spec.super_breaches token is_call setting) out.old out.new }
{
    match token {
        Some(t) => {
            let may_stand = if is_call {
                setting.has_super_call
            } else {
                setting.has_super
            };
            report_if(is_super(t.kind) && !may_stand, t.start, SUPER, out);
        }
        None => {}
    }
}

/// `new.target` (15.2.1.1).
pub fn check_meta(word: Token, setting: Setting, out: &mut Found)
    ensures { Finds (spec.meta_breaches word setting) out.old out.new }
{
    report_if(
        is_new(word.kind) && !setting.has_new_target,
        word.start,
        SUPER,
        out,
    );
}

/// `delete` of a name (12.5.3.1).
pub fn check_delete(operator: Token, name: Option<Token>, out: &mut Found)
    ensures { Finds (spec.delete_breaches operator name) out.old out.new }
{
    report_if(
        is_delete(operator.kind) && name.is_some(),
        operator.start,
        DELETE,
        out,
    );
}

/// `yield` and `await` as operators (14.2.1, 14.4.1, 14.5.1, 14.7.1, 14.8.1).
pub fn check_operator(word: Token, setting: Setting, out: &mut Found)
    ensures { Finds (spec.operator_breaches word setting) out.old out.new }
{
    report_if(setting.in_parameters, word.start, OPERATOR, out);
}

fn start_of_key(key: Option<Token>) -> usize
    ensures { result ≡ spec.start_of_key key }
{
    match key {
        Some(key) => key.start,
        None => 0,
    }
}

/// A constructor that is a getter, a setter, a generator or async (14.6.1).
pub fn check_constructor(
    text: &[u8],
    is_prototype: bool,
    key: Option<Token>,
    word: Option<Token>,
    star: Option<Token>,
    out: &mut Found,
)
    ensures { Finds (spec.constructor_breaches text.now is_prototype key word star) out.old out.new }
{
    let is_special = word.is_some() || star.is_some();
    report_if(
        is_prototype && is_constructor(text, key) && is_special,
        start_of_key(key),
        CONSTRUCTOR,
        out,
    );
}

/// A second constructor of a class (14.6.1).
pub fn check_second_constructor(
    text: &[u8],
    has_constructor: bool,
    key: Option<Token>,
    out: &mut Found,
)
    ensures { Finds (spec.second_constructor text.now has_constructor key) out.old out.new }
{
    report_if(
        has_constructor && is_constructor(text, key),
        start_of_key(key),
        CONSTRUCTOR,
        out,
    );
}

/// A second `__proto__: v` of an object that is no pattern (B.3.1).
pub fn check_second_proto(
    text: &[u8],
    role: ListRole,
    has_proto: bool,
    key: Option<Token>,
    out: &mut Found,
)
    ensures { Finds (spec.second_proto text.now role has_proto key) out.old out.new }
{
    let is_second = has_proto && is_proto_in(text, key);
    report_if(
        !is_pattern(role) && is_second,
        start_of_key(key),
        PROTO,
        out,
    );
}

/// Whether two runs of bytes are the same.
pub fn is_same(a: &[u8], b: &[u8]) -> bool
    ensures { result ≡ pointwise nat_eq a.now b.now }
{
    a == b
}

/// Whether a token is a name that is written so, without escapes.
fn is_exactly(text: &[u8], word: &[u8], t: Token) -> bool
    ensures { result ≡ spec.is_exactly text.now word.now t }
{
    is_name(t.kind) && is_same(bytes_of(text, t), word)
}

fn check_getter(text: &[u8], word: Token, start: usize, has_none: bool, out: &mut Found)
    ensures { Finds (spec.getter_breaches text.now word start has_none) out.old out.new }
{
    report_if(
        is_exactly(text, b"get", word) && !has_none,
        start,
        ACCESSOR,
        out,
    );
}

fn check_setter(text: &[u8], word: Token, start: usize, has_one: bool, out: &mut Found)
    ensures { Finds (spec.setter_breaches text.now word start has_one) out.old out.new }
{
    report_if(
        is_exactly(text, b"set", word) && !has_one,
        start,
        ACCESSOR,
        out,
    );
}

/// A getter with parameters, and a setter without exactly one (14.3).
pub fn check_accessor(
    text: &[u8],
    word: Option<Token>,
    start: usize,
    has_none: bool,
    has_one: bool,
    out: &mut Found,
)
    ensures { Finds (spec.accessor_breaches text.now word start has_none has_one) out.old out.new }
{
    match word {
        Some(word) => {
            check_getter(text, word, start, has_none, out);
            check_setter(text, word, start, has_one, out);
        }
        None => {}
    }
}
