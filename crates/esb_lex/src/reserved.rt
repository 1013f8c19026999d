//! Reserved words.

ghost use Rattle.std.specs.Prelude.{◌≡◌, [], ◌∷◌, nat_eq};
ghost use Rattle.std.specs.Cmp.Lexicographic.{pointwise};
ghost use Rattle.esb_token.specs.Names as spec;

use crate::bytes::byte_at;
use esb_token::Kind;

fn spells(word: &[u8], spelled: &[u8]) -> bool
    ensures { result ≡ pointwise nat_eq word.now spelled.now }
{
    word == spelled
}

fn only(word: &[u8], spelled: &[u8], kind: Kind) -> Option<Kind>
    ensures { result ≡ spec.word_in ((spelled.now, kind) ∷ []) word.now }
{
    if spells(word, spelled) {
        Some(kind)
    } else {
        None
    }
}

fn from_c(word: &[u8]) -> Option<Kind>
    ensures { result ≡ spec.word_in (spec.words_from 99) word.now }
{
    if spells(word, b"case") {
        Some(Kind::Case)
    } else if spells(word, b"catch") {
        Some(Kind::Catch)
    } else if spells(word, b"class") {
        Some(Kind::Class)
    } else if spells(word, b"const") {
        Some(Kind::Const)
    } else if spells(word, b"continue") {
        Some(Kind::Continue)
    } else {
        None
    }
}

fn from_d(word: &[u8]) -> Option<Kind>
    ensures { result ≡ spec.word_in (spec.words_from 100) word.now }
{
    if spells(word, b"debugger") {
        Some(Kind::Debugger)
    } else if spells(word, b"default") {
        Some(Kind::Default)
    } else if spells(word, b"delete") {
        Some(Kind::Delete)
    } else if spells(word, b"do") {
        Some(Kind::Do)
    } else {
        None
    }
}

fn from_e(word: &[u8]) -> Option<Kind>
    ensures { result ≡ spec.word_in (spec.words_from 101) word.now }
{
    if spells(word, b"else") {
        Some(Kind::Else)
    } else if spells(word, b"enum") {
        Some(Kind::Enum)
    } else if spells(word, b"export") {
        Some(Kind::Export)
    } else if spells(word, b"extends") {
        Some(Kind::Extends)
    } else {
        None
    }
}

fn from_f(word: &[u8]) -> Option<Kind>
    ensures { result ≡ spec.word_in (spec.words_from 102) word.now }
{
    if spells(word, b"false") {
        Some(Kind::False)
    } else if spells(word, b"finally") {
        Some(Kind::Finally)
    } else if spells(word, b"for") {
        Some(Kind::For)
    } else if spells(word, b"function") {
        Some(Kind::Function)
    } else {
        None
    }
}

fn from_i(word: &[u8]) -> Option<Kind>
    ensures { result ≡ spec.word_in (spec.words_from 105) word.now }
{
    if spells(word, b"if") {
        Some(Kind::If)
    } else if spells(word, b"implements") {
        Some(Kind::Implements)
    } else if spells(word, b"import") {
        Some(Kind::Import)
    } else if spells(word, b"in") {
        Some(Kind::In)
    } else if spells(word, b"instanceof") {
        Some(Kind::Instanceof)
    } else if spells(word, b"interface") {
        Some(Kind::Interface)
    } else {
        None
    }
}

fn from_n(word: &[u8]) -> Option<Kind>
    ensures { result ≡ spec.word_in (spec.words_from 110) word.now }
{
    if spells(word, b"new") {
        Some(Kind::New)
    } else if spells(word, b"null") {
        Some(Kind::Null)
    } else {
        None
    }
}

fn from_p(word: &[u8]) -> Option<Kind>
    ensures { result ≡ spec.word_in (spec.words_from 112) word.now }
{
    if spells(word, b"package") {
        Some(Kind::Package)
    } else if spells(word, b"private") {
        Some(Kind::Private)
    } else if spells(word, b"protected") {
        Some(Kind::Protected)
    } else if spells(word, b"public") {
        Some(Kind::Public)
    } else {
        None
    }
}

fn from_s(word: &[u8]) -> Option<Kind>
    ensures { result ≡ spec.word_in (spec.words_from 115) word.now }
{
    if spells(word, b"static") {
        Some(Kind::Static)
    } else if spells(word, b"super") {
        Some(Kind::Super)
    } else if spells(word, b"switch") {
        Some(Kind::Switch)
    } else {
        None
    }
}

fn from_t(word: &[u8]) -> Option<Kind>
    ensures { result ≡ spec.word_in (spec.words_from 116) word.now }
{
    if spells(word, b"this") {
        Some(Kind::This)
    } else if spells(word, b"throw") {
        Some(Kind::Throw)
    } else if spells(word, b"true") {
        Some(Kind::True)
    } else if spells(word, b"try") {
        Some(Kind::Try)
    } else if spells(word, b"typeof") {
        Some(Kind::Typeof)
    } else {
        None
    }
}

fn from_v(word: &[u8]) -> Option<Kind>
    ensures { result ≡ spec.word_in (spec.words_from 118) word.now }
{
    if spells(word, b"var") {
        Some(Kind::Var)
    } else if spells(word, b"void") {
        Some(Kind::Void)
    } else {
        None
    }
}

fn from_w(word: &[u8]) -> Option<Kind>
    ensures { result ≡ spec.word_in (spec.words_from 119) word.now }
{
    if spells(word, b"while") {
        Some(Kind::While)
    } else if spells(word, b"with") {
        Some(Kind::With)
    } else {
        None
    }
}

/// The kind of a reserved word.
#[tactic(auto, unfolding(esb_token::specs::Names::reserved))]
pub fn reserved(word: &[u8]) -> Option<Kind>
    ensures { result ≡ spec.reserved word.now }
{
    match byte_at(word, 0) {
        b'a' => only(word, b"await", Kind::Await),
        b'b' => only(word, b"break", Kind::Break),
        b'c' => from_c(word),
        b'd' => from_d(word),
        b'e' => from_e(word),
        b'f' => from_f(word),
        b'i' => from_i(word),
        b'l' => only(word, b"let", Kind::Let),
        b'n' => from_n(word),
        b'p' => from_p(word),
        b'r' => only(word, b"return", Kind::Return),
        b's' => from_s(word),
        b't' => from_t(word),
        b'v' => from_v(word),
        b'w' => from_w(word),
        b'y' => only(word, b"yield", Kind::Yield),
        _ => None,
    }
}
