//! Properties' names that mean something.

ghost use Rattle.std.specs.Prelude.{◌≡◌};
ghost use Rattle.esb_names.specs.Keys as spec;

use crate::names::is_spelled;
use crate::points::after;
use crate::strings::is_string_of;
use esb_token::{Kind, Token};

/// Whether a token is a string.
pub fn is_text(kind: Kind) -> bool
    ensures { result ≡ spec.is_text kind }
{
    matches!(kind, Kind::Text)
}

/// What stands in the quotes of a string.
pub fn inside(text: &[u8]) -> &[u8]
    ensures { result.now ≡ spec.inside text.now }
{
    let rest = after(text, text.len().min(1));
    &rest[..text.len().saturating_sub(2)]
}

/// Whether a key is this name, as a name or as a string.
fn is_key(text: &[u8], word: &[u8], t: Token) -> bool
    ensures { result ≡ spec.is_key text.now word.now t }
{
    if is_text(t.kind) {
        is_string_of(after(text, t.start.min(text.len())), word)
    } else {
        is_spelled(text, word, t)
    }
}

/// Whether a key is `constructor`; a computed one is not.
pub fn is_constructor(text: &[u8], key: Option<Token>) -> bool
    ensures { result ≡ spec.is_constructor text.now key }
{
    match key {
        Some(t) => is_key(text, b"constructor", t),
        None => false,
    }
}

/// Whether a key is `__proto__`; a computed one is not.
pub fn is_proto_in(text: &[u8], key: Option<Token>) -> bool
    ensures { result ≡ spec.is_proto_in text.now key }
{
    match key {
        Some(t) => is_key(text, b"__proto__", t),
        None => false,
    }
}
