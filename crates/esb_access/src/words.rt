//! Words that mean something in a place.

ghost use Rattle.std.specs.Prelude.{◌≡◌, ◌-◌, take, drop};
ghost use Rattle.esb_grammar.specs.Words as words;

use esb_base::Text;
use esb_token::{Kind, Token};

/// The bytes from a place up to another, as far as there are any.
fn part(bytes: &[u8], start: usize, end: usize) -> &[u8]
    ensures { result.now ≡ take (end - start) (drop start bytes.now) }
{
    let length = bytes.len();
    if start >= length || end <= start {
        return &bytes[length..];
    }
    if end >= length {
        return &bytes[start..];
    }
    &bytes[start..end]
}

/// Whether a token is a name that is written so, without escapes.
#[tactic(auto, unfolding(esb_grammar::specs::Words::is_word))]
pub fn is_word(text: &Text, word: &[u8], token: Token) -> bool
    ensures { result ≡ words.is_word text.now word.now token }
{
    matches!(token.kind, Kind::Name) && part(text.as_bytes(), token.start, token.end) == word
}
