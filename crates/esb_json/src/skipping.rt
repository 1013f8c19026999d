ghost use Rattle.std.specs.Prelude.{◌≡◌};
ghost use Rattle.std.specs.Char.{is_ascii_digit};
ghost use Rattle.esb_json.specs.Grammar.{is_space};
ghost use Rattle.esb_json.specs.Reading.{Reads, skip, past, past_word};

use crate::stop::Stop;

/// The bytes after the white space at their front.
pub(crate) fn skip_space(mut bytes: &[u8]) -> &[u8]
    ensures { result.now ≡ skip is_space bytes.entry.now }
{
    while let [b' ' | b'\t' | b'\n' | b'\r', rest @ ..] = bytes {
        bytes = rest;
    }
    bytes
}

/// The bytes after the digits at their front.
pub(crate) fn skip_digits(mut bytes: &[u8]) -> &[u8]
    ensures { result.now ≡ skip is_ascii_digit bytes.entry.now }
{
    while let [b'0'..=b'9', rest @ ..] = bytes {
        bytes = rest;
    }
    bytes
}

#[tactic(auto, unfolding(crate::specs::Reading::past))]
pub(crate) fn past(byte: u8, bytes: &[u8]) -> Result<&[u8], Stop>
    ensures { Reads (λ rest. rest.now) result (past byte bytes.now) }
{
    match bytes {
        [first, rest @ ..] if *first == byte => Ok(rest),
        _ => Err(Stop::Unread(bytes.len())),
    }
}

#[tactic(auto, unfolding(crate::specs::Reading::past_word))]
pub(crate) fn past_word<'a>(word: &[u8], bytes: &'a [u8]) -> Result<&'a [u8], Stop>
    ensures { Reads (λ rest. rest.now) result (past_word word.now bytes.now) }
{
    match bytes.strip_prefix(word) {
        Some(rest) => Ok(rest),
        None => Err(Stop::Unread(bytes.len())),
    }
}
