ghost use Rattle.std.specs.Prelude.{◌≡◌};
ghost use Rattle.esb_json.specs.Reading.{Reads, past_minus, past_digits, past_integer, past_fraction, past_sign, past_exponent, past_number, number_at};

use crate::skipping::skip_digits;
use crate::stop::Stop;
use esb_base::Text;
use std::alloc::Global;

#[tactic(auto, unfolding(crate::specs::Reading::past_minus))]
fn past_minus(bytes: &[u8]) -> &[u8]
    ensures { result.now ≡ past_minus bytes.now }
{
    match bytes {
        [b'-', rest @ ..] => rest,
        _ => bytes,
    }
}

#[tactic(auto, unfolding(crate::specs::Reading::past_digits))]
fn past_digits(bytes: &[u8]) -> Result<&[u8], Stop>
    ensures { Reads (λ rest. rest.now) result (past_digits bytes.now) }
{
    match bytes {
        [b'0'..=b'9', rest @ ..] => Ok(skip_digits(rest)),
        _ => Err(Stop::Unread(bytes.len())),
    }
}

#[tactic(auto, unfolding(crate::specs::Reading::past_integer))]
fn past_integer(bytes: &[u8]) -> Result<&[u8], Stop>
    ensures { Reads (λ rest. rest.now) result (past_integer bytes.now) }
{
    match bytes {
        [b'0', rest @ ..] => Ok(rest),
        [b'1'..=b'9', rest @ ..] => Ok(skip_digits(rest)),
        _ => Err(Stop::Unread(bytes.len())),
    }
}

#[tactic(auto, unfolding(crate::specs::Reading::past_fraction))]
fn past_fraction(bytes: &[u8]) -> Result<&[u8], Stop>
    ensures { Reads (λ rest. rest.now) result (past_fraction bytes.now) }
{
    match bytes {
        [b'.', rest @ ..] => past_digits(rest),
        _ => Ok(bytes),
    }
}

#[tactic(auto, unfolding(crate::specs::Reading::past_sign))]
fn past_sign(bytes: &[u8]) -> &[u8]
    ensures { result.now ≡ past_sign bytes.now }
{
    match bytes {
        [b'+' | b'-', rest @ ..] => rest,
        _ => bytes,
    }
}

#[tactic(auto, unfolding(crate::specs::Reading::past_exponent))]
fn past_exponent(bytes: &[u8]) -> Result<&[u8], Stop>
    ensures { Reads (λ rest. rest.now) result (past_exponent bytes.now) }
{
    match bytes {
        [b'e' | b'E', rest @ ..] => past_digits(past_sign(rest)),
        _ => Ok(bytes),
    }
}

#[tactic(auto, unfolding(crate::specs::Reading::past_number))]
fn past_number(bytes: &[u8]) -> Result<&[u8], Stop>
    ensures { Reads (λ rest. rest.now) result (past_number bytes.now) }
{
    let rest = past_integer(past_minus(bytes))?;
    let rest = past_fraction(rest)?;
    past_exponent(rest)
}

#[tactic(auto, unfolding(crate::specs::Reading::number_at))]
pub(crate) fn number_of(alloc: Global, bytes: &[u8]) -> Result<(Text, &[u8]), Stop>
    ensures { Reads (λ x. (x.0, x.1.now)) result (number_at bytes.now) }
{
    let rest = past_number(bytes)?;
    let len = bytes.len().saturating_sub(rest.len());
    match str::from_utf8(&bytes[..len]) {
        Ok(spelling) => Ok((Text::of(alloc, spelling)?, rest)),
        Err(_) => Err(Stop::Unread(bytes.len())),
    }
}
