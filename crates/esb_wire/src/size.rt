ghost use Rattle.std.specs.Prelude.{◌≡◌, ◌+◌, ◌^◌, ◌<◌, ◌≤◌, ℕ, length, min};
ghost use Rattle.std.specs.List.{flat_map};
ghost use Rattle.esb_wire.specs.declared.value.Value.{Value};
ghost use Rattle.esb_wire.specs.Spelling.{spelling, Fits};
ghost use Rattle.esb_wire.specs.Size.{pair_spelled, IsShaped};

use crate::value::Value;
use esb_base::Text;

/// Lengths are told up to this one, which is more than a frame has.
const MOST: u64 = 1 << 32;

fn sum(total: u64, part: u64) -> u64
    ensures { result ≡ min (total + part) (2 ^ 32) }
{
    total.saturating_add(part).min(MOST)
}

#[cycle(length)]
fn values_length(values: &[Value]) -> u64
    ensures { result ≡ min (length (flat_map spelling values.now)) (2 ^ 32) }
{
    let mut total = 0;
    for value in values {
        total = sum(total, value_length(value));
    }
    total
}

#[cycle(length)]
fn pairs_length(pairs: &[(Text, Value)]) -> u64
    ensures { result ≡ min (length (flat_map pair_spelled pairs.now)) (2 ^ 32) }
{
    let mut total = 0;
    for (key, value) in pairs {
        let key_length = sum(4, key.as_bytes().len() as u64);
        total = sum(total, sum(key_length, value_length(value)));
    }
    total
}

#[cycle(length)]
fn value_length(value: &Value) -> u64
    ensures { result ≡ min (length (spelling value.now)) (2 ^ 32) }
{
    match value {
        Value::Null => 1,
        Value::Bool(_) => 2,
        Value::Number(_) => 5,
        Value::Str(text) => sum(5, text.as_bytes().len() as u64),
        Value::Bytes(bytes) => sum(5, bytes.len() as u64),
        Value::Array(values) => sum(5, values_length(values.as_slice())),
        Value::Map(pairs) => sum(5, pairs_length(pairs.as_slice())),
    }
}

impl Value {
    /// The number of bytes that the value is spelled with, or 2^32 where they are more. Nothing is spelled for it.
    pub fn spelled_length(&self) -> u64
        ensures { result ≡ min (length (spelling self.now)) (2 ^ 32) }
    {
        value_length(self)
    }
}

/// The law of sizes: where all else is right, a value fits as soon as its spelling is short enough.
pub fn short_spelling_fits()
    ensures { (depth : ℕ) (value : Value) → IsShaped depth value → length (spelling value) < 2 ^ 32 → Fits depth value }
{}
