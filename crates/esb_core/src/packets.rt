//! Which packets may arrive.
ghost use Rattle.std.specs.Prelude.{◌≡◌, map};
ghost use Rattle.std.specs.List.{list_all, list_any};
ghost use Rattle.std.specs.Str.{bytes_eq};
ghost use Rattle.esb_wire.specs.Reading.{all_differ};
ghost use Rattle.esb_core.specs.Allowed.{is_proper, may_arrive};

use esb_base::Text;
use esb_wire::{Packet, Value};

/// The least id that no packet has.
const ID_LIMIT: u32 = 2_147_483_648;

/// The most levels of a value.
const MAX_DEPTH: u32 = 64;

/// Whether a pair has the key.
fn has_key(pairs: &[(Text, Value)], key: &str) -> bool
    ensures { result ≡ list_any (bytes_eq key.now) (map (λ pair. pair.0) pairs.now) }
{
    for pair in pairs {
        if key == pair.0.as_str() {
            return true;
        }
    }
    false
}

/// Whether no key stands twice. It takes no memory, and so compares each two keys.
fn keys_differ(pairs: &[(Text, Value)]) -> bool
    ensures { result ≡ all_differ (map (λ pair. pair.0) pairs.now) }
{
    let mut rest = pairs;
    while let [pair, others @ ..] = rest {
        if has_key(others, pair.0.as_str()) {
            return false;
        }
        rest = others;
    }
    true
}

#[cycle(proper)]
fn values_are_proper(depth: u32, values: &[Value]) -> bool
    ensures { result ≡ list_all (is_proper depth) values.now }
{
    for value in values {
        if !is_proper(depth, value) {
            return false;
        }
    }
    true
}

#[cycle(proper)]
fn pairs_are_proper(depth: u32, pairs: &[(Text, Value)]) -> bool
    ensures { result ≡ list_all (λ pair. is_proper depth pair.1) pairs.now }
{
    for pair in pairs {
        if !is_proper(depth, &pair.1) {
            return false;
        }
    }
    true
}

/// Whether the keys of each map differ, to this depth and no deeper.
#[cycle(proper)]
fn is_proper(depth: u32, value: &Value) -> bool
    ensures { result ≡ is_proper depth value.now }
{
    if depth == 0 {
        return false;
    }
    match value {
        Value::Array(values) => values_are_proper(depth - 1, values.as_slice()),
        Value::Map(pairs) => {
            keys_differ(pairs.as_slice()) && pairs_are_proper(depth - 1, pairs.as_slice())
        }
        _ => true,
    }
}

/// Whether the packet may arrive.
#[tactic(auto, unfolding(crate::specs::Allowed::may_arrive))]
pub(crate) fn may_arrive(packet: &Packet) -> bool
    ensures { result ≡ may_arrive packet.now }
{
    packet.id < ID_LIMIT && is_proper(MAX_DEPTH, &packet.value)
}
