ghost use Rattle.std.specs.Prelude.{◌≡◌, ◌-◌, true, false, length, take, drop, position, MatchOption};
ghost use Rattle.std.specs.Option.{option_copied};
ghost use Rattle.esb_exports.specs.Keys.{is_star, base_of, trailer_of, has_one_star, has_star, fits, match_of, is_closer, exact, closest, closer, chosen};

use esb_base::List;
use esb_json::Json;

const STAR: u16 = 0x2A;

/// The place of the first star.
fn star_of(key: &[u16]) -> Option<usize>
    ensures { result ≡ position is_star key.now }
{
    key.iter().position(|unit| *unit == STAR)
}

/// The parts of a key before and behind its star, if it has just one.
fn parts_of(key: &[u16]) -> Option<(&[u16], &[u16])>
    ensures { MatchOption result (has_one_star key.now ≡ false)
        (λ parts. (has_one_star key.now ≡ true) × (parts.0.now ≡ base_of key.now) × (parts.1.now ≡ trailer_of key.now)) }
{
    let at = star_of(key)?;
    let trailer = &key[at + 1..];
    if has_star(trailer) {
        None
    } else {
        Some((&key[..at], trailer))
    }
}

/// Whether the path is the key with one unit or more in place of its one star.
#[tactic(auto, unfolding(crate::specs::Keys::fits))]
fn fits(key: &[u16], path: &[u16]) -> bool
    ensures { result ≡ fits key.now path.now }
{
    match parts_of(key) {
        Some((base, trailer)) => {
            key.len() <= path.len() && path.starts_with(base) && path.ends_with(trailer)
        }
        None => false,
    }
}

/// What stands in the path in place of the key's star, and nothing for a key without one.
#[tactic(auto, unfolding(crate::specs::Keys::match_of))]
pub(crate) fn match_of<'a>(key: &[u16], path: &'a [u16]) -> &'a [u16]
    ensures { result.now ≡ match_of key.now path.now }
{
    match parts_of(key) {
        Some((base, trailer)) => between(path, base.len(), trailer.len()),
        None => &path[..0],
    }
}

/// The units without so many at the front and at the back.
fn between(units: &[u16], front: usize, back: usize) -> &[u16]
    ensures { result.now ≡ take (length units.now - back - front) (drop front units.now) }
{
    let end = units.len().saturating_sub(back);
    if front <= end {
        &units[front..end]
    } else {
        &units[..0]
    }
}

/// Whether the one key is closer than the other: the part up to its star is longer, or as long
/// while the whole key is longer.
#[tactic(auto, unfolding(crate::specs::Keys::is_closer))]
fn is_closer(one: &[u16], other: &[u16]) -> bool
    ensures { result ≡ is_closer one.now other.now }
{
    let one_base = base_len(one);
    let other_base = base_len(other);
    other_base < one_base || (one_base == other_base && other.len() < one.len())
}

/// How many units stand before the first star.
fn base_len(key: &[u16]) -> usize
    ensures { result ≡ length (base_of key.now) }
{
    star_of(key).unwrap_or(key.len())
}

fn has_star(units: &[u16]) -> bool
    ensures { result ≡ has_star units.now }
{
    units.contains(&STAR)
}

/// The first member with this key, if the path has no star.
#[tactic(auto, unfolding(crate::specs::Keys::exact))]
fn exact<'a>(members: &'a [(List<u16>, Json)], path: &[u16]) -> Option<&'a (List<u16>, Json)>
    ensures { option_copied result ≡ exact members.now path.now }
{
    if has_star(path) {
        return None;
    }
    for member in members {
        if member.0.as_slice() == path {
            return Some(member);
        }
    }
    None
}

/// The closest member whose key the path fits: the first of those that are as close.
fn closest<'a>(members: &'a [(List<u16>, Json)], path: &[u16]) -> Option<&'a (List<u16>, Json)>
    ensures { option_copied result ≡ closest members.now path.now }
{
    let mut best = None;
    for member in members {
        best = closer(path, best, member);
    }
    best
}

#[tactic(auto, unfolding(crate::specs::Keys::closer))]
fn closer<'a>(
    path: &[u16],
    best: Option<&'a (List<u16>, Json)>,
    member: &'a (List<u16>, Json),
) -> Option<&'a (List<u16>, Json)>
    ensures { option_copied result ≡ closer path.now (option_copied best.entry) member.now }
{
    let key = member.0.as_slice();
    match best {
        None if fits(key, path) => Some(member),
        Some(other) if fits(key, path) && is_closer(key, other.0.as_slice()) => Some(member),
        kept => kept,
    }
}

/// The member that a path takes: an exact key, or else the closest key with one star.
#[tactic(auto, unfolding(crate::specs::Keys::chosen, crate::specs::Keys::or_else))]
pub(crate) fn chosen<'a>(
    members: &'a [(List<u16>, Json)],
    path: &[u16],
) -> Option<&'a (List<u16>, Json)>
    ensures { option_copied result ≡ chosen members.now path.now }
{
    match exact(members, path) {
        Some(member) => Some(member),
        None => closest(members, path),
    }
}
