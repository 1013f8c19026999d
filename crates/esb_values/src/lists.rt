//! Which lists of Arguments are lists of values in parentheses too (ECMA-262, 12.2.10).

ghost use Rattle.std.specs.Prelude.{◌≡◌};
ghost use Rattle.esb_value_laws.specs.Once as spec;

use esb_tree::{Bracketed, Element, NextElement};

/// Neither nothing nor `...` and a value.
#[tactic(auto, unfolding(esb_value_laws::specs::Once::is_plain))]
fn is_plain(x: &Element) -> bool
    ensures { result ≡ spec.is_plain x.now }
{
    !matches!(x, Element::Hole | Element::Spread(_, _))
}

fn all_plain(rest: &[NextElement]) -> bool
    ensures { result ≡ spec.all_plain rest.now }
{
    for turn in 0..rest.len() {
        if !is_plain(&rest[turn].element) {
            return false;
        }
    }
    true
}

/// Whether no place of a list is empty, and nothing in it is spread.
#[tactic(auto, unfolding(esb_value_laws::specs::Once::is_plain_list))]
pub fn is_plain_list(list: &Bracketed) -> bool
    ensures { result ≡ spec.is_plain_list list.now }
{
    is_plain(&list.list.first) && all_plain(list.list.rest.as_slice())
}
