//! Why a file has no tree that may be used.

ghost use Rattle.std.specs.Prelude.{◌≡◌};
ghost use Rattle.esb_module.specs.declared.fault.ParseFault.TheVariants.{Memory as refused};

use esb_base::Memory;
use esb_early::Rule;

/// Why a file has no tree that may be used.
#[derive(Clone, Copy, Debug, PartialEq, Eq)]
pub enum ParseFault {
    /// It has none of at most 200 levels. The place is one at which none goes on.
    NoTree(usize),
    /// A rule is broken first at this place, and of those broken there it has the lowest number.
    Early(usize, Rule),
    /// Memory was refused.
    Memory,
}

impl From<Memory> for ParseFault {
    ghost from_gives = { λ _ fault. fault ≡ refused };

    fn from(_refused: Memory) -> ParseFault {
        ParseFault::Memory
    }
}
