//! Why nothing was read.

use esb_base::Memory;

/// Why no node was read.
#[derive(Clone, Copy, Debug, PartialEq, Eq)]
pub enum Fault {
    /// No node of the kind that was asked for stands there; the place at which that was seen, in bytes.
    NoTree(usize),
    Memory,
}

impl From<Memory> for Fault {
    ghost use Rattle.std.specs.Prelude.{◌≡◌};
    ghost use Rattle.esb_reader.specs.declared.fault.Fault.TheVariants as fault;

    ghost from_gives = { λ _ e. e ≡ fault.Memory };

    fn from(_: Memory) -> Fault {
        Fault::Memory
    }
}
