ghost use Rattle.std.specs.Prelude.{◌≡◌};
ghost use Rattle.esb_json.specs.declared.fault.JsonFault.TheVariants.{Memory as refused};

use esb_base::Memory;
use thiserror::Error;

/// Why no JSON value was read.
#[derive(Clone, Copy, Debug, PartialEq, Eq, Error)]
pub enum JsonFault {
    /// The text spells no value of at most 200 levels. The number is the byte at which reading failed.
    #[error("no JSON value: byte {0}")]
    NoJson(usize),
    /// Memory was refused.
    #[error("out of memory")]
    Memory,
}

impl From<Memory> for JsonFault {
    ghost from_gives = { λ _ fault. fault ≡ refused };

    fn from(_refused: Memory) -> JsonFault {
        JsonFault::Memory
    }
}
