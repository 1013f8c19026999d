ghost use Rattle.std.specs.Prelude.{◌≡◌, IfOk};
ghost use Rattle.esb_flags.specs.declared.fault.FlagFault.TheVariants.{Memory as refused};

use esb_base::Memory;
use thiserror::Error;

/// Why the flags of a build are refused.
#[derive(Clone, Copy, Debug, PartialEq, Eq, Error)]
pub enum FlagFault {
    /// The word at this place, counted from 0, is no flag. The words before it are flags and no repeats.
    #[error("the word at place {0} is no flag")]
    BadFlag(u32),
    /// The flag at this place, counted from 0, may not stand beside one before it.
    #[error("the flag at place {0} is a repeat")]
    Repeated(u32),
    /// No flag says where the outputs go.
    #[error("a folder for the outputs is needed")]
    NeedsOutdir,
    /// It doesn't come yet: each build's format is that of ECMAScript modules.
    #[error("splitting needs ECMAScript modules")]
    SplittingNeedsEsm,
    #[error("out of memory")]
    Memory,
}

impl From<Memory> for FlagFault {
    ghost from_gives = { λ _ fault. fault ≡ refused };

    fn from(_refused: Memory) -> FlagFault {
        FlagFault::Memory
    }
}
