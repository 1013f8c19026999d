ghost use Rattle.std.specs.Prelude.{◌≡◌};
ghost use Rattle.esb_exports.specs.declared.fault.TargetFault.TheVariants.{Memory as refused};

use esb_base::Memory;
use thiserror::Error;

/// Why a package gives no target.
#[derive(Clone, Copy, Debug, PartialEq, Eq, Error)]
pub enum TargetFault {
    /// No key fits, the target is `null`, or no condition of it is active.
    #[error("not exported")]
    NotExported,
    /// The target is no text, object or array, or a text that leads out of the package.
    #[error("bad target")]
    BadTarget,
    /// Keys with a leading `.` stand beside others, or a condition is an array index.
    #[error("bad package.json")]
    BadConfig,
    /// What stands for the `*` of a key leads out of the package, or the specifier is `#` or begins with `#/`.
    #[error("bad specifier")]
    BadSpecifier,
    /// Memory was refused.
    #[error("out of memory")]
    Memory,
}

impl From<Memory> for TargetFault {
    ghost from_gives = { λ _ fault. fault ≡ refused };

    fn from(_refused: Memory) -> TargetFault {
        TargetFault::Memory
    }
}
