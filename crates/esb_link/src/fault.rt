ghost use Rattle.std.specs.Prelude.{◌≡◌};
ghost use Rattle.esb_link.specs.declared.fault.LinkFault.TheVariants.{Memory as refused};

use esb_ask::Message;
use esb_base::{List, Memory};

/// Why a build has no files.
#[derive(Drop)]
pub enum LinkFault {
    /// What is wrong. The list is never empty.
    Errors(List<Message>),
    /// Memory was refused.
    Memory,
}

impl From<Memory> for LinkFault {
    ghost from_gives = { λ _ fault. fault ≡ refused };

    fn from(_refused: Memory) -> LinkFault {
        LinkFault::Memory
    }
}
