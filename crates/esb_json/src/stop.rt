ghost use Rattle.std.specs.Prelude.{◌≡◌};
ghost use Rattle.esb_json.specs.declared.stop.Stop.TheVariants.{Memory as refused};

use esb_base::Memory;

/// Why a reader stopped: so many bytes were unread where no text of a value goes on, or memory was refused.
#[derive(Clone, Copy)]
pub(crate) enum Stop {
    Unread(usize),
    Memory,
}

impl From<Memory> for Stop {
    ghost from_gives = { λ _ stop. stop ≡ refused };

    fn from(_refused: Memory) -> Stop {
        Stop::Memory
    }
}
