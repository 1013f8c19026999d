//! Packets that arrive.
ghost use Rattle.std.specs.Prelude.{◌≡◌, OnOk, OnErr};
ghost use Rattle.esb_core.specs.declared.event.Event.TheVariants as events;
ghost use Rattle.esb_core.specs.Kept.{state_of, IsKept};
ghost use Rattle.esb_core.specs.Steps.{after};

use crate::out::Body;
use crate::tables::Tables;
use esb_base::Memory;
use esb_flags::{CommandFault, read_command};
use esb_wire::Packet;

impl Tables {
    /// A packet arrives. A request is refused or done, and a response changes nothing.
    pub(crate) fn arrive(&mut self, packet: &Packet) -> Result<(), Memory>
        requires { IsKept self.old }
        ensures ok { OnOk result (state_of self.new ≡ after (state_of self.old) (events.Arrive packet.now)) }
        ensures err { OnErr result (state_of self.new ≡ state_of self.old) }
        ensures kept { IsKept self.new }
    {
        if !packet.request {
            return Ok(());
        }
        match read_command(self.alloc, &packet.value) {
            Ok(command) => self.command(packet.id, command),
            Err(CommandFault::Refused(text)) => self.reply(packet.id, Body::Error(text)),
            Err(CommandFault::Memory) => Err(Memory),
        }
    }
}
