ghost use Rattle.std.specs.Prelude.{◌≡◌, ◌<◌, ℕ, OnErr, OnOk, IfErr, IfSome, IfNone};
ghost use Rattle.icet_model.specs.Wires.{PortView, PortCarries, PortMisses};

use crate::message::Message;

/// The sending end of an ordered pair of ranks. Nobody waits in it: where it finds no free place,
/// it hands the message back.
pub trait Outbox: Send + Drop {
    /// What went through the port, its room, the free places that it knows of, its misses, and its pairing.
    ghost port: { Self → PortView };

    fn offer(&mut self, message: Message) -> Result<(), Message>
        requires { 0 < (port self.old).room }
        ensures sent { OnOk result (PortCarries message (port self.old) (port self.new)) }
        ensures back { IfErr result (λ m. m ≡ message) }
        ensures missed { OnErr result (PortMisses (port self.old) (port self.new)) };
}

/// The taking end of an ordered pair of ranks.
pub trait Inbox: Send + Drop {
    /// What went through the port, its room, the waiting messages that it knows of, its misses, and its pairing.
    ghost port: { Self → PortView };

    fn take(&mut self) -> Option<Message>
        requires { 0 < (port self.old).room }
        ensures taken { IfSome result (λ m. PortCarries m (port self.old) (port self.new)) }
        ensures missed { IfNone result (PortMisses (port self.old) (port self.new)) };
}
