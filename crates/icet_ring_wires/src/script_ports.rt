ghost use Rattle.std.specs.Prelude.{◌≡◌, ◌<◌, true, IfErr, IfNone, IfSome, IsErr, IsNone, OnErr, OnOk};
ghost use Rattle.icet_model.specs.Wires.{PortCarries, PortMisses};
ghost use Rattle.icet_ring_wires.specs.Script.{ScriptCarries, ScriptMisses, is_blind, scripted_port};

use crate::ports::{RingInbox, RingOutbox};
use crate::script::Script;
use icet_ring::{Inbox, Message, Outbox};
use std::marker::Model;

/// The sending end of a pair over rings, which looks away at the blind calls of its script.
#[derive(Drop)]
pub struct ScriptOutbox {
    pub(crate) ring: RingOutbox,
    pub(crate) script: Script,
    pub(crate) count: u32,
    pub(crate) total: u32,
}

impl Model for ScriptOutbox {
    ghost use Rattle.icet_ring_wires.specs.Script.{IsScripted, ScriptedView};

    ghost Value = { ScriptedView };

    ghost view = { λ s. record { ring = s.ring; script = s.script } };

    ghost invariant = { λ s. IsScripted s.ring s.script s.count s.total };
}

/// The taking end of a pair over rings, which looks away at the blind calls of its script.
#[derive(Drop)]
pub struct ScriptInbox {
    pub(crate) ring: RingInbox,
    pub(crate) script: Script,
    pub(crate) count: u32,
    pub(crate) total: u32,
}

impl Model for ScriptInbox {
    ghost use Rattle.icet_ring_wires.specs.Script.{IsScripted, ScriptedView};

    ghost Value = { ScriptedView };

    ghost view = { λ s. record { ring = s.ring; script = s.script } };

    ghost invariant = { λ s. IsScripted s.ring s.script s.count s.total };
}

impl Outbox for ScriptOutbox {
    ghost port = { scripted_port };

    fn offer(&mut self, message: Message) -> Result<(), Message>
        requires { 0 < self.old.ring.room }
        ensures sent { OnOk result (PortCarries message (scripted_port self.old) (scripted_port self.new)) }
        ensures back { IfErr result (λ m. m ≡ message) }
        ensures missed { OnErr result (PortMisses (scripted_port self.old) (scripted_port self.new)) }
        ensures blind { is_blind self.old.script ≡ true → IsErr result }
        ensures by_ring { OnOk result (ScriptCarries message self.old self.new) }
        ensures looked { OnErr result (ScriptMisses self.old self.new) }
    {
        if self.script.is_blind() {
            self.script.miss();
            return Err(message);
        }
        match self.ring.offer(message) {
            Ok(()) => {
                self.script.carry();
                self.count += 1;
                Ok(())
            }
            Err(message) => {
                self.script.miss();
                Err(message)
            }
        }
    }
}

impl Inbox for ScriptInbox {
    ghost port = { scripted_port };

    fn take(&mut self) -> Option<Message>
        requires { 0 < self.old.ring.room }
        ensures taken { IfSome result (λ m. PortCarries m (scripted_port self.old) (scripted_port self.new)) }
        ensures missed { IfNone result (PortMisses (scripted_port self.old) (scripted_port self.new)) }
        ensures blind { is_blind self.old.script ≡ true → IsNone result }
        ensures by_ring { IfSome result (λ m. ScriptCarries m self.old self.new) }
        ensures looked { IfNone result (ScriptMisses self.old self.new) }
    {
        if self.script.is_blind() {
            self.script.miss();
            return None;
        }
        match self.ring.take() {
            Some(message) => {
                self.script.carry();
                self.count += 1;
                Some(message)
            }
            None => {
                self.script.miss();
                None
            }
        }
    }
}
