ghost use Rattle.std.specs.Prelude.{◌≡◌, ◌<◌, ◌+◌, ◌++◌, ◌∷◌, [], IfOk, IsOk, OnErr, OnOk};
ghost use Rattle.icet_model.specs.Traffic.{IsTakenPair, closed};
ghost use Rattle.icet_model.specs.Wires.{IsNewPair, PortMet, PortsAreSynced};
ghost use Rattle.icet_ring_wires.specs.Script.{ScriptMet, new_script, scripted_port};

use crate::ring_wires::RingWires;
use crate::script::Script;
use crate::script_ports::{ScriptInbox, ScriptOutbox};
use icet_base::{NoMemory, Rank};
use icet_ring::Wires;
use std::alloc::Global;
use std::marker::Model;

/// Wires over rings for tests: each port looks away at chosen ones of the calls at which it knows of nothing.
#[derive(Drop)]
pub struct ScriptWires {
    rings: RingWires,
    blind: Vec<u64>,
}

impl Model for ScriptWires {
    ghost use Rattle.icet_ring_wires.specs.Script.{ScriptWiresView};

    ghost Value = { ScriptWiresView };

    ghost view = { λ s. record { log = s.rings.log; owed = s.rings.owed; blind = s.blind.items } };
}

impl ScriptWires {
    /// Wires that closed no pair yet. Each port counts its calls at which it knows of nothing from 0, and looks
    /// away at those whose number is in `blind`.
    pub fn new(alloc: Global, blind: Vec<u64>) -> ScriptWires
        ensures { result ≡ record { log = []; owed = 0; blind = blind.items } }
    {
        ScriptWires {
            rings: RingWires::new(alloc),
            blind,
        }
    }
}

impl Wires for ScriptWires {
    type Out = ScriptOutbox;

    type In = ScriptInbox;

    ghost log = { λ w. w.log };

    ghost owed = { λ w. w.owed };

    fn open_pair(
        &mut self,
        alloc: Global,
        from: Rank,
        to: Rank,
        cap: u32,
        total: u32,
    ) -> Result<(ScriptOutbox, ScriptInbox), NoMemory>
        requires cap { 0 < cap }
        requires total { 0 < total }
        ensures opened { IfOk result (λ p. IsNewPair from to cap total (scripted_port p.0) (scripted_port p.1)) }
        ensures out { IfOk result (λ p. p.0.script ≡ new_script self.old.blind cap) }
        ensures inbox { IfOk result (λ p. p.1.script ≡ new_script self.old.blind 0) }
        ensures owed { OnOk result (self.new.owed ≡ self.old.owed + 1) }
        ensures owed_kept { OnErr result (self.new.owed ≡ self.old.owed) }
        ensures log { self.new.log ≡ self.old.log }
        ensures blind { self.new.blind ≡ self.old.blind }
    {
        let out_script = Script::new(alloc, self.blind.as_slice(), cap)?;
        let inbox_script = Script::new(alloc, self.blind.as_slice(), 0)?;
        let (out, inbox) = self.rings.open_pair(alloc, from, to, cap, total)?;
        let out = ScriptOutbox {
            ring: out,
            script: out_script,
            count: 0,
            total,
        };
        let inbox = ScriptInbox {
            ring: inbox,
            script: inbox_script,
            count: 0,
            total,
        };
        Ok((out, inbox))
    }

    fn sync(
        &mut self,
        out: &mut ScriptOutbox,
        inbox: &mut ScriptInbox,
        cap: u32,
    ) -> Result<(), NoMemory>
        requires paired { out.old.ring.pairing ≡ inbox.old.ring.pairing }
        requires cap { out.old.ring.pairing.cap ≡ cap }
        ensures out { PortMet (scripted_port out.old) (scripted_port out.new) }
        ensures inbox { PortMet (scripted_port inbox.old) (scripted_port inbox.new) }
        ensures paired { out.new.ring.pairing ≡ inbox.new.ring.pairing }
        ensures synced { OnOk result (PortsAreSynced cap (scripted_port out.new) (scripted_port inbox.new)) }
        ensures out_script { ScriptMet out.old out.new }
        ensures inbox_script { ScriptMet inbox.old inbox.new }
        ensures always { IsOk result }
        ensures wires { self.new ≡ self.old }
        ensures owed { self.new.owed ≡ self.old.owed }
        ensures log { self.new.log ≡ self.old.log }
    {
        self.rings.sync(&mut out.ring, &mut inbox.ring, cap)?;
        let waiting = out.count - inbox.count;
        out.script.learn(cap - waiting);
        inbox.script.learn(waiting);
        Ok(())
    }

    fn close_pair(&mut self, from: Rank, to: Rank, out: ScriptOutbox, inbox: ScriptInbox)
        requires ports { IsTakenPair from to (scripted_port out) (scripted_port inbox) }
        requires owed { 0 < self.old.owed }
        ensures taken { inbox.ring.messages ≡ out.ring.messages }
        ensures log { self.new.log ≡ self.old.log ++ closed from to out.ring ∷ [] }
        ensures owed { self.old.owed ≡ self.new.owed + 1 }
        ensures blind { self.new.blind ≡ self.old.blind }
    {
        self.rings.close_pair(from, to, out.ring, inbox.ring);
    }
}
