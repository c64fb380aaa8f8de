ghost use Rattle.std.specs.Prelude.{◌≡◌, ◌≤◌, ◌<◌, ◌+◌, ◌++◌, ◌∷◌, [], ℕ, List, OnOk, OnErr, IfOk, length};
ghost use Rattle.icet_model.specs.Wires.{IsSameOpening, AreSynced};
ghost use Rattle.icet_ring.specs.Mem.{WiresView};

use crate::mem_ports::{self, MemInbox, MemOutbox};
use crate::message::Message;
use crate::wires::Wires;
use icet_base::{NoMemory, Rank};
use std::alloc::Global;
use std::marker::Model;

/// A closed pair, and all its messages.
#[derive(Drop)]
struct Closed {
    from: Rank,
    to: Rank,
    messages: Vec<Message>,
}

impl Model for Closed {
    ghost use Rattle.std.specs.Prelude.{List};
    ghost use Rattle.icet_model.specs.Pixel.{Pixel};
    ghost use Rattle.icet_model.specs.Traffic.{PairTraffic};

    ghost Value = { PairTraffic (List Pixel) };

    ghost view = { λ s. record { from = s.from; to = s.to; messages = s.messages.items } };
}

/// Wires in memory: messages go from the outbox to the inbox only in `sync`, which copies them.
#[derive(Drop)]
pub struct MemWires {
    alloc: Global,
    closed: Vec<Closed>,
    owed: usize,
}

impl Model for MemWires {
    ghost use Rattle.std.specs.Prelude.{◌+◌, ◌≤◌, vec_len, vec_capacity};
    ghost use Rattle.icet_ring.specs.Mem.{WiresView};

    ghost Value = { WiresView };

    ghost view = { λ s. record { log = s.closed.items; owed = s.owed } };

    ghost invariant = { λ s. vec_len s.closed + s.owed ≤ vec_capacity s.closed };
}

impl MemWires {
    /// Wires that closed no pair yet.
    pub fn new(alloc: Global) -> MemWires
        ensures { result ≡ record { log = []; owed = 0 } }
    {
        MemWires {
            alloc,
            closed: Vec::new(alloc),
            owed: 0,
        }
    }
}

impl Wires for MemWires {
    type Out = MemOutbox;

    type In = MemInbox;

    ghost log = { λ w. w.log };

    ghost owed = { λ w. w.owed };

    fn open_pair(
        &mut self,
        alloc: Global,
        from: Rank,
        to: Rank,
        cap: u32,
        total: u32,
    ) -> Result<(MemOutbox, MemInbox), NoMemory> {
        let ports = mem_ports::open(alloc, from, to, cap, total)?;
        self.closed.reserve(self.owed + 1)?;
        self.owed += 1;
        Ok(ports)
    }

    fn sync(
        &mut self,
        out: &mut MemOutbox,
        inbox: &mut MemInbox,
        _cap: u32,
    ) -> Result<(), NoMemory> {
        mem_ports::carry_all(self.alloc, out, inbox)?;
        mem_ports::settle(out, inbox);
        Ok(())
    }

    fn close_pair(&mut self, from: Rank, to: Rank, out: MemOutbox, inbox: MemInbox) {
        let messages = mem_ports::finish(out, inbox);
        self.closed.push_reserved(Closed { from, to, messages });
        self.owed -= 1;
    }
}
