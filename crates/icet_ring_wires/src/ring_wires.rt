ghost use Rattle.std.specs.Prelude.{◌≡◌, [], IsOk, OnOk};
ghost use Rattle.icet_model.specs.Wires.{PortMet, PortsAreSynced};

use crate::ports::{self, RingInbox, RingOutbox};
use icet_base::{NoMemory, Rank};
use icet_ring::Wires;
use std::alloc::Global;
use std::marker::Model;

/// A closed pair: its rings, through which all its messages went.
#[derive(Drop)]
struct Closed {
    from: Rank,
    to: Rank,
    out: RingOutbox,
    inbox: RingInbox,
}

impl Model for Closed {
    ghost use Rattle.std.specs.Prelude.{List};
    ghost use Rattle.icet_model.specs.Pixel.{Pixel};
    ghost use Rattle.icet_model.specs.Traffic.{PairTraffic, closed};

    ghost Value = { PairTraffic (List Pixel) };

    ghost view = { λ s. closed s.from s.to s.out };
}

/// Wires over rings: a message is in its ring as soon as it is offered, and the inbox looks for it at each take.
#[derive(Drop)]
pub struct RingWires {
    closed: Vec<Closed>,
    owed: usize,
}

impl Model for RingWires {
    ghost use Rattle.std.specs.Prelude.{◌+◌, ◌≤◌, vec_len, vec_capacity};
    ghost use Rattle.icet_ring.specs.Mem.{WiresView};

    ghost Value = { WiresView };

    ghost view = { λ s. record { log = s.closed.items; owed = s.owed } };

    ghost invariant = { λ s. vec_len s.closed + s.owed ≤ vec_capacity s.closed };
}

impl RingWires {
    /// Wires that closed no pair yet.
    pub fn new(alloc: Global) -> RingWires
        ensures { result ≡ record { log = []; owed = 0 } }
    {
        RingWires {
            closed: Vec::new(alloc),
            owed: 0,
        }
    }
}

impl Wires for RingWires {
    type Out = RingOutbox;

    type In = RingInbox;

    ghost log = { λ w. w.log };

    ghost owed = { λ w. w.owed };

    fn open_pair(
        &mut self,
        alloc: Global,
        from: Rank,
        to: Rank,
        cap: u32,
        total: u32,
    ) -> Result<(RingOutbox, RingInbox), NoMemory> {
        let ports = ports::open(alloc, from, to, cap, total)?;
        self.closed.reserve(self.owed + 1)?;
        self.owed += 1;
        Ok(ports)
    }

    fn sync(
        &mut self,
        out: &mut RingOutbox,
        inbox: &mut RingInbox,
        _cap: u32,
    ) -> Result<(), NoMemory>
        requires paired { out.old.pairing ≡ inbox.old.pairing }
        requires cap { out.old.pairing.cap ≡ _cap }
        ensures out { PortMet out.old out.new }
        ensures inbox { PortMet inbox.old inbox.new }
        ensures paired { out.new.pairing ≡ inbox.new.pairing }
        ensures synced { OnOk result (PortsAreSynced _cap out.new inbox.new) }
        ensures always { IsOk result }
        ensures owed { self.new.owed ≡ self.old.owed }
        ensures log { self.new.log ≡ self.old.log }
    {
        ports::meet(out, inbox);
        Ok(())
    }

    fn close_pair(&mut self, from: Rank, to: Rank, out: RingOutbox, inbox: RingInbox) {
        let mut out = out;
        let mut inbox = inbox;
        ports::meet(&mut out, &mut inbox);
        self.closed.push_reserved(Closed {
            from,
            to,
            out,
            inbox,
        });
        self.owed -= 1;
    }
}
