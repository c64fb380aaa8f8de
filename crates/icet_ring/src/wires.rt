ghost use Rattle.std.specs.Prelude.{◌≡◌, ◌<◌, ◌+◌, ◌++◌, ◌∷◌, [], ℕ, List, OnOk, OnErr, IfOk};
ghost use Rattle.icet_model.specs.Pixel.{Pixel};
ghost use Rattle.icet_model.specs.Wires.{IsNewPair, PortMet, PortsAreSynced};
ghost use Rattle.icet_model.specs.Traffic.{PairTraffic, closed, IsTakenPair};

use crate::ports::{Inbox, Outbox};
use icet_base::{NoMemory, Rank};
use std::alloc::Global;

/// What carries messages between ranks: it opens a pair of ports for each ordered pair of ranks that
/// is used, lets the two ports meet, and closes them. Its log lists the closed pairs.
pub trait Wires {
    type Out: Outbox;

    type In: Inbox;

    /// The closed pairs, each with all messages that went through it.
    ghost log: { Self → List (PairTraffic (List Pixel)) };

    /// For how many closes memory is kept.
    ghost owed: { Self → ℕ };

    /// Opens the pair for `total` messages in its life, of which at most `cap` may wait. It takes the
    /// memory for all of them, and for the later close.
    fn open_pair(
        &mut self,
        alloc: Global,
        from: Rank,
        to: Rank,
        cap: u32,
        total: u32,
    ) -> Result<(Self::Out, Self::In), NoMemory>
        requires cap { 0 < cap }
        requires total { 0 < total }
        ensures opened { IfOk result (λ p. IsNewPair from to cap total (Self.Out.port p.0) (Self.In.port p.1)) }
        ensures owed { OnOk result (owed self.new ≡ owed self.old + 1) }
        ensures owed_kept { OnErr result (owed self.new ≡ owed self.old) }
        ensures log { log self.new ≡ log self.old };

    /// Lets the two ports of one pair meet: afterwards the inbox knows what waits, and the outbox how
    /// many places are free.
    fn sync(&mut self, out: &mut Self::Out, inbox: &mut Self::In, cap: u32) -> Result<(), NoMemory>
        requires paired { (Self.Out.port out.old).pairing ≡ (Self.In.port inbox.old).pairing }
        requires cap { (Self.Out.port out.old).pairing.cap ≡ cap }
        ensures out { PortMet (Self.Out.port out.old) (Self.Out.port out.new) }
        ensures inbox { PortMet (Self.In.port inbox.old) (Self.In.port inbox.new) }
        ensures paired { (Self.Out.port out.new).pairing ≡ (Self.In.port inbox.new).pairing }
        ensures synced { OnOk result (PortsAreSynced cap (Self.Out.port out.new) (Self.In.port inbox.new)) }
        ensures owed { owed self.new ≡ owed self.old }
        ensures log { log self.new ≡ log self.old };

    /// Closes a pair all of whose messages were taken. It takes no memory.
    fn close_pair(&mut self, from: Rank, to: Rank, out: Self::Out, inbox: Self::In)
        requires ports { IsTakenPair from to (Self.Out.port out) (Self.In.port inbox) }
        requires owed { 0 < owed self.old }
        ensures taken { (Self.In.port inbox).messages ≡ (Self.Out.port out).messages }
        ensures log { log self.new ≡ log self.old ++ closed from to (Self.Out.port out) ∷ [] }
        ensures owed { owed self.old ≡ owed self.new + 1 };
}
