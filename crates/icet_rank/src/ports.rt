ghost use Rattle.std.specs.Prelude.{◌≡◌, ◌<◌, ◌++◌, ◌∷◌, [], ℕ, List, IfErr, IfSome, IfNone, OnErr, OnOk, Some, length, slice_get};
ghost use Rattle.std.specs.Option.{ForSome};
ghost use Rattle.icet_model.specs.Ports.{AreAscending, port_views, room_to};
ghost use Rattle.icet_model.specs.Wires.{PortView};
ghost use Rattle.icet_rank.specs.Moves.{HasPeer, KeepsPairings, Carried, Missed, Met, ArePaired, IsSyncedPair};

use icet_base::{NoMemory, Rank};
use icet_ring::{Inbox, Message, Outbox, Wires};
use std::alloc::Global;
use std::marker::Model;

/// The outboxes of a rank, each with the rank that it sends to, ascending.
#[derive(Drop)]
pub struct Outboxes<O: Outbox> {
    ports: Vec<(Rank, O)>,
}

impl<O: Outbox> Model for Outboxes<O> {
    ghost use Rattle.std.specs.Prelude.{ℕ, List};
    ghost use Rattle.icet_model.specs.Ports.{port_views};
    ghost use Rattle.icet_model.specs.Wires.{PortView};

    ghost Value = { List (ℕ × PortView) };

    ghost view = { λ s. port_views O.port s.ports.items };
}

/// The inboxes of a rank, each with the rank that it takes from, ascending.
#[derive(Drop)]
pub struct Inboxes<I: Inbox> {
    ports: Vec<(Rank, I)>,
}

impl<I: Inbox> Model for Inboxes<I> {
    ghost use Rattle.std.specs.Prelude.{ℕ, List};
    ghost use Rattle.icet_model.specs.Ports.{port_views};
    ghost use Rattle.icet_model.specs.Wires.{PortView};

    ghost Value = { List (ℕ × PortView) };

    ghost view = { λ s. port_views I.port s.ports.items };
}

impl<O: Outbox> Outboxes<O> {
    pub(crate) fn of(ports: Vec<(Rank, O)>) -> Outboxes<O>
        ensures { result ≡ port_views O.port ports.items }
    {
        Outboxes { ports }
    }

    /// No ports yet.
    pub fn new(alloc: Global) -> Outboxes<O>
        ensures { result ≡ [] }
    {
        Outboxes {
            ports: Vec::new(alloc),
        }
    }

    /// A further port, behind the others.
    pub fn push(&mut self, peer: Rank, port: O) -> Result<(), NoMemory>
        ensures { OnOk result (self.new ≡ self.old ++ (peer, O.port port) ∷ []) }
    {
        self.ports.push((peer, port))?;
        Ok(())
    }

    /// The ports as they are.
    pub fn into_ports(self) -> Vec<(Rank, O)>
        ensures { port_views O.port result.items ≡ self }
    {
        self.ports
    }

    /// Offers a message to the outbox to this rank.
    pub(crate) fn offer(&mut self, peer: Rank, message: Message) -> Result<(), Message>
        requires ascend { AreAscending self.old }
        requires room { 0 < room_to self.old peer }
        ensures sent { OnOk result (Carried peer message self.old self.new) }
        ensures missed { OnErr result (Missed peer self.old self.new) }
        ensures back { IfErr result (λ m. m ≡ message) }
        ensures pairings { KeepsPairings self.old self.new }
    {
        let at = place_of(&self.ports, peer);
        let port = &mut self.ports[at];
        port.1.offer(message)
    }
}

impl<I: Inbox> Inboxes<I> {
    pub(crate) fn of(ports: Vec<(Rank, I)>) -> Inboxes<I>
        ensures { result ≡ port_views I.port ports.items }
    {
        Inboxes { ports }
    }

    /// No ports yet.
    pub fn new(alloc: Global) -> Inboxes<I>
        ensures { result ≡ [] }
    {
        Inboxes {
            ports: Vec::new(alloc),
        }
    }

    /// A further port, behind the others.
    pub fn push(&mut self, peer: Rank, port: I) -> Result<(), NoMemory>
        ensures { OnOk result (self.new ≡ self.old ++ (peer, I.port port) ∷ []) }
    {
        self.ports.push((peer, port))?;
        Ok(())
    }

    /// The ports as they are.
    pub fn into_ports(self) -> Vec<(Rank, I)>
        ensures { port_views I.port result.items ≡ self }
    {
        self.ports
    }

    /// Takes from the inbox from this rank.
    pub(crate) fn take(&mut self, peer: Rank) -> Option<Message>
        requires ascend { AreAscending self.old }
        requires room { 0 < room_to self.old peer }
        ensures taken { IfSome result (λ m. Carried peer m self.old self.new) }
        ensures missed { IfNone result (Missed peer self.old self.new) }
        ensures pairings { KeepsPairings self.old self.new }
    {
        let at = place_of(&self.ports, peer);
        let port = &mut self.ports[at];
        port.1.take()
    }
}

/// Lets the outbox to `receiver` and the inbox from `sender` meet.
pub(crate) fn sync_ports<W: Wires>(
    wires: &mut W,
    sender: Rank,
    receiver: Rank,
    cap: u32,
    outboxes: &mut Outboxes<W::Out>,
    inboxes: &mut Inboxes<W::In>,
) -> Result<(), NoMemory>
    requires out_ascend { AreAscending outboxes.old }
    requires in_ascend { AreAscending inboxes.old }
    requires paired { ArePaired sender receiver cap outboxes.old inboxes.old }
    ensures out { Met receiver outboxes.old outboxes.new }
    ensures inbox { Met sender inboxes.old inboxes.new }
    ensures paired { ArePaired sender receiver cap outboxes.new inboxes.new }
    ensures synced { OnOk result (IsSyncedPair sender receiver cap outboxes.new inboxes.new) }
    ensures owed { W.owed wires.new ≡ W.owed wires.old }
    ensures log { W.log wires.new ≡ W.log wires.old }
{
    let from = place_of(&outboxes.ports, receiver);
    let to = place_of(&inboxes.ports, sender);
    let out = &mut outboxes.ports[from];
    let inbox = &mut inboxes.ports[to];
    wires.sync(&mut out.1, &mut inbox.1, cap)
}

/// The place of the port to this peer.
fn place_of<P>(ports: &[(Rank, P)], peer: Rank) -> usize
    requires { HasPeer peer ports.now }
    ensures within { result < length ports.now }
    ensures there { ForSome (slice_get ports.now result) (λ p. p.0 ≡ peer) }
{
    for (at, port) in ports.iter().enumerate() {
        if port.0 == peer {
            return at;
        }
    }
    unreachable!()
}
