ghost use Rattle.std.specs.Prelude.{◌≡◌, ◌≤◌, ◌<◌, ◌+◌, ◌-◌, ◌++◌, ◌∷◌, [], ◌↔◌, ℕ, List, IfOk, IfErr, IfSome, IfNone, OnOk, OnErr, IsErr, IsNone, IsTrue, length};
ghost use Rattle.icet_model.specs.Wires.{PairMet, PortCarries, PortMisses, PortsAreSynced};
ghost use Rattle.icet_ring.specs.Mem.{opened};

use crate::message::Message;
use crate::ports::{Inbox, Outbox};
use icet_base::{NoMemory, Rank};
use std::alloc::Global;
use std::collections::VecDeque;
use std::marker::Model;

/// What a pair of ports was opened with.
#[derive(Drop)]
struct Opening {
    from: Rank,
    to: Rank,
    cap: u32,
    total: u32,
}

/// The sending end of a pair in memory. It keeps every message; `carried` of them have been copied
/// to the inbox, which had taken `seen` when the two last met.
#[derive(Drop)]
pub struct MemOutbox {
    opening: Opening,
    sent: Vec<Message>,
    carried: usize,
    seen: usize,
    misses: u64,
}

impl Model for MemOutbox {
    ghost use Rattle.std.specs.Prelude.{vec_capacity};
    ghost use Rattle.icet_model.specs.Wires.{PortView};
    ghost use Rattle.icet_ring.specs.Mem.{outbox_view, IsOutbox};

    ghost Value = { PortView };

    ghost view = { λ s. outbox_view s.opening.from s.opening.to s.opening.cap s.opening.total s.sent.items s.carried s.seen s.misses };

    ghost invariant = { λ s. IsOutbox s.opening.cap s.opening.total s.carried s.seen (vec_capacity s.sent) s.sent.items };
}

/// The taking end of a pair in memory. It keeps every message that was carried, and a further copy
/// of each that was not taken.
#[derive(Drop)]
pub struct MemInbox {
    opening: Opening,
    carried: Vec<Message>,
    ready: VecDeque<Message>,
    taken: usize,
    seen: usize,
    misses: u64,
}

impl Model for MemInbox {
    ghost use Rattle.std.specs.Prelude.{vec_capacity};
    ghost use Rattle.std.specs.VecDeque.{deque_capacity};
    ghost use Rattle.icet_model.specs.Wires.{PortView};
    ghost use Rattle.icet_ring.specs.Mem.{inbox_view, IsInbox};

    ghost Value = { PortView };

    ghost view = { λ s. inbox_view s.opening.from s.opening.to s.opening.cap s.opening.total s.carried.items s.ready.items s.taken s.seen s.misses };

    ghost invariant = { λ s. IsInbox s.opening.total s.taken s.seen (vec_capacity s.carried) (deque_capacity s.ready) s.carried.items s.ready.items };
}

impl Outbox for MemOutbox {
    ghost port = { λ v. v };

    fn offer(&mut self, message: Message) -> Result<(), Message>
        requires { 0 < self.old.room }
        ensures sent { OnOk result (PortCarries message self.old self.new) }
        ensures back { IfErr result (λ m. m ≡ message) }
        ensures missed { OnErr result (PortMisses self.old self.new) }
        ensures unknown { self.old.known ≡ 0 → IsErr result }
    {
        if self.sent.len() < self.seen + self.opening.cap as usize {
            self.sent.push_reserved(message);
            Ok(())
        } else {
            self.misses = self.misses.saturating_add(1);
            Err(message)
        }
    }
}

impl Inbox for MemInbox {
    ghost port = { λ v. v };

    fn take(&mut self) -> Option<Message>
        requires { 0 < self.old.room }
        ensures taken { IfSome result (λ m. PortCarries m self.old self.new) }
        ensures missed { IfNone result (PortMisses self.old self.new) }
        ensures unknown { self.old.known ≡ 0 → IsNone result }
    {
        match self.ready.pop_front() {
            Some(message) => {
                self.taken += 1;
                Some(message)
            }
            None => {
                self.misses = self.misses.saturating_add(1);
                None
            }
        }
    }
}

/// The two ports of a new pair, with the memory for all its messages.
pub(crate) fn open(
    alloc: Global,
    from: Rank,
    to: Rank,
    cap: u32,
    total: u32,
) -> Result<(MemOutbox, MemInbox), NoMemory>
    ensures out { IfOk result (λ p. p.0 ≡ opened from to cap total cap) }
    ensures inbox { IfOk result (λ p. p.1 ≡ opened from to cap total 0) }
{
    let sent = Vec::with_capacity(alloc, total as usize)?;
    let carried = Vec::with_capacity(alloc, total as usize)?;
    let ready = VecDeque::with_capacity(alloc, total as usize)?;
    let out = MemOutbox {
        opening: Opening {
            from,
            to,
            cap,
            total,
        },
        sent,
        carried: 0,
        seen: 0,
        misses: 0,
    };
    let inbox = MemInbox {
        opening: Opening {
            from,
            to,
            cap,
            total,
        },
        carried,
        ready,
        taken: 0,
        seen: 0,
        misses: 0,
    };
    Ok((out, inbox))
}

impl MemOutbox {
    /// Whether a message was not carried yet.
    fn has_more(&self) -> bool
        ensures { IsTrue result ↔ (length self.now.pairing.agreed < length self.now.messages) }
    {
        self.carried < self.sent.len()
    }
}

/// Carries the next message across, in two copies. Want of memory leaves the ports paired.
fn carry(alloc: Global, out: &mut MemOutbox, inbox: &mut MemInbox) -> Result<(), NoMemory>
    requires paired { out.old.pairing ≡ inbox.old.pairing }
    requires more { length out.old.pairing.agreed < length out.old.messages }
    ensures goes_on { PairMet out.old out.new inbox.old inbox.new }
    ensures one { OnOk result (length out.new.pairing.agreed ≡ length out.old.pairing.agreed + 1) }
{
    let message = &out.sent[out.carried];
    let kept = message.copy(alloc)?;
    let waiting = message.copy(alloc)?;
    inbox.carried.push_reserved(kept);
    inbox.ready.push_back_reserved(waiting);
    out.carried += 1;
    Ok(())
}

/// Carries all messages across. Want of memory leaves the ports paired.
pub(crate) fn carry_all(
    alloc: Global,
    out: &mut MemOutbox,
    inbox: &mut MemInbox,
) -> Result<(), NoMemory>
    requires paired { out.old.pairing ≡ inbox.old.pairing }
    ensures goes_on { PairMet out.old out.new inbox.old inbox.new }
    ensures all { OnOk result (length out.new.messages ≤ length out.new.pairing.agreed) }
{
    'carrying: while out.has_more() {
        carry(alloc, out, inbox)?;
    }
    Ok(())
}

/// Lets the outbox know how many messages were taken, once all are carried.
pub(crate) fn settle(out: &mut MemOutbox, inbox: &mut MemInbox)
    requires paired { out.old.pairing ≡ inbox.old.pairing }
    requires all { length out.old.messages ≤ length out.old.pairing.agreed }
    ensures goes_on { PairMet out.old out.new inbox.old inbox.new }
    ensures synced { PortsAreSynced out.new.pairing.cap out.new inbox.new }
{
    out.seen = inbox.taken;
    inbox.seen = inbox.taken;
}

/// All messages of a pair that has carried them, and was closed.
pub(crate) fn finish(out: MemOutbox, inbox: MemInbox) -> Vec<Message>
    requires paired { out.pairing ≡ inbox.pairing }
    requires all_taken { length inbox.messages ≡ length out.messages }
    ensures messages { result.items ≡ out.messages }
    ensures taken { inbox.messages ≡ out.messages }
{
    let _taken = &inbox.taken;
    out.sent
}
