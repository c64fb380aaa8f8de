ghost use Rattle.std.specs.Prelude.{◌≡◌, IfOk, length};
ghost use Rattle.icet_model.specs.Wires.{IsNewPair, PairMet, PortsAreSynced};
ghost use Rattle.icet_ring_wires.specs.Rings.{CreditsMet};
ghost use Rattle.rtrb.specs.Ring.{received, sent, IsPair};

use icet_base::{NoMemory, Rank};
use icet_ring::{Inbox, Message, Outbox};
use rtrb::{Consumer, Producer, RingBuffer};
use std::alloc::Global;
use std::marker::Model;

/// What is put into the ring of credits for each message that was taken. Its value says nothing.
const CREDIT: u8 = 0;

/// What a pair of ports was opened with.
#[derive(Drop)]
struct Opening {
    from: Rank,
    to: Rank,
    cap: u32,
    total: u32,
}

/// The sending end of a pair over rings. Of its `count` messages it knows `seen` to be taken: those of which
/// the ports' last meeting told, and one for each credit popped since.
#[derive(Drop)]
pub struct RingOutbox {
    opening: Opening,
    messages: Producer<Message>,
    credits: Consumer<u8>,
    count: u32,
    seen: u32,
    misses: u64,
}

impl Model for RingOutbox {
    ghost use Rattle.icet_model.specs.Wires.{PortView};
    ghost use Rattle.icet_ring_wires.specs.Rings.{IsOutbox, outbox_view};

    ghost Value = { PortView };

    ghost view = { λ s. outbox_view s.opening s.messages s.credits s.seen s.misses };

    ghost invariant = { λ s. IsOutbox s.opening s.messages s.credits s.count s.seen };
}

/// The taking end of a pair over rings. It took `count` messages and told of `told`: of all at the ports'
/// last meeting, and of one by each credit pushed since.
#[derive(Drop)]
pub struct RingInbox {
    opening: Opening,
    messages: Consumer<Message>,
    credits: Producer<u8>,
    count: u32,
    told: u32,
    misses: u64,
}

impl Model for RingInbox {
    ghost use Rattle.icet_model.specs.Wires.{PortView};
    ghost use Rattle.icet_ring_wires.specs.Rings.{IsInbox, inbox_view};

    ghost Value = { PortView };

    ghost view = { λ s. inbox_view s.opening s.messages s.credits s.told s.misses };

    ghost invariant = { λ s. IsInbox s.opening s.messages s.credits s.count s.told };
}

impl Outbox for RingOutbox {
    ghost port = { λ v. v };

    fn offer(&mut self, message: Message) -> Result<(), Message> {
        if self.count - self.seen == self.opening.cap {
            if self.credits.pop().is_err() {
                self.misses = self.misses.saturating_add(1);
                return Err(message);
            }
            self.seen += 1;
        }
        self.messages.push_reserved(message);
        self.count += 1;
        Ok(())
    }
}

impl Inbox for RingInbox {
    ghost port = { λ v. v };

    fn take(&mut self) -> Option<Message> {
        match self.messages.pop() {
            Ok(message) => {
                self.count += 1;
                if self.credits.push(CREDIT).is_ok() {
                    self.told += 1;
                }
                Some(message)
            }
            Err(_) => {
                self.misses = self.misses.saturating_add(1);
                None
            }
        }
    }
}

/// The two ports of a new pair, with the memory for all its messages.
pub(crate) fn open(
    alloc: Global,
    from: Rank,
    to: Rank,
    cap: u32,
    total: u32,
) -> Result<(RingOutbox, RingInbox), NoMemory>
    ensures { IfOk result (λ p. IsNewPair from to cap total p.0 p.1) }
{
    let (sender, taker) = RingBuffer::new(alloc, total as usize)?;
    let (teller, listener) = RingBuffer::new(alloc, total as usize)?;
    let out = RingOutbox {
        opening: Opening {
            from,
            to,
            cap,
            total,
        },
        messages: sender,
        credits: listener,
        count: 0,
        seen: 0,
        misses: 0,
    };
    let inbox = RingInbox {
        opening: Opening {
            from,
            to,
            cap,
            total,
        },
        messages: taker,
        credits: teller,
        count: 0,
        told: 0,
        misses: 0,
    };
    Ok((out, inbox))
}

/// Pops every credit that waits.
fn collect(credits: &mut Consumer<u8>, teller: &mut Producer<u8>)
    requires pair { IsPair teller.old credits.old }
    ensures met { CreditsMet credits.old credits.new teller.old teller.new }
    ensures all { length (received credits.new) ≡ length (sent teller.new) }
{
    'popping: while credits.slots_beside(teller) > 0 {
        credits.pop_known();
    }
}

/// Lets the two ports of a pair meet: the inbox looks at what was sent, and the outbox learns what was taken.
pub(crate) fn meet(out: &mut RingOutbox, inbox: &mut RingInbox)
    requires paired { out.old.pairing ≡ inbox.old.pairing }
    ensures goes_on { PairMet out.old out.new inbox.old inbox.new }
    ensures synced { PortsAreSynced out.new.pairing.cap out.new inbox.new }
{
    inbox.messages.slots_beside(&mut out.messages);
    collect(&mut out.credits, &mut inbox.credits);
    out.seen = inbox.count;
    inbox.told = inbox.count;
}
