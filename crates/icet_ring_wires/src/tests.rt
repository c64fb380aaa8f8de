//! The same calls over the wires in memory, over rings, and over rings whose ports look away at scripted calls.
ghost use Rattle.std.specs.Prelude.{◌≡◌, ◌+◌};

use crate::{RingWires, ScriptWires};
use icet_base::{NoMemory, Rank};
use icet_ring::{Inbox, MemWires, Message, Outbox, Wires};
use icet_sparse::Sparse;
use std::alloc::Global;
use std::thread::{Threads, join_mut};

/// A call of one end of a pair. A call that no message goes through is a miss of its port, by the ports' clauses.
#[derive(Clone, Copy)]
enum Call {
    Offer,
    Take,
}

use Call::{Offer, Take};

/// Offers the next of two messages, which are told apart by their rounds, and says whether it went.
fn offers<O: Outbox>(alloc: Global, out: &mut O, sent: &mut u32) -> Result<bool, NoMemory>
    requires room { (O.port out.old).room + sent.old ≡ 2 }
    ensures room { (O.port out.new).room + sent.new ≡ 2 }
    ensures pairing { (O.port out.new).pairing ≡ (O.port out.old).pairing }
{
    if *sent == 2 {
        return Ok(false);
    }
    let piece = Sparse::of(alloc, 0, &[None])?;
    let message = Message {
        round: *sent,
        from: Rank(3),
        to: Rank(5),
        piece,
    };
    match out.offer(message) {
        Ok(()) => {
            *sent += 1;
            Ok(true)
        }
        Err(_) => Ok(false),
    }
}

/// Takes a message, and says whether it was the next of the two.
fn takes<I: Inbox>(inbox: &mut I, taken: &mut u32) -> bool
    requires room { (I.port inbox.old).room + taken.old ≡ 2 }
    ensures room { (I.port inbox.new).room + taken.new ≡ 2 }
    ensures pairing { (I.port inbox.new).pairing ≡ (I.port inbox.old).pairing }
{
    if *taken == 2 {
        return false;
    }
    match inbox.take() {
        Some(message) => {
            let is_next = message.round == *taken;
            *taken += 1;
            is_next
        }
        None => false,
    }
}

/// Which of these calls a message went through, on a pair for two messages of which one may wait.
fn answers<W: Wires>(
    alloc: Global,
    wires: &mut W,
    calls: &[Call],
    syncs: bool,
) -> Result<Vec<bool>, NoMemory> {
    let (mut out, mut inbox) = wires.open_pair(alloc, Rank(3), Rank(5), 1, 2)?;
    let mut sent = 0;
    let mut taken = 0;
    let mut went = Vec::new(alloc);
    'calling: for call in calls {
        let goes = match call {
            Call::Offer => offers(alloc, &mut out, &mut sent)?,
            Call::Take => takes(&mut inbox, &mut taken),
        };
        went.push(goes)?;
        if syncs {
            wires.sync(&mut out, &mut inbox, 1)?;
        }
    }
    Ok(went)
}

/// The calls with a sync after each.
const MET: [Call; 5] = [Take, Offer, Offer, Take, Take];

/// The calls with no sync.
const APART: [Call; 4] = [Offer, Take, Offer, Take];

/// Wires of each kind, the last with the numbers of the blind calls.
#[derive(Drop)]
enum Kind {
    Memory,
    Rings,
    Script(&'static [u64]),
}

/// Which of these calls a message went through, over new wires.
fn answers_over(
    alloc: Global,
    kind: &Kind,
    calls: &[Call],
    syncs: bool,
) -> Result<Vec<bool>, NoMemory> {
    match kind {
        Kind::Memory => answers(alloc, &mut MemWires::new(alloc), calls, syncs),
        Kind::Rings => answers(alloc, &mut RingWires::new(alloc), calls, syncs),
        Kind::Script(blind) => {
            let blind = Vec::from_slice(alloc, blind)?;
            answers(alloc, &mut ScriptWires::new(alloc, blind), calls, syncs)
        }
    }
}

// Over rings the second take finds what was offered with no sync between, and the second offer the credit of the
// first take. A blind port doesn't look for either.
#[test]
fn rings_carry_at_once_and_wires_in_memory_in_a_sync(rt: HostRuntime) {
    let met = [false, true, false, true, false];
    for (name, kind, syncs, want) in [
        ("memory, met", Kind::Memory, true, met.as_slice()),
        ("rings, met", Kind::Rings, true, &met),
        ("all see, met", Kind::Script(&[]), true, &met),
        ("first blind, met", Kind::Script(&[0]), true, &met),
        ("memory", Kind::Memory, false, &[true, false, false, false]),
        ("rings", Kind::Rings, false, &[true, true, true, true]),
        (
            "all see",
            Kind::Script(&[]),
            false,
            &[true, true, true, true],
        ),
        (
            "first blind",
            Kind::Script(&[0]),
            false,
            &[true, false, false, true],
        ),
        (
            "second blind",
            Kind::Script(&[1]),
            false,
            &[true, true, true, false],
        ),
    ] {
        let calls = if syncs {
            MET.as_slice()
        } else {
            APART.as_slice()
        };
        match answers_over(rt.alloc(), &kind, calls, syncs) {
            Ok(came) => assert_eq!(rt; came.as_slice(), want, "{name}"),
            Err(_) => assert!(rt; false, "{name}"),
        }
    }
}

/// Whether a message that one thread offers reaches the port that another takes from, at the latest after a sync.
fn crosses_threads<R: Threads + Sync>(rt: &R, alloc: Global) -> Result<bool, NoMemory> {
    let mut wires = RingWires::new(alloc);
    let (mut out, mut inbox) = wires.open_pair(alloc, Rank(3), Rank(5), 1, 2)?;
    let mut sent = 0;
    let mut taken = 0;
    let (offered, came) = join_mut(
        rt,
        &mut || offers(alloc, &mut out, &mut sent),
        &mut || takes(&mut inbox, &mut taken),
    );
    let offered = offered?;
    wires.sync(&mut out, &mut inbox, 1)?;
    Ok(offered && (came || takes(&mut inbox, &mut taken)))
}

#[test]
fn the_ports_of_a_pair_move_to_two_threads(rt: HostRuntime) {
    assert!(rt; matches!(crosses_threads(&rt, rt.alloc()), Ok(true)));
}
