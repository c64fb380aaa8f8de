//! Ports that watch who uses them.
use crate::runs::{FIVE_RANKS, assert_came, came_over, done};
use icet_base::{Gate, NoMemory, Rank};
use icet_ring::{Inbox, MemInbox, MemOutbox, MemWires, Message, Outbox, Wires};
use std::alloc::Global;
use std::sync::atomic::{AtomicU32, Ordering};

/// Which rank entered last, if one did, and how often messages went through a port in the turn of its own rank and
/// a port was used in no turn or that of another.
#[derive(Drop)]
struct Watch {
    entered: AtomicU32,
    own: AtomicU32,
    other: AtomicU32,
}

impl Watch {
    fn new() -> Watch {
        Watch {
            entered: AtomicU32::new(u32::MAX),
            own: AtomicU32::new(0),
            other: AtomicU32::new(0),
        }
    }

    /// Counts a use of a port of this rank.
    fn note(&self, rank: Rank, goes: bool) {
        if self.entered.load(Ordering::SeqCst) != rank.0 {
            self.other.fetch_add(1, Ordering::SeqCst);
        } else if goes {
            self.own.fetch_add(1, Ordering::SeqCst);
        }
    }

    /// How often ports were used in their own rank's turn, and else.
    fn counts(&self) -> (u32, u32) {
        (
            self.own.load(Ordering::SeqCst),
            self.other.load(Ordering::SeqCst),
        )
    }
}

impl Gate for Watch {
    fn enter(&self, rank: Rank) {
        self.entered.store(rank.0, Ordering::SeqCst);
    }
}

#[derive(Drop)]
struct WatchedOutbox<'a> {
    port: MemOutbox,
    rank: Rank,
    watch: &'a Watch,
}

impl<'a> Outbox for WatchedOutbox<'a> {
    ghost port = { λ w. w.port };

    fn offer(&mut self, message: Message) -> Result<(), Message> {
        let answer = self.port.offer(message);
        self.watch.note(self.rank, answer.is_ok());
        answer
    }
}

#[derive(Drop)]
struct WatchedInbox<'a> {
    port: MemInbox,
    rank: Rank,
    watch: &'a Watch,
}

impl<'a> Inbox for WatchedInbox<'a> {
    ghost port = { λ w. w.port };

    fn take(&mut self) -> Option<Message> {
        let answer = self.port.take();
        self.watch.note(self.rank, answer.is_some());
        answer
    }
}

/// Wires in memory whose ports are watched.
#[derive(Drop)]
struct WatchedWires<'a> {
    wires: MemWires,
    watch: &'a Watch,
}

impl<'a> Wires for WatchedWires<'a> {
    type Out = WatchedOutbox<'a>;

    type In = WatchedInbox<'a>;

    ghost log = { λ w. w.wires.log };

    ghost owed = { λ w. w.wires.owed };

    fn open_pair(
        &mut self,
        alloc: Global,
        from: Rank,
        to: Rank,
        cap: u32,
        total: u32,
    ) -> Result<(WatchedOutbox<'a>, WatchedInbox<'a>), NoMemory> {
        let (out, inbox) = self.wires.open_pair(alloc, from, to, cap, total)?;
        let out = WatchedOutbox {
            port: out,
            rank: from,
            watch: self.watch,
        };
        let inbox = WatchedInbox {
            port: inbox,
            rank: to,
            watch: self.watch,
        };
        Ok((out, inbox))
    }

    fn sync(
        &mut self,
        out: &mut WatchedOutbox<'a>,
        inbox: &mut WatchedInbox<'a>,
        cap: u32,
    ) -> Result<(), NoMemory> {
        self.wires.sync(&mut out.port, &mut inbox.port, cap)
    }

    fn close_pair(
        &mut self,
        from: Rank,
        to: Rank,
        out: WatchedOutbox<'a>,
        inbox: WatchedInbox<'a>,
    ) {
        self.wires.close_pair(from, to, out.port, inbox.port);
    }
}

/// Seven by one pixels, where nothing was drawn.
const BLANK: &[u8] =
    b"P7\nWIDTH 7\nHEIGHT 1\nDEPTH 4\nMAXVAL 255\nTUPLTYPE RGB_ALPHA\nENDHDR\n\x00\x00\x00\x00\x00\x00\x00\x00\x00\x00\x00\x00\x00\x00\x00\x00\x00\x00\x00\x00\x00\x00\x00\x00\x00\x00\x00\x00";

// Twelve messages, each offered and taken once in the turns of their ranks. Whoever pushes messages through the
// ports outside these turns is counted as another.
#[test]
fn ports_are_used_in_the_turns_of_their_own_ranks(rt: HostRuntime) {
    let watch = Watch::new();
    let mut wires = WatchedWires {
        wires: MemWires::new(rt.alloc()),
        watch: &watch,
    };
    let words = [
        "composite",
        "--strategy=sequential",
        "--single=bswap",
        "--workers=1",
    ];
    let came = came_over(&rt, rt.alloc(), &words, FIVE_RANKS, &mut wires, &watch);
    assert_came(&rt, &came, done(BLANK), "watched");
    assert_eq!(rt; watch.counts(), (24, 0));
}
