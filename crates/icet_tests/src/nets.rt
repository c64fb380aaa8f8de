//! A net of several rounds over each kind of wires: closed early, driven to its end, and its turns counted.
ghost use Rattle.std.specs.Prelude.{◌≡◌, ◌<◌, ◌≤◌, [], ◌∷◌, IfOk, IfSome, length};
ghost use Rattle.icet_net.specs.Ranks.{AreHulls, AreWholeImages};

use crate::gates::CountingGate;
use crate::meeting::MeetingGate;
use crate::samples::two_swappers;
use icet_base::{Gate, Mode, NoMemory, PlainGate, Rank, Rect};
use icet_net::laws::hulls_stay;
use icet_net::{Hull, Image, Pictures, RankMachine, Unfinished, close_net, drive, open_net, turn};
use icet_pixel::{Fragment, Pixel};
use icet_ring::{Inbox, MemWires, Outbox, Wires};
use icet_ring_wires::{RingWires, ScriptWires};
use icet_sparse::Sparse;
use icet_tiles::{Layout, Tile};
use std::alloc::Global;
use std::thread::Threads;

/// An image of one tile of two positions.
fn image(alloc: Global, pixels: &[Pixel; 2]) -> Result<Image, NoMemory>
    ensures { IfOk result (λ image. AreWholeImages (2 ∷ []) image) }
{
    Ok(Image::of(vec![in alloc; Sparse::of(alloc, 0, pixels)?]?))
}

/// The net of two swappers, in which one message may wait on a pair.
fn open<W: Wires>(
    alloc: Global,
    pixels: &[[Pixel; 2]; 2],
    wires: &mut W,
) -> Result<(Hull<W>, Vec<RankMachine<W::In, W::Out>>), NoMemory>
    ensures hulls { IfOk result (λ net. AreHulls net.0 net.1.items) }
    ensures owed { IfOk result (λ net. length net.0.pairs ≤ W.owed wires.new) }
{
    let tile = Tile {
        area: Rect {
            x: 0,
            y: 0,
            w: 1,
            h: 2,
        },
        display: Rank(0),
    };
    let layout = Layout::of(vec![in alloc; tile]?);
    let images = vec![in alloc; image(alloc, &pixels[0])?, image(alloc, &pixels[1])?]?;
    let plan = two_swappers(alloc)?;
    open_net(alloc, plan, Mode::Depth, &layout, images, 1, wires, 1)
}

/// Drives a net to its end, with two workers and one step a turn.
fn finish<W: Wires, G: Gate, R: Threads + Sync>(
    rt: &R,
    hull: &Hull<W>,
    ranks: &mut Vec<RankMachine<W::In, W::Out>>,
    wires: &mut W,
    gate: &G,
) -> Result<(), NoMemory>
    requires hulls { AreHulls hull.now ranks.old.items }
    ensures hulls { AreHulls hull.now ranks.new.items }
    ensures owed { W.owed wires.new ≡ W.owed wires.old }
{
    drive(rt, hull, ranks, wires, 2, 1, gate)
}

/// An opaque pixel whose grey tells it apart.
fn grey(level: u16, z: u32) -> Pixel {
    Fragment::new(level, level, level, 255, z)
}

/// What is handed back of a net that is closed before its ranks are done.
fn closed_early<W: Wires>(
    hull: Hull<W>,
    ranks: Vec<RankMachine<W::In, W::Out>>,
    wires: &mut W,
) -> Option<Unfinished<W>>
    requires hulls { AreHulls hull ranks.items }
    requires owed { length hull.pairs ≤ W.owed wires.old }
    ensures hulls { IfSome result (λ u. AreHulls u.hull u.ranks.items) }
    ensures owed { IfSome result (λ u. length u.hull.pairs ≤ W.owed wires.new) }
{
    close_net(hull, ranks, wires).err()
}

/// Turns the ranks of a net once, by one step each.
fn begin<W: Wires, R: Threads + Sync>(
    rt: &R,
    hull: &Hull<W>,
    ranks: &mut Vec<RankMachine<W::In, W::Out>>,
) -> Result<(), NoMemory>
    requires hulls { AreHulls hull.now ranks.old.items }
    ensures hulls { AreHulls hull.now ranks.new.items }
{
    hulls_stay();
    turn(rt, ranks, 2, 1, &PlainGate)
}

/// What came of a net that was closed early: the rank that wasn't done, whether each rank still had one exchange
/// behind it, and then the pictures, and how often the ranks entered in the drive to its end.
#[derive(Drop)]
struct Came {
    undone: Rank,
    kept: bool,
    pictures: Pictures,
    entries: [u32; 2],
}

/// What comes of two swappers that are closed after one turn, and then driven and closed. None where the second
/// close answers that a rank isn't done, or the first one doesn't.
fn came_over<W: Wires, R: Threads + Sync>(
    rt: &R,
    alloc: Global,
    drawn: &[[Pixel; 2]; 2],
    wires: &mut W,
) -> Result<Option<Came>, NoMemory> {
    let (hull, mut ranks) = open(alloc, drawn, wires)?;
    begin(rt, &hull, &mut ranks)?;
    let Some(
        Unfinished {
            rank,
            hull,
            mut ranks,
        },
    ) = closed_early(hull, ranks, wires)
    else {
        return Ok(None);
    };
    let kept = ranks.len() == 2 && ranks.iter().all(|machine| machine.counter() == 1);
    let gate = CountingGate::new();
    finish(rt, &hull, &mut ranks, wires, &gate)?;
    Ok(match close_net(hull, ranks, wires) {
        Ok(pictures) => Some(Came {
            undone: rank,
            kept,
            pictures,
            entries: gate.entries(),
        }),
        Err(_) => None,
    })
}

/// Wires of each kind, the last with the numbers of the blind calls.
#[derive(Drop)]
enum Kind {
    Memory,
    Rings,
    Script(&'static [u64]),
}

/// The same over new wires of this kind.
fn came_of<R: Threads + Sync>(
    rt: &R,
    alloc: Global,
    drawn: &[[Pixel; 2]; 2],
    kind: &Kind,
) -> Result<Option<Came>, NoMemory> {
    match kind {
        Kind::Memory => came_over(rt, alloc, drawn, &mut MemWires::new(alloc)),
        Kind::Rings => came_over(rt, alloc, drawn, &mut RingWires::new(alloc)),
        Kind::Script(blind) => {
            let blind = Vec::from_slice(alloc, blind)?;
            came_over(rt, alloc, drawn, &mut ScriptWires::new(alloc, blind))
        }
    }
}

// The first turn makes two of six exchanges, both sends, so the drive takes at most five turns more.
#[test]
fn a_net_closed_early_is_handed_back_and_shows_its_halves(rt: HostRuntime) {
    let drawn = [[grey(10, 5), grey(10, 5)], [grey(20, 5), grey(30, 2)]];
    let want = [grey(10, 5), grey(30, 2)];
    for (name, kind) in [
        ("memory", Kind::Memory),
        ("rings", Kind::Rings),
        ("all see", Kind::Script(&[])),
        ("first blind", Kind::Script(&[0])),
        ("three blind", Kind::Script(&[0, 1, 3])),
    ] {
        match came_of(&rt, rt.alloc(), &drawn, &kind) {
            Ok(Some(came)) => {
                let [turns, others] = came.entries;
                assert!(rt; came.kept && turns <= 5 && others == turns, "{name}");
                assert_eq!(rt; came.undone, Rank(0), "{name}");
                let shown = came
                    .pictures
                    .as_slice()
                    .first()
                    .map(|picture| picture.as_slice());
                assert_eq!(rt; shown, Some(want.as_slice()), "{name}");
            }
            _ => assert!(rt; false, "{name}"),
        }
    }
}

fn crosses<T: Send>(_value: &T) {}

/// A machine may move between threads, whatever its ports.
fn machine_crosses<I: Inbox, O: Outbox>(machine: &RankMachine<I, O>) {
    crosses(machine);
}

/// Whether in one turn of so many workers, with one step each, each rank enters once and makes one exchange.
fn enters_once<R: Threads + Sync>(rt: &R, alloc: Global, workers: u32) -> Result<bool, NoMemory>
    requires { 1 ≤ workers }
{
    let blank = [[None, None], [None, None]];
    let (_hull, mut ranks) = open(alloc, &blank, &mut MemWires::new(alloc))?;
    let gate = CountingGate::new();
    turn(rt, &mut ranks, workers, 1, &gate)?;
    if let Some(machine) = ranks.get(1) {
        machine_crosses(machine);
    }
    let moved = ranks.iter().all(|machine| machine.counter() == 1);
    Ok(moved && gate.entries() == [1, 1])
}

#[test]
fn a_turn_enters_once_for_each_rank(rt: HostRuntime) {
    for workers in 1..4 {
        let holds = enters_once(&rt, rt.alloc(), workers);
        assert!(rt; matches!(holds, Ok(true)), "{workers} workers");
    }
}

/// Whether the two ranks of a net met in the gate in one turn of so many workers.
fn meets<R: Threads + Sync>(rt: &R, alloc: Global, workers: u32) -> Result<bool, NoMemory>
    requires { 1 ≤ workers }
{
    let blank = [[None, None], [None, None]];
    let (_hull, mut ranks) = open(alloc, &blank, &mut MemWires::new(alloc))?;
    let gate = MeetingGate::new();
    turn(rt, &mut ranks, workers, 1, &gate)?;
    Ok(gate.have_met())
}

// Whoever steps the ranks one after the other waits in vain.
#[test]
fn workers_step_ranks_at_the_same_time(rt: HostRuntime) {
    for workers in 2..4 {
        let met = meets(&rt, rt.alloc(), workers);
        assert_eq!(rt; met, Ok(true), "{workers} workers");
    }
}
