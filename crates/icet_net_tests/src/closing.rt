//! A net that is closed while a rank isn't done: all of it is handed back, and it shows its picture once it was driven
//! to its end.
ghost use Rattle.std.specs.Prelude.{◌≡◌, ◌≤◌, IfSome, length};
ghost use Rattle.icet_net.specs.Ranks.{AreHulls};

use crate::opening::open_sequential;
use crate::scenes::{NOTHING, scene_of};
use icet_base::{NoMemory, PlainGate, Rank};
use icet_multi::Single;
use icet_net::laws::hulls_stay;
use icet_net::{Hull, Pictures, RankMachine, Unfinished, close_net, drive, sync_all, turn};
use icet_pixel::Pixel;
use icet_rank::Step;
use icet_ring::{Inbox, MemWires, Outbox, Wires};
use icet_ring_wires::{RingWires, ScriptWires};
use icet_scene::scene::Scene;
use std::alloc::Global;
use std::thread::Threads;

/// How many turns it takes until rank 0 has sent the picture to rank 2, its display, which the last of these turns
/// doesn't end: rank 1 sends to rank 0, then rank 2, and then rank 0 sends.
const TURNS: u32 = 4;

/// Syncs the ranks, and turns them by one step each on this thread.
fn step_all<W: Wires, R: Threads + Sync>(
    rt: &R,
    hull: &Hull<W>,
    ranks: &mut Vec<RankMachine<W::In, W::Out>>,
    wires: &mut W,
) -> Result<(), NoMemory>
    requires { AreHulls hull.now ranks.old.items }
    ensures hulls { AreHulls hull.now ranks.new.items }
    ensures owed { W.owed wires.new ≡ W.owed wires.old }
{
    sync_all(hull, ranks, wires)?;
    hulls_stay();
    turn(rt, ranks, 1, 1, &PlainGate)
}

/// Steps the ranks so many times over.
fn step_often<W: Wires, R: Threads + Sync>(
    rt: &R,
    hull: &Hull<W>,
    ranks: &mut Vec<RankMachine<W::In, W::Out>>,
    wires: &mut W,
    turns: u32,
) -> Result<(), NoMemory>
    requires { AreHulls hull.now ranks.old.items }
    ensures hulls { AreHulls hull.now ranks.new.items }
    ensures owed { W.owed wires.new ≡ W.owed wires.old }
{
    'stepping: for _ in 0..turns {
        step_all(rt, hull, ranks, wires)?;
    }
    Ok(())
}

/// Drives a net to its end, with two workers.
fn finish<W: Wires, R: Threads + Sync>(
    rt: &R,
    hull: &Hull<W>,
    ranks: &mut Vec<RankMachine<W::In, W::Out>>,
    wires: &mut W,
) -> Result<(), NoMemory>
    requires { AreHulls hull.now ranks.old.items }
    ensures hulls { AreHulls hull.now ranks.new.items }
    ensures owed { W.owed wires.new ≡ W.owed wires.old }
{
    drive(rt, hull, ranks, wires, 2, 16, &PlainGate)
}

/// What is handed back of a net that is closed before its ranks are done.
fn closed_early<W: Wires>(
    hull: Hull<W>,
    ranks: Vec<RankMachine<W::In, W::Out>>,
    wires: &mut W,
) -> Option<Unfinished<W>>
    requires hulls { AreHulls hull ranks.items }
    requires owed { length hull.pairs ≤ W.owed wires.old }
    ensures hulls { IfSome result (λ u. AreHulls u.hull u.ranks.items) }
    ensures owed { IfSome result (λ u. length u.hull.pairs ≤ W.owed wires.new) }
{
    close_net(hull, ranks, wires).err()
}

/// What came of a net that was closed early: the rank that wasn't done, which ranks were, and the pictures after it was
/// driven to its end.
#[derive(Drop)]
struct Came {
    undone: Rank,
    done: [bool; 3],
    pictures: Pictures,
}

/// Which of three ranks are done.
fn which_are_done<I: Inbox, O: Outbox>(ranks: &[RankMachine<I, O>]) -> [bool; 3] {
    match ranks {
        [first, second, third] => [first.done(), second.done(), third.done()],
        _ => [false; 3],
    }
}

/// What comes of the scene's net. None where a close answers otherwise than it has to.
fn came_over<W: Wires, R: Threads + Sync>(
    rt: &R,
    alloc: Global,
    scene: &Scene,
    wires: &mut W,
) -> Result<Option<Came>, NoMemory> {
    let (hull, mut ranks) = open_sequential(alloc, scene, Single::Tree, 4, wires)?;
    step_often(rt, &hull, &mut ranks, wires, TURNS)?;
    let Some(
        Unfinished {
            rank,
            hull,
            mut ranks,
        },
    ) = closed_early(hull, ranks, wires)
    else {
        return Ok(None);
    };
    let done = which_are_done(&ranks);
    finish(rt, &hull, &mut ranks, wires)?;
    Ok(match close_net(hull, ranks, wires) {
        Ok(pictures) => Some(Came {
            undone: rank,
            done,
            pictures,
        }),
        Err(_) => None,
    })
}

/// Wires of each kind, the last with the numbers of the blind calls.
#[derive(Drop)]
enum Kind {
    Memory,
    Rings,
    Script(&'static [u64]),
}

/// The same over new wires of this kind.
fn came_of<R: Threads + Sync>(
    rt: &R,
    alloc: Global,
    kind: &Kind,
) -> Result<Option<Came>, NoMemory> {
    let scene = scene_of(alloc, NOTHING)?;
    match kind {
        Kind::Memory => came_over(rt, alloc, &scene, &mut MemWires::new(alloc)),
        Kind::Rings => came_over(rt, alloc, &scene, &mut RingWires::new(alloc)),
        Kind::Script(blind) => {
            let blind = Vec::from_slice(alloc, blind)?;
            came_over(rt, alloc, &scene, &mut ScriptWires::new(alloc, blind))
        }
    }
}

#[test]
fn a_net_closed_before_its_display_is_done_is_handed_back(rt: HostRuntime) {
    let blank: [Pixel; 2] = [None; 2];
    for (name, kind) in [
        ("memory", Kind::Memory),
        ("rings", Kind::Rings),
        ("all see", Kind::Script(&[])),
        ("three blind", Kind::Script(&[0, 1, 2])),
    ] {
        match came_of(&rt, rt.alloc(), &kind) {
            Ok(Some(came)) => {
                assert_eq!(rt; came.undone, Rank(2), "{name}");
                assert_eq!(rt; came.done, [true, true, false], "{name}");
                let shown = came
                    .pictures
                    .as_slice()
                    .first()
                    .map(|picture| picture.as_slice());
                assert_eq!(rt; shown, Some(blank.as_slice()), "{name}");
            }
            _ => assert!(rt; false, "{name}"),
        }
    }
}

/// What two more steps of rank 1 answer, which has nothing to do but its one send.
fn steps_behind_the_end<R: Threads + Sync>(
    rt: &R,
    alloc: Global,
) -> Result<Option<[Step; 2]>, NoMemory> {
    let scene = scene_of(alloc, NOTHING)?;
    let mut wires = MemWires::new(alloc);
    let (hull, mut ranks) = open_sequential(alloc, &scene, Single::Tree, 4, &mut wires)?;
    step_often(rt, &hull, &mut ranks, &mut wires, TURNS)?;
    match ranks.get_mut(1) {
        Some(machine) => Ok(Some([machine.step()?, machine.step()?])),
        None => Ok(None),
    }
}

#[test]
fn a_step_of_a_rank_that_is_done_answers_done_again(rt: HostRuntime) {
    let steps = steps_behind_the_end(&rt, rt.alloc());
    assert_eq!(rt; steps, Ok(Some([Step::Done, Step::Done])));
}
