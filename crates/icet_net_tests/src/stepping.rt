//! A net whose ranks two threads of the test's own step: the two of a `join`, and two of a scope.
ghost use Rattle.std.specs.Prelude.{IfOk};
ghost use Rattle.icet_net.specs.Ranks.{EachRank, GoesOn};
ghost use Rattle.icet_workers.specs.Shares.{EachDoes};

use crate::opening::open_sequential;
use crate::scenes::{FIVE_RANKS, scene_of};
use icet_base::NoMemory;
use icet_multi::Single;
use icet_net::{Pictures, RankMachine};
use icet_pixel::Pixel;
use icet_ring_wires::{RingInbox, RingOutbox, RingWires};
use icet_tests::stepping::{Shifts, composite_by_two, drive_and_close, step_moved};
use std::alloc::Global;
use std::snapshot::Snapshot;
use std::sync::Wait;
use std::thread;
use std::thread::{Promise, Threads};

/// How many ranks the first thread has.
const FIRST: usize = 3;

/// A rank over rings.
type Machine = RankMachine<RingInbox, RingOutbox>;

/// The pictures of the five ranks, which the two threads of a `join` stepped five times over.
fn by_joined_threads<R: Threads + Sync>(rt: &R, alloc: Global) -> Result<Pictures, NoMemory> {
    let scene = scene_of(alloc, FIVE_RANKS)?;
    let mut wires = RingWires::new(alloc);
    let (hull, ranks) = open_sequential(alloc, &scene, Single::Bswap, 1, &mut wires)?;
    let shifts = Shifts {
        first: FIRST.min(ranks.len()),
        rounds: 5,
    };
    composite_by_two(rt, hull, ranks, shifts, &mut wires)
}

/// That a thread's ranks went on from these.
#[derive(Drop)]
struct WentOn(Snapshot<Vec<Machine>>);

impl Promise<Result<Vec<Machine>, NoMemory>> for WentOn {
    ghost kept_by = { λ p r. IfOk r (λ ranks. EachDoes GoesOn p.0.value.items ranks.items) };
}

/// The first ranks and the others, after a thread of a scope that owned them stepped either.
fn both_stepped<R: Threads + Wait + Sync>(
    rt: &R,
    front: Vec<Machine>,
    back: Vec<Machine>,
) -> Result<(Vec<Machine>, Vec<Machine>), NoMemory>
    ensures front { IfOk result (λ after. EachDoes GoesOn front.items after.0.items) }
    ensures back { IfOk result (λ after. EachDoes GoesOn back.items after.1.items) }
{
    thread::scope(
        thread::scope_env(),
        rt,
        move |scope| -> Result<(Vec<Machine>, Vec<Machine>), NoMemory>
            ensures { IfOk result (λ after. EachDoes GoesOn front.items after.0.items × EachDoes GoesOn back.items after.1.items) }
        {
            let front_was = WentOn(Snapshot::of(&front));
            let back_was = WentOn(Snapshot::of(&back));
            let one = scope.spawn_with(front_was, move || step_moved(front));
            let two = scope.spawn_with(back_was, move || step_moved(back));
            match (one, two) {
                (Ok(one), Ok(two)) => Ok((one.join(rt)?, two.join(rt)?)),
                _ => Err(NoMemory),
            }
        },
    )
}

/// The ranks, after two threads that owned them stepped some and the others.
fn moved<R: Threads + Wait + Sync>(rt: &R, ranks: Vec<Machine>) -> Result<Vec<Machine>, NoMemory>
    ensures { IfOk result (λ after. EachRank GoesOn ranks.items after.items) }
{
    let mut front = ranks;
    let first = FIRST.min(front.len());
    let back = front.split_off(first)?;
    let (mut front, mut back) = both_stepped(rt, front, back)?;
    front.append(&mut back)?;
    Ok(front)
}

/// The pictures of the five ranks, which two threads of a scope stepped five times over.
fn by_threads_of_a_scope<R: Threads + Wait + Sync>(
    rt: &R,
    alloc: Global,
) -> Result<Pictures, NoMemory> {
    let scene = scene_of(alloc, FIVE_RANKS)?;
    let mut wires = RingWires::new(alloc);
    let (hull, mut ranks) = open_sequential(alloc, &scene, Single::Bswap, 1, &mut wires)?;
    'moving: for _ in 0..5 {
        ranks = moved(rt, ranks)?;
    }
    drive_and_close(rt, hull, ranks, &mut wires)
}

/// Whether there is one picture, of seven pixels where nothing was drawn.
fn is_blank(pictures: &Pictures) -> bool {
    let blank: [Pixel; 7] = [None; 7];
    matches!(pictures.as_slice(), [picture] if picture.as_slice() == blank.as_slice())
}

// What the wires' log grew by is a clause of the calls, whatever the threads did.
#[test]
fn the_threads_of_a_join_step_the_ranks(rt: HostRuntime) {
    let shown = by_joined_threads(&rt, rt.alloc());
    assert!(rt; matches!(&shown, Ok(pictures) if is_blank(pictures)));
}

// The end of a scope is waited for, which no call of the other crates does.
#[test]
fn the_threads_of_a_scope_step_the_ranks(rt: HostRuntime) {
    let shown = by_threads_of_a_scope(&rt, rt.alloc());
    assert!(rt; matches!(&shown, Ok(pictures) if is_blank(pictures)));
}
