//! Ranks that are stepped by threads of a caller's own, and what comes of their net.
ghost use Rattle.std.specs.Prelude.{◌≡◌, ◌≤◌, ◌++◌, length, IfOk, OnOk};
ghost use Rattle.icet_net.specs.Closing.{pictures_of, traffic_of};
ghost use Rattle.icet_workers.specs.Shares.{EachDoes};
ghost use Rattle.icet_net.specs.Ranks.{AreDone, AreHulls, ComesOn, EachRank, GoesOn, images_of, mode_of};

use icet_base::{NoMemory, PlainGate};
use icet_net::{Hull, Pictures, RankMachine, close_net, drive};
use icet_ring::{Inbox, Outbox, Wires};
use std::thread::{Threads, join};

/// How often a thread steps a rank in a row.
pub const TIMES: u32 = 50;

/// How two threads step the ranks: those below `first` in one and the others in another, and that `rounds` times
/// over.
#[derive(Clone, Copy, Debug)]
pub struct Shifts {
    pub first: usize,
    pub rounds: u32,
}

/// The pictures of a net whose ranks two threads step first, in whatever way the threads run: they are the plan's,
/// and the wires' log grows by its traffic. Conditions: the ranks are the hull's, and the wires owe a close to each
/// pair.
///
/// # Errors
///
/// `NoMemory`.
pub fn composite_by_two<W: Wires, R: Threads + Sync>(
    rt: &R,
    hull: Hull<W>,
    ranks: Vec<RankMachine<W::In, W::Out>>,
    shifts: Shifts,
    wires: &mut W,
) -> Result<Pictures, NoMemory>
    requires hulls { AreHulls hull ranks.items }
    requires owed { length hull.pairs ≤ W.owed wires.old }
    requires first { shifts.first ≤ length ranks.items }
    ensures pictures { IfOk result (λ p. p ≡ pictures_of hull (mode_of ranks.items) (images_of ranks.items)) }
    ensures log { OnOk result (W.log wires.new ≡ W.log wires.old ++ traffic_of hull ranks.items) }
{
    let mut ranks = ranks;
    'turning: for _ in 0..shifts.rounds {
        ranks = step_by_two(rt, ranks, shifts.first)?;
    }
    drive_and_close(rt, hull, ranks, wires)
}

/// The ranks after two threads stepped them at the same time: the first so many in one, and the others in another.
///
/// # Errors
///
/// `NoMemory`, once both threads have ended.
fn step_by_two<I: Inbox, O: Outbox, R: Threads + Sync>(
    rt: &R,
    ranks: Vec<RankMachine<I, O>>,
    first: usize,
) -> Result<Vec<RankMachine<I, O>>, NoMemory>
    requires { first ≤ length ranks.items }
    ensures { IfOk result (λ after. EachRank GoesOn ranks.items after.items) }
{
    let mut front = ranks;
    let back = front.split_off(first)?;
    let (one, two) = join(
        rt,
        move || -> Result<Vec<RankMachine<I, O>>, NoMemory>
            ensures { IfOk result (λ after. EachDoes GoesOn front.items after.items) }
        { step_moved(front) },
        move || -> Result<Vec<RankMachine<I, O>>, NoMemory>
            ensures { IfOk result (λ after. EachDoes GoesOn back.items after.items) }
        { step_moved(back) },
    );
    let mut all = one?;
    let mut others = two?;
    all.append(&mut others)?;
    Ok(all)
}

/// These ranks, each stepped `TIMES` times in a row.
pub fn step_moved<I: Inbox, O: Outbox>(
    ranks: Vec<RankMachine<I, O>>,
) -> Result<Vec<RankMachine<I, O>>, NoMemory>
    ensures { IfOk result (λ after. EachDoes GoesOn ranks.items after.items) }
{
    let mut ranks = ranks;
    step_owned(&mut ranks)?;
    Ok(ranks)
}

/// Steps each of these ranks `TIMES` times in a row.
fn step_owned<I: Inbox, O: Outbox>(ranks: &mut Vec<RankMachine<I, O>>) -> Result<(), NoMemory>
    ensures { EachDoes GoesOn ranks.old.items ranks.new.items }
{
    step_each(ranks)
}

/// Steps each rank `TIMES` times in a row.
///
/// # Errors
///
/// `NoMemory`; the ranks behind that one weren't stepped.
pub fn step_each<I: Inbox, O: Outbox>(ranks: &mut [RankMachine<I, O>]) -> Result<(), NoMemory>
    ensures { EachDoes GoesOn ranks.old ranks.new }
{
    'stepping: for i in 0..ranks.len() {
        step_often(&mut ranks[i])?;
    }
    Ok(())
}

/// Steps a rank `TIMES` times in a row, whatever comes of each step.
fn step_often<I: Inbox, O: Outbox>(rank: &mut RankMachine<I, O>) -> Result<(), NoMemory>
    ensures { GoesOn rank.old rank.new }
{
    'stepping: for _ in 0..TIMES {
        step_once(rank)?;
    }
    Ok(())
}

/// Steps a rank once, whatever comes of it.
fn step_once<I: Inbox, O: Outbox>(rank: &mut RankMachine<I, O>) -> Result<(), NoMemory>
    ensures { GoesOn rank.old rank.new }
{
    rank.step()?;
    Ok(())
}

/// Drives a net to its end with two workers, and closes it.
///
/// # Errors
///
/// `NoMemory`.
pub fn drive_and_close<W: Wires, R: Threads + Sync>(
    rt: &R,
    hull: Hull<W>,
    ranks: Vec<RankMachine<W::In, W::Out>>,
    wires: &mut W,
) -> Result<Pictures, NoMemory>
    requires hulls { AreHulls hull ranks.items }
    requires owed { length hull.pairs ≤ W.owed wires.old }
    ensures pictures { IfOk result (λ p. p ≡ pictures_of hull (mode_of ranks.items) (images_of ranks.items)) }
    ensures log { OnOk result (W.log wires.new ≡ W.log wires.old ++ traffic_of hull ranks.items) }
{
    let mut ranks = ranks;
    drive_all(rt, &hull, &mut ranks, wires)?;
    match close_net(hull, ranks, wires) {
        Ok(pictures) => Ok(pictures),
        Err(_) => unreachable!(),
    }
}

/// Drives a net to its end with two workers.
fn drive_all<W: Wires, R: Threads + Sync>(
    rt: &R,
    hull: &Hull<W>,
    ranks: &mut Vec<RankMachine<W::In, W::Out>>,
    wires: &mut W,
) -> Result<(), NoMemory>
    requires hulls { AreHulls hull.now ranks.old.items }
    ensures hulls { AreHulls hull.now ranks.new.items }
    ensures comes_on { EachRank ComesOn ranks.old.items ranks.new.items }
    ensures done { OnOk result (AreDone ranks.new.items) }
    ensures owed { W.owed wires.new ≡ W.owed wires.old }
    ensures log { W.log wires.new ≡ W.log wires.old }
{
    drive(rt, hull, ranks, wires, 2, 16, &PlainGate)
}
