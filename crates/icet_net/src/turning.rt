ghost use Rattle.std.specs.Prelude.{◌≤◌, OnOk};
ghost use Rattle.icet_net.specs.Ranks.{EachRank, GoesOn, HadTurn};
ghost use Rattle.icet_net.specs.Turns.{TurnsOn};

use icet_base::{Gate, NoMemory};
use icet_rank::{RankMachine, Step};
use icet_ring::{Inbox, Outbox};
use icet_workers::for_each_share;
use std::thread::Threads;

/// Steps all ranks, shared out to `workers`: worker `j` has the ranks from `P * j / workers` up to
/// `P * (j + 1) / workers`, where `P` is their number. It enters the gate once for each of its ranks,
/// and then steps that rank until an answer isn't `Moved`, at most `burst` times. The first worker is the
/// calling thread, each other one has a thread of its own, and all have ended when the call returns; a thread
/// that can't be made does no harm, since the caller does its work. Conditions: `workers` and `burst` are at
/// least 1.
///
/// # Errors
///
/// `NoMemory`, after all workers have ended; a later turn goes on from where this one came to.
pub fn turn<I: Inbox, O: Outbox, G: Gate, R: Threads + Sync>(
    rt: &R,
    ranks: &mut [RankMachine<I, O>],
    workers: u32,
    burst: u32,
    gate: &G,
) -> Result<(), NoMemory>
    requires workers { 1 ≤ workers }
    requires burst { 1 ≤ burst }
    ensures goes_on { EachRank GoesOn ranks.old ranks.new }
    ensures turned { OnOk result (EachRank (HadTurn burst) ranks.old ranks.new) }
{
    let step = |rank: &mut RankMachine<I, O>| -> Result<(), NoMemory>
        requires { 1 ≤ burst }
        ensures { GoesOn rank.entry.now rank.exit.now × OnOk result (TurnsOn burst rank.entry.now rank.exit.now) }
    { turn_rank(rank, burst, gate) };
    for_each_share(rt, &step, workers, ranks)
}

/// Enters the gate, and steps the rank until an answer isn't `Moved`, at most `burst` times.
fn turn_rank<I: Inbox, O: Outbox, G: Gate>(
    rank: &mut RankMachine<I, O>,
    burst: u32,
    gate: &G,
) -> Result<(), NoMemory>
    requires burst { 1 ≤ burst }
    ensures goes_on { GoesOn rank.old rank.new }
    ensures turned { OnOk result (TurnsOn burst rank.old rank.new) }
{
    gate.enter(rank.number());
    'stepping: for steps in 0..burst {
        match rank.step()? {
            Step::Moved => {}
            Step::Pending | Step::Done => return Ok(()),
        }
    }
    Ok(())
}
