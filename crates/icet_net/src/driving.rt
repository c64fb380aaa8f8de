ghost use Rattle.std.specs.Prelude.{◌≡◌, ◌≤◌, ◌<◌, OnOk, IfOk, IsTrue, false};
ghost use Rattle.icet_net.specs.Ranks.{AreHulls, EachRank, ComesOn, AreDone, AreAllSynced, IsOnCourse};
ghost use Rattle.icet_net.specs.Drives.{left_of, SomeUndone, DrivesOn};

use crate::hull::Hull;
use crate::syncing::{look_at, sync_all};
use crate::turning::turn;
use icet_base::{Gate, NoMemory};
use icet_rank::RankMachine;
use icet_ring::{Inbox, Outbox, Wires};
use std::thread::Threads;

/// Syncs and turns until all ranks are done, which they are after Ok. It always returns, since each turn
/// that leaves a rank undone has made an exchange. Conditions: the ranks are the hull's, and `workers`
/// and `burst` are at least 1.
///
/// # Errors
///
/// `NoMemory`; no exchange is undone and the ranks are still the hull's, so it may be called again.
#[tactic(auto, using(crate::proofs::DriveKeeps::drives_from))]
pub fn drive<W: Wires, G: Gate, R: Threads + Sync>(
    rt: &R,
    hull: &Hull<W>,
    ranks: &mut [RankMachine<W::In, W::Out>],
    wires: &mut W,
    workers: u32,
    burst: u32,
    gate: &G,
) -> Result<(), NoMemory>
    requires hulls { AreHulls hull.now ranks.old }
    requires workers { 1 ≤ workers }
    requires burst { 1 ≤ burst }
    ensures hulls { AreHulls hull.now ranks.new }
    ensures comes_on { EachRank ComesOn ranks.old ranks.new }
    ensures done { OnOk result (AreDone ranks.new) }
    ensures owed { W.owed wires.new ≡ W.owed wires.old }
    ensures log { W.log wires.new ≡ W.log wires.old }
{
    'driving: loop {
        sync_all(hull, ranks, wires)?;
        if turn_synced(rt, hull, ranks, workers, burst, gate)? {
            return Ok(());
        }
    }
}

/// Turns all ranks after a sync, and tells whether all are done then. If not, an exchange was made,
/// since a sync leaves some rank ready as long as one has an exchange left. Condition: the ports of
/// each pair used have just met.
fn turn_synced<W: Wires, G: Gate, R: Threads + Sync>(
    rt: &R,
    hull: &Hull<W>,
    ranks: &mut [RankMachine<W::In, W::Out>],
    workers: u32,
    burst: u32,
    gate: &G,
) -> Result<bool, NoMemory>
    requires hulls { AreHulls hull.now ranks.old }
    requires synced { AreAllSynced hull.now ranks.old }
    requires course { IsOnCourse hull.now ranks.old }
    requires workers { 1 ≤ workers }
    requires burst { 1 ≤ burst }
    ensures on { DrivesOn hull.now ranks.old ranks.new }
    ensures done { IfOk result (λ done. IsTrue done → AreDone ranks.new) }
    ensures fewer { IfOk result (λ done. done ≡ false → left_of ranks.new < left_of ranks.old) }
{
    // What the types of the hull and of the machines keep is known after a look at them.
    let _plan = hull.plan();
    look_at(ranks);
    turn(rt, ranks, workers, burst, gate)?;
    Ok(are_done(ranks))
}

/// Whether all ranks are done.
fn are_done<I: Inbox, O: Outbox>(ranks: &[RankMachine<I, O>]) -> bool
    ensures done { IsTrue result → AreDone ranks.now }
    ensures undone { result ≡ false → SomeUndone ranks.now }
{
    'looking: for i in 0..ranks.len() {
        if !ranks[i].done() {
            return false;
        }
    }
    true
}
