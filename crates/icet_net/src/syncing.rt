ghost use Rattle.std.specs.Prelude.{◌≡◌, ◌≢◌, ◌<◌, ◌+◌, ℕ, OnOk, length, Some, slice_get};
ghost use Rattle.icet_net.specs.Ranks.{AreHulls, EachRank, MetOthers, AreAllSynced, IsOnCourse, machine_at};
ghost use Rattle.icet_net.specs.Syncs.{AreRunning, CanMeet, MetPair, HasMet, SyncsNext};

use crate::hull::Hull;
use icet_base::{NoMemory, Rank};
use icet_rank::{RankMachine, sync_pair};
use icet_ring::{Inbox, Outbox, Wires};

/// Lets the two ports of each pair used meet, as `Wires::sync` says; all else of the machines is as
/// before. Condition: the ranks are the hull's. After Ok the counters are a lawful state of the plan,
/// what each pair has sent is a front of its traffic, and what was taken a front of what was sent.
///
/// # Errors
///
/// `NoMemory`; the ranks are still the hull's.
pub fn sync_all<W: Wires>(
    hull: &Hull<W>,
    ranks: &mut [RankMachine<W::In, W::Out>],
    wires: &mut W,
) -> Result<(), NoMemory>
    requires hulls { AreHulls hull.now ranks.old }
    ensures hulls { AreHulls hull.now ranks.new }
    ensures same { EachRank MetOthers ranks.old ranks.new }
    ensures synced { OnOk result (AreAllSynced hull.now ranks.new) }
    ensures course { OnOk result (IsOnCourse hull.now ranks.new) }
    ensures owed { W.owed wires.new ≡ W.owed wires.old }
    ensures log { W.log wires.new ≡ W.log wires.old }
{
    'syncing: for i in 0..hull.pairs().len() {
        sync_at(hull, i, ranks, wires)?;
    }
    look_at(ranks);
    Ok(())
}

/// Lets the two ports of one pair of the hull meet.
fn sync_at<W: Wires>(
    hull: &Hull<W>,
    place: usize,
    ranks: &mut [RankMachine<W::In, W::Out>],
    wires: &mut W,
) -> Result<(), NoMemory>
    requires within { place < length hull.now.pairs }
    requires hulls { AreHulls hull.now ranks.old }
    ensures hulls { AreHulls hull.now ranks.new }
    ensures same { EachRank MetOthers ranks.old ranks.new }
    ensures synced { OnOk result (SyncsNext place hull.now ranks.old ranks.new) }
    ensures owed { W.owed wires.new ≡ W.owed wires.old }
    ensures log { W.log wires.new ≡ W.log wires.old }
{
    let (from, to) = hull.pair(place);
    sync_two(from, to, hull.cap(), ranks, wires)
}

/// Lets the ports of a pair of ranks meet. Conditions: these are two ranks, and the machines at their
/// places have their numbers, and paired ports that were opened with `cap`.
fn sync_two<W: Wires>(
    from: Rank,
    to: Rank,
    cap: u32,
    ranks: &mut [RankMachine<W::In, W::Out>],
    wires: &mut W,
) -> Result<(), NoMemory>
    requires from { from < length ranks.old }
    requires to { to < length ranks.old }
    requires apart { from ≢ to }
    requires sender { (machine_at ranks.old from).number ≡ from }
    requires receiver { (machine_at ranks.old to).number ≡ to }
    requires paired { CanMeet from to cap ranks.old }
    ensures met { MetPair from to cap ranks.old ranks.new }
    ensures synced { OnOk result (HasMet cap ranks.new from to) }
    ensures owed { W.owed wires.new ≡ W.owed wires.old }
    ensures log { W.log wires.new ≡ W.log wires.old }
{
    let sender = from.0 as usize;
    let receiver = to.0 as usize;
    if sender < receiver {
        let (front, back) = ranks.split_at_mut(receiver);
        sync_pair(wires, &mut front[sender], &mut back[0], cap)
    } else {
        let (front, back) = ranks.split_at_mut(sender);
        sync_pair(wires, &mut back[0], &mut front[receiver], cap)
    }
}

/// Looks at each machine, which keeps what its type says.
pub(crate) fn look_at<I: Inbox, O: Outbox>(ranks: &[RankMachine<I, O>])
    ensures { AreRunning ranks.now }
{
    'looking: for i in 0..ranks.len() {
        let _number = ranks[i].number();
    }
}
