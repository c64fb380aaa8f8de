ghost use Rattle.std.specs.Prelude.{◌≡◌, ◌≢◌, ◌<◌, ◌≤◌, ◌+◌, ◌++◌, ℕ, List, IfOk, OnOk, OnErr, length, [], replicate};
ghost use Rattle.icet_net.specs.Net.{messages_on, pair_if, pairs_on, pairs_of};
ghost use Rattle.icet_net.specs.Opening.{AreNewPorts, HaveInboxes, HaveOutboxes, AreOpenedPairs, AreOpenedFrom, KeepsPortsBut, AllKeepBut, Reach, OpensPair};

use crate::counting::counts_from;
use icet_base::{NoMemory, Rank};
use icet_plan::Plan;
use icet_rank::{Inboxes, Outboxes};
use icet_ring::{Inbox, Wires};
use std::alloc::Global;

/// The ports of all ranks, and the pairs of ranks that they are for.
#[derive(Drop)]
pub(crate) struct Ports<W: Wires> {
    pub pairs: Vec<(Rank, Rank)>,
    /// By receiver, and each list ascending by sender.
    pub inboxes: Vec<Inboxes<W::In>>,
    /// By sender, and each list ascending by receiver.
    pub outboxes: Vec<Outboxes<W::Out>>,
}

/// Opens the pairs that the plan uses.
pub(crate) fn open_ports<W: Wires>(
    alloc: Global,
    plan: &Plan,
    wires: &mut W,
    cap: u32,
) -> Result<Ports<W>, NoMemory>
    requires { 0 < cap }
    ensures pairs { IfOk result (λ p. p.pairs.items ≡ pairs_of plan.now) }
    ensures in_count { IfOk result (λ p. length p.inboxes.items ≡ length plan.now.programs) }
    ensures out_count { IfOk result (λ p. length p.outboxes.items ≡ length plan.now.programs) }
    ensures inboxes { IfOk result (λ p. HaveInboxes plan.now (length plan.now.programs) p.inboxes.items) }
    ensures outboxes { IfOk result (λ p. HaveOutboxes plan.now p.outboxes.items) }
    ensures paired { IfOk result (λ p. AreOpenedPairs plan.now cap p.outboxes.items p.inboxes.items) }
    ensures log { W.log wires.new ≡ W.log wires.old }
    ensures owed { OnOk result (W.owed wires.new ≡ W.owed wires.old + length (pairs_of plan.now)) }
    ensures owed_kept { OnErr result (W.owed wires.old ≤ W.owed wires.new) }
{
    let mut pairs = Vec::new(alloc);
    let mut inboxes = no_inboxes(alloc, plan.ranks())?;
    let mut outboxes = Vec::new(alloc);
    'opening: for from in 0..plan.ranks() {
        let outs = open_from(
            alloc,
            plan,
            Rank(from),
            wires,
            cap,
            &mut pairs,
            &mut inboxes,
        )?;
        outboxes.push(outs)?;
    }
    Ok(Ports {
        pairs,
        inboxes,
        outboxes,
    })
}

/// Opens the pairs on which one rank sends.
fn open_from<W: Wires>(
    alloc: Global,
    plan: &Plan,
    from: Rank,
    wires: &mut W,
    cap: u32,
    pairs: &mut Vec<(Rank, Rank)>,
    inboxes: &mut Vec<Inboxes<W::In>>,
) -> Result<Outboxes<W::Out>, NoMemory>
    requires cap { 0 < cap }
    requires from { from < length plan.now.programs }
    requires in_count { length inboxes.old.items ≡ length plan.now.programs }
    requires inboxes { HaveInboxes plan.now from inboxes.old.items }
    ensures pairs { OnOk result (pairs.new.items ≡ pairs.old.items ++ pairs_on plan.now from) }
    ensures in_count { OnOk result (length inboxes.new.items ≡ length plan.now.programs) }
    ensures inboxes { OnOk result (HaveInboxes plan.now (from + 1) inboxes.new.items) }
    ensures others { OnOk result (AllKeepBut from inboxes.old.items inboxes.new.items) }
    ensures outboxes { IfOk result (AreNewPorts (λ r. messages_on plan.now from r) (length plan.now.programs)) }
    ensures paired { IfOk result (λ outs. AreOpenedFrom plan.now cap from outs inboxes.new.items) }
    ensures log { W.log wires.new ≡ W.log wires.old }
    ensures owed { OnOk result (W.owed wires.new ≡ W.owed wires.old + length (pairs_on plan.now from)) }
    ensures owed_kept { OnErr result (W.owed wires.old ≤ W.owed wires.new) }
{
    let counts = counts_from(alloc, plan, from)?;
    let mut outs = Outboxes::new(alloc);
    'reaching: for to in 0..plan.ranks() {
        open_one(
            alloc,
            from,
            Rank(to),
            counts[to as usize],
            wires,
            cap,
            pairs,
            &mut outs,
            &mut inboxes[to as usize],
        )?;
    }
    Ok(outs)
}

/// Opens one pair, if it carries messages.
fn open_one<W: Wires>(
    alloc: Global,
    from: Rank,
    to: Rank,
    total: u32,
    wires: &mut W,
    cap: u32,
    pairs: &mut Vec<(Rank, Rank)>,
    outs: &mut Outboxes<W::Out>,
    ins: &mut Inboxes<W::In>,
) -> Result<(), NoMemory>
    requires { 0 < cap }
    ensures pairs { OnOk result (pairs.new.items ≡ pairs.old.items ++ pair_if from to total) }
    ensures outs { OnOk result (Reach to total outs.old outs.new) }
    ensures ins { OnOk result (Reach from total ins.old ins.new) }
    ensures out_others { OnOk result (KeepsPortsBut to outs.old outs.new) }
    ensures in_others { OnOk result (KeepsPortsBut from ins.old ins.new) }
    ensures paired { OnOk result (OpensPair cap from to total outs.old ins.old outs.new ins.new) }
    ensures log { W.log wires.new ≡ W.log wires.old }
    ensures owed { OnOk result (W.owed wires.new ≡ W.owed wires.old + length (pair_if from to total)) }
    ensures owed_kept { OnErr result (W.owed wires.old ≤ W.owed wires.new) }
{
    if total == 0 {
        return Ok(());
    }
    let (out, inbox) = wires.open_pair(alloc, from, to, cap, total)?;
    outs.push(to, out)?;
    ins.push(from, inbox)?;
    pairs.push((from, to))?;
    Ok(())
}

/// So many lists without an inbox.
fn no_inboxes<I: Inbox>(alloc: Global, count: u32) -> Result<Vec<Inboxes<I>>, NoMemory>
    ensures { IfOk result (λ lists. lists.items ≡ replicate count []) }
{
    let mut lists = Vec::with_capacity(alloc, count as usize)?;
    'making: for _ in 0..count {
        lists.push(Inboxes::new(alloc))?;
    }
    Ok(lists)
}
