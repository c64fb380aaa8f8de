//! The programs of a leg, participant by participant.
ghost use Rattle.std.specs.Prelude.{◌≡◌, ◌≤◌, ◌<◌, ◌^◌, ◌+◌, ◌-◌, ◌*◌, ◌++◌, [], Some, None, IfOk, IfSome, get_or, length, map};
ghost use Rattle.std.specs.List.{range_with_len};
ghost use Rattle.icet_plan.specs.Each.{each};
ghost use Rattle.icet_legs.specs.Merge.{merge_ops};
ghost use Rattle.icet_legs.specs.Task.{task_team};
ghost use Rattle.icet_legs.specs.Team.{by_pos};
ghost use Rattle.icet_bswap.specs.Bswap.{folding, half, half_swap, leg_ops, partner, range, seat, swap_ops, swapper, swappers};
ghost use Rattle.icet_bswap.specs.Split.{AreFinals, IsSplit, final_range, folding_ops, round_ops, rounds_ops, swapping_ops, swap_programs};

use crate::halves::{half, middle, other_side, partner_of, range_before, side_of};
use crate::split::Split;
use icet_base::NoMemory;
use icet_legs::collect::push_collection;
use icet_legs::{Range, Task};
use icet_plan::{Exchange, Kind, Op, Program};
use std::alloc::Global;

// the folding: the second of each of the first couples sends all to the first
fn push_folding(ops: &mut Vec<Op>, task: &Task, split: Split, p: u32) -> Result<(), NoMemory>
    requires split { IsSplit task.now split }
    requires place { p < length task.now.participants }
    ensures { IfOk result (λ _. ops.new.items ≡ ops.old.items ++ folding_ops task.now split p) }
{
    if p >= 2 * split.e {
        return Ok(());
    }
    let whole = Range {
        lo: 0,
        hi: task.pixels(),
    };
    if p % 2 == 0 {
        ops.push(Op::Swap {
            exchange: task.exchange(Kind::Take, 0, p + 1, whole),
            slot: 1,
        })?;
        ops.push(Op::Join {
            front: 0,
            back: 1,
            into: 0,
        })?;
        return Ok(());
    }
    ops.push(Op::Swap {
        exchange: task.exchange(Kind::Send, 0, p - 1, whole),
        slot: 0,
    })?;
    Ok(())
}

// the position of the swapper with which s exchanges in round i, with w = 2^i
#[tactic(auto, using(crate::proofs::ProgramSteps::width_low, crate::proofs::ProgramSteps::swapper_count, crate::proofs::ProgramSteps::seat_within, crate::proofs::ProgramSteps::partner_low))]
fn peer_of(task: &Task, split: Split, s: u32, i: u32, w: u32) -> u32
    requires split { IsSplit task.now split }
    requires swapper { s < 2 ^ split.m }
    requires round { i < split.m }
    requires wide { w ≡ 2 ^ i }
    ensures peer { result ≡ seat split.e (partner i s) }
    ensures within { result < length task.now.participants }
{
    split.seat_of(partner_of(s, i, w))
}

// the exchange with the partner of one half of what s has
#[tactic(auto, using(crate::proofs::ProgramSteps::round_count))]
fn half_exchange(
    task: &Task,
    split: Split,
    kind: Kind,
    s: u32,
    i: u32,
    w: u32,
    own: Range,
    side: u32,
) -> Exchange
    requires split { IsSplit task.now split }
    requires swapper { s < 2 ^ split.m }
    requires round { i < split.m }
    requires wide { w ≡ 2 ^ i }
    requires own { (own.lo, own.hi) ≡ range task.now.pixels i s }
    requires order { own.lo ≤ own.hi }
    requires side { side < 2 }
    ensures { result ≡ half_swap (swappers (task_team task.now) split.e) i kind s side }
{
    task.exchange(kind, i + 1, peer_of(task, split, s, i, w), half(own, side))
}

// one round of swapper s, with w = 2^i: cut in two, send one half to the partner, take the other one from it, join
fn push_round(
    ops: &mut Vec<Op>,
    task: &Task,
    split: Split,
    s: u32,
    i: u32,
    w: u32,
    own: Range,
) -> Result<(), NoMemory>
    requires split { IsSplit task.now split }
    requires swapper { s < 2 ^ split.m }
    requires round { i < split.m }
    requires wide { w ≡ 2 ^ i }
    requires own { (own.lo, own.hi) ≡ range task.now.pixels i s }
    requires order { own.lo ≤ own.hi }
    ensures { IfOk result (λ _. ops.new.items ≡ ops.old.items ++ round_ops task.now split i s) }
{
    let side = side_of(s, i, w);
    let other = other_side(side);
    ops.push(Op::Cut {
        slot: 0,
        at: middle(own),
        into: 1,
    })?;
    ops.push(Op::Swap {
        exchange: half_exchange(task, split, Kind::Send, s, i, w, own, other),
        slot: other,
    })?;
    ops.push(Op::Swap {
        exchange: half_exchange(task, split, Kind::Take, s, i, w, own, side),
        slot: other,
    })?;
    ops.push(Op::Join {
        front: 0,
        back: 1,
        into: 0,
    })?;
    Ok(())
}

// all rounds of swapper s
#[tactic(auto, using(crate::proofs::ProgramSteps::each_more, crate::proofs::ProgramSteps::range_more, crate::proofs::ProgramSteps::width_more, crate::proofs::ProgramSteps::width_low))]
fn push_swaps(ops: &mut Vec<Op>, task: &Task, split: Split, s: u32) -> Result<(), NoMemory>
    requires split { IsSplit task.now split }
    requires swapper { s < 2 ^ split.m }
    ensures { IfOk result (λ _. ops.new.items ≡ ops.old.items ++ rounds_ops task.now split s) }
{
    let mut own = Range {
        lo: 0,
        hi: task.pixels(),
    };
    let mut w = 1;
    for i in 0..split.m {
        push_round(ops, task, split, s, i, w, own)?;
        own = half(own, side_of(s, i, w));
        w *= 2;
    }
    Ok(())
}

// the rounds of the swapper at position p, if one sits there
#[tactic(auto, using(crate::proofs::ProgramSteps::swapper_low, crate::proofs::ProgramSteps::fold_low))]
fn push_swapping(ops: &mut Vec<Op>, task: &Task, split: Split, p: u32) -> Result<(), NoMemory>
    requires split { IsSplit task.now split }
    requires place { p < length task.now.participants }
    ensures { IfOk result (λ _. ops.new.items ≡ ops.old.items ++ swapping_ops task.now split p) }
{
    if let Some(s) = split.swapper_at(p) {
        push_swaps(ops, task, split, s)?;
    }
    Ok(())
}

// the range of the final piece at position p, if a swapper sits there
#[tactic(auto, using(crate::proofs::ProgramSteps::swapper_count, crate::proofs::ProgramSteps::fold_low))]
fn final_of(task: &Task, split: Split, p: u32) -> Option<Range>
    requires split { IsSplit task.now split }
    ensures { result ≡ final_range task.now.pixels split p }
{
    let s = split.swapper_at(p)?;
    Some(range_before(task.pixels(), split.m, s))
}

// the ranges of the final pieces, by position
#[tactic(auto, using(crate::proofs::ProgramSteps::final_more))]
fn finals_of(alloc: Global, task: &Task, split: Split) -> Result<Vec<Option<Range>>, NoMemory>
    requires { IsSplit task.now split }
    ensures { IfOk result (λ all. AreFinals (length task.now.participants) task.now.pixels split all.items) }
{
    let mut all = Vec::new(alloc);
    for p in 0..task.count() {
        all.push(final_of(task, split, p))?;
    }
    Ok(all)
}

// the operations of the participant at position p
#[tactic(auto, using(crate::proofs::ProgramSteps::round_count))]
fn ops_of(
    alloc: Global,
    task: &Task,
    split: Split,
    finals: &[Option<Range>],
    p: u32,
) -> Result<Vec<Op>, NoMemory>
    requires split { IsSplit task.now split }
    requires finals { AreFinals (length task.now.participants) task.now.pixels split finals.now }
    requires place { p < length task.now.participants }
    ensures ops { IfOk result (λ ops. ops.items ≡ leg_ops (task_team task.now) split.m split.e task.now.shows p) }
    ensures short { IfOk result (λ ops. length ops.items < 2 ^ 16) }
{
    let mut ops = Vec::new(alloc);
    push_folding(&mut ops, task, split, p)?;
    push_swapping(&mut ops, task, split, p)?;
    push_collection(&mut ops, task, split.m + 1, finals, p)?;
    Ok(ops)
}

/// The programs of the participants, by position.
///
/// # Errors
///
/// `NoMemory`.
#[tactic(auto, using(crate::proofs::ProgramSteps::listed_more))]
pub(crate) fn programs(alloc: Global, task: &Task, split: Split) -> Result<Vec<Program>, NoMemory>
    requires { IsSplit task.now split }
    ensures { IfOk result (λ all. all.items ≡ swap_programs task.now split) }
{
    let finals = finals_of(alloc, task, split)?;
    let mut all = Vec::new(alloc);
    for p in 0..task.count() {
        let ops = ops_of(alloc, task, split, &finals, p)?;
        all.push(Program::of(ops))?;
    }
    Ok(all)
}
