//! The programs of a leg, participant by participant.
ghost use Rattle.std.specs.Prelude.{◌≡◌, ◌≤◌, ◌<◌, ◌^◌, ◌*◌, ◌++◌, ℕ, Some, None, IfOk, get_or, length, map, suc};
ghost use Rattle.std.specs.List.{range_with_len};
ghost use Rattle.icet_plan.specs.Each.{each};
ghost use Rattle.icet_legs.specs.Group.{group_ops};
ghost use Rattle.icet_legs.specs.Radix.{group_at, range_of, stride as stride_of};
ghost use Rattle.icet_legs.specs.Task.{task_team};
ghost use Rattle.icet_radixk.specs.Factors.{factor_at};
ghost use Rattle.icet_radixk.specs.Radixk.{radix_program};
ghost use Rattle.icet_radixk.specs.Round.{AreFinals, IsRoundOf, IsSplitBy, program_by, programs_by, rounds_by};

use crate::round::{Round, part};
use icet_base::NoMemory;
use icet_legs::collect::push_collection;
use icet_legs::{Range, Task};
use icet_plan::{Op, Program};
use std::alloc::Global;

// round i of the participant at position p, with this stride, before which it has these positions
#[tactic(auto, using(crate::proofs::RoundSteps::round_made, crate::proofs::RoundSteps::few_rounds))]
fn round_at(task: &Task, factors: &[u32], i: usize, p: u32, stride: u32, own: Range) -> Round
    requires split { IsSplitBy task.now factors.now }
    requires round { i < length factors.now }
    requires place { p < length task.now.participants }
    requires stride { stride ≡ stride_of (factor_at factors.now) i }
    requires own { (own.lo, own.hi) ≡ range_of (factor_at factors.now) task.now.pixels i p }
    requires order { own.lo ≤ own.hi }
    ensures { IsRoundOf task.now factors.now i p result }
{
    Round {
        p,
        number: i as u32,
        stride,
        factor: factors[i],
        own,
    }
}

// what the participant has behind its round
#[tactic(auto, using(crate::proofs::RoundSteps::range_behind))]
fn own_behind(task: &Task, factors: &[u32], i: usize, p: u32, round: Round) -> Range
    requires { IsRoundOf task.now factors.now i p round }
    ensures range { (result.lo, result.hi) ≡ range_of (factor_at factors.now) task.now.pixels (suc i) p }
    ensures order { result.lo ≤ result.hi }
{
    part(round.own, round.factor, round.digit())
}

// the stride behind a round
#[tactic(auto, using(crate::proofs::RoundSteps::stride_behind, crate::proofs::RoundSteps::stride_low))]
fn stride_behind(task: &Task, factors: &[u32], i: usize, p: u32, round: Round) -> u32
    requires split { IsSplitBy task.now factors.now }
    requires round { IsRoundOf task.now factors.now i p round }
    requires within { i < length factors.now }
    ensures { result ≡ stride_of (factor_at factors.now) (suc i) }
{
    round.factor * round.stride
}

// all rounds of the participant at position p
fn push_rounds(ops: &mut Vec<Op>, task: &Task, factors: &[u32], p: u32) -> Result<(), NoMemory>
    requires split { IsSplitBy task.now factors.now }
    requires place { p < length task.now.participants }
    ensures { IfOk result (λ _. ops.new.items ≡ ops.old.items ++ rounds_by task.now factors.now p) }
{
    let mut own = Range {
        lo: 0,
        hi: task.pixels(),
    };
    let mut stride = 1;
    for i in 0..factors.len() {
        let round = round_at(task, factors, i, p, stride, own);
        round.push(ops, task)?;
        own = own_behind(task, factors, i, p, round);
        stride = stride_behind(task, factors, i, p, round);
    }
    Ok(())
}

// what the participant at position p has behind all rounds
fn final_of(task: &Task, factors: &[u32], p: u32) -> Range
    requires split { IsSplitBy task.now factors.now }
    requires place { p < length task.now.participants }
    ensures { (result.lo, result.hi) ≡ range_of (factor_at factors.now) task.now.pixels (length factors.now) p }
{
    let mut own = Range {
        lo: 0,
        hi: task.pixels(),
    };
    let mut stride = 1;
    for i in 0..factors.len() {
        let round = round_at(task, factors, i, p, stride, own);
        own = own_behind(task, factors, i, p, round);
        stride = stride_behind(task, factors, i, p, round);
    }
    own
}

// the ranges of the final pieces, by position
#[tactic(auto, using(crate::proofs::RoundSteps::final_more))]
fn finals_of(alloc: Global, task: &Task, factors: &[u32]) -> Result<Vec<Option<Range>>, NoMemory>
    requires { IsSplitBy task.now factors.now }
    ensures { IfOk result (λ f. AreFinals (length task.now.participants) task.now.pixels factors.now f.items) }
{
    let mut all = Vec::new(alloc);
    for p in 0..task.count() {
        all.push(Some(final_of(task, factors, p)))?;
    }
    Ok(all)
}

// the operations of the participant at position p
#[tactic(auto, using(crate::proofs::RoundSteps::few_rounds))]
fn ops_of(
    alloc: Global,
    task: &Task,
    factors: &[u32],
    finals: &[Option<Range>],
    p: u32,
) -> Result<Vec<Op>, NoMemory>
    requires split { IsSplitBy task.now factors.now }
    requires finals { AreFinals (length task.now.participants) task.now.pixels factors.now finals.now }
    requires place { p < length task.now.participants }
    ensures ops { IfOk result (λ ops. ops.items ≡ program_by task.now factors.now p) }
    ensures short { IfOk result (λ ops. length ops.items < 2 ^ 20) }
{
    let mut ops = Vec::new(alloc);
    push_rounds(&mut ops, task, factors, p)?;
    push_collection(&mut ops, task, factors.len() as u32, finals, p)?;
    Ok(ops)
}

// the programs of the participants, by position
#[tactic(auto, using(crate::proofs::RoundSteps::listed_more))]
pub(crate) fn programs(
    alloc: Global,
    task: &Task,
    factors: &[u32],
) -> Result<Vec<Program>, NoMemory>
    requires { IsSplitBy task.now factors.now }
    ensures { IfOk result (λ all. all.items ≡ programs_by task.now factors.now) }
{
    let finals = finals_of(alloc, task, factors)?;
    let mut all = Vec::new(alloc);
    for p in 0..task.count() {
        let ops = ops_of(alloc, task, factors, &finals, p)?;
        all.push(Program::of(ops))?;
    }
    Ok(all)
}
