ghost use Rattle.std.specs.Prelude.{◌≡◌, ◌≢◌, ◌+◌, ◌≤◌, ◌<◌, ◌^◌, ◌++◌, ◌==◌, cond, Some, None, AllPairs, IfOk, IsTrue, length, map};
ghost use Rattle.std.specs.List.{range_with_len};
ghost use Rattle.icet_plan.specs.Each.{each};
ghost use Rattle.icet_legs.specs.Leg.{IsExchangePlan, IsPlanFor};
ghost use Rattle.icet_legs.specs.Powers.{ceil_log2};
ghost use Rattle.icet_legs.specs.Task.{IsTask, StandsIn, task_team};
ghost use Rattle.icet_legs.specs.Team.{team_of};
ghost use Rattle.icet_tree.specs.Ranges.{AreTreeRanges};
ghost use Rattle.icet_tree.specs.Tree.{gives, takes, tree_ops, tree_program, tree_strategy, tree_programs, tree_rounds};
ghost use Rattle.icet_model.specs.declared.limits.TheConstants.{MAX_RANKS};

use icet_base::{NoMemory, Rank};
use icet_legs::brackets::{copies, tree};
use icet_legs::collect::push_collection;
use icet_legs::powers::{ceil_log2, power};
use icet_legs::{Range, Task};
use icet_plan::{Bracket, Kind, Leg, Op, Program};
use std::alloc::Global;

/// The leg of a tile by the tree: one program per participant, by position, the bracket over the leaves,
/// and how many rounds it takes. Each participant begins with its whole leaf in slot 0. The participants
/// are different, one to 256, with a leaf for each, and the display is one of them.
///
/// # Errors
///
/// `NoMemory`.
#[tactic(auto, using(crate::proofs::TreePrograms::levels_low, crate::proofs::TreePrograms::leg_made))]
pub fn exchange_plan(
    alloc: Global,
    participants: &[Rank],
    leaves: &[Bracket],
    tile: u32,
    pixels: u32,
    display: Rank,
    first_round: u32,
) -> Result<Leg, NoMemory>
    requires distinct { AllPairs (λ a b. a ≢ b) participants.now }
    requires low { length participants.now ≤ MAX_RANKS }
    requires leaves { length leaves.now ≡ length participants.now }
    requires display { StandsIn participants.now display }
    requires small { pixels < 2 ^ 31 }
    requires early { first_round < 2 ^ 31 }
    ensures { IfOk result (IsPlanFor tree_strategy participants.now leaves.now tile pixels first_round display) }
{
    let task = Task::of(participants, tile, pixels, display, first_round);
    let levels = ceil_log2(task.count());
    let programs = programs_of(alloc, &task, levels)?;
    let bracket = tree(alloc, copies(alloc, leaves)?)?;
    Ok(Leg {
        programs,
        bracket,
        rounds: levels + 1,
    })
}

// the programs of all participants, by position
#[tactic(auto, using(crate::proofs::TreePrograms::listed_more))]
fn programs_of(alloc: Global, task: &Task, levels: u32) -> Result<Vec<Program>, NoMemory>
    requires { levels ≤ 8 }
    ensures { IfOk result (λ all. all.items ≡ tree_programs task.now levels) }
{
    let finals = finals_of(alloc, task)?;
    let mut all = Vec::new(alloc);
    for p in 0..task.count() {
        let ops = ops_of(alloc, task, levels, &finals, p)?;
        all.push(Program::of(ops))?;
    }
    Ok(all)
}

// the ranges of the final pieces, by position
#[tactic(auto, using(crate::proofs::TreePrograms::range_more))]
fn finals_of(alloc: Global, task: &Task) -> Result<Vec<Option<Range>>, NoMemory>
    ensures { IfOk result (λ all. AreTreeRanges (length task.now.participants) task.now.pixels all.items) }
{
    let mut all = Vec::new(alloc);
    for p in 0..task.count() {
        all.push(final_of(task, p))?;
    }
    Ok(all)
}

// all pixels at position 0
fn final_of(task: &Task, p: u32) -> Option<Range>
    ensures { result ≡ cond (p == 0) (Some (record { lo = 0; hi = task.now.pixels })) None }
{
    if p == 0 { Some(whole(task)) } else { None }
}

fn whole(task: &Task) -> Range
    ensures { result ≡ record { lo = 0; hi = task.now.pixels } }
{
    Range {
        lo: 0,
        hi: task.pixels(),
    }
}

// the operations of the participant at position p
#[tactic(auto, using(crate::proofs::TreePrograms::finals_are, crate::proofs::TreePrograms::program_length))]
fn ops_of(
    alloc: Global,
    task: &Task,
    levels: u32,
    finals: &[Option<Range>],
    p: u32,
) -> Result<Vec<Op>, NoMemory>
    requires task { IsTask task.now }
    requires levels { levels ≤ 8 }
    requires finals { AreTreeRanges (length task.now.participants) task.now.pixels finals.now }
    requires place { p < length task.now.participants }
    ensures ops { IfOk result (λ ops. ops.items ≡ tree_program (task_team task.now) levels task.now.shows p) }
    ensures short { IfOk result (λ ops. length ops.items < 2 ^ 16) }
{
    let mut ops = Vec::new(alloc);
    push_rounds(&mut ops, task, levels, p)?;
    push_collection(&mut ops, task, levels, finals, p)?;
    Ok(ops)
}

// the rounds before the collection
#[tactic(auto, using(crate::proofs::TreePrograms::each_more))]
fn push_rounds(ops: &mut Vec<Op>, task: &Task, levels: u32, p: u32) -> Result<(), NoMemory>
    requires levels { levels ≤ 8 }
    requires place { p < length task.now.participants }
    ensures { IfOk result (λ _. ops.new.items ≡ ops.old.items ++ tree_rounds task.now levels p) }
{
    for i in 0..levels {
        push_round(ops, task, i, p)?;
    }
    Ok(())
}

// in round i, with w = 2^i: the participant that gives sends all to the one at w before it, which joins it
// behind its own
fn push_round(ops: &mut Vec<Op>, task: &Task, i: u32, p: u32) -> Result<(), NoMemory>
    requires round { i < 8 }
    requires place { p < length task.now.participants }
    ensures { IfOk result (λ _. ops.new.items ≡ ops.old.items ++ tree_ops (task_team task.now) i p) }
{
    let w = power(i);
    if gives(task, w, p) {
        ops.push(Op::Swap {
            exchange: task.exchange(Kind::Send, i, p - w, whole(task)),
            slot: 0,
        })?;
    } else if takes(task, w, p) {
        ops.push(Op::Swap {
            exchange: task.exchange(Kind::Take, i, p + w, whole(task)),
            slot: 1,
        })?;
        ops.push(Op::Join {
            front: 0,
            back: 1,
            into: 0,
        })?;
    }
    Ok(())
}

// whether the participant at position p takes from the one at w behind it
fn takes(task: &Task, w: u32, p: u32) -> bool
    requires wide { 0 < w }
    requires low { w ≤ MAX_RANKS }
    requires place { p < length task.now.participants }
    ensures takes { result ≡ takes (length task.now.participants) w p }
    ensures within { IsTrue result → p + w < length task.now.participants }
    ensures low { IsTrue result → p + w < 2 ^ 16 }
{
    let count = task.count();
    p % (2 * w) == 0 && p + w < count
}

// whether the participant at position p gives to the one at w before it
fn gives(task: &Task, w: u32, p: u32) -> bool
    requires wide { 0 < w }
    requires low { w ≤ MAX_RANKS }
    requires place { p < length task.now.participants }
    ensures gives { result ≡ gives (length task.now.participants) w p }
    ensures behind { IsTrue result → w ≤ p }
{
    p >= w && takes(task, w, p - w)
}
