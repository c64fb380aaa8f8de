//! The collection: each participant that holds a final piece sends it to the tile's display.
ghost use Rattle.std.specs.Prelude.{◌≡◌, ◌+◌, ◌<◌, ◌^◌, ◌++◌, None, Some, IfOk, ℕ, get_or, length};
ghost use Rattle.icet_plan.specs.Each.{each};
ghost use Rattle.icet_legs.specs.Collect.{display_ops, fetch_ops, final_ops, final_over, own_of};
ghost use Rattle.icet_legs.specs.Task.{task_team};
ghost use Rattle.icet_legs.specs.Pushed.{collection_of, display_part, fetch_of, fetches_of};

use crate::{Range, Task};
use icet_base::NoMemory;
use icet_plan::{Kind, Op};

/// Appends what the participant at position `p` does in the collection, so many rounds behind the
/// first: it sends its final piece, which is in slot 0, to the display, or, where it is the display, keeps
/// its own and takes and keeps those of all others. `finals` has the ranges of the final pieces, by position.
///
/// # Errors
///
/// `NoMemory`; an unknown number of operations was appended.
pub fn push_collection(
    ops: &mut Vec<Op>,
    task: &Task,
    round: u32,
    finals: &[Option<Range>],
    p: u32,
) -> Result<(), NoMemory>
    requires round { round < 2 ^ 16 }
    requires finals { length finals.now ≡ length task.now.participants }
    requires place { p < length task.now.participants }
    ensures { IfOk result (λ _. ops.new.items ≡ ops.old.items ++ collection_of task.now round finals.now p) }
{
    if p == task.shows() {
        return push_display(ops, task, round, finals);
    }
    if let Some(range) = finals[p as usize] {
        ops.push(Op::Swap {
            exchange: task.exchange(Kind::Send, round, task.shows(), range),
            slot: 0,
        })?;
    }
    Ok(())
}

// what the display does
fn push_display(
    ops: &mut Vec<Op>,
    task: &Task,
    round: u32,
    finals: &[Option<Range>],
) -> Result<(), NoMemory>
    requires round { round < 2 ^ 16 }
    requires finals { length finals.now ≡ length task.now.participants }
    ensures { IfOk result (λ _. ops.new.items ≡ ops.old.items ++ display_part task.now round finals.now) }
{
    push_own(ops, task, finals)?;
    push_fetches(ops, task, round, finals)
}

// the display keeps its own final piece, if it has one
fn push_own(ops: &mut Vec<Op>, task: &Task, finals: &[Option<Range>]) -> Result<(), NoMemory>
    requires { length finals.now ≡ length task.now.participants }
    ensures { IfOk result (λ _. ops.new.items ≡ ops.old.items ++ own_of (get_or finals.now task.now.shows None)) }
{
    if finals[task.shows() as usize].is_some() {
        ops.push(Op::Keep { slot: 0 })?;
    }
    Ok(())
}

// the display takes and keeps the final pieces of all others
#[tactic(auto, using(crate::proofs::EachMore::each_more))]
fn push_fetches(
    ops: &mut Vec<Op>,
    task: &Task,
    round: u32,
    finals: &[Option<Range>],
) -> Result<(), NoMemory>
    requires round { round < 2 ^ 16 }
    requires finals { length finals.now ≡ length task.now.participants }
    ensures { IfOk result (λ _. ops.new.items ≡ ops.old.items ++ fetches_of task.now round finals.now) }
{
    for b in 0..task.count() {
        push_fetch(ops, task, round, finals, b)?;
    }
    Ok(())
}

// the display takes and keeps the final piece of the participant at position b, if that hands one in
fn push_fetch(
    ops: &mut Vec<Op>,
    task: &Task,
    round: u32,
    finals: &[Option<Range>],
    b: u32,
) -> Result<(), NoMemory>
    requires round { round < 2 ^ 16 }
    requires finals { length finals.now ≡ length task.now.participants }
    requires place { b < length task.now.participants }
    ensures { IfOk result (λ _. ops.new.items ≡ ops.old.items ++ fetch_of task.now round finals.now b) }
{
    if b == task.shows() {
        return Ok(());
    }
    if let Some(range) = finals[b as usize] {
        ops.push(Op::Swap {
            exchange: task.exchange(Kind::Take, round, b, range),
            slot: 1,
        })?;
        ops.push(Op::Keep { slot: 1 })?;
    }
    Ok(())
}
