//! One participant's round of groups: with stride w and factor k it cuts what it has into k parts, sends
//! each but its own to the member of the part's digit, takes its own from each, and folds them.
ghost use Rattle.std.specs.Prelude.{◌≡◌, ◌≤◌, ◌<◌, ◌^◌, ◌+◌, ◌-◌, ◌++◌, suc, IfOk, length};
ghost use Rattle.icet_plan.specs.Each.{each};
ghost use Rattle.icet_legs.specs.Group.{cut_at, digit, group_cuts, group_joins, group_ops, group_sends, group_takes, member};
ghost use Rattle.icet_legs.specs.Task.{task_team};
ghost use Rattle.icet_radixk.specs.Round.{IsRound, round_group, round_cuts, round_ops, round_send, round_sends, round_take, round_takes};
ghost use Rattle.icet_model.specs.declared.limits.TheConstants.{MAX_RANKS};

use icet_base::NoMemory;
use icet_legs::{Range, Task};
use icet_plan::{Kind, Op};

/// A round of the participant at position `p`: its number, counted from the first, its stride and factor,
/// and the positions that the participant has before it.
#[derive(Clone, Copy)]
pub(crate) struct Round {
    pub(crate) p: u32,
    pub(crate) number: u32,
    pub(crate) stride: u32,
    pub(crate) factor: u32,
    pub(crate) own: Range,
}

// where the part h of a range begins, of k parts
#[tactic(auto, using(crate::proofs::RoundSteps::cut_within))]
pub(crate) fn cut_at(range: Range, k: u32, h: u32) -> u32
    requires order { range.lo ≤ range.hi }
    requires many { 0 < k }
    requires part { h ≤ k }
    ensures cut { result ≡ cut_at range.lo range.hi k h }
    ensures within { result ≤ range.hi }
{
    let length = u64::from(range.hi - range.lo);
    range.lo + (length * u64::from(h) / u64::from(k)) as u32
}

// the part h of a range
#[tactic(auto, using(icet_legs::proofs::Digits::cut_grows))]
pub(crate) fn part(range: Range, k: u32, h: u32) -> Range
    requires order { range.lo ≤ range.hi }
    requires part { h < k }
    requires low { k ≤ MAX_RANKS }
    ensures lo { result.lo ≡ cut_at range.lo range.hi k h }
    ensures hi { result.hi ≡ cut_at range.lo range.hi k (suc h) }
    ensures order { result.lo ≤ result.hi }
{
    Range {
        lo: cut_at(range, k, h),
        hi: cut_at(range, k, h + 1),
    }
}

impl Round {
    // the own digit
    pub(crate) fn digit(self) -> u32
        requires wide { 0 < self.stride }
        requires many { 0 < self.factor }
        ensures digit { result ≡ digit self.stride self.factor self.p }
        ensures low { result < self.factor }
    {
        self.p / self.stride % self.factor
    }

    // the position of the group's member with another digit
    fn member(self, task: &Task, h: u32) -> u32
        requires round { IsRound task.now self }
        requires digit { h < self.factor }
        ensures member { result ≡ member self.stride self.factor self.p h }
        ensures within { result < length task.now.participants }
    {
        (self.p / self.stride / self.factor * self.factor + h) * self.stride + self.p % self.stride
    }

    // slot h gets part h, from behind
    fn push_cuts(self, ops: &mut Vec<Op>, task: &Task) -> Result<(), NoMemory>
        requires { IsRound task.now self }
        ensures { IfOk result (λ _. ops.new.items ≡ ops.old.items ++ round_cuts task.now self) }
    {
        for b in 0..self.factor - 1 {
            let part = self.factor - 1 - b;
            ops.push(Op::Cut {
                slot: 0,
                at: cut_at(self.own, self.factor, part),
                into: part,
            })?;
        }
        Ok(())
    }

    // each part but the own goes to the member of its digit
    fn push_sends(self, ops: &mut Vec<Op>, task: &Task) -> Result<(), NoMemory>
        requires { IsRound task.now self }
        ensures { IfOk result (λ _. ops.new.items ≡ ops.old.items ++ round_sends task.now self) }
    {
        for h in 0..self.factor {
            self.push_send(ops, task, h)?;
        }
        Ok(())
    }

    fn push_send(self, ops: &mut Vec<Op>, task: &Task, h: u32) -> Result<(), NoMemory>
        requires round { IsRound task.now self }
        requires digit { h < self.factor }
        ensures { IfOk result (λ _. ops.new.items ≡ ops.old.items ++ round_send task.now self h) }
    {
        if h == self.digit() {
            return Ok(());
        }
        let part = part(self.own, self.factor, h);
        ops.push(Op::Swap {
            exchange: task.exchange(Kind::Send, self.number, self.member(task, h), part),
            slot: h,
        })?;
        Ok(())
    }

    // the own part comes from each other member
    fn push_takes(self, ops: &mut Vec<Op>, task: &Task) -> Result<(), NoMemory>
        requires { IsRound task.now self }
        ensures { IfOk result (λ _. ops.new.items ≡ ops.old.items ++ round_takes task.now self) }
    {
        for h in 0..self.factor {
            self.push_take(ops, task, h)?;
        }
        Ok(())
    }

    fn push_take(self, ops: &mut Vec<Op>, task: &Task, h: u32) -> Result<(), NoMemory>
        requires round { IsRound task.now self }
        requires digit { h < self.factor }
        ensures { IfOk result (λ _. ops.new.items ≡ ops.old.items ++ round_take task.now self h) }
    {
        let digit = self.digit();
        if h == digit {
            return Ok(());
        }
        let part = part(self.own, self.factor, digit);
        ops.push(Op::Swap {
            exchange: task.exchange(Kind::Take, self.number, self.member(task, h), part),
            slot: h,
        })?;
        Ok(())
    }

    // the parts are folded from the left, in the order of the digits
    fn push_joins(self, ops: &mut Vec<Op>) -> Result<(), NoMemory>
        requires { 0 < self.factor }
        ensures { IfOk result (λ _. ops.new.items ≡ ops.old.items ++ each group_joins (self.factor - 1)) }
    {
        for b in 0..self.factor - 1 {
            ops.push(Op::Join {
                front: 0,
                back: b + 1,
                into: 0,
            })?;
        }
        Ok(())
    }

    // the whole round
    pub(crate) fn push(self, ops: &mut Vec<Op>, task: &Task) -> Result<(), NoMemory>
        requires { IsRound task.now self }
        ensures { IfOk result (λ _. ops.new.items ≡ ops.old.items ++ round_ops task.now self) }
    {
        self.push_cuts(ops, task)?;
        self.push_sends(ops, task)?;
        self.push_takes(ops, task)?;
        self.push_joins(ops)?;
        Ok(())
    }
}
