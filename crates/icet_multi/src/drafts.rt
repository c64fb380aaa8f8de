//! The programs of all ranks while they are made: one draft a rank, which grows operation by operation.
ghost use Rattle.std.specs.Prelude.{◌≡◌, ◌<◌, ◌^◌, ◌++◌, [], ◌∷◌, ℕ, IfOk, get_or, length, set};
ghost use Rattle.std.specs.List.{AllByRecursion};
ghost use Rattle.icet_multi.specs.Direct.{folds};
ghost use Rattle.icet_multi.specs.Reduced.{blank_ops, handing, put_behind};

use crate::direct::{push_folds, whole};
use icet_base::{NoMemory, Rank};
use icet_groups::TileRanks;
use icet_plan::{Kind, Op, Program};
use std::alloc::Global;
use std::marker::Model;

// the operations of one rank, as far as they are made
#[derive(Drop)]
pub(crate) struct Draft {
    ops: Vec<Op>,
}

impl Model for Draft {
    ghost use Rattle.std.specs.Prelude.{List};
    ghost use Rattle.icet_model.specs.declared.exchange.Op.{Op};

    ghost Value = { List Op };

    ghost view = { λ d. d.ops.items };
}

impl Draft {
    // the rank hands its image of tile t to the member of a block
    fn hand_in(&mut self, t: u32, block: &TileRanks) -> Result<(), NoMemory>
        ensures { IfOk result (λ _. self.new ≡ self.old ++ handing t block.now) }
    {
        self.ops.push(Op::Load { tile: t, slot: 0 })?;
        self.ops.push(Op::Swap {
            exchange: whole(Kind::Send, block.display(), t, block.size()),
            slot: 0,
        })?;
        Ok(())
    }

    // the member of a block gets the fold of its images into slot 0
    fn fold(&mut self, t: u32, block: &TileRanks) -> Result<(), NoMemory>
        ensures { IfOk result (λ _. self.new ≡ self.old ++ folds t block.now block.now.contributors) }
    {
        push_folds(&mut self.ops, t, block)
    }

    // the rank does what a program says
    fn append(&mut self, program: &Program) -> Result<(), NoMemory>
        ensures { IfOk result (λ _. self.new ≡ self.old ++ program.now) }
    {
        for i in 0..program.len() {
            self.ops.push(program.op(i))?;
        }
        Ok(())
    }

    // the rank keeps tile t blank
    fn keep_blank(&mut self, t: u32) -> Result<(), NoMemory>
        ensures { IfOk result (λ _. self.new ≡ self.old ++ blank_ops t) }
    {
        self.ops.push(Op::Blank { tile: t, slot: 0 })?;
        self.ops.push(Op::Keep { slot: 0 })?;
        Ok(())
    }
}

// rank `rank` hands its image of tile t to the member of a block
pub(crate) fn hand_in(
    drafts: &mut Vec<Draft>,
    t: u32,
    block: &TileRanks,
    rank: Rank,
) -> Result<(), NoMemory>
    requires { rank < length drafts.old.items }
    ensures { IfOk result (λ _. drafts.new.items ≡ put_behind rank (handing t block.now) drafts.old.items) }
{
    drafts[rank.0 as usize].hand_in(t, block)
}

// the member of a block folds its images
pub(crate) fn fold(drafts: &mut Vec<Draft>, t: u32, block: &TileRanks) -> Result<(), NoMemory>
    requires { block.now.display < length drafts.old.items }
    ensures { IfOk result (λ _. drafts.new.items ≡ put_behind block.now.display (folds t block.now block.now.contributors) drafts.old.items) }
{
    let member = block.display();
    drafts[member.0 as usize].fold(t, block)
}

// rank `rank` does what a program says
pub(crate) fn append(drafts: &mut Vec<Draft>, rank: Rank, program: &Program) -> Result<(), NoMemory>
    requires { rank < length drafts.old.items }
    ensures { IfOk result (λ _. drafts.new.items ≡ put_behind rank program.now drafts.old.items) }
{
    drafts[rank.0 as usize].append(program)
}

// rank `rank` keeps tile t blank
pub(crate) fn keep_blank(drafts: &mut Vec<Draft>, t: u32, rank: Rank) -> Result<(), NoMemory>
    requires { rank < length drafts.old.items }
    ensures { IfOk result (λ _. drafts.new.items ≡ put_behind rank (blank_ops t) drafts.old.items) }
{
    drafts[rank.0 as usize].keep_blank(t)
}

// so many ranks without an operation
pub(crate) fn empty(alloc: Global, ranks: u32) -> Result<Vec<Draft>, NoMemory>
    ensures many { IfOk result (λ all. length all.items ≡ ranks) }
    ensures none { IfOk result (λ all. (r : ℕ) → get_or all.items r [] ≡ []) }
{
    let mut all = Vec::new(alloc);
    for _i in 0..ranks {
        all.push(Draft {
            ops: Vec::new(alloc),
        })?;
    }
    Ok(all)
}

// the programs of these drafts
pub(crate) fn finish(alloc: Global, drafts: Vec<Draft>) -> Result<Vec<Program>, NoMemory>
    requires short { AllByRecursion (λ ops. length ops < 2 ^ 32) drafts.items }
    ensures { IfOk result (λ all. all.items ≡ drafts.items) }
{
    let mut all = Vec::new(alloc);
    for draft in drafts {
        all.push(Program::of(draft.ops))?;
    }
    Ok(all)
}
