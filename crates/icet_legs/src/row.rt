//! Legs in a row: the tiles of a plan go one behind the other.
ghost use Rattle.std.specs.Prelude.{◌≡◌, ◌<◌, ◌≤◌, ◌^◌, ◌++◌, ◌∷◌, [], ℕ, IfOk, get_or, length, map, AllPairs, ◌≢◌};
ghost use Rattle.std.specs.List.{AllByRecursion, range_with_len};
ghost use Rattle.icet_model.specs.declared.exchange.Op.TheVariants.{Load};
ghost use Rattle.icet_legs.specs.InRow.{AreLegsInRow, IsRowPlan, HasGrown, HasTiles, grown_at, row_program, tile_ops_at, tile_leg, row_programs};

use icet_base::{NoMemory, Rank};
use icet_plan::{Bracket, Leg, Op, Plan, Program};
use std::alloc::Global;
use std::marker::Model;

/// A tile and its leg: its number of pixels, the rank that displays it, the participants by position,
/// and what they do.
#[derive(Drop)]
pub struct TileLeg {
    size: u32,
    display: Rank,
    participants: Vec<Rank>,
    leg: Leg,
}

impl Model for TileLeg {
    ghost use Rattle.icet_legs.specs.InRow.{TileLegView};
    ghost use Rattle.icet_model.specs.contracts.bracket.Bracket as bracket_type;
    ghost use Rattle.std.specs.Coded.{codes};

    ghost Value = { TileLegView };

    ghost coded = { Prim.hlevel (codes, bracket_type.the_row.coded) };

    ghost view = { λ t. record { size = t.size; display = t.display; participants = t.participants.items; programs = t.leg.programs.items; bracket = t.leg.bracket; rounds = t.leg.rounds } };
}

impl TileLeg {
    /// The tile of this many pixels, shown by `display`, and the leg of these participants.
    pub fn of(size: u32, display: Rank, participants: Vec<Rank>, leg: Leg) -> TileLeg
        ensures { result ≡ tile_leg size display participants.items leg }
    {
        TileLeg {
            size,
            display,
            participants,
            leg,
        }
    }

    fn into_bracket(self) -> Bracket
        ensures { result ≡ self.bracket }
    {
        let leg = self.leg;
        leg.bracket
    }
}

// the operations of one rank, as far as they are made
#[derive(Drop)]
struct Draft {
    ops: Vec<Op>,
}

impl Model for Draft {
    ghost use Rattle.std.specs.Prelude.{List};
    ghost use Rattle.icet_model.specs.declared.exchange.Op.{Op};

    ghost Value = { List Op };

    ghost view = { λ d. d.ops.items };
}

impl Draft {
    // the rank loads its own image of a tile, and does what its program says
    #[tactic(auto, using(crate::proofs::RowSteps::append_more))]
    fn append(&mut self, tile: u32, program: &Program) -> Result<(), NoMemory>
        ensures { IfOk result (λ _. self.new ≡ self.old ++ Load tile 0 ∷ program.now) }
    {
        self.ops.push(Op::Load { tile, slot: 0 })?;
        for i in 0..program.len() {
            self.ops.push(program.op(i))?;
        }
        Ok(())
    }
}

/// The plan of these legs, tile by tile, in which each leg begins in the round in which the one before
/// ends. Each participant of a leg begins it with its own image of the tile in slot 0.
///
/// # Errors
///
/// `NoMemory`.
pub fn in_a_row(alloc: Global, ranks: u32, legs: Vec<TileLeg>) -> Result<Plan, NoMemory>
    requires few { length legs.items < 2 ^ 12 }
    requires legs { AreLegsInRow ranks legs.items }
    ensures { IfOk result (IsRowPlan ranks legs.items) }
{
    let programs = programs_of(alloc, ranks, &legs)?;
    let sizes = sizes_of(alloc, &legs)?;
    let displays = displays_of(alloc, &legs)?;
    let brackets = brackets_of(alloc, legs)?;
    Plan::make(alloc, sizes, displays, brackets, programs)
}

fn sizes_of(alloc: Global, legs: &[TileLeg]) -> Result<Vec<u32>, NoMemory>
    ensures { IfOk result (λ all. all.items ≡ map (λ x. x.size) legs.now) }
{
    let mut all = Vec::new(alloc);
    for leg in legs {
        all.push(leg.size)?;
    }
    Ok(all)
}

fn displays_of(alloc: Global, legs: &[TileLeg]) -> Result<Vec<Rank>, NoMemory>
    ensures { IfOk result (λ all. all.items ≡ map (λ x. x.display) legs.now) }
{
    let mut all = Vec::new(alloc);
    for leg in legs {
        all.push(leg.display)?;
    }
    Ok(all)
}

fn brackets_of(alloc: Global, legs: Vec<TileLeg>) -> Result<Vec<Bracket>, NoMemory>
    ensures { IfOk result (λ all. all.items ≡ map (λ x. x.bracket) legs.items) }
{
    let mut all = Vec::new(alloc);
    for tile in legs {
        all.push(tile.into_bracket())?;
    }
    Ok(all)
}

// the programs of all ranks
fn programs_of(alloc: Global, ranks: u32, legs: &[TileLeg]) -> Result<Vec<Program>, NoMemory>
    requires few { length legs.now < 2 ^ 12 }
    requires legs { AreLegsInRow ranks legs.now }
    ensures { IfOk result (λ all. all.items ≡ row_programs legs.now ranks) }
{
    let drafts = drafts_of(alloc, ranks, legs)?;
    finish(alloc, drafts)
}

#[tactic(auto, using(crate::proofs::RowSteps::tile_more))]
fn drafts_of(alloc: Global, ranks: u32, legs: &[TileLeg]) -> Result<Vec<Draft>, NoMemory>
    requires few { length legs.now < 2 ^ 12 }
    requires legs { AreLegsInRow ranks legs.now }
    ensures { IfOk result (λ all. HasTiles ranks legs.now (length legs.now) all.items) }
{
    let mut drafts = empty(alloc, ranks)?;
    for t in 0..legs.len() {
        push_leg(&mut drafts, t as u32, &legs[t])?;
    }
    Ok(drafts)
}

// so many ranks without an operation
fn empty(alloc: Global, ranks: u32) -> Result<Vec<Draft>, NoMemory>
    ensures many { IfOk result (λ all. length all.items ≡ ranks) }
    ensures none { IfOk result (λ all. (r : ℕ) → get_or all.items r [] ≡ []) }
{
    let mut all = Vec::new(alloc);
    for _i in 0..ranks {
        all.push(Draft {
            ops: Vec::new(alloc),
        })?;
    }
    Ok(all)
}

// appends what each participant does for tile t
#[tactic(auto, using(crate::proofs::RowSteps::none_grown, crate::proofs::RowSteps::one_grown))]
fn push_leg(drafts: &mut Vec<Draft>, t: u32, leg: &TileLeg) -> Result<(), NoMemory>
    requires ranked { AllByRecursion (λ r. r < length drafts.old.items) leg.now.participants }
    requires distinct { AllPairs (λ a b. a ≢ b) leg.now.participants }
    requires programs { length leg.now.programs ≡ length leg.now.participants }
    ensures { IfOk result (λ _. HasGrown (length drafts.old.items) t (length leg.now.participants) leg.now drafts.old.items drafts.new.items) }
{
    for p in 0..leg.participants.len() {
        append_at(drafts, t, leg, p)?;
    }
    Ok(())
}

// appends what the participant at position p does for tile t
#[tactic(auto, using(crate::proofs::RowSteps::rank_low))]
fn append_at(drafts: &mut Vec<Draft>, t: u32, leg: &TileLeg, p: usize) -> Result<(), NoMemory>
    requires ranked { AllByRecursion (λ r. r < length drafts.old.items) leg.now.participants }
    requires programs { length leg.now.programs ≡ length leg.now.participants }
    requires place { p < length leg.now.participants }
    ensures { IfOk result (λ _. drafts.new.items ≡ grown_at t leg.now p drafts.old.items) }
{
    let rank = leg.participants[p];
    drafts[rank.0 as usize].append(t, &leg.leg.programs[p])
}

fn finish(alloc: Global, drafts: Vec<Draft>) -> Result<Vec<Program>, NoMemory>
    requires { AllByRecursion (λ ops. length ops < 2 ^ 32) drafts.items }
    ensures { IfOk result (λ all. all.items ≡ drafts.items) }
{
    let mut all = Vec::new(alloc);
    for draft in drafts {
        all.push(Program::of(draft.ops))?;
    }
    Ok(all)
}
