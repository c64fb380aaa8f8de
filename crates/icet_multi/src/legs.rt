//! Behind round 0: each tile's group joins the folds of its blocks by one strategy for a tile.
ghost use Rattle.std.specs.Prelude.{◌≡◌, ◌<◌, ◌≤◌, ◌^◌, [], IfOk, length, map};
ghost use Rattle.std.specs.List.{AllByRecursion};
ghost use Rattle.icet_groups.specs.Tiles.{IsTile};
ghost use Rattle.icet_model.specs.declared.limits.TheConstants.{MAX_RANKS, MAX_TILES};
ghost use Rattle.icet_multi.specs.Rules.{strategy_of};
ghost use Rattle.icet_multi.specs.Reduce.{block_brackets};
ghost use Rattle.icet_multi.specs.Reduced.{AllHaveSeats, AreGroupLegs, AreGroupsFor, HaveGrown, HaveSeats, IsGroupFor, IsGroupLeg, all_blanks, all_legs, blanking, leg_part, programs_in};

use crate::blocks::block_tile;
use crate::drafts::{Draft, append, keep_blank};
use crate::settings::Single;
use crate::single::exchange_plan;
use crate::tile::bracket_of;
use icet_base::{NoMemory, Rank};
use icet_groups::{Groups, TileRanks};
use icet_plan::{Bracket, Leg, Program};
use std::alloc::Global;

// the legs of all tiles' groups
#[tactic(auto, using(crate::proofs::GroupLegs::no_legs))]
pub(crate) fn legs_of(
    alloc: Global,
    ranks: u32,
    tiles: &[TileRanks],
    groups: &Groups,
    single: Single,
    k: u32,
) -> Result<Vec<Leg>, NoMemory>
    requires low { ranks ≤ MAX_RANKS }
    requires few { length tiles.now ≤ MAX_TILES }
    requires groups { AreGroupsFor ranks tiles.now groups.now }
    requires split { 2 ≤ k }
    ensures { IfOk result (λ legs. AreGroupLegs (strategy_of single k) tiles.now groups.now (length tiles.now) legs.items) }
{
    let mut legs = Vec::new(alloc);
    for t in 0..tiles.len() {
        legs.push(leg_of(
            alloc,
            ranks,
            t as u32,
            &tiles[t],
            groups.list(t as u32),
            single,
            k,
        )?)?;
    }
    Ok(legs)
}

// the leg of the group of tile t
#[tactic(auto, using(crate::proofs::GroupLegs::empty_leg))]
fn leg_of(
    alloc: Global,
    ranks: u32,
    t: u32,
    tile: &TileRanks,
    group: &[Rank],
    single: Single,
    k: u32,
) -> Result<Leg, NoMemory>
    requires low { ranks ≤ MAX_RANKS }
    requires group { IsGroupFor ranks tile.now group.now }
    requires split { 2 ≤ k }
    ensures { IfOk result (IsGroupLeg (strategy_of single k) t tile.now group.now) }
{
    if tile.contributors().is_empty() {
        return Ok(no_leg(alloc));
    }
    joining(alloc, ranks, t, tile, group, single, k)
}

// the leg of the group of a tile to which some contribute
fn joining(
    alloc: Global,
    ranks: u32,
    t: u32,
    tile: &TileRanks,
    group: &[Rank],
    single: Single,
    k: u32,
) -> Result<Leg, NoMemory>
    requires low { ranks ≤ MAX_RANKS }
    requires group { IsGroupFor ranks tile.now group.now }
    requires some { 0 < length tile.now.contributors }
    requires split { 2 ≤ k }
    ensures { IfOk result (IsGroupLeg (strategy_of single k) t tile.now group.now) }
{
    let folds = folds_of(alloc, tile, group)?;
    exchange_plan(
        alloc,
        group,
        &folds,
        t,
        tile.size(),
        tile.display(),
        1,
        single,
        k,
    )
}

// nobody does anything
fn no_leg(alloc: Global) -> Leg
    ensures programs { result.programs.items ≡ [] }
    ensures bracket { result.bracket ≡ Bracket.Empty }
{
    Leg {
        programs: Vec::new(alloc),
        bracket: Bracket::Empty,
        rounds: 0,
    }
}

// the brackets of a tile's blocks
fn folds_of(alloc: Global, tile: &TileRanks, group: &[Rank]) -> Result<Vec<Bracket>, NoMemory>
    requires low { length group.now < 2 ^ 32 }
    requires few { length tile.now.contributors < 2 ^ 32 }
    ensures { IfOk result (λ all. all.items ≡ block_brackets tile.now group.now) }
{
    let mut all = Vec::new(alloc);
    for j in 0..group.len() {
        let block = block_tile(alloc, tile, group, j as u32)?;
        let bracket = bracket_of(alloc, &block)?;
        all.push(bracket)?;
    }
    Ok(all)
}

// all groups do their legs
pub(crate) fn push_legs(
    drafts: &mut Vec<Draft>,
    groups: &Groups,
    legs: &[Leg],
) -> Result<(), NoMemory>
    requires few { length legs.now ≤ MAX_TILES }
    requires seats { AllHaveSeats (length drafts.old.items) groups.now (programs_in legs.now) }
    ensures { IfOk result (λ _. HaveGrown (all_legs groups.now (programs_in legs.now)) drafts.old.items drafts.new.items) }
{
    for t in 0..legs.len() {
        push_leg(drafts, groups.list(t as u32), &legs[t].programs)?;
    }
    Ok(())
}

// the members of a group do its leg
fn push_leg(drafts: &mut Vec<Draft>, group: &[Rank], programs: &[Program]) -> Result<(), NoMemory>
    requires seats { HaveSeats (length drafts.old.items) group.now programs.now }
    ensures { IfOk result (λ _. HaveGrown (leg_part group.now programs.now) drafts.old.items drafts.new.items) }
{
    for p in 0..group.len() {
        append(drafts, group[p], &programs[p])?;
    }
    Ok(())
}

// the displays of tiles without contributors keep them blank
pub(crate) fn push_blanks(drafts: &mut Vec<Draft>, tiles: &[TileRanks]) -> Result<(), NoMemory>
    requires few { length tiles.now ≤ MAX_TILES }
    requires shown { AllByRecursion (IsTile (length drafts.old.items)) tiles.now }
    ensures { IfOk result (λ _. HaveGrown (all_blanks tiles.now) drafts.old.items drafts.new.items) }
{
    for t in 0..tiles.len() {
        push_blank(drafts, t as u32, &tiles[t])?;
    }
    Ok(())
}

// the display keeps tile t blank, if nobody contributes to it
fn push_blank(drafts: &mut Vec<Draft>, t: u32, tile: &TileRanks) -> Result<(), NoMemory>
    requires { tile.now.display < length drafts.old.items }
    ensures { IfOk result (λ _. HaveGrown (blanking t tile.now) drafts.old.items drafts.new.items) }
{
    if tile.contributors().is_empty() {
        keep_blank(drafts, t, tile.display())?;
    }
    Ok(())
}

// the bracket of each leg
pub(crate) fn brackets_of(alloc: Global, legs: Vec<Leg>) -> Result<Vec<Bracket>, NoMemory>
    ensures { IfOk result (λ all. all.items ≡ map (λ leg. leg.bracket) legs.items) }
{
    let mut all = Vec::new(alloc);
    for leg in legs {
        all.push(leg.bracket)?;
    }
    Ok(all)
}
