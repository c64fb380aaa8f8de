ghost use Rattle.std.specs.Prelude.{◌≡◌, ◌≤◌, ◌<◌, ◌^◌, ◌*◌, IfOk, length, map};
ghost use Rattle.std.specs.List.{AllByRecursion};
ghost use Rattle.icet_legs.specs.Leg.{IsExchangePlan};
ghost use Rattle.icet_legs.specs.Team.{team_of};
ghost use Rattle.icet_tiles.specs.Contributors.{HasEachOnce};
ghost use Rattle.icet_multi.specs.Rules.{IsPlanBy, sequential_rule, strategy_of};
ghost use Rattle.icet_multi.specs.Sequential.{AreLegsOf, IsShown, IsTileLegOf};
ghost use Rattle.icet_legs.specs.InRow.{tile_leg};
ghost use Rattle.icet_model.specs.declared.limits.TheConstants.{MAX_RANKS, MAX_TILES};

use crate::settings::Single;
use crate::single::exchange_plan;
use crate::tile::leaves;
use icet_base::{NoMemory, Rank};
use icet_groups::TileRanks;
use icet_legs::TileLeg;
use icet_legs::row::in_a_row;
use icet_plan::{Bracket, Leg, Plan};
use std::alloc::Global;

/// The plan over these tiles in which, tile after tile, all ranks join their images by one strategy. The
/// order has each rank once; there are at most 256 ranks and 64 tiles. Where the strategy splits ranks into
/// groups, its factors are up to `k`.
///
/// # Errors
///
/// `NoMemory`.
pub fn sequential(
    alloc: Global,
    order: &[Rank],
    tiles: &[TileRanks],
    single: Single,
    k: u32,
) -> Result<Plan, NoMemory>
    requires low { length order.now ≤ MAX_RANKS }
    requires order { HasEachOnce (length order.now) order.now }
    requires few { length tiles.now ≤ MAX_TILES }
    requires tiles { AllByRecursion (IsShown (length order.now)) tiles.now }
    requires split { 2 ≤ k }
    ensures { IfOk result (IsPlanBy (sequential_rule (strategy_of single k)) order.now tiles.now) }
{
    let legs = legs_of(alloc, order, tiles, single, k)?;
    in_a_row(alloc, order.len() as u32, legs)
}

// the legs of the tiles, one behind the other
#[tactic(auto, using(crate::proofs::SequentialPlan::no_legs, crate::proofs::SequentialPlan::tile_shown))]
fn legs_of(
    alloc: Global,
    order: &[Rank],
    tiles: &[TileRanks],
    single: Single,
    k: u32,
) -> Result<Vec<TileLeg>, NoMemory>
    requires low { length order.now ≤ MAX_RANKS }
    requires order { HasEachOnce (length order.now) order.now }
    requires few { length tiles.now ≤ MAX_TILES }
    requires tiles { AllByRecursion (IsShown (length order.now)) tiles.now }
    requires split { 2 ≤ k }
    ensures { IfOk result (λ legs. AreLegsOf (strategy_of single k) order.now tiles.now (length tiles.now) legs.items) }
{
    let mut legs = Vec::new(alloc);
    let mut first = 0;
    for t in 0..tiles.len() {
        let leg = leg_of(alloc, order, t as u32, &tiles[t], first, single, k)?;
        first += leg.rounds;
        legs.push(with_order(alloc, order, &tiles[t], leg)?)?;
    }
    Ok(legs)
}

// a tile and its leg, in which all ranks take part
fn with_order(
    alloc: Global,
    order: &[Rank],
    tile: &TileRanks,
    leg: Leg,
) -> Result<TileLeg, NoMemory>
    ensures { IfOk result (λ x. x ≡ tile_leg tile.now.size tile.now.display order.now leg) }
{
    let mut participants = Vec::new(alloc);
    participants.extend_from_slice(order)?;
    Ok(TileLeg::of(tile.size(), tile.display(), participants, leg))
}

// the leg of tile t, from this round on
fn leg_of(
    alloc: Global,
    order: &[Rank],
    t: u32,
    tile: &TileRanks,
    first: u32,
    single: Single,
    k: u32,
) -> Result<Leg, NoMemory>
    requires low { length order.now ≤ MAX_RANKS }
    requires order { HasEachOnce (length order.now) order.now }
    requires tile { IsShown (length order.now) tile.now }
    requires early { first < 2 ^ 31 }
    requires split { 2 ≤ k }
    ensures { IfOk result (IsExchangePlan (strategy_of single k) (team_of order.now (map (λ r. Bracket.Leaf r) order.now) t tile.now.size first) tile.now.display) }
{
    let leaves = leaves(alloc, order)?;
    exchange_plan(
        alloc,
        order,
        &leaves,
        t,
        tile.size(),
        tile.display(),
        first,
        single,
        k,
    )
}
