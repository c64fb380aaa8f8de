//! The strategy reduce.
ghost use Rattle.std.specs.Prelude.{◌≡◌, ◌≤◌, ◌<◌, ◌^◌, IfOk, length, map};
ghost use Rattle.std.specs.List.{AllByRecursion, range_with_len};
ghost use Rattle.icet_groups.specs.Tiles.{AreTiles};
ghost use Rattle.icet_model.specs.declared.limits.TheConstants.{MAX_RANKS, MAX_TILES};
ghost use Rattle.icet_multi.specs.Rules.{IsPlanBy, strategy_of};
ghost use Rattle.icet_multi.specs.Sequential.{IsShown};
ghost use Rattle.icet_multi.specs.Reduce.{reduce_rule};
ghost use Rattle.icet_multi.specs.Reduced.{AllHaveSeats, AreGroupsFor, all_ops, programs_in};

use crate::blocks::{push_folds, push_sends};
use crate::direct::{displays_of, sizes_of};
use crate::drafts::{empty, finish};
use crate::legs::{brackets_of, legs_of, push_blanks, push_legs};
use crate::settings::Single;
use icet_base::{NoMemory, Rank};
use icet_groups::{Groups, TileRanks, groups};
use icet_plan::{Leg, Plan, Program};
use std::alloc::Global;

/// The plan over these tiles in which each tile is joined by a group of its own, all groups at once. In round 0 each
/// contributor to a tile, other than the member of its block, sends its whole image to that member, which folds the
/// block's images from the left; from round 1 on the members join these folds by one strategy. There are at most 256
/// ranks, those of the order, and 64 tiles; each tile has fewer than 2^31 pixels and a display of its own, and no
/// contributor stands twice in a tile. Where the strategy splits ranks into groups, its factors are up to `k`.
///
/// # Errors
///
/// `NoMemory`.
pub fn reduce(
    alloc: Global,
    order: &[Rank],
    tiles: &[TileRanks],
    single: Single,
    k: u32,
) -> Result<Plan, NoMemory>
    requires low { length order.now ≤ MAX_RANKS }
    requires few { length tiles.now ≤ MAX_TILES }
    requires tiles { AreTiles (length order.now) tiles.now }
    requires shown { AllByRecursion (IsShown (length order.now)) tiles.now }
    requires split { 2 ≤ k }
    ensures { IfOk result (IsPlanBy (reduce_rule (strategy_of single k)) order.now tiles.now) }
{
    let ranks = order.len() as u32;
    let groups = groups(alloc, ranks, tiles)?;
    let legs = legs_of(alloc, ranks, tiles, &groups, single, k)?;
    let programs = programs_of(alloc, ranks, tiles, &groups, &legs)?;
    let sizes = sizes_of(alloc, tiles)?;
    let displays = displays_of(alloc, tiles)?;
    let brackets = brackets_of(alloc, legs)?;
    Plan::make(alloc, sizes, displays, brackets, programs)
}

// the programs of all ranks: round 0, then the legs, and then the blanks
fn programs_of(
    alloc: Global,
    ranks: u32,
    tiles: &[TileRanks],
    groups: &Groups,
    legs: &[Leg],
) -> Result<Vec<Program>, NoMemory>
    requires low { ranks ≤ MAX_RANKS }
    requires few { length tiles.now ≤ MAX_TILES }
    requires groups { AreGroupsFor ranks tiles.now groups.now }
    requires count { length legs.now ≡ length tiles.now }
    requires seats { AllHaveSeats ranks groups.now (programs_in legs.now) }
    ensures { IfOk result (λ all. all.items ≡ map (all_ops tiles.now groups.now (programs_in legs.now)) (range_with_len 0 ranks)) }
{
    let mut drafts = empty(alloc, ranks)?;
    push_sends(alloc, &mut drafts, tiles, groups)?;
    push_folds(alloc, &mut drafts, tiles, groups)?;
    push_legs(&mut drafts, groups, legs)?;
    push_blanks(&mut drafts, tiles)?;
    finish(alloc, drafts)
}
