ghost use Rattle.std.specs.Prelude.{◌≡◌, ◌<◌, ◌≤◌, IfOk, All, length};
ghost use Rattle.icet_tiles.specs.Contributors.{HasEachOnce};
ghost use Rattle.icet_multi.specs.Rules.{IsPlanBy, rule_of};
ghost use Rattle.icet_multi.specs.Strategies.{IsTileAt, KeepsOrder, tile_ranks};
ghost use Rattle.icet_model.specs.declared.limits.TheConstants.{MAX_RANKS};

use crate::direct::direct;
use crate::reduce::reduce;
use crate::sequential::sequential;
use crate::settings::{Settings, Strategy};
use icet_base::{NoMemory, Rank};
use icet_groups::TileRanks;
use icet_plan::Plan;
use icet_tiles::{Contributors, Layout};
use std::alloc::Global;

/// The plan of the strategy for the tiles of a layout and for `ranks` ranks. Conditions: `who` has one
/// list per tile; there are at most 256 ranks, and the display ranks are among them; `order` has each
/// rank once, and each list of `who` keeps the order; factors of at least 2 are allowed.
///
/// # Errors
///
/// `NoMemory`.
#[tactic(auto, using(crate::proofs::Layouts::few_tiles, crate::proofs::Layouts::are_tiles))]
pub fn plan(
    alloc: Global,
    layout: &Layout,
    ranks: u32,
    who: &Contributors,
    order: &[Rank],
    settings: &Settings,
) -> Result<Plan, NoMemory>
    requires ranks { ranks ≤ MAX_RANKS }
    requires lists { length who.now ≡ length layout.now }
    requires displays { All (λ tile. tile.display < ranks) layout.now }
    requires order { HasEachOnce ranks order.now }
    requires kept { All (KeepsOrder order.now) who.now }
    requires split { 2 ≤ settings.now.k }
    ensures { IfOk result (IsPlanBy (rule_of settings.now) order.now (tile_ranks layout.now who.now)) }
{
    // That the layout is lawful is known after a look at it.
    let _count = layout.count();
    let tiles = tiles_of(alloc, layout, who)?;
    match settings.strategy {
        Strategy::Sequential => sequential(alloc, order, &tiles, settings.single, settings.k),
        Strategy::Direct => direct(alloc, ranks, &tiles),
        Strategy::Reduce => reduce(alloc, order, &tiles, settings.single, settings.k),
    }
}

// the tiles with their contributors
#[tactic(auto, using(crate::proofs::Layouts::tiles_more))]
fn tiles_of(alloc: Global, layout: &Layout, who: &Contributors) -> Result<Vec<TileRanks>, NoMemory>
    requires { length who.now ≡ length layout.now }
    ensures { IfOk result (λ tiles. tiles.items ≡ tile_ranks layout.now who.now) }
{
    let mut tiles = Vec::new(alloc);
    for t in 0..layout.count() {
        tiles.push(tile_of(alloc, layout, who, t)?)?;
    }
    Ok(tiles)
}

// one tile with its contributors
fn tile_of(
    alloc: Global,
    layout: &Layout,
    who: &Contributors,
    t: u32,
) -> Result<TileRanks, NoMemory>
    requires tile { t < length layout.now }
    requires list { t < length who.now }
    ensures { IfOk result (IsTileAt layout.now who.now t) }
{
    let tile = layout.tile(t);
    let mut ranks = Vec::new(alloc);
    ranks.extend_from_slice(who.list(t))?;
    Ok(TileRanks::of(tile.area.w * tile.area.h, tile.display, ranks))
}
