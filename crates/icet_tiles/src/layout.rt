ghost use Rattle.std.specs.Prelude.{◌≡◌, ◌≢◌, ◌↔◌, ◌<◌, ◌≤◌, ◌==◌, IsTrue, All, AllPairs, IfOk, Some, length, map, slice_get, take};
ghost use Rattle.std.specs.List.{list_any};
ghost use Rattle.icet_model.specs.declared.limits.TheConstants.{MAX_TILES};
ghost use Rattle.icet_model.specs.Tiles.{IsTileArea, IsLayout as IsLayoutOfViews};
ghost use Rattle.icet_tiles.specs.Layouts.{IsLayout, IsSide};

use icet_base::limits::{MAX_PLACE, MAX_SIDE, MAX_TILES};
use icet_base::{NoMemory, Rank, Rect};
use std::alloc::Global;
use std::marker::Model;

/// A rectangle of the display, and the rank that hands it out in the end.
#[derive(Clone, Copy, Debug, PartialEq, Eq)]
pub struct Tile {
    pub area: Rect,
    pub display: Rank,
}

/// The tiles of a display: one to 64, with display ranks that differ.
#[derive(Drop)]
pub struct Layout {
    tiles: Vec<Tile>,
}

impl Model for Layout {
    ghost use Rattle.std.specs.Prelude.{List, map};
    ghost use Rattle.icet_model.specs.Tiles.{TileView};
    ghost use Rattle.icet_tiles.specs.Layouts.{tile_view, IsLayout};

    ghost Value = { List TileView };

    ghost view = { λ s. map tile_view s.tiles.items };

    ghost invariant = { λ s. IsLayout s.tiles.items };
}

impl Layout {
    ghost use Rattle.icet_tiles.specs.Layouts.{tile_view, IsLayout};

    /// The layout of these tiles. Condition: they are lawful.
    pub fn of(tiles: Vec<Tile>) -> Layout
        requires { IsLayout tiles.items }
        ensures { result ≡ map tile_view tiles.items }
    {
        Layout { tiles }
    }

    /// How many tiles there are.
    #[tactic(auto, using(crate::proofs::LayoutViews::layout_view))]
    pub fn count(&self) -> u32
        ensures count { result ≡ length self.now }
        ensures layout { IsLayoutOfViews self.now }
        ensures some { 1 ≤ result }
        ensures few { result ≤ MAX_TILES }
    {
        self.tiles.len() as u32
    }

    /// The tile of a number. Condition: it is below the count.
    pub fn tile(&self, t: u32) -> Tile
        requires { t < length self.now }
        ensures tile { slice_get self.now t ≡ Some (tile_view result) }
        ensures area { IsTileArea result.area }
    {
        self.tiles[t as usize]
    }

    /// An equal layout.
    ///
    /// # Errors
    ///
    /// `NoMemory`.
    pub fn copy(&self, alloc: Global) -> Result<Layout, NoMemory>
        ensures { IfOk result (λ layout. layout ≡ self.now) }
    {
        let tiles = Vec::from_slice(alloc, self.tiles.as_slice())?;
        Ok(Layout { tiles })
    }
}

/// Whether the tiles make a layout: at least one and at most `MAX_TILES`, each inside the greatest display, with
/// display ranks that differ. It compares each rank with those before it.
pub fn lawful(tiles: &[Tile]) -> bool
    ensures { IsTrue result ↔ IsLayout tiles.now }
{
    let count = tiles.len();
    1 <= count && count <= MAX_TILES as usize && are_inside(tiles) && have_own_displays(tiles)
}

fn are_inside(tiles: &[Tile]) -> bool
    ensures { IsTrue result ↔ All (λ tile. IsTileArea tile.area) tiles.now }
{
    tiles.iter().all(|tile| is_inside(tile.area))
}

/// Whether the rectangle is one that a tile may have.
fn is_inside(area: Rect) -> bool
    ensures { IsTrue result ↔ IsTileArea area }
{
    is_side(area.x, area.w) && is_side(area.y, area.h)
}

/// Whether so many pixels from the first one on lie in a row or a column of the greatest display.
fn is_side(first: i32, count: u32) -> bool
    ensures { IsTrue result ↔ IsSide first count }
{
    0 <= first
        && first <= MAX_PLACE as i32
        && 1 <= count
        && count <= MAX_SIDE
        && first as u32 + count <= MAX_SIDE
}

/// Whether no two tiles have the same display rank.
fn have_own_displays(tiles: &[Tile]) -> bool
    ensures { IsTrue result ↔ AllPairs (λ one other. one.display ≢ other.display) tiles.now }
{
    for at in 0..tiles.len() {
        if is_shown(&tiles[..at], tiles[at].display) {
            return false;
        }
    }
    true
}

/// Whether the rank displays one of the tiles.
fn is_shown(tiles: &[Tile], rank: Rank) -> bool
    ensures { result ≡ list_any (λ tile. tile.display == rank) tiles.now }
{
    tiles.iter().any(|tile| tile.display == rank)
}
