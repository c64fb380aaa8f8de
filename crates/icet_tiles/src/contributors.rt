ghost use Rattle.std.specs.Prelude.{◌≡◌, ◌<◌, ◌≤◌, All, IfOk, Some, length, map, slice_get};
ghost use Rattle.icet_scene_model.specs.Boxes.{contributors, reaches_into};
ghost use Rattle.icet_model.specs.Tiles.{area_of, IsTileArea};
ghost use Rattle.icet_tiles.specs.Contributors.{HasEachOnce};

use crate::area::meet;
use crate::layout::Layout;
use icet_base::{NoMemory, Rank, Rect};
use std::alloc::Global;
use std::marker::Model;

/// For each tile of a layout its contributors: the ranks whose box meets the tile.
#[derive(Drop)]
pub struct Contributors {
    lists: Vec<Vec<Rank>>,
}

impl Model for Contributors {
    ghost use Rattle.std.specs.Prelude.{ℕ, List, map};

    ghost Value = { List (List ℕ) };

    ghost view = { λ s. map (λ ranks. ranks.items) s.lists.items };
}

impl Contributors {
    /// The contributors to each tile of the layout, in `order`. `boxes` has for each rank the rectangle
    /// of pixels that holds what it draws, and None where it draws nothing. Condition: `order` holds
    /// each of these ranks exactly once.
    ///
    /// It takes time in proportion to tiles times ranks.
    ///
    /// # Errors
    ///
    /// `NoMemory` where the lists find no memory.
    pub fn of(
        alloc: Global,
        layout: &Layout,
        boxes: &[Option<Rect>],
        order: &[Rank],
    ) -> Result<Contributors, NoMemory>
        requires order { HasEachOnce (length boxes.now) order.now }
        ensures { IfOk result (λ who. who ≡ map (λ tile. contributors boxes.now order.now tile.area) layout.now) }
    {
        let mut lists = Vec::with_capacity(alloc, layout.count() as usize)?;
        for tile in 0..layout.count() {
            let area = layout.tile(tile).area;
            lists.push(contributors_to(alloc, area, boxes, order)?)?;
        }
        Ok(Contributors { lists })
    }

    /// The contributors to a tile, in the order that was given. Condition: there is a tile of this
    /// number.
    pub fn list(&self, tile: u32) -> &[Rank]
        requires { tile < length self.now }
        ensures { slice_get self.now tile ≡ Some result.now }
    {
        self.lists[tile as usize].as_slice()
    }
}

/// The ranks whose box meets the area of a tile, in their order.
fn contributors_to(
    alloc: Global,
    area: Rect,
    boxes: &[Option<Rect>],
    order: &[Rank],
) -> Result<Vec<Rank>, NoMemory>
    requires area { IsTileArea area }
    requires order { All (λ rank. rank < length boxes.now) order.now }
    ensures { IfOk result (λ ranks. ranks.items ≡ contributors boxes.now order.now (area_of area)) }
{
    let mut ranks = Vec::new(alloc);
    for rank in order {
        if reaches(boxes[rank.0 as usize], area) {
            ranks.push(*rank)?;
        }
    }
    Ok(ranks)
}

/// Whether the box is there and meets the area of a tile.
fn reaches(bounds: Option<Rect>, area: Rect) -> bool
    requires { IsTileArea area }
    ensures { result ≡ reaches_into bounds (area_of area) }
{
    match bounds {
        Some(bounds) => meet(bounds, area),
        None => false,
    }
}
