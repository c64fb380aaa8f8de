ghost use Rattle.std.specs.Prelude.{◌≡◌, ◌↔◌, ◌≤◌, ◌-◌, All, IfOk, IsTrue, drop, map, unsigned_abs};
ghost use Rattle.icet_model.specs.declared.limits.TheConstants.{MAX_SIDE};
ghost use Rattle.icet_model.specs.Tiles.{IsTileArea};
ghost use Rattle.icet_raster.specs.Shapes.{drawing_of, IsInRange};
ghost use Rattle.icet_upgrade.specs.TileImages.{HasRow, IsTileImage, Shows, has_row, left_of, row_of};

use icet_base::{Mode, NoMemory, Rect};
use icet_pixel::{Dense, Pixel};
use icet_raster::{Shape, draw};
use std::alloc::Global;

/// What a rank draws into a tile.
#[derive(Drop)]
pub(crate) struct TileImage {
    pub(crate) area: Rect,
    pub(crate) image: Dense,
}

impl TileImage {
    /// Draws these shapes into the area of a tile.
    pub(crate) fn draw(
        alloc: Global,
        shapes: &[Shape],
        mode: Mode,
        area: Rect,
    ) -> Result<TileImage, NoMemory>
        requires shapes { All IsInRange shapes.now }
        requires area { IsTileArea area }
        ensures area { IfOk result (λ tile. tile.area ≡ area) }
        ensures image { IfOk result IsTileImage }
        ensures shows { IfOk result (Shows mode (map drawing_of shapes.now)) }
    {
        let image = draw(alloc, shapes, mode, area)?;
        Ok(TileImage { area, image })
    }

    /// The column of the tile's left edge.
    pub(crate) fn left(&self) -> u32
        requires { IsTileImage self.now }
        ensures value { result ≡ left_of self.now }
        ensures within { result ≤ MAX_SIDE }
    {
        self.area.x.unsigned_abs()
    }

    /// The row of the tile's top edge.
    fn top(&self) -> u32
        requires { IsTileImage self.now }
        ensures { result ≡ unsigned_abs self.now.area.y }
    {
        self.area.y.unsigned_abs()
    }

    /// Whether the tile shows pixels of a row of the display.
    pub(crate) fn has_row(&self, y: u32) -> bool
        requires { IsTileImage self.now }
        ensures value { result ≡ has_row self.now y }
        ensures test { IsTrue result ↔ HasRow self.now y }
    {
        let top = self.area.y.unsigned_abs();
        top <= y && y < top + self.area.h
    }

    /// The tile's pixels in a row, from a column of the display on. Condition: the row is one of the tile.
    pub(crate) fn row_from(&self, y: u32, column: u32) -> &[Pixel]
        requires tile { IsTileImage self.now }
        requires row { HasRow self.now y }
        ensures { result.now ≡ drop (column - left_of self.now) (row_of self.now y) }
    {
        let row = y - self.top();
        let start = row * self.area.w;
        let skipped = column.saturating_sub(self.left()).min(self.area.w);
        &self.image.as_slice()[(start + skipped) as usize..(start + self.area.w) as usize]
    }
}
