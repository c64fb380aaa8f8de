ghost use Rattle.std.specs.Prelude.{◌≡◌, ◌<◌, ◌≤◌, ◌+◌, ◌*◌, ◌^◌, ◌++◌, IfOk, OnOk, All, length, map};
ghost use Rattle.icet_model.specs.Tiles.{IsTileArea, area_of};
ghost use Rattle.icet_scene_model.specs.Raster.{full_image};
ghost use Rattle.icet_raster.specs.Shapes.{drawing_of, IsInRange};
ghost use Rattle.icet_images.specs.Images.{full_piece, rows_area};

use crate::bands::{band_end, band_rows, push_drawn, rect_of};
use icet_base::{Mode, NoMemory, Rect};
use icet_raster::{Part, Shape};
use icet_sparse::{Sparse, Strip};
use std::alloc::Global;

/// The image that shapes draw of tile `t`, whose area this is. It is drawn band by band, from the top: only the part of
/// a band where the shapes may be seen is drawn, densely, and kept as runs; the rest of the area takes no memory.
/// Condition: the area is one of a tile, and the shapes' coordinates are in their ranges.
///
/// # Errors
///
/// `NoMemory`.
pub fn drawn_piece(
    alloc: Global,
    shapes: &[Shape],
    mode: Mode,
    area: Rect,
    t: u32,
) -> Result<Sparse, NoMemory>
    requires shapes { All IsInRange shapes.now }
    requires area { IsTileArea area }
    ensures { IfOk result (λ piece. piece ≡ full_piece mode (map drawing_of shapes.now) (area_of area) t) }
{
    let rows = band_rows(area.w, shapes.len());
    let mut pixels = Strip::new(alloc);
    let mut top = 0;
    'bands: while top < area.h {
        let bottom = band_end(top, rows, area.h);
        push_band(&mut pixels, alloc, shapes, mode, area, top, bottom)?;
        top = bottom;
    }
    Sparse::from_strip(t, 0, area.w * area.h, pixels)
}

/// Draws the shapes over some rows of the area, the last not included, and puts their pixels at the end.
fn push_band(
    strip: &mut Strip,
    alloc: Global,
    shapes: &[Shape],
    mode: Mode,
    area: Rect,
    top: u32,
    bottom: u32,
) -> Result<(), NoMemory>
    requires shapes { All IsInRange shapes.now }
    requires area { IsTileArea area }
    requires rows { top < bottom }
    requires within { bottom ≤ area.h }
    requires above { length strip.old ≡ top * area.w }
    ensures { OnOk result (strip.new ≡ strip.old ++ full_image mode (map drawing_of shapes.now) (rows_area (area_of area) top bottom)) }
{
    let part = Part {
        from: 0,
        to: area.w,
        top,
        bottom,
    };
    push_drawn(strip, alloc, shapes, mode, rect_of(area, part))
}
