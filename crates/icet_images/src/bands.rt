ghost use Rattle.std.specs.Prelude.{◌≡◌, ◌<◌, ◌≤◌, ◌+◌, ◌*◌, ◌^◌, ◌++◌, ◌⊎◌, OnOk, All, length, map, false, true};
ghost use Rattle.icet_model.specs.Tiles.{IsTileArea, area_of};
ghost use Rattle.icet_scene_model.specs.Raster.{full_image};
ghost use Rattle.icet_raster.specs.Shapes.{drawing_of, IsInRange};
ghost use Rattle.icet_raster.specs.Stretches.{IsPartOf};
ghost use Rattle.icet_images.specs.Images.{part_area};

use crate::framing::put_framed;
use icet_base::{Mode, NoMemory, Rect};
use icet_raster::{Part, Shape, draw, part_seen};
use icet_sparse::Strip;
use std::alloc::Global;

/// How many pixels are drawn at once at least: so many stay in a processor's cache until they are kept as runs.
const PIXELS: usize = 16_384;

/// How many pixels there are at least for each shape that is looked at once a band, so that looking at shapes takes no
/// more time than drawing the area.
const PIXELS_A_SHAPE: usize = 16;

/// How many rows of an area of this width are drawn at once.
pub(crate) fn band_rows(width: u32, shapes: usize) -> u32
    ensures { 1 ≤ result }
{
    let pixels = shapes.saturating_mul(PIXELS_A_SHAPE).max(PIXELS);
    let rows = pixels / (width as usize).max(1);
    (rows.min(u32::MAX as usize) as u32).max(1)
}

/// The row behind the last one of the band that begins at this row.
pub(crate) fn band_end(top: u32, rows: u32, height: u32) -> u32
    requires rows { 1 ≤ rows }
    requires top { top < height }
    ensures some { top < result }
    ensures within { result ≤ height }
{
    top + rows.min(height - top)
}

/// Draws the shapes over an area, and puts its pixels at the end. Only the part of the area where the shapes may be
/// seen is drawn, densely.
pub(crate) fn push_drawn(
    strip: &mut Strip,
    alloc: Global,
    shapes: &[Shape],
    mode: Mode,
    area: Rect,
) -> Result<(), NoMemory>
    requires shapes { All IsInRange shapes.now }
    requires area { IsTileArea area }
    requires room { length strip.old + area.w * area.h < 2 ^ 32 }
    ensures { OnOk result (strip.new ≡ strip.old ++ full_image mode (map drawing_of shapes.now) (area_of area)) }
{
    let part = part_seen(shapes, area);
    if is_empty(part) {
        strip.push_blank(area.w * area.h);
        return Ok(());
    }
    let image = draw(alloc, shapes, mode, rect_of(area, part))?;
    put_framed(strip, image.as_slice(), area.w, area.h, part)
}

/// Whether the part has no pixel.
fn is_empty(part: Part) -> bool
    requires columns { part.from ≤ part.to }
    requires rows { part.top ≤ part.bottom }
    ensures empty { result ≡ true → (part.from ≡ part.to) ⊎ (part.top ≡ part.bottom) }
    ensures wide { result ≡ false → part.from < part.to }
    ensures high { result ≡ false → part.top < part.bottom }
{
    part.from == part.to || part.top == part.bottom
}

/// The rectangle of a part of an area. Condition: the part has a pixel.
pub(crate) fn rect_of(area: Rect, part: Part) -> Rect
    requires area { IsTileArea area }
    requires part { IsPartOf (area_of area) part }
    requires wide { part.from < part.to }
    requires high { part.top < part.bottom }
    ensures area { area_of result ≡ part_area (area_of area) part }
    ensures tile { IsTileArea result }
{
    Rect {
        x: area.x + part.from as i32,
        y: area.y + part.top as i32,
        w: part.to - part.from,
        h: part.bottom - part.top,
    }
}
