ghost use Rattle.std.specs.Prelude.{◌≡◌, ℕ, ◌<◌, ◌≤◌, ◌+◌, ◌*◌, None, Some, get_or, length, slice_set};
ghost use Rattle.icet_scene_model.specs.Raster.{Span, drawn_over};
ghost use Rattle.icet_model.specs.Tiles.{area_of, IsOnDisplay};
ghost use Rattle.icet_raster.specs.Paints.{IsRun};
ghost use Rattle.icet_raster.specs.Stretches.{Draws};

use crate::painting::draw_over;
use icet_base::{Mode, Rect};
use icet_pixel::{Dense, Fragment};

/// Draws paints from left to right in row `y` of the display, the first in column `x`.
pub(crate) fn draw_paints(
    image: &mut Dense,
    mode: Mode,
    area: Rect,
    x: u32,
    y: u32,
    paints: &[Fragment],
)
    requires area { IsOnDisplay (area_of area) }
    requires run { IsRun paints.now }
    requires columns { x + length paints.now ≤ 16384 }
    requires width { image.old.w ≡ area.w }
    requires height { image.old.h ≡ area.h }
    ensures width { image.new.w ≡ area.w }
    ensures height { image.new.h ≡ area.h }
    ensures drawn { Draws mode (Span x y paints.now) (area_of area) 0 (area.w * area.h) image.old.pixels image.new.pixels }
{
    let top = area.y.unsigned_abs();
    if y < top || y - top >= area.h {
        return;
    }
    draw_row(image, mode, area, y - top, x, paints);
}

/// Draws paints in a row of the area, the first in column `x` of the display. Each mode has a loop of its
/// own, so that no pixel asks for it.
fn draw_row(image: &mut Dense, mode: Mode, area: Rect, row: u32, x: u32, paints: &[Fragment])
    requires area { IsOnDisplay (area_of area) }
    requires row { row < area.h }
    requires run { IsRun paints.now }
    requires columns { x + length paints.now ≤ 16384 }
    requires width { image.old.w ≡ area.w }
    requires height { image.old.h ≡ area.h }
    ensures width { image.new.w ≡ area.w }
    ensures height { image.new.h ≡ area.h }
    ensures drawn { Draws mode (Span x ((area_of area).y + row) paints.now) (area_of area) 0 (area.w * area.h) image.old.pixels image.new.pixels }
{
    match mode {
        Mode::Depth => draw_columns(image, Mode::Depth, area, row, x, paints),
        Mode::Blend => draw_columns(image, Mode::Blend, area, row, x, paints),
        Mode::WideBlend => draw_columns(image, Mode::WideBlend, area, row, x, paints),
    }
}

/// Draws paints in a row of the area, the first in column `x` of the display.
#[inline(always)]
fn draw_columns(image: &mut Dense, mode: Mode, area: Rect, row: u32, x: u32, paints: &[Fragment])
    requires area { IsOnDisplay (area_of area) }
    requires row { row < area.h }
    requires run { IsRun paints.now }
    requires columns { x + length paints.now ≤ 16384 }
    requires width { image.old.w ≡ area.w }
    requires height { image.old.h ≡ area.h }
    ensures width { image.new.w ≡ area.w }
    ensures height { image.new.h ≡ area.h }
    ensures drawn { Draws mode (Span x ((area_of area).y + row) paints.now) (area_of area) 0 (area.w * area.h) image.old.pixels image.new.pixels }
{
    let left = area.x.unsigned_abs();
    let (from, to) = columns(left, area.w, x, paints.len() as u32);
    let start = row * area.w;
    for column in from..to {
        let at = start + column;
        let paint = paints[(left + column - x) as usize];
        draw_paint(image, mode, at, paint);
    }
}

/// The columns of an area, from its left edge `left` on, where a run of `count` from column `x` on lies:
/// from the first up to the last, which isn't included.
fn columns(left: u32, width: u32, x: u32, count: u32) -> (u32, u32)
    requires { x + count ≤ 16384 }
    ensures order { result.0 ≤ result.1 }
    ensures within { result.1 ≤ width }
    ensures inside { (column : ℕ) → column < width → x ≤ left + column → left + column < x + count → (result.0 ≤ column) × (column < result.1) }
    ensures only { (column : ℕ) → result.0 ≤ column → column < result.1 → (x ≤ left + column) × (left + column < x + count) }
{
    let from = x.saturating_sub(left).min(width);
    let to = (x + count).saturating_sub(left).min(width);
    (from, to)
}

/// Draws a paint on a pixel of the image.
#[inline(always)]
fn draw_paint(image: &mut Dense, mode: Mode, at: u32, paint: Fragment)
    requires { at < image.old.w * image.old.h }
    ensures width { image.new.w ≡ image.old.w }
    ensures height { image.new.h ≡ image.old.h }
    ensures within { at < length image.old.pixels }
    ensures pixels { image.new.pixels ≡ slice_set image.old.pixels at (drawn_over mode (get_or image.old.pixels at None) (Some paint)) }
{
    image.width();
    let pixel = draw_over(mode, image.get(at), paint);
    image.set(at, pixel);
}
