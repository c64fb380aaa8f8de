ghost use Rattle.std.specs.Prelude.{◌≡◌, ◌<◌, ◌≤◌, ◌+◌, ◌*◌, true, All, Some};
ghost use Rattle.icet_model.specs.Tiles.{area_of, IsOnDisplay};
ghost use Rattle.icet_scene_model.specs.Raster.{Tri, drawn_over};
ghost use Rattle.icet_scene_model.specs.Triangles.{centre, covers};
ghost use Rattle.icet_raster.specs.Shapes.{triangle_of, IsCorner, IsPixelAt};
ghost use Rattle.icet_raster.specs.Shares.{AreShadesAt, AreSlopes};
ghost use Rattle.icet_raster.specs.Stretches.{Draws, IsCovered, IsSeenWithin, IsPartOf};
ghost use Rattle.icet_raster.specs.Walks.{AreValues, IsWalk, walked};

use crate::cut::{Part, cut};
use crate::frame::frame_of;
use crate::painting::draw_over;
use crate::shades::{Shades, next_shades, shaded, shades_at, slopes_of};
use crate::shape::Vertex;
use crate::stretches::{Reached, stretch_end};
use crate::walks::{Walk, values_at, walk_over};
use icet_base::{Mode, Rect};
use icet_pixel::{Dense, Fragment, Pixel};

/// A pixel of an area: its number there, and its column and row on the display.
#[derive(Clone, Copy)]
struct Place {
    at: u32,
    x: u32,
    y: u32,
}

/// Draws a triangle: row by row, where its box and the area have pixels in common.
pub(crate) fn draw_triangle(image: &mut Dense, mode: Mode, area: Rect, tri: &[Vertex; 3])
    requires area { IsOnDisplay (area_of area) }
    requires tri { All IsCorner tri.now }
    requires width { image.old.w ≡ area.w }
    requires height { image.old.h ≡ area.h }
    ensures width { image.new.w ≡ area.w }
    ensures height { image.new.h ≡ area.h }
    ensures drawn { Draws mode (Tri (triangle_of tri.now)) (area_of area) 0 (area.w * area.h) image.old.pixels image.new.pixels }
{
    if let Some(walk) = walk_over(tri) {
        if let Some(frame) = frame_of(tri) {
            let (from, to) = cut(area.x.unsigned_abs(), area.w, frame.x, frame.w);
            let (top, bottom) = cut(area.y.unsigned_abs(), area.h, frame.y, frame.h);
            let part = Part {
                from,
                to,
                top,
                bottom,
            };
            draw_rows(image, mode, area, &walk, slopes_of(&walk), part);
        }
    }
}

/// Draws the rows of a triangle that lie in its part of the area.
fn draw_rows(image: &mut Dense, mode: Mode, area: Rect, walk: &Walk, slopes: Shades, part: Part)
    requires area { IsOnDisplay (area_of area) }
    requires walk { IsWalk walk.now }
    requires slopes { AreSlopes walk.now slopes }
    requires part { IsPartOf (area_of area) part }
    requires seen { IsSeenWithin (Tri (walked walk.now)) (area_of area) part }
    requires width { image.old.w ≡ area.w }
    requires height { image.old.h ≡ area.h }
    ensures width { image.new.w ≡ area.w }
    ensures height { image.new.h ≡ area.h }
    ensures drawn { Draws mode (Tri (walked walk.now)) (area_of area) 0 (area.w * area.h) image.old.pixels image.new.pixels }
{
    for row in part.top..part.bottom {
        draw_row(image, mode, area, walk, slopes, part, row);
    }
}

/// Draws the part of a triangle in one row, stretch by stretch of pixels that it covers.
#[inline(never)]
fn draw_row(
    image: &mut Dense,
    mode: Mode,
    area: Rect,
    walk: &Walk,
    slopes: Shades,
    part: Part,
    row: u32,
)
    requires area { IsOnDisplay (area_of area) }
    requires walk { IsWalk walk.now }
    requires slopes { AreSlopes walk.now slopes }
    requires part { IsPartOf (area_of area) part }
    requires row { row < area.h }
    requires width { image.old.w ≡ area.w }
    requires height { image.old.h ≡ area.h }
    ensures width { image.new.w ≡ area.w }
    ensures height { image.new.h ≡ area.h }
    ensures drawn { Draws mode (Tri (walked walk.now)) (area_of area) (row * area.w + part.from) (row * area.w + part.to) image.old.pixels image.new.pixels }
{
    if part.from >= part.to {
        return;
    }
    let left = area.x.unsigned_abs();
    let y = area.y.unsigned_abs() + row;
    let mut reached = Reached {
        column: part.from,
        values: values_at(walk, left + part.from, y),
    };
    'stretches: while reached.column < part.to {
        let start = stretch_end(walk, reached, false, left, y, part.to);
        let end = stretch_end(walk, start, true, left, y, part.to);
        draw_stretch(image, mode, area, walk, slopes, row, start, end.column);
        reached = end;
    }
}

/// Draws the triangle's shades on a stretch of pixels that it covers. Each mode has a loop of its own, so that no pixel
/// asks for it.
fn draw_stretch(
    image: &mut Dense,
    mode: Mode,
    area: Rect,
    walk: &Walk,
    slopes: Shades,
    row: u32,
    start: Reached,
    to: u32,
)
    requires area { IsOnDisplay (area_of area) }
    requires walk { IsWalk walk.now }
    requires slopes { AreSlopes walk.now slopes }
    requires row { row < area.h }
    requires stretch { IsCovered (walked walk.now) (area_of area) row start.column to }
    requires values { AreValues walk.now ((area_of area).x + start.column) ((area_of area).y + row) start.values }
    requires width { image.old.w ≡ area.w }
    requires height { image.old.h ≡ area.h }
    ensures width { image.new.w ≡ area.w }
    ensures height { image.new.h ≡ area.h }
    ensures drawn { Draws mode (Tri (walked walk.now)) (area_of area) (row * area.w + start.column) (row * area.w + to) image.old.pixels image.new.pixels }
{
    match mode {
        Mode::Depth => draw_covered(image, Mode::Depth, area, walk, slopes, row, start, to),
        Mode::Blend => draw_covered(image, Mode::Blend, area, walk, slopes, row, start, to),
        Mode::WideBlend => draw_covered(image, Mode::WideBlend, area, walk, slopes, row, start, to),
    }
}

/// Draws the triangle's shades on a stretch of pixels that it covers, with shares that are carried from pixel to pixel.
#[inline(always)]
fn draw_covered(
    image: &mut Dense,
    mode: Mode,
    area: Rect,
    walk: &Walk,
    slopes: Shades,
    row: u32,
    start: Reached,
    to: u32,
)
    requires area { IsOnDisplay (area_of area) }
    requires walk { IsWalk walk.now }
    requires slopes { AreSlopes walk.now slopes }
    requires row { row < area.h }
    requires stretch { IsCovered (walked walk.now) (area_of area) row start.column to }
    requires values { AreValues walk.now ((area_of area).x + start.column) ((area_of area).y + row) start.values }
    requires width { image.old.w ≡ area.w }
    requires height { image.old.h ≡ area.h }
    ensures width { image.new.w ≡ area.w }
    ensures height { image.new.h ≡ area.h }
    ensures drawn { Draws mode (Tri (walked walk.now)) (area_of area) (row * area.w + start.column) (row * area.w + to) image.old.pixels image.new.pixels }
{
    if start.column >= to {
        return;
    }
    let left = area.x.unsigned_abs();
    let y = area.y.unsigned_abs() + row;
    let first = row * area.w;
    let mut shades = shades_at(walk, start.values, left + start.column, y);
    for column in start.column..to {
        let place = Place {
            at: first + column,
            x: left + column,
            y,
        };
        draw_shade(image, mode, area, walk, slopes, shades, place);
        shades = next_shades(walk, slopes, shades, left + column, y);
    }
}

/// Draws the triangle's shade on a pixel that it covers.
#[inline(always)]
fn draw_shade(
    image: &mut Dense,
    mode: Mode,
    area: Rect,
    walk: &Walk,
    slopes: Shades,
    shades: Shades,
    place: Place,
)
    requires walk { IsWalk walk.now }
    requires slopes { AreSlopes walk.now slopes }
    requires shades { AreShadesAt walk.now place.x place.y shades }
    requires place { IsPixelAt (area_of area) place.at place.x place.y }
    requires covered { covers (walked walk.now) (centre place.x place.y) ≡ true }
    requires width { image.old.w ≡ area.w }
    requires height { image.old.h ≡ area.h }
    ensures width { image.new.w ≡ area.w }
    ensures height { image.new.h ≡ area.h }
    ensures drawn { Draws mode (Tri (walked walk.now)) (area_of area) place.at (place.at + 1) image.old.pixels image.new.pixels }
{
    let fragment = shaded(walk, slopes, shades, place.x, place.y);
    if is_hidden(mode, image.get(place.at), fragment) {
        return;
    }
    image.width();
    let pixel = draw_over(mode, image.get(place.at), fragment);
    image.set(place.at, pixel);
}

/// Whether what was drawn before is known to hide a fragment, so that nothing has to be written.
#[inline(always)]
fn is_hidden(mode: Mode, before: Pixel, fragment: Fragment) -> bool
    ensures { result ≡ true → drawn_over mode before (Some fragment) ≡ before }
{
    match mode {
        Mode::Depth => match before {
            Some(before) => before.z() <= fragment.z(),
            None => false,
        },
        Mode::Blend => false,
        Mode::WideBlend => false,
    }
}
