ghost use Rattle.std.specs.Prelude.{◌≡◌, ◌+ℤ◌, ◌≤ℤ◌, neg_ℤ, pos, All};
ghost use Rattle.std.specs.Int.{int_gap};
ghost use Rattle.std.specs.Option.{ForSome};
ghost use Rattle.icet_scene_model.specs.Boxes.{bounds, greatest, least, pixel_of};
ghost use Rattle.icet_scene_model.specs.Raster.{Tri};
ghost use Rattle.icet_raster.specs.Boxes.{IsNear, IsSpan};
ghost use Rattle.icet_raster.specs.Shapes.{IsCoordinate, IsCorner, triangle_of};

use crate::edge::{Spots, edge_value, spots_of};
use crate::shape::Vertex;
use icet_base::Rect;

/// The box of a triangle: from the pixel of the least corner to that of the greatest in each direction,
/// and none where the area is 0.
pub(crate) fn frame_of(tri: &[Vertex; 3]) -> Option<Rect>
    requires { All IsCorner tri.now }
    ensures bounds { result ≡ bounds (Tri (triangle_of tri.now)) }
    ensures near { ForSome result IsNear }
{
    let Spots { a, b, c } = spots_of(tri);
    let area = edge_value(a, b, c);
    if area == 0 {
        return None;
    }
    let (x, w) = pixels_between(a.x, b.x, c.x);
    let (y, h) = pixels_between(a.y, b.y, c.y);
    Some(Rect { x, y, w, h })
}

/// The first of the columns from the least of three coordinates to the greatest, and how many there are;
/// or so of rows.
fn pixels_between(a: i32, b: i32, c: i32) -> (i32, u32)
    requires a { IsCoordinate a }
    requires b { IsCoordinate b }
    requires c { IsCoordinate c }
    ensures first { result.0 ≡ pixel_of (least a b c) }
    ensures count { result.1 ≡ int_gap (pixel_of (least a b c)) (pixel_of (greatest a b c) +ℤ pos 1) }
    ensures span { IsSpan result.0 result.1 }
{
    let first = pixel_of(least_of(a, b, c));
    let last = pixel_of(greatest_of(a, b, c));
    (first, (last + 1).abs_diff(first))
}

/// The column or the row of pixels that a coordinate falls into.
fn pixel_of(coordinate: i32) -> i32
    requires { IsCoordinate coordinate }
    ensures value { result ≡ pixel_of coordinate }
    ensures least { neg_ℤ (pos 16384) ≤ℤ result }
    ensures greatest { result ≤ℤ pos 16383 }
{
    coordinate.div_euclid(16)
}

fn least_of(a: i32, b: i32, c: i32) -> i32
    requires a { IsCoordinate a }
    requires b { IsCoordinate b }
    requires c { IsCoordinate c }
    ensures value { result ≡ least a b c }
    ensures range { IsCoordinate result }
{
    a.min(b).min(c)
}

fn greatest_of(a: i32, b: i32, c: i32) -> i32
    requires a { IsCoordinate a }
    requires b { IsCoordinate b }
    requires c { IsCoordinate c }
    ensures value { result ≡ greatest a b c }
    ensures range { IsCoordinate result }
{
    a.max(b).max(c)
}
