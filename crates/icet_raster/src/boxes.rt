ghost use Rattle.std.specs.Prelude.{◌≡◌, ◌↔◌, ◌+ℤ◌, pos, All, IfSome, None, Some, map};
ghost use Rattle.std.specs.Int.{int_gap, int_max, int_min};
ghost use Rattle.std.specs.Option.{ForSome};
ghost use Rattle.icet_scene_model.specs.Boxes.{HoldsBox, bounds, box, hull, hull_of};
ghost use Rattle.icet_raster.specs.Boxes.{IsNear, IsSpan};
ghost use Rattle.icet_raster.specs.Shapes.{drawing_of, IsInRange};

use crate::frame::frame_of;
use crate::shape::Shape;
use icet_base::Rect;

/// The box of the shapes: the least rectangle of pixels that holds the box of each, and None exactly
/// where no shape has one. A point's box is the pixel that it stands on, a span's its part of the row; a
/// triangle's goes from the pixel of the least corner to that of the greatest in each direction, and one
/// of area 0 has none. Condition: the shapes' coordinates are in their ranges.
pub fn box_of(shapes: &[Shape]) -> Option<Rect>
    requires { All IsInRange shapes.now }
    ensures value { result ≡ box (map drawing_of shapes.now) }
    ensures near { ForSome result IsNear }
    ensures none { (result ≡ None) ↔ All (λ drawing. bounds drawing ≡ None) (map drawing_of shapes.now) }
    ensures holds { IfSome result (λ rect. All (λ drawing. HoldsBox rect (bounds drawing)) (map drawing_of shapes.now)) }
    ensures least { IfSome result (λ rect. (other : Rect) → All (λ drawing. HoldsBox other (bounds drawing)) (map drawing_of shapes.now) → HoldsBox other (Some rect)) }
{
    let mut least = None;
    for shape in shapes {
        least = widened(least, bounds_of(shape));
    }
    least
}

/// The box of one shape, where it has one.
fn bounds_of(shape: &Shape) -> Option<Rect>
    requires { IsInRange shape.now }
    ensures bounds { result ≡ bounds (drawing_of shape.now) }
    ensures near { ForSome result IsNear }
{
    match shape {
        Shape::Point { x, y, paint: _ } => Some(Rect {
            x: *x,
            y: *y,
            w: 1,
            h: 1,
        }),
        Shape::Tri { corners } => frame_of(corners),
        Shape::Span { x, y, paints } => Some(Rect {
            x: *x,
            y: *y,
            w: paints.len(),
            h: 1,
        }),
    }
}

/// The least rectangle that holds both, where they are there.
fn widened(least: Option<Rect>, further: Option<Rect>) -> Option<Rect>
    requires least { ForSome least IsNear }
    requires further { ForSome further IsNear }
    ensures hull { result ≡ hull_of least further }
    ensures near { ForSome result IsNear }
{
    match least {
        None => further,
        Some(least) => match further {
            None => Some(least),
            Some(further) => Some(around(least, further)),
        },
    }
}

/// The least rectangle that holds both.
fn around(one: Rect, other: Rect) -> Rect
    requires one { IsNear one }
    requires other { IsNear other }
    ensures hull { result ≡ hull one other }
    ensures near { IsNear result }
{
    let (x, w) = span(one.x, one.w, other.x, other.w);
    let (y, h) = span(one.y, one.h, other.y, other.h);
    Rect { x, y, w, h }
}

/// The first number of the least range that holds two ranges, and how many numbers it has. Each is
/// given by its first number and its count.
fn span(first: i32, count: u32, other_first: i32, other_count: u32) -> (i32, u32)
    requires one { IsSpan first count }
    requires other { IsSpan other_first other_count }
    ensures first { result.0 ≡ int_min first other_first }
    ensures count { result.1 ≡ int_gap (int_min first other_first) (int_max (first +ℤ pos count) (other_first +ℤ pos other_count)) }
    ensures span { IsSpan result.0 result.1 }
{
    let from = first.min(other_first);
    let to = (first + count as i32).max(other_first + other_count as i32);
    (from, to.abs_diff(from))
}
