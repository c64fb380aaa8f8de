ghost use Rattle.std.specs.Prelude.{◌≡◌, ◌≤◌, ◌-ℤ◌, ◌*ℤ◌, All, unsigned_abs};
ghost use Rattle.icet_model.specs.Tiles.{IsPlace};
ghost use Rattle.icet_scene_model.specs.Triangles.{centre, edge_value, is_inside, is_top_or_left, is_within};
ghost use Rattle.icet_raster.specs.Shapes.{corner_of, IsCoordinate, IsCorner, IsOnPlane, triangle_of};
ghost use Rattle.icet_raster.specs.Triangles.{AreSpotsOf};

use crate::shape::Vertex;
use icet_scene_model::spot::Spot;

/// Where the corners are.
#[derive(Clone, Copy)]
pub(crate) struct Spots {
    pub a: Spot,
    pub b: Spot,
    pub c: Spot,
}

pub(crate) fn spots_of(tri: &[Vertex; 3]) -> Spots
    requires { All IsCorner tri.now }
    ensures { AreSpotsOf (triangle_of tri.now) result }
{
    Spots {
        a: spot(tri[0]),
        b: spot(tri[1]),
        c: spot(tri[2]),
    }
}

/// The centre of a pixel.
pub(crate) fn centre(x: i32, y: i32) -> Spot
    requires x { IsPlace x }
    requires y { IsPlace y }
    ensures centre { result ≡ centre (unsigned_abs x) (unsigned_abs y) }
    ensures plane { IsOnPlane result }
{
    Spot {
        x: 16 * x + 8,
        y: 16 * y + 8,
    }
}

/// Where a corner is.
fn spot(corner: Vertex) -> Spot
    requires { IsCorner corner }
    ensures spot { result ≡ (corner_of corner).spot }
    ensures plane { IsOnPlane result }
{
    Spot {
        x: corner.x,
        y: corner.y,
    }
}

/// Inside of the three edges from corner to corner.
pub(crate) fn is_within(a: Spot, b: Spot, c: Spot, at: Spot) -> bool
    requires a { IsOnPlane a }
    requires b { IsOnPlane b }
    requires c { IsOnPlane c }
    requires at { IsOnPlane at }
    ensures { result ≡ is_within a b c at }
{
    is_inside(a, b, at) && is_inside(b, c, at) && is_inside(c, a, at)
}

/// On the inner side of the edge, or on it where it is a top or a left edge.
fn is_inside(from: Spot, to: Spot, at: Spot) -> bool
    requires from { IsOnPlane from }
    requires to { IsOnPlane to }
    requires at { IsOnPlane at }
    ensures { result ≡ is_inside from to at }
{
    let value = edge_value(from, to, at);
    if value > 0 {
        true
    } else if value < 0 {
        false
    } else {
        is_top_or_left(from, to)
    }
}

/// The edge goes upwards or level to the right.
pub(crate) fn is_top_or_left(from: Spot, to: Spot) -> bool
    ensures { result ≡ is_top_or_left from to }
{
    if to.y < from.y {
        true
    } else if to.y > from.y {
        false
    } else {
        to.x > from.x
    }
}

/// The value of the edge from one spot to another at a third.
pub(crate) fn edge_value(from: Spot, to: Spot, at: Spot) -> i64
    requires from { IsOnPlane from }
    requires to { IsOnPlane to }
    requires at { IsOnPlane at }
    ensures value { result ≡ edge_value from to at }
    ensures small { unsigned_abs result ≤ 549751619592 }
{
    product(apart(from.x, to.x), apart(from.y, at.y))
        - product(apart(from.y, to.y), apart(from.x, at.x))
}

/// How far it is from one coordinate to another.
pub(crate) fn apart(from: i32, to: i32) -> i64
    requires from { IsCoordinate from }
    requires to { IsCoordinate to }
    ensures value { result ≡ to -ℤ from }
    ensures small { unsigned_abs result ≤ 524286 }
{
    i64::from(to) - i64::from(from)
}

fn product(one: i64, other: i64) -> i64
    requires one { unsigned_abs one ≤ 524286 }
    requires other { unsigned_abs other ≤ 524286 }
    ensures value { result ≡ one *ℤ other }
    ensures small { unsigned_abs result ≤ 274875809796 }
{
    one * other
}
