ghost use Rattle.std.specs.Prelude.{◌≡◌, ℕ, ◌+◌, ◌*◌, ◌≤◌, ◌<ℤ◌, ◌-ℤ◌, ◌*ℤ◌, pos, All, IfSome, None, Some, false, true, unsigned_abs};
ghost use Rattle.icet_scene_model.specs.Raster.{Tri, gives};
ghost use Rattle.icet_scene_model.specs.Triangles.{by_sign, centre, covers, edge_value, weights};
ghost use Rattle.icet_raster.specs.Shapes.{IsCoordinate, IsCorner, IsOnPlane, triangle_of};
ghost use Rattle.icet_raster.specs.Triangles.{AreWeights, weights_of};
ghost use Rattle.icet_raster.specs.Walks.{AreValues, IsWalk, walked};

use crate::edge::{Spots, apart, centre, edge_value, is_top_or_left, spots_of};
use crate::shading::{Weights, inverse_of};
use crate::shape::Vertex;
use icet_pixel::Fragment;
use icet_scene_model::spot::Spot;

/// A triangle whose corners go round so that its doubled area is positive, and what its edges are like:
/// the edge across from each corner, whether it is a top or a left one, and by how much its value grows
/// from one pixel to the next.
#[derive(Clone, Copy)]
pub(crate) struct Walk {
    pub a: Spot,
    pub b: Spot,
    pub c: Spot,
    pub first: Fragment,
    pub second: Fragment,
    pub third: Fragment,
    pub whole: u64,
    pub inverse: u64,
    pub top_a: bool,
    pub top_b: bool,
    pub top_c: bool,
    pub step_a: i64,
    pub step_b: i64,
    pub step_c: i64,
}

/// The values of the three edges at a pixel.
#[derive(Clone, Copy)]
pub(crate) struct Values {
    pub a: i64,
    pub b: i64,
    pub c: i64,
}

/// The walk over a triangle, where its area isn't 0.
pub(crate) fn walk_over(tri: &[Vertex; 3]) -> Option<Walk>
    requires { All IsCorner tri.now }
    ensures walk { IfSome result IsWalk }
    ensures same { IfSome result (λ walk. (x y : ℕ) → gives (Tri (triangle_of tri.now)) x y ≡ gives (Tri (walked walk)) x y) }
    ensures none { result ≡ None → (x y : ℕ) → gives (Tri (triangle_of tri.now)) x y ≡ None }
{
    let Spots { a, b, c } = spots_of(tri);
    let area = edge_value(a, b, c);
    if area > 0 {
        Some(round(a, b, c, tri[0].paint, tri[1].paint, tri[2].paint))
    } else if area < 0 {
        Some(round(a, c, b, tri[0].paint, tri[2].paint, tri[1].paint))
    } else {
        None
    }
}

/// The walk over corners that go round.
fn round(a: Spot, b: Spot, c: Spot, first: Fragment, second: Fragment, third: Fragment) -> Walk
    requires a { IsOnPlane a }
    requires b { IsOnPlane b }
    requires c { IsOnPlane c }
    requires some { pos 0 <ℤ edge_value a b c }
    ensures walk { IsWalk result }
    ensures walked { walked result ≡ record { a = record { spot = a; paint = first }; b = record { spot = b; paint = second }; c = record { spot = c; paint = third } } }
{
    let area = edge_value(a, b, c);
    Walk {
        a,
        b,
        c,
        first,
        second,
        third,
        whole: area.unsigned_abs(),
        inverse: inverse_of(area.unsigned_abs()),
        top_a: is_top_or_left(b, c),
        top_b: is_top_or_left(c, a),
        top_c: is_top_or_left(a, b),
        step_a: step(b.y, c.y),
        step_b: step(c.y, a.y),
        step_c: step(a.y, b.y),
    }
}

/// By how much an edge's value grows from one pixel to the next.
fn step(from: i32, to: i32) -> i64
    requires from { IsCoordinate from }
    requires to { IsCoordinate to }
    ensures value { result ≡ pos 16 *ℤ (from -ℤ to) }
    ensures small { unsigned_abs result ≤ 8388576 }
{
    16 * apart(to, from)
}

/// The edges' values at a pixel.
pub(crate) fn values_at(walk: &Walk, x: u32, y: u32) -> Values
    requires walk { IsWalk walk.now }
    requires x { x ≤ 16383 }
    requires y { y ≤ 16383 }
    ensures { AreValues walk.now x y result }
{
    let at = centre(x as i32, y as i32);
    Values {
        a: edge_value(walk.b, walk.c, at),
        b: edge_value(walk.c, walk.a, at),
        c: edge_value(walk.a, walk.b, at),
    }
}

/// The values at the next pixel of the row.
#[inline(always)]
pub(crate) fn next_values(walk: &Walk, values: Values, x: u32, y: u32) -> Values
    requires walk { IsWalk walk.now }
    requires values { AreValues walk.now x y values }
    requires x { x ≤ 16383 }
    ensures { AreValues walk.now (x + 1) y result }
{
    Values {
        a: values.a + walk.step_a,
        b: values.b + walk.step_b,
        c: values.c + walk.step_c,
    }
}

/// Whether the triangle covers the pixel of these values.
#[inline(always)]
pub(crate) fn is_covered(walk: &Walk, values: Values) -> bool
    requires { IsWalk walk.now }
    ensures { (x y : ℕ) → AreValues walk.now x y values → result ≡ covers (walked walk.now) (centre x y) }
{
    passes(values.a, walk.top_a) && passes(values.b, walk.top_b) && passes(values.c, walk.top_c)
}

/// On the inner side of an edge, or on an edge that counts as inside.
#[inline(always)]
fn passes(value: i64, counts: bool) -> bool
    ensures { result ≡ by_sign value false counts true }
{
    let least = if counts { 0 } else { 1 };
    value >= least
}

/// The weights at a covered pixel.
pub(crate) fn weights_at(walk: &Walk, values: Values) -> Weights
    requires { IsWalk walk.now }
    ensures { (x y : ℕ) → AreValues walk.now x y values → covers (walked walk.now) (centre x y) ≡ true → AreWeights result × (weights_of result ≡ weights (walked walk.now) (centre x y)) }
{
    Weights {
        a: values.a.unsigned_abs(),
        b: values.b.unsigned_abs(),
        c: values.c.unsigned_abs(),
        whole: walk.whole,
        inverse: walk.inverse,
    }
}
