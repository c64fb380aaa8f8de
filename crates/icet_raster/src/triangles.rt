ghost use Rattle.std.specs.Prelude.{◌≡◌, All, true, unsigned_abs};
ghost use Rattle.icet_model.specs.Tiles.{IsPlace};
ghost use Rattle.icet_scene_model.specs.Triangles.{centre, covers, shaded};
ghost use Rattle.icet_raster.specs.Shapes.{IsCorner, triangle_of};

use crate::edge::{Spots, centre, edge_value, is_within, spots_of};
use crate::shading::{mixed, weigh};
use crate::shape::Vertex;
use icet_pixel::Fragment;

/// Whether the triangle covers the centre of a pixel. Condition: the corners and the pixel are in their
/// ranges.
pub fn covers(tri: &[Vertex; 3], x: i32, y: i32) -> bool
    requires corners { All IsCorner tri.now }
    requires x { IsPlace x }
    requires y { IsPlace y }
    ensures { result ≡ covers (triangle_of tri.now) (centre (unsigned_abs x) (unsigned_abs y)) }
{
    let at = centre(x, y);
    let Spots { a, b, c } = spots_of(tri);
    let area = edge_value(a, b, c);
    if area > 0 {
        is_within(a, b, c, at)
    } else if area < 0 {
        is_within(a, c, b, at)
    } else {
        false
    }
}

/// What the triangle gives at a pixel that it covers: depth, colour and alpha are means of the corners'
/// by their weights there, rounded down.
pub fn shade(tri: &[Vertex; 3], x: i32, y: i32) -> Fragment
    requires corners { All IsCorner tri.now }
    requires x { IsPlace x }
    requires y { IsPlace y }
    requires covered { covers (triangle_of tri.now) (centre (unsigned_abs x) (unsigned_abs y)) ≡ true }
    ensures { result ≡ shaded (triangle_of tri.now) (centre (unsigned_abs x) (unsigned_abs y)) }
{
    let weights = weigh(tri, centre(x, y));
    mixed(weights, tri[0].paint, tri[1].paint, tri[2].paint)
}
