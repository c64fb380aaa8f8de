ghost use Rattle.std.specs.Prelude.{map, All};
ghost use Rattle.icet_model.specs.Tiles.{area_of, IsTileArea};
ghost use Rattle.icet_raster.specs.Boxes.{IsNear};
ghost use Rattle.icet_raster.specs.Shapes.{drawing_of, IsInRange};
ghost use Rattle.icet_raster.specs.Stretches.{AreSeenWithin, IsCutBy, IsPartOf};

use crate::boxes::box_of;
use crate::cut::{Part, cut};
use crate::shape::Shape;
use icet_base::Rect;

/// The part of an area outside of which these shapes draw nothing: where their box lies in it. Condition: the area is one
/// of a tile, and the shapes' coordinates are in their ranges.
pub fn part_seen(shapes: &[Shape], area: Rect) -> Part
    requires area { IsTileArea area }
    requires shapes { All IsInRange shapes.now }
    ensures part { IsPartOf (area_of area) result }
    ensures seen { AreSeenWithin (map drawing_of shapes.now) (area_of area) result }
{
    match box_of(shapes) {
        None => Part {
            from: 0,
            to: 0,
            top: 0,
            bottom: 0,
        },
        Some(bounds) => part_in(bounds, area),
    }
}

/// The part of an area that a rectangle has.
fn part_in(bounds: Rect, area: Rect) -> Part
    requires area { IsTileArea area }
    requires near { IsNear bounds }
    ensures part { IsPartOf (area_of area) result }
    ensures cut { IsCutBy bounds (area_of area) result }
{
    let (from, to) = cut(area.x.unsigned_abs(), area.w, bounds.x, bounds.w);
    let (top, bottom) = cut(area.y.unsigned_abs(), area.h, bounds.y, bounds.h);
    Part {
        from,
        to,
        top,
        bottom,
    }
}
