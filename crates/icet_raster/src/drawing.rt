ghost use Rattle.std.specs.Prelude.{◌≡◌, ◌∷◌, ◌++◌, [], List, IfOk, All, map};
ghost use Rattle.icet_scene_model.specs.Raster.{Drawing, full_image};
ghost use Rattle.icet_model.specs.Tiles.{area_of, IsTileArea, IsOnDisplay};
ghost use Rattle.icet_raster.specs.Shapes.{drawing_of, IsInRange};

use crate::filling::draw_triangle;
use crate::shape::Shape;
use crate::spans::draw_paints;
use icet_base::{Mode, NoMemory, Rect};
use icet_pixel::Dense;
use std::alloc::Global;

/// The shapes joined from the first to the last at each pixel of the area. By depth the earlier shape
/// wins a tie. By blending the later shape is the front, and a fragment of alpha 0 is left out.
/// Condition: the area is one of a tile, and the shapes' coordinates are in their ranges.
///
/// It takes time in proportion to the area and to the parts of the shapes' boxes that lie in it.
///
/// # Errors
///
/// `NoMemory` where the image finds no memory.
pub fn draw(alloc: Global, shapes: &[Shape], mode: Mode, area: Rect) -> Result<Dense, NoMemory>
    requires area { IsTileArea area }
    requires shapes { All IsInRange shapes.now }
    ensures { IfOk result (λ image. image ≡ record { w = area.w; h = area.h; pixels = full_image mode (map drawing_of shapes.now) (area_of area) }) }
{
    let mut image = Dense::blank(alloc, area.w, area.h)?;
    for shape in shapes {
        draw_shape(&mut image, mode, area, shape);
    }
    Ok(image)
}

/// Draws one shape over what was drawn before.
fn draw_shape(image: &mut Dense, mode: Mode, area: Rect, shape: &Shape)
    requires area { IsOnDisplay (area_of area) }
    requires shape { IsInRange shape.now }
    requires width { image.old.w ≡ area.w }
    requires height { image.old.h ≡ area.h }
    ensures width { image.new.w ≡ area.w }
    ensures height { image.new.h ≡ area.h }
    ensures pixels { (before : List Drawing) → image.old.pixels ≡ full_image mode before (area_of area) → image.new.pixels ≡ full_image mode (before ++ drawing_of shape.now ∷ []) (area_of area) }
{
    match shape {
        Shape::Point { x, y, paint } => {
            draw_paints(
                image,
                mode,
                area,
                x.unsigned_abs(),
                y.unsigned_abs(),
                &[*paint],
            )
        },
        Shape::Tri { corners } => draw_triangle(image, mode, area, corners),
        Shape::Span { x, y, paints } => {
            draw_paints(
                image,
                mode,
                area,
                x.unsigned_abs(),
                y.unsigned_abs(),
                paints.as_slice(),
            )
        },
    }
}
