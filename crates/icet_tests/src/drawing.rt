//! A renderer that draws one triangle into a tile.
ghost use Rattle.std.specs.Prelude.{◌≡◌, All, IfOk};
ghost use Rattle.icet_model.specs.Tiles.{area_of, IsTileArea};
ghost use Rattle.icet_raster.specs.Shapes.{triangle_of, IsCorner};
ghost use Rattle.icet_tests.specs.Drawing.{triangle_pixels};

use icet_base::{Mode, NoMemory, Rect};
use icet_pixel::Dense;
use icet_raster::{Shape, Vertex, draw};
use std::alloc::Global;

/// The image of a tile that shows one triangle.
pub fn render(alloc: Global, tile: Rect, corners: [Vertex; 3]) -> Result<Dense, NoMemory>
    requires tile { IsTileArea tile }
    requires corners { All IsCorner corners }
    ensures { IfOk result (λ image. image.pixels ≡ triangle_pixels (triangle_of corners) (area_of tile)) }
{
    let shapes = [Shape::Tri { corners }];
    draw(alloc, &shapes, Mode::Depth, tile)
}
