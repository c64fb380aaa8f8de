ghost use Rattle.std.specs.Prelude.{◌≡◌, ◌*◌, ◌≤◌, IfOk, All, map};
ghost use Rattle.icet_model.specs.Pixel.{Pixel};
ghost use Rattle.icet_model.specs.Tiles.{IsTileArea, area_of};
ghost use Rattle.icet_model.specs.declared.limits.TheConstants.{MAX_RANK_PIXELS};
ghost use Rattle.icet_interlace.specs.Interlace.{interlaced_piece};
ghost use Rattle.icet_raster.specs.Shapes.{drawing_of, IsInRange};
ghost use Rattle.icet_jobs.specs.Composites.{rank_image, rank_images, whole_piece};

use icet_base::{Mode, NoMemory, Rank, Rect};
use icet_images::drawn_piece;
use icet_interlace::interlace;
use icet_net::Image;
use icet_raster::Shape;
use icet_scene::scene::Scene;
use icet_sparse::Sparse;
use std::alloc::Global;

/// Each rank's full image of each tile, with its pixels dealt out to the strands, drawn one after the other on this
/// thread. Condition: there is a strand.
///
/// # Errors
///
/// `NoMemory`.
#[tactic(auto, using(crate::proofs::SceneImages::made_more))]
pub fn images_of(alloc: Global, scene: &Scene, strands: u32) -> Result<Vec<Image>, NoMemory>
    requires { 1 ≤ strands }
    ensures { IfOk result (λ images. images.items ≡ rank_images strands scene.now) }
{
    let mut images = Vec::new(alloc);
    for rank in 0..scene.ranks() {
        images.push(image_of(alloc, scene, Rank(rank), strands)?)?;
    }
    Ok(images)
}

/// A rank's full image of each tile, with its pixels dealt out to the strands. Condition: there is a strand.
///
/// # Errors
///
/// `NoMemory`.
#[tactic(auto, using(crate::proofs::SceneImages::pieces_more))]
pub(crate) fn image_of(
    alloc: Global,
    scene: &Scene,
    rank: Rank,
    strands: u32,
) -> Result<Image, NoMemory>
    requires { 1 ≤ strands }
    ensures { IfOk result (λ image. image ≡ rank_image strands scene.now rank) }
{
    let shapes = scene.shapes_of(alloc, rank)?;
    let mut parts = Vec::new(alloc);
    for t in 0..scene.layout.count() {
        let area = scene.layout.tile(t).area;
        parts.push(part_of(alloc, shapes.as_slice(), scene.mode, area, t, strands)?)?;
    }
    Ok(Image::of(parts))
}

/// The image of tile `t`, which has this area. Without shapes it takes no memory, and needs no dealing out.
#[tactic(auto, using(crate::proofs::SceneImages::nothing_drawn))]
fn part_of(
    alloc: Global,
    shapes: &[Shape],
    mode: Mode,
    area: Rect,
    t: u32,
    strands: u32,
) -> Result<Sparse, NoMemory>
    requires shapes { All IsInRange shapes.now }
    requires area { IsTileArea area }
    requires small { area.w * area.h ≤ MAX_RANK_PIXELS }
    requires strands { 1 ≤ strands }
    ensures { IfOk result (λ part. part ≡ whole_piece strands mode (map drawing_of shapes.now) (area_of area) t) }
{
    let count = area.w * area.h;
    if shapes.is_empty() {
        return Ok(Sparse::blank(alloc, t, 0, count));
    }
    let part = drawn_piece(alloc, shapes, mode, area, t)?;
    in_strands(alloc, part, strands)
}

/// The image with its pixels dealt out to the strands; with one strand it is the image itself, not a copy.
fn in_strands(alloc: Global, part: Sparse, strands: u32) -> Result<Sparse, NoMemory>
    requires lo { part.lo ≡ 0 }
    requires most { part.hi ≤ MAX_RANK_PIXELS }
    requires strands { 1 ≤ strands }
    ensures { IfOk result (λ dealt. dealt ≡ interlaced_piece strands part) }
{
    if strands == 1 {
        return Ok(part);
    }
    interlace(alloc, &part, strands)
}
