ghost use Rattle.std.specs.Prelude.{◌≡◌, ◌≤◌, All, IfOk, OnOk, map, unsigned_abs};
ghost use Rattle.std.specs.List.Sorted.{IsNonDecreasingBy, IsPermutation};
ghost use Rattle.icet_model.specs.declared.limits.TheConstants.{MAX_SIDE};
ghost use Rattle.icet_model.specs.Tiles.{area_of, IsTileArea};
ghost use Rattle.icet_raster.specs.Shapes.{drawing_of, IsInRange};
ghost use Rattle.icet_scene.specs.Lines.{placed_of};
ghost use Rattle.icet_scene_model.specs.Jobs.{shapes_of};
ghost use Rattle.icet_scene_model.specs.Ready.{areas_of, bottom_end, rank_spans, ready_scene, ready_shapes};
ghost use Rattle.icet_upgrade.specs.Scans.{Adds};
ghost use Rattle.icet_upgrade.specs.TileImages.{IsTileImage, Shows};

use crate::rows::add_rows;
use crate::tile_image::TileImage;
use icet_base::{Mode, NoMemory, Rank, Rect};
use icet_raster::Shape;
use icet_scene::scene::Scene;
use icet_tiles::Layout;
use sqlite_items::Items;
use std::alloc::Global;

/// The scene with its shapes ready drawn: for each rank ascending, and for each row of the display from the top, a span
/// for each maximal run of pixels that some tile shows and that the rank draws a fragment at, from left to right. All
/// else is as it was, and so is each rank's image of each tile.
///
/// It takes time in proportion to what `draw` takes for each rank with shapes, and to the rows times the tiles. At one
/// time it has the images of one rank in memory.
///
/// # Errors
///
/// `NoMemory`.
pub fn ready_drawn(alloc: Global, scene: &Scene) -> Result<Scene, NoMemory>
    ensures { IfOk result (λ ready. ready ≡ ready_scene scene.now) }
{
    let shapes = all_spans(alloc, scene)?;
    let order = Items::from_slice(alloc, scene.order.as_slice())?;
    let layout = scene.layout.copy(alloc)?;
    Ok(Scene {
        mode: scene.mode,
        wide: scene.wide,
        ranks: scene.ranks,
        background: scene.background,
        order,
        layout,
        shapes: Items::from_vec(shapes),
    })
}

/// The spans of all ranks.
fn all_spans(alloc: Global, scene: &Scene) -> Result<Vec<(Rank, Shape)>, NoMemory>
    ensures spans { IfOk result (λ spans. map placed_of spans.items ≡ ready_shapes scene.now) }
    ensures in_range { IfOk result (λ spans. All (λ shape. IsInRange shape.1) spans.items) }
{
    let areas = areas_in_order(alloc, &scene.layout)?;
    let rows = bottom_end(areas.as_slice());
    let mut spans = Vec::new(alloc);
    for rank in 0..scene.ranks {
        add_rank(alloc, &mut spans, scene, areas.as_slice(), rows, Rank(rank))?;
    }
    Ok(spans)
}

/// Adds the spans of a rank.
fn add_rank(
    alloc: Global,
    spans: &mut Vec<(Rank, Shape)>,
    scene: &Scene,
    areas: &[Rect],
    rows: u32,
    rank: Rank,
) -> Result<(), NoMemory>
    requires each { All IsTileArea areas.now }
    requires order { IsNonDecreasingBy (λ area. unsigned_abs area.x) areas.now }
    requires rows { rows ≡ bottom_end (map area_of areas.now) }
    ensures { OnOk result (Adds spans.old.items spans.new.items
        (rank_spans scene.now.mode (map area_of areas.now) (shapes_of scene.now.shapes rank) rank)) }
{
    let shapes = scene.shapes_of(alloc, rank)?;
    if shapes.is_empty() {
        return Ok(());
    }
    let tiles = draw_tiles(alloc, shapes.as_slice(), scene.mode, areas)?;
    add_rows(alloc, spans, tiles.as_slice(), rank, rows)
}

/// Draws these shapes into each tile.
fn draw_tiles(
    alloc: Global,
    shapes: &[Shape],
    mode: Mode,
    areas: &[Rect],
) -> Result<Vec<TileImage>, NoMemory>
    requires shapes { All IsInRange shapes.now }
    requires areas { All IsTileArea areas.now }
    ensures areas { IfOk result (λ tiles. map (λ tile. tile.area) tiles.items ≡ areas.now) }
    ensures images { IfOk result (λ tiles. All IsTileImage tiles.items) }
    ensures shows { IfOk result (λ tiles. All (Shows mode (map drawing_of shapes.now)) tiles.items) }
{
    let mut tiles = Vec::with_capacity(alloc, areas.len())?;
    for area in areas {
        tiles.push(TileImage::draw(alloc, shapes, mode, *area)?)?;
    }
    Ok(tiles)
}

/// The tiles' areas in the order of their left edges.
fn areas_in_order(alloc: Global, layout: &Layout) -> Result<Vec<Rect>, NoMemory>
    ensures each { IfOk result (λ areas. All IsTileArea areas.items) }
    ensures same { IfOk result (λ areas. IsPermutation (map (λ tile. tile.area) layout.now) (map area_of areas.items)) }
    ensures order { IfOk result (λ areas. IsNonDecreasingBy (λ area. unsigned_abs area.x) areas.items) }
{
    let mut areas = areas_of(alloc, layout)?;
    areas.sort_by_key(|area| area.x.unsigned_abs())?;
    Ok(areas)
}

fn areas_of(alloc: Global, layout: &Layout) -> Result<Vec<Rect>, NoMemory>
    ensures each { IfOk result (λ areas. All IsTileArea areas.items) }
    ensures same { IfOk result (λ areas. map area_of areas.items ≡ map (λ tile. tile.area) layout.now) }
{
    let mut areas = Vec::with_capacity(alloc, layout.count() as usize)?;
    for t in 0..layout.count() {
        areas.push(layout.tile(t).area)?;
    }
    Ok(areas)
}

/// The row below the last one that an area has.
fn bottom_end(areas: &[Rect]) -> u32
    requires { All IsTileArea areas.now }
    ensures value { result ≡ bottom_end (map area_of areas.now) }
    ensures within { result ≤ MAX_SIDE }
{
    let mut end = 0;
    for area in areas {
        end = end.max(area.y.unsigned_abs() + area.h);
    }
    end
}
