//! The scene of the demonstration.
ghost use Rattle.std.specs.Prelude.{◌≡◌, ◌+◌, ◌∷◌, [], IfOk, map, length};
ghost use Rattle.std.specs.List.{range_with_len};
ghost use Rattle.icet_scene.specs.Lines.{placed_of};
ghost use Rattle.icet_scene.specs.Scenes.{AreShapes};
ghost use Rattle.icet_demo.specs.Demonstration.{demo_scene, display, generator, placed_from};
ghost use Rattle.icet_demo.specs.declared.sizes.TheConstants.{RANKS};

use crate::corners::next_corners;
use crate::sizes::{HEIGHT, RANKS, TRIANGLES, WIDTH};
use icet_base::{Mode, NoMemory, Rank, Rect};
use icet_pixel::Fragment;
use icet_raster::Shape;
use icet_scene::scene::Scene;
use icet_tiles::{Layout, Tile};
use rand_pcg::Lcg64Xsh32;
use sqlite_items::Items;
use std::alloc::Global;

/// The stream of the generator that the demonstration is drawn from.
const STREAM: u64 = 54;

/// The scene of a seed: by depth, 400 triangles of 16 ranks on one tile of 1920 by 1080 pixels.
///
/// # Errors
///
/// `NoMemory`.
pub fn demo_scene(alloc: Global, seed: u64) -> Result<Scene, NoMemory>
    ensures { IfOk result (λ scene. scene ≡ demo_scene seed) }
{
    let order = all_ranks(alloc)?;
    let layout = one_tile(alloc)?;
    let shapes = triangles(alloc, seed)?;
    Ok(Scene {
        mode: Mode::Depth,
        wide: false,
        ranks: RANKS,
        background: Fragment::of(0, 0, 0, 0, 0),
        order: Items::from_vec(order),
        layout,
        shapes: Items::from_vec(shapes),
    })
}

// the ranks, ascending
fn all_ranks(alloc: Global) -> Result<Vec<Rank>, NoMemory>
    ensures { IfOk result (λ order. order.items ≡ range_with_len 0 RANKS) }
{
    let mut order = Vec::new(alloc);
    for r in 0..RANKS {
        order.push(Rank(r))?;
    }
    Ok(order)
}

// the display's one tile, which rank 0 shows
fn one_tile(alloc: Global) -> Result<Layout, NoMemory>
    ensures { IfOk result (λ layout. layout ≡ display ∷ []) }
{
    let tile = Tile {
        area: Rect {
            x: 0,
            y: 0,
            w: WIDTH,
            h: HEIGHT,
        },
        display: Rank(0),
    };
    Ok(Layout::of(vec![in alloc; tile]?))
}

// the triangles, rank by rank
fn triangles(alloc: Global, seed: u64) -> Result<Vec<(Rank, Shape)>, NoMemory>
    ensures shapes { IfOk result (λ all. map placed_of all.items ≡ (demo_scene seed).shapes) }
    ensures lawful { IfOk result (λ all. AreShapes RANKS all.items) }
{
    let mut rng = Lcg64Xsh32::new(seed, STREAM);
    let mut all = Vec::new(alloc);
    for i in 0..RANKS * TRIANGLES {
        let corners = next_corners(&mut rng);
        all.push((Rank(i / TRIANGLES), Shape::Tri { corners }))?;
    }
    Ok(all)
}
