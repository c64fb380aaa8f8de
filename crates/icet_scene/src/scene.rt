ghost use Rattle.std.specs.Prelude.{◌≡◌, IfOk, All, map};
ghost use Rattle.icet_scene.specs.Lines.{placed_of};
ghost use Rattle.icet_scene.specs.Scenes.{IsLawfulScene};
ghost use Rattle.icet_scene_model.specs.Jobs.{shapes_of};
ghost use Rattle.icet_raster.specs.Shapes.{drawing_of, IsInRange};

use icet_base::{Mode, NoMemory, Rank};
use icet_pixel::Fragment;
use icet_raster::Shape;
use icet_tiles::Layout;
use sqlite_items::Items;
use std::alloc::Global;
use std::marker::Model;

/// What the renderers of a display draw: the tiles, the ranks and each rank's shapes, in the order of
/// the text. The order holds each rank once, the front first; by depth it is the ranks ascending. The
/// background has depth 0.
#[derive(Drop)]
pub struct Scene {
    pub mode: Mode,
    /// Whether colour channels go up to 65,535, and not to 255.
    pub wide: bool,
    pub ranks: u32,
    pub background: Fragment,
    pub order: Items<Rank>,
    pub layout: Layout,
    pub shapes: Items<(Rank, Shape)>,
}

impl Model for Scene {
    ghost use Rattle.std.specs.Prelude.{map};
    ghost use Rattle.icet_scene_model.specs.Scene.{SceneView};
    ghost use Rattle.icet_scene.specs.Lines.{placed_of};
    ghost use Rattle.icet_scene.specs.Scenes.{IsLawfulScene, AreShapes};

    ghost Value = { SceneView };

    ghost view = { λ s. record { mode = s.mode; wide = s.wide; ranks = s.ranks; background = s.background; order = s.order; tiles = s.layout; shapes = map placed_of s.shapes } };

    ghost invariant = { λ s. IsLawfulScene (record { mode = s.mode; wide = s.wide; ranks = s.ranks; background = s.background; order = s.order; tiles = s.layout; shapes = map placed_of s.shapes }) × AreShapes s.ranks s.shapes };
}

impl Scene {
    /// How many ranks there are.
    pub fn ranks(&self) -> u32
        ensures count { result ≡ self.now.ranks }
        ensures lawful { IsLawfulScene self.now }
    {
        self.ranks
    }

    /// The shapes of a rank, in the order of the scene.
    pub fn shapes_of(&self, alloc: Global, rank: Rank) -> Result<Vec<Shape>, NoMemory>
        ensures shapes { IfOk result (λ shapes. map drawing_of shapes.items ≡ shapes_of self.now.shapes rank) }
        ensures in_range { IfOk result (λ shapes. All IsInRange shapes.items) }
    {
        own_shapes(alloc, self.shapes.as_slice(), rank)
    }
}

/// The shapes that the rank draws, in the order given.
fn own_shapes(alloc: Global, shapes: &[(Rank, Shape)], rank: Rank) -> Result<Vec<Shape>, NoMemory>
    requires { All (λ shape. IsInRange shape.1) shapes.now }
    ensures shapes { IfOk result (λ own. map drawing_of own.items ≡ shapes_of (map placed_of shapes.now) rank) }
    ensures in_range { IfOk result (λ own. All IsInRange own.items) }
{
    let mut own = Vec::new(alloc);
    for (drawer, shape) in shapes {
        if *drawer == rank {
            own.push(shape.copy(alloc)?)?;
        }
    }
    Ok(own)
}
