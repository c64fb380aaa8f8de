//! What holds of all scenes that are ready drawn.
ghost use Rattle.std.specs.Prelude.{◌≡◌, ◌<◌, ℕ, AllPairs};
ghost use Rattle.std.specs.List.{Contains};
ghost use Rattle.icet_model.specs.Tiles.{TileView};
ghost use Rattle.icet_scene.specs.Scenes.{IsLawfulScene};
ghost use Rattle.icet_scene_model.specs.Jobs.{shapes_of};
ghost use Rattle.icet_scene_model.specs.Raster.{full_image};
ghost use Rattle.icet_scene_model.specs.Ready.{ready_scene};
ghost use Rattle.icet_scene_model.specs.Scene.{SceneView};
ghost use Rattle.icet_upgrade.specs.Apart.{StandApart};

/// The image of each rank and tile stays.
pub fn images_stay()
    ensures { (scene : SceneView) (rank : ℕ) (tile : TileView) → IsLawfulScene scene → rank < scene.ranks → Contains scene.tiles tile
        → full_image scene.mode (shapes_of (ready_scene scene).shapes rank) tile.area ≡ full_image scene.mode (shapes_of scene.shapes rank) tile.area }
{}

/// Of two spans of a rank in one row the later one begins behind the end of the earlier, with a pixel between them or
/// more.
pub fn runs_are_maximal()
    ensures { (scene : SceneView) → AllPairs StandApart (ready_scene scene).shapes }
{}

/// A lawful scene is lawful with its shapes ready drawn.
pub fn ready_scenes_are_lawful()
    ensures { (scene : SceneView) → IsLawfulScene scene → IsLawfulScene (ready_scene scene) }
{}
