//! What holds of the printed text for all scenes.
ghost use Rattle.std.specs.Prelude.{◌≡◌, ◌≤◌, [], length};
ghost use Rattle.icet_model.specs.declared.limits.TheConstants.{MAX_SCENE_BYTES};
ghost use Rattle.icet_text.specs.Lines.{lines_of};
ghost use Rattle.icet_scene.specs.Scenes.{IsLawfulScene};
ghost use Rattle.icet_scene_model.specs.Printed.{printed, upgraded};
ghost use Rattle.icet_scene_model.specs.Scene.{SceneView};
ghost use Rattle.icet_scene_model.specs.Texts.{SceneText, text_behind, text_is};

/// A lawful scene's printed text is a text of the format, its length aside, and is read again as the same scene.
pub fn printed_scenes_are_read_again()
    ensures again { (scene : SceneView) → IsLawfulScene scene → text_behind [] 1 (lines_of (printed scene)) ≡ SceneText scene }
    ensures text { (scene : SceneView) → IsLawfulScene scene → length (printed scene) ≤ MAX_SCENE_BYTES → text_is (printed scene) ≡ SceneText scene }
{}

/// So is its text of version 2, which is written where its shapes are ready drawn.
pub fn upgraded_scenes_are_read_again()
    ensures again { (scene : SceneView) → IsLawfulScene scene → text_behind [] 1 (lines_of (upgraded scene)) ≡ SceneText scene }
    ensures text { (scene : SceneView) → IsLawfulScene scene → length (upgraded scene) ≤ MAX_SCENE_BYTES → text_is (upgraded scene) ≡ SceneText scene }
{}
