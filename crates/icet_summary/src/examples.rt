//! Worked examples, which the prover evaluates.
ghost use Rattle.std.specs.Prelude.{◌≡◌, ◌∷◌, [], Some, None, codes, false};
ghost use Rattle.icet_model.specs.declared.names.Mode.TheVariants.{Depth};
ghost use Rattle.icet_scene_model.specs.Scene.{clear};
ghost use Rattle.icet_summary.specs.Summaries.{finish, summary_text};

/// One opaque pixel, and one where nothing was drawn.
pub fn one_of_two()
    ensures { summary_text (finish false Depth clear) (record { w = 2; h = 1; pixels = Some (record { r = 10; g = 20; b = 30; a = 255; z = 7 }) ∷ None ∷ [] } ∷ []) 16 ≡ codes "tile 0 2 1 1 10 20 30 255\nweight 16\n" }
{}
