//! What holds of the definitions of pixels for all values.
ghost use Rattle.std.specs.Prelude.{Some, None};
ghost use Rattle.icet_model.specs.declared.names.Mode.TheVariants.{Depth, Blend};
ghost use Rattle.icet_model.specs.Pixel.{Pixel, IsNarrow, joined};

/// Pixels that fit samples of one byte do so joined, by depth and by blending where 255 is opaque.
pub fn narrow()
    ensures depth { (front back : Pixel) → IsNarrow front → IsNarrow back → IsNarrow (joined Depth front back) }
    ensures blend { (front back : Pixel) → IsNarrow front → IsNarrow back → IsNarrow (joined Blend front back) }
{}
