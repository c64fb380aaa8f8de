//! The definitions on small values worked by hand, evaluated by the prover.
ghost use Rattle.std.specs.Prelude.{◌≡◌, [], ◌∷◌, None, Some};
ghost use Rattle.icet_model.specs.declared.names.Mode.TheVariants.{Depth, Blend, WideBlend};
ghost use Rattle.icet_model.specs.declared.bracket.Bracket.TheVariants.{Empty, Leaf, Pair};
ghost use Rattle.icet_model.specs.Pixel.{finished, joined};
ghost use Rattle.icet_model.specs.Composite.{plain_composite};
ghost use Rattle.icet_model.specs.Bracket.{leaves, value};
ghost use Rattle.icet_model.specs.BracketFold.{left};
ghost use Rattle.icet_model.specs.Replay.{replay_from};
ghost use Rattle.icet_model.specs.Examples.{at_start, blank_image, cut_short_lines, equally_near, from_the_back, from_the_front, grey, last_two_tie, later_are_nearer, one_message, one_message_lines, one_pixel, red, three_images, three_reds, two_tiles, two_tiles_lines, two_tiles_schedule};

/// By depth the nearer of two pixels is seen, the front one at equal depth, and the only one alone.
pub fn two_pixels()
    ensures nearer_front { joined Depth (Some (grey 1 4)) (Some (grey 2 5)) ≡ Some (grey 1 4) }
    ensures nearer_back { joined Depth (Some (grey 1 6)) (Some (grey 2 5)) ≡ Some (grey 2 5) }
    ensures tie { joined Depth (Some (grey 1 5)) (Some (grey 2 5)) ≡ Some (grey 1 5) }
    ensures front { joined Depth (Some (grey 1 5)) None ≡ Some (grey 1 5) }
    ensures back { joined Depth None (Some (grey 2 5)) ≡ Some (grey 2 5) }
    ensures none { joined Depth None None ≡ None }
    ensures shown { finished Depth (Some (grey 1 5)) (grey 9 0) ≡ (1 ∷ 1 ∷ 1 ∷ 255 ∷ []) }
    ensures background { finished Depth None (grey 9 0) ≡ (9 ∷ 9 ∷ 9 ∷ 255 ∷ []) }
{}

/// By blending the front is seen over the other, and the background behind both. Every quotient is
/// rounded down, an opaque front hides what is behind it, and one of alpha 0 nothing.
pub fn two_blended_pixels()
    ensures narrow { joined Blend (Some (red 1 128)) (Some (red 100 255)) ≡ Some (red 50 255) }
    ensures wide { joined WideBlend (Some (red 0 32768)) (Some (red 100 65535)) ≡ Some (red 49 65535) }
    ensures none { joined Blend None (Some (red 1 128)) ≡ Some (red 1 128) }
    ensures opaque { joined Blend (Some (grey 1 9)) (Some (grey 2 5)) ≡ Some (grey 1 9) }
    ensures clear { joined Blend (Some (red 0 0)) (Some (red 3 4)) ≡ Some (red 3 4) }
    ensures beyond { joined Blend (Some (red 7 300)) (Some (red 3 4)) ≡ Some (red 7 300) }
    ensures shown { finished WideBlend (Some (red 0 32768)) (red 100 65535) ≡ (49 ∷ 0 ∷ 0 ∷ 65535 ∷ []) }
    ensures background { finished Blend None (red 3 4) ≡ (3 ∷ 0 ∷ 0 ∷ 4 ∷ []) }
{}

/// Three fragments that are blended in one order and in two brackets, which differ by one step of red.
/// By depth the bracket doesn't matter.
pub fn three_blended_pixels()
    ensures front_first { plain_composite Blend from_the_front three_reds 1 ≡ (Some (red 25 255) ∷ []) }
    ensures back_first { plain_composite Blend from_the_back three_reds 1 ≡ (Some (red 24 255) ∷ []) }
    ensures by_depth { plain_composite Depth Empty three_reds 1 ≡ (Some (red 0 128) ∷ []) }
{}

/// The plain composite of several ranks: at each pixel the nearest, a tie to the lowest rank.
pub fn several_ranks()
    ensures blank { plain_composite Depth Empty (blank_image ∷ blank_image ∷ blank_image ∷ []) 2 ≡ blank_image }
    ensures tie { plain_composite Depth Empty (one_pixel 1 7 ∷ one_pixel 2 7 ∷ []) 1 ≡ one_pixel 1 7 }
    ensures nearest { plain_composite Depth Empty three_images 2 ≡ (Some (grey 2 4) ∷ Some (grey 1 3) ∷ []) }
    ensures last_tie { plain_composite Depth Empty last_two_tie 1 ≡ one_pixel 2 5 }
{}

/// The fold from the left, a bracket's leaves from the front to the back, and its value.
pub fn brackets()
    ensures none { left [] ≡ Empty }
    ensures one { left (Leaf 4 ∷ []) ≡ Leaf 4 }
    ensures three { left (Leaf 1 ∷ Leaf 2 ∷ Leaf 3 ∷ []) ≡ Pair (Pair (Leaf 1) (Leaf 2)) (Leaf 3) }
    ensures in_order { leaves (Pair (Leaf 1) (Pair (Leaf 0) (Leaf 3))) ≡ (1 ∷ 0 ∷ 3 ∷ []) }
    ensures front { value Depth equally_near (Pair (Leaf 1) (Leaf 0)) 0 0 ≡ Some (grey 1 7) }
    ensures nearer { value Depth later_are_nearer (Pair (Leaf 1) (Pair Empty (Leaf 3))) 0 1 ≡ Some (grey 3 6) }
{}

/// Replays where each ring holds one message: of a message from rank 1 to rank 0, and of two tiles joined one
/// after the other, where a sender waits for its ring and a taker for its message.
pub fn replays()
    ensures in_order { replay_from one_message 1 at_start (0 ∷ 1 ∷ 0 ∷ 1 ∷ 0 ∷ []) ≡ one_message_lines }
    ensures cut_short { replay_from one_message 1 at_start (0 ∷ 2 ∷ []) ≡ cut_short_lines }
    ensures several_rounds { replay_from two_tiles 1 at_start two_tiles_schedule ≡ two_tiles_lines }
{}
