//! The definitions on small scenes worked by hand, evaluated by the prover.
ghost use Rattle.std.specs.Prelude.{pos, negsuc, ◌≡◌, ◌-◌, [], ◌∷◌, ◌++◌, None, Some, codes, true, false};
ghost use Rattle.icet_model.specs.declared.names.Mode.TheVariants.{Depth, Blend, WideBlend};
ghost use Rattle.icet_model.specs.declared.bracket.Bracket.TheVariants.{Leaf, Pair};
ghost use Rattle.icet_scene_model.specs.Raster.{Point, Span, Tri, drawn, full_image, gives};
ghost use Rattle.icet_scene_model.specs.Boxes.{bounds, box, contributors, meets};
ghost use Rattle.icet_scene_model.specs.Picture.{header, picture_text, pixel_bytes};
ghost use Rattle.icet_scene_model.specs.Ready.{ready_scene, ready_shapes, stretches};
ghost use Rattle.icet_scene_model.specs.Scene.{clear};
ghost use Rattle.icet_scene_model.specs.Jobs.{composite_text, plain_picture};
ghost use Rattle.icet_model.specs.Examples.{grey, red};
ghost use Rattle.icet_scene_model.specs.Examples.{area, beside, corner, deep_red, diagonal, diagonal_pixels, flat_triangle, four_boxes, halves, header_text, lower_half, lower_pixels, one_point, opaque_red, over_the_edge, pale, pale_and_grey, rect, reds, seam, shaded_half, span, spans, square, tie, tie_bracket, tile, turned_half, two_greys, upper_half, upper_pixels};

/// A point is at its own pixel alone, and of two shapes of a rank at equal depth the earlier one is
/// seen. The image of an area goes row by row from its top left pixel.
pub fn one_rank()
    ensures elsewhere { drawn Depth (Point 5 3 (grey 1 7) ∷ []) 3 5 ≡ None }
    ensures earlier { drawn Depth (Point 5 3 (grey 1 7) ∷ Point 5 3 (grey 2 7) ∷ []) 5 3 ≡ Some (grey 1 7) }
    ensures nearer { drawn Depth (Point 5 3 (grey 1 7) ∷ Point 5 3 (grey 2 6) ∷ []) 5 3 ≡ Some (grey 2 6) }
    ensures rows { full_image Depth diagonal (area 4 2 2 2) ≡ diagonal_pixels }
{}

/// By blending the later shape is the front, and one of alpha 0 is left out.
pub fn blended_shapes()
    ensures later { drawn Blend (Point 5 3 (red 100 255) ∷ Point 5 3 (red 1 128) ∷ []) 5 3 ≡ Some (red 50 255) }
    ensures clear { drawn Blend (Point 5 3 (red 0 0) ∷ []) 5 3 ≡ None }
    ensures behind { drawn Blend (Point 5 3 (red 9 9) ∷ Point 5 3 (red 0 0) ∷ []) 5 3 ≡ Some (red 9 9) }
    ensures by_depth { drawn Depth (Point 5 3 (red 0 0) ∷ Point 5 3 (red 9 9) ∷ []) 5 3 ≡ Some (red 0 0) }
{}

/// Two triangles that share an edge cover each pixel once, also where its centre lies on the edge. The
/// shade is the mean of the corners, rounded down, and the same where the last two are exchanged.
pub fn triangles()
    ensures upper { full_image Depth (Tri upper_half ∷ []) square ≡ upper_pixels }
    ensures lower { full_image Depth (Tri lower_half ∷ []) square ≡ lower_pixels }
    ensures shade { gives (Tri shaded_half) 0 0 ≡ Some (opaque_red 101 6) }
    ensures exchanged { gives (Tri turned_half) 0 0 ≡ Some (opaque_red 101 6) }
    ensures frame { bounds (Tri shaded_half) ≡ Some (record { x = pos 0; y = pos 0; w = 3; h = 3 }) }
    ensures flat { bounds (Tri flat_triangle) ≡ None }
    ensures negative { bounds (Tri over_the_edge) ≡ Some (record { x = negsuc 0; y = negsuc 1; w = 4; h = 4 }) }
{}

/// A span gives its paints from left to right in its row.
pub fn spans()
    ensures row { full_image Depth (Span 1 1 two_greys ∷ []) square ≡ (None ∷ None ∷ None ∷ Some (grey 1 7) ∷ []) }
    ensures frame { bounds (Span 5 3 two_greys) ≡ Some (beside (pos 5) (pos 3) 2 1) }
{}

/// The picture text: the header, and four samples a pixel. By depth the bracket doesn't show; by blending it does,
/// since each join is rounded down.
pub fn pictures()
    ensures header { header false 1920 1080 ≡ header_text }
    ensures samples { picture_text false Depth pale 2 1 (None ∷ Some (grey 9 7) ∷ []) ≡ header false 2 1 ++ pale_and_grey }
    ensures wide { pixel_bytes true WideBlend clear (Some (deep_red 49 65535)) ≡ (0 ∷ 49 ∷ 0 ∷ 0 ∷ 0 ∷ 0 ∷ 255 ∷ 255 ∷ []) }
    ensures tie_pixels { plain_picture tie (tile 0 0 1 1 0) tie_bracket ≡ (Some (grey 1 7) ∷ []) }
    ensures one_point { composite_text one_point (Leaf 0 ∷ []) ≡ header false 1 1 ++ (10 ∷ 20 ∷ 30 ∷ 255 ∷ []) }
    ensures reds_from_left { plain_picture reds (tile 0 0 1 1 0) (Pair (Pair (Leaf 1) (Leaf 2)) (Leaf 3)) ≡ (Some (red 25 255) ∷ []) }
    ensures reds_in_pairs { plain_picture reds (tile 0 0 1 1 0) (Pair (Pair (Leaf 0) (Leaf 1)) (Pair (Leaf 2) (Leaf 3))) ≡ (Some (red 24 255) ∷ []) }
    ensures tie { composite_text tie (tie_bracket ∷ []) ≡ header false 1 1 ++ (1 ∷ 1 ∷ 1 ∷ 255 ∷ []) }
{}

/// Two points on a diagonal have a box of nine pixels, which meets tiles that neither point is on. Of
/// two neighbouring tiles a rank contributes to the one that its box meets.
pub fn boxes()
    ensures none { box [] ≡ None }
    ensures one { box (Point 5 3 (grey 1 7) ∷ []) ≡ Some (record { x = pos 5; y = pos 3; w = 1; h = 1 }) }
    ensures two { box (Point 5 3 (grey 1 7) ∷ Point 3 5 (grey 1 7) ∷ []) ≡ Some (rect (pos 3) 3 3) }
    ensures corner { meets (rect (pos 3) 3 3) (rect (pos 5) 9 9) ≡ true }
    ensures beside { meets (rect (pos 3) 3 3) (beside (pos 6) (pos 3) 9 9) ≡ false }
    ensures negative { meets (beside (negsuc 1) (pos 3) 3 3) (beside (pos 0) (pos 3) 1 1) ≡ true }
    ensures empty { meets (rect (pos 3) 0 3) (rect (pos 0) 9 9) ≡ false }
    ensures in_order { contributors four_boxes (2 ∷ 1 ∷ 0 ∷ 3 ∷ []) (area 0 0 4 1) ≡ (2 ∷ 0 ∷ []) }
{}

/// A scene's shapes ready drawn: a span for each maximal run of a rank's fragments in a row. A run goes on where one tile
/// ends and the next begins, a pixel of two tiles counts once, and what no tile shows is left out.
pub fn ready_scenes()
    ensures halves { ready_scene halves ≡ spans }
    ensures seam { ready_shapes seam ≡ span 1 1 0 (grey 7 7 ∷ grey 8 7 ∷ []) ∷ [] }
    ensures runs { stretches 5 (None ∷ Some (grey 1 7) ∷ Some (grey 2 7) ∷ None ∷ Some (grey 3 7) ∷ []) ≡ (record { column = 6; paints = two_greys } ∷ record { column = 9; paints = grey 3 7 ∷ [] } ∷ []) }
{}
