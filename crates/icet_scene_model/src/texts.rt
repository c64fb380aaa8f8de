//! What texts are, worked by hand and evaluated by the prover: their scenes and faults.
ghost use Rattle.std.specs.Prelude.{◌≡◌, [], ◌++◌, codes};
ghost use Rattle.icet_scene_model.specs.Texts.{SceneText, Refused, text_is};
ghost use Rattle.icet_scene_model.specs.FaultLines.{scene_line};
ghost use Rattle.icet_scene_model.specs.declared.fault.Want.TheVariants.{Head, Mode, Ranks, Order, Tile, End};
ghost use Rattle.icet_scene_model.specs.declared.fault.SceneFault.TheVariants.{TooLong, BadByte, BadLine, OutOfPlace, OutOfRange, NotPremultiplied, RankTaken, BadOrder, Missing, TooLarge};
ghost use Rattle.icet_scene_model.specs.Examples.{one_point, one_point_text, one_tile_text, point_text, depth_text, second_text, tie, tie_text, spans, spans_text, wide_text, wide_reds, tri_text, one_triangle, cut_text};

/// Texts that are scenes.
pub fn scenes()
    ensures one_point { text_is one_point_text ≡ SceneText one_point }
    ensures no_newline { text_is (one_tile_text (codes "point 0 0 0 7 10 20 30 255\nend")) ≡ SceneText one_point }
    ensures two_ranks { text_is tie_text ≡ SceneText tie }
    ensures comment_and_triangle { text_is tri_text ≡ SceneText one_triangle }
    ensures spans { text_is (second_text spans_text) ≡ SceneText spans }
    ensures wide { text_is wide_text ≡ SceneText wide_reds }
{}

/// A text that is cut off: the line that is no longer one, or what had to come.
pub fn cuts()
    ensures at_0 { text_is (cut_text 0) ≡ Refused (Missing Head) }
    ensures at_1 { text_is (cut_text 1) ≡ Refused (BadLine 1) }
    ensures at_11 { text_is (cut_text 11) ≡ Refused (BadLine 1) }
    ensures at_12 { text_is (cut_text 12) ≡ Refused (Missing Mode) }
    ensures at_14 { text_is (cut_text 14) ≡ Refused (BadLine 2) }
    ensures at_24 { text_is (cut_text 24) ≡ Refused (Missing Ranks) }
    ensures at_30 { text_is (cut_text 30) ≡ Refused (BadLine 3) }
    ensures at_31 { text_is (cut_text 31) ≡ Refused (Missing Tile) }
    ensures at_45 { text_is (cut_text 45) ≡ Refused (BadLine 4) }
    ensures at_46 { text_is (cut_text 46) ≡ Refused (Missing End) }
    ensures at_70 { text_is (cut_text 70) ≡ Refused (BadLine 5) }
    ensures at_71 { text_is (cut_text 71) ≡ Refused (NotPremultiplied 5) }
    ensures at_74 { text_is (cut_text 74) ≡ Refused (Missing End) }
    ensures at_75 { text_is (cut_text 75) ≡ Refused (BadLine 6) }
    ensures at_77 { text_is (cut_text 77) ≡ SceneText one_point }
{}

/// Numbers at the ends of their ranges and past them, and numerals that are none.
pub fn ranges()
    ensures depth { text_is (point_text (codes "16777215 10 20 30 255")) ≡ Refused (OutOfRange 5) }
    ensures no_rank { text_is (depth_text (codes "ranks 0\n")) ≡ Refused (OutOfRange 3) }
    ensures many_ranks { text_is (depth_text (codes "ranks 65\n")) ≡ Refused (OutOfRange 3) }
    ensures more_ranks { text_is (second_text (codes "mode depth\nranks 257\n")) ≡ Refused (OutOfRange 3) }
    ensures most_ranks { text_is (second_text (codes "mode depth\nranks 256\n")) ≡ Refused (Missing Tile) }
    ensures maxval { text_is (second_text (codes "mode depth\nranks 1\nmaxval 1000\n")) ≡ Refused (OutOfRange 4) }
    ensures version { text_is (codes "icet-scene 3\n" ++ spans_text) ≡ Refused (OutOfRange 1) }
    ensures edge { text_is (depth_text (codes "ranks 1\ntile 16383 0 2 1 0\n")) ≡ Refused (OutOfRange 4) }
    ensures long_span { text_is (second_text (codes "mode depth\nranks 1\ntile 0 0 1 1 0\nspan 0 16383 0 5 1 1 1 1 5 1 1 1 1\n")) ≡ Refused (OutOfRange 5) }
    ensures display_beyond { text_is (depth_text (codes "ranks 2\ntile 0 0 1 1 2\n")) ≡ Refused (OutOfRange 4) }
    ensures negative { text_is (depth_text (codes "ranks -5\n")) ≡ Refused (OutOfRange 3) }
    ensures leading_zero { text_is (depth_text (codes "ranks 01\n")) ≡ Refused (BadLine 3) }
    ensures two_spaces { text_is (codes "icet-scene 1\nmode  depth\n") ≡ Refused (BadLine 2) }
{}

/// Lines out of their places and forms, and of two faults of a line the first one.
pub fn places()
    ensures carriage_return { text_is (codes "icet-scene 1\r\n") ≡ Refused (BadByte 1) }
    ensures in_a_comment { text_is (codes "#\t\n") ≡ Refused (BadByte 1) }
    ensures span_of_version_1 { text_is (codes "icet-scene 1\n" ++ spans_text) ≡ Refused (BadLine 5) }
    ensures maxval_first { text_is (codes "maxval 255\n") ≡ Refused (BadLine 1) }
    ensures order_by_depth { text_is (depth_text (codes "ranks 3\norder 0 1 2\n")) ≡ Refused (OutOfPlace 4) }
    ensures tile_without_order { text_is (codes "icet-scene 1\nmode blend\nranks 3\ntile 0 0 1 1 0\n") ≡ Refused (OutOfPlace 4) }
    ensures behind_end { text_is (one_tile_text (codes "end\nend\n")) ≡ Refused (OutOfPlace 6) }
    ensures form_before_place { text_is (codes "tile 1\n") ≡ Refused (BadLine 1) }
    ensures place_before_range { text_is (codes "tile 0 0 0 0 0\n") ≡ Refused (OutOfPlace 1) }
    ensures range_before_colour { text_is (point_text (codes "0 9 9 256 8")) ≡ Refused (OutOfRange 5) }
{}

/// Colours, display ranks and orders that break their rules.
pub fn rules()
    ensures colour { text_is (point_text (codes "5 200 0 0 100")) ≡ Refused (NotPremultiplied 5) }
    ensures order { text_is (codes "icet-scene 1\nmode blend\nranks 3\norder 0 2 2\n") ≡ Refused (BadOrder 4) }
    ensures short_order { text_is (codes "icet-scene 1\nmode blend\nranks 3\norder 0 2\n") ≡ Refused (BadOrder 4) }
    ensures taken { text_is (depth_text (codes "ranks 1\ntile 0 0 1 1 0\ntile 1 0 1 1 0\n")) ≡ Refused (RankTaken 5) }
    ensures missing_order { text_is (codes "icet-scene 1\nmode blend\nranks 3\n") ≡ Refused (Missing Order) }
    ensures size { text_is (depth_text (codes "ranks 64\ntile 0 0 1024 1025 0\nend\n")) ≡ Refused TooLarge }
{}

/// The lines that the notes get.
pub fn fault_lines()
    ensures range { scene_line (OutOfRange 5) ≡ codes "icet: line 5: number out of range\n" }
    ensures form { scene_line (BadLine 12) ≡ codes "icet: line 12: not a line of the format\n" }
    ensures head { scene_line (Missing Head) ≡ codes "icet: missing head\n" }
    ensures too_long { scene_line TooLong ≡ codes "icet: scene longer than 67108864 bytes\n" }
{}
