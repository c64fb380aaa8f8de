//! What holds of drawn images and of the boxes of what is drawn, for all values.
ghost use Rattle.std.specs.Prelude.{◌≡◌, ◌<◌, ◌+◌, pos, ℕ, ◌*◌, List, None, Some, false, not, replicate, true};
ghost use Rattle.icet_model.specs.declared.names.Mode.{Mode};
ghost use Rattle.icet_model.specs.Pixel.{FragmentView};
ghost use Rattle.icet_model.specs.Tiles.{Area};
ghost use Rattle.icet_scene_model.specs.declared.spot.Spot.{Spot};
ghost use Rattle.icet_scene_model.specs.Triangles.{Corner, Triangle, centre, covers, weights};
ghost use Rattle.icet_scene_model.specs.Boxes.{bounds, box, reaches_into};
ghost use Rattle.icet_scene_model.specs.Raster.{Drawing, Tri, drawn, full_image, gives};
ghost use Rattle.icet_scene_model.specs.Examples.{lower_half, upper_half};
ghost use Rattle.icet_raster.specs.Boxes.{CoversPixel};
ghost use Rattle.icet_raster.specs.SharedEdge.{ShareEdge, LiesBetween};

/// Where a fragment is drawn, the shapes have a box, and the fragment's pixel lies in it.
pub fn drawn_lies_in_the_box()
    ensures { (mode : Mode) (shapes : List Drawing) (x y : ℕ) (fragment : FragmentView) → drawn mode shapes x y ≡ Some fragment → CoversPixel (box shapes) x y }
{}

/// Nothing is drawn into an area that the shapes' box doesn't meet.
pub fn outside_is_blank()
    ensures { (mode : Mode) (shapes : List Drawing) (area : Area) → reaches_into (box shapes) area ≡ false → full_image mode shapes area ≡ replicate (area.w * area.h) None }
{}

/// Of two triangles that share two corners and lie on the two sides of that edge, no spot is covered by
/// both, and a spot strictly between the shared corners is covered by exactly one.
pub fn shared_edge()
    ensures never_both { (one other : Triangle) (shared : ShareEdge one other) (at : Spot) → covers one at ≡ true → covers other at ≡ true → ⊥ }
    ensures exactly_one { (one other : Triangle) (shared : ShareEdge one other) (at : Spot) → LiesBetween shared.p shared.q at → covers other at ≡ not (covers one at) }
{}

/// A pixel whose centre a triangle covers lies in the triangle's box.
pub fn covered_lies_in_the_box()
    ensures { (t : Triangle) (x y : ℕ) → covers t (centre x y) ≡ true → CoversPixel (bounds (Tri t)) x y }
{}

/// At a covered spot the weights sum up to the doubled area, which isn't 0.
pub fn weights_sum_up()
    ensures sum { (t : Triangle) (at : Spot) → covers t at ≡ true → (weights t at).a + (weights t at).b + (weights t at).c ≡ (weights t at).whole }
    ensures some { (t : Triangle) (at : Spot) → covers t at ≡ true → 0 < (weights t at).whole }
{}

/// A triangle gives the same at each pixel where its last two corners are exchanged.
pub fn either_winding()
    ensures { (a b c : Corner) (x y : ℕ) → gives (Tri (record { a = a; b = b; c = c })) x y ≡ gives (Tri (record { a = a; b = c; c = b })) x y }
{}

/// The two halves of a square share an edge, and the centre of pixel (1, 0) lies strictly inside it.
pub fn worked_edge()
    ensures shared { ShareEdge upper_half lower_half }
    ensures between { LiesBetween (record { x = pos 32; y = pos 0 }) (record { x = pos 0; y = pos 32 }) (centre 1 0) }
{}
