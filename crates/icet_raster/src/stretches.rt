ghost use Rattle.std.specs.Prelude.{◌≡◌, ◌≢◌, ℕ, ◌+◌, ◌<◌, ◌≤◌};
ghost use Rattle.icet_scene_model.specs.Triangles.{centre, covers};
ghost use Rattle.icet_raster.specs.Walks.{AreValues, IsWalk, walked};

use crate::walks::{Values, Walk, is_covered, next_values};

/// A column of a row, counted from the area's left edge, and the edges' values there.
#[derive(Clone, Copy)]
pub(crate) struct Reached {
    pub column: u32,
    pub values: Values,
}

/// Where a stretch of pixels that are covered ends, or one of those that aren't: at the first pixel that differs, or at
/// column `to`. The area begins in column `left` of the display, and the row is its row `y`.
#[inline(always)]
pub(crate) fn stretch_end(
    walk: &Walk,
    from: Reached,
    covered: bool,
    left: u32,
    y: u32,
    to: u32,
) -> Reached
    requires walk { IsWalk walk.now }
    requires values { AreValues walk.now (left + from.column) y from.values }
    requires order { from.column ≤ to }
    requires within { left + to ≤ 16384 }
    ensures order { from.column ≤ result.column }
    ensures within { result.column ≤ to }
    ensures values { AreValues walk.now (left + result.column) y result.values }
    ensures all { (k : ℕ) → from.column ≤ k → k < result.column → covers (walked walk.now) (centre (left + k) y) ≡ covered }
    ensures stop { result.column < to → covers (walked walk.now) (centre (left + result.column) y) ≢ covered }
{
    let mut values = from.values;
    for column in from.column..to {
        if is_covered(walk, values) != covered {
            return Reached { column, values };
        }
        values = next_values(walk, values, left + column, y);
    }
    Reached { column: to, values }
}
