ghost use Rattle.std.specs.Prelude.{◌≡◌, ◌↔◌, ◌≤ℤ◌, ◌<ℤ◌, ◌+ℤ◌, pos, IsTrue};
ghost use Rattle.std.specs.Int.{int_max, int_min};
ghost use Rattle.std.specs.Int.Signed.{lt_z};
ghost use Rattle.icet_scene_model.specs.Boxes.{HasPixel, Meet, meets};

use icet_base::Rect;

/// Whether the pixel at `x` and `y` lies in the rectangle.
pub fn contains(area: Rect, x: i32, y: i32) -> bool
    ensures { IsTrue result ↔ HasPixel area x y }
{
    is_among(x, area.x, area.w) && is_among(y, area.y, area.h)
}

/// Whether some pixel lies in both rectangles.
pub fn meet(one: Rect, other: Rect) -> bool
    ensures test { result ≡ meets one other }
    ensures exact { IsTrue result ↔ Meet one other }
{
    overlap(one.x, one.w, other.x, other.w) && overlap(one.y, one.h, other.y, other.h)
}

/// Whether a number is one of `count` from `first` on.
fn is_among(number: i32, first: i32, count: u32) -> bool
    ensures { IsTrue result ↔ ((first ≤ℤ number) × (number <ℤ (first +ℤ pos count))) }
{
    first <= number && i64::from(number) < end(first, count)
}

/// Whether some number is one of `count` from `first` on and one of `other_count` from `other_first` on.
fn overlap(first: i32, count: u32, other_first: i32, other_count: u32) -> bool
    ensures { result ≡ lt_z (int_max first other_first) (int_min (first +ℤ pos count) (other_first +ℤ pos other_count)) }
{
    let from = i64::from(first).max(i64::from(other_first));
    from < end(first, count).min(end(other_first, other_count))
}

/// The number after `count` of them from `first` on, which may not fit 32 bits.
fn end(first: i32, count: u32) -> i64
    ensures { result ≡ first +ℤ pos count }
{
    i64::from(first) + i64::from(count)
}
