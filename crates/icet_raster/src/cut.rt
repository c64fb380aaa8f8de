ghost use Rattle.std.specs.Int.{int_max, int_min};
ghost use Rattle.std.specs.Prelude.{◌≡◌, ◌<◌, ◌≤◌, ◌+◌, ◌≤ℤ◌, ◌<ℤ◌, ◌+ℤ◌, pos, ℕ};
ghost use Rattle.icet_raster.specs.Boxes.{IsSpan};

/// The columns and the rows of an area where a shape may be seen, counted from the area's corner: from
/// the first of each up to the last, which isn't included.
#[derive(Clone, Copy, Debug, PartialEq, Eq)]
pub struct Part {
    pub from: u32,
    pub to: u32,
    pub top: u32,
    pub bottom: u32,
}

/// The part of a range, counted from its first number, that lies in another range. The ranges are given
/// by their first numbers and their counts.
pub(crate) fn cut(first: u32, count: u32, other_first: i32, other_count: u32) -> (u32, u32)
    requires range { first + count ≤ 16384 }
    requires other { IsSpan other_first other_count }
    ensures order { result.0 ≤ result.1 }
    ensures within { result.1 ≤ count }
    ensures inside { (p : ℕ) → p < count → other_first ≤ℤ pos (first + p) → pos (first + p) <ℤ (other_first +ℤ pos other_count) → (result.0 ≤ p) × (p < result.1) }
{
    let start = other_first - first as i32;
    let end = start + other_count as i32;
    (clamped(start, count), clamped(end, count))
}

/// The number, or the nearest to it from 0 to `most`.
fn clamped(number: i32, most: u32) -> u32
    requires { most ≤ 16384 }
    ensures { pos result ≡ int_min (int_max number (pos 0)) (pos most) }
{
    number.max(0).min(most as i32) as u32
}
