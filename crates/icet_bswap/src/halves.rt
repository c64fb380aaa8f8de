//! Ranges cut in two, and the swappers that exchange their halves.
ghost use Rattle.std.specs.Prelude.{◌≡◌, ◌+◌, ◌≤◌, ◌<◌, ◌^◌};
ghost use Rattle.icet_bswap.specs.Bswap.{half, middle, other, partner, range, side};

use icet_legs::Range;

// where a range is cut
pub(crate) fn middle(range: Range) -> u32
    requires { range.lo ≤ range.hi }
    ensures { result ≡ middle (range.lo, range.hi) }
{
    range.lo + (range.hi - range.lo) / 2
}

// the lower half for side 0, the upper one for side 1
pub(crate) fn half(range: Range, side: u32) -> Range
    requires order { range.lo ≤ range.hi }
    requires side { side < 2 }
    ensures part { (result.lo, result.hi) ≡ half side (range.lo, range.hi) }
    ensures order { result.lo ≤ result.hi }
{
    let middle = middle(range);
    if side == 0 {
        Range {
            lo: range.lo,
            hi: middle,
        }
    } else {
        Range {
            lo: middle,
            hi: range.hi,
        }
    }
}

// on which side swapper s is in round i, with w = 2^i
pub(crate) fn side_of(s: u32, i: u32, w: u32) -> u32
    requires { w ≡ 2 ^ i }
    ensures side { result ≡ side i s }
    ensures low { result < 2 }
{
    s / w % 2
}

pub(crate) fn other_side(side: u32) -> u32
    requires { side < 2 }
    ensures other { result ≡ other side }
    ensures low { result < 2 }
{
    if side == 0 { 1 } else { 0 }
}

// the swapper with which s exchanges in round i, with w = 2^i
pub(crate) fn partner_of(s: u32, i: u32, w: u32) -> u32
    requires wide { w ≡ 2 ^ i }
    requires low { s + w < 2 ^ 32 }
    ensures { result ≡ partner i s }
{
    if side_of(s, i, w) == 0 { s + w } else { s - w }
}

// what swapper s has of so many pixels before round m
#[tactic(auto, using(crate::proofs::ProgramSteps::range_more, crate::proofs::ProgramSteps::width_more, crate::proofs::ProgramSteps::width_below))]
pub(crate) fn range_before(pixels: u32, m: u32, s: u32) -> Range
    requires { 2 ^ m ≤ 2 ^ 16 }
    ensures range { (result.lo, result.hi) ≡ range pixels m s }
    ensures order { result.lo ≤ result.hi }
{
    let mut own = Range { lo: 0, hi: pixels };
    let mut w = 1;
    for i in 0..m {
        own = half(own, side_of(s, i, w));
        w *= 2;
    }
    own
}
