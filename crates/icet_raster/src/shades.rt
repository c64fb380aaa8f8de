ghost use Rattle.std.specs.Prelude.{◌≡◌, ◌+◌, ◌≤◌, ◌+ℤ◌, ◌*ℤ◌, pos, true, unsigned_abs};
ghost use Rattle.icet_scene_model.specs.Triangles.{centre, covers, shaded};
ghost use Rattle.icet_raster.specs.Shares.{AreShadesAt, AreSlopes, IsSlope, IsUpTo};
ghost use Rattle.icet_raster.specs.Walks.{AreValues, IsWalk, walked};

use crate::shares::{Share, grown, share_by, signed_share_of};
use crate::walks::{Values, Walk, weights_at};
use icet_pixel::Fragment;

/// The share of each channel and of the depth.
#[derive(Clone, Copy)]
pub(crate) struct Shades {
    pub r: Share,
    pub g: Share,
    pub b: Share,
    pub a: Share,
    pub z: Share,
}

/// By how much the shares grow from one pixel of a row to the next.
pub(crate) fn slopes_of(walk: &Walk) -> Shades
    requires { IsWalk walk.now }
    ensures { AreSlopes walk.now result }
{
    let Walk {
        first,
        second,
        third,
        ..
    } = *walk;
    Shades {
        r: slope(
            walk,
            u32::from(first.r()),
            u32::from(second.r()),
            u32::from(third.r()),
        ),
        g: slope(
            walk,
            u32::from(first.g()),
            u32::from(second.g()),
            u32::from(third.g()),
        ),
        b: slope(
            walk,
            u32::from(first.b()),
            u32::from(second.b()),
            u32::from(third.b()),
        ),
        a: slope(
            walk,
            u32::from(first.a()),
            u32::from(second.a()),
            u32::from(third.a()),
        ),
        z: slope(walk, first.z(), second.z(), third.z()),
    }
}

/// By how much the sum of three values by the edges' values grows.
fn slope(walk: &Walk, a: u32, b: u32, c: u32) -> Share
    requires walk { IsWalk walk.now }
    requires a { a ≤ 16777214 }
    requires b { b ≤ 16777214 }
    requires c { c ≤ 16777214 }
    ensures { IsSlope walk.now a b c result }
{
    let growth = plus(
        plus(times(walk.step_a, a), times(walk.step_b, b)),
        times(walk.step_c, c),
    );
    signed_share_of(growth, walk.whole, walk.inverse)
}

/// The sum of two products.
fn plus(one: i64, other: i64) -> i64
    requires one { unsigned_abs one ≤ 281473880425728 }
    requires other { unsigned_abs other ≤ 140736940212864 }
    ensures value { result ≡ one +ℤ other }
    ensures small { unsigned_abs result ≤ unsigned_abs one + unsigned_abs other }
{
    one + other
}

/// A step times a value.
fn times(step: i64, value: u32) -> i64
    requires step { unsigned_abs step ≤ 8388576 }
    requires value { value ≤ 16777214 }
    ensures value { result ≡ step *ℤ pos value }
    ensures small { unsigned_abs result ≤ 140736940212864 }
{
    step * i64::from(value)
}

/// The shares at a covered pixel, by its edges' values.
pub(crate) fn shades_at(walk: &Walk, values: Values, x: u32, y: u32) -> Shades
    requires walk { IsWalk walk.now }
    requires values { AreValues walk.now x y values }
    requires covered { covers (walked walk.now) (centre x y) ≡ true }
    ensures { AreShadesAt walk.now x y result }
{
    let weights = weights_at(walk, values);
    let Walk {
        first,
        second,
        third,
        ..
    } = *walk;
    Shades {
        r: share_by(
            weights,
            u32::from(first.r()),
            u32::from(second.r()),
            u32::from(third.r()),
        ),
        g: share_by(
            weights,
            u32::from(first.g()),
            u32::from(second.g()),
            u32::from(third.g()),
        ),
        b: share_by(
            weights,
            u32::from(first.b()),
            u32::from(second.b()),
            u32::from(third.b()),
        ),
        a: share_by(
            weights,
            u32::from(first.a()),
            u32::from(second.a()),
            u32::from(third.a()),
        ),
        z: share_by(weights, first.z(), second.z(), third.z()),
    }
}

/// The shares at the next pixel of the row.
#[inline(always)]
pub(crate) fn next_shades(walk: &Walk, slopes: Shades, shades: Shades, x: u32, y: u32) -> Shades
    requires walk { IsWalk walk.now }
    requires slopes { AreSlopes walk.now slopes }
    requires shades { AreShadesAt walk.now x y shades }
    requires x { x ≤ 16383 }
    ensures { AreShadesAt walk.now (x + 1) y result }
{
    Shades {
        r: grown(shades.r, slopes.r, walk.whole),
        g: grown(shades.g, slopes.g, walk.whole),
        b: grown(shades.b, slopes.b, walk.whole),
        a: grown(shades.a, slopes.a, walk.whole),
        z: grown(shades.z, slopes.z, walk.whole),
    }
}

/// What the triangle gives at a covered pixel: the quotients.
#[inline(always)]
pub(crate) fn shaded(walk: &Walk, slopes: Shades, shades: Shades, x: u32, y: u32) -> Fragment
    requires walk { IsWalk walk.now }
    requires slopes { AreSlopes walk.now slopes }
    requires shades { AreShadesAt walk.now x y shades }
    requires covered { covers (walked walk.now) (centre x y) ≡ true }
    ensures { result ≡ shaded (walked walk.now) (centre x y) }
{
    Fragment::of(
        channel(shades.r.quotient),
        channel(shades.g.quotient),
        channel(shades.b.quotient),
        channel(shades.a.quotient),
        depth(shades.z.quotient),
    )
}

#[inline(always)]
fn channel(quotient: i64) -> u16
    requires { IsUpTo 65535 quotient }
    ensures { pos result ≡ quotient }
{
    quotient as u16
}

#[inline(always)]
fn depth(quotient: i64) -> u32
    requires { IsUpTo 16777214 quotient }
    ensures { pos result ≡ quotient }
{
    quotient as u32
}
