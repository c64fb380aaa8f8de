ghost use Rattle.std.specs.Prelude.{◌≡◌, ℕ, ℤ, ◌<◌, ◌≤◌, ◌+◌, ◌*◌, ◌+ℤ◌, neg_ℤ, pos, unsigned_abs};
ghost use Rattle.icet_raster.specs.Shares.{IsShare};
ghost use Rattle.icet_raster.specs.Triangles.{AreWeights};

use crate::shading::{Weights, quotient, sum_of};

/// A sum as its quotient by the whole weight, rounded down, and what the quotient leaves.
#[derive(Clone, Copy)]
pub(crate) struct Share {
    pub quotient: i64,
    pub rest: u64,
}

/// The share of three values by these weights.
pub(crate) fn share_by(weights: Weights, a: u32, b: u32, c: u32) -> Share
    requires weights { AreWeights weights }
    requires a { a ≤ 16777214 }
    requires b { b ≤ 16777214 }
    requires c { c ≤ 16777214 }
    ensures share { IsShare weights.whole (pos (weights.a * a + weights.b * b + weights.c * c)) result }
    ensures small { unsigned_abs result.quotient ≤ 16777214 }
{
    share_of(sum_of(weights, a, b, c), weights.whole, weights.inverse)
}

/// The share of a sum that isn't negative.
fn share_of(sum: u64, whole: u64, inverse: u64) -> Share
    requires some { 0 < whole }
    requires whole { whole ≤ 549751619592 }
    requires sum { sum < 9223372036854775808 }
    ensures share { IsShare whole (pos sum) result }
    ensures small { unsigned_abs result.quotient ≤ sum }
{
    let quotient = quotient(sum, whole, inverse);
    Share {
        quotient: quotient as i64,
        rest: sum - quotient * whole,
    }
}

/// The share of a sum that may be negative.
pub(crate) fn signed_share_of(sum: i64, whole: u64, inverse: u64) -> Share
    requires some { 0 < whole }
    requires whole { whole ≤ 549751619592 }
    requires sum { unsigned_abs sum ≤ 422212465065982 }
    ensures share { IsShare whole sum result }
    ensures small { unsigned_abs result.quotient ≤ 422212465065983 }
{
    let share = share_of(sum.unsigned_abs(), whole, inverse);
    if sum >= 0 {
        share
    } else {
        opposite(share, whole)
    }
}

/// The share of the opposite sum.
fn opposite(share: Share, whole: u64) -> Share
    requires rest { share.rest < whole }
    requires small { unsigned_abs share.quotient ≤ 422212465065982 }
    ensures share { (sum : ℤ) → IsShare whole sum share → IsShare whole (neg_ℤ sum) result }
    ensures small { unsigned_abs result.quotient ≤ unsigned_abs share.quotient + 1 }
{
    if share.rest == 0 {
        Share {
            quotient: -share.quotient,
            rest: 0,
        }
    } else {
        Share {
            quotient: -share.quotient - 1,
            rest: whole - share.rest,
        }
    }
}

/// The share of a sum that grew by what has the share `slope`.
#[inline(always)]
pub(crate) fn grown(share: Share, slope: Share, whole: u64) -> Share
    requires whole { whole ≤ 549751619592 }
    requires rest { share.rest < whole }
    requires slope_rest { slope.rest < whole }
    requires small { unsigned_abs share.quotient ≤ 8000000000000000000 }
    requires slope_small { unsigned_abs slope.quotient ≤ 422212465065983 }
    ensures share { (sum by : ℤ) → IsShare whole sum share → IsShare whole by slope → IsShare whole (sum +ℤ by) result }
    ensures small { unsigned_abs result.quotient ≤ unsigned_abs share.quotient + 422212465065984 }
{
    let quotient = share.quotient + slope.quotient;
    let rest = share.rest + slope.rest;
    if rest >= whole {
        Share {
            quotient: quotient + 1,
            rest: rest - whole,
        }
    } else {
        Share { quotient, rest }
    }
}
