ghost use Rattle.std.specs.Prelude.{◌≡◌, ℕ, ◌<◌, ◌≤◌, ◌+◌, ◌*◌, ◌/◌, All, true};
ghost use Rattle.icet_scene_model.specs.Triangles.{covers, mean, mixed, weights};
ghost use Rattle.icet_raster.specs.Shapes.{IsCorner, IsOnPlane, triangle_of};
ghost use Rattle.icet_raster.specs.Triangles.{AreWeights, weights_of};

use crate::edge::{Spots, edge_value, spots_of};
use crate::shape::Vertex;
use icet_pixel::Fragment;
use icet_scene_model::spot::Spot;

/// How much each corner weighs at a spot, the sum of these, and about 2^64 times the inverse of that sum,
/// by which quotients are guessed.
#[derive(Clone, Copy)]
pub(crate) struct Weights {
    pub a: u64,
    pub b: u64,
    pub c: u64,
    pub whole: u64,
    pub inverse: u64,
}

/// The corners' weights at a spot that the triangle covers.
pub(crate) fn weigh(tri: &[Vertex; 3], at: Spot) -> Weights
    requires corners { All IsCorner tri.now }
    requires at { IsOnPlane at }
    requires covered { covers (triangle_of tri.now) at ≡ true }
    ensures value { weights_of result ≡ weights (triangle_of tri.now) at }
    ensures sum { AreWeights result }
{
    let Spots { a, b, c } = spots_of(tri);
    let first = edge_value(b, c, at);
    let second = edge_value(c, a, at);
    let third = edge_value(a, b, at);
    let area = edge_value(a, b, c);
    Weights {
        a: first.unsigned_abs(),
        b: second.unsigned_abs(),
        c: third.unsigned_abs(),
        whole: area.unsigned_abs(),
        inverse: inverse_of(area.unsigned_abs()),
    }
}

/// The means of what three fragments have.
pub(crate) fn mixed(weights: Weights, a: Fragment, b: Fragment, c: Fragment) -> Fragment
    requires { AreWeights weights }
    ensures { result ≡ mixed (weights_of weights) a b c }
{
    let red = channel(weights, a.r(), b.r(), c.r());
    let green = channel(weights, a.g(), b.g(), c.g());
    let blue = channel(weights, a.b(), b.b(), c.b());
    let alpha = channel(weights, a.a(), b.a(), c.a());
    let depth = mean(weights, a.z(), b.z(), c.z());
    Fragment::of(red, green, blue, alpha, depth)
}

/// The mean of a channel.
fn channel(weights: Weights, a: u16, b: u16, c: u16) -> u16
    requires { AreWeights weights }
    ensures value { result ≡ mean (weights_of weights) a b c }
    ensures order { (x y z : ℕ) → a ≤ x → b ≤ y → c ≤ z → result ≤ mean (weights_of weights) x y z }
{
    mean(weights, u32::from(a), u32::from(b), u32::from(c)) as u16
}

/// The mean of three values by these weights, rounded down.
pub(crate) fn mean(weights: Weights, a: u32, b: u32, c: u32) -> u32
    requires weights { AreWeights weights }
    requires a { a ≤ 16777214 }
    requires b { b ≤ 16777214 }
    requires c { c ≤ 16777214 }
    ensures value { result ≡ mean (weights_of weights) a b c }
    ensures most { (most : ℕ) → a ≤ most → b ≤ most → c ≤ most → result ≤ most }
{
    quotient(sum_of(weights, a, b, c), weights.whole, weights.inverse) as u32
}

/// The sum of three values by these weights.
pub(crate) fn sum_of(weights: Weights, a: u32, b: u32, c: u32) -> u64
    requires weights { AreWeights weights }
    requires a { a ≤ 16777214 }
    requires b { b ≤ 16777214 }
    requires c { c ≤ 16777214 }
    ensures value { result ≡ weights.a * a + weights.b * b + weights.c * c }
    ensures small { result < 9223372036854775808 }
{
    weights.a * u64::from(a) + weights.b * u64::from(b) + weights.c * u64::from(c)
}

/// About 2^64 times the inverse of a number; nothing rests on how good it is.
pub(crate) fn inverse_of(number: u64) -> u64 {
    if number == 0 { 0 } else { u64::MAX / number }
}

/// The quotient of a sum by the whole weight: guessed by the inverse, which saves the division wherever
/// the guess passes the test.
pub(crate) fn quotient(sum: u64, whole: u64, inverse: u64) -> u64
    requires some { 0 < whole }
    requires small { whole ≤ 549751619592 }
    ensures { result ≡ sum / whole }
{
    let guess = ((u128::from(sum) * u128::from(inverse)) >> 64) as u64;
    if guess <= 16777214 {
        let least = guess * whole;
        if least <= sum {
            let rest = sum - least;
            if rest < whole {
                return guess;
            }
            if rest - whole < whole {
                return guess + 1;
            }
        }
    }
    sum / whole
}
