//! Powers of two around a number.
ghost use Rattle.std.specs.Prelude.{◌≡◌, ◌<◌, ◌≤◌, ◌^◌};
ghost use Rattle.icet_legs.specs.Powers.{ceil_log2, floor_log2};

/// The m-th power of two.
pub fn power(m: u32) -> u32
    requires { m < 32 }
    ensures { result ≡ 2 ^ m }
{
    1 << m
}

/// The greatest m whose power of two is at most n.
#[tactic(auto, using(crate::proofs::PowersOfTwo::floor_is))]
pub fn floor_log2(n: u32) -> u32
    requires { 0 < n }
    ensures is { result ≡ floor_log2 n }
    ensures low { result < 32 }
    ensures power { 2 ^ result ≤ n }
{
    n.ilog2()
}

/// The least m whose power of two is at least n.
pub fn ceil_log2(n: u32) -> u32
    requires { 0 < n }
    ensures is { result ≡ ceil_log2 n }
    ensures low { result ≤ 32 }
{
    let m = floor_log2(n);
    if power(m) == n { m } else { m + 1 }
}
