ghost use Rattle.std.specs.Prelude.{◌≡◌, ◌<◌, ◌≤◌};
ghost use Rattle.icet_legs.specs.Powers.{floor_log2};
ghost use Rattle.icet_bswap.specs.Bswap.{fold_count, seat, swapper};
ghost use Rattle.icet_model.specs.declared.limits.TheConstants.{MAX_RANKS};

use icet_legs::powers::{floor_log2, power};

/// Of `2^m + e` participants, with `e` below `2^m`, the first `e` couples fold, and `2^m` swappers are left.
#[derive(Clone, Copy, Debug, PartialEq, Eq)]
pub struct Split {
    pub m: u32,
    pub e: u32,
}

impl Split {
    // the split of so many participants
    pub(crate) fn of(count: u32) -> Split
        requires { 0 < count }
        ensures m { result.m ≡ floor_log2 count }
        ensures e { result.e ≡ fold_count count }
        ensures low { result.m < 32 }
    {
        let m = floor_log2(count);
        Split {
            m,
            e: count - power(m),
        }
    }

    // which swapper sits at a position, if one does
    pub(crate) fn swapper_at(self, p: u32) -> Option<u32>
        requires { self.e ≤ MAX_RANKS }
        ensures { result ≡ swapper self.e p }
    {
        if p >= 2 * self.e {
            return Some(p - self.e);
        }
        if p % 2 == 0 { Some(p / 2) } else { None }
    }

    // at which position a swapper sits
    pub(crate) fn seat_of(self, s: u32) -> u32
        requires swapper { s ≤ MAX_RANKS }
        requires split { self.e ≤ MAX_RANKS }
        ensures { result ≡ seat self.e s }
    {
        if s < self.e { 2 * s } else { s + self.e }
    }
}
