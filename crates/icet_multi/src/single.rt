//! One tile by the chosen strategy.
ghost use Rattle.std.specs.Prelude.{◌≡◌, ◌≤◌, ◌<◌, ◌^◌, ◌≢◌, AllPairs, IfOk, length};
ghost use Rattle.icet_legs.specs.Leg.{IsPlanFor};
ghost use Rattle.icet_legs.specs.Task.{StandsIn};
ghost use Rattle.icet_model.specs.declared.limits.TheConstants.{MAX_RANKS};
ghost use Rattle.icet_multi.specs.Rules.{strategy_of};

use crate::settings::Single;
use icet_base::{NoMemory, Rank};
use icet_plan::{Bracket, Leg};
use std::alloc::Global;

// the leg of these participants for a tile by the chosen strategy, from round `first` on
pub(crate) fn exchange_plan(
    alloc: Global,
    order: &[Rank],
    leaves: &[Bracket],
    tile: u32,
    pixels: u32,
    display: Rank,
    first: u32,
    single: Single,
    k: u32,
) -> Result<Leg, NoMemory>
    requires distinct { AllPairs (λ a b. a ≢ b) order.now }
    requires low { length order.now ≤ MAX_RANKS }
    requires leaves { length leaves.now ≡ length order.now }
    requires display { StandsIn order.now display }
    requires small { pixels < 2 ^ 31 }
    requires early { first < 2 ^ 31 }
    requires split { 2 ≤ k }
    ensures { IfOk result (IsPlanFor (strategy_of single k) order.now leaves.now tile pixels first display) }
{
    match single {
        Single::Tree => icet_tree::exchange_plan(
            alloc, order, leaves, tile, pixels, display, first,
        ),
        Single::Bswap => icet_bswap::exchange_plan(
            alloc, order, leaves, tile, pixels, display, first,
        ),
        Single::Radixk => {
            icet_radixk::exchange_plan(alloc, order, leaves, tile, pixels, display, first, k)
        }
    }
}
