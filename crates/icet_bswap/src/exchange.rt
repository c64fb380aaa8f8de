ghost use Rattle.std.specs.Prelude.{◌≡◌, ◌≢◌, ◌≤◌, ◌<◌, ◌^◌, AllPairs, IfOk, length};
ghost use Rattle.icet_legs.specs.Leg.{IsExchangePlan, IsPlanFor};
ghost use Rattle.icet_legs.specs.Task.{StandsIn};
ghost use Rattle.icet_legs.specs.Team.{team_of};
ghost use Rattle.icet_bswap.specs.Bswap.{bswap_strategy};
ghost use Rattle.icet_model.specs.declared.limits.TheConstants.{MAX_RANKS};

use crate::programs::programs;
use crate::split::Split;
use icet_base::{NoMemory, Rank};
use icet_legs::Task;
use icet_legs::brackets::{copies, couples, tree};
use icet_plan::{Bracket, Leg};
use std::alloc::Global;

/// The leg of a tile by binary-swap (Ma, Painter, Hansen and Krogh 1994) with folding: one program per
/// participant, by position, the bracket over the leaves, and how many rounds it takes. Each participant
/// begins with its whole leaf in slot 0. The participants are different, one to 256, with a leaf for
/// each, and the display is one of them.
///
/// # Errors
///
/// `NoMemory`.
#[tactic(auto, using(crate::proofs::ProgramSteps::is_split, crate::proofs::ProgramSteps::leg_made))]
pub fn exchange_plan(
    alloc: Global,
    participants: &[Rank],
    leaves: &[Bracket],
    tile: u32,
    pixels: u32,
    display: Rank,
    first_round: u32,
) -> Result<Leg, NoMemory>
    requires distinct { AllPairs (λ a b. a ≢ b) participants.now }
    requires low { length participants.now ≤ MAX_RANKS }
    requires leaves { length leaves.now ≡ length participants.now }
    requires display { StandsIn participants.now display }
    requires small { pixels < 2 ^ 31 }
    requires early { first_round < 2 ^ 31 }
    ensures { IfOk result (IsPlanFor bswap_strategy participants.now leaves.now tile pixels first_round display) }
{
    let task = Task::of(participants, tile, pixels, display, first_round);
    let split = Split::of(task.count());
    let programs = programs(alloc, &task, split)?;
    let bracket = tree(alloc, couples(alloc, split.e, copies(alloc, leaves)?)?)?;
    Ok(Leg {
        programs,
        bracket,
        rounds: split.m + 2,
    })
}
