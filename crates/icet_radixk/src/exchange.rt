ghost use Rattle.std.specs.Prelude.{◌≡◌, ◌≢◌, ◌≤◌, ◌<◌, ◌^◌, ◌+◌, AllPairs, IfOk, length, map};
ghost use Rattle.std.specs.List.{range_with_len};
ghost use Rattle.icet_legs.specs.Leg.{IsExchangePlan, IsPlanFor};
ghost use Rattle.icet_legs.specs.Task.{StandsIn, task_team};
ghost use Rattle.icet_legs.specs.Team.{team_of};
ghost use Rattle.icet_radixk.specs.Radixk.{radix_bracket, radix_program, radix_strategy};
ghost use Rattle.icet_radixk.specs.Factors.{factor_at};
ghost use Rattle.icet_radixk.specs.Round.{IsSplitBy, bracket_by, programs_by};
ghost use Rattle.icet_model.specs.declared.limits.TheConstants.{MAX_RANKS};

use crate::divisors::factors;
use crate::folds::fold_by_factors;
use crate::programs::programs;
use icet_base::{NoMemory, Rank};
use icet_legs::Task;
use icet_legs::brackets::copies;
use icet_plan::{Bracket, Leg};
use std::alloc::Global;

/// The leg of a tile by radix-k (Peterka, Goodell, Ross, Shen and Thakur 2009), with factors up to `k`: one
/// program per participant, by position, the bracket over the leaves, and how many rounds it takes. Each
/// participant begins with its whole leaf in slot 0. The participants are different, one to 256, with a
/// leaf for each, and the display is one of them.
///
/// # Errors
///
/// `NoMemory`.
pub fn exchange_plan(
    alloc: Global,
    participants: &[Rank],
    leaves: &[Bracket],
    tile: u32,
    pixels: u32,
    display: Rank,
    first_round: u32,
    k: u32,
) -> Result<Leg, NoMemory>
    requires distinct { AllPairs (λ a b. a ≢ b) participants.now }
    requires low { length participants.now ≤ MAX_RANKS }
    requires leaves { length leaves.now ≡ length participants.now }
    requires display { StandsIn participants.now display }
    requires small { pixels < 2 ^ 31 }
    requires early { first_round < 2 ^ 31 }
    requires split { 2 ≤ k }
    ensures { IfOk result (IsPlanFor (radix_strategy k) participants.now leaves.now tile pixels first_round display) }
{
    let task = Task::of(participants, tile, pixels, display, first_round);
    let factors = factors(alloc, task.count(), k)?;
    leg_of(alloc, &task, &factors, leaves)
}

// the leg of a task whose participants are split by these factors
#[tactic(auto, using(crate::proofs::RadixLegs::all_some, crate::proofs::RoundSteps::few_rounds))]
fn leg_of(alloc: Global, task: &Task, factors: &[u32], leaves: &[Bracket]) -> Result<Leg, NoMemory>
    requires { IsSplitBy task.now factors.now }
    ensures programs { IfOk result (λ leg. leg.programs.items ≡ programs_by task.now factors.now) }
    ensures bracket { IfOk result (λ leg. leg.bracket ≡ bracket_by factors.now leaves.now) }
    ensures rounds { IfOk result (λ leg. leg.rounds ≡ length factors.now + 1) }
{
    let programs = programs(alloc, task, factors)?;
    let bracket = fold_by_factors(alloc, factors, copies(alloc, leaves)?)?;
    Ok(Leg {
        programs,
        bracket,
        rounds: factors.len() as u32 + 1,
    })
}
