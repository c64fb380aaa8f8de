//! A small plan of several rounds, written by hand.
ghost use Rattle.std.specs.Prelude.{◌≡◌, IfOk};
ghost use Rattle.icet_plan.specs.Samples.{send_part, take_part};
ghost use Rattle.icet_tests.specs.Plans.{two_swappers};

use icet_base::{NoMemory, Rank};
use icet_plan::brackets::pair;
use icet_plan::{Bracket, Exchange, Kind, Op, Plan, Program};
use std::alloc::Global;

// an exchange of tile 0, whose piece lies in this slot
fn swap(kind: Kind, round: u32, peer: u32, lo: u32, hi: u32, slot: u32) -> Op
    ensures { result ≡ Op.Swap (record { round = round; kind = kind; peer = peer; tile = 0; lo = lo; hi = hi }) slot }
{
    let exchange = Exchange {
        round,
        kind,
        peer: Rank(peer),
        tile: 0,
        lo,
        hi,
    };
    Op::Swap { exchange, slot }
}

const LOAD: Op = Op::Load { tile: 0, slot: 0 };

/// Slot 0 keeps position 0, and the rest goes into slot 1.
const HALVE: Op = Op::Cut {
    slot: 0,
    at: 1,
    into: 1,
};

const JOIN: Op = Op::Join {
    front: 0,
    back: 1,
    into: 0,
};

fn programs_of_two_swappers(alloc: Global) -> Result<Vec<Program>, NoMemory>
    ensures { IfOk result (λ ps. ps.items ≡ two_swappers.programs) }
{
    let first = vec![in alloc;
        LOAD,
        HALVE,
        swap(Kind::Send, 1, 1, 1, 2, 1),
        swap(Kind::Take, 1, 1, 0, 1, 1),
        JOIN,
        Op::Keep { slot: 0 },
        swap(Kind::Take, 2, 1, 1, 2, 1),
        Op::Keep { slot: 1 },
    ]?;
    let second = vec![in alloc;
        LOAD,
        HALVE,
        swap(Kind::Send, 1, 0, 0, 1, 0),
        swap(Kind::Take, 1, 0, 1, 2, 0),
        JOIN,
        swap(Kind::Send, 2, 0, 1, 2, 0),
    ]?;
    Ok(vec![in alloc; Program::of(first), Program::of(second)]?)
}

/// Two ranks, one tile of two positions, by binary-swap: each sends one half of its image and joins
/// the other with the peer's; then rank 0 collects both halves. Both ranks send first in their round.
///
/// # Errors
///
/// `NoMemory`.
#[tactic(auto, using(crate::proofs::SamplePlans::two_swappers_plan))]
pub fn two_swappers(alloc: Global) -> Result<Plan, NoMemory>
    ensures { IfOk result (λ p. p ≡ two_swappers) }
{
    let both = pair(alloc, Bracket::Leaf(Rank(0)), Bracket::Leaf(Rank(1)))?;
    let programs = programs_of_two_swappers(alloc)?;
    Plan::make(
        alloc,
        vec![in alloc; 2]?,
        vec![in alloc; Rank(0)]?,
        vec![in alloc; both]?,
        programs,
    )
}
