//! What holds of all plans and of all interleavings of their ranks.
ghost use Rattle.std.specs.Prelude.{◌∷◌, []};
ghost use Rattle.icet_model.specs.declared.exchange.Op.TheVariants.{Keep, Load};
ghost use Rattle.icet_model.specs.Matched.{IsMatched};
ghost use Rattle.icet_model.specs.Plan.{IsSound};
ghost use Rattle.icet_plan.specs.Laws.{NoStateIsStuck, EventsStayEnabled, EventsCommute, EachRunMakesAll, LawfulStatesReachLater};
ghost use Rattle.icet_plan.specs.Laws.{FlowsAreFlows, FlowIsOne, FlowOfPixelsIsTraffic};
ghost use Rattle.icet_plan.specs.Samples.{another_leaf, one_tile, send, take, takes_before_sends, twice_a_round};

/// No plan gets stuck: as long as some rank has an exchange left, some rank can make its next one.
pub fn some_enabled()
    ensures { NoStateIsStuck }
{}

/// The order of two steps doesn't matter.
pub fn stays_enabled()
    ensures stays { EventsStayEnabled }
    ensures same { EventsCommute }
{}

/// Whatever the order of steps, a run that finishes all ranks makes each exchange once, each rank's in order.
pub fn same_end()
    ensures { EachRunMakesAll }
{}

/// Each lawful state with later counters can be reached.
pub fn reaches()
    ensures { LawfulStatesReachLater }
{}

/// The flow of matched programs is the one list of messages that comes out as it goes in.
pub fn one_flow()
    ensures flow { FlowsAreFlows }
    ensures one { FlowIsOne }
{}

/// With pixels in place of brackets the flow has the same messages, each with the values of its bracket.
pub fn traffic_is_flow()
    ensures { FlowOfPixelsIsTraffic }
{}

/// What is no plan, one for each condition: a take before a send of its round, two messages of a pair
/// in one round, a take that nobody sends for, a take of another range, a slot that was never filled,
/// a position that is kept twice, and a piece in another order than the tile's bracket.
pub fn wrong_plans()
    ensures takes_first { IsMatched takes_before_sends → ⊥ }
    ensures twice_in_a_round { IsMatched twice_a_round → ⊥ }
    ensures takes_in_vain { IsMatched ((take 0 1 0 1 ∷ []) ∷ [] ∷ []) → ⊥ }
    ensures takes_another_range { IsMatched ((take 0 1 0 1 ∷ []) ∷ (send 0 0 0 2 ∷ []) ∷ []) → ⊥ }
    ensures never_filled { IsSound (one_tile (Keep 0 ∷ [])) → ⊥ }
    ensures kept_twice { IsSound (one_tile (Load 0 0 ∷ Keep 0 ∷ Keep 0 ∷ [])) → ⊥ }
    ensures another_bracket { IsSound another_leaf → ⊥ }
{}
