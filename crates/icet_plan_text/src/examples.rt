//! Texts of plans on worked examples, which the prover evaluates.
ghost use Rattle.std.specs.Prelude.{◌≡◌, [], ◌∷◌, ◌++◌, codes};
ghost use Rattle.icet_model.specs.declared.bracket.Bracket.TheVariants.{Empty, Leaf, Pair};
ghost use Rattle.icet_plan_text.specs.PlanTexts.{bracket_text, plan_text, traffic_text};
ghost use Rattle.icet_plan_text.specs.Examples.{one_pair, two_ranks};

/// Rank 1 sends its image of one pixel to rank 0.
pub fn one_message()
    ensures traffic { traffic_text two_ranks ≡ codes "1 0 0 0 0 1\n" }
    ensures plan { plan_text one_pair two_ranks ≡ codes "tile 0 (0 1)\nrank 0 take 0 1 0 0 1\nrank 1 send 0 0 0 0 1\n" }
    ensures brackets { bracket_text (Pair (Pair (Leaf 0) (Leaf 12)) Empty) ≡ codes "((0 12) -)" }
{}
