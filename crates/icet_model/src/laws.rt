//! What holds of the definitions for all values.
ghost use Rattle.std.specs.Prelude.{ℕ, List};
ghost use Rattle.icet_model.specs.declared.exchange.Exchange.{Exchange};
ghost use Rattle.icet_model.specs.Composite.{NearestIsLeast, NearestIsNoneOfNone};
ghost use Rattle.icet_model.specs.Replay.{TellsWhereItStands};

/// The nearest of the ranks' pixels is the fragment with the least pair of depth and rank, and there
/// is none exactly where no rank has a fragment: a tie goes to the lowest rank.
pub fn nearest_is_least()
    ensures some { NearestIsLeast }
    ensures none { NearestIsNoneOfNone }
{}

/// What comes of a rank's try in a replay tells exactly where the rank stands.
pub fn outcomes()
    ensures { (all : List (List Exchange)) (cap : ℕ) (done : List ℕ) (r : ℕ) → TellsWhereItStands all cap done r }
{}
