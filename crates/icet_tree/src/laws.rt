//! What holds of the tree, whatever the participants, their leaves and the tile.
ghost use Rattle.std.specs.Prelude.{ℕ, ◌≤◌};
ghost use Rattle.icet_model.specs.Exchange.{exchanges};
ghost use Rattle.icet_legs.specs.Sends.{send_count};
ghost use Rattle.icet_legs.specs.Team.{Team};
ghost use Rattle.icet_tree.specs.Tree.{tree_strategy};

/// A participant sends one message at most: so of n participants no more than n messages are sent.
pub fn sends_once()
    ensures { (g : Team) (shows p : ℕ) → send_count (exchanges (tree_strategy.program g shows p)) ≤ 1 }
{}
