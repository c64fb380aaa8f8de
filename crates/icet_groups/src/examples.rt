//! Worked examples, which the prover evaluates.
ghost use Rattle.std.specs.Prelude.{◌≡◌, [], ◌∷◌};
ghost use Rattle.icet_groups.specs.Blocks.{block_of};
ghost use Rattle.icet_groups.specs.Places.{places_of};
ghost use Rattle.icet_groups.specs.Samples.{tile};
ghost use Rattle.icet_groups.specs.Seats.{groups_of};

/// Three of four ranks contribute to the first tile, and the last to the second, which rank 1 shows.
pub fn two_tiles()
    ensures places { places_of 4 (3 ∷ 1 ∷ []) ≡ 3 ∷ 1 ∷ [] }
    ensures groups { groups_of 4 (tile 0 (0 ∷ 1 ∷ 2 ∷ []) ∷ tile 1 (3 ∷ []) ∷ []) ≡ (0 ∷ 2 ∷ 3 ∷ []) ∷ (1 ∷ []) ∷ [] }
{}

/// The third place goes to the lower of two tiles that want it equally.
pub fn a_tie()
    ensures places { places_of 3 (2 ∷ 2 ∷ []) ≡ 2 ∷ 1 ∷ [] }
    ensures groups { groups_of 3 (tile 1 (0 ∷ 2 ∷ []) ∷ tile 0 (1 ∷ 2 ∷ []) ∷ []) ≡ (1 ∷ 2 ∷ []) ∷ (0 ∷ []) ∷ [] }
{}

/// Nobody serves a tile without contributors, and quotients aren't rounded: 7 by 2 is more than 10 by 3.
pub fn quotients()
    ensures empty { places_of 4 (0 ∷ 2 ∷ 0 ∷ []) ≡ 0 ∷ 2 ∷ 0 ∷ [] }
    ensures exact { places_of 6 (10 ∷ 7 ∷ []) ≡ 3 ∷ 3 ∷ [] }
{}

/// Seven contributors in three blocks.
pub fn blocks()
    ensures first { block_of (0 ∷ 1 ∷ 2 ∷ 3 ∷ 4 ∷ 5 ∷ 6 ∷ []) 3 0 ≡ 0 ∷ 1 ∷ [] }
    ensures second { block_of (0 ∷ 1 ∷ 2 ∷ 3 ∷ 4 ∷ 5 ∷ 6 ∷ []) 3 1 ≡ 2 ∷ 3 ∷ [] }
    ensures third { block_of (0 ∷ 1 ∷ 2 ∷ 3 ∷ 4 ∷ 5 ∷ 6 ∷ []) 3 2 ≡ 4 ∷ 5 ∷ 6 ∷ [] }
{}
