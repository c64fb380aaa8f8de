//! Worked examples, which the prover evaluates: each message is a line of from, to, round, tile, lo and hi.
ghost use Rattle.std.specs.Prelude.{◌≡◌, [], ◌∷◌, ◌==◌, ◌&&◌, nat_lt, filter, get_or, length};
ghost use Rattle.icet_model.specs.declared.bracket.Bracket.TheVariants.{Leaf, Pair};
ghost use Rattle.icet_tree.specs.Tree.{tree_strategy};
ghost use Rattle.icet_bswap.specs.Bswap.{bswap_strategy};
ghost use Rattle.icet_radixk.specs.Factors.{factors};
ghost use Rattle.icet_radixk.specs.Radixk.{radix_strategy};
ghost use Rattle.icet_multi.specs.ReduceSamples.{brackets_by, by_tree, crossed_lines, crossed_wall, uneven_lines, uneven_wall};
ghost use Rattle.icet_multi.specs.Samples.{collected_from, five_bracket, five_swap, four_bracket, four_group, from_rank, leaves, lines, m, pair_of_tiles, six_bracket, three_swap, tile};

/// The tree over three ranks, and over two ranks and two tiles: empty images are sent too, and the second tile's
/// rounds begin where the first one's end.
pub fn tree()
    ensures three { lines tree_strategy 3 (tile 2 2 ∷ []) ≡ m 0 2 2 0 0 2 ∷ m 1 0 0 0 0 2 ∷ m 2 0 1 0 0 2 ∷ [] }
    ensures two_tiles { lines tree_strategy 2 pair_of_tiles ≡ m 0 1 3 1 0 1 ∷ m 1 0 0 0 0 1 ∷ m 1 0 2 1 0 1 ∷ [] }
    ensures bracket { tree_strategy.bracket (leaves 4) ≡ Pair (Pair (Leaf 0) (Leaf 1)) (Pair (Leaf 2) (Leaf 3)) }
{}

/// Binary-swap on five ranks, and on three of which the display is no swapper.
pub fn binary_swap()
    ensures first { from_rank 0 five_swap ≡ m 0 2 1 0 3 7 ∷ m 0 3 2 0 1 3 ∷ [] }
    ensures folded { from_rank 1 five_swap ≡ m 1 0 0 0 0 7 ∷ [] }
    ensures third { from_rank 2 five_swap ≡ m 2 0 1 0 0 3 ∷ m 2 0 3 0 3 5 ∷ m 2 4 2 0 5 7 ∷ [] }
    ensures fourth { from_rank 3 five_swap ≡ m 3 0 2 0 0 1 ∷ m 3 0 3 0 1 3 ∷ m 3 4 1 0 3 7 ∷ [] }
    ensures last { from_rank 4 five_swap ≡ m 4 0 3 0 5 7 ∷ m 4 2 2 0 3 5 ∷ m 4 3 1 0 0 3 ∷ [] }
    ensures bracket { bswap_strategy.bracket (leaves 5) ≡ five_bracket }
    ensures aside { from_rank 0 three_swap ≡ m 0 1 2 0 0 2 ∷ m 0 2 1 0 2 4 ∷ [] }
    ensures aside_folded { from_rank 1 three_swap ≡ m 1 0 0 0 0 4 ∷ [] }
    ensures aside_last { from_rank 2 three_swap ≡ m 2 0 1 0 0 2 ∷ m 2 1 2 0 2 4 ∷ [] }
{}

/// Binary-swap on eight ranks with fewer positions than ranks: 31 messages, and some final pieces are empty.
pub fn few_positions()
    ensures count { length (lines bswap_strategy 8 (tile 3 0 ∷ [])) ≡ 31 }
    ensures collected { collected_from (λ r. nat_lt r 4) ≡ m 1 0 4 0 1 1 ∷ m 2 0 4 0 0 0 ∷ m 3 0 4 0 2 2 ∷ [] }
    ensures collected_last { collected_from (λ r. nat_lt 5 r) ≡ m 6 0 4 0 0 1 ∷ m 7 0 4 0 2 3 ∷ [] }
{}

/// The factors of radix-k, and its messages on four ranks that are one group.
pub fn radix_k()
    ensures twelve { factors 8 12 ≡ 6 ∷ 2 ∷ [] }
    ensures eleven { factors 8 11 ≡ 11 ∷ [] }
    ensures sixty_four { factors 8 64 ≡ 8 ∷ 8 ∷ [] }
    ensures twenty_two { factors 8 22 ≡ 2 ∷ 11 ∷ [] }
    ensures one { factors 8 1 ≡ [] }
    ensures first { from_rank 0 four_group ≡ m 0 1 0 0 1 2 ∷ m 0 2 0 0 2 3 ∷ m 0 3 0 0 3 4 ∷ [] }
    ensures second { from_rank 1 four_group ≡ m 1 0 0 0 0 1 ∷ m 1 0 1 0 1 2 ∷ m 1 2 0 0 2 3 ∷ m 1 3 0 0 3 4 ∷ [] }
    ensures bracket { (radix_strategy 4).bracket (leaves 4) ≡ four_bracket }
    ensures two_and_three { (radix_strategy 3).bracket (leaves 6) ≡ six_bracket }
{}

/// Four ranks: one contributor serves no tile to which it contributes, and hands its image to the other group.
pub fn uneven()
    ensures first { from_rank 0 uneven_lines ≡ [] }
    ensures second { from_rank 1 uneven_lines ≡ m 1 2 0 0 0 4 ∷ [] }
    ensures third { from_rank 2 uneven_lines ≡ m 2 0 1 0 0 4 ∷ m 2 3 0 0 0 4 ∷ [] }
    ensures fourth { from_rank 3 uneven_lines ≡ m 3 0 2 0 0 4 ∷ m 3 1 0 1 0 4 ∷ [] }
    ensures brackets { brackets_by by_tree 4 uneven_wall ≡ Pair (Pair (Leaf 0) (Leaf 1)) (Leaf 2) ∷ Leaf 3 ∷ [] }
{}

/// Three ranks: the third place goes to the lower of two tiles that want it equally.
pub fn crossed()
    ensures first { from_rank 0 crossed_lines ≡ m 0 1 0 0 0 1 ∷ [] }
    ensures second { from_rank 1 crossed_lines ≡ m 1 0 0 1 0 1 ∷ [] }
    ensures third { from_rank 2 crossed_lines ≡ m 2 0 0 1 0 1 ∷ m 2 1 1 0 0 1 ∷ [] }
    ensures brackets { brackets_by by_tree 3 crossed_wall ≡ Pair (Leaf 0) (Leaf 2) ∷ Pair (Leaf 1) (Leaf 2) ∷ [] }
{}
