//! What holds of the definitions for all values.
ghost use Rattle.std.specs.Prelude.{◌≡◌};
ghost use Rattle.icet_model.specs.Bracket.{leaves};
ghost use Rattle.icet_multi.specs.Absent.{OthersDrawNothing};
ghost use Rattle.icet_multi.specs.Direct.{TileView, tile_bracket};
ghost use Rattle.icet_multi.specs.FilledSlot.{LegsBeginFromASlot};
ghost use Rattle.icet_multi.specs.Reduce.{ReduceJoinsInOrder};
ghost use Rattle.icet_multi.specs.Rules.{DirectIsByRule, RulesJoinInOrder};

/// The leaves of a tile's bracket are its contributors, in their order. Whatever bracket has them as its
/// leaves, these are the order without ranks that draw nothing in the tile: in each mode, and for every
/// order of the ranks.
pub fn absent()
    ensures leaves { (tile : TileView) → leaves (tile_bracket tile) ≡ tile.contributors }
    ensures blank { OthersDrawNothing }
{}

/// The direct strategy's plan is that of its rule.
pub fn direct_by_rule()
    ensures { DirectIsByRule }
{}

/// Each strategy's bracket of a tile joins all ranks in their order, or the tile's contributors in theirs.
pub fn joins_in_order()
    ensures { RulesJoinInOrder }
{}

/// Over every strategy for one tile, the bracket of a tile joins the tile's contributors in their order.
pub fn reduce_joins_in_order()
    ensures { ReduceJoinsInOrder }
{}

/// A leg goes on from what its participants have in slot 0: where that is the whole image of the participant's leaf, it
/// sends, takes and keeps what it does with an image of its own.
pub fn legs_begin_from_a_slot()
    ensures { LegsBeginFromASlot }
{}
