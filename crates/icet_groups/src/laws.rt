//! What holds of places, groups and blocks, for all numbers of ranks, tiles and contributors.
ghost use Rattle.icet_groups.specs.Lawful.{BlocksAreLawful, EachCanHaveAPlace, GroupsAreLawful};
ghost use Rattle.icet_groups.specs.Places.{PlacesAreShared};

/// Places are shared out fairly, and none is held back. Each tile with contributors can have a place, since each tile
/// is shown by a rank of its own.
pub fn places_are_shared()
    ensures shared { PlacesAreShared }
    ensures enough { EachCanHaveAPlace }
{}

/// A group has as many ranks as its tile has places, the tile's display among them, and no rank is in two groups.
pub fn groups_are_lawful()
    ensures { GroupsAreLawful }
{}

/// No block is empty, and each contributor stands in one.
pub fn blocks_are_lawful()
    ensures { BlocksAreLawful }
{}
