//! What holds of radix-k, whatever the participants, their leaves and the tile.
ghost use Rattle.icet_radixk.specs.Radixk.{EachPositionIsHeldOnce};

/// After the last round every position of the tile is held by exactly one participant, for any k.
pub fn final_pieces()
    ensures { EachPositionIsHeldOnce }
{}
