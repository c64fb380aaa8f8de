//! What holds of binary-swap, whatever the participants, their leaves and the tile.
ghost use Rattle.icet_bswap.specs.Laws.{EachPositionIsHeldOnce, SendsAtMostTheTile, SendsFewMessages};

/// After the last swap every position of the tile is held by exactly one participant.
pub fn final_pieces()
    ensures { EachPositionIsHeldOnce }
{}

/// A participant sends in all no more positions than the tile has, and at most one message in each round but
/// one: so of n participants, n times the logarithm of n and one messages are enough.
pub fn sends_little()
    ensures positions { SendsAtMostTheTile }
    ensures messages { SendsFewMessages }
{}
