use crate::names::Rank;

/// Which way a piece goes.
#[derive(Clone, Copy, Debug, PartialEq, Eq)]
pub enum Kind {
    Send,
    Take,
}

/// One half of a message: a rank sends the positions from `lo` up to `hi`, not included, of a tile
/// to its peer, or takes them from it, in a round.
#[derive(Clone, Copy, Debug, PartialEq, Eq)]
pub struct Exchange {
    pub round: u32,
    pub kind: Kind,
    pub peer: Rank,
    pub tile: u32,
    pub lo: u32,
    pub hi: u32,
}

/// One operation of a rank's program on the rank's slots, each of which holds a piece or none.
#[derive(Clone, Copy, Debug, PartialEq, Eq)]
pub enum Op {
    /// The slot holds the rank's own whole image of the tile.
    Load { tile: u32, slot: u32 },
    /// The slot holds a whole image of the tile without active pixels.
    Blank { tile: u32, slot: u32 },
    /// The slot's piece is cut at a position: `slot` keeps what is below it, `into` holds the rest.
    Cut { slot: u32, at: u32, into: u32 },
    /// `into` holds the piece of `front` joined in front of that of `back`; these two are empty.
    Join { front: u32, back: u32, into: u32 },
    /// The slot's piece goes to the peer and leaves the slot empty, or the peer's comes into it.
    Swap { exchange: Exchange, slot: u32 },
    /// The slot's piece is a final piece of its tile, which this rank displays.
    Keep { slot: u32 },
}
