/// How the work on several tiles is shared out.
#[derive(Clone, Copy, Debug, PartialEq, Eq)]
pub enum Strategy {
    /// Tile after tile, all ranks join their images of it by the strategy for one tile.
    Sequential,
    /// Every contributor to a tile sends its whole image of it to the tile's display.
    Direct,
    /// Each tile is joined by a group of ranks of its own, all groups at once, by the strategy for one tile.
    Reduce,
}

/// How one group of ranks joins its images of one tile.
#[derive(Clone, Copy, Debug, PartialEq, Eq)]
pub enum Single {
    /// Neighbours are joined, pair by pair, until one image is left.
    Tree,
    /// Pairs exchange the halves of their pieces, round by round, where the number of ranks is first
    /// folded down to a power of two.
    Bswap,
    /// Groups exchange the parts of their pieces, round by round, by the factors of the number of ranks.
    Radixk,
}

/// What a plan is made by; `k` is the greatest factor of a strategy that splits into groups, from 2 to 64.
#[derive(Clone, Copy, Debug, PartialEq, Eq)]
pub struct Settings {
    pub strategy: Strategy,
    pub single: Single,
    pub k: u32,
}
