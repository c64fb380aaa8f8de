use crate::names::Rank;
use sqlite_items::Boxed;

/// In which order the ranks' images of a tile are joined; the first part of a pair is the front.
#[derive(Drop)]
pub enum Bracket {
    /// No image: every pixel is None.
    Empty,
    /// The image of one rank.
    Leaf(Rank),
    /// The front part joined before the back part.
    Pair(Boxed<Bracket>, Boxed<Bracket>),
}
