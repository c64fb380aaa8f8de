/// The first word of a line of a scene's text.
#[derive(Clone, Copy, Debug, PartialEq, Eq)]
pub enum Keyword {
    Head,
    Mode,
    Ranks,
    Maxval,
    Background,
    Order,
    Tile,
    Point,
    Tri,
    Span,
    End,
}

/// Where a line stands: right behind which other. Skipped lines don't count.
#[derive(Clone, Copy, Debug, PartialEq, Eq)]
pub enum Place {
    Start,
    BehindHead,
    BehindMode,
    BehindRanks,
    BehindMaxval,
    BehindBackground,
    BehindOrder,
    BehindTile,
    BehindShape,
    BehindEnd,
}
