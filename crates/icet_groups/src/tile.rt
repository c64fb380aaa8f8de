ghost use Rattle.std.specs.Prelude.{◌≡◌};

use icet_base::Rank;
use std::marker::Model;

/// A tile as a strategy sees it: its number of pixels, the rank that displays it, and its
/// contributors in their order.
#[derive(Drop)]
pub struct TileRanks {
    size: u32,
    display: Rank,
    contributors: Vec<Rank>,
}

impl Model for TileRanks {
    ghost use Rattle.icet_groups.specs.Tiles.{TileView};

    ghost Value = { TileView };

    ghost view = { λ t. record { size = t.size; display = t.display; contributors = t.contributors.items } };
}

impl TileRanks {
    /// The tile of this many pixels, shown by `display`, to which these ranks contribute, in this order.
    pub fn of(size: u32, display: Rank, contributors: Vec<Rank>) -> TileRanks
        ensures { result ≡ record { size = size; display = display; contributors = contributors.items } }
    {
        TileRanks {
            size,
            display,
            contributors,
        }
    }

    /// The number of pixels.
    pub fn size(&self) -> u32
        ensures { result ≡ self.now.size }
    {
        self.size
    }

    /// The rank that displays the tile.
    pub fn display(&self) -> Rank
        ensures { result ≡ self.now.display }
    {
        self.display
    }

    /// The ranks that contribute to the tile, in their order.
    pub fn contributors(&self) -> &[Rank]
        ensures { result.now ≡ self.now.contributors }
    {
        &self.contributors
    }
}
