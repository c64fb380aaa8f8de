ghost use Rattle.std.specs.Prelude.{◌≡◌, ◌<◌, ◌^◌, IfOk, map, length};
ghost use Rattle.icet_multi.specs.Direct.{TileView, has, hands_in, tile_bracket};

use icet_base::{NoMemory, Rank};
use icet_groups::TileRanks;
use icet_plan::Bracket;
use icet_plan::brackets::fold_left;
use std::alloc::Global;

// whether the rank hands its image of the tile to the display
pub(crate) fn hands_in(tile: &TileRanks, rank: Rank) -> bool
    ensures { result ≡ hands_in tile.now rank }
{
    is_among(rank, tile.contributors()) && rank != tile.display()
}

// the contributors' images, folded from the left
pub(crate) fn bracket_of(alloc: Global, tile: &TileRanks) -> Result<Bracket, NoMemory>
    ensures { IfOk result (λ b. b ≡ tile_bracket tile.now) }
{
    fold_left(alloc, leaves(alloc, tile.contributors())?)
}

fn is_among(rank: Rank, ranks: &[Rank]) -> bool
    ensures { result ≡ has rank ranks.now }
{
    for other in ranks {
        if *other == rank {
            return true;
        }
    }
    false
}

// the leaf of each of these ranks
pub(crate) fn leaves(alloc: Global, ranks: &[Rank]) -> Result<Vec<Bracket>, NoMemory>
    ensures { IfOk result (λ all. all.items ≡ map (λ r. Bracket.Leaf r) ranks.now) }
{
    let mut all = Vec::new(alloc);
    for rank in ranks {
        all.push(Bracket::Leaf(*rank))?;
    }
    Ok(all)
}
