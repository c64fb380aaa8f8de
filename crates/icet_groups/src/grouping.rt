//! Groups of a wall of displays.
ghost use Rattle.std.specs.Prelude.{◌≡◌, ◌≤◌, ◌<◌, ◌^◌, ◌++◌, [], ◌∷◌, cond, All, IfOk, length, map};
ghost use Rattle.icet_groups.specs.Seats.{counts_of, group_in, groups_in, groups_of, is_of};
ghost use Rattle.icet_groups.specs.Tiles.{AreTiles};
ghost use Rattle.icet_model.specs.declared.limits.TheConstants.{MAX_RANKS, MAX_TILES};

use crate::TileRanks;
use crate::members::Groups;
use crate::places::places;
use crate::seats::seats;
use icet_base::{NoMemory, Rank};
use std::alloc::Global;

/// The groups of these tiles. A tile to which c ranks contribute has a group only where c isn't 0, of one rank at first.
/// While there are ranks, one more rank serves the tile with the largest quotient of its contributors by its places,
/// the lowest of several, if it has fewer places than contributors. A tile's display is in its group; then, tile by tile,
/// the lowest contributor that is in no group joins or, where there is none, the lowest rank that is in no group.
///
/// It takes time in proportion to ranks times tiles, and to the contributors.
///
/// # Errors
///
/// `NoMemory`.
pub fn groups(alloc: Global, ranks: u32, tiles: &[TileRanks]) -> Result<Groups, NoMemory>
    requires ranks { ranks ≤ MAX_RANKS }
    requires few { length tiles.now ≤ MAX_TILES }
    requires tiles { AreTiles ranks tiles.now }
    ensures { IfOk result (λ all. all ≡ groups_of ranks tiles.now) }
{
    let counts = counts_of(alloc, tiles)?;
    let places = places(alloc, ranks, &counts)?;
    let seats = seats(alloc, ranks, tiles, &places)?;
    let lists = lists_of(alloc, &seats, tiles.len())?;
    Ok(Groups::of(lists))
}

// how many ranks contribute to each tile
fn counts_of(alloc: Global, tiles: &[TileRanks]) -> Result<Vec<u32>, NoMemory>
    requires { All (λ x. length x.contributors < 2 ^ 32) tiles.now }
    ensures { IfOk result (λ all. all.items ≡ counts_of tiles.now) }
{
    let mut all = Vec::new(alloc);
    for tile in tiles {
        all.push(tile.contributors().len() as u32)?;
    }
    Ok(all)
}

// the group of each of so many tiles
fn lists_of(alloc: Global, seats: &[Option<u32>], count: usize) -> Result<Vec<Vec<Rank>>, NoMemory>
    requires few { count < 2 ^ 32 }
    requires ranks { length seats.now ≤ MAX_RANKS }
    ensures { IfOk result (λ all. map (λ ranks. ranks.items) all.items ≡ groups_in seats.now count) }
{
    let mut all = Vec::new(alloc);
    for t in 0..count {
        all.push(list_of(alloc, seats, t as u32)?)?;
    }
    Ok(all)
}

// the ranks in the group of tile t
#[tactic(auto, using(crate::proofs::GroupLists::members_more))]
fn list_of(alloc: Global, seats: &[Option<u32>], t: u32) -> Result<Vec<Rank>, NoMemory>
    requires { length seats.now ≤ MAX_RANKS }
    ensures { IfOk result (λ ranks. ranks.items ≡ group_in seats.now t) }
{
    let mut ranks = Vec::new(alloc);
    for r in 0..seats.len() {
        push_member(&mut ranks, seats[r], t, Rank(r as u32))?;
    }
    Ok(ranks)
}

// appends the rank, if its seat is of tile t
fn push_member(ranks: &mut Vec<Rank>, seat: Option<u32>, t: u32, rank: Rank) -> Result<(), NoMemory>
    ensures { IfOk result (λ _. ranks.new.items ≡ ranks.old.items ++ cond (is_of t seat) (rank ∷ []) []) }
{
    if is_of(seat, t) {
        ranks.push(rank)?;
    }
    Ok(())
}

// whether this is the tile of the seat
fn is_of(seat: Option<u32>, t: u32) -> bool
    ensures { result ≡ is_of t seat }
{
    match seat {
        None => false,
        Some(tile) => tile == t,
    }
}
