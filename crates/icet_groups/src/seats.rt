//! Seats: which rank is in the group of which tile. There is a seat for each rank; it has the tile, or None where the
//! rank is in no group.
ghost use Rattle.std.specs.Prelude.{◌≡◌, ◌≤◌, ◌<◌, ◌^◌, ◌&&◌, ◌-◌, ℕ, List, false, All, IfOk, length, replicate, get_or, set, true, None};
ghost use Rattle.icet_groups.specs.Seating.{AreMarks, IsSeating, NoneWaits, next_seated};
ghost use Rattle.icet_groups.specs.Seats.{display_seated, displays_seated, filled, seats_after};
ghost use Rattle.icet_groups.specs.Tiles.{has};

use crate::TileRanks;
use icet_base::{NoMemory, Rank};
use std::alloc::Global;

/// The seats of so many ranks: the display of each tile with contributors is in the tile's group, and, tile by tile,
/// others join until the group has its places, each time the lowest contributor that is in no group or, where there is
/// none, the lowest rank that is in no group.
///
/// # Errors
///
/// `NoMemory`.
pub fn seats(
    alloc: Global,
    ranks: u32,
    tiles: &[TileRanks],
    places: &[u32],
) -> Result<Vec<Option<u32>>, NoMemory>
    requires few { length tiles.now < 2 ^ 32 }
    requires each { length places.now ≡ length tiles.now }
    requires shown { All (λ x. x.display < ranks) tiles.now }
    ensures { IfOk result (λ all. all.items ≡ seats_after ranks tiles.now places.now (length tiles.now)) }
{
    let mut all = displays_seated(alloc, ranks, tiles)?;
    for t in 0..tiles.len() {
        let others = places[t].saturating_sub(1);
        fill(alloc, &mut all, t as u32, tiles[t].contributors(), others)?;
    }
    Ok(all)
}

// the displays of tiles with contributors are in their groups, and no other rank is in one
fn displays_seated(
    alloc: Global,
    ranks: u32,
    tiles: &[TileRanks],
) -> Result<Vec<Option<u32>>, NoMemory>
    requires few { length tiles.now < 2 ^ 32 }
    requires shown { All (λ x. x.display < ranks) tiles.now }
    ensures { IfOk result (λ all. all.items ≡ displays_seated ranks tiles.now (length tiles.now)) }
{
    let mut all = nobody_seated(alloc, ranks)?;
    for t in 0..tiles.len() {
        seat_display(&mut all, t as u32, &tiles[t]);
    }
    Ok(all)
}

fn nobody_seated(alloc: Global, ranks: u32) -> Result<Vec<Option<u32>>, NoMemory>
    ensures { IfOk result (λ all. all.items ≡ replicate ranks None) }
{
    let mut all = Vec::new(alloc);
    for _rank in 0..ranks {
        all.push(None)?;
    }
    Ok(all)
}

fn seat_display(seats: &mut Vec<Option<u32>>, t: u32, tile: &TileRanks)
    requires { tile.now.display < length seats.old.items }
    ensures { seats.new.items ≡ display_seated t tile.now seats.old.items }
{
    if tile.contributors().len() > 0 {
        seats[tile.display().0 as usize] = Some(t);
    }
}

// so many newcomers join the group of tile t
fn fill(
    alloc: Global,
    seats: &mut Vec<Option<u32>>,
    t: u32,
    contributors: &[Rank],
    count: u32,
) -> Result<(), NoMemory>
    ensures { IfOk result (λ _. seats.new.items ≡ filled t contributors.now count seats.old.items) }
{
    let marks = marks_of(alloc, seats.len(), contributors)?;
    let left = seat_marked(seats, t, &marks, count);
    seat_free(seats, t, left);
    Ok(())
}

// for each of so many ranks whether it is one of these
fn marks_of(alloc: Global, ranks: usize, marked: &[Rank]) -> Result<Vec<bool>, NoMemory>
    ensures { IfOk result (λ marks. AreMarks ranks marked.now marks.items) }
{
    let mut marks = vec![in alloc; false; ranks]?;
    for rank in marked {
        mark(&mut marks, *rank);
    }
    Ok(marks)
}

// marks the rank, if there is one of this number
fn mark(marks: &mut Vec<bool>, rank: Rank)
    ensures { marks.new.items ≡ set marks.old.items rank true }
{
    let place = rank.0 as usize;
    if place < marks.len() {
        marks[place] = true;
    }
}

// the lowest free contributors, which are marked, join first; the answer is how many places are left
#[tactic(auto, using(crate::proofs::Seatings::marked_more))]
fn seat_marked(seats: &mut Vec<Option<u32>>, t: u32, marks: &[bool], count: u32) -> u32
    requires { length marks.now ≡ length seats.old.items }
    ensures { (contributors : List ℕ) → AreMarks (length seats.old.items) contributors marks.now → IsSeating t contributors seats.old.items count (length seats.old.items) seats.new.items result }
{
    let mut left = count;
    for r in 0..marks.len() {
        left = seat_next(seats, t, r, marks[r], left);
    }
    left
}

// behind the contributors the lowest free ranks join
#[tactic(auto, using(crate::proofs::Seatings::free_more))]
fn seat_free(seats: &mut Vec<Option<u32>>, t: u32, count: u32)
    ensures { (contributors : List ℕ) → (0 < count → NoneWaits contributors seats.old.items (length seats.old.items)) → seats.new.items ≡ filled t contributors count seats.old.items }
{
    let mut left = count;
    for r in 0..seats.len() {
        left = seat_next(seats, t, r, true, left);
    }
}

// rank r joins the group of tile t, if it may, is free and a place is left; the answer is how many are left then
fn seat_next(seats: &mut Vec<Option<u32>>, t: u32, r: usize, may: bool, left: u32) -> u32
    requires { r < length seats.old.items }
    ensures { (seats.new.items, result) ≡ next_seated t r may seats.old.items left }
{
    if left > 0 && may && seats[r].is_none() {
        seats[r] = Some(t);
        return left - 1;
    }
    left
}
