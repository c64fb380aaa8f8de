ghost use Rattle.std.specs.Prelude.{◌≡◌, ◌≤◌, ◌<◌, ◌^◌, ◌++◌, [], ◌∷◌, ℕ, IfOk, map, length};
ghost use Rattle.std.specs.List.{range_with_len};
ghost use Rattle.icet_multi.specs.Direct.{AreTiles, IsDirect, IsTile, TileView, direct_plan, direct_program, fetch, folds, sending, sendings, send_of, showing, showings, take_of, tile_bracket};
ghost use Rattle.icet_model.specs.declared.limits.TheConstants.{MAX_RANKS, MAX_TILES};

use crate::tile::{bracket_of, hands_in};
use icet_base::{NoMemory, Rank};
use icet_groups::TileRanks;
use icet_plan::{Bracket, Exchange, Kind, Op, Plan, Program};
use std::alloc::Global;

/// The plan over these tiles in which every contributor to a tile, other than its display, sends its
/// whole image of the tile to the display in round 0, and the display folds the images from the left
/// in the order of the contributors. There are at most 256 ranks and 64 tiles, each tile has a
/// display of its own, and no contributor stands twice in a tile.
///
/// # Errors
///
/// `NoMemory`.
pub fn direct(alloc: Global, ranks: u32, tiles: &[TileRanks]) -> Result<Plan, NoMemory>
    requires ranks { ranks ≤ MAX_RANKS }
    requires few { length tiles.now ≤ MAX_TILES }
    requires tiles { AreTiles ranks tiles.now }
    ensures plan { IfOk result (λ p. IsDirect ranks tiles.now p) }
    ensures programs { IfOk result (λ p. p ≡ direct_plan ranks tiles.now) }
{
    let sizes = sizes_of(alloc, tiles)?;
    let displays = displays_of(alloc, tiles)?;
    let brackets = brackets_of(alloc, tiles)?;
    let programs = programs_of(alloc, ranks, tiles)?;
    Plan::make(alloc, sizes, displays, brackets, programs)
}

// the number of pixels of each tile
pub(crate) fn sizes_of(alloc: Global, tiles: &[TileRanks]) -> Result<Vec<u32>, NoMemory>
    ensures { IfOk result (λ all. all.items ≡ map (λ x. x.size) tiles.now) }
{
    let mut all = Vec::new(alloc);
    for tile in tiles {
        all.push(tile.size())?;
    }
    Ok(all)
}

// the rank that shows each tile
pub(crate) fn displays_of(alloc: Global, tiles: &[TileRanks]) -> Result<Vec<Rank>, NoMemory>
    ensures { IfOk result (λ all. all.items ≡ map (λ x. x.display) tiles.now) }
{
    let mut all = Vec::new(alloc);
    for tile in tiles {
        all.push(tile.display())?;
    }
    Ok(all)
}

fn brackets_of(alloc: Global, tiles: &[TileRanks]) -> Result<Vec<Bracket>, NoMemory>
    ensures { IfOk result (λ all. all.items ≡ map tile_bracket tiles.now) }
{
    let mut all = Vec::new(alloc);
    for tile in tiles {
        all.push(bracket_of(alloc, tile)?)?;
    }
    Ok(all)
}

#[tactic(auto, using(crate::proofs::DirectSteps::listed_more))]
fn programs_of(alloc: Global, ranks: u32, tiles: &[TileRanks]) -> Result<Vec<Program>, NoMemory>
    requires ranks { ranks ≤ MAX_RANKS }
    requires few { length tiles.now ≤ MAX_TILES }
    requires tiles { AreTiles ranks tiles.now }
    ensures { IfOk result (λ all. all.items ≡ map (direct_program tiles.now) (range_with_len 0 ranks)) }
{
    let mut all = Vec::new(alloc);
    for rank in 0..ranks {
        let ops = ops_of(alloc, Rank(rank), tiles)?;
        all.push(Program::of(ops))?;
    }
    Ok(all)
}

// a rank's operations: what it hands in, tile by tile, and then what it shows
fn ops_of(alloc: Global, rank: Rank, tiles: &[TileRanks]) -> Result<Vec<Op>, NoMemory>
    requires { length tiles.now ≤ MAX_TILES }
    ensures { IfOk result (λ ops. ops.items ≡ direct_program tiles.now rank) }
{
    let mut ops = Vec::new(alloc);
    push_sendings(&mut ops, rank, tiles)?;
    push_showings(&mut ops, rank, tiles)?;
    Ok(ops)
}

fn push_sendings(ops: &mut Vec<Op>, rank: Rank, tiles: &[TileRanks]) -> Result<(), NoMemory>
    requires { length tiles.now ≤ MAX_TILES }
    ensures { IfOk result (λ _. ops.new.items ≡ ops.old.items ++ sendings 0 tiles.now rank) }
{
    for t in 0..tiles.len() {
        push_sending(ops, rank, t as u32, &tiles[t])?;
    }
    Ok(())
}

fn push_showings(ops: &mut Vec<Op>, rank: Rank, tiles: &[TileRanks]) -> Result<(), NoMemory>
    requires { length tiles.now ≤ MAX_TILES }
    ensures { IfOk result (λ _. ops.new.items ≡ ops.old.items ++ showings 0 tiles.now rank) }
{
    for t in 0..tiles.len() {
        push_showing(ops, rank, t as u32, &tiles[t])?;
    }
    Ok(())
}

// hands the rank's image of a tile to the display, if it contributes and isn't the display itself
fn push_sending(ops: &mut Vec<Op>, rank: Rank, t: u32, tile: &TileRanks) -> Result<(), NoMemory>
    ensures { IfOk result (λ _. ops.new.items ≡ ops.old.items ++ sending t tile.now rank) }
{
    if hands_in(tile, rank) {
        ops.push(Op::Load { tile: t, slot: 0 })?;
        ops.push(Op::Swap {
            exchange: whole(Kind::Send, tile.display(), t, tile.size()),
            slot: 0,
        })?;
    }
    Ok(())
}

// folds the contributors' images from the left and keeps them, if the rank is the display
fn push_showing(ops: &mut Vec<Op>, rank: Rank, t: u32, tile: &TileRanks) -> Result<(), NoMemory>
    ensures { IfOk result (λ _. ops.new.items ≡ ops.old.items ++ showing t tile.now rank) }
{
    if tile.display() == rank {
        push_folds(ops, t, tile)?;
        ops.push(Op::Keep { slot: 0 })?;
    }
    Ok(())
}

// appends what a tile's display does to get the contributors' images, folded from the left, into slot 0: it loads its own
// and takes the others, and without contributors it is a blank
#[tactic(auto, using(crate::proofs::DirectSteps::folds_more))]
pub(crate) fn push_folds(ops: &mut Vec<Op>, t: u32, tile: &TileRanks) -> Result<(), NoMemory>
    ensures { IfOk result (λ _. ops.new.items ≡ ops.old.items ++ folds t tile.now tile.now.contributors) }
{
    let contributors = tile.contributors();
    if contributors.is_empty() {
        ops.push(Op::Blank { tile: t, slot: 0 })?;
        return Ok(());
    }
    ops.push(fetch(t, tile, 0, contributors[0]))?;
    for i in 1..contributors.len() {
        push_join(ops, t, tile, contributors[i])?;
    }
    Ok(())
}

// joins one contributor's image behind those before
fn push_join(ops: &mut Vec<Op>, t: u32, tile: &TileRanks, contributor: Rank) -> Result<(), NoMemory>
    ensures { IfOk result (λ _. ops.new.items ≡ ops.old.items ++ fetch t tile.now 1 contributor ∷ Op.Join 0 1 0 ∷ []) }
{
    ops.push(fetch(t, tile, 1, contributor))?;
    ops.push(Op::Join {
        front: 0,
        back: 1,
        into: 0,
    })?;
    Ok(())
}

// brings one contributor's image into a slot of the display
fn fetch(t: u32, tile: &TileRanks, slot: u32, contributor: Rank) -> Op
    ensures { result ≡ fetch t tile.now slot contributor }
{
    if contributor == tile.display() {
        Op::Load { tile: t, slot }
    } else {
        Op::Swap {
            exchange: whole(Kind::Take, contributor, t, tile.size()),
            slot,
        }
    }
}

// the exchange of a whole image in round 0
pub(crate) fn whole(kind: Kind, peer: Rank, tile: u32, size: u32) -> Exchange
    ensures { result ≡ record { round = 0; kind = kind; peer = peer; tile = tile; lo = 0; hi = size } }
{
    Exchange {
        round: 0,
        kind,
        peer,
        tile,
        lo: 0,
        hi: size,
    }
}
