//! Round 0: each contributor hands its image to the member of its block, which folds the block's images.
ghost use Rattle.std.specs.Prelude.{◌≡◌, ◌<◌, ◌≤◌, ◌^◌, IfOk, length};
ghost use Rattle.icet_groups.specs.Tiles.{IsTile};
ghost use Rattle.icet_model.specs.declared.limits.TheConstants.{MAX_RANKS, MAX_TILES};
ghost use Rattle.icet_multi.specs.Direct.{sending};
ghost use Rattle.icet_multi.specs.Reduce.{block_tile};
ghost use Rattle.icet_multi.specs.Reduced.{AreGroupsFor, HaveGrown, IsGroupFor, all_folds, all_sends, given_by, handing, tile_folds, tile_sends};

use crate::drafts::{Draft, fold, hand_in};
use icet_base::{NoMemory, Rank};
use icet_groups::{Groups, TileRanks, block};
use std::alloc::Global;

// the block of member j of a tile's group, as a tile of its own: the member stands for its display
pub(crate) fn block_tile(
    alloc: Global,
    tile: &TileRanks,
    group: &[Rank],
    j: u32,
) -> Result<TileRanks, NoMemory>
    requires member { j < length group.now }
    requires few { length tile.now.contributors < 2 ^ 32 }
    requires low { length group.now < 2 ^ 32 }
    ensures { IfOk result (λ x. x ≡ block_tile tile.now group.now j) }
{
    let mut contributors = Vec::new(alloc);
    contributors.extend_from_slice(block(tile.contributors(), group.len() as u32, j))?;
    Ok(TileRanks::of(tile.size(), group[j as usize], contributors))
}

// all ranks hand in their images
pub(crate) fn push_sends(
    alloc: Global,
    drafts: &mut Vec<Draft>,
    tiles: &[TileRanks],
    groups: &Groups,
) -> Result<(), NoMemory>
    requires low { length drafts.old.items ≤ MAX_RANKS }
    requires few { length tiles.now ≤ MAX_TILES }
    requires groups { AreGroupsFor (length drafts.old.items) tiles.now groups.now }
    ensures { IfOk result (λ _. HaveGrown (all_sends tiles.now groups.now) drafts.old.items drafts.new.items) }
{
    for t in 0..tiles.len() {
        push_tile_sends(alloc, drafts, t as u32, &tiles[t], groups.list(t as u32))?;
    }
    Ok(())
}

// the contributors to tile t hand in their images, block by block
fn push_tile_sends(
    alloc: Global,
    drafts: &mut Vec<Draft>,
    t: u32,
    tile: &TileRanks,
    group: &[Rank],
) -> Result<(), NoMemory>
    requires low { length drafts.old.items ≤ MAX_RANKS }
    requires group { IsGroupFor (length drafts.old.items) tile.now group.now }
    ensures { IfOk result (λ _. HaveGrown (tile_sends t tile.now group.now) drafts.old.items drafts.new.items) }
{
    for j in 0..group.len() {
        let block = block_tile(alloc, tile, group, j as u32)?;
        push_block_sends(drafts, t, &block)?;
    }
    Ok(())
}

// the contributors of a block hand in their images
fn push_block_sends(drafts: &mut Vec<Draft>, t: u32, block: &TileRanks) -> Result<(), NoMemory>
    requires block { IsTile (length drafts.old.items) block.now }
    ensures { IfOk result (λ _. HaveGrown (sending t block.now) drafts.old.items drafts.new.items) }
{
    let contributors = block.contributors();
    for i in 0..contributors.len() {
        push_send(drafts, t, block, contributors[i])?;
    }
    Ok(())
}

// one contributor hands in its image, if it isn't the block's member
#[tactic(auto, using(crate::proofs::Growing::self_grown, crate::proofs::Growing::other_grown))]
fn push_send(drafts: &mut Vec<Draft>, t: u32, block: &TileRanks, rank: Rank) -> Result<(), NoMemory>
    requires rank { rank < length drafts.old.items }
    ensures { IfOk result (λ _. HaveGrown (given_by block.now.display (handing t block.now) rank) drafts.old.items drafts.new.items) }
{
    if rank != block.display() {
        hand_in(drafts, t, block, rank)?;
    }
    Ok(())
}

// all members fold their blocks
pub(crate) fn push_folds(
    alloc: Global,
    drafts: &mut Vec<Draft>,
    tiles: &[TileRanks],
    groups: &Groups,
) -> Result<(), NoMemory>
    requires low { length drafts.old.items ≤ MAX_RANKS }
    requires few { length tiles.now ≤ MAX_TILES }
    requires groups { AreGroupsFor (length drafts.old.items) tiles.now groups.now }
    ensures { IfOk result (λ _. HaveGrown (all_folds tiles.now groups.now) drafts.old.items drafts.new.items) }
{
    for t in 0..tiles.len() {
        push_tile_folds(alloc, drafts, t as u32, &tiles[t], groups.list(t as u32))?;
    }
    Ok(())
}

// the members of the group of tile t fold their blocks
fn push_tile_folds(
    alloc: Global,
    drafts: &mut Vec<Draft>,
    t: u32,
    tile: &TileRanks,
    group: &[Rank],
) -> Result<(), NoMemory>
    requires low { length drafts.old.items ≤ MAX_RANKS }
    requires group { IsGroupFor (length drafts.old.items) tile.now group.now }
    ensures { IfOk result (λ _. HaveGrown (tile_folds t tile.now group.now) drafts.old.items drafts.new.items) }
{
    for j in 0..group.len() {
        let block = block_tile(alloc, tile, group, j as u32)?;
        fold(drafts, t, &block)?;
    }
    Ok(())
}
