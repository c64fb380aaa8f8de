ghost use Rattle.std.specs.Prelude.{◌≡◌, ◌≤◌, ◌<◌, ◌*◌, [], All, List, IfOk, IfErr, OnOk, Err, false, length, map, if◌then◌else◌};
ghost use Rattle.std.specs.List.{range_with_len, sum_by};
ghost use Rattle.icet_model.specs.declared.limits.TheConstants.{MAX_RANKS, MAX_SCENE_BYTES, MAX_TILES};
ghost use Rattle.icet_model.specs.Tiles.{IsTileArea};
ghost use Rattle.icet_tiles.specs.Layouts.{tile_view};
ghost use Rattle.icet_text.specs.Lines.{lines_of};
ghost use Rattle.icet_scene_model.specs.Scene.{Said, scene_in, mode_of};
ghost use Rattle.icet_scene_model.specs.Texts.{text_is, text_behind, ended, sized};
ghost use Rattle.icet_scene.specs.Drafts.{IsDraft, HasPlace, HasBody};
ghost use Rattle.icet_scene.specs.Readings.{IsReading, with_line, is_faulty};
ghost use Rattle.icet_scene.specs.Lines.{IsFaultOf};
ghost use Rattle.icet_scene_model.specs.SceneLines.{line_behind};

use crate::draft::Draft;
use crate::form::wanted;
use crate::read_line::read_line;
use crate::scene::Scene;
use icet_base::limits::{MAX_RANK_PIXELS, MAX_SCENE_BYTES};
use icet_base::{Mode, NoMemory, Rank};
use icet_scene_model::fault::{LineFault, SceneFault};
use icet_scene_model::limits::WIDE_CHANNEL;
use icet_text::lines::line_at;
use icet_tiles::{Layout, Tile};
use sqlite_items::Items;
use std::alloc::Global;

/// The scene of a text, or the fault that refuses it: `TooLong` before all, then the first faulty line's first
/// fault, then what is missing at the end, then `TooLarge`.
pub fn read(alloc: Global, bytes: &[u8]) -> Result<Scene, SceneFault>
    ensures reading { IsReading result (text_is bytes.now) }
    ensures too_long { MAX_SCENE_BYTES < length bytes.now → result ≡ Err SceneFault.TooLong }
{
    if bytes.len() > MAX_SCENE_BYTES {
        return Err(SceneFault::TooLong);
    }
    read_lines(alloc, bytes)
}

/// The scene of the lines of a text that isn't too long.
#[tactic(auto, using(crate::proofs::Ends::read_on, crate::proofs::Ends::read_faulty))]
fn read_lines(alloc: Global, bytes: &[u8]) -> Result<Scene, SceneFault>
    requires { length bytes.now ≤ MAX_SCENE_BYTES }
    ensures { IsReading result (text_behind [] 1 (lines_of bytes.now)) }
{
    let mut draft = Draft::new(alloc);
    let mut at = 0usize;
    let mut number = 1u32;
    while at < bytes.len() {
        let (line, next) = line_at(bytes, at);
        if let Err(fault) = take_line(alloc, &mut draft, line) {
            return Err(fault.at(number));
        }
        at = next;
        number += 1;
    }
    finish(alloc, draft)
}

/// Adds what a line says, where it isn't skipped.
fn take_line(alloc: Global, draft: &mut Draft, line: &[u8]) -> Result<(), LineFault>
    requires { HasPlace draft.old.place draft.old }
    ensures place { OnOk result (HasPlace draft.new.place draft.new) }
    ensures draft { OnOk result ((before : List Said) → IsDraft before draft.old → IsDraft (with_line (line_behind before line.now) before) draft.new) }
    ensures well { OnOk result ((before : List Said) → IsDraft before draft.old → is_faulty (line_behind before line.now) ≡ false) }
    ensures fault { IfErr result (λ fault. (before : List Said) → IsDraft before draft.old → IsFaultOf fault (line_behind before line.now)) }
{
    match read_line(alloc, draft, line) {
        Err(fault) => Err(fault),
        Ok(None) => Ok(()),
        Ok(Some(said)) => {
            draft.add(said)?;
            Ok(())
        }
    }
}

/// The scene that was read, where nothing is missing and it isn't too large.
#[tactic(auto, using(crate::proofs::Ends::ended_wants, crate::proofs::Ends::ended_sized, crate::proofs::Ends::ended_body))]
fn finish(alloc: Global, draft: Draft) -> Result<Scene, SceneFault>
    requires { HasPlace draft.place draft }
    ensures { (before : List Said) → IsDraft before draft → IsReading result (ended before) }
{
    match wanted(draft.place, draft.blends) {
        Some(want) => Err(SceneFault::Missing(want)),
        None => sized(alloc, draft),
    }
}

/// The scene, unless all images together are too large.
fn sized(alloc: Global, draft: Draft) -> Result<Scene, SceneFault>
    requires { HasBody draft }
    ensures { (before : List Said) → IsDraft before draft → IsReading result (sized (scene_in before)) }
{
    let pixels = tile_pixels(draft.tiles.as_slice());
    if rank_pixels(draft.ranks, pixels) > MAX_RANK_PIXELS {
        return Err(SceneFault::TooLarge);
    }
    let wide = draft.maxval == WIDE_CHANNEL;
    let order = order_of(alloc, draft.blends, draft.ranks, draft.order)?;
    Ok(Scene {
        mode: mode_of(draft.blends, wide),
        wide,
        ranks: draft.ranks,
        background: draft.background,
        order,
        layout: Layout::of(draft.tiles),
        shapes: Items::from_vec(draft.shapes),
    })
}

fn mode_of(blends: bool, wide: bool) -> Mode
    ensures { result ≡ mode_of blends wide }
{
    match (blends, wide) {
        (false, _) => Mode::Depth,
        (true, false) => Mode::Blend,
        (true, true) => Mode::WideBlend,
    }
}

/// How many pixels the tiles have together.
fn tile_pixels(tiles: &[Tile]) -> u64
    requires few { length tiles.now ≤ MAX_TILES }
    requires areas { All (λ tile. IsTileArea tile.area) tiles.now }
    ensures sum { result ≡ sum_by (λ tile. tile.area.w * tile.area.h) (map tile_view tiles.now) }
    ensures small { result ≤ 17179869184 }
{
    let mut pixels = 0u64;
    for tile in tiles {
        pixels += area_pixels(*tile);
    }
    pixels
}

fn area_pixels(tile: Tile) -> u64
    requires { IsTileArea tile.area }
    ensures value { result ≡ tile.area.w * tile.area.h }
    ensures small { result ≤ 268435456 }
{
    u64::from(tile.area.w) * u64::from(tile.area.h)
}

/// How many pixels all ranks' images have together.
fn rank_pixels(ranks: u32, pixels: u64) -> u64
    requires ranks { ranks ≤ MAX_RANKS }
    requires pixels { pixels ≤ 17179869184 }
    ensures { result ≡ ranks * pixels }
{
    u64::from(ranks) * pixels
}

/// The order that was read where the scene blends, and the ranks ascending where it doesn't.
fn order_of(
    alloc: Global,
    blends: bool,
    ranks: u32,
    order: Vec<Rank>,
) -> Result<Items<Rank>, NoMemory>
    ensures { IfOk result (λ all. all ≡ (if blends then order.items else range_with_len 0 ranks)) }
{
    if blends {
        Ok(Items::from_vec(order))
    } else {
        ascending(alloc, ranks)
    }
}

/// So many ranks, ascending.
fn ascending(alloc: Global, ranks: u32) -> Result<Items<Rank>, NoMemory>
    ensures { IfOk result (λ order. order ≡ range_with_len 0 ranks) }
{
    let mut order = Vec::new(alloc);
    for r in 0..ranks {
        order.push(Rank(r))?;
    }
    Ok(Items::from_vec(order))
}
