//! The spans of a rank, row by row.
ghost use Rattle.std.specs.Prelude.{◌≡◌, ◌≤◌, List, All, OnOk};
ghost use Rattle.std.specs.List.{flat_map, range_with_len};
ghost use Rattle.icet_model.specs.declared.limits.TheConstants.{MAX_PLACE, MAX_SIDE};
ghost use Rattle.icet_model.specs.declared.names.Mode.{Mode};
ghost use Rattle.icet_scene_model.specs.Raster.{Drawing};
ghost use Rattle.icet_scene_model.specs.Ready.{row_spans};
ghost use Rattle.icet_upgrade.specs.Scans.{Adds, IsScan, Passes};
ghost use Rattle.icet_upgrade.specs.TileImages.{AreInOrder, HasRow, IsTileImage, Shows, pixels_from, tile_areas, tile_pixels};

use crate::scan::Scan;
use crate::tile_image::TileImage;
use icet_base::{NoMemory, Rank};
use icet_raster::Shape;
use std::alloc::Global;

/// Adds the spans of so many rows. Condition: the tiles are in the order of their left edges.
pub(crate) fn add_rows(
    alloc: Global,
    spans: &mut Vec<(Rank, Shape)>,
    tiles: &[TileImage],
    rank: Rank,
    rows: u32,
) -> Result<(), NoMemory>
    requires tiles { AreInOrder tiles.now }
    requires rows { rows ≤ MAX_SIDE }
    ensures { OnOk result ((mode : Mode) (shapes : List Drawing) → All (Shows mode shapes) tiles.now
        → Adds spans.old.items spans.new.items (flat_map (row_spans mode (tile_areas tiles.now) shapes rank) (range_with_len 0 rows))) }
{
    for y in 0..rows {
        add_row(alloc, spans, tiles, rank, y)?;
    }
    Ok(())
}

/// Adds the spans of a row, from left to right.
fn add_row(
    alloc: Global,
    spans: &mut Vec<(Rank, Shape)>,
    tiles: &[TileImage],
    rank: Rank,
    y: u32,
) -> Result<(), NoMemory>
    requires tiles { AreInOrder tiles.now }
    requires row { y ≤ MAX_PLACE }
    ensures { OnOk result ((mode : Mode) (shapes : List Drawing) → All (Shows mode shapes) tiles.now
        → Adds spans.old.items spans.new.items (row_spans mode (tile_areas tiles.now) shapes rank y)) }
{
    let mut scan = Scan::new(alloc, rank, y);
    for tile in tiles {
        pass_tile(alloc, &mut scan, spans, tile)?;
    }
    scan.end_run(alloc, spans)
}

/// Goes over the columns up to the tile's right end that weren't looked at, where the row is one of the tile.
fn pass_tile(
    alloc: Global,
    scan: &mut Scan,
    spans: &mut Vec<(Rank, Shape)>,
    tile: &TileImage,
) -> Result<(), NoMemory>
    requires scan { IsScan scan.old }
    requires tile { IsTileImage tile.now }
    ensures { OnOk result (Passes scan.old spans.old.items scan.new spans.new.items (tile_pixels scan.old.next scan.old.y tile.now)) }
{
    if tile.has_row(scan.y) {
        pass_row(alloc, scan, spans, tile)
    } else {
        Ok(())
    }
}

/// Goes over the columns up to the tile's right end that weren't looked at. Condition: the row is one of the tile.
fn pass_row(
    alloc: Global,
    scan: &mut Scan,
    spans: &mut Vec<(Rank, Shape)>,
    tile: &TileImage,
) -> Result<(), NoMemory>
    requires scan { IsScan scan.old }
    requires tile { IsTileImage tile.now }
    requires row { HasRow tile.now scan.old.y }
    ensures { OnOk result (Passes scan.old spans.old.items scan.new spans.new.items (pixels_from scan.old.next scan.old.y tile.now)) }
{
    let left = tile.left().max(scan.next);
    scan.skip_to(alloc, spans, left)?;
    scan.pass(alloc, spans, tile.row_from(scan.y, left))
}
