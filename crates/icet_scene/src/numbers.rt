ghost use Rattle.std.specs.Prelude.{◌≡◌, ◌≤◌, ◌<◌, ◌+◌, ◌↔◌, IfSome, IsSome, length, true};
ghost use Rattle.icet_text.specs.Numbers.{size_at};
ghost use Rattle.icet_scene_model.specs.Fields.{from_to, rank_field, tile_fields, stand_fields, paint_fields, tri_fields, most_ranks, most_tiles};
ghost use Rattle.icet_scene_model.specs.Lawful.{IsPaint};
ghost use Rattle.icet_scene_model.specs.SceneLines.{paint_at, is_premultiplied};
ghost use Rattle.icet_scene.specs.Lines.{HasPaintAt};

use icet_base::limits::{MAX_DEPTH, MAX_PLACE, MAX_RANKS, MAX_SIDE, MAX_TILES};
use icet_pixel::Fragment;
use icet_scene_model::limits::{FIRST_VERSION_RANKS, FIRST_VERSION_TILES};
use icet_text::numbers::size;
use icet_text::{Field, Number};

/// The greatest coordinate of a corner, in sixteenths of a pixel.
pub const MAX_COORDINATE: u32 = 262_143;

/// A number without a sign, from a least to a greatest one.
pub fn from_to(least: u32, greatest: u32) -> Field
    ensures { result ≡ from_to least greatest }
{
    Field {
        is_signed: false,
        least,
        greatest,
    }
}

/// A rank of so many.
pub fn rank_field(ranks: u32) -> Field
    ensures { result ≡ rank_field ranks }
{
    from_to(0, ranks.saturating_sub(1))
}

/// The fields of a tile: x, y, w, h and the display rank.
pub fn tile_fields(ranks: u32) -> [Field; 5]
    ensures { result ≡ tile_fields ranks }
{
    let (place, side) = (from_to(0, MAX_PLACE), from_to(1, MAX_SIDE));
    [place, place, side, side, rank_field(ranks)]
}

/// Where a point or a span of a rank stands: the rank, x and y.
pub fn stand_fields(ranks: u32) -> [Field; 3]
    ensures { result ≡ stand_fields ranks }
{
    let place = from_to(0, MAX_PLACE);
    [rank_field(ranks), place, place]
}

/// The fields of a paint: z, and then r, g, b and a up to the greatest.
pub fn paint_fields(most: u32) -> [Field; 5]
    ensures { result ≡ paint_fields most }
{
    let (z, c) = (from_to(0, MAX_DEPTH), from_to(0, most));
    [z, c, c, c, c]
}

/// The fields of a triangle: the rank, and for each corner x and y in sixteenths of a pixel and its paint.
#[inline(always)]
pub fn tri_fields(ranks: u32, most: u32) -> [Field; 22]
    ensures { result ≡ tri_fields ranks most }
{
    let x = Field {
        is_signed: true,
        least: 0,
        greatest: MAX_COORDINATE,
    };
    let rank = rank_field(ranks);
    let (z, c) = (from_to(0, MAX_DEPTH), from_to(0, most));
    [
        rank, x, x, z, c, c, c, c, x, x, z, c, c, c, c, x, x, z, c, c, c, c,
    ]
}

/// How many ranks a scene of a version may have.
pub fn most_ranks(version: u32) -> u32
    ensures { result ≡ most_ranks version }
{
    if version == 2 {
        MAX_RANKS
    } else {
        FIRST_VERSION_RANKS
    }
}

/// How many tiles a scene of a version may have.
pub fn most_tiles(version: u32) -> u32
    ensures { result ≡ most_tiles version }
{
    if version == 2 {
        MAX_TILES
    } else {
        FIRST_VERSION_TILES
    }
}

/// The paint whose depth, red, green, blue and alpha stand from a place of the numbers on; None where a
/// channel exceeds the alpha.
#[inline(always)]
pub fn paint(most: u32, ns: &[Number], i: usize) -> Option<Fragment>
    requires most { most ≤ 65535 }
    requires paint { HasPaintAt most ns.now i }
    ensures paint { IfSome result (λ paint. paint ≡ paint_at ns.now i) }
    ensures exact { IsSome result ↔ (is_premultiplied (paint_at ns.now i) ≡ true) }
    ensures lawful { IfSome result (IsPaint most) }
{
    Fragment::new(
        size(ns, i + 1) as u16,
        size(ns, i + 2) as u16,
        size(ns, i + 3) as u16,
        size(ns, i + 4) as u16,
        size(ns, i),
    )
}
