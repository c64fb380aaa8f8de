//! The lines of a scene's text, each with its newline.
ghost use Rattle.std.specs.Prelude.{◌≡◌, ◌++◌, ◌<◌, false, codes, slice_index_or};
ghost use Rattle.std.specs.List.{flat_map};
ghost use Rattle.icet_base.specs.PenText.{Puts};
ghost use Rattle.icet_raster.specs.Shapes.{corner_of, drawing_of, nowhere, triangle_of};
ghost use Rattle.icet_tiles.specs.Layouts.{tile_view};
ghost use Rattle.icet_scene_model.specs.Raster.{Point, Span, Tri};
ghost use Rattle.icet_scene_model.specs.Printed.{corner_numbers, line_of, numbers_line, paint_numbers, shape_line, spaced, triangle_numbers};
ghost use Rattle.icet_scene_model.specs.Scene.{HeadIs, ModeIs, RanksAre, MaxvalIs, BackgroundIs, OrderIs, TileIs};

use crate::numbers::{
    colour_numbers, corner_numbers, natural, paint_numbers, put_numbers, put_paints, put_ranks,
};
use icet_base::{Pen, Rank, Sink, WriteFault};
use icet_pixel::Fragment;
use icet_raster::{Paints, Shape, Vertex};
use icet_text::Number;
use icet_tiles::Tile;

/// A keyword and the numbers behind it.
#[tactic(auto, using(icet_base::proofs::GrowingBytes::puts_then, icet_base::proofs::GrowingBytes::puts_failed))]
pub(crate) fn put_line<K: Sink>(
    pen: &mut Pen<'_, K>,
    keyword: &[u8],
    numbers: &[Number],
) -> Result<(), WriteFault>
    requires { pen.old.failed ≡ false }
    ensures { Puts K.told pen.old pen.new result (numbers_line keyword.now numbers.now ++ codes "\n") }
{
    pen.put(keyword)?;
    put_numbers(pen, numbers)?;
    pen.put(b"\n")
}

/// The version of the text.
pub(crate) fn put_version<K: Sink>(pen: &mut Pen<'_, K>, version: u32) -> Result<(), WriteFault>
    requires { pen.old.failed ≡ false }
    ensures { Puts K.told pen.old pen.new result (line_of (HeadIs version) ++ codes "\n") }
{
    put_line(pen, b"icet-scene", &[natural(version)])
}

/// Whether the scene blends.
pub(crate) fn put_mode<K: Sink>(pen: &mut Pen<'_, K>, blends: bool) -> Result<(), WriteFault>
    requires { pen.old.failed ≡ false }
    ensures { Puts K.told pen.old pen.new result (line_of (ModeIs blends) ++ codes "\n") }
{
    if blends {
        pen.put(b"mode blend\n")
    } else {
        pen.put(b"mode depth\n")
    }
}

/// The number of ranks.
pub(crate) fn put_count<K: Sink>(pen: &mut Pen<'_, K>, ranks: u32) -> Result<(), WriteFault>
    requires { pen.old.failed ≡ false }
    ensures { Puts K.told pen.old pen.new result (line_of (RanksAre ranks) ++ codes "\n") }
{
    put_line(pen, b"ranks", &[natural(ranks)])
}

/// The greatest value of a colour channel.
pub(crate) fn put_maxval<K: Sink>(pen: &mut Pen<'_, K>, greatest: u32) -> Result<(), WriteFault>
    requires { pen.old.failed ≡ false }
    ensures { Puts K.told pen.old pen.new result (line_of (MaxvalIs greatest) ++ codes "\n") }
{
    put_line(pen, b"maxval", &[natural(greatest)])
}

/// The background's colour.
pub(crate) fn put_background<K: Sink>(
    pen: &mut Pen<'_, K>,
    paint: Fragment,
) -> Result<(), WriteFault>
    requires { pen.old.failed ≡ false }
    ensures { Puts K.told pen.old pen.new result (line_of (BackgroundIs paint) ++ codes "\n") }
{
    put_line(pen, b"background", &colour_numbers(paint))
}

/// The order of the ranks, the front first.
#[tactic(auto, using(icet_base::proofs::GrowingBytes::puts_then, icet_base::proofs::GrowingBytes::puts_failed))]
pub(crate) fn put_order<K: Sink>(pen: &mut Pen<'_, K>, order: &[Rank]) -> Result<(), WriteFault>
    requires { pen.old.failed ≡ false }
    ensures { Puts K.told pen.old pen.new result (line_of (OrderIs order.now) ++ codes "\n") }
{
    pen.put(b"order")?;
    put_ranks(pen, order)?;
    pen.put(b"\n")
}

/// A tile, and the rank that displays it.
pub(crate) fn put_tile<K: Sink>(pen: &mut Pen<'_, K>, tile: Tile) -> Result<(), WriteFault>
    requires { pen.old.failed ≡ false }
    ensures { Puts K.told pen.old pen.new result (line_of (TileIs (tile_view tile)) ++ codes "\n") }
{
    let numbers = [
        natural(tile.area.x.unsigned_abs()),
        natural(tile.area.y.unsigned_abs()),
        natural(tile.area.w),
        natural(tile.area.h),
        natural(tile.display.0),
    ];
    put_line(pen, b"tile", &numbers)
}

/// A shape of a rank.
pub(crate) fn put_shape<K: Sink>(
    pen: &mut Pen<'_, K>,
    rank: Rank,
    shape: &Shape,
) -> Result<(), WriteFault>
    requires { pen.old.failed ≡ false }
    ensures { Puts K.told pen.old pen.new result (shape_line rank (drawing_of shape.now) ++ codes "\n") }
{
    match shape {
        Shape::Point { x, y, paint } => {
            put_point(pen, rank.0, x.unsigned_abs(), y.unsigned_abs(), *paint)
        }
        Shape::Tri { corners } => put_triangle(pen, rank.0, corners),
        Shape::Span { x, y, paints } => {
            put_span(pen, rank.0, x.unsigned_abs(), y.unsigned_abs(), paints)
        }
    }
}

fn put_point<K: Sink>(
    pen: &mut Pen<'_, K>,
    rank: u32,
    x: u32,
    y: u32,
    paint: Fragment,
) -> Result<(), WriteFault>
    requires { pen.old.failed ≡ false }
    ensures { Puts K.told pen.old pen.new result (shape_line rank (Point x y paint) ++ codes "\n") }
{
    let [z, r, g, b, a] = paint_numbers(paint);
    let numbers = [natural(rank), natural(x), natural(y), z, r, g, b, a];
    put_line(pen, b"point", &numbers)
}

#[tactic(auto, using(icet_base::proofs::GrowingBytes::puts_then, icet_base::proofs::GrowingBytes::puts_failed))]
fn put_span<K: Sink>(
    pen: &mut Pen<'_, K>,
    rank: u32,
    x: u32,
    y: u32,
    paints: &Paints,
) -> Result<(), WriteFault>
    requires { pen.old.failed ≡ false }
    ensures { Puts K.told pen.old pen.new result (shape_line rank (Span x y paints.now) ++ codes "\n") }
{
    pen.put(b"span")?;
    put_row(pen, [natural(rank), natural(x), natural(y)], paints)?;
    pen.put(b"\n")
}

/// The rank and the place, and the paints from there on.
#[tactic(auto, using(crate::proofs::NumberPieces::numbers_then, crate::proofs::NumberPieces::numbers_failed))]
fn put_row<K: Sink>(
    pen: &mut Pen<'_, K>,
    stand: [Number; 3],
    paints: &Paints,
) -> Result<(), WriteFault>
    requires { pen.old.failed ≡ false }
    ensures { Puts K.told pen.old pen.new result (flat_map spaced (stand ++ flat_map paint_numbers paints.now)) }
{
    put_numbers(pen, &stand)?;
    put_paints(pen, paints.as_slice())
}

#[tactic(auto, using(icet_base::proofs::GrowingBytes::puts_then, icet_base::proofs::GrowingBytes::puts_failed))]
fn put_triangle<K: Sink>(
    pen: &mut Pen<'_, K>,
    rank: u32,
    corners: &[Vertex; 3],
) -> Result<(), WriteFault>
    requires { pen.old.failed ≡ false }
    ensures { Puts K.told pen.old pen.new result (shape_line rank (Tri (triangle_of corners.now)) ++ codes "\n") }
{
    pen.put_number(b"tri ", u64::from(rank))?;
    put_corners(pen, corners)?;
    pen.put(b"\n")
}

fn put_corners<K: Sink>(pen: &mut Pen<'_, K>, corners: &[Vertex; 3]) -> Result<(), WriteFault>
    requires { pen.old.failed ≡ false }
    ensures { Puts K.told pen.old pen.new result (flat_map spaced (triangle_numbers (triangle_of corners.now))) }
{
    put_corner(pen, corners, 0)?;
    put_corner(pen, corners, 1)?;
    put_corner(pen, corners, 2)
}

fn put_corner<K: Sink>(
    pen: &mut Pen<'_, K>,
    corners: &[Vertex; 3],
    i: usize,
) -> Result<(), WriteFault>
    requires open { pen.old.failed ≡ false }
    requires within { i < 3 }
    ensures { Puts K.told pen.old pen.new result (flat_map spaced (corner_numbers (corner_of (slice_index_or corners.now i nowhere)))) }
{
    put_numbers(pen, &corner_numbers(corners[i]))
}
