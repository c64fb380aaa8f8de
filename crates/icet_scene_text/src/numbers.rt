//! The numbers of a line, each behind a space.
ghost use Rattle.std.specs.Prelude.{◌≡◌, ◌++◌, false, map, codes};
ghost use Rattle.std.specs.List.{flat_map};
ghost use Rattle.icet_base.specs.PenText.{Puts};
ghost use Rattle.icet_scene_model.specs.Printed.{colour_numbers, corner_numbers, integer, natural, paint_numbers, spaced};
ghost use Rattle.icet_raster.specs.Shapes.{corner_of};

use icet_base::{Pen, Rank, Sink, WriteFault};
use icet_pixel::Fragment;
use icet_raster::Vertex;
use icet_text::Number;

/// A number without a sign.
pub(crate) fn natural(size: u32) -> Number
    ensures { result ≡ natural size }
{
    Number {
        is_negative: false,
        size,
    }
}

/// A rank's number.
fn rank_number(rank: Rank) -> Number
    ensures { result ≡ natural rank }
{
    natural(rank.0)
}

/// A number with its sign.
pub(crate) fn integer(n: i32) -> Number
    ensures { result ≡ integer n }
{
    Number {
        is_negative: n < 0,
        size: n.unsigned_abs(),
    }
}

/// Red, green, blue and alpha.
pub(crate) fn colour_numbers(paint: Fragment) -> [Number; 4]
    ensures { result ≡ colour_numbers paint }
{
    [
        natural(u32::from(paint.r())),
        natural(u32::from(paint.g())),
        natural(u32::from(paint.b())),
        natural(u32::from(paint.a())),
    ]
}

/// The depth, and then the colour.
pub(crate) fn paint_numbers(paint: Fragment) -> [Number; 5]
    ensures { result ≡ paint_numbers paint }
{
    let [r, g, b, a] = colour_numbers(paint);
    [natural(paint.z()), r, g, b, a]
}

/// The column and the row of a corner, and then its paint.
pub(crate) fn corner_numbers(corner: Vertex) -> [Number; 7]
    ensures { result ≡ corner_numbers (corner_of corner) }
{
    let [z, r, g, b, a] = paint_numbers(corner.paint);
    [integer(corner.x), integer(corner.y), z, r, g, b, a]
}

/// The numbers, each behind a space.
pub(crate) fn put_numbers<K: Sink>(
    pen: &mut Pen<'_, K>,
    numbers: &[Number],
) -> Result<(), WriteFault>
    requires { pen.old.failed ≡ false }
    ensures { Puts K.told pen.old pen.new result (flat_map spaced numbers.now) }
{
    for number in numbers {
        put_number(pen, *number)?;
    }
    Ok(())
}

fn put_number<K: Sink>(pen: &mut Pen<'_, K>, number: Number) -> Result<(), WriteFault>
    requires { pen.old.failed ≡ false }
    ensures { Puts K.told pen.old pen.new result (spaced number) }
{
    if number.is_negative {
        pen.put_number(b" -", u64::from(number.size))
    } else {
        pen.put_number(b" ", u64::from(number.size))
    }
}

/// The ranks, each behind a space.
pub(crate) fn put_ranks<K: Sink>(pen: &mut Pen<'_, K>, ranks: &[Rank]) -> Result<(), WriteFault>
    requires { pen.old.failed ≡ false }
    ensures { Puts K.told pen.old pen.new result (flat_map spaced (map natural ranks.now)) }
{
    for rank in ranks {
        put_number(pen, rank_number(*rank))?;
    }
    Ok(())
}

/// The numbers of the paints of a row, one paint behind the other.
pub(crate) fn put_paints<K: Sink>(
    pen: &mut Pen<'_, K>,
    paints: &[Fragment],
) -> Result<(), WriteFault>
    requires { pen.old.failed ≡ false }
    ensures { Puts K.told pen.old pen.new result (flat_map spaced (flat_map paint_numbers paints.now)) }
{
    for paint in paints {
        put_numbers(pen, &paint_numbers(*paint))?;
    }
    Ok(())
}
