ghost use Rattle.std.specs.Prelude.{◌≡◌, ◌++◌, codes, decimal, false};
ghost use Rattle.icet_base.specs.PenText.{Puts};
ghost use Rattle.icet_summary.specs.Summaries.{finish, spaced, summary_text, tally_words, tile_line, tile_lines, tile_words};

use crate::tally::Tally;
use icet_base::{Mode, Pen, Sink, WriteFault};
use icet_pixel::{Dense, Fragment};

/// Puts the summary of these pictures into the pen: for each tile its number, width, height, the number of pixels where
/// nothing was drawn, and the sums of red, green, blue and alpha of the picture text; and then the weight of the images.
///
/// # Errors
///
/// `WriteFault`; the sink holds a front of the pen's text.
#[tactic(auto, using(icet_base::proofs::GrowingBytes::puts_then, icet_base::proofs::GrowingBytes::puts_failed))]
pub fn put_summary<K: Sink>(
    pen: &mut Pen<'_, K>,
    wide: bool,
    mode: Mode,
    background: Fragment,
    pictures: &[Dense],
    weight: u64,
) -> Result<(), WriteFault>
    requires { pen.old.failed ≡ false }
    ensures { Puts K.told pen.old pen.new result (summary_text (finish wide mode background) pictures.now weight) }
{
    put_tiles(pen, wide, mode, background, pictures)?;
    pen.put_number_between(b"weight ", weight, b"\n")
}

// a line for each picture
fn put_tiles<K: Sink>(
    pen: &mut Pen<'_, K>,
    wide: bool,
    mode: Mode,
    background: Fragment,
    pictures: &[Dense],
) -> Result<(), WriteFault>
    requires { pen.old.failed ≡ false }
    ensures { Puts K.told pen.old pen.new result (tile_lines (finish wide mode background) pictures.now) }
{
    for t in 0..pictures.len() {
        put_tile(pen, t as u64, &pictures[t], wide, mode, background)?;
    }
    Ok(())
}

// the line of one picture
#[tactic(auto, using(icet_base::proofs::GrowingBytes::puts_then, icet_base::proofs::GrowingBytes::puts_failed))]
fn put_tile<K: Sink>(
    pen: &mut Pen<'_, K>,
    t: u64,
    picture: &Dense,
    wide: bool,
    mode: Mode,
    background: Fragment,
) -> Result<(), WriteFault>
    requires { pen.old.failed ≡ false }
    ensures { Puts K.told pen.old pen.new result (tile_line (finish wide mode background) t picture.now) }
{
    put_place(pen, t, picture)?;
    put_tally(pen, Tally::of(picture, wide, mode, background))
}

// a tile's number, its width and its height
#[tactic(auto, using(icet_base::proofs::GrowingBytes::puts_then, icet_base::proofs::GrowingBytes::puts_failed))]
fn put_place<K: Sink>(pen: &mut Pen<'_, K>, t: u64, picture: &Dense) -> Result<(), WriteFault>
    requires { pen.old.failed ≡ false }
    ensures { Puts K.told pen.old pen.new result (tile_words t picture.now.w picture.now.h) }
{
    pen.put_number(b"tile ", t)?;
    put_pair(pen, u64::from(picture.width()), u64::from(picture.height()))
}

// what was counted, up to the end of the line
#[tactic(auto, using(icet_base::proofs::GrowingBytes::puts_then, icet_base::proofs::GrowingBytes::puts_failed))]
fn put_tally<K: Sink>(pen: &mut Pen<'_, K>, all: Tally) -> Result<(), WriteFault>
    requires { pen.old.failed ≡ false }
    ensures { Puts K.told pen.old pen.new result (tally_words all) }
{
    put_drawn(pen, all)?;
    put_rest(pen, all)
}

// the first three numbers of a tally
#[tactic(auto, using(icet_base::proofs::GrowingBytes::puts_then, icet_base::proofs::GrowingBytes::puts_failed))]
fn put_drawn<K: Sink>(pen: &mut Pen<'_, K>, all: Tally) -> Result<(), WriteFault>
    requires { pen.old.failed ≡ false }
    ensures { Puts K.told pen.old pen.new result (spaced all.blank ++ (spaced all.red ++ spaced all.green)) }
{
    pen.put_number(b" ", all.blank)?;
    put_pair(pen, all.red, all.green)
}

// the last two, and the end of the line
#[tactic(auto, using(icet_base::proofs::GrowingBytes::puts_then, icet_base::proofs::GrowingBytes::puts_failed))]
fn put_rest<K: Sink>(pen: &mut Pen<'_, K>, all: Tally) -> Result<(), WriteFault>
    requires { pen.old.failed ≡ false }
    ensures { Puts K.told pen.old pen.new result ((spaced all.blue ++ spaced all.alpha) ++ codes "\n") }
{
    put_pair(pen, all.blue, all.alpha)?;
    pen.put(b"\n")
}

// two numbers, each behind a space
#[tactic(auto, using(icet_base::proofs::GrowingBytes::puts_then, icet_base::proofs::GrowingBytes::puts_failed))]
fn put_pair<K: Sink>(pen: &mut Pen<'_, K>, m: u64, n: u64) -> Result<(), WriteFault>
    requires { pen.old.failed ≡ false }
    ensures { Puts K.told pen.old pen.new result (spaced m ++ spaced n) }
{
    pen.put_number(b" ", m)?;
    pen.put_number(b" ", n)
}
