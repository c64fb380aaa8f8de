ghost use Rattle.std.specs.Prelude.{◌≡◌, ◌++◌, false, codes, decimal};
ghost use Rattle.icet_base.specs.PenText.{Puts};
ghost use Rattle.icet_plan_text.specs.PlanTexts.{bracket_text, tile_line};

use icet_base::{Pen, Sink, WriteFault};
use icet_plan::Bracket;

// a tile with its bracket, up to the end of the line
#[tactic(auto, using(icet_base::proofs::GrowingBytes::puts_then, icet_base::proofs::GrowingBytes::puts_failed))]
pub(crate) fn put_tile<K: Sink>(
    pen: &mut Pen<'_, K>,
    tile: u32,
    bracket: &Bracket,
) -> Result<(), WriteFault>
    requires { pen.old.failed ≡ false }
    ensures { Puts K.told pen.old pen.new result (tile_line tile bracket.now) }
{
    pen.put_number_between(b"tile ", u64::from(tile), b" ")?;
    put_line_end(pen, bracket)
}

#[tactic(auto, using(icet_base::proofs::GrowingBytes::puts_then, icet_base::proofs::GrowingBytes::puts_failed))]
fn put_line_end<K: Sink>(pen: &mut Pen<'_, K>, bracket: &Bracket) -> Result<(), WriteFault>
    requires { pen.old.failed ≡ false }
    ensures { Puts K.told pen.old pen.new result (bracket_text bracket.now ++ codes "\n") }
{
    put_bracket(pen, bracket)?;
    pen.put(b"\n")
}

#[tactic(auto, using(icet_base::proofs::GrowingBytes::puts_then, icet_base::proofs::GrowingBytes::puts_failed))]
fn put_bracket<K: Sink>(pen: &mut Pen<'_, K>, bracket: &Bracket) -> Result<(), WriteFault>
    requires { pen.old.failed ≡ false }
    ensures { Puts K.told pen.old pen.new result (bracket_text bracket.now) }
{
    match bracket {
        Bracket::Empty => pen.put(b"-"),
        Bracket::Leaf(rank) => pen.number(u64::from(rank.0)),
        Bracket::Pair(front, back) => {
            pen.put(b"(")?;
            put_bracket(pen, front.get())?;
            pen.put(b" ")?;
            put_bracket(pen, back.get())?;
            pen.put(b")")
        }
    }
}
