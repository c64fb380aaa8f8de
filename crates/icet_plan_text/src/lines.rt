//! The parts that lines of several kinds share.
ghost use Rattle.std.specs.Prelude.{◌≡◌, ◌++◌, false};
ghost use Rattle.icet_base.specs.PenText.{Puts};
ghost use Rattle.icet_plan_text.specs.PlanTexts.{place_words, spaced};

use icet_base::{Pen, Sink, WriteFault};
use icet_plan::Exchange;

// two numbers, each behind a space
#[tactic(auto, using(icet_base::proofs::GrowingBytes::puts_then, icet_base::proofs::GrowingBytes::puts_failed))]
pub(crate) fn put_spaced<K: Sink>(pen: &mut Pen<'_, K>, m: u32, n: u32) -> Result<(), WriteFault>
    requires { pen.old.failed ≡ false }
    ensures { Puts K.told pen.old pen.new result (spaced m ++ spaced n) }
{
    pen.put_number(b" ", u64::from(m))?;
    pen.put_number(b" ", u64::from(n))
}

// the tile and the range of an exchange, up to the end of the line
#[tactic(auto, using(icet_base::proofs::GrowingBytes::puts_then, icet_base::proofs::GrowingBytes::puts_failed))]
pub(crate) fn put_place<K: Sink>(
    pen: &mut Pen<'_, K>,
    exchange: &Exchange,
) -> Result<(), WriteFault>
    requires { pen.old.failed ≡ false }
    ensures { Puts K.told pen.old pen.new result (place_words exchange.now) }
{
    put_spaced(pen, exchange.tile, exchange.lo)?;
    pen.put_number_between(b" ", u64::from(exchange.hi), b"\n")
}
