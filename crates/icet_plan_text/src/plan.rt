ghost use Rattle.std.specs.Prelude.{◌≡◌, ◌<◌, ◌++◌, false, length, decimal, codes};
ghost use Rattle.icet_model.specs.Plan.{plan_exchanges};
ghost use Rattle.icet_model.specs.Streams.{WritesAll};
ghost use Rattle.icet_base.specs.PenText.{Puts};
ghost use Rattle.icet_plan_text.specs.PlanTexts.{brackets_text, exchange_line, kind_word, place_words, plan_text, program_text, programs_text, spaced};

use crate::brackets::put_tile;
use crate::lines::{put_place, put_spaced};
use icet_base::{Pen, Rank, Sink, WriteFault};
use icet_plan::{Exchange, Kind, Plan};

/// Writes a plan: a line for each tile with its bracket, and then a line for each rank's exchanges, in the order
/// of its program: whether it sends or takes, the round, the other rank, the tile, and the range of positions.
/// The sink is flushed once.
///
/// # Errors
///
/// `WriteFault`; the sink holds a front of the text behind what was written before.
pub fn write_plan<K: Sink>(sink: &mut K, plan: &Plan) -> Result<(), WriteFault>
    ensures { WritesAll (K.told sink.old) (K.told sink.new) result (plan_text plan.now.brackets (plan_exchanges plan.now)) }
{
    let mut pen = Pen::new(sink);
    put_plan(&mut pen, plan)?;
    pen.finish()
}

#[tactic(auto, using(icet_base::proofs::GrowingBytes::puts_then, icet_base::proofs::GrowingBytes::puts_failed))]
fn put_plan<K: Sink>(pen: &mut Pen<'_, K>, plan: &Plan) -> Result<(), WriteFault>
    requires { pen.old.failed ≡ false }
    ensures { Puts K.told pen.old pen.new result (plan_text plan.now.brackets (plan_exchanges plan.now)) }
{
    put_tiles(pen, plan)?;
    put_programs(pen, plan)
}

fn put_tiles<K: Sink>(pen: &mut Pen<'_, K>, plan: &Plan) -> Result<(), WriteFault>
    requires { pen.old.failed ≡ false }
    ensures { Puts K.told pen.old pen.new result (brackets_text plan.now.brackets) }
{
    // That there is a bracket for each tile is known after a look at the plan.
    let _ranks = plan.ranks();
    for tile in 0..plan.tiles() {
        put_tile(pen, tile, plan.bracket(tile))?;
    }
    Ok(())
}

fn put_programs<K: Sink>(pen: &mut Pen<'_, K>, plan: &Plan) -> Result<(), WriteFault>
    requires { pen.old.failed ≡ false }
    ensures { Puts K.told pen.old pen.new result (programs_text (plan_exchanges plan.now)) }
{
    for rank in 0..plan.ranks() {
        put_program(pen, plan, Rank(rank))?;
    }
    Ok(())
}

fn put_program<K: Sink>(pen: &mut Pen<'_, K>, plan: &Plan, rank: Rank) -> Result<(), WriteFault>
    requires open { pen.old.failed ≡ false }
    requires ranked { rank < length plan.now.programs }
    ensures { Puts K.told pen.old pen.new result (program_text (plan_exchanges plan.now) rank) }
{
    for i in 0..plan.exchanges(rank) {
        put_exchange(pen, rank, &plan.exchange(rank, i))?;
    }
    Ok(())
}

#[tactic(auto, using(icet_base::proofs::GrowingBytes::puts_then, icet_base::proofs::GrowingBytes::puts_failed))]
fn put_exchange<K: Sink>(
    pen: &mut Pen<'_, K>,
    rank: Rank,
    exchange: &Exchange,
) -> Result<(), WriteFault>
    requires { pen.old.failed ≡ false }
    ensures { Puts K.told pen.old pen.new result (exchange_line rank exchange.now) }
{
    pen.put_number_between(b"rank ", u64::from(rank.0), kind_word(exchange.kind))?;
    put_other(pen, exchange)
}

// the round, the other rank and the place
#[tactic(auto, using(icet_base::proofs::GrowingBytes::puts_then, icet_base::proofs::GrowingBytes::puts_failed))]
fn put_other<K: Sink>(pen: &mut Pen<'_, K>, exchange: &Exchange) -> Result<(), WriteFault>
    requires { pen.old.failed ≡ false }
    ensures { Puts K.told pen.old pen.new result ((spaced exchange.now.round ++ spaced exchange.now.peer) ++ place_words exchange.now) }
{
    put_spaced(pen, exchange.round, exchange.peer.0)?;
    put_place(pen, exchange)
}

fn kind_word(kind: Kind) -> &'static [u8]
    ensures { result.now ≡ kind_word kind }
{
    match kind {
        Kind::Send => b" send",
        Kind::Take => b" take",
    }
}
