ghost use Rattle.std.specs.Prelude.{◌≡◌, ◌<◌, ◌++◌, false, length, decimal};
ghost use Rattle.icet_model.specs.Plan.{plan_exchanges};
ghost use Rattle.icet_model.specs.Streams.{WritesAll};
ghost use Rattle.icet_base.specs.PenText.{Puts};
ghost use Rattle.icet_plan_text.specs.PlanTexts.{message_line, send_text, sender_text, sends_text, spaced, traffic_text};

use crate::lines::{put_place, put_spaced};
use icet_base::{Pen, Rank, Sink, WriteFault};
use icet_plan::{Exchange, Kind, Plan};

/// Writes the messages of a plan, a line for each: sender, receiver, round, tile, and the range of positions.
/// They are ordered by sender, then by receiver, then by round. The sink is flushed once.
///
/// # Errors
///
/// `WriteFault`; the sink holds a front of the text behind what was written before.
pub fn write_traffic<K: Sink>(sink: &mut K, plan: &Plan) -> Result<(), WriteFault>
    ensures { WritesAll (K.told sink.old) (K.told sink.new) result (traffic_text (plan_exchanges plan.now)) }
{
    let mut pen = Pen::new(sink);
    put_traffic(&mut pen, plan)?;
    pen.finish()
}

fn put_traffic<K: Sink>(pen: &mut Pen<'_, K>, plan: &Plan) -> Result<(), WriteFault>
    requires { pen.old.failed ≡ false }
    ensures { Puts K.told pen.old pen.new result (traffic_text (plan_exchanges plan.now)) }
{
    for from in 0..plan.ranks() {
        put_sender(pen, plan, Rank(from))?;
    }
    Ok(())
}

// what one rank sends
fn put_sender<K: Sink>(pen: &mut Pen<'_, K>, plan: &Plan, from: Rank) -> Result<(), WriteFault>
    requires open { pen.old.failed ≡ false }
    requires ranked { from < length plan.now.programs }
    ensures { Puts K.told pen.old pen.new result (sender_text (plan_exchanges plan.now) from) }
{
    for to in 0..plan.ranks() {
        put_sends(pen, plan, from, Rank(to))?;
    }
    Ok(())
}

// what one rank sends to another
fn put_sends<K: Sink>(
    pen: &mut Pen<'_, K>,
    plan: &Plan,
    from: Rank,
    to: Rank,
) -> Result<(), WriteFault>
    requires open { pen.old.failed ≡ false }
    requires ranked { from < length plan.now.programs }
    ensures { Puts K.told pen.old pen.new result (sends_text (plan_exchanges plan.now) from to) }
{
    for i in 0..plan.exchanges(from) {
        put_send(pen, from, to, &plan.exchange(from, i))?;
    }
    Ok(())
}

// an exchange, if it sends to this rank
fn put_send<K: Sink>(
    pen: &mut Pen<'_, K>,
    from: Rank,
    to: Rank,
    exchange: &Exchange,
) -> Result<(), WriteFault>
    requires { pen.old.failed ≡ false }
    ensures { Puts K.told pen.old pen.new result (send_text from to exchange.now) }
{
    match exchange.kind {
        Kind::Send if exchange.peer == to => put_message(pen, from, exchange),
        _ => pen.put(b""),
    }
}

#[tactic(auto, using(icet_base::proofs::GrowingBytes::puts_then, icet_base::proofs::GrowingBytes::puts_failed))]
fn put_message<K: Sink>(
    pen: &mut Pen<'_, K>,
    from: Rank,
    exchange: &Exchange,
) -> Result<(), WriteFault>
    requires { pen.old.failed ≡ false }
    ensures { Puts K.told pen.old pen.new result (message_line from exchange.now) }
{
    put_heading(pen, from, exchange)?;
    put_place(pen, exchange)
}

// who sends to whom in which round
#[tactic(auto, using(icet_base::proofs::GrowingBytes::puts_then, icet_base::proofs::GrowingBytes::puts_failed))]
fn put_heading<K: Sink>(
    pen: &mut Pen<'_, K>,
    from: Rank,
    exchange: &Exchange,
) -> Result<(), WriteFault>
    requires { pen.old.failed ≡ false }
    ensures { Puts K.told pen.old pen.new result (decimal from ++ (spaced exchange.now.peer ++ spaced exchange.now.round)) }
{
    pen.number(u64::from(from.0))?;
    put_spaced(pen, exchange.peer.0, exchange.round)
}
