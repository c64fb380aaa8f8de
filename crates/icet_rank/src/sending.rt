ghost use Rattle.std.specs.Prelude.{◌≡◌, ◌<◌, ℕ, None, length, true, false};
ghost use Rattle.std.specs.Option.{ForSome};
ghost use Rattle.icet_model.specs.Run.{put, message_of};
ghost use Rattle.icet_model.specs.Ports.{at_list, room_to, AreAscending};
ghost use Rattle.icet_rank.specs.Fits.{IsFilled};
ghost use Rattle.icet_rank.specs.Moves.{KeepsPairings, Missed};
ghost use Rattle.icet_rank.specs.Slots.{SendsFrom};

use crate::ports::Outboxes;
use icet_base::Rank;
use icet_plan::Exchange;
use icet_ring::{Message, Outbox};
use icet_sparse::Sparse;

/// Sends the piece in a slot to the exchange's peer, or puts it back and answers false.
pub(crate) fn send<O: Outbox>(
    me: Rank,
    exchange: Exchange,
    slot: usize,
    slots: &mut [Option<Sparse>],
    outboxes: &mut Outboxes<O>,
) -> bool
    requires slot { slot < length slots.old }
    requires filled { IsFilled (at_list slots.old slot) }
    requires ascend { AreAscending outboxes.old }
    requires room { 0 < room_to outboxes.old exchange.peer }
    ensures slots { result ≡ true → at_list slots.new ≡ put (at_list slots.old) slot None }
    ensures sent { result ≡ true → SendsFrom exchange me slots.old slot outboxes.old outboxes.new }
    ensures length { length slots.new ≡ length slots.old }
    ensures back { result ≡ false → slots.new ≡ slots.old }
    ensures pairings { KeepsPairings outboxes.old outboxes.new }
    ensures missed { result ≡ false → Missed exchange.peer outboxes.old outboxes.new }
{
    match slots[slot].take() {
        None => unreachable!(),
        Some(piece) => {
            let message = Message {
                round: exchange.round,
                from: me,
                to: exchange.peer,
                piece,
            };
            match outboxes.offer(exchange.peer, message) {
                Ok(()) => true,
                Err(back) => {
                    slots[slot] = Some(back.piece);
                    false
                }
            }
        }
    }
}
