ghost use Rattle.std.specs.Prelude.{◌≡◌, ◌≤◌, ◌<◌, ◌^◌, ℕ, List, IfOk, OnOk, OnErr, Some, None, length, option_map};
ghost use Rattle.std.specs.List.{AllByRecursion};
ghost use Rattle.std.specs.Option.{ForSome};
ghost use Rattle.icet_model.specs.declared.names.Mode.{Mode};
ghost use Rattle.icet_model.specs.Pixel.{Pixel};
ghost use Rattle.icet_model.specs.Run.{Piece, put, lower, upper, cut_slots, joined_piece, received};
ghost use Rattle.icet_model.specs.Ports.{at_list};
ghost use Rattle.icet_model.specs.Fit.{FitsCut, FitsJoin, shape_of};
ghost use Rattle.icet_rank.specs.Machine.{Names};
ghost use Rattle.icet_rank.specs.Slots.{CanJoin, IsJoinOf, IsCutInto, CutsSlot, IsReceived};

use icet_base::{Mode, NoMemory};
use icet_merge::merge;
use icet_plan::{Exchange, Op, Program};
use icet_ring::Message;
use icet_sparse::Sparse;
use std::alloc::Global;

/// The least number above each slot that the operation names.
fn named_by(op: Op) -> usize
    ensures named { Names result op }
    ensures least { (n : ℕ) → Names n op → result ≤ n }
{
    match op {
        Op::Load { tile: _, slot } => slot as usize + 1,
        Op::Blank { tile: _, slot } => slot as usize + 1,
        Op::Cut { slot, at: _, into } => slot.max(into) as usize + 1,
        Op::Join { front, back, into } => front.max(back).max(into) as usize + 1,
        Op::Swap { exchange: _, slot } => slot as usize + 1,
        Op::Keep { slot } => slot as usize + 1,
    }
}

/// How many slots the program needs, and no more.
pub fn slots_of(program: &Program) -> usize
    ensures named { AllByRecursion (Names result) program.now }
    ensures least { (n : ℕ) → AllByRecursion (Names n) program.now → result ≤ n }
    ensures short { length program.now < 2 ^ 32 }
{
    let mut most = 0;
    for i in 0..program.len() {
        most = most.max(named_by(program.op(i)));
    }
    most
}

/// So many empty slots.
pub fn empty_slots(alloc: Global, count: usize) -> Result<Vec<Option<Sparse>>, NoMemory>
    ensures count { IfOk result (λ s. length s.items ≡ count) }
    ensures empty { IfOk result (λ s. (k : ℕ) → at_list s.items k ≡ None) }
{
    let mut slots = Vec::with_capacity(alloc, count)?;
    for _made in 0..count {
        slots.push(None)?;
    }
    Ok(slots)
}

/// The pieces of two slots as one, the front before the back. Condition: both are there, with the
/// same tile and range.
pub fn joined(
    alloc: Global,
    mode: Mode,
    slots: &[Option<Sparse>],
    front: usize,
    back: usize,
) -> Result<Sparse, NoMemory>
    requires front { front < length slots.now }
    requires back { back < length slots.now }
    requires fits { CanJoin slots.now front back }
    ensures { IfOk result (IsJoinOf mode slots.now front back) }
{
    match (&slots[front], &slots[back]) {
        (Some(first), Some(second)) => merge(alloc, mode, first, second),
        _ => unreachable!(),
    }
}

/// Empties the two slots that were joined, and puts the joined piece into a slot.
pub fn put_joined(
    slots: &mut [Option<Sparse>],
    front: usize,
    back: usize,
    into: usize,
    piece: Sparse,
)
    requires front { front < length slots.old }
    requires back { back < length slots.old }
    requires into { into < length slots.old }
    ensures slots { at_list slots.new ≡ put (put (put (at_list slots.old) front None) back None) into (Some piece) }
    ensures length { length slots.new ≡ length slots.old }
{
    slots[front] = None;
    slots[back] = None;
    slots[into] = Some(piece);
}

/// Cuts a slot's piece: the slot keeps what is below `at`, and the rest is handed out.
fn cut_piece(alloc: Global, slot: &mut Option<Sparse>, at: u32) -> Result<Sparse, NoMemory>
    requires { FitsCut at (option_map shape_of slot.old) }
    ensures ok { IfOk result (IsCutInto at slot.old slot.new) }
    ensures err { OnErr result (slot.new ≡ slot.old) }
{
    match slot {
        None => unreachable!(),
        Some(piece) => piece.cut(alloc, at),
    }
}

/// Cuts the piece of a slot: the slot keeps what is below `at`, and `into` holds the rest. Where
/// memory is missing, no slot changes. Condition: the position lies in the piece's range.
pub fn cut_slot(
    alloc: Global,
    slots: &mut [Option<Sparse>],
    slot: usize,
    at: u32,
    into: usize,
) -> Result<(), NoMemory>
    requires slot { slot < length slots.old }
    requires into { into < length slots.old }
    requires fits { FitsCut at (option_map shape_of (at_list slots.old slot)) }
    ensures ok { OnOk result (CutsSlot slot at into slots.old slots.new) }
    ensures err { OnErr result (slots.new ≡ slots.old) }
    ensures length { length slots.new ≡ length slots.old }
{
    let upper = cut_piece(alloc, &mut slots[slot], at)?;
    slots[into] = Some(upper);
    Ok(())
}

/// The message's piece where it fits the exchange, and a blank one of the exchange's range otherwise.
pub fn fitting(alloc: Global, exchange: Exchange, message: Message) -> Sparse
    requires { exchange.lo ≤ exchange.hi }
    ensures { IsReceived exchange message result }
{
    let piece = message.piece;
    if piece.tile() == exchange.tile && (piece.lo() == exchange.lo && piece.hi() == exchange.hi) {
        piece
    } else {
        Sparse::blank(alloc, exchange.tile, exchange.lo, exchange.hi)
    }
}
