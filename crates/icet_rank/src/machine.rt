ghost use Rattle.std.specs.Prelude.{◌≡◌, ◌≤◌, ◌<◌, ◌+◌, ◌++◌, ◌∷◌, [], ℕ, List, IfOk, IfErr, OnOk, OnErr, IfSome, OnSome, IfNone, IsOk, IsNone, IsTrue, length, Some, None, slice_get, true, false, ◌≢◌, ◌↔◌};
ghost use Rattle.std.specs.Option.{ForSome};
ghost use Rattle.icet_model.specs.Exchange.{exchanges, of_op};
ghost use Rattle.icet_model.specs.Run.{put, message_of};
ghost use Rattle.icet_model.specs.Ports.{at_list, port_views};
ghost use Rattle.icet_rank.specs.Fits.{IsFilled};
ghost use Rattle.icet_rank.specs.Moves.{Carried, CarriedOne, Missed, Met, ArePaired};
ghost use Rattle.icet_rank.specs.Machine.{Names, IsReady, IsDone, IsRunning, IsReadyToRun, IsAtStart, parts_of};
ghost use Rattle.icet_rank.specs.Steps.{AreInSync, CanSync, SendsItsSlot, CarriesSlot, SameJob, SamePairings, Worked, Carries, Misses, IsKnownReady, Moves, Pends, Ends};

use crate::image::Image;
use crate::ports::{Inboxes, Outboxes, sync_ports};
use crate::sending::send;
use crate::slots::{cut_slot, empty_slots, fitting, joined, put_joined, slots_of};
use icet_base::{Mode, NoMemory, Rank};
use icet_plan::{Exchange, Kind, Op, Program};
use icet_ring::{Inbox, Outbox, Wires};
use icet_sparse::Sparse;
use std::alloc::Global;
use std::marker::Model;

/// What a step came to.
#[derive(Clone, Copy, Debug, PartialEq, Eq)]
pub enum Step {
    /// The due exchange was done.
    Moved,
    /// The due exchange's port has no place, or no message, now.
    Pending,
    /// No exchange is left, and the local work behind the last one is finished.
    Done,
}

/// One rank: its program, its own images, and a port for each rank that it sends to or takes from.
/// It goes through its program one exchange a step.
#[derive(Drop)]
pub struct RankMachine<I: Inbox, O: Outbox> {
    alloc: Global,
    number: Rank,
    mode: Mode,
    program: Program,
    place: u32,
    counter: u32,
    images: Image,
    slots: Vec<Option<Sparse>>,
    kept: Vec<Sparse>,
    inboxes: Inboxes<I>,
    outboxes: Outboxes<O>,
}

impl<I: Inbox, O: Outbox> Model for RankMachine<I, O> {
    ghost use Rattle.icet_rank.specs.Machine.{MachineView, IsRunning};

    ghost Value = { MachineView };

    ghost view = { λ m. record { number = m.number; mode = m.mode; ops = m.program; place = m.place; counter = m.counter; images = m.images; slots = m.slots.items; kept = m.kept.items; inboxes = m.inboxes; outboxes = m.outboxes } };

    ghost invariant = { λ m. IsRunning (record { number = m.number; mode = m.mode; ops = m.program; place = m.place; counter = m.counter; images = m.images; slots = m.slots.items; kept = m.kept.items; inboxes = m.inboxes; outboxes = m.outboxes }) };
}

/// What a machine hands out when it is done.
#[derive(Drop)]
pub struct Parts<I: Inbox, O: Outbox> {
    /// The kept pieces, in the order of the program.
    pub kept: Vec<Sparse>,
    /// The inboxes, ascending by peer.
    pub inboxes: Vec<(Rank, I)>,
    /// The outboxes, ascending by peer.
    pub outboxes: Vec<(Rank, O)>,
}

impl<I: Inbox, O: Outbox> Model for Parts<I, O> {
    ghost use Rattle.icet_model.specs.Ports.{port_views};
    ghost use Rattle.icet_rank.specs.Machine.{PartsView};

    ghost Value = { PartsView };

    ghost view = { λ p. record { kept = p.kept.items; inboxes = port_views I.port p.inboxes.items; outboxes = port_views O.port p.outboxes.items } };
}

impl<I: Inbox, O: Outbox> RankMachine<I, O> {
    /// A machine at the start of its program. Conditions: image t is the whole of tile t; each
    /// operation of the program fits, whatever is taken; there is one port for each peer that the
    /// program takes from, and one for each that it sends to, ascending, through which nothing went
    /// yet and whose room is the number of the program's exchanges through it.
    pub fn new(
        alloc: Global,
        number: Rank,
        mode: Mode,
        program: Program,
        images: Image,
        inboxes: Vec<(Rank, I)>,
        outboxes: Vec<(Rank, O)>,
    ) -> Result<RankMachine<I, O>, NoMemory>
        requires { IsReadyToRun number mode program images (port_views I.port inboxes.items) (port_views O.port outboxes.items) }
        ensures { IfOk result (λ m. IsAtStart number mode program images (port_views I.port inboxes.items) (port_views O.port outboxes.items) m) }
    {
        let slots = empty_slots(alloc, slots_of(&program))?;
        Ok(RankMachine {
            alloc,
            number,
            mode,
            program,
            place: 0,
            counter: 0,
            images,
            slots,
            kept: Vec::new(alloc),
            inboxes: Inboxes::of(inboxes),
            outboxes: Outboxes::of(outboxes),
        })
    }

    /// The rank that this machine is.
    pub fn number(&self) -> Rank
        ensures number { result ≡ self.now.number }
        ensures running { IsRunning self.now }
    {
        self.number
    }

    /// How many exchanges were done.
    pub fn counter(&self) -> u32
        ensures counter { result ≡ self.now.counter }
        ensures running { IsRunning self.now }
    {
        self.counter
    }

    /// Whether the next operation is an exchange or none is left. A step called then takes no memory.
    pub fn ready(&self) -> bool
        ensures { IsTrue result ↔ IsReady self.now }
    {
        self.next_local().is_none()
    }

    /// Whether the place is the end of the program.
    pub fn done(&self) -> bool
        ensures { IsTrue result ↔ IsDone self.now }
    {
        self.place == self.program.len()
    }

    /// Does the local work before the due exchange, and then that exchange. Where memory is wanted
    /// and not there, a later step goes on from where this one came to.
    pub fn step(&mut self) -> Result<Step, NoMemory>
        ensures job { SameJob self.old self.new }
        ensures pairings { SamePairings self.old self.new }
        ensures moved { IfOk result (λ s. s ≡ Step.Moved → Moves self.old self.new) }
        ensures pending { IfOk result (λ s. s ≡ Step.Pending → Pends self.old self.new) }
        ensures done { IfOk result (λ s. s ≡ Step.Done → Ends self.old self.new) }
        ensures none_left { self.old.counter ≡ length (exchanges self.old.ops) → IfOk result (λ s. s ≡ Step.Done) }
        ensures known { IsKnownReady self.old → IfOk result (λ s. s ≡ Step.Moved) }
        ensures no_memory { OnErr result (Worked self.old self.new) }
        ensures ready { IsReady self.old → IsOk result }
    {
        self.do_local_work()?;
        Ok(self.swap_next())
    }

    /// Does the operations up to the next exchange, or to the end.
    fn do_local_work(&mut self) -> Result<(), NoMemory>
        ensures worked { Worked self.old self.new }
        ensures ready { OnOk result (IsReady self.new) }
        ensures nothing { IsReady self.old → IsOk result }
    {
        while let Some(op) = self.next_local() {
            self.work(op)?;
        }
        Ok(())
    }

    /// Does the next exchange. Condition: the next operation is one, or none is left.
    fn swap_next(&mut self) -> Step
        requires { IsReady self.old }
        ensures job { SameJob self.old self.new }
        ensures pairings { SamePairings self.old self.new }
        ensures moved { result ≡ Step.Moved → Moves self.old self.new }
        ensures pending { result ≡ Step.Pending → Pends self.old self.new }
        ensures done { result ≡ Step.Done → Ends self.old self.new }
        ensures known { IsKnownReady self.old → result ≡ Step.Moved }
    {
        match self.next_op() {
            None => Step::Done,
            Some(Op::Swap { exchange, slot }) => self.swap(exchange, slot),
            Some(_) => unreachable!(),
        }
    }

    /// The operation at the place, where the program isn't at its end.
    fn next_op(&self) -> Option<Op>
        ensures next { result ≡ slice_get self.now.ops self.now.place }
        ensures end { result ≡ None → self.now.place ≡ length self.now.ops }
        ensures within { OnSome result (self.now.place < length self.now.ops) }
        ensures named { IfSome result (λ op. Names (length self.now.slots) op) }
        ensures all { result ≡ None → self.now.counter ≡ length (exchanges self.now.ops) }
        ensures running { IsRunning self.now }
    {
        if self.place < self.program.len() {
            Some(self.program.op(self.place))
        } else {
            None
        }
    }

    /// The operation at the place, where it is no exchange.
    fn next_local(&self) -> Option<Op>
        ensures next { IfSome result (λ op. slice_get self.now.ops self.now.place ≡ Some op) }
        ensures local { IfSome result (λ op. of_op op ≡ []) }
        ensures within { OnSome result (self.now.place < length self.now.ops) }
        ensures named { IfSome result (λ op. Names (length self.now.slots) op) }
        ensures ready { IsNone result ↔ IsReady self.now }
    {
        match self.next_op() {
            Some(
                Op::Swap {
                    exchange: _,
                    slot: _,
                },
            ) => None,
            other => other,
        }
    }

    fn work(&mut self, op: Op) -> Result<(), NoMemory>
        requires due { slice_get self.old.ops self.old.place ≡ Some op }
        requires local { of_op op ≡ [] }
        ensures worked { Worked self.old self.new }
        ensures place { OnOk result (self.new.place ≡ self.old.place + 1) }
        ensures stays { OnErr result (self.new ≡ self.old) }
    {
        match op {
            Op::Load { tile, slot } => self.load(tile, slot),
            Op::Blank { tile, slot } => {
                self.blank(tile, slot);
                Ok(())
            }
            Op::Cut { slot, at, into } => self.cut(slot, at, into),
            Op::Join { front, back, into } => self.join(front, back, into),
            Op::Keep { slot } => self.keep(slot),
            Op::Swap {
                exchange: _,
                slot: _,
            } => unreachable!(),
        }
    }

    fn load(&mut self, tile: u32, slot: u32) -> Result<(), NoMemory>
        requires due { slice_get self.old.ops self.old.place ≡ Some (Op.Load tile slot) }
        ensures worked { Worked self.old self.new }
        ensures place { OnOk result (self.new.place ≡ self.old.place + 1) }
        ensures stays { OnErr result (self.new ≡ self.old) }
    {
        let piece = self.images.part(tile).copy(self.alloc)?;
        self.slots[slot as usize] = Some(piece);
        self.place += 1;
        Ok(())
    }

    fn blank(&mut self, tile: u32, slot: u32)
        requires due { slice_get self.old.ops self.old.place ≡ Some (Op.Blank tile slot) }
        ensures worked { Worked self.old self.new }
        ensures place { self.new.place ≡ self.old.place + 1 }
    {
        let size = self.images.part(tile).hi();
        self.slots[slot as usize] = Some(Sparse::blank(self.alloc, tile, 0, size));
        self.place += 1;
    }

    fn cut(&mut self, slot: u32, at: u32, into: u32) -> Result<(), NoMemory>
        requires due { slice_get self.old.ops self.old.place ≡ Some (Op.Cut slot at into) }
        ensures worked { Worked self.old self.new }
        ensures place { OnOk result (self.new.place ≡ self.old.place + 1) }
        ensures stays { OnErr result (self.new ≡ self.old) }
    {
        cut_slot(
            self.alloc,
            &mut self.slots,
            slot as usize,
            at,
            into as usize,
        )?;
        self.place += 1;
        Ok(())
    }

    fn join(&mut self, front: u32, back: u32, into: u32) -> Result<(), NoMemory>
        requires due { slice_get self.old.ops self.old.place ≡ Some (Op.Join front back into) }
        ensures worked { Worked self.old self.new }
        ensures place { OnOk result (self.new.place ≡ self.old.place + 1) }
        ensures stays { OnErr result (self.new ≡ self.old) }
    {
        let piece = joined(
            self.alloc,
            self.mode,
            &self.slots,
            front as usize,
            back as usize,
        )?;
        put_joined(
            &mut self.slots,
            front as usize,
            back as usize,
            into as usize,
            piece,
        );
        self.place += 1;
        Ok(())
    }

    fn keep(&mut self, slot: u32) -> Result<(), NoMemory>
        requires due { slice_get self.old.ops self.old.place ≡ Some (Op.Keep slot) }
        ensures worked { Worked self.old self.new }
        ensures place { OnOk result (self.new.place ≡ self.old.place + 1) }
        ensures stays { OnErr result (self.new ≡ self.old) }
    {
        match &self.slots[slot as usize] {
            None => unreachable!(),
            Some(piece) => {
                let copy = piece.copy(self.alloc)?;
                self.kept.push(copy)?;
                self.place += 1;
                Ok(())
            }
        }
    }

    fn swap(&mut self, exchange: Exchange, slot: u32) -> Step
        requires due { slice_get self.old.ops self.old.place ≡ Some (Op.Swap exchange slot) }
        ensures job { SameJob self.old self.new }
        ensures pairings { SamePairings self.old self.new }
        ensures due { slice_get (exchanges self.old.ops) self.old.counter ≡ Some exchange }
        ensures moved { result ≡ Step.Moved → CarriesSlot exchange slot self.old self.new }
        ensures counted { result ≡ Step.Moved → self.new.counter ≡ self.old.counter + 1 }
        ensures placed { result ≡ Step.Moved → self.new.place ≡ self.old.place + 1 }
        ensures pending { result ≡ Step.Pending → Misses exchange.kind exchange self.old self.new }
        ensures same_counter { result ≡ Step.Pending → self.new.counter ≡ self.old.counter }
        ensures same_place { result ≡ Step.Pending → self.new.place ≡ self.old.place }
        ensures same_slots { result ≡ Step.Pending → self.new.slots ≡ self.old.slots }
        ensures never { result ≢ Step.Done }
    {
        let moved = match exchange.kind {
            Kind::Send => self.send_due(exchange, slot),
            Kind::Take => self.take_due(exchange, slot),
        };
        if moved { Step::Moved } else { Step::Pending }
    }

    fn send_due(&mut self, exchange: Exchange, slot: u32) -> bool
        requires due { slice_get self.old.ops self.old.place ≡ Some (Op.Swap exchange slot) }
        requires kind { exchange.kind ≡ Kind.Send }
        ensures due { slice_get (exchanges self.old.ops) self.old.counter ≡ Some exchange }
        ensures filled { IsFilled (at_list self.old.slots slot) }
        ensures job { SameJob self.old self.new }
        ensures pairings { SamePairings self.old self.new }
        ensures inboxes { self.new.inboxes ≡ self.old.inboxes }
        ensures moved { result ≡ true → SendsItsSlot exchange slot self.old self.new }
        ensures place { result ≡ true → self.new.place ≡ self.old.place + 1 }
        ensures counter { result ≡ true → self.new.counter ≡ self.old.counter + 1 }
        ensures missed { result ≡ false → Missed exchange.peer self.old.outboxes self.new.outboxes }
        ensures same_place { result ≡ false → self.new.place ≡ self.old.place }
        ensures same_counter { result ≡ false → self.new.counter ≡ self.old.counter }
        ensures same_slots { result ≡ false → self.new.slots ≡ self.old.slots }
    {
        let moved = send(
            self.number,
            exchange,
            slot as usize,
            &mut self.slots,
            &mut self.outboxes,
        );
        if moved {
            self.place += 1;
            self.counter += 1;
            true
        } else {
            false
        }
    }

    fn take_due(&mut self, exchange: Exchange, slot: u32) -> bool
        requires due { slice_get self.old.ops self.old.place ≡ Some (Op.Swap exchange slot) }
        requires kind { exchange.kind ≡ Kind.Take }
        ensures due { slice_get (exchanges self.old.ops) self.old.counter ≡ Some exchange }
        ensures job { SameJob self.old self.new }
        ensures pairings { SamePairings self.old self.new }
        ensures outboxes { self.new.outboxes ≡ self.old.outboxes }
        ensures moved { result ≡ true → CarriedOne exchange.peer self.old.inboxes self.new.inboxes }
        ensures place { result ≡ true → self.new.place ≡ self.old.place + 1 }
        ensures counter { result ≡ true → self.new.counter ≡ self.old.counter + 1 }
        ensures missed { result ≡ false → Missed exchange.peer self.old.inboxes self.new.inboxes }
        ensures same_place { result ≡ false → self.new.place ≡ self.old.place }
        ensures same_counter { result ≡ false → self.new.counter ≡ self.old.counter }
        ensures same_slots { result ≡ false → self.new.slots ≡ self.old.slots }
    {
        match self.inboxes.take(exchange.peer) {
            None => false,
            Some(message) => {
                self.slots[slot as usize] = Some(fitting(self.alloc, exchange, message));
                self.place += 1;
                self.counter += 1;
                true
            }
        }
    }

    /// Hands out the kept pieces and the ports, as they were. Condition: the machine is done.
    pub fn into_parts(self) -> Parts<I, O>
        requires { IsDone self }
        ensures parts { result ≡ parts_of self }
        ensures running { IsRunning self }
    {
        Parts {
            kept: self.kept,
            inboxes: self.inboxes.into_ports(),
            outboxes: self.outboxes.into_ports(),
        }
    }
}

/// Lets the sender's outbox to the receiver and the receiver's inbox from the sender meet, as
/// `Wires::sync` says; all else of both machines is as before. Condition: these two ports are
/// paired and were opened with `cap`.
pub fn sync_pair<W: Wires>(
    wires: &mut W,
    sender: &mut RankMachine<W::In, W::Out>,
    receiver: &mut RankMachine<W::In, W::Out>,
    cap: u32,
) -> Result<(), NoMemory>
    requires { CanSync cap sender.old receiver.old }
    ensures sender { sender.new ≡ record sender.old { outboxes = sender.new.outboxes } }
    ensures receiver { receiver.new ≡ record receiver.old { inboxes = receiver.new.inboxes } }
    ensures out { Met receiver.old.number sender.old.outboxes sender.new.outboxes }
    ensures inbox { Met sender.old.number receiver.old.inboxes receiver.new.inboxes }
    ensures pair { ArePaired sender.old.number receiver.old.number cap sender.new.outboxes receiver.new.inboxes }
    ensures synced { OnOk result (AreInSync cap sender.new receiver.new) }
    ensures owed { W.owed wires.new ≡ W.owed wires.old }
    ensures log { W.log wires.new ≡ W.log wires.old }
{
    sync_ports(
        wires,
        sender.number,
        receiver.number,
        cap,
        &mut sender.outboxes,
        &mut receiver.inboxes,
    )
}
