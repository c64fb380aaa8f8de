ghost use Rattle.std.specs.Prelude.{◌≡◌, ◌≢◌, ◌<◌, ◌≤◌, ◌+◌, ◌*◌, ◌++◌, ◌∷◌, [], ℕ, IfOk, OnOk, IfErr, OnErr, IfSome, IfNone, Some, length, map, reverse, slice_get, vec_capacity};
ghost use Rattle.std.specs.List.{AllByRecursion, range_with_len};
ghost use Rattle.std.specs.Option.{ForSome};
ghost use Rattle.icet_model.specs.Pixel.{Pixel};
ghost use Rattle.icet_collect.specs.Collect.{blank_canvas};
ghost use Rattle.icet_rank.specs.Moves.{HasPeer, port_to};
ghost use Rattle.icet_rank.specs.Machine.{IsDone};
ghost use Rattle.icet_net.specs.Opening.{ports_of};
ghost use Rattle.icet_net.specs.Ranks.{AreHulls, AreDone, mode_of, images_of, machine_at};
ghost use Rattle.icet_net.specs.Closing.{IsLowestUndone, pictures_of, traffic_of};
ghost use Rattle.icet_net.specs.CloseSteps.{AreDistinct, IsClosable, AreClosable, LosesPort, entry_of, IsTaken, AreTaken, AreOnce, IsShowable, IsPicture, ArePictures, KeepOthers, IsPortTo, outs_of, ins_of, kepts_of};

use crate::hull::Hull;
use crate::pictures::Pictures;
use crate::syncing::look_at;
use icet_base::Rank;
use icet_collect::Canvas;
use icet_pixel::Dense;
use icet_plan::Plan;
use icet_rank::{Parts, RankMachine};
use icet_ring::{Inbox, Outbox, Wires};
use icet_sparse::Sparse;

/// What the close of a net with a rank that isn't done hands back: the lowest such rank, and all else
/// as it was.
#[derive(Drop)]
pub struct Unfinished<W: Wires> {
    pub rank: Rank,
    pub hull: Hull<W>,
    pub ranks: Vec<RankMachine<W::In, W::Out>>,
}

/// Closes the net: the pictures, one per tile, and a further entry of the log for each pair used.
/// It takes no memory. Conditions: the ranks are the hull's, and the wires owe a close to each pair.
///
/// # Errors
///
/// `Unfinished` where a rank isn't done.
pub fn close_net<W: Wires>(
    hull: Hull<W>,
    ranks: Vec<RankMachine<W::In, W::Out>>,
    wires: &mut W,
) -> Result<Pictures, Unfinished<W>>
    requires hulls { AreHulls hull ranks.items }
    requires owed { length hull.pairs ≤ W.owed wires.old }
    ensures done { OnOk result (AreDone ranks.items) }
    ensures pictures { IfOk result (λ p. p ≡ pictures_of hull (mode_of ranks.items) (images_of ranks.items)) }
    ensures log { OnOk result (W.log wires.new ≡ W.log wires.old ++ traffic_of hull ranks.items) }
    ensures owed { OnOk result (W.owed wires.old ≡ W.owed wires.new + length hull.pairs) }
    ensures rank { IfErr result (λ u. IsLowestUndone u.rank ranks.items) }
    ensures hull { IfErr result (λ u. u.hull ≡ hull) }
    ensures ranks { IfErr result (λ u. u.ranks.items ≡ ranks.items) }
    ensures same_log { OnErr result (W.log wires.new ≡ W.log wires.old) }
    ensures same_owed { OnErr result (W.owed wires.new ≡ W.owed wires.old) }
{
    match lowest_undone(&ranks) {
        Some(rank) => Err(Unfinished { rank, hull, ranks }),
        None => Ok(close_done(hull, ranks, wires)),
    }
}

/// The lowest rank that isn't done, if there is one. Condition: the machine at each place has the
/// place's number.
fn lowest_undone<I: Inbox, O: Outbox>(ranks: &[RankMachine<I, O>]) -> Option<Rank>
    requires { (r : ℕ) → r < length ranks.now → (machine_at ranks.now r).number ≡ r }
    ensures some { IfSome result (λ r. IsLowestUndone r ranks.now) }
    ensures none { IfNone result (AreDone ranks.now) }
{
    'looking: for i in 0..ranks.len() {
        if !ranks[i].done() {
            return Some(ranks[i].number());
        }
    }
    None
}

/// Closes a net all of whose ranks are done.
fn close_done<W: Wires>(
    hull: Hull<W>,
    ranks: Vec<RankMachine<W::In, W::Out>>,
    wires: &mut W,
) -> Pictures
    requires hulls { AreHulls hull ranks.items }
    requires owed { length hull.pairs ≤ W.owed wires.old }
    requires done { AreDone ranks.items }
    ensures pictures { result ≡ pictures_of hull (mode_of ranks.items) (images_of ranks.items) }
    ensures log { W.log wires.new ≡ W.log wires.old ++ traffic_of hull ranks.items }
    ensures owed { W.owed wires.old ≡ W.owed wires.new + length hull.pairs }
{
    look_at(&ranks);
    let Hull {
        plan,
        cap: _,
        strands: _,
        sides: _,
        pairs,
        canvases,
        parts,
        pictures,
    } = hull;
    let mut parts = take_apart(ranks, parts);
    close_pairs(&pairs, &mut parts, wires);
    Pictures::of(show_all(&plan, canvases, &parts, pictures))
}

/// What all machines hand out, put into the memory given, with the ports descending by peer. Conditions:
/// all are done, and there is memory for all.
fn take_apart<I: Inbox, O: Outbox>(
    ranks: Vec<RankMachine<I, O>>,
    parts: Vec<Parts<I, O>>,
) -> Vec<Parts<I, O>>
    requires done { AllByRecursion IsDone ranks.items }
    requires memory { length ranks.items ≤ vec_capacity parts }
    ensures kept { kepts_of result.items ≡ map (λ m. m.kept) ranks.items }
    ensures inboxes { ins_of result.items ≡ map (λ m. m.inboxes) ranks.items }
    ensures outboxes { outs_of result.items ≡ map (λ m. m.outboxes) ranks.items }
{
    let mut parts = parts;
    parts.clear();
    'parting: for machine in ranks {
        parts.push_reserved(turned(machine.into_parts()));
    }
    parts
}

/// The parts with the ports in reverse order.
fn turned<I: Inbox, O: Outbox>(parts: Parts<I, O>) -> Parts<I, O>
    ensures kept { result.kept ≡ parts.kept }
    ensures inboxes { reverse result.inboxes ≡ parts.inboxes }
    ensures outboxes { reverse result.outboxes ≡ parts.outboxes }
{
    let mut parts = parts;
    parts.inboxes.reverse();
    parts.outboxes.reverse();
    parts
}

/// Closes the pairs one after the other. Conditions: each is there and can be closed, none is there
/// twice, and the wires owe a close to each.
fn close_pairs<W: Wires>(pairs: &[(Rank, Rank)], parts: &mut [Parts<W::In, W::Out>], wires: &mut W)
    requires owed { length pairs.now ≤ W.owed wires.old }
    requires distinct { AreDistinct pairs.now }
    requires closable { AreClosable pairs.now parts.old }
    ensures kept { kepts_of parts.new ≡ kepts_of parts.old }
    ensures taken { AreTaken pairs.now parts.old }
    ensures log { W.log wires.new ≡ W.log wires.old ++ map (entry_of (outs_of parts.old)) pairs.now }
    ensures owed { W.owed wires.old ≡ W.owed wires.new + length pairs.now }
{
    'closing: for i in 0..pairs.len() {
        let pair = pairs[i];
        close_one(pair.0, pair.1, parts, wires);
    }
}

/// Closes one pair. Conditions: it is there and can be closed, and the wires owe a close.
fn close_one<W: Wires>(from: Rank, to: Rank, parts: &mut [Parts<W::In, W::Out>], wires: &mut W)
    requires owed { 0 < W.owed wires.old }
    requires closable { IsClosable (outs_of parts.old) (ins_of parts.old) from to }
    ensures kept { kepts_of parts.new ≡ kepts_of parts.old }
    ensures outboxes { LosesPort from to (outs_of parts.old) (outs_of parts.new) }
    ensures inboxes { LosesPort to from (ins_of parts.old) (ins_of parts.new) }
    ensures taken { IsTaken (outs_of parts.old) (ins_of parts.old) (from, to) }
    ensures log { W.log wires.new ≡ W.log wires.old ++ entry_of (outs_of parts.old) (from, to) ∷ [] }
    ensures owed { W.owed wires.old ≡ W.owed wires.new + 1 }
{
    let out = take_outbox(parts, from, to);
    let inbox = take_inbox(parts, to, from);
    wires.close_pair(from, to, out, inbox);
}

/// Takes the outbox of a rank to a peer out of the parts. Condition: it is there.
fn take_outbox<I: Inbox, O: Outbox>(parts: &mut [Parts<I, O>], rank: Rank, peer: Rank) -> O
    requires within { rank < length parts.old }
    requires there { HasPeer peer (ports_of (outs_of parts.old) rank) }
    ensures port { port_to (ports_of (outs_of parts.old) rank) peer ≡ Some (O.port result) }
    ensures outboxes { LosesPort rank peer (outs_of parts.old) (outs_of parts.new) }
    ensures inboxes { ins_of parts.new ≡ ins_of parts.old }
    ensures kept { kepts_of parts.new ≡ kepts_of parts.old }
{
    let part = &mut parts[rank.0 as usize];
    take_port(&mut part.outboxes, peer)
}

/// Takes the inbox of a rank from a peer out of the parts. Condition: it is there.
fn take_inbox<I: Inbox, O: Outbox>(parts: &mut [Parts<I, O>], rank: Rank, peer: Rank) -> I
    requires within { rank < length parts.old }
    requires there { HasPeer peer (ports_of (ins_of parts.old) rank) }
    ensures port { port_to (ports_of (ins_of parts.old) rank) peer ≡ Some (I.port result) }
    ensures inboxes { LosesPort rank peer (ins_of parts.old) (ins_of parts.new) }
    ensures outboxes { outs_of parts.new ≡ outs_of parts.old }
    ensures kept { kepts_of parts.new ≡ kepts_of parts.old }
{
    let part = &mut parts[rank.0 as usize];
    take_port(&mut part.inboxes, peer)
}

/// Takes the port to a peer out of ports that stand in reverse order. Condition: it is there.
fn take_port<P: Drop>(ports: &mut Vec<(Rank, P)>, peer: Rank) -> P
    requires { HasPeer peer (reverse ports.old.items) }
    ensures port { port_to (reverse ports.old.items) peer ≡ Some result }
    ensures others { KeepOthers peer (reverse ports.old.items) (reverse ports.new.items) }
{
    let place = last_place(ports, peer);
    ports.remove(place).1
}

/// The last place of a port to this peer. Condition: there is one. Pairs are closed ascending, and
/// ports stand descending, so it is the last port that is left.
fn last_place<P>(ports: &[(Rank, P)], peer: Rank) -> usize
    requires { HasPeer peer (reverse ports.now) }
    ensures within { result < length ports.now }
    ensures last { ForSome (slice_get ports.now result) (IsPortTo peer (reverse ports.now)) }
{
    let mut at = ports.len();
    'seeking: while at > 0 {
        at -= 1;
        if ports[at].0 == peer {
            return at;
        }
    }
    unreachable!()
}

/// The pictures of all tiles, put into the memory given. Conditions: the canvas at each place is the
/// place's tile's, blank, and the pieces that the tile's display has kept fill it; there is memory for
/// all pictures.
fn show_all<I: Inbox, O: Outbox>(
    plan: &Plan,
    canvases: Vec<Canvas>,
    parts: &[Parts<I, O>],
    pictures: Vec<Dense>,
) -> Vec<Dense>
    requires ranks { length parts.now ≡ length plan.now.programs }
    requires tiles { map (λ c. c.tile) canvases.items ≡ range_with_len 0 (length canvases.items) }
    requires showable { AllByRecursion (IsShowable (kepts_of parts.now) plan.now.tiles) canvases.items }
    requires memory { length canvases.items ≤ vec_capacity pictures }
    ensures { ArePictures parts.now plan.now.tiles canvases.items result.items }
{
    let mut pictures = pictures;
    pictures.clear();
    'showing: for canvas in canvases {
        let tile = pictures.len() as u32;
        let display = plan.display(tile);
        let part = &parts[display.0 as usize];
        pictures.push_reserved(show(tile, canvas, &part.kept));
    }
    pictures
}

/// The picture of a tile, of the pieces of the tile among those given. Conditions: the canvas is the
/// tile's and blank, and the pieces hold each of its positions once.
fn show(tile: u32, canvas: Canvas, kept: &[Sparse]) -> Dense
    requires blank { canvas ≡ blank_canvas tile canvas.w canvas.h canvas.strands }
    requires once { AreOnce tile (canvas.w * canvas.h) kept.now }
    ensures { IsPicture tile kept.now canvas result }
{
    let mut canvas = canvas;
    'placing: for i in 0..kept.len() {
        if kept[i].tile() == tile {
            canvas.place(&kept[i]);
        }
    }
    if canvas.full() {
        canvas.finish()
    } else {
        unreachable!()
    }
}
