ghost use Rattle.std.specs.Prelude.{◌≡◌, ◌≤◌, ◌++◌, IfOk, OnOk, OnErr, length, map};
ghost use Rattle.icet_model.specs.Traffic.{traffic};
ghost use Rattle.icet_net.specs.Opening.{CanOpen, hull_for};
ghost use Rattle.icet_net.specs.Closing.{pictures_of};
ghost use Rattle.icet_jobs.specs.Nets.{piece_images};

use crate::compositing::Way;
use icet_base::{Gate, Mode, NoMemory};
use icet_net::{Image, Pictures, close_net, drive, open_net};
use icet_plan::Plan;
use icet_ring::Wires;
use icet_tiles::Layout;
use std::alloc::Global;
use std::thread::Threads;

/// Opens a net for the plan and these interlaced images, drives it to its end, and closes it: the pictures, one per tile.
/// The wires' log grows by the plan's traffic, and each pair that was opened is closed.
///
/// # Errors
///
/// `NoMemory`; the wires' log is as before.
pub fn run_net<W: Wires, G: Gate, R: Threads + Sync>(
    rt: &R,
    alloc: Global,
    plan: Plan,
    mode: Mode,
    layout: &Layout,
    images: Vec<Image>,
    way: &Way,
    wires: &mut W,
    gate: &G,
) -> Result<Pictures, NoMemory>
    requires fits { CanOpen plan layout.now images.items }
    requires ranks { 1 ≤ length images.items }
    requires cap { 1 ≤ way.now.cap }
    requires workers { 1 ≤ way.now.workers }
    requires burst { 1 ≤ way.now.burst }
    requires strands { 1 ≤ way.now.strands }
    ensures pictures { IfOk result (λ p. p ≡ pictures_of (hull_for plan way.now.cap way.now.strands layout.now) mode (piece_images images.items)) }
    ensures log { OnOk result (W.log wires.new ≡ W.log wires.old ++ traffic mode plan (piece_images images.items)) }
    ensures owed { OnOk result (W.owed wires.new ≡ W.owed wires.old) }
    ensures kept { OnErr result (W.log wires.new ≡ W.log wires.old) }
{
    let (hull, mut ranks) = open_net(
        alloc,
        plan,
        mode,
        layout,
        images,
        way.strands,
        wires,
        way.cap,
    )?;
    drive(
        rt,
        &hull,
        ranks.as_mut_slice(),
        wires,
        way.workers,
        way.burst,
        gate,
    )?;
    match close_net(hull, ranks, wires) {
        Ok(pictures) => Ok(pictures),
        Err(_) => unreachable!(),
    }
}
