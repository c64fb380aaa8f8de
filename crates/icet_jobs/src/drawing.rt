ghost use Rattle.std.specs.Prelude.{◌≡◌, ◌≤◌, IfOk, OnOk, map};
ghost use Rattle.icet_jobs.specs.Composites.{rank_images};
ghost use Rattle.icet_jobs.specs.Drawings.{drawn_slot, empty_slots, images_in};

use crate::imaging::image_of;
use icet_base::{NoMemory, Rank};
use icet_net::Image;
use icet_scene::scene::Scene;
use icet_workers::for_each_share;
use std::alloc::Global;
use std::thread::Threads;

/// A rank, and its images once they are drawn: what a worker is given, so that no two write to one place.
#[derive(Drop)]
struct Slot {
    rank: Rank,
    image: Option<Image>,
}

/// Each rank's full image of each tile, with its pixels dealt out to the strands. The ranks are shared out to
/// `workers`: worker `j` draws those from `P * j / workers` up to `P * (j + 1) / workers`, where `P` is their
/// number. The first worker is the calling thread, each other one has a thread of its own, and all have ended when
/// the call returns; a thread that can't be made does no harm, since the caller does its work. Conditions: there
/// is a strand, and a worker.
///
/// # Errors
///
/// `NoMemory`, after all workers have ended.
#[tactic(auto, using(crate::proofs::RankDrawings::all_drawn))]
pub fn draw_images<R: Threads + Sync>(
    rt: &R,
    alloc: Global,
    scene: &Scene,
    strands: u32,
    workers: u32,
) -> Result<Vec<Image>, NoMemory>
    requires strands { 1 ≤ strands }
    requires workers { 1 ≤ workers }
    ensures { IfOk result (λ images. images.items ≡ rank_images strands scene.now) }
{
    let mut slots = empty_slots(alloc, scene.ranks())?;
    draw_slots(rt, alloc, scene, strands, workers, &mut slots)?;
    images_in(alloc, slots)
}

/// A slot for each of so many ranks, with nothing drawn.
#[tactic(auto, using(crate::proofs::SceneImages::made_more))]
fn empty_slots(alloc: Global, ranks: u32) -> Result<Vec<Slot>, NoMemory>
    ensures { IfOk result (λ slots. slots.items ≡ empty_slots ranks) }
{
    let mut slots = Vec::new(alloc);
    for rank in 0..ranks {
        slots.push(Slot {
            rank: Rank(rank),
            image: None,
        })?;
    }
    Ok(slots)
}

/// Draws the images of each slot's rank, shared out to the workers.
fn draw_slots<R: Threads + Sync>(
    rt: &R,
    alloc: Global,
    scene: &Scene,
    strands: u32,
    workers: u32,
    slots: &mut [Slot],
) -> Result<(), NoMemory>
    requires strands { 1 ≤ strands }
    requires workers { 1 ≤ workers }
    ensures { OnOk result (slots.new ≡ map (drawn_slot strands scene.now) slots.old) }
{
    let draw = |slot: &mut Slot| -> Result<(), NoMemory>
        requires { 1 ≤ strands }
        ensures { OnOk result (slot.exit.now ≡ drawn_slot strands scene.entry.now slot.entry.now) }
    { draw_slot(alloc, scene, strands, slot) };
    for_each_share(rt, &draw, workers, slots)
}

/// Draws the images of the slot's rank into it.
fn draw_slot(alloc: Global, scene: &Scene, strands: u32, slot: &mut Slot) -> Result<(), NoMemory>
    requires { 1 ≤ strands }
    ensures { OnOk result (slot.new ≡ drawn_slot strands scene.now slot.old) }
{
    slot.image = Some(image_of(alloc, scene, slot.rank, strands)?);
    Ok(())
}

/// The images of the slots that are drawn, in order. They are moved, not copied.
fn images_in(alloc: Global, slots: Vec<Slot>) -> Result<Vec<Image>, NoMemory>
    ensures { IfOk result (λ images. images.items ≡ images_in slots.items) }
{
    let mut images = Vec::new(alloc);
    for slot in slots {
        if let Some(image) = slot.image {
            images.push(image)?;
        }
    }
    Ok(images)
}
