ghost use Rattle.std.specs.Prelude.{◌≡◌, ◌≤◌, ◌++◌, IfOk, OnOk, OnErr};
ghost use Rattle.icet_jobs.specs.Composites.{composite_traffic, plain_pictures};
ghost use Rattle.icet_jobs.specs.Weights.{scene_weight};

use crate::drawing::draw_images;
use crate::net::run_net;
use crate::planning::plan_of;
use crate::weighing::weigh;
use icet_base::{Gate, NoMemory};
use icet_multi::Settings;
use icet_net::Pictures;
use icet_ring::Wires;
use icet_scene::scene::Scene;
use std::alloc::Global;
use std::thread::Threads;

/// How a scene is composited: the plan's settings, how many messages may wait on a pair of ranks, how
/// many workers draw and step the ranks, how many exchanges a rank may make in a turn, and to how many
/// strands the pixels of images are dealt out.
#[derive(Clone, Copy, Debug, PartialEq, Eq)]
pub struct Way {
    pub settings: Settings,
    pub cap: u32,
    pub workers: u32,
    pub burst: u32,
    pub strands: u32,
}

/// What came of compositing a scene: the pictures, one per tile, and the weight of the interlaced images that the ranks
/// drew: eight for each maximal run of drawn pixels, and eight for each drawn pixel.
#[derive(Drop)]
pub struct Outcome {
    pub pictures: Pictures,
    pub weight: u64,
}

/// Composites a scene: makes the plan, has the workers draw each rank's images and interlace them, moves them
/// through a net over the wires, whose ranks the workers step, and hands out the plain composite of each tile,
/// whatever the strands and the workers. The wires' log grows by the plan's traffic, and each pair that was
/// opened is closed.
///
/// # Errors
///
/// `NoMemory`; the wires' log is as before.
pub fn composite<W: Wires, G: Gate, R: Threads + Sync>(
    rt: &R,
    alloc: Global,
    scene: &Scene,
    way: &Way,
    wires: &mut W,
    gate: &G,
) -> Result<Outcome, NoMemory>
    requires cap { 1 ≤ way.now.cap }
    requires workers { 1 ≤ way.now.workers }
    requires burst { 1 ≤ way.now.burst }
    requires strands { 1 ≤ way.now.strands }
    requires split { 2 ≤ way.now.settings.k }
    ensures pictures { IfOk result (λ outcome. outcome.pictures ≡ plain_pictures way.now.settings scene.now) }
    ensures weight { IfOk result (λ outcome. outcome.weight ≡ scene_weight way.now.strands scene.now) }
    ensures log { OnOk result (W.log wires.new ≡ W.log wires.old ++ composite_traffic way.now.settings way.now.strands scene.now) }
    ensures owed { OnOk result (W.owed wires.new ≡ W.owed wires.old) }
    ensures kept { OnErr result (W.log wires.new ≡ W.log wires.old) }
{
    let tiles = scene.layout.count();
    let _ranks = scene.ranks();
    let plan = plan_of(alloc, scene, &way.settings)?;
    let images = draw_images(rt, alloc, scene, way.strands, way.workers)?;
    let weight = weigh(images.as_slice(), tiles);
    let pictures = run_net(
        rt,
        alloc,
        plan,
        scene.mode,
        &scene.layout,
        images,
        way,
        wires,
        gate,
    )?;
    Ok(Outcome { pictures, weight })
}
