ghost use Rattle.std.specs.Prelude.{◌≡◌, ◌≢◌};
ghost use Rattle.icet_demo.specs.Demonstration.{demo_scene};
ghost use Rattle.icet_scene_model.specs.Texts.{SceneText, text_is};
ghost use Rattle.icet_words.specs.declared.job.Job.TheVariants.{Composite, Traffic, Plan, Replay, Demo, Upgrade};
ghost use Rattle.icet_cli.specs.FaultNotes.{status_for};
ghost use Rattle.icet_cli.specs.JobEndings.{EndsWith, IsWayOf, SceneJobEnds, SumsUp, shown};
ghost use Rattle.icet_cli.specs.Untouched.{LeavesOwed, LeavesSink, LeavesWires};

use crate::run_fault::RunFault;
use icet_base::{Gate, Sink};
use icet_demo::demo_scene;
use icet_jobs::{Way, composite, plan_of, write_pictures, write_replay, write_summary};
use icet_plan_text::{write_plan, write_traffic};
use icet_ring::Wires;
use icet_scene::read::read;
use icet_scene::scene::Scene;
use icet_scene_text::write_upgrade;
use icet_upgrade::ready_drawn;
use icet_words::{Command, Job};
use std::alloc::Global;
use std::thread::Threads;

/// Does the job of a command with the scene of a text. Condition: the job reads a scene.
pub fn do_text<K: Sink, W: Wires, G: Gate, R: Threads + Sync>(
    rt: &R,
    alloc: Global,
    command: &Command,
    bytes: &[u8],
    sink: &mut K,
    wires: &mut W,
    gate: &G,
) -> Result<(), RunFault>
    requires { command.now.job ≢ Demo }
    ensures ends { EndsWith command.now (text_is bytes.now)
        (shown (K.told sink.old) (W.log wires.old)) (shown (K.told sink.new) (W.log wires.new)) result }
    ensures sink { LeavesSink (status_for result) sink.old sink.new }
    ensures wires { LeavesWires (status_for result) wires.old wires.new }
    ensures owed { LeavesOwed (status_for result) (W.owed wires.old) (W.owed wires.new) }
{
    let scene = read(alloc, bytes)?;
    match command.job() {
        Job::Composite => composite_scene(rt, alloc, command, &scene, sink, wires, gate),
        Job::Traffic => write_scene_traffic(alloc, command, &scene, sink),
        Job::Plan => write_scene_plan(alloc, command, &scene, sink),
        Job::Replay => replay_scene(alloc, command, &scene, sink),
        Job::Summary => summarize_scene(rt, alloc, command, &scene, sink, wires, gate),
        Job::Upgrade => upgrade_scene(alloc, command, &scene, sink),
        Job::Demo => unreachable!(),
    }
}

/// Makes the scene of a command's seed, and sums its pictures up.
pub fn do_demo<K: Sink, W: Wires, G: Gate, R: Threads + Sync>(
    rt: &R,
    alloc: Global,
    command: &Command,
    sink: &mut K,
    wires: &mut W,
    gate: &G,
) -> Result<(), RunFault>
    requires { command.now.job ≡ Demo }
    ensures ends { EndsWith command.now (SceneText (demo_scene command.now.seed))
        (shown (K.told sink.old) (W.log wires.old)) (shown (K.told sink.new) (W.log wires.new)) result }
    ensures sink { LeavesSink (status_for result) sink.old sink.new }
    ensures wires { LeavesWires (status_for result) wires.old wires.new }
    ensures owed { LeavesOwed (status_for result) (W.owed wires.old) (W.owed wires.new) }
{
    let scene = demo_scene(alloc, command.seed())?;
    summarize_scene(rt, alloc, command, &scene, sink, wires, gate)
}

/// Composites a scene and writes the summary of its pictures.
fn summarize_scene<K: Sink, W: Wires, G: Gate, R: Threads + Sync>(
    rt: &R,
    alloc: Global,
    command: &Command,
    scene: &Scene,
    sink: &mut K,
    wires: &mut W,
    gate: &G,
) -> Result<(), RunFault>
    requires { SumsUp command.now.job }
    ensures ends { EndsWith command.now (SceneText scene.now)
        (shown (K.told sink.old) (W.log wires.old)) (shown (K.told sink.new) (W.log wires.new)) result }
    ensures sink { LeavesSink (status_for result) sink.old sink.new }
    ensures wires { LeavesWires (status_for result) wires.old wires.new }
    ensures owed { LeavesOwed (status_for result) (W.owed wires.old) (W.owed wires.new) }
{
    let outcome = composite(rt, alloc, scene, &way_of(command), wires, gate)?;
    write_summary(sink, scene, &outcome)?;
    Ok(())
}

/// How a command has scenes composited.
fn way_of(command: &Command) -> Way
    ensures { IsWayOf command.now result }
{
    Way {
        settings: command.settings(),
        cap: command.cap(),
        workers: command.workers(),
        burst: command.burst(),
        strands: command.strands(),
    }
}

/// Composites a scene and writes its pictures.
fn composite_scene<K: Sink, W: Wires, G: Gate, R: Threads + Sync>(
    rt: &R,
    alloc: Global,
    command: &Command,
    scene: &Scene,
    sink: &mut K,
    wires: &mut W,
    gate: &G,
) -> Result<(), RunFault>
    requires { command.now.job ≡ Composite }
    ensures ends { EndsWith command.now (SceneText scene.now)
        (shown (K.told sink.old) (W.log wires.old)) (shown (K.told sink.new) (W.log wires.new)) result }
    ensures sink { LeavesSink (status_for result) sink.old sink.new }
    ensures wires { LeavesWires (status_for result) wires.old wires.new }
    ensures owed { LeavesOwed (status_for result) (W.owed wires.old) (W.owed wires.new) }
{
    let outcome = composite(rt, alloc, scene, &way_of(command), wires, gate)?;
    write_pictures(sink, scene, &outcome)?;
    Ok(())
}

/// Writes the messages of a scene's plan.
fn write_scene_traffic<K: Sink>(
    alloc: Global,
    command: &Command,
    scene: &Scene,
    sink: &mut K,
) -> Result<(), RunFault>
    requires { command.now.job ≡ Traffic }
    ensures ends { SceneJobEnds command.now scene.now (K.told sink.old) (K.told sink.new) result }
    ensures sink { LeavesSink (status_for result) sink.old sink.new }
{
    let plan = plan_of(alloc, scene, &command.settings())?;
    write_traffic(sink, &plan)?;
    Ok(())
}

/// Writes a scene's plan.
fn write_scene_plan<K: Sink>(
    alloc: Global,
    command: &Command,
    scene: &Scene,
    sink: &mut K,
) -> Result<(), RunFault>
    requires { command.now.job ≡ Plan }
    ensures ends { SceneJobEnds command.now scene.now (K.told sink.old) (K.told sink.new) result }
    ensures sink { LeavesSink (status_for result) sink.old sink.new }
{
    let plan = plan_of(alloc, scene, &command.settings())?;
    write_plan(sink, &plan)?;
    Ok(())
}

/// Writes a scene's text with its shapes ready drawn.
fn upgrade_scene<K: Sink>(
    alloc: Global,
    command: &Command,
    scene: &Scene,
    sink: &mut K,
) -> Result<(), RunFault>
    requires { command.now.job ≡ Upgrade }
    ensures ends { SceneJobEnds command.now scene.now (K.told sink.old) (K.told sink.new) result }
    ensures sink { LeavesSink (status_for result) sink.old sink.new }
{
    let ready = ready_drawn(alloc, scene)?;
    write_upgrade(sink, &ready)?;
    Ok(())
}

/// Writes the replay of a scene's plan.
fn replay_scene<K: Sink>(
    alloc: Global,
    command: &Command,
    scene: &Scene,
    sink: &mut K,
) -> Result<(), RunFault>
    requires { command.now.job ≡ Replay }
    ensures ends { SceneJobEnds command.now scene.now (K.told sink.old) (K.told sink.new) result }
    ensures sink { LeavesSink (status_for result) sink.old sink.new }
{
    let plan = plan_of(alloc, scene, &command.settings())?;
    write_replay(alloc, sink, &plan, command.cap(), command.schedule())?;
    Ok(())
}
