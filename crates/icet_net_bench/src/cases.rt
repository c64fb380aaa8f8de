//! The nets that are timed: over which wires, by which strategy, with how many workers.
ghost use Rattle.std.specs.Prelude.{◌≤◌};

use crate::report::print_case;
use crate::timing::{Timing, time_once};
use icet_multi::{Settings, Single, Strategy};
use icet_ring::MemWires;
use icet_ring_wires::{RingWires, ScriptWires};
use icet_scene::scene::Scene;
use std::alloc::Global;
use std::rt::Clock;
use std::thread::Threads;

/// A kind of wires. The ports of a script look away at no call.
#[derive(Clone, Copy)]
enum Kind {
    Memory,
    Rings,
    Script,
}

/// What is timed: so many nets over wires of a kind, by settings.
#[derive(Clone, Copy)]
struct Case {
    name: &'static str,
    kind: Kind,
    settings: Settings,
    runs: usize,
}

/// How often a net of a scene that is read is timed.
const RUNS: usize = 15;

/// Binary-swap, one tile after another.
const SWAP: Settings = Settings {
    strategy: Strategy::Sequential,
    single: Single::Bswap,
    k: 8,
};

/// Prints what a scene's nets take over each kind of wires.
pub fn report_wires<R: Clock + Print + Threads + Sync>(
    rt: &R,
    alloc: Global,
    scene: &Scene,
    runs: usize,
) -> anyhow::Result<()> {
    report_over(rt, alloc, scene, runs, "memory", Kind::Memory)?;
    report_over(rt, alloc, scene, runs, "rings", Kind::Rings)?;
    report_over(rt, alloc, scene, runs, "script", Kind::Script)
}

/// Prints what a scene's nets take over wires of one kind.
fn report_over<R: Clock + Print + Threads + Sync>(
    rt: &R,
    alloc: Global,
    scene: &Scene,
    runs: usize,
    name: &'static str,
    kind: Kind,
) -> anyhow::Result<()> {
    let case = Case {
        name,
        kind,
        settings: SWAP,
        runs,
    };
    report_workers(rt, alloc, scene, &case)
}

/// Prints what a scene's nets take over rings by each strategy.
pub fn report_strategies<R: Clock + Print + Threads + Sync>(
    rt: &R,
    alloc: Global,
    scene: &Scene,
) -> anyhow::Result<()> {
    let tree = Settings {
        single: Single::Tree,
        ..SWAP
    };
    let radixk = Settings {
        single: Single::Radixk,
        ..SWAP
    };
    let wide = Settings { k: 16, ..radixk };
    let direct = Settings {
        strategy: Strategy::Direct,
        ..SWAP
    };
    let reduce = Settings {
        strategy: Strategy::Reduce,
        ..radixk
    };
    report_by(rt, alloc, scene, "direct", direct)?;
    report_by(rt, alloc, scene, "tree", tree)?;
    report_by(rt, alloc, scene, "bswap", SWAP)?;
    report_by(rt, alloc, scene, "radixk-8", radixk)?;
    report_by(rt, alloc, scene, "radixk-16", wide)?;
    report_by(rt, alloc, scene, "reduce", reduce)
}

/// Prints what a scene's nets take over rings by one strategy.
fn report_by<R: Clock + Print + Threads + Sync>(
    rt: &R,
    alloc: Global,
    scene: &Scene,
    name: &'static str,
    settings: Settings,
) -> anyhow::Result<()>
    requires { 2 ≤ settings.k }
{
    let case = Case {
        name,
        kind: Kind::Rings,
        settings,
        runs: RUNS,
    };
    report_workers(rt, alloc, scene, &case)
}

/// Prints what the nets of a case take by 1, 2 and 4 workers.
fn report_workers<R: Clock + Print + Threads + Sync>(
    rt: &R,
    alloc: Global,
    scene: &Scene,
    case: &Case,
) -> anyhow::Result<()>
    requires { 2 ≤ case.now.settings.k }
{
    report(rt, alloc, scene, case, 1)?;
    report(rt, alloc, scene, case, 2)?;
    report(rt, alloc, scene, case, 4)
}

/// Prints what the nets of a case take by so many workers.
fn report<R: Clock + Print + Threads + Sync>(
    rt: &R,
    alloc: Global,
    scene: &Scene,
    case: &Case,
    workers: u32,
) -> anyhow::Result<()>
    requires split { 2 ≤ case.now.settings.k }
    requires workers { 1 ≤ workers }
{
    let timings = timings_of(rt, alloc, scene, case, workers)?;
    print_case(rt, alloc, case.name, workers, timings.as_slice())
}

/// The timings of a case.
fn timings_of<R: Clock + Threads + Sync>(
    rt: &R,
    alloc: Global,
    scene: &Scene,
    case: &Case,
    workers: u32,
) -> anyhow::Result<Vec<Timing>>
    requires split { 2 ≤ case.now.settings.k }
    requires workers { 1 ≤ workers }
{
    let mut timings = Vec::new(alloc);
    for _ in 0..case.runs {
        timings.push(time_over(rt, alloc, scene, case, workers)?)?;
    }
    Ok(timings)
}

/// Times a net over new wires.
fn time_over<R: Clock + Threads + Sync>(
    rt: &R,
    alloc: Global,
    scene: &Scene,
    case: &Case,
    workers: u32,
) -> anyhow::Result<Timing>
    requires split { 2 ≤ case.now.settings.k }
    requires workers { 1 ≤ workers }
{
    let settings = case.settings;
    match case.kind {
        Kind::Memory => {
            let mut wires = MemWires::new(alloc);
            time_once(rt, alloc, scene, settings, workers, &mut wires)
        }
        Kind::Rings => {
            let mut wires = RingWires::new(alloc);
            time_once(rt, alloc, scene, settings, workers, &mut wires)
        }
        Kind::Script => {
            let mut wires = ScriptWires::new(alloc, Vec::new(alloc));
            time_once(rt, alloc, scene, settings, workers, &mut wires)
        }
    }
}
