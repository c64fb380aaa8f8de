//! One net, timed.
ghost use Rattle.std.specs.Prelude.{◌≡◌, ◌≤◌};
ghost use Rattle.icet_net.specs.Ranks.{AreHulls};

use icet_base::{NoMemory, PlainGate, Rank};
use icet_jobs::{images_of, plan_of};
use icet_multi::Settings;
use icet_net::{Hull, RankMachine, close_net, drive, open_net};
use icet_plan::Plan;
use icet_ring::Wires;
use icet_scene::scene::Scene;
use std::alloc::Global;
use std::rt::Clock;
use std::thread::Threads;
use std::time::Instant;

/// What is timed of a net: its steps, all of them, and its drive for each message.
#[derive(Clone, Copy, Debug)]
pub enum Step {
    Open,
    Drive,
    Close,
    All,
    Message,
}

impl Step {
    /// The name that is printed.
    pub fn name(self) -> &'static str {
        match self {
            Step::Open => "open",
            Step::Drive => "drive",
            Step::Close => "close",
            Step::All => "all",
            Step::Message => "a message",
        }
    }
}

/// When a net's steps had ended, in nanoseconds since it began, and how many messages it moved.
#[derive(Clone, Copy, Debug)]
pub struct Timing {
    pub opened: u128,
    pub driven: u128,
    pub closed: u128,
    pub messages: u64,
}

impl Timing {
    /// What this took, in nanoseconds.
    pub fn of(&self, step: Step) -> u128 {
        let drive = self.driven.saturating_sub(self.opened);
        match step {
            Step::Open => self.opened,
            Step::Drive => drive,
            Step::Close => self.closed.saturating_sub(self.driven),
            Step::All => self.closed,
            Step::Message => drive / u128::from(self.messages.max(1)),
        }
    }
}

/// How many messages a plan has: each is sent and taken.
fn messages_of(plan: &Plan) -> u64 {
    let mut exchanges = 0u64;
    for rank in 0..plan.ranks() {
        exchanges = exchanges.saturating_add(u64::from(plan.exchanges(Rank(rank))));
    }
    exchanges / 2
}

/// Makes the plan by these settings and draws the images, and times their net, in which four messages may wait on a
/// pair.
pub fn time_once<W: Wires, R: Clock + Threads + Sync>(
    rt: &R,
    alloc: Global,
    scene: &Scene,
    settings: Settings,
    workers: u32,
    wires: &mut W,
) -> anyhow::Result<Timing>
    requires split { 2 ≤ settings.k }
    requires workers { 1 ≤ workers }
{
    // That the scene is lawful is known after a look at it.
    let _ranks = scene.ranks();
    let plan = plan_of(alloc, scene, &settings)?;
    let images = images_of(alloc, scene, 1)?;
    let messages = messages_of(&plan);
    let start = Instant::now(rt)?;
    let (hull, mut ranks) = open_net(alloc, plan, scene.mode, &scene.layout, images, 1, wires, 4)?;
    let opened = start.elapsed(rt)?.as_nanos();
    drive_all(rt, &hull, &mut ranks, workers, wires)?;
    let driven = start.elapsed(rt)?.as_nanos();
    let _pictures = close_net(hull, ranks, wires);
    let closed = start.elapsed(rt)?.as_nanos();
    Ok(Timing {
        opened,
        driven,
        closed,
        messages,
    })
}

/// Drives a net to its end, with at most sixteen exchanges of a rank a turn.
fn drive_all<W: Wires, R: Threads + Sync>(
    rt: &R,
    hull: &Hull<W>,
    ranks: &mut Vec<RankMachine<W::In, W::Out>>,
    workers: u32,
    wires: &mut W,
) -> Result<(), NoMemory>
    requires workers { 1 ≤ workers }
    requires hulls { AreHulls hull.now ranks.old.items }
    ensures hulls { AreHulls hull.now ranks.new.items }
    ensures owed { W.owed wires.new ≡ W.owed wires.old }
{
    drive(rt, hull, ranks, wires, workers, 16, &PlainGate)
}
