//! The nets that the tests open for a scene, and step by themselves.
ghost use Rattle.std.specs.Prelude.{◌<◌, ◌≤◌, IfOk, length};
ghost use Rattle.icet_net.specs.Ranks.{AreHulls};

use icet_base::NoMemory;
use icet_jobs::{images_of, plan_of};
use icet_multi::{Settings, Single, Strategy};
use icet_net::{Hull, RankMachine, open_net};
use icet_ring::Wires;
use icet_scene::scene::Scene;
use std::alloc::Global;

/// The net of a scene whose tiles are composited one after another, with room for `cap` messages on a pair.
pub(crate) fn open_sequential<W: Wires>(
    alloc: Global,
    scene: &Scene,
    single: Single,
    cap: u32,
    wires: &mut W,
) -> Result<(Hull<W>, Vec<RankMachine<W::In, W::Out>>), NoMemory>
    requires { 0 < cap }
    ensures hulls { IfOk result (λ net. AreHulls net.0 net.1.items) }
    ensures owed { IfOk result (λ net. length net.0.pairs ≤ W.owed wires.new) }
{
    // That the scene is lawful is known after a look at it.
    let _ranks = scene.ranks();
    let settings = Settings {
        strategy: Strategy::Sequential,
        single,
        k: 8,
    };
    let plan = plan_of(alloc, scene, &settings)?;
    let images = images_of(alloc, scene, 1)?;
    open_net(
        alloc,
        plan,
        scene.mode,
        &scene.layout,
        images,
        1,
        wires,
        cap,
    )
}
