ghost use Rattle.std.specs.Prelude.{◌≡◌, ◌≤◌, IfOk};
ghost use Rattle.icet_jobs.specs.Composites.{IsPlanFor};
ghost use Rattle.icet_scene_model.specs.Jobs.{boxes_of};

use icet_base::{NoMemory, Rank, Rect};
use icet_multi::{Settings, plan};
use icet_plan::Plan;
use icet_raster::box_of;
use icet_scene::scene::Scene;
use icet_tiles::Contributors;
use std::alloc::Global;

/// The plan for a scene: that of the strategy for the scene's tiles, to each of which the ranks
/// contribute whose box meets it, in the scene's order.
///
/// # Errors
///
/// `NoMemory`.
#[tactic(auto, using(crate::proofs::SceneNets::keep_order))]
pub fn plan_of(alloc: Global, scene: &Scene, settings: &Settings) -> Result<Plan, NoMemory>
    requires { 2 ≤ settings.now.k }
    ensures { IfOk result (IsPlanFor settings.now scene.now) }
{
    let ranks = scene.ranks();
    let boxes = boxes_of(alloc, scene)?;
    let order = scene.order.as_slice();
    let who = Contributors::of(alloc, &scene.layout, boxes.as_slice(), order)?;
    plan(alloc, &scene.layout, ranks, &who, order, settings)
}

/// The box of what each rank draws.
#[tactic(auto, using(crate::proofs::SceneImages::made_more))]
fn boxes_of(alloc: Global, scene: &Scene) -> Result<Vec<Option<Rect>>, NoMemory>
    ensures { IfOk result (λ boxes. boxes.items ≡ boxes_of scene.now) }
{
    let mut boxes = Vec::new(alloc);
    for rank in 0..scene.ranks() {
        let shapes = scene.shapes_of(alloc, Rank(rank))?;
        boxes.push(box_of(shapes.as_slice()))?;
    }
    Ok(boxes)
}
