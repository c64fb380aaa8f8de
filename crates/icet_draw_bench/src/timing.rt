//! One drawing, timed.
use icet_base::Rank;
use icet_raster::draw;
use icet_scene::scene::Scene;
use std::alloc::Global;
use std::rt::Clock;
use std::time::Instant;

/// How long it takes to draw each rank's image of the first tile, in nanoseconds, with the image's memory.
pub fn time_once<R: Clock>(rt: &R, alloc: Global, scene: &Scene) -> anyhow::Result<u128> {
    // That there is a tile is known after a look at the layout.
    let _tiles = scene.layout.count();
    let area = scene.layout.tile(0).area;
    let mut all = 0u128;
    for rank in 0..scene.ranks() {
        let shapes = scene.shapes_of(alloc, Rank(rank))?;
        let start = Instant::now(rt)?;
        let image = draw(alloc, shapes.as_slice(), scene.mode, area)?;
        all = all.saturating_add(start.elapsed(rt)?.as_nanos());
        let _width = image.width();
    }
    Ok(all)
}
