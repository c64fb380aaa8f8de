//! What many drawings of one scene took.
use crate::scenes::{Work, works};
use crate::timing::time_once;
use std::alloc::Global;
use std::rt::Clock;

/// How often each scene is drawn.
const RUNS: usize = 21;

/// Prints a line for each scene: the least and the median of the times of its drawings in microseconds, and how many
/// nanoseconds a unit took at least.
pub fn report_all<R: Clock + Print>(rt: &R, alloc: Global) -> anyhow::Result<()> {
    println!(rt; "least us, median us, ns a unit")?;
    for work in &works(alloc)? {
        report(rt, alloc, work)?;
    }
    Ok(())
}

/// Prints the line of a scene.
fn report<R: Clock + Print>(rt: &R, alloc: Global, work: &Work) -> anyhow::Result<()> {
    let mut times = Vec::new(alloc);
    for _ in 0..RUNS {
        times.push(time_once(rt, alloc, &work.scene)?)?;
    }
    times.sort_unstable();
    let least = times.first().copied().unwrap_or(0);
    let median = times.get(RUNS / 2).copied().unwrap_or(0);
    let picoseconds = least.saturating_mul(1000) / u128::from(work.units.max(1));
    println!(rt;
        "{}: {} {} {}.{:03}",
        work.name,
        least / 1000,
        median / 1000,
        picoseconds / 1000,
        picoseconds % 1000
    )?;
    Ok(())
}
