//! What is printed of the times.
use crate::timing::{Step, Timing};
use icet_base::NoMemory;
use std::alloc::Global;

/// Prints what the nets of a case took: a line for each step, with the least and the median in microseconds, and what
/// driving took for each message, in nanoseconds.
pub fn print_case<R: Print>(
    rt: &R,
    alloc: Global,
    name: &str,
    workers: u32,
    timings: &[Timing],
) -> anyhow::Result<()> {
    for step in [Step::Open, Step::Drive, Step::Close, Step::All] {
        let times = times_of(alloc, timings, step)?;
        print_times(rt, name, workers, step.name(), times.as_slice())?;
    }
    let times = times_of(alloc, timings, Step::Message)?;
    let least = times.first().copied().unwrap_or(0);
    println!(rt; "{name}, {workers} workers, a message: {least} ns")?;
    Ok(())
}

/// Prints a line with the least and the median of times in nanoseconds, in microseconds.
pub fn print_times<R: Print>(
    rt: &R,
    name: &str,
    workers: u32,
    step: &str,
    times: &[u128],
) -> anyhow::Result<()> {
    let least = times.first().copied().unwrap_or(0) / 1000;
    let median = times.get(times.len() / 2).copied().unwrap_or(0) / 1000;
    println!(rt; "{name}, {workers} workers, {step}: {least} {median} us")?;
    Ok(())
}

/// What a step took in each net, the least first.
fn times_of(alloc: Global, timings: &[Timing], step: Step) -> Result<Vec<u128>, NoMemory> {
    let mut times = Vec::new(alloc);
    for timing in timings {
        times.push(timing.of(step))?;
    }
    times.sort_unstable();
    Ok(times)
}
