//! Two images merged, by their runs and pixel by pixel.
ghost use Rattle.std.specs.Prelude.{◌≡◌};

use icet_base::{Mode, NoMemory};
use icet_merge::merge;
use icet_pixel::{Fragment, Pixel, join};
use icet_sparse::Sparse;
use std::alloc::Global;
use std::rt::Clock;
use std::time::Instant;

/// How many pixels an image has.
const PIXELS: u32 = 2_000_000;

/// How many pixels of a run are drawn.
const RUN: u32 = 100;

/// How many runs' lengths it is to the next run: a fifth of an image is drawn.
const APART: u32 = 5;

/// How often a merge is timed.
const RUNS: usize = 21;

/// An image whose first run begins so many pixels early, at this depth.
fn image(alloc: Global, early: u32, depth: u32) -> Result<Vec<Pixel>, NoMemory> {
    let mut pixels = Vec::new(alloc);
    for i in 0..PIXELS {
        let is_drawn = i.saturating_add(early) / RUN % APART == 0;
        let fragment = Fragment::new(10, 20, 30, 255, depth);
        pixels.push(if is_drawn { fragment } else { None })?;
    }
    Ok(pixels)
}

/// The dense join of two images.
fn joined(alloc: Global, front: &[Pixel], back: &[Pixel]) -> Result<Vec<Pixel>, NoMemory> {
    let mut pixels = Vec::with_capacity(alloc, front.len())?;
    for (front, back) in front.iter().zip(back) {
        pixels.push(join(Mode::Depth, *front, *back))?;
    }
    Ok(pixels)
}

/// The image as a piece; a blank one where it has too many pixels.
fn piece_of(alloc: Global, pixels: &[Pixel]) -> Result<Sparse, NoMemory> {
    if pixels.len() > PIXELS as usize {
        return Ok(Sparse::blank(alloc, 0, 0, PIXELS));
    }
    Sparse::of(alloc, 0, pixels)
}

/// The merge of two pieces, and none where they aren't of the same positions.
fn merged(alloc: Global, front: &Sparse, back: &Sparse) -> Result<Option<Sparse>, NoMemory> {
    if front.tile() != back.tile() || front.lo() != back.lo() || front.hi() != back.hi() {
        return Ok(None);
    }
    Ok(Some(merge(alloc, Mode::Depth, front, back)?))
}

/// What merges by runs take, in nanoseconds, the least first.
fn times_by_runs<R: Clock>(
    rt: &R,
    alloc: Global,
    front: &Sparse,
    back: &Sparse,
) -> anyhow::Result<Vec<u128>> {
    let mut times = Vec::new(alloc);
    for _ in 0..RUNS {
        let start = Instant::now(rt)?;
        let _piece = merged(alloc, front, back)?;
        times.push(start.elapsed(rt)?.as_nanos())?;
    }
    times.sort_unstable();
    Ok(times)
}

/// What dense joins take, in nanoseconds, the least first.
fn times_by_pixels<R: Clock>(
    rt: &R,
    alloc: Global,
    front: &[Pixel],
    back: &[Pixel],
) -> anyhow::Result<Vec<u128>> {
    let mut times = Vec::new(alloc);
    for _ in 0..RUNS {
        let start = Instant::now(rt)?;
        let _pixels = joined(alloc, front, back)?;
        times.push(start.elapsed(rt)?.as_nanos())?;
    }
    times.sort_unstable();
    Ok(times)
}

/// Prints the least and the median of times in nanoseconds, in microseconds.
fn print_merge<R: Print>(rt: &R, name: &str, times: &[u128]) -> anyhow::Result<()> {
    let least = times.first().copied().unwrap_or(0) / 1000;
    let median = times.get(RUNS / 2).copied().unwrap_or(0) / 1000;
    println!(rt; "{name}: {least} {median} us")?;
    Ok(())
}

/// Prints what merging two images takes, by their runs and pixel by pixel.
pub fn report_merge<R: Clock + Print>(rt: &R, alloc: Global) -> anyhow::Result<()> {
    let front = image(alloc, 0, 1)?;
    let back = image(alloc, RUN / 2, 2)?;
    let front_piece = piece_of(alloc, front.as_slice())?;
    let back_piece = piece_of(alloc, back.as_slice())?;
    let by_runs = times_by_runs(rt, alloc, &front_piece, &back_piece)?;
    let by_pixels = times_by_pixels(rt, alloc, front.as_slice(), back.as_slice())?;
    print_merge(rt, "by runs", by_runs.as_slice())?;
    print_merge(rt, "by pixels", by_pixels.as_slice())
}
