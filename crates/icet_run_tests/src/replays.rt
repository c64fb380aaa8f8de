//! Replays of long schedules.
use crate::runs::{Came, FIVE_RANKS, NEVER, came_into, source_of};
use icet_base::{MemSink, NoMemory};
use std::alloc::Global;
use std::thread::Threads;

/// How many bytes the longest of these replays writes at most.
const ROOM: usize = 16_384;

/// So many of a text, one behind the other.
fn repeated(alloc: Global, text: &str, times: u32) -> Result<String, NoMemory> {
    let mut all = String::new(alloc);
    for _ in 0..times {
        all.push_str(text)?;
    }
    Ok(all)
}

/// What comes of a replay of this schedule, of binary-swap among five ranks over pairs that hold one message.
fn came_of_schedule<R: Threads + Sync>(
    rt: &R,
    alloc: Global,
    schedule: &str,
) -> Result<Came, NoMemory> {
    let words = [
        "replay",
        "--strategy",
        "sequential",
        "--single",
        "bswap",
        "--cap",
        "1",
        "--schedule",
        schedule,
    ];
    let mut source = source_of(alloc, FIVE_RANKS, NEVER)?;
    let sink = MemSink::new(alloc, ROOM, ROOM, Vec::new(alloc))?;
    came_into(rt, alloc, &words, &mut source, sink)
}

/// Whether a rank that waits for another stalls at each of a thousand tries, and the net stays unfinished.
fn stalls_at_each_try<R: Threads + Sync>(rt: &R, alloc: Global) -> Result<bool, NoMemory> {
    let mut schedule = repeated(alloc, "0,", 999)?;
    schedule.push_str("0")?;
    let mut written = repeated(alloc, "0 stalled\n", 1000)?;
    written.push_str("unfinished 0\n")?;
    let came = came_of_schedule(rt, alloc, &schedule)?;
    Ok(came.wrote(written.as_bytes()))
}

/// Whether a schedule in which the ranks try in turn, the last first, comes to the end.
fn comes_to_its_end<R: Threads + Sync>(rt: &R, alloc: Global) -> Result<bool, NoMemory> {
    let mut schedule = repeated(alloc, "4,3,2,1,0,", 23)?;
    schedule.push_str("4,3,2,1,0")?;
    let came = came_of_schedule(rt, alloc, &schedule)?;
    Ok(came.wrote_in_the_end(b"\nfinished\n"))
}

#[test]
fn a_rank_that_waits_stalls_at_each_try(rt: HostRuntime) {
    let stalls = stalls_at_each_try(&rt, rt.alloc());
    assert_eq!(rt; stalls, Ok(true));
}

// Each time that all five have tried, at least one of the 24 exchanges is made.
#[test]
fn the_worst_order_comes_to_its_end(rt: HostRuntime) {
    let ends = comes_to_its_end(&rt, rt.alloc());
    assert_eq!(rt; ends, Ok(true));
}
