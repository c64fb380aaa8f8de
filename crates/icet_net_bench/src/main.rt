//! Times nets over images that it makes: their opening, their drive and their close, without the plan and the drawing.
//!
//! `small` has 64 ranks that draw nothing, so that a message costs little beside itself; `large` has 8 ranks that each
//! draw every pixel of a tile of 1024 by 1024. Both go over each kind of wires, by 1, 2 and 4 workers. `scene` reads a
//! scene from standard input and goes over rings by each strategy. `merge` times the merge of two images of which a
//! fifth is drawn, by their runs and pixel by pixel.
#![tactic(auto)]

mod cases;
mod merging;
mod report;
mod timing;
mod work;

use cases::{report_strategies, report_wires};
use icet_scene::read::read;
use merging::report_merge;
use std::alloc::Global;
use std::io::Read;
use std::process::ExitCode;
use std::rt::Clock;
use std::thread::Threads;
use std::{env, io};
use work::{LARGE, SMALL, Work, scene_of};

/// What is printed to whoever gives no such word.
const USAGE: &str = "usage: icet_net_bench small|large|scene|merge\n";

/// The exit status for other words.
const REFUSED: u8 = 2;

/// Times the nets of a scene that is made.
fn report_work<R: Clock + Print + Threads + Sync>(
    rt: &R,
    alloc: Global,
    work: &Work,
) -> anyhow::Result<()> {
    let scene = scene_of(alloc, work)?;
    report_wires(rt, alloc, &scene, work.runs)
}

/// Times the nets of the scene that a source has.
fn report_source<R: Clock + Print + Threads + Sync, S: Read + Drop>(
    rt: &R,
    alloc: Global,
    source: S,
) -> anyhow::Result<()> {
    let text = io::read_to_string(alloc, source)?;
    let scene = read(alloc, text.as_bytes())?;
    report_strategies(rt, alloc, &scene)
}

/// Does what a word asks for, and says whether there is such a word.
fn report_word<R: Clock + Print + Threads + Sync, S: Read + Drop>(
    rt: &R,
    alloc: Global,
    word: &str,
    source: S,
) -> anyhow::Result<bool> {
    match word {
        "small" => report_work(rt, alloc, &SMALL)?,
        "large" => report_work(rt, alloc, &LARGE)?,
        "scene" => report_source(rt, alloc, source)?,
        "merge" => report_merge(rt, alloc)?,
        _ => return Ok(false),
    }
    Ok(true)
}

fn main(rt: HostRuntime) -> anyhow::Result<ExitCode> {
    let word = env::args(&rt)?.nth(1).unwrap_or(String::new(rt.alloc()));
    if report_word(&rt, rt.alloc(), word.as_str(), rt.stdin())? {
        return Ok(ExitCode::SUCCESS);
    }
    rt.print(USAGE)?;
    Ok(ExitCode::from(REFUSED))
}
