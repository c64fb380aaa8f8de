//! Times the drawing of shapes, each kind on a scene that it makes, and prints what a unit took: a triangle of the
//! demonstration, a pixel that is tested, drawn or copied, a small triangle.
#![tactic(auto)]

mod report;
mod scenes;
mod timing;

use report::report_all;
use std::env;
use std::process::ExitCode;

/// What is printed to whoever gives no such word.
const USAGE: &str = "usage: icet_draw_bench all\n";

/// The exit status for other words.
const REFUSED: u8 = 2;

fn main(rt: HostRuntime) -> anyhow::Result<ExitCode> {
    let word = env::args(&rt)?.nth(1);
    match word.as_deref() {
        Some("all") => report_all(&rt, rt.alloc())?,
        _ => {
            rt.print(USAGE)?;
            return Ok(ExitCode::from(REFUSED));
        }
    }
    Ok(ExitCode::SUCCESS)
}
