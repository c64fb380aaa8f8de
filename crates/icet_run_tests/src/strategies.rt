//! Every strategy composites one picture by depth, whoever of so many ranks draws the triangles that are seen.
use crate::runs::{Came, assert_came, came_of_scene, done};
use crate::scenes::EDGE_PICTURE;
use icet_base::NoMemory;
use std::alloc::Global;
use std::thread::Threads;

const HEAD: &str = "icet-scene 1\nmode depth\nranks ";

const TILE: &str = "\ntile 0 0 2 2 0\n";

/// The left upper half of the tile, and what remains of it.
const UPPER: &str = " 0 0 5 10 20 30 255 32 0 5 10 20 30 255 0 32 5 10 20 30 255\n";

const LOWER: &str = " 32 0 5 40 50 60 255 32 32 5 40 50 60 255 0 32 5 40 50 60 255\n";

/// A triangle behind both, over the whole tile.
const BEHIND: &str = " -64 -64 9 7 7 7 255 128 -64 9 7 7 7 255 -64 128 9 7 7 7 255\n";

/// The strategies' words.
const STRATEGIES: [[&str; 4]; 8] = [
    ["composite", "--strategy=direct", "--k=8", "--cap=4"],
    [
        "composite",
        "--strategy=sequential",
        "--single=tree",
        "--cap=4",
    ],
    [
        "composite",
        "--strategy=sequential",
        "--single=bswap",
        "--cap=1",
    ],
    [
        "composite",
        "--strategy=sequential",
        "--single=radixk",
        "--k=2",
    ],
    [
        "composite",
        "--strategy=sequential",
        "--single=radixk",
        "--k=8",
    ],
    ["composite", "--strategy=reduce", "--single=tree", "--cap=1"],
    [
        "composite",
        "--strategy=reduce",
        "--single=bswap",
        "--burst=1",
    ],
    ["composite", "--single=radixk", "--k=2", "--workers=3"],
];

/// How many ranks there are, and which of them draw the upper half, the lower half, and what is behind.
const DRAWERS: [[&str; 4]; 10] = [
    ["1", "0", "0", "0"],
    ["2", "1", "0", "0"],
    ["3", "2", "1", "0"],
    ["4", "3", "1", "2"],
    ["5", "4", "2", "1"],
    ["6", "5", "2", "0"],
    ["7", "6", "3", "2"],
    ["8", "7", "4", "6"],
    ["9", "8", "4", "5"],
    ["64", "63", "31", "32"],
];

/// The scene of these drawers.
fn scene_of(alloc: Global, drawers: &[&str; 4]) -> Result<String, NoMemory> {
    let [ranks, upper, lower, behind] = *drawers;
    let mut text = String::new(alloc);
    for part in [
        HEAD, ranks, TILE, "tri ", behind, BEHIND, "tri ", upper, UPPER, "tri ", lower, LOWER,
        "end\n",
    ] {
        text.push_str(part)?;
    }
    Ok(text)
}

/// What comes of a strategy over the scene of these drawers.
fn came_of_drawers<R: Threads + Sync>(
    rt: &R,
    alloc: Global,
    words: &[&str],
    drawers: &[&str; 4],
) -> Result<Came, NoMemory> {
    let scene = scene_of(alloc, drawers)?;
    came_of_scene(rt, alloc, words, scene.as_str())
}

#[test]
fn each_strategy_shows_one_picture(rt: HostRuntime) {
    for drawers in &DRAWERS {
        for words in &STRATEGIES {
            let came = came_of_drawers(&rt, rt.alloc(), words, drawers);
            assert_came(&rt, &came, done(EDGE_PICTURE), drawers[0]);
        }
    }
}

/// Six displays, three side by side in two rows.
const WALL: &str =
    "icet-scene 1\nmode depth\nranks 12\ntile 0 0 2 2 0\ntile 2 0 2 2 1\ntile 4 0 2 2 2\ntile 0 2 2 2 3\ntile 2 2 2 2 4\ntile 4 2 2 2 5\n";

/// The scene of a wall: on each display one rank draws the left upper half and another one what remains of it, and every
/// rank draws a triangle behind all of them.
fn wall(alloc: Global) -> Result<String, NoMemory> {
    let mut text = String::new(alloc);
    text.push_str(WALL)?;
    for tile in 0..6u32 {
        let x = tile % 3 * 32;
        let y = tile / 3 * 32;
        let (right, below) = (x + 32, y + 32);
        let upper = format!(in alloc;
            "tri {} {x} {y} 5 10 20 30 255 {right} {y} 5 10 20 30 255 {x} {below} 5 10 20 30 255\n",
            11 - tile
        )?;
        let lower = format!(in alloc;
            "tri {tile} {right} {y} 5 40 50 60 255 {right} {below} 5 40 50 60 255 {x} {below} 5 40 50 60 255\n"
        )?;
        text.push_str(upper.as_str())?;
        text.push_str(lower.as_str())?;
    }
    for rank in 0..12u32 {
        let behind = format!(in alloc;
            "tri {rank} -64 -64 9 7 7 7 255 512 -64 9 7 7 7 255 -64 512 9 7 7 7 255\n"
        )?;
        text.push_str(behind.as_str())?;
    }
    text.push_str("end\n")?;
    Ok(text)
}

/// What comes of a strategy over the wall, and the same picture six times.
fn came_of_wall<R: Threads + Sync>(
    rt: &R,
    alloc: Global,
    words: &[&str],
) -> Result<(Came, Vec<u8>), NoMemory> {
    let scene = wall(alloc)?;
    let mut pictures = Vec::new(alloc);
    for _ in 0..6 {
        pictures.extend_from_slice(EDGE_PICTURE)?;
    }
    Ok((came_of_scene(rt, alloc, words, scene.as_str())?, pictures))
}

#[test]
fn each_strategy_shows_a_wall(rt: HostRuntime) {
    for words in &STRATEGIES {
        match came_of_wall(&rt, rt.alloc(), words) {
            Ok((came, pictures)) => assert!(rt; came.wrote(pictures.as_slice()), "{}", words[1]),
            Err(_) => assert!(rt; false, "{}", words[1]),
        }
    }
}
