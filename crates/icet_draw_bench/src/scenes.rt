//! The scenes whose drawing is timed.
ghost use Rattle.std.specs.Prelude.{◌≤◌};

use icet_base::NoMemory;
use icet_demo::demo_scene;
use icet_scene::read::read;
use icet_scene::scene::Scene;
use std::alloc::Global;

/// A scene, the name of what is timed, and how many of these it has.
#[derive(Drop)]
pub struct Work {
    pub name: &'static str,
    pub units: u64,
    pub scene: Scene,
}

/// How many small triangles are drawn.
const MANY: u32 = 1000;

/// How many rows of 1024 pixels a tile has: those of one band, since an image is drawn band by band.
const ROWS: u32 = 16;

/// How often a triangle is drawn over the whole tile.
const LAYERS: u32 = 1024;

/// How often a row is drawn: so seldom that the paints of all rows stay in a processor's cache, or so often that they
/// come from memory.
const FEW: u32 = 4;

const MEMORY: u32 = 256;

/// All that is timed.
pub fn works(alloc: Global) -> anyhow::Result<Vec<Work>> {
    Ok(vec![in alloc;
        demonstration(alloc)?,
        tested(alloc)?,
        drawn(alloc)?,
        small(alloc)?,
        rows(alloc, "a pixel of a row", FEW)?,
        rows(alloc, "a pixel of a row from memory", MEMORY)?,
    ]?)
}

/// The 400 triangles of the demonstration, in images of 1920 by 1080 pixels.
fn demonstration(alloc: Global) -> anyhow::Result<Work> {
    Ok(Work {
        name: "demonstration, a triangle",
        units: 400,
        scene: demo_scene(alloc, 1)?,
    })
}

/// A sliver along the diagonal in which no pixel's centre lies, and whose box has all pixels of the tile: each is tested
/// and none is drawn.
fn tested(alloc: Global) -> anyhow::Result<Work> {
    layered(
        alloc,
        "a pixel tested",
        "tri 0 0 0 5 1 1 1 255 16383 256 5 1 1 1 255 16384 256 5 1 1 1 255\n",
    )
}

/// A triangle over the whole tile: each pixel is tested and drawn.
fn drawn(alloc: Global) -> anyhow::Result<Work> {
    layered(
        alloc,
        "a pixel tested and drawn",
        "tri 0 -16 -16 5 10 20 30 255 32800 -16 5 90 80 70 255 -16 1024 5 1 2 3 255\n",
    )
}

/// The shape of a line, so often over a tile that making the image counts for little.
fn layered(alloc: Global, name: &'static str, line: &str) -> anyhow::Result<Work> {
    let mut text = String::new(alloc);
    text.push_str("icet-scene 1\nmode depth\nranks 1\ntile 0 0 1024 16 0\n")?;
    for _ in 0..LAYERS {
        text.push_str(line)?;
    }
    text.push_str("end\n")?;
    Ok(Work {
        name,
        units: u64::from(LAYERS) * u64::from(ROWS) * 1024,
        scene: read(alloc, text.as_bytes())?,
    })
}

/// Triangles of 20 pixels or so, each with both sides of six and a half pixels.
fn small(alloc: Global) -> anyhow::Result<Work> {
    let mut text = String::new(alloc);
    text.push_str("icet-scene 1\nmode depth\nranks 1\ntile 0 0 256 256 0\n")?;
    for i in 0..MANY {
        let x = i % 32 * 128;
        let y = i / 32 * 128;
        let line = format!(in alloc;
            "tri 0 {x} {y} 5 10 20 30 255 {} {y} 5 90 80 70 255 {x} {} 5 1 2 3 255\n",
            x + 104,
            y + 104
        )?;
        text.push_str(line.as_str())?;
    }
    text.push_str("end\n")?;
    Ok(Work {
        name: "a triangle of 20 pixels",
        units: u64::from(MANY),
        scene: read(alloc, text.as_bytes())?,
    })
}

/// Rows of 1024 pixels that were drawn elsewhere, each over so many others.
fn rows(alloc: Global, name: &'static str, layers: u32) -> anyhow::Result<Work>
    requires { layers ≤ 256 }
{
    let row = row_of(alloc)?;
    let mut text = String::new(alloc);
    text.push_str("icet-scene 2\nmode depth\nranks 1\ntile 0 0 1024 16 0\n")?;
    for i in 0..layers * ROWS {
        let line = format!(in alloc; "span 0 0 {}", i % ROWS)?;
        text.push_str(line.as_str())?;
        text.push_str(row.as_str())?;
    }
    text.push_str("end\n")?;
    Ok(Work {
        name,
        units: u64::from(layers) * u64::from(ROWS) * 1024,
        scene: read(alloc, text.as_bytes())?,
    })
}

/// The fragments of a row of 1024 pixels, as a line has them.
fn row_of(alloc: Global) -> Result<String, NoMemory> {
    let mut row = String::new(alloc);
    for _ in 0..1024u32 {
        row.push_str(" 5 10 20 30 255")?;
    }
    row.push_str("\n")?;
    Ok(row)
}
