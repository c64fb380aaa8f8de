//! The scenes whose nets are timed.
use icet_scene::read::read;
use icet_scene::scene::Scene;
use std::alloc::Global;

/// How many ranks share a square tile of this side, whether each draws all of it, and how often a net is timed.
#[derive(Clone, Copy, Debug)]
pub struct Work {
    pub ranks: u32,
    pub side: u32,
    pub draws: bool,
    pub runs: usize,
}

/// Messages without a drawn pixel.
pub const SMALL: Work = Work {
    ranks: 64,
    side: 16,
    draws: false,
    runs: 101,
};

/// Messages of many drawn pixels.
pub const LARGE: Work = Work {
    ranks: 8,
    side: 1024,
    draws: true,
    runs: 9,
};

/// The scene of the work. A rank that draws has a triangle over the whole tile, the lower ones in front.
pub fn scene_of(alloc: Global, work: &Work) -> anyhow::Result<Scene> {
    let mut text = format!(in alloc;
        "icet-scene 1\nmode depth\nranks {}\ntile 0 0 {} {} 0\n",
        work.ranks, work.side, work.side
    )?;
    if work.draws {
        for rank in 0..work.ranks {
            let far = work.side.saturating_mul(32);
            let corner = format!(in alloc; "{rank} 10 20 30 255")?;
            let shape = format!(in alloc;
                "tri {rank} 0 0 {corner} {far} 0 {corner} 0 {far} {corner}\n"
            )?;
            text.push_str(shape.as_str())?;
        }
    }
    text.push_str("end\n")?;
    Ok(read(alloc, text.as_bytes())?)
}
