//! The scenes whose nets are stepped.
use icet_base::NoMemory;
use icet_scene::read::read;
use icet_scene::scene::Scene;
use std::alloc::Global;

/// Three ranks that draw nothing.
pub(crate) const NOTHING: &str = "icet-scene 1\nmode depth\nranks 3\ntile 5 5 2 1 2\nend\n";

/// Five ranks that draw nothing.
pub(crate) const FIVE_RANKS: &str = "icet-scene 1\nmode depth\nranks 5\ntile 0 0 7 1 0\nend\n";

/// The scene of a text, read.
pub(crate) fn scene_of(alloc: Global, text: &str) -> Result<Scene, NoMemory> {
    match read(alloc, text.as_bytes()) {
        Ok(scene) => Ok(scene),
        Err(_) => Err(NoMemory),
    }
}
