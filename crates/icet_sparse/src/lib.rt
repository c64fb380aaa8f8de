//! Pieces: the pixels of a run of positions of one tile, kept as runs.
#![tactic(auto)]

mod fragments;
pub mod run;
pub mod shared;
pub mod sparse;
pub mod strip;
pub mod walk;

pub use run::Run;
pub use shared::SharedStrip;
pub use sparse::Sparse;
pub use strip::Strip;
pub use walk::{Stretch, Walk};
