//! A scene with its shapes ready drawn: spans of the pixels that each rank draws.
#![tactic(auto)]

pub mod laws;
pub mod ready;
mod rows;
mod scan;
mod tile_image;

pub use ready::ready_drawn;
