//! The tiles of a display, and which ranks contribute to them.
#![tactic(auto)]

pub mod area;
pub mod contributors;
pub mod layout;

pub use area::{contains, meet};
pub use contributors::Contributors;
pub use layout::{Layout, Tile, lawful};
