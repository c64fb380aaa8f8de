//! The tree: neighbours are joined, pair by pair, until one image is left, which goes to the tile's display.
#![tactic(auto)]

mod exchange;
pub mod laws;

pub use exchange::exchange_plan;
