//! Binary-swap: a tile's participants fold down to a power of two, halve their pieces in pairs, round by
//! round, and hand the final pieces to the tile's display.
#![tactic(auto)]

mod exchange;
mod halves;
pub mod laws;
mod programs;
mod split;

pub use exchange::exchange_plan;
