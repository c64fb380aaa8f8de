//! Radix-k: round by round, groups exchange the parts of their pieces, and hand the final pieces to the tile's display.
#![tactic(auto)]

mod divisors;
mod exchange;
mod folds;
pub mod laws;
mod programs;
mod round;

pub use divisors::factors;
pub use exchange::exchange_plan;
