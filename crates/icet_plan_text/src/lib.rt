//! Plans as texts: the messages of a plan, and its brackets with each rank's exchanges.
#![tactic(auto)]

mod brackets;
pub mod examples;
mod lines;
pub mod plan;
pub mod traffic;

pub use plan::write_plan;
pub use traffic::write_traffic;
