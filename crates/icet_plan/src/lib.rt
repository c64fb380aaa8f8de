//! Plans, which say who sends which piece to whom, and the pure core that says which rank may go on.
#![tactic(auto)]

pub mod brackets;
pub mod laws;
mod pairs;
pub mod plan;
pub mod program;
pub mod progress;

pub use icet_model::bracket::Bracket;
pub use icet_model::exchange::{Exchange, Kind, Op};
pub use plan::{Leg, Plan};
pub use program::Program;
pub use progress::{Advance, Core};
