//! Summaries: what pictures are worth comparing by, in a few numbers.
#![tactic(auto)]

pub mod examples;
pub mod tally;
pub mod text;

pub use tally::Tally;
pub use text::put_summary;
