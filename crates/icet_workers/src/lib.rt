//! Work on the items of a slice, shared out to threads that end before the call returns.
#![tactic(auto)]

pub mod sharing;

pub use sharing::for_each_share;
