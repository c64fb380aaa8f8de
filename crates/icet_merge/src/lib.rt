//! Joins two pieces of the same positions, one in front of the other.
#![tactic(auto)]

pub mod joining;

pub use joining::merge;
