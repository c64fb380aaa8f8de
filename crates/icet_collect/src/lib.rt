//! Collects the final pieces of a tile into one picture.
#![tactic(auto)]

pub mod canvas;

pub use canvas::Canvas;
