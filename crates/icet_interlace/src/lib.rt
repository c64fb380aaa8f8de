//! Interlaces images, so that pieces of equal length have about equally many drawn pixels.
#![tactic(auto)]

pub mod interlacing;
pub mod laws;

pub use interlacing::{interlace, pixel_at, place, restore};
