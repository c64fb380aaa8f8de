//! Fragments, how two pixels at one place become one, and dense images.
#![tactic(auto)]

pub mod dense;
pub mod fragment;
pub mod laws;
pub mod pixel;

pub use dense::Dense;
pub use fragment::Fragment;
pub use pixel::{Pixel, finish, join, join_fragments, over};
