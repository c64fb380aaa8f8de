//! The text of a scene, written; and the law that this text is read again as the same scene.
#![tactic(auto)]

pub mod laws;
mod lines;
mod numbers;
pub mod printing;

pub use printing::{print, write_upgrade};
