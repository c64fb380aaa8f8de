//! The demonstration: a large scene that is made from a number, for whoever has none at hand.
#![tactic(auto)]

pub mod corners;
pub mod scene;
pub mod sizes;

pub use scene::demo_scene;

#[cfg(test)]
mod tests;
