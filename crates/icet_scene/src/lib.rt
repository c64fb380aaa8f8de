//! Scenes, and their text.
#![tactic(auto)]

mod draft;
mod form;
mod line;
mod numbers;
mod opening;
pub mod read;
mod read_line;
pub mod scene;
mod shapes;

pub use icet_scene_model::fault::{SceneFault, Want};
