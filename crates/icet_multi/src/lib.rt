//! The strategies for displays of tiles: which rank sends which part of its image to whom.
#![tactic(auto)]

mod blocks;
pub mod direct;
mod drafts;
pub mod examples;
pub mod laws;
mod legs;
pub mod planning;
pub mod reduce;
pub mod sequential;
pub mod settings;
mod single;
pub mod tile;

pub use icet_groups::TileRanks;
pub use planning::plan;
pub use settings::{Settings, Single, Strategy};
