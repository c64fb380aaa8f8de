//! Groups: which ranks join the images of which tile of a wall of displays, and which contributors each of them
//! takes images from. More ranks serve a tile to which more ranks contribute.
#![tactic(auto)]

pub mod blocks;
pub mod examples;
pub mod grouping;
pub mod laws;
pub mod members;
pub mod places;
pub mod seats;
pub mod tile;

pub use blocks::block;
pub use grouping::groups;
pub use members::Groups;
pub use tile::TileRanks;
