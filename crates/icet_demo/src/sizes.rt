//! How large the demonstration is.

/// Pixels of its one tile, from left to right and from top to bottom.
pub const WIDTH: u32 = 1920;

pub const HEIGHT: u32 = 1080;

pub const RANKS: u32 = 16;

/// How many triangles each rank draws.
pub const TRIANGLES: u32 = 25;
