//! The image that shapes draw of a tile, as a piece: its memory and its time are those of the part of the tile where the
//! shapes may be seen.
#![tactic(auto)]

mod bands;
pub mod drawn;
mod framing;

pub use drawn::drawn_piece;
