//! Pictures as text: the Netpbm format PAM, uncompressed, with premultiplied colour. They are written, and what
//! was written is read again.
#![tactic(auto)]

mod heading;
pub mod laws;
pub mod picture;
pub mod reading;
#[cfg(test)]
mod tests;

pub use picture::write_picture;
pub use reading::{Picture, PictureFault, read_picture};
