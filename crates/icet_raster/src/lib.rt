//! Shapes, what they draw into an image, and the box of what they draw.
#![tactic(auto)]

pub mod boxes;
mod cut;
pub mod drawing;
mod edge;
mod filling;
mod frame;
pub mod laws;
mod painting;
pub mod paints;
mod seen;
mod shades;
mod shading;
pub mod shape;
mod shares;
mod spans;
mod stretches;
pub mod triangles;
mod walks;

pub use boxes::box_of;
pub use cut::Part;
pub use drawing::draw;
pub use paints::Paints;
pub use seen::part_seen;
pub use shape::{Shape, Vertex};
pub use triangles::{covers, shade};
