ghost use Rattle.std.specs.Prelude.{◌≡◌, IfOk};

use crate::paints::Paints;
use icet_base::NoMemory;
use icet_pixel::Fragment;
use std::alloc::Global;

/// A corner of a triangle: its spot in sixteenths of a pixel, from -262,143 to 262,143 in each
/// direction, and its paint.
#[derive(Clone, Copy, Debug, PartialEq, Eq)]
pub struct Vertex {
    pub x: i32,
    pub y: i32,
    pub paint: Fragment,
}

/// What a rank draws, in display space.
#[derive(Drop)]
pub enum Shape {
    /// One pixel at `x` and `y`, from 0 to 16,383.
    Point { x: i32, y: i32, paint: Fragment },
    /// The pixels whose centres the triangle covers.
    Tri { corners: [Vertex; 3] },
    /// A run of pixels of one row, ready drawn: from `x` on to the right, at most up to column 16,383, in
    /// row `y`, from 0 to 16,383.
    Span { x: i32, y: i32, paints: Paints },
}

impl Shape {
    /// An equal shape.
    ///
    /// # Errors
    ///
    /// `NoMemory` where the paints of a span find no memory.
    pub fn copy(&self, alloc: Global) -> Result<Shape, NoMemory>
        ensures { IfOk result (λ shape. shape ≡ self.now) }
    {
        match self {
            Shape::Point { x, y, paint } => Ok(Shape::Point {
                x: *x,
                y: *y,
                paint: *paint,
            }),
            Shape::Tri { corners } => Ok(Shape::Tri {
                corners: [corners[0], corners[1], corners[2]],
            }),
            Shape::Span { x, y, paints } => Ok(Shape::Span {
                x: *x,
                y: *y,
                paints: paints.copy(alloc)?,
            }),
        }
    }
}
