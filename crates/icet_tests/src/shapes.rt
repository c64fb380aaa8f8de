//! Drawing a triangle and a span, and copying shapes, with ample memory.
ghost use Rattle.icet_raster.specs.Shapes.{IsCorner};

use crate::drawing::render;
use icet_base::{Mode, NoMemory, Rect};
use icet_pixel::{Fragment, Pixel};
use icet_raster::{Paints, Shape, Vertex, draw};
use std::alloc::Global;

/// Two by two pixels in the corner of the display.
const SQUARE: Rect = Rect {
    x: 0,
    y: 0,
    w: 2,
    h: 2,
};

/// An opaque grey.
fn grey(level: u8, z: u16) -> Fragment {
    let level = u16::from(level);
    Fragment::of(level, level, level, 255, u32::from(z))
}

/// A grey corner, in sixteenths of a pixel.
fn corner(x: i16, y: i16) -> Vertex
    ensures { IsCorner result }
{
    Vertex {
        x: i32::from(x),
        y: i32::from(y),
        paint: grey(7, 5),
    }
}

/// Whether the upper left half of the square covers its first pixel alone.
fn is_drawn(alloc: Global) -> Result<bool, NoMemory> {
    let corners = [corner(0, 0), corner(32, 0), corner(0, 32)];
    let image = render(alloc, SQUARE, corners)?;
    let wanted: [Pixel; 4] = [Some(grey(7, 5)), None, None, None];
    Ok(image.as_slice() == wanted.as_slice())
}

#[test]
fn a_triangle_is_drawn_into_a_tile(rt: HostRuntime) {
    assert!(rt; matches!(is_drawn(rt.alloc()), Ok(true)));
}

/// Whether a copy of a span is drawn with its two paints in the second row, the nearer of two over the other.
fn is_copied(alloc: Global) -> Result<bool, NoMemory> {
    let paints = Paints::of(vec![in alloc; grey(1, 9), grey(2, 9)]?);
    let span = Shape::Span { x: 0, y: 1, paints };
    let shapes = [
        span.copy(alloc)?,
        Shape::Point {
            x: 1,
            y: 1,
            paint: grey(3, 8),
        },
    ];
    let image = draw(alloc, &shapes, Mode::Depth, SQUARE)?;
    let wanted: [Pixel; 4] = [None, None, Some(grey(1, 9)), Some(grey(3, 8))];
    Ok(image.as_slice() == wanted.as_slice())
}

#[test]
fn a_copy_of_a_span_is_drawn(rt: HostRuntime) {
    assert!(rt; matches!(is_copied(rt.alloc()), Ok(true)));
}
