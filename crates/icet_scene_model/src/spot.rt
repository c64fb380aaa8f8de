/// A spot of the display's plane in sixteenths of a pixel; `x` grows to the right and `y` downwards.
#[derive(Clone, Copy, Debug, PartialEq, Eq)]
pub struct Spot {
    pub x: i32,
    pub y: i32,
}
