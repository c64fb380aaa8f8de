use std::marker::Model;

/// A rendering process, by its number from 0. Contracts see it as that number.
#[derive(Clone, Copy, Debug, PartialEq, Eq, PartialOrd, Ord, Hash)]
pub struct Rank(pub u32);

impl Model for Rank {
    ghost use Rattle.std.specs.Prelude.{ℕ, ◌<◌, ◌^◌};

    ghost Value = { ℕ };

    ghost view = { λ r. r.0 };

    ghost invariant = { λ r. r.0 < 2 ^ 32 };

    ghost inverse = { λ n. record { 0 = n } };
}

/// A rectangle of pixels: its left and top edge, and how many pixels wide and high it is.
/// `x` grows to the right and `y` downwards.
#[derive(Clone, Copy, Debug, PartialEq, Eq)]
pub struct Rect {
    pub x: i32,
    pub y: i32,
    pub w: u32,
    pub h: u32,
}

/// How two pixels at one place become one.
#[derive(Clone, Copy, Debug, PartialEq, Eq)]
pub enum Mode {
    /// The nearer fragment hides the other.
    Depth,
    /// The front fragment stands over the other, where 255 is opaque.
    Blend,
    /// The front fragment stands over the other, where 65,535 is opaque.
    WideBlend,
}
