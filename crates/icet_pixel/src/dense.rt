ghost use Rattle.std.specs.Prelude.{◌≡◌, ℕ, ◌*◌, ◌<◌, ◌≤◌, ◌^◌, IfOk, None, length, slice_set, get_or, replicate};
ghost use Rattle.icet_model.specs.Pixel.{DenseView};
ghost use Rattle.icet_pixel.specs.Dense.{IsDense};

use crate::pixel::Pixel;
use icet_base::NoMemory;
use std::alloc::Global;
use std::marker::Model;

/// An image of `w` by `h` pixels, at most 268,435,456 in all, row by row from the top.
#[derive(Drop)]
pub struct Dense {
    w: u32,
    h: u32,
    pixels: Vec<Pixel>,
}

impl Model for Dense {
    ghost use Rattle.icet_model.specs.Pixel.{DenseView};
    ghost use Rattle.icet_pixel.specs.Dense.{IsDense};

    ghost Value = { DenseView };

    ghost view = { λ s. record { w = s.w; h = s.h; pixels = s.pixels.items } };

    ghost invariant = { λ s. IsDense (record { w = s.w; h = s.h; pixels = s.pixels.items }) };
}

impl Dense {
    /// An image of `w` by `h` pixels where nothing was drawn. Condition: there are at most
    /// 268,435,456 pixels.
    pub fn blank(alloc: Global, w: u32, h: u32) -> Result<Dense, NoMemory>
        requires { w * h ≤ 268435456 }
        ensures { IfOk result (λ d. d ≡ record { w = w; h = h; pixels = replicate (w * h) None }) }
    {
        let count = w as usize * h as usize;
        let pixels = vec![in alloc; None; count]?;
        Ok(Dense { w, h, pixels })
    }

    /// The image of these pixels, row by row from the top. Condition: there are `w` times `h`, and at
    /// most 268,435,456.
    pub fn from_pixels(w: u32, h: u32, pixels: Vec<Pixel>) -> Dense
        requires size { length pixels.items ≡ w * h }
        requires most { w * h ≤ 268435456 }
        ensures { result ≡ record { w = w; h = h; pixels = pixels.items } }
    {
        Dense { w, h, pixels }
    }

    /// How many pixels a row has.
    pub fn width(&self) -> u32
        ensures value { result ≡ self.now.w }
        ensures known { IsDense self.now }
    {
        self.w
    }

    /// How many rows there are.
    pub fn height(&self) -> u32
        ensures value { result ≡ self.now.h }
        ensures known { IsDense self.now }
    {
        self.h
    }

    /// The pixel at a position. Condition: `i` is below the number of pixels.
    pub fn get(&self, i: u32) -> Pixel
        requires { i < self.now.w * self.now.h }
        ensures { result ≡ get_or self.now.pixels i None }
    {
        self.pixels[i as usize]
    }

    /// Puts `pixel` at a position and leaves all others. Condition: `i` is below the number of pixels.
    pub fn set(&mut self, i: u32, pixel: Pixel)
        requires { i < self.old.w * self.old.h }
        ensures { self.new ≡ record { w = self.old.w; h = self.old.h; pixels = slice_set self.old.pixels i pixel } }
    {
        self.pixels[i as usize] = pixel;
    }

    /// All pixels, row by row from the top.
    pub fn as_slice(&self) -> &[Pixel]
        ensures pixels { result.now ≡ self.now.pixels }
        ensures known { IsDense self.now }
    {
        self.pixels.as_slice()
    }

    /// Hands out the pixels, row by row from the top.
    pub fn into_pixels(self) -> Vec<Pixel>
        ensures pixels { result.items ≡ self.pixels }
        ensures known { IsDense self }
    {
        self.pixels
    }
}
