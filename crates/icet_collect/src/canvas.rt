ghost use Rattle.std.specs.Prelude.{◌≡◌, ℕ, ◌+◌, ◌*◌, ◌<◌, ◌≤◌, ◌^◌, ◌↔◌, IfOk, IsTrue, Some, None, [], ◌∷◌, false, length, map, replicate, get_or};
ghost use Rattle.icet_collect.specs.Collect.{CanvasView, blank_canvas, position_of, stretch, IsCanvas, IsFree, IsFull, Places};
ghost use Rattle.icet_model.specs.declared.limits.TheConstants.{MAX_RANK_PIXELS};

use icet_base::NoMemory;
use icet_interlace::pixel_at;
use icet_pixel::{Dense, Fragment, Pixel};
use icet_sparse::Sparse;
use std::alloc::Global;
use std::marker::Model;

/// The picture of a tile while its final pieces come in. A piece's positions are those of interlaced
/// pixels; each pixel is put where it stands in the picture.
#[derive(Drop)]
pub struct Canvas {
    tile: u32,
    w: u32,
    h: u32,
    strands: u32,
    /// Whether a position was placed.
    placed: Vec<bool>,
    /// The pixels of the picture.
    pixels: Vec<Pixel>,
    /// How many positions were not placed yet.
    left: usize,
}

impl Model for Canvas {
    ghost use Rattle.icet_collect.specs.Collect.{CanvasView, Counts};

    ghost Value = { CanvasView };

    ghost view = { λ s. record { tile = s.tile; w = s.w; h = s.h; strands = s.strands; placed = s.placed.items; pixels = s.pixels.items } };

    ghost invariant = { λ s. Counts (record { tile = s.tile; w = s.w; h = s.h; strands = s.strands; placed = s.placed.items; pixels = s.pixels.items }) s.left };
}

impl Canvas {
    /// A canvas of `w` by `h` positions, none of them placed. Condition: there are at most 67,108,864
    /// positions, and at least one strand.
    pub fn blank(alloc: Global, tile: u32, w: u32, h: u32, strands: u32) -> Result<Canvas, NoMemory>
        requires most { w * h ≤ MAX_RANK_PIXELS }
        requires strands { 1 ≤ strands }
        ensures { IfOk result (λ c. c ≡ blank_canvas tile w h strands) }
    {
        let left = w as usize * h as usize;
        let placed = vec![in alloc; false; left]?;
        let pixels = vec![in alloc; None; left]?;
        Ok(Canvas {
            tile,
            w,
            h,
            strands,
            placed,
            pixels,
            left,
        })
    }

    /// Puts the pixels of a piece at its positions, run by run, and leaves all others. Condition: the
    /// piece is one of the canvas's tile, its positions are some of the canvas's, and none of them was
    /// placed.
    pub fn place(&mut self, piece: &Sparse)
        requires tile { piece.now.tile ≡ self.old.tile }
        requires inside { piece.now.hi ≤ self.old.w * self.old.h }
        requires free { IsFree self.old piece.now }
        ensures { Places self.old self.new piece.now }
    {
        let mut walk = piece.walk();
        let mut at = piece.lo();
        'placing: while at < piece.hi() {
            let stretch = walk.next(piece.hi() - at);
            self.leave_blank(at, stretch.blank);
            self.put_run(at + stretch.blank, stretch.drawn);
            at += stretch.len();
        }
    }

    /// Marks so many positions as placed and leaves them None.
    fn leave_blank(&mut self, at: u32, count: u32)
        requires fits { at + count < 2 ^ 32 }
        requires inside { at + count ≤ self.old.w * self.old.h }
        requires free { IsFree self.old (stretch self.old.tile at (replicate count None)) }
        ensures { Places self.old self.new (stretch self.old.tile at (replicate count None)) }
    {
        'leaving: for position in at..at + count {
            self.mark(position);
        }
    }

    /// Puts drawn pixels at as many positions from `at` on.
    fn put_run(&mut self, at: u32, fragments: &[Fragment])
        requires fits { at + length fragments.now < 2 ^ 32 }
        requires inside { at + length fragments.now ≤ self.old.w * self.old.h }
        requires free { IsFree self.old (stretch self.old.tile at (map Some fragments.now)) }
        ensures { Places self.old self.new (stretch self.old.tile at (map Some fragments.now)) }
    {
        'putting: for position in at..at + fragments.len() as u32 {
            self.put(position, fragments[(position - at) as usize]);
        }
    }

    /// Puts a drawn pixel at a position that was not placed.
    fn put(&mut self, position: u32, fragment: Fragment)
        requires inside { position < self.old.w * self.old.h }
        requires free { get_or self.old.placed position false ≡ false }
        ensures places { Places self.old self.new (stretch self.old.tile position (Some fragment ∷ [])) }
        ensures known { IsCanvas self.old }
    {
        let i = self.pixel_of(position);
        self.placed[position as usize] = true;
        self.pixels[i as usize] = Some(fragment);
        self.left -= 1;
    }

    /// Marks a position that was not placed; its pixel is None already.
    fn mark(&mut self, position: u32)
        requires inside { position < self.old.w * self.old.h }
        requires free { get_or self.old.placed position false ≡ false }
        ensures places { Places self.old self.new (stretch self.old.tile position (None ∷ [])) }
        ensures known { IsCanvas self.old }
    {
        self.placed[position as usize] = true;
        self.left -= 1;
    }

    /// The pixel that has a position; with one strand it is the position itself.
    fn pixel_of(&self, position: u32) -> u32
        requires { position < self.now.w * self.now.h }
        ensures within { result < self.now.w * self.now.h }
        ensures place { position_of self.now result ≡ position }
        ensures known { IsCanvas self.now }
    {
        if self.strands == 1 {
            return position;
        }
        pixel_at(position, self.w * self.h, self.strands)
    }

    /// Whether every position was placed.
    pub fn full(&self) -> bool
        ensures value { IsTrue result ↔ IsFull self.now }
        ensures known { IsCanvas self.now }
    {
        self.left == 0
    }

    /// The picture. Condition: every position was placed.
    pub fn finish(self) -> Dense
        requires { IsFull self }
        ensures { result ≡ record { w = self.w; h = self.h; pixels = self.pixels } }
    {
        Dense::from_pixels(self.w, self.h, self.pixels)
    }
}
