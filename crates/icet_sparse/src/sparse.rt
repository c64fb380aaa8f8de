ghost use Rattle.std.specs.Prelude.{◌≡◌, ℕ, List, ◌+◌, ◌-◌, ◌*◌, ◌<◌, ◌≤◌, ◌^◌, ◌++◌, ◌↔◌, IfOk, OnOk, OnErr, IsTrue, None, length, take, drop, get_or, replicate};
ghost use Rattle.icet_sparse.specs.Sparse.{IsPiece};
ghost use Rattle.icet_sparse.specs.Runs.{fragments_of, weight_of};

use crate::shared::SharedStrip;
use crate::strip::Strip;
use crate::walk::Walk;
use icet_base::NoMemory;
use icet_pixel::Pixel;
use std::alloc::Global;
use std::marker::Model;

/// The pixels of the positions from `lo` up to `hi`, not included, of a tile, kept as runs.
#[derive(Drop)]
pub struct Sparse {
    tile: u32,
    lo: u32,
    hi: u32,
    pixels: SharedStrip,
}

impl Model for Sparse {
    ghost use Rattle.std.specs.Prelude.{List};
    ghost use Rattle.icet_model.specs.Pixel.{Pixel};
    ghost use Rattle.icet_model.specs.Run.{Piece};
    ghost use Rattle.icet_sparse.specs.Sparse.{IsPiece};

    ghost Value = { Piece (List Pixel) };

    ghost view = { λ s. record { tile = s.tile; lo = s.lo; hi = s.hi; content = s.pixels } };

    ghost invariant = { λ s. IsPiece (record { tile = s.tile; lo = s.lo; hi = s.hi; content = s.pixels }) };
}

impl Sparse {
    /// The piece of a whole tile, whose cells are its pixels. Condition: there are fewer than 2^32.
    pub fn of(alloc: Global, tile: u32, cells: &[Pixel]) -> Result<Sparse, NoMemory>
        requires { length cells.now < 2 ^ 32 }
        ensures { IfOk result (λ s. s ≡ record { tile = tile; lo = 0; hi = length cells.now; content = cells.now }) }
    {
        let pixels = Strip::of(alloc, cells)?;
        Sparse::from_strip(tile, 0, cells.len() as u32, pixels)
    }

    /// The piece with these pixels, whose fragments are moved. Condition: there are as many as positions.
    pub fn from_strip(tile: u32, lo: u32, hi: u32, pixels: Strip) -> Result<Sparse, NoMemory>
        requires ordered { lo ≤ hi }
        requires size { length pixels ≡ hi - lo }
        ensures { IfOk result (λ s. s ≡ record { tile = tile; lo = lo; hi = hi; content = pixels }) }
    {
        let pixels = pixels.into_shared()?;
        Ok(Sparse::with(tile, lo, hi, pixels))
    }

    /// The piece with these pixels.
    fn with(tile: u32, lo: u32, hi: u32, pixels: SharedStrip) -> Sparse
        requires ordered { lo ≤ hi }
        requires size { length pixels ≡ hi - lo }
        ensures { result ≡ record { tile = tile; lo = lo; hi = hi; content = pixels } }
    {
        Sparse {
            tile,
            lo,
            hi,
            pixels,
        }
    }

    /// The piece without a drawn pixel; it takes no memory. Condition: `lo` is at most `hi`.
    pub fn blank(alloc: Global, tile: u32, lo: u32, hi: u32) -> Sparse
        requires { lo ≤ hi }
        ensures { result ≡ record { tile = tile; lo = lo; hi = hi; content = replicate (hi - lo) None } }
    {
        Sparse::with(tile, lo, hi, SharedStrip::blank(alloc, hi - lo))
    }

    /// The number of the tile.
    pub fn tile(&self) -> u32
        ensures value { result ≡ self.now.tile }
        ensures known { IsPiece self.now }
    {
        self.tile
    }

    /// The first position.
    pub fn lo(&self) -> u32
        ensures value { result ≡ self.now.lo }
        ensures known { IsPiece self.now }
    {
        self.lo
    }

    /// The position behind the last.
    pub fn hi(&self) -> u32
        ensures value { result ≡ self.now.hi }
        ensures known { IsPiece self.now }
    {
        self.hi
    }

    /// A walk over the pixels, run by run.
    pub fn walk(&self) -> Walk<'_>
        ensures value { result ≡ self.now.content }
        ensures known { IsPiece self.now }
    {
        self.pixels.walk()
    }

    /// The pixel at a position; it walks over the runs before. Condition: `i` is one of the piece's.
    pub fn get(&self, i: u32) -> Pixel
        requires lo { self.now.lo ≤ i }
        requires hi { i < self.now.hi }
        ensures { result ≡ get_or self.now.content (i - self.now.lo) None }
    {
        let mut walk = self.walk();
        walk.skip(i - self.lo());
        walk.next_pixel()
    }

    /// How many pixels are drawn.
    pub fn drawn(&self) -> u32
        ensures { result ≡ length (fragments_of self.now.content) }
    {
        self.pixels.drawn()
    }

    /// 8 for each maximal run of drawn pixels, and 8 for each drawn pixel.
    pub fn weight(&self) -> u64
        ensures { result ≡ weight_of self.now.content }
    {
        self.pixels.weight()
    }

    /// Whether both have the same tile, positions and pixels; it compares runs and fragments, and takes
    /// no memory.
    pub fn same(&self, other: &Sparse) -> bool
        ensures { IsTrue result ↔ (self.now ≡ other.now) }
    {
        self.tile == other.tile
            && self.lo == other.lo
            && self.hi == other.hi
            && self.pixels.same(&other.pixels)
    }

    /// An equal piece, which shares the fragments.
    pub fn copy(&self, alloc: Global) -> Result<Sparse, NoMemory>
        ensures { IfOk result (λ s. s ≡ self.now) }
    {
        let pixels = self.pixels.copy(alloc)?;
        Ok(Sparse::with(self.tile, self.lo, self.hi, pixels))
    }

    /// The piece of the positions from `lo` up to `hi`, which shares their fragments. Condition: they are some of this
    /// piece's.
    pub fn part(&self, alloc: Global, lo: u32, hi: u32) -> Result<Sparse, NoMemory>
        requires lo { self.now.lo ≤ lo }
        requires ordered { lo ≤ hi }
        requires hi { hi ≤ self.now.hi }
        ensures { IfOk result (λ s. s ≡ record { tile = self.now.tile; lo = lo; hi = hi; content = take (hi - lo) (drop (lo - self.now.lo) self.now.content) }) }
    {
        let pixels = self.pixels.part(alloc, lo - self.lo, hi - lo)?;
        Ok(Sparse::with(self.tile, lo, hi, pixels))
    }

    /// Cuts the piece at a position: it keeps what is below, and the answer is what is above.
    /// Condition: the position is one of the piece's or `hi`. Want of memory leaves the piece as it was.
    pub fn cut(&mut self, alloc: Global, at: u32) -> Result<Sparse, NoMemory>
        requires lo { self.old.lo ≤ at }
        requires hi { at ≤ self.old.hi }
        ensures upper { IfOk result (λ s. s ≡ record { tile = self.old.tile; lo = at; hi = self.old.hi; content = drop (at - self.old.lo) self.old.content }) }
        ensures lower { OnOk result (self.new ≡ record { tile = self.old.tile; lo = self.old.lo; hi = at; content = take (at - self.old.lo) self.old.content }) }
        ensures same { OnErr result (self.new ≡ self.old) }
    {
        let upper = self.part(alloc, at, self.hi())?;
        let lower = self.part(alloc, self.lo(), at)?;
        *self = lower;
        Ok(upper)
    }

    /// The piece of the positions of both. Condition: they have the same tile, and `back` begins
    /// where `front` ends.
    pub fn concat(alloc: Global, front: &Sparse, back: &Sparse) -> Result<Sparse, NoMemory>
        requires tile { front.now.tile ≡ back.now.tile }
        requires meet { front.now.hi ≡ back.now.lo }
        ensures { IfOk result (λ s. s ≡ record { tile = front.now.tile; lo = front.now.lo; hi = back.now.hi; content = front.now.content ++ back.now.content }) }
    {
        let mut pixels = Strip::new(alloc);
        pixels.append(&mut front.walk(), front.hi() - front.lo())?;
        pixels.append(&mut back.walk(), back.hi() - back.lo())?;
        Sparse::from_strip(front.tile(), front.lo(), back.hi(), pixels)
    }
}
