ghost use Rattle.std.specs.Prelude.{◌≡◌, List, ◌<◌, ◌≤◌, IfOk};
ghost use Rattle.icet_model.specs.Pixel.{Pixel};
ghost use Rattle.icet_model.specs.Run.{Piece};
ghost use Rattle.icet_model.specs.declared.limits.TheConstants.{MAX_RANK_PIXELS};
ghost use Rattle.icet_interlace.specs.Interlace.{place, interlaced_piece, IsWhole, IsInterlaced};

use icet_base::NoMemory;
use icet_pixel::Pixel;
use icet_sparse::{Sparse, Strip};
use std::alloc::Global;

/// The position of pixel `i` of `n` pixels that are dealt out in turn to strands, which stand one behind
/// the other. Condition: `i` is below `n`, `n` at most `MAX_RANK_PIXELS`, and there is a strand.
pub fn place(i: u32, n: u32, strands: u32) -> u32
    requires i { i < n }
    requires most { n ≤ MAX_RANK_PIXELS }
    requires strands { 0 < strands }
    ensures value { result ≡ place i n strands }
    ensures within { result < n }
{
    let strand = i % strands;
    strand * (n / strands) + strand.min(n % strands) + i / strands
}

/// The pixel at a position, of which it is the place. Condition: the position is below `n`, which is at
/// most `MAX_RANK_PIXELS`, and there is a strand.
pub fn pixel_at(position: u32, n: u32, strands: u32) -> u32
    requires position { position < n }
    requires most { n ≤ MAX_RANK_PIXELS }
    requires strands { 0 < strands }
    ensures within { result < n }
    ensures inverse { place result n strands ≡ position }
{
    let short = n / strands;
    let longer = n % strands;
    let long = short + 1;
    if position < longer * long {
        let strand = position / long;
        return position % long * strands + strand;
    }
    let behind = position - longer * long;
    let strand = longer + behind / short;
    behind % short * strands + strand
}

/// The image with each pixel at its place. Condition: it is one of a whole tile, of at most
/// `MAX_RANK_PIXELS` pixels, and there is a strand.
pub fn interlace(alloc: Global, image: &Sparse, strands: u32) -> Result<Sparse, NoMemory>
    requires lo { image.now.lo ≡ 0 }
    requires most { image.now.hi ≤ MAX_RANK_PIXELS }
    requires strands { 0 < strands }
    ensures exact { IfOk result (λ s. s ≡ interlaced_piece strands image.now) }
    ensures places { IfOk result (λ s. IsInterlaced strands image.now s) }
    ensures one { strands ≡ 1 → IfOk result (λ s. s ≡ image.now) }
{
    if strands == 1 {
        return Ok(image.copy(alloc)?);
    }
    let count = image.hi();
    let cells = cells_of(alloc, image)?;
    let mut pixels = Strip::new(alloc);
    'placing: for position in 0..count {
        let i = pixel_at(position, count, strands);
        pixels.push_pixel(cells[i as usize])?;
    }
    Ok(Sparse::from_strip(image.tile(), 0, count, pixels)?)
}

/// The image whose pixels are at their places in the given one. Condition: that of `interlace`.
pub fn restore(alloc: Global, image: &Sparse, strands: u32) -> Result<Sparse, NoMemory>
    requires lo { image.now.lo ≡ 0 }
    requires most { image.now.hi ≤ MAX_RANK_PIXELS }
    requires strands { 0 < strands }
    ensures places { IfOk result (λ s. IsInterlaced strands s image.now) }
    ensures undoes { IfOk result (λ s. (original : Piece (List Pixel)) → IsInterlaced strands original image.now → s ≡ original) }
    ensures one { strands ≡ 1 → IfOk result (λ s. s ≡ image.now) }
{
    if strands == 1 {
        return Ok(image.copy(alloc)?);
    }
    let count = image.hi();
    let cells = cells_of(alloc, image)?;
    let mut pixels = Strip::new(alloc);
    'restoring: for i in 0..count {
        let position = place(i, count, strands);
        pixels.push_pixel(cells[position as usize])?;
    }
    Ok(Sparse::from_strip(image.tile(), 0, count, pixels)?)
}

/// The pixels of an image, blank ones too.
fn cells_of(alloc: Global, image: &Sparse) -> Result<Vec<Pixel>, NoMemory>
    ensures { IfOk result (λ cells. cells.items ≡ image.now.content) }
{
    let mut cells = Vec::with_capacity(alloc, (image.hi() - image.lo()) as usize)?;
    let mut walk = image.walk();
    'walking: for _position in image.lo()..image.hi() {
        cells.push(walk.next_pixel())?;
    }
    Ok(cells)
}
