//! The corners of the demonstration's triangles, from the words of a generator.
ghost use Rattle.std.specs.Prelude.{◌≡◌, ◌<◌, ◌+◌, ◌*◌, ◌%◌, pos, ◌-ℤ◌, All};
ghost use Rattle.icet_raster.specs.Shapes.{corner_of, triangle_of, IsCorner};
ghost use Rattle.icet_demo.specs.Demonstration.{after, corner_from, triangle_from, word};
ghost use Rattle.icet_demo.specs.declared.sizes.TheConstants.{HEIGHT, WIDTH};

use crate::sizes::{HEIGHT, WIDTH};
use icet_pixel::Fragment;
use icet_raster::Vertex;
use rand_core::utils::NextWord;
use rand_pcg::Lcg64Xsh32;

/// The corners of the next triangle: from twenty words, of which the first two are the centre.
pub fn next_corners(rng: &mut Lcg64Xsh32) -> [Vertex; 3]
    ensures corners { triangle_of result ≡ triangle_from rng.old }
    ensures next { rng.new ≡ after 20 rng.old }
    ensures on_plane { All IsCorner result }
{
    let cx = next_below(rng, WIDTH);
    let cy = next_below(rng, HEIGHT);
    let first = next_corner(rng, cx, cy);
    let second = next_corner(rng, cx, cy);
    let third = next_corner(rng, cx, cy);
    [first, second, third]
}

// the next corner around a centre, from six words
fn next_corner(rng: &mut Lcg64Xsh32, cx: u32, cy: u32) -> Vertex
    requires x { cx < WIDTH }
    requires y { cy < HEIGHT }
    ensures corner { corner_of result ≡ corner_from rng.old cx cy }
    ensures next { rng.new ≡ after 6 rng.old }
    ensures on_plane { IsCorner result }
{
    let x = near(cx, next_below(rng, 8192));
    let y = near(cy, next_below(rng, 8192));
    let z = next_below(rng, 16_777_215);
    let r = next_channel(rng);
    let g = next_channel(rng);
    let b = next_channel(rng);
    let paint = Fragment::of(r, g, b, 255, z);
    Vertex { x, y, paint }
}

// the next word, less all multiples of `most`
#[tactic(auto, using(crate::proofs::Words::word_first, crate::proofs::Words::after_one))]
fn next_below(rng: &mut Lcg64Xsh32, most: u32) -> u32
    requires { 0 < most }
    ensures value { result ≡ word rng.old 0 % most }
    ensures next { rng.new ≡ after 1 rng.old }
    ensures range { result < most }
{
    rng.next_word() % most
}

// the next channel of a colour
fn next_channel(rng: &mut Lcg64Xsh32) -> u16
    ensures value { result ≡ word rng.old 0 % 256 }
    ensures next { rng.new ≡ after 1 rng.old }
    ensures range { result < 256 }
{
    next_below(rng, 256) as u16
}

// a coordinate around a centre, in sixteenths of a pixel
fn near(center: u32, word: u32) -> i32
    requires center { center < WIDTH }
    requires word { word < 8192 }
    ensures { result ≡ pos (16 * center + word) -ℤ pos 4096 }
{
    (16 * center + word) as i32 - 4096
}
