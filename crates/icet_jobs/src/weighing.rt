ghost use Rattle.std.specs.Prelude.{◌≡◌, ◌≤◌, ◌^◌, All, length};
ghost use Rattle.icet_sparse.specs.Runs.{weight_of};
ghost use Rattle.icet_jobs.specs.Weights.{image_weight, images_weight};
ghost use Rattle.icet_model.specs.declared.limits.TheConstants.{MAX_RANKS, MAX_TILES};

use icet_net::Image;
use icet_sparse::Sparse;

/// The weight of all these images, which is in proportion to the memory that they take. Conditions: there are at most
/// 256, each of so many tiles, at most 64.
pub fn weigh(images: &[Image], tiles: u32) -> u64
    requires ranks { length images.now ≤ MAX_RANKS }
    requires tiles { tiles ≤ MAX_TILES }
    requires each { All (λ image. length image ≡ tiles) images.now }
    ensures { result ≡ images_weight images.now }
{
    let mut weight = 0;
    for image in images {
        weight += weigh_image(image, tiles);
    }
    weight
}

// the weight of a rank's images
fn weigh_image(image: &Image, tiles: u32) -> u64
    requires tiles { tiles ≤ MAX_TILES }
    requires each { length image.now ≡ tiles }
    ensures weight { result ≡ image_weight image.now }
    ensures small { result ≤ 2 ^ 42 }
{
    let mut weight = 0;
    for t in 0..tiles {
        weight += weigh_part(image.part(t));
    }
    weight
}

// the weight of one image
#[tactic(auto, using(crate::proofs::Weighed::piece_within))]
fn weigh_part(part: &Sparse) -> u64
    ensures weight { result ≡ weight_of part.now.content }
    ensures small { result ≤ 2 ^ 36 }
{
    // How many pixels there are at most is known after a look at the piece.
    let _end = part.hi();
    part.weight()
}
