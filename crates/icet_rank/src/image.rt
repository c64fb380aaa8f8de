ghost use Rattle.std.specs.Prelude.{◌≡◌, ◌<◌, ◌^◌, length, slice_get, Some};

use icet_sparse::Sparse;
use std::marker::Model;

/// A rank's own images, one whole image of each tile.
#[derive(Drop)]
pub struct Image {
    parts: Vec<Sparse>,
}

impl Model for Image {
    ghost use Rattle.std.specs.Prelude.{List, ◌<◌, ◌^◌, length};
    ghost use Rattle.icet_model.specs.Pixel.{Pixel};
    ghost use Rattle.icet_model.specs.Run.{Piece};

    ghost Value = { List (Piece (List Pixel)) };

    ghost view = { λ s. s.parts.items };

    ghost invariant = { λ s. length s.parts.items < 2 ^ 32 };
}

impl Image {
    /// The images of these tiles, by tile. Condition: there are fewer than 2^32.
    pub fn of(parts: Vec<Sparse>) -> Image
        requires { length parts.items < 2 ^ 32 }
        ensures { result ≡ parts.items }
    {
        Image { parts }
    }

    /// The image of a tile. Condition: `tile` is below the number of images.
    pub fn part(&self, tile: u32) -> &Sparse
        requires { tile < length self.now }
        ensures { slice_get self.now tile ≡ Some result.now }
    {
        &self.parts[tile as usize]
    }
}
