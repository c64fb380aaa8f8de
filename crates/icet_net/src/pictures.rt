ghost use Rattle.std.specs.Prelude.{◌≡◌, ◌<◌, ◌^◌, length, slice_get, Some};

use icet_pixel::Dense;
use std::marker::Model;

/// The pictures of a closed net, one per tile.
#[derive(Drop)]
pub struct Pictures {
    pictures: Vec<Dense>,
}

impl Model for Pictures {
    ghost use Rattle.std.specs.Prelude.{List};
    ghost use Rattle.icet_model.specs.Pixel.{DenseView};

    ghost Value = { List DenseView };

    ghost view = { λ s. s.pictures.items };
}

impl Pictures {
    /// These pictures, by tile.
    pub fn of(pictures: Vec<Dense>) -> Pictures
        ensures { result ≡ pictures.items }
    {
        Pictures { pictures }
    }

    /// How many tiles there are.
    pub fn count(&self) -> usize
        ensures { result ≡ length self.now }
    {
        self.pictures.len()
    }

    /// The pictures, by tile.
    pub fn as_slice(&self) -> &[Dense]
        ensures { result.now ≡ self.now }
    {
        self.pictures.as_slice()
    }

    /// The picture of a tile. Condition: `tile` is below the number of tiles.
    pub fn picture(&self, tile: u32) -> &Dense
        requires { tile < length self.now }
        ensures { slice_get self.now tile ≡ Some result.now }
    {
        &self.pictures[tile as usize]
    }
}
