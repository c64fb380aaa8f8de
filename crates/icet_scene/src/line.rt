use icet_base::Rank;
use icet_pixel::Fragment;
use icet_raster::Shape;
use icet_tiles::Tile;

/// What a line says.
#[derive(Drop)]
pub enum Line {
    /// The version of the format.
    Head(u32),
    /// Whether the scene blends.
    Mode(bool),
    Ranks(u32),
    /// The greatest value of a colour channel.
    Maxval(u32),
    Background(Fragment),
    Order(Vec<Rank>),
    Tile(Tile),
    Shape(Rank, Shape),
    End,
}
