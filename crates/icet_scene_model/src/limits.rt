/// The most ranks of a scene's text of version 1.
pub const FIRST_VERSION_RANKS: u32 = 64;

/// The most tiles of a scene's text of version 1.
pub const FIRST_VERSION_TILES: u32 = 16;

/// The greatest value of a colour channel of a scene that isn't wide.
pub const NARROW_CHANNEL: u32 = 255;

/// The greatest value of a colour channel of a wide scene.
pub const WIDE_CHANNEL: u32 = 65_535;
