/// The most bytes of a scene's text.
pub const MAX_SCENE_BYTES: usize = 67_108_864;

/// The most bytes that one read of the source may give.
pub const MAX_READ: usize = 65_536;

/// The most ranks.
pub const MAX_RANKS: u32 = 256;

/// The most ranks that a scene's text and a schedule may name.
pub const MAX_TEXT_RANKS: u32 = 64;

/// The most tiles of a layout.
pub const MAX_TILES: u32 = 64;

/// The greatest pixel coordinate of a display, from its left or top edge.
pub const MAX_PLACE: u32 = 16_383;

/// The greatest width and height of a tile, and where its right and bottom edge may lie at most.
pub const MAX_SIDE: u32 = 16_384;

/// The most pixels of all ranks' images of all tiles together.
pub const MAX_RANK_PIXELS: u64 = 67_108_864;

/// The most pixels of one dense image.
pub const MAX_DENSE_PIXELS: u64 = 268_435_456;

/// The greatest value of a colour channel, and of alpha.
pub const MAX_CHANNEL: u16 = 65_535;

/// The greatest depth of a fragment.
pub const MAX_DEPTH: u32 = 16_777_214;

/// The greatest coordinate of a corner of a triangle, in sixteenths of a pixel; the least is its opposite.
pub const MAX_VERTEX: i32 = 262_143;

/// The least and the greatest factor of radix-k.
pub const MIN_RADIX: u32 = 2;

pub const MAX_RADIX: u32 = 64;

/// The greatest capacity of a ring, in messages.
pub const MAX_CAPACITY: u32 = 64;

/// The most workers of a turn.
pub const MAX_WORKERS: u32 = 16;

/// The most steps of a rank in one turn.
pub const MAX_BURST: u32 = 1_024;

/// The most strands of an interlaced image.
pub const MAX_STRANDS: u32 = 64;

/// The most entries of a schedule.
pub const MAX_SCHEDULE: usize = 65_536;
