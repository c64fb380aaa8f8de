use icet_base::NoMemory as WantOfMemory;
use std::alloc::AllocError;
use thiserror::Error;

/// What had to come where a text ended.
#[derive(Clone, Copy, Debug, PartialEq, Eq)]
pub enum Want {
    Head,
    Mode,
    Ranks,
    Order,
    Tile,
    End,
}

/// Why a line is refused. Of several faults of a line the first one here is told.
#[derive(Clone, Copy, Debug, PartialEq, Eq, Error)]
pub enum LineFault {
    /// A byte below 32 or above 126.
    #[error("byte not allowed")]
    BadByte,
    /// Not a line of the format.
    #[error("not a line of the format")]
    BadLine,
    /// A line of the format that may not stand there.
    #[error("out of place")]
    OutOfPlace,
    /// A number outside its field's range.
    #[error("number out of range")]
    OutOfRange,
    /// A colour channel exceeds its alpha.
    #[error("colour not premultiplied")]
    NotPremultiplied,
    /// The tile's display rank shows an earlier tile.
    #[error("display rank already taken")]
    RankTaken,
    /// The order isn't each rank once.
    #[error("order is not each rank once")]
    BadOrder,
    /// Memory was wanted and not there.
    #[error("no memory")]
    NoMemory,
}

/// Why a text is no scene. Lines are counted from 1, all of them. The first faulty line decides.
#[derive(Clone, Copy, Debug, PartialEq, Eq, Error)]
pub enum SceneFault {
    /// There are more than 67,108,864 bytes. It is tested first.
    #[error("scene longer than 67108864 bytes")]
    TooLong,
    /// The line holds a byte below 32 or above 126.
    #[error("line {0}: byte not allowed")]
    BadByte(u32),
    /// The line has no form of the format.
    #[error("line {0}: not a line of the format")]
    BadLine(u32),
    /// A line of that form may not stand there.
    #[error("line {0}: out of place")]
    OutOfPlace(u32),
    /// A number is outside its field's range.
    #[error("line {0}: number out of range")]
    OutOfRange(u32),
    /// A colour channel exceeds its alpha.
    #[error("line {0}: colour not premultiplied")]
    NotPremultiplied(u32),
    /// The tile's display rank shows an earlier tile.
    #[error("line {0}: display rank already taken")]
    RankTaken(u32),
    /// The order isn't each rank once.
    #[error("line {0}: order is not each rank once")]
    BadOrder(u32),
    /// The text ended where this had to come.
    #[error("line missing")]
    Missing(Want),
    /// Ranks times the pixels of all tiles exceed 67,108,864.
    #[error("scene too large")]
    TooLarge,
    /// Memory was wanted and not there.
    #[error("no memory")]
    NoMemory,
}

impl LineFault {
    ghost use Rattle.std.specs.Prelude.{◌≡◌};
    ghost use Rattle.icet_scene_model.specs.Scene.{fault_at};

    /// The fault of the scene whose line of this number has this one.
    pub fn at(self, line: u32) -> SceneFault
        ensures { result ≡ fault_at line self }
    {
        match self {
            LineFault::BadByte => SceneFault::BadByte(line),
            LineFault::BadLine => SceneFault::BadLine(line),
            LineFault::OutOfPlace => SceneFault::OutOfPlace(line),
            LineFault::OutOfRange => SceneFault::OutOfRange(line),
            LineFault::NotPremultiplied => SceneFault::NotPremultiplied(line),
            LineFault::RankTaken => SceneFault::RankTaken(line),
            LineFault::BadOrder => SceneFault::BadOrder(line),
            LineFault::NoMemory => SceneFault::NoMemory,
        }
    }
}

impl From<WantOfMemory> for LineFault {
    ghost use Rattle.std.specs.Prelude.{◌≡◌};
    ghost use Rattle.icet_scene_model.specs.declared.fault.LineFault.TheVariants.{NoMemory};

    ghost from_gives = { λ _ e. e ≡ NoMemory };

    fn from(_want: WantOfMemory) -> LineFault {
        LineFault::NoMemory
    }
}

impl From<AllocError> for LineFault {
    ghost use Rattle.std.specs.Prelude.{◌≡◌};
    ghost use Rattle.icet_scene_model.specs.declared.fault.LineFault.TheVariants.{NoMemory};

    ghost from_gives = { λ _ e. e ≡ NoMemory };

    fn from(_want: AllocError) -> LineFault {
        LineFault::NoMemory
    }
}

impl From<WantOfMemory> for SceneFault {
    ghost use Rattle.std.specs.Prelude.{◌≡◌};
    ghost use Rattle.icet_scene_model.specs.declared.fault.SceneFault.TheVariants.{NoMemory};

    ghost from_gives = { λ _ e. e ≡ NoMemory };

    fn from(_want: WantOfMemory) -> SceneFault {
        SceneFault::NoMemory
    }
}
