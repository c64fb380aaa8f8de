/// A number of a text: its size, and whether a minus sign stands before it.
#[derive(Clone, Copy, Debug, Default, PartialEq, Eq)]
pub struct Number {
    pub is_negative: bool,
    pub size: u32,
}

/// What a field of a line takes: a number with a size from `least` to `greatest`, both included, and a
/// negative one only where the field is signed.
#[derive(Clone, Copy, Debug, PartialEq, Eq)]
pub struct Field {
    pub is_signed: bool,
    pub least: u32,
    pub greatest: u32,
}
