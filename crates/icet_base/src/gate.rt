use crate::Rank;

/// What a worker enters before it steps a rank. It promises nothing but that it returns; tests hand
/// in gates that count or look for each other.
pub trait Gate: Sync {
    fn enter(&self, rank: Rank);
}

/// A gate that does nothing.
#[derive(Clone, Copy, Debug, Drop)]
pub struct PlainGate;

impl Gate for PlainGate {
    fn enter(&self, _rank: Rank) {}
}
