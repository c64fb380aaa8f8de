/// A run of drawn pixels, and the blank ones before it.
#[derive(Clone, Copy, Debug, PartialEq, Eq)]
pub struct Run {
    /// How many pixels are blank, so that nothing was drawn there.
    pub blank: u32,
    /// How many pixels behind them are drawn.
    pub drawn: u32,
}
