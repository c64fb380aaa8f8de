/// What the program is asked for.
#[derive(Clone, Copy, Debug, PartialEq, Eq)]
pub enum Job {
    /// The pictures of the tiles.
    Composite,
    /// The messages of the plan.
    Traffic,
    /// The brackets of the tiles, and each rank's exchanges.
    Plan,
    /// What each rank of a schedule did when it was told to go on.
    Replay,
    /// How much of each tile nobody drew, the sums of its samples, and the weight of all images.
    Summary,
    /// The summary of a scene that is made from a seed.
    Demo,
    /// The scene's text with its shapes ready drawn.
    Upgrade,
}
