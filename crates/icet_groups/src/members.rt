//! The members of groups.
ghost use Rattle.std.specs.Prelude.{◌≡◌, ◌<◌, Some, length, map, slice_get};

use icet_base::Rank;
use std::marker::Model;

/// For each tile its group: the ranks that join the images of the tile, ascending.
#[derive(Drop)]
pub struct Groups {
    lists: Vec<Vec<Rank>>,
}

impl Model for Groups {
    ghost use Rattle.std.specs.Prelude.{ℕ, List, map};

    ghost Value = { List (List ℕ) };

    ghost view = { λ s. map (λ ranks. ranks.items) s.lists.items };
}

impl Groups {
    /// These groups, tile by tile.
    pub(crate) fn of(lists: Vec<Vec<Rank>>) -> Groups
        ensures { result ≡ map (λ ranks. ranks.items) lists.items }
    {
        Groups { lists }
    }

    /// The ranks in the group of a tile, ascending. Condition: there is a tile of this number.
    pub fn list(&self, tile: u32) -> &[Rank]
        requires { tile < length self.now }
        ensures { slice_get self.now tile ≡ Some result.now }
    {
        self.lists[tile as usize].as_slice()
    }
}
