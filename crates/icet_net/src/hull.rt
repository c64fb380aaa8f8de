ghost use Rattle.std.specs.Prelude.{◌≡◌, ◌<◌, length, Some, slice_get};
ghost use Rattle.icet_net.specs.Net.{IsHull};

use icet_base::Rank;
use icet_collect::Canvas;
use icet_pixel::Dense;
use icet_plan::Plan;
use icet_rank::Parts;
use icet_ring::Wires;
use std::marker::Model;

/// What holds the ranks of an open net together: the plan, how many messages may wait on a pair, the
/// strands, the tiles' sides, and the pairs of ranks that are used. It holds the memory for the close.
#[derive(Drop)]
pub struct Hull<W: Wires> {
    pub(crate) plan: Plan,
    pub(crate) cap: u32,
    pub(crate) strands: u32,
    pub(crate) sides: Vec<(u32, u32)>,
    pub(crate) pairs: Vec<(Rank, Rank)>,
    pub(crate) canvases: Vec<Canvas>,
    pub(crate) parts: Vec<Parts<W::In, W::Out>>,
    pub(crate) pictures: Vec<Dense>,
}

impl<W: Wires> Model for Hull<W> {
    ghost use Rattle.std.specs.Prelude.{vec_capacity};
    ghost use Rattle.icet_net.specs.Net.{HullView, KeepsHull};
    ghost use Rattle.icet_model.specs.contracts.bracket.Bracket as bracket_type;
    ghost use Rattle.std.specs.Coded.{codes};

    ghost Value = { HullView };

    ghost coded = { Prim.hlevel (codes, bracket_type.the_row.coded) };

    ghost view = { λ s. record { plan = s.plan; cap = s.cap; strands = s.strands; sides = s.sides.items; pairs = s.pairs.items } };

    ghost invariant = { λ s. KeepsHull (record { plan = s.plan; cap = s.cap; strands = s.strands; sides = s.sides.items; pairs = s.pairs.items }) s.canvases.items (vec_capacity s.parts) (vec_capacity s.pictures) };
}

impl<W: Wires> Hull<W> {
    /// The plan of the net.
    pub fn plan(&self) -> &Plan
        ensures plan { result.now ≡ self.now.plan }
        ensures known { IsHull self.now }
    {
        &self.plan
    }

    /// How many messages may wait on a pair.
    pub fn cap(&self) -> u32
        ensures cap { result ≡ self.now.cap }
        ensures known { IsHull self.now }
    {
        self.cap
    }

    /// The ordered pairs of ranks that are used, ascending by sender and then by receiver.
    pub fn pairs(&self) -> &[(Rank, Rank)]
        ensures pairs { result.now ≡ self.now.pairs }
        ensures known { IsHull self.now }
    {
        self.pairs.as_slice()
    }

    /// The pair of a place. Condition: `place` is below the number of pairs.
    pub(crate) fn pair(&self, place: usize) -> (Rank, Rank)
        requires { place < length self.now.pairs }
        ensures pair { slice_get self.now.pairs place ≡ Some result }
        ensures known { IsHull self.now }
    {
        self.pairs[place]
    }
}
