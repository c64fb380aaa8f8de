ghost use Rattle.std.specs.Prelude.{◌≡◌, ◌+◌, ◌≤◌, [], IfOk, length, take, drop};
ghost use Rattle.icet_sparse.specs.Shared.{held_items};

use icet_base::NoMemory;
use icet_pixel::Fragment;
use std::alloc::Global;
use std::marker::Model;
use std::sync::ArcSlice;

/// Fragments in a row, which others may share: a copy or a part of them takes no memory of its own.
#[derive(Drop)]
pub(crate) struct Fragments {
    /// A list that has them; none where there are no fragments.
    held: Option<ArcSlice<Fragment, Global>>,
    /// How many of the list stand before them.
    from: usize,
    count: usize,
}

impl Model for Fragments {
    ghost use Rattle.std.specs.Prelude.{List, ◌+◌, ◌≤◌, take, drop, length};
    ghost use Rattle.icet_model.specs.Pixel.{FragmentView};
    ghost use Rattle.icet_sparse.specs.Shared.{held_items};

    ghost Value = { List FragmentView };

    ghost view = { λ s. take s.count (drop s.from (held_items s.held)) };

    ghost invariant = { λ s. s.from + s.count ≤ length (held_items s.held) };
}

impl Fragments {
    /// No fragments; they take no memory.
    pub(crate) fn none() -> Fragments
        ensures { result ≡ [] }
    {
        Fragments {
            held: None,
            from: 0,
            count: 0,
        }
    }

    /// These fragments, which are moved.
    pub(crate) fn of(fragments: Vec<Fragment>) -> Result<Fragments, NoMemory>
        ensures { IfOk result (λ s. s ≡ fragments.items) }
    {
        let count = fragments.len();
        if count == 0 {
            return Ok(Fragments::none());
        }
        Ok(Fragments {
            held: Some(ArcSlice::from_vec(fragments)?),
            from: 0,
            count,
        })
    }

    /// The fragments.
    pub(crate) fn as_slice(&self) -> &[Fragment]
        ensures { result.now ≡ self.now }
    {
        match &self.held {
            None => &[],
            Some(held) => &held.as_slice()[self.from..self.from + self.count],
        }
    }

    /// So many of the fragments, behind the first `skip`. Condition: there are so many.
    pub(crate) fn part(&self, skip: usize, count: usize) -> Result<Fragments, NoMemory>
        requires { skip + count ≤ length self.now }
        ensures { IfOk result (λ s. s ≡ take count (drop skip self.now)) }
    {
        Ok(Fragments {
            held: held_again(&self.held)?,
            from: self.from + skip,
            count,
        })
    }
}

/// The same list once more, which both hold then.
fn held_again(
    held: &Option<ArcSlice<Fragment, Global>>,
) -> Result<Option<ArcSlice<Fragment, Global>>, NoMemory>
    ensures { IfOk result (λ again. held_items again ≡ held_items held.now) }
{
    match held {
        None => Ok(None),
        Some(list) => Ok(Some(list.clone()?)),
    }
}
