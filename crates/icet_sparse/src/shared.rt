ghost use Rattle.std.specs.Prelude.{◌≡◌, ◌+◌, ◌<◌, ◌≤◌, ◌^◌, ◌↔◌, IfOk, OnOk, IsTrue, None, length, take, drop, replicate};
ghost use Rattle.icet_sparse.specs.Runs.{drawn_in, fragments_of, strip_pixels, weight_of, IsStrip};
ghost use Rattle.icet_sparse.specs.Shared.{behind_with, runs_with, AreRunsOf};

use crate::fragments::Fragments;
use crate::run::Run;
use crate::strip::lengthen;
use crate::walk::Walk;
use icet_base::NoMemory;
use std::alloc::Global;
use std::marker::Model;

/// A list of fewer than 2^32 pixels in the one form that a `Strip` has, which grows no more. Its fragments may be
/// those of other lists too, so that copies and parts take memory for runs alone.
#[derive(Drop)]
pub struct SharedStrip {
    runs: Vec<Run>,
    fragments: Fragments,
    /// How many blank pixels stand behind the last run.
    behind: u32,
}

impl Model for SharedStrip {
    ghost use Rattle.std.specs.Prelude.{List};
    ghost use Rattle.icet_model.specs.Pixel.{Pixel};
    ghost use Rattle.icet_sparse.specs.Runs.{strip_pixels, IsStrip};

    ghost Value = { List Pixel };

    ghost view = { λ s. strip_pixels s.runs.items s.fragments s.behind };

    ghost invariant = { λ s. IsStrip s.runs.items s.fragments s.behind };
}

/// The runs of a list of pixels, without its fragments.
#[derive(Drop)]
struct RunList {
    runs: Vec<Run>,
    behind: u32,
}

impl SharedStrip {
    /// So many blank pixels; it takes no memory.
    pub(crate) fn blank(alloc: Global, count: u32) -> SharedStrip
        ensures { result ≡ replicate count None }
    {
        SharedStrip {
            runs: Vec::new(alloc),
            fragments: Fragments::none(),
            behind: count,
        }
    }

    /// The list with these runs and fragments.
    pub(crate) fn with(runs: Vec<Run>, fragments: Fragments, behind: u32) -> SharedStrip
        requires { IsStrip runs.items fragments behind }
        ensures { result ≡ strip_pixels runs.items fragments behind }
    {
        SharedStrip {
            runs,
            fragments,
            behind,
        }
    }

    /// A walk over the pixels.
    pub fn walk(&self) -> Walk<'_>
        ensures { result ≡ self.now }
    {
        Walk::over(self.runs.as_slice(), self.fragments.as_slice(), self.behind)
    }

    /// How many pixels are drawn.
    pub fn drawn(&self) -> u32
        ensures { result ≡ length (fragments_of self.now) }
    {
        self.fragments.as_slice().len() as u32
    }

    /// An equal list, which shares the fragments.
    pub fn copy(&self, alloc: Global) -> Result<SharedStrip, NoMemory>
        ensures { IfOk result (λ s. s ≡ self.now) }
    {
        let runs = Vec::from_slice(alloc, self.runs.as_slice())?;
        let fragments = self.fragments.part(0, self.fragments.as_slice().len())?;
        Ok(SharedStrip {
            runs,
            fragments,
            behind: self.behind,
        })
    }

    /// So many of the pixels, behind the first `skip`; they share their fragments. Condition: there are so many.
    pub fn part(&self, alloc: Global, skip: u32, count: u32) -> Result<SharedStrip, NoMemory>
        requires { skip + count ≤ length self.now }
        ensures { IfOk result (λ s. s ≡ take count (drop skip self.now)) }
    {
        let mut walk = self.walk();
        let all = walk.fragments_left();
        walk.skip(skip);
        let here = walk.fragments_left();
        let list = next_runs(alloc, &mut walk, count)?;
        let fragments = self
            .fragments
            .part(all - here, here - walk.fragments_left())?;
        Ok(SharedStrip {
            runs: list.runs,
            fragments,
            behind: list.behind,
        })
    }

    /// Whether both have the same pixels; it compares runs and fragments.
    pub fn same(&self, other: &SharedStrip) -> bool
        ensures { IsTrue result ↔ (self.now ≡ other.now) }
    {
        if self.behind != other.behind {
            return false;
        }
        if self.runs != other.runs {
            return false;
        }
        self.fragments.as_slice() == other.fragments.as_slice()
    }

    /// 8 for each maximal run of drawn pixels, and 8 for each drawn pixel.
    pub fn weight(&self) -> u64
        ensures { result ≡ weight_of self.now }
    {
        8 * self.runs.len() as u64 + 8 * self.fragments.as_slice().len() as u64
    }
}

/// The runs of the next `count` pixels of a walk, and walks over them. Condition: so many are to come.
fn next_runs(alloc: Global, walk: &mut Walk, count: u32) -> Result<RunList, NoMemory>
    requires { count ≤ length walk.old }
    ensures runs { IfOk result (λ list. AreRunsOf list.runs.items list.behind (take count walk.old)) }
    ensures rest { OnOk result (walk.new ≡ drop count walk.old) }
{
    let mut list = RunList {
        runs: Vec::new(alloc),
        behind: 0,
    };
    let mut left = count;
    'cutting: while left > 0 {
        let stretch = walk.next(left);
        list.add(stretch.blank, stretch.drawn.len() as u32)?;
        left -= stretch.len();
    }
    Ok(list)
}

impl RunList {
    /// Puts so many blank pixels, and drawn ones behind them, at the end.
    fn add(&mut self, blank: u32, drawn: u32) -> Result<(), NoMemory>
        requires blank { self.old.behind + blank < 2 ^ 32 }
        requires drawn { drawn_in self.old.runs.items + drawn < 2 ^ 32 }
        ensures runs { OnOk result (self.new.runs.items ≡ runs_with self.old.runs.items (self.old.behind + blank) drawn) }
        ensures behind { OnOk result (self.new.behind ≡ behind_with (self.old.behind + blank) drawn) }
    {
        self.behind += blank;
        if drawn > 0 {
            self.runs.reserve(1)?;
            lengthen(&mut self.runs, self.behind, drawn);
            self.behind = 0;
        }
        Ok(())
    }
}
