ghost use Rattle.std.specs.Prelude.{◌≡◌, ◌+◌, ◌<◌, ◌≤◌, ◌^◌, ◌∷◌, ◌++◌, Some, None, length, map, replicate, drop};
ghost use Rattle.std.specs.List.{All};
ghost use Rattle.icet_sparse.specs.Runs.{drawn_in, fragments_of, strip_pixels, Begins};

use crate::run::Run;
use icet_pixel::{Fragment, Pixel};
use std::marker::Model;

/// Blank pixels, and drawn ones behind them.
#[derive(Clone, Copy, Debug)]
pub struct Stretch<'a> {
    /// How many pixels are blank.
    pub blank: u32,
    /// The fragments of the drawn ones.
    pub drawn: &'a [Fragment],
}

impl Stretch<'_> {
    /// How many pixels there are. Condition: they are fewer than 2^32.
    pub fn len(&self) -> u32
        requires { self.now.blank + length self.now.drawn.now < 2 ^ 32 }
        ensures { result ≡ self.now.blank + length self.now.drawn.now }
    {
        self.blank + self.drawn.len() as u32
    }
}

/// A walk over a strip, which is seen as the pixels that are still to come.
#[derive(Drop)]
pub struct Walk<'a> {
    runs: RunsLeft<'a>,
    /// The fragments that are to come.
    fragments: &'a [Fragment],
}

/// The runs that are still to come.
#[derive(Drop)]
struct RunsLeft<'a> {
    /// What is left of the run under way.
    under_way: Run,
    later: &'a [Run],
    /// How many blank pixels stand behind the last run.
    behind: u32,
}

impl<'a> Model for Walk<'a> {
    ghost use Rattle.std.specs.Prelude.{List, ◌∷◌};
    ghost use Rattle.icet_model.specs.Pixel.{Pixel};
    ghost use Rattle.icet_sparse.specs.Runs.{strip_pixels, AreLeft};

    ghost Value = { List Pixel };

    ghost view = { λ s. strip_pixels (s.runs.under_way ∷ s.runs.later.now) s.fragments.now s.runs.behind };

    ghost invariant = { λ s. AreLeft s.runs.under_way s.runs.later.now s.fragments.now };
}

impl<'a> Walk<'a> {
    /// The walk over these runs, their fragments, and so many blank pixels behind them.
    pub(crate) fn over(runs: &'a [Run], fragments: &'a [Fragment], behind: u32) -> Walk<'a>
        requires counted { drawn_in runs.now ≡ length fragments.now }
        requires drawn { All (λ r. 0 < r.drawn) runs.now }
        ensures { result ≡ strip_pixels runs.now fragments.now behind }
    {
        let none = Run { blank: 0, drawn: 0 };
        let runs = RunsLeft {
            under_way: none,
            later: runs,
            behind,
        };
        Walk { runs, fragments }
    }

    /// How many drawn pixels are to come.
    pub(crate) fn fragments_left(&self) -> usize
        ensures { result ≡ length (fragments_of self.now) }
    {
        self.fragments.len()
    }

    /// Walks over the next stretch, which has at least one pixel and at most `most`. Condition: some
    /// pixel is to come.
    pub fn next(&mut self, most: u32) -> Stretch<'a>
        requires most { 0 < most }
        requires left { 0 < length self.old }
        ensures pixels { self.old ≡ replicate result.blank None ++ map Some result.drawn.now ++ self.new }
        ensures some { 0 < result.blank + length result.drawn.now }
        ensures within { result.blank + length result.drawn.now ≤ most }
    {
        self.runs.begin_run();
        let blank = self.runs.under_way.blank.min(most);
        let drawn = self.runs.under_way.drawn.min(most - blank);
        let (now, later) = self.fragments.split_at(drawn as usize);
        self.runs.under_way.blank -= blank;
        self.runs.under_way.drawn -= drawn;
        self.fragments = later;
        Stretch { blank, drawn: now }
    }

    /// Walks over so many pixels. Condition: so many are to come.
    pub fn skip(&mut self, count: u32)
        requires { count ≤ length self.old }
        ensures { self.new ≡ drop count self.old }
    {
        let mut left = count;
        'skipping: while left > 0 {
            left -= self.next(left).len();
        }
    }

    /// Walks over one pixel. Condition: one is to come.
    pub fn next_pixel(&mut self) -> Pixel
        requires { 0 < length self.old }
        ensures { self.old ≡ result ∷ self.new }
    {
        self.next(1).drawn.first().copied()
    }
}

impl<'a> RunsLeft<'a> {
    /// Begins the next run where the one under way is at its end.
    fn begin_run(&mut self)
        requires { All (λ r. 0 < r.drawn) self.old.later.now }
        ensures { Begins self.old.under_way self.old.later.now self.old.behind self.new.under_way self.new.later.now self.new.behind }
    {
        if self.under_way.blank > 0 || self.under_way.drawn > 0 {
            return;
        }
        match self.later {
            [first, rest @ ..] => {
                self.under_way = *first;
                self.later = rest;
            }
            [] => {
                self.under_way.blank = self.behind;
                self.behind = 0;
            }
        }
    }
}
