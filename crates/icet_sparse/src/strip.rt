ghost use Rattle.std.specs.Prelude.{◌≡◌, ℕ, List, [], ◌∷◌, ◌+◌, ◌-◌, ◌*◌, ◌<◌, ◌≤◌, ◌^◌, ◌++◌, IfOk, OnOk, OnErr, IsTrue, ◌↔◌, take, drop, Some, None, length, map, replicate, vec_len, vec_capacity};
ghost use Rattle.icet_sparse.specs.Joined.{joined_places};
ghost use Rattle.icet_sparse.specs.Runs.{drawn_in, lengthened};

use crate::fragments::Fragments;
use crate::run::Run;
use crate::shared::SharedStrip;
use crate::walk::Walk;
use icet_base::{Mode, NoMemory};
use icet_pixel::{Fragment, Pixel, join_fragments};
use std::alloc::Global;
use std::marker::Model;

/// A list of fewer than 2^32 pixels, which grows at its end and is kept as runs.
///
/// Each list has one form: every run has a drawn pixel, every run but the first a blank one, and the
/// blank pixels behind the last drawn one are a number alone.
#[derive(Drop)]
pub struct Strip {
    runs: Vec<Run>,
    fragments: Vec<Fragment>,
    /// How many blank pixels stand behind the last run.
    behind: u32,
}

impl Model for Strip {
    ghost use Rattle.std.specs.Prelude.{List};
    ghost use Rattle.icet_model.specs.Pixel.{Pixel};
    ghost use Rattle.icet_sparse.specs.Runs.{strip_pixels, IsStrip};

    ghost Value = { List Pixel };

    ghost view = { λ s. strip_pixels s.runs.items s.fragments.items s.behind };

    ghost invariant = { λ s. IsStrip s.runs.items s.fragments.items s.behind };
}

impl Strip {
    /// No pixels yet; it takes no memory.
    pub fn new(alloc: Global) -> Strip
        ensures { result ≡ [] }
    {
        Strip::blank(alloc, 0)
    }

    /// So many blank pixels; it takes no memory.
    pub fn blank(alloc: Global, count: u32) -> Strip
        ensures { result ≡ replicate count None }
    {
        Strip {
            runs: Vec::new(alloc),
            fragments: Vec::new(alloc),
            behind: count,
        }
    }

    /// No pixels yet, and memory for so many drawn ones.
    pub fn with_room(alloc: Global, count: usize) -> Result<Strip, NoMemory>
        ensures { IfOk result (λ s. s ≡ []) }
    {
        Ok(Strip {
            runs: Vec::new(alloc),
            fragments: Vec::with_capacity(alloc, count)?,
            behind: 0,
        })
    }

    /// These pixels. Condition: there are fewer than 2^32.
    pub fn of(alloc: Global, pixels: &[Pixel]) -> Result<Strip, NoMemory>
        requires { length pixels.now < 2 ^ 32 }
        ensures { IfOk result (λ s. s ≡ pixels.now) }
    {
        let mut strip = Strip::with_room(alloc, count_drawn(pixels))?;
        strip.push_pixels(pixels)?;
        Ok(strip)
    }

    /// Puts so many blank pixels at the end.
    pub fn push_blank(&mut self, count: u32)
        requires { length self.old + count < 2 ^ 32 }
        ensures { self.new ≡ self.old ++ replicate count None }
    {
        self.behind += count;
    }

    /// Puts a drawn pixel at the end. Want of memory leaves the strip as it was.
    pub fn push(&mut self, fragment: Fragment) -> Result<(), NoMemory>
        requires { length self.old + 1 < 2 ^ 32 }
        ensures grown { OnOk result (self.new ≡ self.old ++ Some fragment ∷ []) }
        ensures same { OnErr result (self.new ≡ self.old) }
    {
        self.runs.reserve(1)?;
        self.fragments.push(fragment)?;
        lengthen(&mut self.runs, self.behind, 1);
        self.behind = 0;
        Ok(())
    }

    /// Puts drawn pixels at the end. Want of memory leaves the strip as it was.
    pub fn push_all(&mut self, fragments: &[Fragment]) -> Result<(), NoMemory>
        requires { length self.old + length fragments.now < 2 ^ 32 }
        ensures grown { OnOk result (self.new ≡ self.old ++ map Some fragments.now) }
        ensures same { OnErr result (self.new ≡ self.old) }
    {
        if fragments.is_empty() {
            return Ok(());
        }
        self.runs.reserve(1)?;
        self.fragments.extend_from_slice(fragments)?;
        lengthen(&mut self.runs, self.behind, fragments.len() as u32);
        self.behind = 0;
        Ok(())
    }

    /// Puts drawn pixels at the end: the fragments of `front`, each joined in front of the one of `back` at its place.
    /// Condition: there are equally many. Want of memory leaves the strip as it was.
    pub fn push_joined(
        &mut self,
        mode: Mode,
        front: &[Fragment],
        back: &[Fragment],
    ) -> Result<(), NoMemory>
        requires size { length front.now ≡ length back.now }
        requires room { length self.old + length front.now < 2 ^ 32 }
        ensures grown { OnOk result (self.new ≡ self.old ++ map Some (joined_places mode front.now back.now)) }
        ensures same { OnErr result (self.new ≡ self.old) }
    {
        if front.is_empty() {
            return Ok(());
        }
        self.runs.reserve(1)?;
        self.fragments.reserve(front.len())?;
        put_joined(&mut self.fragments, mode, front, back);
        lengthen(&mut self.runs, self.behind, front.len() as u32);
        self.behind = 0;
        Ok(())
    }

    /// Puts a pixel at the end. Want of memory leaves the strip as it was.
    pub fn push_pixel(&mut self, pixel: Pixel) -> Result<(), NoMemory>
        requires { length self.old + 1 < 2 ^ 32 }
        ensures grown { OnOk result (self.new ≡ self.old ++ pixel ∷ []) }
        ensures same { OnErr result (self.new ≡ self.old) }
    {
        match pixel {
            Some(fragment) => self.push(fragment),
            None => {
                self.push_blank(1);
                Ok(())
            }
        }
    }

    /// Puts pixels at the end.
    pub fn push_pixels(&mut self, pixels: &[Pixel]) -> Result<(), NoMemory>
        requires { length self.old + length pixels.now < 2 ^ 32 }
        ensures { OnOk result (self.new ≡ self.old ++ pixels.now) }
    {
        for pixel in pixels {
            self.push_pixel(*pixel)?;
        }
        Ok(())
    }

    /// Puts the next `count` pixels of a walk at the end, run by run, and walks over them. Condition: so
    /// many are to come.
    pub fn append(&mut self, walk: &mut Walk, count: u32) -> Result<(), NoMemory>
        requires room { length self.old + count < 2 ^ 32 }
        requires left { count ≤ length walk.old }
        ensures grown { OnOk result (self.new ≡ self.old ++ take count walk.old) }
        ensures rest { OnOk result (walk.new ≡ drop count walk.old) }
    {
        let mut left = count;
        'copying: while left > 0 {
            let stretch = walk.next(left);
            self.push_blank(stretch.blank);
            self.push_all(stretch.drawn)?;
            left -= stretch.len();
        }
        Ok(())
    }

    /// A walk over the pixels.
    pub fn walk(&self) -> Walk<'_>
        ensures { result ≡ self.now }
    {
        Walk::over(self.runs.as_slice(), self.fragments.as_slice(), self.behind)
    }

    /// The same pixels, which grow no more; their fragments are moved, and may be shared then.
    pub fn into_shared(self) -> Result<SharedStrip, NoMemory>
        ensures { IfOk result (λ s. s ≡ self) }
    {
        let fragments = Fragments::of(self.fragments)?;
        Ok(SharedStrip::with(self.runs, fragments, self.behind))
    }
}

/// Puts `drawn` drawn pixels behind `blank` blank ones at the end of the runs.
pub(crate) fn lengthen(runs: &mut Vec<Run>, blank: u32, drawn: u32)
    requires room { vec_len runs.old < vec_capacity runs.old }
    requires sum { drawn_in runs.old.items + drawn < 2 ^ 32 }
    ensures { runs.new.items ≡ lengthened runs.old.items blank drawn }
{
    if blank == 0 && !runs.is_empty() {
        let last = runs.len() - 1;
        runs[last].drawn += drawn;
    } else {
        runs.push_reserved(Run { blank, drawn });
    }
}

/// Puts fragments at the end, each of `front` joined in front of the one of `back` at its place. Conditions: there are
/// equally many, and room for them.
fn put_joined(fragments: &mut Vec<Fragment>, mode: Mode, front: &[Fragment], back: &[Fragment])
    requires size { length front.now ≡ length back.now }
    requires room { vec_len fragments.old + length front.now ≤ vec_capacity fragments.old }
    ensures { fragments.new.items ≡ fragments.old.items ++ joined_places mode front.now back.now }
{
    for i in 0..front.len() {
        fragments.push_reserved(join_fragments(mode, front[i], back[i]));
    }
}

/// How many of the pixels are drawn, by which memory is reserved.
fn count_drawn(pixels: &[Pixel]) -> usize {
    pixels.iter().filter(|pixel| pixel.is_some()).count()
}
