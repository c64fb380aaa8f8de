//! A row of the display, over which one goes column by column to find its spans.
ghost use Rattle.std.specs.Prelude.{◌≡◌, ℕ, ◌-◌, ◌+◌, ◌<◌, ◌≤◌, ◌∷◌, [], List, OnOk, None, Some, length, replicate};
ghost use Rattle.icet_model.specs.declared.limits.TheConstants.{MAX_PLACE, MAX_SIDE};
ghost use Rattle.icet_raster.specs.declared.shape.Shape.{Shape};
ghost use Rattle.icet_raster.specs.Shapes.{drawing_of, IsInRange};
ghost use Rattle.icet_scene_model.specs.Raster.{Span};
ghost use Rattle.icet_upgrade.specs.Scans.{EndsRun, IsScan, Passes};

use icet_base::{NoMemory, Rank};
use icet_pixel::{Fragment, Pixel};
use icet_raster::{Paints, Shape};
use std::alloc::Global;
use std::mem;

/// Where a look at the columns of a row stands.
#[derive(Drop)]
pub(crate) struct Scan {
    pub(crate) rank: Rank,
    pub(crate) y: u32,
    /// The first column that wasn't looked at.
    pub(crate) next: u32,
    /// The fragments right before that column: a run that may go on.
    pub(crate) run: Vec<Fragment>,
}

impl Scan {
    /// No column was looked at.
    pub(crate) fn new(alloc: Global, rank: Rank, y: u32) -> Scan
        requires { y ≤ MAX_PLACE }
        ensures scan { IsScan result }
        ensures start { (result.rank ≡ rank) × (result.y ≡ y) × (result.next ≡ 0) × (result.run.items ≡ []) }
    {
        Scan {
            rank,
            y,
            next: 0,
            run: Vec::new(alloc),
        }
    }

    /// Puts the span of the run behind the spans, and begins a new run.
    pub(crate) fn end_run(
        &mut self,
        alloc: Global,
        spans: &mut Vec<(Rank, Shape)>,
    ) -> Result<(), NoMemory>
        requires { IsScan self.old }
        ensures { OnOk result (EndsRun self.old spans.old.items self.new spans.new.items) }
    {
        if self.run.is_empty() {
            return Ok(());
        }
        let run = mem::replace(&mut self.run, Vec::new(alloc));
        let x = self.next - run.len() as u32;
        spans.push((self.rank, span(x, self.y, run)))?;
        Ok(())
    }

    /// Goes over blank columns up to one.
    pub(crate) fn skip_to(
        &mut self,
        alloc: Global,
        spans: &mut Vec<(Rank, Shape)>,
        column: u32,
    ) -> Result<(), NoMemory>
        requires scan { IsScan self.old }
        requires forward { self.old.next ≤ column }
        requires within { column ≤ MAX_SIDE }
        ensures { OnOk result (Passes self.old spans.old.items self.new spans.new.items (replicate (column - self.old.next) None)) }
    {
        if self.next == column {
            return Ok(());
        }
        self.end_run(alloc, spans)?;
        self.next = column;
        Ok(())
    }

    /// Goes over pixels.
    pub(crate) fn pass(
        &mut self,
        alloc: Global,
        spans: &mut Vec<(Rank, Shape)>,
        pixels: &[Pixel],
    ) -> Result<(), NoMemory>
        requires scan { IsScan self.old }
        requires within { self.old.next + length pixels.now ≤ MAX_SIDE }
        ensures { OnOk result (Passes self.old spans.old.items self.new spans.new.items pixels.now) }
    {
        for pixel in pixels {
            self.pass_one(alloc, spans, *pixel)?;
        }
        Ok(())
    }

    /// Goes over a pixel.
    fn pass_one(
        &mut self,
        alloc: Global,
        spans: &mut Vec<(Rank, Shape)>,
        pixel: Pixel,
    ) -> Result<(), NoMemory>
        requires scan { IsScan self.old }
        requires within { self.old.next < MAX_SIDE }
        ensures { OnOk result (Passes self.old spans.old.items self.new spans.new.items (pixel ∷ [])) }
    {
        match pixel {
            None => self.skip_to(alloc, spans, self.next + 1),
            Some(fragment) => self.pass_drawn(fragment),
        }
    }

    /// Goes over a drawn pixel, which lengthens the run.
    fn pass_drawn(&mut self, fragment: Fragment) -> Result<(), NoMemory>
        requires scan { IsScan self.old }
        requires within { self.old.next < MAX_SIDE }
        ensures { OnOk result ((spans : List (ℕ × Shape)) → Passes self.old spans self.new spans (Some fragment ∷ [])) }
    {
        self.run.push(fragment)?;
        self.next += 1;
        Ok(())
    }
}

/// The span of a run that begins in a column of a row.
fn span(x: u32, y: u32, run: Vec<Fragment>) -> Shape
    requires column { x ≤ MAX_PLACE }
    requires row { y ≤ MAX_PLACE }
    requires some { 1 ≤ length run.items }
    requires within { x + length run.items ≤ MAX_SIDE }
    ensures drawing { drawing_of result ≡ Span x y run.items }
    ensures in_range { IsInRange result }
{
    Shape::Span {
        x: x as i32,
        y: y as i32,
        paints: Paints::of(run),
    }
}
