ghost use Rattle.std.specs.Prelude.{◌≡◌, ◌<◌, ◌≤◌, IfOk, Some, length, slice_get};
ghost use Rattle.icet_raster.specs.Paints.{IsRun};

use icet_base::NoMemory;
use icet_pixel::Fragment;
use std::alloc::Global;
use std::marker::Model;

/// The fragments of a span from left to right: 1 to 16,384.
#[derive(Drop)]
pub struct Paints {
    list: Vec<Fragment>,
}

impl Model for Paints {
    ghost use Rattle.std.specs.Prelude.{List};
    ghost use Rattle.icet_model.specs.Pixel.{FragmentView};
    ghost use Rattle.icet_raster.specs.Paints.{IsRun};

    ghost Value = { List FragmentView };

    ghost view = { λ s. s.list.items };

    ghost invariant = { λ s. IsRun s.list.items };
}

impl Paints {
    /// These paints. Condition: there are 1 to 16,384.
    pub fn of(list: Vec<Fragment>) -> Paints
        requires { IsRun list.items }
        ensures { result ≡ list.items }
    {
        Paints { list }
    }

    /// How many paints there are.
    pub fn len(&self) -> u32
        ensures count { result ≡ length self.now }
        ensures known { IsRun self.now }
    {
        self.list.len() as u32
    }

    /// The paint at a place. Condition: `i` is below the count.
    pub fn get(&self, i: u32) -> Fragment
        requires { i < length self.now }
        ensures { slice_get self.now i ≡ Some result }
    {
        self.list[i as usize]
    }

    /// All paints, from left to right.
    pub fn as_slice(&self) -> &[Fragment]
        ensures paints { result.now ≡ self.now }
        ensures known { IsRun self.now }
    {
        self.list.as_slice()
    }

    /// Equal paints.
    ///
    /// # Errors
    ///
    /// `NoMemory` where they find no memory.
    pub fn copy(&self, alloc: Global) -> Result<Paints, NoMemory>
        ensures { IfOk result (λ paints. paints ≡ self.now) }
    {
        let mut list = Vec::with_capacity(alloc, self.list.len())?;
        list.extend_from_slice(self.list.as_slice())?;
        Ok(Paints { list })
    }
}
