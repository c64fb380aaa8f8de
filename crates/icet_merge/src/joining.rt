ghost use Rattle.std.specs.Prelude.{◌≡◌, ℕ, List, ◌+◌, ◌-◌, ◌<◌, ◌≤◌, ◌^◌, ◌++◌, IfOk, OnOk, Some, length, map, take, drop};
ghost use Rattle.icet_merge.specs.Merge.{zip_joined};

use icet_base::{Mode, NoMemory};
use icet_pixel::Fragment;
use icet_sparse::{Sparse, Strip, Walk};
use std::alloc::Global;

/// The piece whose pixel at each position is that of `front` joined in front of that of `back`. It goes
/// run by run: where one of them is blank, the other's run is taken over as a whole. Memory for all drawn pixels of both
/// is reserved at once. Condition: both have the same tile, `lo` and `hi`.
pub fn merge(alloc: Global, mode: Mode, front: &Sparse, back: &Sparse) -> Result<Sparse, NoMemory>
    requires tile { front.now.tile ≡ back.now.tile }
    requires lo { front.now.lo ≡ back.now.lo }
    requires hi { front.now.hi ≡ back.now.hi }
    ensures { IfOk result (λ s. s ≡ record { tile = front.now.tile; lo = front.now.lo; hi = front.now.hi; content = zip_joined mode front.now.content back.now.content }) }
{
    let most = (front.hi() - front.lo()) as usize;
    let drawn = front.drawn() as usize + back.drawn() as usize;
    let mut pixels = Strip::with_room(alloc, drawn.min(most))?;
    let mut above = front.walk();
    let mut below = back.walk();
    let mut left = front.hi() - front.lo();
    'merging: while left > 0 {
        let stretch = above.next(left);
        pixels.append(&mut below, stretch.blank)?;
        join_onto(&mut pixels, mode, stretch.drawn, &mut below)?;
        left -= stretch.len();
    }
    Sparse::from_strip(front.tile(), front.lo(), front.hi(), pixels)
}

/// Puts drawn pixels at the end, joined in front of the next ones of a walk, and walks over these.
/// Condition: so many are to come.
fn join_onto(
    pixels: &mut Strip,
    mode: Mode,
    front: &[Fragment],
    back: &mut Walk,
) -> Result<(), NoMemory>
    requires room { length pixels.old + length front.now < 2 ^ 32 }
    requires left { length front.now ≤ length back.old }
    ensures grown { OnOk result (pixels.new ≡ pixels.old ++ zip_joined mode (map Some front.now) (take (length front.now) back.old)) }
    ensures rest { OnOk result (back.new ≡ drop (length front.now) back.old) }
{
    let mut rest = front;
    'joining: while !rest.is_empty() {
        let stretch = back.next(rest.len() as u32);
        let (alone, behind) = rest.split_at(stretch.blank as usize);
        let (both, later) = behind.split_at(stretch.drawn.len());
        pixels.push_all(alone)?;
        pixels.push_joined(mode, both, stretch.drawn)?;
        rest = later;
    }
    Ok(())
}
