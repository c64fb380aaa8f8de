//! Pieces: cut, put together, merged, and interlaced.
ghost use Rattle.std.specs.Prelude.{◌≤◌};

use icet_base::{Mode, NoMemory};
use icet_interlace::{interlace, pixel_at, place, restore};
use icet_merge::merge;
use icet_pixel::{Fragment, Pixel};
use icet_sparse::Sparse;
use std::alloc::Global;

/// An opaque grey pixel.
fn grey(level: u16, z: u32) -> Pixel {
    Fragment::new(level, level, level, 255, z)
}

/// Six positions, of which three are drawn.
fn cells() -> [Pixel; 6] {
    [None, grey(1, 1), grey(1, 1), None, None, grey(2, 2)]
}

/// Whether all cells, the second to the fourth, the first two and the other four weigh what is stated.
fn has_stated_weights(alloc: Global) -> Result<bool, NoMemory> {
    let whole = Sparse::of(alloc, 3, &cells())?;
    let middle = whole.part(alloc, 1, 4)?;
    let front = whole.part(alloc, 0, 2)?;
    let back = whole.part(alloc, 2, 6)?;
    let parts_do = middle.weight() == 24 && front.weight() == 16 && back.weight() == 32;
    Ok(whole.weight() == 40 && parts_do)
}

#[test]
fn a_run_and_a_drawn_pixel_weigh_eight_each(rt: HostRuntime) {
    assert!(rt; matches!(has_stated_weights(rt.alloc()), Ok(true)));
}

/// Whether the piece, cut in two at a position and put together again, is the piece in its one form.
fn is_whole_again(alloc: Global, whole: &Sparse, at: u32) -> Result<bool, NoMemory>
    requires lo { whole.now.lo ≤ at }
    requires hi { at ≤ whole.now.hi }
{
    let mut front = whole.copy(alloc)?;
    let back = front.cut(alloc, at)?;
    let both = Sparse::concat(alloc, &front, &back)?;
    let is_whole = both.same(whole) && both.weight() == whole.weight();
    Ok(is_whole && front.same(whole) == (at == 6) && back.same(whole) == (at == 0))
}

/// Whether that is so at each position.
fn is_whole_at_each_seam(alloc: Global) -> Result<bool, NoMemory> {
    let whole = Sparse::of(alloc, 3, &cells())?;
    let mut always = true;
    for at in 0..7 {
        always &= is_whole_again(alloc, &whole, at)?;
    }
    Ok(always)
}

#[test]
fn a_piece_cut_and_joined_at_any_seam_has_its_form_again(rt: HostRuntime) {
    assert!(rt; matches!(is_whole_at_each_seam(rt.alloc()), Ok(true)));
}

/// Whether of two pixels the nearer is kept, the front one at equal depth, and the only one alone.
fn keeps_the_nearer(alloc: Global) -> Result<bool, NoMemory> {
    let front = Sparse::of(alloc, 2, &[None, grey(1, 5), grey(1, 5), None])?;
    let back = Sparse::of(alloc, 2, &[grey(2, 1), grey(3, 5), grey(4, 9), None])?;
    let both = merge(alloc, Mode::Depth, &front, &back)?;
    let is_back = both.get(0) == grey(2, 1);
    Ok(is_back && both.get(1) == grey(1, 5) && both.get(2) == grey(1, 5) && both.get(3).is_none())
}

#[test]
fn the_nearer_pixel_is_kept_and_the_front_at_a_tie(rt: HostRuntime) {
    assert!(rt; matches!(keeps_the_nearer(rt.alloc()), Ok(true)));
}

/// Whether seven pixels in three strands stand in the stated order, and come back from there.
fn stands_in_strands(alloc: Global) -> Result<bool, NoMemory> {
    let cells = [
        grey(0, 0),
        grey(1, 0),
        grey(2, 0),
        grey(3, 0),
        grey(4, 0),
        grey(5, 0),
        grey(6, 0),
    ];
    let in_strands = [
        grey(0, 0),
        grey(3, 0),
        grey(6, 0),
        grey(1, 0),
        grey(4, 0),
        grey(2, 0),
        grey(5, 0),
    ];
    let image = Sparse::of(alloc, 0, &cells)?;
    let stated = Sparse::of(alloc, 0, &in_strands)?;
    let interlaced = interlace(alloc, &image, 3)?;
    let restored = restore(alloc, &interlaced, 3)?;
    let is_sixth = place(6, 7, 3) == 2 && pixel_at(2, 7, 3) == 6;
    Ok(interlaced.same(&stated) && restored.same(&image) && is_sixth)
}

#[test]
fn seven_pixels_stand_in_three_strands_and_come_back(rt: HostRuntime) {
    assert!(rt; matches!(stands_in_strands(rt.alloc()), Ok(true)));
}
