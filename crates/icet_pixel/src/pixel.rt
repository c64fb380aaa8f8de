ghost use Rattle.std.specs.Prelude.{◌≡◌, ◌<◌, ◌≤◌, ◌⊎◌};
ghost use Rattle.icet_model.specs.Pixel.{IsFragment, blended, finished, finished_fragment, joined, joined_fragments, over, over_by, samples_of};
ghost use Rattle.icet_pixel.specs.Blending.{IsOpaque};

use crate::fragment::Fragment;
use icet_base::Mode;

/// What stands at one place of an image: a fragment, or None where nothing was drawn.
pub type Pixel = Option<Fragment>;

/// The fragment that shows where `front` stands over `back`, by the operator over of Porter and Duff
/// (Compositing Digital Images, 1984) with premultiplied colour. An alpha of 255 is opaque, or of
/// 65,535 where `wide`; an alpha above that hides all behind it. Each channel is rounded down, and the
/// depth is the front's.
pub fn over(front: Fragment, back: Fragment, wide: bool) -> Fragment
    ensures { result ≡ over front back wide }
{
    if wide {
        blend(front, back, 65_535)
    } else {
        blend(front, back, 255)
    }
}

/// The front over the back, where `most` is opaque.
#[inline(always)]
fn blend(front: Fragment, back: Fragment, most: u32) -> Fragment
    requires { IsOpaque most }
    ensures { result ≡ over_by most front back }
{
    Fragment::of(
        channel(front.r(), back.r(), front.a(), most),
        channel(front.g(), back.g(), front.a(), most),
        channel(front.b(), back.b(), front.a(), most),
        channel(front.a(), back.a(), front.a(), most),
        front.z(),
    )
}

/// One channel of the front over that of the back.
#[inline(always)]
fn channel(front: u16, back: u16, alpha: u16, most: u32) -> u16
    requires front { front ≤ alpha }
    requires most { IsOpaque most }
    ensures { result ≡ blended most alpha front back }
{
    let shown = most - u32::from(alpha).min(most);
    (u32::from(front) + u32::from(back) * shown / most) as u16
}

/// The pixel that shows where `front` stands before `back`: the other where one is None, by depth
/// the nearer one and the front at equal depth, by blending the front over the back.
pub fn join(mode: Mode, front: Pixel, back: Pixel) -> Pixel
    ensures { result ≡ joined mode front back }
{
    match (front, back) {
        (Some(front), Some(back)) => Some(join_fragments(mode, front, back)),
        (Some(front), None) => Some(front),
        (None, back) => back,
    }
}

/// The fragment that shows where `front` stands before `back`: by depth the nearer one and the front at equal depth, by
/// blending the front over the back.
pub fn join_fragments(mode: Mode, front: Fragment, back: Fragment) -> Fragment
    ensures { result ≡ joined_fragments mode front back }
{
    match mode {
        Mode::Depth => { if front.z() <= back.z() { front } else { back } },
        Mode::Blend => over(front, back, false),
        Mode::WideBlend => over(front, back, true),
    }
}

/// The samples of a pixel, red, green, blue and alpha: the background's where nothing was drawn, by
/// depth the fragment's, and by blending those of the fragment over the background.
pub fn finish(mode: Mode, pixel: Pixel, background: Fragment) -> [u16; 4]
    ensures { result ≡ finished mode pixel background }
{
    match pixel {
        None => samples(background),
        Some(fragment) => finish_fragment(mode, fragment, background),
    }
}

fn finish_fragment(mode: Mode, fragment: Fragment, background: Fragment) -> [u16; 4]
    ensures { result ≡ finished_fragment mode fragment background }
{
    match mode {
        Mode::Depth => samples(fragment),
        Mode::Blend => samples(over(fragment, background, false)),
        Mode::WideBlend => samples(over(fragment, background, true)),
    }
}

fn samples(fragment: Fragment) -> [u16; 4]
    ensures { result ≡ samples_of fragment }
{
    [fragment.r(), fragment.g(), fragment.b(), fragment.a()]
}
