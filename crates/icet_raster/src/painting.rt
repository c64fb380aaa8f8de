ghost use Rattle.std.specs.Prelude.{◌≡◌, Some};
ghost use Rattle.icet_model.specs.Pixel.{joined};
ghost use Rattle.icet_scene_model.specs.Raster.{drawn_over, visible};

use icet_base::Mode;
use icet_pixel::{Fragment, Pixel, join};

/// A pixel with a further fragment drawn over what was there.
#[inline(always)]
pub(crate) fn draw_over(mode: Mode, before: Pixel, fragment: Fragment) -> Pixel
    ensures { result ≡ drawn_over mode before (Some fragment) }
{
    match mode {
        Mode::Depth => join(mode, before, Some(fragment)),
        Mode::Blend => blend_over(mode, before, fragment),
        Mode::WideBlend => blend_over(mode, before, fragment),
    }
}

fn blend_over(mode: Mode, before: Pixel, fragment: Fragment) -> Pixel
    ensures { result ≡ joined mode (visible (Some fragment)) before }
{
    if fragment.a() == 0 {
        before
    } else {
        join(mode, Some(fragment), before)
    }
}
