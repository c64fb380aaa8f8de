ghost use Rattle.std.specs.Prelude.{◌≡◌, ◌+◌, ◌≤◌, min};
ghost use Rattle.icet_scene_model.specs.Lawful.{greatest_channel};
ghost use Rattle.icet_summary.specs.Summaries.{finish, tally_of};
ghost use Rattle.icet_summary.specs.Tallies.{HasRoom, with_pixel};

use icet_base::Mode;
use icet_pixel::{Dense, Fragment, Pixel, finish};

/// What is counted of a picture: the pixels where nothing was drawn, and the sum of each of the four samples that a
/// pixel has in the picture text.
#[derive(Clone, Copy, Debug, PartialEq, Eq)]
pub struct Tally {
    pub blank: u64,
    pub red: u64,
    pub green: u64,
    pub blue: u64,
    pub alpha: u64,
}

impl Tally {
    /// What is counted of a picture that is handed out over this background, with samples of 16 bits where it is wide.
    pub fn of(picture: &Dense, wide: bool, mode: Mode, background: Fragment) -> Tally
        ensures { result ≡ tally_of (finish wide mode background) picture.now.pixels }
    {
        let mut all = Tally {
            blank: 0,
            red: 0,
            green: 0,
            blue: 0,
            alpha: 0,
        };
        for pixel in picture.as_slice() {
            all = with_pixel(all, wide, mode, *pixel, background);
        }
        all
    }
}

// one pixel more
fn with_pixel(all: Tally, wide: bool, mode: Mode, pixel: Pixel, background: Fragment) -> Tally
    requires { HasRoom all }
    ensures { result ≡ with_pixel (finish wide mode background) pixel all }
{
    let [red, green, blue, alpha] = finish(mode, pixel, background);
    Tally {
        blank: all.blank + u64::from(pixel.is_none()),
        red: all.red + sample(wide, red),
        green: all.green + sample(wide, green),
        blue: all.blue + sample(wide, blue),
        alpha: all.alpha + sample(wide, alpha),
    }
}

// a sample as the picture text has it
fn sample(wide: bool, sample: u16) -> u64
    ensures value { result ≡ min sample (greatest_channel wide) }
    ensures small { result ≤ 65535 }
{
    u64::from(if wide { sample } else { sample.min(255) })
}
