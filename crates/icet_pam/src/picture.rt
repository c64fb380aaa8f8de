ghost use Rattle.std.specs.Prelude.{◌≡◌, ◌/◌, ◌%◌, ◌∷◌, ◌++◌, [], true, false, min, codes, decimal};
ghost use Rattle.std.specs.List.{flat_map};
ghost use Rattle.icet_scene_model.specs.Picture.{header, header_end, picture_text, pixel_bytes, pixels_bytes, sample_bytes};
ghost use Rattle.icet_model.specs.Pixel.{finished};
ghost use Rattle.icet_base.specs.PenText.{Puts};

use icet_base::{Mode, Pen, Sink, WriteFault};
use icet_pixel::{Dense, Fragment, Pixel, finish};

/// Puts the picture's text into the pen: the header of a PAM file with four samples a pixel, and then the
/// samples row by row from the top, red, green, blue and alpha, premultiplied. A wide picture has samples of two
/// bytes, the more significant first, at most 65,535; another one has samples of one byte, at most 255. After a
/// fault the sink holds a front of the pen's text.
#[tactic(auto, using(icet_base::proofs::GrowingBytes::puts_then, icet_base::proofs::GrowingBytes::puts_failed))]
pub fn write_picture<K: Sink>(
    pen: &mut Pen<'_, K>,
    mode: Mode,
    picture: &Dense,
    background: Fragment,
    wide: bool,
) -> Result<(), WriteFault>
    requires { pen.old.failed ≡ false }
    ensures { Puts K.told pen.old pen.new result (picture_text wide mode background picture.now.w picture.now.h picture.now.pixels) }
{
    write_header(pen, wide, picture.width(), picture.height())?;
    write_samples(pen, wide, mode, picture.as_slice(), background)
}

/// Puts the lines before the samples.
fn write_header<K: Sink>(pen: &mut Pen<'_, K>, wide: bool, w: u32, h: u32) -> Result<(), WriteFault>
    requires { pen.old.failed ≡ false }
    ensures { Puts K.told pen.old pen.new result (header wide w h) }
{
    write_fields(
        pen,
        b"P7\nWIDTH ",
        u64::from(w),
        b"\nHEIGHT ",
        u64::from(h),
        header_end(wide),
    )
}

/// The lines behind the size.
pub fn header_end(wide: bool) -> &'static [u8]
    ensures { result.now ≡ header_end wide }
{
    if wide {
        b"\nDEPTH 4\nMAXVAL 65535\nTUPLTYPE RGB_ALPHA\nENDHDR\n"
    } else {
        b"\nDEPTH 4\nMAXVAL 255\nTUPLTYPE RGB_ALPHA\nENDHDR\n"
    }
}

/// Puts two names, each with its number, and then the rest.
#[tactic(auto, using(icet_base::proofs::GrowingBytes::puts_then, icet_base::proofs::GrowingBytes::puts_failed))]
fn write_fields<K: Sink>(
    pen: &mut Pen<'_, K>,
    first: &[u8],
    m: u64,
    second: &[u8],
    n: u64,
    rest: &[u8],
) -> Result<(), WriteFault>
    requires { pen.old.failed ≡ false }
    ensures { Puts K.told pen.old pen.new result ((first.now ++ decimal m) ++ ((second.now ++ decimal n) ++ rest.now)) }
{
    pen.put_number(first, m)?;
    pen.put_number_between(second, n, rest)
}

/// Puts the samples of the pixels.
fn write_samples<K: Sink>(
    pen: &mut Pen<'_, K>,
    wide: bool,
    mode: Mode,
    pixels: &[Pixel],
    background: Fragment,
) -> Result<(), WriteFault>
    requires { pen.old.failed ≡ false }
    ensures { Puts K.told pen.old pen.new result (pixels_bytes wide mode background pixels.now) }
{
    for pixel in pixels {
        write_pixel(pen, wide, finish(mode, *pixel, background))?;
    }
    Ok(())
}

/// Puts four samples.
fn write_pixel<K: Sink>(
    pen: &mut Pen<'_, K>,
    wide: bool,
    samples: [u16; 4],
) -> Result<(), WriteFault>
    requires { pen.old.failed ≡ false }
    ensures { Puts K.told pen.old pen.new result (flat_map (sample_bytes wide) samples) }
{
    if wide {
        pen.put(&wide_bytes(samples))
    } else {
        pen.put(&narrow_bytes(samples))
    }
}

/// Each sample in one byte, at most 255.
fn narrow_bytes(samples: [u16; 4]) -> [u8; 4]
    ensures { result ≡ flat_map (sample_bytes false) samples }
{
    let [r, g, b, a] = samples;
    [least_byte(r), least_byte(g), least_byte(b), least_byte(a)]
}

/// A sample in one byte.
fn least_byte(sample: u16) -> u8
    ensures { result ∷ [] ≡ sample_bytes false sample }
{
    sample.min(255) as u8
}

/// Each sample in two bytes, the more significant first.
fn wide_bytes(samples: [u16; 4]) -> [u8; 8]
    ensures { result ≡ flat_map (sample_bytes true) samples }
{
    let [r, g, b, a] = samples;
    [
        upper(r),
        lower(r),
        upper(g),
        lower(g),
        upper(b),
        lower(b),
        upper(a),
        lower(a),
    ]
}

/// The more significant byte.
fn upper(sample: u16) -> u8
    ensures { result ≡ min sample 65535 / 256 }
{
    (sample / 256) as u8
}

/// The less significant byte.
fn lower(sample: u16) -> u8
    ensures { result ≡ min sample 65535 % 256 }
{
    (sample % 256) as u8
}
