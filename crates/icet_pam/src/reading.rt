ghost use Rattle.std.specs.Prelude.{◌≡◌, ◌≤◌, ◌%◌, ◌∷◌, [], false, true, Err, IfOk, IsTrue, length};
ghost use Rattle.icet_model.specs.declared.limits.TheConstants.{MAX_SIDE};
ghost use Rattle.icet_scene_model.specs.Lawful.{greatest_channel};
ghost use Rattle.icet_scene_model.specs.Picture.{sample_bytes};
ghost use Rattle.icet_scene_model.specs.ReadPicture.{BeginsWith, BeginsWithNone};
ghost use Rattle.icet_pam.specs.Headings.{HasHeader};
ghost use Rattle.icet_pam.specs.Pictures.{picture_view, samples_size, AreSamplesOf};
ghost use Rattle.icet_pam.specs.declared.reading.PictureFault.TheVariants.{Refused};

use crate::heading::{Shape, heading};
use icet_base::NoMemory as WantOfMemory;
use icet_scene_model::limits::{NARROW_CHANNEL, WIDE_CHANNEL};
use std::alloc::{AllocError, Global};
use thiserror::Error;

/// A picture: width and height in pixels, the greatest sample, which is 255 or 65,535, and its samples row by row
/// from the top, red, green, blue and alpha of each pixel, premultiplied.
#[derive(Drop)]
pub struct Picture {
    pub w: u32,
    pub h: u32,
    pub maxval: u32,
    pub samples: Vec<u16>,
}

/// Why no picture was read.
#[derive(Clone, Copy, Debug, PartialEq, Eq, Error)]
pub enum PictureFault {
    /// The bytes don't begin with a picture.
    #[error("not a picture")]
    Refused,
    /// Memory was wanted and not there.
    #[error("no memory")]
    NoMemory,
}

impl From<AllocError> for PictureFault {
    ghost use Rattle.std.specs.Prelude.{◌≡◌};
    ghost use Rattle.icet_pam.specs.declared.reading.PictureFault.TheVariants.{NoMemory};

    ghost from_gives = { λ _ e. e ≡ NoMemory };

    fn from(_want: AllocError) -> PictureFault {
        PictureFault::NoMemory
    }
}

impl From<WantOfMemory> for PictureFault {
    ghost use Rattle.std.specs.Prelude.{◌≡◌};
    ghost use Rattle.icet_pam.specs.declared.reading.PictureFault.TheVariants.{NoMemory};

    ghost from_gives = { λ _ e. e ≡ NoMemory };

    fn from(_want: WantOfMemory) -> PictureFault {
        PictureFault::NoMemory
    }
}

/// The picture that the bytes begin with, as `write_picture` puts it, and how many bytes its text has; others may
/// follow. It takes two bytes of memory for each sample, and time in proportion to the text.
///
/// # Errors
///
/// `Refused` where the bytes begin with no picture of 1 to 16,384 pixels in width and height, `NoMemory` where the
/// samples find no memory.
pub fn read_picture(alloc: Global, bytes: &[u8]) -> Result<(Picture, usize), PictureFault>
    ensures picture { IfOk result (λ found. BeginsWith bytes.now (picture_view found.0) found.1) }
    ensures refused { result ≡ Err Refused → BeginsWithNone bytes.now }
{
    match heading(bytes) {
        None => Err(PictureFault::Refused),
        Some((shape, rest)) => picture_behind(alloc, bytes, shape, rest),
    }
}

/// The picture whose header stands before the rest of the bytes.
fn picture_behind(
    alloc: Global,
    bytes: &[u8],
    shape: Shape,
    rest: &[u8],
) -> Result<(Picture, usize), PictureFault>
    requires { HasHeader bytes.now shape rest.now }
    ensures picture { IfOk result (λ found. BeginsWith bytes.now (picture_view found.0) found.1) }
    ensures refused { result ≡ Err Refused → BeginsWithNone bytes.now }
{
    let size = size_of(shape);
    if rest.len() < size {
        return Err(PictureFault::Refused);
    }
    let samples = samples_of(alloc, shape.wide, &rest[..size])?;
    let picture = Picture {
        w: shape.w,
        h: shape.h,
        maxval: greatest(shape.wide),
        samples,
    };
    let length = bytes.len() - rest.len() + size;
    Ok((picture, length))
}

/// How many bytes the samples take.
fn size_of(shape: Shape) -> usize
    requires width { shape.w ≤ MAX_SIDE }
    requires height { shape.h ≤ MAX_SIDE }
    ensures { result ≡ samples_size shape }
{
    let count = 4 * shape.w as usize * shape.h as usize;
    if shape.wide { 2 * count } else { count }
}

/// The greatest sample.
fn greatest(wide: bool) -> u32
    ensures { result ≡ greatest_channel wide }
{
    if wide { WIDE_CHANNEL } else { NARROW_CHANNEL }
}

/// The samples of these bytes, one or two for each.
fn samples_of(alloc: Global, wide: bool, bytes: &[u8]) -> Result<Vec<u16>, WantOfMemory>
    requires { IsTrue wide → length bytes.now % 2 ≡ 0 }
    ensures { IfOk result (λ samples. AreSamplesOf wide bytes.now samples.items) }
{
    if wide {
        wide_samples(alloc, bytes)
    } else {
        narrow_samples(alloc, bytes)
    }
}

/// A sample for each byte.
fn narrow_samples(alloc: Global, bytes: &[u8]) -> Result<Vec<u16>, WantOfMemory>
    ensures { IfOk result (λ samples. AreSamplesOf false bytes.now samples.items) }
{
    let mut samples = Vec::with_capacity(alloc, bytes.len())?;
    for byte in bytes {
        samples.push(narrow_sample(*byte))?;
    }
    Ok(samples)
}

/// The sample of one byte.
fn narrow_sample(byte: u8) -> u16
    ensures text { sample_bytes false result ≡ byte ∷ [] }
    ensures within { result ≤ greatest_channel false }
{
    u16::from(byte)
}

/// A sample for each two bytes.
fn wide_samples(alloc: Global, bytes: &[u8]) -> Result<Vec<u16>, WantOfMemory>
    requires { length bytes.now % 2 ≡ 0 }
    ensures { IfOk result (λ samples. AreSamplesOf true bytes.now samples.items) }
{
    let count = bytes.len() / 2;
    let mut samples = Vec::with_capacity(alloc, count)?;
    for at in 0..count {
        samples.push(wide_sample(bytes[2 * at], bytes[2 * at + 1]))?;
    }
    Ok(samples)
}

/// The sample of two bytes, of which the first is the more significant.
fn wide_sample(upper: u8, lower: u8) -> u16
    ensures text { sample_bytes true result ≡ upper ∷ lower ∷ [] }
    ensures within { result ≤ greatest_channel true }
{
    u16::from(upper) * 256 + u16::from(lower)
}
