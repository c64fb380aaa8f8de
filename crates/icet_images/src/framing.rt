ghost use Rattle.std.specs.Prelude.{◌≡◌, ◌+◌, ◌-◌, ◌*◌, ◌<◌, ◌≤◌, ◌^◌, ◌++◌, OnOk, length};
ghost use Rattle.icet_images.specs.Images.{IsPartWithin, framed_image, framed_row, framed_rows};

use icet_base::NoMemory;
use icet_pixel::Pixel;
use icet_raster::Part;
use icet_sparse::Strip;

/// Puts the pixels of an image of `w` by `h` at the end, which are blank but for a part that has these pixels, row by
/// row.
pub(crate) fn put_framed(
    strip: &mut Strip,
    pixels: &[Pixel],
    w: u32,
    h: u32,
    part: Part,
) -> Result<(), NoMemory>
    requires part { IsPartWithin w h part }
    requires size { length pixels.now ≡ (part.to - part.from) * (part.bottom - part.top) }
    requires room { length strip.old + w * h < 2 ^ 32 }
    ensures { OnOk result (strip.new ≡ strip.old ++ framed_image w h part pixels.now) }
{
    strip.push_blank(part.top * w);
    let margins = Margins {
        left: part.from,
        width: part.to - part.from,
        right: w - part.to,
    };
    put_rows(strip, pixels, margins, part.bottom - part.top)?;
    strip.push_blank((h - part.bottom) * w);
    Ok(())
}

/// How many pixels of a row are blank before the part's, how many the part has, and how many are blank behind them.
#[derive(Clone, Copy)]
pub(crate) struct Margins {
    pub left: u32,
    pub width: u32,
    pub right: u32,
}

/// Puts so many rows at the end, each with its margins.
fn put_rows(
    strip: &mut Strip,
    pixels: &[Pixel],
    margins: Margins,
    rows: u32,
) -> Result<(), NoMemory>
    requires size { length pixels.now ≡ margins.width * rows }
    requires room { length strip.old + rows * (margins.left + margins.width + margins.right) < 2 ^ 32 }
    ensures { OnOk result (strip.new ≡ strip.old ++ framed_rows margins rows pixels.now) }
{
    let width = margins.width as usize;
    for row in 0..rows {
        let start = row as usize * width;
        put_row(strip, &pixels[start..start + width], margins)?;
    }
    Ok(())
}

/// Puts a row at the end, with its margins.
fn put_row(strip: &mut Strip, row: &[Pixel], margins: Margins) -> Result<(), NoMemory>
    requires room { length strip.old + (margins.left + length row.now + margins.right) < 2 ^ 32 }
    ensures { OnOk result (strip.new ≡ strip.old ++ framed_row margins row.now) }
{
    strip.push_blank(margins.left);
    strip.push_pixels(row)?;
    strip.push_blank(margins.right);
    Ok(())
}
