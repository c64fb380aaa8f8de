ghost use Rattle.std.specs.Prelude.{◌≡◌, option_map};
ghost use Rattle.std.specs.Option.{option_copied};
ghost use Rattle.icet_pam.specs.Headings.{behind, side_in, named_side, end_in, heading_in};

use crate::picture::header_end;
use icet_base::limits::MAX_SIDE;
use icet_text::numeral::natural;
use icet_text::words::place_of;

/// What a header says: width and height in pixels, and whether samples take two bytes.
#[derive(Clone, Copy, Debug, PartialEq, Eq)]
pub struct Shape {
    pub w: u32,
    pub h: u32,
    pub wide: bool,
}

/// The header that the bytes begin with, and what is behind it.
pub fn heading(bytes: &[u8]) -> Option<(Shape, &[u8])>
    ensures { option_map (λ found. (found.0, found.1.now)) result ≡ heading_in bytes.now }
{
    let (w, rest) = named_side(bytes, b"P7\nWIDTH ")?;
    let (h, rest) = named_side(rest, b"\nHEIGHT ")?;
    let (wide, rest) = end_in(rest)?;
    Some((Shape { w, h, wide }, rest))
}

/// The side behind its name, and what is from the newline on that ends its numeral.
fn named_side<'a>(bytes: &'a [u8], name: &[u8]) -> Option<(u32, &'a [u8])>
    ensures { option_map (λ found. (found.0, found.1.now)) result ≡ named_side name.now bytes.now }
{
    side_in(behind(bytes, name)?)
}

/// The side whose numeral stands before the first newline.
fn side_in(bytes: &[u8]) -> Option<(u32, &[u8])>
    ensures { option_map (λ found. (found.0, found.1.now)) result ≡ side_in bytes.now }
{
    let at = place_of(bytes, b'\n')?;
    let side = natural((1, MAX_SIDE), &bytes[..at])?;
    Some((side, &bytes[at..]))
}

/// Whether samples take two bytes, by the header's last lines, and what is behind them.
fn end_in(bytes: &[u8]) -> Option<(bool, &[u8])>
    ensures { option_map (λ found. (found.0, found.1.now)) result ≡ end_in bytes.now }
{
    match behind(bytes, header_end(false)) {
        Some(rest) => Some((false, rest)),
        None => Some((true, behind(bytes, header_end(true))?)),
    }
}

/// What is behind this front of the bytes.
fn behind<'a>(bytes: &'a [u8], front: &[u8]) -> Option<&'a [u8]>
    ensures { option_copied result ≡ behind front.now bytes.now }
{
    bytes.strip_prefix(front)
}
