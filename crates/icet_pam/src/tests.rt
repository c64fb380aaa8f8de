//! Bytes that are pictures, and bytes that are none.
use crate::reading::{PictureFault, read_picture};
use std::alloc::Global;

/// One pixel, in 65 bytes of header and four of samples.
const PIXEL: &[u8] =
    b"P7\nWIDTH 1\nHEIGHT 1\nDEPTH 4\nMAXVAL 255\nTUPLTYPE RGB_ALPHA\nENDHDR\n\x0a\x14\x1e\xff";

/// Whether the bytes are read as this width, height, greatest sample and samples, in a text of this length.
fn is_read(
    alloc: Global,
    bytes: &[u8],
    size: (u32, u32, u32),
    samples: &[u16],
    length: usize,
) -> bool {
    match read_picture(alloc, bytes) {
        Ok((picture, count)) => {
            let (w, h, maxval) = size;
            let is_same_size = picture.w == w && picture.h == h && picture.maxval == maxval;
            is_same_size && picture.samples.as_slice() == samples && count == length
        }
        Err(_) => false,
    }
}

#[test]
fn pictures_are_read(rt: HostRuntime) {
    let alloc = rt.alloc();
    for (text, size, samples, length) in [
        (PIXEL, (1, 1, 255), [10u16, 20, 30, 255].as_slice(), 69),
        (
            b"P7\nWIDTH 1\nHEIGHT 1\nDEPTH 4\nMAXVAL 255\nTUPLTYPE RGB_ALPHA\nENDHDR\n\x0a\x14\x1e\xffP7\n",
            (1, 1, 255),
            &[10, 20, 30, 255],
            69,
        ),
        (
            b"P7\nWIDTH 2\nHEIGHT 1\nDEPTH 4\nMAXVAL 65535\nTUPLTYPE RGB_ALPHA\nENDHDR\n\x00\x31\x00\x00\x00\x00\xff\xff\x01\x02\x03\x04\x05\x06\x07\x08",
            (2, 1, 65_535),
            &[49, 0, 0, 65_535, 258, 772, 1_286, 1_800],
            83,
        ),
        (
            b"P7\nWIDTH 1\nHEIGHT 2\nDEPTH 4\nMAXVAL 255\nTUPLTYPE RGB_ALPHA\nENDHDR\n\x01\x02\x03\x04\x05\x06\x07\x08",
            (1, 2, 255),
            &[1, 2, 3, 4, 5, 6, 7, 8],
            73,
        ),
    ] {
        assert!(rt; is_read(alloc, text, size, samples, length));
    }
}

/// Whether the bytes are refused.
fn is_refused(alloc: Global, bytes: &[u8]) -> bool {
    match read_picture(alloc, bytes) {
        Ok(_) => false,
        Err(fault) => fault == PictureFault::Refused,
    }
}

#[test]
fn no_cut_picture_is_read(rt: HostRuntime) {
    for count in 0..PIXEL.len() {
        assert!(rt; is_refused(rt.alloc(), &PIXEL[..count]), "{count}");
    }
}

#[test]
fn other_headers_are_refused(rt: HostRuntime) {
    for text in [
        "P7\nWIDTH 01\nHEIGHT 1\nDEPTH 4\nMAXVAL 255\nTUPLTYPE RGB_ALPHA\nENDHDR\nabcd",
        "P7\nWIDTH 0\nHEIGHT 1\nDEPTH 4\nMAXVAL 255\nTUPLTYPE RGB_ALPHA\nENDHDR\nabcd",
        "P7\nWIDTH 1\nHEIGHT 0\nDEPTH 4\nMAXVAL 255\nTUPLTYPE RGB_ALPHA\nENDHDR\nabcd",
        "P7\nWIDTH 1\nHEIGHT 16385\nDEPTH 4\nMAXVAL 255\nTUPLTYPE RGB_ALPHA\nENDHDR\nabcd",
        "P7\nWIDTH 16385\nHEIGHT 1\nDEPTH 4\nMAXVAL 255\nTUPLTYPE RGB_ALPHA\nENDHDR\nabcd",
        "P7\nWIDTH -1\nHEIGHT 1\nDEPTH 4\nMAXVAL 255\nTUPLTYPE RGB_ALPHA\nENDHDR\nabcd",
        "P7\nWIDTH 1\nHEIGHT 1\nDEPTH 3\nMAXVAL 255\nTUPLTYPE RGB_ALPHA\nENDHDR\nabcd",
        "P7\nWIDTH 1\nHEIGHT 1\nDEPTH 4\nMAXVAL 256\nTUPLTYPE RGB_ALPHA\nENDHDR\nabcdabcd",
        "P6\nWIDTH 1\nHEIGHT 1\nDEPTH 4\nMAXVAL 255\nTUPLTYPE RGB_ALPHA\nENDHDR\nabcd",
    ] {
        assert!(rt; is_refused(rt.alloc(), text.as_bytes()), "{text}");
    }
}
