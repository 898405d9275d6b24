//! Volumes for reports.
use crate::image::{HDR1, HDR2, Image, VOL1, payroll, record};
use crate::sections::{text, with_number};
use std::alloc::{AllocError, Global};

/// HDR2 of format S, with blocks of 18 characters.
pub const SPANNED: &str = "HDR2S0001800000                                   00";

pub const EOF_NONE: &str = "EOF1PAYROLL          ABC00100010001000100 00000 00000 000000";

pub const EOF_ONE: &str = "EOF1PAYROLL          ABC00100010001000100 00000 00000 000001";

pub const EOF_FOUR: &str = "EOF1PAYROLL          ABC00100010001000100 00000 00000 000004";

/// Returns the first `length` bytes of the example volume.
pub fn cut(alloc: Global, length: usize) -> Result<Image, AllocError> {
    let mut image = payroll(alloc)?;
    image.bytes.truncate(length);
    Ok(image)
}

/// Returns the 25 records of the example volume, each followed by the bytes `behind`.
pub fn records(alloc: Global, behind: &[u8]) -> Result<Vec<u8>, AllocError> {
    let mut bytes = Vec::new(alloc);
    for number in 0..25u8 {
        bytes.extend_from_slice(&record(number))?;
        bytes.extend_from_slice(behind)?;
    }
    Ok(bytes)
}

/// Returns the example volume with its second block marked as recorded with an error.
pub fn damaged(alloc: Global) -> Result<Image, AllocError> {
    let mut image = payroll(alloc)?;
    for (place, byte) in image.bytes.as_mut_slice().iter_mut().enumerate() {
        // The last bytes of the words before and after the block: at 268 + 808 + 3, and 804 later.
        if place == 1079 || place == 1883 {
            *byte = 0x80;
        }
    }
    Ok(image)
}

/// Returns a volume of one section with these labels, and one block between them.
pub fn one_block(
    alloc: Global,
    head: &str,
    format: &str,
    block: &[u8],
    trailer: &str,
) -> Result<Image, AllocError> {
    let mut image = Image::new(alloc);
    image.headers(&[VOL1, head, format])?;
    image.block(block)?;
    image.trailers(&[trailer])?;
    image.end()?;
    Ok(image)
}

/// Appends an empty section with number `number`, which continues.
fn empty_section(image: &mut Image, number: u16) -> Result<(), AllocError> {
    let header = b"HDR1PAYROLL          ABC00100000001000100 00000 00000 000000";
    let trailer = b"EOV1PAYROLL          ABC00100000001000100 00000 00000 000000";
    image.label(text(&with_number(header, number)))?;
    image.headers(&[HDR2])?;
    image.trailers(&[text(&with_number(trailer, number))])
}

/// Returns a volume with sections 1 to 9,999 of a file; even the last section continues.
pub fn all_sections(alloc: Global) -> Result<Image, AllocError> {
    let mut image = Image::new(alloc);
    image.label(VOL1)?;
    for number in 1..10000u16 {
        empty_section(&mut image, number)?;
    }
    image.end()?;
    Ok(image)
}

/// Returns a volume with unprintable bytes in the identifiers of the set and of the volume.
pub fn unprinted(alloc: Global) -> Result<Image, AllocError> {
    let mut volume = [b' '; 80];
    volume[..10].copy_from_slice(b"VOL1A\x07 ~\x7F\xE9");
    volume[79] = b'4';
    let mut header = [b' '; 80];
    header[..60].copy_from_slice(
        b"HDR1PAYROLL          \x1F C\x80\x0A100010001000100 00000 00000 000000",
    );
    let mut image = Image::new(alloc);
    image.block(&volume)?;
    image.block(&header)?;
    image.headers(&[HDR2])?;
    image.trailers(&[EOF_NONE])?;
    image.end()?;
    Ok(image)
}

/// Returns the example volume with two items after its second mark.
pub fn with_items_behind(alloc: Global) -> Result<Image, AllocError> {
    let mut image = cut(alloc, 2480)?;
    image.block(HDR1.as_bytes())?;
    image.mark()?;
    Ok(image)
}
