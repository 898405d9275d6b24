//! Volumes with the sections that a catalogue should find.
use crate::image::{HDR1, HDR2, Image, VOL1, payroll_with};
use std::alloc::{AllocError, Global};

/// Returns the example file on a volume that has no room for the end-of-file labels: three blocks,
/// and end-of-volume labels.
pub fn first_of_two(alloc: Global) -> Result<Image, AllocError> {
    payroll_with(
        alloc,
        &[
            "EOV1PAYROLL          ABC00100010001000100 00000 00000 000003",
            "EOV2F0080000080                                   00",
        ],
    )
}

/// Returns the second volume of the example file: an empty section, and end-of-file labels.
pub fn second_of_two(alloc: Global) -> Result<Image, AllocError> {
    let mut image = Image::new(alloc);
    image.headers(&[
        "VOL1ABC002                                                                     4",
        "HDR1PAYROLL          ABC00100020001000100 00000 00000 000000",
        HDR2,
    ])?;
    image.trailers(&[
        "EOF1PAYROLL          ABC00100020001000100 00000 00000 000000",
        "EOF2F0080000080                                   00",
    ])?;
    image.end()?;
    Ok(image)
}

/// Returns a volume with the header label `header`, one block of one record, and the trailer label
/// `trailer`.
pub fn one_section(alloc: Global, header: &str, trailer: &str) -> Result<Image, AllocError> {
    let mut image = Image::new(alloc);
    image.headers(&[VOL1, header, HDR2])?;
    image.records(0, 1, true)?;
    image.trailers(&[trailer])?;
    image.end()?;
    Ok(image)
}

/// Returns a volume with only section `number`, which continues.
pub fn numbered(alloc: Global, number: u16) -> Result<Image, AllocError> {
    let header = with_number(
        b"HDR1PAYROLL          ABC00100000001000100 00000 00000 000000",
        number,
    );
    let trailer = with_number(
        b"EOV1PAYROLL          ABC00100000001000100 00000 00000 000001",
        number,
    );
    one_section(alloc, text(&header), text(&trailer))
}

/// Returns the label with section number `number`.
pub fn with_number(label: &[u8; 60], number: u16) -> [u8; 60] {
    let mut label = *label;
    for (place, unit) in [(27usize, 1000u16), (28, 100), (29, 10), (30, 1)] {
        label[place] = b'0' + (number / unit % 10) as u8;
    }
    label
}

/// Returns `bytes` as text.
pub fn text(bytes: &[u8]) -> &str {
    std::str::from_utf8(bytes).unwrap_or("")
}

/// Returns a volume with one section, which has `count` blocks of one byte, and the trailer label
/// `trailer`.
pub fn of_blocks(alloc: Global, count: u32, trailer: &str) -> Result<Image, AllocError> {
    let mut image = Image::new(alloc);
    image.headers(&[VOL1, HDR1, HDR2])?;
    for _ in 0..count {
        image.block(b"x")?;
    }
    image.trailers(&[trailer])?;
    image.end()?;
    Ok(image)
}
