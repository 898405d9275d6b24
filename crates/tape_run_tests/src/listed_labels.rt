//! Tests of the line about each label.
use crate::image::Image;
use std::alloc::{AllocError, Global};
use std::process::Abort;
use std::test::Fail;
use tape_run::list_to;

/// Fails unless the listing of an image with one label has the line `line`, after its number.
fn check<H: Abort + AllocGlobal>(rt: &H, image: &Image, line: &str) -> Result<(), Fail> {
    let mut out = Vec::new(rt.alloc());
    list_to(rt.alloc(), &mut image.bytes.as_slice(), &mut out)?;
    let wanted = format!(in rt.alloc(); "000001 {line}\nEND PHYSICAL\n")?;
    assert!(rt; out.as_slice() == wanted.as_str().as_bytes(), "{line}");
    Ok(())
}

/// Returns an image of one label: `front`, followed by copies of `filler`.
fn image_of(alloc: Global, front: &[u8], filler: u8) -> Result<Image, AllocError> {
    let mut image = Image::new(alloc);
    image.label_of(front, filler)?;
    Ok(image)
}

/// Fails unless a label that begins with `front` and is filled with `filler` has the line `line`.
fn reads_as<H: Abort + AllocGlobal>(
    rt: &H,
    front: &[u8],
    filler: u8,
    line: &str,
) -> Result<(), Fail> {
    let image = image_of(rt.alloc(), front, filler)?;
    check(rt, &image, line)
}

/// Labels as text padded with spaces, and their lines.
const KINDS: &[(&str, &str)] = &[
    ("VOL1A.C 01", "VOL1 A.C 01"),
    (
        "HDR1PAYROLL          ABC00100020013000100 00000 00000 012345",
        "HDR1 PAYROLL           ABC001 0002 0013",
    ),
    (
        "EOF1PAYROLL          ABC00100020013000100 00000 00000 012345",
        "EOF1 PAYROLL           ABC001 0002 0013 012345",
    ),
    (
        "EOV1PAYROLL          ABC00100020013000100 00000 00000 012345",
        "EOV1 PAYROLL           ABC001 0002 0013 012345",
    ),
    (
        "HDR2F0040000080                                   07",
        "HDR2 F 00400 00080 07",
    ),
    ("EOF2D0204800000", "EOF2 D 02048 00000 00"),
    (
        "EOV2S0999900000                                   99",
        "EOV2 S 09999 00000 99",
    ),
];

#[test]
fn every_kind(rt: HostRuntime) -> Result<(), Fail> {
    for (text, line) in KINDS {
        reads_as(&rt, text.as_bytes(), b' ', line)?;
    }
    Ok(())
}

const NO_LABELS: &[&str] = &[
    "HDR1PAYROLL          ABC00100 1001300",
    "HDR1PAYROLL          ABC0010000001300",
    "HDR2U0080000080",
    "HDR2F0080000000",
    "UVL1ABC001",
    "HDR3",
    "vol1abc001",
];

#[test]
fn what_reads_as_no_label(rt: HostRuntime) -> Result<(), Fail> {
    for text in NO_LABELS {
        reads_as(&rt, text.as_bytes(), b' ', "BLOCK 00080")?;
    }
    let mut image = Image::new(rt.alloc());
    image.block(b"VOL1ABC001")?;
    check(&rt, &image, "BLOCK 00010")
}

#[test]
fn bytes_outside_the_printable_range(rt: HostRuntime) -> Result<(), Fail> {
    reads_as(&rt, b"VOL1\x1F\x20\x7E\x7F\x80\xFF", 0, "VOL1 ? ~???")
}

/// Positions that are reserved, or not checked, may contain anything.
#[test]
fn labels_of_another_producer(rt: HostRuntime) -> Result<(), Fail> {
    reads_as(&rt, b"VOL1DEC001", b'3', "VOL1 DEC001")?;
    let front = b"HDR2F0051200512MMMMMMMMMMMMMMMMMMMMMMMMMMMMMMMMMMM  ";
    reads_as(&rt, front, 0xFF, "HDR2 F 00512 00512 00")
}
