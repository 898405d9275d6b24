//! Tests of `salvage` on sections that do not close: their trailer label is among the data, since a
//! tape mark is lost, or another section's trailer label follows them.
use crate::image::{HDR1, Image, VOL1};
use crate::joined::joins;
use std::alloc::{AllocError, Global};
use std::test::Fail;

/// HDR2 and EOF2 of format F, with records of five characters.
const FIVE: &str = "HDR2F0002000005                                   00";

const END_FIVE: &str = "EOF2F0002000005                                   00";

/// The trailer label of the section, without a block count, and without any number.
const NO_COUNT: &str = "EOF1PAYROLL          ABC00100010001000100 00000 00000";

const NO_NUMBERS: &str = "EOF1PAYROLL          ABC001        000100 00000 00000";

/// Zeros instead of the numbers, and a file identifier in the header that is not in the label.
const ZEROS: &str = "EOV1                 ABC00100000000000100 00000 00000      ";

/// The trailer label of file 2, with three blocks, and without a block count.
const OTHER: &str = "EOF1STOCK            ABC00100010002000100 00000 00000 000003";

const OTHER_NO_COUNT: &str = "EOF1STOCK            ABC00100010002000100 00000 00000";

/// The trailer label of section 2 of the file, with one block.
const SECOND: &str = "EOF1PAYROLL          ABC00100020001000100 00000 00000 000001";

/// The trailer label of the section in EBCDIC, without a block count. Spaces follow.
const EBCDIC: &[u8] =
    b"\xC5\xD6\xC6\xF1\xD7\xC1\xE8\xD9\xD6\xD3\xD3\x40\x40\x40\x40\x40\x40\x40\x40\
    \x40\x40\xC1\xC2\xC3\xF0\xF0\xF1\xF0\xF0\xF0\xF1\xF0\xF0\xF0\xF1";

/// The same in ASCII, followed by padding.
const PADDED: &[u8] =
    b"EOF1PAYROLL          ABC00100010001000100 00000 00000                           \
    @@@@@@@@@@@@@@@@";

/// The items of an image between VOL1 and its last mark: `|` is a tape mark, `?` an unreadable
/// item, `e` the trailer label in EBCDIC, `p` the one with padding, a longer text a block or a label.
type Items = &'static [&'static str];

/// Five blocks of a reel that was recorded over: file 2 has three blocks, so the last three may be
/// its own. The same with an unreadable block, and before a trailer label of another count.
const OVER: Items = &[
    HDR1, FIVE, "|", "aaaaa", "bbbbb", "ccccc", "ddddd", "eeeee", "|", OTHER, "|",
];

const OVER_NO_0: Items = &[
    HDR1, FIVE, "|", "?", "bbbbb", "ccccc", "ddddd", "eeeee", "|", OTHER, "|",
];

const OVER_NO_1: Items = &[
    HDR1, FIVE, "|", "aaaaa", "?", "ccccc", "ddddd", "eeeee", "|", OTHER, "|",
];

const OVER_NO_COUNT: Items = &[
    HDR1,
    FIVE,
    "|",
    "aaaaa",
    "bbbbb",
    "ccccc",
    "ddddd",
    "eeeee",
    "|",
    OTHER_NO_COUNT,
    "|",
];

/// Images of one volume; the report, and the number of bytes written.
const ROWS: &[(&[Items], &str, usize)] = &[
    // The mark after the data is lost.
    (
        &[&[HDR1, FIVE, "|", "aaaaa", NO_COUNT, END_FIVE, "|"]],
        "SECTION 1 1 3\nGAP 1 1 - 1\nUNSURE 1 1 2\nSALVAGED 1\n",
        6,
    ),
    (
        &[&[HDR1, FIVE, "|", "aaaaa", NO_NUMBERS, END_FIVE, "|"]],
        "SECTION 1 1 3\nGAP 1 1 - 1\nUNSURE 1 1 2\nSALVAGED 1\n",
        6,
    ),
    (
        &[&[HDR1, FIVE, "|", "aaaaa", ZEROS, "|"]],
        "SECTION 1 1 2\nGAP 1 1 - 1\nUNSURE 1 1 1\nSALVAGED 1\n",
        6,
    ),
    (
        &[&[HDR1, FIVE, "|", "aaaaa", "e", "|"]],
        "SECTION 1 1 2\nGAP 1 1 - 1\nUNSURE 1 1 1\nSALVAGED 1\n",
        6,
    ),
    (
        &[&[HDR1, FIVE, "|", "aaaaa", "p", "|"]],
        "SECTION 1 1 2\nGAP 1 1 - 1\nUNSURE 1 1 1\nSALVAGED 1\n",
        6,
    ),
    // The mark before them is lost.
    (
        &[&[HDR1, FIVE, "aaaaa", "|", NO_COUNT, END_FIVE, "|"]],
        "SECTION 1 1 2\nGAP 1 0 - 0\nUNSURE 1 0 1\nSALVAGED 0\n",
        0,
    ),
    // A block of another file's label is 16 records.
    (
        &[&[HDR1, FIVE, "|", "aaaaa", OTHER]],
        "SECTION 1 1 2\nGAP 1 2 - 17\nSALVAGED 17\n",
        102,
    ),
    // Its own label has no count, and could not be read, but it is no other section's.
    (
        &[&[HDR1, FIVE, "|", "aaaaa", "|", NO_COUNT, "|"]],
        "SECTION 1 1 1\nGAP 1 1 - 1\nSALVAGED 1\n",
        6,
    ),
    // Another section's label follows.
    (
        &[OVER],
        "SECTION 1 1 5\nGAP 1 2 - 2\nUNSURE 1 2 4\nSALVAGED 2\n",
        12,
    ),
    (
        &[OVER_NO_1],
        "SECTION 1 1 5\nGAP 1 1 - 1\nUNSURE 1 1 4\nSALVAGED 1\n",
        6,
    ),
    (
        &[OVER_NO_COUNT],
        "SECTION 1 1 5\nGAP 1 0 - 0\nUNSURE 1 0 4\nSALVAGED 0\n",
        0,
    ),
    (
        &[&[HDR1, FIVE, "|", "aaaaa", "bbbbb", "|", OTHER, "|"]],
        "SECTION 1 1 2\nGAP 1 0 - 0\nUNSURE 1 0 1\nSALVAGED 0\n",
        0,
    ),
    (
        &[&[HDR1, FIVE, "|", "aaaaa", "bbbbb", "|", SECOND, "|"]],
        "SECTION 1 1 2\nGAP 1 1 - 1\nUNSURE 1 1 1\nSALVAGED 1\n",
        6,
    ),
    // Two readings of such a reel agree, and complete each other.
    (
        &[OVER, OVER],
        "SECTION 1 1 5\nGAP 1 2 - 2\nUNSURE 1 2 4\nSALVAGED 2\n",
        12,
    ),
    (
        &[OVER_NO_0, OVER_NO_1],
        "FILLED 1 2 0 0\nSECTION 1 1 5\nGAP 1 2 - 2\nUNSURE 1 2 4\nSALVAGED 2\n",
        12,
    ),
    // The trailer labels after equal data differ.
    (
        &[OVER, OVER_NO_COUNT],
        "CONFLICT 1 1 2\nSECTION 1 1 5\nGAP 1 2 - 2\nUNSURE 1 2 4\nSALVAGED 2\n",
        12,
    ),
];

/// Returns an image with these items.
fn volume(alloc: Global, items: Items) -> Result<Image, AllocError> {
    let mut image = Image::new(alloc);
    image.label(VOL1)?;
    for item in items {
        match *item {
            "|" => image.mark()?,
            "?" => image.bad(b"?")?,
            "e" => image.label_of(EBCDIC, 0x40)?,
            "p" => image.block(PADDED)?,
            label if label.len() > 40 => image.label(label)?,
            data => image.block(data.as_bytes())?,
        }
    }
    image.end()?;
    Ok(image)
}

/// Items that may be labels or blocks of another file are not recovered, and are reported.
#[test]
fn ends_among_data(rt: HostRuntime) -> Result<(), Fail> {
    for (number, (shelf, lines, length)) in ROWS.iter().enumerate() {
        let mut images = Vec::new(rt.alloc());
        for items in *shelf {
            images.push(volume(rt.alloc(), *items)?)?;
        }
        let is_so = joins(rt.alloc(), images.as_slice(), false, lines, *length)?;
        assert!(rt; is_so, "row {number}");
    }
    Ok(())
}
