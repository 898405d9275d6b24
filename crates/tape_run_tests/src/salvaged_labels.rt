//! Tests of `salvage` on sections whose labels contradict each other, and on images that stop.
use crate::image::{Image, VOL1};
use crate::salvaged::{Both, salvages};
use crate::volumes::cut;
use std::alloc::{AllocError, Global};
use std::test::Fail;

/// A section: HDR1, HDR2, a block and whether it is readable, and the trailer label.
type Section = (
    &'static str,
    &'static str,
    &'static [u8],
    bool,
    &'static str,
);

/// The sections on two images; whether the file is complete, the report, and the number of bytes
/// written.
type Row = (
    &'static [Section],
    &'static [Section],
    bool,
    &'static str,
    usize,
);

/// HDR2 of format F, with records of five and of six characters.
const FIVE: &str = "HDR2F0002000005                                   00";

const SIX: &str = "HDR2F0002000006                                   00";

/// HDR2 of format F, with records of four characters.
const FOUR: &str = "HDR2F0002000004                                   00";

/// The first section of a file.
const FIRST: Section = (
    "HDR1PAYROLL          ABC00100010001000100 85010 00000 000000",
    FIVE,
    b"aaaaa",
    true,
    "EOV1PAYROLL          ABC00100010001000100 85010 00000 000001",
);

/// The labels of its second section, which was created a day later.
const HEAD: &str = "HDR1PAYROLL          ABC00100020001000100 85011 00000 000000";

const TRAILER: &str = "EOF1PAYROLL          ABC00100020001000100 85011 00000 000001";

const SECOND: Section = (HEAD, FIVE, b"bbbbb", true, TRAILER);

/// The labels of a file of one section.
const ONE: &str = "HDR1PAYROLL          ABC00100010001000100 85010 00000 000000";

const END: &str = "EOF1PAYROLL          ABC00100010001000100 85010 00000 000001";

/// A block of four records of five characters, or of five of four.
const TWENTY: &[u8] = b"aaaaabbbbbcccccddddd";

const ROWS: &[Row] = &[
    (
        &[FIRST],
        &[SECOND],
        true,
        "SECTION 1 1 1\nSECTION 2 2 1\nCOMPLETE 2\n",
        12,
    ),
    // The second section is one of another file.
    (
        &[FIRST],
        &[(
            "HDR1STOCK            ABC00100020001000100 85011 00000 000000",
            FIVE,
            b"bbbbb",
            true,
            "EOF1STOCK            ABC00100020001000100 85011 00000 000001",
        )],
        false,
        "LABELS DIFFER 2 2 1\nSECTION 1 1 1\nSECTION 2 2 1\nSALVAGED 2\n",
        12,
    ),
    // Its records have another length.
    (
        &[FIRST],
        &[(HEAD, SIX, b"bbbbbb", true, TRAILER)],
        false,
        "LABELS DIFFER 2 2 1\nSECTION 1 1 1\nSECTION 2 2 1\nSALVAGED 2\n",
        13,
    ),
    // The second image has the first section too, created a week later: it is of another set.
    (
        &[FIRST],
        &[
            (
                "HDR1PAYROLL          ABC00100010001000100 85017 00000 000000",
                FIVE,
                b"ccccc",
                false,
                "EOV1PAYROLL          ABC00100010001000100 85017 00000 000001",
            ),
            SECOND,
        ],
        false,
        "CONFLICT 1 1 2\nSECTION 1 1 1\nSECTION 2 2 1\nSALVAGED 2\n",
        12,
    ),
    // Copies of one section with the same labels; only one of them is readable.
    (
        &[(HEAD, FIVE, b"ccccc", false, TRAILER)],
        &[FIRST, SECOND],
        true,
        "SECTION 1 2 1\nSECTION 2 2 1\nCOMPLETE 2\n",
        12,
    ),
    // Copies of the only section of a file, with the same data. Their HDR2 record other lengths.
    (
        &[(ONE, FIVE, TWENTY, true, END)],
        &[(ONE, FOUR, TWENTY, true, END)],
        false,
        "CONFLICT 1 1 2\nSECTION 1 1 1\nSALVAGED 4\n",
        24,
    ),
    (
        &[(ONE, FOUR, TWENTY, true, END)],
        &[(ONE, FIVE, TWENTY, true, END)],
        false,
        "CONFLICT 1 1 2\nSECTION 1 1 1\nSALVAGED 5\n",
        25,
    ),
    // The only sections of two files.
    (
        &[(ONE, FIVE, b"ccccc", false, END)],
        &[(
            "HDR1STOCK            ABC00100010001000100 85017 00000 000000",
            FIVE,
            b"bbbbb",
            true,
            "EOF1STOCK            ABC00100010001000100 85017 00000 000001",
        )],
        false,
        "CONFLICT 1 2 1\nSECTION 1 2 1\nSALVAGED 1\n",
        6,
    ),
    // The only section of a file, recorded again a week later, and in another generation.
    (
        &[(ONE, FIVE, b"ccccc", false, END)],
        &[(
            "HDR1PAYROLL          ABC00100010001000100 85017 00000 000000",
            FIVE,
            b"bbbbb",
            true,
            "EOF1PAYROLL          ABC00100010001000100 85017 00000 000001",
        )],
        false,
        "CONFLICT 1 2 1\nSECTION 1 2 1\nSALVAGED 1\n",
        6,
    ),
    (
        &[(ONE, FIVE, b"ccccc", false, END)],
        &[(
            "HDR1PAYROLL          ABC00100010001000200 85010 00000 000000",
            FIVE,
            b"bbbbb",
            true,
            "EOF1PAYROLL          ABC00100010001000200 85010 00000 000001",
        )],
        false,
        "CONFLICT 1 2 1\nSECTION 1 2 1\nSALVAGED 1\n",
        6,
    ),
    // The file ends with one copy of its only section, and continues after the other.
    (
        &[(ONE, FIVE, b"aaaaa", true, END)],
        &[FIRST],
        false,
        "CONFLICT 1 1 2\nSECTION 1 1 1\nSALVAGED 1\n",
        6,
    ),
    (
        &[FIRST],
        &[(ONE, FIVE, b"aaaaa", true, END)],
        false,
        "CONFLICT 1 1 2\nSECTION 1 1 1\nGAP 2 - - 1\nSALVAGED 1\n",
        6,
    ),
    // The labels agree; one of the copies is not readable.
    (
        &[(ONE, FIVE, b"ccccc", false, END)],
        &[(ONE, FIVE, b"bbbbb", true, END)],
        true,
        "SECTION 1 2 1\nCOMPLETE 1\n",
        6,
    ),
    // No image has the first section.
    (
        &[SECOND],
        &[SECOND],
        false,
        "GAP 1 - - 0\nSECTION 2 1 1\nSALVAGED 1\n",
        6,
    ),
];

/// Returns an image of a volume with these sections.
fn volume(alloc: Global, sections: &[Section]) -> Result<Image, AllocError> {
    let mut image = Image::new(alloc);
    image.label(VOL1)?;
    for (head, form, block, good, trailer) in sections {
        image.headers(&[head, form])?;
        if *good {
            image.block(block)?;
        } else {
            image.bad(block)?;
        }
        image.trailers(&[trailer])?;
    }
    image.end()?;
    Ok(image)
}

/// Sections of two files, or of two sets, are reported, and are not called complete.
#[test]
fn labels_that_differ(rt: HostRuntime) -> Result<(), Fail> {
    let alloc = rt.alloc();
    for (number, (one, other, complete, lines, length)) in ROWS.iter().enumerate() {
        let (one, other) = (volume(alloc, one)?, volume(alloc, other)?);
        let mut shelf = Both {
            first: one.bytes.as_slice(),
            second: other.bytes.as_slice(),
        };
        let is_so = salvages(alloc, &mut shelf, *complete, lines, *length)?;
        assert!(rt; is_so, "row {number}");
    }
    Ok(())
}

/// If the mark before a trailer label is lost, the label is not recovered as a block.
#[test]
fn trailer_in_place_of_data(rt: HostRuntime) -> Result<(), Fail> {
    let alloc = rt.alloc();
    let mut image = Image::new(alloc);
    image.headers(&[VOL1, HEAD, FIVE])?;
    image.block(b"bbbbb")?;
    image.label(TRAILER)?;
    image.mark()?;
    image.end()?;
    let first = volume(alloc, &[FIRST])?;
    let mut shelf = Both {
        first: first.bytes.as_slice(),
        second: image.bytes.as_slice(),
    };
    let lines = "SECTION 1 1 1\nSECTION 2 2 2\nGAP 2 1 - 2\nUNSURE 2 1 1\nSALVAGED 2\n";
    assert!(rt; salvages(alloc, &mut shelf, false, lines, 12)?);
    Ok(())
}

/// Each image that is not read to its end is reported: one is truncated, and the reader of the
/// other fails after its bytes.
#[test]
fn images_that_stop(rt: HostRuntime) -> Result<(), Fail> {
    let alloc = rt.alloc();
    let whole = cut(alloc, 2484)?;
    let cut_off = cut(alloc, 2292)?;
    let mut shelf = Both {
        first: cut_off.bytes.as_slice(),
        second: whole.bytes.as_slice(),
    };
    let lines = "IMAGE 1 FAULT 5 2292\nSECTION 1 2 3\nCOMPLETE 25\n";
    assert!(rt; salvages(alloc, &mut shelf, true, lines, 2025)?);
    Ok(())
}
