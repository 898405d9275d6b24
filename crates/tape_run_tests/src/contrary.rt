//! Tests of `salvage` on copies with unreadable labels or tape marks, and on copies that contradict
//! each other.
use crate::image::{EOF_THREE, HDR1, Image, VOL1};
use crate::joined::joins;
use std::alloc::{AllocError, Global};
use std::test::Fail;

/// HDR2 and EOF2 of format F, with records of five and of four characters.
const FIVE: &str = "HDR2F0002000005                                   00";

const END_FIVE: &str = "EOF2F0002000005                                   00";

const FOUR: &str = "HDR2F0002000004                                   00";

const END_FOUR: &str = "EOF2F0002000004                                   00";

/// The trailer labels of one and of two blocks.
const EOF_ONE: &str = "EOF1PAYROLL          ABC00100010001000100 00000 00000 000001";

const EOF_TWO: &str = "EOF1PAYROLL          ABC00100010001000100 00000 00000 000002";

/// The trailer label of file 2, with three blocks.
const EOF_OTHER: &str = "EOF1PAYROLL          ABC00100010002000100 00000 00000 000003";

/// The header label of file 2, and a label of a user.
const HDR_OTHER: &str = "HDR1PAYROLL          ABC00100010002000100 00000 00000 000000";

const UTL1: &str = "UTL1 A LABEL THAT ANOTHER SYSTEM WROTE FOR ITSELF";

/// The items of an image between VOL1 and its last mark: `|` is a tape mark, `?` an unreadable
/// item, a longer text a block or a label.
type Items = &'static [&'static str];

/// Three blocks, of which block 1 or block 2 is unreadable.
const NO_1: Items = &[
    HDR1, FIVE, "|", "aaaaa", "?", "ccccc", "|", EOF_THREE, END_FIVE, "|",
];

const NO_2: Items = &[
    HDR1, FIVE, "|", "aaaaa", "bbbbb", "?", "|", EOF_THREE, END_FIVE, "|",
];

/// The mark before the data and EOF1 are unreadable: EOF2 is the second item after a mark.
const NO_MARK: Items = &[
    HDR1, FIVE, "?", "aaaaa", "bbbbb", "ccccc", "|", "?", END_FIVE, "|",
];

/// The mark before the data is lost, and EOF1 unreadable: EOF2 is the second item after a mark.
const LOST_MARK: Items = &[
    HDR1, FIVE, "aaaaa", "bbbbb", "ccccc", "|", "?", END_FIVE, "|",
];

/// HDR2 is unreadable, and the image truncated after two blocks, or after an unreadable one.
const CUT_NO_HDR2: Items = &[HDR1, "?", "|", "aaaaa", "bbbbb"];

const CUT_NO_FIRST: Items = &[HDR1, "?", "|", "?", "bbbbb"];

/// The image is truncated after block 0, which is unreadable.
const CUT_AT_1: Items = &[HDR1, FIVE, "|", "?"];

/// HDR2 and block 2 are unreadable.
const NO_HDR2: Items = &[
    HDR1, "?", "|", "aaaaa", "bbbbb", "?", "|", EOF_THREE, END_FIVE, "|",
];

/// Two blocks: all is readable, all but HDR1, all but HDR2, and all but block 1.
const TWO: Items = &[
    HDR1, FIVE, "|", "aaaaa", "bbbbb", "|", EOF_TWO, END_FIVE, "|",
];

const TWO_NO_HDR1: Items = &[
    "?", FIVE, "|", "aaaaa", "bbbbb", "|", EOF_TWO, END_FIVE, "|",
];

const TWO_NO_HDR2: Items = &[
    HDR1, "?", "|", "aaaaa", "bbbbb", "|", EOF_TWO, END_FIVE, "|",
];

const TWO_NO_1: Items = &[HDR1, FIVE, "|", "aaaaa", "?", "|", EOF_TWO, END_FIVE, "|"];

/// Three blocks before the trailer label of another file, and one before an unreadable label.
const OTHER_FILE: Items = &[
    HDR1, FIVE, "|", "aaaaa", "xxxxx", "ccccc", "|", EOF_OTHER, END_FIVE, "|",
];

/// The same before the header label of that file, and before a user label.
const NEXT_FILE: Items = &[
    HDR1, FIVE, "|", "aaaaa", "xxxxx", "ccccc", "|", HDR_OTHER, FIVE, "|",
];

const USER_LABEL: Items = &[HDR1, FIVE, "|", "aaaaa", "xxxxx", "ccccc", "|", UTL1, "|"];

const ENDS_AT_1: Items = &[HDR1, FIVE, "|", "aaaaa", "|", "?", END_FIVE, "|"];

/// The same labels before and after other data, without HDR2.
const OTHER_NO_HDR2: Items = &[
    HDR1, "?", "|", "xxxxx", "bbbbb", "|", EOF_TWO, END_FIVE, "|",
];

/// A block, without a label that records its form; and labels of two forms, without the block.
const NO_FORM: Items = &[
    HDR1,
    "?",
    "|",
    "aaaaabbbbbcccccddddd",
    "|",
    EOF_ONE,
    "?",
    "|",
];

const OF_FIVE: Items = &[HDR1, FIVE, "|", "?", "|", EOF_ONE, END_FIVE, "|"];

const OF_FOUR: Items = &[HDR1, FOUR, "|", "?", "|", EOF_ONE, END_FOUR, "|"];

/// Images of one volume; whether nothing is missing, the report, and the number of bytes written.
const ROWS: &[(&[Items], bool, &str, usize)] = &[
    // No item after an unreadable mark is certain to be a block: none completes another copy.
    (
        &[NO_1, NO_MARK],
        false,
        "SECTION 1 1 3\nGAP 1 1 1 1\nSALVAGED 2\n",
        12,
    ),
    (
        &[NO_MARK, NO_1],
        false,
        "SECTION 1 2 3\nGAP 1 1 1 1\nSALVAGED 2\n",
        12,
    ),
    // Nor does it contradict one: its EOF2 is not block 1.
    (
        &[NO_1, NO_2, NO_MARK],
        true,
        "FILLED 1 2 1 1\nSECTION 1 1 3\nCOMPLETE 3\n",
        18,
    ),
    // Nor is one after a lost mark.
    (
        &[NO_1, LOST_MARK],
        false,
        "SECTION 1 1 3\nGAP 1 1 1 1\nSALVAGED 2\n",
        12,
    ),
    (
        &[LOST_MARK, NO_1],
        false,
        "SECTION 1 2 3\nGAP 1 1 1 1\nSALVAGED 2\n",
        12,
    ),
    // Data follow the next mark: the unreadable item was none. If they begin with an unreadable
    // item, this is not certain.
    (
        &[CUT_NO_HDR2, NO_1],
        true,
        "FILLED 1 1 1 1\nSECTION 1 2 3\nCOMPLETE 3\n",
        18,
    ),
    (
        &[CUT_NO_FIRST, NO_1],
        false,
        "SECTION 1 2 3\nGAP 1 1 1 1\nSALVAGED 2\n",
        12,
    ),
    // Such a copy has block 0 of a shorter one, but is not completed itself.
    (
        &[CUT_NO_HDR2, CUT_AT_1],
        false,
        "FILLED 1 1 0 0\nSECTION 1 2 1\nGAP 1 1 - 1\nSALVAGED 1\n",
        6,
    ),
    (
        &[CUT_AT_1, CUT_NO_HDR2],
        false,
        "FILLED 1 2 0 0\nSECTION 1 1 1\nGAP 1 1 - 1\nSALVAGED 1\n",
        6,
    ),
    // A trailer label that counts the items makes them certain.
    (
        &[NO_1, NO_HDR2],
        true,
        "FILLED 1 2 1 1\nSECTION 1 1 3\nCOMPLETE 3\n",
        18,
    ),
    // All blocks of both are readable, and differ.
    (
        &[TWO_NO_HDR2, OTHER_NO_HDR2],
        false,
        "CONFLICT 1 1 2\nSECTION 1 1 2\nSALVAGED 2\n",
        12,
    ),
    (
        &[OTHER_NO_HDR2, TWO_NO_HDR2],
        false,
        "CONFLICT 1 1 2\nSECTION 1 1 2\nSALVAGED 2\n",
        12,
    ),
    // They do not differ: HDR2, or HDR1, is unreadable on one.
    (&[TWO, TWO_NO_HDR2], true, "SECTION 1 1 2\nCOMPLETE 2\n", 12),
    (&[TWO, TWO_NO_HDR1], true, "SECTION 1 1 2\nCOMPLETE 2\n", 12),
    (&[TWO_NO_HDR1, TWO], true, "SECTION 1 2 2\nCOMPLETE 2\n", 12),
    // The trailer labels count two and three blocks. One line says so.
    (
        &[TWO, NO_1],
        false,
        "CONFLICT 1 1 2\nSECTION 1 1 2\nSALVAGED 2\n",
        12,
    ),
    (
        &[TWO_NO_1, NO_1],
        false,
        "CONFLICT 1 2 1\nSECTION 1 2 3\nGAP 1 1 1 1\nSALVAGED 2\n",
        12,
    ),
    // The blocks before another file's trailer label complete no other copy, even if they are as
    // many: they may be blocks of that file.
    (
        &[NO_1, OTHER_FILE],
        false,
        "CONFLICT 1 1 2\nSECTION 1 1 3\nGAP 1 1 1 1\nSALVAGED 2\n",
        12,
    ),
    (
        &[OTHER_FILE, NO_1],
        false,
        "CONFLICT 1 2 1\nSECTION 1 2 3\nGAP 1 1 1 1\nSALVAGED 2\n",
        12,
    ),
    // So do those before another block that is none of its trailer labels.
    (
        &[NO_1, NEXT_FILE],
        false,
        "CONFLICT 1 1 2\nSECTION 1 2 3\nGAP 1 3 - 3\nSALVAGED 3\n",
        18,
    ),
    (
        &[USER_LABEL, NO_1],
        false,
        "CONFLICT 1 2 1\nSECTION 1 1 3\nGAP 1 3 - 3\nSALVAGED 3\n",
        18,
    ),
    // A copy that ends before a block of another one lost some.
    (
        &[NO_1, ENDS_AT_1],
        false,
        "CONFLICT 1 1 2\nSECTION 1 1 3\nGAP 1 1 1 1\nSALVAGED 2\n",
        12,
    ),
    // The copy that is used records no form, and the others two: it is read in the first of these.
    (
        &[NO_FORM, OF_FIVE, OF_FOUR],
        false,
        "CONFLICT 1 1 3\nSECTION 1 1 1\nSALVAGED 4\n",
        24,
    ),
    (
        &[NO_FORM, OF_FOUR, OF_FIVE],
        false,
        "CONFLICT 1 1 3\nSECTION 1 1 1\nSALVAGED 5\n",
        25,
    ),
    (&[NO_FORM, OF_FIVE], true, "SECTION 1 1 1\nCOMPLETE 4\n", 24),
];

/// Returns an image with these items.
fn volume(alloc: Global, items: Items) -> Result<Image, AllocError> {
    let mut image = Image::new(alloc);
    image.label(VOL1)?;
    for item in items {
        match *item {
            "|" => image.mark()?,
            "?" => image.bad(b"?")?,
            label if label.len() > 40 => image.label(label)?,
            data => image.block(data.as_bytes())?,
        }
    }
    image.end()?;
    Ok(image)
}

/// Copies are compared, and complete each other, only where it is certain which block an item is.
#[test]
fn uncertain_items(rt: HostRuntime) -> Result<(), Fail> {
    for (number, (shelf, complete, lines, length)) in ROWS.iter().enumerate() {
        let mut images = Vec::new(rt.alloc());
        for items in *shelf {
            images.push(volume(rt.alloc(), *items)?)?;
        }
        let is_so = joins(rt.alloc(), images.as_slice(), *complete, lines, *length)?;
        assert!(rt; is_so, "row {number}");
    }
    Ok(())
}
