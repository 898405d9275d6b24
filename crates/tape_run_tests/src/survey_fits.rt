//! Tests of surveys of files whose blocks are in the format that HDR2 states, or are not.
use crate::image::{HDR1, HDR2, Image, VOL1};
use crate::survey::{survey, told};
use crate::volumes::{EOF_ONE, SPANNED};
use std::alloc::{AllocError, Global};
use std::process::Abort;
use std::test::Fail;
use tape_run::{Wording, find_files};

const HDR2_D: &str = "HDR2D0002000016                                   00";

const HDR2_U: &str = "HDR2U0000000000                                   04";

const HDR2_V: &str = "HDR2V0000000000                                   00";

/// HDR2 of format F, with records of five characters, and with a buffer offset of two.
const FIVE: &str = "HDR2F0002000005                                   00";

const FIVE_BEHIND: &str = "HDR2F0002000005                                   02";

/// HDR2, blocks, and the number of the first block that is not in its format, if there is one.
const ROWS: &[(&str, &[&[u8]], Option<u32>)] = &[
    // Format F: whole records, and padding of circumflexes.
    (FIVE, &[b"first", b"firstsecon", b"first^^^^"], None),
    (FIVE_BEHIND, &[b"..first", b"..", b"..first^"], None),
    (FIVE, &[b"firs"], Some(0)),
    (FIVE, &[b"first", b"firsts", b"firs"], Some(1)),
    // The padding may begin in the last record.
    (FIVE, &[b"first        "], Some(0)),
    (FIVE, &[b"first", b"first\0\0\0\0\0\0"], Some(1)),
    (FIVE_BEHIND, &[b"first"], Some(0)),
    (FIVE_BEHIND, &[b"."], Some(0)),
    // Format D: counts that are met exactly, and padding.
    (HDR2_D, &[b"0005x", b"0005x0004^^^"], None),
    (HDR2_D, &[b"x"], Some(0)),
    (HDR2_D, &[b"0005x", b"0007xy"], Some(1)),
    (HDR2_D, &[b"0005x", b"0005x", b"0005x?"], Some(2)),
    (HDR2_D, &[b"\x00\x09\x00\x00\x00\x05\x00\x00x"], Some(0)),
    // Format S: segments in order, and the last record is complete.
    (SPANNED, &[b"000061", b"10006x", b"20006y", b"30006z"], None),
    (SPANNED, &[b"10006x", b"30006z00005^^"], None),
    (SPANNED, &[b"30006z"], Some(0)),
    (SPANNED, &[b"10006x", b"00006z"], Some(1)),
    (SPANNED, &[b"00006x", b"10006x"], Some(1)),
    (SPANNED, &[b"40006x"], Some(0)),
    // Format V: a block descriptor word, and segments.
    (HDR2_V, &[b"\x00\x09\x00\x00\x00\x05\x00\x00x"], None),
    (
        HDR2_V,
        &[
            b"\x00\x09\x00\x00\x00\x05\x01\x00x",
            b"\x00\x09\x00\x00\x00\x05\x02\x00x",
        ],
        None,
    ),
    (HDR2_V, &[b"\x00\x09\x00\x00\x00\x05\x01\x00x"], Some(0)),
    (HDR2_V, &[b"\x00\x09\x00\x00\x00\x06\x00\x00x"], Some(0)),
    (HDR2_V, &[b"0005x"], Some(0)),
    // Format U: any block that has its buffer offset.
    (HDR2_U, &[b"....", b"....?", b"0005x"], None),
    (HDR2_U, &[b"....", b"..."], Some(1)),
];

/// What the line of a file says about its padding.
const NULS: &str = ", padded with NULs";

const SPACES: &str = ", padded with spaces";

const CIRCUMFLEXES: &str = ", the last records may be padding (^)";

/// HDR2, blocks in its format, and what the line of the file says about padding.
const PADDED: &[(&str, &[&[u8]], &str)] = &[
    // NULs or spaces after the last record of a block: the first of them count.
    (FIVE, &[b"first^^^^", b"first\0\0\0", b"first    "], NULS),
    (FIVE, &[b"first ", b"first\0", b"first^^^^^"], SPACES),
    (FIVE_BEHIND, &[b"..first\0", b"..first"], NULS),
    (HDR2_D, &[b"0005x", b"0006xy\0\0\0", b"0005x     "], NULS),
    (HDR2_D, &[b"0005x     "], SPACES),
    // Records that end with them have no padding.
    (FIVE, &[b"firs\0", b"firs "], ""),
    (HDR2_D, &[b"0006x ", b"0006x\0"], ""),
    // The last record has only circumflexes.
    (FIVE, &[b"first^^^^^"], CIRCUMFLEXES),
    (FIVE, &[b"first", b"first^^^^^^^^"], CIRCUMFLEXES),
    (FIVE_BEHIND, &[b"..^^^^^"], CIRCUMFLEXES),
    // Not the last record, less than a record, and another format.
    (FIVE, &[b"first^^^^^", b"first"], ""),
    (FIVE, &[b"first^^^^"], ""),
    (FIVE_BEHIND, &[b"..first", b"^^"], ""),
    (HDR2_D, &[b"0009^^^^^"], ""),
];

/// Returns a volume of one section with these labels and blocks, fewer than ten.
fn volume(
    alloc: Global,
    labels: &[&str],
    blocks: &[&[u8]],
    trailer: &str,
) -> Result<Image, AllocError> {
    let mut image = Image::new(alloc);
    image.headers(labels)?;
    for block in blocks {
        image.block(block)?;
    }
    let count = blocks.len();
    let trailer = format!(in alloc; "{trailer}00000{count}")?;
    image.trailers(&[trailer.as_str()])?;
    image.end()?;
    Ok(image)
}

/// The trailer labels of the example file, without their block counts.
const EOF1: &str = "EOF1PAYROLL          ABC00100010001000100 00000 00000 ";

const EOV1: &str = "EOV1PAYROLL          ABC00100010001000100 00000 00000 ";

const EOF1_LATER: &str = "EOF1PAYROLL          ABC00100020001000100 00000 00000 ";

/// The labels of the second section.
const LATER_VOL1: &str =
    "VOL1ABC002                                                                     4";

const LATER: &str = "HDR1PAYROLL          ABC00100020001000100 00000 00000 000000";

/// The blocks of the second section, where the first one ends in a record, and the section that is
/// not readable, if there is one.
const CONTINUED: &[(&[&[u8]], Option<u16>)] = &[
    (&[b"20006y", b"30006z"], None),
    (&[b"^^", b"30006z00006a"], None),
    (&[b"30006z", b"30006z"], Some(2)),
    (&[b"30006z", b"10006z"], Some(2)),
    (&[b"?"], Some(2)),
    (&[b"^^?"], Some(2)),
];

/// Fails unless the images have one file, and this is its first section that is not readable.
fn lacks<H: Abort + AllocGlobal>(
    rt: &H,
    images: &[Option<&[u8]>],
    sect: Option<u16>,
) -> Result<(), Fail> {
    let mut shelf = Vec::from_slice(rt.alloc(), images)?;
    let met = find_files(rt.alloc(), &mut shelf)?;
    assert!(rt; met.files.as_slice().len() == 1);
    for file in met.files.as_slice() {
        assert!(rt; file.lacks == sect && file.wide);
    }
    Ok(())
}

/// Returns the word about the format in the line of a file.
fn word_of(label: &str) -> &'static str {
    match label.as_bytes() {
        [_, _, _, _, b'U', ..] => ", U",
        [_, _, _, _, b'V', ..] => ", V",
        _ => "",
    }
}

/// Returns the survey of one image with one file; `padding` says how it is padded.
fn lines_of(
    alloc: Global,
    label: &str,
    misfit: Option<u32>,
    padding: &str,
) -> Result<String, AllocError> {
    let (first, state, number, word, last) = match misfit {
        None => (
            String::new(alloc),
            "1 complete",
            1,
            "complete",
            "All files are complete, and every image was read to its end.\n",
        ),
        Some(block) => {
            let front = "'tape salvage --form blocks' its blocks\n  ABC001 file 1 PAYROLL";
            let text = format!(in alloc; "section 1, block {block} is not as HDR2 states")?;
            (
                format!(in alloc;
                    "Unsupported: 'tape list' shows it, {front}: {text} (one.tap)\n\n"
                )?,
                "0 complete, 1 not readable",
                0,
                "not readable",
                "",
            )
        }
    };
    let counts = format!(in alloc; "{first}1 image: 1 ok\n1 set, 1 file: {state}\n{last}")?;
    let image = "one.tap                   ok           volume ABC001, 1 section";
    let set = format!(in alloc; "Set ABC001: {number} of 1 files complete\n  Volumes: ABC001")?;
    let file = format!(in alloc;
        "   1 PAYROLL                        {word}{}{padding}",
        word_of(label)
    )?;
    format!(in alloc; "{counts}\n{image}\n{set}\n{file}\n")
}

/// A file is complete only if each block is in the format of its HDR2.
#[test]
fn blocks_in_the_format_of_hdr2(rt: HostRuntime) -> Result<(), Fail> {
    let alloc = rt.alloc();
    for (label, blocks, misfit) in ROWS {
        let image = volume(alloc, &[VOL1, HDR1, *label], *blocks, EOF1)?;
        let images = [Some(image.bytes.as_slice())];
        let lines = lines_of(alloc, *label, *misfit, "")?;
        survey(&rt, &images, &["one.tap"], misfit.is_none(), &lines)?;
        lacks(&rt, &images, misfit.map(|_| 1))?;
    }
    Ok(())
}

/// The line of a file says whether it is padded, or may be.
#[test]
fn padding_in_the_line_of_a_file(rt: HostRuntime) -> Result<(), Fail> {
    let alloc = rt.alloc();
    for (label, blocks, padding) in PADDED {
        let image = volume(alloc, &[VOL1, HDR1, *label], *blocks, EOF1)?;
        let lines = lines_of(alloc, *label, None, *padding)?;
        let images = [Some(image.bytes.as_slice())];
        survey(&rt, &images, &["one.tap"], true, &lines)?;
    }
    Ok(())
}

/// A record may continue in the next section, which begins in it, or with blocks without records.
/// If a block of the second section is not in its format, that section is not readable.
#[test]
fn records_over_two_sections(rt: HostRuntime) -> Result<(), Fail> {
    let alloc = rt.alloc();
    let first = volume(alloc, &[VOL1, HDR1, SPANNED], &[b"00006x", b"10006x"], EOV1)?;
    for (blocks, sect) in CONTINUED {
        let second = volume(alloc, &[LATER_VOL1, LATER, SPANNED], *blocks, EOF1_LATER)?;
        let [first, second] = [&first, &second].map(|image| Some(image.bytes.as_slice()));
        lacks(&rt, &[first, second], *sect)?;
        lacks(&rt, &[second, first], *sect)?;
    }
    Ok(())
}

/// Only complete copies are judged: a block that is not in the format is no finding on a damaged
/// copy.
#[test]
fn damaged_copies_are_not_judged(rt: HostRuntime) -> Result<(), Fail> {
    let whole = volume(rt.alloc(), &[VOL1, HDR1, HDR2_D], &[b"0005x"], EOF1)?;
    let mut damaged = Image::new(rt.alloc());
    damaged.headers(&[VOL1, HDR1, HDR2_D])?;
    damaged.block(b"x")?;
    damaged.bad(b"x")?;
    damaged.trailers(&["EOF1PAYROLL          ABC00100010001000100 00000 00000 000002"])?;
    damaged.end()?;
    let [whole, damaged] = [&whole, &damaged].map(|image| Some(image.bytes.as_slice()));
    lacks(&rt, &[damaged, whole], None)?;
    lacks(&rt, &[whole, damaged], None)
}

/// The rows about a file with a block that is not in its format.
const ROWS_OF_ONE: &str =
    "IMAGE\tone.tap\tWHOLE\tABC001\tABC001\t\t9\t1\t0\tMARKED\t\tvolume ABC001, \
         1 section
SECTION\tABC001\t1\t1\tABC001\t1\tGOOD\tEOF
FILE\tABC001\t1\tPAYROLL\t\tFORMAT\t1\t\t\t\tF\t800\t80
";

/// Rows have the state FORMAT.
#[test]
fn rows_of_a_file_that_is_not_readable(rt: HostRuntime) -> Result<(), Fail> {
    let mut image = Image::new(rt.alloc());
    image.headers(&[VOL1, HDR1, HDR2])?;
    image.block(b"x")?;
    image.trailers(&[EOF_ONE])?;
    image.end()?;
    let images = [Some(image.bytes.as_slice())];
    told(
        &rt,
        &images,
        &["one.tap"],
        Wording::Rows,
        false,
        ROWS_OF_ONE,
    )
}

/// The rows about a file of which a block is padded with NULs.
const ROWS_OF_PADDED: &str =
    "IMAGE\tone.tap\tWHOLE\tABC001\tABC001\t\t9\t1\t0\tMARKED\t\tvolume ABC001, \
         1 section
SECTION\tABC001\t1\t1\tABC001\t1\tGOOD\tEOF
FILE\tABC001\t1\tPAYROLL\t\tCOMPLETE\t\t\t\t\tF\t20\t5
PADDED\tABC001\t1\tNUL
";

/// A padded file has its own row.
#[test]
fn rows_of_a_padded_file(rt: HostRuntime) -> Result<(), Fail> {
    let image = volume(rt.alloc(), &[VOL1, HDR1, FIVE], &[b"first\0"], EOF1)?;
    let images = [Some(image.bytes.as_slice())];
    told(
        &rt,
        &images,
        &["one.tap"],
        Wording::Rows,
        true,
        ROWS_OF_PADDED,
    )
}

/// The rows about the same file on an image with an unreadable block.
const ROWS_OF_DAMAGED: &str = "IMAGE\tone.tap\tPARTIAL\tABC001\tABC001\t\t10\t1\t1\tMARKED\t\t\
         volume ABC001, 1 section; 1 unreadable block; section 1 of file 1 has unreadable blocks, \
         blocks found: 2
SECTION\tABC001\t1\t1\tABC001\t2\tBAD\tEOF
FILE\tABC001\t1\tPAYROLL\t\tBAD\t1\tABC001\t\t1:BAD;\tF\t20\t5
PADDED\tABC001\t1\tNUL
";

/// The padding of a damaged copy counts, since other copies may complete it.
#[test]
fn rows_of_a_damaged_padded_file(rt: HostRuntime) -> Result<(), Fail> {
    let mut image = Image::new(rt.alloc());
    image.headers(&[VOL1, HDR1, FIVE])?;
    image.block(b"first\0")?;
    image.bad(b"first\0")?;
    image.trailers(&["EOF1PAYROLL          ABC00100010001000100 00000 00000 000002"])?;
    image.end()?;
    let images = [Some(image.bytes.as_slice())];
    told(
        &rt,
        &images,
        &["one.tap"],
        Wording::Rows,
        false,
        ROWS_OF_DAMAGED,
    )
}
