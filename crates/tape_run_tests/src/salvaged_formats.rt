//! Tests of `salvage` on files that only the wider reading reads, and on blocks with a fault.
use crate::devices::Narrow;
use crate::image::{HDR1, Image, VOL1, set_id};
use crate::now::Name;
use crate::salvaged::Twice;
use crate::volumes::{EOF_ONE, SPANNED};
use std::alloc::{AllocError, Global};
use std::test::Fail;
use tape_blocks::Form;
use tape_run::{Content, SalvageTask, salvage_to};

/// The labels after HDR1, the data blocks, and the trailer labels of a section; whether nothing is
/// missing, the report after its first line, and the records, each followed by a line feed.
type Row = (
    &'static [&'static str],
    &'static [&'static [u8]],
    &'static [&'static str],
    bool,
    &'static str,
    &'static [u8],
);

const EOF_TWO: &str = "EOF1PAYROLL          ABC00100010001000100 00000 00000 000002";

const EOF_THREE: &str = "EOF1PAYROLL          ABC00100010001000100 00000 00000 000003";

/// HDR2 of format F, with records of five characters.
const FIVE: &str = "HDR2F0002000005                                   00";

/// HDR2 of format D, U and V, without lengths.
const COUNTED: &str = "HDR2D0000000000                                   00";

const UNDEFINED: &str = "HDR2U0000000000                                   00";

const VARIABLE: &str = "HDR2V0000000000                                   00";

/// Format U, and sections without HDR2.
const UNDEFINED_ROWS: &[Row] = &[
    (
        &[UNDEFINED],
        &[b"abc", b"defgh"],
        &[EOF_TWO],
        true,
        "COMPLETE 2\n",
        b"abc\ndefgh\n",
    ),
    // Blank lengths, and a blank offset.
    (
        &["HDR2U"],
        &[b"abc"],
        &[EOF_ONE],
        true,
        "COMPLETE 1\n",
        b"abc\n",
    ),
    // An offset of four characters, and a block of the offset alone.
    (
        &["HDR2U0000000000                                   04"],
        &[b"0000abc", b"0000"],
        &[EOF_TWO],
        true,
        "COMPLETE 1\n",
        b"abc\n",
    ),
    // No HDR2: HDR1 is followed by the tape mark, or by another header label.
    (
        &[],
        &[b"abc", b"d"],
        &[EOF_TWO],
        true,
        "COMPLETE 2\n",
        b"abc\nd\n",
    ),
    (
        &["HDR3"],
        &[b"abc"],
        &[EOF_ONE],
        true,
        "COMPLETE 1\n",
        b"abc\n",
    ),
    // No HDR2, but EOF2 records the form.
    (
        &[],
        &[b"0007abc"],
        &[
            EOF_ONE,
            "EOF2D0000000000                                   00",
        ],
        true,
        "COMPLETE 1\n",
        b"abc\n",
    ),
    // No HDR2, and the tape mark before the next file, which has one, is lost.
    (
        &[],
        &[b"0007abc"],
        &[
            EOF_ONE,
            "HDR1LEDGER           ABC00100010002000100 00000 00000 000000",
            "HDR2D0000000000                                   00",
        ],
        true,
        "COMPLETE 1\n",
        b"0007abc\n",
    ),
    // HDR2 is not supported: that is not the same as no HDR2.
    (
        &["HDR2X0000000000                                   00"],
        &[b"abc"],
        &[EOF_ONE],
        false,
        "NO FORM 1 0\nSALVAGED 0\n",
        b"",
    ),
];

/// Format V: whole records, a record in three blocks, and a length that is too small.
const VARIABLE_ROWS: &[Row] = &[
    (
        &[VARIABLE],
        &[b"\x00\x11\x00\x00\x00\x07\x00\x00abc\x00\x06\x00\x00de"],
        &[EOF_ONE],
        true,
        "COMPLETE 2\n",
        b"abc\nde\n",
    ),
    (
        &[VARIABLE],
        &[
            b"\x00\x0B\x00\x00\x00\x07\x01\x00abc",
            b"\x00\x09\x00\x00\x00\x05\x03\x00d",
            b"\x00\x0A\x00\x00\x00\x06\x02\x00ef",
        ],
        &[EOF_THREE],
        true,
        "COMPLETE 1\n",
        b"abcdef\n",
    ),
    (
        &[VARIABLE],
        &[b"\x00\x0F\x00\x00\x00\x07\x00\x00abc\x00\x03\x00\x00"],
        &[EOF_ONE],
        false,
        "REFUSED 1 0 3 11 1\nSALVAGED 1\n",
        b"abc\n",
    ),
];

/// Blocks that are padded with NULs or spaces, and blocks with a fault.
const FAULTY_ROWS: &[Row] = &[
    (
        &[COUNTED],
        &[b"0007abc\0\0\0", b"0005d   "],
        &[EOF_TWO],
        true,
        "COMPLETE 2\n",
        b"abc\nd\n",
    ),
    // A NUL among spaces is no padding: the record before it is recovered.
    (
        &[COUNTED],
        &[b"0007abc \0 "],
        &[EOF_ONE],
        false,
        "REFUSED 1 0 3 7 1\nSALVAGED 1\n",
        b"abc\n",
    ),
    (
        &[FIVE],
        &[b"aaaaabbbbb\0\0"],
        &[EOF_ONE],
        true,
        "COMPLETE 2\n",
        b"aaaaa\nbbbbb\n",
    ),
    // Two characters that are no padding follow the records.
    (
        &[FIVE],
        &[b"aaaaabbbbbXX", b"ccccc"],
        &[EOF_TWO],
        false,
        "REFUSED 1 0 2 10 2\nSALVAGED 3\n",
        b"aaaaa\nbbbbb\nccccc\n",
    ),
    // Where the padding begins is unknown: a last record of spaces alone is left out.
    (
        &[FIVE],
        &[b"aaaaab           "],
        &[EOF_ONE],
        false,
        "REFUSED 1 0 2 10 2\nSALVAGED 2\n",
        b"aaaaa\nb    \n",
    ),
    (
        &[FIVE],
        &[b"       "],
        &[EOF_ONE],
        false,
        "REFUSED 1 0 2 0 0\nSALVAGED 0\n",
        b"",
    ),
    // A record is unfinished at the fault.
    (
        &[SPANNED],
        &[b"10008abc00006d"],
        &[EOF_ONE],
        false,
        "TORN 1 0 0\nREFUSED 1 0 6 8 0\nSALVAGED 0\n",
        b"",
    ),
    // A record from the block before it ends before the fault.
    (
        &[SPANNED],
        &[b"10008abc", b"30006d9000"],
        &[EOF_TWO],
        false,
        "REFUSED 1 1 5 6 1\nSALVAGED 1\n",
        b"abcd\n",
    ),
];

/// Returns a volume of one section with the labels and blocks of a row.
fn volume(alloc: Global, row: &Row) -> Result<Image, AllocError> {
    let (labels, blocks, trailers, _, _, _) = row;
    let mut image = Image::new(alloc);
    image.label(VOL1)?;
    image.label(HDR1)?;
    image.headers(labels)?;
    for block in *blocks {
        image.block(block)?;
    }
    image.trailers(trailers)?;
    image.end()?;
    Ok(image)
}

/// Returns whether `salvage` of the volume of a row has the row's result, report and records.
fn is_salvaged(alloc: Global, row: &Row) -> Result<bool, Fail> {
    let image = volume(alloc, row)?;
    let (_, blocks, _, complete, lines, records) = row;
    let mut shelf = Twice {
        first: image.bytes.as_slice(),
        again: image.bytes.as_slice(),
        is_read: false,
    };
    let task = SalvageTask {
        set_id: set_id(),
        file: 1,
        content: Content::Records,
        form: Form::Lines,
    };
    let mut name = Name {
        is_free: true,
        there: None,
    };
    let mut report = Vec::new(alloc);
    let out = Narrow::new(alloc, 10000, true);
    let answer = salvage_to(alloc, &task, &mut shelf, out, &mut name, &mut report);
    let expected = if lines.starts_with("NO FORM") {
        format!(in alloc; "{lines}")?
    } else {
        format!(in alloc; "SECTION 1 1 {}\n{lines}", blocks.len())?
    };
    let is_written = match &name.there {
        Some(out) => out.taken.as_slice() == *records,
        None => false,
    };
    Ok(answer == Ok(*complete) && report.as_slice() == expected.as_bytes() && is_written)
}

/// In format U and in sections without HDR2 each block is one record.
#[test]
fn blocks_as_records(rt: HostRuntime) -> Result<(), Fail> {
    for (number, row) in UNDEFINED_ROWS.iter().enumerate() {
        assert!(rt; is_salvaged(rt.alloc(), row)?, "row {number}");
    }
    Ok(())
}

/// Records and segments of format V are recovered.
#[test]
fn words_before_records(rt: HostRuntime) -> Result<(), Fail> {
    for (number, row) in VARIABLE_ROWS.iter().enumerate() {
        assert!(rt; is_salvaged(rt.alloc(), row)?, "row {number}");
    }
    Ok(())
}

/// Padding is left out, and the records before a fault are recovered.
#[test]
fn records_before_faults(rt: HostRuntime) -> Result<(), Fail> {
    for (number, row) in FAULTY_ROWS.iter().enumerate() {
        assert!(rt; is_salvaged(rt.alloc(), row)?, "row {number}");
    }
    Ok(())
}
