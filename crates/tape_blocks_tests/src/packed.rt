//! Tests of whole lists of records in blocks.

use crate::reading::packed_again;
use crate::worked::{copies, is_judged, pack_fault, packs, padded, shape};
use std::alloc::Global;
use std::test::*;
use tape_blocks::{PackFault, Shape};
use tape_label::Format;

#[test]
fn of_format_d(rt: HostRuntime) {
    let d = shape(Format::Counted, 18, 18, 0);
    let behind = shape(Format::Counted, 20, 18, 2);
    let full = padded(Format::Counted, 24, 18, 0);
    let rows: [(&str, Shape, &[&[u8]], &[&[u8]]); 5] = [
        ("two", d, &[b"AB", b""], &[b"0006AB0004^^^^^^^^"]),
        ("circumflexes", d, &[b"^^^^"], &[b"0008^^^^^^^^^^^^^^"]),
        ("offset", behind, &[b"AB", b""], &[b"  0006AB0004^^^^^^"]),
        ("in full", full, &[b"AB"], &[b"0006AB^^^^^^^^^^^^^^^^^^"]),
        ("none", full, &[], &[]),
    ];
    for (name, shape, records, blocks) in rows {
        assert!(rt; packs(rt.alloc(), shape, records, blocks), "{name}");
    }
}

#[test]
fn of_format_f(rt: HostRuntime) {
    let record = [b'R'; 80];
    let full = [b'R'; 800];
    let half = [b'R'; 400];
    let records: [&[u8]; 25] = [&record; 25];
    // No block is padded, and each contains only whole records.
    for block_len in [800, 850] {
        let f = shape(Format::Fixed, block_len, 80, 0);
        assert!(rt;
            packs(rt.alloc(), f, &records, &[&full, &full, &half]),
            "{block_len}"
        );
    }
}

/// A name, records, and the blocks of 18 bytes into which they are packed.
type Packed<'a> = (&'a str, &'a [&'a [u8]], &'a [&'a [u8]]);

const OF_FORMAT_S: &[Packed<'_>] = &[
    (
        "long",
        &[b"123456789012345678901234567890"],
        &[
            b"100181234567890123",
            b"200184567890123456",
            b"300097890^^^^^^^^^",
        ],
    ),
    ("empty", &[b""], &[b"00005^^^^^^^^^^^^^"]),
    // The record is whole, and the next record begins a new block.
    (
        "just fits",
        &[b"1234567890123", b"A"],
        &[b"000181234567890123", b"00006A^^^^^^^^^^^^"],
    ),
    (
        "just fits behind another",
        &[b"A", b"1234567"],
        &[b"00006A000121234567"],
    ),
    // Not even an empty record begins in the free space.
    (
        "5 free",
        &[b"12345678", b""],
        &[b"0001312345678^^^^^", b"00005^^^^^^^^^^^^^"],
    ),
    // A segment of one byte fits in the free space.
    (
        "6 free",
        &[b"1234567", b"AB"],
        &[b"00012123456710006A", b"30006B^^^^^^^^^^^^"],
    ),
];

#[test]
fn of_format_s(rt: HostRuntime) {
    let s = shape(Format::Spanned, 18, 0, 0);
    for (name, records, blocks) in OF_FORMAT_S {
        assert!(rt; packs(rt.alloc(), s, records, blocks), "{name}");
    }
}

#[test]
fn behind_an_offset(rt: HostRuntime) {
    let rows: [(u8, &[u8], &[&[u8]]); 2] = [
        (2, b"ABCDE", &[b"  00010ABCDE^^^^^^"]),
        (
            14,
            b"AB",
            &[b"              10006A", b"              30006B"],
        ),
    ];
    for (offset, record, blocks) in rows {
        let s = shape(Format::Spanned, 20, 0, offset);
        assert!(rt; packs(rt.alloc(), s, &[record], blocks), "{offset}");
    }
}

#[test]
fn refused(rt: HostRuntime) {
    let two: &[&[u8]] = &[b"1234567890", b"12345678901"];
    let rows: [(u32, u32, &[&[u8]], Option<PackFault>); 4] = [
        (18, 14, two, Some(PackFault::RecordLength)),
        (17, 14, two, Some(PackFault::ShapeRange)),
        (18, 15, two, None),
        (17, 14, &[], Some(PackFault::ShapeRange)),
    ];
    for (block_len, rec_len, records, wanted) in rows {
        let d = shape(Format::Counted, block_len, rec_len, 0);
        assert!(rt;
            pack_fault(rt.alloc(), d, records) == wanted,
            "{block_len} {rec_len}"
        );
    }
}

/// A format, a block length, a record length, an offset, and whether blocks of this shape can be
/// written: the offset is at most 99, and in format S at least six bytes follow it.
const SHAPES: &[(Format, u32, u32, u8, bool)] = &[
    (Format::Fixed, 17, 17, 0, false),
    (Format::Fixed, 80, 17, 0, false),
    (Format::Fixed, 80, 81, 0, false),
    (Format::Fixed, 100_000, 80, 0, false),
    (Format::Fixed, 18, 18, 0, true),
    (Format::Fixed, 99_999, 99_999, 0, true),
    (Format::Counted, 17, 14, 0, false),
    (Format::Counted, 18, 3, 0, false),
    (Format::Counted, 18, 19, 0, false),
    (Format::Counted, 99_999, 10_000, 0, false),
    (Format::Counted, 18, 4, 0, true),
    (Format::Counted, 99_999, 9_999, 0, true),
    (Format::Spanned, 17, 0, 0, false),
    (Format::Spanned, 10_000, 0, 0, false),
    (Format::Spanned, 18, 0, 13, false),
    (Format::Spanned, 20, 0, 15, false),
    (Format::Spanned, 106, 0, 100, false),
    (Format::Spanned, 18, 0, 0, true),
    (Format::Spanned, 9_999, 0, 0, true),
    (Format::Spanned, 18, 0, 12, true),
    (Format::Spanned, 105, 0, 99, true),
];

#[test]
fn shapes_that_are_written(rt: HostRuntime) {
    for (format, block_len, rec_len, offset, written) in SHAPES {
        let shape = shape(*format, *block_len, *rec_len, *offset);
        assert!(rt; is_judged(rt.alloc(), shape, *written), "{shape:?}");
    }
}

/// Full padding is refused in formats in which blocks are not padded in full.
#[test]
fn shapes_padded_in_full_that_are_not_written(rt: HostRuntime) {
    for (format, block_len, rec_len) in [(Format::Fixed, 80, 80), (Format::Spanned, 20, 0)] {
        let shape = padded(format, block_len, rec_len, 0);
        assert!(rt; is_judged(rt.alloc(), shape, false), "{shape:?}");
    }
}

// Returns true if records that are packed into blocks of shape `shape` can be read back from them.
fn are_read_again(alloc: Global, shape: Shape) -> bool {
    let texts: [&[u8]; 6] = [
        b"",
        b"^^^^",
        b"123456789012345678901234567890",
        b"",
        b"A",
        b"BCDEFGH",
    ];
    match copies(alloc, &texts) {
        Ok(records) => match packed_again(alloc, shape, &records) {
            Ok(back) => back == records,
            Err(_) => false,
        },
        Err(_) => false,
    }
}

#[test]
fn read_again(rt: HostRuntime) {
    let rows = [
        (Format::Counted, 40, 40),
        (Format::Counted, 99, 40),
        (Format::Spanned, 18, 0),
        (Format::Spanned, 40, 0),
    ];
    for (format, block_len, rec_len) in rows {
        let shape = shape(format, block_len, rec_len, 0);
        assert!(rt; are_read_again(rt.alloc(), shape), "{shape:?}");
    }
}
