//! Tests of blocks that are refused: the offset and the cause of the fault.

use crate::worked::{refuses, shape};
use std::process::Abort;
use std::test::*;
use tape_blocks::{BlockCause, BlockFault, PackFault, Shape};
use tape_label::Format;

/// A name, whether a record is unfinished before the block, the block, and the offset and cause of
/// the fault.
type Refused<'a> = (&'a str, bool, &'a [u8], usize, BlockCause);

const OF_FORMAT_D: &[Refused<'_>] = &[
    ("padding", false, b"0006AB^^0", 8, BlockCause::BadPadding),
    ("count of 3", false, b"0003", 0, BlockCause::BadCount),
    (
        "space in a count",
        false,
        b"00 6AB",
        0,
        BlockCause::BadCount,
    ),
    ("short count", false, b"0006AB000", 6, BlockCause::BadCount),
    ("past the end", false, b"0009AB", 0, BlockCause::PastEnd),
    // No complete record may follow an unfinished record, but its count is checked first.
    ("begun", true, b"0006AB", 0, BlockCause::SpanBroken),
    (
        "begun, past the end",
        true,
        b"0009AB",
        0,
        BlockCause::PastEnd,
    ),
];

const OF_FORMAT_F: &[Refused<'_>] = &[
    ("short rest", false, b"ABCDE", 3, BlockCause::NotMultiple),
    (
        "short rest of two kinds",
        false,
        b"ABC^E",
        3,
        BlockCause::NotMultiple,
    ),
    ("begun", true, b"ABCDE", 0, BlockCause::SpanBroken),
    (
        "begun, short rest alone",
        true,
        b"DE",
        0,
        BlockCause::NotMultiple,
    ),
];

const OF_FORMAT_S: &[Refused<'_>] = &[
    (
        "middle first",
        false,
        b"200184567890123456",
        0,
        BlockCause::SpanBroken,
    ),
    ("indicator 4", false, b"40005", 0, BlockCause::BadIndicator),
    (
        "indicator 4, no count",
        false,
        b"4000X",
        0,
        BlockCause::BadIndicator,
    ),
    ("count of 4", false, b"00004", 0, BlockCause::BadCount),
    ("short count", false, b"0000", 0, BlockCause::BadCount),
    ("past the end", false, b"00006", 0, BlockCause::PastEnd),
    (
        "whole behind first",
        false,
        b"10006A00005",
        6,
        BlockCause::SpanBroken,
    ),
    ("padding", true, b"30005^0", 6, BlockCause::BadPadding),
    // The segment continues a record, so the block passes only after an unfinished record.
    (
        "last first",
        false,
        b"30006A10007BC",
        0,
        BlockCause::SpanBroken,
    ),
];

/// Checks that each block is refused in the shape `shape`.
fn each_is_refused(rt: &impl Abort, shape: &Shape, rows: &[Refused<'_>]) {
    for (name, begun, block, place, cause) in rows {
        assert!(rt; refuses(shape, *begun, block, *place, *cause), "{name}");
    }
}

#[test]
fn in_format_d(rt: HostRuntime) {
    each_is_refused(&rt, &shape(Format::Counted, 18, 18, 0), OF_FORMAT_D);
}

#[test]
fn in_format_f(rt: HostRuntime) {
    each_is_refused(&rt, &shape(Format::Fixed, 800, 3, 0), OF_FORMAT_F);
}

#[test]
fn in_format_s(rt: HostRuntime) {
    each_is_refused(&rt, &shape(Format::Spanned, 18, 0, 0), OF_FORMAT_S);
}

#[test]
fn shorter_than_the_offset(rt: HostRuntime) {
    let d = shape(Format::Counted, 18, 14, 3);
    each_is_refused(
        &rt,
        &d,
        &[
            ("offset", false, b"AB", 0, BlockCause::ShortOffset),
            ("count", false, b"ABC0003", 3, BlockCause::BadCount),
        ],
    );
}

// Returns true if `cause`, and a fault with this cause, has the number `number`.
fn has_number(cause: BlockCause, number: u8) -> bool {
    cause.number() == number && BlockFault { place: 8, cause }.number() == number
}

#[test]
fn have_fixed_numbers(rt: HostRuntime) {
    let causes = [
        (BlockCause::ShortOffset, 1),
        (BlockCause::NotMultiple, 2),
        (BlockCause::BadCount, 3),
        (BlockCause::PastEnd, 4),
        (BlockCause::BadIndicator, 5),
        (BlockCause::SpanBroken, 6),
        (BlockCause::BadPadding, 7),
    ];
    for (cause, number) in causes {
        assert!(rt; has_number(cause, number), "{number}");
    }
    let refusals = [
        (PackFault::RecordLength, 8),
        (PackFault::ShapeRange, 9),
        (PackFault::OutOfMemory, 10),
    ];
    for (refusal, number) in refusals {
        assert!(rt; refusal.number() == number, "{number}");
    }
}
