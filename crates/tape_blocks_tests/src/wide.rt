//! Tests of blocks of formats U and V, and of padding that the standard does not allow.

use crate::worked::{reads, refuses, shape};
use std::process::Abort;
use std::test::*;
use tape_blocks::{BlockCause, Part, Parts, Shape, Span, content};
use tape_label::Format;

/// A name, whether a record is unfinished before the block, the block, whether a record is
/// unfinished after it, and the parts of the block.
type Read<'a> = (&'a str, bool, &'a [u8], bool, &'a [(Span, &'a [u8])]);

/// A name, whether a record is unfinished before the block, the block, and the offset and cause of
/// the fault.
type Refused<'a> = (&'a str, bool, &'a [u8], usize, BlockCause);

/// Blocks begin with a word that gives their length, and records or segments with one that gives
/// theirs.
const OF_FORMAT_V: &[Read<'_>] = &[
    (
        "two records",
        false,
        b"\0\x0e\0\0\0\x06\0\0AB\0\x04\0\0",
        false,
        &[(Span::Whole, b"AB"), (Span::Whole, b"")],
    ),
    (
        "first",
        false,
        b"\0\x0a\0\0\0\x06\x01\0AB",
        true,
        &[(Span::First, b"AB")],
    ),
    (
        "middle",
        true,
        b"\0\x09\0\0\0\x05\x03\0C",
        true,
        &[(Span::Middle, b"C")],
    ),
    (
        "last, and a whole record",
        true,
        b"\0\x0f\0\0\0\x05\x02\0D\0\x06\0\0EF",
        false,
        &[(Span::Last, b"D"), (Span::Whole, b"EF")],
    ),
    (
        "a length of 31 bits",
        false,
        b"\x80\0\0\x0a\0\x06\0\0AB",
        false,
        &[(Span::Whole, b"AB")],
    ),
    ("no record", true, b"\0\x04\0\0", true, &[]),
];

#[test]
fn records_of_format_v(rt: HostRuntime) {
    let v = shape(Format::Variable, 8000, 104, 0);
    for (name, begun, block, end, parts) in OF_FORMAT_V {
        assert!(rt; reads(&v, *begun, block, *end, parts), "{name}");
    }
}

const REFUSED_OF_FORMAT_V: &[Refused<'_>] = &[
    (
        "block word one less",
        false,
        b"\0\x09\0\0\0\x06\0\0AB",
        0,
        BlockCause::ShortOffset,
    ),
    (
        "block word one more",
        false,
        b"\0\x0b\0\0\0\x06\0\0AB",
        0,
        BlockCause::ShortOffset,
    ),
    (
        "block word with a third byte",
        false,
        b"\0\x0a\x01\0\0\x06\0\0AB",
        0,
        BlockCause::ShortOffset,
    ),
    (
        "block word with a fourth byte",
        false,
        b"\0\x0a\0\x01\0\x06\0\0AB",
        0,
        BlockCause::ShortOffset,
    ),
    (
        "three bytes",
        false,
        b"\0\x03\0",
        0,
        BlockCause::ShortOffset,
    ),
    ("nothing", false, b"", 0, BlockCause::ShortOffset),
    (
        "record word of 3",
        false,
        b"\0\x08\0\0\0\x03\0\0",
        4,
        BlockCause::BadCount,
    ),
    (
        "code 4",
        false,
        b"\0\x08\0\0\0\x04\x04\0",
        4,
        BlockCause::BadIndicator,
    ),
    (
        "last byte 1",
        false,
        b"\0\x08\0\0\0\x04\0\x01",
        4,
        BlockCause::BadIndicator,
    ),
    (
        "code 4 and record word of 3",
        false,
        b"\0\x08\0\0\0\x03\x04\0",
        4,
        BlockCause::BadIndicator,
    ),
    (
        "rest of 3 bytes",
        false,
        b"\0\x0b\0\0\0\x04\0\0\0\x04\0",
        8,
        BlockCause::BadCount,
    ),
    (
        "past the end",
        false,
        b"\0\x08\0\0\0\x05\0\0",
        4,
        BlockCause::PastEnd,
    ),
    (
        "circumflexes",
        false,
        b"\0\x0c\0\0\0\x04\0\0^^^^",
        8,
        BlockCause::BadIndicator,
    ),
    (
        "whole, begun",
        true,
        b"\0\x08\0\0\0\x04\0\0",
        4,
        BlockCause::SpanBroken,
    ),
    (
        "last, not begun",
        false,
        b"\0\x08\0\0\0\x04\x02\0",
        4,
        BlockCause::SpanBroken,
    ),
];

#[test]
fn faults_of_format_v(rt: HostRuntime) {
    let v = shape(Format::Variable, 8000, 104, 0);
    for (name, begun, block, place, cause) in REFUSED_OF_FORMAT_V {
        assert!(rt; refuses(&v, *begun, block, *place, *cause), "{name}");
    }
}

/// The length in the block's word is that of the bytes after the buffer offset.
#[test]
fn format_v_after_an_offset(rt: HostRuntime) {
    let v = shape(Format::Variable, 8000, 104, 2);
    let block = b"??\0\x0a\0\0\0\x06\0\0AB";
    assert!(rt; reads(&v, false, block, false, &[(Span::Whole, b"AB")]));
}

/// Lengths in the label do not matter, and neither do circumflexes.
#[test]
fn records_of_format_u(rt: HostRuntime) {
    let rows: [(&str, u32, u8, &[u8], &[(Span, &[u8])]); 5] = [
        ("a record", 0, 0, b"ANY", &[(Span::Whole, b"ANY")]),
        ("a record length", 512, 0, b"ANY", &[(Span::Whole, b"ANY")]),
        ("circumflexes", 0, 0, b"^^", &[(Span::Whole, b"^^")]),
        ("an offset", 0, 4, b"0007ANY", &[(Span::Whole, b"ANY")]),
        ("an offset alone", 0, 4, b"0004", &[]),
    ];
    for (name, rec_len, offset, block, parts) in rows {
        let u = shape(Format::Undefined, rec_len, rec_len, offset);
        assert!(rt; reads(&u, false, block, false, parts), "{name}");
    }
}

#[test]
fn faults_of_format_u(rt: HostRuntime) {
    let u = shape(Format::Undefined, 0, 0, 4);
    let rows: [Refused<'_>; 2] = [
        ("short", false, b"000", 0, BlockCause::ShortOffset),
        ("begun", true, b"0007ANY", 4, BlockCause::SpanBroken),
    ];
    for (name, begun, block, place, cause) in rows {
        assert!(rt; refuses(&u, begun, block, place, cause), "{name}");
    }
}

/// A name, the block, and the number of its bytes that are its content.
type Padded<'a> = (&'a str, &'a [u8], usize);

const OF_FORMAT_D: &[Padded<'_>] = &[
    ("NULs", b"0006AB\0\0\0", 6),
    ("spaces", b"0006AB     ", 6),
    ("a NUL among spaces", b"0006AB  \0 ", 10),
    ("circumflexes", b"0006AB^^", 8),
    ("no record", b"\0\0\0\0", 4),
    ("no padding", b"0006AB", 6),
    ("a bad count", b"0006AB00x4", 10),
];

// Records of three bytes.
const OF_FORMAT_F: &[Padded<'_>] = &[
    ("NULs", b"ABC\0\0", 3),
    ("spaces", b"ABC ", 3),
    ("a record that ends with spaces", b"AB    ", 6),
    ("the same and padding", b"AB   ", 3),
    ("a whole record of spaces", b"ABC   ", 6),
    ("a record of spaces, and padding", b"ABC    ", 7),
    ("a record of NULs before spaces", b"ABC\0\0\0  ", 6),
    ("no record", b"  ", 2),
];

/// Checks the content of each block of shape `shape`.
fn each_has_content(rt: &impl Abort, shape: &Shape, rows: &[Padded<'_>]) {
    for (name, block, len) in rows {
        assert!(rt; Some(content(shape, block)) == block.get(..*len), "{name}");
    }
}

#[test]
fn padding_of_format_d(rt: HostRuntime) {
    each_has_content(&rt, &shape(Format::Counted, 18, 18, 0), OF_FORMAT_D);
}

#[test]
fn padding_of_format_f(rt: HostRuntime) {
    each_has_content(&rt, &shape(Format::Fixed, 18, 3, 0), OF_FORMAT_F);
}

#[test]
fn padding_after_an_offset(rt: HostRuntime) {
    let d = shape(Format::Counted, 18, 18, 2);
    each_has_content(&rt, &d, &[("spaces", b"??0006AB  ", 8), ("short", b" ", 1)]);
}

#[test]
fn no_padding_of_other_formats(rt: HostRuntime) {
    let rows: [(Format, &[u8]); 3] = [
        (Format::Spanned, b"00006A  "),
        (Format::Undefined, b"A  "),
        (Format::Variable, b"\0\x09\0\0\0\x05\0\0A  "),
    ];
    for (format, block) in rows {
        let shape = shape(format, 18, 0, 0);
        assert!(rt; content(&shape, block) == block, "{format:?}");
    }
}

/// The parts before the first offset at which no record or segment begins, in order or not.
#[test]
fn parts_at_the_start_of_a_block(rt: HostRuntime) {
    let rows: [(&str, Format, &[u8], &[(Span, &[u8])]); 5] = [
        ("D", Format::Counted, b"0006AB0003", &[(Span::Whole, b"AB")]),
        (
            "S",
            Format::Spanned,
            b"30006A30006B4",
            &[(Span::Last, b"A"), (Span::Last, b"B")],
        ),
        (
            "V",
            Format::Variable,
            b"\0\x0b\0\0\0\x05\x03\0A??",
            &[(Span::Middle, b"A")],
        ),
        ("V, a wrong word", Format::Variable, b"\0\x06\0\0A", &[]),
        ("U", Format::Undefined, b"A", &[(Span::Whole, b"A")]),
    ];
    for (name, format, block, wanted) in rows {
        let mut parts = Parts::at_front(&shape(format, 18, 0, 0), block);
        let mut same = true;
        for (span, bytes) in wanted {
            same = same && parts.next() == Some(Part { span: *span, bytes });
        }
        assert!(rt; same && parts.next().is_none(), "{name}");
    }
}
