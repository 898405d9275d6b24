//! Tests of blocks that pass, and of their parts.

use crate::reading::spans_of;
use crate::worked::{reads, refuses, shape};
use std::test::*;
use tape_blocks::{BlockCause, Shape, Span, check_block};
use tape_label::{Format, Head2};

#[test]
fn records_of_format_d(rt: HostRuntime) {
    let d = shape(Format::Counted, 18, 18, 0);
    let two: &[(Span, &[u8])] = &[(Span::Whole, b"AB"), (Span::Whole, b"")];
    let long: &[(Span, &[u8])] = &[(Span::Whole, b"ABCDEFGHIJKLMNOPQRSTU")];
    let rows: [(&str, &[u8], &[(Span, &[u8])]); 3] = [
        ("two", b"0006AB0004^^^^^^^^", two),
        (
            "circumflexes",
            b"0008^^^^^^^^^^^^^^",
            &[(Span::Whole, b"^^^^")],
        ),
        (
            "longer than the shape says",
            b"0025ABCDEFGHIJKLMNOPQRSTU",
            long,
        ),
    ];
    for (name, block, parts) in rows {
        assert!(rt; reads(&d, false, block, false, parts), "{name}");
    }
}

#[test]
fn records_of_format_f(rt: HostRuntime) {
    let f = shape(Format::Fixed, 800, 80, 0);
    let mut block = [b'^'; 81];
    assert!(rt; reads(&f, false, &block, false, &[(Span::Whole, &[b'^'; 80])]));
    block[80] = b'X';
    assert!(rt; refuses(&f, false, &block, 80, BlockCause::NotMultiple));
}

/// A name, whether a record is unfinished before the block, the block, whether a record is
/// unfinished after it, and the parts of the block.
type Read<'a> = (&'a str, bool, &'a [u8], bool, &'a [(Span, &'a [u8])]);

const SEGMENTS: &[Read<'_>] = &[
    (
        "first",
        false,
        b"100181234567890123",
        true,
        &[(Span::First, b"1234567890123")],
    ),
    (
        "middle",
        true,
        b"200184567890123456",
        true,
        &[(Span::Middle, b"4567890123456")],
    ),
    (
        "last",
        true,
        b"300097890^^^^^^^^^",
        false,
        &[(Span::Last, b"7890")],
    ),
    ("empty", false, b"00005", false, &[(Span::Whole, b"")]),
    // A record ends, and the next record begins.
    (
        "two",
        true,
        b"30006A10007BC",
        true,
        &[(Span::Last, b"A"), (Span::First, b"BC")],
    ),
];

#[test]
fn segments_of_format_s(rt: HostRuntime) {
    let s = shape(Format::Spanned, 18, 0, 0);
    for (name, begun, block, end, parts) in SEGMENTS {
        assert!(rt; reads(&s, *begun, block, *end, parts), "{name}");
    }
}

#[test]
fn blocks_without_records(rt: HostRuntime) {
    let rows: [(&str, Format, u32, u8, bool, &[u8]); 4] = [
        ("offset alone", Format::Counted, 18, 2, false, b"??"),
        (
            "offset and padding",
            Format::Counted,
            18,
            2,
            true,
            b"??^^^^",
        ),
        ("nothing", Format::Fixed, 80, 0, false, b""),
        ("padding", Format::Spanned, 0, 0, true, b"^"),
    ];
    for (name, format, rec_len, offset, begun, block) in rows {
        let shape = shape(format, 800, rec_len, offset);
        assert!(rt; reads(&shape, begun, block, begun, &[]), "{name}");
    }
}

#[test]
fn the_shape_of_a_label(rt: HostRuntime) {
    let label = Head2 {
        format: Format::Fixed,
        block_len: 800,
        rec_len: 80,
        offset: 2,
    };
    assert!(rt; Shape::of(&label) == shape(Format::Fixed, 800, 80, 2));
}

#[test]
fn spans_go_on_and_leave_a_record_begun(rt: HostRuntime) {
    let spans = [
        (Span::Whole, false, false),
        (Span::First, false, true),
        (Span::Middle, true, true),
        (Span::Last, true, false),
    ];
    for (span, continues, leaves) in spans {
        assert!(rt;
            span.continues() == continues && span.leaves() == leaves,
            "{span:?}"
        );
    }
}

#[test]
fn spans_of_a_checked_block(rt: HostRuntime) {
    let block = b"30006A10007BC";
    let s = shape(Format::Spanned, 18, 0, 0);
    let Ok(_) = check_block(&s, true, block) else {
        assert!(rt; false, "the block passes");
        return;
    };
    let told = match spans_of(rt.alloc(), &s, block) {
        Ok(spans) => spans.as_slice() == [Span::Last, Span::First].as_slice(),
        Err(_) => false,
    };
    assert!(rt; told);
}
