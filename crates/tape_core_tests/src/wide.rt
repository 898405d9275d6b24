//! Tests of the wider reading, beside the strict one.

use crate::readers::{known, reader, reader_at};
use crate::reels::{EOF1, HDR1, HDR2, HDR2_D, HDR3, VOL1, counted, numbered};
use std::process::Abort;
use tape_blocks::{BlockCause, BlockFault};
use tape_core::Answer::{Complete, Deliver, Passed, Useless};
use tape_core::Event::{Bad, Block, Mark, ReelEnd};
use tape_core::Reason::{BadBlock, BadItem, BadLabel, ReelEnded, SectionDiffers};
use tape_core::{Answer, Event, ReaderCore};
use tape_label::{Format, LabelFault};
use tape_set::Position;

/// HDR2 of format U, with offset 4 and no lengths.
const HDR2_U: &[u8; 80] =
    b"HDR2U                                             04                            ";

/// HDR2 of format V.
const HDR2_V: &[u8; 80] =
    b"HDR2V0800000104                                   00                            ";

const UHL1: &[u8; 80] =
    b"UHL1 whatever the user wrote                                                    ";

/// Mounts a reel, and passes VOL1 and HDR1.
fn mount(core: &mut ReaderCore) {
    core.mount();
    let _ = core.step(Block(VOL1));
    let _ = core.step(Block(HDR1));
}

/// An item after HDR1, the strict answer, and the answer of the wider reading.
type Second<'a> = (&'a str, Event<'a>, Answer, Answer);

/// Checks the answers of both readings to each item.
fn each_is_answered(rt: &impl Abort, rows: &[Second<'_>]) {
    for (name, event, strict, wide) in rows {
        let (mut one, mut other) = (reader(rt, 1), reader(rt, 1));
        mount(&mut one);
        mount(&mut other);
        let answers = (one.step(*event), other.wide_step(*event));
        assert_eq!(rt; answers, (*strict, *wide), "{name}");
    }
}

#[test]
fn items_after_the_first_header_label(rt: HostRuntime) {
    let other = Useless(BadLabel(LabelFault::Identifier));
    let format = |letter| Useless(BadLabel(LabelFault::Format(letter)));
    let short = Useless(BadLabel(LabelFault::NotEighty));
    each_is_answered(
        &rt,
        &[
            ("F", Block(HDR2), Passed, Passed),
            ("U", Block(HDR2_U), format(b'U'), Passed),
            ("V", Block(HDR2_V), format(b'V'), Passed),
            ("a mark", Mark, other, Passed),
            ("HDR3", Block(HDR3), other, Passed),
            ("a user label", Block(UHL1), other, Passed),
            ("a trailer", Block(EOF1), other, other),
            ("a short block", Block(&HDR3[..79]), short, short),
            ("a bad item", Bad, Useless(BadItem), Useless(BadItem)),
            ("the end", ReelEnd, Useless(ReelEnded), Useless(ReelEnded)),
        ],
    );
}

/// Checks the answers of the wider reading to the items after HDR1.
fn goes_on(rt: &impl Abort, name: &str, core: &mut ReaderCore, rows: &[(Event<'_>, Answer)]) {
    mount(core);
    for (n, (event, answer)) in rows.iter().enumerate() {
        assert_eq!(rt; core.wide_step(*event), *answer, "{name}: item {n}");
    }
}

#[test]
fn files_of_format_u(rt: HostRuntime) {
    let end = counted(EOF1, b"000002");
    let short = BlockFault {
        place: 0,
        cause: BlockCause::ShortOffset,
    };
    goes_on(
        &rt,
        "offset 4",
        &mut reader(&rt, 1),
        &[
            (Block(HDR2_U), Passed),
            (Mark, Passed),
            (Block(b"0007ANY"), Deliver),
            (Block(b"0004"), Deliver),
            (Mark, Passed),
            (Block(&end), Complete),
        ],
    );
    goes_on(
        &rt,
        "short block",
        &mut reader(&rt, 1),
        &[
            (Block(HDR2_U), Passed),
            (Mark, Passed),
            (Block(b"000"), Useless(BadBlock(short))),
        ],
    );
}

#[test]
fn files_without_hdr2(rt: HostRuntime) {
    let end = counted(EOF1, b"000002");
    goes_on(
        &rt,
        "a mark after HDR1",
        &mut reader(&rt, 1),
        &[
            (Mark, Passed),
            (Block(b"A"), Deliver),
            (Block(b"0004"), Deliver),
            (Mark, Passed),
            (Block(&end), Complete),
        ],
    );
    goes_on(
        &rt,
        "HDR3 after HDR1",
        &mut reader(&rt, 1),
        &[
            (Block(HDR3), Passed),
            (Block(UHL1), Passed),
            (Mark, Passed),
            (Block(b"A"), Deliver),
        ],
    );
}

/// A record of format V goes on in the next block, and must end before the trailer.
#[test]
fn files_of_format_v(rt: HostRuntime) {
    let end = counted(EOF1, b"000002");
    let broken = BlockFault {
        place: 4,
        cause: BlockCause::SpanBroken,
    };
    goes_on(
        &rt,
        "a record in two blocks",
        &mut reader(&rt, 1),
        &[
            (Block(HDR2_V), Passed),
            (Mark, Passed),
            (Block(b"\0\x09\0\0\0\x05\x01\0A"), Deliver),
            (Block(b"\0\x09\0\0\0\x05\x02\0B"), Deliver),
            (Mark, Passed),
            (Block(&end), Complete),
        ],
    );
    goes_on(
        &rt,
        "a record without its end",
        &mut reader(&rt, 1),
        &[
            (Block(HDR2_V), Passed),
            (Mark, Passed),
            (Block(b"\0\x09\0\0\0\x05\x01\0A"), Deliver),
            (Block(b"\0\x09\0\0\0\x05\0\0B"), Useless(BadBlock(broken))),
        ],
    );
}

/// A section without HDR2 differs from one of format F, and an earlier file may have any form.
#[test]
fn forms_in_the_wider_reading(rt: HostRuntime) {
    let undefined = known(&rt, Format::Undefined, 0);
    let fixed = known(&rt, Format::Fixed, 4);
    let start = Position::awaiting(1, 1);
    for (name, form, want) in [
        ("known as U", undefined, Passed),
        ("known as F", fixed, Useless(SectionDiffers)),
    ] {
        let mut core = reader_at(&rt, start, false, form);
        mount(&mut core);
        assert_eq!(rt; core.wide_step(Mark), want, "{name}");
    }
    let second = numbered(HDR1, b"0001", b"0002");
    goes_on(
        &rt,
        "an earlier file",
        &mut reader(&rt, 2),
        &[
            (Mark, Passed),
            (Mark, Passed),
            (Block(EOF1), Passed),
            (Mark, Passed),
            (Block(&second), Passed),
            (Block(HDR2_V), Passed),
            (Mark, Passed),
            (Block(b"\0\x04\0\0"), Deliver),
        ],
    );
}

/// Only data blocks of the section needed have other content than their bytes.
#[test]
fn content_without_padding(rt: HostRuntime) {
    let padded = b"0006AB   ";
    let mut core = reader(&rt, 1);
    mount(&mut core);
    let before = core.content(padded) == padded.as_slice();
    let _ = core.step(Block(HDR2_D));
    let _ = core.step(Mark);
    let there = core.content(padded) == b"0006AB".as_slice();
    assert!(rt; before && there);
}
