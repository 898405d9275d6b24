//! Tests of the reading table, row by row.

use crate::readers::{go_on, known, play, read_section, reader, reader_at, wanted, wants};
use crate::reels::{EOF1, EOF2, EOV1, HDR1, HDR2, HDR2_S, HDR3, UVL1, VOL1, counted, numbered};
use std::process::Abort;
use tape_blocks::{BlockCause, BlockFault};
use tape_core::Answer::{Complete, Deliver, Passed, SectionDone, Useless};
use tape_core::Event::{Bad, Block, Mark, ReelEnd};
use tape_core::Reason::{BadBlock, BadItem, BadLabel, NotLabelled, ReelEnded, SectionDiffers};
use tape_core::{Answer, Event, ReaderCore};
use tape_label::{Format, LabelFault};
use tape_set::Position;

/// Checks that the answer to each item is `Passed`.
fn passes(rt: &impl Abort, core: &mut ReaderCore, before: &[Event<'_>]) {
    for (n, each) in before.iter().enumerate() {
        assert!(rt; core.step(*each) == Passed, "item {n} before the row");
    }
}

/// Checks that a refusal does not move the position, and ends the reading.
fn is_over(rt: &impl Abort, core: &mut ReaderCore, number: usize, stood: Position) {
    let is_over = core.position() == stood && core.step(Mark) == Useless(ReelEnded);
    assert!(rt; is_over, "row {number}");
}

/// Checks one row: that the answer to `event`, after the items `before`, which are all passed, is
/// `answer`.
fn row(
    rt: &impl Abort,
    core: &mut ReaderCore,
    before: &[Event<'_>],
    number: usize,
    (event, answer): (Event<'_>, Answer),
) {
    core.mount();
    passes(rt, core, before);
    let stood = core.position();
    assert_eq!(rt; core.step(event), answer, "row {number}");
    if let Useless(_) = answer {
        is_over(rt, core, number, stood);
    }
}

/// Checks a row for each of `events`, each with a new reader of file `file`.
pub(crate) fn rows(
    rt: &impl Abort,
    file: u16,
    before: &[Event<'_>],
    events: &[(Event<'_>, Answer)],
) {
    for (number, event) in events.iter().enumerate() {
        row(rt, &mut reader(rt, file), before, number, *event);
    }
}

#[test]
fn with_no_reading_under_way_nothing_is_read(rt: HostRuntime) {
    let mut core = reader(&rt, 1);
    let ended = Useless(ReelEnded);
    let row = [
        (Block(VOL1), ended),
        (Bad, ended),
        (Mark, ended),
        (ReelEnd, ended),
    ];
    go_on(&rt, &mut core, "no reading", &row);
    wants(&rt, &core, "no reading", wanted(1, 0, 0));
    assert!(rt; core.position() == Position::start());
    assert!(rt; core.shape().is_none());
}

#[test]
fn a_volume_label_is_expected(rt: HostRuntime) {
    rows(
        &rt,
        1,
        &[],
        &[
            (Block(VOL1), Passed),
            (Block(HDR1), Useless(NotLabelled)),
            (Block(UVL1), Useless(NotLabelled)),
            (Block(b"VOL1"), Useless(NotLabelled)),
            (Mark, Useless(NotLabelled)),
            (Bad, Useless(BadItem)),
            (ReelEnd, Useless(ReelEnded)),
        ],
    );
}

#[test]
fn volume_labels_or_a_header_are_expected(rt: HostRuntime) {
    rows(
        &rt,
        1,
        &[Block(VOL1)],
        &[
            (Block(VOL1), Passed),
            (Block(UVL1), Passed),
            (Block(HDR1), Passed),
            (Block(&UVL1[..79]), Useless(NotLabelled)),
            (Block(HDR2), Useless(NotLabelled)),
            (Block(EOF1), Useless(NotLabelled)),
            (Mark, Useless(NotLabelled)),
            (Bad, Useless(BadItem)),
            (ReelEnd, Useless(ReelEnded)),
        ],
    );
}

#[test]
fn further_volume_labels_or_a_header_are_expected(rt: HostRuntime) {
    rows(
        &rt,
        1,
        &[Block(VOL1), Block(UVL1)],
        &[
            (Block(UVL1), Passed),
            (Block(HDR1), Passed),
            (Block(HDR3), Useless(NotLabelled)),
        ],
    );
}

#[test]
fn the_second_header_of_the_section_awaited_is_expected(rt: HostRuntime) {
    rows(
        &rt,
        1,
        &[Block(VOL1), Block(HDR1)],
        &[
            (Block(HDR2), Passed),
            (Block(HDR2_S), Passed),
            (Block(EOF2), Useless(BadLabel(LabelFault::Identifier))),
            (Block(HDR1), Useless(BadLabel(LabelFault::Identifier))),
            (Block(&HDR2[..79]), Useless(BadLabel(LabelFault::NotEighty))),
            (Mark, Useless(BadLabel(LabelFault::Identifier))),
            (Bad, Useless(BadItem)),
            (ReelEnd, Useless(ReelEnded)),
        ],
    );
}

#[test]
fn further_headers_are_passed(rt: HostRuntime) {
    rows(
        &rt,
        1,
        &[Block(VOL1), Block(HDR1), Block(HDR2)],
        &[
            (Block(HDR3), Passed),
            (Block(HDR1), Passed),
            (Block(b"x"), Passed),
            (Mark, Passed),
            (Bad, Useless(BadItem)),
            (ReelEnd, Useless(ReelEnded)),
        ],
    );
}

#[test]
fn the_block_awaited_is_delivered(rt: HostRuntime) {
    let other = |place, cause| Useless(BadBlock(BlockFault { place, cause }));
    rows(
        &rt,
        1,
        &[Block(VOL1), Block(HDR1), Block(HDR2), Mark],
        &[
            (Block(b"AAAABBBB"), Deliver),
            (Block(b"AAAABB"), other(4, BlockCause::NotMultiple)),
            (Mark, Passed),
            (Bad, Useless(BadItem)),
            (ReelEnd, Useless(ReelEnded)),
        ],
    );
}

/// Returns a reader of a file of format F that expects block 2.
fn behind_two_blocks(rt: &impl Abort) -> ReaderCore {
    reader_at(
        rt,
        Position::awaiting(1, 2),
        false,
        known(rt, Format::Fixed, 4),
    )
}

/// Checks that the answer to `event` in place of the first block is `answer`, if block 2 is
/// expected.
fn instead_of_first(rt: &impl Abort, number: usize, event: Event<'_>, answer: Answer) {
    let before = [Block(VOL1), Block(HDR1), Block(HDR2), Mark];
    row(
        rt,
        &mut behind_two_blocks(rt),
        &before,
        number,
        (event, answer),
    );
}

#[test]
fn blocks_that_were_delivered_are_passed(rt: HostRuntime) {
    instead_of_first(&rt, 0, Block(b"no record of four"), Passed);
    instead_of_first(&rt, 1, Bad, Passed);
    instead_of_first(&rt, 2, Mark, Useless(SectionDiffers));
    instead_of_first(&rt, 3, ReelEnd, Useless(ReelEnded));
    read_section(
        &rt,
        &mut behind_two_blocks(&rt),
        "behind two blocks",
        (HDR1, HDR2),
        &[
            (Bad, Passed),
            (Block(b"AAAA"), Passed),
            (Block(b"CCCC"), Deliver),
            (Bad, Useless(BadItem)),
        ],
        wanted(1, 3, 0),
    );
}

#[test]
fn the_trailer_of_the_section_awaited_is_expected(rt: HostRuntime) {
    let front = [Block(VOL1), Block(HDR1), Block(HDR2), Mark, Mark];
    let differs = Useless(SectionDiffers);
    let signed = Useless(BadLabel(LabelFault::NotDigits(55)));
    rows(
        &rt,
        1,
        &front,
        &[
            (Block(EOF1), Complete),
            (Block(EOV1), SectionDone),
            (Block(&numbered(EOF1, b"0002", b"0001")), differs),
            (Block(&numbered(EOF1, b"0001", b"0002")), differs),
            (Block(EOF2), Useless(BadLabel(LabelFault::Identifier))),
            (Block(&EOF1[..79]), Useless(BadLabel(LabelFault::NotEighty))),
            (Block(&counted(EOF1, b"+00000")), signed),
            (Mark, Useless(BadLabel(LabelFault::Identifier))),
            (Bad, Useless(BadItem)),
            (ReelEnd, Useless(ReelEnded)),
        ],
    );
}

#[test]
fn what_is_complete_stays_so(rt: HostRuntime) {
    let mut core = reader(&rt, 1);
    read_section(
        &rt,
        &mut core,
        "completed",
        (HDR1, HDR2),
        &[
            (Mark, Passed),
            (Block(EOF1), Complete),
            (Bad, Complete),
            (ReelEnd, Complete),
        ],
        None,
    );
    assert!(rt; core.position() == Position::Finished);
    play(
        &rt,
        &mut core,
        "mounted again",
        &[(Block(VOL1), Complete), (Mark, Complete)],
    );
}
