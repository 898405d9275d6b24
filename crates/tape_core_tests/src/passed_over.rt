//! Tests of the reading table at skipped sections, row by row.

use crate::reels::{EOF1, EOF2, EOV1, HDR1, HDR2, HDR3, VOL1, counted, numbered};
use crate::table::rows;
use tape_core::Answer::{Passed, Useless};
use tape_core::Event::{Bad, Block, Mark, ReelEnd};
use tape_core::Reason::{BadItem, BadLabel, NotOnReel, ReelEnded, SectionDiffers};
use tape_label::LabelFault;

#[test]
fn a_section_of_an_earlier_file_is_passed_over(rt: HostRuntime) {
    let strange =
        b"HDR2X                                                                           ";
    rows(
        &rt,
        2,
        &[Block(VOL1), Block(HDR1)],
        &[
            (Block(HDR2), Passed),
            (Block(strange), Passed),
            (Block(EOF2), Useless(BadLabel(LabelFault::Identifier))),
            (Block(&HDR2[..79]), Useless(BadLabel(LabelFault::NotEighty))),
            (Mark, Useless(BadLabel(LabelFault::Identifier))),
            (Bad, Useless(BadItem)),
            (ReelEnd, Useless(ReelEnded)),
        ],
    );
}

#[test]
fn further_headers_of_a_section_passed_over(rt: HostRuntime) {
    rows(
        &rt,
        2,
        &[Block(VOL1), Block(HDR1), Block(HDR2)],
        &[
            (Block(HDR3), Passed),
            (Mark, Passed),
            (Bad, Useless(BadItem)),
        ],
    );
}

#[test]
fn data_of_a_section_passed_over(rt: HostRuntime) {
    rows(
        &rt,
        2,
        &[Block(VOL1), Block(HDR1), Block(HDR2), Mark],
        &[
            (Block(b"no record"), Passed),
            (Bad, Passed),
            (Mark, Passed),
            (ReelEnd, Useless(ReelEnded)),
        ],
    );
}

#[test]
fn the_trailer_of_a_section_passed_over_is_expected(rt: HostRuntime) {
    let front = [Block(VOL1), Block(HDR1), Block(HDR2), Mark, Bad, Mark];
    let differs = Useless(SectionDiffers);
    let spaced = Useless(BadLabel(LabelFault::NotDigits(55)));
    rows(
        &rt,
        2,
        &front,
        &[
            (Block(EOF1), Passed),
            (Block(EOV1), Passed),
            // In a skipped section blocks are not counted.
            (Block(&counted(EOF1, b"000007")), Passed),
            (Block(&numbered(EOF1, b"0002", b"0001")), differs),
            (Block(&numbered(EOF1, b"0001", b"0002")), differs),
            (Block(HDR1), Useless(BadLabel(LabelFault::Identifier))),
            (Block(&EOF1[..79]), Useless(BadLabel(LabelFault::NotEighty))),
            (Block(&counted(EOF1, b"00000 ")), spaced),
            (Mark, Useless(BadLabel(LabelFault::Identifier))),
            (Bad, Useless(BadItem)),
            (ReelEnd, Useless(ReelEnded)),
        ],
    );
}

#[test]
fn further_trailers_are_passed(rt: HostRuntime) {
    let front = [
        Block(VOL1),
        Block(HDR1),
        Block(HDR2),
        Mark,
        Mark,
        Block(EOF1),
    ];
    rows(
        &rt,
        2,
        &front,
        &[
            (Block(EOF2), Passed),
            (Block(b"EOF3"), Passed),
            (Mark, Passed),
            (Bad, Useless(BadItem)),
            (ReelEnd, Useless(ReelEnded)),
        ],
    );
}

#[test]
fn the_next_file_or_the_second_mark_is_expected(rt: HostRuntime) {
    let front = [
        Block(VOL1),
        Block(HDR1),
        Block(HDR2),
        Mark,
        Mark,
        Block(EOF1),
        Mark,
    ];
    let second = numbered(HDR1, b"0001", b"0002");
    rows(
        &rt,
        2,
        &front,
        &[
            (Block(&second), Passed),
            (Block(HDR1), Passed),
            (Block(EOF1), Useless(BadLabel(LabelFault::Identifier))),
            (Block(&HDR1[..79]), Useless(BadLabel(LabelFault::NotEighty))),
            (Mark, Useless(NotOnReel)),
            (Bad, Useless(BadItem)),
            (ReelEnd, Useless(ReelEnded)),
        ],
    );
}
