//! Tests of labels that are refused, and of the order of the checks.

use crate::readers::{go_to, known, point_at, reader, reader_at};
use crate::reels::{HDR1, HDR2, HDR2_D, HDR2_S, VOL1, numbered};
use std::process::Abort;
use tape_core::Answer::{Passed, Useless};
use tape_core::Event::Block;
use tape_core::Reason::{
    BadLabel, EarlierSection, LaterSection, NotOnReel, OtherSet, SectionDiffers,
};
use tape_core::{Answer, ReaderCore, Reason};
use tape_label::{Format, LabelFault};
use tape_set::Position;

/// Returns the label with `bytes` at offset `place`.
fn changed(label: &[u8; 80], place: usize, bytes: &[u8]) -> [u8; 80] {
    let mut label = *label;
    for (at, byte) in label.iter_mut().skip(place).zip(bytes.iter()) {
        *at = *byte;
    }
    label
}

/// Returns the answer of a reader to HDR1, after VOL1.
fn at_head1(core: &mut ReaderCore, label: &[u8]) -> Answer {
    core.mount();
    let _ = core.step(Block(VOL1));
    core.step(Block(label))
}

/// Checks that a reader of file 3 that expects section 2 refuses the HDR1 `label`, and that its
/// position does not change.
fn refused_head1(rt: &impl Abort, name: &str, label: &[u8; 80], answer: Reason) {
    let at = Position::awaiting(2, 0);
    let mut core = reader(rt, 3);
    let fixed = known(rt, Format::Fixed, 4);
    go_to(rt, &mut core, &point_at(rt, 3, (at, false), Some(fixed)));
    assert_eq!(rt; at_head1(&mut core, label), Useless(answer), "{name}");
    assert!(rt; core.position() == at, "{name}");
}

/// Makes the check of `refused_head1` for an HDR1 with these numbers.
fn refused_numbers(
    rt: &impl Abort,
    name: &str,
    sect: &[u8; 4],
    sequence: &[u8; 4],
    answer: Reason,
) {
    refused_head1(rt, name, &numbered(HDR1, sect, sequence), answer);
}

#[test]
fn first_headers_that_do_not_read(rt: HostRuntime) {
    let fault = BadLabel(LabelFault::NotDigits(28));
    refused_numbers(&rt, "section", b" 001", b"0001", fault);
    let fault = BadLabel(LabelFault::FieldRange(28));
    refused_numbers(&rt, "section 0", b"0000", b"000A", fault);
    let fault = BadLabel(LabelFault::FieldRange(32));
    refused_numbers(&rt, "file 0", b"0001", b"0000", fault);
    let fault = BadLabel(LabelFault::NotDigits(32));
    refused_numbers(&rt, "file", b"0001", b"000A", fault);
}

#[test]
fn first_headers_are_compared_in_order(rt: HostRuntime) {
    let other = changed(&numbered(HDR1, b"0009", b"0009"), 21, b"XYZ001");
    refused_head1(&rt, "another set", &other, OtherSet);
    refused_numbers(&rt, "a later file", b"0009", b"0004", NotOnReel);
    refused_numbers(&rt, "an earlier section", b"0001", b"0003", EarlierSection);
    refused_numbers(&rt, "a later section", b"0003", b"0003", LaterSection);
}

/// Checks the answer of the reader to HDR2, after VOL1 and HDR1 of section 2.
fn at_head2(rt: &impl Abort, name: &str, core: &mut ReaderCore, label: &[u8; 80], answer: Answer) {
    let _ = at_head1(core, &numbered(HDR1, b"0002", b"0001"));
    assert_eq!(rt; core.step(Block(label)), answer, "{name}");
}

#[test]
fn what_is_known_is_compared(rt: HostRuntime) {
    let fixed = known(&rt, Format::Fixed, 4);
    let mut core = reader_at(&rt, Position::awaiting(2, 0), false, fixed);
    let differs = Useless(SectionDiffers);
    let renamed = changed(&numbered(HDR1, b"0002", b"0001"), 11, b"S");
    assert_eq!(rt; at_head1(&mut core, &renamed), differs);
    at_head2(&rt, "the same", &mut core, HDR2, Passed);
    at_head2(
        &rt,
        "record length",
        &mut core,
        &changed(HDR2, 14, b"5"),
        differs,
    );
    at_head2(&rt, "offset", &mut core, &changed(HDR2, 51, b"1"), differs);
    at_head2(&rt, "format D", &mut core, HDR2_D, differs);
    at_head2(&rt, "format S", &mut core, HDR2_S, differs);
    // Readers ignore the block length.
    at_head2(
        &rt,
        "block length",
        &mut core,
        &changed(HDR2, 9, b"7"),
        Passed,
    );
}

#[test]
fn of_format_d_no_record_length_is_compared(rt: HostRuntime) {
    let counted = known(&rt, Format::Counted, 0);
    let mut core = reader_at(&rt, Position::awaiting(2, 0), false, counted);
    // The record length is 14 in one section, and 99 in the next.
    at_head2(&rt, "14", &mut core, HDR2_D, Passed);
    at_head2(&rt, "99", &mut core, &changed(HDR2_D, 13, b"99"), Passed);
}

#[test]
fn nothing_is_compared_at_the_start(rt: HostRuntime) {
    let mut core = reader(&rt, 1);
    let renamed = changed(HDR1, 4, b"ANYTHING AT ALL..");
    assert_eq!(rt; at_head1(&mut core, &renamed), Passed);
    assert_eq!(rt; core.step(Block(HDR2_S)), Passed);
}

#[test]
fn the_volume_identifier_is_not_compared(rt: HostRuntime) {
    let mut core = reader(&rt, 1);
    core.mount();
    let other = changed(VOL1, 4, b"XYZ999");
    assert_eq!(rt; core.step(Block(&other)), Passed);
    assert_eq!(rt; core.step(Block(HDR1)), Passed);
}

#[test]
fn a_volume_of_the_name_of_the_set_may_hold_another(rt: HostRuntime) {
    let head = changed(HDR1, 21, b"XYZ001");
    assert_eq!(rt; at_head1(&mut reader(&rt, 1), &head), Useless(OtherSet));
}

/// Checks that a second header with `byte` at offset `place` is refused at the start of the file.
fn refused_head2(rt: &impl Abort, place: usize, byte: &[u8], fault: LabelFault) {
    let mut core = reader(rt, 1);
    let first = at_head1(&mut core, HDR1);
    assert!(rt; first == Passed, "byte {place}");
    let label = changed(HDR2, place, byte);
    assert_eq!(rt;
        core.step(Block(&label)),
        Useless(BadLabel(fault)),
        "byte {place}"
    );
}

#[test]
fn second_headers_are_refused_with_their_faults(rt: HostRuntime) {
    refused_head2(&rt, 4, b"U", LabelFault::Format(b'U'));
    refused_head2(&rt, 5, b" ", LabelFault::NotDigits(6));
    refused_head2(&rt, 10, b"-", LabelFault::NotDigits(11));
    refused_head2(&rt, 51, b"x", LabelFault::NotDigits(51));
    refused_head2(&rt, 14, b"0", LabelFault::FieldRange(11));
}
