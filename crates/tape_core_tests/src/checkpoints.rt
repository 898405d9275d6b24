//! Tests of valid and invalid values of checkpoints, and of restarts at them.

use crate::readers::{front, go_on, go_to, known, read_section, reader, set_id, wanted, wants};
use crate::reels::{HDR1, HDR2, HDR2_S};
use std::process::Abort;
use tape_core::Answer::{Deliver, Useless};
use tape_core::Event::Block;
use tape_core::Reason::ReelEnded;
use tape_core::{Checkpoint, CoreFault, Known, ReaderCore};
use tape_label::{Field, Format};
use tape_set::{Position, Want};

const MOST: u64 = 999_999_999_999_999;

/// The position of a checkpoint, whether a record is unfinished there, and the form of the file.
type Told = (Position, bool, Option<Known>);

/// Returns whether `point` has these values.
fn tells(point: &Checkpoint, (position, begun, known): Told) -> bool {
    point.set_id == set_id()
        && point.position() == position
        && point.begun == begun
        && point.known == known
}

/// Checks that a checkpoint with these values can be created, and returns them.
fn is_one(rt: &impl Abort, name: &str, file: u16, told: Told, staged: u64) {
    let (position, begun, known) = told;
    let point = Checkpoint::from_parts(set_id(), file, position, begun, known, staged);
    let point = point.expect(rt, "no checkpoint");
    let same = tells(&point, told) && point.file == file && point.staged == staged;
    assert!(rt; same, "{name}");
}

/// Checks that no checkpoint with these values can be created.
fn is_none(rt: &impl Abort, name: &str, file: u16, told: Told, staged: u64) {
    let (position, begun, known) = told;
    let point = Checkpoint::from_parts(set_id(), file, position, begun, known, staged);
    assert!(rt; point.is_none(), "{name}");
}

/// Returns the form of a file of format F.
fn fixed(rt: &impl Abort) -> Option<Known> {
    Some(known(rt, Format::Fixed, 80))
}

fn spanned(rt: &impl Abort) -> Option<Known> {
    Some(known(rt, Format::Spanned, 0))
}

/// Returns the position after `part` parts of the first block of the file.
fn at_start(part: u32) -> Position {
    Position::start().at_part(part)
}

fn inside(part: u32) -> Position {
    Position::awaiting(2, 7).at_part(part)
}

#[test]
fn checkpoints_at_the_start_of_a_file(rt: HostRuntime) {
    is_one(&rt, "start", 1, (at_start(0), false, None), 0);
    is_none(&rt, "start, known", 1, (at_start(0), false, fixed(&rt)), 0);
    is_none(&rt, "start, begun", 1, (at_start(0), true, None), 0);
    is_one(&rt, "part 1", 1, (at_start(1), false, fixed(&rt)), 0);
    is_none(&rt, "part 1, not known", 1, (at_start(1), false, None), 0);
    is_none(&rt, "file 0", 0, (at_start(0), false, None), 0);
    is_none(&rt, "file 10,000", 10_000, (at_start(0), false, None), 0);
}

/// Returns the values of a checkpoint before part `part` of a block in a format F file.
fn at_part(rt: &impl Abort, part: u32, begun: bool) -> Told {
    (inside(part), begun, fixed(rt))
}

/// Returns the values of a checkpoint before the first part of a block in a format S file, with a
/// record unfinished.
fn in_spanned(rt: &impl Abort) -> Told {
    (inside(0), true, spanned(rt))
}

#[test]
fn checkpoints_inside_a_file(rt: HostRuntime) {
    is_one(&rt, "the greatest", 9_999, in_spanned(&rt), MOST);
    is_none(&rt, "not known", 1, (inside(0), false, None), 0);
    is_one(&rt, "part 99,999", 1, at_part(&rt, 99_999, false), 0);
    is_none(&rt, "part 100,000", 1, at_part(&rt, 100_000, false), 0);
    is_none(&rt, "begun in format F", 1, at_part(&rt, 0, true), 0);
    let undefined = Some(known(&rt, Format::Undefined, 0));
    is_none(&rt, "begun in format U", 1, (inside(0), true, undefined), 0);
    let variable = Some(known(&rt, Format::Variable, 0));
    is_one(&rt, "begun in format V", 1, (inside(0), true, variable), 0);
    is_none(&rt, "too heavy", 1, at_part(&rt, 0, false), MOST + 1);
}

/// Returns the values of a checkpoint before block `block` of section `sect` in a format F file.
fn in_section(rt: &impl Abort, sect: u16, block: u32) -> Told {
    (Position::awaiting(sect, block), false, fixed(rt))
}

#[test]
fn checkpoints_by_their_section(rt: HostRuntime) {
    is_none(&rt, "section 0", 1, in_section(&rt, 0, 7), 0);
    is_one(
        &rt,
        "the last block",
        1,
        in_section(&rt, 9_999, 4_294_967_295),
        0,
    );
    is_none(&rt, "section 10,000", 1, in_section(&rt, 10_000, 0), 0);
}

#[test]
fn checkpoints_at_the_end_of_a_file(rt: HostRuntime) {
    is_one(&rt, "end", 1, (Position::Finished, false, fixed(&rt)), 0);
    is_none(
        &rt,
        "end, not known",
        1,
        (Position::Finished, false, None),
        0,
    );
    is_none(
        &rt,
        "end, begun",
        1,
        (Position::Finished, true, spanned(&rt)),
        0,
    );
}

/// Checks that a form with these values can be created, and returns them.
fn is_form(rt: &impl Abort, format: Format, rec_len: u32, offset: u8) {
    let file_id = Field::of_bytes(*b"PAYROLL          ");
    let form = Known::from_parts(format, rec_len, offset, file_id);
    let form = form.expect(rt, "no form");
    let same = form.format == format
        && form.rec_len == rec_len
        && form.offset == offset
        && form.file_id == file_id;
    assert!(rt; same, "{format:?}, {rec_len}, {offset}");
}

/// Checks that no form with these values can be created.
fn is_no_form(rt: &impl Abort, format: Format, rec_len: u32, offset: u8) {
    let file_id = Field::of_bytes(*b"PAYROLL          ");
    let form = Known::from_parts(format, rec_len, offset, file_id);
    assert!(rt; form.is_none(), "{format:?}, {rec_len}, {offset}");
}

#[test]
fn forms_in_range_and_out_of_it(rt: HostRuntime) {
    is_form(&rt, Format::Fixed, 1, 99);
    is_form(&rt, Format::Fixed, 99_999, 0);
    is_no_form(&rt, Format::Fixed, 0, 0);
    is_no_form(&rt, Format::Fixed, 100_000, 0);
    is_no_form(&rt, Format::Fixed, 80, 100);
    is_form(&rt, Format::Counted, 0, 0);
    is_no_form(&rt, Format::Counted, 14, 0);
    is_form(&rt, Format::Spanned, 0, 99);
    is_no_form(&rt, Format::Spanned, 1, 0);
    is_no_form(&rt, Format::Spanned, 0, 100);
    is_form(&rt, Format::Undefined, 0, 99);
    is_no_form(&rt, Format::Undefined, 1, 0);
    is_form(&rt, Format::Variable, 0, 99);
    is_no_form(&rt, Format::Variable, 1, 0);
}

/// Returns whether a reader of file number `file` can be created, rather than refused.
fn is_numbered(file: u16) -> bool {
    match ReaderCore::new(set_id(), file) {
        Ok(_) => true,
        Err(fault) => fault != CoreFault::FileNumber,
    }
}

#[test]
fn files_are_numbered(rt: HostRuntime) {
    let told = [
        is_numbered(0),
        is_numbered(1),
        is_numbered(9_999),
        is_numbered(10_000),
    ];
    assert!(rt; told == [false, true, true, false], "{told:?}");
}

#[test]
fn faults_have_numbers(rt: HostRuntime) {
    let numbers = [
        CoreFault::FileNumber.number(),
        CoreFault::OtherFile.number(),
    ];
    assert!(rt; numbers == [1, 2], "{numbers:?}");
}

/// Checks that the reader refuses to restart at the checkpoint `other`.
fn refuses(rt: &impl Abort, core: &mut ReaderCore, name: &str, other: &Checkpoint) {
    assert_eq!(rt; core.restart(other), Err(CoreFault::OtherFile), "{name}");
}

#[test]
fn a_checkpoint_of_another_file_changes_nothing(rt: HostRuntime) {
    let other = ReaderCore::new(Field::of_bytes(*b"XYZ001"), 1).expect(&rt, "no reader");
    let mut core = reader(&rt, 1);
    let first = [(Block(b"AAAA".as_slice()), Deliver)];
    read_section(
        &rt,
        &mut core,
        "first",
        (HDR1, HDR2),
        &first,
        wanted(1, 1, 0),
    );
    refuses(&rt, &mut core, "another set", &other.save(0));
    refuses(&rt, &mut core, "another file", &reader(&rt, 2).save(0));
    go_on(&rt, &mut core, "goes on", &[(Block(b"BBBB"), Deliver)]);
    wants(&rt, &core, "goes on", wanted(1, 2, 0));
}

/// Restarts the reader at `point`, and checks that it then expects `want`.
fn stands_at(rt: &impl Abort, core: &mut ReaderCore, point: &Checkpoint, want: Option<Want>) {
    go_to(rt, core, point);
    assert!(rt; core.save(point.staged) == *point);
    wants(rt, core, "there", want);
}

/// Reads a section of format S whose first block is `block`.
fn deliver(rt: &impl Abort, core: &mut ReaderCore, block: &[u8]) {
    front(rt, core, "headers", HDR1, HDR2_S);
    go_on(rt, core, "its first block", &[(Block(block), Deliver)]);
}

#[test]
fn a_restart_goes_back_in_all(rt: HostRuntime) {
    let mut core = reader(&rt, 1);
    let start = core.save(0);
    deliver(&rt, &mut core, b"10018abcdefghijklm");
    let later = core.save(18);
    let told = tells(&later, (Position::awaiting(1, 1), true, spanned(&rt)));
    assert!(rt; told && later.staged == 18);
    stands_at(&rt, &mut core, &start, wanted(1, 0, 0));
    assert!(rt; core.shape().is_none());
    // The reading has ended, no record is unfinished, and the form is unknown.
    go_on(
        &rt,
        &mut core,
        "over",
        &[(Block(b"00006Z"), Useless(ReelEnded))],
    );
    deliver(&rt, &mut core, b"00006Z");
    stands_at(&rt, &mut core, &later, wanted(1, 1, 0));
}
