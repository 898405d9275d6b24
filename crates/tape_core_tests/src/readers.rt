//! Readers, and functions that pass events to them.

use crate::reels::VOL1;
use std::process::Abort;
use tape_core::Answer::Passed;
use tape_core::Event::{Block, Mark};
use tape_core::{Answer, Checkpoint, Event, Known, ReaderCore};
use tape_label::{Field, Format};
use tape_set::{Position, Want};

pub(crate) fn set_id() -> Field<6> {
    Field::of_bytes(*b"ABC001")
}

/// Returns the form in HDR1 and in a second label with format `format`.
pub(crate) fn known(rt: &impl Abort, format: Format, rec_len: u32) -> Known {
    let file_id = Field::of_bytes(*b"PAYROLL          ");
    Known::from_parts(format, rec_len, 0, file_id).expect(rt, "no form")
}

/// Returns a checkpoint at `position` in file `file`, with the form `known`.
pub(crate) fn point_at(
    rt: &impl Abort,
    file: u16,
    (position, begun): (Position, bool),
    known: Option<Known>,
) -> Checkpoint {
    let point = Checkpoint::from_parts(set_id(), file, position, begun, known, 0);
    point.expect(rt, "no checkpoint")
}

/// Returns a reader of file number `file`, at the start of the file.
pub(crate) fn reader(rt: &impl Abort, file: u16) -> ReaderCore {
    ReaderCore::new(set_id(), file).expect(rt, "no reader")
}

/// Restarts the reader at the checkpoint.
pub(crate) fn go_to(rt: &impl Abort, core: &mut ReaderCore, point: &Checkpoint) {
    let went = core.restart(point).is_ok();
    assert!(rt; went, "another file");
}

/// Returns a reader of file 1 that continues at `position`, with the form known.
pub(crate) fn reader_at(
    rt: &impl Abort,
    position: Position,
    begun: bool,
    known: Known,
) -> ReaderCore {
    ReaderCore::at(&point_at(rt, 1, (position, begun), Some(known)))
}

/// Returns part `part` of block `block` of section `sect` of file 1, as a `Want`.
pub(crate) fn wanted(sect: u16, block: u32, part: u32) -> Option<Want> {
    Some(Want {
        file: 1,
        sect,
        block,
        part,
    })
}

/// Checks that the reader expects `want` next.
pub(crate) fn wants(rt: &impl Abort, core: &ReaderCore, name: &str, want: Option<Want>) {
    assert_eq!(rt; core.want(), want, "{name}");
}

/// Processes the next events of the mounted reel, and checks the answers.
pub(crate) fn go_on(
    rt: &impl Abort,
    core: &mut ReaderCore,
    name: &str,
    row: &[(Event<'_>, Answer)],
) {
    for (n, (event, answer)) in row.iter().enumerate() {
        assert_eq!(rt; core.step(*event), *answer, "{name}: event {n}");
    }
}

/// Mounts a reel, processes its events, and checks the answers.
pub(crate) fn play(
    rt: &impl Abort,
    core: &mut ReaderCore,
    name: &str,
    row: &[(Event<'_>, Answer)],
) {
    core.mount();
    go_on(rt, core, name, row);
}

/// Mounts a reel, and reads the beginning of a section, up to the mark after its headers.
pub(crate) fn front<'x>(
    rt: &impl Abort,
    core: &mut ReaderCore,
    name: &str,
    head: &'x [u8],
    second: &'x [u8],
) {
    play(
        rt,
        core,
        name,
        &[
            (Block(VOL1), Passed),
            (Block(head), Passed),
            (Block(second), Passed),
            (Mark, Passed),
        ],
    );
}

/// Reads the beginning of a section as `front` does, processes the items after the mark, and checks
/// that the reader then expects `want`.
pub(crate) fn read_section<'x>(
    rt: &impl Abort,
    core: &mut ReaderCore,
    name: &str,
    (head, second): (&'x [u8], &'x [u8]),
    row: &[(Event<'_>, Answer)],
    want: Option<Want>,
) {
    front(rt, core, name, head, second);
    go_on(rt, core, name, row);
    wants(rt, core, name, want);
}
