//! Tests of blocks whose first parts were delivered.

use crate::readers::{front, go_on, go_to, known, read_section, reader, reader_at, wanted, wants};
use crate::reels::{EOF1, HDR1, HDR2_D, HDR2_S, counted};
use std::process::Abort;
use tape_blocks::{BlockCause, BlockFault};
use tape_core::Answer::{Complete, Deliver, Passed, Useless};
use tape_core::Event::{Block, Mark};
use tape_core::Reason::{BadBlock, SectionDiffers};
use tape_core::{Answer, Checkpoint, ReaderCore};
use tape_label::Format;
use tape_set::{Position, Want};

/// Checks the answer of a reader that continues inside the first block of the file.
fn at_block(
    rt: &impl Abort,
    number: usize,
    (part, begun): (u32, bool),
    (format, second): (Format, &[u8; 80]),
    (block, answer): (&[u8], Answer),
) {
    let at = Position::awaiting(1, 0).at_part(part);
    let mut core = reader_at(rt, at, begun, known(rt, format, 0));
    front(rt, &mut core, "the block comes", HDR1, second);
    assert_eq!(rt;
        core.step(Block(block)),
        answer,
        "row {number}: {part}, {begun}"
    );
}

/// Two records: `AB`, and an empty one.
const TWO: &[u8] = b"0006AB0004^^^^^^^^";

/// Returns the checkpoint inside a block of two records: the first was kept, with the weight 5 + 2,
/// and the second was refused.
fn inside(rt: &impl Abort, core: &mut ReaderCore) -> Checkpoint {
    front(rt, core, "the block comes", HDR1, HDR2_D);
    let before = core.save(0).position();
    assert_eq!(rt; core.step(Block(TWO)), Deliver);
    core.save(0).inside_block(before, 1, false, 7)
}

/// Processes `block` as the first block of the file, and checks that the reader answers `answer`
/// and then expects `want`.
fn take(
    rt: &impl Abort,
    core: &mut ReaderCore,
    name: &str,
    (block, answer): (&[u8], Answer),
    want: Option<Want>,
) {
    let row = [(Block(block), answer)];
    read_section(rt, core, name, (HDR1, HDR2_D), &row, want);
}

#[test]
fn a_refused_part_is_awaited(rt: HostRuntime) {
    let mut core = reader(&rt, 1);
    let point = inside(&rt, &mut core);
    assert!(rt; point.staged == 7);
    go_to(&rt, &mut core, &point);
    let inside = wanted(1, 0, 1);
    wants(&rt, &core, "inside the block", inside);
    let other = (b"0006AB^^^^^^^^^^^^".as_slice(), Useless(SectionDiffers));
    take(&rt, &mut core, "another block", other, inside);
    let again = (TWO, Deliver);
    take(&rt, &mut core, "again", again, wanted(1, 1, 0));
    let label = counted(EOF1, b"000001");
    let end = [(Mark, Passed), (Block(&label), Complete)];
    go_on(&rt, &mut core, "behind it", &end);
}

#[test]
fn a_block_has_more_parts_than_were_delivered(rt: HostRuntime) {
    let three = b"0006AB0005C0004^^^".as_slice();
    let second = (Format::Counted, HDR2_D);
    let rows = [(1, Deliver), (2, Deliver), (3, DIFFERS), (4, DIFFERS)];
    for (number, (part, answer)) in rows.iter().enumerate() {
        at_block(&rt, number, (*part, false), second, (three, *answer));
    }
}

/// The answer to a block of format S whose second part does not continue the record.
const BROKEN: Answer = Useless(BadBlock(BlockFault {
    place: 6,
    cause: BlockCause::SpanBroken,
}));

const DIFFERS: Answer = Useless(SectionDiffers);

/// Blocks with one delivered part, each with two answers: if a record is unfinished after that
/// part, and if none is.
const SPANS: &[(&[u8], Answer, Answer)] = &[
    // The end of a record that began in an earlier block, and a whole record.
    (b"30006Z00006Y", DIFFERS, Deliver),
    // The middle of a record that began in an earlier block, and its end.
    (b"20006Z30006Y", Deliver, DIFFERS),
    // A complete record, and the first piece of another.
    (b"00006Z10006Y", DIFFERS, Deliver),
    // The first piece of a record, and then another first piece: no valid file has such a block.
    (b"10006Z00006Y", BROKEN, BROKEN),
];

#[test]
fn a_block_goes_on_as_its_first_parts_left_it(rt: HostRuntime) {
    let second = (Format::Spanned, HDR2_S);
    for (number, (block, begun, not_begun)) in SPANS.iter().enumerate() {
        for (is_begun, answer) in [(true, *begun), (false, *not_begun)] {
            let part = (1, is_begun);
            at_block(&rt, number, part, second, (block, answer));
        }
    }
}
