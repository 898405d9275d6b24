//! Tests of whole sections and files, read in any order and repeatedly.

use crate::readers::{
    front, go_on, go_to, known, play, read_section, reader, reader_at, wanted, wants,
};
use crate::reels::{
    EOF1, EOF2, EOV1, HDR1, HDR2, HDR2_D, HDR2_S, HDR3, UVL1, VOL1, counted, numbered,
};
use std::process::Abort;
use tape_blocks::{BlockCause, BlockFault};
use tape_core::Answer::{Complete, Deliver, Passed, SectionDone, Useless};
use tape_core::Event::{Bad, Block, Mark};
use tape_core::Reason::{
    BadBlock, BlockCount, EarlierSection, LaterSection, ReelEnded, SectionDiffers, SpanLeft,
};
use tape_core::{Answer, Event, ReaderCore};
use tape_label::Format;
use tape_set::{Position, Want};

/// The number of blocks in the long section.
const MANY: u32 = 1_000_003;

/// Reads a section of `MANY` items, checks that the answer to each is `answer`, and reads the mark
/// after them.
fn read_many(rt: &impl Abort, core: &mut ReaderCore, event: Event<'_>, answer: Answer) {
    front(rt, core, "a long section", HDR1, HDR2);
    for n in 0..MANY {
        if core.step(event) != answer {
            assert!(rt; false, "item {n}");
        }
    }
    go_on(rt, core, "behind its data", &[(Mark, Passed)]);
}

#[test]
fn a_long_section_is_counted_without_its_millions(rt: HostRuntime) {
    let mut core = reader(&rt, 1);
    read_many(&rt, &mut core, Block(b"AAAA"), Deliver);
    let point = core.save(0);
    go_on(
        &rt,
        &mut core,
        "its count",
        &[(Block(&counted(EOF1, b"000003")), Complete)],
    );
    go_to(&rt, &mut core, &point);
    wants(&rt, &core, "its end", wanted(1, MANY, 0));
    read_many(&rt, &mut core, Bad, Passed);
    let count = BlockCount {
        label: 4,
        seen: MANY,
    };
    go_on(
        &rt,
        &mut core,
        "a wrong count",
        &[(Block(&counted(EOF1, b"000004")), Useless(count))],
    );
    wants(&rt, &core, "a wrong count", wanted(1, MANY, 0));
}

/// Reads the second section of file 1, with the blocks `blocks`, which completes the file.
fn complete_second(
    rt: &impl Abort,
    core: &mut ReaderCore,
    name: &str,
    second: &[u8],
    blocks: &[(Event<'_>, Answer)],
    count: &[u8; 6],
) {
    front(rt, core, name, &numbered(HDR1, b"0002", b"0001"), second);
    go_on(rt, core, name, blocks);
    let end = counted(&numbered(EOF1, b"0002", b"0001"), count);
    let trailer = [(Mark, Passed), (Block(&end), Complete)];
    go_on(rt, core, "the trailer of section 2", &trailer);
    wants(rt, core, name, None);
}

/// Reads a first section without blocks; the form is known only after its end.
fn read_empty_section(rt: &impl Abort, core: &mut ReaderCore) {
    front(rt, core, "no blocks", HDR1, HDR2);
    assert!(rt; core.shape().is_none());
    go_on(
        rt,
        core,
        "its trailer",
        &[
            (Mark, Passed),
            (Block(EOV1), SectionDone),
            // The reading has ended: no item after the trailer is read.
            (Bad, Useless(ReelEnded)),
        ],
    );
    wants(rt, core, "the next section", wanted(2, 0, 0));
    let shape = core.shape().expect(rt, "no shape");
    assert!(rt; (shape.rec_len, shape.block_len, shape.offset) == (4, 0, 0));
}

#[test]
fn a_first_section_without_blocks_tells_the_form(rt: HostRuntime) {
    let mut core = reader(&rt, 1);
    read_empty_section(&rt, &mut core);
    let head = numbered(HDR1, b"0002", b"0001");
    play(
        &rt,
        &mut core,
        "another format",
        &[
            (Block(VOL1), Passed),
            (Block(&head), Passed),
            (Block(HDR2_D), Useless(SectionDiffers)),
        ],
    );
    let row = [(Block(b"AAAA".as_slice()), Deliver)];
    complete_second(&rt, &mut core, "the same format", HDR2, &row, b"000001");
}

/// Checks that a reader that expects section 9,999 answers `answer` to the trailer label `trailer`
/// of that section, which has no blocks, and then expects `want`.
fn read_last_section(
    rt: &impl Abort,
    name: &str,
    trailer: &[u8; 80],
    answer: Answer,
    want: Option<Want>,
) {
    let at = Position::awaiting(9999, 0);
    let mut core = reader_at(rt, at, false, known(rt, Format::Fixed, 4));
    let head = numbered(HDR1, b"9999", b"0001");
    let trailer = numbered(trailer, b"9999", b"0001");
    let row = [(Mark, Passed), (Block(&trailer), answer)];
    read_section(rt, &mut core, name, (&head, HDR2), &row, want);
}

#[test]
fn the_last_section_that_has_a_number(rt: HostRuntime) {
    let differs = Useless(SectionDiffers);
    read_last_section(&rt, "EOV1", EOV1, differs, wanted(9999, 0, 0));
    read_last_section(&rt, "EOF1", EOF1, Complete, None);
}

/// Returns VOL1 with `byte` at offset `place`.
fn changed_volume(place: usize, byte: u8) -> [u8; 80] {
    let mut label = *VOL1;
    if let Some(at) = label.get_mut(place) {
        *at = byte;
    }
    label
}

/// Returns an HDR2 from a system that uses the reserved positions, with two spaces as buffer
/// offset.
fn odd_second_header() -> [u8; 80] {
    let mut odd = *HDR2;
    odd[15..52].copy_from_slice(b"whatever the system has put in here  ");
    odd
}

/// Checks that the answer to each item is `Passed`.
fn pass(rt: &impl Abort, core: &mut ReaderCore, name: &str, items: &[Event<'_>]) {
    for (n, item) in items.iter().enumerate() {
        assert!(rt; core.step(*item) == Passed, "{name}: item {n}");
    }
}

/// Reads the first file of a volume with further labels of every kind.
fn pass_first_file(rt: &impl Abort, core: &mut ReaderCore) {
    core.mount();
    pass(
        rt,
        core,
        "an older volume",
        &[Block(&changed_volume(79, b'3'))],
    );
    pass(rt, core, "VOL2", &[Block(&changed_volume(3, b'2'))]);
    pass(rt, core, "labels", &[Block(UVL1), Block(HDR1)]);
    pass(rt, core, "HDR2", &[Block(&odd_second_header())]);
    pass(
        rt,
        core,
        "headers",
        &[Block(HDR3), Block(b"UHL1"), Mark, Mark],
    );
    let trailers = [
        Block(EOF1.as_slice()),
        Block(EOF2),
        Block(b"EOF3"),
        Block(b"UTL1"),
        Mark,
    ];
    pass(rt, core, "trailers", &trailers);
}

#[test]
fn further_labels_of_every_kind_are_passed(rt: HostRuntime) {
    let mut core = reader(&rt, 2);
    pass_first_file(&rt, &mut core);
    pass(
        &rt,
        &mut core,
        "HDR1",
        &[Block(&numbered(HDR1, b"0001", b"0002"))],
    );
    pass(&rt, &mut core, "HDR2 again", &[Block(&odd_second_header())]);
    let end = numbered(EOF1, b"0001", b"0002");
    go_on(
        &rt,
        &mut core,
        "the second file",
        &[
            (Block(HDR3), Passed),
            (Mark, Passed),
            (Block(b"AAAA"), Deliver),
            (Mark, Passed),
            (Block(&counted(&end, b"000001")), Complete),
        ],
    );
}

const FIRST: &[u8] = b"10018abcdefghijklm";

const MIDDLE: &[u8] = b"20018nopqrstuvwxyz";

const LAST: &[u8] = b"300090123^^^^^^^^^";

/// Returns the answer to a block that continues a record although no record is unfinished, or the
/// converse.
const fn span_broken() -> Answer {
    Useless(BadBlock(BlockFault {
        place: 0,
        cause: BlockCause::SpanBroken,
    }))
}

/// Reads the items of the first section, of format S, and checks that the reader then expects
/// `want`.
fn read_spanned(
    rt: &impl Abort,
    core: &mut ReaderCore,
    name: &str,
    row: &[(Event<'_>, Answer)],
    want: Option<Want>,
) {
    read_section(rt, core, name, (HDR1, HDR2_S), row, want);
}

/// Reads the first section, in which a record begins.
fn read_front_of_record(rt: &impl Abort, core: &mut ReaderCore) {
    let middle = [(Block(MIDDLE), span_broken())];
    read_spanned(rt, core, "no record is begun", &middle, wanted(1, 0, 0));
    let left = [
        (Block(FIRST), Deliver),
        (Mark, Passed),
        (Block(&counted(EOF1, b"000001")), Useless(SpanLeft)),
    ];
    read_spanned(rt, core, "a record is left begun", &left, wanted(1, 1, 0));
    let goes_on = [
        (Bad, Passed),
        (Mark, Passed),
        (Block(&counted(EOV1, b"000001")), SectionDone),
    ];
    read_spanned(rt, core, "it runs on", &goes_on, wanted(2, 0, 0));
}

#[test]
fn records_run_on_over_blocks_and_volumes(rt: HostRuntime) {
    let mut core = reader(&rt, 1);
    read_front_of_record(&rt, &mut core);
    let head = numbered(HDR1, b"0002", b"0001");
    let first = [(Block(FIRST), span_broken())];
    front(&rt, &mut core, "another record", &head, HDR2_S);
    go_on(&rt, &mut core, "another record", &first);
    wants(&rt, &core, "another record", wanted(2, 0, 0));
    let row = [(Block(MIDDLE), Deliver), (Block(LAST), Deliver)];
    complete_second(&rt, &mut core, "its end", HDR2_S, &row, b"000002");
}

/// Reads the first volume with its section.
fn read_first_volume(rt: &impl Abort, core: &mut ReaderCore) {
    let row = [
        (Block(b"AAAA".as_slice()), Deliver),
        (Mark, Passed),
        (Block(&counted(EOV1, b"000001")), SectionDone),
    ];
    read_section(rt, core, "volume 1", (HDR1, HDR2), &row, wanted(2, 0, 0));
}

/// Checks that a volume whose section is not the expected one gets the answer `answer`.
fn refuse_volume(rt: &impl Abort, core: &mut ReaderCore, name: &str, head: &[u8], answer: Answer) {
    play(
        rt,
        core,
        name,
        &[(Block(VOL1), Passed), (Block(head), answer)],
    );
}

#[test]
fn volumes_are_mounted_in_any_order(rt: HostRuntime) {
    let mut core = reader(&rt, 1);
    let head = numbered(HDR1, b"0002", b"0001");
    refuse_volume(&rt, &mut core, "2 before 1", &head, Useless(LaterSection));
    read_first_volume(&rt, &mut core);
    refuse_volume(&rt, &mut core, "1 again", HDR1, Useless(EarlierSection));
    let row = [(Block(b"BBBB".as_slice()), Deliver)];
    complete_second(&rt, &mut core, "volume 2", HDR2, &row, b"000001");
}
