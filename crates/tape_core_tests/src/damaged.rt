//! Tests of damaged reels: bad blocks, a lost mark, wrong counts and reels that end early.

use crate::readers::{go_on, go_to, play, read_section, reader, wanted, wants};
use crate::reels::{EOF1, EOF2, HDR1, HDR2, HDR2_S, VOL1, counted, numbered};
use std::process::Abort;
use tape_core::Answer::{Complete, Deliver, Passed, Useless};
use tape_core::Event::{Bad, Block, Mark, ReelEnd};
use tape_core::Reason::{
    BadItem, BadLabel, BlockCount, Broken, ReelEnded, SectionDiffers, SpanLeft,
};
use tape_core::{Answer, Event, ReaderCore, Reason};
use tape_label::LabelFault;
use tape_set::Want;

/// Reads the items after the headers of the file's only section, and checks that the reader then
/// expects `want`.
fn read_data(
    rt: &impl Abort,
    core: &mut ReaderCore,
    name: &str,
    row: &[(Event<'_>, Answer)],
    want: Option<Want>,
) {
    read_section(rt, core, name, (HDR1, HDR2), row, want);
}

#[test]
fn a_bad_block_stops_where_it_is_awaited_alone(rt: HostRuntime) {
    let mut core = reader(&rt, 1);
    let awaited = [
        (Block(b"0000".as_slice()), Deliver),
        (Block(b"1111"), Deliver),
        (Block(b"2222"), Deliver),
        (Bad, Useless(BadItem)),
    ];
    read_data(&rt, &mut core, "awaited", &awaited, wanted(1, 3, 0));
    let label = counted(EOF1, b"000005");
    let delivered = [
        (Block(b"0000".as_slice()), Passed),
        (Bad, Passed),
        (Block(b"2222"), Passed),
        (Block(b"3333"), Deliver),
        (Block(b"4444"), Deliver),
        (Mark, Passed),
        (Block(&label), Complete),
    ];
    read_data(&rt, &mut core, "delivered", &delivered, None);
}

#[test]
fn a_lost_mark_gives_no_block_of_another_file(rt: HostRuntime) {
    let mut core = reader(&rt, 2);
    read_section(
        &rt,
        &mut core,
        "a lost mark",
        (HDR1, HDR2),
        &[
            (Block(b"AAAA"), Passed),
            // The mark after the data is unreadable: the trailers are read as data, and the mark
            // after them as the closing mark.
            (Bad, Passed),
            (Block(&counted(EOF1, b"000001")), Passed),
            (Block(EOF2), Passed),
            (Mark, Passed),
            (
                Block(&numbered(HDR1, b"0001", b"0002")),
                Useless(BadLabel(LabelFault::Identifier)),
            ),
        ],
        Some(Want {
            file: 2,
            sect: 1,
            block: 0,
            part: 0,
        }),
    );
}

/// Reads five blocks of a section whose trailer has the count four.
fn read_with_wrong_count(rt: &impl Abort, core: &mut ReaderCore) {
    let five = [(Block(b"AAAA".as_slice()), Deliver); 5];
    read_section(
        rt,
        core,
        "five blocks",
        (HDR1, HDR2),
        &five,
        wanted(1, 5, 0),
    );
    let broken = Useless(BlockCount { label: 4, seen: 5 });
    go_on(
        rt,
        core,
        "a wrong count",
        &[
            (Mark, Passed),
            (Block(&counted(EOF1, b"000004")), broken),
            (Bad, Useless(Broken)),
            (ReelEnd, Useless(Broken)),
        ],
    );
    wants(rt, core, "a wrong count", wanted(1, 5, 0));
}

#[test]
fn a_wrong_count_breaks_the_reader_until_a_restart(rt: HostRuntime) {
    let mut core = reader(&rt, 1);
    read_with_wrong_count(&rt, &mut core);
    let row = [
        (Block(VOL1.as_slice()), Useless(Broken)),
        (Mark, Useless(Broken)),
    ];
    play(&rt, &mut core, "a broken reader", &row);
    let point = core.save(45);
    go_to(&rt, &mut core, &point);
    go_on(&rt, &mut core, "a restart", &[(Mark, Useless(ReelEnded))]);
    let row = [(Block(VOL1.as_slice()), Passed), (Block(HDR1), Passed)];
    play(&rt, &mut core, "behind the restart", &row);
    wants(&rt, &core, "behind the restart", wanted(1, 5, 0));
}

#[test]
fn a_reel_that_ends_before_its_trailer_completes_nothing(rt: HostRuntime) {
    let mut core = reader(&rt, 1);
    let ended = [
        (Block(b"AAAA".as_slice()), Deliver),
        (Block(b"BBBB"), Deliver),
        (Mark, Passed),
        (ReelEnd, Useless(ReelEnded)),
    ];
    read_data(&rt, &mut core, "the reel ends", &ended, wanted(1, 2, 0));
    let label = counted(EOF1, b"000002");
    let again = [
        (Block(b"AAAA".as_slice()), Passed),
        (Block(b"BBBB"), Passed),
        (Mark, Passed),
        (Block(&label), Complete),
    ];
    read_data(&rt, &mut core, "nothing comes twice", &again, None);
}

/// Checks that the trailer label of a section is refused if its one block leaves a record
/// unfinished.
fn refused_trailer(rt: &impl Abort, name: &str, label: &[u8], answer: Reason) {
    let row = [
        (Block(b"10018abcdefghijklm".as_slice()), Deliver),
        (Mark, Passed),
        (Block(label), Useless(answer)),
    ];
    read_section(
        rt,
        &mut reader(rt, 1),
        name,
        (HDR1, HDR2_S),
        &row,
        wanted(1, 1, 0),
    );
}

#[test]
fn the_rules_of_a_trailer_have_an_order(rt: HostRuntime) {
    let label = counted(&numbered(EOF1, b"0002", b"0001"), b"000009");
    refused_trailer(&rt, "numbers", &label, SectionDiffers);
    let count = BlockCount { label: 9, seen: 1 };
    refused_trailer(&rt, "count", &counted(EOF1, b"000009"), count);
    refused_trailer(&rt, "record begun", &counted(EOF1, b"000001"), SpanLeft);
}
