//! Tests of every reading of small volumes, compared with a simple program for the resulting
//! position.

use crate::readers::{go_to, known, point_at, reader};
use crate::reels::{EOF1, EOF2, EOV1, HDR1, HDR2, VOL1, counted, numbered};
use std::process::Abort;
use tape_core::Event::{Bad, Block, Mark};
use tape_core::{Checkpoint, Event, ReaderCore};
use tape_label::Format;
use tape_set::Position;

/// An item of a volume, as classified for one section.
#[derive(Clone, Copy)]
enum Kind {
    /// A label or a mark before the data of the section.
    Front,
    /// A data block of an earlier file.
    Passed,
    /// A data block of the section.
    Data,
    /// The mark after the data, and the trailer.
    Closing,
    /// An item after the trailer.
    Behind,
}

/// Returns the position after reading section `sect` up to block `block`: `closed` says whether all
/// its blocks and its trailer label were read, `last` whether it ends its file.
fn behind((sect, block): (u16, u32), closed: bool, last: bool) -> Position {
    if !closed {
        Position::awaiting(sect, block)
    } else if last {
        Position::Finished
    } else {
        Position::awaiting(sect.saturating_add(1), 0)
    }
}

/// Returns the position after a reading of the beginning of a volume: `good` says, beginning with
/// its lowest bit, which items were readable. `ends` says whether the volume's section ends its
/// file, or is `None` if the expected section is on another volume.
fn far(
    volume: &[(Event<'_>, Kind)],
    good: u32,
    (sect, at): (u16, u32),
    ends: Option<bool>,
) -> Position {
    let start = Position::awaiting(sect, at);
    let (mut left, mut seen, mut block, mut closed) = (good, 0u32, at, 0u32);
    for (_, kind) in volume {
        let well = left % 2 == 1;
        left /= 2;
        match kind {
            Kind::Front if !well => return start,
            Kind::Data if well && seen == block => {
                seen = seen.saturating_add(1);
                block = seen;
            }
            Kind::Data => seen = seen.saturating_add(1),
            Kind::Closing if well => closed = closed.saturating_add(1),
            _ => {}
        }
    }
    match ends {
        None => start,
        Some(last) => behind((sect, block), closed == 2 && block == seen, last),
    }
}

/// Reads the beginning of a volume from a position, with the readable items that `good` says.
fn read_so(
    rt: &impl Abort,
    core: &mut ReaderCore,
    (point, at): (&Checkpoint, (u16, u32)),
    front: &[(Event<'_>, Kind)],
    good: u32,
    ends: Option<bool>,
) {
    go_to(rt, core, point);
    core.mount();
    let mut left = good;
    for (event, _) in front {
        let _ = core.step(if left % 2 == 1 { *event } else { Bad });
        left /= 2;
    }
    let led = far(front, good, at, ends);
    assert!(rt; core.position() == led, "{good:b} of {}", front.len());
}

/// Reads every beginning of the volume with every combination of readable items, and returns the
/// number of readings.
fn each_reading(
    rt: &impl Abort,
    core: &mut ReaderCore,
    from: (&Checkpoint, (u16, u32)),
    volume: &[(Event<'_>, Kind)],
    ends: Option<bool>,
) -> u32 {
    let (mut ways, mut many) = (0u32, 1u32);
    for met in 0..=volume.len() {
        let front = volume.get(..met).unwrap_or(&[]);
        for good in 0..many {
            read_so(rt, core, from, front, good, ends);
        }
        ways = ways.saturating_add(many);
        many = many.saturating_mul(2);
    }
    ways
}

/// Reads the volume of the first section as `each_reading` does.
fn each_of_first(
    rt: &impl Abort,
    core: &mut ReaderCore,
    point: &Checkpoint,
    at: (u16, u32),
    ends: Option<bool>,
) -> u32 {
    each_reading(
        rt,
        core,
        (point, at),
        &[
            (Block(VOL1), Kind::Front),
            (Block(HDR1), Kind::Front),
            (Block(HDR2), Kind::Front),
            (Mark, Kind::Front),
            (Block(b"AAAA"), Kind::Data),
            (Block(b"BBBB"), Kind::Data),
            (Mark, Kind::Closing),
            (Block(&counted(EOV1, b"000002")), Kind::Closing),
            (Mark, Kind::Behind),
            (Mark, Kind::Behind),
        ],
        ends,
    )
}

/// Reads the volume of the second section as `each_reading` does.
fn each_of_second(
    rt: &impl Abort,
    core: &mut ReaderCore,
    point: &Checkpoint,
    at: (u16, u32),
    ends: Option<bool>,
) -> u32 {
    let head = numbered(HDR1, b"0002", b"0001");
    let end = counted(&numbered(EOF1, b"0002", b"0001"), b"000002");
    each_reading(
        rt,
        core,
        (point, at),
        &[
            (Block(VOL1), Kind::Front),
            (Block(&head), Kind::Front),
            (Block(HDR2), Kind::Front),
            (Mark, Kind::Front),
            (Block(b"CCCC"), Kind::Data),
            (Block(b"DDDD"), Kind::Data),
            (Mark, Kind::Closing),
            (Block(&end), Kind::Closing),
            (Block(EOF2), Kind::Behind),
            (Mark, Kind::Behind),
            (Mark, Kind::Behind),
        ],
        ends,
    )
}

/// Returns the checkpoint at a position in a format F file.
fn point_of(rt: &impl Abort, file: u16, (sect, block): (u16, u32)) -> Checkpoint {
    let position = Position::awaiting(sect, block);
    let known = if position.is_start() {
        None
    } else {
        Some(known(rt, Format::Fixed, 4))
    };
    point_at(rt, file, (position, false), known)
}

/// Reads both volumes from a position as `each_reading` does.
fn each_from(rt: &impl Abort, at: (u16, u32)) {
    let mut core = reader(rt, 1);
    let point = point_of(rt, 1, at);
    let (sect, _) = at;
    let ends = if sect == 1 { Some(false) } else { None };
    let first = each_of_first(rt, &mut core, &point, at, ends);
    let ends = if sect == 2 { Some(true) } else { None };
    let second = each_of_second(rt, &mut core, &point, at, ends);
    // The sum of the powers of two for 0 to 10 items, and for 0 to 11.
    assert!(rt; first == 2_047 && second == 4_095, "{first}, {second}");
}

#[test]
fn each_reading_leads_where_it_should(rt: HostRuntime) {
    for block in 0..3 {
        each_from(&rt, (1, block));
        each_from(&rt, (2, block));
    }
}

/// Reads a volume that begins with another file, from block `block`.
fn each_behind(rt: &impl Abort, block: u32) {
    let head = numbered(HDR1, b"0001", b"0002");
    let end = counted(&numbered(EOF1, b"0001", b"0002"), b"000001");
    let volume = [
        (Block(VOL1.as_slice()), Kind::Front),
        (Block(HDR1), Kind::Front),
        (Block(HDR2), Kind::Front),
        (Mark, Kind::Front),
        // A block of the earlier file that resembles its trailer label.
        (Block(&counted(EOF1, b"000001")), Kind::Passed),
        (Mark, Kind::Front),
        (Block(&counted(EOF1, b"000001")), Kind::Front),
        (Mark, Kind::Front),
        (Block(&head), Kind::Front),
        (Block(HDR2), Kind::Front),
        (Mark, Kind::Front),
        (Block(b"AAAA"), Kind::Data),
        (Mark, Kind::Closing),
        (Block(&end), Kind::Closing),
        (Mark, Kind::Behind),
        (Mark, Kind::Behind),
    ];
    let point = point_of(rt, 2, (1, block));
    let from = (&point, (1, block));
    let ways = each_reading(rt, &mut reader(rt, 2), from, &volume, Some(true));
    assert!(rt; ways == 131_071, "block {block}");
}

#[test]
fn each_reading_behind_another_file_leads_where_it_should(rt: HostRuntime) {
    each_behind(&rt, 0);
    each_behind(&rt, 1);
}
