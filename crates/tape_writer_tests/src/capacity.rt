//! Tests of full volumes, and of the change to the next volume.

use crate::calls::Call::{Begin, BeginCounted, BeginSpanned, EndFile, Finish, Put, Records};
use crate::calls::{Row, follow};
use crate::images::{ended, have_lengths, written};
use crate::sets::{in_memory, on_images};
use std::alloc::Global;
use std::process::Abort;
use std::test::Fail;
use tape_image::Item;
use tape_writer::MemoryTapes;
use tape_writer::WriteFault::{CapacityTooSmall, Failed, OutOfVolumes, RecordLength};

/// A file whose end-of-file labels do not fit on the only volume.
const NO_ROOM: &[Row] = &[
    (Begin, Ok(()), 268),
    (Records(25), Ok(()), 1_884),
    (EndFile, Err(OutOfVolumes), 2_292),
    (Put(80), Err(Failed), 2_292),
    (EndFile, Err(Failed), 2_292),
    (Begin, Err(Failed), 2_292),
    (Finish, Err(Failed), 2_292),
];

#[test]
fn no_volume_left_for_the_file_end(rt: HostRuntime) -> Result<(), Fail> {
    let mut writer = on_images(rt.alloc(), 2_500, 1)?;
    follow(&rt, &mut writer, NO_ROOM);
    assert!(rt; ended(writer.into_out()) == (0, Some(2_292)));
    Ok(())
}

/// Returns true if the tapes contain the three labels, a tape mark and the three blocks, but no
/// closing labels.
fn are_seven_items(tapes: &MemoryTapes) -> bool {
    tapes.count() == 1
        && tapes.length(0) == 7
        && tapes.item(0, 6) == Some(Item::Block(&[b'7'; 400]))
}

#[test]
fn seven_items_where_no_volume_is_left(rt: HostRuntime) -> Result<(), Fail> {
    let mut writer = in_memory(rt.alloc(), 2_500, 1)?;
    follow(&rt, &mut writer, NO_ROOM);
    assert!(rt; are_seven_items(writer.out()));
    Ok(())
}

/// A set: its name, the capacity and the number of its volumes, the calls, and the lengths of the
/// images after them.
type Set<'a> = (&'a str, u32, usize, &'a [Row], &'a [usize]);

const SETS: &[Set<'_>] = &[
    (
        "segments over two volumes",
        1_042,
        2,
        &[
            (BeginSpanned(18), Ok(()), 268),
            (Put(290), Ok(()), 840),
            (EndFile, Ok(()), 478),
            (Finish, Ok(()), 486),
        ],
        &[1_032, 486],
    ),
    // 372 bytes are left after the end of the first file, for the headers of the second file and
    // the end of a volume. The first section of the second file has no blocks; its only block is on
    // the second volume.
    (
        "an empty section ended by EOV",
        2_848,
        2,
        &[
            (Begin, Ok(()), 268),
            (Records(25), Ok(()), 1_884),
            (EndFile, Ok(()), 2_476),
            (Begin, Ok(()), 2_656),
            (Records(10), Ok(()), 2_656),
            (EndFile, Ok(()), 1_260),
            (Finish, Ok(()), 1_268),
        ],
        &[2_848, 1_268],
    ),
    (
        "a block length that the capacity does not allow",
        2_500,
        1,
        &[
            (Begin, Ok(()), 268),
            (Put(80), Ok(()), 268),
            (EndFile, Ok(()), 540),
            (BeginSpanned(1_477), Err(CapacityTooSmall), 540),
            (BeginSpanned(1_476), Ok(()), 720),
            (EndFile, Ok(()), 904),
            (Finish, Ok(()), 912),
        ],
        &[912],
    ),
    (
        "record lengths at their limits",
        100_000,
        1,
        &[
            (Begin, Ok(()), 268),
            (Put(79), Err(RecordLength), 268),
            (Put(81), Err(RecordLength), 268),
            (Put(80), Ok(()), 268),
            (EndFile, Ok(()), 540),
            (BeginCounted, Ok(()), 720),
            (Put(17), Err(RecordLength), 720),
            (Put(16), Ok(()), 720),
            (Put(0), Ok(()), 720),
            (EndFile, Ok(()), 936),
            (BeginSpanned(18), Ok(()), 1_116),
            (Put(0), Ok(()), 1_116),
            (EndFile, Ok(()), 1_326),
            (Finish, Ok(()), 1_334),
        ],
        &[1_334],
    ),
];

/// Checks that writing the set produces images of the expected lengths.
fn is_written(rt: &impl Abort, alloc: Global, set: &Set<'_>) -> Result<(), Fail> {
    let (name, capacity, count, rows, lengths) = set;
    let images = written(rt, alloc, *capacity, *count, rows)?;
    assert!(rt; have_lengths(images.as_slice(), lengths), "{name}");
    Ok(())
}

#[test]
fn sets_of_full_volumes(rt: HostRuntime) -> Result<(), Fail> {
    for set in SETS {
        is_written(&rt, rt.alloc(), set)?;
    }
    Ok(())
}
