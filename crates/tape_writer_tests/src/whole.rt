//! Tests of sets that are written completely, compared byte by byte and by length.

use crate::calls::Call::{Begin, BeginSpanned, EndFile, Finish, Put, Records};
use crate::calls::{Row, follow, perform};
use crate::images::Piece::{Block, End, Mark};
use crate::images::{Piece, ended, ends_with, image_of, written};
use crate::sets::{in_memory, on_images};
use crate::texts::*;
use crate::volumes::{first_of_two, second_of_two};
use std::alloc::Global;
use std::process::Abort;
use std::test::Fail;
use tape_image::Item;
use tape_writer::MemoryTapes;

/// The bytes of 25 records of 80 bytes.
const SEVENS: [u8; 2_000] = [b'7'; 2_000];

/// Sets on one volume: a name, the calls, an offset in the image, and the bytes from that offset to
/// its end.
const ON_ONE_VOLUME: &[(&str, &[Row], usize, &[Piece<'_>])] = &[
    (
        "a file of 25 records",
        &[
            (Begin, Ok(()), 268),
            (Records(25), Ok(()), 1_884),
            (EndFile, Ok(()), 2_476),
            (Finish, Ok(()), 2_484),
        ],
        0,
        &[
            Block(VOL1_FIRST),
            Block(HDR1),
            Block(HDR2),
            Mark,
            Block(&[b'7'; 800]),
            Block(&[b'7'; 800]),
            Block(&[b'7'; 400]),
            Mark,
            Block(EOF1),
            Block(EOF2),
            Mark,
            Mark,
            End,
        ],
    ),
    (
        "a file without records",
        &[
            (Begin, Ok(()), 268),
            (EndFile, Ok(()), 452),
            (Finish, Ok(()), 460),
        ],
        0,
        &[
            Block(VOL1_FIRST),
            Block(HDR1),
            Block(HDR2),
            Mark,
            Mark,
            Block(EOF1_EMPTY),
            Block(EOF2),
            Mark,
            Mark,
            End,
        ],
    ),
    (
        "the second of two files",
        &[
            (Begin, Ok(()), 268),
            (Records(25), Ok(()), 1_884),
            (EndFile, Ok(()), 2_476),
            (Begin, Ok(()), 2_656),
            (Put(80), Ok(()), 2_656),
            (EndFile, Ok(()), 2_928),
            (Finish, Ok(()), 2_936),
        ],
        2_476,
        &[
            Block(HDR1_SECOND_FILE),
            Block(HDR2),
            Mark,
            Block(&[b'7'; 80]),
            Mark,
            Block(EOF1_SECOND_FILE),
            Block(EOF2),
            Mark,
            Mark,
            End,
        ],
    ),
];

/// Checks that the calls of `rows` write one volume that ends with `pieces`.
fn is_written(
    rt: &impl Abort,
    alloc: Global,
    name: &str,
    rows: &[Row],
    behind: usize,
    pieces: &[Piece],
) -> Result<(), Fail> {
    let images = written(rt, alloc, 100_000, 1, rows)?;
    let wanted = image_of(alloc, pieces)?;
    assert!(rt;
        ends_with(images.as_slice(), 0, behind, wanted.as_slice()),
        "{name}"
    );
    Ok(())
}

#[test]
fn one_volume_byte_by_byte(rt: HostRuntime) -> Result<(), Fail> {
    for (name, rows, behind, pieces) in ON_ONE_VOLUME {
        is_written(&rt, rt.alloc(), name, rows, *behind, pieces)?;
    }
    Ok(())
}

/// The calls that write 25 records on two volumes.
const TWO_VOLUMES: &[Row] = &[
    (Begin, Ok(()), 268),
    (Records(25), Ok(()), 1_884),
    (EndFile, Ok(()), 452),
    (Finish, Ok(()), 460),
];

/// Returns true if `images` are the images of the two volumes.
fn are_both(alloc: Global, images: &[Vec<u8>]) -> Result<bool, Fail> {
    let first = first_of_two(alloc, &SEVENS)?;
    let second = second_of_two(alloc)?;
    Ok(
        images.len() == 2
            && ends_with(images, 0, 0, first.as_slice())
            && ends_with(images, 1, 0, second.as_slice()),
    )
}

#[test]
fn file_end_on_the_second_volume(rt: HostRuntime) -> Result<(), Fail> {
    let images = written(&rt, rt.alloc(), 2_500, 2, TWO_VOLUMES)?;
    assert!(rt; are_both(rt.alloc(), images.as_slice())?);
    Ok(())
}

/// A set that has ended has no current volume.
#[test]
fn nothing_is_under_way_at_the_end(rt: HostRuntime) -> Result<(), Fail> {
    let mut writer = on_images(rt.alloc(), 2_500, 2)?;
    assert!(rt; writer.used() == 0);
    follow(&rt, &mut writer, TWO_VOLUMES);
    assert!(rt; ended(writer.into_out()) == (2, None));
    Ok(())
}

#[test]
fn a_record_over_many_blocks(rt: HostRuntime) -> Result<(), Fail> {
    let record = Vec::from_elem(rt.alloc(), b'x', 3_000_000)?;
    let mut writer = on_images(rt.alloc(), 4_000_000, 1)?;
    follow(&rt, &mut writer, &[(BeginSpanned(9_999), Ok(()), 268)]);
    writer.put(record.as_slice())?;
    perform(&mut writer, EndFile)?;
    follow(&rt, &mut writer, &[(Finish, Ok(()), 3_004_674)]);
    Ok(())
}

/// The numbers of in-memory volumes, and the number of items on each.
const LENGTHS: &[(usize, usize)] = &[(0, 12), (1, 9), (2, 0)];

/// Some of the items on these volumes.
const ITEMS: &[(usize, usize, Option<Item<'_>>)] = &[
    (0, 8, Some(Item::Block(EOV1))),
    (0, 11, Some(Item::Mark)),
    (0, 12, None),
    (1, 0, Some(Item::Block(VOL1_SECOND))),
    (2, 0, None),
];

/// Checks that the two in-memory volumes are those written for 25 records.
fn are_two(rt: &impl Abort, tapes: &MemoryTapes) {
    assert!(rt; tapes.count() == 2);
    for (volume, length) in LENGTHS {
        assert!(rt; tapes.length(*volume) == *length, "volume {volume}");
    }
    for (volume, place, item) in ITEMS {
        assert!(rt;
            tapes.item(*volume, *place) == *item,
            "volume {volume}, item {place}"
        );
    }
}

#[test]
fn items_in_memory(rt: HostRuntime) -> Result<(), Fail> {
    let mut writer = in_memory(rt.alloc(), 2_500, 2)?;
    assert!(rt; writer.out().count() == 0);
    follow(&rt, &mut writer, TWO_VOLUMES);
    are_two(&rt, writer.out());
    Ok(())
}
