//! Tests of the example image, item by item, and of parts of it.

use super::checks::{is_so, same_count, same_ending};
use super::devices::Dribble;
use super::images::{GAP, ITEMS, front, whole_items, worked};
use super::readers::{ends, fails, passes};
use std::alloc::Global;
use std::io::Read;
use std::process::Abort;
use std::test::Fail;
use tape_image::{Ending, ImageCause, ImageFault, ImageReader, Item};

/// Checks that the reader returns the item with the contents `content`.
fn gives_item<R: Read>(
    rt: &impl Abort,
    row: usize,
    reader: &mut ImageReader<'_, R>,
    content: Option<&[u8]>,
) {
    let item = match content {
        Some(content) => Item::Block(content),
        None => Item::Mark,
    };
    same_ending(rt, row, reader.ending(), None);
    is_so(rt, row, reader.next() == Ok(Some(item)));
}

/// Reads the items of the example image one after another, and then its end at offset `end`.
fn reads_each_item<R: Read>(
    rt: &impl Abort,
    alloc: Global,
    device: &mut R,
    end: u64,
) -> Result<(), Fail> {
    let mut reader = ImageReader::new(alloc, device)?;
    for (row, item) in ITEMS.iter().enumerate() {
        let content = item.content(alloc)?;
        gives_item(rt, row, &mut reader, content.as_deref());
    }
    ends(rt, ITEMS.len(), &mut reader, Ending::Marked, end);
    Ok(())
}

#[test]
fn the_worked_image_is_read_item_by_item(rt: HostRuntime) -> Result<(), Fail> {
    let image = worked(rt.alloc(), b"")?;
    same_count(&rt, 0, image.len() as u64, 2_484);
    let mut device = image.as_slice();
    reads_each_item(&rt, rt.alloc(), &mut device, 2_484)?;
    is_so(&rt, 0, device.is_empty());
    Ok(())
}

#[test]
fn a_device_may_give_one_byte_a_call(rt: HostRuntime) -> Result<(), Fail> {
    let image = worked(rt.alloc(), b"")?;
    reads_each_item(&rt, rt.alloc(), &mut Dribble(image.as_slice()), 2_484)
}

#[test]
fn gaps_change_no_item(rt: HostRuntime) -> Result<(), Fail> {
    let image = worked(rt.alloc(), &GAP)?;
    let end = 2_484 + 13 * 4;
    reads_each_item(&rt, rt.alloc(), &mut image.as_slice(), end)?;
    reads_each_item(&rt, rt.alloc(), &mut Dribble(image.as_slice()), end)
}

#[test]
fn bytes_behind_the_end_word_stay_on_the_device(rt: HostRuntime) -> Result<(), Fail> {
    let mut image = worked(rt.alloc(), b"")?;
    image.extend_from_slice(b"behind")?;
    let mut device = image.as_slice();
    reads_each_item(&rt, rt.alloc(), &mut device, 2_484)?;
    is_so(&rt, 0, device == b"behind".as_slice());
    Ok(())
}

#[test]
fn the_device_is_given_back(rt: HostRuntime) -> Result<(), Fail> {
    let image = worked(rt.alloc(), b"")?;
    let mut device = image.as_slice();
    let mut reader = ImageReader::new(rt.alloc(), &mut device)?;
    passes(&rt, 0, &mut reader, 1);
    same_count(&rt, 0, reader.place(), 88);
    same_count(&rt, 1, reader.into_device().len() as u64, 2_484 - 88);
    Ok(())
}

/// Reads the complete items in `front`, a prefix of the example image, and then its end.
fn reads_a_front(rt: &impl Abort, alloc: Global, front: &[u8]) -> Result<(), Fail> {
    let size = front.len();
    let (items, start) = whole_items(size);
    let mut device = front;
    let mut reader = ImageReader::new(alloc, &mut device)?;
    passes(rt, size, &mut reader, items);
    let place = start as u64;
    same_count(rt, size, reader.place(), place);
    if size == start {
        ends(rt, size, &mut reader, Ending::Physical, place);
    } else {
        let cause = ImageCause::Truncated;
        fails(rt, size, &mut reader, ImageFault { place, cause });
    }
    Ok(())
}

#[test]
fn an_image_that_is_cut_gives_its_whole_items(rt: HostRuntime) -> Result<(), Fail> {
    let image = worked(rt.alloc(), b"")?;
    for size in 0..image.len() {
        reads_a_front(&rt, rt.alloc(), front(image.as_slice(), size))?;
    }
    Ok(())
}
