//! Tests of the writer: its bytes, its refusals, and devices that accept few bytes or fail.

use super::checks::{is_so, same_count, same_write_fault};
use super::images::front;
use super::readers::reads;
use super::takers::{Counting, FailsOnce, Narrow};
use super::writers::{Call, Row, answers};
use std::alloc::Global;
use std::io::ErrorKind;
use std::process::Abort;
use std::test::Fail;
use tape_image::ImageWriteFault::{BlockLength, Device, Finished};
use tape_image::{Ending, ImageWriteFault, ImageWriter, Item};

/// A block of three bytes with its pad byte, a mark, a block of two bytes, and the end-of-medium
/// marker.
const IMAGE: [u8; 30] = [
    3, 0, 0, 0, 7, 8, 9, 0, 3, 0, 0, 0, 0, 0, 0, 0, 2, 0, 0, 0, 5, 6, 2, 0, 0, 0, 0xFF, 0xFF, 0xFF,
    0xFF,
];

/// The calls that write `IMAGE`, and the size after each call.
const CALLS: [Row<'static>; 4] = [
    (Call::Block(&[7, 8, 9]), None, 12),
    (Call::Mark, None, 16),
    (Call::Block(&[5, 6]), None, 26),
    (Call::Finish, None, 30),
];

/// Returns the bytes that a new writer writes in the calls of `rows`, after checking their results.
fn written(rt: &impl Abort, alloc: Global, rows: &[Row<'_>]) -> Vec<u8> {
    let mut image = Vec::new(alloc);
    let mut writer = ImageWriter::new(&mut image);
    same_count(rt, 0, writer.size(), 0);
    answers(rt, &mut writer, rows);
    drop(writer);
    image
}

#[test]
fn an_image_is_written(rt: HostRuntime) -> Result<(), Fail> {
    let image = written(&rt, rt.alloc(), &CALLS);
    is_so(&rt, 4, image.as_slice() == IMAGE.as_slice());
    Ok(())
}

#[test]
fn what_was_written_is_read(rt: HostRuntime) -> Result<(), Fail> {
    let rows = [
        (Item::Block(&[7, 8, 9]), 12),
        (Item::Mark, 16),
        (Item::Block(&[5, 6]), 26),
    ];
    reads(&rt, rt.alloc(), &IMAGE, &rows, Ending::Marked, 30)
}

#[test]
fn bytes_that_the_device_holds_stay(rt: HostRuntime) -> Result<(), Fail> {
    let before = b"before".to_vec(rt.alloc())?;
    let mut writer = ImageWriter::new(before);
    answers(&rt, &mut writer, &[(Call::Mark, None, 4)]);
    is_so(
        &rt,
        1,
        writer.into_device().as_slice() == b"before\0\0\0\0".as_slice(),
    );
    Ok(())
}

#[test]
fn a_block_has_1_to_99999_bytes(rt: HostRuntime) -> Result<(), Fail> {
    let bytes = Vec::from_elem(rt.alloc(), 0u8, 100_000)?;
    let longest = front(bytes.as_slice(), 99_999);
    let mut writer = ImageWriter::new(Counting { taken: 0, calls: 0 });
    let rows = [
        (Call::Block(b""), Some(BlockLength), 0),
        (Call::Block(bytes.as_slice()), Some(BlockLength), 0),
        (Call::Block(longest), None, 100_008),
        (Call::Block(b"x"), None, 100_018),
    ];
    answers(&rt, &mut writer, &rows);
    same_count(&rt, 4, writer.into_device().taken, 100_018);
    Ok(())
}

#[test]
fn nothing_is_written_behind_the_end_word(rt: HostRuntime) -> Result<(), Fail> {
    let rows = [
        (Call::Finish, None, 4),
        (Call::Mark, Some(Finished), 4),
        (Call::Block(&[7]), Some(Finished), 4),
        (Call::Block(&[]), Some(Finished), 4),
        (Call::Finish, Some(Finished), 4),
    ];
    let image = written(&rt, rt.alloc(), &rows);
    is_so(&rt, 5, image.as_slice() == [0xFF; 4].as_slice());
    Ok(())
}

/// Writes the items of `IMAGE` and its end-of-medium marker to a device, continues after a refusal,
/// and returns the first fault and the size of the image.
fn writes_the_image(device: &mut Narrow) -> (Option<ImageWriteFault>, u64) {
    let mut writer = ImageWriter::new(device);
    let mut fault = None;
    for (call, _, _) in CALLS {
        fault = fault.or(call.on(&mut writer));
    }
    (fault, writer.size())
}

/// Returns the size of the items that end within the first `left` bytes of `IMAGE`.
fn whole_items(left: usize) -> u64 {
    match left {
        0..12 => 0,
        12..16 => 12,
        16..26 => 16,
        26..30 => 26,
        _ => 30,
    }
}

/// Checks that a device that accepts `left` bytes, and then fails or accepts nothing, contains a
/// prefix of `IMAGE`.
fn holds_a_front(rt: &impl Abort, alloc: Global, left: usize, kind: Option<ErrorKind>) {
    let mut device = Narrow {
        taken: Vec::new(alloc),
        left,
        kind,
        failures: 0,
    };
    let (fault, size) = writes_the_image(&mut device);
    let fails = left < 30;
    same_write_fault(rt, left, fault, fails.then_some(Device));
    same_count(rt, left, size, whole_items(left));
    same_count(rt, left, u64::from(device.failures), u64::from(fails));
    is_so(rt, left, device.taken.as_slice() == front(&IMAGE, left));
}

#[test]
fn a_device_that_fails_holds_a_front(rt: HostRuntime) -> Result<(), Fail> {
    for kind in [None, Some(ErrorKind::Interrupted), Some(ErrorKind::Other)] {
        for left in 0..31 {
            holds_a_front(&rt, rt.alloc(), left, kind);
        }
    }
    Ok(())
}

/// Checks that a device that fails at call `fails_at` of a block is not called again.
fn is_left_alone(rt: &impl Abort, content: &[u8], fails_at: u32) {
    let rows = [
        (Call::Block(content), Some(Device), 0),
        (Call::Block(&[]), Some(Device), 0),
        (Call::Mark, Some(Device), 0),
        (Call::Finish, Some(Device), 0),
    ];
    let mut writer = ImageWriter::new(FailsOnce { fails_at, calls: 0 });
    answers(rt, &mut writer, &rows);
    let calls = writer.into_device().calls;
    same_count(
        rt,
        fails_at as usize,
        u64::from(calls),
        u64::from(fails_at) + 1,
    );
}

// Writing a short block makes one call, a longer block three.
#[test]
fn a_device_that_failed_is_not_called_again(rt: HostRuntime) -> Result<(), Fail> {
    is_left_alone(&rt, &[7, 8], 0);
    is_left_alone(&rt, &[7; 119], 0);
    for fails_at in 0..3 {
        is_left_alone(&rt, &[7; 120], fails_at);
    }
    Ok(())
}
