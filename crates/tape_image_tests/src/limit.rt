//! Tests of images that are written up to the limit of 4,294,967,295 bytes.

use super::checks::same_count;
use super::images::front;
use super::takers::Counting;
use super::writers::{Call, answers};
use std::alloc::Global;
use std::test::Fail;
use tape_image::ImageWriteFault::{BlockLength, TooLong};
use tape_image::ImageWriter;

/// Returns a writer that has written blocks of `size` bytes in all, an even number of at least
/// 200,000.
fn filled(alloc: Global, size: u64) -> Result<ImageWriter<Counting>, Fail> {
    let bytes = Vec::from_elem(alloc, 0u8, 99_999)?;
    let mut writer = ImageWriter::new(Counting { taken: 0, calls: 0 });
    // Each block occupies 100,008 bytes, and fewer than 150,000 are left after the last one.
    for _ in 0..(size.saturating_sub(150_000) / 100_008).saturating_add(1) {
        writer.block(bytes.as_slice())?;
    }
    // At least 49,992 bytes are left: one block occupies half of them, and another the rest.
    let half = size.saturating_sub(writer.size()) / 4 * 2;
    writer.block(front(bytes.as_slice(), half.saturating_sub(8) as usize))?;
    let rest = size.saturating_sub(writer.size());
    writer.block(front(bytes.as_slice(), rest.saturating_sub(8) as usize))?;
    Ok(writer)
}

#[test]
fn blocks_end_within_the_limit(rt: HostRuntime) -> Result<(), Fail> {
    let mut writer = filled(rt.alloc(), 4_294_967_280)?;
    same_count(&rt, 0, writer.size(), 4_294_967_280);
    // 15 bytes are left: a block of 8 bytes needs 16, and one of 6 bytes needs 14.
    let rows = [
        (Call::Block(&[1; 8]), Some(TooLong), 4_294_967_280),
        (Call::Block(&[1; 7]), Some(TooLong), 4_294_967_280),
        (Call::Block(&[1; 6]), None, 4_294_967_294),
    ];
    answers(&rt, &mut writer, &rows);
    Ok(())
}

#[test]
fn marks_end_within_the_limit(rt: HostRuntime) -> Result<(), Fail> {
    let mut writer = filled(rt.alloc(), 4_294_967_280)?;
    // After three marks 3 bytes are left, and a word needs 4.
    let rows = [
        (Call::Mark, None, 4_294_967_284),
        (Call::Mark, None, 4_294_967_288),
        (Call::Mark, None, 4_294_967_292),
        (Call::Mark, Some(TooLong), 4_294_967_292),
        (Call::Finish, Some(TooLong), 4_294_967_292),
        (Call::Block(&[1; 1]), Some(TooLong), 4_294_967_292),
        (Call::Block(&[]), Some(BlockLength), 4_294_967_292),
    ];
    answers(&rt, &mut writer, &rows);
    same_count(&rt, rows.len(), writer.into_device().taken, 4_294_967_292);
    Ok(())
}

#[test]
fn the_end_word_ends_within_the_limit(rt: HostRuntime) -> Result<(), Fail> {
    let mut writer = filled(rt.alloc(), 4_294_967_288)?;
    let rows = [
        (Call::Block(&[]), Some(BlockLength), 4_294_967_288),
        (Call::Finish, None, 4_294_967_292),
    ];
    answers(&rt, &mut writer, &rows);
    same_count(&rt, rows.len(), writer.into_device().taken, 4_294_967_292);
    Ok(())
}

#[test]
fn an_end_word_past_the_limit_is_refused(rt: HostRuntime) -> Result<(), Fail> {
    let mut writer = filled(rt.alloc(), 4_294_967_292)?;
    let rows = [(Call::Finish, Some(TooLong), 4_294_967_292)];
    answers(&rt, &mut writer, &rows);
    same_count(&rt, rows.len(), writer.into_device().taken, 4_294_967_292);
    Ok(())
}
