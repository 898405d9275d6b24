//! Tests of images that are files beside those in memory.

use crate::folders::{ABC, ended};
use crate::inputs::{one_file, plan};
use crate::sets::spanned;
use std::alloc::{AllocError, Global};
use std::fs;
use std::process::Abort;
use std::test::Fail;
use tape_blocks::{Form, Shape};
use tape_writer::system::{Ended, Host, image_path};

/// A directory, a capacity, a block length for format S, and the length of the one record. The
/// cases are blocks longer than the buffer, blocks of which only one fits in the buffer, and short
/// blocks, on one, two and three volumes.
const AS_IN_MEMORY: &[(&str, u32, u32, usize)] = &[
    ("long", 150_000, 9_999, 120_000),
    ("middle", 100_000, 5_000, 120_000),
    ("short", 1_042, 18, 650),
];

/// Returns `count` bytes of which no two consecutive ones are equal.
fn counted_up(alloc: Global, count: usize) -> Result<Vec<u8>, AllocError> {
    let mut bytes = Vec::new(alloc);
    for number in 0..count as u64 {
        bytes.push((number % 251) as u8)?;
    }
    Ok(bytes)
}

/// Returns true if `ended` is volume `number`, and its file has the bytes `image`.
fn is_image<R: Host>(
    rt: &R,
    folder: &str,
    number: u16,
    ended: &Ended,
    image: &[u8],
) -> Result<bool, Fail> {
    let path = image_path(rt.alloc(), folder, ABC, number)?;
    let is_told = ended.size == image.len() as u64 && path.as_str().contains(text_of(ended));
    Ok(is_told && fs::read(rt, path.as_str())?.as_slice() == image)
}

/// Returns the identifier of the volume.
fn text_of(ended: &Ended) -> &str {
    str::from_utf8(ended.volume.bytes()).unwrap_or("")
}

/// The record is written to files with the same result as in memory.
#[test]
fn files_are_as_in_memory(rt: HostRuntime) -> Result<(), Fail> {
    for (folder, capacity, block_len, count) in AS_IN_MEMORY {
        let bytes = counted_up(rt.alloc(), *count)?;
        are_as_in_memory(
            &rt,
            folder,
            *capacity,
            spanned(*block_len),
            bytes.as_slice(),
        )?;
    }
    Ok(())
}

/// Checks that `bytes`, as one record, are written to files with the same result as in memory.
fn are_as_in_memory<R: Host + Abort>(
    rt: &R,
    folder: &str,
    capacity: u32,
    shape: Shape,
    bytes: &[u8],
) -> Result<(), Fail> {
    fs::create_dir(rt, folder)?;
    let plan = plan(rt.alloc(), 3, capacity, shape, Form::Raw)?;
    let (Ok(images), Ok(ended)) = (
        one_file(rt.alloc(), plan, bytes)?,
        ended(rt, folder, capacity, shape, bytes),
    ) else {
        return Err(Fail::from("a set that should be written"));
    };
    let mut number = 0u16;
    for (volume, image) in ended.iter().zip(images.iter()) {
        number = number.saturating_add(1);
        let same = is_image(rt, folder, number, volume, image.as_slice())?;
        assert!(rt; same, "{folder}: {number}");
    }
    assert!(rt; ended.len() == images.len(), "{folder}: {}", ended.len());
    Ok(())
}
