//! Images that were written, and expected images.

use crate::calls::{Row, follow};
use crate::memory_images::MemoryImages;
use crate::sets::on_images;
use std::alloc::{AllocError, Global};
use std::process::Abort;
use std::test::Fail;
use tape_writer::ImageTapes;

/// A piece of an image.
#[derive(Clone, Copy)]
pub(crate) enum Piece<'a> {
    /// A block.
    Block(&'a [u8]),
    /// A tape mark.
    Mark,
    /// The end-of-medium marker.
    End,
}

/// Appends a block between two length words, with a pad byte if its length is odd.
fn add_block(bytes: &mut Vec<u8>, content: &[u8]) -> Result<(), AllocError> {
    let word = (content.len() as u64).to_le_bytes();
    bytes.extend_from_slice(&word[..4])?;
    bytes.extend_from_slice(content)?;
    if content.len() % 2 == 1 {
        bytes.push(0)?;
    }
    bytes.extend_from_slice(&word[..4])
}

/// Appends a piece to an image.
fn add(bytes: &mut Vec<u8>, piece: &Piece) -> Result<(), AllocError> {
    match piece {
        Piece::Block(content) => add_block(bytes, content),
        Piece::Mark => bytes.extend_from_slice(&[0, 0, 0, 0]),
        Piece::End => bytes.extend_from_slice(&[0xFF, 0xFF, 0xFF, 0xFF]),
    }
}

/// Appends `pieces`, one after another.
pub(crate) fn add_all(bytes: &mut Vec<u8>, pieces: &[Piece]) -> Result<(), AllocError> {
    for piece in pieces {
        add(bytes, piece)?;
    }
    Ok(())
}

/// Returns the bytes of the image that consists of `pieces`.
pub(crate) fn image_of(alloc: Global, pieces: &[Piece]) -> Result<Vec<u8>, AllocError> {
    let mut bytes = Vec::new(alloc);
    add_all(&mut bytes, pieces)?;
    Ok(bytes)
}

/// Returns the images after the calls of `rows`, on `count` volumes.
pub(crate) fn written(
    rt: &impl Abort,
    alloc: Global,
    capacity: u32,
    count: usize,
    rows: &[Row],
) -> Result<Vec<Vec<u8>>, Fail> {
    let mut writer = on_images(alloc, capacity, count)?;
    follow(rt, &mut writer, rows);
    Ok(images_of(writer.into_out())?)
}

/// Returns the images that have ended, followed by the image of the current volume, if there is
/// one.
pub(crate) fn images_of(tapes: ImageTapes<MemoryImages>) -> Result<Vec<Vec<u8>>, AllocError> {
    let (store, under_way) = tapes.into_parts();
    let mut images = store.into_images();
    if let Some(image) = under_way {
        images.push(image.into_device().bytes)?;
    }
    Ok(images)
}

/// Returns the number of images that have ended, and the length of the image of the current volume,
/// if there is one.
pub(crate) fn ended(tapes: ImageTapes<MemoryImages>) -> (usize, Option<usize>) {
    let (store, under_way) = tapes.into_parts();
    let length = match under_way {
        Some(image) => Some(image.into_device().bytes.len()),
        None => None,
    };
    (store.into_images().len(), length)
}

/// Returns true if the images have exactly the lengths `lengths`.
pub(crate) fn have_lengths(images: &[Vec<u8>], lengths: &[usize]) -> bool {
    for (image, length) in images.iter().zip(lengths) {
        if image.len() != *length {
            return false;
        }
    }
    images.len() == lengths.len()
}

/// Returns true if the image at index `at` has exactly `bytes` after its first `behind` bytes.
pub(crate) fn ends_with(images: &[Vec<u8>], at: usize, behind: usize, bytes: &[u8]) -> bool {
    match images.get(at) {
        Some(image) => image.get(behind..) == Some(bytes),
        None => false,
    }
}
