//! Volumes with a file of 25 records, written out from the formats.

use crate::images::Piece::{Block, End, Mark};
use crate::images::{Piece, add_all, image_of};
use crate::texts::*;
use std::alloc::{AllocError, Global};

/// Returns the volume with the whole file.
pub(crate) fn one_volume(alloc: Global, records: &[u8]) -> Result<Vec<u8>, AllocError> {
    let closing = [Mark, Block(EOF1), Block(EOF2), Mark, Mark, End];
    of_records(alloc, records, &closing)
}

/// Returns the volume with all records of the file, if the end-of-file labels are on the next
/// volume.
pub(crate) fn first_of_two(alloc: Global, records: &[u8]) -> Result<Vec<u8>, AllocError> {
    let closing = [Mark, Block(EOV1), Block(EOV2), Mark, Mark, End];
    of_records(alloc, records, &closing)
}

/// Returns the second volume, which contains only the end-of-file labels of the file.
pub(crate) fn second_of_two(alloc: Global) -> Result<Vec<u8>, AllocError> {
    let pieces = [
        Block(VOL1_SECOND),
        Block(HDR1_SECOND_SECTION),
        Block(HDR2),
        Mark,
        Mark,
        Block(EOF1_SECOND_SECTION),
        Block(EOF2),
        Mark,
        Mark,
        End,
    ];
    image_of(alloc, &pieces)
}

/// Returns the first volume, with the records in blocks of 800 bytes, followed by the pieces
/// `closing`.
fn of_records(alloc: Global, records: &[u8], closing: &[Piece]) -> Result<Vec<u8>, AllocError> {
    let mut bytes = image_of(alloc, &[Block(VOL1_FIRST), Block(HDR1), Block(HDR2), Mark])?;
    for block in records.chunks(800) {
        add_all(&mut bytes, &[Block(block)])?;
    }
    add_all(&mut bytes, closing)?;
    Ok(bytes)
}
