//! Shapes for example blocks, and comparisons.

use crate::packing::pack_all;
use std::alloc::{AllocError, Global};
use std::test::*;
use tape_blocks::{
    BlockCause, BlockFault, PackFault, Packer, Part, Parts, Shape, Span, check_block,
};
use tape_label::Format;

/// Returns a shape that does not pad blocks in full. In format F its records have at least one
/// byte, as the type requires.
pub fn shape(format: Format, block_len: u32, rec_len: u32, offset: u8) -> Shape {
    let rec_len = match format {
        Format::Fixed => rec_len.max(1),
        _ => rec_len,
    };
    Shape {
        format,
        block_len,
        rec_len,
        offset,
        pad_full: false,
    }
}

/// Returns a shape that pads blocks in full.
pub fn padded(format: Format, block_len: u32, rec_len: u32, offset: u8) -> Shape {
    let mut shape = shape(format, block_len, rec_len, offset);
    shape.pad_full = true;
    shape
}

/// Returns true if the block passes, with `end` as the result, and has exactly the parts `wanted`.
pub fn reads(
    shape: &Shape,
    begun: bool,
    block: &[u8],
    end: bool,
    wanted: &[(Span, &[u8])],
) -> bool {
    if check_block(shape, begun, block) != Ok(end) {
        return false;
    }
    let mut parts = Parts::new(shape, block);
    for (span, bytes) in wanted {
        let wanted = Part { span: *span, bytes };
        if parts.next() != Some(wanted) {
            return false;
        }
    }
    parts.next().is_none()
}

/// Returns true if the block is refused with `cause` at `place`.
pub fn refuses(shape: &Shape, begun: bool, block: &[u8], place: usize, cause: BlockCause) -> bool {
    check_block(shape, begun, block) == Err(BlockFault { place, cause })
}

/// Returns copies of `texts`.
pub fn copies(alloc: Global, texts: &[&[u8]]) -> Result<Vec<Vec<u8>>, AllocError> {
    let mut all = Vec::new(alloc);
    for text in texts {
        let mut copy = Vec::new(alloc);
        copy.extend_from_slice(text)?;
        all.push(copy)?;
    }
    Ok(all)
}

/// Returns true if `records` are packed into exactly the blocks `wanted`.
pub fn packs(alloc: Global, shape: Shape, records: &[&[u8]], wanted: &[&[u8]]) -> bool {
    match (copies(alloc, records), copies(alloc, wanted)) {
        (Ok(records), Ok(wanted)) => match pack_all(alloc, shape, &records) {
            Ok(blocks) => blocks == wanted,
            Err(_) => false,
        },
        _ => false,
    }
}

/// Returns the reason why `records` are not packed, or `None` if they are.
pub fn pack_fault(alloc: Global, shape: Shape, records: &[&[u8]]) -> Option<PackFault> {
    match copies(alloc, records) {
        Ok(records) => pack_all(alloc, shape, &records).err(),
        Err(_) => Some(PackFault::OutOfMemory),
    }
}

/// Returns true if `Shape::is_writable` and a packer agree with `written` on whether blocks of this
/// shape can be written.
pub fn is_judged(alloc: Global, shape: Shape, written: bool) -> bool {
    let refused = if written {
        None
    } else {
        Some(PackFault::ShapeRange)
    };
    shape.is_writable() == written && Packer::new(alloc, shape).err() == refused
}
