//! The parts of a set: labels, shapes and volumes.

use crate::memory_images::MemoryImages;
use std::alloc::{AllocError, Global};
use std::test::Fail;
use tape_blocks::Shape;
use tape_label::{Field, Format, Head1, Vol1};
use tape_writer::{ImageTapes, MemoryTapes, RefusedWriter, SetWriter, TapeOut};

/// A shape with records of 80 bytes, in blocks of 800 bytes.
pub(crate) const FIXED: Shape = Shape {
    format: Format::Fixed,
    block_len: 800,
    rec_len: 80,
    offset: 0,
    pad_full: false,
};

/// A shape with records of up to 16 bytes (after their four digits), in blocks of at most 100
/// bytes.
pub(crate) const COUNTED: Shape = Shape {
    format: Format::Counted,
    block_len: 100,
    rec_len: 20,
    offset: 0,
    pad_full: false,
};

/// Returns a shape with records of any length, in blocks of at most `block_len` bytes.
pub(crate) fn spanned(block_len: u32) -> Shape {
    Shape {
        format: Format::Spanned,
        block_len,
        rec_len: 0,
        offset: 0,
        pad_full: false,
    }
}

/// Returns the label of the volume with identifier `id`.
pub(crate) fn volume(id: [u8; 6]) -> Vol1 {
    Vol1 {
        volume: Field::of_bytes(id),
        access: b' ',
        implementation: Field::of_bytes([b' '; 13]),
        owner: Field::of_bytes([b' '; 14]),
        version: b'4',
    }
}

/// Returns a head whose set identifier and numbers the writer replaces.
pub(crate) fn head() -> Head1 {
    Head1 {
        file_id: Field::of_bytes(*b"PAYROLL          "),
        set_id: Field::of_bytes(*b"XXXXXX"),
        sect: 7,
        sequence: 7,
        generation: Field::of_bytes(*b"0001"),
        gen_version: Field::of_bytes(*b"00"),
        created: Field::of_bytes(*b" 00000"),
        expires: Field::of_bytes(*b" 00000"),
        access: b' ',
        implementation: Field::of_bytes([b' '; 13]),
    }
}

/// Returns the labels of the first `count` of three volumes.
pub(crate) fn volumes(alloc: Global, count: usize) -> Result<Vec<Vol1>, AllocError> {
    let all = [volume(*b"ABC001"), volume(*b"ABC002"), volume(*b"ABC003")];
    Vec::from_slice(alloc, &all[..count.min(3)])
}

/// Returns a writer of in-memory items, positioned on the first of `count` volumes.
pub(crate) fn in_memory(
    alloc: Global,
    capacity: u32,
    count: usize,
) -> Result<SetWriter<MemoryTapes>, Fail> {
    let set_id = Field::of_bytes(*b"ABC001");
    let volumes = volumes(alloc, count)?;
    made(SetWriter::new(alloc, set_id, volumes, capacity, MemoryTapes::new(alloc)))
}

/// Returns a writer of in-memory images, positioned on the first of `count` volumes.
pub(crate) fn on_images(
    alloc: Global,
    capacity: u32,
    count: usize,
) -> Result<SetWriter<ImageTapes<MemoryImages>>, Fail> {
    let set_id = Field::of_bytes(*b"ABC001");
    let volumes = volumes(alloc, count)?;
    let out = ImageTapes::new(MemoryImages::new(alloc, count)?);
    made(SetWriter::new(alloc, set_id, volumes, capacity, out))
}

/// Returns the writer, which must have been created.
fn made<T: TapeOut + Drop>(
    writer: Result<SetWriter<T>, RefusedWriter<T>>,
) -> Result<SetWriter<T>, Fail> {
    Ok(writer.map_err(|refused| refused.fault)?)
}
