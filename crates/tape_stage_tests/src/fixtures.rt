//! Checkpoints, their texts, and stages that several tests use.

ghost use Rattle.std.specs.Prelude.{◌≡◌};

use std::alloc::{AllocError, Global};
use std::process::Abort;
use std::test::*;
use tape_blocks::{Part, Span};
use tape_core::{Checkpoint, Known, PartSink};
use tape_label::{Field, Format};
use tape_set::Position;
use tape_stage::{Disk, MemoryDisk, Stage};

// All 25 records of 80 bytes, in three blocks, were delivered, but the end of the section was not
// found.
pub const PAYROLL_1: &[u8; 80] =
    b"TPCK1ABC00100010001000003R01F0008000PAYROLL          000000000002125            ";

pub const PAYROLL_2: &[u8; 80] =
    b"TPCK2ABC00100010001000000000300000R01F0008000PAYROLL          000000000002125   ";

pub const START_1: &[u8; 80] =
    b"TPCK1ABC00100010001000000R00 0000000                 000000000000000            ";

pub const START_2: &[u8; 80] =
    b"TPCK2ABC00100010001000000000000000R00 0000000                 000000000000000   ";

/// The text of the checkpoint of the complete file of 25 records, all of them staged.
pub const WHOLE_2: &[u8; 80] =
    b"TPCK2ABC00100010000000000000000000D01F0008000PAYROLL          000000000002125   ";

pub fn awaits(sect: u16, block: u32, part: u32) -> Position
    ensures { result ≡ Position.Awaits sect block part }
{
    Position::Awaits { sect, block, part }
}

pub fn fixed() -> Known {
    Known {
        format: Format::Fixed,
        rec_len: 80,
        offset: 0,
        file_id: Field::of_bytes(*b"PAYROLL          "),
    }
}

pub fn payroll() -> Checkpoint {
    Checkpoint {
        file: 1,
        begun: false,
        staged: 2125,
        set_id: Field::of_bytes(*b"ABC001"),
        position: Position::Awaits {
            sect: 1,
            block: 3,
            part: 0,
        },
        known: Some(fixed()),
    }
}

pub fn whole() -> Checkpoint {
    Checkpoint {
        file: 1,
        begun: false,
        staged: 2125,
        set_id: Field::of_bytes(*b"ABC001"),
        position: Position::Finished,
        known: Some(fixed()),
    }
}

pub fn start() -> Checkpoint
    ensures { result.staged ≡ 0 }
{
    Checkpoint {
        file: 1,
        begun: false,
        staged: 0,
        set_id: Field::of_bytes(*b"ABC001"),
        position: Position::Awaits {
            sect: 1,
            block: 0,
            part: 0,
        },
        known: None,
    }
}

/// Returns the checkpoint before block `block` of section 1, with weight `staged`.
pub fn in_front(block: u32, staged: u64) -> Option<Checkpoint> {
    let position = awaits(1, block, 0);
    Checkpoint::from_parts(
        Field::of_bytes(*b"ABC001"),
        1,
        position,
        false,
        Some(fixed()),
        staged,
    )
}

/// Returns a stage on an empty disk.
pub fn made(alloc: Global) -> Option<Stage<MemoryDisk>> {
    Stage::create(alloc, MemoryDisk::new(alloc), &start()).ok()
}

/// Returns a disk with the bytes `bytes`.
pub fn disk_of(alloc: Global, bytes: &[u8]) -> Result<MemoryDisk, AllocError> {
    Ok(MemoryDisk::from_bytes(alloc, bytes.to_vec(alloc)?))
}

/// Returns a stage file whose first slot has the gate `gate`, the checkpoint `point` and generation
/// 1, and whose second slot was never valid.
pub fn first_slot(
    alloc: Global,
    gate: u8,
    point: &[u8; 80],
    frames: &[u8],
) -> Result<Vec<u8>, AllocError> {
    let mut bytes = Vec::new(alloc);
    bytes.push(gate)?;
    bytes.extend_from_slice(b"000000000000001")?;
    bytes.extend_from_slice(point)?;
    bytes.extend_from_slice(&[b' '; 32])?;
    bytes.extend_from_slice(b"C000000000000000")?;
    bytes.extend_from_slice(&[b' '; 112])?;
    bytes.extend_from_slice(frames)?;
    Ok(bytes)
}

/// Stages a record of 80 bytes.
pub fn put<D: Disk>(stage: &mut Stage<D>, record: u8) -> bool {
    let part = Part {
        span: Span::Whole,
        bytes: &[record; 80],
    };
    stage.put(part).is_ok()
}

/// Saves the checkpoint, if it has the weight of the staged parts.
pub fn save<D: Disk>(stage: &mut Stage<D>, point: &Checkpoint) -> bool {
    point.staged == stage.weight() && stage.save(point).is_ok()
}

/// Returns whether the stage returns exactly one record for each of `records`: 80 bytes with this
/// value.
pub fn holds<D: Disk>(stage: &mut Stage<D>, records: &[u8]) -> bool {
    let mut parts = stage.parts();
    for record in records {
        match parts.next() {
            Ok(Some(part)) => {
                if part.span != Span::Whole || part.bytes != [*record; 80].as_slice() {
                    return false;
                }
            }
            _ => return false,
        }
    }
    matches!(parts.next(), Ok(None))
}

/// Checks that the bytes of each row are at its offset.
pub fn stand(rt: &impl Abort, bytes: &[u8], rows: &[(usize, &[u8])]) {
    for (place, there) in rows {
        let from = bytes.get(*place..).unwrap_or_default();
        assert!(rt; from.starts_with(there), "at {place}");
    }
}

/// Reads if there are enough bytes. Returns whether the read succeeds.
pub fn read<D: Disk>(disk: &mut D, place: u64, buf: &mut [u8]) -> bool {
    match disk.len() {
        Ok(len) => {
            place <= len && buf.len() as u64 <= len - place && disk.read(place, buf).is_ok()
        }
        Err(_) => false,
    }
}

/// Writes if the offset is not past the end. Returns whether the write succeeds.
pub fn write<D: Disk>(disk: &mut D, place: u64, bytes: &[u8]) -> bool {
    match disk.len() {
        Ok(len) => place <= len && disk.write_at(place, bytes).is_ok(),
        Err(_) => false,
    }
}

/// Truncates the disk if there are enough bytes. Returns whether that succeeds.
pub fn cut<D: Disk>(disk: &mut D, to: u64) -> bool {
    match disk.len() {
        Ok(len) => to <= len && disk.cut(to).is_ok(),
        Err(_) => false,
    }
}

/// Returns whether the disk returns `bytes`, at most 12, at offset `place`.
pub fn gives<D: Disk>(disk: &mut D, place: u64, bytes: &[u8]) -> bool {
    let mut buf = [0; 12];
    let size = bytes.len().min(12);
    read(disk, place, &mut buf[..size]) && &buf[..size] == bytes
}
