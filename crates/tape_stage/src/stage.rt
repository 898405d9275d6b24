//! A stage: parts on a disk, and the last acknowledged checkpoint.
//!
//! The bytes of the disk, from 0:
//!
//! | Places | Content |
//! |---|---|
//! | 0 | the gate of the first slot: `O` if it is open; any other byte: closed |
//! | 1-127 | its generation (15 digits), a checkpoint (80 characters), spaces |
//! | 128 | the gate of the second slot |
//! | 129-255 | its generation, checkpoint and spaces |
//! | from 256 | frames, one for each part: its span (1 byte), its length (4 bytes), its bytes |
//!
//! If both slots are valid, the one with the greater generation is current. Saving writes the other
//! slot, in an order that leaves at least one of the two intact at any moment:
//!
//! 1. its gate is closed if it is open; sync, which also makes the frames durable
//! 2. its generation and its checkpoint are written; sync
//! 3. its gate is opened; sync

pub mod frames;
pub mod open_disk;
pub mod opening;
pub mod part_reader;
pub mod putting;
pub mod salvage;
pub mod saving;

ghost use Rattle.std.specs.Prelude.{◌≡◌, ◌+◌, ◌≤◌, false, true, length, None};
ghost use Rattle.tape_core.specs.Known.{most_staged};
ghost use Rattle.tape_stage.specs.declared.stage.StageFault.TheVariants.{Device, OutOfMemory};
ghost use Rattle.tape_stage.specs.{Faults.number, Parts.longest_part, Body.most_generation};

use crate::disk::{Disk, DiskFault};
use std::alloc::AllocError;
use tape_core::Checkpoint;
use thiserror::Error;

/// The greatest generation.
pub(crate) const MOST_GENERATION: u64 = 999_999_999_999_999;

/// The greatest weight of staged parts.
pub(crate) const MOST_STAGED: u64 = 999_999_999_999_999;

/// The byte in the gate of a valid slot. Any other byte means that the gate is closed.
pub(crate) const OPEN: u8 = b'O';

/// The byte written to close a gate.
pub(crate) const CLOSED: u8 = b'C';

/// The reason why a stage refused a call.
#[derive(Clone, Copy, Debug, PartialEq, Eq, Error)]
pub enum StageFault {
    /// The disk does not contain a stage: it is too short, or no slot is valid.
    #[error("the disk contains no stage")]
    NoPoint,
    /// A part that the checkpoint counts has no valid frame; its frame should be at this byte
    /// offset.
    #[error("no valid frame at byte {0}")]
    BadFrame(u64),
    /// The disk failed in this call.
    #[error("the disk failed")]
    Device,
    /// There was no memory for the buffer.
    #[error("out of memory")]
    OutOfMemory,
    /// The disk failed in an earlier call, and the stage must be opened again; or the stage was
    /// opened for reading only.
    #[error("the stage failed before")]
    Failed,
    /// The weight or the generation would exceed 999,999,999,999,999. Nothing was changed.
    #[error("the stage is full")]
    Full,
}

impl StageFault {
    /// Returns the fixed number of the fault, from 1 to 6 in the order of the list above.
    pub fn number(&self) -> u8
        ensures { result ≡ number self.now }
    {
        match self {
            StageFault::NoPoint => 1,
            StageFault::BadFrame(_) => 2,
            StageFault::Device => 3,
            StageFault::OutOfMemory => 4,
            StageFault::Failed => 5,
            StageFault::Full => 6,
        }
    }
}

impl From<DiskFault> for StageFault {
    ghost from_gives = { λ _ e. e ≡ Device };

    fn from(_: DiskFault) -> StageFault {
        StageFault::Device
    }
}

impl From<AllocError> for StageFault {
    ghost from_gives = { λ _ e. e ≡ OutOfMemory };

    fn from(_: AllocError) -> StageFault {
        StageFault::OutOfMemory
    }
}

/// Parts of a file on a disk, and a checkpoint whose parts survive a crash.
#[derive(Drop)]
pub struct Stage<D: Disk> {
    pub(crate) disk: D,
    /// The acknowledged generation; `in_second` says whether it is in the second slot.
    pub(crate) generation: u64,
    pub(crate) in_second: bool,
    /// Whether the gate of the other slot is open.
    pub(crate) other_open: bool,
    /// The checkpoint that was acknowledged last.
    pub(crate) acknowledged: Checkpoint,
    /// The checkpoint that was being saved when the disk failed.
    pub(crate) pending: Option<Checkpoint>,
    /// The weight of all staged parts.
    pub(crate) weight: u64,
    /// Whether changes are refused: the disk failed, or the stage was opened for reading only.
    pub(crate) failed: bool,
    /// Whether parts can be read: the disk did not fail in a change.
    pub(crate) readable: bool,
    /// A buffer for the frame that is written or the part that is returned.
    pub(crate) buffer: Vec<u8>,
    /// The weight of the parts that a walk has returned.
    pub(crate) walked: u64,
    /// The number of refused calls to the stage as a sink.
    pub(crate) refused: u64,
    ghost long: { readable ≡ true → 256 + weight ≤ D.length_of disk },
    ghost usable: { failed ≡ false → readable ≡ true },
    ghost settled: { readable ≡ true → pending ≡ None },
    ghost behind: { walked ≤ weight },
    ghost room: { longest_part + 5 ≤ length buffer.items },
    ghost bounded: { weight ≤ most_staged },
    ghost bounded_generation: { generation ≤ most_generation },
}

/// The current slot, its generation and checkpoint, and whether the other slot's gate is open.
#[derive(Clone, Copy)]
pub(crate) struct Found {
    pub(crate) in_second: bool,
    pub(crate) other_open: bool,
    pub(crate) generation: u64,
    pub(crate) point: Checkpoint,
}

impl Found {
    /// Returns the weight of the parts that the checkpoint counts.
    pub(crate) fn staged(&self) -> u64
        ensures value { result ≡ self.now.point.staged }
        ensures bound { result ≤ most_staged }
    {
        self.point.staged
    }
}
