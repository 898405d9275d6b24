//! The result of an offer, and the faults of a packer.

ghost use Rattle.std.specs.Prelude.{◌≡◌};
ghost use Rattle.tape_blocks.specs.Numbers.{pack_fault_number};

use thiserror::Error;

/// The result of offering the rest of a record to a packer.
#[derive(Clone, Copy, PartialEq, Eq)]
pub enum Offer {
    /// The whole rest is in the current block, and the record has ended.
    Taken,
    /// The given number of bytes was accepted, and the block is closed: take it, and offer the
    /// remaining bytes.
    BlockReady(usize),
}

/// The reason why a packer refuses a shape or a record.
#[derive(Clone, Copy, Debug, PartialEq, Eq, Error)]
pub enum PackFault {
    /// The record has a length that its shape does not allow.
    #[error("the record's length is not one of its shape")]
    RecordLength,
    /// Blocks of this shape cannot be written.
    #[error("blocks of this shape are not written")]
    ShapeRange,
    /// Allocating memory failed.
    #[error("out of memory")]
    OutOfMemory,
}

impl PackFault {
    /// Returns the fault's fixed number, from 8 to 10.
    pub fn number(&self) -> u8
        ensures { result ≡ pack_fault_number self.now }
    {
        match self {
            PackFault::RecordLength => 8,
            PackFault::ShapeRange => 9,
            PackFault::OutOfMemory => 10,
        }
    }
}
