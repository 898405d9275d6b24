//! The state of a set writer.

use crate::course::Opened;
use tape_blocks::Packer;

/// The current file and its current block.
#[derive(Drop)]
pub struct OpenFile {
    /// The head and the shape of the file.
    pub file: Opened,
    /// The packer of the file's records.
    pub packer: Packer,
}

/// The state of a set writer.
#[derive(Drop)]
pub enum Phase {
    /// The writer is before the first file, or between two files.
    Between,
    /// The writer is inside a file.
    Filing(OpenFile),
    /// A call failed, and every further call is refused.
    Failed,
    /// The set is complete, and every further call is refused.
    Finished,
}
