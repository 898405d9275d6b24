//! The reasons why files were not written or read.
use crate::fault::WriteFault;

/// The reason why a file cannot be used.
#[derive(Clone, Copy, Debug, PartialEq, Eq)]
pub enum FileFault {
    /// The file already exists, and would be overwritten.
    Exists,
    /// The file could not be opened or created.
    NotOpened,
    /// Reading from the file failed.
    ReadFailed,
    /// Writing to the file failed, or the last flush did.
    WriteFailed,
}

/// The reason why a set was not written to image files.
#[derive(Clone, Copy, Debug, PartialEq, Eq)]
pub enum SystemFault {
    /// A file failed.
    File(FileFault),
    /// The set could not be written.
    Write(WriteFault),
}
