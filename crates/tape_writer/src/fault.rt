//! The reasons why nothing more was written.

ghost use Rattle.std.specs.Prelude.{◌≡◌};
ghost use Rattle.tape_writer.specs.Faults.{IsOfOut};

/// The reason why a call to a `TapeOut` was refused.
#[derive(Clone, Copy, PartialEq, Eq)]
pub enum OutFault {
    /// The device failed.
    Device,
    /// Allocating memory failed.
    OutOfMemory,
}

/// The reason why a call to a set writer was refused.
///
/// After `OutOfVolumes`, `Device` and `OutOfMemory` every call returns `Failed`; every other fault
/// leaves the writer unchanged. If several faults apply, the first is returned in the order
/// `Failed`, `Finished`, `NoFile`, `FileBegun`, and then that of the list below.
#[derive(Clone, Copy, Debug, PartialEq, Eq)]
pub enum WriteFault {
    /// A field contains a byte that is not an a-character (ECMA-13, 4th edition, characters).
    BadField,
    /// Blocks of this shape cannot be written.
    BadShape,
    /// The capacity is less than the block length plus 1,024 bytes.
    CapacityTooSmall,
    /// The length of the record is not one of the lengths of the file's shape.
    RecordLength,
    /// No file has begun, or the set has no file.
    NoFile,
    /// The current file has not ended.
    FileBegun,
    /// The volume must be changed, but no volume is left.
    OutOfVolumes,
    /// More than 9,999 volumes or files: labels have four digits for their numbers.
    TooMany,
    /// The device failed in this call.
    Device,
    /// Allocating memory failed in this call.
    OutOfMemory,
    /// An earlier call returned `OutOfVolumes`, `Device` or `OutOfMemory`.
    Failed,
    /// The set was finished.
    Finished,
}

/// The reason why a set was not written completely.
#[derive(Clone, Copy, PartialEq, Eq)]
pub enum SetFault {
    /// The fault with which the set writer refused a call, or for which a record could not be
    /// passed to it.
    Write(WriteFault),
    /// Reading from an input failed.
    ReadFailed,
}

/// Returns the fault as a fault of the writer.
pub(crate) fn fault_of(fault: OutFault) -> WriteFault
    ensures device { result ≡ WriteFault.Device → fault ≡ OutFault.Device }
    ensures memory { result ≡ WriteFault.OutOfMemory → fault ≡ OutFault.OutOfMemory }
    ensures out { IsOfOut result }
{
    match fault {
        OutFault::Device => WriteFault::Device,
        OutFault::OutOfMemory => WriteFault::OutOfMemory,
    }
}
