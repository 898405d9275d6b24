//! Errors of the program, their numbers, and the line that reports one.
ghost use Rattle.std.specs.Prelude.{◌≡◌, Some};
ghost use Rattle.tape_writer.specs.declared.system.fault.FileFault.TheVariants as files;
ghost use Rattle.tape_tool.specs.Fault.{file_number, write_number, of_system, of_engine, of_list};
ghost use Rattle.tape_tool.specs.{Fault.no_memory, Diagnostics.fault_line};
ghost use Rattle.tape_tool.specs.declared.fault.ToolFault.TheVariants.{File, Run};

use std::alloc::AllocError;
use std::fmt;
use tape_image::ImageFault;
use tape_label::LabelFault;
use tape_run::{EngineFault, ListFault, RunFault, WriteFailed};
use tape_stage::StageFault;
use tape_writer::WriteFault;
pub use tape_writer::system::FileFault;
use tape_writer::system::SystemFault;

/// Returns the number of a file's fault, as the program prints it.
pub fn number_of_file(fault: FileFault) -> u8
    ensures { result ≡ file_number fault }
{
    match fault {
        FileFault::Exists => 1,
        FileFault::NotOpened => 2,
        FileFault::ReadFailed => 3,
        FileFault::WriteFailed => 4,
    }
}

/// Returns the number of a fault of the writer, as the program prints it.
pub fn number_of_write(fault: WriteFault) -> u8
    ensures { result ≡ write_number fault }
{
    match fault {
        WriteFault::BadField => 1,
        WriteFault::BadShape => 2,
        WriteFault::CapacityTooSmall => 3,
        WriteFault::RecordLength => 4,
        WriteFault::NoFile => 5,
        WriteFault::FileBegun => 6,
        WriteFault::OutOfVolumes => 7,
        WriteFault::TooMany => 8,
        WriteFault::Device => 9,
        WriteFault::OutOfMemory => 10,
        WriteFault::Failed => 11,
        WriteFault::Finished => 12,
    }
}

/// An error that ends the program with status 1, and is reported on one line.
#[derive(Clone, Copy, PartialEq, Eq)]
pub enum ToolFault {
    /// The rest of an image could not be read.
    Image(ImageFault),
    /// A text is not valid for the field of a label.
    Label(LabelFault),
    /// A set could not be written.
    Write(WriteFault),
    /// A file or a stream failed.
    File(FileFault),
    /// A session or a catalogue could not continue.
    Run(RunFault),
    /// A stage could not be opened or created.
    Stage(StageFault),
    /// Another run is using the stage.
    StageInUse,
    /// The images have labels of different files with one number, or complete copies of a section
    /// that differ.
    Conflict,
}

/// The fault if memory runs out, also for the arguments of the command line.
pub const OUT_OF_MEMORY: ToolFault = ToolFault::Run(RunFault::OutOfMemory);

/// The line that reports a fault: its kind, its number and, for an image, the byte offset.
#[derive(Clone, Copy)]
pub struct FaultLine(pub ToolFault);

impl fmt::Display for FaultLine {
    ghost output = { λ line. Some (fault_line line.0) };

    fn fmt<W: fmt::Write>(&self, f: &mut fmt::Formatter<W>) -> fmt::Result {
        match self.0 {
            ToolFault::Image(fault) => {
                let number = fault.cause.number();
                let place = fault.place;
                write!(f, "tape: image fault {number} at {place}\n")
            }
            ToolFault::Label(fault) => write!(f, "tape: label fault {}\n", fault.number()),
            ToolFault::Write(fault) => write!(f, "tape: write fault {}\n", number_of_write(fault)),
            ToolFault::File(fault) => write!(f, "tape: file fault {}\n", number_of_file(fault)),
            ToolFault::Run(fault) => write!(f, "tape: run fault {}\n", fault.number()),
            ToolFault::Stage(fault) => write!(f, "tape: stage fault {}\n", fault.number()),
            // The stage's own faults have the numbers 1 to 6.
            ToolFault::StageInUse => write!(f, "tape: stage fault {}\n", 7u8),
            ToolFault::Conflict => write!(f, "tape: set fault {}\n", 1u8),
        }
    }
}

impl From<FileFault> for ToolFault {
    ghost from_gives = { λ fault e. e ≡ File fault };

    fn from(fault: FileFault) -> ToolFault {
        ToolFault::File(fault)
    }
}

impl From<RunFault> for ToolFault {
    ghost from_gives = { λ fault e. e ≡ Run fault };

    fn from(fault: RunFault) -> ToolFault {
        ToolFault::Run(fault)
    }
}

impl From<AllocError> for ToolFault {
    ghost from_gives = { λ _ e. e ≡ no_memory };

    fn from(_error: AllocError) -> ToolFault {
        OUT_OF_MEMORY
    }
}

impl From<WriteFailed> for ToolFault {
    ghost from_gives = { λ _ e. e ≡ File files.WriteFailed };

    fn from(_fault: WriteFailed) -> ToolFault {
        ToolFault::File(FileFault::WriteFailed)
    }
}

impl From<EngineFault> for ToolFault {
    ghost from_gives = { λ fault e. e ≡ of_engine fault };

    fn from(fault: EngineFault) -> ToolFault {
        match fault {
            EngineFault::Run(fault) => ToolFault::Run(fault),
            EngineFault::WriteFailed => ToolFault::File(FileFault::WriteFailed),
        }
    }
}

impl From<ListFault> for ToolFault {
    ghost from_gives = { λ fault e. e ≡ of_list fault };

    fn from(fault: ListFault) -> ToolFault {
        match fault {
            ListFault::Image(fault) => ToolFault::Image(fault),
            ListFault::WriteFailed => ToolFault::File(FileFault::WriteFailed),
        }
    }
}

impl From<SystemFault> for ToolFault {
    ghost from_gives = { λ fault e. e ≡ of_system fault };

    fn from(fault: SystemFault) -> ToolFault {
        match fault {
            SystemFault::Write(fault) => ToolFault::Write(fault),
            SystemFault::File(fault) => ToolFault::File(fault),
        }
    }
}
