//! Errors of steps and of runs.

ghost use Rattle.std.specs.Prelude.{◌≡◌};
ghost use Rattle.tape_run.specs.Fault.{number_of};
ghost use Rattle.tape_run.specs.declared.fault.EngineFault.TheVariants as engine;
ghost use Rattle.tape_run.specs.declared.fault.ListFault.TheVariants as list;
ghost use Rattle.tape_run.specs.declared.fault.RunFault.TheVariants as run;

use std::alloc::{AllocError, AllocFailed};
use tape_core::SinkFault;
use tape_image::ImageFault;
use thiserror::Error;

/// The reason why a step of a run failed. The steps before it took effect.
#[derive(Clone, Copy, Debug, PartialEq, Eq, Error)]
pub enum RunFault {
    /// The sink refused a call for this reason. During a reel the session's position is the part
    /// that was refused, and the next reel continues there; a refused save or restart leaves the
    /// session unchanged.
    #[error("the sink refused: {0}")]
    Sink(SinkFault),
    /// There is no checkpoint with the given number. Nothing changed.
    #[error("no checkpoint has this number")]
    NoSuchPoint,
    /// A reel is requested, and no reader is left. Nothing changed.
    #[error("too few reels")]
    TooFewReels,
    /// There was no memory for the reader's buffer or for a checkpoint. Nothing changed.
    #[error("out of memory")]
    OutOfMemory,
    /// A stored checkpoint belongs to another set or file. No session returns this: it is for
    /// callers that open a stored checkpoint before they create a session.
    #[error("the checkpoint belongs to another file")]
    OtherFile,
}

impl RunFault {
    /// Returns the fault's fixed number, from 1 for `Sink` to 5 for `OtherFile`.
    pub fn number(&self) -> u8
        ensures { result ≡ number_of self.now }
    {
        match self {
            RunFault::Sink(_) => 1,
            RunFault::NoSuchPoint => 2,
            RunFault::TooFewReels => 3,
            RunFault::OutOfMemory => 4,
            RunFault::OtherFile => 5,
        }
    }
}

/// The place where a run stopped: the number of the step that failed, counted from 0, and the
/// reason. The steps before it took effect, and none after it was begun.
#[derive(Clone, Copy, Debug, PartialEq, Eq, Error)]
#[error("step {step}: {fault}")]
pub struct Stopped {
    /// The number of steps made, which is the number of the step that failed.
    pub step: usize,
    /// The reason why the step failed.
    pub fault: RunFault,
}

/// A writer refused a write or a flush, or accepted no byte.
#[derive(Clone, Copy, Debug, PartialEq, Eq, Error)]
#[error("a write failed")]
pub struct WriteFailed;

/// A fault that ends a report of reels.
#[derive(Clone, Copy, Debug, PartialEq, Eq, Error)]
pub enum EngineFault {
    /// A session or a catalogue could not continue.
    #[error("{0}")]
    Run(RunFault),
    /// The output or the report could not be written.
    #[error("a write failed")]
    WriteFailed,
}

/// There was no memory.
pub(crate) const NO_MEMORY: EngineFault = EngineFault::Run(RunFault::OutOfMemory);

impl From<RunFault> for EngineFault {
    ghost from_gives = { λ fault e. e ≡ engine.Run fault };

    fn from(fault: RunFault) -> EngineFault {
        EngineFault::Run(fault)
    }
}

impl From<WriteFailed> for EngineFault {
    ghost from_gives = { λ _ e. e ≡ engine.WriteFailed };

    fn from(_fault: WriteFailed) -> EngineFault {
        EngineFault::WriteFailed
    }
}

/// A fault that ends the listing of an image.
#[derive(Clone, Copy, Debug, PartialEq, Eq, Error)]
pub enum ListFault {
    /// The rest of the image could not be read.
    #[error("{0}")]
    Image(ImageFault),
    /// The listing could not be written.
    #[error("a write failed")]
    WriteFailed,
}

impl From<ImageFault> for ListFault {
    ghost from_gives = { λ fault e. e ≡ list.Image fault };

    fn from(fault: ImageFault) -> ListFault {
        ListFault::Image(fault)
    }
}

impl From<WriteFailed> for ListFault {
    ghost from_gives = { λ _ e. e ≡ list.WriteFailed };

    fn from(_fault: WriteFailed) -> ListFault {
        ListFault::WriteFailed
    }
}

impl From<AllocError> for RunFault {
    ghost from_gives = { λ _ e. e ≡ run.OutOfMemory };

    fn from(_error: AllocError) -> RunFault {
        RunFault::OutOfMemory
    }
}

impl<T: Drop> From<AllocFailed<T>> for RunFault {
    ghost from_gives = { λ _ e. e ≡ run.OutOfMemory };

    fn from(_failed: AllocFailed<T>) -> RunFault {
        RunFault::OutOfMemory
    }
}

impl From<AllocError> for EngineFault {
    ghost from_gives = { λ _ e. e ≡ engine.Run run.OutOfMemory };

    fn from(_error: AllocError) -> EngineFault {
        NO_MEMORY
    }
}
