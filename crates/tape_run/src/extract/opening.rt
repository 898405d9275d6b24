//! How an image is opened for a session.

ghost use Rattle.std.specs.Prelude.{◌≡◌, ◌⊎◌, None, IfOk, IfErr, OnOk, OnErr};
ghost use Rattle.tape_core.specs.declared.sink.SinkFault.{SinkFault};
ghost use Rattle.tape_run.specs.{Causes.OpeningFails, Crash.IsWalked};

use crate::extract::images::ImageSource;
use crate::fault::RunFault;
use crate::session::Session;
use std::io::Read;
use tape_core::{PartSink, SinkFault};

/// Opens the images of a source for a session. It may compare an image with the parts of the
/// session before, and changes nothing of the session.
pub trait Opener<S: PartSink, R: Read, L: ImageSource<R>> {
    /// The condition under which the session's sink refuses a call with the given fault, in terms
    /// of the sink before and after it.
    ghost refuses: { S → SinkFault → S → Type 0 };

    /// Opens image `number`, counted from 0. Returns `None` if it cannot be opened.
    ///
    /// # Errors
    ///
    /// Returns `OutOfMemory` if there is no memory to read the image, or `Sink` with the fault of a
    /// walk over the sink's parts.
    fn open(
        &mut self,
        session: &mut Session<S>,
        images: &mut L,
        number: usize,
    ) -> Result<Option<R>, RunFault>
        ensures ok { IfOk result (λ image. L.gives images.old number image images.new) }
        ensures err { OnErr result
            ((images.new ≡ images.old) ⊎ L.gives images.old number None images.new) }
        ensures same { IsWalked S.PartSink session.old session.new }
        ensures calm { OnOk result
            (S.refusals session.new.sink ≡ S.refusals session.old.sink) }
        ensures cause { IfErr result
            (λ fault. OpeningFails S.PartSink refuses fault session.old session.new) };
}

/// Opens each image, whatever the session has.
#[derive(Clone, Copy)]
pub struct AsTheyAre;

impl<S: PartSink, R: Read, L: ImageSource<R>> Opener<S, R, L> for AsTheyAre {
    ghost refuses = { λ _ _ _. ⊥ };

    fn open(
        &mut self,
        session: &mut Session<S>,
        images: &mut L,
        number: usize,
    ) -> Result<Option<R>, RunFault> {
        match images.mount(number) {
            Ok(image) => Ok(image),
            Err(_) => Err(RunFault::OutOfMemory),
        }
    }
}
