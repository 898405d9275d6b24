//! Sessions: one file read from its reels, in any order, into one sink.

mod behind;
pub mod compared;
mod output;
mod points;
mod reading;

ghost use Rattle.std.specs.Prelude.{◌≡◌, [], ◌≢◌, false, List, Option, None, Ok, Err, IsOk, OnOk};
ghost use Rattle.std.specs.Prelude.{IfOk, IfErr, IfSome, OnErr, length, take, ◌++◌, ◌∷◌, ◌+◌};
ghost use Rattle.tape_image.specs.Reader.{IfKnown};
ghost use Rattle.tape_blocks.specs.Block.{Portion};
ghost use Rattle.tape_set.specs.{Layout.FileSet, Position.want_at};
ghost use Rattle.tape_core.specs.{Known.IsFileNumber, Place.rest_of, Weight.IsFront};
ghost use Rattle.tape_core.specs.{Stands.Stands, Stands.weight_of, Crash.AddsOnly, Crash.ThisAlone};
ghost use Rattle.tape_core.specs.Table.{saved, reader_of, mount_of};
ghost use Rattle.tape_run.specs.Steps.{Reeled, ReelFails, Refuses, Saved, SaveFails, WentBack};
ghost use Rattle.tape_run.specs.Crash.{IsHere, IsNoteOf, BringsNoMore};
ghost use Rattle.tape_run.specs.{Given.is_device, Given.counted, Headline.IsStart};
ghost use Rattle.tape_run.specs.{CrashRuns.IsResumed, Reels.Reads, Reels.Leaves};
ghost use Rattle.tape_run.specs.Seen.{seen, IsKept, IsSession, IfSeen, IsSeen};
ghost use Rattle.tape_run.specs.Steps.{RestartFails, RefusesRestart, IsAtNote};

use crate::fault::RunFault;
use crate::reel_reader::{ReelAnswer, ReelReader};
use std::alloc::Global;
use std::io::Read;
use std::marker::Model;
use tape_core::{Answer, Checkpoint, CoreFault, PartSink, ReaderCore, SinkFault};
use tape_image::{ImageBuffer, ImageReader};
use tape_label::Field;
use tape_set::{Position, Want};

/// A session over one file: it reads reel after reel, and its sink contains exactly the parts of
/// the file that precede its position.
#[derive(Drop)]
pub struct Session<S> {
    alloc: Global,
    reel_reader: ReelReader<S>,
    notes: Vec<Checkpoint>,
    failures: u64,
}

impl<S> Model for Session<S> {
    ghost use Rattle.tape_run.specs.SessionState.{SessionState};

    ghost Value = { SessionState S };

    ghost view = { λ s. record {
      core = s.reel_reader.core;
      sink = s.reel_reader.sink;
      notes = s.notes.items;
      failures = s.failures;
      wide = s.reel_reader.wide;
    } };
}

impl<S: PartSink + Drop> Session<S> {
    /// Creates a session at the start of file `file` of the set with identifier `set_id`, over an
    /// empty sink. Does not allocate.
    ///
    /// # Errors
    ///
    /// Returns `FileNumber` if the file's number is not 1 to 9,999; the sink is then dropped.
    pub fn new(alloc: Global, set_id: Field<6>, file: u16, sink: S) -> Result<Session<S>, CoreFault>
        ensures sink { IfOk result (λ session. session.sink ≡ sink) }
        ensures start { IfOk result (λ session. IsStart set_id file (seen S.PartSink session [])) }
        ensures kept { IfOk result (λ session. IsKept (seen S.PartSink session [])) }
        ensures core { IfOk result (λ session. session.core ≡ reader_of set_id file) }
        ensures strict { IfOk result (λ session. session.wide ≡ false) }
        ensures number { IsFileNumber file → IsOk result }
        ensures refused { (IsFileNumber file → ⊥) → result ≡ Err CoreFault.FileNumber }
    {
        let core = ReaderCore::new(set_id, file)?;
        Ok(Session::over(alloc, core, sink))
    }
}

impl<S: PartSink> Session<S> {
    /// Creates a session from a core and a sink, without checkpoints.
    fn over(alloc: Global, core: ReaderCore, sink: S) -> Session<S>
        ensures sink { result.sink ≡ sink }
        ensures core { result.core ≡ core }
        ensures place { rest_of result.core ≡ rest_of core }
        ensures notes { result.notes ≡ [] }
        ensures failures { result.failures ≡ 0 }
        ensures strict { result.wide ≡ false }
    {
        Session {
            alloc,
            reel_reader: ReelReader {
                core,
                sink,
                wide: false,
            },
            notes: Vec::new(alloc),
            failures: 0,
        }
    }

    /// Resumes at a checkpoint, over a sink that contains the parts before it. Does not allocate.
    pub fn resume(alloc: Global, point: &Checkpoint, sink: S) -> Session<S>
        ensures sink { result.sink ≡ sink }
        ensures kept { (held : List Portion) → IsKept (seen S.PartSink result held) }
        ensures session { (set : FileSet) (held : List Portion)
            → Stands set point.now.file point.now held
            → IsSession set (seen S.PartSink result held) }
        ensures resumed { (held : List Portion)
            → IsResumed point.now held (seen S.PartSink result held) }
        ensures failures { result.failures ≡ 0 }
        ensures strict { result.wide ≡ false }
    {
        Session::over(alloc, ReaderCore::at(point), sink)
    }

    /// Returns the sink, with the parts delivered so far.
    pub fn sink(&self) -> &S
        ensures { result.now ≡ self.now.sink }
    {
        &self.reel_reader.sink
    }

    /// Ends the session, and returns its sink.
    pub fn into_sink(self) -> S
        ensures { result ≡ self.sink }
    {
        self.reel_reader.sink
    }

    /// Reads a reel up to the first item after which no other item of the reel can affect the file.
    /// The parts of each block that the file needs go to the sink, one by one, from the expected
    /// part on. If the file is complete, nothing is read. Allocates only the image reader's buffer.
    ///
    /// A fault of the image, or a reader that failed, ends the reading and is part of the result;
    /// items read before it count.
    ///
    /// # Errors
    ///
    /// Returns `Sink` if the sink refused a part: the session's position is that part, and the next
    /// reel continues there. Returns `OutOfMemory` if the image reader's buffer was refused:
    /// nothing changed or was read.
    pub fn reel<R: Read>(&mut self, device: &mut R) -> Result<ReelAnswer, RunFault>
        ensures ok { IfOk result (λ answer. IfSeen S.PartSink self.old (λ old.
            IsSeen S.PartSink self.new (λ new. IsFront old.parts new.parts
            × (IsKept old → IsKept new) × IfSome (R.remaining device.old)
            (λ bytes. Reeled bytes (R.remaining device.new) (is_device answer.fault) old
            new)))) }
        ensures err { IfErr result (λ fault. IfSeen S.PartSink self.old (λ old.
            IsSeen S.PartSink self.new (λ new. IsFront old.parts new.parts
            × (IsKept old → IsKept new) × IfSome (R.remaining device.old)
            (λ bytes. ReelFails bytes fault old new)))) }
        // For any reader and sink: the session has the same file and checkpoints; a reader that
        // failed is counted, and a call of the sink that was refused is part of the result.
        ensures notes { self.new.notes ≡ self.old.notes }
        ensures file { (self.new.core.set_id ≡ self.old.core.set_id)
            × (self.new.core.file ≡ self.old.core.file) }
        ensures wide { self.new.wide ≡ self.old.wide }
        ensures count { IfOk result (λ answer.
            self.new.failures ≡ counted (is_device answer.fault) self.old.failures) }
        ensures calm { IfOk result (λ _.
            S.refusals self.new.sink ≡ S.refusals self.old.sink) }
        ensures refuses { IfErr result (λ fault.
            Refuses S.PartSink fault self.old self.new) }
        // The answer and the position are those to which the core's table leads, for any sink, and
        // no byte after what ended the reading was read.
        ensures answer { IfOk result (λ answer. IfKnown (R.remaining device.old)
            (R.remaining device.new)
            (λ bytes left. Reads self.old.wide self.old.core.position self.old.core
            (mount_of self.old.core) bytes left answer self.new.core)) }
        // Whatever was read, the answer is Complete exactly if nothing is missing any more.
        ensures complete { IfOk result (λ answer. answer.answer ≡ Answer.Complete
            → self.new.core.position ≡ Position.Finished) }
        ensures finished { IfOk result (λ answer.
            self.new.core.position ≡ Position.Finished → answer.answer ≡ Answer.Complete) }
        ensures unread { IfErr result (λ fault.
            Leaves self.old.wide fault (mount_of self.old.core) (R.remaining device.old)
            (R.remaining device.new) self.new.core) }
        // In any case: a crash during or after it leaves nothing new.
        ensures crash { BringsNoMore S.PartSink self.old.sink self.new.sink }
    {
        if self.reel_reader.core.want().is_none() {
            return Ok(ReelAnswer::new(Answer::Complete, None, 0));
        }
        let Ok(buffer) = ImageBuffer::new(self.alloc) else {
            return Err(RunFault::OutOfMemory);
        };
        let mut image = ImageReader::over(buffer, device);
        self.reel_reader.core.mount();
        let read = self.reel_reader.read(&mut image);
        // The caller gets back the rest of the reader.
        image.into_device();
        match read {
            Ok(answer) => {
                self.failures = counted(self.failures, answer.is_device());
                Ok(answer)
            }
            Err(cause) => Err(RunFault::Sink(cause)),
        }
    }

    /// Saves a checkpoint of the session's position, in its list and, if the sink is durable, in
    /// the sink.
    ///
    /// # Errors
    ///
    /// Returns `OutOfMemory` if the list could not grow, before the sink is called; `Sink` if the
    /// sink refused. Both leave the session unchanged.
    pub fn save(&mut self) -> Result<Checkpoint, RunFault>
        ensures ok { OnOk result (IfSeen S.PartSink self.old (λ old.
            IsSeen S.PartSink self.new (λ new. (IsKept old → IsKept new) × Saved old new))) }
        ensures point { IfOk result (λ point. (held : List Portion) → S.holds self.old.sink held
            → point ≡ saved (rest_of self.old.core) (weight_of held)) }
        ensures err { IfErr result (λ fault. IfSeen S.PartSink self.old (λ old.
            IsSeen S.PartSink self.new (λ new. SaveFails fault old new))) }
        // For any sink: the session's position is unchanged; the checkpoint has that position and
        // the sink's weight, and is last in the list; no call of the sink was refused, or the one
        // that was is in the result.
        ensures notes { IfOk result (λ point. self.new.notes ≡ self.old.notes ++ point ∷ []) }
        ensures at { IfOk result (λ point.
            point ≡ saved (rest_of self.old.core) (S.weighs self.old.sink)) }
        ensures place { self.new.core ≡ self.old.core }
        ensures wide { self.new.wide ≡ self.old.wide }
        ensures calm { OnOk result (S.refusals self.new.sink ≡ S.refusals self.old.sink) }
        ensures refuses { IfErr result (λ fault. Refuses S.PartSink fault self.old self.new) }
        // The checkpoint is valid, with the parts delivered.
        ensures stands { IfOk result (λ point. (set : FileSet) (held : List Portion)
            → S.holds self.old.sink held → IsSession set (seen S.PartSink self.old held)
            → Stands set (rest_of self.old.core).file point held) }
        ensures memory { result ≡ Err RunFault.OutOfMemory → self.new.sink ≡ self.old.sink }
        // After an Ok, and from then on, a crash leaves exactly the checkpoint that was saved, with
        // its parts.
        ensures kept { IfOk result (λ point. (held : List Portion) → S.holds self.old.sink held
            → ThisAlone point held (S.crashes self.new.sink)) }
        // In any case: a crash during or after it leaves the session's position, with the parts
        // delivered, or what one before it could.
        ensures crash { IfSeen S.PartSink self.old (λ old. AddsOnly (IsHere old)
            (S.crashes self.old.sink) (S.crashes self.new.sink)) }
    {
        let point = self.reel_reader.core.save(self.reel_reader.sink.weight());
        if self.notes.push(point).is_err() {
            return Err(RunFault::OutOfMemory);
        }
        match self.reel_reader.sink.keep(&point) {
            Ok(()) => Ok(point),
            Err(cause) => {
                self.notes.pop();
                Err(RunFault::Sink(cause))
            }
        }
    }

    /// Adds a checkpoint of the session's position to its list only, and stores nothing in the
    /// sink: for a sink in which this state is already durable, such as one that was opened now.
    ///
    /// # Errors
    ///
    /// Returns `OutOfMemory` if the list could not grow: nothing changed.
    pub fn note(&mut self) -> Result<(), RunFault>
        ensures sink { self.new.sink ≡ self.old.sink }
        ensures ok { OnOk result ((held : List Portion) → S.holds self.old.sink held
            → Saved (seen S.PartSink self.old held) (seen S.PartSink self.new held)) }
        ensures notes { OnOk result (self.new.notes ≡ self.old.notes
            ++ saved (rest_of self.old.core) (S.weighs self.old.sink) ∷ []) }
        ensures place { self.new.core ≡ self.old.core }
        ensures wide { self.new.wide ≡ self.old.wide }
        ensures err { IfErr result (λ fault. (fault ≡ RunFault.OutOfMemory)
            × (self.new ≡ self.old)) }
    {
        let here = self.reel_reader.core.save(self.reel_reader.sink.weight());
        if self.notes.push(here).is_err() {
            return Err(RunFault::OutOfMemory);
        }
        Ok(())
    }

    /// Returns the number of checkpoints.
    pub fn notes(&self) -> usize
        ensures { result ≡ length self.now.notes }
    {
        self.notes.len()
    }

    /// Rolls back to checkpoint `n`, counted from 0: cuts the sink to its contents at that time,
    /// and drops the later checkpoints. Does not allocate.
    ///
    /// # Errors
    ///
    /// Returns `NoSuchPoint` if there are at most `n` checkpoints; `Sink` if the sink refused. Both
    /// leave the session unchanged; a sink that returned `Device` must be opened again.
    pub fn restart(&mut self, n: usize) -> Result<(), RunFault>
        ensures ok { OnOk result (IfSeen S.PartSink self.old (λ old. IsKept old
            → IsSeen S.PartSink self.new (λ new. IsKept new × WentBack n old new))) }
        ensures err { IfErr result (λ fault. IfSeen S.PartSink self.old (λ old. IsKept old
            → (fault ≢ RunFault.Sink SinkFault.Device → S.holds self.new.sink old.parts)
            × RestartFails n fault old (seen S.PartSink self.new old.parts))) }
        // For any sink: the session is at the checkpoint and the later ones are gone, or its
        // position is unchanged; no call of the sink was refused, or the one that was is reported.
        ensures stays { OnErr result ((self.new.core ≡ self.old.core)
            × (self.new.notes ≡ self.old.notes)) }
        ensures place { OnOk result (IsAtNote n self.old self.new) }
        ensures notes { OnOk result (self.new.notes ≡ take (n + 1) self.old.notes) }
        ensures wide { self.new.wide ≡ self.old.wide }
        ensures calm { OnOk result (S.refusals self.new.sink ≡ S.refusals self.old.sink) }
        ensures refuses { IfErr result (λ fault.
            RefusesRestart S.PartSink n fault self.old self.new) }
        // In any case: a crash during or after the call leaves checkpoint `n` with its parts, or
        // what a crash before the call could have left.
        ensures crash { IfSeen S.PartSink self.old (λ old. IsKept old → AddsOnly (IsNoteOf n old)
            (S.crashes self.old.sink) (S.crashes self.new.sink)) }
    {
        let Some(&point) = self.notes.get(n) else {
            return Err(RunFault::NoSuchPoint);
        };
        if point.staged > self.reel_reader.sink.weight() {
            return Err(RunFault::Sink(SinkFault::Failed));
        }
        match self.reel_reader.sink.cut_to(&point) {
            Err(cause) => return Err(RunFault::Sink(cause)),
            Ok(()) => {}
        }
        self.reel_reader.core = ReaderCore::at(&point);
        self.notes.truncate(n + 1);
        Ok(())
    }

    /// Returns the next missing part of the file, or `None` exactly if the file is complete.
    pub fn want(&self) -> Option<Want>
        ensures { result ≡ want_at (rest_of self.now.core).file (rest_of self.now.core).position }
    {
        self.reel_reader.core.want()
    }

    /// Returns how many reels were not read to their end because their reader failed.
    pub fn device_faults(&self) -> u64
        ensures { result ≡ self.now.failures }
    {
        self.failures
    }
}

/// Returns a count of failed readers after one more reader, which failed or did not.
fn counted(failures: u64, failed: bool) -> u64
    ensures { result ≡ counted failed failures }
{
    if failed {
        failures.saturating_add(1)
    } else {
        failures
    }
}
