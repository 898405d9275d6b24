//! Continues a reel after a section of an earlier file.

ghost use Rattle.std.specs.Prelude.{◌≡◌, IfOk, IfErr, IfSome};
ghost use Rattle.tape_image.specs.Reader.{IfKnown};
ghost use Rattle.tape_core.specs.{Behind.behind_of, Weight.IsFront};
ghost use Rattle.tape_run.specs.{Crash.BringsNoMore, Given.is_device, Given.counted};
ghost use Rattle.tape_run.specs.Reels.{Leaves, Reads};
ghost use Rattle.tape_run.specs.Steps.{ReeledFrom, ReelFailsFrom};
ghost use Rattle.tape_run.specs.{Seen.IsKept, Seen.IfSeen, Seen.IsSeen, Steps.Refuses};

use super::{Session, counted};
use crate::fault::RunFault;
use crate::reel_reader::ReelAnswer;
use crate::survey::files::FileKey;
use std::io::Read;
use tape_core::{Answer, PartSink};
use tape_image::{ImageBuffer, ImageReader};
use tape_set::Position;

impl<S: PartSink> Session<S> {
    /// Continues a reel where the session of an earlier file of the set completed a section: the
    /// reader's position is after the section's trailer label. The result is the same as if this
    /// session had read the reel from its start (`laws::passes_files`), but each byte is read once.
    ///
    /// # Errors
    ///
    /// The errors are those of `reel`.
    pub fn reel_behind<R: Read>(&mut self, device: &mut R) -> Result<ReelAnswer, RunFault>
        ensures ok { IfOk result (λ answer. IfSeen S.PartSink self.old (λ old.
            IsSeen S.PartSink self.new (λ new. IsFront old.parts new.parts
            × (IsKept old → IsKept new) × IfSome (R.remaining device.old)
            (λ bytes. ReeledFrom (behind_of old.place) bytes (R.remaining device.new)
            (is_device answer.fault) old new)))) }
        ensures err { IfErr result (λ fault. IfSeen S.PartSink self.old (λ old.
            IsSeen S.PartSink self.new (λ new. IsFront old.parts new.parts
            × (IsKept old → IsKept new) × IfSome (R.remaining device.old)
            (λ bytes. ReelFailsFrom (behind_of old.place) bytes fault old new)))) }
        ensures notes { self.new.notes ≡ self.old.notes }
        ensures file { (self.new.core.set_id ≡ self.old.core.set_id)
            × (self.new.core.file ≡ self.old.core.file) }
        ensures wide { self.new.wide ≡ self.old.wide }
        ensures count { IfOk result (λ answer.
            self.new.failures ≡ counted (is_device answer.fault) self.old.failures) }
        ensures calm { IfOk result (λ _.
            S.refusals self.new.sink ≡ S.refusals self.old.sink) }
        ensures refuses { IfErr result (λ fault. Refuses S.PartSink fault self.old self.new) }
        ensures unread { IfErr result (λ fault. Leaves self.old.wide fault
            (behind_of self.old.core) (R.remaining device.old) (R.remaining device.new)
            self.new.core) }
        ensures answer { IfOk result (λ answer. IfKnown (R.remaining device.old)
            (R.remaining device.new)
            (λ bytes left. Reads self.old.wide self.old.core.position self.old.core
            (behind_of self.old.core) bytes left answer self.new.core)) }
        ensures complete { IfOk result (λ answer. answer.answer ≡ Answer.Complete
            → self.new.core.position ≡ Position.Finished) }
        ensures finished { IfOk result (λ answer.
            self.new.core.position ≡ Position.Finished → answer.answer ≡ Answer.Complete) }
        ensures crash { BringsNoMore S.PartSink self.old.sink self.new.sink }
    {
        if self.reel_reader.core.want().is_none() {
            return Ok(ReelAnswer::new(Answer::Complete, None, 0));
        }
        let Ok(buffer) = ImageBuffer::new(self.alloc) else {
            return Err(RunFault::OutOfMemory);
        };
        let mut image = ImageReader::over(buffer, device);
        self.reel_reader.core.mount_behind();
        let read = self.reel_reader.read(&mut image);
        image.into_device();
        match read {
            Ok(answer) => {
                self.failures = counted(self.failures, answer.is_device());
                Ok(answer)
            }
            Err(cause) => Err(RunFault::Sink(cause)),
        }
    }

    /// Identifies its file: the identifier of the set, and the number.
    pub(crate) fn file_key(&self) -> FileKey
        ensures set_id { result.set_id ≡ self.now.core.set_id }
        ensures file { result.file ≡ self.now.core.file }
    {
        let point = self.reel_reader.core.save(0);
        FileKey {
            set_id: point.set_id,
            file: point.file,
        }
    }
}
