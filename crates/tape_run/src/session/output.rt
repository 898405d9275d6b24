//! Writes the parts that a session contains as records.
ghost use Rattle.std.specs.Prelude.{◌≡◌, ◌≢◌, List, None, OnOk, OnErr, IfOk, IfErr};
ghost use Rattle.tape_run.specs.{OutSinks.TellsAlways, OutSinks.HasTaken, Crash.IsWalked};
ghost use Rattle.tape_run.specs.{Causes.WritingFails, Causes.EndingFails, Extracting.IsWritten};
ghost use Rattle.tape_run.specs.{Extracting.IsPut, RecordText.output_of};
ghost use Rattle.tape_blocks.specs.Block.{Portion};
ghost use Rattle.tape_image.specs.Written.{AppendsFront};

use super::Session;
use crate::extract::{OutSink, Place, write_file};
use crate::fault::EngineFault;
use std::io::Write;
use tape_blocks::Form;
use tape_core::{PartSink, PartWalk};

impl<S: PartWalk> Session<S> {
    /// Writes the records of the parts delivered so far, as `write_file` does for a sink: for an
    /// incomplete file, the records before the first missing part.
    ///
    /// # Errors
    ///
    /// The errors are those of `write_file`.
    pub fn write_file<W: Write>(&mut self, form: Form, out: &mut W) -> Result<u64, EngineFault>
        ensures ok { IfOk result (λ records. (parts : List Portion) → S.holds self.old.sink parts
            → IsWritten form (W.contents out.old) (W.contents out.new) None records parts) }
        ensures err { OnErr result ((parts : List Portion) → S.holds self.old.sink parts
            → AppendsFront (W.contents out.old) (W.contents out.new) (output_of form parts)) }
        // In any case: the session's position is unchanged, and a crash afterwards leaves nothing
        // that no crash before it could.
        ensures same { IsWalked S.PartSink self.old self.new }
        ensures cause { IfErr result
            (WritingFails form S.holds S.refusals S.refuses self.old.sink self.new.sink) }
        ensures calm { OnOk result (S.refusals self.new.sink ≡ S.refusals self.old.sink) }
    {
        write_file(self.alloc, &mut self.reel_reader.sink, form, out)
    }
}

impl<W: Write + Drop> Session<OutSink<W>> {
    /// Ends the output of the sink, gives it its name, and returns the number of its records. Gives
    /// up the writer, and changes nothing else of the session.
    ///
    /// # Errors
    ///
    /// The errors of `OutSink::finish`, and `WriteFailed` if the output did not get its name. The
    /// file that had the name still has it.
    pub(crate) fn place_output<O: Place<W>>(
        &mut self,
        form: Form,
        out: &mut O,
    ) -> Result<u64, EngineFault>
        ensures ok { IfOk result (λ records. (parts : List Portion) → HasTaken W.contents
            self.old.sink.form self.old.sink.out self.old.sink.held.items self.old.sink.weight
            self.old.sink.records self.old.sink.begun parts
            → IsPut form (TellsAlways W.contents) (O.stands out.new) None records parts) }
        ensures err { OnErr result (O.stands out.new ≡ O.stands out.old) }
        ensures cause { IfErr result (λ fault. fault ≢ EngineFault.WriteFailed
            → (self.new ≡ self.old)
            × EndingFails self.old.sink.begun self.old.sink.form form fault) }
        ensures calm { self.new.sink.refused ≡ self.old.sink.refused }
        ensures same { IsWalked ⟦<OutSink<W> as PartSink>⟧ self.old self.new }
    {
        let (written, records) = self.reel_reader.sink.finish(form)?;
        out.place(written)?;
        Ok(records)
    }
}
