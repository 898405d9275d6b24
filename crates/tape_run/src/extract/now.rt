//! `extract` without a stage: writes the records while it reads the images.

ghost use Rattle.std.specs.Prelude.{◌≡◌, ◌≢◌, ◌⊎◌, ℕ, List, Option, None, OnOk, IfOk, OnErr, IfErr};
ghost use Rattle.std.specs.Prelude.{false};
ghost use Rattle.tape_set.specs.declared.position.Position.TheVariants.{Finished};
ghost use Rattle.tape_run.specs.{Causes.ReadingFails, Causes.EndingFails, OutSinks.TellsAlways};
ghost use Rattle.tape_run.specs.Causes.{ExtractFails, RefusesAny};
ghost use Rattle.tape_run.specs.Extracting.{Extracts, Stops, IsPut, LeavesName};

use crate::extract::end_report;
use crate::extract::images::{ImageSource, read_rounds};
use crate::extract::opening::{AsTheyAre, Opener};
use crate::extract::out_sink::OutSink;
use crate::fault::{EngineFault, WriteFailed};
use crate::session::Session;
use std::io::{Read, Write};
use tape_blocks::Form;
use tape_core::PartSink;
use tape_set::Want;

/// The name that an output is given once it is complete.
pub trait Place<W: Write> {
    /// The contents of the file with this name, if known.
    ghost stands: { Self → Option (List ℕ) };

    /// Gives the name to `out`, and changes nothing else.
    ///
    /// # Errors
    ///
    /// Returns `WriteFailed` on failure. What had the name still has it.
    fn place(&mut self, out: W) -> Result<(), WriteFailed>
        ensures ok { OnOk result (stands self.new ≡ W.contents out) }
        ensures err { OnErr result (stands self.new ≡ stands self.old) };
}

/// Reads a file from its images, in their order, until it is complete, prints a line for each, and
/// writes the file's records as they come. If the file is complete, they get the output's name.
/// Otherwise a file with that name is not touched, and the missing part is returned: the session
/// has the records already written, and can continue with other images.
///
/// Allocates only for the session, a buffer while a reel is read, checkpoints, and what opening
/// takes.
///
/// # Errors
///
/// Returns `Run` with the fault of a reel or of a save, with `OutOfMemory` if there was no memory
/// to open an image, or with `Sink(Failed)` if a record is unfinished after the last part;
/// `WriteFailed` if the output or the report failed. The lines reported so far are a prefix of such
/// a report; an image that could not be read or saved is not reported. A file that has the output's
/// name is unchanged, or the file is complete, and its records have the name.
pub fn extract_streaming<W: Write + Drop, R: Read + Drop, L: ImageSource<R>, O: Place<W>, P: Write>(
    session: &mut Session<OutSink<W>>,
    images: &mut L,
    form: Form,
    out: &mut O,
    report: &mut P,
) -> Result<Option<Want>, EngineFault>
    // The session never rolls back, because written records cannot be dropped.
    ensures ok { IfOk result (Extracts ⟦<OutSink<W> as PartSink>⟧ L.size L.gives R.remaining
        false false session.old session.new images.old images.new
        (IsPut form (TellsAlways W.contents) (O.stands out.new))
        (P.contents report.old) (P.contents report.new)) }
    // While something of the file is missing, the output's name is not touched at all.
    ensures untouched { IfOk result (λ want. want ≢ None → out.new ≡ out.old) }
    ensures err { IfErr result (Stops ⟦<OutSink<W> as PartSink>⟧ L.size L.gives R.remaining
        false false session.old session.new images.old images.new
        (LeavesName form (TellsAlways W.contents) O.stands out.old out.new)
        (P.contents report.old) (P.contents report.new)) }
    // While the images were read the sink refused a call, or memory ran out; or the file is
    // complete, and its output could not be ended; or a write failed.
    ensures cause { IfErr result (λ fault.
        ReadingFails ⟦<OutSink<W> as PartSink>⟧ false fault session.old session.new
        ⊎ ((session.new.core.position ≡ Finished)
        × EndingFails session.new.sink.begun session.new.sink.form form fault)) }
{
    extract_watched(session, images, &mut AsTheyAre, form, out, report)
}

/// Does the same as `extract_streaming`, with images that `opener` opens.
///
/// # Errors
///
/// The errors of `extract_streaming`, and those of the opener.
pub fn extract_watched<
    W: Write + Drop,
    R: Read + Drop,
    L: ImageSource<R>,
    M: Opener<OutSink<W>, R, L>,
    O: Place<W>,
    P: Write,
>(
    session: &mut Session<OutSink<W>>,
    images: &mut L,
    opener: &mut M,
    form: Form,
    out: &mut O,
    report: &mut P,
) -> Result<Option<Want>, EngineFault>
    // The session never rolls back, because written records cannot be dropped.
    ensures ok { IfOk result (Extracts ⟦<OutSink<W> as PartSink>⟧ L.size L.gives R.remaining
        false false session.old session.new images.old images.new
        (IsPut form (TellsAlways W.contents) (O.stands out.new))
        (P.contents report.old) (P.contents report.new)) }
    // While something of the file is missing, the output's name is not touched at all.
    ensures untouched { IfOk result (λ want. want ≢ None → out.new ≡ out.old) }
    ensures err { IfErr result (Stops ⟦<OutSink<W> as PartSink>⟧ L.size L.gives R.remaining
        false false session.old session.new images.old images.new
        (LeavesName form (TellsAlways W.contents) O.stands out.old out.new)
        (P.contents report.old) (P.contents report.new)) }
    // While the images were read the sink refused a call, or memory ran out; or the file is
    // complete, and its output could not be ended; or a write failed.
    ensures cause { IfErr result (λ fault.
        ExtractFails ⟦<OutSink<W> as PartSink>⟧ (RefusesAny ⟦<OutSink<W> as PartSink>⟧ M.refuses)
        false fault session.old session.new
        ⊎ ((session.new.core.position ≡ Finished)
        × EndingFails session.new.sink.begun session.new.sink.form form fault)) }
{
    // What was written remains: this session does not roll back.
    read_rounds(session, images, opener, false, false, report)?;
    if let Some(want) = session.want() {
        end_report(report, Some(want), 0)?;
        return Ok(Some(want));
    }
    let records = session.place_output(form, out)?;
    end_report(report, None, records)?;
    Ok(None)
}
