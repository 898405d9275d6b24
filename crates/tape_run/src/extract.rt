//! The work of `extract`, over any images, sink and writers; and the records of a sink, counted and
//! written.

mod front;
pub mod images;
pub mod line;
mod located;
mod now;
pub mod opening;
mod out_sink;
mod records;
mod translated;

ghost use Rattle.std.specs.Prelude.{◌≡◌, ◌≢◌, None, List, OnOk, IfOk, OnErr, IfErr, true, false};
ghost use Rattle.std.specs.Io.KnownBytes.{Appends};
ghost use Rattle.tape_blocks.specs.Block.{Portion};
ghost use Rattle.tape_run.specs.Causes.{WritingFails, ExtractFails, RefusesAny, RefusesWalk};
ghost use Rattle.tape_run.specs.Causes.{IsCalm};
ghost use Rattle.tape_run.specs.{Crash.IsWalked, Crash.BringsNoMore, Reeling.goes_back};
ghost use Rattle.tape_run.specs.Extracting.{Extracts, Stops, EndsFile, StopsAtEnd, IsWritten};
ghost use Rattle.tape_run.specs.Extracting.{LeavesOutput};
ghost use Rattle.tape_run.specs.RecordText.{output_of};
ghost use Rattle.tape_run.specs.ReelLine.{last_line};
ghost use Rattle.tape_image.specs.Written.{AppendsFront};

use crate::extract::images::ImageSource;
use crate::fault::{EngineFault, RunFault, WriteFailed};
use crate::session::Session;
use crate::text::{flush, write_text};
use front::{write_front, write_rest};
use images::read_rounds;
pub use line::{ReelLine, ReportLine, last_line};
pub use located::{Mounted, extract_located};
pub use now::{Place, extract_streaming, extract_watched};
pub use opening::{AsTheyAre, Opener};
pub use out_sink::OutSink;
pub use records::{write_part, write_record};
use std::alloc::Global;
use std::io::{Read, Write};
use tape_blocks::Form;
use tape_core::{PartSink, PartWalk, SinkFault};
use tape_set::Want;
pub use translated::Translated;

/// Reads a file from its images, in their order, until it is complete, prints a line for each, and
/// writes the file's records if it is complete. Otherwise returns the part that is still missing.
///
/// An image is opened when its turn comes, and closed after it was read. One that cannot be opened
/// is reported and skipped. The session is saved after each reel, except after one with a wrong
/// count. If the session came with a checkpoint, it then rolls back to its last one, and the next
/// reel continues from there; otherwise it stays broken: nothing of the following reels is used,
/// and nothing is saved. Images after the one that completes the file are not opened. `out` is
/// written and flushed if the file is complete, and not touched otherwise; then the last line of
/// the report is written, and the report flushed. The session remains the caller's, with what was
/// delivered to its sink. After an error it is where the images read before led it, or at the part
/// that the sink refused, or after the reel that was not saved or not reported.
///
/// Allocates only for the session, a buffer while a reel is read, checkpoints, and what opening
/// takes.
///
/// # Errors
///
/// Returns `Run` with the fault of a reel, of a save or of a rollback, with `OutOfMemory` if there
/// was no memory to open an image, or with the fault of the walk over the sink's parts,
/// `Sink(Failed)` if the walk returns fewer records than before; `WriteFailed` if `out` or the
/// report failed. The lines reported so far are a prefix of such a report; an image that could not
/// be read or saved is not reported. `out` was not touched, or the file is complete, and a prefix
/// of its records was written.
pub fn extract_to<S: PartWalk, R: Read + Drop, L: ImageSource<R>, W: Write, P: Write>(
    session: &mut Session<S>,
    images: &mut L,
    form: Form,
    out: &mut W,
    report: &mut P,
) -> Result<Option<Want>, EngineFault>
    ensures ok { IfOk result (Extracts S.PartSink L.size L.gives R.remaining
        (goes_back session.old.notes) false session.old session.new images.old images.new
        (IsWritten form (W.contents out.old) (W.contents out.new))
        (P.contents report.old) (P.contents report.new)) }
    // While something of the file is missing, `out` is not touched at all.
    ensures untouched { IfOk result (λ want. want ≢ None → out.new ≡ out.old) }
    ensures err { IfErr result (Stops S.PartSink L.size L.gives R.remaining
        (goes_back session.old.notes) false session.old session.new images.old images.new
        (LeavesOutput form W.contents out.old out.new)
        (P.contents report.old) (P.contents report.new)) }
    // The sink refused a call, or memory ran out, or a write failed; a session without a checkpoint
    // is not rolled back.
    ensures cause { IfErr result (λ fault. ExtractFails S.PartSink
        (RefusesAny S.PartSink S.refuses) (goes_back session.old.notes) fault
        session.old session.new) }
    // After an Ok the session can be used again, for any readers.
    ensures calm { OnOk result (IsCalm S.PartSink session.old session.new) }
{
    let back = has_note(session);
    read_rounds(session, images, &mut AsTheyAre, back, false, report)?;
    end_file(session, form, out, report)
}

/// Does the same as `extract_to`, but if `again` is true it reads the images again, from the first
/// one, after each pass that recovered something but not the whole file. So the order of the images
/// does not matter, and damaged copies complete each other. The lines are numbered continuously
/// over all passes. Then after a reel the session is saved only if its position differs from that
/// of its last checkpoint.
///
/// Each image is opened by `opener`, again in each pass. A source that yields an image only once
/// yields none then, and it is reported as not opened.
///
/// # Errors
///
/// The errors of `extract_to`.
pub fn extract_in_passes<
    S: PartWalk,
    R: Read + Drop,
    L: ImageSource<R>,
    M: Opener<S, R, L>,
    W: Write,
    P: Write,
>(
    session: &mut Session<S>,
    images: &mut L,
    opener: &mut M,
    again: bool,
    form: Form,
    out: &mut W,
    report: &mut P,
) -> Result<Option<Want>, EngineFault>
    ensures ok { IfOk result (Extracts S.PartSink L.size L.gives R.remaining
        (goes_back session.old.notes) again session.old session.new images.old images.new
        (IsWritten form (W.contents out.old) (W.contents out.new))
        (P.contents report.old) (P.contents report.new)) }
    // While something of the file is missing, `out` is not touched at all.
    ensures untouched { IfOk result (λ want. want ≢ None → out.new ≡ out.old) }
    ensures err { IfErr result (Stops S.PartSink L.size L.gives R.remaining
        (goes_back session.old.notes) again session.old session.new images.old images.new
        (LeavesOutput form W.contents out.old out.new)
        (P.contents report.old) (P.contents report.new)) }
    // The sink refused a call, or memory ran out, or a write failed; a session without a checkpoint
    // is not rolled back.
    ensures cause { IfErr result (λ fault. ExtractFails S.PartSink
        (RefusesAny S.PartSink (RefusesWalk S.refuses M.refuses))
        (goes_back session.old.notes) fault session.old session.new) }
    ensures calm { OnOk result (IsCalm S.PartSink session.old session.new) }
{
    let back = has_note(session);
    read_rounds(session, images, opener, back, again, report)?;
    end_file(session, form, out, report)
}

/// Reports the missing part of the session's file, or writes the file and reports that.
fn end_file<S: PartWalk, W: Write, P: Write>(
    session: &mut Session<S>,
    form: Form,
    out: &mut W,
    report: &mut P,
) -> Result<Option<Want>, EngineFault>
    ensures ok { IfOk result (EndsFile S.PartSink session.old
        (IsWritten form (W.contents out.old) (W.contents out.new))
        (P.contents report.old) (P.contents report.new)) }
    ensures untouched { IfOk result (λ want. want ≢ None → out.new ≡ out.old) }
    ensures err { IfErr result (StopsAtEnd S.PartSink session.old
        (LeavesOutput form W.contents out.old out.new)
        (P.contents report.old) (P.contents report.new)) }
    ensures same { IsWalked S.PartSink session.old session.new }
    ensures cause { IfErr result
        (WritingFails form S.holds S.refusals S.refuses session.old.sink session.new.sink) }
    ensures calm { OnOk result (S.refusals session.new.sink ≡ S.refusals session.old.sink) }
{
    if let Some(want) = session.want() {
        end_report(report, Some(want), 0)?;
        return Ok(Some(want));
    }
    let records = session.write_file(form, out)?;
    end_report(report, None, records)?;
    Ok(None)
}

/// Returns whether the session has a checkpoint to roll back to.
fn has_note<S: PartSink>(session: &Session<S>) -> bool
    ensures { result ≡ goes_back session.now.notes }
{
    session.notes() > 0
}

/// Writes the last line, and flushes the report.
fn end_report<P: Write>(report: &mut P, want: Option<Want>, records: u64) -> Result<(), EngineFault>
    ensures ok { OnOk result (Appends (P.contents report.old) (P.contents report.new)
        (last_line want records)) }
    ensures err { OnErr result (AppendsFront (P.contents report.old) (P.contents report.new)
        (last_line want records)) }
    ensures fault { IfErr result (λ fault. fault ≡ EngineFault.WriteFailed) }
{
    write_text(report, last_line(want, records).as_bytes())?;
    Ok(flush(report)?)
}

/// Writes the records into which the parts of a sink join, flushes, and returns their number. An
/// unfinished record is left out, so for an incomplete file these are the records before the first
/// missing part.
///
/// # Errors
///
/// Returns `Run(Sink)` with the refusal of the sink's device, or `Failed` if it returns fewer
/// records than when they were counted; `WriteFailed`; in the form `Counted` also
/// `Run(OutOfMemory)`, as [`write_part`]. The records written so far are a prefix of the sink's
/// records.
pub fn write_file<S: PartWalk, W: Write>(
    alloc: Global,
    sink: &mut S,
    form: Form,
    out: &mut W,
) -> Result<u64, EngineFault>
    ensures ok { IfOk result (λ records. (parts : List Portion) → S.holds sink.old parts
        → IsWritten form (W.contents out.old) (W.contents out.new) None records parts) }
    ensures err { OnErr result ((parts : List Portion) → S.holds sink.old parts
        → AppendsFront (W.contents out.old) (W.contents out.new) (output_of form parts)) }
    ensures kept { (parts : List Portion) → S.holds sink.old parts → S.holds sink.new parts }
    // In any case, a crash after it leaves nothing that no crash before it could.
    ensures crash { BringsNoMore S.PartSink sink.old sink.new }
    ensures cause { IfErr result
        (WritingFails form S.holds S.refusals S.refuses sink.old sink.new) }
    ensures calm { OnOk result (S.refusals sink.new ≡ S.refusals sink.old) }
{
    let front = write_front(sink, form, out)?;
    write_rest(alloc, sink, front, form, out)?;
    flush(out)?;
    Ok(front.records)
}

/// Returns the fault of a walk over a sink.
pub fn walk_fault(cause: SinkFault) -> EngineFault
    ensures { result ≡ EngineFault.Run (RunFault.Sink cause) }
{
    EngineFault::Run(RunFault::Sink(cause))
}
