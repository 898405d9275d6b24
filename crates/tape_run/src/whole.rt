//! Whole readings, each in one call.

ghost use Rattle.std.specs.Prelude.{◌≡◌, [], false, List, Err, IsOk, IfOk, OnOk, IfErr, map};
ghost use Rattle.tape_blocks.specs.Block.{Portion};
ghost use Rattle.tape_core.specs.{Known.IsFileNumber, Place.rest_of, Memory.portions};
ghost use Rattle.tape_core.specs.Table.{reader_of};
ghost use Rattle.tape_run.specs.Headline.{IsRead, IsStart, HasRun, HasStopped, LosesParts};
ghost use Rattle.tape_run.specs.{CrashRuns.IsResumed, CrashRuns.LivesOn, Given.IfTold};
ghost use Rattle.tape_run.specs.{Runs.StopsFor, SessionState.SessionState};
ghost use Rattle.tape_run.specs.Seen.{Seen, seen, IsKept, IsSeen, IsSeenUnless};

use crate::fault::Stopped;
use crate::script::{Step, run};
use crate::session::Session;
use std::alloc::Global;
use std::io::Read;
use tape_core::{Checkpoint, CoreFault, MemorySink, PartSink};
use tape_label::Field;

/// Reads a file into memory: a session from the file's start, and a run over the steps. The session
/// is where the successful steps lead, even if one failed.
///
/// # Errors
///
/// Returns `FileNumber` if the file's number is not 1 to 9,999. The result of `run` is returned
/// beside the session.
pub fn read_file<R: Read>(
    alloc: Global,
    set_id: Field<6>,
    file: u16,
    steps: &[Step],
    reels: &mut [R],
) -> Result<(Session<MemorySink>, Result<(), Stopped>), CoreFault>
    // The headline without a premise on the sink: the parts in memory are those before the position
    // that the history leads to.
    ensures read { IfOk result (λ read. OnOk read.1 (IfTold R.remaining reels.old (λ bytes.
        (now : Seen) × (now.parts ≡ portions read.0.sink) × (now.place ≡ rest_of read.0.core)
        × (now.notes ≡ read.0.notes) × (now.failures ≡ read.0.failures) × (now.wide ≡ false)
        × IsRead set_id file steps.now bytes (map R.remaining reels.new) now))) }
    // If it stopped at a step, the same is true of the steps before it.
    ensures stopped { IfOk result (λ read. IfErr read.1 (λ end. IfTold R.remaining reels.old
        (λ bytes. (began : Seen) × IsStart set_id file began × (began.wide ≡ false)
        × (now : Seen) × (now.place ≡ rest_of read.0.core)
        × (now.notes ≡ read.0.notes) × (now.failures ≡ read.0.failures)
        × ((LosesParts steps.now end.step end.fault → ⊥) → now.parts ≡ portions read.0.sink)
        × HasStopped began steps.now bytes (map R.remaining reels.new) end.step end.fault
        now))) }
    // Why it stopped: the step with that number failed for a reason that its call promises, and no
    // call of the sink was refused before.
    ensures cause { IfOk result (λ read. IfErr read.1 (λ end. (began : SessionState MemorySink)
        × (portions began.sink ≡ []) × (began.sink.refused ≡ 0) × (began.notes ≡ [])
        × (began.core ≡ reader_of set_id file)
        × StopsFor ⟦<MemorySink as PartSink>⟧ steps.now end.step end.fault began read.0)) }
    ensures calm { IfOk result (λ read. OnOk read.1 (read.0.sink.refused ≡ 0)) }
    // Then the session can be used again, even if a reader does not know its bytes.
    ensures kept { IfOk result (λ read. OnOk read.1 (IsKept
        (seen ⟦<MemorySink as PartSink>⟧ read.0 (portions read.0.sink)))) }
    ensures number { IsFileNumber file → IsOk result }
    ensures refused { (IsFileNumber file → ⊥) → result ≡ Err CoreFault.FileNumber }
{
    let sink = MemorySink::new(alloc);
    let mut session = Session::new(alloc, set_id, file, sink)?;
    let made = run(&mut session, steps, reels, &mut []);
    Ok((session, made))
}

/// Resumes a file at a checkpoint, over a sink that has its parts, and runs the steps.
pub fn resume_and_run<S: PartSink, R: Read>(
    alloc: Global,
    point: &Checkpoint,
    sink: S,
    steps: &[Step],
    reels: &mut [R],
) -> (Session<S>, Result<(), Stopped>)
    // If all steps succeeded: a session that was resumed at the checkpoint is where the history
    // leads, with the parts before that position.
    ensures delivers { OnOk result.1 ((held : List Portion) → S.holds sink held
        → (began : Seen) × IsResumed point.now held began × (began.wide ≡ false)
        × IsSeen S.PartSink result.0 (λ new. IfTold R.remaining reels.old (λ bytes.
        HasRun began steps.now bytes (map R.remaining reels.new) new))) }
    // If it stopped at one of them: the same for the steps before it.
    ensures stopped { IfErr result.1 (λ end. (held : List Portion) → S.holds sink held
        → (began : Seen) × IsResumed point.now held began × (began.wide ≡ false)
        × IsSeenUnless (LosesParts steps.now end.step end.fault) S.PartSink result.0 (λ new.
        IfTold R.remaining reels.old (λ bytes.
        HasStopped began steps.now bytes (map R.remaining reels.new) end.step end.fault
        new))) }
    // Why it stopped, for any sink: as above.
    ensures cause { IfErr result.1 (λ end. (began : SessionState S) × (began.sink ≡ sink)
        × (began.notes ≡ [])
        × StopsFor S.PartSink steps.now end.step end.fault began result.0) }
    ensures calm { OnOk result.1 (S.refusals result.0.sink ≡ S.refusals sink) }
    ensures kept { OnOk result.1 ((held : List Portion) → S.holds sink held
        → IsSeen S.PartSink result.0 IsKept) }
    // In any case: the state that a crash during or after it leaves existed before, or was saved by
    // this run.
    ensures crash { (held : List Portion) → S.holds sink held → IfTold R.remaining reels.old
        (λ bytes. LivesOn point.now held steps.now bytes (map R.remaining reels.new)
        (S.crashes sink).returns (S.crashes result.0.sink).returns
        × LivesOn point.now held steps.now bytes (map R.remaining reels.new)
        ((S.crashes sink).returned (S.crashes sink).moment)
        ((S.crashes result.0.sink).returned (S.crashes sink).moment)) }
    ensures survives { (held : List Portion) → S.holds sink held
        → ((S.crashes sink).survives → (S.crashes result.0.sink).survives)
        × ((S.crashes sink).survived (S.crashes sink).moment
        → (S.crashes result.0.sink).survived (S.crashes sink).moment) }
{
    let mut session = Session::resume(alloc, point, sink);
    let result = run(&mut session, steps, reels, &mut []);
    (session, result)
}
