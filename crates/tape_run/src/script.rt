//! Scripts: steps of a session, one after another.

ghost use Rattle.std.specs.Prelude.{◌≡◌, ◌+◌, [], ◌∷◌, ℕ, Bool, List, Some, None, OnOk, OnErr};
ghost use Rattle.std.specs.Prelude.{IfOk, IfErr, map, take, drop, true, false, ◌++◌, Option};
ghost use Rattle.tape_blocks.specs.Spans.{join};
ghost use Rattle.tape_set.specs.{declared.position.Position.TheVariants.Finished, Lawful.IsLawful};
ghost use Rattle.tape_set.specs.Layout.{FileSet, Section, file_of};
ghost use Rattle.tape_set.specs.Before.{section_parts};
ghost use Rattle.tape_core.specs.{Place.rest_of, Crash.AddsOnly};
ghost use Rattle.tape_run.specs.Headline.{IsStart, IsRead, HasRun, HasStopped, LosesParts};
ghost use Rattle.tape_run.specs.{Back.reels_of, Back.AreVolumes, Headline.reels_in, Causes.IsCalm};
ghost use Rattle.tape_run.specs.Crash.{IsOf, StoodAt, LastAlone, is_saved};
ghost use Rattle.tape_run.specs.{Given.written, Given.IfTold, Made.IsMade, Made.WritesFrom};
ghost use Rattle.tape_run.specs.Runs.{Runs, RunsUpTo, Fails, RefusesStep, StopsFor};
ghost use Rattle.tape_run.specs.Seen.{seen, IsKept, IfSeen, IsSeen, IsSeenUnless};

use crate::fault::{RunFault, Stopped};
use crate::session::Session;
use std::io::Read;
use tape_core::PartSink;

/// One step of a script.
#[derive(Clone, Copy)]
pub enum Step {
    /// Reads the next reader's reel.
    Reel,
    /// Saves a checkpoint.
    Save,
    /// Rolls back to a checkpoint by its number, counted from 0.
    Restart(usize),
}

/// Makes the steps, one after another, up to the first error. Each `Reel` takes the next reader,
/// even if the file is complete and nothing is read of it.
///
/// Writes into `failed`, for each reader that was used, whether it failed, as far as the slice
/// reaches. Callers that do not need the results pass `&mut []`.
///
/// # Errors
///
/// Returns the first step that failed, counted from 0, with its error: that of `reel`, `save` or
/// `restart`, or `TooFewReels` if a reel is requested and no reader is left. The steps before it
/// took effect, and none after it was begun.
pub fn run<S: PartSink, R: Read>(
    session: &mut Session<S>,
    steps: &[Step],
    reels: &mut [R],
    failed: &mut [bool],
) -> Result<(), Stopped>
    // The headline: the sink contains the parts before the position that the history leads to,
    // which is the session's position, and the session has the checkpoints of the history.
    ensures headline { OnOk result (IfSeen S.PartSink session.old (λ old. IsKept old
        → IsSeen S.PartSink session.new (λ new. IsKept new
        × IfTold R.remaining reels.old (λ bytes.
        (run : HasRun old steps.now bytes (map R.remaining reels.new) new)
        × (failed.new ≡ written run.which failed.old))))) }
    // If the session has read nothing of its file, this is also true from the start of the file.
    ensures start { OnOk result ((set_id : List ℕ) (file : ℕ) → S.holds session.old.sink []
        → IsStart set_id file (seen S.PartSink session.old [])
        → IsSeen S.PartSink session.new (λ new. IfTold R.remaining reels.old (λ bytes.
        (read : IsRead set_id file steps.now bytes (map R.remaining reels.new) new)
        × (failed.new ≡ written read.which failed.old)))) }
    // After the images of all volumes, in order, if no reader failed, the sink contains the whole
    // file.
    ensures back { OnOk result ((set : FileSet) (file : ℕ) (f : List Section)
        (bytes : List (List ℕ))
        → S.holds session.old.sink [] → IsStart set.set_id file (seen S.PartSink session.old [])
        → IsLawful set → file_of set file ≡ Some f → AreVolumes set 0 bytes
        → map R.remaining reels.old ≡ map Some bytes → steps.now ≡ reels_of bytes
        → session.new.failures ≡ 0
        → S.holds session.new.sink (section_parts f)
        × ((rest_of session.new.core).position ≡ Finished)
        × ((join (section_parts f)).rest ≡ None)) }
    // If it stopped at a step, the headline is true of the steps before it; the session's position
    // is the part that was refused. Only a failed rollback may lose the contents of the sink.
    ensures stopped { IfErr result (λ end. IfSeen S.PartSink session.old (λ old. IsKept old
        → IsSeenUnless (LosesParts steps.now end.step end.fault) S.PartSink session.new (λ new.
        IsKept new × IfTold R.remaining reels.old (λ bytes.
        (stop : HasStopped old steps.now bytes (map R.remaining reels.new) end.step end.fault new)
        × (failed.new ≡ written stop.which failed.old))))) }
    // For any set and history: each step did what `reel`, `save` and `restart` promise; and after a
    // save followed by reels, a crash leaves exactly the saved state, now and from then on.
    ensures runs { OnOk result (IfSeen S.PartSink session.old (λ old. IsKept old
        → IsSeen S.PartSink session.new (λ new.
        ((which : List Bool) × (failed.new ≡ written which failed.old)
        × Runs which old steps.now (map R.remaining reels.old) (map R.remaining reels.new) new)
        × (is_saved false steps.now ≡ true → LastAlone (S.crashes session.new.sink) new)))) }
    // If it stopped: the same for the steps before, and the failed step left the state that its
    // call promises.
    ensures faults { IfErr result (λ end. IfSeen S.PartSink session.old (λ old. IsKept old
        → IsSeenUnless (LosesParts steps.now end.step end.fault) S.PartSink session.new (λ new.
        IsKept new × (which : List Bool) × (failed.new ≡ written which failed.old)
        × RunsUpTo which old steps.now (map R.remaining reels.old) (map R.remaining reels.new)
        end.step end.fault new))) }
    // For any sink, even if readers make no claim about their bytes: no call of the sink was
    // refused; or the failed step failed for a reason that its call promises, and no call was
    // refused before.
    ensures calm { OnOk result (IsCalm S.PartSink session.old session.new) }
    ensures cause { IfErr result (λ end. StopsFor S.PartSink steps.now end.step end.fault
        session.old session.new) }
    ensures wide { session.new.wide ≡ session.old.wide }
    // A reader that no step took is unchanged.
    ensures unread { OnOk result (drop (reels_in steps.now) reels.new
        ≡ drop (reels_in steps.now) reels.old) }
    ensures untaken { IfErr result (λ end. let taken = reels_in (take (end.step + 1) steps.now) in
        drop taken reels.new ≡ drop taken reels.old) }
    // In any case: a state that a crash during or after it leaves could have been left before, or
    // is the session's position between two steps, or one of its checkpoints there.
    ensures crash { IfSeen S.PartSink session.old (λ old. IsKept old
        → AddsOnly (StoodAt old steps.now (map R.remaining reels.old) (map R.remaining reels.new))
        (S.crashes session.old.sink) (S.crashes session.new.sink)) }
{
    let mut used = 0usize;
    for (step, asked) in steps.iter().enumerate() {
        match make(session, *asked, reels, used, failed) {
            Ok(now_used) => used = now_used,
            Err(fault) => return Err(Stopped { step, fault }),
        }
    }
    Ok(())
}

/// Makes a step, and returns how many of the readers are used after it; `used` were before.
fn make<S: PartSink, R: Read>(
    session: &mut Session<S>,
    step: Step,
    reels: &mut [R],
    used: usize,
    failed: &mut [bool],
) -> Result<usize, RunFault>
    ensures ok { IfOk result (λ now_used. (which : List Bool) × (unread : List (Option (List ℕ)))
        × WritesFrom used which failed.old failed.new now_used
        × (map R.remaining (take now_used reels.new) ≡ map R.remaining (take used reels.old)
        ++ unread)
        × IfSeen S.PartSink session.old (λ old. IsKept old
        → IsSeen S.PartSink session.new (λ new. IsKept new
        × IsMade which step (map R.remaining (drop used reels.old)) unread
        (map R.remaining (drop now_used reels.new)) (S.crashes session.old.sink)
        (S.crashes session.new.sink) old new))) }
    ensures calm { OnOk result (IsCalm S.PartSink session.old session.new) }
    ensures cause { IfErr result (λ fault.
        RefusesStep S.PartSink step fault session.old session.new) }
    ensures wide { session.new.wide ≡ session.old.wide }
    ensures takes { IfOk result (λ now_used. now_used ≡ used + reels_in (step ∷ [])) }
    ensures behind { drop (used + reels_in (step ∷ [])) reels.new
        ≡ drop (used + reels_in (step ∷ [])) reels.old }
    ensures unwritten { OnErr result (failed.new ≡ failed.old) }
    ensures unread { OnErr result (map R.remaining (take used reels.new)
        ≡ map R.remaining (take used reels.old)) }
    ensures err { IfErr result (λ fault. IfSeen S.PartSink session.old (λ old. IsKept old
        → IsSeenUnless (LosesParts (step ∷ []) 0 fault) S.PartSink session.new (λ new. IsKept new
        × Fails step (map R.remaining (drop used reels.old)) fault old new))) }
    ensures crash { IfSeen S.PartSink session.old (λ old. IsKept old → AddsOnly (IsOf old)
        (S.crashes session.old.sink) (S.crashes session.new.sink)) }
{
    match step {
        Step::Reel => {
            if used >= reels.len() {
                return Err(RunFault::TooFewReels);
            }
            let answer = session.reel(&mut reels[used])?;
            write_at(failed, used, answer.is_device());
            Ok(used + 1)
        }
        Step::Save => {
            session.save()?;
            Ok(used)
        }
        Step::Restart(n) => {
            session.restart(n)?;
            Ok(used)
        }
    }
}

/// Writes `flag` at index `number` of the slice, unless the slice is shorter.
fn write_at(row: &mut [bool], number: usize, flag: bool)
    ensures { WritesFrom number (flag ∷ []) row.old row.new (number + 1) }
{
    if number < row.len() {
        row[number] = flag;
    }
}
