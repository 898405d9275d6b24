//! A source of images, opened one after another.

ghost use Rattle.std.specs.Prelude.{◌≡◌, ◌≢◌, ◌≤◌, ◌+◌, ◌⊎◌, ℕ, None, length, true, OnOk, OnErr};
ghost use Rattle.std.specs.{Prelude.IfOk, Prelude.IfErr, Bool.OnTrue, Bool.OnFalse};
ghost use Rattle.tape_set.specs.declared.position.Position.TheVariants.{Finished};
ghost use Rattle.tape_core.specs.Place.{rest_of};
ghost use Rattle.tape_run.specs.{Causes.ReadingFails, Causes.IsCalm, Crash.LeavesStep, Seen.IfSeen};
ghost use Rattle.tape_run.specs.Causes.{ExtractFails, RefusesAny};
ghost use Rattle.tape_run.specs.Reeling.{Takes, TakesAll, counts_differ, IsKeptFor, Mounting, Took};
ghost use Rattle.tape_run.specs.Reeling.{is_suspect, is_no_label};
ghost use Rattle.tape_run.specs.Stopping.{IsStopped, RefusesSave, StopsReading};
ghost use Rattle.tape_run.specs.Rounds.{TakesRounds, StopsInRound};

use crate::extract::line::ReelLine;
use crate::extract::opening::Opener;
use crate::fault::{EngineFault, RunFault};
use crate::reel_reader::ReelAnswer;
use crate::session::Session;
use crate::text::write_line;
use std::alloc::AllocError;
use std::io::{Read, Write};
use tape_core::{Answer, PartSink, Reason};
use tape_label::LabelFault;
use tape_set::Want;

/// A source of images, each of which is opened by its number.
pub trait ImageSource<R: Read> {
    /// The number of images.
    ghost size: { Self → ℕ };

    /// The result of opening an image by its number, and the source afterwards.
    ghost gives: { Mounting Self R };

    /// Returns the number of images.
    fn count(&self) -> usize
        ensures { result ≡ size self.now };

    /// Opens image `number`, counted from 0. Returns `None` if it cannot be opened.
    ///
    /// # Errors
    ///
    /// Returns `AllocError` if there is no memory to read the image. The source is unchanged.
    fn mount(&mut self, number: usize) -> Result<Option<R>, AllocError>
        ensures ok { IfOk result (λ image. gives self.old number image self.new) }
        ensures err { OnErr result (self.new ≡ self.old) };
}

/// Readers are a source that yields each of them once.
impl<R: Read> ImageSource<R> for Vec<Option<R>> {
    ghost size = { λ readers. length readers.items };

    ghost gives = { λ old number image new. Took old.items number image new.items };

    fn count(&self) -> usize {
        self.len()
    }

    fn mount(&mut self, number: usize) -> Result<Option<R>, AllocError> {
        match self.get_mut(number) {
            Some(image) => Ok(image.take()),
            None => Ok(None),
        }
    }
}

/// Opens the images in their order by `opener`, once or, if they are read `again`, pass by pass
/// until the last pass. `back` says whether the session rolls back after a suspect reel.
pub fn read_rounds<S: PartSink, R: Read + Drop, L: ImageSource<R>, M: Opener<S, R, L>, P: Write>(
    session: &mut Session<S>,
    images: &mut L,
    opener: &mut M,
    back: bool,
    again: bool,
    report: &mut P,
) -> Result<(), EngineFault>
    ensures ok { OnOk result (TakesRounds S.PartSink (L.size images.old) L.gives R.remaining back
        again session.old session.new images.old images.new
        (P.contents report.old) (P.contents report.new)) }
    ensures err { IfErr result (StopsInRound S.PartSink (L.size images.old) L.gives R.remaining back
        again session.old session.new images.old images.new
        (P.contents report.old) (P.contents report.new)) }
    ensures cause { IfErr result (λ fault. ExtractFails S.PartSink
        (RefusesAny S.PartSink M.refuses) back fault session.old session.new) }
    ensures calm { OnOk result (IsCalm S.PartSink session.old session.new) }
{
    let count = images.count();
    let mut lines = 0u64;
    'rounds: loop {
        let before = session.want();
        read_round(session, images, opener, count, lines, back, again, report)?;
        if is_enough(again, before, session.want()) {
            return Ok(());
        }
        lines += count as u64;
        // Another pass would need line numbers above the greatest one.
        if u64::MAX - lines < count as u64 {
            return Ok(());
        }
    }
}

/// Returns whether a pass was the last: the images are not read again, or afterwards nothing is
/// missing, or as much as before it.
fn is_enough(again: bool, before: Option<Want>, want: Option<Want>) -> bool
    ensures yes { OnTrue result (again ≡ true → (want ≡ None) ⊎ (want ≡ before)) }
    ensures no { OnFalse result ((again ≡ true) × (want ≢ None) × (want ≢ before)) }
{
    !again || want.is_none() || want == before
}

/// Opens `count` images in order until the file is complete. `lines` lines precede theirs. `back`
/// says whether the session rolls back after a suspect reel, `spares` whether it skips a checkpoint
/// whose position the last one already has.
fn read_round<S: PartSink, R: Read + Drop, L: ImageSource<R>, M: Opener<S, R, L>, P: Write>(
    session: &mut Session<S>,
    images: &mut L,
    opener: &mut M,
    count: usize,
    lines: u64,
    back: bool,
    spares: bool,
    report: &mut P,
) -> Result<(), EngineFault>
    requires room { lines + count ≤ 18446744073709551615 }
    ensures ok { OnOk result (TakesAll S.PartSink count lines L.gives R.remaining back
        spares session.old session.new images.old images.new
        (P.contents report.old) (P.contents report.new)) }
    ensures err { IfErr result (StopsReading S.PartSink count lines L.gives R.remaining back
        spares session.old session.new images.old images.new
        (P.contents report.old) (P.contents report.new)) }
    ensures cause { IfErr result (λ fault. ExtractFails S.PartSink
        (RefusesAny S.PartSink M.refuses) back fault session.old session.new) }
    ensures calm { OnOk result (IsCalm S.PartSink session.old session.new) }
{
    for number in 0..count {
        if session.want().is_none() {
            return Ok(());
        }
        let image = opener.open(session, images, number)?;
        let outcome = read_image(session, image, back, spares)?;
        let number = lines + number as u64 + 1;
        write_line(report, &ReelLine { number, outcome })?;
    }
    Ok(())
}

/// Reads an image, if it could be opened, and then saves the session, unless it spares checkpoints
/// and its last one has the same position. If the reel is suspect nothing is saved, so that a stage
/// keeps its state from before that reel, or the session rolls back. Returns the reel's answer.
fn read_image<S: PartSink, R: Read + Drop>(
    session: &mut Session<S>,
    image: Option<R>,
    back: bool,
    spares: bool,
) -> Result<Option<ReelAnswer>, RunFault>
    requires waits { session.old.core.position ≢ Finished }
    ensures ok { IfOk result (λ answer. Takes S.PartSink R.remaining back spares
        session.old session.new image answer) }
    ensures left { IfErr result (λ fault. IfSeen S.PartSink session.old (λ old. IsKeptFor back old
        → LeavesStep S.PartSink back (RefusesSave R.remaining old image (EngineFault.Run fault)
        (rest_of session.new.core)) session.old old.parts session.new)) }
    ensures stops { IfErr result (λ fault. IfSeen S.PartSink session.old (λ old. IsKeptFor back old
        → IsStopped S.PartSink R.remaining back spares old image (EngineFault.Run fault)
        session.new)) }
    ensures cause { IfErr result (λ fault.
        ReadingFails S.PartSink back (EngineFault.Run fault) session.old session.new) }
    ensures calm { OnOk result (IsCalm S.PartSink session.old session.new) }
{
    let Some(mut device) = image else {
        return Ok(None);
    };
    let answer = session.reel(&mut device)?;
    if is_suspect(spares, &answer) {
        if back {
            let last = session.notes().saturating_sub(1);
            session.restart(last)?;
        }
    } else if !(spares && session.is_noted()) {
        session.save()?;
    }
    Ok(Some(answer))
}

/// Returns whether the trailer label of the reel, or of a reel before it, gave a different number
/// of blocks.
fn counts_differ(answer: &ReelAnswer) -> bool
    ensures { result ≡ counts_differ answer.now.answer }
{
    matches!(
        answer.answer,
        Answer::Useless(Reason::BlockCount { .. } | Reason::Broken)
    )
}

/// Returns whether the reading ended with a block or a tape mark in place of a label that is no
/// such label.
fn is_no_label(answer: &ReelAnswer) -> bool
    ensures { result ≡ is_no_label answer.now.answer }
{
    matches!(
        answer.answer,
        Answer::Useless(Reason::BadLabel(LabelFault::NotEighty | LabelFault::Identifier))
    )
}

/// Returns whether the reel is suspect: the number of blocks in its trailer label, or in that of a
/// reel before it, is wrong; or the images are read `again`, and it gave blocks that no trailer
/// label ends.
fn is_suspect(again: bool, answer: &ReelAnswer) -> bool
    ensures { result ≡ is_suspect again answer.now }
{
    counts_differ(answer) || (again && answer.blocks > 0 && is_no_label(answer))
}
