//! The recovery of one file from the images.

use super::chosen::extract_in_form;
use super::report::LastLine;
use super::run::Run;
use super::summed::{Listed, Summed, SummedDraft, SummedOutput};
use crate::compared::Compared;
use crate::extract::{Draft, Task, end_as_written};
use crate::fault::{FileFault, OUT_OF_MEMORY, ToolFault};
use crate::images::place_of;
use crate::normal::{Normal, NormalImages};
use crate::program::{End, end_of, extract_end};
use crate::record_form::Under;
use crate::screen::Progress;
use crate::staged::{note_staged, staged_before};
use crate::staging::{StageSink, session_in};
use std::alloc::AllocError;
use std::fs;
use std::io::Write;
use tape_label::Field;
use tape_run::{
    BlockRun, FileKey, Locations, Mounted, OutSink, Session, SetFile, extract_located, is_passed,
    last_line, position_of, runs_of, write_text,
};
use tape_set::Want;
use tape_writer::system::found;

impl<'n, R: Progress, P: Write> Run<'n, R, P> {
    /// Recovers a file. If all its sections are intact, reads the images that have them once, and
    /// nothing from its stage, which may have data of other copies. Any other file, or one that is
    /// still incomplete then, is recovered on its stage, in passes; if that does not complete it,
    /// and no image had other data, as `salvage` does. `last` remembers the last line of either,
    /// and `listed` what the lists say of the file.
    pub fn recover(
        &mut self,
        file: &SetFile,
        out: &str,
        stage: &str,
        listed: &mut Listed,
        last: &mut LastLine,
    ) -> Result<End, ToolFault> {
        self.choose_whole(file)?;
        let task = Task {
            set_id: file.set_id,
            file: file.file,
            out,
            form: self.form(),
            stage: Some(stage),
            again: true,
            wide: file.wide,
        };
        if file.lacks.is_none() && self.form.is_some() {
            let images = &mut NormalImages::again(self.rt, self.names);
            let (mounted, locations) = (&mut self.mounted, &self.met.locations);
            let end = extract_whole(self.rt, &task, images, mounted, locations, listed, last);
            if end == Ok(End::Done) {
                listed.runs = self.met.section_runs(self.rt.alloc(), file)?;
                return end;
            }
            if end != Ok(End::Incomplete) {
                // Nothing is proved about an image at which a fault occurred.
                self.mounted = None;
                return end;
            }
        }
        let end = self.recover_in_passes(file, &task, stage, listed, last)?;
        if end == End::Incomplete && self.differing.is_empty() {
            return self.recover_salvaged(&task, file, listed, last);
        }
        Ok(end)
    }

    /// Returns the names of the images that may have missing parts of a file, in the order in which
    /// they are read: those of its set, without those that have only a section before `want`.
    pub fn names_for(
        &self,
        set_id: Field<6>,
        want: Option<Want>,
    ) -> Result<Vec<&'n str>, ToolFault> {
        let (alloc, met) = (self.rt.alloc(), self.met);
        let mut names = Vec::new(alloc);
        let Some(want) = want else {
            return Ok(names);
        };
        let numbers = met.reading_order(alloc, set_id, want.file, false)?;
        for number in numbers.as_slice() {
            let image = met.images.as_slice().get(*number);
            if let Some(name) = self.names.get(*number)
                && !image.is_some_and(|image| is_passed(image, want))
            {
                names.push(*name).map_err(|_| OUT_OF_MEMORY)?;
            }
        }
        Ok(names)
    }

    /// Compares the copies of a file's sections on the images that may have its parts from `want`
    /// on, if a section is complete on no image. `opener` remembers which copies are doubtful.
    ///
    /// # Errors
    ///
    /// Returns `Conflict` if two of the images contradict each other.
    fn doubt_copies(
        &self,
        file: &SetFile,
        task: &Task<'_>,
        want: Option<Want>,
        opener: &mut Compared,
    ) -> Result<(), ToolFault> {
        if file.lacks.is_none() {
            return Ok(());
        }
        let names = self.names_for(task.set_id, want)?;
        match opener.doubt(self.rt, task, names.as_slice())? {
            Some(_) => Err(ToolFault::Conflict),
            None => Ok(()),
        }
    }

    /// Recovers a file on the stage at `path` from the images that may have its missing parts.
    ///
    /// # Errors
    ///
    /// Returns `Conflict` if two images contradict each other about a section that none has in
    /// full; the stage is then not changed, or not created.
    fn recover_in_passes(
        &mut self,
        file: &SetFile,
        task: &Task<'_>,
        path: &str,
        listed: &mut Listed,
        last: &mut LastLine,
    ) -> Result<End, ToolFault> {
        let rt = self.rt;
        let doubted = match found(fs::symlink_metadata(rt.host(), path))? {
            Some(there) if there.is_file() => None,
            // A link is not followed to a stage.
            Some(_) => return Err(ToolFault::File(FileFault::NotOpened)),
            None => Some(Want {
                file: task.file,
                sect: 1,
                block: 0,
                part: 0,
            }),
        };
        let opener = &mut Compared::new(rt.alloc(), true);
        // Before a stage is created.
        self.doubt_copies(file, task, doubted, opener)?;
        let mut session = session_in(rt.host(), path, task.set_id, task.file)?;
        if task.wide {
            session.widen();
        }
        if session.want() != doubted {
            self.doubt_copies(file, task, session.want(), opener)?;
        }
        self.recover_on(&mut session, opener, task, listed, last)
    }

    /// Recovers a file in a session on its stage from the images that may have its missing parts,
    /// which `opener` opens.
    fn recover_on(
        &mut self,
        session: &mut Session<StageSink>,
        opener: &mut Compared,
        task: &Task<'_>,
        listed: &mut Listed,
        last: &mut LastLine,
    ) -> Result<End, ToolFault> {
        let rt = self.rt;
        listed.staged = staged_before(session.want());
        let names = self.names_for(task.set_id, session.want())?;
        let images = &mut NormalImages::again(rt, names.as_slice());
        let (draft, out) = Draft::over(rt, task.out, None)?;
        let mut output = SummedOutput::new(draft, out, listed.is_wanted);
        opener.is_recorded = listed.is_wanted;
        let (form, is_text, out) = (&mut self.form, self.is_text, &mut output);
        let answer = extract_in_form(session, images, opener, form, is_text, out, last);
        let mut place = output.place;
        listed.sum = place.found.take();
        listed.want = session.want();
        let end = place.draft.ended(extract_end(answer));
        if end == End::Done {
            let Task { set_id, file, .. } = *task;
            note_staged(rt, Some(self.met), &FileKey { set_id, file }, listed);
        }
        self.note_passes(names.as_slice(), opener, listed)?;
        Ok(end)
    }

    /// Remembers which images had other data of a file, and in `listed` from which ones its blocks
    /// came. It was recovered from those named `names`, which `opener` opened.
    fn note_passes(
        &mut self,
        names: &[&str],
        opener: &Compared,
        listed: &mut Listed,
    ) -> Result<(), AllocError> {
        for number in opener.differing.as_slice() {
            if let Some(place) = place_of(self.names, names, *number) {
                self.differing.push(place)?;
            }
        }
        listed.runs = self.runs_in_passes(names, opener, listed.want)?;
        self.note_doubtful(names, opener, listed)
    }

    /// Remembers in `listed` which images have a doubtful copy of the section that is missing, but
    /// no other data. It was recovered from those named `names`, which `opener` opened.
    fn note_doubtful(
        &self,
        names: &[&str],
        opener: &Compared,
        listed: &mut Listed,
    ) -> Result<(), AllocError> {
        for number in 0..names.len() {
            if opener.doubtful_at(number, listed.want).is_some()
                && let Some(place) = place_of(self.names, names, number)
                && !self.differing.contains(&place)
            {
                listed.doubtful.push(place)?;
            }
        }
        Ok(())
    }

    /// Returns where the blocks of a file came from that was recovered from the images named
    /// `names`, which `opener` opened, up to the part `want`.
    pub fn runs_in_passes(
        &self,
        names: &[&str],
        opener: &Compared,
        want: Option<Want>,
    ) -> Result<Vec<BlockRun>, AllocError> {
        let openings = opener.openings.as_slice();
        let mut runs = runs_of(self.rt.alloc(), openings, position_of(want))?;
        renumber(self.names, names, &mut runs);
        Ok(runs)
    }
}

/// Replaces the numbers of images among those named `some` by those among all images, which are
/// named `names`.
pub fn renumber(names: &[&str], some: &[&str], runs: &mut Vec<BlockRun>) {
    for run in runs {
        if let Some(number) = run.image {
            run.image = place_of(names, some, number);
        }
    }
}

/// Recovers a file from the images that contain its sections, and prints the last line if it is
/// complete. The last image stays open, so that the next file can continue there. `listed` gets the
/// checksum of a complete file.
fn extract_whole<'a, R: Progress, P: Write>(
    rt: &'a R,
    task: &Task<'a>,
    images: &mut NormalImages<'_, R>,
    mounted: &mut Option<Mounted<Normal<R>>>,
    locations: &Locations,
    listed: &mut Listed,
    report: &mut P,
) -> Result<End, ToolFault> {
    let (draft, out) = Draft::over(rt, task.out, None)?;
    let mut place = Under(SummedDraft { draft, found: None });
    let summed = Summed::new(out, listed.is_wanted);
    let form = task.form.given();
    let sink = OutSink::new(rt.alloc(), task.form.over(summed), form);
    let Ok(mut session) = Session::new(rt.alloc(), task.set_id, task.file, sink) else {
        return Ok(place.0.draft.ended(End::WrongWords));
    };
    if task.wide {
        session.widen();
    }
    let answer = extract_located(&mut session, images, mounted, locations, form, &mut place);
    drop(session);
    listed.sum = place.0.found.take();
    let end = match answer {
        Ok(Some(records)) => {
            let told = write_text(report, last_line(None, records).as_bytes());
            end_of(told.map_err(|fault| ToolFault::from(fault)))
        }
        Ok(None) => End::Incomplete,
        Err(fault) => end_as_written(Err(fault)),
    };
    Ok(place.0.draft.ended(end))
}
