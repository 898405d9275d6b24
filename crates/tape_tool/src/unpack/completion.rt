//! Files that stay incomplete in all passes, and that `salvage` recovers completely: labels of
//! them are lost or unreadable, or precede them on their images.

ghost use Rattle.std.specs.Prelude.{None};

use super::existing::{Comparison, Existing};
use super::labels::are_of_one_file;
use super::recovery::renumber;
use super::report::LastLine;
use super::run::Run;
use super::section_lines::SectionLines;
use super::stages::is_front;
use super::summed::{Listed, Summed, SummedDraft, SummedFile};
use crate::extract::{Draft, Task};
use crate::fault::{OUT_OF_MEMORY, ToolFault};
use crate::normal::NormalImages;
use crate::program::{End, end_of};
use crate::record_form::{RecordForm, Under};
use crate::screen::Progress;
use std::cell::Cell;
use std::io::Write;
use std::mem;
use tape_run::{
    BlockRun, Content, Locations, Place, SalvageTask, SetFile, WriteFailed, salvage_joined, set_of,
};

/// A slot that keeps a file without giving it a name.
#[derive(Drop)]
struct Kept(Option<SummedFile>);

impl Place<SummedFile> for Kept {
    ghost stands = { λ _. None };

    fn place(&mut self, out: SummedFile) -> Result<(), WriteFailed> {
        self.0 = Some(out);
        Ok(())
    }
}

/// Returns how the records of a file are salvaged.
pub fn salvage_task(file: &SetFile, form: RecordForm) -> SalvageTask {
    SalvageTask {
        set_id: file.set_id,
        file: file.file,
        content: Content::Records,
        form: form.given(),
    }
}

impl<'n, R: Progress, P: Write> Run<'n, R, P> {
    /// Returns the names of the images that may have blocks of a file, in their order: those whose
    /// first section is of its set, or whose first labels were not read, and those on which one of
    /// its sections begins.
    pub fn names_of_file(&self, file: &SetFile) -> Result<Vec<&'n str>, ToolFault> {
        let (met, mut names) = (self.met, Vec::new(self.rt.alloc()));
        for (number, name) in self.names.iter().enumerate() {
            let Some(image) = met.images.as_slice().get(number) else {
                continue;
            };
            let is_of_set = set_of(image).is_none_or(|set_id| set_id == file.set_id);
            if is_of_set || begins_on(&met.locations, file, number) {
                names.push(*name).map_err(|_| OUT_OF_MEMORY)?;
            }
        }
        Ok(names)
    }

    /// Returns how a comparison ends of the file at `out` with an incomplete file that is recovered
    /// as `salvage` does: as that of equal files only if it is complete, its labels are those of
    /// one file, and both have the same records. `runs` then gets where its blocks came from.
    pub fn compare_salvaged(
        &self,
        file: &SetFile,
        out: &str,
        runs: &mut Vec<BlockRun>,
    ) -> Result<End, ToolFault> {
        let names = self.names_of_file(file)?;
        let mut told = SectionLines::new(self.rt.alloc());
        let end = self.compare_with(file, out, names.as_slice(), &mut told);
        if end == Ok(End::Done) {
            told.give_runs(self.rt.alloc(), runs);
            renumber(self.names, names.as_slice(), runs);
        }
        end
    }

    /// Does the same with the images named `names`; `told` gets the report of `salvage`.
    fn compare_with(
        &self,
        file: &SetFile,
        out: &str,
        names: &[&str],
        told: &mut SectionLines,
    ) -> Result<End, ToolFault> {
        let rt = self.rt;
        let differs = &Cell::new(false);
        let existing = Existing::open(rt.host(), out, differs)?;
        let images = &mut NormalImages::again(rt, names);
        let (form, place) = (self.form(), &mut Under(Comparison));
        let (task, out) = (salvage_task(file, form), form.over(existing));
        match salvage_joined(rt.alloc(), &task, images, out, place, told) {
            Ok(true) => {
                let images = &mut NormalImages::again(rt, names);
                let same = are_of_one_file(rt.alloc(), images, file)?;
                Ok(if same { End::Done } else { End::Incomplete })
            }
            Err(fault) if ToolFault::from(fault) == OUT_OF_MEMORY => Err(OUT_OF_MEMORY),
            _ => Ok(End::Incomplete),
        }
    }

    /// Recovers an incomplete file as `salvage` does. If it is complete, `last` remembers the last
    /// line, and `listed` the checksum and where its blocks came from.
    pub fn recover_salvaged(
        &mut self,
        task: &Task<'_>,
        file: &SetFile,
        listed: &mut Listed,
        last: &mut LastLine,
    ) -> Result<End, ToolFault> {
        let names = self.names_of_file(file)?;
        self.choose_salvaged(file, names.as_slice())?;
        let task = Task {
            form: self.form(),
            ..*task
        };
        let mut told = SectionLines::new(self.rt.alloc());
        let end = salvage_whole(self.rt, &task, file, names.as_slice(), listed, &mut told);
        if end == Ok(End::Done) {
            told.give_runs(self.rt.alloc(), &mut listed.runs);
            renumber(self.names, names.as_slice(), &mut listed.runs);
            *last = mem::replace(&mut told.last, LastLine::new());
        }
        end
    }
}

/// Returns whether a section of a file begins on the image with this number.
fn begins_on(locations: &Locations, file: &SetFile, number: usize) -> bool {
    for (key, at) in locations {
        if key.set_id == file.set_id && key.file == file.file && *at == number {
            return true;
        }
    }
    false
}

/// Recovers an incomplete file as `salvage` does, from the images named `names`. It gets its name
/// only if `salvage` would call it complete, its labels are those of one file, and it begins with
/// all that its stage has. Otherwise nothing is changed. `told` gets the report of `salvage`, and
/// `listed` the checksum of a complete file.
fn salvage_whole<'a, R: Progress>(
    rt: &'a R,
    task: &Task<'a>,
    file: &SetFile,
    names: &'a [&'a str],
    listed: &mut Listed,
    told: &mut SectionLines,
) -> Result<End, ToolFault> {
    let (draft, records) = Draft::over(rt, task.out, None)?;
    let mut place = SummedDraft { draft, found: None };
    let mut kept = Under(Kept(None));
    let images = &mut NormalImages::again(rt, names);
    let records = task.form.over(Summed::new(records, listed.is_wanted));
    let salvage = salvage_task(file, task.form);
    let done = match salvage_joined(rt.alloc(), &salvage, images, records, &mut kept, told) {
        Ok(_) if told.is_short => Err(OUT_OF_MEMORY),
        Ok(true) => is_certain(rt, task, file, names, place.draft.path()),
        Ok(false) => Ok(false),
        Err(fault) => Err(ToolFault::from(fault)),
    };
    let records = kept.0.0;
    let end = match done {
        Ok(certain) => placed(&mut place, records, certain),
        Err(fault) => End::Faulted(fault),
    };
    let end = place.draft.ended(end);
    if end == End::Done {
        listed.sum = place.found.take();
    }
    Ok(end)
}

/// Gives a new file its name if it is `certain`, and returns how the recovery of the file ends.
fn placed<R: Progress>(
    place: &mut SummedDraft<'_, R>,
    kept: Option<SummedFile>,
    certain: bool,
) -> End {
    let Some(records) = kept else {
        return End::Incomplete;
    };
    if !certain {
        return End::Incomplete;
    }
    end_of(place.place(records).map_err(|fault| ToolFault::from(fault)))
}

/// Returns whether nothing contradicts the complete records at `path`: they begin with all that the
/// stage of the file has, and its labels on the images are those of one file.
fn is_certain<R: Progress>(
    rt: &R,
    task: &Task<'_>,
    file: &SetFile,
    names: &[&str],
    path: &str,
) -> Result<bool, ToolFault> {
    if !task
        .stage
        .is_some_and(|stage| is_front(rt.host(), file, stage, path, task.form))
    {
        return Ok(false);
    }
    let images = &mut NormalImages::again(rt, names);
    Ok(are_of_one_file(rt.alloc(), images, file)?)
}
