//! The lines that a run adds to a record.

use super::image_row::recorded_image;
use super::record::Record;
use super::rows::{awaited_file, recorded_blocks, recorded_file, reported_line, salvaged_file};
use super::run::Run;
use super::summed::{Listed, sum_of};
use crate::fault::ToolFault;
use crate::readings::place_in;
use crate::record_form::RecordForm;
use crate::refusal::open;
use crate::screen::{Host, Progress};
use crate::uncounted::are_counted;
use crate::words::form_word;
use std::alloc::{AllocError, Global};
use std::fs;
use std::io::Write;
use tape_label::{Field, Vol1};
use tape_run::{BlockRun, FileKey, FileNote, First, ImageSurvey, SectionKey, SetFile};
use tape_set::{Position, Want};
use tape_writer::system::{found, name_in_folder};

/// How a file was written.
#[derive(Clone, Copy)]
pub struct WrittenFile {
    /// The form of its records.
    pub form: &'static str,
    /// Whether their characters were translated.
    pub is_text: bool,
    pub size: u64,
    pub sum: [u8; 32],
    /// Whether the blocks of each of its sections are counted.
    pub blocks_counted: bool,
}

/// The name of an output, and its file in a set.
#[derive(Clone, Copy)]
pub struct RecordedName<'n> {
    pub name: &'n str,
    pub key: FileKey,
    /// The identifier of the file, if a label of it was found.
    pub file_id: Option<Field<17>>,
}

impl Record {
    /// Adds a complete output, with the labels of its file if some were found.
    pub fn add_file(
        &mut self,
        alloc: Global,
        output: &RecordedName<'_>,
        written: WrittenFile,
        note: Option<&FileNote>,
    ) -> Result<(), AllocError> {
        let line = recorded_file(alloc, output, written, self.note.line(), note)?;
        self.add(line.as_slice())
    }

    /// Adds where the blocks of an output came from. The numbers of their images count `names`.
    pub fn add_runs<R: Host>(
        &mut self,
        rt: &R,
        names: &[&str],
        output: &RecordedName<'_>,
        runs: &[BlockRun],
    ) -> Result<(), AllocError> {
        for run in runs {
            let image = run.image.and_then(|number| names.get(number)).copied();
            let offset = match (run.image, image, block_at(output.key, run.from)) {
                (Some(number), Some(image), Some(at)) => self.note_use(rt, number, image, at)?,
                _ => None,
            };
            let from = image.map(|image| (place_in(image).0, offset));
            let line = recorded_blocks(rt.alloc(), output.name, *run, from)?;
            self.add(line.as_slice())?;
        }
        Ok(())
    }

    /// Adds an incomplete file with its stage, and where its blocks came from, unless the record
    /// has it and the run added nothing.
    pub fn add_awaited<R: Host>(
        &mut self,
        rt: &R,
        names: &[&str],
        output: &RecordedName<'_>,
        want: Want,
        runs: &[BlockRun],
    ) -> Result<(), AllocError> {
        let line = awaited_file(rt.alloc(), output, want)?;
        let is_longer = runs.iter().any(|run| run.image.is_some());
        if !is_longer && self.has(line.as_slice()) {
            return Ok(());
        }
        self.add(line.as_slice())?;
        self.add_runs(rt, names, output, runs)
    }

    /// Adds the salvaged records of an incomplete file, with the file of their gaps if there is
    /// one, unless the record has them.
    pub fn add_salvaged(
        &mut self,
        alloc: Global,
        output: &RecordedName<'_>,
        written: WrittenFile,
        gaps: Option<&str>,
    ) -> Result<(), AllocError> {
        let line = salvaged_file(alloc, output, written, gaps)?;
        if self.has(line.as_slice()) {
            return Ok(());
        }
        self.add(line.as_slice())
    }

    /// Adds the lines of the report on the output named `name`.
    pub fn add_lines(&mut self, alloc: Global, name: &str, text: &[u8]) -> Result<(), AllocError> {
        for line in str::from_utf8(text).unwrap_or("").lines() {
            let line = reported_line(alloc, name, line)?;
            self.add(line.as_slice())?;
        }
        Ok(())
    }

    /// Adds the images named `names` from which blocks were taken, with their volume labels as a
    /// survey found them in `images`.
    pub fn add_images<R: Host>(
        &mut self,
        rt: &R,
        names: &[&str],
        images: &[Option<ImageSurvey>],
    ) -> Result<(), AllocError> {
        for (number, name) in names.iter().enumerate() {
            let (path, start) = place_in(*name);
            if start > 0 || !self.has_used(names, path) {
                continue;
            }
            let label = match images.get(number) {
                Some(Some(image)) => label_of(image),
                _ => None,
            };
            let line = recorded_image(rt.alloc(), path, read_sum(rt, path), label)?;
            if !self.has(line.as_slice()) {
                self.add(line.as_slice())?;
            }
        }
        Ok(())
    }
}

impl Record {
    /// Returns whether blocks came from a reading of the image at `path`.
    fn has_used(&self, names: &[&str], path: &str) -> bool {
        let mut readings = names.iter().enumerate();
        readings.any(|(number, name)| self.is_used(number) && place_in(*name).0 == path)
    }
}

impl<R: Progress, P: Write> Run<'_, R, P> {
    /// Adds the complete file at `path`, which the run wrote, to the list of checksums and to the
    /// record, if they are to be extended. Its blocks came from `runs`.
    pub fn list_file(
        &mut self,
        file: &SetFile,
        path: &str,
        sum: [u8; 32],
        runs: &[BlockRun],
    ) -> Result<(), ToolFault> {
        if let Some(manifest) = &mut self.manifest {
            manifest.add(self.rt.alloc(), path, sum)?;
        }
        self.record_file(file, path, sum, runs)
    }

    /// Adds the complete file at `path`, which has this checksum. Its blocks came from `runs`.
    pub fn record_file(
        &mut self,
        file: &SetFile,
        path: &str,
        sum: [u8; 32],
        runs: &[BlockRun],
    ) -> Result<(), ToolFault> {
        let (rt, names, met, form) = (self.rt, self.names, self.met, self.form());
        let output = &recorded_name(file, path);
        let note = met.notes.get(&output.key);
        if let (Some(manifest), Some(_)) = (&mut self.manifest, note) {
            let written = written_at(rt, path, output.key, in_words(form), sum)?;
            let record = &mut manifest.record;
            record.add_file(rt.alloc(), output, written, note)?;
            record.add_runs(rt.host(), names, output, runs)?;
        }
        Ok(())
    }

    /// Adds an incomplete file with its stage, unless the record has it and the run added nothing.
    pub fn record_awaited(
        &mut self,
        file: &SetFile,
        stage: &str,
        listed: &Listed,
    ) -> Result<(), ToolFault> {
        let (rt, names) = (self.rt, self.names);
        if let (Some(manifest), Some(want)) = (&mut self.manifest, listed.want) {
            let (output, runs) = (&recorded_name(file, stage), listed.runs.as_slice());
            let record = &mut manifest.record;
            record.add_awaited(rt.host(), names, output, want, runs)?;
        }
        Ok(())
    }

    /// Adds the salvaged records of a file, at `path`, which have this checksum, with their gaps at
    /// `gaps`, unless the record has them.
    pub fn record_salvaged(
        &mut self,
        file: &SetFile,
        path: &str,
        gaps: &str,
        sum: [u8; 32],
    ) -> Result<(), ToolFault> {
        let (rt, form) = (self.rt, self.form());
        if let Some(manifest) = &mut self.manifest {
            let (output, gaps) = (&recorded_name(file, path), name_in_folder(gaps));
            let written = written_at(rt, path, output.key, in_words(form), sum)?;
            let record = &mut manifest.record;
            record.add_salvaged(rt.alloc(), output, written, Some(gaps))?;
        }
        Ok(())
    }

    /// Adds the images from which blocks were taken, if the record is to be extended.
    pub fn record_images(&mut self) -> Result<(), ToolFault> {
        let (rt, names, met) = (self.rt, self.names, self.met);
        if let Some(manifest) = &mut self.manifest {
            let record = &mut manifest.record;
            record.add_images(rt.host(), names, met.images.as_slice())?;
        }
        Ok(())
    }
}

/// Returns the name by which a file of a directory is recorded, whose path is `path`.
fn recorded_name<'p>(file: &SetFile, path: &'p str) -> RecordedName<'p> {
    RecordedName {
        name: name_in_folder(path),
        key: FileKey {
            set_id: file.set_id,
            file: file.file,
        },
        file_id: Some(file.file_id),
    }
}

/// Returns the word for a form, and whether characters are translated.
pub fn in_words(form: RecordForm) -> (&'static str, bool) {
    (form_word(form.form), form.is_text)
}

/// Returns what is recorded about the file at `path`, which has the records of this file of a set,
/// was written in this form, translated if `is_text`, and has this checksum.
pub fn written_at<R: Progress>(
    rt: &R,
    path: &str,
    key: FileKey,
    (form, is_text): (&'static str, bool),
    sum: [u8; 32],
) -> Result<WrittenFile, ToolFault> {
    let there = found(fs::metadata(rt.host(), path))?;
    let size = there.map_or(0, |there| there.len());
    let blocks_counted = are_counted(rt, key)?;
    Ok(WrittenFile {
        form,
        is_text,
        size,
        sum,
        blocks_counted,
    })
}

/// Returns the section and the block at this position of a file, or `None` at its end.
fn block_at(key: FileKey, position: Position) -> Option<(SectionKey, u32)> {
    let Position::Awaits { sect, block, .. } = position else {
        return None;
    };
    let FileKey { set_id, file } = key;
    Some((SectionKey { set_id, file, sect }, block))
}

/// Returns the volume label with which an image begins, if it does.
fn label_of(image: &ImageSurvey) -> Option<Vol1> {
    match image.glance.first {
        First::Volume(label) => Some(label),
        _ => None,
    }
}

/// Returns the size and the checksum of the file at `path`, if it can be read.
pub fn read_sum<R: Host>(rt: &R, path: &str) -> Option<(u64, [u8; 32])> {
    let mut file = open(rt, path).ok()?;
    let size = file.metadata().ok()?.len();
    match sum_of(&mut file, size) {
        Ok(sum) => Some((size, sum)),
        Err(_) => None,
    }
}
