//! The record of one output, which `extract --again` and `salvage` write on request.

use crate::command_spec::{Kind, Word};
use crate::compared::Compared;
use crate::explain::FaultSite;
use crate::extract::{Task, is_one_name, no_draft};
use crate::fault::{FileFault, OUT_OF_MEMORY, ToolFault};
use crate::help;
use crate::normal::NormalImages;
use crate::program::End;
use crate::record_form::RecordForm;
use crate::refusal::{Refusal, are_files};
use crate::screen::{Host, Progress};
use crate::unpack::{Listed, Record, RecordedName, SectionLines, in_words, renumber, written_at};
use crate::words::form_word;
use clap::ArgMatches;
use std::alloc::Global;
use std::io::Write;
use std::{fs, io};
use tape_run::{
    BlockRun, Content, FileKey, FileNote, FoundFiles, SalvageTask, find_files, position_of, runs_of,
};
use tape_writer::system::{folder_of, found, name_in_folder};

/// Returns the record that is to be created at `path`, if one is requested: of an output, and of a
/// stage if there is one, both in `outs`, recovered from the images named `names`. On error, `site`
/// is the record.
///
/// # Errors
///
/// Returns `Words` if the record would have the name of one of `outs` or of a draft, or no name, or
/// if one of `outs` or of the images is neither a file nor free: it could not be read again.
/// Returns `Faulted` with `Exists` if the record exists, and with `NotOpened` if its directory does
/// not.
pub fn new_record<'a, R: Host>(
    rt: &R,
    path: Option<&'a str>,
    outs: &[&str],
    names: &[&str],
    site: &mut FaultSite<'a>,
) -> Result<Option<Record>, Refusal> {
    let Some(path) = path else {
        return Ok(None);
    };
    let before = *site;
    *site = FaultSite::Provenance(path);
    no_draft(&[path], None)?;
    for out in outs {
        if is_one_name(rt, path, *out)? {
            return Err(Refusal::Words(help::PROVENANCE_IS_OUT));
        }
    }
    if !are_files(rt, names) || !are_files(rt, outs) {
        return Err(Refusal::Words(help::PROVENANCE_OF_FILES));
    }
    if found(fs::symlink_metadata(rt, path))?.is_some() {
        return Err(Refusal::from(FileFault::Exists));
    }
    match found(fs::metadata(rt, folder_of(path)))? {
        Some(there) if there.is_dir() => {}
        _ => return Err(Refusal::from(FileFault::NotOpened)),
    }
    let record = Record::new(rt, String::from_str(rt.alloc(), path)?);
    *site = before;
    Ok(Some(record))
}

/// The option for the record of an output.
pub const PROVENANCE: Word = Word("provenance", Kind::TextOption("JSONL"), help::PROVENANCE);

/// Returns the path of the record, if one is requested.
///
/// # Errors
///
/// Returns `Words` if it does not end with a file name, or is `-`.
pub fn provenance_of<'a>(matches: &ArgMatches<'a>) -> Result<Option<&'a str>, Refusal> {
    match matches.get_str("provenance") {
        Some("-") => Err(Refusal::Words(help::PROVENANCE_IS_DASH)),
        Some(path) if name_in_folder(path).is_empty() => {
            Err(Refusal::Words(help::PROVENANCE_IS_FOLDER))
        }
        path => Ok(path),
    }
}

/// What a recovery in passes read: the names of its images in the order in which they were read and
/// in the order of the survey of them, and the survey.
#[derive(Drop)]
pub struct ReadImages<'n> {
    pub order: &'n [&'n str],
    pub names: &'n [&'n str],
    pub met: &'n FoundFiles,
}

/// Writes the record of a recovery in passes, which ended with `end`: of a complete output or, if
/// the file is incomplete, of its stage. `opener` opened the images. Returns the end of the run.
pub fn record_extracted<R: Progress>(
    rt: &R,
    record: &mut Record,
    task: &Task<'_>,
    images: &ReadImages<'_>,
    opener: &Compared,
    listed: &Listed,
    end: End,
) -> Result<End, ToolFault> {
    let (from, to) = (opener.openings.as_slice(), position_of(listed.want));
    let mut runs = runs_of(rt.alloc(), from, to)?;
    renumber(images.names, images.order, &mut runs);
    match end {
        End::Done => record_complete(rt, record, task, images, listed, runs.as_slice())?,
        End::Incomplete => record_awaited(rt, record, task, images, listed, runs.as_slice())?,
        _ => return Ok(end),
    }
    record.add_images(rt.host(), images.names, images.met.images.as_slice())?;
    record.write(rt)?;
    Ok(end)
}

/// Returns the output with this name, and the labels of its file, if some were found.
fn output_of<'n>(
    met: &'n FoundFiles,
    key: FileKey,
    name: &'n str,
) -> (RecordedName<'n>, Option<&'n FileNote>) {
    let note = met.notes.get(&key);
    let file_id = note.map(|note| note.head.file_id);
    (RecordedName { name, key, file_id }, note)
}

/// Adds a complete output with these runs of blocks.
fn record_complete<R: Progress>(
    rt: &R,
    record: &mut Record,
    task: &Task<'_>,
    images: &ReadImages<'_>,
    listed: &Listed,
    runs: &[BlockRun],
) -> Result<(), ToolFault> {
    let Some(sum) = listed.sum else {
        return Ok(());
    };
    let (set_id, file) = (task.set_id, task.file);
    let (output, note) = output_of(images.met, FileKey { set_id, file }, task.out);
    let written = written_at(rt, task.out, output.key, in_words(task.form), sum)?;
    record.add_file(rt.alloc(), &output, written, note)?;
    record.add_runs(rt.host(), images.names, &output, runs)?;
    Ok(())
}

/// Adds the stage of an incomplete file, if there is one, with these runs of blocks.
fn record_awaited<R: Progress>(
    rt: &R,
    record: &mut Record,
    task: &Task<'_>,
    images: &ReadImages<'_>,
    listed: &Listed,
    runs: &[BlockRun],
) -> Result<(), ToolFault> {
    let (Some(want), Some(name)) = (listed.want, task.stage) else {
        return Ok(());
    };
    let (set_id, file) = (task.set_id, task.file);
    let (output, _) = output_of(images.met, FileKey { set_id, file }, name);
    record.add_awaited(rt.host(), images.names, &output, want, runs)?;
    Ok(())
}

/// A report of `salvage` that is printed, and is remembered if the output is recorded.
#[derive(Drop)]
pub struct RecordedReport<P> {
    out: P,
    /// The images from which blocks are read, and the text.
    kept: Option<(SectionLines, Vec<u8>)>,
}

impl<P> RecordedReport<P> {
    /// Creates a report without lines that is printed to `out`.
    pub fn new(alloc: Global, out: P, is_wanted: bool) -> RecordedReport<P> {
        RecordedReport {
            out,
            kept: is_wanted.then(|| (SectionLines::with_ends(alloc), Vec::new(alloc))),
        }
    }
}

impl<P: Write> Write for RecordedReport<P> {
    fn write(&mut self, buf: &[u8]) -> io::Result<usize> {
        let count = self.out.write(buf)?;
        if let (Some((sections, text)), Some(written)) = (&mut self.kept, buf.get(..count)) {
            sections.write_all(written)?;
            sections.is_short = sections.is_short || text.extend_from_slice(written).is_err();
        }
        Ok(count)
    }

    fn flush(&mut self) -> io::Result<()> {
        self.out.flush()
    }
}

/// Writes the record of the output `out` of `salvage`, which has this checksum, and of the lines
/// that were printed. The images named `names` are surveyed for their labels. Returns the end of the
/// run.
pub fn record_salvaged<R: Progress, P>(
    rt: &R,
    record: &mut Record,
    (task, form, out): (&SalvageTask, RecordForm, &str),
    names: &[&str],
    report: &RecordedReport<P>,
    sum: [u8; 32],
    end: End,
) -> Result<End, ToolFault> {
    let Some((sections, text)) = &report.kept else {
        return Ok(end);
    };
    if sections.is_short {
        return Err(OUT_OF_MEMORY);
    }
    let met = find_files(rt.alloc(), &mut NormalImages::again(rt, names))?;
    let (set_id, file) = (task.set_id, task.file);
    let (output, note) = output_of(&met, FileKey { set_id, file }, out);
    let word = match task.content {
        Content::Blocks => "blocks",
        Content::Records => form_word(form.form),
    };
    let written = written_at(rt, out, output.key, (word, form.is_text), sum)?;
    if end == End::Done {
        record.add_file(rt.alloc(), &output, written, note)?;
    } else {
        record.add_salvaged(rt.alloc(), &output, written, None)?;
    }
    record.add_runs(rt.host(), names, &output, sections.runs.as_slice())?;
    record.add_lines(rt.alloc(), out, text.as_slice())?;
    record.add_images(rt.host(), names, met.images.as_slice())?;
    record.write(rt)?;
    Ok(end)
}
