//! Recovers files from images into a directory.

use super::manifest::{Manifest, verify};
use super::report::{Ended, LastLine};
use super::salvaged::Salvaged;
use super::sources::Recorded;
use super::summed::Listed;
use super::{UnpackOrder, has_images};
use crate::dates::set_time;
use crate::explain::FaultSite;
use crate::extract::no_draft;
use crate::fault::{FileFault, OUT_OF_MEMORY, ToolFault};
use crate::help;
use crate::names::names_of;
use crate::normal::Normal;
use crate::program::{End, check_end};
use crate::readings::{find_all, names_in};
use crate::refusal::{Refusal, no_pipes};
use crate::relabel::relabel;
use crate::screen::{Host, Progress};
use crate::words::set_id_of;
use std::alloc::AllocError;
use std::io::{BufWriter, Write};
use std::{fs, io};
use tape_blocks::Form;
use tape_label::Field;
use tape_run::{
    FileChoice, FoundFiles, Mounted, SetFile, Tally, UnpackOutcome, file_line, file_name, flush,
    is_of_set, report_numbers, write_text,
};
use tape_writer::system::found;

/// The fault of an output that exists.
const EXISTS: ToolFault = ToolFault::File(FileFault::Exists);

/// A run of `unpack`: what it unpacks and from where, and its report.
#[derive(Drop)]
pub struct Run<'n, R: Progress, P> {
    pub rt: &'n R,
    pub order: &'n UnpackOrder<'n>,
    pub choice: &'n FileChoice<'n>,
    /// The names of the images, and what was found on them.
    pub names: &'n [&'n str],
    pub met: &'n FoundFiles,
    /// The numbers of the images that had other data of the current file than those read before
    /// them, counted from 0.
    pub differing: Vec<usize>,
    /// The image that stays open from file to file.
    pub mounted: Option<Mounted<Normal<R>>>,
    /// What is recorded about the files that are verified.
    pub recorded: &'n Recorded,
    /// The form of the current file, unless it is not chosen yet.
    pub form: Option<Form>,
    /// Whether the characters of its records are translated.
    pub is_text: bool,
    /// The image that stays open from file to file whose forms are chosen.
    pub checked: Option<Mounted<Normal<R>>>,
    /// The lines of the report, and how many files they were about.
    pub out: P,
    pub tally: Tally,
    /// The list of checksums and the record, if they are to be extended.
    pub manifest: Option<Manifest>,
}

/// Recovers every file on the images that the arguments name, or verifies the files of the
/// directory. On error, `site` says where it occurred.
pub fn unpack<'a, R: Progress>(
    rt: &R,
    order: &UnpackOrder<'a>,
    site: &mut FaultSite<'a>,
) -> Result<End, Refusal> {
    if !order.verify {
        return unpack_images(rt, order, site);
    }
    let listed = verify(rt, order.folder, site)?;
    if !has_images(order) {
        return Ok(listed);
    }
    Ok(match unpack_images(rt, order, site)? {
        End::Done => listed,
        end => end,
    })
}

/// Recovers every file on the images that the arguments name, or compares it with the one in the
/// directory.
fn unpack_images<'a, R: Progress>(
    rt: &R,
    order: &UnpackOrder<'a>,
    site: &mut FaultSite<'a>,
) -> Result<End, Refusal> {
    let folder = order.folder;
    let mut text = String::new(rt.alloc());
    let names = names_of(rt.host(), &order.images, &mut text, site)?;
    let names = names.as_slice();
    no_draft(names, order.images.list)?;
    no_pipes(rt.host(), names)?;
    let (manifest, recorded) = lists_of(rt.host(), order, site)?;
    relabel(rt, &order.relabels, names)?;
    let out = BufWriter::new(rt.alloc(), io::writer(rt)).map_err(|_| AllocError)?;
    let (all, met) = find_all(rt, names)?;
    let names = names_in(rt.alloc(), all.as_slice())?;
    let names = names.as_slice();
    let choice = FileChoice {
        set_id: order.set.and_then(set_id_of),
        words: order.files.as_slice(),
    };
    let mut run = Run {
        rt,
        order,
        choice: &choice,
        names,
        met: &met,
        differing: Vec::new(rt.alloc()),
        mounted: None,
        recorded: &recorded,
        form: None,
        is_text: false,
        checked: None,
        out,
        tally: Tally::new(),
        manifest,
    };
    let end = run.unpack_all().unwrap_or_else(|fault| End::Faulted(fault));
    let listed = run.write_manifest();
    Ok(match (end, flush(&mut run.out), listed) {
        (End::Done | End::Incomplete, Err(fault), _) => End::Faulted(ToolFault::from(fault)),
        (End::Done | End::Incomplete, _, Err(fault)) => {
            *site = FaultSite::Manifest(folder);
            End::Faulted(fault)
        }
        (end, _, _) => end,
    })
}

/// Checks that the directory for the files exists. Reads its lists if they are to be extended, and
/// what is recorded about its files if these are verified. On error, `site` says where it occurred.
fn lists_of<'a, R: Host>(
    rt: &R,
    order: &UnpackOrder<'a>,
    site: &mut FaultSite<'a>,
) -> Result<(Option<Manifest>, Recorded), Refusal> {
    let folder = order.folder;
    *site = FaultSite::Folder(folder);
    match fs::metadata(rt, folder) {
        Ok(found) if found.is_dir() => {}
        // If it is an image, DIR was forgotten.
        Ok(_) => return Err(Refusal::Words(help::DIR_IS_NO_FOLDER)),
        Err(_) => return Err(Refusal::from(FileFault::NotOpened)),
    }
    *site = FaultSite::Manifest(folder);
    let (mut manifest, mut recorded) = (None, Recorded::new(rt.alloc()));
    if order.verify {
        recorded = Recorded::read(rt, folder)?;
    } else if order.manifest && !order.list {
        manifest = Some(Manifest::open(rt, folder)?);
    }
    *site = FaultSite::Folder(folder);
    Ok((manifest, recorded))
}

impl<R: Progress, P: Write> Run<'_, R, P> {
    /// Unpacks the chosen files, and reports the images that were not read to their end, and
    /// counts. If a file fails, the others are still tried: the run ends with the first such fault.
    fn unpack_all(&mut self) -> Ended {
        let (choice, met) = (self.choice, self.met);
        let files = met.files.as_slice();
        // What is verified may have been recovered from damaged images.
        let is_read = met.whole || self.order.verify;
        let mut all = self.compare_sources()? && is_read && !files.is_empty();
        let mut failed = None;
        let mut before: Option<(Field<6>, u16)> = None;
        for file in files {
            // Numbers before this file for which no label was found are reported, unless files are
            // chosen by words: their names are unknown.
            let first = match before {
                Some((set, number)) if set == file.set_id => number.saturating_add(1),
                _ => 1,
            };
            if choice.words.is_empty() && is_of_set(choice.set_id, file) && first < file.file {
                report_numbers(
                    &mut self.out,
                    &mut self.tally,
                    &file.set_id,
                    first,
                    file.file,
                )?;
                all = false;
            }
            if choice.chooses(file) {
                match self.unpack_file(file)? {
                    End::Done => {}
                    End::Incomplete => all = false,
                    end => failed = failed.or(Some(end)),
                }
                self.tell_uncounted(file)?;
            }
            before = Some((file.set_id, file.file));
        }
        let found = self.report_absent()?;
        let used = self.report_after_end()?;
        self.report_images()?;
        Ok(failed.unwrap_or(check_end(Ok(all && found && used))))
    }

    /// Unpacks `file`, or only looks what would become of it, and prints the outcome.
    fn unpack_file(&mut self, file: &SetFile) -> Ended {
        if file.differs {
            self.tell(file, UnpackOutcome::Conflict, b"", "")?;
            return Ok(End::Incomplete);
        }
        let (alloc, folder) = (self.rt.alloc(), self.order.folder);
        let end = if folder.ends_with('/') { "" } else { "/" };
        let mut out = format!(in alloc; "{folder}{end}")?;
        // The bytes of a name are ASCII.
        for byte in &file_name(&file.set_id, file.file, &file.file_id) {
            out.push(char::from(*byte))?;
        }
        let stage = format!(in alloc; "{out}.stage")?;
        self.begin_form(out.as_str());
        self.unpack_to(file, out.as_str(), stage.as_str())
    }

    /// Unpacks a file to `out`, unless a file with its name exists, and saves what there is of an
    /// incomplete one to `stage`.
    fn unpack_to(&mut self, file: &SetFile, out: &str, stage: &str) -> Ended {
        let mut last = LastLine::new();
        let is_list = self.order.list || self.order.verify;
        let done = match found(fs::symlink_metadata(self.rt.host(), out)) {
            Ok(Some(_)) => Err(EXISTS),
            // Its sections alone say how the recovery of the file would end.
            Ok(None) if is_list => match file.lacks {
                Some(sect) => {
                    let _ = write!(last, "LACKS {sect}\n");
                    Ok(End::Incomplete)
                }
                None => self.choose_listed(file).map(|_| End::Done),
            },
            Ok(None) => self.unpacked(file, out, stage, &mut last),
            Err(fault) => Err(ToolFault::File(fault)),
        };
        let (outcome, path, end) = match (done, is_list) {
            (Ok(end @ End::Done), false) => (UnpackOutcome::Complete, out, end),
            (Ok(End::Done), true) => (UnpackOutcome::Ready, out, self.ready_end()),
            (Ok(end), false) => (UnpackOutcome::Awaits, stage, end),
            (Ok(end), true) => (UnpackOutcome::Lacks, stage, end),
            // It existed before, or was created meanwhile.
            (Err(EXISTS), _) if !self.order.list => return self.compare_file(file, out, stage),
            (Err(EXISTS), _) => (UnpackOutcome::Exists, out, End::Done),
            (Err(OUT_OF_MEMORY), _) => return Err(OUT_OF_MEMORY),
            (Err(ToolFault::Conflict), _) => (UnpackOutcome::Conflict, "", End::Incomplete),
            (Err(fault), _) => return self.tell_failed(file, out, fault),
        };
        let details = self.details(outcome, last.text())?;
        self.tell(file, outcome, details.as_slice(), path)?;
        let end = if self.tell_differing(file)? {
            end
        } else {
            End::Incomplete
        };
        match outcome {
            UnpackOutcome::Complete => self.end_stage(file, out, stage)?,
            UnpackOutcome::Awaits | UnpackOutcome::Conflict if self.order.salvage => {
                return self.salvage_file(file, out, end);
            }
            _ => {}
        }
        Ok(end)
    }

    /// Returns how it ends for a file that could be recovered, but does not exist: it is missing if
    /// files are verified.
    fn ready_end(&self) -> End {
        if self.order.verify {
            End::Incomplete
        } else {
            End::Done
        }
    }

    /// Writes the list of checksums and the record, if they are to be extended.
    fn write_manifest(&mut self) -> Result<(), ToolFault> {
        self.record_images()?;
        match &self.manifest {
            Some(manifest) => manifest.write(self.rt),
            None => Ok(()),
        }
    }

    /// Recovers a file.
    fn unpacked(
        &mut self,
        file: &SetFile,
        out: &str,
        stage: &str,
        last: &mut LastLine,
    ) -> Result<End, ToolFault> {
        let mut listed = Listed::new(self.rt.alloc(), self.manifest.is_some());
        let end = self.recover(file, out, stage, &mut listed, last)?;
        if let End::Faulted(fault) = end {
            return Err(fault);
        }
        if end == End::Done {
            if let Some(sum) = listed.sum {
                self.list_file(file, out, sum, listed.runs.as_slice())?;
            }
            if !self.order.now {
                set_time(self.rt.host(), out, &file.created);
            }
        } else {
            self.differing
                .extend_from_slice(listed.doubtful.as_slice())?;
            self.record_awaited(file, stage, &listed)?;
        }
        Ok(end)
    }

    /// Writes the readable records of an incomplete file and a report of its gaps, and prints a
    /// line about them. Reads the images that may have blocks of its set.
    fn salvage_file(&mut self, file: &SetFile, out: &str, end: End) -> Ended {
        let rt = self.rt;
        let salvaged = Salvaged::of(rt.alloc(), out)?;
        let names = self.names_of_file(file)?;
        self.choose_salvaged(file, names.as_slice())?;
        let task = (file, self.form());
        let path = salvaged.records.as_str();
        let mut last = LastLine::new();
        let outcome = match salvaged.write(rt, task, names.as_slice(), &mut last) {
            Err(EXISTS) => UnpackOutcome::Exists,
            Err(OUT_OF_MEMORY) => return Err(OUT_OF_MEMORY),
            Err(fault) => return self.tell_failed(file, path, fault),
            Ok(_) if last.text().starts_with(b"COMPLETE") => UnpackOutcome::Complete,
            Ok(sum) => {
                self.record_salvaged(file, path, salvaged.report.as_str(), sum)?;
                UnpackOutcome::Salvaged
            }
        };
        if outcome == UnpackOutcome::Exists {
            last = LastLine::new();
        }
        let details = self.details(outcome, last.text())?;
        let line = file_line(rt.alloc(), file, outcome, details.as_slice(), path)?;
        write_text(&mut self.out, line.as_slice())?;
        Ok(end)
    }
}
