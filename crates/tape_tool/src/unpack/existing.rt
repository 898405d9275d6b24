//! Files that exist already, compared with those on the images.

ghost use Rattle.std.specs.Prelude.{None};

use super::chosen::extract_in_form;
use super::report::{Ended, LastLine};
use super::run::Run;
use super::summed::sum_of;
use crate::compared::Compared;
use crate::extract::{Task, end_as_written};
use crate::fault::{FileFault, OUT_OF_MEMORY, ToolFault};
use crate::images::ReadAhead;
use crate::normal::{Normal, NormalImages};
use crate::program::{End, extract_end};
use crate::record_form::Under;
use crate::refusal::open;
use crate::screen::{Host, Progress};
use std::cell::Cell;
use std::fs::File;
use std::io::{Error, ErrorKind, Read, Write};
use std::{fs, io};
use tape_core::MemorySink;
use tape_run::{
    BlockRun, Locations, Mounted, OutSink, Place, Session, SetFile, UnpackOutcome, WriteFailed,
    extract_located,
};
use tape_writer::system::found;

/// The number of bytes that are compared at a time.
const PIECE: usize = 4_096;

/// The bytes of an existing file, with which those that are written are compared. Writing fails if
/// they differ, and flushing if the file has more.
#[derive(Drop)]
pub struct Existing<'a> {
    file: ReadAhead<File>,
    /// Whether a difference was found.
    differs: &'a Cell<bool>,
}

impl<'a> Existing<'a> {
    /// Opens the file at `path` to be compared.
    pub fn open<R: Host>(
        rt: &R,
        path: &str,
        differs: &'a Cell<bool>,
    ) -> Result<Existing<'a>, ToolFault> {
        let file = ReadAhead::new(rt.alloc(), open(rt, path)?)?;
        Ok(Existing { file, differs })
    }

    /// Passes over the length of a record, which is not compared.
    pub fn pass_length(&mut self) -> Result<(), FileFault> {
        let mut length = [0; 4];
        self.file
            .read_exact(&mut length)
            .map_err(|_| FileFault::ReadFailed)
    }

    /// Records a difference, and returns the error for it.
    fn difference(&self) -> Error {
        self.differs.set(true);
        Error::from(ErrorKind::InvalidData)
    }
}

impl Write for Existing<'_> {
    fn write(&mut self, buf: &[u8]) -> io::Result<usize> {
        let mut room = [0; PIECE];
        let count = buf.len().min(PIECE);
        match self.file.read_exact(&mut room[..count]) {
            Err(error) if error.kind() != ErrorKind::UnexpectedEof => Err(error),
            Ok(()) if room[..count] == buf[..count] => Ok(count),
            _ => Err(self.difference()),
        }
    }

    fn flush(&mut self) -> io::Result<()> {
        if self.file.read(&mut [0])? > 0 {
            return Err(self.difference());
        }
        Ok(())
    }
}

/// What a complete file is given to if it is only compared.
#[derive(Drop)]
pub struct Comparison;

impl Place<Existing<'_>> for Comparison {
    ghost stands = { λ _. None };

    fn place(&mut self, out: Existing<'_>) -> Result<(), WriteFailed> {
        let mut out = out;
        out.flush().map_err(|_| WriteFailed)
    }
}

impl<R: Progress, P: Write> Run<'_, R, P> {
    /// Compares the file at `out`, which exists, with that on the images, and prints the outcome.
    /// Only a plain file is compared. Nothing of it is written. If it is complete, what a run that
    /// was killed left next to it is removed, unless files are verified.
    pub fn compare_file(&mut self, file: &SetFile, out: &str, stage: &str) -> Ended {
        let mut runs = Vec::new(self.rt.alloc());
        let outcome = match self.compared(file, out, &mut runs) {
            Ok(outcome) => outcome,
            Err(OUT_OF_MEMORY) => return Err(OUT_OF_MEMORY),
            Err(ToolFault::Conflict) => {
                self.tell(file, UnpackOutcome::Conflict, b"", "")?;
                return Ok(End::Incomplete);
            }
            Err(fault) => return self.tell_failed(file, out, fault),
        };
        self.tell(file, outcome, b"", out)?;
        if outcome == UnpackOutcome::Exists && !self.order.verify {
            self.remove_remains(file, out, stage)?;
        }
        Ok(if outcome == UnpackOutcome::Exists {
            End::Done
        } else {
            End::Incomplete
        })
    }

    /// Returns how the file at `out` compares with that on the images. The images are read as for
    /// a file that does not exist, but nothing is saved in a stage, and none is read. `runs` gets
    /// where the blocks of the images came from. Returns `Conflict` if two images contradict each
    /// other about a section that none has in full.
    fn compared(
        &mut self,
        file: &SetFile,
        out: &str,
        runs: &mut Vec<BlockRun>,
    ) -> Result<UnpackOutcome, ToolFault> {
        let rt = self.rt;
        if !fs::symlink_metadata(rt.host(), out).is_ok_and(|there| there.is_file()) {
            return Ok(UnpackOutcome::NotCompared);
        }
        self.choose_whole(file)?;
        let differs = &Cell::new(false);
        let task = &Task {
            set_id: file.set_id,
            file: file.file,
            out,
            form: self.form(),
            stage: None,
            again: true,
            wide: file.wide,
        };
        let mut end = End::Incomplete;
        if file.lacks.is_none() && self.form.is_some() {
            let existing = Existing::open(rt.host(), out, differs)?;
            let images = &mut NormalImages::again(rt, self.names);
            let (mounted, locations) = (&mut self.mounted, &self.met.locations);
            end = compare_whole(rt, task, images, mounted, locations, existing);
            *runs = self.met.section_runs(rt.alloc(), file)?;
            if end != End::Done && end != End::Incomplete {
                // Nothing is proved about an image at which a fault occurred.
                self.mounted = None;
            }
        }
        if end == End::Incomplete {
            let existing = Existing::open(rt.host(), out, differs)?;
            end = self.compare_in_passes(file, task, existing, runs)?;
        }
        match end {
            _ if differs.get() => Ok(UnpackOutcome::Different),
            End::Done => {
                self.list_existing(file, out, runs.as_slice())?;
                Ok(UnpackOutcome::Exists)
            }
            End::Faulted(fault) if fault != CANNOT_READ => Err(fault),
            _ => Ok(UnpackOutcome::NotCompared),
        }
    }

    /// Adds an existing file to the list of checksums and to the record, if these are to be
    /// extended and do not contain it. Its blocks came from `runs`.
    fn list_existing(
        &mut self,
        file: &SetFile,
        out: &str,
        runs: &[BlockRun],
    ) -> Result<(), ToolFault> {
        let (host, alloc) = (self.rt.host(), self.rt.alloc());
        let Some(manifest) = &mut self.manifest else {
            return Ok(());
        };
        let (is_unlisted, is_unrecorded) = manifest.is_new(alloc, out)?;
        let there = found(fs::symlink_metadata(host, out))?;
        match there {
            Some(there) if there.is_file() && (is_unlisted || is_unrecorded) => {
                let sum = sum_of(&mut open(host, out)?, there.len())?;
                if is_unlisted {
                    manifest.add(alloc, out, sum)?;
                }
                if is_unrecorded {
                    self.record_file(file, out, sum, runs)?;
                }
                Ok(())
            }
            _ => Ok(()),
        }
    }

    /// Recovers a file in passes, its data in memory, and compares its records. If it stays
    /// incomplete, and no image had other data, recovers it as `salvage` does. `runs` gets where
    /// its blocks came from.
    fn compare_in_passes(
        &mut self,
        file: &SetFile,
        task: &Task<'_>,
        existing: Existing<'_>,
        runs: &mut Vec<BlockRun>,
    ) -> Result<End, ToolFault> {
        let rt = self.rt;
        let mut existing = existing;
        let sink = MemorySink::new(rt.alloc());
        let Ok(mut session) = Session::new(rt.alloc(), task.set_id, task.file, sink) else {
            return Ok(End::WrongWords);
        };
        if session.note().is_err() {
            return Err(OUT_OF_MEMORY);
        }
        if task.wide {
            session.widen();
        }
        let names = self.names_for(task.set_id, session.want())?;
        let images = &mut NormalImages::again(rt, names.as_slice());
        let opener = &mut Compared::new(rt.alloc(), true);
        if file.lacks.is_some() && opener.doubt(rt, task, names.as_slice())?.is_some() {
            return Err(ToolFault::Conflict);
        }
        opener.is_recorded = self.manifest.is_some();
        let (session, last) = (&mut session, &mut LastLine::new());
        let (form, is_text, out) = (&mut self.form, self.is_text, &mut existing);
        let answer = extract_in_form(session, images, opener, form, is_text, out, last);
        let end = extract_end(answer);
        if end == End::Incomplete && opener.differing.is_empty() {
            let names = self.names_of_file(file)?;
            self.choose_salvaged(file, names.as_slice())?;
            return self.compare_salvaged(file, task.out, runs);
        }
        *runs = self.runs_in_passes(names.as_slice(), opener, session.want())?;
        Ok(end)
    }
}

/// The fault of a comparison that could not read the existing file.
const CANNOT_READ: ToolFault = ToolFault::File(FileFault::WriteFailed);

/// Recovers a file from the images that contain its sections, and compares its records. The last
/// image stays open, so that the next file can continue there.
fn compare_whole<R: Progress>(
    rt: &R,
    task: &Task<'_>,
    images: &mut NormalImages<'_, R>,
    mounted: &mut Option<Mounted<Normal<R>>>,
    locations: &Locations,
    existing: Existing<'_>,
) -> End {
    let form = task.form.given();
    let sink = OutSink::new(rt.alloc(), task.form.over(existing), form);
    let Ok(mut session) = Session::new(rt.alloc(), task.set_id, task.file, sink) else {
        return End::WrongWords;
    };
    if task.wide {
        session.widen();
    }
    let place = &mut Under(Comparison);
    match extract_located(&mut session, images, mounted, locations, form, place) {
        Ok(Some(_)) => End::Done,
        Ok(None) => End::Incomplete,
        Err(fault) => end_as_written(Err(fault)),
    }
}
