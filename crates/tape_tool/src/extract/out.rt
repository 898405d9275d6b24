//! The output of `extract`: whether it may be written, and how, and the file that its records are
//! written to.

use super::draft::{Draft, HELD, no_draft};
use crate::fault::{FileFault, OUT_OF_MEMORY, ToolFault};
use crate::help;
use crate::names::List;
use crate::program::End;
use crate::refusal::{FileId, Refusal, is_file, open, same_file};
use crate::screen::{Host, Progress};
use std::alloc::AllocError;
use std::fs::{File, Metadata, OpenOptions};
use std::io::{BufWriter, Error, ErrorKind, Write};
use std::{fs, io};
use tape_image::{Ending, ImageCause, ImageReader, fill};
use tape_run::{Container, KIND_BYTES, container_of};
use tape_writer::system::{folder_of, found, is_unable, name_in_folder};

/// The first bytes of files that might be tapes although they are not images, each with its offset.
/// The last two are checkpoints in the slots of a stage.
const FRONTS: &[(usize, &[u8])] = &[
    // A volume label in ASCII or EBCDIC, after a word that may be damaged.
    (4, b"VOL1"),
    (4, b"\xe5\xd6\xd3\xf1"),
    // gzip, compress, bzip2, xz, Zstandard, zip, lz4, lzip, RAR.
    (0, b"\x1f\x8b"),
    (0, b"\x1f\x9d"),
    (0, b"BZh"),
    (0, b"\xfd7zXZ"),
    (0, b"\x28\xb5\x2f\xfd"),
    (0, b"PK\x03\x04"),
    (0, b"\x04\x22\x4d\x18"),
    (0, b"LZIP"),
    (0, b"Rar!"),
    (16, b"TPCK"),
    (144, b"TPCK"),
];

/// The way in which an output is to be written: its path, and the file found there before.
#[derive(Clone, Copy)]
pub enum Way<'n> {
    /// The output is written to a new file, which gets this path when it is complete.
    Renamed(&'n str, Option<FileId>),
    /// The output is written in place, since its name is that of a pipe, a device, or a link that
    /// does not lead to a regular file.
    InPlace(&'n str, Option<FileId>),
}

/// The path by which standard input is found as a file.
const STANDARD_INPUT: &str = "/dev/stdin";

/// The path by which standard output is found as a file.
const STANDARD_OUTPUT: &str = "/dev/stdout";

/// Returns how the output `out`, recovered from `stage` and from `images`, of which some may be in
/// `list`, is to be written. If it is a link to a regular file, `target` gets the path of that
/// file, which the output replaces. Nothing is created or changed.
///
/// # Errors
///
/// Returns `Words` if the output has no name or is a directory, or if it is the stage (even one
/// that does not exist yet), the list (even if it is standard input), one of the images, or a file
/// that standard output is written to: the same file, whatever name or link leads to it; or if one
/// of them has the name of a draft. Returns `Faulted` with `Exists` if it might be a tape: it is
/// not empty, and is named `.tap`, begins like an image of any kind, or is compressed, an archive
/// or a stage; with `NotOpened` or `ReadFailed` if that cannot be determined.
pub fn way_to_out<'n, R: Host>(
    rt: &R,
    out: &'n str,
    stage: Option<&str>,
    list: Option<List<'_>>,
    images: &[&str],
    target: &'n mut String,
) -> Result<Way<'n>, Refusal> {
    let mut before = None;
    no_draft(images, list)?;
    no_draft(&[out, stage.unwrap_or(out)], None)?;
    let there = found(fs::metadata(rt, out))?;
    if there.as_ref().is_some_and(|there| there.is_dir()) || name_in_folder(out).is_empty() {
        return Err(Refusal::Words(help::OUT_IS_FOLDER));
    }
    if let Some(there) = there {
        is_other(rt, &there, stage, list, images)?;
        if there.is_file() && there.len() > 0 && may_keep_a_tape(rt, out)? {
            return Err(Refusal::from(FileFault::Exists));
        }
        before = Some(FileId::of(&there));
    } else if let Some(stage) = stage {
        // A stage is created before the output is.
        if is_one_name(rt, out, stage)? {
            return Err(Refusal::Words(help::OUT_IS_STAGE));
        }
    }
    match found(fs::symlink_metadata(rt, out))? {
        Some(named) if !named.is_file() => way_over(rt, out, before, target),
        _ => Ok(Way::Renamed(out, before)),
    }
}

/// Returns how the output `out` is to be written, which is no regular file, but perhaps a link to
/// the file `before`. `target` gets the path of that file if it is a regular one.
///
/// # Errors
///
/// Returns `Words` if that path is one that drafts have.
fn way_over<'n, R: Host>(
    rt: &R,
    out: &'n str,
    before: Option<FileId>,
    target: &'n mut String,
) -> Result<Way<'n>, Refusal> {
    // A path that is not text can only be followed by the system.
    if is_file(rt, out)
        && let Ok(path) = fs::canonicalize(rt, out)
    {
        target.push_str(path.as_str())?;
        no_draft(&[target.as_str()], None)?;
        return Ok(Way::Renamed(target.as_str(), before));
    }
    Ok(Way::InPlace(out, before))
}

/// Refuses an existing output with metadata `there` that is another file of the run.
fn is_other<R: Host>(
    rt: &R,
    there: &Metadata,
    stage: Option<&str>,
    list: Option<List<'_>>,
    images: &[&str],
) -> Result<(), Refusal> {
    if there.is_file() {
        differs(rt, there, STANDARD_OUTPUT, help::OUT_IS_LINES)?;
    }
    if let Some(list) = list {
        differs(
            rt,
            there,
            list.file.unwrap_or(STANDARD_INPUT),
            help::OUT_IS_LIST,
        )?;
    }
    if let Some(stage) = stage {
        differs(rt, there, stage, help::OUT_IS_STAGE)?;
    }
    for image in images {
        differs(rt, there, *image, help::OUT_IS_IMAGE)?;
    }
    Ok(())
}

/// Returns whether the paths `one` and `other` name the same entry of the same directory.
///
/// # Errors
///
/// Returns `NotOpened` if looking up a directory failed.
pub fn is_one_name<R: Host>(rt: &R, one: &str, other: &str) -> Result<bool, FileFault> {
    if one == other {
        return Ok(true);
    }
    if name_in_folder(one) != name_in_folder(other) {
        return Ok(false);
    }
    let here = found(fs::metadata(rt, folder_of(one)))?;
    let there = found(fs::metadata(rt, folder_of(other)))?;
    match (here, there) {
        (Some(here), Some(there)) => Ok(same_file(&here, &there)),
        _ => Ok(false),
    }
}

/// Refuses for the reason `why` if `path` leads to the file with metadata `file`.
fn differs<R: Host>(rt: &R, file: &Metadata, path: &str, why: &'static str) -> Result<(), Refusal> {
    match found(fs::metadata(rt, path))? {
        Some(other) if same_file(file, &other) => Err(Refusal::Words(why)),
        _ => Ok(()),
    }
}

/// Returns whether the file at `path` might be a tape: its name ends in `.tap`, in upper or lower
/// case, or it begins as an image, as a file of another kind that `survey` names, or as one of
/// `FRONTS`.
fn may_keep_a_tape<R: Host>(rt: &R, path: &str) -> Result<bool, Refusal> {
    let mut file = open(rt, path)?;
    let mut front = Vec::from_elem(rt.alloc(), 0u8, KIND_BYTES)?;
    let Ok(count) = fill(&mut file, front.as_mut_slice()) else {
        return Err(Refusal::from(FileFault::ReadFailed));
    };
    let front = front.as_slice().get(..count).unwrap_or(&[]);
    if is_kept(path.as_bytes(), front) {
        return Ok(true);
    }
    begins_as_image(rt, path)
}

/// Returns whether a file with this name and these first bytes is kept, whatever follows them.
fn is_kept(name: &[u8], front: &[u8]) -> bool {
    let is_named = name[name.len().saturating_sub(4)..].eq_ignore_ascii_case(b".tap");
    let begins_as_kept = FRONTS.iter().any(|(place, bytes)| front
        .get(*place..)
        .is_some_and(|there| there.starts_with(*bytes)));
    is_named || begins_as_kept || container_of(front) != Container::Unknown
}

/// Returns whether the file at `path` begins as an image: with a complete item, or with an
/// end-of-medium marker.
fn begins_as_image<R: Host>(rt: &R, path: &str) -> Result<bool, Refusal> {
    let begins = ImageReader::new(rt.alloc(), &mut open(rt, path)?).and_then(|image| {
        let mut image = image;
        let has_item = image.next()?.is_some();
        Ok(has_item || image.ending() == Some(Ending::Marked))
    });
    match begins.map_err(|fault| fault.cause) {
        Ok(begins) => Ok(begins),
        Err(ImageCause::Device) => Err(Refusal::from(FileFault::ReadFailed)),
        Err(ImageCause::OutOfMemory) => Err(Refusal::from(AllocError)),
        Err(_) => Ok(false),
    }
}

/// The file that the records of an output are written to.
#[derive(Drop)]
pub enum Output<'a, R: Progress> {
    /// A new file, which gets the output's name when it is flushed.
    New(Draft<'a, R>, BufWriter<File>),
    /// The output itself, because of its kind, or because its directory accepts no new files.
    InPlace(BufWriter<OutFile<'a, R>>),
}

impl<'a, R: Progress> Output<'a, R> {
    /// Returns the file to write an output to in this way.
    pub fn new(rt: &'a R, way: Way<'a>) -> Result<Output<'a, R>, ToolFault> {
        let (path, before) = match way {
            Way::InPlace(path, before) => (path, before),
            Way::Renamed(path, before) => match Draft::make(rt, path, before)? {
                Some((draft, out)) => return Ok(Output::New(draft, out)),
                None => (path, before),
            },
        };
        let file = OutFile {
            rt,
            path,
            before,
            file: None,
        };
        let out = BufWriter::with_capacity(rt.alloc(), HELD, file).map_err(|_| OUT_OF_MEMORY)?;
        Ok(Output::InPlace(out))
    }

    /// Ends a run with `end`, or with the reason why the output could not be created. Removes a
    /// draft that did not get the output's name.
    pub fn ended(&mut self, end: End) -> End {
        match self {
            Output::New(draft, _) => draft.ended(end),
            Output::InPlace(out) => match &out.get_ref().file {
                Some(Err(fault)) => End::Faulted(ToolFault::File(*fault)),
                _ => end,
            },
        }
    }

    /// Removes the output again if it got its name: see `Draft::give_back`.
    pub fn give_back(&mut self) {
        if let Output::New(draft, _) = self {
            draft.give_back();
        }
    }
}

impl<R: Progress> Write for Output<'_, R> {
    #[inline(always)]
    fn write(&mut self, buf: &[u8]) -> io::Result<usize> {
        match self {
            Output::New(_, out) => out.write(buf),
            Output::InPlace(out) => out.write(buf),
        }
    }

    fn flush(&mut self) -> io::Result<()> {
        match self {
            Output::New(_, out) => out.flush()?,
            Output::InPlace(out) => return out.flush(),
        }
        match self {
            Output::New(draft, _) => draft.take(),
            Output::InPlace(_) => Ok(()),
        }
    }
}

/// A file that is created, or truncated, when something is first written to it or it is flushed.
#[derive(Drop)]
pub struct OutFile<'a, R: Progress> {
    rt: &'a R,
    path: &'a str,
    /// The file found under the output's name, before anything was read.
    before: Option<FileId>,
    /// The file, or the reason why it could not be created, once that was attempted.
    file: Option<Result<File, FileFault>>,
}

impl<R: Progress> OutFile<'_, R> {
    /// Returns the file, which is created unless that was attempted before. A failed attempt is not
    /// repeated: a buffer that is dropped flushes its contents once more.
    fn made(&mut self) -> io::Result<&mut File> {
        if self.file.is_none() {
            self.file = Some(self.open());
        }
        match &mut self.file {
            Some(Ok(file)) => Ok(file),
            _ => Err(Error::from(ErrorKind::Other)),
        }
    }

    /// Opens the file that was found, or creates one, and truncates it. Leaves any other file that
    /// has appeared since then unchanged, and a file that was written to since then.
    fn open(&self) -> Result<File, FileFault> {
        let mut options = OpenOptions::new();
        options.write(true).create(self.before.is_none());
        let opened = options.open(self.rt.host(), self.path);
        let file = opened.map_err(|_| FileFault::NotOpened)?;
        let there = file.metadata().map_err(|_| FileFault::NotOpened)?;
        let is_meant = match self.before {
            Some(before) => before == FileId::of(&there),
            // Nothing can be lost if the file is empty, or not a regular one.
            None => !there.is_file() || there.len() == 0,
        };
        if !is_meant {
            return Err(FileFault::Exists);
        }
        if there.is_file() && file.set_len(0).is_err() {
            return Err(FileFault::WriteFailed);
        }
        Ok(file)
    }
}

impl<R: Progress> Write for OutFile<'_, R> {
    fn write(&mut self, buf: &[u8]) -> io::Result<usize> {
        self.made()?.write(buf)
    }

    /// Syncs the written bytes. Files that are not on a disk do not support this call.
    fn flush(&mut self) -> io::Result<()> {
        match self.made()?.sync_all() {
            Err(error) if is_unable(error.kind()) => Ok(()),
            done => done,
        }
    }
}
