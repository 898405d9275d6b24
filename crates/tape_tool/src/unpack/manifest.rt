//! `MANIFEST.sha256`, the list of the checksums of the files that were recovered into a directory,
//! and what it has in common with the record of them.

use super::record::Record;
use super::summed::sum_of;
use super::sums::Sums;
use crate::explain::FaultSite;
use crate::extract::Draft;
use crate::fault::{FileFault, OUT_OF_MEMORY, ToolFault};
use crate::program::{End, end_of};
use crate::refusal::{FileId, Refusal, open};
use crate::screen::{Host, Progress};
use std::alloc::{AllocError, Global};
use std::fs::File;
use std::io::{BufWriter, ErrorKind, Read, Write};
use std::{fs, io};
use tape_run::{Place, flush, name_text, write_text};
use tape_writer::system::{found, name_in_folder};

/// The name of the list.
pub const MANIFEST: &str = "MANIFEST.sha256";

/// The list and the record of a directory, which a run of `unpack` extends.
#[derive(Drop)]
pub struct Manifest {
    pub record: Record,
    path: String,
    /// The file that had the list before the run.
    before: Option<FileId>,
    sums: Sums,
    /// Whether the run added a file.
    is_extended: bool,
}

impl Manifest {
    /// Reads the list and the record of the directory `folder`, if there are any.
    ///
    /// # Errors
    ///
    /// Returns `Exists` if another file has the name of one, or one that is not such a list or
    /// record; otherwise the fault of reading it.
    pub fn open<R: Host>(rt: &R, folder: &str) -> Result<Manifest, ToolFault> {
        let path = path_in(rt.alloc(), folder, MANIFEST)?;
        let (mut before, mut sums) = (None, Sums::new(rt.alloc()));
        if let Some(there) = found(fs::symlink_metadata(rt, path.as_str()))? {
            before = Some(FileId::of(&there));
            // Neither a link nor a pipe is opened.
            let read = if there.is_file() {
                read_sums(rt, path.as_str())?
            } else {
                None
            };
            sums = read.ok_or(ToolFault::File(FileFault::Exists))?;
        }
        Ok(Manifest {
            record: Record::open(rt, folder)?,
            path,
            before,
            sums,
            is_extended: false,
        })
    }

    /// Adds the file at `path`, which the run wrote, with its checksum.
    pub fn add(&mut self, alloc: Global, path: &str, sum: [u8; 32]) -> Result<(), AllocError> {
        let name = Vec::from_slice(alloc, name_in_folder(path).as_bytes())?;
        self.is_extended = true;
        self.sums.add(name, sum)
    }

    /// Returns whether the file at `path` is missing in the list, and in the record.
    pub fn is_new(&self, alloc: Global, path: &str) -> Result<(bool, bool), AllocError> {
        let name = name_in_folder(path);
        let is_recorded = self.record.has_file(alloc, name)?;
        Ok((!self.sums.has(name.as_bytes()), !is_recorded))
    }

    /// Writes the list if the run added a file, and the record if it added a line. Each replaces
    /// the file that was read, if that is unchanged. If one fails, the other is still written.
    ///
    /// # Errors
    ///
    /// Returns `Exists` if it is not; otherwise the fault of creating or writing a file.
    pub fn write<R: Progress>(&self, rt: &R) -> Result<(), ToolFault> {
        let recorded = self.record.write(rt);
        if self.is_extended {
            let text = self.sums.text(rt.alloc())?;
            place_text(rt, self.path.as_str(), self.before, text.as_slice())?;
        }
        recorded
    }
}

/// Writes `text` to a new file, which then gets the name `path`. It replaces `before`.
///
/// # Errors
///
/// Returns `Exists` if another file has the name now; otherwise the fault of creating or writing a
/// file.
pub fn place_text<R: Progress>(
    rt: &R,
    path: &str,
    before: Option<FileId>,
    text: &[u8],
) -> Result<(), ToolFault> {
    let (mut draft, mut out) = Draft::over(rt, path, before)?;
    let placed = match write_text(&mut out, text) {
        Ok(()) => draft.place(out),
        Err(fault) => Err(fault),
    };
    let end = end_of(placed.map_err(|fault| ToolFault::from(fault)));
    match draft.ended(end) {
        End::Faulted(fault) => Err(fault),
        _ => Ok(()),
    }
}

/// Returns the path of the file `name` in a directory.
pub fn path_in(alloc: Global, folder: &str, name: &str) -> Result<String, AllocError> {
    let end = if folder.ends_with('/') { "" } else { "/" };
    format!(in alloc; "{folder}{end}{name}")
}

/// Returns the text of the file at `path`.
pub fn read_text<R: Host>(rt: &R, path: &str) -> Result<Vec<u8>, ToolFault> {
    let mut text = Vec::new(rt.alloc());
    match open(rt, path)?.read_to_end(&mut text) {
        Ok(_) => Ok(text),
        Err(error) if error.kind() == ErrorKind::OutOfMemory => Err(OUT_OF_MEMORY),
        Err(_) => Err(ToolFault::File(FileFault::ReadFailed)),
    }
}

/// Reads a list, if the file at `path` is one.
fn read_sums<R: Host>(rt: &R, path: &str) -> Result<Option<Sums>, ToolFault> {
    let text = read_text(rt, path)?;
    Ok(Sums::of(rt.alloc(), text.as_slice())?)
}

/// What was found out about a file in a list.
#[derive(Clone, Copy, PartialEq, Eq)]
enum Finding {
    Agrees,
    Differs,
    Missing,
    NotRead,
}

/// How many files of a list there are by what was found out about them.
#[derive(Clone, Copy)]
struct Findings {
    agree: u64,
    differ: u64,
    missing: u64,
    not_read: u64,
}

impl Findings {
    /// Counts a file. Returns the words that report it, unless it agrees.
    fn count(&mut self, finding: Finding) -> &'static str {
        match finding {
            Finding::Agrees => {
                self.agree = self.agree.saturating_add(1);
                ""
            }
            Finding::Differs => {
                self.differ = self.differ.saturating_add(1);
                "DIFFERS "
            }
            Finding::Missing => {
                self.missing = self.missing.saturating_add(1);
                "MISSING "
            }
            Finding::NotRead => {
                self.not_read = self.not_read.saturating_add(1);
                "NOT READ "
            }
        }
    }

    /// Returns whether there are files, and all agree.
    fn is_whole(&self) -> bool {
        self.agree > 0 && self.differ == 0 && self.missing == 0 && self.not_read == 0
    }
}

/// Checks the files of the directory `folder` against its list. Prints a line for each that does
/// not agree, and how many do and do not. On error, `site` says where it occurred.
///
/// # Errors
///
/// Returns `NotOpened` if there is no list, and `ReadFailed` if it cannot be read or is not one.
pub fn verify<'a, R: Progress>(
    rt: &R,
    folder: &'a str,
    site: &mut FaultSite<'a>,
) -> Result<End, Refusal> {
    *site = FaultSite::Manifest(folder);
    let path = path_in(rt.alloc(), folder, MANIFEST)?;
    let read = match found(fs::metadata(rt.host(), path.as_str()))? {
        Some(there) if there.is_file() => read_sums(rt.host(), path.as_str())?,
        Some(_) => None,
        None => return Err(Refusal::from(FileFault::NotOpened)),
    };
    let list = read.ok_or(Refusal::from(FileFault::ReadFailed))?;
    *site = FaultSite::Lines;
    let mut out = BufWriter::new(rt.alloc(), io::writer(rt)).map_err(|_| AllocError)?;
    let findings = print_findings(rt, folder, &list, &mut out);
    let is_flushed = flush(&mut out);
    let findings = findings?;
    let end = if findings.is_whole() {
        End::Done
    } else {
        End::Incomplete
    };
    match is_flushed {
        Ok(()) => Ok(end),
        Err(fault) => Err(Refusal::from(ToolFault::from(fault))),
    }
}

/// Prints a line for each file in the list that does not agree, and the last line.
fn print_findings<R: Progress, P: Write>(
    rt: &R,
    folder: &str,
    list: &Sums,
    out: &mut P,
) -> Result<Findings, ToolFault> {
    let alloc = rt.alloc();
    let mut findings = Findings {
        agree: 0,
        differ: 0,
        missing: 0,
        not_read: 0,
    };
    for (name, sum) in &list.sums {
        let name = str::from_utf8(name.as_slice()).unwrap_or("");
        let words = findings.count(finding_of(rt.host(), folder, name, sum)?);
        if !words.is_empty() {
            write_text(out, words.as_bytes())?;
            write_text(out, name_text(alloc, name)?.as_slice())?;
            write_text(out, b"\n")?;
        }
    }
    let (agree, differ) = (findings.agree, findings.differ);
    let (missing, not_read) = (findings.missing, findings.not_read);
    let total = format!(in alloc;
        "TOTAL {agree} agree {differ} differ {missing} missing {not_read} not read\n"
    )?;
    write_text(out, total.as_bytes())?;
    Ok(findings)
}

/// Compares a file of the directory with its checksum.
fn finding_of<R: Host>(
    rt: &R,
    folder: &str,
    name: &str,
    sum: &[u8; 32],
) -> Result<Finding, ToolFault> {
    let path = path_in(rt.alloc(), folder, name)?;
    let there = match found(fs::metadata(rt, path.as_str())) {
        Ok(Some(there)) if there.is_file() => there,
        Ok(None) => return Ok(Finding::Missing),
        _ => return Ok(Finding::NotRead),
    };
    let Ok(mut file) = open(rt, path.as_str()) else {
        return Ok(Finding::NotRead);
    };
    Ok(match has_sum(&mut file, there.len(), sum) {
        Ok(true) => Finding::Agrees,
        Ok(false) => Finding::Differs,
        Err(_) => Finding::NotRead,
    })
}

/// Returns whether the first `length` bytes of `file` have this checksum.
fn has_sum(file: &mut File, length: u64, sum: &[u8; 32]) -> Result<bool, FileFault> {
    let found = sum_of(file, length)?;
    Ok(found == *sum)
}
