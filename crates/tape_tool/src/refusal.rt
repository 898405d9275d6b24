//! Reasons for refusing to start a command: its arguments name files that it would destroy, or
//! files that do not exist. Also the identity of the files found under these names, and their
//! removal.
ghost use Rattle.std.specs.Prelude.{◌≡◌, ◌⊎◌, None, Some, Ok, Err, IfErr, IsOk};

use crate::fault::{FileFault, OUT_OF_MEMORY, ToolFault};
use crate::help;
use crate::readings::place_in;
use crate::screen::{Host, Progress};
use crate::shown::Shown;
use std::alloc::AllocError;
use std::fs;
use std::fs::{File, Metadata};
use std::io::ErrorKind;
use std::os::unix::fs::{FileTypeExt, MetadataExt};

/// The reason why a command is not started.
#[derive(Clone, Copy)]
pub enum Refusal {
    /// The arguments exclude each other, would destroy a file, or name nothing that exists.
    Words(&'static str),
    /// The value of the argument with this name is not accepted. The text says which values are.
    Value(&'static str, &'static str),
    /// A name in a list is not text. Contains whether names end with a NUL, and the number of the
    /// name, counted from 1.
    NoText(bool, usize),
    /// A file cannot be used, or looking it up failed.
    Faulted(ToolFault),
}

impl From<ToolFault> for Refusal {
    fn from(fault: ToolFault) -> Refusal {
        Refusal::Faulted(fault)
    }
}

impl From<FileFault> for Refusal {
    fn from(fault: FileFault) -> Refusal {
        Refusal::Faulted(ToolFault::File(fault))
    }
}

impl From<AllocError> for Refusal {
    fn from(_error: AllocError) -> Refusal {
        Refusal::Faulted(OUT_OF_MEMORY)
    }
}

/// Opens the file at `path`, or of a reading with this name, for reading from its beginning on.
pub fn open<R: Host>(rt: &R, path: &str) -> Result<File, FileFault> {
    File::open(rt, place_in(path).0).map_err(|_| FileFault::NotOpened)
}

/// Returns whether `one` and `other` are the same file, whatever names or links led to them. On a
/// file system without file numbers, returns false.
pub fn same_file(one: &Metadata, other: &Metadata) -> bool {
    one.ino() != 0 && one.dev() == other.dev() && one.ino() == other.ino()
}

/// Returns whether each of these is a plain file, or does not exist: only these can be read twice.
pub fn are_files<R: Host>(rt: &R, names: &[&str]) -> bool {
    names.iter().all(|name| is_file(rt, name))
}

/// Returns whether this is a plain file, or does not exist: only these can be read twice.
pub fn is_file<R: Host>(rt: &R, name: &str) -> bool {
    fs::metadata(rt, place_in(name).0).map_or(true, |found| found.is_file())
}

/// Refuses images that are opened more than once and are pipes: at the second opening a pipe gives
/// nothing, or waits for ever.
///
/// # Errors
///
/// Returns `Words` if one of them is a pipe.
pub fn no_pipes<R: Host>(rt: &R, names: &[&str]) -> Result<(), Refusal> {
    for name in names {
        if fs::metadata(rt, name).is_ok_and(|found| found.file_type().is_fifo()) {
            return Err(Refusal::Words(help::IMAGE_IS_PIPE));
        }
    }
    Ok(())
}

/// The identity of a file and, for a regular file, of its contents: their length and time.
#[derive(Clone, Copy, PartialEq, Eq)]
pub struct FileId {
    device: u64,
    number: u64,
    length: u64,
    /// The time when the file was last written, in seconds and nanoseconds.
    written: (i64, i64),
}

impl FileId {
    /// Returns the identity of the file with metadata `found`.
    pub fn of(found: &Metadata) -> FileId {
        let (length, written) = if found.is_file() {
            (found.len(), (found.mtime(), found.mtime_nsec()))
        } else {
            (0, (0, 0))
        };
        FileId {
            device: found.dev(),
            number: found.ino(),
            length,
            written,
        }
    }
}

/// The way in which a new file takes a name.
#[derive(Clone, Copy, PartialEq, Eq)]
pub enum Taking {
    /// The file takes the name only if no other file has it.
    New,
    /// The file takes the name by replacing the file that has it.
    Over,
}

/// Returns how a new file takes a name, given the file found under the name before the run and the
/// one found now. A file whose name was free before never replaces another file.
///
/// # Errors
///
/// Returns `Exists` if another file has the name now, or the same file with other contents;
/// `NotOpened` if the lookup failed.
pub fn way_to_take(
    before: Option<FileId>,
    now: Result<Option<FileId>, FileFault>,
) -> Result<Taking, FileFault>
    ensures over { result ≡ Ok Taking.Over → now ≡ Ok before }
    ensures new { result ≡ Ok Taking.New → (before ≡ None) ⊎ (now ≡ Ok None) }
    ensures due { IfErr result (λ fault.
        ((fault ≡ FileFault.Exists) × IsOk now) ⊎ (now ≡ Err fault)) }
    ensures same { now ≡ Ok before → IsOk result }
    ensures free { now ≡ Ok None → result ≡ Ok Taking.New }
    ensures absent { before ≡ None → result ≡ Ok Taking.New }
{
    match (before, now) {
        (None, _) => Ok(Taking::New),
        (Some(_), Ok(None)) => Ok(Taking::New),
        (Some(before), Ok(Some(now))) if before == now => Ok(Taking::Over),
        (Some(_), Ok(Some(_))) => Err(FileFault::Exists),
        (Some(_), Err(fault)) => Err(fault),
    }
}

/// Removes the file at `path`, which this program created, if it exists. If that fails, reports
/// that the file remains.
pub fn remove<R: Progress>(rt: &R, path: &str) {
    if let Err(error) = fs::remove_file(rt.host(), path)
        && error.kind() != ErrorKind::NotFound
    {
        let name = Shown(path);
        let _ = rt.eprint(format_args!("tape: \"{name}\" could not be removed\n"));
    }
}
