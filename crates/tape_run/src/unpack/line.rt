//! The lines that `unpack` prints.
ghost use Rattle.std.specs.Prelude.{◌≡◌, ◌++◌, IfOk};
ghost use Rattle.tape_run.specs.UnpackLine.{path_text, file_line, unpack_outcome_text};
ghost use Rattle.tape_run.specs.UnpackLine.{notice_text, notice_line};

use super::SetFile;
use crate::quoting::name_text;
use crate::text::Identifier;
use std::alloc::{AllocError, Global};

/// The outcome of a file, or the outcome that it would have.
#[derive(Clone, Copy, PartialEq, Eq)]
pub enum UnpackOutcome {
    /// It was recovered completely.
    Complete,
    /// A part of it is missing.
    Awaits,
    /// It is only listed: each of its sections is complete on some image.
    Ready,
    /// It is only listed: a section of it is complete on no image.
    Lacks,
    /// A file of its name exists; it was not changed. Unless it is only listed, the file has
    /// exactly the records of this one.
    Exists,
    /// A file of its name exists, and has other records; it was not changed.
    Different,
    /// A file of its name exists, and could not be compared with this one in full; it was not
    /// changed.
    NotCompared,
    /// Labels of different files have its number, or complete copies of a section differ.
    Conflict,
    /// No label of it was found.
    NotFound,
    /// An error ended the recovery of the file.
    Failed,
    /// A further line about an incomplete file: its readable records were written.
    Salvaged,
    /// A further line about a complete file: the stage of an earlier run was kept, since its data
    /// are not the beginning of the file.
    StageKept,
    /// A further line about a file: this image has other data of a section than an image that was
    /// read before, and was not used.
    Differs,
    /// A further line about a file: the blocks of this section are not counted.
    Uncounted,
    /// A further line about a complete file: these sections came from its stage alone.
    Staged,
}

/// Returns the words that `unpack` prints for an outcome.
pub fn unpack_outcome_text(outcome: UnpackOutcome) -> &'static [u8]
    ensures { result.now ≡ unpack_outcome_text outcome }
{
    match outcome {
        UnpackOutcome::Complete => b"COMPLETE",
        UnpackOutcome::Awaits => b"AWAITS",
        UnpackOutcome::Ready => b"READY",
        UnpackOutcome::Lacks => b"LACKS",
        UnpackOutcome::Exists => b"EXISTS",
        UnpackOutcome::Different => b"DIFFERENT",
        UnpackOutcome::NotCompared => b"NOT COMPARED",
        UnpackOutcome::Conflict => b"CONFLICT",
        UnpackOutcome::NotFound => b"NOT FOUND",
        UnpackOutcome::Failed => b"FAILED",
        UnpackOutcome::Salvaged => b"SALVAGED",
        UnpackOutcome::StageKept => b"STAGE KEPT",
        UnpackOutcome::Differs => b"SECTION DIFFERS",
        UnpackOutcome::Uncounted => b"UNCOUNTED",
        UnpackOutcome::Staged => b"STAGED",
    }
}

/// Returns the line of a file: its set, its number, its outcome with any details, and the path of
/// its records or of its stage if there is one. A question mark replaces each unprintable byte of
/// the set identifier; the path is printed as `name_text` does.
///
/// # Errors
///
/// `AllocError`: a growth was refused.
pub fn file_line(
    alloc: Global,
    file: &SetFile,
    outcome: UnpackOutcome,
    details: &[u8],
    path: &str,
) -> Result<Vec<u8>, AllocError>
    ensures { IfOk result (λ line.
        line.items ≡ file_line file.now.set_id file.now.file outcome details.now path.now) }
{
    let (set_id, number) = (Identifier(&file.set_id), file.file);
    let mut line = format!(in alloc; "FILE {set_id} {number} ")?.into_bytes();
    line.extend_from_slice(unpack_outcome_text(outcome))?;
    line.extend_from_slice(details)?;
    put_path(alloc, &mut line, path)?;
    line.push(b'\n')?;
    Ok(line)
}

/// Appends a space and the path, if there is one.
fn put_path(alloc: Global, line: &mut Vec<u8>, path: &str) -> Result<(), AllocError>
    ensures { IfOk result (λ _. line.new.items ≡ line.old.items ++ path_text path.now) }
{
    if path.is_empty() {
        return Ok(());
    }
    let name = name_text(alloc, path)?;
    line.push(b' ')?;
    line.extend_from_slice(name.as_slice())
}

/// The word that a line reports about a name.
#[derive(Clone, Copy)]
pub enum Notice {
    /// No file of this set was found.
    NoSet,
    /// This word means no file that was found.
    NoFile,
    /// The image with this name was not read completely.
    Unread,
    /// The image with this name has a section of a file after the one that ends the file.
    AfterEnd,
}

/// Returns the text before the name.
fn notice_text(notice: Notice) -> &'static [u8]
    ensures { result.now ≡ notice_text notice }
{
    match notice {
        Notice::NoSet => b"NO SET ",
        Notice::NoFile => b"NO FILE ",
        Notice::Unread => b"INCOMPLETE IMAGE ",
        Notice::AfterEnd => b"SECTION AFTER END ",
    }
}

/// Returns the line that reports this about a name.
///
/// # Errors
///
/// `AllocError`: a growth was refused.
pub fn notice_line(alloc: Global, notice: Notice, name: &str) -> Result<Vec<u8>, AllocError>
    ensures { IfOk result (λ line. line.items ≡ notice_line notice name.now) }
{
    let mut line = Vec::from_slice(alloc, notice_text(notice))?;
    let name = name_text(alloc, name)?;
    line.extend_from_slice(name.as_slice())?;
    line.push(b'\n')?;
    Ok(line)
}
