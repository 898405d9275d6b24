//! The paths of files, and directories whose names are made durable.
ghost use Rattle.std.specs.Prelude.{◌≡◌, ℕ, List};
ghost use Rattle.tape_writer.specs.System.{IsPathOf, is_unable};

use crate::blank::Prefix;
use std::alloc::{AllocError, Global};
use std::fs::{File, Files, OpenFile};
use std::io;
use std::io::{ErrorKind, Write};

/// Syncs the directory of `path`. If the directory may not be read, or the file system cannot sync
/// it (as with some network file systems), the names become durable when the system chooses.
///
/// # Errors
///
/// Returns every other error of opening and syncing the directory.
pub fn sync_folder_of<R: Files>(files: &R, path: &str) -> io::Result<()> {
    let folder = match File::open(files, folder_of(path)) {
        Ok(folder) => folder,
        Err(error) if error.kind() == ErrorKind::PermissionDenied => return Ok(()),
        Err(error) => return Err(error),
    };
    match folder.sync_all() {
        Err(error) if is_unable(error.kind()) => Ok(()),
        done => done,
    }
}

/// Returns the directory that contains `path`.
pub fn folder_of(path: &str) -> &str
    ensures { (name : List ℕ) × IsPathOf path.now result.now name }
{
    match path.rfind('/') {
        Some(0) => "/",
        Some(end) => &path[..end],
        None => ".",
    }
}

/// Returns the name of `path` in its directory.
pub fn name_in_folder(path: &str) -> &str
    ensures { (folder : List ℕ) × IsPathOf path.now folder result.now }
{
    match path.rfind('/') {
        Some(end) => &path[end + 1..],
        None => path,
    }
}

/// Returns true if a file system reports this kind of error when it cannot sync.
pub fn is_unable(kind: ErrorKind) -> bool
    ensures { result ≡ is_unable kind }
{
    matches!(kind, ErrorKind::InvalidInput | ErrorKind::Unsupported)
}

/// Returns the path of the image of volume `number`, 1 to 999, in directory `folder`: its
/// identifier followed by `.tap`.
///
/// # Errors
///
/// Returns `AllocError` if an allocation fails.
pub fn image_path(
    alloc: Global,
    folder: &str,
    prefix: Prefix,
    number: u16,
) -> Result<String, AllocError> {
    let mut path = String::new(alloc);
    path.push_str(folder)?;
    path.push_str("/")?;
    for byte in prefix.characters {
        path.push(char::from(byte))?;
    }
    write!(path, "{number:03}.tap")?;
    Ok(path)
}
