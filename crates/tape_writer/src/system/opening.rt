//! Opens image files.
ghost use Rattle.std.specs.Prelude.{◌≡◌, ◌↔◌, min, IfOk, IfSome, IsOkUnless, IsTrue};
ghost use Rattle.tape_writer.specs.Blank.{blank_image, blank_volume};

use crate::blank::{BLANK, BlankImage, Prefix, blank_image, blank_volume};
use crate::system::Host;
use crate::system::answers::{LockFault, locked};
use crate::system::bytes::put_all;
use crate::system::fault::FileFault;
use crate::system::folder::sync_folder_of;
use std::fs::{File, OpenOptions};
use std::io::{ErrorKind, Read, Seek, SeekFrom};
use tape_image::fill;

/// Creates an image file, or opens the existing file if it is a blank volume, and truncates it. The
/// file is locked as long as it is open. Returns whether it was created.
pub fn open_image<R: Host>(
    rt: &R,
    path: &str,
    prefix: Prefix,
    number: u16,
) -> Result<(File, bool), FileFault> {
    match make_file(rt, path) {
        Err(FileFault::Exists) => {}
        Err(fault) => return Err(fault),
        Ok(file) => return Ok((file, true)),
    }
    let mut options = OpenOptions::new();
    options.read(true).write(true);
    let Ok(mut there) = options.open(rt, path) else {
        return Err(FileFault::NotOpened);
    };
    // A file that is not blank is not locked: another run may just have created it. Two runs may
    // both find a blank volume, so the run that holds the lock checks again.
    require_blank(&mut there, prefix, number)?;
    let mut there = lock(there)?;
    require_blank(&mut there, prefix, number)?;
    if there.set_len(0).is_err() || there.seek(SeekFrom::Start(0)).is_err() {
        return Err(FileFault::WriteFailed);
    }
    Ok((there, false))
}

/// Checks whether `open_image` would accept the file at `path`, and opens a file that accepts and
/// forgets all bytes in its place. Creates and changes nothing.
pub fn try_image<R: Host>(
    rt: &R,
    path: &str,
    prefix: Prefix,
    number: u16,
) -> Result<(File, bool), FileFault> {
    match File::open(rt, path) {
        Ok(mut there) => require_blank(&mut there, prefix, number)?,
        Err(error) if error.kind() == ErrorKind::NotFound => {}
        Err(_) => return Err(FileFault::NotOpened),
    }
    let mut options = OpenOptions::new();
    match options.write(true).open(rt, "/dev/null") {
        Ok(file) => Ok((file, false)),
        Err(_) => Err(FileFault::NotOpened),
    }
}

/// Creates a file that must not exist yet, and locks it.
fn make_file<R: Host>(rt: &R, path: &str) -> Result<File, FileFault> {
    let mut options = OpenOptions::new();
    options.write(true).create_new(true);
    match options.open(rt, path) {
        Ok(file) => lock(file),
        Err(error) if error.kind() == ErrorKind::AlreadyExists => Err(FileFault::Exists),
        Err(_) => Err(FileFault::NotOpened),
    }
}

/// Locks the file of an image. A volume that another run is writing is no longer blank.
fn lock(file: File) -> Result<File, FileFault> {
    match locked(file.try_lock()) {
        Ok(()) => Ok(file),
        Err(LockFault::InUse) => Err(FileFault::Exists),
        Err(LockFault::Failed) => Err(FileFault::NotOpened),
    }
}

/// Refuses `file` if it is not a blank volume.
fn require_blank(file: &mut File, prefix: Prefix, number: u16) -> Result<(), FileFault> {
    if file.seek(SeekFrom::Start(0)).is_err() {
        return Err(FileFault::ReadFailed);
    }
    if is_blank(file, prefix, number)? {
        Ok(())
    } else {
        Err(FileFault::Exists)
    }
}

/// Returns true if the reader contains exactly the image of the given blank volume.
///
/// # Errors
///
/// Returns `ReadFailed` if a read fails.
fn is_blank<R: Read>(reader: &mut R, prefix: Prefix, number: u16) -> Result<bool, FileFault>
    ensures found { IfOk result (λ blank. IfSome (R.remaining reader.old) (λ bytes. IsTrue blank
        ↔ (bytes ≡ blank_image (blank_volume prefix.characters (min number 999))))) }
    ensures fault { IsOkUnless result FileFault.ReadFailed }
{
    // One byte more than the image of a blank volume.
    let mut bytes = [0; BLANK + 1];
    match fill(reader, &mut bytes) {
        Ok(count) => Ok(&bytes[..count] == image_of(prefix, number).as_slice()),
        Err(_) => Err(FileFault::ReadFailed),
    }
}

/// Creates the image of blank volume number `number`, from 1 to 999, in a new file, and syncs the
/// file and its directory.
///
/// # Errors
///
/// Returns `Exists` if the path exists, `NotOpened` if the file cannot be created, `WriteFailed` if
/// not all bytes could be written, or a sync fails.
pub fn make_image<R: Host>(
    rt: &R,
    path: &str,
    prefix: Prefix,
    number: u16,
) -> Result<(), FileFault> {
    let mut file = make_file(rt, path)?;
    put_all(&mut file, &image_of(prefix, number))?;
    if file.sync_all().is_err() || sync_folder_of(rt, path).is_err() {
        return Err(FileFault::WriteFailed);
    }
    Ok(())
}

/// Returns the image of a blank volume.
fn image_of(prefix: Prefix, number: u16) -> BlankImage
    ensures { result.items ≡ blank_image (blank_volume prefix.characters (min number 999)) }
{
    blank_image(&blank_volume(prefix, number.min(999)))
}
