//! The meaning of results of system calls. Only one kind of error says that a file does not exist.
ghost use Rattle.std.specs.Prelude.{◌≡◌};
ghost use Rattle.tape_writer.specs.Answers.{found_of, has_no_locks, locked_of};

use crate::system::fault::FileFault;
use std::fs::{Metadata, TryLockError};
use std::io;
use std::io::ErrorKind;

/// Returns the result of a lookup: `None` only if the system says that no file exists.
///
/// # Errors
///
/// Returns `NotOpened` if the lookup failed in any other way: a file may exist.
pub fn found(look: io::Result<Metadata>) -> Result<Option<Metadata>, FileFault>
    ensures { result ≡ found_of look }
{
    match look {
        Ok(there) => Ok(Some(there)),
        Err(error) if error.kind() == ErrorKind::NotFound => Ok(None),
        Err(_) => Err(FileFault::NotOpened),
    }
}

/// The reason why a file is not locked.
#[derive(Clone, Copy, PartialEq, Eq)]
pub enum LockFault {
    /// Another run holds the lock.
    InUse,
    /// The system did not say whether another run holds the lock.
    Failed,
}

/// Returns Ok if a run may continue with a file after trying to lock it: it holds the lock, or the
/// file system has no locks.
///
/// # Errors
///
/// Returns `InUse` if another run holds the lock, and `Failed` for every other error.
pub fn locked(attempt: Result<(), TryLockError>) -> Result<(), LockFault>
    ensures { result ≡ locked_of attempt }
{
    match attempt {
        Ok(()) => Ok(()),
        Err(TryLockError::WouldBlock) => Err(LockFault::InUse),
        Err(TryLockError::Error(error)) if has_no_locks(&error) => Ok(()),
        Err(TryLockError::Error(_)) => Err(LockFault::Failed),
    }
}

/// The number of the error that NFS returns if the lock service is missing.
const ENOLCK: i32 = 37;

/// Returns whether `error` says that the file system has no locks.
fn has_no_locks(error: &io::Error) -> bool
    ensures { result ≡ has_no_locks error.now }
{
    match error.raw_os_error() {
        Some(code) if code == ENOLCK => true,
        _ => error.kind() == ErrorKind::Unsupported,
    }
}
