//! A disk over a file.

ghost use Rattle.std.specs.Prelude.{◌≡◌, ◌+◌, [], false, length, max, true, IfOk, IfSome, Ok};
ghost use Rattle.std.specs.Prelude.{OnErr, OnOk, ◌⊎◌, IfErr};
ghost use Rattle.tape_core.specs.Weight.{Rose};

use crate::disk::buffered::Buffered;
use crate::disk::{Disk, DiskFault, fail};
use crate::stage::StageFault;
use std::alloc::Global;
use std::fs::OpenFile;
use std::io::{Read, Seek, SeekFrom, Write};

/// A file used as a disk. Each call is one call on the file; cutting it to its own length takes
/// none.
///
/// Tracks the length itself, so it never asks for bytes past the end, and reports each failure of
/// the file as `Device`: an error, an interruption, an early end, or a write of no bytes. A
/// contract cannot describe a file's bytes, so this type is not claimed to be honest. The theorems
/// about stages on honest disks hold for a file if its system keeps synced bytes.
///
/// After a failed sync every call except `len` returns `Device`: a system may have dropped bytes
/// that it could not write, and may return Ok from the next sync.
#[derive(Drop)]
pub struct FileDisk<F> {
    file: F,
    len: u64,
    failed: u64,
    lost: bool,
}

impl<F: Seek + Drop> FileDisk<F> {
    /// Creates a disk from the whole of `file`, which must be open for reading and writing. Nothing
    /// else may change its length.
    ///
    /// # Errors
    ///
    /// Returns `Device` if the file's length is not available; the file is dropped.
    pub fn new(file: F) -> Result<FileDisk<F>, DiskFault>
        ensures long { IfSome (F.stream_position file) (λ _. IfSome (F.stream_bytes file)
            (λ bytes. IfOk result (λ disk. disk.len ≡ length bytes))) }
        ensures alive { IfOk result (λ disk. disk.lost ≡ false) }
        ensures calm { IfOk result (λ disk. disk.failed ≡ 0) }
    {
        let mut file = file;
        match file.seek(SeekFrom::End(0)) {
            Ok(len) => Ok(FileDisk {
                file,
                len,
                failed: 0,
                lost: false,
            }),
            Err(_) => Err(DiskFault::Device),
        }
    }
}

impl<F> FileDisk<F> {
    /// Returns the file.
    pub fn into_file(self) -> F
        ensures { result ≡ self.file }
    {
        self.file
    }
}

impl<F: Read + Write + Seek + OpenFile> Disk for FileDisk<F> {
    ghost is_honest = { λ _. ⊥ };

    ghost length_of = { λ d. d.len };

    ghost seen = { λ _. [] };

    ghost may_leave = { λ _ _. ⊥ };

    ghost moment = { λ _. 0 };

    ghost left_since = { λ _ _ _. ⊥ };

    ghost faults = { λ d. d.failed };

    ghost long_as_seen = { λ _ honest. absurd honest };

    ghost seen_now = { λ _ honest. absurd honest };

    ghost counts_now = { λ _ _ _ honest _ _. absurd honest };

    ghost only_now = { λ _ _ honest _. absurd honest };

    fn len(&mut self) -> Result<u64, DiskFault>
        ensures value { result ≡ Ok self.old.len }
        ensures same { self.new ≡ self.old }
    {
        Ok(self.len)
    }

    fn read(&mut self, place: u64, buf: &mut [u8]) -> Result<(), DiskFault>
        ensures same_length { self.new.len ≡ self.old.len }
        ensures cause { OnErr result (Rose self.old.failed self.new.failed) }
        ensures calm { OnOk result (self.new.failed ≡ self.old.failed) }
        ensures alive { OnOk result (self.old.lost ≡ false) }
        ensures lost { self.new.lost ≡ self.old.lost }
    {
        if self.lost {
            return Err(fail(&mut self.failed));
        }
        if self.file.seek(SeekFrom::Start(place)).is_err() {
            return Err(fail(&mut self.failed));
        }
        let mut at = 0;
        'reads: while at < buf.len() {
            match self.file.read(&mut buf[at..]) {
                Ok(0) => return Err(fail(&mut self.failed)),
                Ok(n) => at += n,
                Err(_) => return Err(fail(&mut self.failed)),
            }
        }
        Ok(())
    }

    fn write_at(&mut self, place: u64, bytes: &[u8]) -> Result<(), DiskFault>
        ensures long { OnOk result
            (self.new.len ≡ max self.old.len (place + length bytes.now)) }
        ensures same_length { OnErr result (self.new.len ≡ self.old.len) }
        ensures cause { OnErr result (Rose self.old.failed self.new.failed) }
        ensures calm { OnOk result (self.new.failed ≡ self.old.failed) }
        ensures alive { OnOk result (self.old.lost ≡ false) }
        ensures lost { self.new.lost ≡ self.old.lost }
    {
        if self.lost {
            return Err(fail(&mut self.failed));
        }
        let Some(end) = place.checked_add(bytes.len() as u64) else {
            return Err(fail(&mut self.failed));
        };
        if self.file.seek(SeekFrom::Start(place)).is_err() {
            return Err(fail(&mut self.failed));
        }
        let mut rest = bytes;
        'writes: while !rest.is_empty() {
            match self.file.write(rest) {
                Ok(0) => return Err(fail(&mut self.failed)),
                Ok(n) => rest = &rest[n..],
                Err(_) => return Err(fail(&mut self.failed)),
            }
        }
        self.len = self.len.max(end);
        Ok(())
    }

    fn cut(&mut self, len: u64) -> Result<(), DiskFault>
        ensures short { OnOk result (self.new.len ≡ len) }
        ensures same_length { OnErr result (self.new.len ≡ self.old.len) }
        ensures cause { OnErr result (Rose self.old.failed self.new.failed) }
        ensures calm { OnOk result (self.new.failed ≡ self.old.failed) }
        ensures alive { OnOk result (self.old.lost ≡ false) }
        ensures lost { self.new.lost ≡ self.old.lost }
    {
        if self.lost {
            return Err(fail(&mut self.failed));
        }
        // A system changes the time of a file that is cut, even to the length that it has. After a
        // failure the file may be longer than its disk.
        if len == self.len && self.failed == 0 {
            return Ok(());
        }
        match self.file.set_len(len) {
            Ok(()) => {
                self.len = len;
                Ok(())
            }
            Err(_) => Err(fail(&mut self.failed)),
        }
    }

    // Syncs the length and the bytes: a crash might leave either unwritten.
    fn sync(&mut self) -> Result<(), DiskFault>
        ensures same_length { self.new.len ≡ self.old.len }
        ensures cause { OnErr result (Rose self.old.failed self.new.failed) }
        ensures calm { OnOk result (self.new.failed ≡ self.old.failed) }
        ensures alive { OnOk result (self.old.lost ≡ false) }
        ensures lost { OnErr result (self.new.lost ≡ true) }
        ensures kept { OnOk result (self.new.lost ≡ false) }
    {
        if self.lost {
            return Err(fail(&mut self.failed));
        }
        match self.file.sync_all() {
            Ok(()) => Ok(()),
            Err(_) => {
                self.lost = true;
                Err(fail(&mut self.failed))
            }
        }
    }
}

/// The size of the buffer, in bytes.
const ROOM: usize = 32_768;

/// A file used as a disk, with a buffer of 32,768 bytes.
pub type BufferedFile<F> = Buffered<FileDisk<F>>;

/// Creates a buffered disk from the whole of `file`, which must be open for reading and writing.
/// Nothing else may change its length.
///
/// # Errors
///
/// Returns `OutOfMemory` if there is no memory for the buffer (the file was not used), and
/// `Device` if the file's length is not available. The file is dropped.
pub fn buffered_file<F: Read + Write + Seek + OpenFile + Drop>(
    alloc: Global,
    file: F,
) -> Result<BufferedFile<F>, StageFault>
    ensures fault { IfErr result
        (λ fault. (fault ≡ StageFault.OutOfMemory) ⊎ (fault ≡ StageFault.Device)) }
    ensures long { IfSome (F.stream_position file) (λ _. IfSome (F.stream_bytes file)
        (λ bytes. IfOk result (λ held. held.disk.len ≡ length bytes))) }
    ensures alive { IfOk result (λ held. held.disk.lost ≡ false) }
    // Nothing is buffered, and no failure was counted.
    ensures held { IfOk result (λ held. held.bytes.items ≡ []) }
    ensures calm { IfOk result (λ held. (held.failed ≡ 0) × (held.disk.failed ≡ 0)) }
{
    let room = Vec::with_capacity(alloc, ROOM)?;
    let disk = FileDisk::new(file)?;
    Ok(Buffered::over(disk, room))
}
