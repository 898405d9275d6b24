//! Tests of buffered disks over files.

use crate::fixtures::{cut, gives, read, write};
use std::alloc::{AllocError, Global};
use std::fs::{File, Metadata, OpenFile, OpenOptions};
use std::io::{ErrorKind, Read, Seek, SeekFrom, Write};
use std::test::*;
use std::{fs, io};
use tape_stage::{Buffered, BufferedFile, Disk, DiskFault, FileDisk, MemoryDisk, buffered_file};

/// The maximum number of bytes that a `Counting` returns or accepts in one call.
const AT_ONCE: usize = 5_000;

/// An in-memory file of a fixed length, which counts reads and writes. It can be made to fail one
/// write or every sync.
#[derive(Drop)]
struct Counting {
    bytes: Vec<u8>,
    at: usize,
    reads: u32,
    writes: u32,
    failing: u32,
    unsynced: bool,
}

impl Counting {
    /// Creates a file of `size` bytes, all of them `.`.
    fn new(alloc: Global, size: usize, failing: u32) -> Result<Counting, AllocError> {
        let mut bytes = Vec::new(alloc);
        bytes.resize(size, b'.')?;
        Ok(Counting {
            bytes,
            at: 0,
            reads: 0,
            writes: 0,
            failing,
            unsynced: false,
        })
    }
}

impl Read for Counting {
    fn read(&mut self, buf: &mut [u8]) -> io::Result<usize> {
        self.reads = self.reads.saturating_add(1);
        let rest = &self.bytes[self.at.min(self.bytes.len())..];
        let count = rest.len().min(buf.len()).min(AT_ONCE);
        buf[..count].copy_from_slice(&rest[..count]);
        self.at = self.at.saturating_add(count);
        Ok(count)
    }
}

impl Write for Counting {
    fn write(&mut self, buf: &[u8]) -> io::Result<usize> {
        self.writes = self.writes.saturating_add(1);
        if self.writes == self.failing {
            return Err(io::Error::from(ErrorKind::Other));
        }
        let start = self.at.min(self.bytes.len());
        let rest = &mut self.bytes[start..];
        let count = rest.len().min(buf.len()).min(AT_ONCE);
        rest[..count].copy_from_slice(&buf[..count]);
        self.at = self.at.saturating_add(count);
        Ok(count)
    }

    fn flush(&mut self) -> io::Result<()> {
        Ok(())
    }
}

impl Seek for Counting {
    fn seek(&mut self, to: SeekFrom) -> io::Result<u64> {
        match to {
            SeekFrom::Start(at) => {
                self.at = at.min(1_000_000) as usize;
                Ok(at)
            }
            SeekFrom::End(_) => Ok(self.bytes.len() as u64),
            SeekFrom::Current(_) => Err(io::Error::from(ErrorKind::Unsupported)),
        }
    }
}

impl OpenFile for Counting {
    fn metadata(&self) -> io::Result<Metadata> {
        Err(io::Error::from(ErrorKind::Unsupported))
    }

    fn set_len(&self, _size: u64) -> io::Result<()> {
        Ok(())
    }

    fn sync_all(&self) -> io::Result<()> {
        if self.unsynced {
            return Err(io::Error::from(ErrorKind::Other));
        }
        Ok(())
    }

    fn sync_data(&self) -> io::Result<()> {
        Err(io::Error::from(ErrorKind::Unsupported))
    }
}

/// Returns a buffered disk over a `Counting` of `size` bytes.
fn disk_counting(alloc: Global, size: usize, failing: u32) -> Option<BufferedFile<Counting>> {
    buffered_file(alloc, Counting::new(alloc, size, failing).ok()?).ok()
}

/// Returns the file underneath a buffered disk.
fn file_of(disk: BufferedFile<Counting>) -> Counting {
    disk.into_disk().into_file()
}

/// The size of a small buffer, which is less than some calls move.
const SMALL: usize = 1_000;

/// Returns a disk over a new file at `path`, with a small buffer.
fn made_in(rt: &HostRuntime, path: &str) -> Option<BufferedFile<File>> {
    let _ = fs::remove_file(rt, path);
    let mut options = OpenOptions::new();
    options.read(true).write(true).create(true);
    let room = Vec::with_capacity(rt.alloc(), SMALL).ok()?;
    let disk = FileDisk::new(options.open(rt, path).ok()?).ok()?;
    Some(Buffered::over(disk, room))
}

/// Returns record number `number`: 85 bytes, each of which is the last byte of the number.
fn record_of(number: u64) -> [u8; 85] {
    [number.to_be_bytes()[7]; 85]
}

/// Returns whether the disk returns record number `number` at its offset.
fn gives_record<D: Disk>(disk: &mut D, number: u64) -> bool {
    let mut bytes = [0; 85];
    number < 1_200 && read(disk, number * 85, &mut bytes) && bytes == record_of(number)
}

#[test]
fn small_calls_are_put_together(rt: HostRuntime) {
    let Some(mut disk) = disk_counting(rt.alloc(), 102_000, 0) else {
        assert!(rt; false);
        return;
    };
    for record in 0..1_200u64 {
        assert!(rt;
            write(&mut disk, record * 85, &record_of(record)),
            "{record}"
        );
    }
    assert!(rt; disk.sync() == Ok(()));
    for record in 0..1_200u64 {
        assert!(rt; gives_record(&mut disk, record), "{record}");
    }
    // 32,768 bytes contain 385 records of 85 bytes. Three times as many need seven calls to the
    // file each; then come the remaining records.
    let file = file_of(disk);
    assert_eq!(rt; (file.writes, file.reads), (22, 22));
}

/// Returns whether the disk has frame number `number`, of 20,005 bytes: five bytes are read, and
/// then the others.
fn has_frame<D: Disk>(disk: &mut D, number: u64) -> bool {
    let (mut header, mut content) = ([0; 5], [0; 20_000]);
    let place = number.min(4) * 20_005;
    read(disk, place, &mut header) && read(disk, place + 5, &mut content)
}

#[test]
fn frames_that_cross_the_buffer_are_read_once(rt: HostRuntime) {
    let Some(mut disk) = disk_counting(rt.alloc(), 102_000, 0) else {
        assert!(rt; false);
        return;
    };
    for number in 0..5u64 {
        assert!(rt; has_frame(&mut disk, number), "{number}");
    }
    // Three times 32,768 bytes need seven calls to the file each; then come the remaining bytes.
    assert_eq!(rt; file_of(disk).reads, 22);
}

#[test]
fn a_write_elsewhere_comes_behind_what_is_held(rt: HostRuntime) {
    let Some(mut disk) = disk_counting(rt.alloc(), 12, 0) else {
        assert!(rt; false);
        return;
    };
    assert!(rt; write(&mut disk, 0, b"abc") && write(&mut disk, 3, b"de"));
    assert!(rt; write(&mut disk, 8, b"XY") && write(&mut disk, 1, b"BC"));
    assert!(rt; gives(&mut disk, 0, b"aBCde...XY.."));
    // A write over bytes that were read ahead.
    assert!(rt; write(&mut disk, 5, b"fg") && gives(&mut disk, 0, b"aBCdefg.XY.."));
    assert!(rt; write(&mut disk, 11, b"Z"));
    let file = file_of(disk);
    // The last write did not reach the file, since no sync promised to keep it.
    assert!(rt; file.bytes.as_slice() == b"aBCdefg.XY..".as_slice() && file.writes == 4);
}

#[test]
fn what_could_not_be_written_is_held_on(rt: HostRuntime) {
    let Some(mut disk) = disk_counting(rt.alloc(), 12, 1) else {
        assert!(rt; false);
        return;
    };
    assert!(rt; write(&mut disk, 0, b"ab") && disk.sync() == Err(DiskFault::Device));
    // The byte is read, and the next sync writes it before it reports success.
    assert!(rt; gives(&mut disk, 0, b"ab..") && disk.sync() == Ok(()));
    let file = file_of(disk);
    assert!(rt; file.bytes.as_slice() == b"ab..........".as_slice() && file.writes == 2);
}

#[test]
fn behind_a_failed_sync_nothing_is_kept(rt: HostRuntime) -> Result<(), Fail> {
    let mut file = Counting::new(rt.alloc(), 12, 0)?;
    file.unsynced = true;
    let Ok(mut disk) = buffered_file(rt.alloc(), file) else {
        return Err(Fail::from("a disk"));
    };
    assert!(rt; disk.sync() == Err(DiskFault::Device));
    // The system might return Ok from the next sync, but it is not called.
    let kept = disk.sync().is_ok() || cut(&mut disk, 0) || read(&mut disk, 6, &mut [0; 2]);
    assert!(rt; !kept && disk.len() == Ok(12));
    Ok(())
}

/// Returns whether truncating the disk, which was empty, makes it drop the bytes read ahead.
fn forgets<D: Disk>(disk: &mut D) -> bool {
    let ahead = write(disk, 0, b"abcdef") && disk.sync().is_ok() && gives(disk, 0, b"ab");
    ahead && cut(disk, 3) && write(disk, 3, b"XYZ") && gives(disk, 0, b"abcXYZ")
}

#[test]
fn a_cut_forgets_what_was_read_ahead(rt: HostRuntime) {
    let Some(mut disk) = made_in(&rt, "a_cut_forgets_what_was_read_ahead.disk") else {
        assert!(rt; false);
        return;
    };
    assert!(rt; forgets(&mut disk));
    // The buffer is written before the disk is truncated, which then removes the end of what was
    // written.
    assert!(rt; write(&mut disk, 6, b"gh") && cut(&mut disk, 7));
    let mut two = [0; 2];
    assert!(rt; !read(&mut disk, 6, &mut two));
    assert!(rt; gives(&mut disk, 5, b"Zg"));
}

/// Returns whether reading has equal results on both disks.
fn reads_agree<A: Disk, B: Disk>(one: &mut A, two: &mut B, place: u64, size: usize) -> bool {
    let (mut left, mut right) = ([1; 9_000], [1; 9_000]);
    let size = size.min(9_000);
    let first = read(one, place, &mut left[..size]);
    first == read(two, place, &mut right[..size]) && left == right
}

/// Returns whether writing has equal results on both disks.
fn writes_agree<A: Disk, B: Disk>(
    one: &mut A,
    two: &mut B,
    place: u64,
    byte: u8,
    size: usize,
) -> bool {
    let most = [byte; 9_000];
    let Some(bytes) = most.as_slice().get(..size) else {
        return false;
    };
    write(one, place, bytes) == write(two, place, bytes)
}

/// Returns whether the call that `told` encodes has equal results on both disks.
fn calls_agree<A: Disk, B: Disk>(one: &mut A, two: &mut B, told: [u8; 8]) -> bool {
    let size = if told[0] < 12 {
        9_000
    } else {
        usize::from(told[1])
    };
    let place = u64::from(told[2]) * 150 + u64::from(told[3]);
    let Ok(len) = one.len() else {
        return false;
    };
    if two.len() != Ok(len) {
        return false;
    }
    match told[5] {
        0..=140 => writes_agree(one, two, len, told[4], size),
        141..=170 => writes_agree(one, two, place, told[4], size),
        171..=247 => reads_agree(one, two, place, size),
        248..=251 => cut(one, place) == cut(two, place),
        _ => one.sync() == two.sync(),
    }
}

#[test]
fn a_row_of_calls_does_what_it_does_in_memory(rt: HostRuntime) -> Result<(), Fail> {
    let path = "a_row_of_calls_does_what_it_does_in_memory.disk";
    let Some(mut disk) = made_in(&rt, path) else {
        return Err(Fail::from("a disk"));
    };
    let mut memory = MemoryDisk::new(rt.alloc());
    let mut state = 1u64;
    for step in 0..600 {
        state = state
            .wrapping_mul(6_364_136_223_846_793_005)
            .wrapping_add(step);
        assert!(rt;
            calls_agree(&mut disk, &mut memory, state.to_be_bytes()),
            "at {step}"
        );
    }
    assert_eq!(rt; disk.sync(), Ok(()));
    assert_eq!(rt; fs::read(&rt, path)?.as_slice(), memory.bytes());
    Ok(())
}
