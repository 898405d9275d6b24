//! Tests of an in-memory disk: the effects of its calls, stops, and the contents that a crash
//! leaves.

use crate::fixtures::disk_of;
use std::alloc::{AllocError, Global};
use std::test::*;
use tape_stage::{Disk, DiskFault, MemoryDisk};

/// Reads if there are enough bytes. Returns whether the read succeeds.
fn read(disk: &mut MemoryDisk, place: usize, buf: &mut [u8]) -> bool {
    let len = disk.bytes().len();
    place <= len && buf.len() <= len - place && disk.read(place as u64, buf).is_ok()
}

/// Writes if the offset is not past the end. Returns whether the write succeeds.
fn write(disk: &mut MemoryDisk, place: usize, bytes: &[u8]) -> bool {
    place <= disk.bytes().len() && disk.write_at(place as u64, bytes).is_ok()
}

/// Truncates the disk if there are enough bytes. Returns whether that succeeds.
fn cut(disk: &mut MemoryDisk, len: usize) -> bool {
    len <= disk.bytes().len() && disk.cut(len as u64).is_ok()
}

/// A call that changes a disk.
#[derive(Clone, Copy)]
enum Step {
    Write(usize, &'static [u8]),
    Cut(usize),
    Sync,
}

/// Returns whether the call succeeds.
fn takes(disk: &mut MemoryDisk, step: Step) -> bool {
    match step {
        Step::Write(place, bytes) => write(disk, place, bytes),
        Step::Cut(len) => cut(disk, len),
        Step::Sync => disk.sync().is_ok(),
    }
}

/// Returns whether all of the calls succeed.
fn takes_all(disk: &mut MemoryDisk, steps: &[Step]) -> bool {
    for step in steps {
        if !takes(disk, *step) {
            return false;
        }
    }
    true
}

/// Returns whether the call succeeds and the disk then contains `seen`.
fn becomes(disk: &mut MemoryDisk, step: Step, seen: &[u8]) -> bool {
    takes(disk, step) && disk.bytes() == seen && disk.len() == Ok(seen.len() as u64)
}

/// Consecutive calls, and the contents after each call.
const CALLS: &[(Step, &[u8])] = &[
    (Step::Write(0, b"abcdef"), b"abcdef"),
    (Step::Write(4, b"XYZ"), b"abcdXYZ"),
    (Step::Cut(2), b"ab"),
    (Step::Write(2, b""), b"ab"),
    (Step::Sync, b"ab"),
];

#[test]
fn calls_change_the_bytes(rt: HostRuntime) {
    let mut disk = MemoryDisk::new(rt.alloc());
    assert!(rt; disk.len() == Ok(0));
    for (step, seen) in CALLS {
        assert!(rt; becomes(&mut disk, *step, seen), "{seen:?}");
    }
}

#[test]
fn a_read_fills_its_buffer(rt: HostRuntime) -> Result<(), AllocError> {
    let mut disk = disk_of(rt.alloc(), b"abcdef")?;
    let mut three = [0; 3];
    assert!(rt; read(&mut disk, 1, &mut three) && &three == b"bcd");
    Ok(())
}

/// Returns whether a disk that contained `abcdef` contains `seen` after the calls, and a crash then
/// leaves `left`.
fn leaves(alloc: Global, steps: &[Step], seen: &[u8], left: &[u8]) -> Result<bool, AllocError> {
    let mut disk = disk_of(alloc, b"abcdef")?;
    let stands = takes_all(&mut disk, steps) && disk.bytes() == seen;
    Ok(stands && disk.crash().bytes() == left)
}

/// Calls, the contents after them, and the contents that a crash leaves.
const CRASHES: &[(&[Step], &[u8], &[u8])] = &[
    (&[], b"abcdef", b"abcdef"),
    (
        &[Step::Write(1, b"XY"), Step::Write(6, b"gh")],
        b"aXYdefgh",
        b"a\xff\xffdef\xff\xff",
    ),
    (
        &[Step::Write(1, b"XY"), Step::Sync, Step::Write(5, b"Z")],
        b"aXYdeZ",
        b"aXYde\xff",
    ),
    (
        &[Step::Cut(2), Step::Write(2, b"X")],
        b"abX",
        b"ab\xff\xff\xff\xff",
    ),
    (&[Step::Cut(2), Step::Sync], b"ab", b"ab"),
];

#[test]
fn a_crash_leaves_writes_and_cuts_open_until_a_sync(rt: HostRuntime) -> Result<(), AllocError> {
    for (steps, seen, left) in CRASHES {
        assert!(rt; leaves(rt.alloc(), steps, seen, left)?, "{seen:?}");
    }
    Ok(())
}

/// Returns whether each call to the disk fails, and leaves the disk and the buffer of a read
/// unchanged.
fn stands_still(disk: &mut MemoryDisk) -> bool {
    let mut two = *b"..";
    let fails = disk.sync() == Err(DiskFault::Device)
        && disk.len() == Err(DiskFault::Device)
        && !write(disk, 0, b"YY")
        && !cut(disk, 0)
        && !read(disk, 0, &mut two);
    fails && &two == b".." && disk.bytes() == b"Xbcdef".as_slice()
}

/// Returns whether a disk that must stop after two calls, one of them a write, does so.
fn stops(disk: &mut MemoryDisk) -> bool {
    disk.stop_after(2);
    disk.len() == Ok(6) && write(disk, 0, b"X") && stands_still(disk)
}

/// Returns whether the disk that a crash left accepts calls, and can be stopped.
fn goes_on(mut disk: MemoryDisk) -> bool {
    let stands = disk.bytes() == b"\xffbcdef".as_slice() && disk.len() == Ok(6);
    disk.stop_after(0);
    stands && disk.len() == Err(DiskFault::Device)
}

#[test]
fn a_stopped_disk_fails_and_keeps_its_bytes(rt: HostRuntime) -> Result<(), AllocError> {
    let mut disk = disk_of(rt.alloc(), b"abcdef")?;
    assert!(rt; stops(&mut disk));
    assert!(rt; goes_on(disk.crash()));
    Ok(())
}
