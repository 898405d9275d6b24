//! Tests of files used as disks.

use crate::fixtures::*;
use std::fs::{File, Metadata, OpenFile, OpenOptions};
use std::io::{ErrorKind, Read, Seek, SeekFrom, Write};
use std::test::*;
use std::{fs, io};
use tape_core::Checkpoint;
use tape_stage::{BufferedFile, Disk, DiskFault, FileDisk, Stage, buffered_file};

/// Opens the file at `path` for reading and writing, and creates it if it does not exist.
fn open(rt: &HostRuntime, path: &str) -> io::Result<File> {
    let mut options = OpenOptions::new();
    options.read(true).write(true).create(true);
    options.open(rt, path)
}

/// Creates a stage in a new file.
fn made_in(rt: &HostRuntime, path: &str) -> Option<Stage<BufferedFile<File>>> {
    let Ok(mut disk) = buffered_file(rt.alloc(), open(rt, path).ok()?) else {
        return None;
    };
    match disk.len() {
        Ok(0) => Stage::create(rt.alloc(), disk, &start()).ok(),
        _ => None,
    }
}

/// Opens the stage in an existing file.
fn opened_in(rt: &HostRuntime, path: &str) -> Option<(Stage<BufferedFile<File>>, Checkpoint)> {
    let Ok(disk) = buffered_file(rt.alloc(), open(rt, path).ok()?) else {
        return None;
    };
    Stage::open_disk(rt.alloc(), disk).ok()
}

/// Returns the size of the file in bytes.
fn size_of(rt: &HostRuntime, path: &str) -> io::Result<usize> {
    Ok(fs::read(rt, path)?.len())
}

/// Leaves a file with one acknowledged part, followed by one that is not acknowledged. Returns the
/// length of the file while the second part is buffered, and after the parts were read.
fn leave_two_parts(
    rt: &HostRuntime,
    path: &str,
    one: &Checkpoint,
) -> io::Result<Option<(usize, usize)>> {
    let Some(mut stage) = made_in(rt, path) else {
        return Ok(None);
    };
    let done = put(&mut stage, b'a') && save(&mut stage, one) && put(&mut stage, b'b');
    let held = size_of(rt, path)?;
    let read = matches!(stage.parts().next(), Ok(Some(_)));
    drop(stage);
    let sizes = (held, size_of(rt, path)?);
    Ok(if done && read { Some(sizes) } else { None })
}

/// Returns whether the file opens with the checkpoint `one`, and returns the one part that `one`
/// counts.
fn opens_with_one_part(rt: &HostRuntime, path: &str, one: &Checkpoint) -> bool {
    match opened_in(rt, path) {
        Some((mut stage, point)) => point == *one && holds(&mut stage, b"a"),
        None => false,
    }
}

#[test]
fn a_stage_in_a_file(rt: HostRuntime) -> Result<(), Fail> {
    let path = "a_stage_in_a_file.stage";
    let _ = fs::remove_file(&rt, path);
    let Some(one) = in_front(1, 85) else {
        return Err(Fail::from("a checkpoint"));
    };
    assert!(rt; leave_two_parts(&rt, path, &one)? == Some((341, 426)));
    assert!(rt; opens_with_one_part(&rt, path, &one));
    let bytes = fs::read(&rt, path)?;
    assert!(rt; bytes.len() == 341);
    let there: [(usize, &[u8]); 3] = [
        (0, b"O000000000000001TPCK2"),
        (128, b"O000000000000002TPCK2"),
        (256, b"0\x00\x00\x00\x50aa"),
    ];
    stand(&rt, &bytes, &there);
    Ok(())
}

/// A file whose four bytes begin at offset `from`. Each call moves one byte until no move is left;
/// every later call is interrupted.
#[derive(Drop)]
struct Slow {
    from: u64,
    bytes: [u8; 4],
    at: usize,
    left: u8,
}

impl Slow {
    /// Returns the offset of the next byte, if a call is left.
    fn step(&mut self) -> io::Result<usize> {
        if self.left == 0 {
            return Err(io::Error::from(ErrorKind::Interrupted));
        }
        self.left -= 1;
        let at = self.at;
        self.at = at.saturating_add(1);
        Ok(at)
    }
}

impl Read for Slow {
    fn read(&mut self, buf: &mut [u8]) -> io::Result<usize> {
        let at = self.step()?;
        if at >= 4 || buf.is_empty() {
            return Ok(0);
        }
        buf[0] = self.bytes[at];
        Ok(1)
    }
}

impl Write for Slow {
    fn write(&mut self, buf: &[u8]) -> io::Result<usize> {
        let at = self.step()?;
        if at >= 4 || buf.is_empty() {
            return Ok(0);
        }
        self.bytes[at] = buf[0];
        Ok(1)
    }

    fn flush(&mut self) -> io::Result<()> {
        Ok(())
    }
}

impl Seek for Slow {
    fn seek(&mut self, to: SeekFrom) -> io::Result<u64> {
        match to {
            SeekFrom::Start(at) => {
                self.at = at.saturating_sub(self.from).min(4) as usize;
                Ok(at)
            }
            SeekFrom::End(_) => Ok(self.from.saturating_add(4)),
            SeekFrom::Current(_) => Err(io::Error::from(ErrorKind::Unsupported)),
        }
    }
}

impl OpenFile for Slow {
    fn metadata(&self) -> io::Result<Metadata> {
        Err(io::Error::from(ErrorKind::Unsupported))
    }

    fn set_len(&self, size: u64) -> io::Result<()> {
        if size == 0 {
            return Ok(());
        }
        Err(io::Error::from(ErrorKind::Interrupted))
    }

    fn sync_all(&self) -> io::Result<()> {
        if self.left == 0 {
            return Err(io::Error::from(ErrorKind::Interrupted));
        }
        Ok(())
    }

    fn sync_data(&self) -> io::Result<()> {
        Err(io::Error::from(ErrorKind::Unsupported))
    }
}

fn four_bytes(from: u64, left: u8) -> Slow {
    Slow {
        from,
        bytes: *b"abcd",
        at: 0,
        left,
    }
}

/// Reads the first bytes of a slow file with `left` moves left. Returns whether the read succeeds.
fn read_slowly(left: u8, buf: &mut [u8]) -> bool {
    match FileDisk::new(four_bytes(0, left)) {
        Ok(mut disk) => read(&mut disk, 0, buf),
        Err(_) => false,
    }
}

/// Returns a slow file after writing `bytes` at its second byte and a sync, with `left` moves left.
fn write_slowly(left: u8, bytes: &[u8]) -> Option<[u8; 4]> {
    let Ok(mut disk) = FileDisk::new(four_bytes(0, left)) else {
        return None;
    };
    let kept = write(&mut disk, 1, bytes) && disk.sync().is_ok();
    if kept {
        Some(disk.into_file().bytes)
    } else {
        None
    }
}

#[test]
fn short_reads_and_writes_are_gone_on_with(rt: HostRuntime) {
    let mut three = [0; 3];
    assert!(rt; read_slowly(3, &mut three));
    assert!(rt; &three == b"abc");
    assert!(rt; write_slowly(3, b"XY") == Some(*b"aXYd"));
}

#[test]
fn interruptions_and_ends_are_failures(rt: HostRuntime) {
    let mut three = [0; 3];
    assert!(rt; !read_slowly(2, &mut three));
    assert!(rt; write_slowly(1, b"XY").is_none());
    // The fifth byte cannot be written.
    assert!(rt; write_slowly(9, b"WXYZ").is_none());
}

#[test]
fn the_length_and_a_sync_take_no_move(rt: HostRuntime) {
    let Ok(mut disk) = FileDisk::new(four_bytes(0, 1)) else {
        assert!(rt; false);
        return;
    };
    assert!(rt; disk.len() == Ok(4));
    assert!(rt; disk.sync() == Ok(()));
}

#[test]
fn the_length_is_counted(rt: HostRuntime) {
    let Ok(mut disk) = FileDisk::new(four_bytes(0, 9)) else {
        assert!(rt; false);
        return;
    };
    assert!(rt; disk.len() == Ok(4));
    // This file can only be truncated to length 0. Before a failure it need not be cut to its own
    // length.
    assert!(rt; cut(&mut disk, 4) && !cut(&mut disk, 3) && !cut(&mut disk, 4));
    assert!(rt; disk.len() == Ok(4));
    assert!(rt; cut(&mut disk, 0) && disk.len() == Ok(0));
    assert!(rt; write(&mut disk, 0, b"ab") && disk.len() == Ok(2));
}

/// An offset that does not fit in 32 bits.
const FAR: u64 = 5_000_000_000;

#[test]
fn a_file_of_five_gigabytes(rt: HostRuntime) {
    let Ok(mut disk) = FileDisk::new(four_bytes(FAR, 9)) else {
        assert!(rt; false);
        return;
    };
    let mut two = [0; 2];
    assert!(rt; disk.len() == Ok(FAR + 4) && read(&mut disk, FAR + 1, &mut two));
    assert!(rt; &two == b"bc");
    assert!(rt; write(&mut disk, FAR + 2, b"XY") && disk.into_file().bytes == *b"abXY");
}
