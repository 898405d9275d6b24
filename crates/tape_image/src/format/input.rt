//! The bytes of a device that come next, and those of a block that are kept.

ghost use Rattle.std.specs.Prelude.{◌<◌, ◌+◌, ◌≤◌, ◌≡◌, length, take, IfOk, IfSome, vec_len};
ghost use Rattle.std.specs.Prelude.{vec_capacity};
ghost use Rattle.std.specs.{Io.ReadsAtMost, Io.KnownBytes.ReadConsumes};
ghost use Rattle.std.specs.Io.KnownBytes.{Keeps, prepend_known};
ghost use Rattle.tape_image.specs.Format.{step_of, with_more};
ghost use Rattle.tape_image.specs.FormatState.{IsWithin, KeepsOf};

use crate::format::ImageFormat;
use crate::format::few::Few;
use crate::format::step::{Step, next_step};
use std::io;
use std::io::{ErrorKind, Read};

/// The number of bytes by which an item is recognised.
const SHOWN: usize = 8;

/// A device, and the bytes that were read from it and have not been taken.
#[derive(Drop)]
pub(crate) struct Input<R> {
    pub(crate) device: R,
    pub(crate) held: Few,
}

impl<R: Read> Input<R> {
    /// Looks at the next item, which follows a chunk of `before` bytes; `begun` says whether the
    /// block of that chunk continues.
    pub(super) fn peek(&mut self, format: ImageFormat, before: u32, begun: bool) -> io::Result<Step>
        ensures keeps { Keeps (prepend_known self.old.held (R.remaining self.old.device))
            (prepend_known self.new.held (R.remaining self.new.device)) }
        ensures seen { IfOk result (λ seen. IfSome
            (prepend_known self.new.held (R.remaining self.new.device))
            (λ xs. seen ≡ step_of format before begun (take 8 xs))) }
        ensures within { IfOk result (λ seen. IsWithin self.new.held seen) }
    {
        self.held.fill(&mut self.device, SHOWN)?;
        let held = self.held.bytes();
        Ok(next_step(format, before, begun, &held[..held.len().min(SHOWN)]))
    }
}

impl<R: Read> Read for Input<R> {
    ghost remaining = { λ s. prepend_known s.held (R.remaining s.device) };

    fn read(&mut self, buf: &mut [u8]) -> io::Result<usize> {
        if self.held.bytes().is_empty() {
            return self.device.read(buf);
        }
        Ok(self.held.take(buf))
    }
}

/// Reads up to `count` bytes, keeps those for which there is room, and returns their number.
///
/// # Errors
///
/// Returns the error of the device, or `OutOfMemory`. Nothing was read.
pub(super) fn keep_some<R: Read>(
    device: &mut R,
    kept: &mut Vec<u8>,
    count: u64,
) -> io::Result<usize>
    requires { 0 < count }
    ensures { KeepsOf (R.remaining device.old) (R.remaining device.new) count
        kept.old.items kept.new.items result }
{
    let mut waste = [0u8; 512];
    match kept.reserve(512) {
        Ok(()) => {}
        Err(_) => return Err(io::Error::from(ErrorKind::OutOfMemory)),
    }
    let most = count.min(512) as usize;
    let read = device.read(&mut waste[..most])?;
    add(kept, &waste[..read]);
    Ok(read)
}

/// The number of bytes of a block that are kept: as many as the longest has, and one more.
const ROOM: usize = 100_000;

/// Appends those of the bytes for which there is room.
fn add(kept: &mut Vec<u8>, bytes: &[u8])
    requires { vec_len kept.old + length bytes.now ≤ vec_capacity kept.old }
    ensures { kept.new.items ≡ with_more kept.old.items bytes.now }
{
    let room = ROOM.saturating_sub(kept.len());
    let count = bytes.len().min(room);
    match kept.extend_from_slice(&bytes[..count]) {
        Ok(()) => {}
        Err(_) => unreachable!(),
    }
}
