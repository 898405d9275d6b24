//! The next bytes of a device.

ghost use Rattle.std.specs.Prelude.{◌≡◌, ◌+◌, ◌≤◌, ◌<◌, length, IfOk, true, false};
ghost use Rattle.std.specs.Io.KnownBytes.{Keeps, IsAtEnd, prepend_known};

use std::io;
use std::io::{ErrorKind, Read};

/// The number of bytes that are read at once.
const PIECE: usize = 4096;

/// Reads more bytes behind those in `held`, and returns their number, which is 0 only if the device
/// is at its end.
///
/// # Errors
///
/// Returns the error of the device, or `OutOfMemory`. Nothing was read.
fn read_more<R: Read>(held: &mut Vec<u8>, device: &mut R) -> io::Result<usize>
    ensures keeps { Keeps (prepend_known held.old.items (R.remaining device.old))
        (prepend_known held.new.items (R.remaining device.new)) }
    ensures more { IfOk result (λ count. length held.new.items ≡ length held.old.items + count) }
    ensures end { IfOk result (λ count. count ≡ 0 → IsAtEnd (R.remaining device.new)) }
{
    let mut piece = [0u8; PIECE];
    match held.reserve(PIECE) {
        Ok(()) => {}
        Err(_) => return Err(io::Error::from(ErrorKind::OutOfMemory)),
    }
    let read = device.read(&mut piece)?;
    match held.extend_from_slice(&piece[..read]) {
        Ok(()) => {}
        Err(_) => unreachable!(),
    }
    Ok(read)
}

/// Reads until `held` has `count` bytes, and returns false if the device ends before that. What was
/// read before an error is kept.
///
/// # Errors
///
/// Returns the error of the device, or `OutOfMemory`.
pub(super) fn fill_window<R: Read>(
    held: &mut Vec<u8>,
    device: &mut R,
    count: usize,
) -> io::Result<bool>
    ensures keeps { Keeps (prepend_known held.old.items (R.remaining device.old))
        (prepend_known held.new.items (R.remaining device.new)) }
    ensures all { IfOk result (λ whole. whole ≡ true → count ≤ length held.new.items) }
    ensures end { IfOk result (λ whole. whole ≡ false
        → (length held.new.items < count) × IsAtEnd (R.remaining device.new)) }
{
    'bytes: for _ in 0..u64::MAX {
        if held.len() >= count {
            return Ok(true);
        }
        if read_more(held, device)? == 0 {
            return Ok(false);
        }
    }
    Err(io::Error::from(ErrorKind::Other))
}
