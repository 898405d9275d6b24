//! The first bytes of an image, by which its kind is recognised.
ghost use Rattle.std.specs.Prelude.{◌≡◌, ◌≤◌, length, take, IfOk};
ghost use Rattle.std.specs.Io.KnownBytes.{Consumes};

use crate::container::KIND_BYTES;
use std::alloc::{AllocError, Global};
use std::io::Read;

/// Fills the buffer from its start until it is full, the reader is at its end, or a read fails.
/// Returns the number of bytes read.
fn fill_front<R: Read>(reader: &mut R, buffer: &mut [u8]) -> usize
    ensures within { result ≤ length buffer.new }
    ensures taken { Consumes (R.remaining reader.old) (R.remaining reader.new)
        (take result buffer.new) }
{
    let mut at = 0;
    'reads: while at < buffer.len() {
        match reader.read(&mut buffer[at..]) {
            Ok(0) => return at,
            Ok(n) => at += n,
            Err(_) => return at,
        }
    }
    at
}

/// Reads the first `KIND_BYTES` bytes of an image, or as many as there are before its end or an
/// error of the reader.
pub(super) fn read_front<R: Read>(alloc: Global, reader: &mut R) -> Result<Vec<u8>, AllocError>
    ensures taken { IfOk result
        (λ front. Consumes (R.remaining reader.old) (R.remaining reader.new) front.items) }
    ensures bound { IfOk result (λ front. length front.items ≤ 36864) }
{
    let mut front = Vec::from_elem(alloc, 0u8, KIND_BYTES)?;
    let end = fill_front(reader, front.as_mut_slice());
    front.truncate(end);
    Ok(front)
}
