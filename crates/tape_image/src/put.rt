//! Writes bytes to a writer, however few of them the writer accepts at a time.

ghost use Rattle.std.specs.Prelude.{◌≡◌, ◌≤◌, length, take, replicate};
ghost use Rattle.byteorder.specs.Endian.{little_bytes};
ghost use Rattle.tape_image.specs.{Written.Writes, Written.written_block, Word.longest_block};

use crate::item::ImageWriteFault;
use byteorder::{ByteOrder, LittleEndian};
use std::io::Write;

/// The length of the longest block that is assembled in memory before it is written. A buffered
/// writer then receives the block in one call instead of three.
const SHORT: usize = 119;

/// The size of the encoding of a block of `SHORT` bytes, with its two words and its pad byte.
const SPELLED: usize = SHORT + 9;

/// Writes all of `bytes`, or a prefix of them if the writer fails.
///
/// Unlike std's `write_all`, does not call an interrupted writer again.
///
/// # Errors
///
/// Returns `Device` if the writer returns an error, even an interruption, or accepts none of the
/// remaining bytes.
#[inline(always)]
pub fn write_bytes<W: Write>(device: &mut W, bytes: &[u8]) -> Result<(), ImageWriteFault>
    ensures { Writes (W.contents device.old) (W.contents device.new) bytes.now result }
{
    let mut rest = bytes;
    'writes: while !rest.is_empty() {
        match device.write(rest) {
            Ok(0) => return Err(ImageWriteFault::Device),
            Ok(n) => rest = &rest[n..],
            Err(_) => return Err(ImageWriteFault::Device),
        }
    }
    Ok(())
}

/// Writes a word, least significant byte first.
pub(crate) fn put_word<W: Write>(device: &mut W, word: u32) -> Result<(), ImageWriteFault>
    ensures { Writes (W.contents device.old) (W.contents device.new) (little_bytes 4 word) result }
{
    let mut bytes = [0u8; 4];
    LittleEndian::write_u32(&mut bytes, word);
    write_bytes(device, &bytes)
}

/// Writes the last word, and flushes the writer.
pub(crate) fn put_last<W: Write>(device: &mut W, word: u32) -> Result<(), ImageWriteFault>
    ensures { Writes (W.contents device.old) (W.contents device.new) (little_bytes 4 word) result }
{
    put_word(device, word)?;
    match device.flush() {
        Ok(()) => Ok(()),
        Err(_) => Err(ImageWriteFault::Device),
    }
}

/// Writes a block: its word, its bytes, a pad byte if their number is odd, and its word again.
pub(crate) fn put_block<W: Write>(device: &mut W, content: &[u8]) -> Result<(), ImageWriteFault>
    requires { length content.now ≤ longest_block }
    ensures { Writes (W.contents device.old) (W.contents device.new)
        (written_block content.now) result }
{
    if content.len() <= SHORT {
        let mut spelled = [0u8; SPELLED];
        let size = spell(&mut spelled, content);
        return write_bytes(device, &spelled[..size]);
    }
    let word = content.len() as u32;
    let pad = [0u8; 1];
    put_word(device, word)?;
    write_bytes(device, content)?;
    write_bytes(device, &pad[..content.len() % 2])?;
    put_word(device, word)
}

/// Encodes a short block at the start of an array of zeros, and returns the length of the encoding.
fn spell(spelled: &mut [u8; SPELLED], content: &[u8]) -> usize
    requires short { length content.now ≤ 119 }
    requires clear { spelled.old ≡ replicate 128 0 }
    ensures fits { result ≤ 128 }
    ensures spelled { take result spelled.new ≡ written_block content.now }
{
    let mut word = [0u8; 4];
    LittleEndian::write_u32(&mut word, content.len() as u32);
    let end = 4 + content.len() + content.len() % 2;
    spelled[..4].copy_from_slice(&word);
    spelled[4..4 + content.len()].copy_from_slice(content);
    spelled[end..end + 4].copy_from_slice(&word);
    end + 4
}
