//! The search for a place at which items begin again.

ghost use Rattle.std.specs.Prelude.{◌≡◌, ◌≤◌, length, IfSome};
ghost use Rattle.tape_image.specs.Resync.{place_again, whole_block, begins_again, continues};
ghost use Rattle.tape_image.specs.Resync.{again_behind, found};
ghost use Rattle.tape_image.specs.{Word.block_len};

use crate::block::{END, GAP, LONGEST_BLOCK, MARK};
use byteorder::{ByteOrder, LittleEndian};

/// The number of places at which an item is looked for.
const SEARCHED: usize = 262_144;

/// Returns where items begin again. The bytes `front`, all that are left of an image or the first
/// of them, begin at the place of a fault. Returns `None` if they do not, or if there is no such
/// place nearby.
pub(crate) fn place_again(front: &[u8]) -> Option<usize>
    ensures { result ≡ place_again front.now }
{
    if front.len() < 4 {
        return None;
    }
    let word = LittleEndian::read_u32(front);
    let Some(len) = block_len(word) else {
        return match word {
            MARK | GAP | END => None,
            _ => found(front),
        };
    };
    let size = 8 + len + len % 2;
    if front.len() < size {
        // The image ends in the block.
        return None;
    }
    if LittleEndian::read_u32(&front[size - 4..]) == word {
        return None;
    }
    if again_behind(&front[size..]) {
        return Some(size);
    }
    found(front)
}

/// Returns the length of the block that a word begins.
fn block_len(word: u32) -> Option<usize>
    ensures { result ≡ block_len word }
{
    let len = word % 0x0100_0000;
    let high = word / 0x0100_0000;
    if len == 0 || (high != 0 && high != 0x80) {
        return None;
    }
    Some(len as usize)
}

/// Returns the number of bytes of the block that the bytes begin with, if it has up to 99,999 bytes
/// and two equal words.
fn whole_block(bytes: &[u8]) -> Option<usize>
    ensures is { result ≡ whole_block bytes.now }
    ensures within { IfSome result (λ size. size ≤ length bytes.now) }
{
    if bytes.len() < 4 {
        return None;
    }
    let word = LittleEndian::read_u32(bytes);
    let len = block_len(word)?;
    let size = 8 + len + len % 2;
    if len > LONGEST_BLOCK as usize || bytes.len() < size {
        return None;
    }
    if LittleEndian::read_u32(&bytes[size - 4..]) == word {
        Some(size)
    } else {
        None
    }
}

/// Returns whether the bytes may be what follows a block: another one, a tape mark, an erase gap,
/// or the end of the medium.
fn continues(bytes: &[u8]) -> bool
    ensures { result ≡ continues bytes.now }
{
    if bytes.len() < 4 {
        return bytes.is_empty();
    }
    let word = LittleEndian::read_u32(bytes);
    word == MARK || word == GAP || word == END || whole_block(bytes).is_some()
}

/// Returns whether items begin again here: a whole block does, and what follows it may follow a
/// block.
fn begins_again(bytes: &[u8]) -> bool
    ensures { result ≡ begins_again bytes.now }
{
    match whole_block(bytes) {
        Some(size) => continues(&bytes[size..]),
        None => false,
    }
}

/// Returns whether items begin again here, or after a tape mark.
fn again_behind(bytes: &[u8]) -> bool
    ensures { result ≡ again_behind bytes.now }
{
    if bytes.len() >= 4 && LittleEndian::read_u32(bytes) == MARK {
        begins_again(&bytes[4..])
    } else {
        begins_again(bytes)
    }
}

/// Looks for the first place at which items begin again, but for the first byte.
fn found(front: &[u8]) -> Option<usize>
    ensures { result ≡ found front.now }
{
    let end = front.len().min(SEARCHED);
    'places: for at in 1..end {
        if begins_again(&front[at..]) {
            return Some(at);
        }
    }
    None
}
