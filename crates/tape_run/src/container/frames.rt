//! The items that bytes begin with, in the formats that are close to SIMH's.
ghost use Rattle.std.specs.Prelude.{◌≡◌, ◌≤◌, ◌<◌, ◌^◌, ◌++◌, length, IfSome, IfNone, drop};
ghost use Rattle.std.specs.Prelude.{◌∷◌, []};
ghost use Rattle.byteorder.specs.Endian.{little_number};
ghost use Rattle.tape_image.specs.Word.{block_len};
ghost use Rattle.tape_run.specs.ContainerFrames.{is_word_at, whole_len, whole_block, is_e11};
ghost use Rattle.tape_run.specs.ContainerFrames.{begins_block, is_extended, goes_on, is_marker};
ghost use Rattle.tape_run.specs.ContainerFrames.{is_record};
ghost use Rattle.tape_run.specs.ContainerFrames.{in_lf, begins_text};

use crate::container::marks::from;
use byteorder::{ByteOrder, LittleEndian};

/// The word of an erase gap.
const GAP: u32 = 0xFFFF_FFFE;

/// The word that marks the end of the medium.
const END: u32 = 0xFFFF_FFFF;

/// Returns the length of the block that a word begins.
fn block_len(word: u32) -> Option<usize>
    ensures is { result ≡ block_len word }
    ensures bound { IfSome result (λ len. len < 2 ^ 24) }
{
    let len = word % 0x0100_0000;
    let high = word / 0x0100_0000;
    if len == 0 || (high != 0 && high != 0x80) {
        return None;
    }
    Some(len as usize)
}

/// Returns whether the word `word` is at offset `place`.
fn is_word_at(bytes: &[u8], place: usize, word: u32) -> bool
    ensures { result ≡ is_word_at place word bytes.now }
{
    match bytes.get(place..) {
        Some(rest) => rest.len() >= 4 && LittleEndian::read_u32(rest) == word,
        None => false,
    }
}

/// Returns the length of the item that the bytes begin with, if it is whole: a mark, a gap, or a
/// block whose two words are equal.
pub(super) fn whole_len(bytes: &[u8]) -> Option<usize>
    ensures is { result ≡ whole_len bytes.now }
    ensures bound { IfSome result (λ len. len ≤ length bytes.now) }
{
    if bytes.len() < 4 {
        return None;
    }
    let word = LittleEndian::read_u32(bytes);
    if word == 0 || word == GAP {
        return Some(4);
    }
    whole_block(bytes, word)
}

/// Returns the length of the block after the word `word`, if the same word follows the block.
fn whole_block(bytes: &[u8], word: u32) -> Option<usize>
    ensures is { result ≡ whole_block word (block_len word) bytes.now }
    ensures bound { IfSome result (λ len. len ≤ length bytes.now) }
{
    let len = block_len(word)?;
    if is_word_at(bytes, 4 + len + len % 2, word) {
        Some(8 + len + len % 2)
    } else {
        None
    }
}

/// Returns whether the bytes begin with a whole block.
fn begins_block(bytes: &[u8]) -> bool
    ensures { result ≡ begins_block bytes.now }
{
    bytes.len() >= 4 && whole_block(bytes, LittleEndian::read_u32(bytes)).is_some()
}

/// Returns whether the bytes begin with a block of odd length, directly followed by its word.
pub(super) fn is_e11(bytes: &[u8]) -> bool
    ensures { result ≡ is_e11 bytes.now }
{
    if bytes.len() < 4 {
        return false;
    }
    let word = LittleEndian::read_u32(bytes);
    match block_len(word) {
        Some(len) => len % 2 == 1 && is_word_at(bytes, 4 + len, word),
        None => false,
    }
}

/// Returns whether the word is a marker of SIMH's extended format, or the word of a bad block of
/// which nothing is known.
fn is_marker(word: u32) -> bool
    ensures { result ≡ is_marker word }
{
    let class = word / 0x1000_0000;
    word != END && (class == 7 || class == 15 || word == 0x8000_0000)
}

/// Returns whether the word begins a record of SIMH's extended format.
fn is_record(word: u32) -> bool
    ensures { result ≡ is_record word }
{
    let class = word / 0x1000_0000;
    0 < class && class < 15 && class != 7
}

/// Returns whether the bytes begin with a whole block, or with a tape mark and a whole block.
fn goes_on(bytes: &[u8]) -> bool
    ensures { result ≡ goes_on bytes.now }
{
    begins_block(bytes) || (is_word_at(bytes, 0, 0) && begins_block(from(bytes, 4)))
}

/// Returns whether the bytes begin with a record of SIMH's extended format between two equal words,
/// or with a marker of that format that a whole block follows, or a tape mark and a whole block.
pub(super) fn is_extended(bytes: &[u8]) -> bool
    ensures { result ≡ is_extended bytes.now }
{
    if bytes.len() < 4 {
        return false;
    }
    let word = LittleEndian::read_u32(bytes);
    let len = (word % 0x1000_0000) as usize;
    (is_record(word) && is_word_at(bytes, 4 + len + len % 2, word))
        || (is_marker(word) && goes_on(from(bytes, 4)))
}

/// Returns the first byte, and the bytes after it, without each CR that an LF follows.
fn next_lf(bytes: &[u8]) -> Option<(u8, &[u8])>
    ensures some { IfSome result (λ next. in_lf bytes.now ≡ next.0 ∷ in_lf next.1.now) }
    ensures none { IfNone result (in_lf bytes.now ≡ []) }
{
    match bytes {
        [13, 10, rest @ ..] => Some((10, rest)),
        [byte, rest @ ..] => Some((*byte, rest)),
        [] => None,
    }
}

/// Returns the first word, without each CR that an LF follows.
fn word_lf(bytes: &[u8]) -> Option<u32>
    ensures word { IfSome result (λ word. word ≡ little_number 4 (in_lf bytes.now)) }
    ensures some { IfSome result (λ _. 4 ≤ length (in_lf bytes.now)) }
    ensures none { IfNone result (length (in_lf bytes.now) < 4) }
{
    let (a, rest) = next_lf(bytes)?;
    let (b, rest) = next_lf(rest)?;
    let (c, rest) = next_lf(rest)?;
    let (d, _) = next_lf(rest)?;
    Some(LittleEndian::read_u32(&[a, b, c, d]))
}

/// Passes over the first `count` bytes, without each CR that an LF follows.
#[tactic(auto, using(crate::proofs::ContainerSteps::drop_next))]
fn skip_lf(bytes: &[u8], count: usize) -> &[u8]
    ensures { in_lf result.now ≡ drop count (in_lf bytes.now) }
{
    let (mut rest, mut left) = (bytes, count);
    'bytes: while left > 0 {
        let Some((_, more)) = next_lf(rest) else {
            return rest;
        };
        rest = more;
        left -= 1;
    }
    rest
}

/// Returns whether the word `word` is at offset `place`, without each CR that an LF follows.
fn is_word_lf(bytes: &[u8], place: usize, word: u32) -> bool
    ensures { result ≡ is_word_at place word (in_lf bytes.now) }
{
    match word_lf(skip_lf(bytes, place)) {
        Some(found) => found == word,
        None => false,
    }
}

/// Returns whether the bytes begin with a block that is whole without each CR that an LF follows.
pub(super) fn begins_text(bytes: &[u8]) -> bool
    ensures { result ≡ begins_text bytes.now }
{
    let Some(word) = word_lf(bytes) else {
        return false;
    };
    match block_len(word) {
        Some(len) => is_word_lf(bytes, 4 + len + len % 2, word),
        None => false,
    }
}
