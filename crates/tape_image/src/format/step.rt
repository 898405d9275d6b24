//! What is done with the item that the bytes of an image begin with.

ghost use Rattle.std.specs.Prelude.{◌≡◌, ◌≤◌, length};
ghost use Rattle.tape_image.specs.Format.{step_of, short, instead, word_alone, e11_step};
ghost use Rattle.tape_image.specs.Format.{extended_step, class_step, aws_step, aws_block};
ghost use Rattle.tape_image.specs.Format.{keep, word_behind};
ghost use Rattle.tape_image.specs.FormatState.{IsWithin};
ghost use Rattle.tape_image.specs.{Word.block_len};

use crate::block::{END, GAP, MARK};
use crate::format::ImageFormat;
use byteorder::{ByteOrder, LittleEndian};

/// A few bytes of an image.
#[derive(Clone, Copy)]
pub(crate) enum Piece {
    /// No bytes.
    Nothing,
    /// The byte 0.
    Zero,
    /// A word.
    Word(u32),
    /// The byte 0, and a word.
    ZeroWord(u32),
    /// A bad block.
    Bad,
}

/// Bytes that are given on: so many, a piece, and so many more.
#[derive(Clone, Copy)]
pub(crate) struct Passed {
    pub(crate) count: u64,
    pub(crate) tail: Piece,
    pub(crate) last: u64,
}

/// What is given for an item: a piece instead of its first `taken` bytes, and the bytes that
/// follow. Behind it, the length of the block before is `before`.
#[derive(Clone, Copy)]
pub(crate) struct Given {
    pub(crate) front: Piece,
    pub(crate) taken: usize,
    pub(crate) passed: Passed,
    pub(crate) before: u32,
}

/// What is done with an item.
#[derive(Clone, Copy)]
pub(crate) enum Step {
    /// The image ends with a piece.
    Stop(Piece),
    /// Bytes are given for the item.
    Give(Given),
    /// The word, this number of bytes, and the same word again are left out.
    Leave(u64, u32),
    /// The header of a chunk is left out, and the bytes of the chunk are kept.
    Keep(Chunk),
}

/// A chunk of an AWS block: its length, and whether the block ends with it.
#[derive(Clone, Copy)]
pub(crate) struct Chunk {
    pub(crate) count: u32,
    pub(crate) last: bool,
}

/// No bytes.
const NOTHING: Passed = Passed {
    count: 0,
    tail: Piece::Nothing,
    last: 0,
};

/// The word of a half of an erase gap.
const HALF_GAP: u32 = 0xFFFE_FFFF;

/// The word of a bad block of which nothing is known.
const BAD_ALONE: u32 = 0x8000_0000;

/// The word that is given for bytes that are not a header.
const NO_HEADER: u32 = 0x7FFF_FFFF;

/// Returns what is done with the item that the bytes `front` begin with, all that there are or the
/// first eight, after a chunk of `before` bytes; `begun` says whether the block of that chunk
/// continues.
pub(crate) fn next_step(format: ImageFormat, before: u32, begun: bool, front: &[u8]) -> Step
    ensures is { result ≡ step_of format before begun front.now }
    ensures within { IsWithin front.now result }
{
    match format {
        ImageFormat::Extended => extended_step(front),
        ImageFormat::E11 => e11_step(front),
        ImageFormat::Aws => aws_step(before, begun, front),
    }
}

/// Returns what is done with bytes that are too few for an item.
fn short(front: &[u8]) -> Step
    ensures { result ≡ short front.now }
{
    if front.is_empty() {
        Step::Stop(Piece::Nothing)
    } else {
        Step::Stop(Piece::Zero)
    }
}

/// Returns what is done with an item that takes `taken` bytes, and for which a piece is given.
fn instead(front: Piece, taken: usize) -> Step
    ensures { result ≡ instead front taken }
{
    Step::Give(Given {
        front,
        taken,
        passed: NOTHING,
        before: 0,
    })
}

/// Returns what is done with an item that is only its word: a tape mark or an erase gap, or the end
/// of the image.
fn word_alone(word: u32) -> Step
    ensures { result ≡ word_alone word }
{
    if word == MARK || word == GAP {
        instead(Piece::Word(word), 4)
    } else {
        Step::Stop(Piece::Word(word))
    }
}

/// Returns the length of the block that a word begins.
fn block_len(word: u32) -> Option<u64>
    ensures { result ≡ block_len word }
{
    let len = word % 0x0100_0000;
    let high = word / 0x0100_0000;
    if len == 0 || (high != 0 && high != 0x80) {
        return None;
    }
    Some(u64::from(len))
}

/// Returns what is done with a block of the E11 format.
fn e11_step(front: &[u8]) -> Step
    ensures is { result ≡ e11_step front.now }
    ensures within { IsWithin front.now result }
{
    if front.len() < 4 {
        return short(front);
    }
    let word = LittleEndian::read_u32(front);
    let Some(len) = block_len(word) else {
        return word_alone(word);
    };
    let tail = if len % 2 == 1 {
        Piece::Zero
    } else {
        Piece::Nothing
    };
    Step::Give(Given {
        front: Piece::Word(word),
        taken: 4,
        passed: Passed {
            count: len,
            tail,
            last: 4,
        },
        before: 0,
    })
}

/// Returns what is done with an item of SIMH's extended format.
fn extended_step(front: &[u8]) -> Step
    ensures is { result ≡ extended_step front.now }
    ensures within { IsWithin front.now result }
{
    if front.len() < 4 {
        return short(front);
    }
    let word = LittleEndian::read_u32(front);
    let Some(len) = block_len(word) else {
        return class_step(word, &front[4..]);
    };
    Step::Give(Given {
        front: Piece::Word(word),
        taken: 4,
        passed: Passed {
            count: len + len % 2 + 4,
            tail: Piece::Nothing,
            last: 0,
        },
        before: 0,
    })
}

/// Returns what is done with the item of the extended format that the word `word` begins, which is
/// not a block, and before the bytes `next`.
fn class_step(word: u32, next: &[u8]) -> Step
    ensures { result ≡ class_step word next.now }
{
    if word == BAD_ALONE {
        let again = next.len() >= 4 && LittleEndian::read_u32(next) == word;
        return instead(Piece::Bad, if again { 8 } else { 4 });
    }
    if word == HALF_GAP {
        let half = next.starts_with(&[0xFF, 0xFF]);
        return instead(Piece::Nothing, if half { 2 } else { 4 });
    }
    match word / 0x1000_0000 {
        _ if word == GAP || word == END => word_alone(word),
        0 | 8 => word_alone(word),
        7 | 15 => instead(Piece::Nothing, 4),
        _ => {
            let len = u64::from(word % 0x1000_0000);
            Step::Leave(len + len % 2, word)
        }
    }
}

/// Returns the word after a block of `len` bytes, which a pad byte precedes if their number is odd.
pub(crate) fn word_behind(len: u32) -> Piece
    ensures { result ≡ word_behind len }
{
    if len % 2 == 1 {
        Piece::ZeroWord(len)
    } else {
        Piece::Word(len)
    }
}

/// Returns what is done with an AWS block of `len` bytes in one chunk.
fn aws_block(len: u32) -> Step
    ensures { result ≡ aws_block len }
{
    Step::Give(Given {
        front: Piece::Word(len),
        taken: 6,
        passed: Passed {
            count: u64::from(len),
            tail: word_behind(len),
            last: 0,
        },
        before: len,
    })
}

/// Returns what is done with a chunk of `count` bytes.
fn keep(count: u32, last: bool) -> Step
    ensures { result ≡ keep count last }
{
    Step::Keep(Chunk { count, last })
}

/// Returns what is done with the AWS header `front` after a chunk of `before` bytes; `begun` says
/// whether the block of that chunk continues.
fn aws_step(before: u32, begun: bool, front: &[u8]) -> Step
    ensures is { result ≡ aws_step before begun front.now }
    ensures within { IsWithin front.now result }
{
    if front.len() < 6 {
        return if begun {
            Step::Stop(Piece::Zero)
        } else {
            short(front)
        };
    }
    let len = u32::from(LittleEndian::read_u16(front));
    let previous = u32::from(LittleEndian::read_u16(&front[2..]));
    let flags = LittleEndian::read_u16(&front[4..]);
    if !begun && len == 0 && previous == 0 && flags == 0 {
        return Step::Stop(Piece::Nothing);
    }
    if previous != before {
        return Step::Stop(Piece::Word(NO_HEADER));
    }
    match (begun, flags) {
        (false, 0x40) if len == 0 => instead(Piece::Word(MARK), 6),
        (false, 0xA0) if len > 0 => aws_block(len),
        (false, 0x80) | (true, 0) if len > 0 => keep(len, false),
        (true, 0x20) if len > 0 => keep(len, true),
        _ => Step::Stop(Piece::Word(NO_HEADER)),
    }
}
