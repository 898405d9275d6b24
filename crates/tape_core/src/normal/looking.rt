//! Looks at the item that the bytes of an image begin with.

ghost use Rattle.std.specs.Prelude.{◌≡◌, ◌≤◌, ◌<◌, length, IfSome};
ghost use Rattle.tape_image.specs.Word.{block_len, block_extent, longest_block};
ghost use Rattle.tape_core.specs.NormalForm.Bytes.{reads_labels, begins_label, unlabelled};
ghost use Rattle.tape_core.specs.NormalForm.Bytes.{block_step, looked, looked_label, looked_block};
ghost use Rattle.tape_core.specs.NormalForm.{Bytes.within, Steps.counted_at};
ghost use Rattle.byteorder.specs.Endian.{little_number};
ghost use Rattle.std.specs.Prelude.{true, false};

use crate::normal::code::is_label_length;
use crate::normal::machine::{Change, Replacement, SAME, TapePlace, step};
use byteorder::{ByteOrder, LittleEndian};
use tape_image::Item;

/// The blocks whose content need not be known, by their length. Longer ones are like the longest.
const OTHER: &[u8; 121] = &[0; 121];

/// The word of an erase gap.
const GAP: u32 = 0xFFFF_FFFE;

/// The length of the longest block. A longer block is bad.
const LONGEST_BLOCK: u32 = 99_999;

/// An item that was looked at: the number of bytes it takes, what is expected after it, and what
/// replaces it.
pub(crate) struct Looked {
    pub(crate) size: u64,
    pub(crate) next: TapePlace,
    pub(crate) change: Change,
}

/// Returns the place after a block of data.
pub(crate) fn counted(place: TapePlace) -> TapePlace
    ensures { result ≡ counted_at place }
{
    match place {
        TapePlace::Data(code, seen) => TapePlace::Data(code, seen.counted()),
        place => place,
    }
}

/// Returns whether labels are read at the place.
fn reads_labels(place: TapePlace) -> bool
    ensures { result ≡ reads_labels place }
{
    !matches!(place, TapePlace::Data(_, _) | TapePlace::Over)
}

/// Returns whether the bytes begin with the word of a block that can be a label, where labels are
/// read.
fn begins_label(place: TapePlace, bytes: &[u8]) -> bool
    requires { 4 ≤ length bytes.now }
    ensures { result ≡ begins_label place bytes.now }
{
    reads_labels(place) && is_label_length(u64::from(LittleEndian::read_u32(bytes)))
}

/// Returns how many bytes of the item that these bytes begin with must be known.
pub(crate) fn size_looked_at(place: TapePlace, bytes: &[u8]) -> usize
    requires { 4 ≤ length bytes.now }
    ensures label { begins_label place bytes.now ≡ true
        → result ≡ block_extent (little_number 4 bytes.now) }
    ensures other { begins_label place bytes.now ≡ false → result ≡ 4 }
    ensures most { result ≤ 128 }
{
    if begins_label(place, bytes) {
        let len = LittleEndian::read_u32(bytes) as usize;
        8 + len + len % 2
    } else {
        4
    }
}

/// Returns what is done with an item whose content is not known: no label replaces it.
fn unlabelled(step: (TapePlace, Change)) -> (TapePlace, Change)
    ensures { result ≡ unlabelled step }
{
    let (next, change) = step;
    let instead = match change.instead {
        Replacement::Label(_) => Replacement::Same,
        instead => instead,
    };
    let change = Change {
        missing: change.missing,
        instead,
    };
    (next, change)
}

/// Returns what the machine does with the block that the word `word` begins.
fn step_block(place: TapePlace, word: u32, len: u64) -> (TapePlace, Change)
    ensures { result ≡ block_step place word len }
{
    if word > LONGEST_BLOCK {
        return unlabelled(step(place, Item::Bad));
    }
    let shown = len.min(121) as usize;
    unlabelled(step(place, Item::Block(&OTHER[..shown])))
}

/// Returns what was seen of an item of `size` bytes, if it ends within the limit.
fn within(room: u64, size: u64, step: (TapePlace, Change)) -> Option<Looked>
    ensures { result ≡ within room size step }
{
    if room < size {
        return None;
    }
    let (next, change) = step;
    Some(Looked { size, next, change })
}

/// Looks at the label of `word` bytes that the bytes begin with, if its two words agree.
fn look_label(room: u64, place: TapePlace, word: u32, bytes: &[u8]) -> Option<Looked>
    requires { word ≤ 120 }
    ensures { result ≡ looked_label room place word bytes.now }
{
    let len = word as usize;
    let trail = 4 + len + len % 2;
    if bytes.len() < trail + 4 || LittleEndian::read_u32(&bytes[trail..]) != word {
        return None;
    }
    within(
        room,
        trail as u64 + 4,
        step(place, Item::Block(&bytes[4..4 + len])),
    )
}

/// Returns the length of the block that a word begins.
fn block_len(word: u32) -> Option<u64>
    ensures { result ≡ block_len word }
{
    let len = word % 0x0100_0000;
    let high = word / 0x0100_0000;
    if len == 0 || (high != 0 && high != 0x80) {
        return None;
    }
    Some(u64::from(len))
}

/// Looks at the block that a word begins, whose content need not be known.
fn look_block(room: u64, place: TapePlace, word: u32) -> Option<Looked>
    ensures { result ≡ looked_block room place word (block_len word) }
{
    let len = block_len(word)?;
    within(room, 8 + len + len % 2, step_block(place, word, len))
}

/// Returns the number of bytes that a block takes in an image, if `word` begins one that can be
/// read, and it ends within the limit.
#[inline(always)]
pub(crate) fn block_size(room: u64, word: u32) -> Option<u64>
    ensures size { IfSome result (λ size. size ≡ block_extent word) }
    ensures block { IfSome result (λ size. (0 < word) × (word ≤ longest_block)) }
    ensures within { IfSome result (λ size. size ≤ room) }
{
    let size = 8 + u64::from(word) + u64::from(word % 2);
    if word == 0 || word > LONGEST_BLOCK || size > room {
        return None;
    }
    Some(size)
}

/// Returns the item that the bytes begin with, and what replaces it, or `None` if the rest of the
/// image stays unchanged.
pub(crate) fn look(room: u64, place: TapePlace, bytes: &[u8]) -> Option<Looked>
    requires { 4 ≤ length bytes.now }
    ensures { result ≡ looked room place bytes.now }
{
    if let TapePlace::Over = place {
        return None;
    }
    let word = LittleEndian::read_u32(bytes);
    if word == 0 {
        return within(room, 4, step(place, Item::Mark));
    }
    if word == GAP {
        return within(room, 4, (place, SAME));
    }
    if begins_label(place, bytes) {
        return look_label(room, place, word, bytes);
    }
    look_block(room, place, word)
}
