//! What a block says of its own units: in format U their length, and in format V where they begin.

ghost use Rattle.std.specs.Prelude.{◌≡◌, ◌≤◌, drop};
ghost use Rattle.tape_label.specs.declared.values.Format.TheVariants.{Fixed};
ghost use Rattle.tape_blocks.specs.Block.{is_described, own_len, own_offset};

use crate::parts::Shape;
use tape_label::Format;

/// The units of a block: their format, the length of a record, and where they begin.
#[derive(Clone, Copy)]
pub(crate) struct UnitShape {
    pub format: Format,
    pub rec_len: usize,
    pub offset: usize,
    pub ghost some_record: { format ≡ Fixed → 1 ≤ rec_len },
}

/// Returns true if `bytes` begin with a block descriptor word that gives their number.
#[tactic(auto, unfolding(crate::specs::Block::is_described))]
fn is_described(bytes: &[u8]) -> bool
    ensures { result ≡ is_described bytes.now }
{
    if bytes.len() < 4 {
        return false;
    }
    let (a, b) = (usize::from(bytes[0]), usize::from(bytes[1]));
    let (c, d) = (usize::from(bytes[2]), usize::from(bytes[3]));
    if a < 128 {
        a * 256 + b == bytes.len() && c == 0 && d == 0
    } else {
        (((a - 128) * 256 + b) * 256 + c) * 256 + d == bytes.len()
    }
}

/// Returns the bytes of the block from `offset` on: none if the block is shorter.
pub fn after(offset: usize, block: &[u8]) -> &[u8]
    ensures { result.now ≡ drop offset block.now }
{
    if block.len() < offset {
        return &[];
    }
    &block[offset..]
}

/// Returns the offset at which the units of a block begin: in format V after the block descriptor
/// word, in other formats after the buffer offset. If the word is missing or wrong, the result is
/// one more than the length of the block.
pub fn own_offset(format: Format, offset: u8, block: &[u8]) -> usize
    ensures { result ≡ own_offset format offset block.now }
{
    let offset = usize::from(offset);
    match format {
        Format::Variable => {
            if is_described(after(offset, block)) {
                offset + 4
            } else {
                block.len() + 1
            }
        }
        _ => offset,
    }
}

/// Returns the units of a block of shape `shape`: in format U the length of a record is that of all
/// bytes after the buffer offset, in other formats the one of the shape.
pub(crate) fn units_of(shape: &Shape, block: &[u8]) -> UnitShape
    ensures format { result.format ≡ shape.now.format }
    ensures rec_len { result.rec_len
        ≡ own_len shape.now.format shape.now.rec_len shape.now.offset block.now }
    ensures offset { result.offset ≡ own_offset shape.now.format shape.now.offset block.now }
{
    let rec_len = match shape.format {
        Format::Undefined => block.len().saturating_sub(usize::from(shape.offset)),
        _ => shape.rec_len as usize,
    };
    UnitShape {
        format: shape.format,
        rec_len,
        offset: own_offset(shape.format, shape.offset, block),
    }
}
