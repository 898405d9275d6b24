//! The content of a block that some systems padded with NULs or spaces.

ghost use Rattle.std.specs.Prelude.{◌≡◌, ◌≤◌, length};
ghost use Rattle.tape_blocks.specs.Content.{content_in, is_ambiguous, is_foreign, may_be_padded};
ghost use Rattle.tape_blocks.specs.Content.{other_than, units_end};

use crate::check::unit_at;
use crate::own::{UnitShape, units_of};
use crate::parts::Shape;
use tape_label::Format;

/// Returns the index of the first byte that differs from `byte`, or `None` if no byte does.
fn other_than(byte: u8, bytes: &[u8]) -> Option<usize>
    ensures { result ≡ other_than byte bytes.now }
{
    bytes.iter().position(|each| *each != byte)
}

/// Returns true if there is at least one byte, and the bytes are all NULs or all spaces.
fn is_foreign(bytes: &[u8]) -> bool
    ensures { result ≡ is_foreign bytes.now }
{
    !bytes.is_empty() && (other_than(0, bytes).is_none() || other_than(b' ', bytes).is_none())
}

/// Returns true for the formats that were padded with NULs or spaces.
fn may_be_padded(format: Format) -> bool
    ensures { result ≡ may_be_padded format }
{
    matches!(format, Format::Fixed | Format::Counted)
}

/// Returns the first offset of the block at which no unit begins.
fn units_end(units: &UnitShape, block: &[u8]) -> usize
    requires { units.now.offset ≤ length block.now }
    ensures value { result
        ≡ units_end units.now.format units.now.rec_len units.now.offset block.now }
    ensures inside { result ≤ length block.now }
{
    let mut place = units.offset;
    'units: while place < block.len() {
        match unit_at(units.format, units.rec_len, &block[place..]) {
            Ok(Some(found)) => place += found.len,
            Ok(None) => return place,
            Err(_) => return place,
        }
    }
    place
}

/// Returns true if in format F the record before the offset `end`, with all bytes after it, is NULs
/// alone or spaces alone: the record may be padding too.
fn is_ambiguous(units: &UnitShape, end: usize, block: &[u8]) -> bool
    requires { end ≤ length block.now }
    ensures { result ≡ is_ambiguous units.now.format units.now.rec_len end block.now }
{
    match units.format {
        Format::Fixed => is_foreign(&block[end.saturating_sub(units.rec_len)..]),
        _ => false,
    }
}

/// Returns the block without padding of NULs or spaces after its last record, which the standard
/// does not allow. Without such padding, and in all formats but F and D, returns the whole block.
///
/// The padding is NULs alone or spaces alone, after at least one record. In format D it begins at
/// the offset of the next count, so it cannot be a record. In format F it is shorter than a record,
/// and the record before it contains another byte; otherwise nobody can know where the padding
/// begins, and nothing is left out. A block that passes the check has no such padding.
pub fn content<'a>(shape: &Shape, block: &'a [u8]) -> &'a [u8]
    ensures { result.now
        ≡ content_in shape.now.format shape.now.rec_len shape.now.offset block.now }
{
    let units = units_of(shape, block);
    if !may_be_padded(shape.format) || block.len() < units.offset {
        return block;
    }
    let end = units_end(&units, block);
    if units.offset < end && is_foreign(&block[end..]) && !is_ambiguous(&units, end, block) {
        &block[..end]
    } else {
        block
    }
}
