//! The shapes and records that can be written, and the lengths of their units and blocks.

ghost use Rattle.std.specs.Prelude.{◌≡◌, ◌≤◌, IsTrue, ◌↔◌};
ghost use Rattle.tape_blocks.specs.{Block.head_len, Spans.span_of};
ghost use Rattle.tape_blocks.specs.Packing.{HasRecordLength, padded_len, least_room};

use crate::parts::{Shape, Span};
use tape_label::Format;

/// Returns true if a record of `len` bytes can be written.
pub(crate) fn has_record_length(format: Format, rec_len: u32, len: usize) -> bool
    ensures { IsTrue result ↔ HasRecordLength format rec_len len }
{
    match format {
        Format::Fixed => len == rec_len as usize,
        Format::Counted => len <= rec_len as usize && rec_len as usize - len >= 4,
        Format::Spanned => len <= 4_294_967_295,
        Format::Undefined | Format::Variable => false,
    }
}

/// Returns the number of characters before a part's content.
pub(crate) fn head_len(format: Format) -> usize
    ensures { result ≡ head_len format }
{
    match format {
        Format::Fixed | Format::Undefined => 0,
        Format::Counted | Format::Variable => 4,
        Format::Spanned => 5,
    }
}

/// Returns true if `free` bytes are enough for the next part of a record of which `len` bytes are
/// left.
pub(crate) fn has_room(format: Format, free: usize, len: usize) -> bool
    ensures { IsTrue result ↔ (least_room format len ≤ free) }
{
    match format {
        Format::Fixed | Format::Undefined => len <= free,
        Format::Counted | Format::Variable => free >= 4 && len <= free - 4,
        Format::Spanned => free >= 6,
    }
}

/// Returns the span of a part; `begun` says whether it continues a record, and `goes_on` whether it
/// leaves the record unfinished.
pub(crate) fn span(begun: bool, goes_on: bool) -> Span
    ensures { result ≡ span_of begun goes_on }
{
    match (begun, goes_on) {
        (false, false) => Span::Whole,
        (false, true) => Span::First,
        (true, true) => Span::Middle,
        (true, false) => Span::Last,
    }
}

/// Returns the length of a block of `len` bytes after padding.
pub(crate) fn padded_len(shape: &Shape, len: usize) -> usize
    ensures { result ≡ padded_len shape.now len }
{
    match shape.format {
        Format::Fixed | Format::Undefined | Format::Variable => len,
        Format::Counted if shape.pad_full => shape.block_len as usize,
        Format::Counted | Format::Spanned => len.max(18),
    }
}
