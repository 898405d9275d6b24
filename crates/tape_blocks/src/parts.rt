//! The shape of a file's blocks and records, and the parts of a checked block.

ghost use Rattle.std.specs.Prelude.{◌≡◌, ◌≤◌, List, ◌↔◌, IsTrue, false};
ghost use Rattle.tape_label.specs.declared.values.Format.TheVariants.{Fixed};
ghost use Rattle.tape_blocks.specs.{Block.indicator, Spans.continues, Spans.leaves};

use crate::check::unit_at;
use crate::own::{after, units_of};
use tape_label::{Format, Head2};

/// The form of a file's records in the input, when they are written, and in the output, when they
/// are read back.
#[derive(Clone, Copy, Debug, PartialEq, Eq)]
pub enum Form {
    /// Each line is a record, without its line feed. In the output each record is followed by a
    /// line feed.
    Lines,
    /// The bytes are those of the records alone. On input, format F divides the bytes into records
    /// of the record length, and format S makes them a single record; in the output the records are
    /// joined.
    Raw,
    /// In the output each record follows its length in four bytes, the most significant first
    /// ([`length_bytes`](crate::length_bytes)), so that the records can be separated again. There
    /// is no input in this form.
    Counted,
}

/// The shape of a file's blocks and records (ECMA-13, 4th edition: the label HDR2).
///
/// In format F the record length is at least 1: an invariant of the type, proved wherever a shape
/// is created.
#[derive(Clone, Copy, Debug, PartialEq, Eq)]
pub struct Shape {
    /// The record format.
    pub format: Format,
    /// The maximum length of a block, including its offset.
    pub block_len: u32,
    /// The length of each record in format F; the maximum length, including the count, in format D.
    /// In format S it must be 0 for writing. In formats S, U and V it is ignored for reading.
    pub rec_len: u32,
    /// The number of characters at the start of each block, before its first record.
    pub offset: u8,
    /// Whether each written block of format D is padded to `block_len`.
    pub pad_full: bool,
    pub ghost some_record: { format ≡ Fixed → 1 ≤ rec_len },
}

impl Shape {
    ghost use Rattle.tape_blocks.specs.Packing.{IsWritable};

    /// Returns the shape in a second label, with `pad_full` false.
    pub fn of(label: &Head2) -> Shape
        requires { label.now.format ≡ Format.Fixed → 1 ≤ label.now.rec_len }
        ensures format { result.format ≡ label.now.format }
        ensures block_len { result.block_len ≡ label.now.block_len }
        ensures rec_len { result.rec_len ≡ label.now.rec_len }
        ensures offset { result.offset ≡ label.now.offset }
        ensures pad_full { result.pad_full ≡ false }
    {
        Shape {
            format: label.format,
            block_len: label.block_len,
            rec_len: label.rec_len,
            offset: label.offset,
            pad_full: false,
        }
    }

    /// Returns true if blocks of this shape can be written: if [`Packer::new`](crate::Packer::new)
    /// accepts the shape.
    pub fn is_writable(&self) -> bool
        ensures { IsTrue result ↔ IsWritable self.now }
    {
        let block_len = self.block_len;
        let rec_len = self.rec_len;
        let offset = u32::from(self.offset);
        if block_len < 18 || block_len > 99_999 || offset > 99 {
            return false;
        }
        match self.format {
            Format::Fixed => rec_len >= 18
                && rec_len <= block_len - offset.min(block_len)
                && !self.pad_full,
            Format::Counted => rec_len >= 4 && rec_len <= 9_999 && offset + rec_len <= block_len,
            Format::Spanned => {
                rec_len == 0 && block_len <= 9_999 && offset + 6 <= block_len && !self.pad_full
            }
            Format::Undefined | Format::Variable => false,
        }
    }
}

/// The position of a part within its record (ECMA-13, 4th edition: spanned records).
///
/// A record of format F, D or U is always one part. A record of format S or V may extend over
/// several blocks: a first segment, any number of middle segments, and a last segment.
#[derive(Clone, Copy, Debug, PartialEq, Eq)]
pub enum Span {
    /// The record begins and ends with this part.
    Whole,
    /// The record begins with this part, and continues.
    First,
    /// The record has begun already, and continues after this part.
    Middle,
    /// The record has begun already, and ends with this part.
    Last,
}

impl Span {
    /// Returns true if the record has begun already before this part: for a middle or last segment.
    pub fn continues(self) -> bool
        ensures { result ≡ continues self }
    {
        matches!(self, Span::Middle | Span::Last)
    }

    /// Returns true if the record continues after this part: for a first or middle segment.
    pub fn leaves(self) -> bool
        ensures { result ≡ leaves self }
    {
        matches!(self, Span::First | Span::Middle)
    }

    /// Returns the indicator of the span, a digit from `0` to `3`.
    pub fn indicator(self) -> u8
        ensures { result ≡ indicator self }
    {
        match self {
            Span::Whole => b'0',
            Span::First => b'1',
            Span::Middle => b'2',
            Span::Last => b'3',
        }
    }
}

/// A record, or a segment of a record, borrowed from its block.
#[derive(Clone, Copy, PartialEq, Eq)]
pub struct Part<'a> {
    /// The position of this part within its record.
    pub span: Span,
    /// The content, without the count and the indicator, or the record descriptor word.
    pub bytes: &'a [u8],
}

/// An iterator over the parts of a checked block. It borrows slices of the block, and does not
/// allocate.
#[derive(Drop)]
pub struct Parts<'a> {
    format: Format,
    rec_len: usize,
    rest: &'a [u8],
    pub ghost some_record: { format ≡ Fixed → 1 ≤ rec_len },
}

impl<'a> Parts<'a> {
    ghost use Rattle.tape_blocks.specs.{Block.Portion, Block.Holds, PartsLeft.parts_left};
    ghost use Rattle.tape_blocks.specs.Checked.{IsChecked};
    ghost use Rattle.std.specs.Prelude.{drop};
    ghost use Rattle.tape_blocks.specs.{Parts.parts_of, Block.own_len, Block.own_offset};

    /// Creates an iterator over a block that passes [`check_block`](crate::check_block) for some
    /// `begun`.
    pub fn new(shape: &Shape, block: &'a [u8]) -> Parts<'a>
        requires { IsChecked shape.now block.now }
        ensures { (parts : List Portion)
            → Holds shape.now.format shape.now.rec_len shape.now.offset block.now parts
            → parts_left result ≡ parts }
    {
        let units = units_of(shape, block);
        Parts {
            format: units.format,
            rec_len: units.rec_len,
            rest: &block[units.offset..],
        }
    }

    /// Creates an iterator over the parts at the start of any block, up to the first offset at
    /// which no unit begins. They may be out of order.
    pub fn at_front(shape: &Shape, block: &'a [u8]) -> Parts<'a>
        ensures { parts_left result ≡ parts_of shape.now.format
            (own_len shape.now.format shape.now.rec_len shape.now.offset block.now)
            (drop (own_offset shape.now.format shape.now.offset block.now) block.now) }
    {
        let units = units_of(shape, block);
        Parts {
            format: units.format,
            rec_len: units.rec_len,
            rest: after(units.offset, block),
        }
    }
}

impl<'a> Iterator for Parts<'a> {
    type Item = Part<'a>;

    ghost use Rattle.std.specs.Iterator.{YieldsFirstBy, item_count};
    ghost use Rattle.tape_blocks.specs.{Parts.view, PartsLeft.parts_left};

    ghost next_gives = { YieldsFirstBy view parts_left };

    ghost remaining = { item_count parts_left };

    #[inline(always)]
    fn next(&mut self) -> Option<Part<'a>> {
        if self.rest.is_empty() {
            return None;
        }
        match unit_at(self.format, self.rec_len, self.rest) {
            Ok(Some(found)) => {
                let (unit, rest) = self.rest.split_at(found.len);
                self.rest = rest;
                Some(Part {
                    span: found.span,
                    bytes: &unit[found.head..],
                })
            }
            Ok(None) => None,
            Err(_) => None,
        }
    }
}
