//! Checks blocks, and reports why a block is refused.

ghost use Rattle.std.specs.Prelude.{◌≡◌, Bool, List, IfOk, IfErr, Ok, Err, ◌≤◌, ◌<◌, length};
ghost use Rattle.std.specs.Prelude.{IfSome, None};
ghost use Rattle.tape_blocks.specs.{declared.check.BlockFault.BlockFault, Numbers.cause_number};
ghost use Rattle.tape_blocks.specs.{Checked.Passes, Units.unit_at, Units.counted, Units.padding_by};
ghost use Rattle.tape_blocks.specs.{Units.word_unit, Block.span_coded, Judged.judged_units};
ghost use Rattle.tape_blocks.specs.Block.{Portion, Holds, first_other};
ghost use Rattle.tape_blocks.specs.{Faults.HasFault, Judged.judged, Spans.InOrder};

use crate::own::{UnitShape, units_of};
use crate::parts::{Shape, Span};
use tape_label::{Format, digits_value};
use thiserror::Error;

/// The kind of fault at an offset of a block.
#[derive(Clone, Copy, Debug, PartialEq, Eq, Error)]
pub enum BlockCause {
    /// The block is shorter than its buffer offset; or, in format V, its block descriptor word is
    /// missing or is not the length of the block.
    #[error("the block is shorter than its offset")]
    ShortOffset,
    /// In format F the bytes after the last complete record are too few for a record, and not all
    /// of them are circumflexes.
    #[error("the block is not a multiple of the record length")]
    NotMultiple,
    /// A count has fewer than four characters, contains a character that is not a digit, or is less
    /// than the length of the head that contains it; or, in format V, a record descriptor word has
    /// fewer than four bytes, or its length is less than four.
    #[error("a count is not a valid number")]
    BadCount,
    /// The length of a record or segment is more than the number of bytes left in the block.
    #[error("a record would end after the block")]
    PastEnd,
    /// A segment of format S does not begin with one of the indicators `0` to `3`; or, in format V,
    /// the code of the span in a record descriptor word is not 0 to 3, or its last byte is not 0.
    #[error("a segment indicator is invalid")]
    BadIndicator,
    /// A part continues a record although none is unfinished, or begins a record although one is
    /// unfinished.
    #[error("segments are out of order")]
    SpanBroken,
    /// The padding contains a byte that is not a circumflex.
    #[error("the padding contains a byte that is not a circumflex")]
    BadPadding,
}

impl BlockCause {
    /// Returns the cause's fixed number, from 1 to 7.
    pub fn number(&self) -> u8
        ensures { result ≡ cause_number self.now }
    {
        match self {
            BlockCause::ShortOffset => 1,
            BlockCause::NotMultiple => 2,
            BlockCause::BadCount => 3,
            BlockCause::PastEnd => 4,
            BlockCause::BadIndicator => 5,
            BlockCause::SpanBroken => 6,
            BlockCause::BadPadding => 7,
        }
    }
}

/// The reason why a block is refused, and the offset of the fault.
#[derive(Clone, Copy, Debug, PartialEq, Eq, Error)]
#[error("{cause}, at {place}")]
pub struct BlockFault {
    /// The index of the faulty byte in the block, counted from 0.
    pub place: usize,
    /// The kind of fault at that byte.
    pub cause: BlockCause,
}

impl BlockFault {
    /// Returns the fixed number of the cause, from 1 to 7.
    pub fn number(&self) -> u8
        ensures { result ≡ cause_number self.now.cause }
    {
        self.cause.number()
    }
}

/// A unit: its span, the length of the head before its content, and its total length.
#[derive(Clone, Copy)]
pub(crate) struct Found {
    pub span: Span,
    pub head: usize,
    pub len: usize,
}

/// Returns the fault `cause` at `place`.
fn refuse<T>(place: usize, cause: BlockCause) -> Result<T, BlockFault>
    ensures { result ≡ Err (record { place = place; cause = cause }) }
{
    Err(BlockFault { place, cause })
}

/// Returns the index of the first byte that is not a circumflex, or `None` if all bytes are
/// circumflexes.
fn first_other(bytes: &[u8]) -> Option<usize>
    ensures value { result ≡ first_other bytes.now }
    ensures inside { IfSome result (λ place. place < length bytes.now) }
{
    bytes.iter().position(|c| *c != b'^')
}

/// Accepts `bytes` as padding, or returns a fault at the first byte that is not a circumflex.
fn padding(bytes: &[u8]) -> Result<Option<Found>, BlockFault>
    ensures exact { result ≡ padding_by (first_other bytes.now) }
    ensures none { IfOk result (λ unit. unit ≡ None) }
    ensures place { IfErr result (λ f. f.place ≤ length bytes.now) }
{
    match first_other(bytes) {
        None => Ok(None),
        Some(place) => refuse(place, BlockCause::BadPadding),
    }
}

/// Reads the unit at the start of `bytes`, whose head has `head` characters, the last four of which
/// are a count. The count includes the head.
#[inline(always)]
fn counted(span: Span, head: usize, bytes: &[u8]) -> Result<Option<Found>, BlockFault>
    requires { 4 ≤ head }
    ensures exact { result ≡ counted span head bytes.now }
    ensures inside { IfOk result (λ unit. IfSome unit (λ found.
        (head ≤ found.len) × (found.head ≤ found.len) × (found.len ≤ length bytes.now))) }
    ensures place { IfErr result (λ f. f.place ≡ 0) }
{
    if bytes.len() < head {
        return refuse(0, BlockCause::BadCount);
    }
    match digits_value(&bytes[head - 4..head]) {
        None => refuse(0, BlockCause::BadCount),
        Some(count) if (count as usize) < head => refuse(0, BlockCause::BadCount),
        Some(count) if bytes.len() < count as usize => refuse(0, BlockCause::PastEnd),
        Some(count) => Ok(Some(Found {
            span,
            head,
            len: count as usize,
        })),
    }
}

/// Returns the span with the code `code` in a record descriptor word whose last byte is `last`.
fn span_coded(code: u8, last: u8) -> Option<Span>
    ensures { result ≡ span_coded code last }
{
    match (code, last) {
        (0, 0) => Some(Span::Whole),
        (1, 0) => Some(Span::First),
        (2, 0) => Some(Span::Last),
        (3, 0) => Some(Span::Middle),
        _ => None,
    }
}

/// Reads the unit of format V at the start of `bytes`: a record descriptor word and the content.
fn word_unit(bytes: &[u8]) -> Result<Option<Found>, BlockFault>
    ensures exact { result ≡ word_unit bytes.now }
    ensures inside { IfOk result (λ unit. IfSome unit (λ found.
        (found.head ≤ found.len) × (4 ≤ found.len) × (found.len ≤ length bytes.now))) }
    ensures place { IfErr result (λ f. f.place ≡ 0) }
{
    if bytes.len() < 4 {
        return refuse(0, BlockCause::BadCount);
    }
    let len = usize::from(bytes[0]) * 256 + usize::from(bytes[1]);
    match span_coded(bytes[2], bytes[3]) {
        None => refuse(0, BlockCause::BadIndicator),
        Some(_) if len < 4 => refuse(0, BlockCause::BadCount),
        Some(_) if bytes.len() < len => refuse(0, BlockCause::PastEnd),
        Some(span) => Ok(Some(Found { span, head: 4, len })),
    }
}

/// Reads the unit at the start of `bytes`, or returns `None` for padding; in format F fewer bytes
/// than `rec_len` must be padding. The offset of a fault is counted from the start of `bytes`.
#[tactic(auto, unfolding(crate::specs::Units::unit_at))]
#[inline(always)]
pub(crate) fn unit_at(
    format: Format,
    rec_len: usize,
    bytes: &[u8],
) -> Result<Option<Found>, BlockFault>
    ensures exact { result ≡ unit_at format rec_len bytes.now }
    ensures inside { IfOk result (λ unit. IfSome unit (λ found.
        (found.head ≤ found.len) × (found.len ≤ length bytes.now))) }
    ensures more { IfOk result (λ unit. IfSome unit (λ found.
        (format ≡ Format.Fixed → 1 ≤ rec_len) → 1 ≤ found.len)) }
    ensures place { IfErr result (λ f. f.place ≤ length bytes.now) }
{
    match format {
        Format::Fixed if bytes.len() >= rec_len => Ok(Some(Found {
            span: Span::Whole,
            head: 0,
            len: rec_len,
        })),
        Format::Fixed => match first_other(bytes) {
            None => Ok(None),
            Some(_) => refuse(0, BlockCause::NotMultiple),
        },
        Format::Counted => match bytes {
            [] => Ok(None),
            [b'^', ..] => padding(bytes),
            _ => counted(Span::Whole, 4, bytes),
        },
        Format::Spanned => {
            let span = match bytes {
                [] => return Ok(None),
                [b'^', ..] => return padding(bytes),
                [b'0', ..] => Span::Whole,
                [b'1', ..] => Span::First,
                [b'2', ..] => Span::Middle,
                [b'3', ..] => Span::Last,
                _ => return refuse(0, BlockCause::BadIndicator),
            };
            counted(span, 5, bytes)
        }
        Format::Undefined if bytes.is_empty() => Ok(None),
        Format::Undefined if bytes.len() < rec_len.max(1) => refuse(0, BlockCause::NotMultiple),
        Format::Undefined => Ok(Some(Found {
            span: Span::Whole,
            head: 0,
            len: rec_len.max(1),
        })),
        Format::Variable if bytes.is_empty() => Ok(None),
        Format::Variable => word_unit(bytes),
    }
}

/// Checks the units of a block, and returns whether the last record is unfinished.
fn check_units(units: &UnitShape, begun: bool, block: &[u8]) -> Result<bool, BlockFault>
    ensures { result
        ≡ judged_units units.now.format units.now.rec_len units.now.offset begun block.now }
{
    if block.len() < units.offset {
        return refuse(0, BlockCause::ShortOffset);
    }
    let mut going = begun;
    let mut place = units.offset;
    // Walks over the units, up to the first offset at which no unit in span order begins.
    'units: loop {
        if place == block.len() {
            return Ok(going);
        }
        match unit_at(units.format, units.rec_len, &block[place..]) {
            Err(fault) => return refuse(place + fault.place, fault.cause),
            Ok(None) => return Ok(going),
            Ok(Some(found)) => {
                if found.span.continues() != going {
                    return refuse(place, BlockCause::SpanBroken);
                }
                going = found.span.leaves();
                place += found.len;
            }
        }
    }
}

/// Checks that `block` contains records of shape `shape`, and returns whether the last record is
/// unfinished at the end of the block (ECMA-13, 4th edition: fixed-length, variable-length and
/// spanned records; FORMATS.md describes U and V).
///
/// `begun` says whether a record is unfinished at the start of the block. The block may be longer
/// than the shape says. The buffer offset, in format V followed by the block descriptor word, is
/// followed by the records (in formats S and V, segments), and then by padding: circumflexes, in
/// format F fewer of them than a record has characters, and in U and V none. In format U all bytes
/// after the buffer offset are one record. A block without records is accepted.
///
/// # Errors
///
/// The offset of the fault is the end of the longest sequence of records in order, or 0 for
/// `ShortOffset`. The cause is the first that applies there: in format F `NotMultiple`,
/// `SpanBroken`; in D and S, at a circumflex, `BadPadding`, with the offset of the first other byte
/// after it; otherwise in S `BadIndicator`, and then `BadCount`, `PastEnd`, `SpanBroken`; in U
/// `SpanBroken`; in V `BadCount` for fewer than four bytes, `BadIndicator`, `BadCount`, `PastEnd`,
/// `SpanBroken`.
pub fn check_block(shape: &Shape, begun: bool, block: &[u8]) -> Result<bool, BlockFault>
    // A block that passes contains parts in span order; the result says whether they leave a record
    // unfinished.
    ensures found { IfOk result
        (Passes shape.now.format shape.now.rec_len shape.now.offset begun block.now) }
    // A block that contains parts in span order passes.
    ensures only { (parts : List Portion) (end : Bool)
        → Holds shape.now.format shape.now.rec_len shape.now.offset block.now parts
        → InOrder begun parts end → result ≡ Ok end }
    // The fault returned, and its offset, are those of the block.
    ensures fault { IfErr result
        (HasFault shape.now.format shape.now.rec_len shape.now.offset begun block.now) }
    // The block has no other fault.
    ensures refuses { (fault : BlockFault)
        → HasFault shape.now.format shape.now.rec_len shape.now.offset begun block.now fault
        → result ≡ Err fault }
    // The result is this function of lists.
    ensures exact { result
        ≡ judged shape.now.format shape.now.rec_len shape.now.offset begun block.now }
{
    check_units(&units_of(shape, block), begun, block)
}
