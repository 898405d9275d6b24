//! The wider reading of second labels, which accepts what systems wrote besides ECMA-13.

ghost use Rattle.std.specs.Prelude.{◌≡◌, IfOk, Ok, Err, length, ◌<◌, ◌≤◌, ◌+◌, ◌^◌};
ghost use Rattle.tape_label.specs.WideHead2.{IsWideHead2, absent_head2, is_further_header};
ghost use Rattle.tape_label.specs.Reading.{head2_at, wide_head2_at, wide_format_at};
ghost use Rattle.tape_label.specs.Reading.{number_or_spaces, rec_len_at};
ghost use Rattle.tape_label.specs.Kinds.{HasKind, IsSecond};

use crate::label::{LabelFault, kind, no_kind};
use crate::reading::{character_at, format_at, number_at, offset_at};
use crate::values::{Format, Head2, Kind};

/// Reads a second header or trailer label in the wider reading. Besides what
/// [`read_head2`](crate::read_head2) accepts, the format may be `U` or `V`, and a length that no
/// block depends on may be five spaces, which are read as 0: the block length, and in all formats
/// but `F` the record length.
///
/// # Errors
///
/// Returns, in this order: `NotEighty`; `Identifier` if the label begins otherwise; `Format`;
/// `NotDigits(6)` for the block length; `NotDigits(11)` for the record length, and `FieldRange(11)`
/// if it is 0 and the format is `Fixed`; `NotDigits(51)` for the buffer offset.
#[tactic(auto, unfolding(crate::specs::Reading::wide_head2_at))]
pub fn read_wide_head2(label: &[u8]) -> Result<Head2, LabelFault>
    ensures found { IfOk result (λ fields. (which : Kind) × IsWideHead2 label.now which fields) }
    ensures only { (which : Kind) (fields : Head2) → IsWideHead2 label.now which fields
        → result ≡ Ok fields }
    // A label that the strict reading accepts has the same fields in this one.
    ensures agrees { (fields : Head2) → head2_at label.now ≡ Ok fields → result ≡ Ok fields }
    ensures other { (kind : Kind) → HasKind label.now kind → (¬ IsSecond kind)
        → result ≡ Err LabelFault.Identifier }
    ensures fault { result ≡ wide_head2_at label.now }
{
    let Some(Kind::Hdr2 | Kind::Eof2 | Kind::Eov2) = kind(label) else {
        return Err(no_kind(label));
    };
    let format = wide_format_at(label)?;
    let block_len = number_or_spaces(label, 6, 10)? as u32;
    let rec_len = rec_len_at(format, label)? as u32;
    let offset = offset_at(label)? as u8;
    Ok(Head2 {
        format,
        block_len,
        rec_len,
        offset,
    })
}

/// Reads the record format of a second label, which may be `U` or `V`.
#[tactic(auto, unfolding(crate::specs::Reading::wide_format_at))]
fn wide_format_at(label: &[u8]) -> Result<Format, LabelFault>
    requires { length label.now ≡ 80 }
    ensures { result ≡ wide_format_at label.now }
{
    match character_at(label, 5) {
        b'U' => Ok(Format::Undefined),
        b'V' => Ok(Format::Variable),
        _ => format_at(label),
    }
}

/// Reads the number at the five positions `first` to `last`; five spaces are 0.
#[tactic(auto, unfolding(crate::specs::Reading::number_or_spaces))]
fn number_or_spaces(label: &[u8], first: u8, last: u8) -> Result<u64, LabelFault>
    requires first { 1 ≤ first }
    requires five { last ≡ first + 4 }
    requires last { last ≤ length label.now }
    ensures exact { result ≡ number_or_spaces label.now first last }
    ensures small { IfOk result (λ n. n < 10 ^ 5) }
{
    if &label[first as usize - 1..last as usize] == b"     ".as_slice() {
        return Ok(0);
    }
    number_at(label, first, last, 0)
}

/// Reads the record length of a second label; only format `F` requires it.
fn rec_len_at(format: Format, label: &[u8]) -> Result<u64, LabelFault>
    requires { length label.now ≡ 80 }
    ensures exact { result ≡ rec_len_at format label.now }
    ensures small { IfOk result (λ n. n < 10 ^ 5) }
{
    match format {
        Format::Fixed => number_at(label, 11, 15, 1),
        _ => number_or_spaces(label, 11, 15),
    }
}

/// Returns the fields with which the wider reading reads a section without HDR2: format `U`, so
/// each block is one record.
pub fn absent_head2() -> Head2
    ensures { result ≡ absent_head2 }
{
    Head2 {
        format: Format::Undefined,
        block_len: 0,
        rec_len: 0,
        offset: 0,
    }
}

/// Returns true if the block is a header label that may follow HDR2: 80 characters that begin with
/// `HDR3` to `HDR9`, or with `UHL`.
pub fn is_further_header(block: &[u8]) -> bool
    ensures { result ≡ is_further_header block.now }
{
    block.len() == 80
        && (&block[..3] == b"UHL".as_slice()
            || &block[..3] == b"HDR".as_slice() && block[3] >= b'3' && block[3] <= b'9')
}
