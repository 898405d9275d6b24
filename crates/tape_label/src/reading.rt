//! Reads the fields of a label from its characters.

ghost use Rattle.std.specs.Prelude.{◌≡◌, ◌≢◌, IfOk, Ok, Err, length, ◌<◌, ◌≤◌, ◌+◌, ◌-◌, ◌^◌, ℕ};
ghost use Rattle.std.specs.Prelude.{IfSome, Some, None, if◌then◌else◌};
ghost use Rattle.std.specs.Str.{all_ascii_digits};
ghost use Rattle.tape_label.specs.Reading.{vol1_at, vol1_fields, head_at, head1_at, trail1_at};
ghost use Rattle.tape_label.specs.Reading.{head2_at, character_at, number_at, format_at, offset_at};
ghost use Rattle.tape_label.specs.{Vol1.IsVol1, Head1.IsHead1, Head2.IsHead2, Trail1.IsTrail1};
ghost use Rattle.tape_label.specs.Kinds.{HasKind, IsFirstTrailer, IsSecond};
ghost use Rattle.tape_label.specs.Digits.{digits, number_of};

use crate::label::{LabelFault, kind, no_kind};
use crate::values::{Format, Head1, Head2, Kind, Trail1, Vol1, field_at};

/// Returns the number with the given digits, which may have leading zeros, or `None` if a byte is
/// not a digit. For an empty text the number is 0. Nineteen digits always fit in a `u64`.
#[tactic(auto, using(crate::proofs::DigitLaws::counted_digits))]
pub fn digits_value(text: &[u8]) -> Option<u64>
    requires { length text.now ≤ 19 }
    ensures found { IfSome result (λ n. text.now ≡ digits (length text.now) n) }
    ensures only { (n : ℕ) → n < 10 ^ length text.now → text.now ≡ digits (length text.now) n
        → result ≡ Some n }
    ensures small { IfSome result (λ n. n < 10 ^ length text.now) }
    // The result is this function of the text.
    ensures exact { result
        ≡ (if all_ascii_digits text.now then Some (number_of text.now) else None) }
{
    let mut number: u64 = 0;
    for byte in text {
        if !byte.is_ascii_digit() {
            return None;
        }
        number = number * 10 + u64::from(byte - b'0');
    }
    Some(number)
}

/// Returns `number` in `W` digits, with leading zeros.
pub fn digits_of<const W: usize>(number: u64) -> [u8; W]
    requires { number < 10 ^ W }
    ensures { result ≡ digits W number }
{
    let mut text = [b'0'; W];
    let mut rest = number;
    let mut place = W;
    while place > 0 {
        place -= 1;
        text[place] = b'0' + (rest % 10) as u8;
        rest /= 10;
    }
    text
}

/// Returns the character at `position`, counted from 1.
pub(crate) fn character_at(label: &[u8], position: usize) -> u8
    requires first { 1 ≤ position }
    requires last { position ≤ length label.now }
    ensures { result ≡ character_at label.now position }
{
    label[position - 1]
}

/// Reads the decimal number at the positions `first` to `last`, counted from 1, which must be at
/// least `least`.
pub(crate) fn number_at(label: &[u8], first: u8, last: u8, least: u64) -> Result<u64, LabelFault>
    requires first { 1 ≤ first }
    requires order { first ≤ last }
    requires last { last ≤ length label.now }
    requires width { last < first + 19 }
    ensures exact { result ≡ number_at label.now first last least }
    ensures small { IfOk result (λ n. n < 10 ^ (last - (first - 1))) }
{
    match digits_value(&label[first as usize - 1..last as usize]) {
        None => Err(LabelFault::NotDigits(first)),
        Some(number) if number < least => Err(LabelFault::FieldRange(first)),
        Some(number) => Ok(number),
    }
}

/// Reads the record format of a second label.
#[tactic(auto, unfolding(crate::specs::Reading::format_at))]
pub(crate) fn format_at(label: &[u8]) -> Result<Format, LabelFault>
    requires { length label.now ≡ 80 }
    ensures { result ≡ format_at label.now }
{
    match character_at(label, 5) {
        b'F' => Ok(Format::Fixed),
        b'D' => Ok(Format::Counted),
        b'S' => Ok(Format::Spanned),
        other => Err(LabelFault::Format(other)),
    }
}

/// Reads the buffer offset of a second label; two spaces are 0.
#[tactic(auto, unfolding(crate::specs::Reading::offset_at))]
pub(crate) fn offset_at(label: &[u8]) -> Result<u64, LabelFault>
    requires { length label.now ≡ 80 }
    ensures exact { result ≡ offset_at label.now }
    ensures small { IfOk result (λ n. n < 100) }
{
    // Some systems leave the field blank if the offset is 0.
    if &label[50..52] == b"  ".as_slice() {
        return Ok(0);
    }
    number_at(label, 51, 52, 0)
}

/// Reads a volume label (ECMA-13, 4th edition, "Volume Header Label"). Accepts any version at
/// position 80 and anything in reserved positions.
///
/// # Errors
///
/// Returns `NotEighty`; then `Identifier` if the label does not begin with `VOL1`.
#[tactic(auto, unfolding(crate::specs::Reading::vol1_at))]
pub fn read_vol1(label: &[u8]) -> Result<Vol1, LabelFault>
    // A label that is read has these fields,
    ensures found { IfOk result (IsVol1 label.now) }
    // every block that is a label with some fields is read,
    ensures only { (fields : Vol1) → IsVol1 label.now fields → result ≡ Ok fields }
    // a block with the identifier of a volume label is read, whatever its fields contain,
    ensures any { HasKind label.now Kind.Vol1 → result ≡ Ok (vol1_fields label.now) }
    // a label of another kind is refused as such, whatever its fields contain,
    ensures other { (kind : Kind) → HasKind label.now kind → kind ≢ Kind.Vol1
        → result ≡ Err LabelFault.Identifier }
    // and for any other block the first fault is returned.
    ensures fault { result ≡ vol1_at label.now }
{
    let Some(Kind::Vol1) = kind(label) else {
        return Err(no_kind(label));
    };
    Ok(Vol1 {
        volume: field_at(label, 5),
        access: character_at(label, 11),
        implementation: field_at(label, 25),
        owner: field_at(label, 38),
        version: character_at(label, 80),
    })
}

/// Reads a first header label (ECMA-13, 4th edition, "First File Header Label"). Accepts any block
/// count and anything in reserved positions.
///
/// # Errors
///
/// Returns, in this order: `NotEighty`; `Identifier` if the label does not begin with `HDR1`;
/// `NotDigits(28)` and `FieldRange(28)` for the section number; `NotDigits(32)` and
/// `FieldRange(32)` for the sequence number.
#[tactic(auto, unfolding(crate::specs::Reading::head1_at))]
pub fn read_head1(label: &[u8]) -> Result<Head1, LabelFault>
    ensures found { IfOk result (IsHead1 label.now) }
    ensures only { (fields : Head1) → IsHead1 label.now fields → result ≡ Ok fields }
    ensures other { (kind : Kind) → HasKind label.now kind → kind ≢ Kind.Hdr1
        → result ≡ Err LabelFault.Identifier }
    ensures fault { result ≡ head1_at label.now }
{
    let Some(Kind::Hdr1) = kind(label) else {
        return Err(no_kind(label));
    };
    head_at(label)
}

/// Reads a second header or trailer label, `HDR2`, `EOF2` or `EOV2` (ECMA-13, 4th edition, "Second
/// File Header Label"). Reads two spaces as the buffer offset 0. Accepts anything in reserved
/// positions.
///
/// # Errors
///
/// Returns, in this order: `NotEighty`; `Identifier` if the label begins otherwise; `Format`;
/// `NotDigits(6)` for the block length; `NotDigits(11)` for the record length, and `FieldRange(11)`
/// if it is 0 and the format is `Fixed`; `NotDigits(51)` for the buffer offset.
#[tactic(auto, unfolding(crate::specs::Reading::head2_at))]
pub fn read_head2(label: &[u8]) -> Result<Head2, LabelFault>
    ensures found { IfOk result (λ fields. (which : Kind) × IsHead2 label.now which fields) }
    ensures only { (which : Kind) (fields : Head2) → IsHead2 label.now which fields
        → result ≡ Ok fields }
    ensures other { (kind : Kind) → HasKind label.now kind → (¬ IsSecond kind)
        → result ≡ Err LabelFault.Identifier }
    ensures fault { result ≡ head2_at label.now }
{
    let Some(Kind::Hdr2 | Kind::Eof2 | Kind::Eov2) = kind(label) else {
        return Err(no_kind(label));
    };
    let format = format_at(label)?;
    let block_len = number_at(label, 6, 10, 0)? as u32;
    let least = match format {
        Format::Fixed => 1,
        _ => 0,
    };
    let rec_len = number_at(label, 11, 15, least)? as u32;
    let offset = offset_at(label)? as u8;
    Ok(Head2 {
        format,
        block_len,
        rec_len,
        offset,
    })
}

/// Reads a first trailer label, `EOF1` or `EOV1` (ECMA-13, 4th edition, end of file and end of
/// volume labels). Accepts anything in reserved positions.
///
/// # Errors
///
/// The errors are those of `read_head1`, with the identifiers `EOF1` and `EOV1`, and then
/// `NotDigits(55)` for the block count.
#[tactic(auto, unfolding(crate::specs::Reading::trail1_at))]
pub fn read_trail1(label: &[u8]) -> Result<Trail1, LabelFault>
    ensures found { IfOk result (IsTrail1 label.now) }
    ensures only { (fields : Trail1) → IsTrail1 label.now fields → result ≡ Ok fields }
    ensures other { (kind : Kind) → HasKind label.now kind → (¬ IsFirstTrailer kind)
        → result ≡ Err LabelFault.Identifier }
    ensures fault { result ≡ trail1_at label.now }
{
    let eof = match kind(label) {
        Some(Kind::Eof1) => true,
        Some(Kind::Eov1) => false,
        _ => return Err(no_kind(label)),
    };
    let head = head_at(label)?;
    let blocks = number_at(label, 55, 60, 0)? as u32;
    Ok(Trail1 { eof, head, blocks })
}

/// Reads the fields that first header labels and first trailer labels share.
#[tactic(auto, unfolding(crate::specs::Reading::head_at))]
fn head_at(label: &[u8]) -> Result<Head1, LabelFault>
    requires { length label.now ≡ 80 }
    ensures { result ≡ head_at label.now }
{
    let sect = number_at(label, 28, 31, 1)? as u16;
    let sequence = number_at(label, 32, 35, 1)? as u16;
    Ok(Head1 {
        file_id: field_at(label, 5),
        set_id: field_at(label, 22),
        sect,
        sequence,
        generation: field_at(label, 36),
        gen_version: field_at(label, 40),
        created: field_at(label, 42),
        expires: field_at(label, 48),
        access: character_at(label, 54),
        implementation: field_at(label, 61),
    })
}
