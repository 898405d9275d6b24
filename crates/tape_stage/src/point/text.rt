//! The text of a checkpoint: its fields, read and written character by character.

ghost use Rattle.std.specs.Prelude.{◌≡◌, ◌≤◌, length, ◌<◌, ◌+◌, ◌-◌, if◌then◌else◌};
ghost use Rattle.tape_label.specs.{Positions.positions, Written.text_of, Written.HaveWidths};
ghost use Rattle.tape_stage.specs.Reading.{version_by, state_position, fields_at, text_at};
ghost use Rattle.tape_stage.specs.Reading.{place_at, flags_at, form_at, number_at, flag_at};
ghost use Rattle.tape_stage.specs.Reading.{format_at, tail_at};
ghost use Rattle.tape_stage.specs.Text.{format_letter, Fit, pieces};
ghost use Rattle.tape_stage.specs.{Reading.number, declared.point.Version.TheVariants.Two};

use crate::point::{Fields, Flags, Form, Place, Version};
use arrayvec::ArrayVec;
use tape_label::{Field, Format, digits_of, digits_value, put};
use thiserror::Error;

/// The reason why a text is not a checkpoint. Positions in the text are counted from 1.
#[derive(Clone, Copy, Debug, PartialEq, Eq, Error)]
pub enum PointFault {
    /// The text does not have 80 characters.
    #[error("a checkpoint has 80 characters")]
    Length,
    /// The text does not begin with `TPCK`.
    #[error("the text is not a checkpoint")]
    Mark,
    /// The version is neither `1` nor `2`.
    #[error("unknown version")]
    Version,
    /// A character of the field that begins at this position is not allowed in the field.
    #[error("invalid character in the field at position {0}")]
    Field(u8),
    /// Each field is valid, but no checkpoint has these fields together.
    #[error("the fields do not form a valid checkpoint")]
    Range,
}

impl PointFault {
    /// Returns the fixed number of the fault, from 1 to 5 in the order of the list above.
    pub fn number(&self) -> u8
        ensures { result ≡ number self.now }
    {
        match self {
            PointFault::Length => 1,
            PointFault::Mark => 2,
            PointFault::Version => 3,
            PointFault::Field(_) => 4,
            PointFault::Range => 5,
        }
    }
}

const SPACES: [u8; 12] = [b' '; 12];

/// Returns the decimal number at the positions `first` to `last`.
pub(crate) fn number_at(text: &[u8], first: u8, last: u8) -> Result<u64, PointFault>
    requires first { 1 ≤ first }
    requires order { first ≤ last }
    requires last { last ≤ length text.now }
    requires width { last < first + 19 }
    ensures { result ≡ number_at text.now first last }
{
    match digits_value(&text[first as usize - 1..last as usize]) {
        None => Err(PointFault::Field(first)),
        Some(number) => Ok(number),
    }
}

/// Returns true if the character at `position` is `yes`, and false if it is `no`.
pub(crate) fn flag_at(text: &[u8], position: u8, yes: u8, no: u8) -> Result<bool, PointFault>
    requires first { 1 ≤ position }
    requires last { position ≤ length text.now }
    ensures { result ≡ flag_at text.now position yes no }
{
    let c = text[position as usize - 1];
    if c == yes {
        return Ok(true);
    }
    if c == no {
        return Ok(false);
    }
    Err(PointFault::Field(position))
}

/// Returns the record format at `position`, or `None` for a space; `U` and `V` only if `wide` is
/// true.
pub(crate) fn format_at(wide: bool, text: &[u8], position: u8) -> Result<Option<Format>, PointFault>
    requires first { 1 ≤ position }
    requires last { position ≤ length text.now }
    ensures { result ≡ format_at wide text.now position }
{
    match text[position as usize - 1] {
        b'F' => Ok(Some(Format::Fixed)),
        b'D' => Ok(Some(Format::Counted)),
        b'S' => Ok(Some(Format::Spanned)),
        b'U' if wide => Ok(Some(Format::Undefined)),
        b'V' if wide => Ok(Some(Format::Variable)),
        b' ' => Ok(None),
        _ => Err(PointFault::Field(position)),
    }
}

/// Accepts spaces from position `first` to the end.
pub(crate) fn tail_at(text: &[u8], first: u8) -> Result<(), PointFault>
    requires size { length text.now ≡ 80 }
    requires first { (69 ≤ first) × (first ≤ 81) }
    ensures { result ≡ tail_at text.now first }
{
    if &text[first as usize - 1..] == &SPACES[..81 - first as usize] {
        return Ok(());
    }
    Err(PointFault::Field(first))
}

/// Returns the `N` characters from position `first`, as a field.
pub(crate) fn field_at<const N: usize>(text: &[u8], first: u8) -> Field<N>
    requires first { 1 ≤ first }
    requires last { first + N ≤ length text.now + 1 }
    ensures { result ≡ positions text.now first (first - 1 + N) }
{
    let start = first as usize - 1;
    let mut characters = [0; N];
    characters.copy_from_slice(&text[start..start + N]);
    Field::of_bytes(characters)
}

/// Returns the version with the given digit.
fn version_by(digit: u8) -> Result<Version, PointFault>
    ensures { result ≡ version_by digit }
{
    match digit {
        b'1' => Ok(Version::One),
        b'2' => Ok(Version::Two),
        _ => Err(PointFault::Version),
    }
}

/// Returns the position of the letter for the state.
fn state_position(version: Version) -> u8
    ensures value { result ≡ state_position version }
    ensures low { 26 ≤ result }
    ensures high { result ≤ 35 }
{
    match version {
        Version::One => 26,
        Version::Two => 35,
    }
}

/// Reads all fields after the version.
#[tactic(auto, unfolding(crate::specs::Reading::fields_at, crate::specs::Reading::staged_at))]
fn fields_at(wide: bool, version: Version, text: &[u8]) -> Result<Fields, PointFault>
    requires { length text.now ≡ 80 }
    ensures { result ≡ fields_at wide version text.now }
{
    let file = number_at(text, 12, 15)?;
    let sect = number_at(text, 16, 19)?;
    let place = place_at(version, text)?;
    let state = state_position(version);
    let flags = flags_at(text, state)?;
    let form = form_at(wide, text, state + 3)?;
    let weight = state + 28;
    let staged = number_at(text, weight, weight + 14)?;
    tail_at(text, weight + 15)?;
    Ok(Fields {
        set_id: field_at(text, 6),
        file,
        sect,
        place,
        flags,
        form,
        staged,
    })
}

/// Reads the version and the fields.
#[tactic(auto, unfolding(crate::specs::Reading::text_at))]
pub(crate) fn text_at(wide: bool, text: &[u8]) -> Result<(Version, Fields), PointFault>
    ensures { result ≡ text_at wide text.now }
{
    if text.len() != 80 {
        return Err(PointFault::Length);
    }
    if &text[..4] != b"TPCK".as_slice() {
        return Err(PointFault::Mark);
    }
    let version = version_by(text[4])?;
    let fields = fields_at(wide, version, text)?;
    Ok((version, fields))
}

/// Reads the block and the part.
#[tactic(auto, unfolding(crate::specs::Reading::place_at))]
pub(crate) fn place_at(version: Version, text: &[u8]) -> Result<Place, PointFault>
    requires { length text.now ≡ 80 }
    ensures { result ≡ place_at version text.now }
{
    match version {
        Version::One => {
            let block = number_at(text, 20, 25)?;
            Ok(Place { block, part: 0 })
        }
        Version::Two => {
            let block = number_at(text, 20, 29)?;
            let part = number_at(text, 30, 34)?;
            Ok(Place { block, part })
        }
    }
}

/// Reads the letter for the state, and the two digits after it.
#[tactic(auto, unfolding(crate::specs::Reading::flags_at))]
pub(crate) fn flags_at(text: &[u8], first: u8) -> Result<Flags, PointFault>
    requires size { length text.now ≡ 80 }
    requires first { (26 ≤ first) × (first ≤ 35) }
    ensures { result ≡ flags_at text.now first }
{
    let done = flag_at(text, first, b'D', b'R')?;
    let begun = flag_at(text, first + 1, b'1', b'0')?;
    let known = flag_at(text, first + 2, b'1', b'0')?;
    Ok(Flags { done, begun, known })
}

/// Reads the fields of the file's form.
#[tactic(auto, unfolding(crate::specs::Reading::form_at))]
pub(crate) fn form_at(wide: bool, text: &[u8], first: u8) -> Result<Form, PointFault>
    requires size { length text.now ≡ 80 }
    requires first { (29 ≤ first) × (first ≤ 38) }
    ensures { result ≡ form_at wide text.now first }
{
    let format = format_at(wide, text, first)?;
    let rec_len = number_at(text, first + 1, first + 5)?;
    let offset = number_at(text, first + 6, first + 7)?;
    Ok(Form {
        format,
        rec_len,
        offset,
        file_id: field_at(text, first + 8),
    })
}

/// Returns `yes` for true, `no` for false.
fn flag_letter(flag: bool, yes: u8, no: u8) -> u8
    ensures { result ≡ if flag then yes else no }
{
    if flag { yes } else { no }
}

/// Returns the letter of the format, or a space for `None`.
fn format_letter(format: Option<Format>) -> u8
    ensures { result ≡ format_letter format }
{
    match format {
        Some(format) => format.letter(),
        None => b' ',
    }
}

/// Returns the text of `fields` in version 2.
pub(crate) fn fields_text(fields: &Fields) -> [u8; 80]
    requires { Fit Two fields.now }
    ensures text { result ≡ text_of (pieces Two fields.now) }
    ensures widths { HaveWidths (pieces Two fields.now) }
{
    let mut text = ArrayVec::new();
    put(&mut text, b"TPCK2");
    put(&mut text, fields.set_id.bytes());
    put(&mut text, &digits_of::<4>(fields.file));
    put(&mut text, &digits_of::<4>(fields.sect));
    put(&mut text, &digits_of::<10>(fields.place.block));
    put(&mut text, &digits_of::<5>(fields.place.part));
    text.push(flag_letter(fields.flags.done, b'D', b'R'));
    text.push(flag_letter(fields.flags.begun, b'1', b'0'));
    text.push(flag_letter(fields.flags.known, b'1', b'0'));
    text.push(format_letter(fields.form.format));
    put(&mut text, &digits_of::<5>(fields.form.rec_len));
    put(&mut text, &digits_of::<2>(fields.form.offset));
    put(&mut text, fields.form.file_id.bytes());
    put(&mut text, &digits_of::<15>(fields.staged));
    put(&mut text, b"   ");
    text.into_inner().unwrap()
}
