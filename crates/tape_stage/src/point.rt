//! Reading and writing checkpoints: their fields, and the rules that connect the fields.

pub mod text;

ghost use Rattle.std.specs.Prelude.{◌≡◌, IfOk, Ok, ◌<◌, is_some, IfSome};
ghost use Rattle.tape_set.specs.Position.{sect_of};
ghost use Rattle.tape_core.specs.{Point.Point, Known.PositionFits};
ghost use Rattle.tape_stage.specs.Fields.{fields_of, form_of, place_of, known_by, point_by};
ghost use Rattle.tape_stage.specs.Text.{IsPointText, Fit, IsWritable, KnownFits};
ghost use Rattle.tape_stage.specs.{Fields.position_by, declared.point.Version.TheVariants.Two};
ghost use Rattle.tape_stage.specs.Fields.{form_agrees, is_blank, is_right, place_agrees};
ghost use Rattle.tape_stage.specs.Reading.{reading, wide_reading, reading_by};
ghost use Rattle.tape_stage.specs.{Text.IsStandard, declared.point.Version.Version};

use crate::point::text::{PointFault, fields_text, text_at};
use tape_core::{Checkpoint, Known};
use tape_label::{Field, Format};
use tape_set::Position;

/// The versions of the text.
#[derive(Clone, Copy)]
pub enum Version {
    /// A text with a block number of six digits, and without a part. It is read, but no longer
    /// written.
    One,
    /// A text with a block number of ten digits, and a part number.
    Two,
}

/// The numbers of the block and of the part.
#[derive(Clone, Copy)]
pub struct Place {
    /// The number of the block in its section, counted from 0.
    pub block: u64,
    /// The number of delivered parts of the block.
    pub part: u64,
}

/// The letter `D` or `R`, and the two digits after it.
#[derive(Clone, Copy)]
pub struct Flags {
    /// Whether the whole file was delivered.
    pub done: bool,
    /// Whether a record is unfinished.
    pub begun: bool,
    /// Whether the form of the file is known.
    pub known: bool,
}

/// The fields of the file's form.
#[derive(Clone, Copy)]
pub struct Form {
    /// The record format, or `None` for a space.
    pub format: Option<Format>,
    /// The record length of format F.
    pub rec_len: u64,
    /// The buffer offset.
    pub offset: u64,
    /// The file identifier.
    pub file_id: Field<17>,
}

/// All fields after the version; both versions have the same fields.
#[derive(Clone, Copy)]
pub struct Fields {
    /// The file set identifier.
    pub set_id: Field<6>,
    /// The number of the file.
    pub file: u64,
    /// The number of the section.
    pub sect: u64,
    /// The block and the part.
    pub place: Place,
    /// Whether the file is complete, a record is unfinished, and the form is known.
    pub flags: Flags,
    /// The fields of the file's form.
    pub form: Form,
    /// The weight of the staged parts.
    pub staged: u64,
}

/// Reads the text of a checkpoint, in version 1 or 2, of a file whose form is unknown or whose
/// format is F, D or S. A text of version 1 has part 0.
///
/// # Errors
///
/// Returns `Length` if the text does not have 80 characters; then `Mark` or `Version` for the first
/// five characters; then `Field` with the first position of the first field that has a wrong
/// character; then `Range` if no checkpoint has these fields.
pub fn read_point(text: &[u8]) -> Result<Checkpoint, PointFault>
    // A text that is read is the text of the result, in one of the versions,
    ensures found { IfOk result (λ c. (version : Version) × IsPointText version text.now c) }
    // and the format of its file is F, D or S, if it is known;
    ensures standard { IfOk result (λ c. IsStandard c.known) }
    // every text of such a checkpoint in one of the versions is read,
    ensures only { (version : Version) (c : Point) → IsPointText version text.now c
        → IsStandard c.known → result ≡ Ok c }
    // and for any other text the first fault is returned.
    ensures exact { result ≡ reading text.now }
{
    point_at(false, text)
}

/// Reads the text of a checkpoint, in version 1 or 2, of a file of any format. A text that
/// `read_point` accepts is read as the same checkpoint.
///
/// # Errors
///
/// The errors are those of `read_point`.
pub fn read_wide_point(text: &[u8]) -> Result<Checkpoint, PointFault>
    ensures found { IfOk result (λ c. (version : Version) × IsPointText version text.now c) }
    ensures only { (version : Version) (c : Point) → IsPointText version text.now c → result
        ≡ Ok c }
    ensures agrees { (c : Point) → reading text.now ≡ Ok c → result ≡ Ok c }
    ensures exact { result ≡ wide_reading text.now }
{
    point_at(true, text)
}

/// Returns the checkpoint of the text, or the fault of the first test that fails.
#[tactic(auto, unfolding(crate::specs::Reading::reading_by))]
fn point_at(wide: bool, text: &[u8]) -> Result<Checkpoint, PointFault>
    ensures { result ≡ reading_by wide text.now }
{
    let (_, fields) = text_at(wide, text)?;
    match checkpoint_of(&fields) {
        Some(point) => Ok(point),
        None => Err(PointFault::Range),
    }
}

/// Writes a checkpoint, in version 2. Reading the text yields the same checkpoint.
pub fn write_point(point: &Checkpoint) -> [u8; 80]
    ensures { IsPointText Two result point.now }
{
    fields_text(&fields_of(point))
}

/// A file identifier of spaces, which represents an unknown file.
const SPACES: [u8; 17] = [b' '; 17];

/// Returns the fields of the file's form.
fn form_of(known: &Option<Known>) -> Form
    ensures value { result ≡ form_of known.now }
    ensures rec_len { result.rec_len < 100000 }
    ensures offset { result.offset < 100 }
    ensures known { KnownFits known.now }
{
    match known {
        Some(known) => Form {
            format: Some(known.format),
            rec_len: u64::from(known.rec_len),
            offset: u64::from(known.offset),
            file_id: known.file_id,
        },
        None => Form {
            format: None,
            rec_len: 0,
            offset: 0,
            file_id: Field::of_bytes(SPACES),
        },
    }
}

/// Returns the number of the section, and the numbers of the block and the part.
fn place_of(position: Position) -> (u64, Place)
    requires { PositionFits position }
    ensures sect { result.0 ≡ sect_of position }
    ensures place { result.1 ≡ place_of position }
    ensures fits { result.0 < 10000 }
    ensures block { result.1.block < 10000000000 }
    ensures part { result.1.part < 100000 }
{
    match position {
        Position::Awaits { sect, block, part } => {
            let (block, part) = (u64::from(block), u64::from(part));
            (u64::from(sect), Place { block, part })
        }
        Position::Finished => (0, Place { block: 0, part: 0 }),
    }
}

/// Returns the fields of a checkpoint.
pub(crate) fn fields_of(point: &Checkpoint) -> Fields
    ensures value { result ≡ fields_of point.now }
    ensures fit { Fit Two result }
    ensures writable { IsWritable Two point.now }
{
    let (sect, place) = place_of(point.position);
    Fields {
        set_id: point.set_id,
        file: u64::from(point.file),
        sect,
        place,
        flags: Flags {
            done: matches!(point.position, Position::Finished),
            begun: point.begun,
            known: point.known.is_some(),
        },
        form: form_of(&point.known),
        staged: point.staged,
    }
}

/// The greatest number of a block.
const MOST_BLOCKS: u64 = 4_294_967_295;

/// Returns the position in the given fields, or `None` if the section, the block and the part are
/// not possible in the state.
fn position_by(fields: &Fields) -> Option<Position>
    requires { Fit Two fields.now }
    ensures agrees { is_some result ≡ place_agrees fields.now }
    ensures value { IfSome result (λ position. position ≡ position_by fields.now) }
{
    let place = fields.place;
    if fields.flags.done {
        if fields.sect == 0 && place.block == 0 && place.part == 0 {
            return Some(Position::Finished);
        }
        return None;
    }
    if place.block > MOST_BLOCKS {
        return None;
    }
    Some(Position::Awaits {
        sect: fields.sect as u16,
        block: place.block as u32,
        part: place.part as u32,
    })
}

/// Returns the form in the given fields, or `Some(None)` if no form is given, or `None` if the
/// fields do not agree.
fn known_by(form: &Form, known: bool) -> Option<Option<Known>>
    requires rec_len { form.now.rec_len < 100000 }
    requires offset { form.now.offset < 100 }
    ensures agrees { is_some result ≡ form_agrees form.now known form.now.format }
    ensures value { IfSome result (λ told. told ≡ known_by form.now) }
{
    let Some(format) = form.format else {
        let is_blank = form.rec_len == 0 && form.offset == 0;
        if known || !is_blank || form.file_id.bytes() != SPACES.as_slice() {
            return None;
        }
        return Some(None);
    };
    if !known {
        return None;
    }
    match Known::from_parts(format, form.rec_len as u32, form.offset as u8, form.file_id) {
        Some(known) => Some(Some(known)),
        None => None,
    }
}

/// Returns the checkpoint with the given fields, or `None` if there is none.
pub(crate) fn checkpoint_of(fields: &Fields) -> Option<Checkpoint>
    requires { Fit Two fields.now }
    ensures right { is_some result ≡ is_right fields.now }
    ensures value { IfSome result (λ c. c ≡ point_by fields.now) }
{
    let position = position_by(fields)?;
    let known = known_by(&fields.form, fields.flags.known)?;
    let begun = fields.flags.begun;
    Checkpoint::from_parts(
        fields.set_id,
        fields.file as u16,
        position,
        begun,
        known,
        fields.staged,
    )
}
