//! The fields of labels.

ghost use Rattle.std.specs.Prelude.{◌≡◌, ◌↔◌, IsTrue, ◌+◌, ◌-◌, ◌<◌, ◌≤◌, ◌++◌, List, ℕ, length};
ghost use Rattle.std.specs.Prelude.{replicate, slice_range, IfSome, IfNone, Ok, Err};
ghost use Rattle.std.specs.Str.{bytes_eq};
ghost use Rattle.tape_label.specs.Characters.{first_other, is_a_character};

use crate::label::LabelFault;
use std::marker::Model;

/// Returns true if the byte is an a-character: a space, one of `! " % & ' ( ) * + , - . /`, a
/// digit, one of `: ; < = > ?`, a capital letter or `_` (ECMA-13, 4th edition, "a-characters").
pub fn is_a_character(byte: u8) -> bool
    ensures { result ≡ is_a_character byte }
{
    matches!(byte, b' '..=b'"' | b'%'..=b'?' | b'A'..=b'Z' | b'_')
}

/// Returns the index, counted from 0, of the first byte that is not an a-character, or `None` if
/// all bytes are a-characters.
pub fn first_other(text: &[u8]) -> Option<usize>
    ensures { result ≡ first_other text.now }
{
    text.iter().position(|byte| !is_a_character(*byte))
}

/// The characters of a field of `N` positions. A field that was read may contain any bytes.
#[derive(Clone, Copy, Debug, PartialEq, Eq, Hash)]
pub struct Field<const N: usize> {
    characters: [u8; N],
}

// In contracts a field is the list of its bytes. The contract of `bytes` says that there are N of
// them.
impl<const N: usize> Model for Field<N> {
    ghost Value = { List ℕ };

    ghost view = { λ field. field.characters };

    ghost inverse = { λ bytes. record { characters = bytes } };
}

impl<const N: usize> Field<N> {
    /// Creates a field from `text`, filled with spaces on the right (ECMA-13, 4th edition,
    /// "a-characters").
    ///
    /// # Errors
    ///
    /// Returns `FieldLength` if the text has more than `N` bytes; then `NotACharacter` with the
    /// index of the first byte that is not an a-character.
    pub fn new(text: &str) -> Result<Field<N>, LabelFault>
        ensures long { N < length text.now → result ≡ Err LabelFault.FieldLength }
        ensures other { length text.now ≤ N
            → IfSome (first_other text.now)
            (λ place. result ≡ Err (LabelFault.NotACharacter place)) }
        ensures fits { length text.now ≤ N
            → IfNone (first_other text.now)
            (result ≡ Ok (text.now ++ replicate (N - length text.now) 32)) }
    {
        let text = text.as_bytes();
        if text.len() > N {
            return Err(LabelFault::FieldLength);
        }
        if let Some(place) = first_other(text) {
            return Err(LabelFault::NotACharacter(place));
        }
        let mut characters = [b' '; N];
        characters[..text.len()].copy_from_slice(text);
        Ok(Field { characters })
    }

    /// Creates a field of exactly the given bytes, whatever they are.
    pub fn of_bytes(bytes: [u8; N]) -> Field<N>
        ensures { result ≡ bytes.entry }
    {
        Field { characters: bytes }
    }

    /// Returns all bytes of the field, including the spaces on its right.
    pub fn bytes(&self) -> &[u8]
        ensures value { result.now ≡ self.now }
        ensures len { length result.now ≡ N }
    {
        &self.characters
    }
}

/// Compares two fields: they are equal if and only if their bytes are.
pub fn same_field<const N: usize>(a: &Field<N>, b: &Field<N>) -> bool
    ensures equal { IsTrue result ↔ (a.now ≡ b.now) }
    // The result is this function of the fields.
    ensures exact { result ≡ bytes_eq a.now b.now }
{
    a.bytes() == b.bytes()
}

/// Returns the field that begins at position `first`, counted from 1.
pub(crate) fn field_at<const N: usize>(label: &[u8], first: usize) -> Field<N>
    requires first { 1 ≤ first }
    requires last { first - 1 + N ≤ length label.now }
    ensures { result ≡ slice_range label.now (first - 1) (first - 1 + N) }
{
    let start = first - 1;
    let mut characters = [0; N];
    characters.copy_from_slice(&label[start..start + N]);
    Field { characters }
}

/// A volume label, `VOL1` (ECMA-13, 4th edition, "Volume Header Label").
#[derive(Clone, Copy, Debug, PartialEq, Eq)]
pub struct Vol1 {
    /// The volume identifier, at positions 5 to 10.
    pub volume: Field<6>,
    /// The accessibility, at position 11: a space if anyone may read the volume.
    pub access: u8,
    /// The identifier of the system that wrote the label, at positions 25 to 37.
    pub implementation: Field<13>,
    /// The owner of the volume, at positions 38 to 51.
    pub owner: Field<14>,
    /// The version of the label standard, at position 80: `4` for the fourth edition. Any value is
    /// accepted.
    pub version: u8,
}

/// A first header label, `HDR1` (ECMA-13, 4th edition, "First File Header Label").
#[derive(Clone, Copy, Debug, PartialEq, Eq)]
pub struct Head1 {
    /// The file identifier, at positions 5 to 21.
    pub file_id: Field<17>,
    /// The file set identifier, at positions 22 to 27: the same in all files of the set.
    pub set_id: Field<6>,
    /// The file section number, 1 to 9,999, at positions 28 to 31.
    pub sect: u16,
    /// The file sequence number, 1 to 9,999, at positions 32 to 35: the number of the file in its
    /// set.
    pub sequence: u16,
    /// The generation number, at positions 36 to 39, as characters.
    pub generation: Field<4>,
    /// The generation version number, at positions 40 and 41, as characters.
    pub gen_version: Field<2>,
    /// The creation date, at positions 42 to 47, as characters.
    pub created: Field<6>,
    /// The expiration date, at positions 48 to 53, as characters.
    pub expires: Field<6>,
    /// The accessibility, at position 54: a space if anyone may read the file.
    pub access: u8,
    /// The identifier of the system that wrote the label, at positions 61 to 73.
    pub implementation: Field<13>,
}

/// The record format: how blocks contain records. `F`, `D` and `S` are the formats of ECMA-13 (4th
/// edition, "Second File Header Label", record format).
#[derive(Clone, Copy, Debug, PartialEq, Eq)]
pub enum Format {
    /// `F`: each record has the record length.
    Fixed,
    /// `D`: each record is preceded by its length.
    Counted,
    /// `S`: records are divided into segments, and may continue in the next block or volume.
    Spanned,
    /// `U`: each block is one record. Only the wider reading accepts it.
    Undefined,
    /// `V`: each block begins with its length, and each record or segment with its own, in binary;
    /// records may continue in the next block or volume. Only the wider reading accepts it.
    Variable,
}

impl Format {
    ghost use Rattle.tape_label.specs.Formats.{letter};

    /// Returns the format's letter in a label: `F`, `D`, `S`, `U` or `V`.
    pub fn letter(&self) -> u8
        ensures { result ≡ letter self.now }
    {
        match self {
            Format::Fixed => b'F',
            Format::Counted => b'D',
            Format::Spanned => b'S',
            Format::Undefined => b'U',
            Format::Variable => b'V',
        }
    }
}

/// A second header or trailer label, `HDR2`, `EOF2` or `EOV2` (ECMA-13, 4th edition, "Second File
/// Header Label").
#[derive(Clone, Copy, Debug, PartialEq, Eq)]
pub struct Head2 {
    /// The record format, at position 5.
    pub format: Format,
    /// The maximum length of a block in bytes, 0 to 99,999, at positions 6 to 10.
    pub block_len: u32,
    /// The record length in bytes, 0 to 99,999, at positions 11 to 15; at least 1 if the format is
    /// `Fixed`.
    pub rec_len: u32,
    /// The number of bytes before the first record of each block, 0 to 99, at positions 51 and 52.
    pub offset: u8,
}

/// A first trailer label (ECMA-13, 4th edition, end of file and end of volume labels).
#[derive(Clone, Copy, Debug, PartialEq, Eq)]
pub struct Trail1 {
    /// True for `EOF1`, at the end of the file; false for `EOV1`, if the file continues on another
    /// volume.
    pub eof: bool,
    /// The fields that the label shares with the first header label of its section.
    pub head: Head1,
    /// The block count at positions 55 to 60, 0 to 999,999: the last six digits if the section has
    /// more blocks.
    pub blocks: u32,
}

/// The labels that can be read and written.
#[derive(Clone, Copy, Debug, PartialEq, Eq)]
pub enum Kind {
    /// `VOL1`, the volume label.
    Vol1,
    /// `HDR1`, the first header label of a section.
    Hdr1,
    /// `HDR2`, the second header label of a section.
    Hdr2,
    /// `EOF1`, the first trailer label of a file's last section.
    Eof1,
    /// `EOF2`, the second trailer label of a file's last section.
    Eof2,
    /// `EOV1`, the first trailer label of a section if the file continues on another volume.
    Eov1,
    /// `EOV2`, the second trailer label of a section if the file continues on another volume.
    Eov2,
}

impl Kind {
    ghost use Rattle.tape_label.specs.Kinds.{identifier, IsSecond};

    /// Returns the first four characters of a label of this kind.
    pub fn identifier(&self) -> &'static [u8; 4]
        ensures { result.now ≡ identifier self.now }
    {
        match self {
            Kind::Vol1 => b"VOL1",
            Kind::Hdr1 => b"HDR1",
            Kind::Hdr2 => b"HDR2",
            Kind::Eof1 => b"EOF1",
            Kind::Eof2 => b"EOF2",
            Kind::Eov1 => b"EOV1",
            Kind::Eov2 => b"EOV2",
        }
    }

    /// Returns true for a second label: `HDR2`, `EOF2` or `EOV2`.
    pub fn is_second(&self) -> bool
        ensures { IsTrue result ↔ IsSecond self.now }
    {
        matches!(self, Kind::Hdr2 | Kind::Eof2 | Kind::Eov2)
    }
}
