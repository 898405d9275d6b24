//! The fields of labels, by their names.

use std::alloc::{AllocError, Global};
use std::fmt;
use std::io::Write;
use tape_core::normal::to_ascii;
use tape_label::Field;
use tape_run::text::write_line;
use tape_run::{WriteFailed, date_of};

/// The number of characters in a label.
pub const SIZE: usize = 80;

/// The code of the text of a block.
#[derive(Clone, Copy, PartialEq, Eq)]
pub enum TextCode {
    /// ASCII.
    Ascii,
    /// EBCDIC, code page 037.
    Ebcdic,
}

/// The fields of a label, in their order: their names and widths.
type Fields = &'static [(&'static str, usize)];

/// The fields of `VOL1`.
const VOL1: Fields = &[
    ("label identifier", 4),
    ("volume identifier", 6),
    ("accessibility", 1),
    ("reserved", 13),
    ("implementation", 13),
    ("owner", 14),
    ("reserved", 28),
    ("label standard version", 1),
];

/// The fields of `HDR1`, `EOF1` and `EOV1`.
const FIRST: Fields = &[
    ("label identifier", 4),
    ("file identifier", 17),
    ("file set identifier", 6),
    ("section number", 4),
    ("sequence number", 4),
    ("generation number", 4),
    ("generation version", 2),
    (CREATED, 6),
    (EXPIRES, 6),
    ("accessibility", 1),
    ("block count", 6),
    ("implementation", 13),
    ("reserved", 7),
];

const CREATED: &str = "creation date";

const EXPIRES: &str = "expiration date";

/// The fields of `HDR2`, `EOF2` and `EOV2`.
const SECOND: Fields = &[
    ("label identifier", 4),
    ("record format", 1),
    ("block length", 5),
    ("record length", 5),
    ("for the system", 35),
    ("buffer offset", 2),
    ("reserved", 28),
];

/// The fields of any other label.
const OTHER: Fields = &[("label identifier", 4), ("contents", 76)];

/// Returns the fields of the label that begins with these four characters in ASCII.
fn fields_of(name: [u8; 4]) -> Fields {
    match &name {
        b"VOL1" => VOL1,
        b"HDR1" | b"EOF1" | b"EOV1" => FIRST,
        b"HDR2" | b"EOF2" | b"EOV2" => SECOND,
        _ => OTHER,
    }
}

/// Returns the character of a byte in the code `code`, if it is a printable one of ASCII.
pub fn shown_char(code: TextCode, byte: u8) -> Option<char> {
    match in_code(code, byte) {
        byte @ b' '..=b'~' => Some(char::from(byte)),
        _ => None,
    }
}

/// Returns the character of a byte in the code `code`, in ISO 8859-1.
fn in_code(code: TextCode, byte: u8) -> u8 {
    match code {
        TextCode::Ascii => byte,
        TextCode::Ebcdic => to_ascii(byte),
    }
}

/// Returns the code of a block of 80 characters, if it begins as a label: with `VOL`, `UVL`, `HDR`,
/// `UHL`, `EOF`, `EOV` or `UTL` and a digit or a letter.
pub fn code_of(block: &[u8; SIZE]) -> Option<TextCode> {
    for code in [TextCode::Ascii, TextCode::Ebcdic] {
        let [a, b, c, d, ..] = block;
        let name = [in_code(code, *a), in_code(code, *b), in_code(code, *c)];
        let is_name = matches!(
            &name,
            b"VOL" | b"UVL" | b"HDR" | b"UHL" | b"EOF" | b"EOV" | b"UTL"
        );
        if is_name && in_code(code, *d).is_ascii_alphanumeric() {
            return Some(code);
        }
    }
    None
}

/// Writes a line for each field of a label, and one for the padding after it, with all of its
/// characters. A byte that is not a printable character of ASCII in the code `code` is shown in
/// hexadecimal, after `\x`.
pub fn write_fields<W: Write>(
    writer: &mut W,
    code: TextCode,
    label: &[u8; SIZE],
    padding: &[u8],
) -> Result<(), WriteFailed> {
    let [a, b, c, d, ..] = label;
    let name = [a, b, c, d].map(|byte| in_code(code, *byte));
    let (mut first, mut rest) = (1usize, label.as_slice());
    for (name, width) in fields_of(name) {
        let Some((value, behind)) = rest.split_at_checked(*width) else {
            break;
        };
        write_line(
            writer,
            &FieldLine {
                first,
                name,
                value,
                code,
            },
        )?;
        (first, rest) = (first.saturating_add(*width), behind);
    }
    if padding.is_empty() {
        return Ok(());
    }
    write_line(
        writer,
        &FieldLine {
            first,
            name: "padding",
            value: padding,
            code,
        },
    )
}

/// Adds to `text` a line for each field in which two labels in the code `code` differ. The fields are
/// those of the first label.
pub fn push_differences(
    alloc: Global,
    text: &mut String,
    code: TextCode,
    label: &[u8; SIZE],
    other: &[u8; SIZE],
) -> Result<(), AllocError> {
    let [a, b, c, d, ..] = label;
    let name = [a, b, c, d].map(|byte| in_code(code, *byte));
    let (mut rest, mut others) = (label.as_slice(), other.as_slice());
    for (name, width) in fields_of(name) {
        let Some((value, behind)) = rest.split_at_checked(*width) else {
            break;
        };
        let Some((other, after)) = others.split_at_checked(*width) else {
            break;
        };
        if value != other {
            let (value, other) = (Quoted { value, code }, Quoted { value: other, code });
            let line = format!(in alloc; "\n    {name}: {value} and {other}")?;
            text.push_str(line.as_str())?;
        }
        (rest, others) = (behind, after);
    }
    Ok(())
}

/// Characters in quotation marks.
#[derive(Clone, Copy)]
struct Quoted<'a> {
    value: &'a [u8],
    code: TextCode,
}

impl fmt::Display for Quoted<'_> {
    fn fmt<W: fmt::Write>(&self, f: &mut fmt::Formatter<W>) -> fmt::Result {
        f.write_str("\"")?;
        for byte in self.value {
            match shown_char(self.code, *byte) {
                Some('\\') => f.write_str("\\\\")?,
                Some(c) => f.write_char(c)?,
                None => write!(f, "\\x{byte:02X}")?,
            }
        }
        f.write_str("\"")
    }
}

/// The line of a field: its positions in the label, counted from 1, its name and its characters. A
/// date is followed by the day in the calendar.
#[derive(Clone, Copy)]
struct FieldLine<'a> {
    first: usize,
    name: &'static str,
    value: &'a [u8],
    code: TextCode,
}

impl fmt::Display for FieldLine<'_> {
    fn fmt<W: fmt::Write>(&self, f: &mut fmt::Formatter<W>) -> fmt::Result {
        let last = self
            .first
            .saturating_add(self.value.len())
            .saturating_sub(1);
        let first = self.first;
        match first < last {
            true => write!(f, "  {first:>2}-{last:<2}")?,
            false => write!(f, "  {first:>2}   ")?,
        }
        let FieldLine { value, code, .. } = *self;
        write!(f, "  {:<23} {}", self.name, Quoted { value, code })?;
        if self.name == CREATED || self.name == EXPIRES {
            self.write_day(f)?;
        }
        f.write_str("\n")
    }
}

impl FieldLine<'_> {
    /// Writes the day that the field means, if it means one.
    fn write_day<W: fmt::Write>(&self, f: &mut fmt::Formatter<W>) -> fmt::Result {
        let mut bytes = [b' '; 6];
        for (byte, given) in bytes.iter_mut().zip(self.value) {
            *byte = in_code(self.code, *given);
        }
        match date_of(&Field::of_bytes(bytes)) {
            Some(date) => write!(f, " {date}"),
            None => Ok(()),
        }
    }
}
