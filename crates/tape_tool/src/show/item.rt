//! One item as lines: a heading, and the fields of a label or rows of bytes.

ghost use Rattle.std.specs.Prelude.{◌≤◌, length, IfOk};

use super::ShowOrder;
use super::fields::{SIZE, TextCode, code_of, shown_char, write_fields};
use crate::fault::{FileFault, ToolFault};
use std::fmt;
use std::io::{Read, Seek, SeekFrom, Write};
use tape_image::fill;
use tape_run::text::write_line;
use tape_run::{WriteFailed, write_text};

/// What is shown: an item, or a block where the image cannot be read on.
#[derive(Clone, Copy, PartialEq, Eq)]
pub enum Sort {
    /// A block, which may be a label.
    Block,
    /// An unreadable block.
    Bad,
    /// A tape mark.
    Mark,
    /// A block in which the image ends.
    Cut,
    /// A block whose lengths differ.
    Differs,
    /// Nothing that is known.
    Nothing,
}

/// How items are shown.
#[derive(Clone, Copy)]
pub struct Look {
    /// Whether the bytes are written as they are.
    raw: bool,
    /// The code of the text of blocks.
    code: TextCode,
}

impl Look {
    /// Returns how items are shown that `order` requests.
    pub fn of(order: &ShowOrder<'_>) -> Look {
        Look {
            raw: order.raw,
            code: if order.ebcdic {
                TextCode::Ebcdic
            } else {
                TextCode::Ascii
            },
        }
    }
}

/// Shows item number `number` of the image in `file`, which begins at byte offset `from`, after any
/// erase gaps. At most 4,096 bytes of it are in memory.
pub fn show_item<F: Read + Seek, W: Write>(
    file: &mut F,
    from: u64,
    number: u64,
    sort: Sort,
    look: Look,
    writer: &mut W,
) -> Result<(), ToolFault> {
    if sort == Sort::Nothing {
        return Ok(());
    }
    let Some((place, length)) = find_bytes(file, from)? else {
        return Ok(());
    };
    if look.raw {
        return show_bytes(file, length, None, writer);
    }
    let bytes = (sort != Sort::Mark).then_some((place, length));
    if sort == Sort::Block && show_label(file, (place, length), number, writer)? {
        return Ok(());
    }
    let name = name_of(sort);
    write_line(
        writer,
        &Heading {
            number,
            name,
            bytes,
        },
    )?;
    show_bytes(file, length, Some(look.code), writer)
}

/// Shows a block of a number of bytes at a byte offset as a label, if it is one, with padding or
/// without. Otherwise shows nothing, and the file is read from that offset on again.
fn show_label<F: Read + Seek, W: Write>(
    file: &mut F,
    (place, length): (u64, u64),
    number: u64,
    writer: &mut W,
) -> Result<bool, ToolFault> {
    let Some(count @ 0..=MOST_PADDING) = length.checked_sub(SIZE as u64) else {
        return Ok(false);
    };
    let (mut label, mut padding) = ([0; SIZE], [0; MOST_PADDING as usize]);
    read(file, &mut label)?;
    read(file, &mut padding[..count as usize])?;
    let padding = &padding[..count as usize];
    let Some(code) = code_of(&label).filter(|_| is_padding(padding)) else {
        seek(file, place)?;
        return Ok(false);
    };
    let name = match code {
        TextCode::Ascii => "label",
        TextCode::Ebcdic => "label in EBCDIC",
    };
    write_line(
        writer,
        &Heading {
            number,
            name,
            bytes: Some((place, length)),
        },
    )?;
    write_fields(writer, code, &label, padding)?;
    Ok(true)
}

/// The maximum number of bytes after a label in one block.
const MOST_PADDING: u64 = 40;

/// Returns whether bytes after a label are padding: all are the same.
fn is_padding(bytes: &[u8]) -> bool {
    match bytes {
        [first, rest @ ..] => rest.iter().all(|byte| byte == first),
        [] => true,
    }
}

/// Returns what the heading of an item calls it.
fn name_of(sort: Sort) -> &'static str {
    match sort {
        Sort::Block | Sort::Nothing => "block",
        Sort::Bad => "unreadable block",
        Sort::Mark => "tape mark",
        Sort::Cut => "block, cut off",
        Sort::Differs => "block, its lengths differ",
    }
}

/// The word of an erase gap.
const GAP: u32 = 0xFFFF_FFFE;

/// Returns the offset and the number of the bytes of the item that begins at `from`, after any
/// erase gaps. The file is then read from that offset on. Returns `None` if the image ends before.
fn find_bytes<F: Read + Seek>(file: &mut F, from: u64) -> Result<Option<(u64, u64)>, ToolFault> {
    seek(file, from)?;
    let mut place = from;
    for _ in 0..u64::MAX {
        let mut word = [0; 4];
        if read(file, &mut word)? < word.len() {
            break;
        }
        place = place.saturating_add(4);
        let word = u32::from_le_bytes(word);
        if word != GAP {
            return Ok(Some((place, u64::from(word & 0x00FF_FFFF))));
        }
    }
    Ok(None)
}

/// Shows the next `length` bytes of the file, or those before its end: as rows with their text in
/// the code `code`, or as they are.
fn show_bytes<F: Read, W: Write>(
    file: &mut F,
    length: u64,
    code: Option<TextCode>,
    writer: &mut W,
) -> Result<(), ToolFault> {
    let mut bytes = [0; 4_096];
    let mut shown = 0u64;
    for _ in 0..u64::MAX {
        let wanted = length.saturating_sub(shown).min(4_096) as usize;
        let count = read(file, &mut bytes[..wanted])?;
        if count == 0 {
            break;
        }
        match code {
            None => write_text(writer, &bytes[..count])?,
            Some(code) => write_rows(writer, code, shown, &bytes[..count])?,
        }
        shown = shown.saturating_add(count as u64);
    }
    Ok(())
}

/// Writes rows of the bytes of a block, which follow `from` others.
fn write_rows<W: Write>(
    writer: &mut W,
    code: TextCode,
    from: u64,
    bytes: &[u8],
) -> Result<(), WriteFailed> {
    let mut place = from;
    for bytes in bytes.chunks(ROW) {
        write_line(writer, &Row { place, bytes, code })?;
        place = place.saturating_add(ROW as u64);
    }
    Ok(())
}

/// The number of bytes in a row.
const ROW: usize = 16;

/// A row: the offset of its first byte in the block, its bytes in hexadecimal, and their text.
#[derive(Clone, Copy)]
struct Row<'a> {
    place: u64,
    bytes: &'a [u8],
    code: TextCode,
}

impl fmt::Display for Row<'_> {
    fn fmt<W: fmt::Write>(&self, f: &mut fmt::Formatter<W>) -> fmt::Result {
        write!(f, "  {:08} ", self.place)?;
        for byte in self.bytes {
            write!(f, " {byte:02X}")?;
        }
        for _ in self.bytes.len()..ROW {
            f.write_str("   ")?;
        }
        f.write_str("  ")?;
        for byte in self.bytes {
            f.write_char(shown_char(self.code, *byte).unwrap_or('.'))?;
        }
        f.write_str("\n")
    }
}

/// The heading of an item: its number, what it is, and its bytes.
#[derive(Clone, Copy)]
struct Heading {
    number: u64,
    name: &'static str,
    /// The offset and the number of the bytes, if it has any.
    bytes: Option<(u64, u64)>,
}

impl fmt::Display for Heading {
    fn fmt<W: fmt::Write>(&self, f: &mut fmt::Formatter<W>) -> fmt::Result {
        write!(f, "Item {}: {}", self.number, self.name)?;
        if let Some((place, length)) = self.bytes {
            write!(f, ", {length} bytes at {place}")?;
        }
        f.write_str("\n")
    }
}

/// Sets the file to a byte offset.
fn seek<F: Seek>(file: &mut F, place: u64) -> Result<(), ToolFault> {
    match file.seek(SeekFrom::Start(place)) {
        Ok(_) => Ok(()),
        Err(_) => Err(ToolFault::File(FileFault::ReadFailed)),
    }
}

/// Reads bytes until the buffer is full or the file ends, and returns how many there are.
fn read<F: Read>(file: &mut F, buffer: &mut [u8]) -> Result<usize, ToolFault>
    ensures { IfOk result (λ count. count ≤ length buffer.new) }
{
    fill(file, buffer).map_err(|_| ToolFault::File(FileFault::ReadFailed))
}
