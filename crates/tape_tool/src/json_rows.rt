//! Rows of text as lines of JSON: a member for each column.

ghost use Rattle.std.specs.Prelude.{◌≡◌, ◌≤◌, length, IfOk, OnOk};
ghost use Rattle.tape_tool.specs.JsonLine.{IsJsonLine};

use crate::json_lines::{JsonCell, add_member};
use json::Writer;
use std::alloc::{AllocError, Global};
use std::io::{self, Error, ErrorKind, Write};

/// The extent of a column in a row.
#[derive(Clone, Copy, PartialEq, Eq)]
pub enum Span {
    /// Up to the next separator.
    Cell,
    /// The same, or nothing if no digit is next.
    Digits,
    /// The same, or nothing if the column before is not `BLOCK`.
    Length,
    /// The cell after this word, or nothing if another one is next.
    After(&'static str),
    /// So many bytes, without the spaces at their end.
    Width(usize),
    /// How an image ends: three cells after `FAULT`, otherwise one.
    End,
    /// Up to the end of the row.
    Rest,
}

/// The form of a value. Except for names and flags, an empty cell is null.
#[derive(Clone, Copy)]
pub enum Shape {
    Text,
    /// A name, as `name_text` prints it.
    Name,
    /// The same, or null.
    OtherName,
    /// A number, or a text that is not one.
    Number,
    /// Whether the cell is not empty.
    Flag,
}

/// A column: the key of its value, the form of the value, and the extent of the cell.
pub struct Column(pub &'static str, pub Shape, pub Span);

/// A kind of rows: its word, and the columns after it.
pub struct RowKind(pub &'static str, pub &'static [Column]);

/// The rows of a command: the byte between cells, the columns before the word of a row, and its
/// kinds.
pub struct RowTable {
    pub separator: u8,
    pub front: &'static [Column],
    pub kinds: &'static [RowKind],
}

/// A writer of rows that writes each of them to another writer, as a line of JSON.
#[derive(Drop)]
pub struct JsonRows<'a, W: Write> {
    alloc: Global,
    table: &'static RowTable,
    out: &'a mut W,
    /// The beginning of a row.
    row: Vec<u8>,
}

impl<'a, W: Write> JsonRows<'a, W> {
    pub fn new(alloc: Global, table: &'static RowTable, out: &'a mut W) -> JsonRows<'a, W> {
        JsonRows {
            alloc,
            table,
            out,
            row: Vec::new(alloc),
        }
    }
}

impl<W: Write> Write for JsonRows<'_, W> {
    /// Takes bytes up to the end of a row, whose line it then writes.
    fn write(&mut self, buf: &[u8]) -> io::Result<usize> {
        let end = cell_len(buf, b'\n');
        self.row.extend_from_slice(&buf[..end])?;
        if end == buf.len() {
            return Ok(end);
        }
        let line = row_line(self.alloc, self.table, self.row.as_slice())?;
        self.out.write_all(line.as_slice())?;
        self.row.clear();
        Ok(end + 1)
    }

    fn flush(&mut self) -> io::Result<()> {
        self.out.flush()
    }
}

/// Returns the line for a row.
fn row_line(alloc: Global, table: &RowTable, row: &[u8]) -> io::Result<Vec<u8>>
    ensures { IfOk result (λ line. IsJsonLine line.items) }
{
    let mut writer = Writer::new(Vec::with_capacity(alloc, 256)?);
    writer.begin_object()?;
    let rest = add_cells(alloc, &mut writer, table.separator, table.front, row)?;
    let (word, rest) = cut(rest, table.separator, Span::Cell, b"");
    add_member(&mut writer, "row", JsonCell::Text(text_in(word)?))?;
    add_cells(
        alloc,
        &mut writer,
        table.separator,
        columns_of(table, word),
        rest,
    )?;
    writer.end_object()?;
    let mut line = writer.into_inner();
    line.push(b'\n')?;
    Ok(line)
}

/// Returns the columns after the word of a row.
fn columns_of(table: &RowTable, word: &[u8]) -> &'static [Column] {
    for kind in table.kinds {
        if kind.0.as_bytes() == word {
            return kind.1;
        }
    }
    &[]
}

/// Writes the members for the columns of a row. Returns what follows them.
fn add_cells<'a>(
    alloc: Global,
    writer: &mut Writer,
    separator: u8,
    columns: &[Column],
    row: &'a [u8],
) -> io::Result<&'a [u8]>
    ensures { OnOk result (writer.new.before ≡ writer.old.before) }
{
    let (mut before, mut rest): (&[u8], &[u8]) = (b"", row);
    for column in columns {
        let (cell, next) = cut(rest, separator, column.2, before);
        add_cell(alloc, writer, column, cell)?;
        (before, rest) = (cell, next);
    }
    Ok(rest)
}

/// Writes the member for a column with this cell.
fn add_cell(alloc: Global, writer: &mut Writer, column: &Column, cell: &[u8]) -> io::Result<()>
    ensures { OnOk result (writer.new.before ≡ writer.old.before) }
{
    let text = text_in(cell)?;
    let is_name = match column.1 {
        Shape::Name => true,
        Shape::OtherName => !text.is_empty(),
        _ => false,
    };
    if is_name {
        let name = name_in(alloc, text)?;
        return Ok(add_member(writer, column.0, JsonCell::Text(name.as_str()))?);
    }
    let value = match column.1 {
        Shape::Flag => JsonCell::Flag(!text.is_empty()),
        _ if text.is_empty() => JsonCell::Null,
        Shape::Number => match text.parse::<u64>() {
            Ok(number) => JsonCell::Number(number),
            Err(_) => JsonCell::Text(text),
        },
        _ => JsonCell::Text(text),
    };
    Ok(add_member(writer, column.0, value)?)
}

/// Returns bytes as text.
fn text_in(bytes: &[u8]) -> io::Result<&str> {
    match str::from_utf8(bytes) {
        Ok(text) => Ok(text),
        Err(_) => Err(Error::from(ErrorKind::InvalidData)),
    }
}

/// Returns the number of bytes before the first separator, or of all bytes.
fn cell_len(bytes: &[u8], separator: u8) -> usize
    ensures { result ≤ length bytes.now }
{
    for at in 0..bytes.len() {
        if bytes[at] == separator {
            return at;
        }
    }
    bytes.len()
}

/// Returns the first cell of a row, and what follows it and its separator.
fn next_cell(row: &[u8], separator: u8) -> (&[u8], &[u8]) {
    let (cell, rest) = row.split_at(cell_len(row, separator));
    (cell, rest.get(1..).unwrap_or(b""))
}

/// Returns the cell of a column at the beginning of the row, and what follows it. The cell of the
/// column before is `before`.
fn cut<'a>(row: &'a [u8], separator: u8, span: Span, before: &[u8]) -> (&'a [u8], &'a [u8]) {
    let is_digit = row.first().is_some_and(|c| c.is_ascii_digit());
    match span {
        Span::Cell => next_cell(row, separator),
        Span::Digits if is_digit => next_cell(row, separator),
        Span::Length if before == b"BLOCK".as_slice() => next_cell(row, separator),
        Span::Digits | Span::Length => (b"", row),
        Span::After(word) => {
            let (first, rest) = next_cell(row, separator);
            if first == word.as_bytes() {
                next_cell(rest, separator)
            } else {
                (b"", row)
            }
        }
        Span::Width(width) => {
            let (cell, rest) = row.split_at(width.min(row.len()));
            (cell.trim_ascii_end(), rest.get(1..).unwrap_or(b""))
        }
        Span::End => cut_end(row, separator),
        Span::Rest => (row, b""),
    }
}

/// Returns the text about how an image ends, at the beginning of the row, and what follows it.
fn cut_end(row: &[u8], separator: u8) -> (&[u8], &[u8]) {
    let (first, rest) = next_cell(row, separator);
    if first != b"FAULT".as_slice() {
        return (first, rest);
    }
    let (_, rest) = next_cell(rest, separator);
    let (_, rest) = next_cell(rest, separator);
    let len = row.len().saturating_sub(rest.len());
    (row.get(..len).unwrap_or(row).trim_ascii_end(), rest)
}

/// A part of an escape that was read.
#[derive(Clone, Copy)]
enum Escape {
    Nothing,
    Backslash,
    /// `\u` and so many digits, with this value.
    Digits(u8, u32),
}

/// Returns the name that `name_text` prints as `text`.
fn name_in(alloc: Global, text: &str) -> Result<String, AllocError> {
    let (mut name, mut escape) = (String::new(alloc), Escape::Nothing);
    for c in text.chars() {
        let (next, read) = read_char(escape, c);
        escape = next;
        if let Some(read) = read {
            name.push(read)?;
        }
    }
    Ok(name)
}

/// Returns the part of an escape that was read with the next character, and the character of the
/// name that it completes, if any.
fn read_char(escape: Escape, c: char) -> (Escape, Option<char>) {
    match escape {
        Escape::Nothing if c == '\\' => (Escape::Backslash, None),
        Escape::Backslash if c == 'u' => (Escape::Digits(0, 0), None),
        Escape::Nothing | Escape::Backslash => (Escape::Nothing, Some(c)),
        Escape::Digits(count, number) => {
            let number = number % 4096 * 16 + c.to_digit(16).unwrap_or(0);
            match count {
                0..3 => (Escape::Digits(count + 1, number), None),
                _ => (Escape::Nothing, char::from_u32(number)),
            }
        }
    }
}
