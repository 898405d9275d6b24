//! The lines of `MANIFEST.jsonl` about files, and where their blocks came from.

ghost use Rattle.std.specs.Prelude.{◌≡◌, [], IfOk, OnOk};
ghost use Rattle.tape_tool.specs.JsonLine.{IsJsonLine};

use super::recorded::{RecordedName, WrittenFile};
use crate::command_line::VERSION;
use crate::json_lines::{JsonCell, add_member};
use arrayvec::ArrayString;
use json::Writer;
use std::alloc::{AllocError, Global};
use std::fmt::Write;
use tape_label::{Field, Format, Head1, Head2};
use tape_run::{BlockRun, FileNote, date_of, printed};
use tape_set::{Position, Want};

/// The code page from which records are translated.
const CODE_PAGE: &str = "037";

/// Begins a line, with its word.
pub fn begun(alloc: Global, word: &str) -> Result<Writer, AllocError>
    ensures { IfOk result (λ writer. writer.before ≡ []) }
{
    let mut writer = Writer::new(Vec::with_capacity(alloc, 256)?);
    writer.begin_object()?;
    add_member(&mut writer, "row", JsonCell::Text(word))?;
    Ok(writer)
}

/// Ends a line.
pub fn ended(writer: Writer) -> Result<Vec<u8>, AllocError>
    ensures { writer.before ≡ [] → IfOk result (λ line. IsJsonLine line.items) }
{
    let mut writer = writer;
    writer.end_object()?;
    let mut line = writer.into_inner();
    line.push(b'\n')?;
    Ok(line)
}

/// Writes a text without the spaces at its end, or null if nothing is left.
fn add_text(writer: &mut Writer, key: &str, text: &str) -> Result<(), AllocError>
    ensures { OnOk result (writer.new.before ≡ writer.old.before) }
{
    let text = text.trim_end();
    let value = if text.is_empty() {
        JsonCell::Null
    } else {
        JsonCell::Text(text)
    };
    add_member(writer, key, value)
}

/// Returns a field of a label, with a question mark for each byte that is not printable.
pub fn printable(bytes: &[u8]) -> ArrayString<32> {
    let mut text = ArrayString::new();
    for byte in bytes {
        let _ = text.try_push(char::from(printed(*byte)));
    }
    text
}

/// Writes a field of a label, with a question mark for each byte that is not printable.
pub fn add_field(writer: &mut Writer, key: &str, bytes: &[u8]) -> Result<(), AllocError>
    ensures { OnOk result (writer.new.before ≡ writer.old.before) }
{
    add_text(writer, key, printable(bytes).as_str())
}

/// Writes the day in the six characters of a label, or null if they are not a day.
fn add_day(writer: &mut Writer, key: &str, field: &Field<6>) -> Result<(), AllocError>
    ensures { OnOk result (writer.new.before ≡ writer.old.before) }
{
    let mut text = ArrayString::<32>::new();
    if let Some(date) = date_of(field) {
        let _ = write!(text, "{date}");
    }
    add_text(writer, key, text.as_str())
}

/// Writes a number, or null if it is unknown.
fn add_number(writer: &mut Writer, key: &str, number: Option<u64>) -> Result<(), AllocError>
    ensures { OnOk result (writer.new.before ≡ writer.old.before) }
{
    let value = match number {
        Some(number) => JsonCell::Number(number),
        None => JsonCell::Null,
    };
    add_member(writer, key, value)
}

/// Writes a size and a checksum.
pub fn add_sum(
    alloc: Global,
    writer: &mut Writer,
    size: u64,
    sum: &[u8; 32],
) -> Result<(), AllocError>
    ensures { OnOk result (writer.new.before ≡ writer.old.before) }
{
    let digits = hex::encode(alloc, sum.as_slice())?;
    add_number(writer, "size", Some(size))?;
    add_text(writer, "sha256", digits.as_str())
}

/// Returns the letter of a record format.
fn letter_of(format: Format) -> &'static str {
    match format {
        Format::Fixed => "F",
        Format::Counted => "D",
        Format::Spanned => "S",
        Format::Undefined => "U",
        Format::Variable => "V",
    }
}

/// Writes the fields of a first label of a file that name no file, or nulls if none was found.
fn add_head(writer: &mut Writer, head: Option<&Head1>) -> Result<(), AllocError>
    ensures { OnOk result (writer.new.before ≡ writer.old.before) }
{
    let Some(head) = head else {
        add_text(writer, "generation", "")?;
        add_text(writer, "version", "")?;
        add_text(writer, "created", "")?;
        add_text(writer, "expires", "")?;
        add_text(writer, "access", "")?;
        return add_text(writer, "system", "");
    };
    add_field(writer, "generation", head.generation.bytes())?;
    add_field(writer, "version", head.gen_version.bytes())?;
    add_day(writer, "created", &head.created)?;
    add_day(writer, "expires", &head.expires)?;
    add_field(writer, "access", &[head.access])?;
    add_field(writer, "system", head.implementation.bytes())
}

/// Writes the fields of a second label of a file, or nulls if it has none.
fn add_form(writer: &mut Writer, form: Option<Head2>) -> Result<(), AllocError>
    ensures { OnOk result (writer.new.before ≡ writer.old.before) }
{
    let (letter, block, record) = match form {
        Some(form) => (
            letter_of(form.format),
            Some(u64::from(form.block_len)),
            Some(u64::from(form.rec_len)),
        ),
        None => ("", None, None),
    };
    add_text(writer, "format", letter)?;
    add_number(writer, "block", block)?;
    add_number(writer, "record", record)
}

/// Writes the form in which records were written, and the code page from which they were
/// translated, if they were.
fn add_record_form(writer: &mut Writer, written: WrittenFile) -> Result<(), AllocError>
    ensures { OnOk result (writer.new.before ≡ writer.old.before) }
{
    add_text(writer, "form", written.form)?;
    if written.is_text {
        add_text(writer, "text", CODE_PAGE)?;
    }
    Ok(())
}

/// Writes the program's version, and how it was built, if that is known.
fn add_program(writer: &mut Writer, build: Option<&str>) -> Result<(), AllocError>
    ensures { OnOk result (writer.new.before ≡ writer.old.before) }
{
    add_text(writer, "program", VERSION)?;
    let Some(build) = build else {
        add_member(writer, "proved", JsonCell::Null)?;
        return add_member(writer, "build", JsonCell::Null);
    };
    let is_proved = build.starts_with("proved:");
    add_member(writer, "proved", JsonCell::Flag(is_proved))?;
    add_text(writer, "build", build)
}

/// Returns the line of a complete output, with the labels of its file if some were found. `build`
/// says how the program was built, if that is known.
pub fn recorded_file(
    alloc: Global,
    output: &RecordedName<'_>,
    written: WrittenFile,
    build: Option<&str>,
    note: Option<&FileNote>,
) -> Result<Vec<u8>, AllocError>
    ensures { IfOk result (λ line. IsJsonLine line.items) }
{
    let mut writer = begun(alloc, "FILE")?;
    add_names(&mut writer, output)?;
    add_head(&mut writer, note.map(|note| &note.head))?;
    add_form(&mut writer, note.and_then(|note| note.form))?;
    add_record_form(&mut writer, written)?;
    let is_counted = JsonCell::Flag(written.blocks_counted);
    add_member(&mut writer, "blocks_counted", is_counted)?;
    let padding = note.and_then(|note| note.padding);
    let padding = padding.map_or("", |padding| padding.name());
    add_text(&mut writer, "padding", padding)?;
    add_sum(alloc, &mut writer, written.size, &written.sum)?;
    add_program(&mut writer, build)?;
    ended(writer)
}

/// Writes the name of an output, and which file of a set it is.
fn add_names(writer: &mut Writer, output: &RecordedName<'_>) -> Result<(), AllocError>
    ensures { OnOk result (writer.new.before ≡ writer.old.before) }
{
    let RecordedName { name, key, file_id } = *output;
    add_member(writer, "name", JsonCell::Text(name))?;
    add_field(writer, "set", key.set_id.bytes())?;
    add_number(writer, "file", Some(u64::from(key.file)))?;
    match file_id {
        Some(file_id) => add_field(writer, "identifier", file_id.bytes()),
        None => add_member(writer, "identifier", JsonCell::Null),
    }
}

/// Writes the section, the block and the part of a position, under these keys, or nulls at the end
/// of a file.
fn add_position(
    writer: &mut Writer,
    sect_key: &str,
    block_key: &str,
    part_key: &str,
    position: Position,
) -> Result<(), AllocError>
    ensures { OnOk result (writer.new.before ≡ writer.old.before) }
{
    let (sect, block, part) = match position {
        Position::Awaits { sect, block, part } => (
            Some(u64::from(sect)),
            Some(u64::from(block)),
            Some(u64::from(part)),
        ),
        Position::Finished => (None, None, None),
    };
    add_number(writer, sect_key, sect)?;
    add_number(writer, block_key, block)?;
    add_number(writer, part_key, part)
}

/// Returns the line of an incomplete file, whose stage has this name, and of its first missing
/// part.
pub fn awaited_file(
    alloc: Global,
    output: &RecordedName<'_>,
    want: Want,
) -> Result<Vec<u8>, AllocError>
    ensures { IfOk result (λ line. IsJsonLine line.items) }
{
    let Want {
        sect,
        block,
        part,
        ..
    } = want;
    let position = Position::Awaits { sect, block, part };
    let mut writer = begun(alloc, "AWAITS")?;
    add_names(&mut writer, output)?;
    add_position(&mut writer, "section", "block", "part", position)?;
    ended(writer)
}

/// Returns the line of the salvaged records of a file. Their gaps are in the file named `gaps`, if
/// there is one.
pub fn salvaged_file(
    alloc: Global,
    output: &RecordedName<'_>,
    written: WrittenFile,
    gaps: Option<&str>,
) -> Result<Vec<u8>, AllocError>
    ensures { IfOk result (λ line. IsJsonLine line.items) }
{
    let mut writer = begun(alloc, "SALVAGED")?;
    add_names(&mut writer, output)?;
    add_record_form(&mut writer, written)?;
    add_member(
        &mut writer,
        "blocks_counted",
        JsonCell::Flag(written.blocks_counted),
    )?;
    let gaps = match gaps {
        Some(gaps) => JsonCell::Text(gaps),
        None => JsonCell::Null,
    };
    add_member(&mut writer, "gaps", gaps)?;
    add_sum(alloc, &mut writer, written.size, &written.sum)?;
    ended(writer)
}

/// Returns the line of a line of the report on the output named `name`.
pub fn reported_line(alloc: Global, name: &str, line: &str) -> Result<Vec<u8>, AllocError>
    ensures { IfOk result (λ line. IsJsonLine line.items) }
{
    let mut writer = begun(alloc, "LINE")?;
    add_member(&mut writer, "name", JsonCell::Text(name))?;
    add_text(&mut writer, "line", line)?;
    ended(writer)
}

/// Returns the line of blocks of the file named `name`, which came from the image with this name;
/// the first of them is at this byte offset, if that is known.
pub fn recorded_blocks(
    alloc: Global,
    name: &str,
    run: BlockRun,
    from: Option<(&str, Option<u64>)>,
) -> Result<Vec<u8>, AllocError>
    ensures { IfOk result (λ line. IsJsonLine line.items) }
{
    let mut writer = begun(alloc, "BLOCKS")?;
    add_member(&mut writer, "name", JsonCell::Text(name))?;
    add_position(&mut writer, "section", "block", "part", run.from)?;
    add_position(&mut writer, "end_section", "end_block", "end_part", run.end)?;
    let (image, offset) = match from {
        Some((image, offset)) => (JsonCell::Text(image), offset),
        None => (JsonCell::Null, None),
    };
    add_member(&mut writer, "image", image)?;
    add_number(&mut writer, "offset", offset)?;
    ended(writer)
}
