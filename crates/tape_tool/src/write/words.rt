//! The arguments of `write`.

ghost use Rattle.std.specs.Prelude.{◌≡◌, ◌↔◌, ◌⊎◌, ◌++◌, ℕ, List, [], codes, IfSome, IfNone};
ghost use Rattle.tape_tool.specs.Words.{IsAtOdds, IsSize, IsUnit, EndsInLetter};

use crate::command_spec::{CommandSpec, Kind, Word};
use crate::dates::day_of;
use crate::help;
use crate::refusal::Refusal;
use crate::words::{form_of, prefix_of, text_of};
use clap::ArgMatches;
use std::alloc::{AllocError, Global};
use tape_blocks::Form;
use tape_label::{Field, Format};
use tape_writer::Prefix;

const FORMATS: &[&str] = &["F", "D", "S"];

const FORMS: &[&str] = &["lines", "raw"];

const CODES: &[&str] = &["ascii", "ebcdic"];

/// The maximum of a block length and a record length.
const MOST: u64 = 4_294_967_295;

/// The request to `write`: files, each from an argument `ID=PATH`, and the directory of the
/// volumes.
#[derive(Drop)]
pub struct WriteOrder<'a> {
    /// The directory of the images.
    pub folder: &'a str,
    /// The first three characters of each volume's identifier.
    pub prefix: Prefix,
    /// The maximum size of an image in bytes.
    pub capacity: u32,
    /// The arguments `ID=PATH`: the identifier and the input of each file.
    pub files: Vec<&'a str>,
    /// The record format of all files.
    pub format: Format,
    /// The maximum length of a block in bytes.
    pub block: u32,
    /// The record length in bytes, or for format D the maximum length plus 4, if it is given.
    pub record: Option<u32>,
    /// The buffer offset: the bytes before the records in each block.
    pub offset: u8,
    /// Whether each block of format D is padded to its maximum length.
    pub pad_full: bool,
    /// The form of the records in the inputs.
    pub form: Form,
    /// The creation date in the labels of all files.
    pub created: Field<6>,
    /// Whether the labels are in EBCDIC.
    pub ebcdic: bool,
    /// Whether the set is only measured.
    pub dry: bool,
}

pub const WRITE: &CommandSpec = &CommandSpec {
    name: "write",
    about: help::ABOUT_WRITE,
    after_help: help::AFTER_WRITE,
    words: &[
        Word("DIR", Kind::Text, help::FOLDER),
        Word("PRE", Kind::Text, help::PREFIX),
        Word("CAPACITY", Kind::Text, help::CAPACITY),
        Word("ID=PATH", Kind::Texts, help::FILES),
        Word(
            "format",
            Kind::NameOption("FORMAT", FORMATS, &["D"]),
            help::FORMAT,
        ),
        Word("block", Kind::NumberOption(MOST, &["2048"]), help::BLOCK),
        Word("record", Kind::NumberOption(MOST, &[]), help::RECORD),
        Word("offset", Kind::NumberOption(255, &["0"]), help::OFFSET),
        Word("pad-full", Kind::Flag, help::PAD_FULL),
        Word(
            "form",
            Kind::NameOption("FORM", FORMS, &["lines"]),
            help::FORM,
        ),
        Word("date", Kind::TextOption("DATE"), help::DATE),
        Word(
            "labels",
            Kind::NameOption("CODE", CODES, &["ascii"]),
            help::LABELS,
        ),
        Word("dry-run", Kind::Flag, help::DRY_RUN),
    ],
};

pub fn write_order<'a>(alloc: Global, matches: &ArgMatches<'a>) -> Result<WriteOrder<'a>, Refusal> {
    let prefix = prefix_of(matches)?;
    let capacity = size_of(text_of(matches, "CAPACITY"));
    let capacity = capacity.ok_or(Refusal::Value("CAPACITY", help::WRONG_CAPACITY))?;
    let Some(created) = created_of(alloc, matches.get_str("date"))? else {
        return Err(Refusal::Value("date", help::WRONG_DATE));
    };
    let order = WriteOrder {
        folder: text_of(matches, "DIR"),
        prefix,
        capacity,
        files: files_of(alloc, matches)?,
        format: format_of(text_of(matches, "format")),
        block: matches.get_one::<u32>("block").unwrap_or(0),
        record: matches.get_one::<u32>("record"),
        offset: matches.get_one::<u8>("offset").unwrap_or(0),
        pad_full: matches.get_flag("pad-full"),
        form: form_of(matches),
        created,
        ebcdic: text_of(matches, "labels") == "ebcdic",
        dry: matches.get_flag("dry-run"),
    };
    match wrong(&order) {
        Some(text) => Err(Refusal::Words(text)),
        None => Ok(order),
    }
}

/// Returns the arguments `ID=PATH`.
fn files_of<'a>(alloc: Global, matches: &ArgMatches<'a>) -> Result<Vec<&'a str>, Refusal> {
    let files = matches.get_strs("ID=PATH").unwrap_or(&[]);
    if !files.iter().all(|file| file.contains('=')) {
        return Err(Refusal::Words("files are given as ID=PATH, for example 'PAYROLL=payroll.txt'"));
    }
    Ok(Vec::from_slice(alloc, files)?)
}

/// Returns the characters of the creation date `date`, or a space and five zeros without a date.
/// Returns `None` if `date` is no day.
fn created_of(alloc: Global, date: Option<&str>) -> Result<Option<Field<6>>, AllocError> {
    match date {
        None => Ok(Some(Field::of_bytes(*b" 00000"))),
        Some(text) => day_of(alloc, text),
    }
}

/// Returns the number of bytes that a size means: a number, or one with `K`, `M` or `G` at its end
/// for 1,024 bytes, its square and its cube.
fn size_of(text: &str) -> Option<u32>
    ensures some { IfSome result (IsSize text.now) }
    ensures none { IfNone result ((n : ℕ) → IsSize text.now n → ⊥) }
{
    let (digits, factor) = unit_of(text);
    match digits.parse::<u32>() {
        Ok(number) => number.checked_mul(factor),
        Err(_) => None,
    }
}

/// Returns a size without the letter at its end, if there is one, and the number of bytes that the
/// letter represents.
fn unit_of(text: &str) -> (&str, u32)
    ensures is { (unit : List ℕ) × (text.now ≡ result.0.now ++ unit) × IsUnit unit result.1 }
    ensures only { (digits unit : List ℕ) (factor : ℕ) → text.now ≡ digits ++ unit
        → IsUnit unit factor
        → ((digits ≡ result.0.now) × (factor ≡ result.1)) ⊎ EndsInLetter digits }
{
    if let Some(digits) = text.strip_suffix('K') {
        return (digits, 1_024);
    }
    if let Some(digits) = text.strip_suffix('M') {
        return (digits, 1_048_576);
    }
    if let Some(digits) = text.strip_suffix('G') {
        return (digits, 1_073_741_824);
    }
    (text, 1)
}

/// Returns the error if the directory is empty or options exclude each other.
fn wrong(order: &WriteOrder<'_>) -> Option<&'static str>
    ensures some { IfSome result (λ _. (order.now.folder.now ≡ []) ⊎ IsAtOdds order.now) }
    ensures folder { IfNone result (order.now.folder.now ≡ [] → ⊥) }
    ensures none { IfNone result (IsAtOdds order.now → ⊥) }
{
    if order.folder.is_empty() {
        return Some(help::NO_FOLDER);
    }
    match (order.format, order.record, order.form) {
        (Format::Fixed, None, _) => Some("--format F requires --record N"),
        (Format::Spanned, Some(_), _) => Some("--format S does not take --record"),
        (Format::Counted, _, Form::Raw) => Some("--form raw requires --format F or S"),
        _ => None,
    }
}

/// Returns the format named `name`. Any other name means D.
fn format_of(name: &str) -> Format
    ensures fixed { (result ≡ Format.Fixed) ↔ (name.now ≡ codes "F") }
    ensures counted { name.now ≡ codes "D" → result ≡ Format.Counted }
    ensures spanned { (result ≡ Format.Spanned) ↔ (name.now ≡ codes "S") }
{
    match name {
        "F" => Format::Fixed,
        "S" => Format::Spanned,
        _ => Format::Counted,
    }
}
