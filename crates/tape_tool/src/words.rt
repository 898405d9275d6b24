//! The arguments that several commands share.

ghost use Rattle.std.specs.Prelude.{◌≡◌, IfSome, IfNone, IsSome};
ghost use Rattle.tape_tool.specs.Words.{IsNoSet, padded_set};

use crate::command_spec::{Kind, Word};
use crate::help;
use crate::names::{List, Named};
use crate::record_form::RecordForm;
use crate::refusal::Refusal;
use clap::ArgMatches;
use std::alloc::Global;
use tape_blocks::Form;
use tape_label::Field;
use tape_writer::Prefix;
use tape_writer::system::name_in_folder;

/// The maximum number of images in the arguments of a run.
const MOST_IMAGES: usize = 256;

const FORMS_OF_OUT: &[&str] = &["lines", "raw", "counted"];

/// The option for the form of the records in an output.
pub const FORM: Word = Word(
    "form",
    Kind::NameOption("FORM", FORMS_OF_OUT, &["lines"]),
    help::FORM_OF_OUT,
);

/// The option for the translation of records.
pub const TEXT: Word = Word("text", Kind::Flag, help::TEXT);

/// Returns the value of argument `name`, which the parser guarantees to be present.
pub fn text_of<'a>(matches: &ArgMatches<'a>, name: &str) -> &'a str {
    matches.get_str(name).unwrap_or("")
}

/// Returns the form that was requested.
pub fn form_of(matches: &ArgMatches<'_>) -> Form {
    match matches.get_str("form") {
        Some("raw") => Form::Raw,
        Some("counted") => Form::Counted,
        _ => Form::Lines,
    }
}

/// Returns how records are to be written.
pub fn record_form_of(matches: &ArgMatches<'_>) -> RecordForm {
    RecordForm {
        form: form_of(matches),
        is_text: matches.get_flag("text"),
    }
}

/// Returns the word for a form.
pub fn form_word(form: Form) -> &'static str {
    match form {
        Form::Lines => "lines",
        Form::Raw => "raw",
        Form::Counted => "counted",
    }
}

/// Returns the directory DIR.
pub fn folder_of<'a>(matches: &ArgMatches<'a>) -> Result<&'a str, Refusal> {
    match text_of(matches, "DIR") {
        "" => Err(Refusal::Words(help::NO_FOLDER)),
        folder => Ok(folder),
    }
}

/// Returns the prefix PRE.
pub fn prefix_of<'a>(matches: &ArgMatches<'a>) -> Result<Prefix, Refusal> {
    Prefix::new(text_of(matches, "PRE")).ok_or(Refusal::Value("PRE", help::WRONG_PREFIX))
}

/// Returns the file OUT. It cannot be standard output, which is refused with the message `dash`. A
/// path that does not end with a file name is refused, too.
pub fn out_of<'a>(matches: &ArgMatches<'a>, dash: &'static str) -> Result<&'a str, Refusal> {
    match text_of(matches, "OUT") {
        "-" => Err(Refusal::Words(dash)),
        out if name_in_folder(out).is_empty() => Err(Refusal::Words(help::OUT_IS_FOLDER)),
        out => Ok(out),
    }
}

/// Returns the set identifier `text`, padded with spaces, if it has 1 to 6 bytes.
pub fn set_id_of(text: &str) -> Option<Field<6>>
    ensures some { IfSome result (λ id. id ≡ padded_set text.now) }
    ensures given { IsSome result → IsNoSet text.now → ⊥ }
    ensures none { IfNone result (IsNoSet text.now) }
{
    let bytes = text.as_bytes();
    if bytes.is_empty() || bytes.len() > 6 {
        return None;
    }
    let mut padded = [b' '; 6];
    padded[..bytes.len()].copy_from_slice(bytes);
    Some(Field::of_bytes(padded))
}

/// Returns the only value of argument `name`, if it has one. Several values are refused with the
/// message `more`, and `-` with the message `dash`.
pub fn at_most_one<'a>(
    matches: &ArgMatches<'a>,
    name: &str,
    dash: &'static str,
    more: &'static str,
) -> Result<Option<&'a str>, Refusal> {
    match matches.get_strs(name).unwrap_or(&[]) {
        [] => Ok(None),
        ["-"] => Err(Refusal::Words(dash)),
        [one] => Ok(Some(*one)),
        _ => Err(Refusal::Words(more)),
    }
}

/// Returns the source of image names: arguments, or a list. Too many arguments are refused with the
/// message `too_many`.
pub fn named<'a>(
    alloc: Global,
    matches: &ArgMatches<'a>,
    too_many: &'static str,
) -> Result<Named<'a>, Refusal> {
    let words = matches.get_strs("IMAGE").unwrap_or(&[]);
    if words.len() > MOST_IMAGES {
        return Err(Refusal::Words(too_many));
    }
    let null = matches.get_flag("null");
    let list = match matches.get_str("files-from") {
        None => None,
        Some("-") => Some(List { file: None, null }),
        file => Some(List { file, null }),
    };
    let words = Vec::from_slice(alloc, words)?;
    Ok(Named { words, list })
}

/// Returns the source of image names for a command that may read standard input once, as an image
/// named `-` or as the list.
pub fn named_once<'a>(
    alloc: Global,
    matches: &ArgMatches<'a>,
    too_many: &'static str,
) -> Result<Named<'a>, Refusal> {
    let words = matches.get_strs("IMAGE").unwrap_or(&[]);
    let dashes = words.iter().filter(|word| **word == "-").count();
    let free = usize::from(matches.get_str("files-from") != Some("-"));
    if dashes > free {
        return Err(Refusal::Words(help::INPUT_TWICE));
    }
    named(alloc, matches, too_many)
}
