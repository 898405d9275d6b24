//! `check` and `survey`: report on images.

use crate::command_spec::{CommandSpec, Kind, Word};
use crate::explain::FaultSite;
use crate::help;
use crate::images::Images;
use crate::json_rows::{Column, JsonRows, RowKind, RowTable, Shape, Span};
use crate::names::{Named, names_of};
use crate::normal::NormalImages;
use crate::program::{End, check_end};
use crate::readings::{all_readings, has_others, names_in, printed_names};
use crate::refusal::Refusal;
use crate::relabel::{JOIN, RENUMBER, Relabels, relabel};
use crate::screen::Progress;
use crate::unpack::printable;
use clap::ArgMatches;
use std::alloc::{AllocError, Global};
use std::io;
use std::io::{BufWriter, Write};
use tape_run::{EngineFault, SectionKey, Wording, check_to, flush, survey_to, write_text};

pub const CHECK: &CommandSpec = &CommandSpec {
    name: "check",
    about: help::ABOUT_CHECK,
    after_help: help::AFTER_CHECK,
    words: &[Word("IMAGE", Kind::Images, help::IMAGES)],
};

pub const SURVEY: &CommandSpec = &CommandSpec {
    name: "survey",
    about: help::ABOUT_SURVEY,
    after_help: help::AFTER_SURVEY,
    words: &[
        Word("IMAGE", Kind::Images, help::IMAGES),
        Word("all", Kind::Flag, help::SURVEY_ALL),
        JOIN,
        RENUMBER,
        Word("tsv", Kind::Flag, help::ROWS),
        Word("json", Kind::Flag, help::SURVEY_JSON),
    ],
};

/// The form in which `survey` prints its report.
#[derive(Clone, Copy, Debug, PartialEq, Eq)]
pub enum SurveyForm {
    /// In words, for people.
    Words,
    /// In words, with everything of any number of images.
    Full,
    /// In tab-separated rows.
    Tsv,
    /// In lines of JSON.
    Json,
}

/// The rows of a survey.
const SURVEY_ROWS: &RowTable = &RowTable {
    separator: b'\t',
    front: &[],
    kinds: &[
        RowKind(
            "IMAGE",
            &[
                Column("name", Shape::Name, Span::Cell),
                Column("state", Shape::Text, Span::Cell),
                Column("volume", Shape::Text, Span::Cell),
                Column("set", Shape::Text, Span::Cell),
                Column("system", Shape::Text, Span::Cell),
                Column("items", Shape::Number, Span::Cell),
                Column("files", Shape::Number, Span::Cell),
                Column("bad", Shape::Number, Span::Cell),
                Column("end", Shape::Text, Span::Cell),
                Column("owner", Shape::Text, Span::Cell),
                Column("words", Shape::Text, Span::Cell),
            ],
        ),
        RowKind(
            "SECTION",
            &[
                Column("set", Shape::Text, Span::Cell),
                Column("file", Shape::Number, Span::Cell),
                Column("section", Shape::Number, Span::Cell),
                Column("volume", Shape::Text, Span::Cell),
                Column("blocks", Shape::Number, Span::Cell),
                Column("state", Shape::Text, Span::Cell),
                Column("eof", Shape::Flag, Span::Cell),
            ],
        ),
        RowKind(
            "FILE",
            &[
                Column("set", Shape::Text, Span::Cell),
                Column("file", Shape::Number, Span::Cell),
                Column("identifier", Shape::Text, Span::Cell),
                Column("created", Shape::Text, Span::Cell),
                Column("state", Shape::Text, Span::Cell),
                Column("section", Shape::Number, Span::Cell),
                Column("volume", Shape::Text, Span::Cell),
                Column("conflict", Shape::Flag, Span::Cell),
                Column("sections", Shape::Text, Span::Cell),
                Column("format", Shape::Text, Span::Cell),
                Column("block", Shape::Number, Span::Cell),
                Column("record", Shape::Number, Span::Cell),
            ],
        ),
        RowKind(
            "COPIES",
            &[
                Column("set", Shape::Text, Span::Cell),
                Column("file", Shape::Number, Span::Cell),
                Column("section", Shape::Number, Span::Cell),
                Column("copies", Shape::Number, Span::Cell),
                Column("name", Shape::Name, Span::Cell),
                Column("other", Shape::OtherName, Span::Cell),
                Column("result", Shape::Text, Span::Cell),
            ],
        ),
        RowKind(
            "PADDED",
            &[
                Column("set", Shape::Text, Span::Cell),
                Column("file", Shape::Number, Span::Cell),
                Column("padding", Shape::Text, Span::Cell),
            ],
        ),
        RowKind(
            "UNCOUNTED",
            &[
                Column("set", Shape::Text, Span::Cell),
                Column("file", Shape::Number, Span::Cell),
                Column("section", Shape::Number, Span::Cell),
            ],
        ),
    ],
};

/// The greatest number of images that `survey` describes one by one without `--all`.
const FEW: usize = 5;

/// Returns the form in which `survey` prints.
pub fn survey_form(matches: &ArgMatches<'_>) -> Result<SurveyForm, Refusal> {
    match (matches.get_flag("tsv"), matches.get_flag("json")) {
        (true, true) => Err(Refusal::Words(help::TSV_OR_JSON)),
        (true, false) => Ok(SurveyForm::Tsv),
        (false, true) => Ok(SurveyForm::Json),
        (false, false) if matches.get_flag("all") => Ok(SurveyForm::Full),
        (false, false) => Ok(SurveyForm::Words),
    }
}

/// Reports on the images that the arguments name, on standard output: describes them in `form`, with
/// the labels that are requested, or, if that is `None`, lists their sections. On error, `site` says
/// where it occurred.
pub fn check<'a, R: Progress>(
    rt: &R,
    named: &Named<'a>,
    form: Option<SurveyForm>,
    relabels: &Relabels,
    site: &mut FaultSite<'a>,
) -> Result<End, Refusal> {
    let mut text = String::new(rt.alloc());
    let names = names_of(rt.host(), named, &mut text, site)?;
    let names = names.as_slice();
    // In a list, `-` is the name of a file.
    let input = named.words.iter().position(|word| *word == "-");
    if relabels.is_wanted() && input.is_some() {
        return Err(Refusal::Words(help::RELABELS_OF_INPUT));
    }
    relabel(rt, relabels, names)?;
    *site = FaultSite::Lines;
    let mut report = BufWriter::new(rt.alloc(), io::writer(rt)).map_err(|_| AllocError)?;
    Ok(check_end(match form {
        None => {
            let images = &mut Images::new(rt, names);
            images.input = input;
            check_to(rt.alloc(), images, &mut report)
        }
        Some(form) => {
            let shelf = Shelf { names, input };
            survey(rt, &shelf, form, &mut report)
        }
    }))
}

/// The images of a survey.
#[derive(Clone, Copy)]
struct Shelf<'n> {
    names: &'n [&'n str],
    /// The number of the image that is standard input, if any.
    input: Option<usize>,
}

/// Describes the images in `form`. If one of them is not complete, looks for readings after wrong
/// words, and describes these too.
fn survey<R: Progress, W: Write>(
    rt: &R,
    shelf: &Shelf<'_>,
    form: SurveyForm,
    report: &mut W,
) -> Result<bool, EngineFault> {
    let mut lines = Vec::new(rt.alloc());
    let images = &mut NormalImages::new(rt, shelf.names);
    images.images.input = shelf.input;
    let all = survey_as(rt, images, shelf.names, form, &mut lines)?;
    if !all && shelf.input.is_none() {
        let names = all_readings(rt, shelf.names)?;
        if has_others(names.as_slice(), shelf.names.len()) {
            return survey_further(rt, names.as_slice(), shelf.names.len(), form, report);
        }
    }
    write_text(report, lines.as_slice())?;
    flush(report)?;
    Ok(all)
}

/// Describes these images and further readings, of which the first `count` were read before.
fn survey_further<R: Progress, W: Write>(
    rt: &R,
    all: &[String],
    count: usize,
    form: SurveyForm,
    report: &mut W,
) -> Result<bool, EngineFault> {
    let texts = printed_names(rt.alloc(), all)?;
    let shown = names_in(rt.alloc(), texts.as_slice())?;
    let names = names_in(rt.alloc(), all)?;
    let images = &mut NormalImages::new(rt, names.as_slice());
    images.are_told(count);
    survey_as(rt, images, shown.as_slice(), form, report)
}

/// Describes the images named `names` in `form`.
fn survey_as<R: Progress, W: Write>(
    rt: &R,
    images: &mut NormalImages<'_, R>,
    names: &[&str],
    form: SurveyForm,
    report: &mut W,
) -> Result<bool, EngineFault> {
    match form {
        SurveyForm::Words => survey_in(rt, images, names, Wording::Words, report),
        SurveyForm::Full => survey_in(rt, images, names, Wording::Full, report),
        SurveyForm::Tsv => survey_in(rt, images, names, Wording::Rows, report),
        SurveyForm::Json => {
            let rows = &mut JsonRows::new(rt.alloc(), SURVEY_ROWS, report);
            survey_in(rt, images, names, Wording::Rows, rows)
        }
    }
}

/// Describes the images named `names`, and then says which sections have blocks that are not
/// counted.
fn survey_in<R: Progress, W: Write>(
    rt: &R,
    images: &mut NormalImages<'_, R>,
    names: &[&str],
    wording: Wording,
    report: &mut W,
) -> Result<bool, EngineFault> {
    let all = survey_to(rt.alloc(), images, names, wording, report)?;
    let sections = rt.uncounted().sections(rt.alloc())?;
    match put_uncounted(
        rt.alloc(),
        sections.as_slice(),
        names.len(),
        wording,
        report,
    ) {
        Ok(()) => Ok(all),
        Err(fault) => Err(fault),
    }
}

/// Names the sections whose blocks are not counted, or says how many there are, in words about more
/// than a few images.
fn put_uncounted<W: Write>(
    alloc: Global,
    sections: &[SectionKey],
    images: usize,
    wording: Wording,
    report: &mut W,
) -> Result<(), EngineFault> {
    if sections.is_empty() {
        return Ok(());
    }
    if images > FEW && matches!(wording, Wording::Words) {
        let (count, s) = (sections.len(), if sections.len() == 1 { "" } else { "s" });
        let line = format!(in alloc; "{count} section{s} whose blocks are not counted\n")?;
        write_text(report, line.as_bytes())?;
        return Ok(flush(report)?);
    }
    for section in sections {
        write_text(report, uncounted_line(alloc, section, wording)?.as_bytes())?;
    }
    Ok(flush(report)?)
}

/// Returns the line of a section whose blocks are not counted.
fn uncounted_line(
    alloc: Global,
    section: &SectionKey,
    wording: Wording,
) -> Result<String, AllocError> {
    let set_id = printable(section.set_id.bytes());
    let (set, file, sect) = (set_id.trim_end(), section.file, section.sect);
    match wording {
        Wording::Rows => format!(in alloc; "UNCOUNTED\t{set}\t{file}\t{sect}\n"),
        _ => format!(in alloc; "{set} file {file} section {sect}: blocks not counted\n"),
    }
}
