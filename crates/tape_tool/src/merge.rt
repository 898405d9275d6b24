//! `merge` and `compare`: several readings of one tape.

use crate::command_spec::{CommandSpec, Kind, Word};
use crate::explain::FaultSite;
use crate::extract::{Draft, Output, is_one_name, no_draft};
use crate::fault::{FileFault, OUT_OF_MEMORY, ToolFault};
use crate::forms::AnyImages;
use crate::help;
use crate::json_rows::{Column, JsonRows, RowKind, RowTable, Shape, Span};
use crate::names::{ImageName, Named, names_of};
use crate::program::End;
use crate::refusal::Refusal;
use crate::screen::Progress;
use crate::words::{named, out_of};
use clap::ArgMatches;
use std::alloc::Global;
use std::fs::File;
use std::io;
use std::io::{BufWriter, Sink, Write};
use tape_image::{ImageCause, ImageFault};
use tape_run::{MergeEnd, MergeStop, Place, WriteFailed, merge_now};

/// The request to `merge` or `compare`: the readings, and the files to create.
#[derive(Drop)]
pub struct MergeOrder<'a> {
    /// The image that is created, or `None` if the readings are only compared.
    pub out: Option<&'a str>,
    /// The path of the log to be created.
    pub log: Option<&'a str>,
    /// Whether the lines are JSON.
    pub json: bool,
    /// The readings, in the order in which they are named.
    pub images: Named<'a>,
}

pub const MERGE: &CommandSpec = &CommandSpec {
    name: "merge",
    about: help::ABOUT_MERGE,
    after_help: help::AFTER_MERGE,
    words: &[
        Word("OUT", Kind::Text, help::MERGED_OUT),
        Word("log", Kind::TextOption("LOG"), help::LOG),
        Word("IMAGE", Kind::Images, help::READINGS),
    ],
};

pub const COMPARE: &CommandSpec = &CommandSpec {
    name: "compare",
    about: help::ABOUT_COMPARE,
    after_help: help::AFTER_COMPARE,
    words: &[
        Word("IMAGE", Kind::Images, help::READINGS),
        Word("json", Kind::Flag, help::COMPARE_JSON),
    ],
};

/// The lines of a comparison.
const MERGE_ROWS: &RowTable = &RowTable {
    separator: b' ',
    front: &[],
    kinds: &[
        RowKind(
            "IMAGE",
            &[
                Column("image", Shape::Number, Span::Cell),
                Column("items", Shape::Number, Span::Cell),
                Column("bad", Shape::Number, Span::Cell),
                Column("end", Shape::Text, Span::End),
                Column("name", Shape::Name, Span::Rest),
            ],
        ),
        RowKind(
            "MERGED",
            &[
                Column("items", Shape::Number, Span::Cell),
                Column("bad", Shape::Number, Span::Cell),
                Column("alone", Shape::Number, Span::Cell),
                Column("end", Shape::Text, Span::Cell),
                Column("count", Shape::Number, Span::After("COUNT")),
            ],
        ),
        RowKind("DIFFER", &[Column("item", Shape::Number, Span::Cell)]),
        RowKind(
            "HAS",
            &[
                Column("image", Shape::Number, Span::Cell),
                Column("reading", Shape::Text, Span::Cell),
                Column("kind", Shape::Text, Span::Cell),
                Column("length", Shape::Number, Span::Length),
                Column("offset", Shape::Number, Span::Cell),
                Column("name", Shape::Name, Span::Rest),
            ],
        ),
    ],
};

pub fn merge_order<'a>(alloc: Global, matches: &ArgMatches<'a>) -> Result<MergeOrder<'a>, Refusal> {
    let out = Some(out_of(matches, help::MERGED_OUT_IS_DASH)?);
    let log = matches.get_str("log");
    if let Some("-") = log {
        return Err(Refusal::Words(help::LOG_IS_DASH));
    }
    let images = named(alloc, matches, help::TOO_MANY_TO_MERGE)?;
    Ok(MergeOrder {
        out,
        log,
        json: false,
        images,
    })
}

pub fn compare_order<'a>(
    alloc: Global,
    matches: &ArgMatches<'a>,
) -> Result<MergeOrder<'a>, Refusal> {
    Ok(MergeOrder {
        out: None,
        log: None,
        json: matches.get_flag("json"),
        images: named(alloc, matches, help::TOO_MANY_TO_COMPARE)?,
    })
}

/// Merges the readings named in the arguments into a new image, and creates its log if one is
/// requested, or only compares them. On error, `site` says where it occurred.
pub fn merge<'a, R: Progress>(
    rt: &R,
    order: &MergeOrder<'a>,
    site: &mut FaultSite<'a>,
) -> Result<End, Refusal> {
    let mut text = String::new(rt.alloc());
    let names = names_of(rt.host(), &order.images, &mut text, site)?;
    let names = names.as_slice();
    if names.len() < 2 {
        return Err(Refusal::Words(help::ONE_READING));
    }
    match order.out {
        Some(path) => merge_into(rt, order, names, path, site),
        None => {
            *site = FaultSite::Lines;
            let (place, no_rows) = (&mut Nowhere, &mut io::sink());
            Ok(merge_files(rt, order, names, io::sink(), place, no_rows, site))
        }
    }
}

/// Merges the readings named `names` into a new image at `path`, and creates its log if one is
/// requested.
fn merge_into<'a, R: Progress>(
    rt: &R,
    order: &MergeOrder<'a>,
    names: &[&str],
    path: &'a str,
    site: &mut FaultSite<'a>,
) -> Result<End, Refusal> {
    *site = FaultSite::New(path);
    no_draft(names, order.images.list)?;
    no_draft(&[path, order.log.unwrap_or(path)], None)?;
    if let Some(log) = order.log
        && is_one_name(rt.host(), log, path)?
    {
        return Err(Refusal::Words(help::LOG_IS_OUT));
    }
    let (mut draft, out) = Draft::new(rt, path)?;
    let end = match order.log {
        None => merge_files(rt, order, names, out, &mut draft, &mut io::sink(), site),
        Some(log) => {
            *site = FaultSite::Log(log);
            match Draft::new(rt, log) {
                Ok((log, rows)) => {
                    *site = FaultSite::New(path);
                    let log = Output::New(log, rows);
                    merge_with_log(rt, order, names, out, &mut draft, log, site)
                }
                Err(fault) => End::Faulted(fault),
            }
        }
    };
    Ok(draft.ended(end))
}

/// Merges the readings into `out`, and writes the log, which gets its name before the merged image
/// does, and loses it again if the merged image cannot get its own.
fn merge_with_log<'a, R: Progress>(
    rt: &R,
    order: &MergeOrder<'a>,
    names: &[&str],
    out: BufWriter<File>,
    draft: &mut Draft<'_, R>,
    log: Output<'_, R>,
    site: &mut FaultSite<'a>,
) -> End {
    let mut log = log;
    let end = merge_files(rt, order, names, out, draft, &mut log, site);
    if !draft.has_taken() {
        log.give_back();
    }
    log.ended(end)
}

/// A destination of the merged image that discards it, for `compare`.
#[derive(Drop)]
struct Nowhere;

impl Place<Sink> for Nowhere {
    ghost use Rattle.std.specs.Prelude.{None};

    ghost stands = { λ _. None };

    fn place(&mut self, _out: Sink) -> Result<(), WriteFailed> {
        Ok(())
    }
}

/// Merges the images named `names`, and writes the rows of the log. If the error is in an image or
/// the log, `site` says in which.
fn merge_files<'a, R: Progress, W: Write + Drop, O: Place<W>, G: Write>(
    rt: &R,
    order: &MergeOrder<'a>,
    names: &[&str],
    out: W,
    place: &mut O,
    rows: &mut G,
    site: &mut FaultSite<'a>,
) -> End {
    let (images, report) = (&mut AnyImages::new(rt, names), &mut io::writer(rt));
    let alloc = rt.alloc();
    let merged = if order.json {
        let report = &mut JsonRows::new(alloc, MERGE_ROWS, report);
        merge_now(alloc, images, names, out, place, rows, report)
    } else {
        merge_now(alloc, images, names, out, place, rows, report)
    };
    let stop = match merged {
        Ok(MergeEnd::Whole) => return End::Done,
        Ok(MergeEnd::Partial | MergeEnd::Differs) => return End::Incomplete,
        Err(stop) => stop,
    };
    End::Faulted(match stop {
        MergeStop::NotOpened(number) => {
            *site = match order.images.image(number) {
                ImageName::Word(name) => FaultSite::Image(name),
                ImageName::Listed(number) => FaultSite::Listed(number),
            };
            ToolFault::File(FileFault::NotOpened)
        }
        MergeStop::TooLong(place) => ToolFault::Image(ImageFault {
            place,
            cause: ImageCause::TooLong,
        }),
        MergeStop::OutOfMemory => OUT_OF_MEMORY,
        MergeStop::WriteFailed => ToolFault::File(FileFault::WriteFailed),
        MergeStop::LogFailed => {
            if let Some(path) = order.log {
                *site = FaultSite::Log(path);
            }
            ToolFault::File(FileFault::WriteFailed)
        }
    })
}
