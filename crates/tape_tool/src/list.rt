//! `list`: the items of an image.

use crate::command_spec::{CommandSpec, Kind, Word};
use crate::explain::FaultSite;
use crate::fault::{FileFault, ToolFault};
use crate::help;
use crate::images::{Image, Images};
use crate::json_rows::{Column, JsonRows, RowKind, RowTable, Shape, Span};
use crate::program::{End, end_of};
use crate::refusal::Refusal;
use crate::screen::Progress;
use crate::words::at_most_one;
use clap::ArgMatches;
use std::io;
use std::io::BufWriter;
use tape_image::{ImageCause, ImageFault};
use tape_run::{ImageSource, ListFault, list_places_to, list_to};

/// The request to `list`: an image at a path, or standard input.
#[derive(Clone, Copy)]
pub struct ListOrder<'a> {
    /// The path of the image, or `None` for standard input.
    pub image: Option<&'a str>,
    /// Whether the offset and the size of each item are printed.
    pub offsets: bool,
    /// Whether the lines are JSON, which have both.
    pub json: bool,
}

pub const LIST: &CommandSpec = &CommandSpec {
    name: "list",
    about: help::ABOUT_LIST,
    after_help: help::AFTER_LIST,
    words: &[
        Word(
            "IMAGE",
            Kind::AtMostOne("tape list [--offsets | --json] [IMAGE]"),
            help::IMAGE,
        ),
        Word("offsets", Kind::Flag, help::OFFSETS),
        Word("json", Kind::Flag, help::LIST_JSON),
    ],
};

/// The columns of HDR1.
const HEAD: &[Column] = &[
    Column("identifier", Shape::Text, Span::Width(17)),
    Column("set", Shape::Text, Span::Width(6)),
    Column("section", Shape::Number, Span::Cell),
    Column("file", Shape::Number, Span::Cell),
];

/// The columns of EOF1 and EOV1.
const TRAIL: &[Column] = &[
    Column("identifier", Shape::Text, Span::Width(17)),
    Column("set", Shape::Text, Span::Width(6)),
    Column("section", Shape::Number, Span::Cell),
    Column("file", Shape::Number, Span::Cell),
    Column("blocks", Shape::Number, Span::Cell),
];

/// The columns of HDR2, EOF2 and EOV2.
const SECOND: &[Column] = &[
    Column("format", Shape::Text, Span::Cell),
    Column("block", Shape::Number, Span::Cell),
    Column("record", Shape::Number, Span::Cell),
    Column("prefix", Shape::Number, Span::Cell),
];

/// The lines of a listing with offsets.
const LIST_ROWS: &RowTable = &RowTable {
    separator: b' ',
    front: &[
        Column("offset", Shape::Number, Span::Cell),
        Column("size", Shape::Number, Span::Cell),
        Column("item", Shape::Number, Span::Digits),
    ],
    kinds: &[
        RowKind("VOL1", &[Column("volume", Shape::Text, Span::Width(6))]),
        RowKind("HDR1", HEAD),
        RowKind("EOF1", TRAIL),
        RowKind("EOV1", TRAIL),
        RowKind("HDR2", SECOND),
        RowKind("EOF2", SECOND),
        RowKind("EOV2", SECOND),
        RowKind("BLOCK", &[Column("length", Shape::Number, Span::Cell)]),
        RowKind("END", &[Column("end", Shape::Text, Span::Cell)]),
    ],
};

pub fn list_order<'a>(matches: &ArgMatches<'a>) -> Result<ListOrder<'a>, Refusal> {
    Ok(ListOrder {
        image: at_most_one(matches, "IMAGE", help::DASH, help::ONE_IMAGE)?,
        offsets: matches.get_flag("offsets"),
        json: matches.get_flag("json"),
    })
}

/// The fault of an image for which a buffer cannot be allocated.
const NO_BUFFER: ImageFault = ImageFault {
    place: 0,
    cause: ImageCause::OutOfMemory,
};

/// The fault if a buffer cannot be allocated.
pub const NO_MEMORY: ToolFault = ToolFault::Image(NO_BUFFER);

/// Lists the image at the path in `order`, or the one on standard input, on standard output. Both
/// are buffered. On error, `site` says where it occurred.
pub fn list<'a, R: Progress>(
    rt: &R,
    order: ListOrder<'a>,
    site: &mut FaultSite<'a>,
) -> Result<End, Refusal> {
    *site = order
        .image
        .map_or(FaultSite::Stdin, |path| FaultSite::Image(path));
    let names = [order.image.unwrap_or("-")];
    let images = &mut Images::new(rt, &names);
    images.input = order.image.is_none().then_some(0);
    let Some(mut image) = images.mount(0).map_err(|_| NO_MEMORY)? else {
        return Err(Refusal::from(FileFault::NotOpened));
    };
    let listed = list_image(rt, order, &mut image);
    if let Err(ListFault::WriteFailed) = listed {
        *site = FaultSite::Lines;
    }
    Ok(end_of(listed.map_err(|fault| ToolFault::from(fault))))
}

/// Lists an image on standard output.
fn list_image<R: Progress>(
    rt: &R,
    order: ListOrder<'_>,
    image: &mut Image<R>,
) -> Result<(), ListFault> {
    let Ok(mut writer) = BufWriter::new(rt.alloc(), io::writer(rt)) else {
        return Err(ListFault::Image(NO_BUFFER));
    };
    if order.json {
        let rows = &mut JsonRows::new(rt.alloc(), LIST_ROWS, &mut writer);
        return list_places_to(rt.alloc(), image, rows);
    }
    if order.offsets {
        return list_places_to(rt.alloc(), image, &mut writer);
    }
    list_to(rt.alloc(), image, &mut writer)
}
