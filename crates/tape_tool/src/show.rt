//! `show`: items of an image in full: labels by their fields, other blocks in hexadecimal and as
//! text, also those that cannot be read, as far as the image has them.
pub mod fields;
pub mod item;

use crate::command_spec::{CommandSpec, Kind, Word};
use crate::explain::FaultSite;
use crate::fault::{FileFault, ToolFault};
use crate::help;
use crate::images::Images;
use crate::list::NO_MEMORY;
use crate::program::End;
use crate::refusal::{Refusal, open};
use crate::screen::Progress;
use crate::words::{at_most_one, text_of};
use clap::ArgMatches;
use item::{Look, Sort, show_item};
use std::alloc::Global;
use std::io;
use std::io::{BufWriter, Read, Seek, Write};
use tape_image::{ImageCause, ImageReader, Item};
use tape_run::{ImageSource, flush};

/// The maximum number of an item: no image has more.
const MOST: u64 = 4_294_967_295;

/// The request to `show`: an image, and the numbers of items.
#[derive(Clone, Copy)]
pub struct ShowOrder<'a> {
    /// The path of the image.
    pub image: &'a str,
    /// The number of the first item, counted from 1.
    pub first: u32,
    /// The number of the last item.
    pub last: u32,
    /// Whether the bytes of the items are written as they are.
    pub raw: bool,
    /// Whether the text of blocks is in EBCDIC.
    pub ebcdic: bool,
}

pub const SHOW: &CommandSpec = &CommandSpec {
    name: "show",
    about: help::ABOUT_SHOW,
    after_help: help::AFTER_SHOW,
    words: &[
        Word("IMAGE", Kind::Text, help::SHOWN_IMAGE),
        Word("N", Kind::Number(1, MOST), help::FIRST_ITEM),
        Word(
            "M",
            Kind::AtMostOne("tape show [--raw] [--ebcdic] <IMAGE> <N> [M]"),
            help::LAST_ITEM,
        ),
        Word("raw", Kind::Flag, help::RAW),
        Word("ebcdic", Kind::Flag, help::EBCDIC),
    ],
};

pub fn show_order<'a>(matches: &ArgMatches<'a>) -> Result<ShowOrder<'a>, Refusal> {
    let first = matches.get_one::<u32>("N").unwrap_or(0);
    let last = match at_most_one(matches, "M", help::WRONG_ITEM, help::WRONG_ITEM)? {
        None => first,
        Some(text) => match text.parse::<u32>() {
            Ok(last) if first <= last => last,
            _ => return Err(Refusal::Value("M", help::WRONG_ITEM)),
        },
    };
    Ok(ShowOrder {
        image: text_of(matches, "IMAGE"),
        first,
        last,
        raw: matches.get_flag("raw"),
        ebcdic: matches.get_flag("ebcdic"),
    })
}

/// Shows the items in `order`, or those of them that the image has, on standard output. The image
/// is opened twice: items are counted in one reading, and shown from the other. On error, `site`
/// says where it occurred.
///
/// # Errors
///
/// Returns `Words` if the image ends before the first of the items, and `Faulted` with the fault of
/// the image or of a file. What the image has of a block with a fault is shown before.
pub fn show<'a, R: Progress>(
    rt: &R,
    order: &ShowOrder<'a>,
    site: &mut FaultSite<'a>,
) -> Result<End, Refusal> {
    *site = FaultSite::Image(order.image);
    let names = [order.image];
    let images = &mut Images::new(rt, &names);
    let Some(mut counted) = images.mount(0).map_err(|_| NO_MEMORY)? else {
        return Err(Refusal::from(FileFault::NotOpened));
    };
    let mut file = open(rt.host(), order.image)?;
    let mut writer = BufWriter::new(rt.alloc(), io::writer(rt)).map_err(|_| NO_MEMORY)?;
    match show_items(rt.alloc(), &mut counted, &mut file, order, &mut writer) {
        Ok(true) => Ok(End::Done),
        Ok(false) => Err(Refusal::Words(help::NO_ITEM)),
        Err(fault) => {
            if fault == ToolFault::File(FileFault::WriteFailed) {
                *site = FaultSite::Lines;
            }
            Err(Refusal::from(fault))
        }
    }
}

/// Shows items of the image that both `counted` and `file` read. Returns false if the image ends
/// before the first one.
fn show_items<R: Read, F: Read + Seek, W: Write>(
    alloc: Global,
    counted: &mut R,
    file: &mut F,
    order: &ShowOrder<'_>,
    writer: &mut W,
) -> Result<bool, ToolFault> {
    let mut image = match ImageReader::new(alloc, counted) {
        Ok(image) => image,
        Err(fault) => return Err(ToolFault::Image(fault)),
    };
    let (look, mut shown) = (Look::of(order), false);
    for number in 1..=order.last {
        let from = image.place();
        let (sort, fault) = match image.next() {
            Ok(Some(Item::Block(_))) => (Sort::Block, None),
            Ok(Some(Item::Bad)) => (Sort::Bad, None),
            Ok(Some(Item::Mark)) => (Sort::Mark, None),
            Ok(None) => break,
            Err(fault) => (sort_at(fault.cause), Some(fault)),
        };
        if order.first <= number {
            show_item(file, from, u64::from(number), sort, look, writer)?;
            shown = true;
        }
        if let Some(fault) = fault {
            flush(writer)?;
            return Err(ToolFault::Image(fault));
        }
    }
    flush(writer)?;
    Ok(shown)
}

/// Returns what is shown where an image cannot be read on.
fn sort_at(cause: ImageCause) -> Sort {
    match cause {
        ImageCause::Truncated => Sort::Cut,
        ImageCause::LengthsDiffer => Sort::Differs,
        _ => Sort::Nothing,
    }
}
