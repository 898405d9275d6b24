//! `convert`: makes a SIMH image of an image of another format.

mod parts;

use crate::command_spec::{CommandSpec, Kind, Word};
use crate::explain::FaultSite;
use crate::extract::{Draft, no_draft};
use crate::fault::{FileFault, OUT_OF_MEMORY, ToolFault};
use crate::help;
use crate::images::{Image, Images, ReadAhead};
use crate::program::End;
use crate::refusal::{Refusal, open};
use crate::screen::Progress;
use crate::words::{at_most_one, out_of, text_of};
use clap::ArgMatches;
pub use parts::ShownPart;
use parts::split;
use std::alloc::Global;
use std::fs::File;
use std::io;
use std::io::{BufWriter, Read, Write};
use tape_image::{ConvertFault, ImageFormat, ImageReader, convert_to, write_bytes};
use tape_run::{Container, ImageSource, Place, container_of, write_text};

/// The request to `convert`: the image to create, and the image at a path, or on standard input.
#[derive(Clone, Copy)]
pub struct ConvertOrder<'a> {
    /// The path of the image to create.
    pub out: &'a str,
    /// The path of the image, or `None` for standard input.
    pub image: Option<&'a str>,
    /// The format of the image, or `None` if it is to be recognised.
    pub format: Option<ImageFormat>,
    /// Whether reading continues after a wrong word.
    pub resync: bool,
}

pub const CONVERT: &CommandSpec = &CommandSpec {
    name: "convert",
    about: help::ABOUT_CONVERT,
    after_help: help::AFTER_CONVERT,
    words: &[
        Word("OUT", Kind::Text, help::MERGED_OUT),
        Word(
            "IMAGE",
            Kind::AtMostOne("tape convert [--format FORMAT] [--resync] OUT [IMAGE]"),
            help::IMAGE_TO_CONVERT,
        ),
        Word(
            "format",
            Kind::NameOption("FORMAT", &["auto", "aws", "e11", "simh"], &["auto"]),
            help::FORMAT_TO_CONVERT,
        ),
        Word("resync", Kind::Flag, help::RESYNC),
    ],
};

pub fn convert_order<'a>(matches: &ArgMatches<'a>) -> Result<ConvertOrder<'a>, Refusal> {
    Ok(ConvertOrder {
        out: out_of(matches, help::MERGED_OUT_IS_DASH)?,
        image: at_most_one(matches, "IMAGE", help::DASH, help::ONE_TO_CONVERT)?,
        format: match text_of(matches, "format") {
            "aws" => Some(ImageFormat::Aws),
            "e11" => Some(ImageFormat::E11),
            "simh" => Some(ImageFormat::Extended),
            _ => None,
        },
        resync: matches.get_flag("resync"),
    })
}

/// Returns the format by which an image of the kind is read as a SIMH image, if it is not one.
pub fn format_of(kind: Container) -> Option<ImageFormat> {
    match kind {
        Container::Extended => Some(ImageFormat::Extended),
        Container::E11 => Some(ImageFormat::E11),
        Container::Aws => Some(ImageFormat::Aws),
        _ => None,
    }
}

/// Returns whether an image of the kind may be a SIMH image, if only a damaged one.
pub fn is_simh(kind: Container) -> bool {
    matches!(
        kind,
        Container::Unknown | Container::Simh | Container::TextCopy
    )
}

/// Creates the SIMH image of the image in `order`, and prints the number of its items. The image
/// gets its name when it was written and read again to its end. On error, `site` says where it
/// occurred.
pub fn convert_image<'a, R: Progress>(
    rt: &R,
    order: ConvertOrder<'a>,
    site: &mut FaultSite<'a>,
) -> Result<End, Refusal> {
    *site = FaultSite::New(order.out);
    no_draft(&[order.out, order.image.unwrap_or(order.out)], None)?;
    let (mut draft, out) = Draft::new(rt, order.out)?;
    let end = match written(rt, order, &mut draft, out, site) {
        Ok(Some(items)) => told(rt, items, site),
        Ok(None) => split(rt, order, draft.path(), site),
        Err(fault) => End::Faulted(fault),
    };
    Ok(draft.ended(end))
}

/// Prints the number of items.
fn told<R: Progress>(rt: &R, items: u64, site: &mut FaultSite<'_>) -> End {
    *site = FaultSite::Lines;
    let Ok(line) = format!(in rt.alloc(); "CONVERTED {items}\n") else {
        return End::Faulted(OUT_OF_MEMORY);
    };
    match write_text(&mut io::writer(rt), line.as_bytes()) {
        Ok(()) => End::Done,
        Err(fault) => End::Faulted(ToolFault::from(fault)),
    }
}

/// Writes the SIMH image to the draft, reads it again to its end, and gives it its name. Returns
/// the number of its items. If reading is to continue after wrong words, only writes the image.
fn written<'a, R: Progress>(
    rt: &R,
    order: ConvertOrder<'a>,
    draft: &mut Draft<'_, R>,
    out: BufWriter<File>,
    site: &mut FaultSite<'a>,
) -> Result<Option<u64>, ToolFault> {
    let mut out = out;
    let is_split = copy_image(rt, order, &mut out, site)?;
    if is_split {
        return match out.into_inner() {
            Ok(_) => Ok(None),
            Err(_) => Err(ToolFault::File(FileFault::WriteFailed)),
        };
    }
    let items = items_of(rt, draft.path())?;
    *site = FaultSite::New(order.out);
    draft.place(out)?;
    Ok(Some(items))
}

/// Writes the SIMH image of the image in `order`, and returns whether reading of it is to continue
/// after wrong words. On error, `site` says where it occurred.
fn copy_image<'a, R: Progress, W: Write>(
    rt: &R,
    order: ConvertOrder<'a>,
    out: &mut W,
    site: &mut FaultSite<'a>,
) -> Result<bool, ToolFault> {
    *site = order
        .image
        .map_or(FaultSite::Stdin, |path| FaultSite::Converted(path));
    let names = [order.image.unwrap_or("-")];
    let images = &mut Images::new(rt, &names);
    images.input = order.image.is_none().then_some(0);
    let Some(image) = images.mount(0).map_err(|_| OUT_OF_MEMORY)? else {
        return Err(ToolFault::File(FileFault::NotOpened));
    };
    match copied(rt, image, order, out) {
        Ok(is_split) => Ok(is_split),
        Err(Stop::Image(fault)) => Err(fault),
        Err(Stop::Out) => {
            *site = FaultSite::New(order.out);
            Err(ToolFault::File(FileFault::WriteFailed))
        }
    }
}

/// Returns the number of items of the SIMH image at `path`.
fn items_of<R: Progress>(rt: &R, path: &str) -> Result<u64, ToolFault> {
    let file = open(rt.host(), path)?;
    let mut image = ReadAhead::new(rt.alloc(), file).map_err(|_| OUT_OF_MEMORY)?;
    count_items(rt.alloc(), &mut image)
}

/// The reason why no SIMH image was written.
#[derive(Clone, Copy)]
enum Stop {
    /// The image could not be read.
    Image(ToolFault),
    /// The SIMH image could not be written.
    Out,
}

/// Writes the SIMH image of an unread image of a format, or of one that is recognised. An image of
/// a kind that is not read is refused with the fault that it has as a SIMH image. Returns true if
/// reading is to continue after wrong words: then the image was written as it is.
fn copied<R: Progress, W: Write>(
    rt: &R,
    image: Image<R>,
    order: ConvertOrder<'_>,
    out: &mut W,
) -> Result<bool, Stop> {
    let (mut image, alloc) = (image, rt.alloc());
    let kind = container_of(image.front());
    let format = match order.format.or(format_of(kind)) {
        Some(format) => format,
        // What is only in the extended format may come later.
        None if is_simh(kind) => ImageFormat::Extended,
        None => {
            let fault = match count_items(alloc, &mut image) {
                Ok(_) => ToolFault::File(FileFault::ReadFailed),
                Err(fault) => fault,
            };
            return Err(Stop::Image(fault));
        }
    };
    let is_standard = format == ImageFormat::Extended && kind != Container::Extended;
    let is_split = order.resync && is_standard;
    let converted = if is_split {
        copy_all(&mut image, out)
    } else {
        convert_to(alloc, image, format, out)
    };
    match converted {
        Ok(()) => Ok(is_split),
        Err(ConvertFault::ReadFailed) => Err(Stop::Image(ToolFault::File(FileFault::ReadFailed))),
        Err(ConvertFault::WriteFailed) => Err(Stop::Out),
    }
}

/// Copies all bytes.
fn copy_all<D: Read, W: Write>(from: &mut D, out: &mut W) -> Result<(), ConvertFault> {
    let mut piece = [0u8; 4096];
    for _ in 0..u64::MAX {
        let read = match from.read(&mut piece) {
            Ok(0) => break,
            Ok(read) => read,
            Err(_) => return Err(ConvertFault::ReadFailed),
        };
        let bytes = piece.get(..read).unwrap_or(&[]);
        if write_bytes(out, bytes).is_err() {
            return Err(ConvertFault::WriteFailed);
        }
    }
    Ok(())
}

/// Returns the number of items of an image.
pub fn count_items<D: Read>(alloc: Global, device: &mut D) -> Result<u64, ToolFault> {
    let mut image = ImageReader::new(alloc, device).map_err(|fault| ToolFault::Image(fault))?;
    let mut items: u64 = 0;
    for _ in 0..u64::MAX {
        match image.next() {
            Ok(Some(_)) => items = items.saturating_add(1),
            Ok(None) => break,
            Err(fault) => return Err(ToolFault::Image(fault)),
        }
    }
    Ok(items)
}
