//! The images that `convert --resync` makes of a damaged one: one for each of its readings.

use super::ConvertOrder;
use crate::explain::FaultSite;
use crate::extract::Draft;
use crate::fault::{FileFault, OUT_OF_MEMORY, ToolFault};
use crate::program::End;
use crate::readings::{Reading, file_at, find_readings};
use crate::screen::Progress;
use crate::shown::Shown;
use std::alloc::{AllocError, Global};
use std::io::{Read, Write};
use std::{fmt, io};
use tape_image::write_bytes;
use tape_run::{name_text, write_text};
use tape_writer::system::name_in_folder;

/// The name of an image, by that of the first one and its number, counted from 1.
#[derive(Clone, Copy)]
struct PartName<'a>(&'a str, usize);

impl fmt::Display for PartName<'_> {
    fn fmt<W: fmt::Write>(&self, f: &mut fmt::Formatter<W>) -> fmt::Result {
        let PartName(out, number) = *self;
        match parted(out) {
            _ if number < 2 => f.write_str(out),
            Some((front, end)) => write!(f, "{front}-{number}.{end}"),
            None => write!(f, "{out}-{number}"),
        }
    }
}

/// The same name as it is printed.
#[derive(Clone, Copy)]
pub struct ShownPart<'a>(pub &'a str, pub usize);

impl fmt::Display for ShownPart<'_> {
    fn fmt<W: fmt::Write>(&self, f: &mut fmt::Formatter<W>) -> fmt::Result {
        let ShownPart(out, number) = *self;
        match parted(out) {
            _ if number < 2 => write!(f, "{}", Shown(out)),
            Some((front, end)) => write!(f, "{}-{number}.{}", Shown(front), Shown(end)),
            None => write!(f, "{}-{number}", Shown(out)),
        }
    }
}

/// Returns the name of an image before the dot of its extension, and the extension, if it has one.
fn parted(out: &str) -> Option<(&str, &str)> {
    let (stem, end) = name_in_folder(out).rsplit_once('.')?;
    if stem.is_empty() {
        return None;
    }
    Some((out.strip_suffix(end)?.strip_suffix('.')?, end))
}

/// Creates an image for each reading of the SIMH image at `path` that has items, and prints how
/// many these are. The first is OUT, the others have its name with their numbers. None overwrites a
/// file, and all get their names after they were written. On error, `site` says where it occurred.
pub fn split<'a, R: Progress>(
    rt: &R,
    order: ConvertOrder<'a>,
    path: &str,
    site: &mut FaultSite<'a>,
) -> End {
    let readings = match find_readings(rt.host(), path) {
        Ok(readings) => readings,
        Err(fault) => return End::Faulted(fault),
    };
    let Ok(parts) = with_items(rt.alloc(), readings.as_slice()) else {
        return End::Faulted(OUT_OF_MEMORY);
    };
    let fault = readings.first().and_then(|reading| reading.fault);
    if let (Some(fault), true) = (fault, parts.is_empty()) {
        return End::Faulted(ToolFault::Image(fault));
    }
    *site = FaultSite::New(order.out);
    match part_names(rt.alloc(), order.out, parts.len()) {
        Ok(names) => create(
            rt,
            order.out,
            path,
            names.as_slice(),
            parts.as_slice(),
            site,
        ),
        Err(_) => End::Faulted(OUT_OF_MEMORY),
    }
}

/// Returns the readings that have items or are an image without any.
fn with_items(alloc: Global, readings: &[Reading]) -> Result<Vec<Reading>, AllocError> {
    let mut found = Vec::new(alloc);
    for reading in readings {
        if reading.items > 0 || reading.fault.is_none() {
            found.push(*reading)?;
        }
    }
    Ok(found)
}

/// Returns the names of `count` images, of which `out` is the first.
fn part_names(alloc: Global, out: &str, count: usize) -> Result<Vec<String>, AllocError> {
    let mut names = Vec::new(alloc);
    for number in 1..=count {
        names.push(format!(in alloc; "{}", PartName(out, number))?)?;
    }
    Ok(names)
}

/// Creates the images of these names, and prints their lines. If one cannot be created, removes the
/// others.
fn create<'a, R: Progress>(
    rt: &R,
    out: &'a str,
    path: &str,
    names: &[String],
    readings: &[Reading],
    site: &mut FaultSite<'a>,
) -> End {
    let mut drafts = Vec::new(rt.alloc());
    let mut end = End::Done;
    for (number, (name, reading)) in names.iter().zip(readings.iter()).enumerate() {
        *site = FaultSite::Part(out, number.saturating_add(1));
        match written_part(rt, path, name.as_str(), reading, &mut drafts) {
            Ok(()) => {}
            Err(fault) => {
                end = End::Faulted(fault);
                break;
            }
        }
    }
    for (number, draft) in drafts.iter_mut().enumerate() {
        if end == End::Done {
            *site = FaultSite::Part(out, number.saturating_add(1));
            if draft.take().is_err() {
                end = End::Faulted(ToolFault::File(FileFault::WriteFailed));
            }
        }
    }
    if end == End::Done {
        *site = FaultSite::Lines;
        return told(rt, names, readings);
    }
    for draft in drafts.iter_mut() {
        draft.give_back();
        end = draft.ended(end);
    }
    end
}

/// Writes the bytes of a reading of the image at `path` to a draft of the file `name`.
fn written_part<'n, R: Progress>(
    rt: &'n R,
    path: &str,
    name: &'n str,
    reading: &Reading,
    drafts: &mut Vec<Draft<'n, R>>,
) -> Result<(), ToolFault> {
    let (draft, out) = Draft::new(rt, name)?;
    let mut out = out;
    drafts.push(draft).map_err(|_| OUT_OF_MEMORY)?;
    let mut from = file_at(rt.host(), path, reading.start)?;
    copy_bytes(
        &mut from,
        &mut out,
        reading.end.saturating_sub(reading.start),
    )?;
    match out.into_inner() {
        Ok(_) => Ok(()),
        Err(_) => Err(ToolFault::File(FileFault::WriteFailed)),
    }
}

/// Copies `count` bytes.
fn copy_bytes<D: Read, W: Write>(from: &mut D, out: &mut W, count: u64) -> Result<(), ToolFault> {
    let mut piece = [0u8; 4096];
    let mut left = count;
    for _ in 0..u64::MAX {
        if left == 0 {
            return Ok(());
        }
        let read = match from.read(&mut piece) {
            Ok(0) | Err(_) => break,
            Ok(read) => read,
        };
        let most = left.min(read as u64);
        let bytes = piece.get(..most as usize).unwrap_or(&[]);
        if write_bytes(out, bytes).is_err() {
            return Err(ToolFault::File(FileFault::WriteFailed));
        }
        left = left.saturating_sub(most);
    }
    Err(ToolFault::File(FileFault::ReadFailed))
}

/// Prints the number of items of each image, and where reading broke off.
fn told<R: Progress>(rt: &R, names: &[String], readings: &[Reading]) -> End {
    let mut end = End::Done;
    let mut before = None;
    for (name, reading) in names.iter().zip(readings.iter()) {
        tell_break(rt, before, Some((reading.start, name.as_str())));
        before = reading.fault.map(|_| reading.end);
        if before.is_some() || reading.start > 0 {
            end = End::Incomplete;
        }
    }
    tell_break(rt, before, None);
    match printed(rt, names, readings) {
        Ok(()) => end,
        Err(fault) => End::Faulted(fault),
    }
}

/// Says where reading broke off, if it did, and where it continued, and in which image.
fn tell_break<R: Progress>(rt: &R, from: Option<u64>, to: Option<(u64, &str)>) {
    let _ = match (from, to) {
        (Some(from), Some((to, name))) => rt.eprint(format_args!(
            "  reading broke off at byte {from} and continued at byte {to}: {}\n",
            Shown(name)
        )),
        (None, Some((0, _)) | None) => Ok(()),
        (None, Some((to, _))) => rt.eprint(format_args!("  reading began at byte {to}\n")),
        (Some(from), None) => rt.eprint(format_args!("  reading broke off at byte {from}\n")),
    };
}

/// Prints the lines about the images: the first has no name.
fn printed<R: Progress>(rt: &R, names: &[String], readings: &[Reading]) -> Result<(), ToolFault> {
    let mut out = io::writer(rt);
    for (number, (name, reading)) in names.iter().zip(readings.iter()).enumerate() {
        let (items, shown) = (reading.items, name_text(rt.alloc(), name.as_str())?);
        let line = format!(in rt.alloc(); "CONVERTED {items}")?;
        write_text(&mut out, line.as_bytes())?;
        if number > 0 {
            write_text(&mut out, b" ")?;
            write_text(&mut out, shown.as_slice())?;
        }
        write_text(&mut out, b"\n")?;
    }
    Ok(())
}
