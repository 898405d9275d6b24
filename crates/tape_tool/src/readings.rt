//! The readings of a damaged image: each is what can be read from a place up to the next wrong word.

mod extended;
mod last;
mod names;

use crate::fault::{FileFault, OUT_OF_MEMORY, ToolFault};
use crate::images::ReadAhead;
use crate::normal::NormalImages;
use crate::refusal::{is_file, open};
use crate::screen::{Host, Progress};
use crate::shown::Shown;
use extended::is_extended;
use last::Last;
use names::{name_extended, own};
pub use names::{
    has_others, image_of, is_extended_name, names_in, place_in, printed_name, printed_names,
};
use std::alloc::AllocError;
use std::fs::File;
use std::io::{Seek, SeekFrom};
use tape_image::{ImageCause, ImageFault, ImageReader, Item, items_again};
use tape_run::{Container, FoundFiles, container_of, find_files};

/// The greatest number of readings of an image. What follows the last is not read.
pub const MOST_READINGS: usize = 99;

/// The greatest number of further readings of all images of a run.
const MOST_FURTHER: usize = 999;

/// What can be read of an image from a place on, up to its end or to a fault.
#[derive(Clone, Copy)]
pub struct Reading {
    /// The byte offset of its first item.
    pub start: u64,
    /// The number of its items.
    pub items: u64,
    /// The byte offset at which it ends.
    pub end: u64,
    /// The fault with which it ends.
    pub fault: Option<ImageFault>,
    /// What labels it has.
    labels: Labels,
    /// What its last items were.
    last: Last,
}

/// The labels among the first items of a reading.
#[derive(Clone, Copy)]
struct Labels {
    /// Whether there is any.
    some: bool,
    /// The byte offset of the first `HDR1` that is in EBCDIC or has padding, unless another `HDR1`
    /// precedes it.
    coded: Option<u64>,
    /// Whether an `HDR1` was read.
    has_header: bool,
}

/// The beginnings of labels in ASCII and EBCDIC, those of `HDR1` first.
const LABELS: [&[u8; 4]; 8] = [
    b"HDR1",
    b"\xC8\xC4\xD9\xF1",
    b"VOL1",
    b"\xE5\xD6\xD3\xF1",
    b"EOF1",
    b"\xC5\xD6\xC6\xF1",
    b"EOV1",
    b"\xC5\xD6\xE5\xF1",
];

/// The number of bytes of a label without padding.
const LABEL: usize = 80;

impl Labels {
    /// Takes a block at byte offset `place`.
    fn take(&mut self, block: &[u8], place: u64) {
        let Some(kind) = LABELS.iter().position(|label| block.starts_with(*label)) else {
            return;
        };
        if block.len() < LABEL {
            return;
        }
        self.some = true;
        if kind < 2 && !self.has_header {
            self.has_header = true;
            self.coded = (kind == 1 || block.len() > LABEL).then_some(place);
        }
    }
}

impl Reading {
    /// Returns the byte offset at which its labels are read: at the first `HDR1` if that is in
    /// EBCDIC or has padding, since no earlier item says how the labels are written. Returns `None`
    /// if the reading has no label.
    fn labels_at(&self) -> Option<u64> {
        self.labels
            .some
            .then_some(self.labels.coded.unwrap_or(self.start))
    }

    /// Returns whether the reading ends with image fault 2 or 3, a wrong word.
    fn is_broken(&self) -> bool {
        let cause = self.fault.map(|fault| fault.cause);
        matches!(
            cause,
            Some(ImageCause::LengthsDiffer | ImageCause::Reserved(_))
        )
    }
}

/// Returns the readings of the SIMH image at `path`: the one from its beginning on, and one from
/// each place at which its items begin again after a wrong word, 99 at most.
///
/// # Errors
///
/// Returns `NotOpened`, `ReadFailed` or `OUT_OF_MEMORY`.
pub fn find_readings<R: Host>(rt: &R, path: &str) -> Result<Vec<Reading>, ToolFault> {
    let mut readings = Vec::new(rt.alloc());
    let mut start = 0;
    for _ in 0..MOST_READINGS {
        let reading = reading_from(rt, path, start)?;
        readings.push(reading).map_err(|_| OUT_OF_MEMORY)?;
        if !reading.is_broken() {
            break;
        }
        let mut file = file_at(rt, path, reading.end)?;
        match items_again(rt.alloc(), &mut file) {
            Ok(Some(lost)) => start = reading.end.saturating_add(lost as u64),
            Ok(None) => break,
            Err(_) => return Err(ToolFault::File(FileFault::ReadFailed)),
        }
    }
    Ok(readings)
}

/// Opens the file of the reading with this name, to be read from its beginning on.
pub fn opened_at<R: Host>(rt: &R, name: &str) -> Result<File, ToolFault> {
    match place_in(name) {
        // A pipe cannot be read from anywhere else.
        (path, 0) => Ok(open(rt, path)?),
        (path, start) => file_at(rt, path, start),
    }
}

/// Opens the file at `path`, to be read from byte offset `start` on.
pub fn file_at<R: Host>(rt: &R, path: &str, start: u64) -> Result<File, ToolFault> {
    let mut file = open(rt, path)?;
    match file.seek(SeekFrom::Start(start)) {
        Ok(_) => Ok(file),
        Err(_) => Err(ToolFault::File(FileFault::ReadFailed)),
    }
}

/// Reads the image at `path` from byte offset `start` on.
fn reading_from<R: Host>(rt: &R, path: &str, start: u64) -> Result<Reading, ToolFault> {
    let file = file_at(rt, path, start)?;
    let mut bytes = ReadAhead::new(rt.alloc(), file)?;
    let Ok(mut image) = ImageReader::new(rt.alloc(), &mut bytes) else {
        return Err(OUT_OF_MEMORY);
    };
    let mut reading = Reading {
        start,
        items: 0,
        end: start,
        fault: None,
        labels: Labels {
            some: false,
            coded: None,
            has_header: false,
        },
        last: Last::Nothing,
    };
    for _ in 0..u64::MAX {
        match image.next() {
            Ok(Some(item)) => {
                reading.last = reading.last.then(item);
                if let Item::Block(block) = item {
                    reading.labels.take(block, reading.end);
                }
            }
            Ok(None) => break,
            Err(fault) if fault.cause == ImageCause::Device => {
                return Err(ToolFault::File(FileFault::ReadFailed));
            }
            Err(fault) => {
                let place = start.saturating_add(fault.place);
                reading.fault = Some(ImageFault { place, ..fault });
                break;
            }
        }
        reading.items = reading.items.saturating_add(1);
        reading.end = start.saturating_add(image.place());
    }
    reading.end = start.saturating_add(image.place());
    Ok(reading)
}

/// Returns the names of the images, followed by those of the readings after their wrong words, 999
/// at most, and names these on standard error with their numbers. Images that can be read only once
/// have none, nor have those of another format. The name of an image of SIMH's extended format says
/// so if its first bytes do not show it.
pub fn all_readings<R: Progress>(rt: &R, names: &[&str]) -> Result<Vec<String>, AllocError> {
    readings_of(rt, names, true)
}

/// Returns the same names, and says nothing.
pub fn quiet_readings<R: Progress>(rt: &R, names: &[&str]) -> Result<Vec<String>, AllocError> {
    readings_of(rt, names, false)
}

/// Returns the names of the images and of the readings after their wrong words. If `is_told`, names
/// the latter on standard error.
fn readings_of<R: Progress>(
    rt: &R,
    names: &[&str],
    is_told: bool,
) -> Result<Vec<String>, AllocError> {
    let mut all = own(rt.alloc(), names)?;
    for name in names {
        if is_file(rt.host(), *name) && is_own_format(rt.host(), *name)? {
            add_further(rt, *name, names.len(), is_told, &mut all)?;
        }
    }
    Ok(all)
}

/// Returns whether the file at `path` is a SIMH image, or of no kind that is recognised.
fn is_own_format<R: Host>(rt: &R, path: &str) -> Result<bool, AllocError> {
    let Ok(file) = open(rt, path) else {
        return Ok(false);
    };
    let mut bytes = ReadAhead::new(rt.alloc(), file)?;
    let kind = container_of(bytes.front());
    Ok(matches!(kind, Container::Simh | Container::Unknown))
}

/// Adds the names of the readings after wrong words of the image at `path`, one of `count`, to
/// those of the images and of other readings.
fn add_further<R: Progress>(
    rt: &R,
    path: &str,
    count: usize,
    is_told: bool,
    all: &mut Vec<String>,
) -> Result<(), AllocError> {
    let readings = match find_readings(rt.host(), path) {
        Ok(readings) => readings,
        Err(OUT_OF_MEMORY) => return Err(AllocError),
        Err(_) => return Ok(()),
    };
    if let Some(first) = readings.first()
        && is_extended(rt.host(), path, first)?
    {
        return name_extended(all.as_mut_slice(), path);
    }
    let (mut from, mut last) = (0, Last::Nothing);
    for reading in &readings {
        // What follows the end of the volume is usually an older recording.
        if last == Last::End {
            return Ok(());
        }
        last = reading.last;
        let end = from;
        from = reading.end;
        let Some(start) = reading.labels_at().filter(|_| reading.start > 0) else {
            continue;
        };
        if all.len().saturating_sub(count) == MOST_FURTHER {
            if is_told {
                let path = Shown(path);
                let _ = rt.eprint(format_args!("  {path} is not read from byte {start} on\n"));
            }
            return Ok(());
        }
        all.push(format!(in rt.alloc(); "{path}\0{start}")?)?;
        if is_told {
            tell_further(rt, all.len(), path, end, start);
        }
    }
    Ok(())
}

/// Names reading `number`, which begins at byte offset `start` of an image, after a wrong word at
/// `end`.
fn tell_further<R: Progress>(rt: &R, number: usize, path: &str, end: u64, start: u64) {
    let (path, last) = (Shown(path), start.saturating_sub(1));
    let _ = rt.eprint(format_args!(
        "  image {number}: {path} from byte {start} on, without bytes {end} to {last}\n"
    ));
}

/// Returns the names of the images and of the readings after their wrong words, and what is found
/// on them. These are looked for if an image was not read completely.
pub fn find_all<R: Progress>(
    rt: &R,
    names: &[&str],
) -> Result<(Vec<String>, FoundFiles), ToolFault> {
    let met = find_files(rt.alloc(), &mut NormalImages::new(rt, names));
    let met = met.map_err(|fault| ToolFault::Run(fault))?;
    if met.whole {
        return Ok((own(rt.alloc(), names)?, met));
    }
    let all = all_readings(rt, names)?;
    if !has_others(all.as_slice(), names.len()) {
        return Ok((all, met));
    }
    let met = find_again(rt, all.as_slice(), names.len())?;
    Ok((all, met))
}

/// Returns what is found on these images and readings, of which the first `count` were read before.
fn find_again<R: Progress>(rt: &R, all: &[String], count: usize) -> Result<FoundFiles, ToolFault> {
    let names = names_in(rt.alloc(), all)?;
    let images = &mut NormalImages::new(rt, names.as_slice());
    images.are_told(count);
    find_files(rt.alloc(), images).map_err(|fault| ToolFault::Run(fault))
}
