//! What `write` does when a set was not written: the images that it created are removed, and the
//! fault is located.
use super::run::split;
use super::words::WriteOrder;
use crate::explain::FaultSite;
use crate::fault::FileFault;
use crate::refusal::remove;
use crate::screen::{Host, Progress};
use std::fs::File;
use std::io::Read;
use std::{fmt, fs};
use tape_blocks::{Form, Shape};
use tape_label::Format;
use tape_writer::system::{SystemFault, Unwritten, image_path};
use tape_writer::{InputFault, Records, WriteFault, cut_of, longest};

/// Removes the images of these volumes, which this run created. If memory for a path is refused,
/// its image remains.
pub fn remove_images<R: Progress>(rt: &R, order: &WriteOrder<'_>, made: &[u16]) {
    for number in made {
        if let Ok(path) = image_path(rt.alloc(), order.folder, order.prefix, *number) {
            remove(rt, path.as_str());
        }
    }
}

/// Returns where the fault of a set occurred: at an image, at the input read last, which is input
/// number `begun`, counted from 1, or at one of its records. A record is looked for only in a
/// regular file, which can be read again.
pub fn site_of<'a, R: Host>(
    rt: &R,
    order: &WriteOrder<'a>,
    shape: &Shape,
    begun: usize,
    unwritten: &Unwritten,
) -> FaultSite<'a> {
    if let Some(number) = unwritten.image {
        return FaultSite::Written(order.folder, order.prefix, number);
    }
    let Some(word) = order.files.get(begun.saturating_sub(1)) else {
        return FaultSite::Images(order.folder);
    };
    match unwritten.fault {
        SystemFault::File(FileFault::ReadFailed) => FaultSite::Input(*word),
        SystemFault::Write(WriteFault::RecordLength) => {
            match odd_record(rt, split(*word).1, order.form, shape) {
                Some(odd) => FaultSite::Record(*word, odd),
                None => FaultSite::Input(*word),
            }
        }
        _ => FaultSite::Images(order.folder),
    }
}

/// A record that a file of the set cannot have.
#[derive(Clone, Copy)]
pub struct OddRecord {
    /// Whether records are lines.
    is_line: bool,
    /// The number of the record in its input, counted from 1.
    number: u64,
    /// The length of the record in bytes, or `None` if it is more than `MOST`.
    length: Option<usize>,
    /// The maximum length of a record in bytes.
    limit: u32,
    /// Whether every record has this length.
    is_fixed: bool,
}

impl fmt::Display for OddRecord {
    fn fmt<W: fmt::Write>(&self, f: &mut fmt::Formatter<W>) -> fmt::Result {
        let (number, limit) = (self.number, self.limit);
        let kind = if self.is_line { "line" } else { "record" };
        match self.length {
            Some(length) => write!(f, "{kind} {number}: {length} bytes")?,
            None => write!(f, "{kind} {number}: more than {MOST} bytes")?,
        }
        let most = if self.is_fixed { "" } else { "at most " };
        write!(f, "; a record has {most}{limit}")
    }
}

/// The maximum length of a record whose length is reported, in bytes.
const MOST: u32 = 1_048_576;

/// Returns the first record of the file at `path` that no file of the shape can have. Returns
/// `None` if no such record is found, or the file cannot be read again.
fn odd_record<R: Host>(rt: &R, path: &str, form: Form, shape: &Shape) -> Option<OddRecord> {
    let is_file = fs::metadata(rt, path).is_ok_and(|found| found.is_file());
    let (true, Some(cut), Ok(file)) = (is_file, cut_of(form, shape), File::open(rt, path)) else {
        return None;
    };
    let Ok(mut records) = Records::new(rt.alloc(), file, cut, MOST) else {
        return None;
    };
    let (number, length) = first_odd(&mut records, shape)?;
    Some(OddRecord {
        is_line: form == Form::Lines,
        number,
        length,
        limit: longest(shape),
        is_fixed: shape.format == Format::Fixed,
    })
}

/// Returns the number, counted from 1, and the length of the next record that no file of the shape
/// can have. The length is `None` if it is more than `MOST`.
fn first_odd<R: Read + Drop>(
    records: &mut Records<R>,
    shape: &Shape,
) -> Option<(u64, Option<usize>)> {
    let limit = longest(shape) as usize;
    for number in 1..u64::MAX {
        match records.next() {
            Ok(true) => {
                let length = records.content.len();
                if length > limit || (shape.format == Format::Fixed && length < limit) {
                    return Some((number, Some(length)));
                }
            }
            Err(InputFault::TooLong) => return Some((number, None)),
            Ok(false) | Err(_) => return None,
        }
    }
    None
}
