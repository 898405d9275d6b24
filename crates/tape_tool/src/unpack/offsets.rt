//! The byte offsets of blocks in images, as they are: not in normal form.

use crate::convert::is_simh;
use crate::images::ReadAhead;
use crate::readings::{file_at, opened_at, place_in};
use crate::screen::Host;
use indexmap::IndexMap;
use std::alloc::{AllocError, Global};
use std::io::Read;
use tape_image::{ImageReader, Item};
use tape_label::read_head1;
use tape_run::{SectionKey, container_of};

/// Where the data of a section begin on an image.
#[derive(Clone, Copy)]
pub struct Start {
    /// The byte offset after the tape mark before them.
    pub data: u64,
    /// That of the first block, if it is readable.
    pub first: Option<u64>,
}

/// Where the data of each section on an image begin, or `None` if more than one header label of the
/// section was read.
pub type Starts = IndexMap<SectionKey, Option<Start>>;

/// Returns where the data of the sections on the image named `name` begin: after the tape mark that
/// follows a header label. Labels in EBCDIC are not read. The starts are those up to a fault, and
/// none of an image of another format. The byte offsets are those from the beginning of the file.
pub fn starts_in<R: Host>(rt: &R, name: &str) -> Result<Starts, AllocError> {
    let alloc = rt.alloc();
    let mut starts = Starts::new(alloc);
    let (from, Ok(file)) = (place_in(name).1, opened_at(rt, name)) else {
        return Ok(starts);
    };
    let mut bytes = ReadAhead::new(alloc, file)?;
    if from == 0 && !is_simh(container_of(bytes.front())) {
        return Ok(starts);
    }
    let mut image = reader_of(alloc, &mut bytes)?;
    // The section of the labels, the one that begins with the next item, and whether data follow.
    let (mut head, mut begun, mut is_data) = (None, None, false);
    for _ in 0..u64::MAX {
        let (length, label) = match image.next() {
            Ok(Some(Item::Block(block))) if is_data => (Some(block.len()), None),
            Ok(Some(Item::Block(block))) => (None, section_of(block)),
            Ok(Some(Item::Bad)) => (None, None),
            Ok(Some(Item::Mark)) => {
                is_data = !is_data && head.is_some();
                begun = if is_data { head } else { None };
                head = None;
                note_start(&mut starts, begun, from.saturating_add(image.place()))?;
                continue;
            }
            _ => break,
        };
        head = label.or(head);
        if let (Some(key), Some(length)) = (begun.take(), length) {
            let place = from.saturating_add(image.place());
            note_first(&mut starts, key, place.saturating_sub(size_of(length)))?;
        }
    }
    Ok(starts)
}

/// Records that the data of a section begin at this byte offset.
fn note_start(
    starts: &mut Starts,
    section: Option<SectionKey>,
    data: u64,
) -> Result<(), AllocError> {
    let Some(key) = section else {
        return Ok(());
    };
    let start = (!starts.contains_key(&key)).then_some(Start { data, first: None });
    starts.insert(key, start).map_err(|_| AllocError)?;
    Ok(())
}

/// Records the byte offset of the first block of a section.
fn note_first(starts: &mut Starts, key: SectionKey, place: u64) -> Result<(), AllocError> {
    if let Some(Some(start)) = starts.get(&key).copied() {
        let first = Some(place);
        let start = Some(Start { first, ..start });
        starts.insert(key, start).map_err(|_| AllocError)?;
    }
    Ok(())
}

/// Returns the number of bytes of a block in an image: a word before its bytes and one after them,
/// and a byte that makes their number even.
fn size_of(length: usize) -> u64 {
    let length = length as u64;
    length.saturating_add(length % 2).saturating_add(8)
}

/// Returns the section that begins with a block, if it is a header label.
fn section_of(block: &[u8]) -> Option<SectionKey> {
    let head = read_head1(block).ok()?;
    Some(SectionKey {
        set_id: head.set_id,
        file: head.sequence,
        sect: head.sect,
    })
}

/// Creates a reader of the items of an image.
fn reader_of<'r, D: Read>(
    alloc: Global,
    bytes: &'r mut D,
) -> Result<ImageReader<'r, D>, AllocError> {
    match ImageReader::new(alloc, bytes) {
        Ok(image) => Ok(image),
        Err(_) => Err(AllocError),
    }
}

/// Returns the byte offset of block `number` of data that begin at byte offset `start` of the image
/// named `name`, counted from 0: that of its first word. Returns `None` if it cannot be read there.
pub fn block_offset<R: Host>(
    rt: &R,
    name: &str,
    start: u64,
    number: u32,
) -> Result<Option<u64>, AllocError> {
    let Ok(file) = file_at(rt, place_in(name).0, start) else {
        return Ok(None);
    };
    let mut bytes = ReadAhead::new(rt.alloc(), file)?;
    let mut image = reader_of(rt.alloc(), &mut bytes)?;
    for _ in 0..number {
        match image.next() {
            Ok(Some(Item::Block(_) | Item::Bad)) => {}
            _ => return Ok(None),
        }
    }
    let length = match image.next() {
        Ok(Some(Item::Block(block))) => block.len(),
        _ => return Ok(None),
    };
    Ok(start.checked_add(image.place().saturating_sub(size_of(length))))
}
