//! Checks of a reader, call by call.

use super::checks::{is_so, same_count, same_ending, same_fault};
use std::alloc::Global;
use std::io::Read;
use std::process::Abort;
use std::test::Fail;
use tape_image::{Ending, ImageFault, ImageReader, Item};

/// Checks that the reader returns `item`, which ends at offset `place`.
pub(super) fn gives<R: Read>(
    rt: &impl Abort,
    row: usize,
    reader: &mut ImageReader<'_, R>,
    item: Item<'_>,
    place: u64,
) {
    is_so(rt, row, reader.next() == Ok(Some(item)));
    same_count(rt, row, reader.place(), place);
}

/// Checks that the reader returns `count` items, whatever they are.
pub(super) fn passes<R: Read>(
    rt: &impl Abort,
    row: usize,
    reader: &mut ImageReader<'_, R>,
    items: usize,
) {
    for _ in 0..items {
        is_so(rt, row, matches!(reader.next(), Ok(Some(_))));
    }
}

/// Checks that the reader is at the end of the medium, and stays there.
pub(super) fn ends<R: Read>(
    rt: &impl Abort,
    row: usize,
    reader: &mut ImageReader<'_, R>,
    ending: Ending,
    place: u64,
) {
    for _ in 0..2 {
        is_so(rt, row, matches!(reader.next(), Ok(None)));
        same_ending(rt, row, reader.ending(), Some(ending));
        same_count(rt, row, reader.place(), place);
    }
}

/// Checks that the reader fails, and that every further call returns the same fault.
pub(super) fn fails<R: Read>(
    rt: &impl Abort,
    row: usize,
    reader: &mut ImageReader<'_, R>,
    fault: ImageFault,
) {
    for _ in 0..3 {
        same_fault(rt, row, reader.next().err(), Some(fault));
        same_count(rt, row, reader.place(), fault.place);
        same_ending(rt, row, reader.ending(), None);
    }
}

/// Checks that a reader of `bytes` returns these items, each of which ends at its offset, and that
/// the medium then ends.
pub(super) fn reads(
    rt: &impl Abort,
    alloc: Global,
    mut bytes: &[u8],
    rows: &[(Item<'_>, u64)],
    ending: Ending,
    end: u64,
) -> Result<(), Fail> {
    let mut reader = ImageReader::new(alloc, &mut bytes)?;
    for (row, (item, place)) in rows.iter().enumerate() {
        gives(rt, row, &mut reader, *item, *place);
    }
    ends(rt, rows.len(), &mut reader, ending, end);
    Ok(())
}

/// Checks that a reader of the device returns `count` items, and then fails in every call.
pub(super) fn fails_behind<R: Read>(
    rt: &impl Abort,
    alloc: Global,
    row: usize,
    device: &mut R,
    items: usize,
    fault: ImageFault,
) -> Result<(), Fail> {
    let mut reader = ImageReader::new(alloc, device)?;
    passes(rt, row, &mut reader, items);
    fails(rt, row, &mut reader, fault);
    Ok(())
}
