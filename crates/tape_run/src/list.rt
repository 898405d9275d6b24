//! `list`: a line for each item of an image.

ghost use Rattle.std.specs.Prelude.{◌≡◌, ◌≤◌, true, length, IfErr, IfSome, OnOk, OnErr};
ghost use Rattle.std.specs.Io.KnownBytes.{Appends};
ghost use Rattle.tape_image.specs.{Reader.IfKnown, Reader.going, Reader.tape_item, Tape.IsTapeItem};
ghost use Rattle.tape_image.specs.{Spelling.end_len, Written.AppendsFront};
ghost use Rattle.tape_run.specs.Placed.{item_extent, shown_line, placed_end, PlacesToEnd};
ghost use Rattle.tape_run.specs.{Listing.end_line, Placed.FitsPlaces};
ghost use Rattle.tape_run.specs.Listed.{ListsToEnd, ListsInPart, FitsFault};

use crate::fault::{ListFault, WriteFailed};
use crate::list_line::line_of;
use crate::text::{flush, put, put_decimal, write_text};
use arrayvec::ArrayVec;
use std::alloc::Global;
use std::io::{Read, Write};
use tape_image::{Ending, ImageBuffer, ImageCause, ImageFault, ImageReader, Item};

/// Lists an image: a line for each item, and a last line for the end of the medium.
///
/// Allocates only the image reader's buffer, reads nothing after an end-of-medium marker, and
/// flushes the writer at the end and at a fault of the image. A contract cannot say that of a
/// writer, so tests show it.
///
/// # Errors
///
/// Returns `Image` with the cause and the offset where the image cannot be read on, after
/// everything before it was listed; with `OutOfMemory` at offset 0 if the buffer was refused, and
/// then nothing was read or written. `WriteFailed` if the writer failed, also if the flush at a
/// fault of the image did; then nothing was read after the item whose line is incomplete.
pub fn list_to<R: Read, W: Write>(
    alloc: Global,
    reader: &mut R,
    writer: &mut W,
) -> Result<(), ListFault>
    // On success the medium ended, and the whole listing was written.
    ensures ok { OnOk result (IfKnown (R.remaining reader.old) (R.remaining reader.new)
        (ListsToEnd (W.contents writer.old) (W.contents writer.new))) }
    // A fault of the image is caused by the image, its reader or lack of memory; if a write failed,
    // nothing was read after the item whose line is incomplete,
    ensures fault { IfErr result (FitsFault (R.remaining reader.old) (R.remaining reader.new)
        (W.contents writer.old) (W.contents writer.new)) }
    // and on any error a prefix of the listing was written.
    ensures front { OnErr result (IfSome (R.remaining reader.old)
        (ListsInPart (W.contents writer.old) (W.contents writer.new))) }
{
    let buffer = reserve(alloc)?;
    let mut image = ImageReader::over(buffer, reader);
    let listed = list_items(&mut image, writer, false);
    // The caller gets back the rest of the reader.
    image.into_device();
    listed
}

/// Lists an image, as `list_to` does, with two numbers before each line: the offset at which the
/// item begins, and its size in bytes. The size of a bad block includes the erase gaps before it,
/// since no reader reports the length of one.
///
/// # Errors
///
/// The errors are those of `list_to`, in the same cases.
pub fn list_places_to<R: Read, W: Write>(
    alloc: Global,
    reader: &mut R,
    writer: &mut W,
) -> Result<(), ListFault>
    // Success means the end of the medium, with the lines of all items up to it.
    ensures ok { OnOk result (IfKnown (R.remaining reader.old) (R.remaining reader.new)
        (PlacesToEnd true (W.contents writer.old) (W.contents writer.new))) }
    // A fault of the image is caused by the image, its reader or lack of memory, and the lines of
    // all items before it were written; if a write failed, a prefix of the lines of what was read
    // was written, and nothing was read after the item of that line.
    ensures fault { IfErr result (FitsPlaces true (R.remaining reader.old)
        (R.remaining reader.new) (W.contents writer.old) (W.contents writer.new)) }
{
    let buffer = reserve(alloc)?;
    let mut image = ImageReader::over(buffer, reader);
    let listed = list_items(&mut image, writer, true);
    // The caller gets back the rest of the reader.
    image.into_device();
    listed
}

/// Allocates the image reader's buffer before the reader is lent to it.
fn reserve(alloc: Global) -> Result<ImageBuffer, ImageFault>
    ensures { IfErr result
        (λ fault. (fault.place ≡ 0) × (fault.cause ≡ ImageCause.OutOfMemory)) }
{
    match ImageBuffer::new(alloc) {
        Ok(buffer) => Ok(buffer),
        Err(_) => Err(ImageFault {
            place: 0,
            cause: ImageCause::OutOfMemory,
        }),
    }
}

/// Lists the items of an unread image, with `offsets` after their offsets and sizes.
// Inlined, so that a listing without offsets costs no more instructions than a loop of its own.
#[inline(always)]
fn list_items<R: Read, W: Write>(
    image: &mut ImageReader<'_, R>,
    writer: &mut W,
    offsets: bool,
) -> Result<(), ListFault>
    requires going { image.old.status ≡ going }
    requires first { image.old.place ≡ 0 }
    ensures same_device { image.new.device ≡ image.old.device }
    ensures ok { OnOk result (IfKnown image.old.left image.new.left
        (PlacesToEnd offsets (W.contents writer.old) (W.contents writer.new))) }
    ensures fault { IfErr result (FitsPlaces offsets image.old.left image.new.left
        (W.contents writer.old) (W.contents writer.new)) }
{
    let mut number = 0u64;
    let mut from = 0u64;
    'items: loop {
        match image.next() {
            Ok(Some(item)) => {
                number += 1;
                let line = line_of(number, item);
                let extent = extent_of(item);
                let behind = image.place();
                let size = extent.unwrap_or(behind - from);
                write_shown(writer, offsets, behind, size, &line)?;
                from = behind;
            }
            Ok(None) => {
                let Some(ending) = image.ending() else {
                    unreachable!()
                };
                return Ok(write_end(writer, offsets, image.place(), ending)?);
            }
            Err(fault) => {
                flush(writer)?;
                return Err(ListFault::Image(fault));
            }
        }
    }
}

/// Writes the last line, for a medium that ended after `behind` bytes, and flushes.
fn write_end<W: Write>(
    writer: &mut W,
    offsets: bool,
    behind: u64,
    ending: Ending,
) -> Result<(), WriteFailed>
    requires { end_len ending ≤ behind }
    ensures ok { OnOk result (Appends (W.contents writer.old) (W.contents writer.new)
        (placed_end offsets ending behind)) }
    ensures err { OnErr result (AppendsFront (W.contents writer.old) (W.contents writer.new)
        (placed_end offsets ending behind)) }
{
    let size = match ending {
        Ending::Marked => 4,
        Ending::Physical => 0,
    };
    write_shown(writer, offsets, behind, size, last_line(ending))?;
    flush(writer)
}

/// Writes a line, with `offsets` after the offset and the size of its item, which ends at offset
/// `behind`.
fn write_shown<W: Write>(
    writer: &mut W,
    offsets: bool,
    behind: u64,
    size: u64,
    line: &[u8],
) -> Result<(), WriteFailed>
    requires fits { size ≤ behind }
    requires short { length line.now ≤ 64 }
    ensures ok { OnOk result (Appends (W.contents writer.old) (W.contents writer.new)
        (shown_line offsets behind size line.now)) }
    ensures err { OnErr result (AppendsFront (W.contents writer.old) (W.contents writer.new)
        (shown_line offsets behind size line.now)) }
{
    if !offsets {
        return write_text(writer, line);
    }
    let mut placed = ArrayVec::<u8, 128>::new();
    put_decimal(&mut placed, behind - size);
    put(&mut placed, b" ");
    put_decimal(&mut placed, size);
    put(&mut placed, b" ");
    put(&mut placed, line);
    write_text(writer, &placed)
}

/// Returns how many bytes of the image the item occupies, or `None` for a bad block.
fn extent_of(item: Item<'_>) -> Option<u64>
    requires { IsTapeItem (tape_item item) }
    ensures { result ≡ item_extent (tape_item item.entry) }
{
    match item {
        Item::Block(bytes) => {
            let length = bytes.len() as u64;
            Some(8 + length + length % 2)
        }
        Item::Bad => None,
        Item::Mark => Some(4),
    }
}

/// Returns the line for the end of the medium.
fn last_line(ending: Ending) -> &'static [u8]
    ensures { result.now ≡ end_line ending }
{
    match ending {
        Ending::Marked => b"END MARKED\n",
        Ending::Physical => b"END PHYSICAL\n",
    }
}
