//! Tests of listings of images that cannot be read to the end, and of devices that fail.
use crate::devices::{Dribble, FailsOnce, Narrow};
use crate::image::{Image, payroll};
use crate::listing::WORKED;
use crate::volumes::cut;
use std::alloc::{AllocError, Global};
use std::io::{ErrorKind, Read};
use std::process::Abort;
use std::test::Fail;
use tape_image::{ImageCause, ImageFault};
use tape_run::{ListFault, list_to};

const NOT_WRITTEN: Result<(), ListFault> = Err(ListFault::WriteFailed);

fn fault_at(place: u64, cause: ImageCause) -> ListFault {
    ListFault::Image(ImageFault { place, cause })
}

/// Fails unless listing the reader ends with `fault`, after the first `lines` lines of the example
/// listing.
fn check<H: Abort + AllocGlobal, R: Read>(
    rt: &H,
    reader: &mut R,
    fault: ListFault,
    lines: usize,
    case: usize,
) {
    let mut out = Vec::new(rt.alloc());
    let answer = list_to(rt.alloc(), reader, &mut out);
    let told = out.as_slice() == first_lines(lines);
    assert!(rt; told && answer == Err(fault), "{case}: {answer:?}");
}

/// Returns the first `count` lines of the example listing.
fn first_lines(count: usize) -> &'static [u8] {
    let mut left = count;
    let mut length = 0;
    for (place, byte) in WORKED.as_bytes().iter().enumerate() {
        if left > 0 && *byte == b'\n' {
            left -= 1;
            length = place.saturating_add(1);
        }
    }
    WORKED.as_bytes().get(..length).unwrap_or(&[])
}

/// Returns the example image with `bytes` at offset `place`.
fn worked_with(alloc: Global, place: usize, bytes: &[u8]) -> Result<Image, AllocError> {
    let mut image = payroll(alloc)?;
    for (slot, byte) in image.bytes.iter_mut().skip(place).zip(bytes) {
        *slot = *byte;
    }
    Ok(image)
}

#[test]
fn cut_images(rt: HostRuntime) -> Result<(), Fail> {
    for count in [2288, 1885] {
        let image = cut(rt.alloc(), count)?;
        let fault = fault_at(1884, ImageCause::Truncated);
        check(&rt, &mut image.bytes.as_slice(), fault, 6, count);
    }
    Ok(())
}

/// Offsets, the bytes to write there, and the resulting fault. The first data block follows three
/// labels and a mark.
const DAMAGED: &[(usize, &[u8], ImageCause)] = &[
    (1072, &[0x21], ImageCause::LengthsDiffer),
    (
        268,
        &[0xFF, 0xFF, 0xFE, 0xFF],
        ImageCause::Reserved(0xFFFE_FFFF),
    ),
    (
        268,
        &[0x01, 0x00, 0x00, 0x10],
        ImageCause::Reserved(0x1000_0001),
    ),
];

#[test]
fn damaged_words(rt: HostRuntime) -> Result<(), Fail> {
    for (row, (place, bytes, cause)) in DAMAGED.iter().enumerate() {
        let image = worked_with(rt.alloc(), *place, bytes)?;
        let fault = fault_at(268, *cause);
        check(&rt, &mut image.bytes.as_slice(), fault, 4, row);
    }
    Ok(())
}

/// The offsets at which the items of the example image begin, and at which it ends.
const STARTS: [usize; 14] = [
    0, 88, 176, 264, 268, 1076, 1884, 2292, 2296, 2384, 2472, 2476, 2480, 2484,
];

/// Returns the offset of the current item after `given` bytes, and the number of items before it.
fn under_way(given: usize) -> (u64, usize) {
    let mut found = (0, 0);
    for (items, start) in STARTS.iter().enumerate() {
        if *start <= given {
            found = (*start as u64, items);
        }
    }
    found
}

/// Fails unless the listing of a reader that returns `given` bytes of the image and then fails is
/// correct.
fn fails_after<H: Abort + AllocGlobal>(rt: &H, image: &Image, given: usize, kind: ErrorKind) {
    let mut reader = Dribble {
        bytes: image.bytes.as_slice(),
        left: given,
        kind,
    };
    let (place, items) = under_way(given);
    let fault = fault_at(place, ImageCause::Device);
    check(rt, &mut reader, fault, items, given);
}

#[test]
fn a_reader_fails(rt: HostRuntime) -> Result<(), Fail> {
    let image = payroll(rt.alloc())?;
    for given in 0..2484usize {
        let kind = match given % 2 {
            0 => ErrorKind::Other,
            _ => ErrorKind::Interrupted,
        };
        fails_after(&rt, &image, given, kind);
    }
    Ok(())
}

/// Fails unless a writer that accepts `left` bytes and then fails has accepted a prefix of the
/// listing.
fn stops_at<H: Abort + AllocGlobal>(rt: &H, image: &Image, left: usize, kind: Option<ErrorKind>) {
    let mut out = Narrow::failing(rt.alloc(), left, kind, true);
    let answer = list_to(rt.alloc(), &mut image.bytes.as_slice(), &mut out);
    let told = WORKED.as_bytes().starts_with(out.taken.as_slice());
    assert!(rt;
        told && out.taken.len() == left && answer == NOT_WRITTEN,
        "at {left}: {answer:?}"
    );
}

#[test]
fn a_writer_fails(rt: HostRuntime) -> Result<(), Fail> {
    let image = payroll(rt.alloc())?;
    for left in 0..WORKED.len() {
        stops_at(&rt, &image, left, None);
        stops_at(&rt, &image, left, Some(ErrorKind::Interrupted));
        stops_at(&rt, &image, left, Some(ErrorKind::BrokenPipe));
    }
    Ok(())
}

/// Fails unless a listing whose writer fails at line `good` consists of the lines before it, and
/// does not call the writer again.
fn fails_once<H: Abort + AllocGlobal>(rt: &H, image: &Image, good: usize, kind: Option<ErrorKind>) {
    let mut out = FailsOnce::new(rt.alloc(), good, kind);
    let answer = list_to(rt.alloc(), &mut image.bytes.as_slice(), &mut out);
    let told = out.taken.as_slice() == first_lines(good) && out.calls == good.saturating_add(1);
    assert!(rt; told && answer == NOT_WRITTEN, "line {good}: {answer:?}");
}

/// A failed write is not repeated, and nothing is written after it.
#[test]
fn a_writer_fails_once(rt: HostRuntime) -> Result<(), Fail> {
    let image = payroll(rt.alloc())?;
    for good in 0..13 {
        fails_once(&rt, &image, good, None);
        fails_once(&rt, &image, good, Some(ErrorKind::Interrupted));
        fails_once(&rt, &image, good, Some(ErrorKind::Other));
    }
    Ok(())
}

/// If a write failed, nothing was read after the item on the line being written.
#[test]
fn what_was_read_when_a_write_failed(rt: HostRuntime) -> Result<(), Fail> {
    let worked = payroll(rt.alloc())?;
    for (good, end) in STARTS.iter().skip(1).enumerate() {
        let mut out = FailsOnce::new(rt.alloc(), good, None);
        let mut image = worked.bytes.as_slice();
        let answer = list_to(rt.alloc(), &mut image, &mut out);
        let read = image.len().saturating_add(*end) == 2484;
        assert!(rt; read && answer == NOT_WRITTEN, "line {good}: {answer:?}");
    }
    Ok(())
}

const CUT_OFF: Result<(), ListFault> = Err(ListFault::Image(ImageFault {
    place: 1884,
    cause: ImageCause::Truncated,
}));

/// The number of bytes of the example image, the number of their lines, whether the writer can be
/// flushed, and the result, which is either that of the image or a failed flush.
const FLUSHES: &[(usize, usize, bool, Result<(), ListFault>)] = &[
    (2484, 13, true, Ok(())),
    (2484, 13, false, NOT_WRITTEN),
    (1885, 6, true, CUT_OFF),
    (1885, 6, false, NOT_WRITTEN),
];

/// If the last flush fails, at the end of the medium or at a fault of the image, that is reported
/// instead of the fault.
#[test]
fn the_last_flush(rt: HostRuntime) -> Result<(), Fail> {
    for (count, lines, flushes, wanted) in FLUSHES {
        let image = cut(rt.alloc(), *count)?;
        let mut out = Narrow::new(rt.alloc(), WORKED.len(), *flushes);
        let answer = list_to(rt.alloc(), &mut image.bytes.as_slice(), &mut out);
        let told = out.taken.as_slice() == first_lines(*lines);
        assert!(rt; told && answer == *wanted, "{count} {flushes}: {answer:?}");
    }
    Ok(())
}

/// The offset of a fault is that after the gaps before it.
#[test]
fn a_fault_behind_gaps(rt: HostRuntime) -> Result<(), Fail> {
    let mut image = Image::with_gaps(rt.alloc());
    image.mark()?;
    image.word([1, 0, 0, 0])?;
    let mut out = Vec::new(rt.alloc());
    let answer = list_to(rt.alloc(), &mut image.bytes.as_slice(), &mut out);
    let told = out.as_slice() == b"000001 MARK\n".as_slice();
    assert!(rt; told && answer == Err(fault_at(12, ImageCause::Truncated)));
    Ok(())
}
