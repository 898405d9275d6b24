//! Tests of sets written from inputs, compared with images written out from their formats.

use crate::memory_images::MemoryImages;
use crate::sets::{FIXED, head, volumes};
use crate::volumes::{first_of_two, one_volume, second_of_two};
use std::alloc::{AllocError, Global};
use std::test::Fail;
use tape_blocks::{Form, Shape};
use tape_label::{Field, Format};
use tape_writer::{Input, SetFault, SetPlan, write_set};

/// A shape with records of at most 14 bytes, in blocks of 18 bytes.
pub(crate) const COUNTED: Shape = Shape {
    format: Format::Counted,
    block_len: 18,
    rec_len: 18,
    offset: 0,
    pad_full: false,
};

/// A shape with records of any length, in blocks of 18 bytes.
const SPANNED: Shape = Shape {
    format: Format::Spanned,
    block_len: 18,
    rec_len: 0,
    offset: 0,
    pad_full: false,
};

/// Returns a plan with the first `count` volumes of the set, and one shape and form for all files.
pub(crate) fn plan(
    alloc: Global,
    count: usize,
    capacity: u32,
    shape: Shape,
    form: Form,
) -> Result<SetPlan, AllocError> {
    Ok(SetPlan {
        set_id: Field::of_bytes(*b"ABC001"),
        volumes: volumes(alloc, count)?,
        capacity,
        shape,
        form,
    })
}

/// Returns the 25 records of the example file, each followed by `behind`. Record i consists of i in
/// four digits and 76 spaces.
pub(crate) fn payroll(alloc: Global, behind: &[u8]) -> Result<Vec<u8>, AllocError> {
    let mut bytes = Vec::new(alloc);
    for number in 1..26u8 {
        bytes.extend_from_slice(&record(number))?;
        bytes.extend_from_slice(behind)?;
    }
    Ok(bytes)
}

/// Returns record `number` of the example file.
fn record(number: u8) -> [u8; 80] {
    let mut record = [b' '; 80];
    record[..2].fill(b'0');
    record[2] = b'0' + number / 10 % 10;
    record[3] = b'0' + number % 10;
    record
}

/// Returns the images of a set of one file, or the fault.
pub(crate) fn one_file(
    alloc: Global,
    plan: SetPlan,
    input: &[u8],
) -> Result<Result<Vec<Vec<u8>>, SetFault>, AllocError> {
    let images = MemoryImages::new(alloc, plan.volumes.len())?;
    let mut files = [Input {
        head: head(),
        reader: input,
    }];
    match write_set(alloc, plan, &mut files, images) {
        Ok(done) => Ok(Ok(done.images.into_images())),
        Err(refused) => Ok(Err(refused.fault)),
    }
}

/// Returns the images of a set of one file, whose writing must succeed.
fn written(alloc: Global, plan: SetPlan, input: &[u8]) -> Result<Vec<Vec<u8>>, Fail> {
    match one_file(alloc, plan, input)? {
        Ok(images) => Ok(images),
        Err(_) => Err(Fail::from("a set that should be written")),
    }
}

/// Returns the image at index `place`, or an empty image.
fn at<'a>(images: &'a [Vec<u8>], place: usize) -> &'a [u8] {
    match images.get(place) {
        Some(image) => image.as_slice(),
        None => &[],
    }
}

/// Returns true if the images are `first` and `second`, or only `first` if `second` is empty.
fn are(images: &[Vec<u8>], first: &[u8], second: &[u8]) -> bool {
    let count = if second.is_empty() { 1 } else { 2 };
    images.len() == count && at(images, 0) == first && at(images, 1) == second
}

/// Returns true if the first `length` bytes of the records, each followed by `behind`, are written
/// as the example image.
fn is_worked(alloc: Global, form: Form, behind: &[u8], length: usize) -> Result<bool, Fail> {
    let mut input = payroll(alloc, behind)?;
    input.truncate(length);
    let images = written(
        alloc,
        plan(alloc, 2, 100_000, FIXED, form)?,
        input.as_slice(),
    )?;
    let wanted = one_volume(alloc, payroll(alloc, b"")?.as_slice())?;
    Ok(are(images.as_slice(), wanted.as_slice(), &[]))
}

/// Forms of the input: lines with and without a last line feed, and raw bytes.
const INPUTS: &[(Form, &[u8], usize)] = &[
    (Form::Lines, b"\n", 2025),
    (Form::Lines, b"\n", 2024),
    (Form::Raw, b"", 2000),
];

#[test]
fn the_worked_volume(rt: HostRuntime) -> Result<(), Fail> {
    for (form, behind, length) in INPUTS {
        assert!(rt;
            is_worked(rt.alloc(), *form, behind, *length)?,
            "{length} bytes"
        );
    }
    Ok(())
}

/// Returns true if three volumes of 2,500 bytes contain the raw records as expected: the third
/// block fits on the first volume but the end-of-file labels do not, so section 2 is empty.
fn are_small(alloc: Global) -> Result<bool, Fail> {
    let records = payroll(alloc, b"")?;
    let plan = plan(alloc, 3, 2_500, FIXED, Form::Raw)?;
    let images = written(alloc, plan, records.as_slice())?;
    let first = first_of_two(alloc, records.as_slice())?;
    let second = second_of_two(alloc)?;
    Ok(are(images.as_slice(), first.as_slice(), second.as_slice()))
}

#[test]
fn two_volumes(rt: HostRuntime) -> Result<(), Fail> {
    assert!(rt; are_small(rt.alloc())?);
    Ok(())
}

/// Shapes, forms and capacities, the length of the only record, if there is one, and the sizes of
/// two images.
const SIZES: [(Shape, Form, u32, usize, usize, usize); 6] = [
    (FIXED, Form::Lines, 100_000, 0, 460, 0),
    (FIXED, Form::Raw, 100_000, 0, 460, 0),
    (COUNTED, Form::Lines, 100_000, 0, 460, 0),
    (SPANNED, Form::Raw, 100_000, 0, 486, 0),
    (SPANNED, Form::Raw, 1_042, 290, 1_032, 486),
    (SPANNED, Form::Lines, 1_042, 290, 1_032, 486),
];

/// Returns the sizes of the two images for a record of `length` bytes.
fn sizes_of(
    alloc: Global,
    shape: Shape,
    form: Form,
    capacity: u32,
    length: usize,
) -> Result<(usize, usize), Fail> {
    let input = Vec::from_elem(alloc, b'7', length)?;
    let plan = plan(alloc, 2, capacity, shape, form)?;
    let images = written(alloc, plan, input.as_slice())?;
    Ok((
        at(images.as_slice(), 0).len(),
        at(images.as_slice(), 1).len(),
    ))
}

/// The sizes are as expected without a record, and with a record on two volumes.
#[test]
fn sizes(rt: HostRuntime) -> Result<(), Fail> {
    for (row, (shape, form, capacity, length, first, second)) in SIZES.into_iter().enumerate() {
        let sizes = sizes_of(rt.alloc(), shape, form, capacity, length)?;
        assert!(rt; sizes == (first, second), "row {row}");
    }
    Ok(())
}

/// Lines, and the block of 18 bytes after the headers, in format D.
const LINES: &[(&[u8], &[u8])] = &[
    (b"AB\n\n", b"0006AB0004^^^^^^^^"),
    (b"A\r\n\nB", b"0006A\r00040005B^^^"),
];

/// Returns true if `lines` are written as a volume with the block `block`.
fn have_block(alloc: Global, lines: &[u8], block: &[u8]) -> Result<bool, Fail> {
    let plan = plan(alloc, 1, 100_000, COUNTED, Form::Lines)?;
    let images = written(alloc, plan, lines)?;
    Ok(at(images.as_slice(), 0).get(272..290) == Some(block))
}

/// In format D an empty line is a record, and a carriage return is kept.
#[test]
fn lines_and_what_they_keep(rt: HostRuntime) -> Result<(), Fail> {
    for (lines, block) in LINES {
        assert!(rt; have_block(rt.alloc(), lines, block)?, "{block:?}");
    }
    Ok(())
}
