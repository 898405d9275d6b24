//! Tests of sets that are not written because of their inputs, and of readers and writers that
//! fail.

use crate::devices::{Dribble, Endless, Narrow, Narrows};
use crate::inputs::{COUNTED, one_file, payroll, plan};
use crate::memory_images::MemoryImages;
use crate::sets::{FIXED, head};
use std::alloc::Global;
use std::io::Read;
use std::test::Fail;
use tape_blocks::{Form, Shape};
use tape_image::ImageWriter;
use tape_label::{Field, Format, Head1};
use tape_writer::{ImageStore, Input, SetFault, WriteFault, write_set};

/// A shape with blocks that are too short.
const THIN: Shape = Shape {
    format: Format::Fixed,
    block_len: 17,
    rec_len: 17,
    offset: 0,
    pad_full: false,
};

/// The number of bytes of the example records of 80 bytes, a shape and a form, the number of
/// volumes, their capacity, and the fault. The last piece of 1,999 bytes is too short.
const REFUSED: [(usize, Shape, Form, usize, u32, WriteFault); 9] = [
    (2_000, COUNTED, Form::Raw, 1, 100_000, WriteFault::BadShape),
    (2_000, COUNTED, Form::Raw, 0, 0, WriteFault::BadShape),
    (2_000, THIN, Form::Raw, 1, 100_000, WriteFault::BadShape),
    (
        2_000,
        FIXED,
        Form::Raw,
        1,
        1_823,
        WriteFault::CapacityTooSmall,
    ),
    (
        2_000,
        FIXED,
        Form::Raw,
        0,
        100_000,
        WriteFault::OutOfVolumes,
    ),
    (
        2_000,
        FIXED,
        Form::Lines,
        1,
        100_000,
        WriteFault::RecordLength,
    ),
    (2_000, FIXED, Form::Raw, 1, 2_000, WriteFault::OutOfVolumes),
    (2_000, FIXED, Form::Raw, 1, 2_500, WriteFault::OutOfVolumes),
    (
        1_999,
        FIXED,
        Form::Raw,
        1,
        100_000,
        WriteFault::RecordLength,
    ),
];

/// Returns the fault of writing the first `length` bytes of the example records.
fn fault_of(
    alloc: Global,
    length: usize,
    shape: Shape,
    form: Form,
    count: usize,
    capacity: u32,
) -> Result<Option<SetFault>, Fail> {
    let mut records = payroll(alloc, b"")?;
    records.truncate(length);
    let plan = plan(alloc, count, capacity, shape, form)?;
    Ok(one_file(alloc, plan, records.as_slice())?.err())
}

#[test]
fn refusals(rt: HostRuntime) -> Result<(), Fail> {
    for (row, (length, shape, form, count, capacity, fault)) in REFUSED.into_iter().enumerate() {
        let answer = fault_of(rt.alloc(), length, shape, form, count, capacity)?;
        assert!(rt;
            answer == Some(SetFault::Write(fault)),
            "row {row}: {fault:?}"
        );
    }
    Ok(())
}

/// The result of writing a set: the number of files written or, on error, the fault, whether the
/// current image is returned, and the number of images left.
type Became = Result<usize, (SetFault, bool, usize)>;

/// Returns the result of writing the files on one volume.
fn told<R: Read, S: ImageStore + Drop>(
    alloc: Global,
    shape: Shape,
    form: Form,
    files: &mut [Input<R>],
    images: S,
) -> Result<Became, Fail> {
    let plan = plan(alloc, 1, 100_000, shape, form)?;
    Ok(match write_set(alloc, plan, files, images) {
        Ok(done) => Ok(done.files),
        Err(refused) => Err((
            refused.fault,
            refused.under_way.is_some(),
            refused.images.left(),
        )),
    })
}

#[test]
fn no_files(rt: HostRuntime) -> Result<(), Fail> {
    let mut files: [Input<&[u8]>; 0] = [];
    let images = MemoryImages::new(rt.alloc(), 1)?;
    let told = told(rt.alloc(), FIXED, Form::Raw, &mut files, images)?;
    assert!(rt; told == Err((SetFault::Write(WriteFault::NoFile), false, 1)));
    Ok(())
}

/// If the head of the second of two files cannot be labelled, nothing is written, not even the
/// first file.
#[test]
fn a_head_that_cannot_be_labelled(rt: HostRuntime) -> Result<(), Fail> {
    let bad = Head1 {
        file_id: Field::of_bytes(*b"payroll          "),
        ..head()
    };
    let input = |head| Input {
        head,
        reader: b"AB\n".as_slice(),
    };
    let mut files = [input(head()), input(bad)];
    let images = MemoryImages::new(rt.alloc(), 1)?;
    let told = told(rt.alloc(), COUNTED, Form::Lines, &mut files, images)?;
    assert!(rt; told == Err((SetFault::Write(WriteFault::BadField), false, 1)));
    Ok(())
}

/// Returns the result of writing two lines, of which only `left` bytes can be read, one at each
/// call.
fn of_dribble(alloc: Global, left: usize) -> Result<Became, Fail> {
    let mut files = [Input {
        head: head(),
        reader: Dribble {
            bytes: b"AB\nCD\n",
            left,
        },
    }];
    let images = MemoryImages::new(alloc, 1)?;
    told(alloc, COUNTED, Form::Lines, &mut files, images)
}

/// A reader fails at each byte of an input that is read one byte at a time.
#[test]
fn an_input_that_fails(rt: HostRuntime) -> Result<(), Fail> {
    for left in 0..7 {
        let told = of_dribble(rt.alloc(), left)?;
        assert!(rt; told == Err((SetFault::ReadFailed, true, 0)), "{left}");
    }
    Ok(())
}

/// Returns the result of writing an infinite line, and the number of bytes read.
fn of_endless(alloc: Global, shape: Shape) -> Result<(Became, usize), Fail> {
    let mut files = [Input {
        head: head(),
        reader: Endless { given: 0 },
    }];
    let images = MemoryImages::new(alloc, 1)?;
    let told = told(alloc, shape, Form::Lines, &mut files, images)?;
    Ok((told, files[0].reader.given))
}

/// An infinite line is refused immediately, because its first piece is longer than a record.
#[test]
fn a_line_without_end(rt: HostRuntime) -> Result<(), Fail> {
    let refused = Err((SetFault::Write(WriteFault::RecordLength), true, 0));
    for shape in [FIXED, COUNTED] {
        let answer = of_endless(rt.alloc(), shape)?;
        assert!(rt; answer == (refused, 8_192), "{:?}", shape.format);
    }
    Ok(())
}

/// Returns the result of writing one line to a device that accepts `left` bytes: the number of
/// images left and the number of files written or, on error, the fault and the number of bytes that
/// the returned device accepted.
fn on_narrow(
    alloc: Global,
    left: usize,
) -> Result<Result<(usize, usize), (SetFault, Option<usize>)>, Fail> {
    let mut files = [Input {
        head: head(),
        reader: b"AB\n".as_slice(),
    }];
    let plan = plan(alloc, 1, 100_000, COUNTED, Form::Lines)?;
    let images = Narrows {
        alloc,
        room: left,
        count: 1,
    };
    Ok(match write_set(alloc, plan, &mut files, images) {
        Ok(done) => Ok((done.images.left(), done.files)),
        Err(refused) => Err((refused.fault, taken(refused.under_way))),
    })
}

/// Returns the number of bytes that the device of an image accepted.
fn taken(image: Option<ImageWriter<Narrow>>) -> Option<usize> {
    match image {
        Some(image) => Some(image.into_device().taken.len()),
        None => None,
    }
}

/// A device that fails at any byte of an image is returned with the bytes written to it; a device
/// that accepts exactly the image does not fail.
#[test]
fn a_device_that_fails(rt: HostRuntime) -> Result<(), Fail> {
    for left in 0..487 {
        let wanted = match left {
            486 => Ok((0, 1)),
            _ => Err((SetFault::Write(WriteFault::Device), Some(left))),
        };
        assert!(rt; on_narrow(rt.alloc(), left)? == wanted, "{left}");
    }
    Ok(())
}
