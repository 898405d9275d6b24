//! Tests of images that have ended when the next volume begins.

use crate::inputs::{payroll, plan};
use crate::sets::{FIXED, head};
use crate::volumes::{first_of_two, second_of_two};
use std::alloc::{AllocError, Global};
use std::io::{Error, ErrorKind, Result as IoResult, Write};
use std::test::Fail;
use tape_blocks::Form;
use tape_image::ImageWriter;
use tape_label::Vol1;
use tape_writer::{ImageStore, Input, RefusedSet, SetFault, WriteFault, WrittenSet, write_set};

/// A device that keeps the bytes that it accepts, and their number at the last flush. A limited
/// number of flushes succeed.
#[derive(Drop)]
struct Flushed {
    bytes: Vec<u8>,
    flushed: Option<usize>,
    left: usize,
}

impl Flushed {
    /// Returns true if the device has exactly `bytes`, all of them accepted before its last flush,
    /// and no further flush is allowed.
    fn is_whole(&self, bytes: &[u8]) -> bool {
        self.bytes.as_slice() == bytes && self.flushed == Some(bytes.len()) && self.left == 0
    }
}

impl Write for Flushed {
    fn write(&mut self, buf: &[u8]) -> IoResult<usize> {
        self.bytes.extend_from_slice(buf)?;
        Ok(buf.len())
    }

    fn flush(&mut self) -> IoResult<()> {
        if self.left == 0 {
            return Err(Error::from(ErrorKind::Other));
        }
        self.left -= 1;
        self.flushed = Some(self.bytes.len());
        Ok(())
    }
}

/// A store with two devices. Records how many devices it lent, and how many images it had received
/// when it lent the last device. Each device can be flushed a limited number of times.
#[derive(Drop)]
struct Noting {
    alloc: Global,
    lent: usize,
    before: usize,
    images: Vec<Flushed>,
    flushes: usize,
}

impl ImageStore for Noting {
    type Device = Flushed;

    ghost holds = { λ store lent images. ⊥ };

    ghost left = { λ store. 2 };

    ghost asked = { λ _ _. Unit {0} };

    fn left(&self) -> usize {
        2
    }

    fn next(&mut self, _volume: &Vol1) -> Option<Flushed> {
        self.lent = self.lent.saturating_add(1);
        self.before = self.images.len();
        Some(Flushed {
            bytes: Vec::new(self.alloc),
            flushed: None,
            left: self.flushes,
        })
    }

    fn keep(&mut self, device: Flushed) {
        let _ = self.images.push(device);
    }
}

/// Returns the result of writing the example file to a `Noting`.
fn written(
    alloc: Global,
    records: &[u8],
    flushes: usize,
) -> Result<Result<WrittenSet<Noting>, RefusedSet<Noting>>, Fail> {
    let mut files = [Input {
        head: head(),
        reader: records,
    }];
    let plan = plan(alloc, 2, 2_500, FIXED, Form::Raw)?;
    let images = Noting {
        alloc,
        lent: 0,
        before: 0,
        images: Vec::new(alloc),
        flushes,
    };
    Ok(write_set(alloc, plan, &mut files, images))
}

/// Returns true if the store received both images, each complete and flushed, the first before the
/// second began.
fn are_handed_on(alloc: Global, records: &[u8], images: &Noting) -> Result<bool, AllocError> {
    let first = first_of_two(alloc, records)?;
    let second = second_of_two(alloc)?;
    Ok(match images.images.as_slice() {
        [one, two] => {
            (images.lent, images.before) == (2, 1)
                && one.is_whole(first.as_slice())
                && two.is_whole(second.as_slice())
        }
        _ => false,
    })
}

/// When the second volume begins, the store has received the image of the first one, complete and
/// flushed.
#[test]
fn the_first_image_is_handed_on_before_the_second_begins(rt: HostRuntime) -> Result<(), Fail> {
    let records = payroll(rt.alloc(), b"")?;
    let told = match written(rt.alloc(), records.as_slice(), 1)? {
        Ok(done) => are_handed_on(rt.alloc(), records.as_slice(), &done.images)?,
        Err(_) => false,
    };
    assert!(rt; told);
    Ok(())
}

/// Returns true if the set was refused by the first device, which contains its whole image.
fn is_refused(
    alloc: Global,
    records: &[u8],
    refused: RefusedSet<Noting>,
) -> Result<bool, AllocError> {
    let first = first_of_two(alloc, records)?;
    let images = &refused.images;
    let facts = (refused.fault, images.lent, images.images.len());
    let is_first = has_bytes(refused.under_way, first.as_slice());
    Ok(is_first && facts == (SetFault::Write(WriteFault::Device), 1, 0))
}

/// Returns true if there is an image, and its device has the bytes `bytes`.
fn has_bytes(image: Option<ImageWriter<Flushed>>, bytes: &[u8]) -> bool {
    match image {
        Some(image) => image.into_device().bytes.as_slice() == bytes,
        None => false,
    }
}

/// If a device cannot be flushed, no further volume begins.
#[test]
fn an_image_that_is_not_flushed(rt: HostRuntime) -> Result<(), Fail> {
    let records = payroll(rt.alloc(), b"")?;
    let told = match written(rt.alloc(), records.as_slice(), 0)? {
        Ok(_) => false,
        Err(refused) => is_refused(rt.alloc(), records.as_slice(), refused)?,
    };
    assert!(rt; told);
    Ok(())
}
