//! Tests of reports of `check` that could not be written.
use crate::devices::{FailsOnce, Narrow};
use crate::extract::shelf_of;
use crate::image::payroll;
use std::alloc::{AllocError, Global};
use std::io;
use std::io::{ErrorKind, Write};
use std::process::Abort;
use std::test::Fail;
use tape_run::{EngineFault, Wording, check_to, survey_to};

/// The report on the example image.
const REPORT: &[u8] = b"IMAGE 1 12 MARKED
SECTION ABC001 1 1 ABC001 3 GOOD
ALL SECTIONS FOUND
";

const WRITE_FAILED: Result<bool, EngineFault> = Err(EngineFault::WriteFailed);

/// Returns the result of a check of the example image whose report is written to `writer`.
fn check_worked<W: Write>(
    alloc: Global,
    writer: &mut W,
) -> Result<Result<bool, EngineFault>, AllocError> {
    let image = payroll(alloc)?;
    let mut images = shelf_of(alloc, &mut [Some(image.bytes.as_slice())])?;
    Ok(check_to(alloc, &mut images, writer))
}

/// Fails unless a writer that accepts `left` bytes and then fails has accepted a prefix of the
/// report.
fn stops_at<H: Abort + AllocGlobal>(rt: &H, left: usize) -> Result<(), Fail> {
    let mut narrow = Narrow::failing(rt.alloc(), left, Some(ErrorKind::Other), true);
    let answer = check_worked(rt.alloc(), &mut narrow)?;
    assert!(rt; answer == WRITE_FAILED, "{left}");
    assert!(rt; narrow.taken.len() == left, "{left}");
    assert!(rt; REPORT.starts_with(narrow.taken.as_slice()), "{left}");
    Ok(())
}

/// At whichever byte the writer fails, it has accepted a prefix of the report.
#[test]
fn a_writer_that_fails(rt: HostRuntime) -> Result<(), Fail> {
    for left in 0..REPORT.len() {
        stops_at(&rt, left)?;
    }
    Ok(())
}

/// A failed flush is a failed write. The line about the image has been written by then.
#[test]
fn a_flush_that_fails(rt: HostRuntime) -> Result<(), Fail> {
    for (flushes, wanted, length) in [(true, Ok(true), REPORT.len()), (false, WRITE_FAILED, 18)] {
        let mut narrow = Narrow::new(rt.alloc(), REPORT.len(), flushes);
        let answer = check_worked(rt.alloc(), &mut narrow)?;
        assert!(rt; answer == wanted, "{flushes}");
        assert!(rt; narrow.taken.as_slice() == &REPORT[..length], "{flushes}");
    }
    Ok(())
}

/// A writer that counts the bytes that it accepts, and records the count at each flush.
#[derive(Drop)]
struct Flushed {
    taken: usize,
    at: Vec<usize>,
}

impl Write for Flushed {
    fn write(&mut self, buf: &[u8]) -> io::Result<usize> {
        self.taken = self.taken.saturating_add(buf.len());
        Ok(buf.len())
    }

    fn flush(&mut self) -> io::Result<()> {
        self.at.push(self.taken)?;
        Ok(())
    }
}

/// The line about each image is flushed, and then the rest: 18 and 18 bytes, and 52 for the section
/// and the last line.
#[test]
fn lines_are_passed_on_one_by_one(rt: HostRuntime) -> Result<(), Fail> {
    let image = payroll(rt.alloc())?;
    let bytes = image.bytes.as_slice();
    let mut images = shelf_of(rt.alloc(), &mut [Some(bytes), Some(bytes)])?;
    let mut report = Flushed {
        taken: 0,
        at: Vec::new(rt.alloc()),
    };
    let answer = check_to(rt.alloc(), &mut images, &mut report);
    assert!(rt; answer == Ok(true));
    assert_eq!(rt; report.at.as_slice(), [18, 36, 88].as_slice());
    Ok(())
}

/// A survey flushes its whole text at the end.
#[test]
fn a_survey_is_passed_on_at_the_end(rt: HostRuntime) -> Result<(), Fail> {
    let image = payroll(rt.alloc())?;
    let bytes = image.bytes.as_slice();
    let mut images = shelf_of(rt.alloc(), &mut [Some(bytes), Some(bytes)])?;
    let mut report = Flushed {
        taken: 0,
        at: Vec::new(rt.alloc()),
    };
    let names = ["a.tap", "b.tap"];
    survey_to(rt.alloc(), &mut images, &names, Wording::Words, &mut report)?;
    assert!(rt; report.taken > 128);
    assert_eq!(rt; report.at.as_slice(), [report.taken].as_slice());
    Ok(())
}

/// A failed write is not repeated, nor is an interrupted one.
#[test]
fn no_second_try(rt: HostRuntime) -> Result<(), Fail> {
    for good in 0..3usize {
        let mut writer = FailsOnce::new(rt.alloc(), good, Some(ErrorKind::Interrupted));
        let answer = check_worked(rt.alloc(), &mut writer)?;
        assert!(rt; answer == WRITE_FAILED, "{good}");
        assert!(rt; writer.calls == good.saturating_add(1), "{good}");
    }
    Ok(())
}
