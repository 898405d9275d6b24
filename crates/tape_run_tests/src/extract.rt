//! Tests of files recovered from images: the lines reported, and the bytes written.
use crate::devices::{Dribble, Narrow};
use crate::image::{
    HDR1, HDR2, Image, blank, long_byte, long_first, long_second, payroll, payroll_with, set_id,
};
use crate::sections::of_blocks;
use crate::volumes::{
    EOF_FOUR, EOF_NONE, EOF_ONE, SPANNED, cut, damaged, one_block, records as worked_records,
};
use std::alloc::{AllocError, Global};
use std::io::{ErrorKind, Read, Write};
use std::process::Abort;
use std::test::Fail;
use tape_blocks::Form;
use tape_core::MemorySink;
use tape_run::{EngineFault, Session, extract_to, last_line};
use tape_set::Want;

/// The result of `extract`.
type Answer = Result<Option<Want>, EngineFault>;

/// Returns `images` in a list.
pub fn shelf_of<R: Read + Drop>(
    alloc: Global,
    images: &mut [Option<R>],
) -> Result<Vec<Option<R>>, AllocError> {
    let mut shelf = Vec::new(alloc);
    for image in images {
        shelf.push(image.take())?;
    }
    Ok(shelf)
}

/// Recovers file `file` of set ABC001 from `images`.
fn run<R: Read + Drop, W: Write, P: Write>(
    alloc: Global,
    file: u16,
    form: Form,
    images: &mut [Option<R>],
    out: &mut W,
    report: &mut P,
) -> Result<Answer, Fail> {
    let mut session = Session::new(alloc, set_id(), file, MemorySink::new(alloc))?;
    let mut shelf = shelf_of(alloc, images)?;
    Ok(extract_to(&mut session, &mut shelf, form, out, report))
}

/// Fails unless file 1 is complete, and `images` yield the lines `lines` and the bytes `written`.
fn gives<H: Abort + AllocGlobal, R: Read + Drop>(
    rt: &H,
    form: Form,
    images: &mut [Option<R>],
    lines: &str,
    written: &[u8],
) -> Result<(), Fail> {
    let mut report = Vec::new(rt.alloc());
    let mut out = Vec::new(rt.alloc());
    let answer = run(rt.alloc(), 1, form, images, &mut out, &mut report)?;
    let told = report.as_slice() == lines.as_bytes() && out.as_slice() == written;
    assert!(rt; told && answer == Ok(None), "{lines}");
    Ok(())
}

/// Fails unless `images` yield the lines `lines`, and do not complete the file.
fn wants<H: Abort + AllocGlobal, R: Read + Drop>(
    rt: &H,
    file: u16,
    images: &mut [Option<R>],
    lines: &str,
) -> Result<(), Fail> {
    let mut report = Vec::new(rt.alloc());
    let mut out = Vec::new(rt.alloc());
    let answer = run(rt.alloc(), file, Form::Lines, images, &mut out, &mut report)?;
    let told = report.as_slice() == lines.as_bytes() && out.is_empty();
    assert!(rt; told && matches!(answer, Ok(Some(_))), "{lines}");
    Ok(())
}

/// Fails unless the image, which does not complete file 1, yields the lines `lines`.
fn reports<H: Abort + AllocGlobal>(rt: &H, image: Image, lines: &str) -> Result<(), Fail> {
    wants(rt, 1, &mut [Some(image.bytes.as_slice())], lines)
}

/// Fails unless both images, which do not complete the file, yield the lines `lines`.
fn reports_both<H: Abort + AllocGlobal>(
    rt: &H,
    first: Image,
    second: Image,
    lines: &str,
) -> Result<(), Fail> {
    let (first, second) = (first.bytes.as_slice(), second.bytes.as_slice());
    wants(rt, 1, &mut [Some(first), Some(second)], lines)
}

/// Fails unless `first` and the example image after it complete the example file.
fn completes<H: Abort + AllocGlobal>(rt: &H, first: Image, lines: &str) -> Result<(), Fail> {
    let second = payroll(rt.alloc())?;
    let records = worked_records(rt.alloc(), b"\n")?;
    let images = &mut [Some(first.bytes.as_slice()), Some(second.bytes.as_slice())];
    gives(rt, Form::Lines, images, lines, records.as_slice())
}

#[test]
fn a_whole_file_in_both_forms(rt: HostRuntime) -> Result<(), Fail> {
    let image = payroll(rt.alloc())?;
    let lines = "REEL 1 COMPLETE\nCOMPLETE 25\n";
    for (form, end) in [(Form::Lines, b"\n".as_slice()), (Form::Raw, b"".as_slice())] {
        let records = worked_records(rt.alloc(), end)?;
        let images = &mut [Some(image.bytes.as_slice())];
        gives(&rt, form, images, lines, records.as_slice())?;
    }
    Ok(())
}

#[test]
fn an_empty_file(rt: HostRuntime) -> Result<(), Fail> {
    let image = of_blocks(rt.alloc(), 0, EOF_NONE)?;
    let lines = "REEL 1 COMPLETE\nCOMPLETE 0\n";
    gives(
        &rt,
        Form::Lines,
        &mut [Some(image.bytes.as_slice())],
        lines,
        b"",
    )
}

/// The long record is completed by its first volume between two copies of the second one.
#[test]
fn sections_in_any_order(rt: HostRuntime) -> Result<(), Fail> {
    let first = long_first(rt.alloc())?;
    let second = long_second(rt.alloc())?;
    let mut record = [b'\n'; 291];
    for (place, slot) in record[..290].iter_mut().enumerate() {
        *slot = long_byte(place);
    }
    let (one, two) = (first.bytes.as_slice(), second.bytes.as_slice());
    let images = &mut [Some(two), Some(one), Some(two)];
    let lines = "REEL 1 LATER SECTION\nREEL 2 SECTION DONE\nREEL 3 COMPLETE\nCOMPLETE 1\n";
    gives(&rt, Form::Lines, images, lines, &record)
}

#[test]
fn sections_that_lack_others(rt: HostRuntime) -> Result<(), Fail> {
    let lines = "REEL 1 LATER SECTION\nAWAITS 1 1 0\n";
    reports(&rt, long_second(rt.alloc())?, lines)?;
    let lines = "REEL 1 SECTION DONE\nAWAITS 1 2 0\n";
    reports(&rt, long_first(rt.alloc())?, lines)?;
    let lines = "REEL 1 SECTION DONE\nREEL 2 EARLIER SECTION\nAWAITS 1 2 0\n";
    reports_both(&rt, long_first(rt.alloc())?, long_first(rt.alloc())?, lines)
}

/// The number of bytes of the example image, and the report on them.
const CUTS: &[(usize, &str)] = &[
    (2288, "REEL 1 REEL ENDED IMAGE 1 1884\nAWAITS 1 1 2\n"),
    (1885, "REEL 1 REEL ENDED IMAGE 1 1884\nAWAITS 1 1 2\n"),
    (2292, "REEL 1 REEL ENDED\nAWAITS 1 1 3\n"),
    (0, "REEL 1 REEL ENDED\nAWAITS 1 1 0\n"),
];

#[test]
fn reels_that_are_cut_off(rt: HostRuntime) -> Result<(), Fail> {
    for (length, lines) in CUTS {
        reports(&rt, cut(rt.alloc(), *length)?, lines)?;
    }
    let lines = "REEL 1 REEL ENDED\nREEL 2 COMPLETE\nCOMPLETE 25\n";
    completes(&rt, cut(rt.alloc(), 2292)?, lines)
}

/// Volumes of one block: their labels, the block, and the report on them.
const GIVE_NOTHING: &[(&str, &str, &[u8], &str)] = &[
    (
        "HDR1PAYROLL          XYZ00100010001000100 00000 00000 000000",
        HDR2,
        &[b'A'; 80],
        "REEL 1 OTHER SET\nAWAITS 1 1 0\n",
    ),
    (
        HDR1,
        HDR2,
        &[b'X'; 81],
        "REEL 1 BAD BLOCK 2 80\nAWAITS 1 1 0\n",
    ),
    (
        HDR1,
        SPANNED,
        b"10018RRRRRRRRRRRRR",
        "REEL 1 SPAN LEFT\nAWAITS 1 1 1\n",
    ),
    (
        HDR1,
        SPANNED,
        b"20018RRRRRRRRRRRRR",
        "REEL 1 BAD BLOCK 6 0\nAWAITS 1 1 0\n",
    ),
    (
        HDR1,
        HDR1,
        &[b'A'; 80],
        "REEL 1 BAD LABEL 2\nAWAITS 1 1 0\n",
    ),
];

#[test]
fn reels_that_give_nothing(rt: HostRuntime) -> Result<(), Fail> {
    let lines = "REEL 1 NOT LABELLED\nAWAITS 1 1 0\n";
    reports(&rt, blank(rt.alloc())?, lines)?;
    for (head, format, block, lines) in GIVE_NOTHING {
        let image = one_block(rt.alloc(), head, format, block, EOF_ONE)?;
        reports(&rt, image, lines)?;
    }
    Ok(())
}

#[test]
fn another_file_of_the_set(rt: HostRuntime) -> Result<(), Fail> {
    let image = payroll(rt.alloc())?;
    let lines = "REEL 1 NOT ON REEL\nAWAITS 2 1 0\n";
    wants(&rt, 2, &mut [Some(image.bytes.as_slice())], lines)
}

#[test]
fn damaged_copies(rt: HostRuntime) -> Result<(), Fail> {
    let lines = "REEL 1 BAD ITEM\nAWAITS 1 1 1\n";
    reports(&rt, damaged(rt.alloc())?, lines)?;
    let lines = "REEL 1 BAD ITEM\nREEL 2 COMPLETE\nCOMPLETE 25\n";
    completes(&rt, damaged(rt.alloc())?, lines)?;
    let lines = "REEL 1 BLOCK COUNT 4 3\nREEL 2 BROKEN\nAWAITS 1 1 3\n";
    reports_both(
        &rt,
        payroll_with(rt.alloc(), &[EOF_FOUR])?,
        payroll(rt.alloc())?,
        lines,
    )
}

/// A section that differs from the section that was begun yields nothing.
#[test]
fn a_section_that_differs(rt: HostRuntime) -> Result<(), Fail> {
    let cut = cut(rt.alloc(), 1884)?;
    let head = "HDR1PAYMENTS         ABC00100010001000100 00000 00000 000000";
    let other = one_block(rt.alloc(), head, HDR2, &[b'A'; 80], EOF_ONE)?;
    let lines = "REEL 1 REEL ENDED\nREEL 2 SECTION DIFFERS\nAWAITS 1 1 2\n";
    reports_both(&rt, cut, other, lines)
}

/// An image that was not opened keeps its number, and no image is read after the one that completes
/// the file.
#[test]
fn images_that_are_not_read(rt: HostRuntime) -> Result<(), Fail> {
    let image = payroll(rt.alloc())?;
    let records = worked_records(rt.alloc(), b"\n")?;
    let bytes = image.bytes.as_slice();
    let images = &mut [None, Some(bytes), Some(bytes), None];
    let lines = "REEL 1 NOT OPENED\nREEL 2 COMPLETE\nCOMPLETE 25\n";
    gives(&rt, Form::Lines, images, lines, records.as_slice())
}

/// A reader that fails is reported on its line, with the offset of the item that was being read.
#[test]
fn a_reader_that_fails(rt: HostRuntime) -> Result<(), Fail> {
    let image = payroll(rt.alloc())?;
    let dribble = Dribble {
        bytes: image.bytes.as_slice(),
        left: 300,
        kind: ErrorKind::Interrupted,
    };
    let lines = "REEL 1 REEL ENDED IMAGE 5 268\nAWAITS 1 1 0\n";
    wants(&rt, 1, &mut [Some(dribble)], lines)
}

/// Returns the result of `extract` for the example file with the writers `out` and `report`.
fn extract_worked(alloc: Global, out: &mut Narrow, report: &mut Narrow) -> Result<Answer, Fail> {
    let image = payroll(alloc)?;
    let images = &mut [Some(image.bytes.as_slice())];
    run(alloc, 1, Form::Lines, images, out, report)
}

/// The report if nothing fails.
const SAID: &[u8] = b"REEL 1 COMPLETE\nCOMPLETE 25\n";

/// Two writers, of the file and of the report, each with the number of bytes that it accepts and
/// whether it can be flushed; then the numbers of bytes written to the report and to the file.
const NARROW: &[(usize, bool, usize, bool, usize, usize)] = &[
    (100, true, 100, true, 16, 100),
    (2025, false, 100, true, 16, 2025),
    (2025, true, 10, true, 10, 0),
    (2025, true, 20, true, 20, 2025),
    (2025, true, 100, false, 28, 2025),
];

/// If a writer fails, the fault and the bytes written are as expected.
#[test]
fn writers_that_fail(rt: HostRuntime) -> Result<(), Fail> {
    for (row, (out_left, out_flushes, left, flushes, told, written)) in NARROW.iter().enumerate() {
        let mut out = Narrow::new(rt.alloc(), *out_left, *out_flushes);
        let mut report = Narrow::new(rt.alloc(), *left, *flushes);
        let answer = extract_worked(rt.alloc(), &mut out, &mut report)?;
        let stands = SAID.starts_with(report.taken.as_slice())
            && (report.taken.len(), out.taken.len()) == (*told, *written);
        assert!(rt;
            stands && answer == Err(EngineFault::WriteFailed),
            "row {row}"
        );
    }
    Ok(())
}

/// Returns the last block of the last file, from part `part`.
fn last_block(part: u32) -> Want {
    Want {
        file: 9999,
        sect: 1,
        block: 4_294_967_295,
        part,
    }
}

#[test]
fn last_lines(rt: HostRuntime) {
    for (want, line) in [
        (Some(last_block(0)), "AWAITS 9999 1 4294967295\n"),
        (Some(last_block(7)), "AWAITS 9999 1 4294967295 7\n"),
        (None, "COMPLETE 3\n"),
    ] {
        assert_eq!(rt; last_line(want, 3).as_str(), line);
    }
}
