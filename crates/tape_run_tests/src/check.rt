//! Tests of reports on reels.
use crate::devices::{Dribble, Tail};
use crate::extract::shelf_of;
use crate::image::{EOF_FIVE, EOF_THREE, HDR1, Image, blank, five_blocks, front, payroll};
use crate::sections::{first_of_two, of_blocks, one_section, second_of_two};
use crate::volumes::{EOF_FOUR, all_sections, cut, unprinted, with_items_behind};
use std::alloc::{AllocError, Global};
use std::io::{ErrorKind, Read};
use std::process::Abort;
use std::test::Fail;
use tape_run::check_to;

/// Fails unless the report on `images` consists of `lines` and has the result `found`.
fn check<H: Abort + AllocGlobal, R: Read + Drop>(
    rt: &H,
    images: &mut [Option<R>],
    found: bool,
    lines: &str,
) -> Result<(), Fail> {
    let mut report = Vec::new(rt.alloc());
    let mut shelf = shelf_of(rt.alloc(), images)?;
    let answer = check_to(rt.alloc(), &mut shelf, &mut report)?;
    assert_eq!(rt; report.as_slice(), lines.as_bytes(), "{lines}");
    assert!(rt; answer == found, "{lines}");
    Ok(())
}

/// Checks the report on one image.
fn check_one<H: Abort + AllocGlobal>(
    rt: &H,
    image: Image,
    found: bool,
    lines: &str,
) -> Result<(), Fail> {
    check(rt, &mut [Some(image.bytes.as_slice())], found, lines)
}

/// Checks the report on two images.
fn check_two<H: Abort + AllocGlobal>(
    rt: &H,
    first: Image,
    second: Image,
    found: bool,
    lines: &str,
) -> Result<(), Fail> {
    let (first, second) = (first.bytes.as_slice(), second.bytes.as_slice());
    check(rt, &mut [Some(first), Some(second)], found, lines)
}

/// Returns three images that can be opened.
fn three<'a>(first: &'a [u8], second: &'a [u8], third: &'a [u8]) -> [Option<&'a [u8]>; 3] {
    [Some(first), Some(second), Some(third)]
}

/// Fails unless the image has length `length`.
fn is_long<A: Abort>(rt: &A, image: &Image, length: usize) {
    assert_eq!(rt; image.bytes.len(), length);
}

#[test]
fn two_volumes_are_found(rt: HostRuntime) -> Result<(), Fail> {
    let first = first_of_two(rt.alloc())?;
    let second = second_of_two(rt.alloc())?;
    is_long(&rt, &first, 2484);
    is_long(&rt, &second, 460);
    let lines = "IMAGE 1 12 MARKED
IMAGE 2 9 MARKED
SECTION ABC001 1 1 ABC001 3 GOOD
SECTION ABC001 1 2 ABC002 0 GOOD
ALL SECTIONS FOUND
";
    check_two(&rt, first, second, true, lines)
}

#[test]
fn any_order_with_repeats(rt: HostRuntime) -> Result<(), Fail> {
    let first = first_of_two(rt.alloc())?;
    let second = second_of_two(rt.alloc())?;
    let (one, two) = (first.bytes.as_slice(), second.bytes.as_slice());
    let lines = "IMAGE 1 9 MARKED
IMAGE 2 12 MARKED
IMAGE 3 9 MARKED
SECTION ABC001 1 2 ABC002 0 GOOD
SECTION ABC001 1 1 ABC001 3 GOOD
ALL SECTIONS FOUND
";
    check(&rt, &mut three(two, one, two), true, lines)
}

#[test]
fn the_first_volume_alone(rt: HostRuntime) -> Result<(), Fail> {
    let lines = "IMAGE 1 12 MARKED
SECTION ABC001 1 1 ABC001 3 GOOD
LACKS ABC001 1 2
";
    check_one(&rt, first_of_two(rt.alloc())?, false, lines)
}

/// The number of a bad block among five blocks, counted from 0: the fourth, or none.
const FOURTH: u8 = 3;

const NONE: u8 = 5;

#[test]
fn a_bad_block_until_a_whole_copy(rt: HostRuntime) -> Result<(), Fail> {
    let lines = "IMAGE 1 14 MARKED
SECTION ABC001 1 1 ABC001 5 BAD
LACKS ABC001 1 1
";
    check_one(
        &rt,
        five_blocks(rt.alloc(), FOURTH, EOF_FIVE)?,
        false,
        lines,
    )?;
    let lines = "IMAGE 1 14 MARKED
IMAGE 2 14 MARKED
SECTION ABC001 1 1 ABC001 5 GOOD
ALL SECTIONS FOUND
";
    let whole = five_blocks(rt.alloc(), NONE, EOF_FIVE)?;
    check_two(
        &rt,
        five_blocks(rt.alloc(), FOURTH, EOF_FIVE)?,
        whole,
        true,
        lines,
    )
}

#[test]
fn cut_and_counted_wrong(rt: HostRuntime) -> Result<(), Fail> {
    let lines = "IMAGE 1 7 PHYSICAL
SECTION ABC001 1 1 ABC001 3 CUT
LACKS ABC001 1 1
";
    check_one(&rt, cut(rt.alloc(), 2292)?, false, lines)?;
    let lines = "IMAGE 1 14 MARKED
SECTION ABC001 1 1 ABC001 5 COUNT
LACKS ABC001 1 1
";
    let counted = five_blocks(rt.alloc(), NONE, EOF_FOUR)?;
    check_one(&rt, counted, false, lines)
}

#[test]
fn nothing_is_met(rt: HostRuntime) -> Result<(), Fail> {
    let lines = "IMAGE 1 0 PHYSICAL
IMAGE 2 3 MARKED
";
    check_two(
        &rt,
        Image::new(rt.alloc()),
        blank(rt.alloc())?,
        false,
        lines,
    )?;
    let none: &mut [Option<&[u8]>] = &mut [];
    check(&rt, none, false, "")
}

/// Returns a volume with file 2 of set XYZ001.
fn other_set(alloc: Global) -> Result<Image, AllocError> {
    let header = "HDR1STOCK            XYZ00100010002000100 00000 00000 000000";
    let trailer = "EOF1STOCK            XYZ00100010002000100 00000 00000 000001";
    one_section(alloc, header, trailer)
}

/// Returns a volume with section 1 of file 1 of set ABC001, which continues.
fn first_section(alloc: Global) -> Result<Image, AllocError> {
    let trailer = "EOV1PAYROLL          ABC00100010001000100 00000 00000 000001";
    one_section(alloc, HDR1, trailer)
}

/// Returns a volume with section 3 of file 1 of set ABC001, which ends the file.
fn third_section(alloc: Global) -> Result<Image, AllocError> {
    let header = "HDR1PAYROLL          ABC00100030001000100 00000 00000 000000";
    let trailer = "EOF1PAYROLL          ABC00100030001000100 00000 00000 000001";
    one_section(alloc, header, trailer)
}

/// File 2 of set XYZ001 is found, and file 1 is not. The section in the middle of file 1 of ABC001
/// is missing.
#[test]
fn two_sets(rt: HostRuntime) -> Result<(), Fail> {
    let other = other_set(rt.alloc())?;
    let third = third_section(rt.alloc())?;
    let first = first_section(rt.alloc())?;
    let lines = "IMAGE 1 9 MARKED
IMAGE 2 9 MARKED
IMAGE 3 9 MARKED
SECTION XYZ001 2 1 ABC001 1 GOOD
SECTION ABC001 1 3 ABC001 1 GOOD
SECTION ABC001 1 1 ABC001 1 GOOD
LACKS XYZ001 1 1
LACKS ABC001 1 2
";
    let mut images = three(
        other.bytes.as_slice(),
        third.bytes.as_slice(),
        first.bytes.as_slice(),
    );
    check(&rt, &mut images, false, lines)
}

#[test]
fn the_last_section_number(rt: HostRuntime) -> Result<(), Fail> {
    let image = all_sections(rt.alloc())?;
    let mut report = Tail::new(rt.alloc());
    let mut images = shelf_of(rt.alloc(), &mut [Some(image.bytes.as_slice())])?;
    let found = check_to(rt.alloc(), &mut images, &mut report)?;
    let line = b"SECTION ABC001 1 9999 ABC001 0 GOOD\n".as_slice();
    assert!(rt; !found);
    assert!(rt; report.line.as_slice() == line);
    assert!(rt; report.end.as_slice() == b"LACKS ABC001 1 10000\n".as_slice());
    Ok(())
}

#[test]
fn a_million_and_three_blocks(rt: HostRuntime) -> Result<(), Fail> {
    let lines = "IMAGE 1 1000011 MARKED
SECTION ABC001 1 1 ABC001 1000003 GOOD
ALL SECTIONS FOUND
";
    check_one(
        &rt,
        of_blocks(rt.alloc(), 1_000_003, EOF_THREE)?,
        true,
        lines,
    )
}

/// A truncated image, and one that could not be opened, are reported.
#[test]
fn faults_are_told(rt: HostRuntime) -> Result<(), Fail> {
    let cut = cut(rt.alloc(), 1885)?;
    let lines = "IMAGE 1 6 FAULT 1 1884
IMAGE 2 0 NOT OPENED
SECTION ABC001 1 1 ABC001 2 CUT
LACKS ABC001 1 1
";
    check(&rt, &mut [Some(cut.bytes.as_slice()), None], false, lines)
}

/// Returns three images: one that could not be opened, `first` and `second`.
fn behind_unopened<'a>(first: &'a [u8], second: &'a [u8]) -> [Option<&'a [u8]>; 3] {
    [None, Some(first), Some(second)]
}

/// A complete image is found after images with faults.
#[test]
fn faults_are_told_and_passed(rt: HostRuntime) -> Result<(), Fail> {
    let image = payroll(rt.alloc())?;
    let whole = image.bytes.as_slice();
    let cut = front(whole, 1885);
    let lines = "IMAGE 1 0 NOT OPENED
IMAGE 2 6 FAULT 1 1884
IMAGE 3 12 MARKED
SECTION ABC001 1 1 ABC001 3 GOOD
ALL SECTIONS FOUND
";
    check(&rt, &mut behind_unopened(cut, whole), true, lines)
}

#[test]
fn bytes_that_are_not_printed(rt: HostRuntime) -> Result<(), Fail> {
    let lines = "IMAGE 1 8 MARKED
SECTION ? C??1 1 1 A? ~?? 0 GOOD
ALL SECTIONS FOUND
";
    check_one(&rt, unprinted(rt.alloc())?, true, lines)
}

/// Items after the second mark are counted, but sections among them are not found.
#[test]
fn items_behind_the_second_mark(rt: HostRuntime) -> Result<(), Fail> {
    let lines = "IMAGE 1 14 PHYSICAL
SECTION ABC001 1 1 ABC001 3 GOOD
ALL SECTIONS FOUND
";
    check_one(&rt, with_items_behind(rt.alloc())?, true, lines)
}

/// Returns a reader that returns `left` bytes, one per call, and then fails.
fn dribble(bytes: &[u8], left: usize) -> Dribble<'_> {
    Dribble {
        bytes,
        left,
        kind: ErrorKind::Other,
    }
}

/// A reader that returns one byte per call, and fails in the first data block, is reported.
#[test]
fn a_reader_that_fails(rt: HostRuntime) -> Result<(), Fail> {
    let image = payroll(rt.alloc())?;
    let bytes = image.bytes.as_slice();
    let images = &mut [Some(dribble(bytes, 1000)), Some(dribble(bytes, 2484))];
    let lines = "IMAGE 1 4 FAULT 5 268
IMAGE 2 12 MARKED
SECTION ABC001 1 1 ABC001 3 GOOD
ALL SECTIONS FOUND
";
    check(&rt, images, true, lines)
}
