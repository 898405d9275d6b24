//! Tests of surveys of images: the lines about each image.
use crate::image::{HDR1, HDR2, Image, VOL1, blank};
use crate::sections::{first_of_two, one_section, second_of_two};
use crate::volumes::{EOF_ONE, cut, with_items_behind};
use std::alloc::{AllocError, Global};
use std::process::Abort;
use std::test::Fail;
use tape_run::{Wording, survey_to};

/// Fails unless the survey of `images` has the lines `lines` and the result `all`.
pub fn told<H: Abort + AllocGlobal>(
    rt: &H,
    images: &[Option<&[u8]>],
    names: &[&str],
    wording: Wording,
    all: bool,
    lines: &str,
) -> Result<(), Fail> {
    let mut shelf = Vec::from_slice(rt.alloc(), images)?;
    let mut report = Vec::new(rt.alloc());
    let answer = survey_to(rt.alloc(), &mut shelf, names, wording, &mut report)?;
    assert_eq!(rt; report.as_slice(), lines.as_bytes(), "{lines}");
    assert!(rt; answer == all, "{lines}");
    Ok(())
}

/// Checks a survey in words, as `told` does.
pub fn survey<H: Abort + AllocGlobal>(
    rt: &H,
    images: &[Option<&[u8]>],
    names: &[&str],
    all: bool,
    lines: &str,
) -> Result<(), Fail> {
    told(rt, images, names, Wording::Words, all, lines)
}

/// Checks the survey of one image, from which something is missing.
pub fn one<H: Abort + AllocGlobal>(rt: &H, image: &Image, lines: &str) -> Result<(), Fail> {
    survey(
        rt,
        &[Some(image.bytes.as_slice())],
        &["one.tap"],
        false,
        lines,
    )
}

/// Returns an image whose first block is `block`.
fn begun(alloc: Global, block: &[u8]) -> Result<Image, AllocError> {
    let mut image = Image::new(alloc);
    image.block(block)?;
    image.end()?;
    Ok(image)
}

/// Returns a volume on which HDR1 is followed by another HDR1.
fn headed_twice(alloc: Global) -> Result<Image, AllocError> {
    let mut image = Image::new(alloc);
    image.headers(&[VOL1, HDR1, HDR1])?;
    image.block(b"x")?;
    image.trailers(&[EOF_ONE])?;
    image.end()?;
    Ok(image)
}

/// Returns a volume with an unreadable block before its volume label.
fn behind_noise(alloc: Global) -> Result<Image, AllocError> {
    let mut image = Image::new(alloc);
    image.bad(b"x")?;
    image.headers(&[VOL1, HDR1, HDR2])?;
    image.end()?;
    Ok(image)
}

/// Returns a volume with one file, and an unreadable block where the next file would begin.
fn second_unread(alloc: Global) -> Result<Image, AllocError> {
    let mut image = Image::new(alloc);
    image.headers(&[VOL1, HDR1, HDR2])?;
    image.records(0, 1, true)?;
    image.trailers(&[EOF_ONE])?;
    image.bad(b"y")?;
    image.end()?;
    Ok(image)
}

/// Returns a volume with a file in an unsupported format.
fn unsupported(alloc: Global) -> Result<Image, AllocError> {
    let mut image = Image::new(alloc);
    image.headers(&[
        VOL1,
        HDR1,
        "HDR2X0080000000                                   00",
    ])?;
    image.block(b"x")?;
    image.trailers(&[EOF_ONE])?;
    image.end()?;
    Ok(image)
}

const BOTH: &str = "2 images: 2 ok
1 set, 1 file: 1 complete
All files are complete, and every image was read to its end.

2.tap                     ok           volume ABC002, 1 section
1\\u0009.tap               ok           volume ABC001, 1 section
Set ABC001: 1 of 1 files complete
  Volumes: ABC001, ABC002
   1 PAYROLL                        complete
";

const FIRST: &str = "Missing: look for the reel, or for other images of it
  ABC001 file 1 PAYROLL: section 2, after volume ABC001 (one.tap)

1 image: 1 ok
1 set, 1 file: 0 complete, 1 incomplete

one.tap                   ok           volume ABC001, 1 section
Set ABC001: 0 of 1 files complete
  Volumes: ABC001, missing (follows ABC001)
   1 PAYROLL                        incomplete
";

const SECOND: &str = "Missing: look for the reel, or for other images of it
  ABC001 file 1 PAYROLL: section 1

1 image: 1 ok
1 set, 1 file: 0 complete, 1 incomplete

one.tap                   ok           volume ABC002, 1 section
Set ABC001: 0 of 1 files complete
  Volumes: missing, ABC002
   1 PAYROLL                        incomplete
";

#[test]
fn whole_reels(rt: HostRuntime) -> Result<(), Fail> {
    let first = first_of_two(rt.alloc())?;
    let second = second_of_two(rt.alloc())?;
    survey(
        &rt,
        &[Some(second.bytes.as_slice()), Some(first.bytes.as_slice())],
        &["2.tap", "1\t.tap"],
        true,
        BOTH,
    )?;
    one(&rt, &first, FIRST)?;
    one(&rt, &second, SECOND)
}

const BLANK: &str = "1 image: 0 ok, 1 blank
No files were found.

one.tap                   blank        volume ABC001
";

const SHORT: &str = "Unsupported: 'tape list' shows it, 'tape salvage --form blocks' its blocks
  one.tap                   no labels; its first block has 300 bytes

1 image: 0 ok, 1 unsupported
No files were found.

one.tap                   unsupported  no labels; its first block has 300 bytes
";

const EBCDIC: &str = "Unsupported: 'tape list' shows it, 'tape salvage --form blocks' its blocks
  one.tap                   labels in EBCDIC

1 image: 0 ok, 1 unsupported
No files were found.

one.tap                   unsupported  labels in EBCDIC
";

const NOISE: &str = "Complete on no image: read or copy it again; 'tape unpack' joins copies
  ABC001 file 1 PAYROLL: section 1 is truncated (one.tap)
Labels or marks damaged, or cut off: read the reel, or copy the image, again
  one.tap                   does not begin with a label, 1 section
      1 unreadable block
      a VOL1 at item 2
      section 1 of file 1 is truncated, blocks found: 0

1 image: 0 ok, 1 damaged
1 set, 1 file: 0 complete, 1 incomplete

one.tap                   damaged      does not begin with a label, 1 section
    1 unreadable block
    a VOL1 at item 2
    section 1 of file 1 is truncated, blocks found: 0
Set ABC001: 0 of 1 files complete
  Volumes: (none)
   1 PAYROLL                        incomplete
";

const NONE: &str = "Not opened: check the names, and that you may read the files
  lost.tap
Nothing was read: copy them again, decompress or convert them
  empty.tap                 no items
  text.tap                  no items
      image fault 3 at byte 0: not a SIMH image, or damaged in its first block

3 images: 0 ok, 1 empty, 1 not a tape, 1 not opened
No files were found.

empty.tap                 empty        no items
lost.tap                  not opened
text.tap                  not a tape   no items
    image fault 3 at byte 0: not a SIMH image, or damaged in its first block
";

#[test]
fn no_labelled_volumes(rt: HostRuntime) -> Result<(), Fail> {
    let alloc = rt.alloc();
    one(&rt, &blank(alloc)?, BLANK)?;
    one(&rt, &begun(alloc, &[7u8; 300])?, SHORT)?;
    let mut ebcdic = [0x40u8; 80];
    ebcdic[..4].copy_from_slice(b"\xE5\xD6\xD3\xF1");
    one(&rt, &begun(alloc, &ebcdic)?, EBCDIC)?;
    one(&rt, &behind_noise(alloc)?, NOISE)?;
    survey(
        &rt,
        &[Some(b"".as_slice()), None, Some(b"text".as_slice())],
        &["empty.tap", "lost.tap", "text.tap"],
        false,
        NONE,
    )
}

const NO_SECOND: &str = "Complete on no image: read or copy it again; 'tape unpack' joins copies
  ABC001 file 1 PAYROLL: section 1 is truncated on ABC001 (one.tap)
Labels or marks damaged, or cut off: read the reel, or copy the image, again
  one.tap                   volume ABC001, 2 sections
      item 3 is not HDR2: counting continues
      section 1 of file 1 is truncated, blocks found: 0
      section 1 of file 1 has unreadable blocks, blocks found: 1

1 image: 0 ok, 1 damaged
1 set, 1 file: 0 complete, 1 incomplete

one.tap                   damaged      volume ABC001, 2 sections
    item 3 is not HDR2: counting continues
    section 1 of file 1 is truncated, blocks found: 0
    section 1 of file 1 has unreadable blocks, blocks found: 1
Set ABC001: 0 of 1 files complete
  Volumes: ABC001
   1 PAYROLL                        incomplete, blocks (no HDR2)
";

const UNREAD: &str = "Labels or marks damaged, or cut off: read the reel, or copy the image, again
  one.tap                   volume ABC001, 1 section
      1 unreadable block
      item 9 is neither HDR1 nor a tape mark: counting continues

1 image: 0 ok, 1 damaged
1 set, 1 file: 1 complete

one.tap                   damaged      volume ABC001, 1 section
    1 unreadable block
    item 9 is neither HDR1 nor a tape mark: counting continues
Set ABC001: 1 of 1 files complete
  Volumes: ABC001
   1 PAYROLL                        complete
";

const BEHIND: &str = "Suspect: look at it with 'tape list'
  one.tap                   volume ABC001, 1 section
      item 13 follows the end of the volume: the rest is ignored

1 image: 0 ok, 1 damaged
1 set, 1 file: 1 complete

one.tap                   damaged      volume ABC001, 1 section
    item 13 follows the end of the volume: the rest is ignored
Set ABC001: 1 of 1 files complete
  Volumes: ABC001
   1 PAYROLL                        complete
";

const CUT: &str = "Labels or marks damaged, or cut off: read the reel, or copy the image, again
  one.tap                   volume ABC001, 1 section
      ends before the end of the volume

1 image: 0 ok, 1 damaged
1 set, 1 file: 1 complete

one.tap                   damaged      volume ABC001, 1 section
    ends before the end of the volume
Set ABC001: 1 of 1 files complete
  Volumes: ABC001
   1 PAYROLL                        complete
";

const UNSUPPORTED: &str =
    "Unsupported: 'tape list' shows it, 'tape salvage --form blocks' its blocks
  one.tap                   volume ABC001, 1 section
      file 1 has an unsupported record format
  ABC001 file 1 PAYROLL: no HDR2 with a supported record format (one.tap)

1 image: 0 ok, 1 unsupported
1 set, 1 file: 0 complete, 1 not readable

one.tap                   unsupported  volume ABC001, 1 section
    file 1 has an unsupported record format
Set ABC001: 0 of 1 files complete
  Volumes: ABC001
   1 PAYROLL                        not readable
";

#[test]
fn left_over(rt: HostRuntime) -> Result<(), Fail> {
    let alloc = rt.alloc();
    one(&rt, &headed_twice(alloc)?, NO_SECOND)?;
    one(&rt, &second_unread(alloc)?, UNREAD)?;
    one(&rt, &with_items_behind(alloc)?, BEHIND)?;
    one(&rt, &cut(alloc, 2476)?, CUT)?;
    one(&rt, &unsupported(alloc)?, UNSUPPORTED)
}

const DATED: &str = "1 image: 1 ok
1 set, 1 file: 1 complete
All files are complete, and every image was read to its end.

one.tap                   ok           volume ABC001, 1 section
Set ABC001: 1 of 1 files complete
  Volumes: ABC001
   1 PAYROLL            1985-04-23  complete
";

#[test]
fn date_of_a_file(rt: HostRuntime) -> Result<(), Fail> {
    let dated = one_section(
        rt.alloc(),
        "HDR1PAYROLL          ABC00100010001000100 85113 00000 000000",
        "EOF1PAYROLL          ABC00100010001000100 85113 00000 000001",
    )?;
    survey(
        &rt,
        &[Some(dated.bytes.as_slice())],
        &["one.tap"],
        true,
        DATED,
    )
}
