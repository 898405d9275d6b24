//! Tests of surveys of images with an unreadable or lost label or tape mark: the sections after it
//! are found too.
use crate::image::Image;
use crate::survey::survey;
use crate::unpack::found;
use std::alloc::{AllocError, Global};
use std::process::Abort;
use std::test::Fail;
use tape_run::{Wording, survey_to};

const VOL1: &str =
    "VOL1ABC001                                                                     4";

/// The labels of three files of one block each.
const LABELS: [[&str; 4]; 3] = [
    [
        "HDR1ALPHA            ABC00100010001000100 00000 00000 000000",
        "HDR2F0008000080                                   00",
        "EOF1ALPHA            ABC00100010001000100 00000 00000 000001",
        "EOF2F0008000080                                   00",
    ],
    [
        "HDR1BRAVO            ABC00100010002000100 00000 00000 000000",
        "HDR2F0008000080                                   00",
        "EOF1BRAVO            ABC00100010002000100 00000 00000 000001",
        "EOF2F0008000080                                   00",
    ],
    [
        "HDR1CHARLIE          ABC00100010003000100 00000 00000 000000",
        "HDR2F0008000080                                   00",
        "EOF1CHARLIE          ABC00100010003000100 00000 00000 000001",
        "EOF2F0008000080                                   00",
    ],
];

/// The number of items of the volume: its label, and eight of each file, without the last mark.
const ITEMS: usize = 25;

/// What is done to one item of the volume.
#[derive(Clone, Copy)]
pub enum Damage {
    Unreadable,
    Lost,
}

/// Appends item `item` of the volume, counted from 1; with `bad` as an unreadable block.
pub fn add(image: &mut Image, item: usize, bad: bool) -> Result<(), AllocError> {
    if bad {
        return image.bad(b"x");
    }
    if item == 1 {
        return image.label(VOL1);
    }
    let place = item.saturating_sub(2);
    let Some(labels) = LABELS.get(place / 8) else {
        return Ok(());
    };
    match place % 8 {
        0 => image.label(labels[0]),
        1 => image.label(labels[1]),
        3 => image.block(&[b'.'; 80]),
        5 => image.label(labels[2]),
        6 => image.label(labels[3]),
        _ => image.mark(),
    }
}

/// Returns the volume with one item damaged.
pub fn volume(alloc: Global, hit: usize, damage: Damage) -> Result<Image, AllocError> {
    let mut image = Image::new(alloc);
    for before in 0..ITEMS {
        let item = before + 1;
        match damage {
            Damage::Lost if item == hit => {}
            _ => add(&mut image, item, item == hit)?,
        }
    }
    image.end()?;
    Ok(image)
}

/// Returns whether `text` is part of `bytes`.
fn is_in(bytes: &[u8], text: &[u8]) -> bool {
    for start in 0..bytes.len() {
        if bytes[start..].starts_with(text) {
            return true;
        }
    }
    false
}

/// Fails unless a survey of the image lists all three files, and says whether all is well.
fn lists_all<H: Abort + AllocGlobal>(rt: &H, image: &Image, well: bool) -> Result<(), Fail> {
    let bytes = image.bytes.as_slice();
    let mut shelf = Vec::from_slice(rt.alloc(), &[Some(bytes)])?;
    let mut report = Vec::new(rt.alloc());
    let all = survey_to(
        rt.alloc(),
        &mut shelf,
        &["v.tap"],
        Wording::Words,
        &mut report,
    )?;
    assert!(rt; all == well);
    for line in [b"\n   1 ALPHA  ", b"\n   2 BRAVO  ", b"\n   3 CHARLIE"] {
        assert!(rt; is_in(report.as_slice(), line), "{report:?}");
    }
    Ok(())
}

/// Each label and each mark, unreadable or lost. The block of file `n` is item `8 * n - 3`. Its EOF2
/// is item `8 * n`: nothing shows that it is lost, since no file needs one.
#[test]
fn all_files_are_listed(rt: HostRuntime) -> Result<(), Fail> {
    for before in 0..ITEMS {
        let hit = before + 1;
        if hit % 8 == 5 {
            continue;
        }
        lists_all(&rt, &volume(rt.alloc(), hit, Damage::Unreadable)?, false)?;
        lists_all(&rt, &volume(rt.alloc(), hit, Damage::Lost)?, hit % 8 == 0)?;
    }
    Ok(())
}

const SECOND_TRAILER: &str =
    "Labels or marks damaged, or cut off: read the reel, or copy the image, again
  v.tap                     volume ABC001, 3 sections
      1 unreadable block
      item 8 is neither a label nor a tape mark: counting continues

1 image: 0 ok, 1 damaged
1 set, 3 files: 3 complete

v.tap                     damaged      volume ABC001, 3 sections
    1 unreadable block
    item 8 is neither a label nor a tape mark: counting continues
Set ABC001: 3 of 3 files complete
  Volumes: ABC001
   1 ALPHA                          complete
   2 BRAVO                          complete
   3 CHARLIE                        complete
";

const FIRST_TRAILER: &str = "Complete on no image: read or copy it again; 'tape unpack' joins copies
  ABC001 file 1 ALPHA: section 1 is truncated on ABC001 (v.tap)
Labels or marks damaged, or cut off: read the reel, or copy the image, again
  v.tap                     volume ABC001, 3 sections
      1 unreadable block
      item 7 is not EOF1 or EOV1 of its section: counting continues
      section 1 of file 1 is truncated, blocks found: 1

1 image: 0 ok, 1 damaged
1 set, 3 files: 2 complete, 1 incomplete

v.tap                     damaged      volume ABC001, 3 sections
    1 unreadable block
    item 7 is not EOF1 or EOV1 of its section: counting continues
    section 1 of file 1 is truncated, blocks found: 1
Set ABC001: 2 of 3 files complete
  Volumes: ABC001
   1 ALPHA                          incomplete
   2 BRAVO                          complete
   3 CHARLIE                        complete
";

const HEADER: &str = "Complete on no image: read or copy it again; 'tape unpack' joins copies
  ABC001 file 2 BRAVO: section 1 is truncated on ABC001 (v.tap)
Labels or marks damaged, or cut off: read the reel, or copy the image, again
  v.tap                     volume ABC001, 2 sections
      1 unreadable block
      item 10 is neither HDR1 nor a tape mark: counting continues
      section 1 of file 2 is truncated, blocks found: 0
Unsupported: 'tape list' shows it, 'tape salvage --form blocks' its blocks
  ABC001 file 2 BRAVO: no HDR2 with a supported record format (v.tap)

1 image: 0 ok, 1 damaged
1 set, 3 files: 2 complete, 1 incomplete

v.tap                     damaged      volume ABC001, 2 sections
    1 unreadable block
    item 10 is neither HDR1 nor a tape mark: counting continues
    section 1 of file 2 is truncated, blocks found: 0
Set ABC001: 2 of 3 files complete
  Volumes: ABC001
   1 ALPHA                          complete
   2 BRAVO                          incomplete
   3 CHARLIE                        complete
";

const SECOND_HEADER: &str = "Complete on no image: read or copy it again; 'tape unpack' joins copies
  ABC001 file 2 BRAVO: section 1 has unreadable blocks on ABC001 (v.tap)
Labels or marks damaged, or cut off: read the reel, or copy the image, again
  v.tap                     volume ABC001, 3 sections
      1 unreadable block
      item 11 is not HDR2: counting continues
      section 1 of file 2 has unreadable blocks, blocks found: 1
Unsupported: 'tape list' shows it, 'tape salvage --form blocks' its blocks
  ABC001 file 2 BRAVO: no HDR2 with a supported record format (v.tap)

1 image: 0 ok, 1 damaged
1 set, 3 files: 2 complete, 1 incomplete

v.tap                     damaged      volume ABC001, 3 sections
    1 unreadable block
    item 11 is not HDR2: counting continues
    section 1 of file 2 has unreadable blocks, blocks found: 1
Set ABC001: 2 of 3 files complete
  Volumes: ABC001
   1 ALPHA                          complete
   2 BRAVO                          incomplete
   3 CHARLIE                        complete
";

const VOLUME: &str = "Unsupported: 'tape list' shows it, 'tape salvage --form blocks' its blocks
  v.tap                     no labels; its first block has 80 bytes, 3 sections

1 image: 0 ok, 1 unsupported
1 set, 3 files: 3 complete

v.tap                     unsupported  no labels; its first block has 80 bytes, 3 sections
Set ABC001: 3 of 3 files complete
  Volumes: (none)
   1 ALPHA                          complete
   2 BRAVO                          complete
   3 CHARLIE                        complete
";

/// Fails unless the survey of the volume with one item damaged has these lines.
fn one<H: Abort + AllocGlobal>(
    rt: &H,
    hit: usize,
    damage: Damage,
    lines: &str,
) -> Result<(), Fail> {
    let image = volume(rt.alloc(), hit, damage)?;
    survey(
        rt,
        &[Some(image.bytes.as_slice())],
        &["v.tap"],
        false,
        lines,
    )
}

#[test]
fn sections_behind_are_counted(rt: HostRuntime) -> Result<(), Fail> {
    one(&rt, 8, Damage::Unreadable, SECOND_TRAILER)?;
    one(&rt, 7, Damage::Unreadable, FIRST_TRAILER)?;
    one(&rt, 10, Damage::Unreadable, HEADER)?;
    one(&rt, 11, Damage::Unreadable, SECOND_HEADER)?;
    one(&rt, 1, Damage::Lost, VOLUME)
}

#[test]
fn files_behind_are_found(rt: HostRuntime) -> Result<(), Fail> {
    let image = volume(rt.alloc(), 8, Damage::Unreadable)?;
    let files = "FILE ABC001 1 READYABC001.1.ALPHA out/a\\u000A
FILE ABC001 2 READYABC001.2.BRAVO out/a\\u000A
FILE ABC001 3 READYABC001.3.CHARLIE out/a\\u000A
";
    found(&rt, &[Some(image.bytes.as_slice())], false, files)
}

/// A second tape mark in sequence ends the volume also past damage: what follows is of an older
/// recording.
#[test]
fn an_older_recording_is_not_counted(rt: HostRuntime) -> Result<(), Fail> {
    let mut image = Image::new(rt.alloc());
    for item in [1usize, 2, 3, 4, 5, 6, 7] {
        add(&mut image, item, false)?;
    }
    image.bad(b"x")?;
    image.mark()?;
    image.mark()?;
    for item in [18usize, 19, 20, 21, 22, 23, 24, 25] {
        add(&mut image, item, false)?;
    }
    image.end()?;
    let lines = "Labels or marks damaged, or cut off: read the reel, or copy the image, again
  v.tap                     volume ABC001, 1 section
      1 unreadable block
      item 8 is neither a label nor a tape mark: counting continues

1 image: 0 ok, 1 damaged
1 set, 1 file: 1 complete

v.tap                     damaged      volume ABC001, 1 section
    1 unreadable block
    item 8 is neither a label nor a tape mark: counting continues
Set ABC001: 1 of 1 files complete
  Volumes: ABC001
   1 ALPHA                          complete
";
    survey(
        &rt,
        &[Some(image.bytes.as_slice())],
        &["v.tap"],
        false,
        lines,
    )
}
