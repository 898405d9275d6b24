//! Tests of the lists of a survey: each image that needs attention is named in one of them, and not
//! as one that other images make unnecessary.
use crate::image::{EOF_FIVE, Image, blank, five_blocks};
use crate::sections::one_section;
use crate::survey::survey;
use crate::survey_onward::{Damage, add, volume};
use crate::volumes::EOF_FOUR;
use std::alloc::{AllocError, Global};
use std::test::Fail;

/// Returns the first file of the volume with its block unreadable, and with an unreadable block in
/// place of HDR1 of the next file if `next` is true.
fn first_damaged(alloc: Global, next: bool) -> Result<Image, AllocError> {
    let mut image = Image::new(alloc);
    for item in [1usize, 2, 3, 4, 5, 6, 7, 8, 9] {
        add(&mut image, item, item == 5)?;
    }
    if next {
        image.bad(b"x")?;
    }
    image.end()?;
    Ok(image)
}

const UNREADABLE: &str = "Complete on no image: read or copy it again; 'tape unpack' joins copies
  ABC001 file 1 ALPHA: section 1 has unreadable blocks on ABC001 (two.tap)
Labels or marks damaged, or cut off: read the reel, or copy the image, again
  one.tap                   volume ABC001, 1 section
      2 unreadable blocks
      item 10 is neither HDR1 nor a tape mark: counting continues
      section 1 of file 1 has unreadable blocks, blocks found: 1

2 images: 0 ok, 2 damaged
1 set, 1 file: 0 complete, 1 incomplete

two.tap                   damaged      volume ABC001, 1 section
    1 unreadable block
    section 1 of file 1 has unreadable blocks, blocks found: 1
one.tap                   damaged      volume ABC001, 1 section
    2 unreadable blocks
    item 10 is neither HDR1 nor a tape mark: counting continues
    section 1 of file 1 has unreadable blocks, blocks found: 1
Set ABC001: 0 of 1 files complete
  Volumes: ABC001
   1 ALPHA                          incomplete
";

/// An image with unreadable labels is listed also if the section that is damaged on it is damaged
/// on another image too, which is named beside that section.
#[test]
fn unreadable_labels_beside_a_damaged_section(rt: HostRuntime) -> Result<(), Fail> {
    let (two, one) = (
        first_damaged(rt.alloc(), false)?,
        first_damaged(rt.alloc(), true)?,
    );
    let images = [&two, &one].map(|image| Some(image.bytes.as_slice()));
    survey(&rt, &images, &["two.tap", "one.tap"], false, UNREADABLE)
}

const TRUNCATED: &str = "Complete on no image: read or copy it again; 'tape unpack' joins copies
  ABC001 file 1 ALPHA: section 1 has unreadable blocks on ABC001 (two.tap)
Labels or marks damaged, or cut off: read the reel, or copy the image, again
  one.tap                   volume ABC001, 1 section
      1 unreadable block
      ends before the end of the volume
      section 1 of file 1 has unreadable blocks, blocks found: 1

2 images: 0 ok, 2 damaged
1 set, 1 file: 0 complete, 1 incomplete

two.tap                   damaged      volume ABC001, 1 section
    1 unreadable block
    section 1 of file 1 has unreadable blocks, blocks found: 1
one.tap                   damaged      volume ABC001, 1 section
    1 unreadable block
    ends before the end of the volume
    section 1 of file 1 has unreadable blocks, blocks found: 1
Set ABC001: 0 of 1 files complete
  Volumes: ABC001
   1 ALPHA                          incomplete
";

/// So is an image that ends without a fault before the volume does. Its labels end at byte 458.
#[test]
fn truncated_beside_a_damaged_section(rt: HostRuntime) -> Result<(), Fail> {
    let two = first_damaged(rt.alloc(), false)?;
    let one = volume(rt.alloc(), 5, Damage::Unreadable)?.cut(458);
    let images = [&two, &one].map(|image| Some(image.bytes.as_slice()));
    survey(&rt, &images, &["two.tap", "one.tap"], false, TRUNCATED)
}

const FAULT: &str = "Labels or marks damaged, or cut off: read the reel, or copy the image, again
  one.tap                   volume ABC001, 1 section
      1 unreadable block
      image fault 1 at byte 462
      section 1 of file 1 has unreadable blocks, blocks found: 1
  two.tap                   volume ABC001, 1 section
      ends before the end of the volume

2 images: 0 ok, 2 damaged
1 set, 1 file: 1 complete

one.tap                   damaged      volume ABC001, 1 section
    1 unreadable block
    image fault 1 at byte 462
    section 1 of file 1 has unreadable blocks, blocks found: 1
two.tap                   damaged      volume ABC001, 1 section
    ends before the end of the volume
Set ABC001: 1 of 1 files complete
  Volumes: ABC001
   1 ALPHA                          complete
";

/// An image with a fault is needed even if another image has the section that is damaged before it:
/// no image shows what follows. HDR1 of the second file begins at byte 462.
#[test]
fn a_fault_behind_a_section_that_is_found(rt: HostRuntime) -> Result<(), Fail> {
    let one = volume(rt.alloc(), 5, Damage::Unreadable)?.cut(500);
    let two = volume(rt.alloc(), 0, Damage::Lost)?.cut(536);
    let images = [&one, &two].map(|image| Some(image.bytes.as_slice()));
    survey(&rt, &images, &["one.tap", "two.tap"], false, FAULT)
}

const OTHERS: &str = "Labels or marks damaged, or cut off: read the reel, or copy the image, again
  cut.tap                   volume ABC001, 1 section
      ends before the end of the volume

3 images: 1 ok, 1 blank, 1 damaged
2 sets, 2 files: 2 complete

cut.tap                   damaged      volume ABC001, 1 section
    ends before the end of the volume
other.tap                 ok           volume ABC001, 1 section
blank.tap                 blank        volume ABC001
Set ABC001: 1 of 1 files complete
  Volumes: ABC001
   1 ALPHA                          complete
Set XYZ002: 1 of 1 files complete
  Volumes: ABC001
   1 LEDGER                         complete
";

/// A volume of another set, and one without files, do not make a truncated volume of the same
/// identifier unnecessary.
#[test]
fn other_volumes_of_the_same_identifier(rt: HostRuntime) -> Result<(), Fail> {
    let cut = volume(rt.alloc(), 0, Damage::Lost)?.cut(536);
    let other = one_section(
        rt.alloc(),
        "HDR1LEDGER           XYZ00200010001000100 00000 00000 000000",
        "EOF1LEDGER           XYZ00200010001000100 00000 00000 000001",
    )?;
    let blank = blank(rt.alloc())?;
    let images = [&cut, &other, &blank].map(|image| Some(image.bytes.as_slice()));
    let names = ["cut.tap", "other.tap", "blank.tap"];
    survey(&rt, &images, &names, false, OTHERS)
}

const STATES: &str = "Complete on no image: read or copy it again; 'tape unpack' joins copies
  ABC001 file 1 PAYROLL: section 1 has a wrong block count on ABC001 (count.tap)

2 images: 0 ok, 2 damaged
1 set, 1 file: 0 complete, 1 incomplete

count.tap                 damaged      volume ABC001, 1 section
    1 unreadable block
    section 1 of file 1 has a wrong block count, blocks found: 5
block.tap                 damaged      volume ABC001, 1 section
    1 unreadable block
    section 1 of file 1 has unreadable blocks, blocks found: 5
Set ABC001: 0 of 1 files complete
  Volumes: ABC001
   1 PAYROLL                        incomplete
";

/// The image that is named beside a section is one on which it is damaged in this way.
#[test]
fn the_image_of_a_damaged_section(rt: HostRuntime) -> Result<(), Fail> {
    let count = five_blocks(rt.alloc(), 3, EOF_FOUR)?;
    let block = five_blocks(rt.alloc(), 3, EOF_FIVE)?;
    let images = [&count, &block].map(|image| Some(image.bytes.as_slice()));
    survey(&rt, &images, &["count.tap", "block.tap"], false, STATES)
}
