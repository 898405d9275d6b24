//! Tests of surveys: what needs attention comes first, and of many images nothing else is printed.
use crate::image::{Image, five_blocks, payroll};
use crate::sections::{numbered, one_section};
use crate::survey::{one, survey, told};
use crate::survey_onward::{Damage, volume};
use crate::volumes::{EOF_FOUR, EOF_ONE, cut};
use std::test::Fail;
use tape_run::Wording;

const COUNT: &str = "Complete on no image: read or copy it again; 'tape unpack' joins copies
  ABC001 file 1 PAYROLL: section 1 has a wrong block count on ABC001 (one.tap)

1 image: 0 ok, 1 damaged
1 set, 1 file: 0 complete, 1 incomplete

one.tap                   damaged      volume ABC001, 1 section
    1 unreadable block
    section 1 of file 1 has a wrong block count, blocks found: 5
Set ABC001: 0 of 1 files complete
  Volumes: ABC001
   1 PAYROLL                        incomplete
";

const BROKEN_OFF: &str = "Complete on no image: read or copy it again; 'tape unpack' joins copies
  ABC001 file 1 PAYROLL: section 1 is truncated on ABC001 (one.tap)
Labels or marks damaged, or cut off: read the reel, or copy the image, again
  one.tap                   volume ABC001, 1 section
      image fault 1 at byte 1884
      section 1 of file 1 is truncated, blocks found: 2

1 image: 0 ok, 1 damaged
1 set, 1 file: 0 complete, 1 incomplete

one.tap                   damaged      volume ABC001, 1 section
    image fault 1 at byte 1884
    section 1 of file 1 is truncated, blocks found: 2
Set ABC001: 0 of 1 files complete
  Volumes: ABC001
   1 PAYROLL                        incomplete
";

const MIXED: &str = "In conflict: find out which is right ('tape compare', 'tape list')
  ABC001 file 1 section 1: good copies on one.tap and two.tap differ
  ABC001 file 1 PAYROLL: labels of different files, on one.tap and two.tap

2 images: 0 ok, 2 in conflict
1 set, 1 file: 0 complete, 1 in conflict

one.tap                   in conflict  volume ABC001, 1 section
    section 1 of file 1: good copies differ
two.tap                   in conflict  volume ABC001, 1 section
    section 1 of file 1: good copies differ
Set ABC001: 0 of 1 files complete
  Volumes: ABC001
   1 PAYROLL                        in conflict
";

/// HDR1 of another file, with the numbers of the example file.
const LEDGER: &str = "HDR1LEDGER           ABC00100010001000100 00000 00000 000000";

#[test]
fn damaged_and_mixed(rt: HostRuntime) -> Result<(), Fail> {
    let alloc = rt.alloc();
    one(&rt, &five_blocks(alloc, 3, EOF_FOUR)?, COUNT)?;
    one(&rt, &cut(alloc, 2000)?, BROKEN_OFF)?;
    let first = payroll(alloc)?;
    let other = one_section(alloc, LEDGER, EOF_ONE)?;
    survey(
        &rt,
        &[Some(first.bytes.as_slice()), Some(other.bytes.as_slice())],
        &["one.tap", "two.tap"],
        false,
        MIXED,
    )
}

const PROBLEMS: &str = "Complete on no image: read or copy it again; 'tape unpack' joins copies
  ABC001 file 1 PAYROLL: section 2 is truncated on ABC001 (two.tap)
Labels or marks damaged, or cut off: read the reel, or copy the image, again
  two.tap                   volume ABC001, 1 section
      item 7 is not EOF1 or EOV1 of its section: counting continues
      section 2 of file 1 is truncated, blocks found: 1
Missing: look for the reel, or for other images of it
  ABC001 file 1 PAYROLL: section 1
  ABC001 file 1 PAYROLL: sections 3-4, after volume ABC001 (two.tap)
  ABC001 file 1 PAYROLL: section 6, after volume ABC001 (five.tap)

2 images: 1 ok, 1 damaged
1 set, 1 file: 0 complete, 1 incomplete

two.tap                   damaged      volume ABC001, 1 section
    item 7 is not EOF1 or EOV1 of its section: counting continues
    section 2 of file 1 is truncated, blocks found: 1
five.tap                  ok           volume ABC001, 1 section
Set ABC001: 0 of 1 files complete
  Volumes: missing, ABC001, missing (follows ABC001)
   1 PAYROLL                        incomplete
";

/// HDR1 of the second section of the example file.
const SECOND_OF_IT: &str = "HDR1PAYROLL          ABC00100020001000100 00000 00000 000000";

#[test]
fn each_section_that_is_damaged_or_missing(rt: HostRuntime) -> Result<(), Fail> {
    let alloc = rt.alloc();
    let two = one_section(alloc, SECOND_OF_IT, EOF_ONE)?;
    let five = numbered(alloc, 5)?;
    survey(
        &rt,
        &[Some(two.bytes.as_slice()), Some(five.bytes.as_slice())],
        &["two.tap", "five.tap"],
        false,
        PROBLEMS,
    )
}

/// A truncated copy of a volume of which another copy is complete.
const SPARE: &str = "Damaged, but other images have the sections or the volume whole
  cut.tap

2 images: 1 ok, 1 damaged
1 set, 1 file: 1 complete

cut.tap                   damaged      volume ABC001, 1 section
    image fault 1 at byte 1884
    section 1 of file 1 is truncated, blocks found: 2
one.tap                   ok           volume ABC001, 1 section
Set ABC001: 1 of 1 files complete
  Volumes: ABC001
   1 PAYROLL                        complete
";

#[test]
fn a_damaged_copy_that_is_not_needed(rt: HostRuntime) -> Result<(), Fail> {
    let (cut, whole) = (cut(rt.alloc(), 2000)?, payroll(rt.alloc())?);
    let images = [&cut, &whole].map(|image| Some(image.bytes.as_slice()));
    survey(&rt, &images, &["cut.tap", "one.tap"], false, SPARE)
}

const TOTALS: &str = "Missing: look for the reel, or for other images of it
  ABC001 file 1 PAYROLL: sections 1-4
  ABC001 file 1 PAYROLL: section 6, after volume ABC001 (5.tap)

6 images: 6 ok
1 set, 1 file: 0 complete, 1 incomplete
1 section with several good copies that agree

";

const HINT: &str =
    "With --all: also each image, each set with its volumes and files, and copies.\n";

const REST: &str = "5.tap                     ok           volume ABC001, 1 section
b.tap                     ok           volume ABC001, 1 section
c.tap                     ok           volume ABC001, 1 section
d.tap                     ok           volume ABC001, 1 section
e.tap                     ok           volume ABC001, 1 section
f.tap                     ok           volume ABC001, 1 section
Set ABC001: 0 of 1 files complete
  Volumes: missing, ABC001, missing (follows ABC001)
   1 PAYROLL                        incomplete
ABC001 file 1 section 5: good, 6 copies agree
";

/// Images and files of which nothing is wrong are listed only if there are at most five images, or
/// if everything is requested.
#[test]
fn more_than_five_images(rt: HostRuntime) -> Result<(), Fail> {
    let five = numbered(rt.alloc(), 5)?;
    let images = [Some(five.bytes.as_slice()); 6];
    let names = ["5.tap", "b.tap", "c.tap", "d.tap", "e.tap", "f.tap"];
    let totals = format!(in rt.alloc(); "{TOTALS}{HINT}")?;
    survey(&rt, &images, &names, false, &totals)?;
    let full = format!(in rt.alloc(); "{TOTALS}{REST}")?;
    told(&rt, &images, &names, Wording::Full, false, &full)
}

const RUN: &str = "2 images: 2 ok
1 set, 3 files: 3 complete
3 sections with several good copies that agree
All files are complete, and every image was read to its end.

one.tap                   ok           volume ABC001, 3 sections
two.tap                   ok           volume ABC001, 3 sections
Set ABC001: 3 of 3 files complete
  Volumes: ABC001
   1 ALPHA                          complete
   2 BRAVO                          complete
   3 CHARLIE                        complete
ABC001 file 1 section 1 to file 3 section 1: good, 2 copies agree
";

/// Sections that follow each other share a line about their copies.
#[test]
fn copies_of_sections_in_a_row(rt: HostRuntime) -> Result<(), Fail> {
    let whole = volume(rt.alloc(), 0, Damage::Lost)?;
    let images = [Some(whole.bytes.as_slice()); 2];
    survey(&rt, &images, &["one.tap", "two.tap"], true, RUN)
}
