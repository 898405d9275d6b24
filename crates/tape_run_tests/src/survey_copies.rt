//! Tests of surveys of images with several complete copies of a section, or one too many sections.
use crate::image::{HDR1, Image, payroll};
use crate::sections::{first_of_two, one_section, second_of_two};
use crate::survey::{survey, told};
use crate::volumes::EOF_ONE;
use std::alloc::{AllocError, Global};
use std::test::Fail;
use tape_run::{Wording, survey_to};

const AGREED: &str = "2 images: 2 ok
1 set, 1 file: 1 complete
1 section with several good copies that agree
All files are complete, and every image was read to its end.

one.tap                   ok           volume ABC001, 1 section
two.tap                   ok           volume ABC001, 1 section
Set ABC001: 1 of 1 files complete
  Volumes: ABC001
   1 PAYROLL                        complete
ABC001 file 1 section 1: good, 2 copies agree
";

const DISPUTED: &str = "In conflict: find out which is right ('tape compare', 'tape list')
  ABC001 file 1 section 1: good copies on one.tap and two.tap differ

2 images: 0 ok, 2 in conflict
1 set, 1 file: 0 complete, 1 in conflict

one.tap                   in conflict  volume ABC001, 1 section
    section 1 of file 1: good copies differ
two.tap                   in conflict  volume ABC001, 1 section
    section 1 of file 1: good copies differ
Set ABC001: 0 of 1 files complete
  Volumes: ABC001
   1 PAYROLL                        in conflict
";

const ROWS_OF_THREE: &str =
    "IMAGE\t1.tap\tCONFLICT\tABC001\tABC001\t\t12\t1\t0\tMARKED\t\tvolume ABC001, \
         1 section; section 1 of file 1: good copies differ
IMAGE\t2.tap\tCONFLICT\tABC001\tABC001\t\t12\t1\t0\tMARKED\t\tvolume ABC001, \
         1 section; section 1 of file 1: good copies differ
IMAGE\t3.tap\tCONFLICT\tABC001\tABC001\t\t12\t1\t0\tMARKED\t\tvolume ABC001, \
         1 section; section 1 of file 1: good copies differ
SECTION\tABC001\t1\t1\tABC001\t3\tGOOD\tEOF
FILE\tABC001\t1\tPAYROLL\t\tCOMPLETE\t\t\tCONFLICT\t\tF\t800\t80
COPIES\tABC001\t1\t1\t2\t1.tap\t2.tap\tCONFLICT
";

const ENDS_DIFFER: &str =
    "IMAGE\t1.tap\tCONFLICT\tABC001\tABC001\t\t12\t1\t0\tMARKED\t\tvolume ABC001, \
         1 section; section 1 of file 1: good copies differ
IMAGE\t2.tap\tCONFLICT\tABC001\tABC001\t\t12\t1\t0\tMARKED\t\tvolume ABC001, \
         1 section; section 1 of file 1: good copies differ
IMAGE\t3.tap\tCONFLICT\tABC001\tABC001\t\t12\t1\t0\tMARKED\t\tvolume ABC001, \
         1 section; section 1 of file 1: good copies differ
SECTION\tABC001\t1\t1\tABC001\t3\tGOOD\tEOF
FILE\tABC001\t1\tPAYROLL\t\tCOMPLETE\t\t\tCONFLICT\t\tF\t800\t80
COPIES\tABC001\t1\t1\t2\t1.tap\t3.tap\tCONFLICT
";

/// Returns the example volume with another byte in its first block.
fn changed(alloc: Global) -> Result<Image, AllocError> {
    let mut image = payroll(alloc)?;
    for (place, byte) in image.bytes.as_mut_slice().iter_mut().enumerate() {
        if place == 300 {
            *byte = b'?';
        }
    }
    Ok(image)
}

#[test]
fn copies(rt: HostRuntime) -> Result<(), Fail> {
    let alloc = rt.alloc();
    let (whole, changed) = (payroll(alloc)?, changed(alloc)?);
    let shorter = one_section(alloc, HDR1, EOF_ONE)?;
    let [whole, changed, shorter] = [&whole, &changed, &shorter].map(|image| Some(
        image.bytes.as_slice(),
    ));
    let names = ["one.tap", "two.tap"];
    survey(&rt, &[whole, whole], &names, true, AGREED)?;
    survey(&rt, &[whole, changed], &names, false, DISPUTED)?;
    survey(&rt, &[shorter, whole], &names, false, DISPUTED)?;
    let names = ["1.tap", "2.tap", "3.tap"];
    told(
        &rt,
        &[whole, changed, whole],
        &names,
        Wording::Rows,
        false,
        ROWS_OF_THREE,
    )
}

/// Copies with the same blocks are in conflict if the file ends with one of them and continues after
/// the other, in either order and whatever other images there are.
#[test]
fn copies_that_end_otherwise(rt: HostRuntime) -> Result<(), Fail> {
    let alloc = rt.alloc();
    let (whole, first, second) = (payroll(alloc)?, first_of_two(alloc)?, second_of_two(alloc)?);
    let [whole, first, second] = [&whole, &first, &second].map(|image| Some(
        image.bytes.as_slice(),
    ));
    survey(
        &rt,
        &[whole, first],
        &["one.tap", "two.tap"],
        false,
        DISPUTED,
    )?;
    told(
        &rt,
        &[whole, whole, first],
        &["1.tap", "2.tap", "3.tap"],
        Wording::Rows,
        false,
        ENDS_DIFFER,
    )?;
    for images in [
        [whole, first, second],
        [first, whole, second],
        [second, first, whole],
    ] {
        let mut shelf = Vec::from_slice(alloc, &images)?;
        let mut report = Vec::new(alloc);
        let names = ["1.tap", "2.tap", "3.tap"];
        let all = survey_to(alloc, &mut shelf, &names, Wording::Words, &mut report)?;
        assert!(rt; !all);
    }
    Ok(())
}

/// A whole volume, and a second section of its only file.
const BEYOND: &str = "Suspect: look at it with 'tape list'
  ABC001 file 1 PAYROLL: section 2 is good on ABC002, after the file's end (2.tap)

2 images: 2 ok
1 set, 1 file: 1 complete

1.tap                     ok           volume ABC001, 1 section
2.tap                     ok           volume ABC002, 1 section
Set ABC001: 1 of 1 files complete
  Volumes: ABC001
   1 PAYROLL                        complete
";

#[test]
fn a_section_behind_the_end_of_its_file(rt: HostRuntime) -> Result<(), Fail> {
    let whole = payroll(rt.alloc())?;
    let second = second_of_two(rt.alloc())?;
    survey(
        &rt,
        &[Some(whole.bytes.as_slice()), Some(second.bytes.as_slice())],
        &["1.tap", "2.tap"],
        false,
        BEYOND,
    )
}
