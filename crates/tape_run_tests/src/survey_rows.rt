//! Surveys of images in rows.
use crate::image::{five_blocks, payroll};
use crate::survey::told;
use crate::volumes::{EOF_FOUR, cut};
use std::test::Fail;
use tape_run::Wording;

const ROWS: &str =
    "IMAGE\t1\\u0009.tap\tWHOLE\tABC001\tABC001\t\t12\t1\t0\tMARKED\t\tvolume ABC001, \
         1 section
IMAGE\tcut.tap\tPARTIAL\tABC001\tABC001\t\t6\t1\t0\tFAULT 1 1884\t\tvolume ABC001, 1 section; \
         image fault 1 at byte 1884; section 1 of file 1 is truncated, blocks found: 2
IMAGE\tlost.tap\tNOT OPENED\t\t\t\t\t\t\t\t\tnot opened
SECTION\tABC001\t1\t1\tABC001\t3\tGOOD\tEOF
FILE\tABC001\t1\tPAYROLL\t\tCOMPLETE\t\t\t\t\tF\t800\t80
";

#[test]
fn rows(rt: HostRuntime) -> Result<(), Fail> {
    let alloc = rt.alloc();
    let (whole, cut) = (payroll(alloc)?, cut(alloc, 2000)?);
    let images = [
        Some(whole.bytes.as_slice()),
        Some(cut.bytes.as_slice()),
        None,
    ];
    let names = ["1\t.tap", "cut.tap", "lost.tap"];
    told(&rt, &images, &names, Wording::Rows, false, ROWS)
}

const ROWS_OF_COUNT: &str = "IMAGE\tone.tap\tPARTIAL\tABC001\tABC001\t\t14\t1\t1\tMARKED\t\tvolume \
         ABC001, 1 section; 1 unreadable block; section 1 of file 1 has a wrong block \
         count, blocks found: 5
SECTION\tABC001\t1\t1\tABC001\t5\tCOUNT\tEOF
FILE\tABC001\t1\tPAYROLL\t\tCOUNT\t1\tABC001\t\t1:COUNT;\tF\t800\t80
";

#[test]
fn rows_of_a_wrong_count(rt: HostRuntime) -> Result<(), Fail> {
    let counted = five_blocks(rt.alloc(), 3, EOF_FOUR)?;
    told(
        &rt,
        &[Some(counted.bytes.as_slice())],
        &["one.tap"],
        Wording::Rows,
        false,
        ROWS_OF_COUNT,
    )
}
