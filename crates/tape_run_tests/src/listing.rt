//! Tests of whole listings.
use crate::devices::{Dribble, Tail, Zeros};
use crate::image::{GAP, Image, payroll, payroll_with_gaps};
use std::alloc::{AllocError, Global};
use std::io::{ErrorKind, Read, Write};
use std::process::Abort;
use std::test::Fail;
use tape_run::list_to;

/// The thirteen lines of the example image.
pub const WORKED: &str = "000001 VOL1 ABC001
000002 HDR1 PAYROLL           ABC001 0001 0001
000003 HDR2 F 00800 00080 00
000004 MARK
000005 BLOCK 00800
000006 BLOCK 00800
000007 BLOCK 00400
000008 MARK
000009 EOF1 PAYROLL           ABC001 0001 0001 000003
000010 EOF2 F 00800 00080 00
000011 MARK
000012 MARK
END MARKED
";

/// Fails unless listing `reader` succeeds with the lines `lines`.
fn check<H: Abort + AllocGlobal, R: Read>(rt: &H, reader: &mut R, lines: &str) -> Result<(), Fail> {
    let mut out = Vec::new(rt.alloc());
    list_to(rt.alloc(), reader, &mut out)?;
    assert!(rt; out.as_slice() == lines.as_bytes(), "{lines}");
    Ok(())
}

#[test]
fn worked_image(rt: HostRuntime) -> Result<(), Fail> {
    let image = payroll(rt.alloc())?;
    assert_eq!(rt; image.bytes.len(), 2484);
    check(&rt, &mut image.bytes.as_slice(), WORKED)
}

#[test]
fn gaps_are_no_items(rt: HostRuntime) -> Result<(), Fail> {
    let image = payroll_with_gaps(rt.alloc())?;
    check(&rt, &mut image.bytes.as_slice(), WORKED)
}

#[test]
fn one_byte_a_call(rt: HostRuntime) -> Result<(), Fail> {
    let image = payroll(rt.alloc())?;
    let mut reader = Dribble {
        bytes: image.bytes.as_slice(),
        left: 2484,
        kind: ErrorKind::Other,
    };
    check(&rt, &mut reader, WORKED)
}

/// Images of at most one word, and their listings.
const LITTLE: &[(&[u8], &str)] = &[
    (&[], "END PHYSICAL\n"),
    (&[0xFF; 4], "END MARKED\n"),
    (&[0; 4], "000001 MARK\nEND PHYSICAL\n"),
    (&GAP, "END PHYSICAL\n"),
];

#[test]
fn nothing_and_little(rt: HostRuntime) -> Result<(), Fail> {
    for (image, lines) in LITTLE {
        let mut reader: &[u8] = image;
        check(&rt, &mut reader, lines)?;
    }
    Ok(())
}

#[test]
fn behind_the_end(rt: HostRuntime) -> Result<(), Fail> {
    let mut image = payroll(rt.alloc())?;
    image.bytes.extend_from_slice(b"any bytes")?;
    let mut reader = image.bytes.as_slice();
    check(&rt, &mut reader, WORKED)?;
    assert!(rt; reader == b"any bytes".as_slice());
    Ok(())
}

#[test]
fn items_behind_the_second_mark(rt: HostRuntime) -> Result<(), Fail> {
    let mut image = Image::new(rt.alloc());
    image.mark()?;
    image.mark()?;
    image.block(b"lost")?;
    let lines = "000001 MARK\n000002 MARK\n000003 BLOCK 00004\nEND PHYSICAL\n";
    check(&rt, &mut image.bytes.as_slice(), lines)
}

/// Appends a block of `length` bytes `x`.
fn long_block(alloc: Global, image: &mut Image, length: usize) -> Result<(), AllocError> {
    let content = Vec::from_elem(alloc, b'x', length)?;
    image.block(content.as_slice())
}

#[test]
fn long_and_bad_blocks(rt: HostRuntime) -> Result<(), Fail> {
    let mut image = Image::new(rt.alloc());
    long_block(rt.alloc(), &mut image, 99_999)?;
    assert!(rt; image.bytes.len() == 100_008);
    long_block(rt.alloc(), &mut image, 100_000)?;
    image.bad(b"spoilt")?;
    let lines = "000001 BLOCK 99999\n000002 BAD\n000003 BAD\nEND PHYSICAL\n";
    check(&rt, &mut image.bytes.as_slice(), lines)
}

#[test]
fn a_million_items(rt: HostRuntime) -> Result<(), Fail> {
    for (marks, line) in [(999_999, "999999 MARK\n"), (1_000_000, "1000000 MARK\n")] {
        let mut marks = Zeros { left: 4 * marks };
        let mut out = Tail::new(rt.alloc());
        list_to(rt.alloc(), &mut marks, &mut out)?;
        assert!(rt; out.line.as_slice() == line.as_bytes(), "{line}");
        assert!(rt;
            out.end.as_slice() == b"END PHYSICAL\n".as_slice(),
            "{line}"
        );
    }
    Ok(())
}
