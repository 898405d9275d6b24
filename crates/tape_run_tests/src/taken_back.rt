//! Tests of reels whose trailer labels have another count, read by sessions that have a checkpoint
//! and roll back to it.
use crate::extract::shelf_of;
use crate::image::{EOF_THREE, HDR1, HDR2, Image, VOL1, payroll, set_id};
use crate::volumes::{cut, records};
use std::alloc::{AllocError, Global};
use std::process::Abort;
use std::test::Fail;
use tape_blocks::Form;
use tape_core::MemorySink;
use tape_run::{Session, extract_to};
use tape_set::Want;

/// Returns a volume with the labels of the example volume around `blocks`: each with the numbers of
/// its records, and whether it can be read.
pub fn volume(alloc: Global, blocks: &[(u8, u8, bool)]) -> Result<Image, AllocError> {
    let mut image = Image::new(alloc);
    image.headers(&[VOL1, HDR1, HDR2])?;
    for (from, to, good) in blocks {
        image.records(*from, *to, *good)?;
    }
    image.trailers(&[EOF_THREE])?;
    image.end()?;
    Ok(image)
}

/// Fails unless a session for the example file, with a checkpoint at its start, reads `images` and
/// yields the report `lines`, the missing part `want` and the bytes `written`.
fn gives<H: Abort + AllocGlobal>(
    rt: &H,
    images: &mut [Option<&[u8]>],
    lines: &str,
    want: Option<Want>,
    written: &[u8],
) -> Result<(), Fail> {
    let (mut report, mut out) = (Vec::new(rt.alloc()), Vec::new(rt.alloc()));
    let mut session = Session::new(rt.alloc(), set_id(), 1, MemorySink::new(rt.alloc()))?;
    session.note()?;
    let mut shelf = shelf_of(rt.alloc(), images)?;
    let answer = extract_to(&mut session, &mut shelf, Form::Lines, &mut out, &mut report)?;
    assert_eq!(rt; report.as_slice(), lines.as_bytes(), "{lines}");
    assert!(rt; answer == want, "{lines}");
    assert!(rt; out.as_slice() == written, "{lines}");
    Ok(())
}

/// Returns the missing part at the start of block `block` of section 1 of the example file.
fn from_block(block: u32) -> Option<Want> {
    Some(Want {
        file: 1,
        sect: 1,
        block,
        part: 0,
    })
}

/// Returns a volume whose second block was lost, as its trailer label shows.
pub fn lost(alloc: Global) -> Result<Image, AllocError> {
    volume(alloc, &[(0, 10, true), (20, 25, true)])
}

#[test]
fn what_a_reel_gave_that_lost_a_block(rt: HostRuntime) -> Result<(), Fail> {
    let all = records(rt.alloc(), b"\n")?;
    let (lost, whole) = (lost(rt.alloc())?, payroll(rt.alloc())?);
    let (lost, whole) = (lost.bytes.as_slice(), whole.bytes.as_slice());
    let lines = "REEL 1 BLOCK COUNT 3 2\nREEL 2 COMPLETE\nCOMPLETE 25\n";
    gives(
        &rt,
        &mut [Some(lost), Some(whole)],
        lines,
        None,
        all.as_slice(),
    )?;
    let lines = "REEL 1 BLOCK COUNT 3 2\nREEL 2 BLOCK COUNT 3 2\nAWAITS 1 1 0\n";
    gives(
        &rt,
        &mut [Some(lost), Some(lost)],
        lines,
        from_block(0),
        b"",
    )
}

/// After a reel with a wrong count, the data of the reels before it remain, but none of the reel's
/// own data: the last reel has no first block.
#[test]
fn what_stood_before_such_a_reel(rt: HostRuntime) -> Result<(), Fail> {
    let all = records(rt.alloc(), b"\n")?;
    let (begun, lost) = (cut(rt.alloc(), 1076)?, lost(rt.alloc())?);
    let rest = volume(
        rt.alloc(),
        &[(0, 10, false), (10, 20, true), (20, 25, true)],
    )?;
    let (begun, lost) = (begun.bytes.as_slice(), lost.bytes.as_slice());
    let lines = "REEL 1 REEL ENDED\nREEL 2 BLOCK COUNT 3 2\nAWAITS 1 1 1\n";
    gives(
        &rt,
        &mut [Some(begun), Some(lost)],
        lines,
        from_block(1),
        b"",
    )?;
    let images = &mut [Some(begun), Some(lost), Some(rest.bytes.as_slice())];
    let lines = "REEL 1 REEL ENDED\nREEL 2 BLOCK COUNT 3 2\nREEL 3 COMPLETE\nCOMPLETE 25\n";
    gives(&rt, images, lines, None, all.as_slice())
}
