//! Tests of images that are compared with the data of a session.
use crate::image::{payroll, set_id};
use crate::rounds::Kept;
use crate::taken_back::{lost, volume};
use crate::volumes::cut;
use std::alloc::Global;
use std::process::Abort;
use std::test::Fail;
use tape_core::MemorySink;
use tape_run::{RunFault, Session};

/// The offset of the data in the images: after three labels of 88 bytes and a mark.
const DATA: u64 = 268;

/// Reads `first` by a session for the example file, and returns the offset at which `image` then
/// has other data than the session.
fn found(alloc: Global, first: &[u8], image: &[u8]) -> Result<Option<u64>, RunFault> {
    let sink = MemorySink::new(alloc);
    let Ok(mut session) = Session::new(alloc, set_id(), 1, sink) else {
        return Err(RunFault::OtherFile);
    };
    let mut first = first;
    session.reel(&mut first)?;
    let mut images = Kept { reels: &[image] };
    session.seam(&mut images, 0)
}

/// Fails unless this is found of the images.
fn finds<H: Abort + AllocGlobal>(
    rt: &H,
    first: &[u8],
    image: &[u8],
    differs: bool,
) -> Result<(), Fail> {
    let found = found(rt.alloc(), first, image)?;
    assert!(rt; found == if differs { Some(DATA) } else { None });
    Ok(())
}

/// A copy that lost its second block and cannot be read after the third; copies of the volume that
/// have all blocks, one of them with its first, and one with its second block unreadable.
#[test]
fn other_data_are_found(rt: HostRuntime) -> Result<(), Fail> {
    let alloc = rt.alloc();
    let skipped = volume(alloc, &[(0, 10, true), (20, 25, true), (10, 20, false)])?;
    let skipped = skipped.bytes.as_slice();
    let no_first = volume(alloc, &[(0, 10, false), (10, 20, true), (20, 25, true)])?;
    let no_second = volume(alloc, &[(0, 10, true), (10, 20, false), (20, 25, true)])?;
    let (whole, begun) = (payroll(alloc)?, cut(alloc, 1076)?);
    let (whole, begun) = (whole.bytes.as_slice(), begun.bytes.as_slice());
    finds(&rt, skipped, whole, true)?;
    finds(&rt, skipped, no_first.bytes.as_slice(), true)?;
    // What stands in the place of an unreadable block is not known.
    finds(&rt, skipped, no_second.bytes.as_slice(), false)?;
    finds(&rt, skipped, skipped, false)?;
    finds(&rt, begun, whole, false)?;
    finds(&rt, begun, no_first.bytes.as_slice(), false)?;
    finds(&rt, begun, lost(alloc)?.bytes.as_slice(), false)?;
    // The session has nothing yet, or all of the file; or the image ends before its data.
    finds(&rt, no_first.bytes.as_slice(), whole, false)?;
    finds(&rt, whole, skipped, false)?;
    let front = cut(alloc, 400)?;
    finds(&rt, begun, front.bytes.as_slice(), false)
}

/// Blocks before an unreadable one are compared with the first ones of the session, and those after
/// it with its last ones.
#[test]
fn other_data_before_an_unreadable_block(rt: HostRuntime) -> Result<(), Fail> {
    let alloc = rt.alloc();
    let four = [
        (0, 10, true),
        (10, 20, true),
        (20, 25, true),
        (25, 30, false),
    ];
    let first = volume(alloc, &four)?;
    let first = first.bytes.as_slice();
    // The same blocks, the second of them unreadable; another first block; another third block.
    let rows = [
        ([(0, 10, true), (10, 20, false), (20, 25, true)], false),
        ([(5, 15, true), (10, 20, false), (20, 25, true)], true),
        ([(0, 10, true), (10, 20, false), (25, 30, true)], true),
    ];
    for ([one, two, three], differs) in rows {
        let image = volume(alloc, &[one, two, three, (25, 30, true)])?;
        finds(&rt, first, image.bytes.as_slice(), differs)?;
    }
    // The last block that the session has is unreadable; the block before it is, or is not, another.
    let begun = cut(alloc, 1884)?;
    let begun = begun.bytes.as_slice();
    for (from, differs) in [(0, false), (10, true)] {
        let image = volume(
            alloc,
            &[(from, from + 10, true), (10, 20, false), (20, 25, true)],
        )?;
        finds(&rt, begun, image.bytes.as_slice(), differs)?;
    }
    Ok(())
}
