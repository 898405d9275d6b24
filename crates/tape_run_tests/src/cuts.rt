//! Tests of one volume, truncated at each length.
use crate::devices::Dribble;
use crate::image::{front, holds_long, long_first};
use crate::readers::Failing;
use crate::sessions::{begun, wanted};
use std::alloc::Global;
use std::io::ErrorKind;
use std::test::Fail;
use tape_core::MemorySink;
use tape_run::{Session, Step, run};
use tape_set::Want;

/// Returns the number of blocks that end at offset `cut` or before it.
fn blocks_before(cut: usize) -> u16 {
    match cut {
        0..268 => 0,
        268..840 => ((cut - 268) / 26) as u16,
        _ => 22,
    }
}

/// Returns the part that is expected after the first `cut` bytes of the volume: the next block or,
/// once the trailer label that ends at 932 was read, the next section.
fn awaited(cut: usize) -> Option<Want> {
    if cut >= 932 {
        return wanted(2, 0);
    }
    wanted(1, blocks_before(cut) as u32)
}

/// Returns whether a session that read the volume up to `cut` has the expected position, and
/// `failed` of its readers failed.
fn stands_behind(session: &Session<MemorySink>, cut: usize, failed: u64) -> bool {
    session.want() == awaited(cut)
        && session.device_faults() == failed
        && holds_long(session.sink(), blocks_before(cut) as usize)
}

/// Returns whether a session has the expected position if the bytes end at `cut`.
fn ends_at(alloc: Global, whole: &[u8], cut: usize) -> Result<bool, Fail> {
    let mut session = begun(alloc, 1)?;
    run(
        &mut session,
        &[Step::Reel],
        &mut [front(whole, cut)],
        &mut [],
    )?;
    Ok(stands_behind(&session, cut, 0))
}

/// Returns whether a session has the expected position if the reader fails at `cut`. After the
/// trailer label nothing is requested from the reader.
fn fails_at(alloc: Global, whole: &[u8], cut: usize) -> Result<bool, Fail> {
    let mut session = begun(alloc, 1)?;
    let mut failed = [false];
    run(
        &mut session,
        &[Step::Reel],
        &mut [Failing(front(whole, cut))],
        &mut failed,
    )?;
    let count = if cut < 932 { 1 } else { 0 };
    Ok(stands_behind(&session, cut, count) && failed == [cut < 932])
}

#[test]
fn at_each_length(rt: HostRuntime) -> Result<(), Fail> {
    let image = long_first(rt.alloc())?;
    let whole = image.bytes.as_slice();
    for cut in 0..1033usize {
        assert!(rt; ends_at(rt.alloc(), whole, cut)?, "{cut}");
        assert!(rt;
            fails_at(rt.alloc(), whole, cut)?,
            "{cut}, and a reader that fails"
        );
    }
    Ok(())
}

/// Returns a reader of the first `left` bytes of `whole`, or of all if there are fewer, which then
/// fails.
fn failing_behind(whole: &[u8], left: usize) -> Dribble<'_> {
    Dribble {
        bytes: whole,
        left,
        kind: ErrorKind::Other,
    }
}

/// Reports in `failed` which of three readers failed: the first ends inside a block, the last
/// inside the labels.
fn tell_three(alloc: Global, whole: &[u8], failed: &mut [bool]) -> Result<(), Fail> {
    let mut session = begun(alloc, 1)?;
    let mut reels = [
        failing_behind(whole, 500),
        failing_behind(whole, 2000),
        failing_behind(whole, 100),
    ];
    run(&mut session, &[Step::Reel; 3], &mut reels, failed)?;
    Ok(())
}

#[test]
fn the_readers_that_failed(rt: HostRuntime) -> Result<(), Fail> {
    let image = long_first(rt.alloc())?;
    let whole = image.bytes.as_slice();
    // The slice is filled as far as it reaches.
    let mut two = [false; 2];
    tell_three(rt.alloc(), whole, &mut two)?;
    assert!(rt; two == [true, false]);
    let mut four = [true; 4];
    tell_three(rt.alloc(), whole, &mut four)?;
    assert!(rt; four == [true, false, true, true]);
    Ok(())
}
