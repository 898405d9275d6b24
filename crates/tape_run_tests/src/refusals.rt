//! Tests of sinks that refuse a call.
use crate::image::{
    HDR1, Image, VOL1, front, holds_long, holds_records, long_first, long_second, payroll, set_id,
};
use std::alloc::{AllocError, Global};
use std::test::Fail;
use tape_core::{CoreFault, MemorySink, PartSink, Refusing, SinkFault};
use tape_run::{RunFault, Session, Step, Stopped, run};
use tape_set::Want;

/// Returns a session over an in-memory sink that refuses call `call`, counted from 0.
fn refusing(alloc: Global, call: usize) -> Result<Session<Refusing<MemorySink>>, CoreFault> {
    let sink = Refusing::new(MemorySink::new(alloc), call);
    Session::new(alloc, set_id(), 1, sink)
}

/// Returns part `part` of block `block` of section 1 of file 1.
fn part_of(block: u32, part: u32) -> Option<Want> {
    Some(Want {
        file: 1,
        sect: 1,
        block,
        part,
    })
}

/// The fault if the device of the sink failed.
const FAILED: RunFault = RunFault::Sink(SinkFault::Device);

/// Returns the result if the device of the sink failed in step `step`, counted from 0.
fn failed_at(step: usize) -> Result<(), Stopped> {
    Err(Stopped {
        step,
        fault: FAILED,
    })
}

const ONE: &[Step] = &[Step::Reel];

/// Returns whether the sink contains `count` of the example records, and the session expects `want`
/// next.
fn has(session: &Session<Refusing<MemorySink>>, count: u8, want: Option<Want>) -> bool {
    session.want() == want && holds_records(session.sink().inner(), count)
}

/// Returns whether the reel stops when part `refused` is refused, and completes the file when it is
/// read again.
fn completes(alloc: Global, whole: &[u8], refused: u8) -> Result<bool, Fail> {
    let mut session = refusing(alloc, refused as usize)?;
    let failed = run(&mut session, ONE, &mut [whole], &mut []) == failed_at(0);
    // A block contains ten records.
    let place = part_of((refused / 10) as u32, (refused % 10) as u32);
    let stopped = failed && has(&session, refused, place);
    run(&mut session, ONE, &mut [whole], &mut [])?;
    Ok(stopped && has(&session, 25, None))
}

#[test]
fn each_put_refused_in_turn(rt: HostRuntime) -> Result<(), Fail> {
    let image = payroll(rt.alloc())?;
    for refused in 0..25u8 {
        assert!(rt;
            completes(rt.alloc(), image.bytes.as_slice(), refused)?,
            "{refused}"
        );
    }
    Ok(())
}

/// Does what `completes` does for both volumes of the long record, the first of which has 22 parts.
fn completes_long(alloc: Global, volumes: [&[u8]; 2], refused: usize) -> Result<bool, Fail> {
    let mut session = refusing(alloc, refused)?;
    let steps = [Step::Reel, Step::Reel];
    let failed = run(&mut session, &steps, &mut { volumes }, &mut []) == failed_at(refused / 22);
    let stopped = failed && holds_long(session.sink().inner(), refused);
    run(&mut session, &steps, &mut { volumes }, &mut [])?;
    Ok(stopped && session.want().is_none() && holds_long(session.sink().inner(), 23))
}

#[test]
fn each_put_of_a_long_record_refused_in_turn(rt: HostRuntime) -> Result<(), Fail> {
    let first = long_first(rt.alloc())?;
    let second = long_second(rt.alloc())?;
    let volumes = [first.bytes.as_slice(), second.bytes.as_slice()];
    for refused in 0..23usize {
        assert!(rt; completes_long(rt.alloc(), volumes, refused)?, "{refused}");
    }
    Ok(())
}

/// Two readings of the example volume, of which the first is truncated, with a checkpoint before
/// each, and a third reading after a rollback.
const SCRIPT: &[Step] = &[
    Step::Save,
    Step::Reel,
    Step::Save,
    Step::Reel,
    Step::Restart(0),
    Step::Reel,
];

/// The number of calls to the sink in the script: 1 for each save and the rollback, and 20, 5 and
/// again 25 for parts.
const CALLS: usize = 53;

/// Returns how the script ends if call `call` is refused: in the step that makes it. A refused
/// rollback returns `Failed`.
fn end_at(call: usize) -> Result<(), Stopped> {
    match call {
        0 => failed_at(0),
        1..=20 => failed_at(1),
        21 => failed_at(2),
        22..=26 => failed_at(3),
        27 => Err(Stopped {
            step: 4,
            fault: RunFault::Sink(SinkFault::Failed),
        }),
        28..=52 => failed_at(5),
        _ => Ok(()),
    }
}

/// Returns whether the script stops in the step of the refused call, and one more reel completes
/// the file, with each part stored once. If no call is refused, the script completes the file.
fn completes_script(alloc: Global, whole: &[u8], refused: usize) -> Result<bool, Fail> {
    let mut session = refusing(alloc, refused)?;
    let mut reels = [front(whole, 1884), whole, whole];
    let stopped = run(&mut session, SCRIPT, &mut reels, &mut []) == end_at(refused);
    if refused < CALLS {
        run(&mut session, ONE, &mut [whole], &mut [])?;
    }
    Ok(stopped && has(&session, 25, None))
}

#[test]
fn each_call_of_a_script_refused_in_turn(rt: HostRuntime) -> Result<(), Fail> {
    let image = payroll(rt.alloc())?;
    for refused in 0..=CALLS {
        assert!(rt;
            completes_script(rt.alloc(), image.bytes.as_slice(), refused)?,
            "{refused}"
        );
    }
    Ok(())
}

/// Saves, and discards the checkpoint.
fn save(session: &mut Session<Refusing<MemorySink>>) -> Result<(), RunFault> {
    session.save()?;
    Ok(())
}

/// Returns whether a save is refused, so that there is no checkpoint to return to, and nothing
/// changed.
fn is_refused(session: &mut Session<Refusing<MemorySink>>) -> bool {
    save(session) == Err(FAILED)
        && session.restart(0) == Err(RunFault::NoSuchPoint)
        && has(session, 20, part_of(2, 0))
}

/// Returns whether a refused save, a successful save, and a rollback to the saved checkpoint leave
/// the session's position unchanged.
fn stands_still(alloc: Global, whole: &[u8]) -> Result<bool, Fail> {
    let mut session = refusing(alloc, 20)?;
    run(&mut session, ONE, &mut [front(whole, 1884)], &mut [])?;
    // The save makes the 21st call.
    let refused = is_refused(&mut session);
    save(&mut session)?;
    session.restart(0)?;
    Ok(refused && has(&session, 20, part_of(2, 0)))
}

#[test]
fn refused_saves_and_restarts_leave_the_session(rt: HostRuntime) -> Result<(), Fail> {
    let image = payroll(rt.alloc())?;
    assert!(rt; stands_still(rt.alloc(), image.bytes.as_slice())?);
    Ok(())
}

/// Returns a volume of format D with the record `AB` and an empty one in one block.
fn two_records(alloc: Global) -> Result<Image, AllocError> {
    let mut image = Image::new(alloc);
    image.headers(&[
        VOL1,
        HDR1,
        "HDR2D0001800014                                   00",
    ])?;
    image.block(b"0006AB0004^^^^^^^^")?;
    image.trailers(&["EOF1PAYROLL          ABC00100010001000100 00000 00000 000001"])?;
    image.end()?;
    Ok(image)
}

/// Returns whether the session expects `want`, and the sink contains `parts` parts of weight
/// `weight`.
fn weighs(
    session: &Session<Refusing<MemorySink>>,
    want: Option<Want>,
    parts: usize,
    weight: u64,
) -> bool {
    let sink = session.sink();
    (session.want(), sink.inner().count(), sink.weight()) == (want, parts, weight)
}

/// Returns whether a second part that was refused is stored when the reel is read again, and the
/// first part is not stored again.
fn goes_on_inside(alloc: Global, whole: &[u8]) -> Result<bool, Fail> {
    let mut session = refusing(alloc, 1)?;
    let failed = run(&mut session, ONE, &mut [whole], &mut []) == failed_at(0);
    let stopped = failed && weighs(&session, part_of(0, 1), 1, 7);
    run(&mut session, ONE, &mut [whole], &mut [])?;
    Ok(stopped && weighs(&session, None, 2, 12))
}

#[test]
fn the_second_part_of_a_block(rt: HostRuntime) -> Result<(), Fail> {
    let image = two_records(rt.alloc())?;
    assert!(rt; goes_on_inside(rt.alloc(), image.bytes.as_slice())?);
    Ok(())
}
