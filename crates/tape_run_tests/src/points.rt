//! Tests of checkpoints, rollbacks and resumed sessions.
use crate::image::{front, holds_long, long_first, long_second, set_id};
use crate::scripts::{Do, Reel, Script, each_goes};
use crate::sessions::begun;
use std::alloc::Global;
use std::test::Fail;
use tape_core::{Checkpoint, CoreFault, MemorySink, PartSink};
use tape_run::{RunFault, Step, Stopped, read_file, resume_and_run, run};
use tape_set::Position;

const TWO: &[Step] = &[Step::Reel, Step::Reel];

/// The result if step 1 rolls back to a checkpoint that was dropped.
const NO_NOTE: Stopped = Stopped {
    step: 1,
    fault: RunFault::NoSuchPoint,
};

/// The result if a third reel is requested in step 2, and there are two readers.
const NO_THIRD_REEL: Stopped = Stopped {
    step: 2,
    fault: RunFault::TooFewReels,
};

/// The result if a second reel is requested in step 1, and there is one reader.
const NO_SECOND_REEL: Stopped = Stopped {
    step: 1,
    fault: RunFault::TooFewReels,
};

const SCRIPTS: &[Script<'_>] = &[
    // Checkpoint 0 is after two blocks; checkpoint 1 is dropped with it.
    (
        "back to a note and on",
        1,
        &[
            Do::Runs(
                &[Step::Reel, Step::Save, Step::Reel],
                &[Reel::Cut(1884), Reel::Worked],
                Ok(()),
            ),
            Do::Saves(Position::Finished, 25 * 85),
            Do::Holds(25, None),
            Do::Runs(&[Step::Restart(0)], &[], Ok(())),
            Do::Holds(20, Some((1, 2))),
            Do::Runs(&[Step::Reel], &[Reel::Worked], Ok(())),
            Do::Holds(25, None),
            Do::Runs(&[Step::Restart(0), Step::Restart(1)], &[], Err(NO_NOTE)),
            Do::Holds(20, Some((1, 2))),
            Do::Runs(&[Step::Reel], &[Reel::Worked], Ok(())),
            Do::Holds(25, None),
        ],
    ),
    // A reel is requested even if the file is complete.
    (
        "no note and no reel",
        1,
        &[
            Do::Runs(
                &[Step::Reel, Step::Reel, Step::Reel],
                &[Reel::Cut(1884), Reel::Worked],
                Err(NO_THIRD_REEL),
            ),
            Do::Holds(25, None),
            Do::Restarts(0, Err(RunFault::NoSuchPoint)),
            Do::Holds(25, None),
        ],
    ),
];

#[test]
fn notes_and_restarts(rt: HostRuntime) -> Result<(), Fail> {
    each_goes(&rt, SCRIPTS)
}

/// Reads `bytes` of the reel, and returns a checkpoint of the position, with the sink.
fn stopped(alloc: Global, bytes: &[u8]) -> Result<(Checkpoint, MemorySink), Fail> {
    let mut session = begun(alloc, 1)?;
    run(&mut session, &[Step::Reel], &mut [bytes], &mut [])?;
    let point = session.save()?;
    Ok((point, session.into_sink()))
}

/// The position of a session that read 500 bytes of the long record's first volume.
const STOPPED: Position = Position::Awaits {
    sect: 1,
    block: 8,
    part: 0,
};

/// Returns whether a session that was stopped at `STOPPED` continues to the end of both volumes.
fn goes_on(alloc: Global, first: &[u8], second: &[u8]) -> Result<bool, Fail> {
    let (point, sink) = stopped(alloc, front(first, 500))?;
    let stood = (point.position, point.begun, point.staged) == (STOPPED, true, 8 * 18);
    let (resumed, result) = resume_and_run(alloc, &point, sink, TWO, &mut [first, second]);
    let weight = resumed.sink().weight();
    let done = result == Ok(()) && resumed.want().is_none();
    Ok(stood && done && weight == 23 * 5 + 290 && holds_long(resumed.sink(), 23))
}

#[test]
fn a_resumed_session_goes_on(rt: HostRuntime) -> Result<(), Fail> {
    let first = long_first(rt.alloc())?;
    let second = long_second(rt.alloc())?;
    assert!(rt; goes_on(rt.alloc(), first.bytes.as_slice(), second.bytes.as_slice())?);
    Ok(())
}

/// Returns whether the complete file is read from both volumes.
fn is_whole(alloc: Global, first: &[u8], second: &[u8]) -> Result<bool, CoreFault> {
    let (session, made) = read_file(alloc, set_id(), 1, TWO, &mut [first, second])?;
    Ok(made == Ok(()) && session.want().is_none() && holds_long(session.sink(), 23))
}

/// Returns whether the error is a missing second reel, and something of the file is missing.
fn lacks_a_reel(alloc: Global, first: &[u8]) -> Result<bool, CoreFault> {
    let (session, made) = read_file(alloc, set_id(), 1, TWO, &mut [first])?;
    Ok(made == Err(NO_SECOND_REEL) && session.want().is_some())
}

/// Returns whether file `number` is refused.
fn is_no_file(alloc: Global, number: u16, first: &[u8]) -> bool {
    match read_file(alloc, set_id(), number, TWO, &mut [first]) {
        Ok(_) => false,
        Err(fault) => fault == CoreFault::FileNumber,
    }
}

#[test]
fn a_file_in_one_call(rt: HostRuntime) -> Result<(), Fail> {
    let first = long_first(rt.alloc())?;
    let second = long_second(rt.alloc())?;
    let (first, second) = (first.bytes.as_slice(), second.bytes.as_slice());
    assert!(rt; is_whole(rt.alloc(), first, second)?);
    assert!(rt; lacks_a_reel(rt.alloc(), first)?);
    assert!(rt; is_no_file(rt.alloc(), 0, first));
    Ok(())
}
