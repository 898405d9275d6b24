//! Tests of disks that stop at each of their calls, and of the stages opened afterwards.

use crate::fixtures::*;
use std::alloc::{AllocError, Global};
use std::test::*;
use tape_blocks::{Part, Span};
use tape_core::{Checkpoint, PartSink, PartWalk, SinkFault};
use tape_stage::{MemoryDisk, Stage, StageFault};

/// Returns a new stage whose disk stops after `calls` calls, counted from its opening.
fn stopping(alloc: Global, calls: u64) -> Option<(Stage<MemoryDisk>, Checkpoint)> {
    let mut disk = made(alloc)?.into_disk();
    disk.stop_after(calls);
    Stage::open_disk(alloc, disk).ok()
}

/// Returns whether a stage whose disk stops refuses that call and every later one.
fn refuses(stage: &mut Stage<MemoryDisk>) -> bool {
    let part = Part {
        span: Span::Whole,
        bytes: b"AB",
    };
    stage.put(part) == Err(SinkFault::Device)
        && stage.put(part) == Err(SinkFault::Failed)
        && stage.restart(&start()) == Err(StageFault::Failed)
        && stage.weight() == 0
}

#[test]
fn a_failed_stage_refuses_until_it_is_opened_again(rt: HostRuntime) {
    let Some((mut stage, _)) = stopping(rt.alloc(), 6) else {
        assert!(rt; false);
        return;
    };
    assert!(rt; refuses(&mut stage));
    assert!(rt; Stage::open_disk(rt.alloc(), stage.into_disk().crash()).is_ok());
}

/// Returns whether a save refused by the disk is pending, and the stage then returns no part.
fn is_pending(stage: &mut Stage<MemoryDisk>, point: &Checkpoint) -> bool {
    stage.pending().is_none()
        && !save(stage, point)
        && stage.pending() == Some(start())
        && stage.next_part().err() == Some(SinkFault::Failed)
}

#[test]
fn what_was_being_saved_when_the_disk_stopped(rt: HostRuntime) {
    let Some((mut stage, point)) = stopping(rt.alloc(), 8) else {
        assert!(rt; false);
        return;
    };
    assert!(rt; is_pending(&mut stage, &point));
}

/// Returns the records of `day` whose parts have the total weight `staged`.
fn records_of(staged: u64) -> &'static [u8] {
    match staged {
        0 => b"",
        170 => b"ab",
        255 => b"abc",
        _ => b"abde",
    }
}

/// Rolls back to `point`, if its weight is at most that of the staged parts.
fn restart(stage: &mut Stage<MemoryDisk>, point: &Checkpoint) -> bool {
    point.staged <= stage.weight() && stage.restart(point).is_ok()
}

/// Makes a run with three saves, and a rollback after the second. The run ends at the first
/// refusal.
fn day(stage: &mut Stage<MemoryDisk>) -> bool {
    let (Some(two), Some(three), Some(four)) = (
        in_front(1, 170),
        in_front(2, 255),
        in_front(3, 340),
    ) else {
        return false;
    };
    let saved = put(stage, b'a') && put(stage, b'b') && save(stage, &two);
    let saved = saved && put(stage, b'c') && save(stage, &three);
    let saved = saved && restart(stage, &two);
    saved && put(stage, b'd') && put(stage, b'e') && save(stage, &four)
}

/// The checkpoints that may be left on a disk: the acknowledged one, or the one that was being
/// saved.
#[derive(Drop)]
struct Saved {
    acknowledged: Checkpoint,
    pending: Option<Checkpoint>,
}

impl Saved {
    fn has(&self, point: Checkpoint) -> bool {
        let pending = self.pending;
        point == self.acknowledged || pending == Some(point)
    }
}

/// Makes the run on a disk that stops after `calls` calls. Returns the disk, and the checkpoints
/// that a crash may leave on it.
fn stopped_after(alloc: Global, calls: u64) -> Option<(MemoryDisk, Saved)> {
    let mut disk = made(alloc)?.into_disk();
    disk.stop_after(calls);
    Some(match Stage::open_disk(alloc, disk) {
        Ok((mut stage, _)) => {
            day(&mut stage);
            let saved = Saved {
                acknowledged: stage.acknowledged(),
                pending: stage.pending(),
            };
            (stage.into_disk(), saved)
        }
        Err(refused) => {
            let saved = Saved {
                acknowledged: start(),
                pending: None,
            };
            (refused.disk, saved)
        }
    })
}

/// Returns whether a disk that a crash left opens with a checkpoint that may be left, and with its
/// parts.
fn comes_back(alloc: Global, disk: MemoryDisk, saved: &Saved) -> bool {
    let Ok((mut stage, point)) = Stage::open_disk(alloc, disk) else {
        return false;
    };
    saved.has(point) && holds(&mut stage, records_of(point.staged))
}

/// Returns a disk with the bytes `bytes` after an attempt to open it that stopped after `calls`
/// calls.
fn opened_until(alloc: Global, bytes: &[u8], calls: u64) -> Result<MemoryDisk, AllocError> {
    let mut disk = disk_of(alloc, bytes)?;
    disk.stop_after(calls);
    Ok(match Stage::open_disk(alloc, disk) {
        Ok((stage, _)) => stage.into_disk(),
        Err(refused) => refused.disk,
    })
}

/// Returns the number of stops while opening after which a crash leaves a disk that can be opened.
/// The disk has the bytes that a crash left at a stop of the run.
fn openings(alloc: Global, left: &[u8], saved: &Saved) -> Result<u64, AllocError> {
    let mut count = 0u64;
    for calls in 0..11 {
        let disk = opened_until(alloc, left, calls)?;
        if comes_back(alloc, disk.crash(), saved) {
            count = count.saturating_add(1);
        }
    }
    Ok(count)
}

#[test]
fn a_stop_at_each_call(rt: HostRuntime) {
    for calls in 0..36 {
        let Some((disk, saved)) = stopped_after(rt.alloc(), calls) else {
            assert!(rt; false);
            return;
        };
        assert!(rt; comes_back(rt.alloc(), disk.crash(), &saved), "{calls}");
    }
}

#[test]
fn a_stop_at_each_call_of_opening_behind_each_stop(rt: HostRuntime) -> Result<(), AllocError> {
    // Opening makes at most 10 calls: it walks over up to 4 frames.
    for calls in 0..36 {
        let Some((disk, saved)) = stopped_after(rt.alloc(), calls) else {
            assert!(rt; false);
            return Ok(());
        };
        let left = disk.crash();
        assert!(rt;
            openings(rt.alloc(), left.bytes(), &saved)? == 11,
            "{calls}"
        );
    }
    Ok(())
}

/// Returns the weight acknowledged last, if the run stops after `calls` calls.
fn acknowledged_after(alloc: Global, calls: u64) -> Option<u64> {
    let (_, saved) = stopped_after(alloc, calls)?;
    Some(saved.acknowledged.staged)
}

/// The number of calls after which the disk stops, and the weight acknowledged then.
///
/// Opening makes 6 calls: a sync, the length, both slots, the length, a truncation and its sync.
/// Appending a part makes 1 call. The first save makes 5 calls, of which 3 are syncs; each later
/// save makes 6, since it closes a gate first. Rolling back makes 7 calls, including its
/// truncation.
const WEIGHTS: &[(u64, u64)] = &[
    (12, 0),
    (13, 170),
    (19, 170),
    (20, 255),
    (25, 255),
    (26, 170),
    (34, 170),
    (35, 340),
];

#[test]
fn how_many_calls_the_run_makes(rt: HostRuntime) {
    for (calls, weight) in WEIGHTS {
        assert!(rt;
            acknowledged_after(rt.alloc(), *calls) == Some(*weight),
            "{calls}"
        );
    }
}
