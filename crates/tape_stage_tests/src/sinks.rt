//! Tests of a stage as the sink of a session.

use crate::fixtures::*;
use std::alloc::Global;
use std::test::*;
use tape_blocks::{Part, Span};
use tape_core::{Checkpoint, PartSink, PartWalk};
use tape_stage::{MemoryDisk, Stage};

/// Makes the sink keep the checkpoint `point`, if its weight is that of the staged parts.
fn keep(stage: &mut Stage<MemoryDisk>, point: &Checkpoint) -> bool {
    point.staged == stage.weight() && stage.keep(point).is_ok()
}

/// Cuts the sink back to `point`, if its weight is at most the sink's own.
fn cut_to(stage: &mut Stage<MemoryDisk>, point: &Checkpoint) -> bool {
    point.staged <= stage.weight() && stage.cut_to(point).is_ok()
}

/// Returns a sink with two records, kept under the checkpoint `two`, and a third record after them.
fn with_three(alloc: Global, two: &Checkpoint) -> Option<Stage<MemoryDisk>> {
    let mut stage = made(alloc)?;
    let put_two = put(&mut stage, b'a') && put(&mut stage, b'b');
    let done = put_two && keep(&mut stage, two) && put(&mut stage, b'c');
    if done { Some(stage) } else { None }
}

/// Returns whether the stage has no parts, and its slots have the generations 3 and 2.
fn has_generations(bytes: &[u8]) -> bool {
    bytes.len() == 256
        && bytes.starts_with(b"O000000000000003")
        && bytes.get(128..144) == Some(b"O000000000000002".as_slice())
}

/// Returns whether the sink is cut immediately to the first two of its three records.
fn is_cut(stage: &mut Stage<MemoryDisk>, two: &Checkpoint) -> bool {
    stage.weight() == 255
        && cut_to(stage, two)
        && holds(stage, b"ab")
        && stage.acknowledged() == *two
}

/// Returns whether cutting the sink back below the saved weight first saves the earlier checkpoint
/// as a new generation.
fn is_cut_to_its_start(stage: &mut Stage<MemoryDisk>) -> bool {
    cut_to(stage, &start()) && holds(stage, b"") && stage.acknowledged() == start()
}

#[test]
fn a_sink_cuts_at_once_down_to_what_was_saved(rt: HostRuntime) {
    let Some(two) = in_front(1, 170) else {
        assert!(rt; false);
        return;
    };
    let Some(mut stage) = with_three(rt.alloc(), &two) else {
        assert!(rt; false);
        return;
    };
    assert!(rt; is_cut(&mut stage, &two));
    assert!(rt; is_cut_to_its_start(&mut stage));
    assert!(rt; has_generations(stage.into_disk().bytes()));
}

/// Returns whether a walk from the first part returns the part `AB` and then `None` twice.
fn walks_one_part(stage: &mut Stage<MemoryDisk>) -> bool {
    stage.rewind();
    let given = matches!(stage.next_part(), Ok(Some(part)) if part.bytes == b"AB".as_slice());
    given && matches!(stage.next_part(), Ok(None)) && matches!(stage.next_part(), Ok(None))
}

#[test]
fn a_sink_walks_its_parts(rt: HostRuntime) {
    let Some(mut stage) = made(rt.alloc()) else {
        assert!(rt; false);
        return;
    };
    let part = Part {
        span: Span::First,
        bytes: b"AB",
    };
    assert!(rt; stage.put(part) == Ok(()));
    for walk in 1..3 {
        assert!(rt; walks_one_part(&mut stage), "walk {walk}");
    }
}
