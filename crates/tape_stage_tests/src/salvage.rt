//! Tests of the remains of damaged stages.

use crate::fixtures::*;
use std::alloc::{AllocError, Global};
use std::test::*;
use tape_blocks::{Part, Span};
use tape_core::{PartSink, PartWalk, SinkFault};
use tape_stage::{MemoryDisk, Stage, StageFault};

// Two complete records of two bytes each, of format D, are staged.
const FOURTEEN_2: &[u8; 80] =
    b"TPCK2ABC00100010001000000000000002R01D0000000PAYROLL          000000000000014   ";

/// Returns whether the walk over an opened stage returns exactly `parts`, each a complete record,
/// and a second walk does the same.
fn gives_parts(stage: &mut Stage<MemoryDisk>, parts: &[&[u8]]) -> bool {
    for again in [false, true] {
        if again {
            stage.rewind();
        }
        for bytes in parts {
            match stage.next_part() {
                Ok(Some(part)) => {
                    if part.span != Span::Whole || part.bytes != *bytes {
                        return false;
                    }
                }
                _ => return false,
            }
        }
        if !matches!(stage.next_part(), Ok(None)) {
            return false;
        }
    }
    true
}

/// A test case: frames, the offset of the damage, and the parts before it.
struct Row {
    name: &'static str,
    frames: &'static [u8],
    broken: Option<u64>,
    parts: &'static [&'static [u8]],
}

const ROWS: &[Row] = &[
    Row {
        name: "whole",
        frames: b"0\x00\x00\x00\x02AB0\x00\x00\x00\x02CD",
        broken: None,
        parts: &[b"AB", b"CD"],
    },
    Row {
        name: "whole, and more behind",
        frames: b"0\x00\x00\x00\x02AB0\x00\x00\x00\x02CD4",
        broken: None,
        parts: &[b"AB", b"CD"],
    },
    Row {
        name: "no digit of a span, second",
        frames: b"0\x00\x00\x00\x02AB4\x00\x00\x00\x02CD",
        broken: Some(263),
        parts: &[b"AB"],
    },
    Row {
        name: "a byte lacks",
        frames: b"0\x00\x00\x00\x02AB0\x00\x00\x00\x02C",
        broken: Some(263),
        parts: &[b"AB"],
    },
    Row {
        name: "cut between two frames",
        frames: b"0\x00\x00\x00\x02AB",
        broken: Some(263),
        parts: &[b"AB"],
    },
    Row {
        name: "too long a part",
        frames: b"0\x00\x00\x00\x02AB0\x00\x01\x86\xa0CD",
        broken: Some(263),
        parts: &[b"AB"],
    },
    Row {
        name: "past the staged end",
        frames: b"0\x00\x00\x00\x02AB0\x00\x00\x00\x03CDE",
        broken: Some(263),
        parts: &[b"AB"],
    },
    Row {
        name: "no digit of a span, first",
        frames: b"4\x00\x00\x00\x02AB0\x00\x00\x00\x02CD",
        broken: Some(256),
        parts: &[],
    },
    Row {
        name: "no frames",
        frames: b"",
        broken: Some(256),
        parts: &[],
    },
];

/// Returns whether the expected parts remain of a stage with the frames of `row`, and the bytes of
/// the stage are unchanged.
fn remains(alloc: Global, row: &Row) -> Result<bool, AllocError> {
    let bytes = first_slot(alloc, b'O', FOURTEEN_2, row.frames)?;
    let Ok(opened) = Stage::open_read_only(alloc, disk_of(alloc, &bytes)?) else {
        return Ok(false);
    };
    let told = opened.point.staged == 14 && opened.broken == row.broken;
    let counted = opened.records == row.parts.len() as u64;
    let mut stage = opened.stage;
    let given = gives_parts(&mut stage, row.parts);
    Ok(told && counted && given && stage.into_disk().bytes() == bytes.as_slice())
}

#[test]
fn a_record_is_counted_at_its_last_part(rt: HostRuntime) -> Result<(), AllocError> {
    let alloc = rt.alloc();
    // A record in two parts; a record and the first part of another; a record without its end.
    let rows: [(&[u8], u64); 3] = [
        (b"1\x00\x00\x00\x02AB3\x00\x00\x00\x02CD", 1),
        (b"0\x00\x00\x00\x02AB1\x00\x00\x00\x02CD", 1),
        (b"1\x00\x00\x00\x02AB2\x00\x00\x00\x02CD", 0),
    ];
    for (frames, records) in rows {
        let bytes = first_slot(alloc, b'O', FOURTEEN_2, frames)?;
        let Ok(opened) = Stage::open_read_only(alloc, disk_of(alloc, &bytes)?) else {
            assert!(rt; false, "{records}");
            return Ok(());
        };
        assert!(rt; opened.records == records, "{records}");
    }
    Ok(())
}

#[test]
fn what_remains_before_a_break(rt: HostRuntime) -> Result<(), AllocError> {
    for row in ROWS {
        let name = row.name;
        assert!(rt; remains(rt.alloc(), row)?, "{name}");
    }
    Ok(())
}

#[test]
fn nothing_remains_where_no_slot_counts(rt: HostRuntime) -> Result<(), AllocError> {
    let alloc = rt.alloc();
    let bytes = first_slot(alloc, b'C', FOURTEEN_2, b"0\x00\x00\x00\x02AB")?;
    let short = bytes.get(..255).unwrap_or_default();
    for bytes in [bytes.as_slice(), short, b""] {
        let fault = match Stage::open_read_only(alloc, disk_of(alloc, bytes)?) {
            Ok(_) => None,
            Err(refused) => Some(refused.fault),
        };
        assert!(rt; fault == Some(StageFault::NoPoint));
    }
    Ok(())
}

#[test]
fn each_failing_call_of_the_disk_is_told(rt: HostRuntime) -> Result<(), AllocError> {
    let alloc = rt.alloc();
    let bytes = first_slot(alloc, b'O', FOURTEEN_2, b"0\x00\x00\x00\x02AB")?;
    // The calls are a sync, the length, the slots, the length again, and the header of the frame.
    for count in 0..5 {
        let mut disk = disk_of(alloc, &bytes)?;
        disk.stop_after(count);
        let fault = match Stage::open_read_only(alloc, disk) {
            Ok(_) => None,
            Err(refused) => Some(refused.fault),
        };
        assert!(rt; fault == Some(StageFault::Device), "{count}");
    }
    Ok(())
}

#[test]
fn a_stage_opened_for_reading_takes_nothing(rt: HostRuntime) -> Result<(), AllocError> {
    let alloc = rt.alloc();
    let bytes = first_slot(alloc, b'O', FOURTEEN_2, b"0\x00\x00\x00\x02AB")?;
    let Ok(opened) = Stage::open_read_only(alloc, disk_of(alloc, &bytes)?) else {
        assert!(rt; false);
        return Ok(());
    };
    let mut stage = opened.stage;
    let part = Part {
        span: Span::Whole,
        bytes: b"CD",
    };
    assert!(rt; stage.put(part) == Err(SinkFault::Failed));
    assert!(rt; stage.cut_to(&start()) == Err(SinkFault::Failed));
    assert!(rt; stage.restart(&start()) == Err(StageFault::Failed));
    assert!(rt; stage.weight() == 7 && gives_parts(&mut stage, &[b"AB"]));
    Ok(())
}
