//! Tests of the bytes of stages, and of opening other bytes.

use crate::fixtures::*;
use std::alloc::{AllocError, Global};
use std::process::Abort;
use std::test::*;
use tape_blocks::{Part, Span};
use tape_core::{Checkpoint, PartSink};
use tape_stage::{MemoryDisk, Stage, StageFault};

/// Returns the stage of `records` records, saved with checkpoint `point`.
fn saved(alloc: Global, records: u32, point: &Checkpoint) -> Option<Stage<MemoryDisk>> {
    let mut stage = made(alloc)?;
    for _ in 0..records {
        if !put(&mut stage, b'r') {
            return None;
        }
    }
    if save(&mut stage, point) {
        Some(stage)
    } else {
        None
    }
}

/// The slots of a stage with the complete file.
const SLOTS: &[(usize, &[u8])] = &[
    (0, b"O000000000000001"),
    (16, START_2),
    (96, &[b' '; 32]),
    (128, b"O000000000000002"),
    (144, WHOLE_2),
    (224, &[b' '; 32]),
];

/// The header of a frame with a part of 80 bytes: its span and its length.
const FRAME: &[u8] = b"0\x00\x00\x00\x50";

/// Checks that the bytes are those of a stage of 25 records.
fn are_whole(rt: &impl Abort, bytes: &[u8]) {
    assert!(rt; bytes.len() == 2381);
    stand(rt, bytes, SLOTS);
    for n in 0..25usize {
        let place = 256 + 85 * n;
        stand(rt, bytes, &[(place, FRAME), (place + 5, &[b'r'; 80])]);
    }
}

#[test]
fn a_stage_byte_by_byte(rt: HostRuntime) {
    match saved(rt.alloc(), 25, &whole()) {
        Some(stage) => are_whole(&rt, stage.into_disk().bytes()),
        None => assert!(rt; false),
    }
}

/// The contents of a new stage.
const NEW_SLOTS: &[(usize, &[u8])] = &[
    (0, b"O000000000000001"),
    (16, START_2),
    (96, &[b' '; 32]),
    (128, b"C000000000000000"),
    (144, &[b' '; 112]),
];

#[test]
fn a_new_stage_byte_by_byte(rt: HostRuntime) {
    let Some(stage) = made(rt.alloc()) else {
        assert!(rt; false);
        return;
    };
    let disk = stage.into_disk();
    assert!(rt; disk.bytes().len() == 256);
    stand(&rt, disk.bytes(), NEW_SLOTS);
}

/// Parts, and their frames.
const PARTS: &[(Span, &[u8])] = &[
    (Span::First, b"AB"),
    (Span::Middle, b"C"),
    (Span::Last, b""),
    (Span::Whole, b""),
];

const FRAMES: &[u8] = b"1\x00\x00\x00\x02AB2\x00\x00\x00\x01C3\x00\x00\x00\x000\x00\x00\x00\x00";

/// Returns whether the stage accepts the parts.
fn takes_parts(stage: &mut Stage<MemoryDisk>) -> bool {
    for (span, bytes) in PARTS {
        let part = Part {
            span: *span,
            bytes: *bytes,
        };
        if bytes.len() > 2 || stage.put(part).is_err() {
            return false;
        }
    }
    stage.weight() == 23
}

#[test]
fn spans_and_lengths_in_frames(rt: HostRuntime) {
    let Some(mut stage) = made(rt.alloc()) else {
        assert!(rt; false);
        return;
    };
    assert!(rt; takes_parts(&mut stage));
    assert!(rt; stage.into_disk().bytes().get(256..) == Some(FRAMES));
}

/// Returns the fault with which opening the bytes fails.
fn fault_of(alloc: Global, bytes: &[u8]) -> Result<Option<StageFault>, AllocError> {
    match Stage::open_disk(alloc, disk_of(alloc, bytes)?) {
        Ok(_) => Ok(None),
        Err(refused) => Ok(Some(refused.fault)),
    }
}

// One complete record of two bytes, of format D, is staged.
const SEVEN_2: &[u8; 80] =
    b"TPCK2ABC00100010001000000000000001R01D0000000PAYROLL          000000000000007   ";

const NO_STAGES: &[&[u8]] = &[b"", &[b'O'; 255], &[b'O'; 256]];

#[test]
fn bytes_that_are_no_stage(rt: HostRuntime) -> Result<(), AllocError> {
    for bytes in NO_STAGES {
        let size = bytes.len();
        assert!(rt;
            fault_of(rt.alloc(), bytes)? == Some(StageFault::NoPoint),
            "{size} bytes"
        );
    }
    Ok(())
}

/// Returns the fault with which opening a stage with gate `gate` and frames `frames` fails, whose
/// checkpoint counts seven bytes of parts.
fn fault_of_seven(
    alloc: Global,
    gate: u8,
    frames: &[u8],
) -> Result<Option<StageFault>, AllocError> {
    let bytes = first_slot(alloc, gate, SEVEN_2, frames)?;
    fault_of(alloc, &bytes)
}

/// A name, the gate and the frames of a stage for `fault_of_seven`, and the fault of opening it, if
/// there is one.
const SEVENS: &[(&str, u8, &[u8], Option<StageFault>)] = &[
    ("an open gate", b'O', b"0\x00\x00\x00\x02AB", None),
    (
        "no gate",
        b'o',
        b"0\x00\x00\x00\x02AB",
        Some(StageFault::NoPoint),
    ),
    (
        "no digit of a span",
        b'O',
        b"4\x00\x00\x00\x02AB",
        BAD_FIRST,
    ),
    ("too long a part", b'O', b"0\x00\x01\x86\xa0AB", BAD_FIRST),
    ("past the weight", b'O', b"0\x00\x00\x00\x03ABC", BAD_FIRST),
    ("least byte first", b'O', b"0\x02\x00\x00\x00AB", BAD_FIRST),
    (
        "a byte behind",
        b'O',
        b"0\x00\x00\x00\x01A",
        Some(StageFault::BadFrame(262)),
    ),
    ("an end too early", b'O', b"0\x00\x00\x00\x02A", BAD_FIRST),
    ("no frame", b'O', b"", BAD_FIRST),
];

const BAD_FIRST: Option<StageFault> = Some(StageFault::BadFrame(256));

#[test]
fn gates_and_frames_of_a_stage(rt: HostRuntime) -> Result<(), AllocError> {
    for (name, gate, frames, fault) in SEVENS {
        assert!(rt;
            fault_of_seven(rt.alloc(), *gate, frames)? == *fault,
            "{name}"
        );
    }
    Ok(())
}

/// The contents of a stage of version 1 after a save.
const SAVED_AGAIN: &[(usize, &[u8])] = &[(16, START_1), (128, b"O000000000000002"), (144, START_2)];

#[test]
fn a_stage_of_version_1_is_saved_in_version_2(rt: HostRuntime) -> Result<(), AllocError> {
    let alloc = rt.alloc();
    let bytes = first_slot(alloc, b'O', START_1, b"behind the end")?;
    let Ok((mut stage, point)) = Stage::open_disk(alloc, disk_of(alloc, &bytes)?) else {
        assert!(rt; false);
        return Ok(());
    };
    assert!(rt; point == start() && save(&mut stage, &point));
    let disk = stage.into_disk();
    assert!(rt; disk.bytes().len() == 256);
    stand(&rt, disk.bytes(), SAVED_AGAIN);
    Ok(())
}

/// Opens a file with two slots: the first with generation 2 and no parts, the second with the gate
/// and generation `second` and seven bytes of parts. Returns the weight of the stage.
fn opened_of_two(alloc: Global, second: &[u8; 16]) -> Result<Option<u64>, AllocError> {
    let mut bytes = b"O000000000000002".to_vec(alloc)?;
    bytes.extend_from_slice(START_2)?;
    bytes.extend_from_slice(&[b' '; 32])?;
    bytes.extend_from_slice(second)?;
    bytes.extend_from_slice(SEVEN_2)?;
    bytes.extend_from_slice(&[b' '; 32])?;
    bytes.extend_from_slice(b"0\x00\x00\x00\x02AB")?;
    match Stage::open_disk(alloc, disk_of(alloc, &bytes)?) {
        Ok((stage, _)) => Ok(Some(stage.weight())),
        Err(_) => Ok(None),
    }
}

/// The gate and the generation of the second slot, and the weight of the stage that is opened.
const SECONDS: &[(&[u8; 16], u64)] = &[
    (b"O000000000000001", 0),
    (b"O000000000000002", 0),
    (b"O000000000000003", 7),
    // A slot with a closed gate, or with a generation that is not a number, does not count.
    (b"C000000000000003", 0),
    (b"O+00000000000003", 0),
];

#[test]
fn the_greater_generation_or_the_first_slot(rt: HostRuntime) -> Result<(), AllocError> {
    for (second, weight) in SECONDS {
        let opened = opened_of_two(rt.alloc(), second)?;
        assert!(rt; opened == Some(*weight), "{second:?}");
    }
    Ok(())
}

const NUMBERS: &[(StageFault, u8)] = &[
    (StageFault::NoPoint, 1),
    (StageFault::BadFrame(256), 2),
    (StageFault::Device, 3),
    (StageFault::OutOfMemory, 4),
    (StageFault::Failed, 5),
    (StageFault::Full, 6),
];

#[test]
fn stage_faults_have_numbers(rt: HostRuntime) {
    for (fault, number) in NUMBERS {
        assert!(rt; fault.number() == *number, "{number}");
    }
}
