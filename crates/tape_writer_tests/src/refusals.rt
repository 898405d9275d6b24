//! Tests of refusals, their order, and the state after them.

use crate::calls::Call::{Begin, BeginSpanned, EndFile, Finish, Put, Records};
use crate::calls::{Row, follow, perform};
use crate::refusing::Refusing;
use crate::sets::{FIXED, head, on_images, spanned, volume, volumes};
use std::alloc::Global;
use std::test::Fail;
use tape_label::{Field, Head1};
use tape_writer::WriteFault::{
    BadField, BadShape, CapacityTooSmall, Device, Failed, FileBegun, Finished, NoFile,
    OutOfVolumes, TooMany,
};
use tape_writer::{MemoryTapes, SetWriter, WriteFault};

const OUT_OF_TURN: &[Row] = &[
    (Put(80), Err(NoFile), 0),
    (EndFile, Err(NoFile), 0),
    (Finish, Err(NoFile), 0),
    (Begin, Ok(()), 268),
    (Begin, Err(FileBegun), 268),
    (Finish, Err(FileBegun), 268),
    (EndFile, Ok(()), 452),
    (EndFile, Err(NoFile), 452),
    (Finish, Ok(()), 460),
    (Put(80), Err(Finished), 460),
    (EndFile, Err(Finished), 460),
    (Begin, Err(Finished), 460),
    (Finish, Err(Finished), 460),
];

#[test]
fn calls_out_of_turn(rt: HostRuntime) -> Result<(), Fail> {
    let mut writer = on_images(rt.alloc(), 2_500, 1)?;
    follow(&rt, &mut writer, OUT_OF_TURN);
    Ok(())
}

const NOT_BEGUN: &[Row] = &[
    (BeginSpanned(17), Err(BadShape), 0),
    (BeginSpanned(1_477), Err(CapacityTooSmall), 0),
];

#[test]
fn files_that_are_not_begun(rt: HostRuntime) -> Result<(), Fail> {
    let mut writer = on_images(rt.alloc(), 2_500, 1)?;
    let bad = Head1 {
        file_id: Field::of_bytes(*b"payroll          "),
        ..head()
    };
    assert!(rt; writer.begin_file(bad, spanned(17)) == Err(BadField));
    follow(&rt, &mut writer, NOT_BEGUN);
    // The set identifier of a head is replaced, and not checked.
    let other = Head1 {
        set_id: Field::of_bytes(*b"xxxxxx"),
        ..head()
    };
    writer.begin_file(other, FIXED)?;
    Ok(())
}

/// Returns the fault of `new` for `count` volumes with the identifier `id`, if any.
fn made(
    alloc: Global,
    set_id: [u8; 6],
    id: [u8; 6],
    count: usize,
) -> Result<Option<WriteFault>, Fail> {
    let labels = Vec::from_elem(alloc, volume(id), count)?;
    let out = MemoryTapes::new(alloc);
    match SetWriter::new(alloc, Field::of_bytes(set_id), labels, 2_500, out) {
        Ok(_) => Ok(None),
        Err(refused) => Ok(Some(refused.fault)),
    }
}

/// The identifiers of a set and of its volumes, the number of volumes, and the fault of `new`, if
/// any.
const MADE: &[(&[u8; 6], &[u8; 6], usize, Option<WriteFault>)] = &[
    (b"abc001", b"ABC001", 0, Some(BadField)),
    (b"ABC001", b"abc001", 1, Some(BadField)),
    (b"ABC001", b"ABC001", 0, Some(OutOfVolumes)),
    (b"ABC001", b"ABC001", 9_999, None),
    (b"ABC001", b"ABC001", 10_000, Some(TooMany)),
];

#[test]
fn sets_that_are_not_begun(rt: HostRuntime) -> Result<(), Fail> {
    for (set_id, id, count, want) in MADE {
        let answer = made(rt.alloc(), **set_id, **id, *count)?;
        assert!(rt; answer == *want, "{count} volumes: {answer:?}");
    }
    Ok(())
}

/// Writes 25 records on two volumes, up to the first refusal.
fn write_all(writer: &mut SetWriter<Refusing<MemoryTapes>>) -> Result<(), WriteFault> {
    for call in [Begin, Records(25), EndFile, Finish] {
        perform(writer, call)?;
    }
    Ok(())
}

/// The result of writing, the result of the next call, the number of volumes, and the number of
/// items on the first volume.
type Stands = (Result<(), WriteFault>, Result<(), WriteFault>, usize, usize);

/// Returns the expected state after the refusal of the call that follows `left` calls. The 14th
/// call to the tapes changes the volume.
fn stands_behind(left: usize) -> Stands {
    match left {
        0 => (Err(Device), Err(Failed), 0, 0),
        1..14 => (Err(Device), Err(Failed), 1, left.saturating_sub(1)),
        14..24 => (Err(Device), Err(Failed), 2, 12),
        _ => (Ok(()), Err(Finished), 2, 12),
    }
}

/// Writes a set to tapes that refuse the call after the first `left`, and returns the state after
/// the refusal.
fn refused_behind(alloc: Global, left: usize) -> Result<Stands, Fail> {
    let volumes = volumes(alloc, 2)?;
    let out = Refusing::new(MemoryTapes::new(alloc), left);
    let set_id = Field::of_bytes(*b"ABC001");
    let mut writer = SetWriter::new(alloc, set_id, volumes, 2_500, out).map_err(
        |refused| refused.fault,
    )?;
    let answer = write_all(&mut writer);
    let after = perform(&mut writer, Put(80));
    let tapes = writer.out().inner();
    Ok((answer, after, tapes.count(), tapes.length(0)))
}

#[test]
fn each_call_of_the_tapes_refused(rt: HostRuntime) -> Result<(), Fail> {
    for left in 0..25usize {
        let stands = refused_behind(rt.alloc(), left)?;
        assert!(rt; stands == stands_behind(left), "call {left}");
    }
    Ok(())
}
