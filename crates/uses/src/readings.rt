//! A file recovered from two damaged readings of its reel.
use super::reel::{FIRST_BAD, SECOND_BAD};
use std::alloc::Global;
use std::io::Read;
use std::test::Fail;
use tape_blocks::Form;
use tape_label::Field;
use tape_run::{EngineFault, Step, read_file};

/// The result of two readings.
#[derive(Clone, Copy, PartialEq, Eq)]
enum Outcome {
    /// All of the file was read.
    Written,
    /// A part of the file is still missing.
    Wanting,
    /// The reading with this index, from 0, could not be used.
    Stopped(usize),
}

/// Appends the records of the file to `lines`, each followed by a line feed, if the two readings
/// have the whole file.
fn lines_of<R: Read>(
    alloc: Global,
    set_id: Field<6>,
    file: u16,
    readings: &mut [R],
    lines: &mut Vec<u8>,
) -> Result<Outcome, EngineFault> {
    match read_file(alloc, set_id, file, &[Step::Reel, Step::Reel], readings) {
        Ok((mut session, Ok(()))) if session.want().is_none() => {
            session.write_file(Form::Lines, lines)?;
            Ok(Outcome::Written)
        }
        // The number of the step is that of the reading.
        Ok((_, Err(stopped))) => Ok(Outcome::Stopped(stopped.step)),
        _ => Ok(Outcome::Wanting),
    }
}

#[test]
fn two_readings_make_a_file(rt: HostRuntime) -> Result<(), Fail> {
    let readings = &mut [SECOND_BAD, FIRST_BAD];
    let mut lines = Vec::new(rt.alloc());
    let set_id = Field::of_bytes(*b"ABC001");
    assert!(rt; lines_of(rt.alloc(), set_id, 1, readings, &mut lines)? == Outcome::Written);
    assert!(rt; lines.as_slice() == b"KITE\nKIWI\nKNOT\nCROW\nSWAN\n".as_slice());
    Ok(())
}

#[test]
fn one_reading_is_not_there(rt: HostRuntime) -> Result<(), Fail> {
    let mut lines = Vec::new(rt.alloc());
    let set_id = Field::of_bytes(*b"ABC001");
    let outcome = lines_of(rt.alloc(), set_id, 1, &mut [SECOND_BAD], &mut lines)?;
    assert!(rt; outcome == Outcome::Stopped(1));
    assert!(rt; lines.is_empty());
    Ok(())
}
