//! Sequences of calls to a writer, and the result of each.

use crate::sets::{COUNTED, FIXED, head, spanned};
use std::process::Abort;
use tape_writer::{SetWriter, TapeOut, WriteFault};

/// The bytes of the records.
const SEVENS: [u8; 290] = [b'7'; 290];

/// A call to a writer, or several of one kind.
#[derive(Clone, Copy)]
pub(crate) enum Call {
    /// Begins the next file, with records of 80 bytes and blocks of 800 bytes.
    Begin,
    /// Begins the next file, with records of up to 16 bytes (after their four digits), and blocks
    /// of at most 100 bytes.
    BeginCounted,
    /// Begins the next file, with records of any length, and blocks of at most this length.
    BeginSpanned(u32),
    /// Writes a record of this number of bytes `7`, at most 290.
    Put(usize),
    /// Writes this number of records of 80 bytes, one after another.
    Records(u32),
    /// Ends the file.
    EndFile,
    /// Ends the set.
    Finish,
}

/// A call, its result, and the length of the current volume after it.
pub(crate) type Row = (Call, Result<(), WriteFault>, u32);

/// Writes a record of `length` bytes `7`.
fn put<T: TapeOut + Drop>(writer: &mut SetWriter<T>, length: usize) -> Result<(), WriteFault> {
    match SEVENS.get(..length) {
        Some(record) => writer.put(record),
        None => Ok(()),
    }
}

/// Makes the call; for several calls, returns the first refusal.
pub(crate) fn perform<T: TapeOut + Drop>(
    writer: &mut SetWriter<T>,
    call: Call,
) -> Result<(), WriteFault> {
    match call {
        Call::Begin => writer.begin_file(head(), FIXED),
        Call::BeginCounted => writer.begin_file(head(), COUNTED),
        Call::BeginSpanned(block_len) => writer.begin_file(head(), spanned(block_len)),
        Call::Put(length) => put(writer, length),
        Call::Records(count) => {
            for _ in 0..count {
                put(writer, 80)?;
            }
            Ok(())
        }
        Call::EndFile => writer.end_file(),
        Call::Finish => writer.finish(),
    }
}

/// Makes the call of each row, and compares its result. Rows are counted from 0.
pub(crate) fn follow<T: TapeOut + Drop>(rt: &impl Abort, writer: &mut SetWriter<T>, rows: &[Row]) {
    for (at, row) in rows.iter().enumerate() {
        let answer = perform(writer, row.0);
        assert!(rt; answer == row.1 && writer.used() == row.2, "row {at}");
    }
}
