//! The note of how the program was built, at the end of its own file.
//!
//! Whoever builds the program appends it. Nothing is proved of what it says.

use crate::screen::Progress;
use std::fs::File;
use std::io;
use std::io::{Read, Seek, SeekFrom};
use tape_writer::system::Host;

/// The length of a note in bytes.
const LEN: usize = 128;

/// What a note begins with. Its line follows, and spaces up to the length.
const MARK: &str = "\nbuild of tape: ";

/// Prints the line of the note: whether the program was proved, from which commit, and with which
/// toolchain. Prints nothing if there is no note, or if it cannot be read.
///
/// # Errors
///
/// Returns the error of standard output.
pub fn print_note<R: Progress>(rt: &R) -> io::Result<()> {
    match Note::read(rt.host()).line() {
        Some(line) => rt.println(line),
        None => Ok(()),
    }
}

/// The note of the program that runs.
#[derive(Drop)]
pub struct Note {
    bytes: [u8; LEN],
}

impl Note {
    /// Reads the note. It has no line if the program's file ends without a note, or cannot be read.
    pub fn read<R: Host>(rt: &R) -> Note {
        let mut bytes = [0; LEN];
        if read_end(rt, &mut bytes).is_err() {
            bytes = [0; LEN];
        }
        Note { bytes }
    }

    /// Returns its line: whether the program was proved, from which commit, and with which
    /// toolchain.
    pub fn line(&self) -> Option<&str> {
        let text = str::from_utf8(self.bytes.as_slice()).ok()?;
        Some(text.strip_prefix(MARK)?.trim_end())
    }
}

/// Reads the last bytes of the program's file.
///
/// # Errors
///
/// Returns the system's error, for example if `/proc` is not mounted.
fn read_end<R: Host>(rt: &R, bytes: &mut [u8; LEN]) -> io::Result<()> {
    let mut program = File::open(rt, "/proc/self/exe")?;
    program.seek(SeekFrom::End(-128))?;
    program.read_exact(bytes)
}
