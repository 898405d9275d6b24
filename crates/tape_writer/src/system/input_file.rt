//! Inputs, each opened when it is needed.
ghost use Rattle.std.specs.Prelude.{◌≡◌, ◌↔◌, false};

use crate::system::fault::FileFault;
use std::fs::{File, Files};
use std::io::{Read, Result};
use std::{fs, mem};

/// An input that is opened at its first read, and closed at its end.
#[derive(Drop)]
pub struct InputFile<'a, R: Files> {
    files: &'a R,
    path: &'a str,
    turn: Turn<R::File>,
}

/// The state of an input.
#[derive(Drop)]
enum Turn<F> {
    /// The input was not read yet.
    Waits,
    /// The input is being read.
    Runs(F),
    /// The input was read to its end.
    Ended,
}

impl<'a, R: Files> InputFile<'a, R> {
    /// Finds the input at `path`, without reading it. Opens only regular files, because the writer
    /// of a pipe would see the pipe being closed again.
    ///
    /// # Errors
    ///
    /// Returns `NotOpened` if the input is missing or may not be read, and `ReadFailed` if it is a
    /// directory.
    pub fn find(files: &'a R, path: &'a str) -> std::result::Result<Self, FileFault> {
        let Ok(found) = fs::metadata(files, path) else {
            return Err(FileFault::NotOpened);
        };
        if found.is_dir() {
            return Err(FileFault::ReadFailed);
        }
        if found.is_file() && File::open(files, path).is_err() {
            return Err(FileFault::NotOpened);
        }
        Ok(InputFile {
            files,
            path,
            turn: Turn::Waits,
        })
    }
}

impl<R: Files> InputFile<'_, R> {
    /// Returns true if the input was read, or opening it for that failed.
    pub fn has_begun(&self) -> bool
        ensures { (result ≡ false) ↔ (self.now.turn ≡ Turn.Waits) }
    {
        match &self.turn {
            Turn::Waits => false,
            Turn::Runs(_) | Turn::Ended => true,
        }
    }
}

impl<R: Files> Read for InputFile<'_, R> {
    fn read(&mut self, buf: &mut [u8]) -> Result<usize> {
        let mut file = match mem::replace(&mut self.turn, Turn::Ended) {
            Turn::Waits => File::open(self.files, self.path)?,
            Turn::Runs(file) => file,
            Turn::Ended => return Ok(0),
        };
        let count = file.read(buf)?;
        if count > 0 || buf.is_empty() {
            self.turn = Turn::Runs(file);
        }
        Ok(count)
    }
}
