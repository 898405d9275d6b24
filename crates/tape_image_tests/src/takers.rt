//! Writers that accept few bytes, fail, or only count.

use std::io;
use std::io::{Error, ErrorKind, Write};

/// A writer that accepts one byte at each call. After a number of bytes, it fails or accepts
/// nothing.
#[derive(Drop)]
pub(super) struct Narrow {
    pub(super) taken: Vec<u8>,
    /// The number of bytes that this writer will still accept.
    pub(super) left: usize,
    /// The error with which this writer then fails, or `None` if it then accepts nothing.
    pub(super) kind: Option<ErrorKind>,
    /// The number of calls in which this writer accepted nothing or failed.
    pub(super) failures: u32,
}

impl Write for Narrow {
    fn write(&mut self, buf: &[u8]) -> io::Result<usize> {
        if self.left == 0 {
            self.failures = self.failures.saturating_add(1);
            return match self.kind {
                Some(kind) => Err(Error::from(kind)),
                None => Ok(0),
            };
        }
        match buf {
            [first, ..] => {
                self.taken.push(*first)?;
                self.left -= 1;
                Ok(1)
            }
            [] => Ok(0),
        }
    }

    fn flush(&mut self) -> io::Result<()> {
        Ok(())
    }
}

/// A writer that fails at one call, and accepts all bytes at every other call.
#[derive(Drop)]
pub(super) struct FailsOnce {
    /// The number, from 0, of the call that fails.
    pub(super) fails_at: u32,
    /// The number of calls to this writer.
    pub(super) calls: u32,
}

impl Write for FailsOnce {
    fn write(&mut self, buf: &[u8]) -> io::Result<usize> {
        let call = self.calls;
        self.calls = call.saturating_add(1);
        if call == self.fails_at {
            return Err(Error::from(ErrorKind::Interrupted));
        }
        Ok(buf.len())
    }

    fn flush(&mut self) -> io::Result<()> {
        Ok(())
    }
}

/// A writer that accepts all bytes, keeps none, and counts them.
#[derive(Drop)]
pub(super) struct Counting {
    /// The number of bytes that this writer accepted.
    pub(super) taken: u64,
    /// The number of calls to this writer.
    pub(super) calls: u64,
}

impl Write for Counting {
    fn write(&mut self, buf: &[u8]) -> io::Result<usize> {
        self.taken = self.taken.saturating_add(buf.len() as u64);
        self.calls = self.calls.saturating_add(1);
        Ok(buf.len())
    }

    fn flush(&mut self) -> io::Result<()> {
        Ok(())
    }
}
