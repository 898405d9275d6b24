//! Readers and writers that return and accept little, or fail.
use std::alloc::Global;
use std::io::{Error, ErrorKind, Read, Result, Write};
use std::mem;

/// A reader that returns one byte per call, and fails after `left` bytes.
#[derive(Drop)]
pub struct Dribble<'a> {
    pub bytes: &'a [u8],
    pub left: usize,
    pub kind: ErrorKind,
}

impl Read for Dribble<'_> {
    fn read(&mut self, buf: &mut [u8]) -> Result<usize> {
        if self.left == 0 {
            return Err(Error::from(self.kind));
        }
        match (self.bytes, buf) {
            ([first, others @ ..], [slot, ..]) => {
                *slot = *first;
                self.bytes = others;
                self.left -= 1;
                Ok(1)
            }
            _ => Ok(0),
        }
    }
}

/// A reader that returns `left` zero bytes, which are tape marks.
#[derive(Drop)]
pub struct Zeros {
    pub left: usize,
}

impl Read for Zeros {
    fn read(&mut self, buf: &mut [u8]) -> Result<usize> {
        let count = buf.len().min(self.left);
        buf[..count].fill(0);
        self.left -= count;
        Ok(count)
    }
}

/// A writer that accepts one byte per call, and after `left` of them accepts none, or fails. A
/// flush fails if configured to.
#[derive(Drop)]
pub struct Narrow {
    pub taken: Vec<u8>,
    pub left: usize,
    pub kind: Option<ErrorKind>,
    pub flushes: bool,
}

impl Narrow {
    /// Returns a writer that accepts `left` bytes, and then none.
    pub fn new(alloc: Global, left: usize, flushes: bool) -> Narrow {
        Narrow::failing(alloc, left, None, flushes)
    }

    /// Returns a writer that accepts `left` bytes, and then fails, or accepts none.
    pub fn failing(alloc: Global, left: usize, kind: Option<ErrorKind>, flushes: bool) -> Narrow {
        Narrow {
            taken: Vec::new(alloc),
            left,
            kind,
            flushes,
        }
    }
}

impl Write for Narrow {
    fn write(&mut self, buf: &[u8]) -> Result<usize> {
        if self.left == 0 {
            return match self.kind {
                Some(kind) => Err(Error::from(kind)),
                None => Ok(0),
            };
        }
        match buf {
            [first, ..] => {
                self.taken.push(*first)?;
                self.left -= 1;
                Ok(1)
            }
            [] => Ok(0),
        }
    }

    fn flush(&mut self) -> Result<()> {
        if self.flushes {
            return Ok(());
        }
        Err(Error::from(ErrorKind::Other))
    }
}

/// A writer that fails once, at call `at`, and accepts everything else. It counts the calls.
#[derive(Drop)]
pub struct FailsOnce {
    pub taken: Vec<u8>,
    pub good: usize,
    pub calls: usize,
    pub kind: Option<ErrorKind>,
}

impl FailsOnce {
    pub fn new(alloc: Global, good: usize, kind: Option<ErrorKind>) -> FailsOnce {
        FailsOnce {
            taken: Vec::new(alloc),
            good,
            calls: 0,
            kind,
        }
    }
}

impl Write for FailsOnce {
    fn write(&mut self, buf: &[u8]) -> Result<usize> {
        self.calls = self.calls.saturating_add(1);
        if self.calls == self.good.saturating_add(1) {
            return match self.kind {
                Some(kind) => Err(Error::from(kind)),
                None => Ok(0),
            };
        }
        self.taken.extend_from_slice(buf)?;
        Ok(buf.len())
    }

    fn flush(&mut self) -> Result<()> {
        Ok(())
    }
}

/// A writer that stores the last two texts written to it.
#[derive(Drop)]
pub struct Tail {
    pub line: Vec<u8>,
    pub end: Vec<u8>,
}

impl Tail {
    pub fn new(alloc: Global) -> Tail {
        Tail {
            line: Vec::new(alloc),
            end: Vec::new(alloc),
        }
    }
}

impl Write for Tail {
    fn write(&mut self, buf: &[u8]) -> Result<usize> {
        mem::swap(&mut self.line, &mut self.end);
        self.end.clear();
        self.end.extend_from_slice(buf)?;
        Ok(buf.len())
    }

    fn flush(&mut self) -> Result<()> {
        Ok(())
    }
}
