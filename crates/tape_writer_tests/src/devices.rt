//! A reader and a writer that fail.

use std::alloc::Global;
use std::io::{Error, ErrorKind, Read, Result, Write};
use tape_label::Vol1;
use tape_writer::ImageStore;

/// A reader that returns one byte for each call, and is interrupted after `left` bytes.
#[derive(Drop)]
pub(crate) struct Dribble<'a> {
    pub(crate) bytes: &'a [u8],
    pub(crate) left: usize,
}

impl Read for Dribble<'_> {
    fn read(&mut self, buf: &mut [u8]) -> Result<usize> {
        if self.left == 0 {
            return Err(Error::from(ErrorKind::Interrupted));
        }
        match (self.bytes, buf) {
            ([first, others @ ..], [slot, ..]) => {
                *slot = *first;
                self.bytes = others;
                self.left -= 1;
                Ok(1)
            }
            _ => Ok(0),
        }
    }
}

/// A reader that returns infinitely many bytes, and counts them.
#[derive(Drop)]
pub(crate) struct Endless {
    pub(crate) given: usize,
}

impl Read for Endless {
    fn read(&mut self, buf: &mut [u8]) -> Result<usize> {
        buf.fill(b'A');
        self.given = self.given.saturating_add(buf.len());
        Ok(buf.len())
    }
}

/// A writer that accepts one byte for each call, and no byte after the first `left`.
#[derive(Drop)]
pub(crate) struct Narrow {
    pub(crate) taken: Vec<u8>,
    left: usize,
}

impl Narrow {
    /// Creates a writer that accepts `left` bytes.
    pub(crate) fn new(alloc: Global, left: usize) -> Narrow {
        Narrow {
            taken: Vec::new(alloc),
            left,
        }
    }
}

impl Write for Narrow {
    fn write(&mut self, buf: &[u8]) -> Result<usize> {
        match buf {
            [first, ..] if self.left > 0 => {
                self.taken.push(*first)?;
                self.left -= 1;
                Ok(1)
            }
            _ => Ok(0),
        }
    }

    fn flush(&mut self) -> Result<()> {
        Ok(())
    }
}

/// A store with `count` devices, each of which accepts `room` bytes.
#[derive(Drop)]
pub(crate) struct Narrows {
    pub(crate) alloc: Global,
    pub(crate) room: usize,
    pub(crate) count: usize,
}

impl ImageStore for Narrows {
    type Device = Narrow;

    ghost holds = { λ store lent images. ⊥ };

    ghost left = { λ store. store.count };

    ghost asked = { λ _ _. Unit {0} };

    fn left(&self) -> usize {
        self.count
    }

    fn next(&mut self, _volume: &Vol1) -> Option<Narrow> {
        if self.count == 0 {
            return None;
        }
        self.count -= 1;
        Some(Narrow::new(self.alloc, self.room))
    }

    fn keep(&mut self, _device: Narrow) {}
}
