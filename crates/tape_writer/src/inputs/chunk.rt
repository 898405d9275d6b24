//! Bytes that were read ahead.
ghost use Rattle.std.specs.Prelude.{◌≡◌, ◌<◌, [], drop, length, IfOk, OnOk, OnErr, IsOkUnless};
ghost use Rattle.std.specs.Prelude.{MatchBool};
ghost use Rattle.std.specs.Io.KnownBytes.{Keeps, IsAtEnd, prepend_known};

use crate::inputs::records::InputFault;
use std::alloc::{AllocError, Global};
use std::io::Read;
use std::marker::Model;

/// The maximum number of bytes read at once.
const ROOM: usize = 8_192;

/// Bytes that were read from a reader and have not been used yet.
#[derive(Drop)]
pub struct Chunk {
    bytes: Vec<u8>,
    start: usize,
    end: usize,
}

impl Model for Chunk {
    ghost use Rattle.std.specs.Prelude.{◌≤◌, ◌<◌, ℕ, List, slice_range, vec_len};

    ghost Value = { List ℕ };

    ghost view = { λ c. slice_range c.bytes.items c.start c.end };

    ghost invariant = { λ c. (c.start ≤ c.end) × (c.end ≤ vec_len c.bytes)
        × (0 < vec_len c.bytes) };
}

impl Chunk {
    /// Creates an empty chunk with room for 8,192 bytes.
    ///
    /// # Errors
    ///
    /// Returns `AllocError` if the allocation fails.
    pub fn new(alloc: Global) -> Result<Chunk, AllocError>
        ensures { IfOk result (λ c. c ≡ []) }
    {
        let mut bytes = Vec::with_capacity(alloc, ROOM)?;
        bytes.resize(ROOM, 0)?;
        Ok(Chunk {
            bytes,
            start: 0,
            end: 0,
        })
    }

    /// Returns the bytes.
    pub fn as_slice(&self) -> &[u8]
        ensures { result.now ≡ self.now }
    {
        &self.bytes[self.start..self.end]
    }

    /// Returns true if no bytes are left.
    pub fn is_empty(&self) -> bool
        ensures { MatchBool result (self.now ≡ []) (0 < length self.now) }
    {
        self.start == self.end
    }

    /// Skips `count` bytes, or all bytes if there are fewer.
    pub fn skip(&mut self, count: usize)
        ensures { self.new ≡ drop count self.old }
    {
        let left = self.end - self.start;
        self.start += left.min(count);
    }

    /// Reads once if no bytes are left.
    ///
    /// # Errors
    ///
    /// Returns `ReadFailed` if the reader returns an error, such as an interruption.
    pub fn fill<R: Read>(&mut self, reader: &mut R) -> Result<(), InputFault>
        ensures bytes { Keeps (prepend_known self.old (R.remaining reader.old))
            (prepend_known self.new (R.remaining reader.new)) }
        ensures end { OnOk result (self.new ≡ [] → IsAtEnd (R.remaining reader.new)) }
        ensures err { OnErr result (self.new ≡ []) }
        ensures kind { IsOkUnless result InputFault.ReadFailed }
    {
        if self.start < self.end {
            return Ok(());
        }
        self.start = 0;
        self.end = 0;
        match reader.read(self.bytes.as_mut_slice()) {
            Ok(count) => {
                self.end = count;
                Ok(())
            }
            // An interruption is also a failure.
            Err(_) => Err(InputFault::ReadFailed),
        }
    }
}
