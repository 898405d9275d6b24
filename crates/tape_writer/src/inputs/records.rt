//! The records of an input, one after another.
ghost use Rattle.std.specs.Prelude.{◌≡◌, ◌≤◌, ◌++◌, [], length, IfOk, IfErr, OnErr, vec_capacity};
ghost use Rattle.std.specs.Prelude.{IfSome, true, false};
ghost use Rattle.tape_image.specs.Reader.{IfKnown};
ghost use Rattle.tape_writer.specs.Records.{to_come, given, left_of, IsFirstLong};

use crate::inputs::chunk::Chunk;
use crate::inputs::cut::Cut;
use std::alloc::{AllocError, Global};
use std::io::Read;

/// The reason why the next record could not be read.
#[derive(Clone, Copy, PartialEq, Eq)]
pub enum InputFault {
    /// The reader failed, or was interrupted.
    ReadFailed,
    /// The record is longer than the limit.
    TooLong,
    /// Allocating memory failed.
    OutOfMemory,
}

/// Reads the records of an input, one after another, into the same buffer.
#[derive(Drop)]
pub struct Records<R> {
    pub device: R,
    pub cut: Cut,
    /// The maximum length of a record.
    pub limit: u32,
    /// Whether the end of the input was reached.
    pub over: bool,
    /// The record that was read last.
    pub content: Vec<u8>,
    pub ahead: Chunk,
}

impl<R: Read + Drop> Records<R> {
    /// Creates a reader for the records of the input `device`, from its current position, each of
    /// at most `limit` bytes. Reads nothing.
    ///
    /// # Errors
    ///
    /// Returns `AllocError` if the allocation fails.
    pub fn new(alloc: Global, device: R, cut: Cut, limit: u32) -> Result<Self, AllocError>
        ensures device { IfOk result (λ r. (r.device ≡ device) × (r.ahead ≡ [])
            × (r.content.items ≡ [])) }
        ensures left { IfOk result (λ r. left_of R.remaining r ≡ R.remaining device) }
        ensures cut { IfOk result (λ r. r.cut ≡ cut) }
        ensures begun { IfOk result (λ r. r.over ≡ false) }
        ensures limit { IfOk result (λ r. r.limit ≡ limit) }
    {
        let ahead = Chunk::new(alloc)?;
        Ok(Records {
            device,
            cut,
            limit,
            over: false,
            content: Vec::new(alloc),
            ahead,
        })
    }

    /// Reads the next record, and returns false if no record is left. Does not call the reader
    /// again after its end.
    ///
    /// # Errors
    ///
    /// Returns `ReadFailed` if the reader returns an error; `TooLong` as soon as the bytes read
    /// show that the record is longer than the limit, whatever follows; `OutOfMemory`. After an
    /// error `content` holds the bytes that were read of the record; a further call drops them,
    /// and takes the bytes after them for a new record.
    pub fn next(&mut self) -> Result<bool, InputFault>
        ensures given { IfOk result (λ more.
            IfKnown (left_of R.remaining self.old) (left_of R.remaining self.new) (λ xs ys.
            to_come self.old.cut self.old.over xs
            ≡ given more self.new.content.items (to_come self.new.cut self.new.over ys))) }
        ensures end { IfOk result (λ more. more ≡ false → self.new.over ≡ true) }
        ensures goes_on { OnErr result (self.new.over ≡ false) }
        // Even after an error, at most `limit` bytes of a record are kept.
        ensures within { length self.new.content.items ≤ self.old.limit }
        ensures long { IfErr result (λ fault. fault ≡ InputFault.TooLong
            → IfSome (left_of R.remaining self.old) (λ xs.
            IsFirstLong self.old.limit (to_come self.old.cut self.old.over xs))) }
        // Memory is needed only if the next record is longer than the capacity of the buffer.
        ensures memory { IfErr result (λ fault. fault ≡ InputFault.OutOfMemory
            → IfSome (left_of R.remaining self.old) (λ xs. IsFirstLong
            (vec_capacity self.old.content) (to_come self.old.cut self.old.over xs))) }
        ensures room { (vec_capacity self.old.content ≤ vec_capacity self.new.content)
            × (length self.new.content.items ≤ vec_capacity self.new.content) }
        // The reader is called only if no unused bytes are left, and not after its end.
        ensures due { IfErr result (λ fault. fault ≡ InputFault.ReadFailed
            → (self.old.over ≡ false) × (self.new.ahead ≡ [])) }
        // An error loses no bytes of the input.
        ensures taken { OnErr result (IfKnown (left_of R.remaining self.old)
            (left_of R.remaining self.new) (λ xs ys. xs ≡ self.new.content.items ++ ys)) }
        ensures cut { self.new.cut ≡ self.old.cut }
        ensures limit { self.new.limit ≡ self.old.limit }
    {
        self.content.clear();
        if self.over {
            return Ok(false);
        }
        'pieces: loop {
            self.ahead.fill(&mut self.device)?;
            if self.ahead.is_empty() {
                self.over = true;
                return Ok(self.cut.is_last(self.content.len()));
            }
            let bytes = self.ahead.as_slice();
            let piece = self.cut.piece(self.content.len(), bytes);
            if piece.content > self.limit as usize - self.content.len() {
                return Err(InputFault::TooLong);
            }
            match self.content.extend_from_slice(&bytes[..piece.content]) {
                Ok(()) => self.ahead.skip(piece.taken),
                Err(_) => return Err(InputFault::OutOfMemory),
            }
            if piece.ended {
                return Ok(true);
            }
        }
    }
}
