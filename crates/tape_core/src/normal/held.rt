//! The bytes of an image that were read and have not been given on.

ghost use Rattle.std.specs.Prelude.{◌≡◌, ℕ, List, [], ◌∷◌, ◌++◌, ◌≤◌, ◌<◌, length, take, IfOk};
ghost use Rattle.std.specs.Prelude.{true, false};
ghost use Rattle.std.specs.Io.KnownBytes.{Keeps, IsAtEnd, prepend_known};
ghost use Rattle.tape_image.specs.Written.{written_block};

use std::io;
use std::io::Read;
use std::marker::Model;

/// The number of bytes of a label as a block: 80 characters between two words.
const LABEL: usize = 88;

/// The greatest number of bytes that are held: those of the longest label with its padding, as a
/// block.
const MOST: usize = 128;

/// A label of zeros as a block, and zeros after it.
const EMPTY: &[u8; MOST] = &[
    80, 0, 0, 0, 0, 0, 0, 0, 0, 0, 0, 0, 0, 0, 0, 0, 0, 0, 0, 0, 0, 0, 0, 0, 0, 0, 0, 0, 0, 0, 0,
    0, 0, 0, 0, 0, 0, 0, 0, 0, 0, 0, 0, 0, 0, 0, 0, 0, 0, 0, 0, 0, 0, 0, 0, 0, 0, 0, 0, 0, 0, 0, 0,
    0, 0, 0, 0, 0, 0, 0, 0, 0, 0, 0, 0, 0, 0, 0, 0, 0, 0, 0, 0, 0, 80, 0, 0, 0, 0, 0, 0, 0, 0, 0,
    0, 0, 0, 0, 0, 0, 0, 0, 0, 0, 0, 0, 0, 0, 0, 0, 0, 0, 0, 0, 0, 0, 0, 0, 0, 0, 0, 0, 0, 0, 0, 0,
    0, 0,
];

/// Copies bytes to the start of `buf`, as many as it has room for, and returns their number and the
/// bytes after them.
pub(crate) fn copy_front(bytes: &'static [u8], buf: &mut [u8]) -> (usize, &'static [u8])
    ensures bound { result.0 ≤ length buf.new }
    ensures bytes { bytes.now ≡ take result.0 buf.new ++ result.1.now }
    ensures some { 0 < length bytes.now → 0 < length buf.new → 0 < result.0 }
{
    let count = bytes.len().min(buf.len());
    buf[..count].copy_from_slice(&bytes[..count]);
    (count, &bytes[count..])
}

/// Up to 128 bytes.
#[derive(Drop)]
pub(crate) struct Held {
    bytes: [u8; MOST],
    end: usize,
}

impl Model for Held {
    ghost use Rattle.std.specs.Prelude.{◌≤◌, ℕ, List, take};

    ghost Value = { List ℕ };

    ghost view = { λ h. take h.end h.bytes };

    ghost invariant = { λ h. h.end ≤ 128 };
}

impl Held {
    /// Holds nothing.
    pub(crate) fn new() -> Held
        ensures { result ≡ [] }
    {
        Held {
            bytes: [0; MOST],
            end: 0,
        }
    }

    /// Returns the bytes.
    pub(crate) fn bytes(&self) -> &[u8]
        ensures { result.now ≡ self.now }
    {
        &self.bytes[..self.end]
    }

    /// Holds the byte 0 alone, which truncates an image.
    pub(crate) fn cut(&mut self)
        ensures { self.new ≡ 0 ∷ [] }
    {
        self.bytes = [0; MOST];
        self.end = 1;
    }

    /// Holds the label `label` as a block.
    pub(crate) fn put(&mut self, label: &[u8; 80])
        ensures { self.new ≡ written_block label.now }
    {
        self.bytes = *EMPTY;
        self.bytes[4..84].copy_from_slice(label);
        self.end = LABEL;
    }

    /// Holds `bytes`.
    pub(crate) fn keep(&mut self, bytes: &[u8])
        requires { length bytes.now ≤ 128 }
        ensures { self.new ≡ bytes.now }
    {
        self.bytes[..bytes.len()].copy_from_slice(bytes);
        self.end = bytes.len();
    }

    /// Moves bytes to the start of `buf`, as many as it has room for, and returns their number.
    pub(crate) fn take(&mut self, buf: &mut [u8]) -> usize
        ensures bound { result ≤ length buf.new }
        ensures bytes { self.old ≡ take result buf.new ++ self.new }
        ensures some { 0 < length self.old → 0 < length buf.new → 0 < result }
    {
        let count = self.end.min(buf.len());
        buf[..count].copy_from_slice(&self.bytes[..count]);
        self.bytes.copy_within(count..self.end, 0);
        self.end -= count;
        count
    }

    /// Reads until `count` bytes are held, and returns false if the device ends before that. What
    /// was read before an error is kept.
    ///
    /// # Errors
    ///
    /// Returns the error of the device.
    pub(crate) fn fill<R: Read>(&mut self, device: &mut R, count: usize) -> io::Result<bool>
        requires { count ≤ 128 }
        ensures keeps { Keeps (prepend_known self.old (R.remaining device.old))
            (prepend_known self.new (R.remaining device.new)) }
        ensures grows { (more : List ℕ) × (self.new ≡ self.old ++ more) }
        ensures all { IfOk result (λ whole. whole ≡ true → count ≤ length self.new) }
        ensures end { IfOk result (λ whole. whole ≡ false
            → (length self.new < count) × IsAtEnd (R.remaining device.new)) }
    {
        'bytes: while self.end < count {
            match device.read(&mut self.bytes[self.end..count])? {
                0 => return Ok(false),
                read => self.end += read,
            }
        }
        Ok(true)
    }
}
