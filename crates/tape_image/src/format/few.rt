//! A few bytes that were read and have not been given on.

ghost use Rattle.std.specs.Prelude.{◌≡◌, ℕ, List, [], ◌++◌, ◌≤◌, ◌<◌, length, take, drop, IfOk};
ghost use Rattle.std.specs.Prelude.{true, false};
ghost use Rattle.std.specs.Io.KnownBytes.{Keeps, IsAtEnd, prepend_known};
ghost use Rattle.tape_image.specs.Format.{piece_bytes};

use crate::block::BAD;
use crate::format::step::Piece;
use byteorder::{ByteOrder, LittleEndian};
use std::io;
use std::io::Read;
use std::marker::Model;

/// Up to 10 bytes.
#[derive(Drop)]
pub(crate) struct Few {
    bytes: [u8; 10],
    end: usize,
}

impl Model for Few {
    ghost use Rattle.std.specs.Prelude.{◌≤◌, ℕ, List, take};

    ghost Value = { List ℕ };

    ghost view = { λ f. take f.end f.bytes };

    ghost invariant = { λ f. f.end ≤ 10 };
}

impl Few {
    /// Holds nothing.
    pub(crate) fn new() -> Few
        ensures { result ≡ [] }
    {
        Few {
            bytes: [0; 10],
            end: 0,
        }
    }

    /// Returns the bytes.
    pub(crate) fn bytes(&self) -> &[u8]
        ensures { result.now ≡ self.now }
    {
        &self.bytes[..self.end]
    }

    /// Holds a piece of an image.
    pub(crate) fn put(&mut self, piece: Piece)
        ensures { self.new ≡ piece_bytes piece }
    {
        match piece {
            Piece::Nothing => self.end = 0,
            Piece::Zero => {
                self.bytes = [0; 10];
                self.end = 1;
            }
            Piece::Word(word) => {
                LittleEndian::write_u32(&mut self.bytes, word);
                self.end = 4;
            }
            Piece::ZeroWord(word) => {
                let mut four = [0u8; 4];
                LittleEndian::write_u32(&mut four, word);
                self.bytes = [0, four[0], four[1], four[2], four[3], 0, 0, 0, 0, 0];
                self.end = 5;
            }
            Piece::Bad => {
                self.bytes = BAD;
                self.end = 10;
            }
        }
    }

    /// Moves bytes to the start of `buf`, as many as it has room for, and returns their number.
    pub(crate) fn take(&mut self, buf: &mut [u8]) -> usize
        ensures bound { result ≤ length buf.new }
        ensures bytes { self.old ≡ take result buf.new ++ self.new }
        ensures some { 0 < length self.old → 0 < length buf.new → 0 < result }
    {
        let count = self.end.min(buf.len());
        buf[..count].copy_from_slice(&self.bytes[..count]);
        self.bytes.copy_within(count..self.end, 0);
        self.end -= count;
        count
    }

    /// Drops the first `count` bytes.
    pub(crate) fn skip(&mut self, count: usize)
        requires { count ≤ length self.old }
        ensures { self.new ≡ drop count self.old }
    {
        self.bytes.copy_within(count..self.end, 0);
        self.end -= count;
    }

    /// Reads until `count` bytes are held, and returns false if the device ends before that. What
    /// was read before an error is kept.
    ///
    /// # Errors
    ///
    /// Returns the error of the device.
    pub(crate) fn fill<R: Read>(&mut self, device: &mut R, count: usize) -> io::Result<bool>
        requires { count ≤ 10 }
        ensures keeps { Keeps (prepend_known self.old (R.remaining device.old))
            (prepend_known self.new (R.remaining device.new)) }
        ensures all { IfOk result (λ whole. whole ≡ true → count ≤ length self.new) }
        ensures end { IfOk result (λ whole. whole ≡ false
            → (length self.new < count) × IsAtEnd (R.remaining device.new)) }
    {
        'bytes: while self.end < count {
            match device.read(&mut self.bytes[self.end..count])? {
                0 => return Ok(false),
                read => self.end += read,
            }
        }
        Ok(true)
    }
}
