//! Packs records into blocks.

ghost use Rattle.std.specs.Prelude.{◌≡◌, ◌≢◌, ◌+◌, ◌≤◌, ◌⊎◌, [], true, false, IfOk, IfErr, IfSome};
ghost use Rattle.std.specs.Prelude.{IfNone, length, replicate, vec_capacity, ⊤, IsTrue, ◌↔◌};
ghost use Rattle.std.specs.Borrow.{sem};
ghost use mathlib.Core.Option.{none};
ghost use denote.Follow.{follows_so};
ghost use Rattle.tape_blocks.specs.Packing.{Packing, Given, IsWritable, Offers, IsJudged};
ghost use Rattle.tape_blocks.specs.{Block.IsUnit, Block.head_len, Spans.span_of};
ghost use Rattle.tape_blocks.specs.Packing.{IsRefused, emptied, size_of, with_part};

use crate::offer::{Offer, PackFault};
use crate::parts::Shape;
use crate::put::put_unit;
use crate::writing::{has_record_length, has_room, head_len, padded_len, span};
use std::alloc::{AllocError, Global};
use std::marker::Model;
use tape_label::Format;

/// Packs records into blocks of the given shape (ECMA-13, 4th edition: blocking of records).
///
/// The caller offers a record until it is accepted. Each time a block is ready, the caller takes it
/// and offers the rest of the record. At the end of the file the caller also takes the current
/// block. A block of format F or D is only closed if the next record does not fit, and a block of
/// format S if fewer than 6 bytes are free, so all blocks are as full as the records allow.
///
/// Only `new` allocates: no later call can run out of memory, or make the block larger.
#[derive(Drop)]
pub struct Packer {
    shape: Shape,
    // The buffer has as many bytes as the longest block, without spare capacity. The first `len` of
    // them are the current block; the rest has no meaning.
    block: Vec<u8>,
    len: usize,
    begun: bool,
    closed: bool,
}

impl Model for Packer {
    ghost use Rattle.tape_blocks.specs.Packing.{Packing};

    ghost Value = { Packing };

    ghost use Rattle.tape_blocks.specs.Packed.{packing, IsKept};

    ghost view = { packing };

    ghost invariant = { IsKept };
}

/// Returns `count` spaces, without spare capacity.
fn spaces(alloc: Global, count: usize) -> Result<Vec<u8>, AllocError>
    ensures items { IfOk result (λ block. block.items ≡ replicate count 32) }
    ensures room { IfOk result (λ block. vec_capacity block ≡ count) }
{
    let mut block = Vec::with_capacity(alloc, count)?;
    for _ in 0..count {
        block.push_reserved(b' ');
    }
    Ok(block)
}

impl Packer {
    ghost use Rattle.tape_blocks.specs.contracts.packer.Packer.{the_row};

    /// Creates a packer without a current block.
    ///
    /// # Errors
    ///
    /// Returns `ShapeRange` if blocks of this shape are not written: the format must be F, D or S,
    /// the block length 18 to 99,999, and the offset at most 99. In format F a record has at least
    /// 18 bytes and fits in a block after the offset; in format D the record length, which includes
    /// the four digits, is 4 to 9,999 and fits likewise; in format S the record length is 0, a
    /// block has at most 9,999 bytes, and at least 6 of them follow the offset. Only in format D
    /// can blocks be padded to the full block length. Then returns `OutOfMemory` if an allocation
    /// fails.
    pub fn new(alloc: Global, shape: Shape) -> Result<Packer, PackFault>
        ensures ok { IfOk result (λ p. IsWritable shape
            × (p ≡ record { shape = shape; parts = []; begun = false; closed = false })) }
        ensures err { IfErr result (λ e.
            ((e ≡ PackFault.ShapeRange) × (IsWritable shape → ⊥))
            ⊎ ((e ≡ PackFault.OutOfMemory) × IsWritable shape)) }
    {
        if !shape.is_writable() {
            return Err(PackFault::ShapeRange);
        }
        let Ok(block) = spaces(alloc, shape.block_len as usize) else {
            return Err(PackFault::OutOfMemory);
        };
        Ok(Packer {
            shape,
            block,
            len: usize::from(shape.offset),
            begun: false,
            closed: false,
        })
    }

    /// Appends a part with the content `bytes`; `goes_on` says whether the record continues after
    /// it.
    fn put_part(&mut self, goes_on: bool, bytes: &[u8])
        requires room { size_of self.old.shape self.old.parts
            + (head_len self.old.shape.format + length bytes.now) ≤ self.old.shape.block_len }
        requires unit { IsUnit self.old.shape.format self.old.shape.rec_len
            (record { span = span_of self.old.begun goes_on; bytes = bytes.now }) }
        requires spanned { goes_on ≡ true → self.old.shape.format ≡ Format.Spanned }
        ensures { self.new ≡ with_part self.old goes_on bytes.now }
    {
        let format = self.shape.format;
        let span = span(self.begun, goes_on);
        put_unit(self.block.as_mut_slice(), self.len, format, span, bytes);
        self.len += head_len(format) + bytes.len();
        self.begun = goes_on;
        self.closed = goes_on;
    }

    /// Offers a record, or the rest of a record of which a part was accepted.
    ///
    /// `Taken` means that the record has ended. `BlockReady(n)` means that the first n bytes of
    /// `rest` were accepted and the block is closed. If a closed block was not taken yet,
    /// `BlockReady(0)` is returned before anything else is checked.
    ///
    /// # Errors
    ///
    /// Returns `RecordLength`, which is checked at the start of a record: in format F its length
    /// differs from the record length, in format D it exceeds the record length less 4, in format S
    /// it exceeds 4,294,967,295. The packer is unchanged.
    pub fn offer(&mut self, rest: &[u8]) -> Result<Offer, PackFault>
        ensures ok { IfOk result (λ o. Offers self.old rest.now o self.new) }
        // A record that begins here has one of the lengths of the shape.
        ensures judged { IfOk result (λ _. IsJudged self.old rest.now) }
        ensures err { IfErr result (λ e. (e ≡ PackFault.RecordLength)
            × IsRefused self.old rest.now × (self.new ≡ self.old)) }
    {
        if self.closed {
            return Ok(Offer::BlockReady(0));
        }
        let format = self.shape.format;
        if !self.begun && !has_record_length(format, self.shape.rec_len, rest.len()) {
            return Err(PackFault::RecordLength);
        }
        let free = self.shape.block_len as usize - self.len;
        if !has_room(format, free, rest.len()) {
            self.closed = true;
            return Ok(Offer::BlockReady(0));
        }
        let room = free - head_len(format);
        if room < rest.len() {
            self.put_part(true, &rest[..room]);
            return Ok(Offer::BlockReady(room));
        }
        self.put_part(false, rest);
        Ok(Offer::Taken)
    }

    /// Takes the current block, if it contains a part, with the spaces of the buffer offset before
    /// it and padding after it. An unfinished record continues in the next block.
    ///
    /// A block of format F is not padded; a block of format D or S is padded to at least 18 bytes,
    /// and in format D with `pad_full` to the block length.
    pub fn take_block(&mut self) -> Option<&[u8]>
        ensures found { IfSome result (λ b. Given self.old b.now) }
        ensures none { IfNone result (self.old.parts ≡ []) }
        // Once the borrow of the block ends, or if no block was returned, the packer has no current
        // block.
        ensures* after { sem 𝓛 (follows_so the_row the_row self.entry.ghost_name none (λ _ _. ⊤)
            (λ n. n ≡ emptied self.old)) }
    {
        let offset = usize::from(self.shape.offset);
        if self.len == offset {
            return None;
        }
        let end = padded_len(&self.shape, self.len);
        self.block[self.len..end].fill(b'^');
        self.len = offset;
        self.closed = false;
        Some(&self.block[..end])
    }

    /// Returns true if there is a current block: a block that contains a part and was not taken
    /// yet.
    pub fn rest(&self) -> bool
        ensures { IsTrue result ↔ (self.now.parts ≢ []) }
    {
        self.len > usize::from(self.shape.offset)
    }
}
