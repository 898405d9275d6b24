//! The candidate for one item of the merged tape.

ghost use Rattle.std.specs.Prelude.{◌≡◌, ◌<◌, ◌↔◌, Some, None, is_some, IfOk, IfErr, OnOk, IsTrue};
ghost use Rattle.std.specs.Prelude.{IfSome};
ghost use Rattle.tape_image.specs.Reader.{tape_item};
ghost use Rattle.tape_run.specs.MergeSteps.{agrees, Takes, is_bad_one};
ghost use Rattle.tape_run.specs.{MergeCalls.Puts, MergeCalls.RefusesCandidate, MergeLog.kind_at};
ghost use Rattle.tape_run.specs.Passing.{blocks_of, step};
ghost use Rattle.tape_set.specs.Lawful.{most_blocks};

use super::line::ItemKind;
use crate::met::Told;
use crate::passing;
use crate::passing::Phase;
use std::alloc::{AllocError, Global};
use std::io::Write;
use std::marker::Model;
use tape_image::{ImageWriteFault, ImageWriter, Item};

/// The kind of a candidate.
#[derive(Clone, Copy)]
pub(crate) enum Kind {
    /// No reading has an item here.
    Nothing,
    Bad,
    Mark,
    /// A block, whose bytes are in the buffer.
    Block,
}

/// The maximum number of bytes of a block.
const LONGEST_BLOCK: usize = 99_999;

/// The best item that the readings have at one place of the tape, so far: none, a bad one, or one
/// that could be read. A block is copied.
#[derive(Drop)]
pub struct Candidate {
    kind: Kind,
    content: Vec<u8>,
}

impl Model for Candidate {
    ghost use Rattle.std.specs.Prelude.{Option};
    ghost use Rattle.tape_image.specs.Tape.{TapeItem};
    ghost use Rattle.tape_run.specs.MergeCalls.{candidate_of};

    ghost Value = { Option TapeItem };

    ghost view = { λ t. candidate_of t.kind t.content.items };
}

impl Candidate {
    /// Creates an empty candidate, and reserves the memory for a block.
    ///
    /// # Errors
    ///
    /// `AllocError` if that memory is refused.
    pub fn new(alloc: Global) -> Result<Candidate, AllocError>
        ensures { IfOk result (λ best. best ≡ None) }
    {
        let content = Vec::with_capacity(alloc, LONGEST_BLOCK)?;
        Ok(Candidate {
            kind: Kind::Nothing,
            content,
        })
    }

    /// Removes the item.
    pub(crate) fn clear(&mut self)
        ensures { self.new ≡ None }
    {
        self.kind = Kind::Nothing;
    }

    /// Returns whether there is an item.
    pub(crate) fn is_some(&self) -> bool
        ensures { result ≡ is_some self.now }
    {
        !matches!(self.kind, Kind::Nothing)
    }

    /// Returns whether the item is a bad one.
    pub(crate) fn is_bad(&self) -> bool
        ensures { result ≡ is_bad_one self.now }
    {
        matches!(self.kind, Kind::Bad)
    }

    /// Returns the kind of the item, if there is one.
    pub(crate) fn kind(&self) -> Option<ItemKind>
        ensures none { self.now ≡ None → result ≡ None }
        ensures some { IfSome self.now (λ x. result ≡ Some (kind_at x)) }
    {
        match self.kind {
            Kind::Nothing => None,
            Kind::Bad => Some(ItemKind::Bad),
            Kind::Mark => Some(ItemKind::Mark),
            Kind::Block => Some(ItemKind::Block(self.content.len() as u64)),
        }
    }

    /// Returns what is expected after the item on a labelled volume, and the section that the item
    /// completes.
    pub(crate) fn step(&self, phase: Phase) -> (Phase, Option<Told>)
        requires { blocks_of phase < most_blocks }
        ensures { IfSome self.now (λ x. result ≡ step phase x) }
    {
        match self.kind {
            Kind::Nothing => (Phase::Over, None),
            Kind::Bad => passing::step(phase, Item::Bad),
            Kind::Mark => passing::step(phase, Item::Mark),
            Kind::Block => passing::step(phase, Item::Block(self.content.as_slice())),
        }
    }

    /// Returns whether `item` can be at the same place of one tape as the candidate: one of the two
    /// is bad, they are equal, or there is no candidate yet.
    fn agrees(&self, item: Item<'_>) -> bool
        ensures { IsTrue result ↔ agrees self.now (tape_item item.entry) }
    {
        match item {
            Item::Bad => true,
            Item::Mark => !matches!(self.kind, Kind::Block),
            Item::Block(bytes) => match self.kind {
                Kind::Nothing | Kind::Bad => true,
                Kind::Mark => false,
                Kind::Block => self.content.as_slice() == bytes,
            },
        }
    }

    /// Replaces the item.
    fn set(&mut self, item: Item<'_>) -> Result<(), AllocError>
        ensures { OnOk result (self.new ≡ Some (tape_item item.entry)) }
    {
        match item {
            Item::Block(bytes) => {
                self.content.clear();
                self.content.extend_from_slice(bytes)?;
                self.kind = Kind::Block;
            }
            Item::Bad => self.kind = Kind::Bad,
            Item::Mark => self.kind = Kind::Mark,
        }
        Ok(())
    }

    /// Accepts an item of a reading, if it agrees, and keeps the better of the two. Returns whether
    /// it agrees.
    pub(crate) fn take(&mut self, item: Item<'_>) -> Result<bool, AllocError>
        ensures { IfOk result (λ agreed. Takes self.old (tape_item item.entry) agreed self.new) }
    {
        if !self.agrees(item) {
            return Ok(false);
        }
        // Any item is better than none, and a readable one better than a bad one.
        if matches!(self.kind, Kind::Nothing | Kind::Bad) {
            self.set(item)?;
        }
        Ok(true)
    }

    /// Writes the item and returns true; returns false if there is no item.
    pub(crate) fn put<W: Write + Drop>(
        &self,
        out: &mut ImageWriter<W>,
    ) -> Result<bool, ImageWriteFault>
        ensures ok { IfOk result (λ some. Puts self.now some out.old out.new) }
        ensures err { IfErr result (λ fault. RefusesCandidate self.now fault out.old out.new) }
    {
        match self.kind {
            Kind::Nothing => return Ok(false),
            Kind::Bad => out.bad()?,
            Kind::Mark => out.mark()?,
            Kind::Block => out.block(self.content.as_slice())?,
        }
        Ok(true)
    }
}
