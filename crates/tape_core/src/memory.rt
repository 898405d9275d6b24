//! An in-memory sink.

ghost use Rattle.std.specs.Prelude.{◌≡◌, ◌≤◌, ◌<◌, ◌-◌, ◌+◌, ◌*◌, ◌++◌, ◌∷◌, [], List, Some, drop};
ghost use Rattle.std.specs.Prelude.{take, length, slice_get, OnOk, OnErr};
ghost use Rattle.tape_blocks.specs.{Block.Portion, Parts.view, Packing.longest_block};
ghost use Rattle.tape_core.specs.{Weight.Rose, Known.most_staged, Stands.weight_of};
ghost use Rattle.tape_core.specs.Entries.{IsLaid, laid_one_way, end_from, viewed};

use crate::checkpoint::{Checkpoint, MOST_STAGED};
use crate::event::Entry;
use crate::sink::{PartSink, PartWalk, SinkFault};
use std::alloc::{AllocError, Global};
use tape_blocks::Part;

/// An in-memory sink, which does not survive a crash.
///
/// All bytes are in one allocation, and the entries of the parts, 16 bytes each, in another. Each
/// allocation grows by doubling.
#[derive(Drop)]
pub struct MemorySink {
    /// The bytes of all parts, in order.
    bytes: Vec<u8>,
    /// The entries of the parts, in order.
    entries: Vec<Entry>,
    /// The number of refused calls.
    refused: u64,
    /// The number of parts that the current walk has returned.
    given: usize,
    ghost laid: { IsLaid entries.items bytes.items } by { laid_one_way entries.items bytes.items },
    ghost light: { 5 * length entries.items + length bytes.items ≤ most_staged },
}

impl MemorySink {
    ghost use Rattle.tape_core.specs.Memory.{portions, IsLongestFront};

    /// Creates an empty sink. Does not allocate.
    pub fn new(alloc: Global) -> Self
        ensures empty { portions result ≡ [] }
        ensures calm { result.refused ≡ 0 }
    {
        MemorySink {
            bytes: Vec::new(alloc),
            entries: Vec::new(alloc),
            refused: 0,
            given: 0,
        }
    }

    /// Returns the number of parts.
    #[inline(always)]
    pub fn count(&self) -> usize
        ensures { result ≡ length (portions self.now) }
    {
        self.entries.len()
    }

    /// Returns part number `number`, counted from 0, or `None` if there is no such part.
    pub fn part(&self, number: usize) -> Option<Part<'_>>
        ensures { viewed result ≡ slice_get (portions self.now) number }
    {
        if number < self.count() {
            Some(self.lent(number))
        } else {
            None
        }
    }

    /// Borrows part number `number`.
    #[inline(always)]
    fn lent(&self, number: usize) -> Part<'_>
        requires { number < length (portions self.now) }
        ensures value { slice_get (portions self.now) number ≡ Some (view result) }
        ensures short { length result.bytes.now ≤ longest_block }
    {
        let start = self.end_of(number);
        let entry = self.entries[number];
        Part {
            span: entry.span,
            bytes: &self.bytes[start..entry.end],
        }
    }

    /// Returns the offset at which the bytes of the first `number` parts end.
    #[inline(always)]
    fn end_of(&self, number: usize) -> usize
        requires { number ≤ length (portions self.now) }
        ensures { result ≡ end_from 0 (take number self.now.entries.items) }
    {
        if number == 0 {
            return 0;
        }
        self.entries[number - 1].end
    }

    /// Returns the weight of the first `number` parts.
    #[inline(always)]
    fn weight_to(&self, number: usize) -> u64
        requires { number ≤ length (portions self.now) }
        ensures value { result ≡ weight_of (take number (portions self.now)) }
        ensures limit { result ≤ most_staged }
    {
        5 * number as u64 + self.end_of(number) as u64
    }

    /// Returns the greatest number of leading parts whose total weight is at most `most`.
    fn front(&self, most: u64) -> usize
        ensures within { result ≤ length (portions self.now) }
        ensures front { IsLongestFront most (take result (portions self.now)) (portions self.now) }
    {
        let mut number = self.count();
        while self.weight_to(number) > most {
            number -= 1;
        }
        number
    }

    /// Appends a part. If an allocation fails, nothing changes.
    #[inline(always)]
    fn add(&mut self, part: Part<'_>) -> Result<(), AllocError>
        requires short { length part.bytes.now ≤ longest_block }
        requires light { weight_of (portions self.old) + (5 + length part.bytes.now)
            ≤ most_staged }
        ensures ok { OnOk result (portions self.new ≡ portions self.old ++ view part.entry ∷ []) }
        ensures err { OnErr result (portions self.new ≡ portions self.old) }
        ensures refused { self.new.refused ≡ self.old.refused }
    {
        let end = self.bytes.len();
        self.bytes.extend_from_slice(part.bytes)?;
        let entry = Entry {
            span: part.span,
            end: self.bytes.len(),
        };
        match self.entries.push(entry) {
            Ok(()) => Ok(()),
            Err(_) => {
                self.bytes.truncate(end);
                Err(AllocError)
            }
        }
    }

    /// Counts a refused call.
    fn refuse(&mut self, fault: SinkFault) -> SinkFault
        ensures fault { result ≡ fault }
        ensures counted { Rose self.old.refused self.new.refused }
        ensures kept { portions self.new ≡ portions self.old }
    {
        self.refused = self.refused.saturating_add(1);
        fault
    }
}

impl PartSink for MemorySink {
    ghost use Rattle.tape_core.specs.Crash.{lost, AddsNothing};
    ghost use Rattle.tape_core.specs.{Weight.Rose, Memory.portions, Memory.IsLongestFront};
    ghost use Rattle.tape_core.specs.declared.sink.SinkFault.TheVariants.{Full, OutOfMemory};
    ghost use Rattle.std.specs.Prelude.{OnOk, OnErr, IfErr, Err, Ok, ◌⊎◌};

    ghost holds = { λ sink parts. parts ≡ portions sink };

    ghost weighs = { λ sink. weight_of (portions sink) };

    ghost refusals = { λ sink. sink.refused };

    ghost refuses_change = { λ _ fault _. (fault ≡ Full) ⊎ (fault ≡ OutOfMemory) };

    ghost crashes = { λ sink. lost };

    ghost returned_now = { λ sink t back there none. none };

    ghost survived_now = { λ sink t none. none };

    #[inline(always)]
    fn put(&mut self, part: Part<'_>) -> Result<(), SinkFault>
        requires { length part.bytes.now ≤ longest_block }
        ensures ok { OnOk result ((parts : List Portion) → parts ≡ portions self.old
            → parts ++ view part.entry ∷ [] ≡ portions self.new) }
        ensures err { OnErr result ((parts : List Portion) → parts ≡ portions self.old
            → parts ≡ portions self.new) }
        ensures weight { OnOk result (weight_of (portions self.new)
            ≡ weight_of (portions self.old) + (5 + length part.entry.bytes.now)) }
        ensures same_weight { OnErr result
            (weight_of (portions self.new) ≡ weight_of (portions self.old)) }
        ensures full { result ≡ Err SinkFault.Full → most_staged
            < weight_of (portions self.old) + (5 + length part.entry.bytes.now) }
        ensures cause { OnErr result (Rose self.old.refused self.new.refused) }
        ensures calm { OnOk result (self.new.refused ≡ self.old.refused) }
        ensures crash { (parts : List Portion) → parts ≡ portions self.old
            → AddsNothing lost lost }
        ensures why { IfErr result (λ fault.
            (fault ≡ SinkFault.Full) ⊎ (fault ≡ SinkFault.OutOfMemory)) }
        ensures rewinds { OnOk result (self.new.given ≡ 0) }
    {
        let heavy = 5 + part.bytes.len() as u64;
        if heavy > MOST_STAGED - self.weight() {
            return Err(self.refuse(SinkFault::Full));
        }
        match self.add(part) {
            Ok(()) => {
                self.given = 0;
                Ok(())
            }
            Err(_) => Err(self.refuse(SinkFault::OutOfMemory)),
        }
    }

    fn cut_to(&mut self, point: &Checkpoint) -> Result<(), SinkFault>
        requires { point.now.staged ≤ weight_of (portions self.old) }
        ensures taken { result ≡ Ok tt }
        ensures ok { (front rest : List Portion) → front ++ rest ≡ portions self.old
            → weight_of front ≡ point.now.staged → front ≡ portions self.new }
        // A part that the weight does not cover completely is dropped.
        ensures front { IsLongestFront point.now.staged (portions self.new) (portions self.old) }
        ensures calm { self.new.refused ≡ self.old.refused }
        ensures rewinds { self.new.given ≡ 0 }
    {
        let number = self.front(point.staged);
        let end = self.end_of(number);
        self.entries.truncate(number);
        self.bytes.truncate(end);
        self.given = 0;
        Ok(())
    }

    fn keep(&mut self, _point: &Checkpoint) -> Result<(), SinkFault>
        ensures taken { result ≡ Ok tt }
        ensures same { self.new ≡ self.old }
    {
        Ok(())
    }

    #[inline(always)]
    fn weight(&self) -> u64 {
        self.weight_to(self.count())
    }
}

impl PartWalk for MemorySink {
    ghost use Rattle.tape_core.specs.Memory.{portions};

    ghost ahead = { λ sink parts. parts ≡ drop sink.given (portions sink) };

    ghost left = { λ sink. length (portions sink) - sink.given };

    ghost refuses = { λ _ _ _. ⊥ };

    fn rewind(&mut self) {
        self.given = 0;
    }

    #[inline(always)]
    fn next_part(&mut self) -> Result<Option<Part<'_>>, SinkFault> {
        let given = self.given;
        if given >= self.count() {
            return Ok(None);
        }
        self.given += 1;
        Ok(Some(self.lent(given)))
    }
}
