//! A sink that writes the records of a file as its parts come, and stores none of them, except an
//! unfinished record whose length has to precede it.

ghost use Rattle.std.specs.Prelude.{◌≡◌, ◌≢◌, ◌≤◌, ◌<◌, ◌+◌, ◌++◌, ◌∷◌, [], List, Some, None};
ghost use Rattle.std.specs.Prelude.{is_some, length, true, OnOk, OnErr, IfOk, IfErr, Ok, Err};
ghost use Rattle.tape_blocks.specs.{Block.Portion, Packing.longest_block, Parts.view};
ghost use Rattle.tape_blocks.specs.Spans.{leaves, join};
ghost use Rattle.tape_core.specs.{Crash.lost, Known.most_staged, Stands.weight_of, Weight.Rose};
ghost use Rattle.tape_run.specs.{Causes.CannotEnd, Causes.EndingFails, RecordText.output_of};
ghost use Rattle.tape_run.specs.OutSinks.{TellsAlways, with_end, HasTaken, RefusesText};

use crate::extract::{walk_fault, write_part};
use crate::fault::EngineFault;
use crate::text::flush;
use std::alloc::Global;
use std::io::Write;
use tape_blocks::{Form, Part, Span};
use tape_core::{Checkpoint, PartSink, SinkFault};

/// The greatest total weight of the parts.
const MOST_STAGED: u64 = 999_999_999_999_999;

/// Writes the records of a file as its parts come. Allocates only in the form `Counted`, for an
/// unfinished record ([`write_part`]), and nothing survives a crash.
///
/// After a failed write, and after the output was finished, every `put` and `finish` is refused.
#[derive(Drop)]
pub struct OutSink<W> {
    /// The writer of the records, until a write fails or the output is finished.
    out: Option<W>,
    /// The form in which records are terminated.
    form: Form,
    /// The weight of the parts.
    weight: u64,
    /// The number of records that have ended.
    records: u64,
    /// Whether a record is unfinished.
    begun: bool,
    /// The number of calls that were refused.
    refused: u64,
    /// In the form `Counted`, the bytes of an unfinished record, whose length is not known yet.
    held: Vec<u8>,
    ghost light: { weight ≤ most_staged },
    ghost few: { records ≤ weight },
}

/// Returns how many records have ended after a part.
#[inline(always)]
fn with_end(span: Span, records: u64) -> u64
    requires { records ≤ most_staged }
    ensures { result ≡ with_end (leaves span) records }
{
    if span.leaves() { records } else { records + 1 }
}

impl<W: Write> OutSink<W> {
    /// Creates a sink without parts, over a writer to which nothing was written.
    pub fn new(alloc: Global, out: W, form: Form) -> OutSink<W>
        ensures empty { (TellsAlways W.contents → W.contents out ≡ Some [])
            → HasTaken W.contents form result.out result.held.items result.weight
            result.records result.begun [] }
        ensures form { result.form ≡ form }
        ensures out { result.out ≡ Some out }
        ensures calm { result.refused ≡ 0 }
    {
        OutSink {
            out: Some(out),
            form,
            weight: 0,
            records: 0,
            begun: false,
            refused: 0,
            held: Vec::new(alloc),
        }
    }
}

impl<W: Write + Drop> OutSink<W> {
    /// Ends the output: flushes the writer, and gives it up, with the number of records.
    ///
    /// # Errors
    ///
    /// Returns `Run(Sink(Failed))` if a record is unfinished, or the records were not written in
    /// this `form`; `WriteFailed` if a write fails now, or failed before, or the output was already
    /// finished.
    pub fn finish(&mut self, form: Form) -> Result<(W, u64), EngineFault>
        ensures ok { IfOk result (λ given. (parts : List Portion) → HasTaken W.contents
            self.old.form self.old.out self.old.held.items self.old.weight self.old.records
            self.old.begun parts
            → (given.1 ≡ length (join parts).records)
            × (TellsAlways W.contents → W.contents given.0 ≡ Some (output_of form parts))) }
        ensures cause { IfErr result (EndingFails self.old.begun self.old.form form) }
        ensures ended { OnOk result (CannotEnd self.old.begun self.old.form form → ⊥) }
        // If the output can be finished, the writer is given up, whether or not a write fails.
        ensures gone { (CannotEnd self.old.begun self.old.form form → ⊥) → self.new.out ≡ None }
        ensures calm { self.new.refused ≡ self.old.refused }
        ensures kept { (parts : List Portion) → HasTaken W.contents self.old.form self.old.out
            self.old.held.items self.old.weight self.old.records self.old.begun parts
            → HasTaken W.contents self.new.form self.new.out self.new.held.items
            self.new.weight self.new.records self.new.begun parts }
        ensures stays { IfErr result (λ fault. fault ≢ EngineFault.WriteFailed
            → self.new ≡ self.old) }
    {
        if self.begun || self.form != form {
            return Err(walk_fault(SinkFault::Failed));
        }
        let Some(mut out) = self.out.take() else {
            return Err(EngineFault::WriteFailed);
        };
        flush(&mut out)?;
        Ok((out, self.records))
    }
}

impl<W: Write + Drop> PartSink for OutSink<W> {
    ghost holds = { λ s parts. HasTaken W.contents s.form s.out s.held.items s.weight
        s.records s.begun parts };

    ghost weighs = { λ s. s.weight };

    ghost refusals = { λ s. s.refused };

    ghost refuses_change = { λ s fault t.
        RefusesText s.form (is_some s.out) t.weight fault (is_some t.out) };

    ghost crashes = { λ s. lost };

    ghost returned_now = { λ s t back there none. none };

    ghost survived_now = { λ s t none. none };

    #[inline(always)]
    fn put(&mut self, part: Part<'_>) -> Result<(), SinkFault>
        requires { length part.bytes.now ≤ longest_block }
        ensures ok { OnOk result ((parts : List Portion)
            → HasTaken W.contents self.old.form self.old.out self.old.held.items
            self.old.weight self.old.records self.old.begun parts
            → HasTaken W.contents self.new.form self.new.out self.new.held.items
            self.new.weight self.new.records self.new.begun (parts ++ view part.entry ∷ [])) }
        ensures err { OnErr result ((parts : List Portion)
            → HasTaken W.contents self.old.form self.old.out self.old.held.items
            self.old.weight self.old.records self.old.begun parts
            → HasTaken W.contents self.new.form self.new.out self.new.held.items
            self.new.weight self.new.records self.new.begun parts) }
        ensures weight { OnOk result
            (self.new.weight ≡ self.old.weight + (5 + length part.entry.bytes.now)) }
        ensures same_weight { OnErr result (self.new.weight ≡ self.old.weight) }
        ensures full { result ≡ Err SinkFault.Full
            → most_staged < self.old.weight + (5 + length part.entry.bytes.now) }
        ensures cause { OnErr result (Rose self.old.refused self.new.refused) }
        ensures calm { OnOk result (self.new.refused ≡ self.old.refused) }
        ensures why { IfErr result (λ fault.
            RefusesText self.old.form (is_some self.old.out) self.new.weight fault
            (is_some self.new.out)) }
        // A put is refused only because of the weight, or because a write failed now or before.
        ensures failed { result ≡ Err SinkFault.Failed → self.old.out ≡ None }
        // A part that is accepted was written, and the writer is kept.
        ensures writer { OnOk result ((is_some self.old.out ≡ true)
            × (is_some self.new.out ≡ true)) }
        ensures form { self.new.form ≡ self.old.form }
    {
        let Some(out) = &mut self.out else {
            self.refused = self.refused.saturating_add(1);
            return Err(SinkFault::Failed);
        };
        let heavy = 5 + part.bytes.len() as u64;
        if heavy > MOST_STAGED - self.weight {
            self.refused = self.refused.saturating_add(1);
            return Err(SinkFault::Full);
        }
        match write_part(out, part, self.form, &mut self.held) {
            Ok(()) => {
                self.records = with_end(part.span, self.records);
                self.begun = part.span.leaves();
                self.weight += heavy;
                Ok(())
            }
            Err(EngineFault::WriteFailed) => {
                self.out = None;
                self.refused = self.refused.saturating_add(1);
                Err(SinkFault::Device)
            }
            Err(EngineFault::Run(_)) => {
                self.refused = self.refused.saturating_add(1);
                Err(SinkFault::OutOfMemory)
            }
        }
    }

    /// Refuses every cut except one to all parts, which changes nothing: written records cannot be
    /// removed.
    fn cut_to(&mut self, point: &Checkpoint) -> Result<(), SinkFault>
        requires { point.now.staged ≤ self.old.weight }
        ensures ok { OnOk result ((front rest : List Portion)
            → HasTaken W.contents self.old.form self.old.out self.old.held.items
            self.old.weight self.old.records self.old.begun (front ++ rest) → weight_of front ≡ point.now.staged
            → HasTaken W.contents self.new.form self.new.out self.new.held.items
            self.new.weight self.new.records self.new.begun front) }
        ensures weight { OnOk result (self.new.weight ≤ point.now.staged) }
        ensures calm { OnOk result (self.new.refused ≡ self.old.refused) }
        ensures refused { IfErr result (λ fault. (fault ≡ SinkFault.Failed)
            × (point.now.staged ≢ self.old.weight)) }
        ensures err { OnErr result ((parts : List Portion)
            → HasTaken W.contents self.old.form self.old.out self.old.held.items
            self.old.weight self.old.records self.old.begun parts
            → HasTaken W.contents self.new.form self.new.out self.new.held.items
            self.new.weight self.new.records self.new.begun parts) }
        ensures same_weight { self.new.weight ≡ self.old.weight }
        ensures writer { self.new.out ≡ self.old.out }
        ensures form { self.new.form ≡ self.old.form }
        ensures cause { OnErr result (Rose self.old.refused self.new.refused) }
        ensures why { IfErr result (λ fault.
            RefusesText self.old.form (is_some self.old.out) self.new.weight fault
            (is_some self.new.out)) }
    {
        if point.staged == self.weight {
            return Ok(());
        }
        self.refused = self.refused.saturating_add(1);
        Err(SinkFault::Failed)
    }

    fn keep(&mut self, _point: &Checkpoint) -> Result<(), SinkFault>
        ensures taken { result ≡ Ok tt }
        ensures same { self.new ≡ self.old }
    {
        Ok(())
    }

    fn weight(&self) -> u64 {
        self.weight
    }
}
