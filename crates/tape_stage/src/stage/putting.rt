//! A stage as a sink: appending parts, saving and walking.

ghost use Rattle.std.specs.Prelude.{◌≡◌, ◌+◌, ◌≤◌, ◌<◌, ◌∷◌, ◌++◌, [], List, length, OnOk, OnErr};
ghost use Rattle.std.specs.Prelude.{◌-◌, Err, false, IfErr, ◌≢◌, ◌⊎◌};
ghost use Rattle.std.proofs.Common.{inr};
ghost use Rattle.tape_blocks.specs.{Block.Portion, Parts.view};
ghost use Rattle.tape_core.specs.{Weight.Rose, Stands.weight_of, Known.most_staged};
ghost use Rattle.tape_core.specs.Crash.{AddsNothing, AddsOnly, IsThis, ThisAlone};
ghost use Rattle.tape_stage.specs.Stages.{IsStage, Holds, IsAhead, LendsNone, crashes_of};
ghost use Rattle.tape_stage.specs.Staged.{StagedIn, KeepsFront, IsSaving, SameFrames};
ghost use Rattle.tape_stage.specs.Stages.{HasNamed, IsPending, RefusesChange, SameStage};
ghost use Rattle.tape_stage.specs.{Body.most_generation, Parts.longest_part, Moments.Passes};
ghost use Rattle.tape_stage.specs.{Disk.SameFact, Faults.sink_fault_of};

use crate::disk::Disk;
use crate::stage::frames::read_frame;
use crate::stage::{MOST_STAGED, Stage, StageFault};
use tape_blocks::Part;
use tape_core::{Checkpoint, PartSink, PartWalk, SinkFault};

/// Returns the fault as a fault of a sink. The faults of opening do not occur here.
fn sink_fault(fault: StageFault) -> SinkFault
    ensures { result ≡ sink_fault_of fault }
{
    match fault {
        StageFault::OutOfMemory => SinkFault::OutOfMemory,
        StageFault::Device => SinkFault::Device,
        StageFault::Full => SinkFault::Full,
        StageFault::Failed | StageFault::NoPoint | StageFault::BadFrame(_) => SinkFault::Failed,
    }
}

impl<D: Disk> PartSink for Stage<D> {
    ghost holds = { λ s parts. Holds s parts };

    ghost weighs = { λ s. s.weight };

    ghost refusals = { λ s. s.refused };

    ghost refuses_change = { λ s fault t. RefusesChange s fault t };

    ghost crashes = { λ s. crashes_of s };

    ghost returned_now = { λ s t back there now. (now.0, inr now.1, now.2) };

    ghost survived_now = { λ s t each bytes left. each bytes (inr left) };

    #[inline(always)]
    fn put(&mut self, part: Part<'_>) -> Result<(), SinkFault>
        requires { length part.bytes.now ≤ longest_part }
        ensures alive { OnOk result (self.old.failed ≡ false) }
        ensures staged { D.is_honest self.old.disk → OnOk result ((acked parts : List Portion)
            → IsStage self.old acked parts
            → IsStage self.new acked (parts ++ view part.entry ∷ [])) }
        ensures any_moment { D.is_honest self.old.disk → (acked parts : List Portion)
            → IsStage self.old acked parts → Passes D.Disk self.old.disk self.new.disk
            (StagedIn self.old.in_second self.old.generation self.old.acknowledged acked) }
        ensures kept { D.is_honest self.old.disk
            → KeepsFront (256 + self.old.weight) (D.seen self.old.disk) (D.seen self.new.disk) }
        ensures ok { OnOk result ((parts : List Portion) → Holds self.old parts
            → Holds self.new (parts ++ view part.entry ∷ [])) }
        ensures err { OnErr result ((parts : List Portion) → Holds self.old parts
            → Holds self.new parts) }
        ensures weight { OnOk result
            (self.new.weight ≡ self.old.weight + (5 + length part.entry.bytes.now)) }
        ensures same_weight { OnErr result (self.new.weight ≡ self.old.weight) }
        ensures full { result ≡ Err SinkFault.Full
            → most_staged < self.old.weight + (5 + length part.entry.bytes.now) }
        ensures cause { OnErr result (Rose self.old.refused self.new.refused) }
        ensures calm { OnOk result (self.new.refused ≡ self.old.refused) }
        ensures crash { (parts : List Portion) → Holds self.old parts
            → AddsNothing (crashes_of self.old) (crashes_of self.new) }
        ensures why { IfErr result (λ fault. RefusesChange self.old fault self.new) }
        ensures rewinds { OnOk result (self.new.walked ≡ 0) }
        ensures acknowledged { (self.new.acknowledged ≡ self.old.acknowledged)
            × (self.new.pending ≡ self.old.pending) }
        ensures usable { OnOk result ((self.new.failed ≡ false)
            × (self.new.readable ≡ self.old.readable)) }
        ensures honest { SameFact (D.is_honest self.old.disk) (D.is_honest self.new.disk) }
    {
        // What a failed disk contains is known only once the stage is opened again.
        if self.failed {
            self.refused = self.refused.saturating_add(1);
            return Err(SinkFault::Failed);
        }
        let size = 5 + part.bytes.len();
        if size as u64 > MOST_STAGED - self.weight {
            self.refused = self.refused.saturating_add(1);
            return Err(SinkFault::Full);
        }
        let frame = self.buffer.as_mut_slice();
        // The four bytes of the length, stored next to each other, are a single store.
        frame[1..5].copy_from_slice(&(part.bytes.len() as u32).to_be_bytes());
        frame[0] = part.span.indicator();
        frame[5..size].copy_from_slice(part.bytes);
        // No sync: the part counts once a checkpoint that includes it is saved, and saving begins
        // with a sync.
        match self.disk.write_at(256 + self.weight, &self.buffer[..size]) {
            Ok(()) => {
                self.walked = 0;
                self.weight += size as u64;
                Ok(())
            }
            Err(_) => {
                self.failed = true;
                self.readable = false;
                self.refused = self.refused.saturating_add(1);
                Err(SinkFault::Device)
            }
        }
    }

    fn keep(&mut self, point: &Checkpoint) -> Result<(), SinkFault>
        requires { point.now.staged ≡ self.old.weight }
        ensures alive { OnOk result (self.old.failed ≡ false) }
        ensures same_weight { self.new.weight ≡ self.old.weight }
        ensures same { (parts : List Portion) → Holds self.old parts → Holds self.new parts }
        ensures cause { OnErr result (Rose self.old.refused self.new.refused) }
        ensures calm { OnOk result (self.new.refused ≡ self.old.refused) }
        ensures crash { (parts : List Portion) → Holds self.old parts
            → AddsOnly (IsThis point.now parts) (crashes_of self.old) (crashes_of self.new) }
        ensures kept { OnOk result ((parts : List Portion) → Holds self.old parts
            → ThisAlone point.now parts (crashes_of self.new)) }
        ensures why { IfErr result (λ fault. RefusesChange self.old fault self.new) }
        ensures full { result ≡ Err SinkFault.Full → most_generation ≤ self.old.generation }
        ensures named { OnOk result (HasNamed point.now self.old self.new) }
        ensures pending { result ≡ Err SinkFault.Device
            → IsPending point.now self.old self.new }
        ensures usable { OnOk result ((self.new.failed ≡ false)
            × (self.new.readable ≡ self.old.readable)) }
    {
        match self.save(point) {
            Ok(()) => Ok(()),
            Err(fault) => {
                self.refused = self.refused.saturating_add(1);
                Err(sink_fault(fault))
            }
        }
    }

    fn cut_to(&mut self, point: &Checkpoint) -> Result<(), SinkFault>
        requires { point.now.staged ≤ self.old.weight }
        ensures alive { OnOk result (self.old.failed ≡ false) }
        ensures weight { OnOk result (self.new.weight ≡ point.now.staged) }
        // A part that the weight divides keeps its first bytes, and has no valid frame any more.
        ensures frames { D.is_honest self.old.disk → OnOk result (SameFrames point.now.staged
            (D.seen self.old.disk) (D.seen self.new.disk)) }
        ensures any_point { D.is_honest self.old.disk → (acked parts : List Portion)
            → IsStage self.old acked parts
            → Passes D.Disk self.old.disk self.new.disk (IsSaving self.old.in_second
            self.old.generation self.old.acknowledged point.now acked
            (SameFrames point.now.staged (D.seen self.old.disk))) }
        ensures same_weight { OnErr result (self.new.weight ≡ self.old.weight) }
        ensures ok { OnOk result ((front rest : List Portion) → Holds self.old (front ++ rest)
            → weight_of front ≡ point.now.staged → Holds self.new front) }
        ensures err { IfErr result (λ fault. fault ≢ SinkFault.Device → (parts : List Portion)
            → Holds self.old parts → Holds self.new parts) }
        ensures cause { OnErr result (Rose self.old.refused self.new.refused) }
        ensures calm { OnOk result (self.new.refused ≡ self.old.refused) }
        ensures crash { (front rest : List Portion) → Holds self.old (front ++ rest)
            → weight_of front ≡ point.now.staged
            → AddsOnly (IsThis point.now front) (crashes_of self.old) (crashes_of self.new) }
        ensures why { IfErr result (λ fault. RefusesChange self.old fault self.new) }
        ensures full { result ≡ Err SinkFault.Full → most_generation ≤ self.old.generation }
        ensures rewinds { OnOk result (self.new.walked ≡ 0) }
        ensures stays { self.old.acknowledged.staged ≤ point.now.staged
            → (self.new.acknowledged ≡ self.old.acknowledged)
            × (self.new.pending ≡ self.old.pending)
            × (self.new.in_second ≡ self.old.in_second)
            × (self.new.generation ≡ self.old.generation) }
        ensures drops { point.now.staged < self.old.acknowledged.staged
            → OnOk result (HasNamed point.now self.old self.new)
            × (result ≡ Err SinkFault.Device → HasNamed point.now self.old self.new
            ⊎ IsPending point.now self.old self.new) }
        ensures usable { OnOk result ((self.new.failed ≡ false)
            × (self.new.readable ≡ self.old.readable)) }
    {
        if self.failed {
            self.refused = self.refused.saturating_add(1);
            return Err(SinkFault::Failed);
        }
        let staged = point.staged;
        // No checkpoint is saved if no acknowledged part is dropped.
        if self.acknowledged.staged <= staged {
            return match self.cut_parts(staged) {
                Ok(()) => Ok(()),
                Err(fault) => {
                    self.refused = self.refused.saturating_add(1);
                    Err(sink_fault(fault))
                }
            };
        }
        match self.restart(point) {
            Ok(()) => {
                self.walked = 0;
                Ok(())
            }
            Err(fault) => {
                self.refused = self.refused.saturating_add(1);
                Err(sink_fault(fault))
            }
        }
    }

    fn weight(&self) -> u64 {
        self.weight
    }
}

impl<D: Disk> PartWalk for Stage<D> {
    ghost use Rattle.std.specs.Borrow.{sem};
    ghost use Rattle.tape_stage.specs.Reads.{GivesAs};

    ghost ahead = { λ s parts. IsAhead s parts };

    ghost left = { λ s. s.weight - s.walked };

    ghost refuses = { λ s fault t.
        LendsNone D.Disk s.readable s.walked s.weight s.disk fault t.disk };

    fn rewind(&mut self)
        ensures keeps { (parts : List Portion) → Holds self.old parts → Holds self.new parts }
        ensures all { (parts : List Portion) → Holds self.old parts → IsAhead self.new parts }
        ensures crash { AddsNothing (crashes_of self.old) (crashes_of self.new) }
        ensures unchanged { SameStage self.old self.new × (self.new.disk ≡ self.old.disk)
            × (self.new.refused ≡ self.old.refused) }
    {
        // Nothing is read before a part is requested.
        self.walked = 0;
    }

    #[inline(always)]
    #[tactic(auto, using(crate::proofs::Passing::only_reads_self))]
    fn next_part(&mut self) -> Result<Option<Part<'_>>, SinkFault>
        ensures* after_borrow { sem 𝓛 (GivesAs D.row D.Disk self.entry result) }
    {
        if !self.readable {
            self.refused = self.refused.saturating_add(1);
            return Err(SinkFault::Failed);
        }
        if self.walked >= self.weight {
            return Ok(None);
        }
        let place = 256 + self.walked;
        let end = 256 + self.weight;
        match read_frame(&mut self.disk, self.buffer.as_mut_slice(), place, end) {
            Ok((span, size)) => {
                self.walked += 5 + size as u64;
                Ok(Some(Part {
                    span,
                    bytes: &self.buffer[..size],
                }))
            }
            Err(fault) => {
                self.refused = self.refused.saturating_add(1);
                Err(fault)
            }
        }
    }
}
