//! A sink that refuses one call, for tests.

ghost use Rattle.std.specs.Prelude.{◌≡◌, ◌≢◌, ◌↔◌, ◌<◌, ◌≤◌, ◌+◌, ◌-◌, ◌^◌, ◌++◌, ◌∷◌, [], List};
ghost use Rattle.std.specs.Prelude.{length, IsTrue, OnOk, OnErr, IfErr, Err};
ghost use Rattle.std.specs.Bool.{OnTrue, OnFalse};
ghost use Rattle.tape_blocks.specs.{Block.Portion, Parts.view, Packing.longest_block};
ghost use Rattle.tape_core.specs.Crash.{AddsNothing, AddsOnly, IsThis, ThisAlone};
ghost use Rattle.tape_core.specs.{Known.most_staged, Refusing.RefusesOne, Stands.weight_of};
ghost use Rattle.tape_core.specs.Weight.{Rose};

use crate::checkpoint::Checkpoint;
use crate::sink::{PartSink, SinkFault};
use tape_blocks::Part;

/// A sink that passes each call on to another sink, except one, which it refuses: `put` and `keep`
/// with `Device`, `cut_to` with `Failed`. A refused call does not reach the inner sink.
#[derive(Drop)]
pub struct Refusing<S> {
    /// The inner sink.
    inner: S,
    /// The number of calls before the refused call.
    left: usize,
    /// The number of calls that this sink refused itself.
    refused: u64,
}

impl<S: PartSink> Refusing<S> {
    /// Creates a sink that refuses only the call after the next `left` calls.
    pub fn new(inner: S, left: usize) -> Self
        ensures inner { result.inner ≡ inner }
        ensures left { result.left ≡ left }
        ensures refused { result.refused ≡ 0 }
    {
        Refusing {
            inner,
            left,
            refused: 0,
        }
    }

    /// Returns the inner sink.
    pub fn inner(&self) -> &S
        ensures { result.now ≡ self.now.inner }
    {
        &self.inner
    }

    /// Returns whether this call must be refused.
    fn is_refused(&mut self) -> bool
        ensures inner { self.new.inner ≡ self.old.inner }
        ensures due { IsTrue result ↔ (self.old.left ≡ 0) }
        ensures next { OnTrue result (self.new.left ≡ 2 ^ 64 - 1) }
        ensures left { OnFalse result (self.new.left + 1 ≡ self.old.left) }
        ensures yes { OnTrue result (Rose self.old.refused self.new.refused) }
        ensures no { OnFalse result (self.new.refused ≡ self.old.refused) }
    {
        if self.left == 0 {
            self.left = usize::MAX;
            self.refused = self.refused.saturating_add(1);
            return true;
        }
        self.left -= 1;
        false
    }
}

impl<S: PartSink> PartSink for Refusing<S> {
    ghost use Rattle.std.specs.Prelude.{◌⊎◌};
    ghost use Rattle.tape_core.specs.declared.sink.SinkFault.TheVariants.{Device, Failed};

    ghost holds = { λ sink parts. S.holds sink.inner parts };

    ghost weighs = { λ sink. S.weighs sink.inner };

    ghost refusals = { λ sink. S.refusals sink.inner + sink.refused };

    ghost refuses_change = { λ old fault new. S.refuses_change old.inner fault new.inner
        ⊎ ((old.left ≡ 0) × ((fault ≡ Device) ⊎ (fault ≡ Failed))) };

    ghost crashes = { λ sink. S.crashes sink.inner };

    ghost returned_now = { λ sink t back there now. S.returned_now sink.inner t back there now };

    ghost survived_now = { λ sink t survived. S.survived_now sink.inner t survived };

    fn put(&mut self, part: Part<'_>) -> Result<(), SinkFault>
        requires { length part.bytes.now ≤ longest_block }
        ensures one { RefusesOne SinkFault.Device self.old result self.new }
        ensures ok { OnOk result ((parts : List Portion) → S.holds self.old.inner parts
            → S.holds self.new.inner (parts ++ view part.entry ∷ [])) }
        ensures err { OnErr result ((parts : List Portion) → S.holds self.old.inner parts
            → S.holds self.new.inner parts) }
        ensures weight { OnOk result (S.weighs self.new.inner
            ≡ S.weighs self.old.inner + (5 + length part.entry.bytes.now)) }
        ensures same_weight { OnErr result (S.weighs self.new.inner ≡ S.weighs self.old.inner) }
        ensures full { result ≡ Err SinkFault.Full
            → most_staged < S.weighs self.old.inner + (5 + length part.entry.bytes.now) }
        ensures cause { OnErr result (Rose (S.refusals self.old.inner + self.old.refused)
            (S.refusals self.new.inner + self.new.refused)) }
        ensures why { IfErr result (λ fault. S.refuses_change self.old.inner fault self.new.inner
            ⊎ ((self.old.left ≡ 0) × ((fault ≡ Device) ⊎ (fault ≡ Failed)))) }
        ensures calm { OnOk result (S.refusals self.new.inner + self.new.refused
            ≡ S.refusals self.old.inner + self.old.refused) }
        ensures crash { (parts : List Portion) → S.holds self.old.inner parts
            → AddsNothing (S.crashes self.old.inner) (S.crashes self.new.inner) }
    {
        if self.is_refused() {
            return Err(SinkFault::Device);
        }
        self.inner.put(part)
    }

    fn cut_to(&mut self, point: &Checkpoint) -> Result<(), SinkFault>
        requires { point.now.staged ≤ S.weighs self.old.inner }
        ensures one { RefusesOne SinkFault.Failed self.old result self.new }
        ensures weight { OnOk result (S.weighs self.new.inner ≤ point.now.staged) }
        ensures same_weight { OnErr result (S.weighs self.new.inner ≡ S.weighs self.old.inner) }
        ensures ok { OnOk result ((front rest : List Portion)
            → S.holds self.old.inner (front ++ rest) → weight_of front ≡ point.now.staged
            → S.holds self.new.inner front) }
        ensures err { IfErr result (λ fault. fault ≢ SinkFault.Device → (parts : List Portion)
            → S.holds self.old.inner parts → S.holds self.new.inner parts) }
        ensures cause { OnErr result (Rose (S.refusals self.old.inner + self.old.refused)
            (S.refusals self.new.inner + self.new.refused)) }
        ensures why { IfErr result (λ fault. S.refuses_change self.old.inner fault self.new.inner
            ⊎ ((self.old.left ≡ 0) × ((fault ≡ Device) ⊎ (fault ≡ Failed)))) }
        ensures calm { OnOk result (S.refusals self.new.inner + self.new.refused
            ≡ S.refusals self.old.inner + self.old.refused) }
        ensures crash { (front rest : List Portion) → S.holds self.old.inner (front ++ rest)
            → weight_of front ≡ point.now.staged → AddsOnly (IsThis point.now front)
            (S.crashes self.old.inner) (S.crashes self.new.inner) }
    {
        if self.is_refused() {
            return Err(SinkFault::Failed);
        }
        self.inner.cut_to(point)
    }

    fn keep(&mut self, point: &Checkpoint) -> Result<(), SinkFault>
        requires { point.now.staged ≡ S.weighs self.old.inner }
        ensures one { RefusesOne SinkFault.Device self.old result self.new }
        ensures same_weight { S.weighs self.new.inner ≡ S.weighs self.old.inner }
        ensures same { (parts : List Portion) → S.holds self.old.inner parts
            → S.holds self.new.inner parts }
        ensures cause { OnErr result (Rose (S.refusals self.old.inner + self.old.refused)
            (S.refusals self.new.inner + self.new.refused)) }
        ensures why { IfErr result (λ fault. S.refuses_change self.old.inner fault self.new.inner
            ⊎ ((self.old.left ≡ 0) × ((fault ≡ Device) ⊎ (fault ≡ Failed)))) }
        ensures calm { OnOk result (S.refusals self.new.inner + self.new.refused
            ≡ S.refusals self.old.inner + self.old.refused) }
        ensures crash { (parts : List Portion) → S.holds self.old.inner parts
            → AddsOnly (IsThis point.now parts) (S.crashes self.old.inner)
            (S.crashes self.new.inner) }
        ensures kept { OnOk result ((parts : List Portion) → S.holds self.old.inner parts
            → ThisAlone point.now parts (S.crashes self.new.inner)) }
    {
        if self.is_refused() {
            return Err(SinkFault::Device);
        }
        self.inner.keep(point)
    }

    fn weight(&self) -> u64 {
        self.inner.weight()
    }
}
