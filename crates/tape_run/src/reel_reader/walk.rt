//! Compares blocks with the parts that a walk over a sink returns.

ghost use Rattle.std.specs.Prelude.{◌≡◌, ◌≤◌, ◌+◌, ◌++◌, ◌∷◌, [], ℕ, List, IfOk, IfErr, OnOk};
ghost use Rattle.std.specs.Prelude.{length, take, IsTrue, ◌↔◌};
ghost use Rattle.std.specs.Bool.{OnTrue, OnFalse};
ghost use Rattle.tape_blocks.specs.{Block.Portion, Parts.view};
ghost use Rattle.tape_blocks.specs.PartsLeft.{parts_left};
ghost use Rattle.tape_core.specs.Stands.{weight_of};
ghost use Rattle.tape_run.specs.{Comparing.Reads, Crash.BringsNoMore, Steps.IsRefused};

use tape_blocks::{Part, Parts, Shape, check_block};
use tape_core::{PartWalk, SinkFault, goes_on_at};

/// Returns whether two words of eight bytes are the same.
#[inline(always)]
fn is_same_word(one: [u8; 8], other: [u8; 8]) -> bool
    ensures { IsTrue result ↔ (one ≡ other) }
{
    u64::from_le_bytes(one) == u64::from_le_bytes(other)
}

/// Returns whether two slices have the same bytes. Takes eight at a time, where `==` takes one.
#[tactic(auto, using(crate::proofs::SameBytes::same_whole))]
fn has_same_bytes(one: &[u8], other: &[u8]) -> bool
    ensures { IsTrue result ↔ (one.now ≡ other.now) }
{
    let mut left = one;
    let mut right = other;
    'words: loop {
        let Some((word, rest)) = left.split_first_chunk::<8>() else {
            return left == right;
        };
        let Some((there, others)) = right.split_first_chunk::<8>() else {
            return false;
        };
        if !is_same_word(*word, *there) {
            return false;
        }
        left = rest;
        right = others;
    }
}

/// Returns whether two parts have the same span and bytes.
fn is_same(one: Part<'_>, other: Part<'_>) -> bool
    ensures { IsTrue result ↔ (view one.entry ≡ view other.entry) }
{
    one.span == other.span && has_same_bytes(one.bytes, other.bytes)
}

/// Returns whether the next part of a walk over a sink is this one.
fn returns<S: PartWalk>(sink: &mut S, part: Part<'_>) -> Result<bool, SinkFault>
    ensures yes { IfOk result (λ yes. OnTrue yes ((ahead : List Portion)
        → S.ahead sink.old ahead
        → (left : List Portion) × (ahead ≡ view part.entry ∷ left) × S.ahead sink.new left)) }
    ensures no { IfOk result (λ yes. OnFalse yes ((left : List Portion)
        → S.ahead sink.old (view part.entry ∷ left) → ⊥)) }
    ensures kept { (parts : List Portion) → S.holds sink.old parts → S.holds sink.new parts }
    ensures crash { BringsNoMore S.PartSink sink.old sink.new }
    ensures calm { OnOk result (S.refusals sink.new ≡ S.refusals sink.old) }
    ensures cause { IfErr result (λ fault.
        IsRefused S.refusals S.refuses sink.old fault sink.new) }
{
    match sink.next_part() {
        Ok(Some(there)) => Ok(is_same(there, part)),
        Ok(None) => Ok(false),
        Err(fault) => Err(fault),
    }
}

/// Returns whether the next parts of a walk are these.
fn returns_all<S: PartWalk>(sink: &mut S, parts: Parts<'_>) -> Result<bool, SinkFault>
    ensures yes { IfOk result (λ yes. OnTrue yes ((ahead : List Portion)
        → S.ahead sink.old ahead
        → (left : List Portion) × (ahead ≡ parts_left parts.entry ++ left)
        × S.ahead sink.new left)) }
    ensures no { IfOk result (λ yes. OnFalse yes ((left : List Portion)
        → S.ahead sink.old (parts_left parts.entry ++ left) → ⊥)) }
    ensures kept { (parts : List Portion) → S.holds sink.old parts → S.holds sink.new parts }
    ensures crash { BringsNoMore S.PartSink sink.old sink.new }
    ensures calm { OnOk result (S.refusals sink.new ≡ S.refusals sink.old) }
    ensures cause { IfErr result (λ fault.
        IsRefused S.refusals S.refuses sink.old fault sink.new) }
{
    let mut rest = parts;
    'parts: while let Some(part) = rest.next() {
        match returns(sink, part) {
            Ok(true) => {}
            Ok(false) => return Ok(false),
            Err(fault) => return Err(fault),
        }
    }
    Ok(true)
}

/// Returns whether the next parts of a walk are those of a block. A block that does not contain
/// parts has none of a sink.
pub fn has_next<S: PartWalk>(sink: &mut S, shape: &Shape, block: &[u8]) -> Result<bool, SinkFault>
    ensures yes { IfOk result (λ yes. OnTrue yes ((ahead : List Portion)
        → S.ahead sink.old ahead → (parts left : List Portion)
        × Reads shape.now block.now parts × (ahead ≡ parts ++ left) × S.ahead sink.new left)) }
    ensures no { IfOk result (λ yes. OnFalse yes ((parts left : List Portion)
        → Reads shape.now block.now parts → S.ahead sink.old (parts ++ left) → ⊥)) }
    ensures kept { (parts : List Portion) → S.holds sink.old parts → S.holds sink.new parts }
    ensures crash { BringsNoMore S.PartSink sink.old sink.new }
    ensures calm { OnOk result (S.refusals sink.new ≡ S.refusals sink.old) }
    ensures cause { IfErr result (λ fault.
        IsRefused S.refusals S.refuses sink.old fault sink.new) }
{
    let begun = goes_on_at(shape.format, shape.offset, block);
    match check_block(shape, begun, block) {
        Ok(_) => returns_all(sink, Parts::new(shape, block)),
        Err(_) => Ok(false),
    }
}

/// Returns whether the next parts of a walk are the first `count` parts of a block.
pub fn has_front<S: PartWalk>(
    sink: &mut S,
    shape: &Shape,
    block: &[u8],
    count: u32,
) -> Result<bool, SinkFault>
    ensures yes { IfOk result (λ yes. OnTrue yes ((ahead : List Portion)
        → S.ahead sink.old ahead → (parts left : List Portion)
        × Reads shape.now block.now parts × (count ≤ length parts)
        × (ahead ≡ take count parts ++ left) × S.ahead sink.new left)) }
    ensures no { IfOk result (λ yes. OnFalse yes ((parts left : List Portion)
        → Reads shape.now block.now parts → count ≤ length parts
        → S.ahead sink.old (take count parts ++ left) → ⊥)) }
    ensures kept { (parts : List Portion) → S.holds sink.old parts → S.holds sink.new parts }
    ensures crash { BringsNoMore S.PartSink sink.old sink.new }
    ensures calm { OnOk result (S.refusals sink.new ≡ S.refusals sink.old) }
    ensures cause { IfErr result (λ fault.
        IsRefused S.refusals S.refuses sink.old fault sink.new) }
{
    let begun = goes_on_at(shape.format, shape.offset, block);
    match check_block(shape, begun, block) {
        Ok(_) => returns_front(sink, Parts::new(shape, block), count),
        Err(_) => Ok(false),
    }
}

/// Returns whether the next parts of a walk are the first `count` of these.
fn returns_front<S: PartWalk>(sink: &mut S, parts: Parts<'_>, count: u32) -> Result<bool, SinkFault>
    ensures yes { IfOk result (λ yes. OnTrue yes ((ahead : List Portion)
        → S.ahead sink.old ahead → (left : List Portion) × (count ≤ length (parts_left parts.entry))
        × (ahead ≡ take count (parts_left parts.entry) ++ left) × S.ahead sink.new left)) }
    ensures no { IfOk result (λ yes. OnFalse yes ((left : List Portion)
        → count ≤ length (parts_left parts.entry)
        → S.ahead sink.old (take count (parts_left parts.entry) ++ left) → ⊥)) }
    ensures kept { (parts : List Portion) → S.holds sink.old parts → S.holds sink.new parts }
    ensures crash { BringsNoMore S.PartSink sink.old sink.new }
    ensures calm { OnOk result (S.refusals sink.new ≡ S.refusals sink.old) }
    ensures cause { IfErr result (λ fault.
        IsRefused S.refusals S.refuses sink.old fault sink.new) }
{
    let mut rest = parts;
    let mut left = count;
    'parts: while left > 0 {
        let Some(part) = rest.next() else {
            return Ok(false);
        };
        match returns(sink, part) {
            Ok(true) => left -= 1,
            Ok(false) => return Ok(false),
            Err(fault) => return Err(fault),
        }
    }
    Ok(true)
}

/// Begins a walk over the parts of a sink after parts of this weight. Returns whether leading parts
/// have exactly this weight.
pub fn skip_to<S: PartWalk>(sink: &mut S, weight: u64) -> Result<bool, SinkFault>
    ensures yes { IfOk result (λ yes. OnTrue yes ((parts : List Portion)
        → S.holds sink.old parts → (front left : List Portion) × (parts ≡ front ++ left)
        × (weight_of front ≡ weight) × S.ahead sink.new left)) }
    ensures no { IfOk result (λ yes. OnFalse yes ((front left : List Portion)
        → S.holds sink.old (front ++ left) → weight_of front ≡ weight → ⊥)) }
    ensures kept { (parts : List Portion) → S.holds sink.old parts → S.holds sink.new parts }
    ensures crash { BringsNoMore S.PartSink sink.old sink.new }
    ensures calm { OnOk result (S.refusals sink.new ≡ S.refusals sink.old) }
    ensures cause { IfErr result (λ fault.
        IsRefused S.refusals S.refuses sink.old fault sink.new) }
{
    sink.rewind();
    let mut left = weight;
    'parts: while left > 0 {
        match sink.next_part() {
            Ok(Some(part)) => {
                let heavy = 5 + part.bytes.len() as u64;
                if heavy > left {
                    return Ok(false);
                }
                left -= heavy;
            }
            Ok(None) => return Ok(false),
            Err(fault) => return Err(fault),
        }
    }
    Ok(true)
}

/// Returns whether a walk has returned all parts.
pub fn is_over<S: PartWalk>(sink: &mut S) -> Result<bool, SinkFault>
    ensures yes { IfOk result (λ yes. OnTrue yes ((ahead : List Portion)
        → S.ahead sink.old ahead → ahead ≡ [])) }
    ensures no { IfOk result (λ yes. OnFalse yes (S.ahead sink.old [] → ⊥)) }
    ensures kept { (parts : List Portion) → S.holds sink.old parts → S.holds sink.new parts }
    ensures crash { BringsNoMore S.PartSink sink.old sink.new }
    ensures calm { OnOk result (S.refusals sink.new ≡ S.refusals sink.old) }
    ensures cause { IfErr result (λ fault.
        IsRefused S.refusals S.refuses sink.old fault sink.new) }
{
    match sink.next_part() {
        Ok(Some(_)) => Ok(false),
        Ok(None) => Ok(true),
        Err(fault) => Err(fault),
    }
}
