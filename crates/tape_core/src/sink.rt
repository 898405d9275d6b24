//! Sinks, which receive the parts of a file, and can return them.

ghost use Rattle.std.specs.Prelude.{◌≡◌, ◌≢◌, ◌<◌, ◌≤◌, ◌+◌, ◌++◌, ◌∷◌, [], ℕ, List, length, OnOk};
ghost use Rattle.std.specs.{Prelude.OnErr, Prelude.IfErr, Prelude.Err, Borrow.sem};
ghost use Rattle.std.specs.Io.BufRead.{Rests};
ghost use Rattle.tape_blocks.specs.{Block.Portion, Parts.view, Packing.longest_block};
ghost use Rattle.tape_core.specs.{Weight.Rose, Walks.HasGiven, Known.most_staged, Point.Point};
ghost use Rattle.tape_core.specs.Crash.{AddsNothing, AddsOnly, Crashes, IsThis, ThisAlone};
ghost use Rattle.tape_core.specs.{Stands.weight_of, Faults.sink_fault_number};
ghost use Rattle.tape_core.specs.declared.sink.SinkFault.{SinkFault};

use crate::checkpoint::Checkpoint;
use tape_blocks::Part;
use thiserror::Error;

/// The reason why a sink refused a call.
#[derive(Clone, Copy, Debug, PartialEq, Eq, Error)]
pub enum SinkFault {
    /// There was no memory for the part.
    #[error("out of memory")]
    OutOfMemory,
    /// The device of the sink failed in this call.
    #[error("the sink's device failed")]
    Device,
    /// The total weight of the parts would exceed 999,999,999,999,999, or a stage has no generation
    /// left.
    #[error("the sink is full")]
    Full,
    /// An earlier call failed, and the contents have been unknown since; or the sink does not allow
    /// this change, such as a stage opened for reading only or an output that is already written;
    /// or a part to be returned is missing.
    #[error("the sink failed before")]
    Failed,
}

impl SinkFault {
    /// Returns the fault's fixed number, from 1 for `OutOfMemory` to 4 for `Failed`.
    pub fn number(&self) -> u8
        ensures { result ≡ sink_fault_number self.now }
    {
        match self {
            SinkFault::OutOfMemory => 1,
            SinkFault::Device => 2,
            SinkFault::Full => 3,
            SinkFault::Failed => 4,
        }
    }
}

/// Receives the parts of a file, in order.
///
/// `holds` relates a sink to its contents. It relates an untrusted sink to no contents; then only
/// the sink's weight and its count of refused calls are specified.
pub trait PartSink {
    /// Relates a sink to the parts that it contains.
    ghost holds: { Self → List Portion → Type 0 };

    /// The weight that any sink reports.
    ghost weighs: { Self → ℕ };

    /// The number of refused calls.
    ghost refusals: { Self → ℕ };

    /// The condition under which a change (`put`, `cut_to` or `keep`) is refused with the given
    /// fault, in terms of the sink before and after it.
    ghost refuses_change: { Self → SinkFault → Self → Type 0 };

    /// The contents that may remain after a crash: now, and at each moment since a given one.
    ghost crashes: { Self → Crashes };

    /// Appends a part of at most 99,999 bytes.
    ///
    /// # Errors
    ///
    /// Returns `Full` if the total weight would exceed 999,999,999,999,999; otherwise
    /// `OutOfMemory`, `Device` or `Failed` of the sink. On error the contents are unchanged.
    fn put(&mut self, part: Part<'_>) -> Result<(), SinkFault>
        requires { length part.bytes.now ≤ longest_block }
        ensures ok { OnOk result ((parts : List Portion) → holds self.old parts
            → holds self.new (parts ++ view part.entry ∷ [])) }
        ensures err { OnErr result ((parts : List Portion) → holds self.old parts
            → holds self.new parts) }
        ensures weight { OnOk result
            (weighs self.new ≡ weighs self.old + (5 + length part.entry.bytes.now)) }
        ensures same_weight { OnErr result (weighs self.new ≡ weighs self.old) }
        ensures full { result ≡ Err SinkFault.Full
            → most_staged < weighs self.old + (5 + length part.entry.bytes.now) }
        ensures cause { OnErr result (Rose (refusals self.old) (refusals self.new)) }
        ensures why { IfErr result (λ fault. refuses_change self.old fault self.new) }
        ensures calm { OnOk result (refusals self.new ≡ refusals self.old) }
        ensures crash { (parts : List Portion) → holds self.old parts
            → AddsNothing (crashes self.old) (crashes self.new) };

    /// Keeps the leading parts up to the weight recorded in the checkpoint, and drops the rest.
    /// Each sink says what it keeps of a part that this weight divides.
    ///
    /// # Errors
    ///
    /// Returns `Device`, `Failed` or `Full` of the sink. On any error except `Device` the contents
    /// are unchanged.
    fn cut_to(&mut self, point: &Checkpoint) -> Result<(), SinkFault>
        requires { point.now.staged ≤ weighs self.old }
        ensures weight { OnOk result (weighs self.new ≤ point.now.staged) }
        ensures same_weight { OnErr result (weighs self.new ≡ weighs self.old) }
        ensures ok { OnOk result ((front rest : List Portion) → holds self.old (front ++ rest)
            → weight_of front ≡ point.now.staged → holds self.new front) }
        ensures err { IfErr result (λ fault. fault ≢ SinkFault.Device → (parts : List Portion)
            → holds self.old parts → holds self.new parts) }
        ensures cause { OnErr result (Rose (refusals self.old) (refusals self.new)) }
        ensures why { IfErr result (λ fault. refuses_change self.old fault self.new) }
        ensures calm { OnOk result (refusals self.new ≡ refusals self.old) }
        ensures crash { (front rest : List Portion) → holds self.old (front ++ rest)
            → weight_of front ≡ point.now.staged
            → AddsOnly (IsThis point.now front) (crashes self.old) (crashes self.new) };

    /// Saves a checkpoint of all parts, if the sink survives a crash.
    ///
    /// # Errors
    ///
    /// Returns `Device`, `Failed` or `Full` of the sink. The contents are unchanged.
    fn keep(&mut self, point: &Checkpoint) -> Result<(), SinkFault>
        requires { point.now.staged ≡ weighs self.old }
        ensures same_weight { weighs self.new ≡ weighs self.old }
        ensures same { (parts : List Portion) → holds self.old parts → holds self.new parts }
        ensures cause { OnErr result (Rose (refusals self.old) (refusals self.new)) }
        ensures why { IfErr result (λ fault. refuses_change self.old fault self.new) }
        ensures calm { OnOk result (refusals self.new ≡ refusals self.old) }
        ensures crash { (parts : List Portion) → holds self.old parts
            → AddsOnly (IsThis point.now parts) (crashes self.old) (crashes self.new) }
        ensures kept { OnOk result ((parts : List Portion) → holds self.old parts
            → ThisAlone point.now parts (crashes self.new)) };

    /// Returns the weight of the parts: 5 for each part and 1 for each of its bytes.
    fn weight(&self) -> u64
        ensures value { result ≡ weighs self.now }
        ensures of { (parts : List Portion) → holds self.now parts → result ≡ weight_of parts }
        ensures limit { result ≤ most_staged };

    /// The contents that may remain after a crash now are among those that may remain after a crash
    /// since an earlier moment.
    ghost returned_now: { (sink : Self) (t : ℕ) (back : Point) (there : List Portion)
        → (crashes sink).returns back there → (crashes sink).returned t back there };

    /// If contents survive every crash since a moment, they survive a crash now.
    ghost survived_now: { (sink : Self) (t : ℕ) → (crashes sink).survived t
        → (crashes sink).survives };
}

/// A sink whose parts can be read back, in a walk that begins at the first part.
///
/// In an in-memory sink and in a sink on a disk, each `put` and `cut_to` restarts the walk. For
/// other sinks the state of the walk is unspecified after these calls, until `rewind` restarts it.
pub trait PartWalk: PartSink {
    /// Relates a sink to the parts that the walk has yet to return.
    ghost ahead: { Self → List Portion → Type 0 };

    /// An upper bound of the number of parts to come, for any sink.
    ghost left: { Self → ℕ };

    /// The condition under which `next_part` is refused with the given fault, in terms of the sink
    /// before and after it.
    ghost refuses: { Self → SinkFault → Self → Type 0 };

    /// Restarts the walk at the first part.
    fn rewind(&mut self)
        ensures keeps { (parts : List Portion) → Self.holds self.old parts
            → Self.holds self.new parts }
        ensures all { (parts : List Portion) → Self.holds self.old parts → ahead self.new parts }
        ensures crash { AddsNothing (Self.crashes self.old) (Self.crashes self.new) }
        ensures same_weight { Self.weighs self.new ≡ Self.weighs self.old }
        ensures calm { Self.refusals self.new ≡ Self.refusals self.old };

    /// Returns the next part, or `None` after the last part, however often it is called.
    ///
    /// # Errors
    ///
    /// Returns the error of the sink's device. The same part is still to come.
    fn next_part(&mut self) -> Result<Option<Part<'_>>, SinkFault>
        ensures* after_borrow { sem 𝓛 (Rests Self.row self.entry (λ new.
            HasGiven Self.holds Self.weighs Self.refusals Self.crashes Self.ahead Self.left
            Self.refuses self.old result new)) };
}
