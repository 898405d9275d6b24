//! Writes the records that the parts of a sink join to, in one walk as long as each part is one
//! record.
ghost use Rattle.std.specs.Prelude.{◌≡◌, List, length, take, drop, OnOk, OnErr, IfOk, IfErr};
ghost use Rattle.std.specs.Io.KnownBytes.{Appends};
ghost use Rattle.tape_blocks.specs.{Block.Portion, Spans.join};
ghost use Rattle.tape_run.specs.{Causes.WritingFails, Crash.BringsNoMore};
ghost use Rattle.tape_run.specs.RecordText.{output_of, records_text};
ghost use Rattle.tape_image.specs.Written.{AppendsFront};

use crate::extract::{walk_fault, write_part, write_record};
use crate::fault::EngineFault;
use std::alloc::Global;
use std::io::Write;
use tape_blocks::Form;
use tape_core::{PartWalk, SinkFault};

/// What the first walk over the parts of a sink counted.
#[derive(Clone, Copy)]
pub struct Front {
    /// The number of records that were written, from the first one.
    pub written: u64,
    /// The number of all records, without an unfinished one.
    pub records: u64,
}

/// Counts the records into which the parts of the sink join, and writes those before the first
/// part that leaves its record unfinished. Only blocks of format S contain such parts.
///
/// # Errors
///
/// As `write_file`.
pub fn write_front<S: PartWalk, W: Write>(
    sink: &mut S,
    form: Form,
    out: &mut W,
) -> Result<Front, EngineFault>
    ensures ok { IfOk result (λ front. (parts : List Portion) → S.holds sink.old parts
        → (front.records ≡ length (join parts).records)
        × Appends (W.contents out.old) (W.contents out.new)
        (records_text form (take front.written (join parts).records))) }
    ensures err { OnErr result ((parts : List Portion) → S.holds sink.old parts
        → AppendsFront (W.contents out.old) (W.contents out.new) (output_of form parts)) }
    ensures kept { (parts : List Portion) → S.holds sink.old parts → S.holds sink.new parts }
    ensures crash { BringsNoMore S.PartSink sink.old sink.new }
    ensures cause { IfErr result
        (WritingFails form S.holds S.refusals S.refuses sink.old sink.new) }
    ensures calm { OnOk result (S.refusals sink.new ≡ S.refusals sink.old) }
{
    // A sink's weight is limited, so the counts below stay far from the maximum of u64.
    let _weight = sink.weight();
    sink.rewind();
    let mut written = 0u64;
    let mut records = 0u64;
    let mut all = true;
    'parts: loop {
        match sink.next_part() {
            Ok(Some(part)) => {
                if part.span.leaves() {
                    all = false;
                    continue 'parts;
                }
                records = records.saturating_add(1);
                if all {
                    write_record(out, form, b"", part.bytes)?;
                    written = records;
                }
            }
            Ok(None) => return Ok(Front { written, records }),
            Err(fault) => return Err(walk_fault(fault)),
        }
    }
}

/// Writes the records that the first walk did not write, up to the last part that ends a record.
///
/// # Errors
///
/// As `write_file`.
pub fn write_rest<S: PartWalk, W: Write>(
    alloc: Global,
    sink: &mut S,
    front: Front,
    form: Form,
    out: &mut W,
) -> Result<(), EngineFault>
    ensures ok { OnOk result ((parts : List Portion) → S.holds sink.old parts
        → front.records ≡ length (join parts).records
        → Appends (W.contents out.old) (W.contents out.new)
        (records_text form (drop front.written (join parts).records))) }
    ensures err { OnErr result ((parts : List Portion) → S.holds sink.old parts
        → front.records ≡ length (join parts).records
        → AppendsFront (W.contents out.old) (W.contents out.new)
        (records_text form (drop front.written (join parts).records))) }
    ensures kept { (parts : List Portion) → S.holds sink.old parts → S.holds sink.new parts }
    ensures crash { BringsNoMore S.PartSink sink.old sink.new }
    ensures cause { IfErr result (λ fault. WritingFails form (λ s parts. S.holds s parts
        × (front.records ≡ length (join parts).records)) S.refusals S.refuses sink.old sink.new
        fault) }
    ensures calm { OnOk result (S.refusals sink.new ≡ S.refusals sink.old) }
{
    // Without a part that leaves its record unfinished, the first walk wrote all records.
    if front.written >= front.records {
        return Ok(());
    }
    sink.rewind();
    let mut held = Vec::new(alloc);
    let mut ended = 0u64;
    'parts: while ended < front.records {
        match sink.next_part() {
            Ok(Some(part)) => {
                let leaves = part.span.leaves();
                if ended >= front.written {
                    write_part(out, part, form, &mut held)?;
                }
                ended += u64::from(!leaves);
            }
            Ok(None) => return Err(walk_fault(SinkFault::Failed)),
            Err(fault) => return Err(walk_fault(fault)),
        }
    }
    Ok(())
}
