//! Writes files from inputs.
ghost use Rattle.std.specs.Prelude.{◌≡◌, ◌<◌, ◌≤◌, ◌++◌, ◌+◌, ◌∷◌, [], List, length, map, ◌⊎◌};
ghost use Rattle.std.specs.Prelude.{OnOk, IfErr, IfSome, Some, Ok, Err};
ghost use Rattle.tape_blocks.specs.Packing.{IsWritable};
ghost use Rattle.tape_set.specs.Tight.{least_capacity};
ghost use Rattle.tape_writer.specs.WriteFaults.{IsFileFault, IsFilesFault, told_as, StopsByDevice};
ghost use Rattle.tape_writer.specs.{Tapes.Grows, Tapes.Rose, Refusals.closed_by, State.IsWriting};
ghost use Rattle.tape_writer.specs.{State.SameSet, Records.records_of, ToldFiles.told_files};
ghost use Rattle.tape_writer.specs.Told.{Told, opened_by, with_file};
ghost use Rattle.tape_writer.specs.ToldFiles.{IfAllKnown};
ghost use Rattle.tape_writer.specs.declared.fault.WriteFault.{WriteFault};
ghost use Rattle.tape_writer.specs.declared.phase.Phase.TheVariants.{Between};
ghost use Rattle.tape_writer.specs.LeftOf.{GaveUp, GaveUpIn, IsLeftOf, IsLeftIn, IsLeftUnbegun};

use crate::fault::{SetFault, WriteFault};
use crate::inputs::cut::{Cut, longest};
use crate::inputs::records::{InputFault, Records};
use crate::out::TapeOut;
use crate::set::SetWriter;
use std::alloc::Global;
use std::io::Read;
use tape_blocks::Shape;
use tape_label::Head1;

/// A file to be written: its head, and the source of its records.
#[derive(Drop)]
pub struct Input<R> {
    /// The head of the file; its set identifier and the numbers of section and file are replaced.
    pub head: Head1,
    pub reader: R,
}

/// Writes files with the records of their inputs, one after another.
///
/// # Errors
///
/// Returns `Write` with the writer's fault (`Failed` if it failed before; then it is unchanged),
/// with `RecordLength` as soon as a record is longer than the shape allows, and with `OutOfMemory`
/// if an allocation of this function fails; `ReadFailed` if an input fails.
pub fn write_files<T: TapeOut + Drop, R: Read>(
    alloc: Global,
    writer: &mut SetWriter<T>,
    files: &mut [Input<R>],
    shape: Shape,
    cut: Cut,
) -> Result<(), SetFault>
    ensures same { SameSet writer.old writer.new }
    ensures told { (told : List Told) → IsWriting (T.holds writer.old.out) writer.old told
        → OnOk result (IfAllKnown (map (λ f. (f.head, R.remaining f.reader)) files.old) (λ fs.
        IsWriting (T.holds writer.new.out) writer.new
        (told ++ told_files writer.old.set_id shape cut (length told + 1) fs))) }
    // Each fault is returned only for its cause.
    ensures due { writer.old.phase ≡ Between
        → IfErr result (IsFilesFault writer.old.capacity shape cut (length writer.old.files)
        (map (λ f. (f.head, R.remaining f.reader)) files.old)) }
    // If no volume is left, the next block, or the labels at the end of a file, do not fit.
    ensures stuck { IfErr result (λ fault. fault ≡ SetFault.Write WriteFault.OutOfVolumes
        → (told : List Told) → IsWriting (T.holds writer.old.out) writer.old told
        → GaveUpIn (T.holds writer.new.out) writer.new writer.old.set_id told shape cut
        (map (λ f. (f.head, R.remaining f.reader)) files.old)) }
    // A writer in which no file can begin refuses the first one. Without files nothing is done.
    ensures closed { (fault : WriteFault) → closed_by writer.old.phase ≡ Some fault
        → 0 < length files.old
        → (result ≡ Err (SetFault.Write fault)) × (writer.new ≡ writer.old) }
    ensures none { length files.old ≡ 0 → (result ≡ Ok tt) × (writer.new ≡ writer.old) }
    // If no file of the shape can be written, nothing was written.
    ensures unfit { writer.old.phase ≡ Between
        → (IsWritable shape → least_capacity shape ≤ writer.old.capacity → ⊥)
        → 0 < length files.old → (writer.new ≡ writer.old) × OnOk result ⊥ }
    // Whatever the fault, the tapes contain a prefix of the items that are written for the files so
    // far, and `OutOfMemory` has its cause.
    ensures front { writer.old.phase ≡ Between
        → (told : List Told) → IsWriting (T.holds writer.old.out) writer.old told
        → IfErr result (λ fault. IsLeftIn (T.holds writer.new.out) writer.new
        (Rose (T.failures writer.old.out).memory (T.failures writer.new.out).memory) fault
        writer.old.set_id told shape cut (map (λ f. (f.head, R.remaining f.reader)) files.old)) }
    ensures count { Grows (T.failures writer.old.out) (T.failures writer.new.out) }
    ensures cause { StopsByDevice (T.failures writer.old.out) result (T.failures writer.new.out) }
    ensures stands { writer.old.phase ≡ Between → OnOk result ((writer.new.phase ≡ Between)
        × (0 < length files.old → 0 < writer.new.course.volume)) }
{
    let mut at = 0;
    'files: while at < files.len() {
        let file = &mut files[at];
        write_file(alloc, writer, file.head, shape, &mut file.reader, cut)?;
        at += 1;
    }
    Ok(())
}

/// Writes a file with the records of an input.
#[tactic(auto, using(crate::proofs::inputs::Filing::was_fit))]
fn write_file<T: TapeOut + Drop, R: Read>(
    alloc: Global,
    writer: &mut SetWriter<T>,
    head: Head1,
    shape: Shape,
    input: &mut R,
    cut: Cut,
) -> Result<(), SetFault>
    ensures same { SameSet writer.old writer.new }
    ensures told { (told : List Told) → IsWriting (T.holds writer.old.out) writer.old told
        → OnOk result (IfSome (R.remaining input.old) (λ bytes.
        IsWriting (T.holds writer.new.out) writer.new (told ++ record {
          file = opened_by writer.old.set_id (length told + 1) head shape;
          records = records_of cut bytes;
        } ∷ []))) }
    ensures due { writer.old.phase ≡ Between
        → IfErr result (IsFileFault writer.old.capacity shape cut (length writer.old.files)
        (head, R.remaining input.old)) }
    ensures stuck { IfErr result (λ fault. fault ≡ SetFault.Write WriteFault.OutOfVolumes
        → (told : List Told) → IsWriting (T.holds writer.old.out) writer.old told
        → IfSome (R.remaining input.old) (λ bytes. GaveUp (T.holds writer.new.out) writer.new
        (with_file writer.old.set_id told head shape) (records_of cut bytes))) }
    ensures closed { (fault : WriteFault) → closed_by writer.old.phase ≡ Some fault
        → (result ≡ Err (SetFault.Write fault)) × (writer.new ≡ writer.old) }
    ensures unfit { writer.old.phase ≡ Between
        → (IsWritable shape → least_capacity shape ≤ writer.old.capacity → ⊥)
        → (writer.new ≡ writer.old) × OnOk result ⊥ }
    ensures front { writer.old.phase ≡ Between
        → (told : List Told) → IsWriting (T.holds writer.old.out) writer.old told
        → IfErr result (λ fault. IfSome (R.remaining input.old) (λ bytes.
        IsLeftUnbegun (T.holds writer.new.out) writer.new fault told
        ⊎ IsLeftOf (T.holds writer.new.out) writer.new
        (Rose (T.failures writer.old.out).memory (T.failures writer.new.out).memory) fault
        (with_file writer.old.set_id told head shape) (records_of cut bytes))) }
    ensures count { Grows (T.failures writer.old.out) (T.failures writer.new.out) }
    ensures cause { StopsByDevice (T.failures writer.old.out) result (T.failures writer.new.out) }
    ensures stands { OnOk result ((writer.new.phase ≡ Between) × (0 < writer.new.course.volume)
        × (length writer.new.files ≡ length writer.old.files + 1)) }
{
    if let Err(fault) = writer.begin_file(head, shape) {
        return Err(SetFault::Write(fault));
    }
    let Ok(mut records) = Records::new(alloc, input, cut, longest(&shape)) else {
        return Err(SetFault::Write(WriteFault::OutOfMemory));
    };
    // An input may be infinite, but each record uses up some of the writer's room.
    'records: loop {
        match records.next() {
            Ok(true) => match writer.put(records.content.as_slice()) {
                Ok(()) => {}
                Err(fault) => return Err(SetFault::Write(fault)),
            },
            Ok(false) => match writer.end_file() {
                Ok(()) => return Ok(()),
                Err(fault) => return Err(SetFault::Write(fault)),
            },
            Err(fault) => return Err(fault_of(fault)),
        }
    }
}

/// Returns the fault of an input as a fault of the set.
fn fault_of(fault: InputFault) -> SetFault
    ensures { result ≡ told_as fault }
{
    match fault {
        InputFault::ReadFailed => SetFault::ReadFailed,
        InputFault::TooLong => SetFault::Write(WriteFault::RecordLength),
        InputFault::OutOfMemory => SetFault::Write(WriteFault::OutOfMemory),
    }
}
