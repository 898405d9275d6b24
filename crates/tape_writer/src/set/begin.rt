//! Begins files.

ghost use Rattle.std.specs.Prelude.{◌≡◌, ◌<◌, ◌≤◌, ◌+◌, ◌⊎◌, [], List, length, OnOk, IfErr, Some};
ghost use Rattle.tape_blocks.specs.Packing.{IsWritable};
ghost use Rattle.tape_set.specs.Tight.{least_capacity};
ghost use Rattle.tape_writer.specs.{Fields.IsTextHead, Told.Told, Told.opened_by, Told.with_file};
ghost use Rattle.tape_writer.specs.{Tapes.Ended, Tapes.Rose, Lasting.LastsFirst, Lasting.TapeLasts};
ghost use Rattle.tape_writer.specs.Faults.{FailsByDevice, IsEnding};
ghost use Rattle.tape_writer.specs.Front.{IsLeftBehind, IsLeftInside};
ghost use Rattle.tape_writer.specs.State.{IsWriting, Leaves, Refuses, tape_of, HasAsked, SameSet};
ghost use Rattle.tape_writer.specs.Refusals.{IsBeginFault, IsInFile, closed_by};
ghost use Rattle.tape_writer.specs.declared.phase.Phase.TheVariants.{Between};
ghost use Rattle.tape_writer.specs.declared.fault.WriteFault.{WriteFault};

use crate::course::Opened;
use crate::fault::WriteFault;
use crate::fields::is_text_head;
use crate::out::TapeOut;
use crate::phase::{OpenFile, Phase};
use crate::set::SetWriter;
use tape_blocks::{Packer, Shape};
use tape_label::Head1;
use tape_label::laws::widths;

/// The maximum number of files of a set: labels have four digits for a file's number.
const MOST_FILES: usize = 9_999;

/// The capacity of a volume must be at least this number of bytes plus the block length.
const LEAST_CAPACITY: u64 = 1_024;

impl<T: TapeOut + Drop> SetWriter<T> {
    /// Begins the next file. The set identifier of the head and the numbers of section and file are
    /// replaced by the writer's. The first file begins the first volume.
    ///
    /// # Errors
    ///
    /// Returns `Failed` or `Finished` depending on the writer's state; `FileBegun` inside a file;
    /// `BadField` if a field of the head other than its set identifier contains a byte that is not
    /// an a-character; `BadShape` if blocks of this shape cannot be written; `CapacityTooSmall` if
    /// the capacity is less than the block length plus 1,024 bytes; `TooMany` for the 10,000th
    /// file; after these faults the writer is unchanged. Then `OutOfMemory` or `Device`, whichever
    /// happens first.
    #[tactic(auto, using(crate::proofs::Calls::calls))]
    pub fn begin_file(&mut self, head: Head1, shape: Shape) -> Result<(), WriteFault>
        ensures same { SameSet self.old self.new }
        ensures closed { (fault : WriteFault) → closed_by self.old.phase ≡ Some fault
            → Refuses self.old result self.new fault }
        ensures field { self.old.phase ≡ Between → (IsTextHead head → ⊥)
            → Refuses self.old result self.new WriteFault.BadField }
        ensures shape { self.old.phase ≡ Between → IsTextHead head → (IsWritable shape → ⊥)
            → Refuses self.old result self.new WriteFault.BadShape }
        ensures capacity { self.old.phase ≡ Between → IsTextHead head → IsWritable shape
            → self.old.capacity < least_capacity shape
            → Refuses self.old result self.new WriteFault.CapacityTooSmall }
        ensures many { self.old.phase ≡ Between → IsTextHead head → IsWritable shape
            → least_capacity shape ≤ self.old.capacity → 9999 ≤ length self.old.files
            → Refuses self.old result self.new WriteFault.TooMany }
        // If blocks of the shape cannot be written, or the capacity is too small, nothing changed.
        ensures unfit { self.old.phase ≡ Between
            → (IsWritable shape → least_capacity shape ≤ self.old.capacity → ⊥)
            → (self.new ≡ self.old) × OnOk result ⊥ }
        // Each fault is returned only for its cause.
        ensures due { self.old.phase ≡ Between
            → IfErr result (IsBeginFault self.old.capacity (length self.old.files) head shape) }
        ensures opened { OnOk result (IsInFile
            (opened_by self.old.set_id (length self.old.files + 1) head shape) self.new.phase) }
        ensures files { OnOk result (length self.new.files ≡ length self.old.files + 1) }
        // Also if the first file fails, the counted size is that of the volume.
        ensures first { self.old.course.volume ≡ 0 → T.holds self.old.out (Ended [])
            → self.old.course.used ≡ 0 → LastsFirst (T.holds self.new.out) self.new.course.used }
        // One more file was passed, without records.
        ensures told { (told : List Told) → IsWriting (T.holds self.old.out) self.old told
            → OnOk result (IsWriting (T.holds self.new.out) self.new
            (with_file self.old.set_id told head shape)) }
        // Whatever fault ends the writer, the tapes contain a prefix of the items up to the end of
        // the files so far, or up to the start of this file.
        ensures front { (told : List Told) → IsWriting (T.holds self.old.out) self.old told
            → IfErr result (λ fault. IsEnding fault
            → IsLeftBehind (T.holds self.new.out) self.new told
            ⊎ IsLeftInside (T.holds self.new.out) self.new
            (with_file self.old.set_id told head shape)) }
        ensures lasting { TapeLasts T.TapeOut (tape_of self.old) (tape_of self.new) }
        ensures asked { HasAsked T.TapeOut self.old → OnOk result (HasAsked T.TapeOut self.new) }
        ensures leaves { IfErr result (Leaves self.old self.new) }
        ensures cause { FailsByDevice (T.failures self.old.out) result (T.failures self.new.out) }
        // The writer's own memory is allocated before anything is written.
        ensures memory { IfErr result (λ fault. fault ≡ WriteFault.OutOfMemory
            → (self.new.out ≡ self.old.out)
            ⊎ Rose (T.failures self.old.out).memory (T.failures self.new.out).memory) }
    {
        match self.phase {
            Phase::Between => {}
            Phase::Filing(_) => return Err(WriteFault::FileBegun),
            Phase::Failed => return Err(WriteFault::Failed),
            Phase::Finished => return Err(WriteFault::Finished),
        }
        if !is_text_head(&head) {
            return Err(WriteFault::BadField);
        }
        if !shape.is_writable() {
            return Err(WriteFault::BadShape);
        }
        if u64::from(self.capacity) < LEAST_CAPACITY + u64::from(shape.block_len) {
            return Err(WriteFault::CapacityTooSmall);
        }
        if self.files.len() >= MOST_FILES {
            return Err(WriteFault::TooMany);
        }
        let file = self.next_file(head, shape);
        widths(&file.head);
        // From here on every fault ends the writer.
        self.phase = Phase::Failed;
        let Ok(packer) = Packer::new(self.alloc, shape) else {
            return Err(WriteFault::OutOfMemory);
        };
        if self.files.push(file).is_err() {
            return Err(WriteFault::OutOfMemory);
        }
        if self.tape.course.volume == 0 {
            self.tape.begin_volume(&self.volumes[0])?;
        }
        self.tape.begin_section(&file, 1)?;
        self.phase = Phase::Filing(OpenFile { file, packer });
        Ok(())
    }

    /// Returns the next file of the set, with the set's identifier and the next file number.
    fn next_file(&self, head: Head1, shape: Shape) -> Opened
        requires few { length self.now.files < 9999 }
        ensures { result ≡ opened_by self.now.set_id (length self.now.files + 1) head shape }
    {
        Opened {
            head: Head1 {
                set_id: self.set_id,
                sect: 1,
                sequence: self.files.len() as u16 + 1,
                ..head
            },
            shape,
        }
    }
}
