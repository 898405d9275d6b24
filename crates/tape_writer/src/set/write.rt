//! Writes records, ends files, and ends the set.

ghost use Rattle.std.specs.Prelude.{◌≡◌, ◌⊎◌, ◌<◌, ◌+◌, ◌++◌, ◌∷◌, [], List, OnOk, IfErr, Some};
ghost use Rattle.tape_image.specs.Tape.{TapeItem, mark as mark_item};
ghost use Rattle.tape_writer.specs.State.{IsWriting, Leaves, Refuses, IfFiling, HasLength, tape_of};
ghost use Rattle.tape_writer.specs.{Tapes.Ended, Tapes.UnderWay, Lasting.TapeLasts, Room.room_left};
ghost use Rattle.tape_writer.specs.Front.{IsLeftInside, IsLeftBehind, IsLeftWhole};
ghost use Rattle.tape_writer.specs.{Faults.FailsWith, Faults.IsEnding, Told.Told, Told.with_record};
ghost use Rattle.tape_writer.specs.State.{IsOutOfVolumes, HasAsked, SameSet};
ghost use Rattle.tape_writer.specs.Refusals.{IsPutFault, IsFinishFault, IsInFile, closed_by};
ghost use Rattle.tape_writer.specs.declared.{course.Opened.Opened, fault.WriteFault.WriteFault};
ghost use Rattle.tape_writer.specs.declared.phase.Phase.TheVariants.{Between, Failed, Finished};

use crate::fault::{WriteFault, fault_of};
use crate::out::TapeOut;
use crate::phase::Phase;
use crate::records::{VOLUME_END, flush, put_record};
use crate::set::SetWriter;

/// The size of the end of a file: a mark, EOF1, EOF2 and a mark.
const FILE_END: u32 = 184;

/// The size of the headers of one more file: HDR1, HDR2 and a mark.
const HEADERS: u32 = 180;

impl<T: TapeOut + Drop> SetWriter<T> {
    /// Writes a record into the current file. Each block is written as soon as it is full, on the
    /// next volume if it does not fit on the current one.
    ///
    /// # Errors
    ///
    /// Returns `Failed`, `Finished` or `NoFile` depending on the writer's state; `RecordLength` if
    /// the file's shape does not allow a record of this length; after these faults the writer is
    /// unchanged. Then, whichever happens first, `OutOfVolumes` if the volume must be changed and
    /// no volume is left, `Device` or `OutOfMemory`.
    #[tactic(auto, using(crate::proofs::Last::lasting_self, crate::proofs::Calls::leaves_failed))]
    pub fn put(&mut self, bytes: &[u8]) -> Result<(), WriteFault>
        ensures same { SameSet self.old self.new }
        ensures failed { self.old.phase ≡ Failed
            → Refuses self.old result self.new WriteFault.Failed }
        ensures finished { self.old.phase ≡ Finished
            → Refuses self.old result self.new WriteFault.Finished }
        ensures no_file { self.old.phase ≡ Between
            → Refuses self.old result self.new WriteFault.NoFile }
        ensures length { IfFiling self.old.phase (λ o. (HasLength o bytes.now → ⊥)
            → Refuses self.old result self.new WriteFault.RecordLength) }
        ensures fits { OnOk result (IfFiling self.old.phase (λ o. HasLength o bytes.now)) }
        // Each fault is returned only for its cause.
        ensures due { IfFiling self.old.phase (λ o.
            IfErr result (IsPutFault (HasLength o bytes.now → ⊥))) }
        ensures stays { (file : Opened) → IsInFile file self.old.phase
            → OnOk result (IsInFile file self.new.phase) }
        // Each record needs room, so only finitely many records are accepted.
        ensures room { OnOk result (room_left self.new < room_left self.old) }
        ensures files { self.new.files ≡ self.old.files }
        // The last file has one more record, and the other files are unchanged.
        ensures told { (told : List Told) → IsWriting (T.holds self.old.out) self.old told
            → OnOk result (IsWriting (T.holds self.new.out) self.new (with_record told bytes.now)) }
        ensures stuck { (told : List Told) → IsWriting (T.holds self.old.out) self.old told
            → IfErr result (λ fault. fault ≡ WriteFault.OutOfVolumes
            → IsOutOfVolumes (T.holds self.new.out) self.new (with_record told bytes.now)) }
        // Whatever fault ends the writer, the tapes contain a prefix of the items for the records
        // so far, including this one.
        ensures front { (told : List Told) → IsWriting (T.holds self.old.out) self.old told
            → IfErr result (λ fault. IsEnding fault
            → IsLeftInside (T.holds self.new.out) self.new (with_record told bytes.now)) }
        // These clauses hold for every result of the call.
        ensures lasting { TapeLasts T.TapeOut (tape_of self.old) (tape_of self.new) }
        ensures asked { HasAsked T.TapeOut self.old → OnOk result (HasAsked T.TapeOut self.new) }
        ensures leaves { IfErr result (Leaves self.old self.new) }
        ensures cause { FailsWith (T.failures self.old.out) result (T.failures self.new.out) }
    {
        let open = match &mut self.phase {
            Phase::Filing(open) => open,
            Phase::Between => return Err(WriteFault::NoFile),
            Phase::Failed => return Err(WriteFault::Failed),
            Phase::Finished => return Err(WriteFault::Finished),
        };
        match put_record(&mut self.tape, open, &self.volumes, self.capacity, bytes) {
            Ok(()) => Ok(()),
            Err(fault) if fault == WriteFault::RecordLength => Err(fault),
            Err(fault) => {
                self.phase = Phase::Failed;
                Err(fault)
            }
        }
    }

    /// Ends the current file: writes its last block, if there is one, and then its end, each on the
    /// next volume if it does not fit on the current one. The volume then has room for the headers
    /// of another file and the end of a volume.
    ///
    /// # Errors
    ///
    /// Returns `Failed`, `Finished` or `NoFile` depending on the writer's state, which is
    /// unchanged; then, whichever happens first, `OutOfVolumes` if the volume must be changed and
    /// no volume is left, `Device` or `OutOfMemory`.
    #[tactic(auto, using(crate::proofs::Calls::calls))]
    pub fn end_file(&mut self) -> Result<(), WriteFault>
        ensures same { SameSet self.old self.new }
        ensures failed { self.old.phase ≡ Failed
            → Refuses self.old result self.new WriteFault.Failed }
        ensures finished { self.old.phase ≡ Finished
            → Refuses self.old result self.new WriteFault.Finished }
        ensures no_file { self.old.phase ≡ Between
            → Refuses self.old result self.new WriteFault.NoFile }
        ensures between { OnOk result (self.new.phase ≡ Between) }
        ensures due { IfFiling self.old.phase (λ _. IfErr result IsEnding) }
        ensures files { self.new.files ≡ self.old.files }
        ensures volume { OnOk result (0 < self.new.course.volume) }
        ensures told { (told : List Told) → IsWriting (T.holds self.old.out) self.old told
            → OnOk result (IsWriting (T.holds self.new.out) self.new told) }
        ensures stuck { (told : List Told) → IsWriting (T.holds self.old.out) self.old told
            → IfErr result (λ fault. fault ≡ WriteFault.OutOfVolumes
            → IsOutOfVolumes (T.holds self.new.out) self.new told) }
        ensures front { (told : List Told) → IsWriting (T.holds self.old.out) self.old told
            → IfErr result (λ fault. IsEnding fault
            → IsLeftInside (T.holds self.new.out) self.new told
            ⊎ IsLeftBehind (T.holds self.new.out) self.new told) }
        ensures lasting { TapeLasts T.TapeOut (tape_of self.old) (tape_of self.new) }
        ensures asked { HasAsked T.TapeOut self.old → OnOk result (HasAsked T.TapeOut self.new) }
        ensures leaves { IfErr result (Leaves self.old self.new) }
        ensures cause { FailsWith (T.failures self.old.out) result (T.failures self.new.out) }
    {
        let open = match &mut self.phase {
            Phase::Filing(open) => open,
            Phase::Between => return Err(WriteFault::NoFile),
            Phase::Failed => return Err(WriteFault::Failed),
            Phase::Finished => return Err(WriteFault::Finished),
        };
        let file = open.file;
        let volumes = self.volumes.as_slice();
        let capacity = self.capacity;
        let flushed = flush(&mut self.tape, &mut open.packer, &file, volumes, capacity);
        // From here on every fault ends the writer.
        self.phase = Phase::Failed;
        flushed?;
        self.tape
            .make_room(&file, volumes, capacity, FILE_END + HEADERS + VOLUME_END)?;
        self.tape.end_section(&file, true)?;
        self.phase = Phase::Between;
        Ok(())
    }

    /// Ends the set: writes the second mark of its last volume and the end-of-medium marker.
    ///
    /// # Errors
    ///
    /// Returns `Failed` or `Finished` depending on the writer's state; `FileBegun` inside a file;
    /// `NoFile` before the first file; after these faults the writer is unchanged. Then `Device` or
    /// `OutOfMemory`, whichever happens first.
    #[tactic(auto, using(crate::proofs::Calls::calls))]
    pub fn finish(&mut self) -> Result<(), WriteFault>
        ensures same { SameSet self.old self.new }
        ensures closed { (fault : WriteFault) → closed_by self.old.phase ≡ Some fault
            → Refuses self.old result self.new fault }
        ensures no_file { self.old.phase ≡ Between → self.old.course.volume ≡ 0
            → Refuses self.old result self.new WriteFault.NoFile }
        ensures due { self.old.phase ≡ Between
            → IfErr result (IsFinishFault self.old.course.volume) }
        // Together with `end`, this says that the tapes contain a complete set of the files passed.
        ensures told { (told : List Told) → IsWriting (T.holds self.old.out) self.old told
            → OnOk result (IsWriting (T.holds self.new.out) self.new told) }
        ensures end { OnOk result (self.new.phase ≡ Finished) }
        // The last volume has one more mark, and the other volumes are unchanged.
        ensures closes { (volumes : List (List TapeItem)) (items : List TapeItem)
            → T.holds self.old.out (UnderWay volumes items)
            → OnOk result (T.holds self.new.out
            (Ended (volumes ++ (items ++ mark_item ∷ []) ∷ []))) }
        // The mark and the end-of-medium marker have 8 bytes.
        ensures used { OnOk result (self.new.course.used ≡ self.old.course.used + 8) }
        ensures front { (told : List Told) → IsWriting (T.holds self.old.out) self.old told
            → IfErr result (λ fault. IsEnding fault
            → IsLeftWhole (T.holds self.new.out) self.new told) }
        ensures lasting { IfErr result (λ _. TapeLasts T.TapeOut (tape_of self.old)
            (tape_of self.new)) }
        ensures asked { HasAsked T.TapeOut self.old → OnOk result (HasAsked T.TapeOut self.new) }
        ensures leaves { IfErr result (Leaves self.old self.new) }
        ensures cause { FailsWith (T.failures self.old.out) result (T.failures self.new.out) }
    {
        match self.phase {
            Phase::Between => {}
            Phase::Filing(_) => return Err(WriteFault::FileBegun),
            Phase::Failed => return Err(WriteFault::Failed),
            Phase::Finished => return Err(WriteFault::Finished),
        }
        if self.tape.course.volume == 0 {
            return Err(WriteFault::NoFile);
        }
        // From here on every fault ends the writer.
        self.phase = Phase::Failed;
        self.tape.mark()?;
        if let Err(fault) = self.tape.out.close() {
            return Err(fault_of(fault));
        }
        self.tape.course.used += 4;
        self.phase = Phase::Finished;
        Ok(())
    }
}
