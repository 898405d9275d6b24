//! Writes records into the blocks of a file, each on the current volume if it has room and
//! otherwise on the next volume.

ghost use Rattle.std.specs.Prelude.{◌≡◌, ◌≢◌, ◌<◌, ◌≤◌, ◌++◌, ◌∷◌, [], length, OnOk, IfErr, Ok};
ghost use Rattle.std.specs.{Prelude.Err, List.AllByRecursion};
ghost use Rattle.tape_blocks.specs.Packing.{emptied};
ghost use Rattle.tape_label.specs.Widths.{IsWideVolume};
ghost use Rattle.tape_set.specs.Tight.{least_capacity};
ghost use Rattle.tape_writer.specs.Inside.{IsInside, IsStuck, IsLeftOut, Flushed, IfInside, IfOpen};
ghost use Rattle.tape_writer.specs.declared.course.Course.{Course};
ghost use Rattle.tape_writer.specs.{Labels.IsReady, Lasting.TapeLasts, Lasting.StaysAsked};
ghost use Rattle.tape_writer.specs.{Draft.IsRoomy, Front.HoldsFront, Front.IsMidRecord};
ghost use Rattle.tape_writer.specs.{Faults.FailsWith, Faults.IsEnding, Room.room_of};
ghost use Rattle.tape_writer.specs.State.{IsSoundOpen, HasLength};

use crate::course::Opened;
use crate::fault::WriteFault;
use crate::out::TapeOut;
use crate::phase::OpenFile;
use crate::tape::Tape;
use tape_blocks::{Offer, Packer};
use tape_label::Vol1;

/// The size of the end of a volume inside a file: a mark, EOV1, EOV2, two marks and the
/// end-of-medium marker.
pub(crate) const VOLUME_END: u32 = 192;

/// Writes the current block, if there is one, on the next volume if it does not fit on the current
/// one.
#[tactic(auto, using(crate::proofs::Last::kept))]
pub(crate) fn flush<T: TapeOut>(
    tape: &mut Tape<T>,
    packer: &mut Packer,
    file: &Opened,
    volumes: &[Vol1],
    capacity: u32,
) -> Result<(), WriteFault>
    requires ready { IsReady file.now }
    requires wide { AllByRecursion IsWideVolume volumes.now }
    requires roomy { IsRoomy capacity (length volumes.now) tape.old.course }
    requires volumes { length volumes.now ≤ 9999 }
    requires capacity { least_capacity file.now.shape ≤ capacity }
    requires shape { packer.old.shape ≡ file.now.shape }
    ensures roomy { OnOk result (IsRoomy capacity (length volumes.now) tape.new.course) }
    ensures emptied { OnOk result (packer.new ≡ emptied packer.old) }
    ensures none { packer.old.parts ≡ [] → (result ≡ Ok tt) × (tape.new ≡ tape.old) }
    ensures room { OnOk result (room_of (length volumes.now) capacity tape.new.course packer.new
        ≤ room_of (length volumes.now) capacity tape.old.course packer.old) }
    ensures stuck { IfErr result (λ fault. fault ≡ WriteFault.OutOfVolumes
        → (tape.new ≡ tape.old)
        × IsLeftOut (length volumes.now) capacity tape.old.course packer.old) }
    ensures flushed { packer.old.parts ≢ [] → IfOpen T.TapeOut volumes.now capacity file.now
        tape.old (λ set_id d. OnOk result (Flushed (T.holds tape.new.out) volumes.now capacity
        set_id file.now tape.new.course d packer.old)) }
    ensures front { packer.old.parts ≢ [] → IfOpen T.TapeOut volumes.now capacity file.now tape.old
        (λ set_id d. IfErr result (λ fault. fault ≢ WriteFault.OutOfVolumes → (course : Course)
        × Flushed (HoldsFront (T.holds tape.new.out)) volumes.now capacity set_id file.now course
        d packer.old)) }
    ensures asked { StaysAsked T.TapeOut volumes.now tape.old result tape.new }
    ensures ending { IfErr result IsEnding }
    ensures lasting { TapeLasts T.TapeOut tape.old tape.new }
    ensures cause { FailsWith (T.failures tape.old.out) result (T.failures tape.new.out) }
{
    let Some(block) = packer.take_block() else {
        return Ok(());
    };
    let size = (8 + block.len() + block.len() % 2) as u32;
    tape.make_room(file, volumes, capacity, size + VOLUME_END)?;
    tape.block(block)?;
    tape.course.count += 1;
    Ok(())
}

/// Writes a record into the file. Each block is written when it is ready.
#[tactic(auto, using(crate::proofs::Last::kept))]
pub(crate) fn put_record<T: TapeOut>(
    tape: &mut Tape<T>,
    current: &mut OpenFile,
    volumes: &[Vol1],
    capacity: u32,
    whole: &[u8],
) -> Result<(), WriteFault>
    requires wide { AllByRecursion IsWideVolume volumes.now }
    requires volumes { length volumes.now ≤ 9999 }
    requires sound { IsSoundOpen volumes.now capacity tape.old.course current.old }
    ensures sound { OnOk result (IsSoundOpen volumes.now capacity tape.new.course current.new) }
    ensures file { current.new.file ≡ current.old.file }
    ensures length { OnOk result (HasLength current.old whole.now) }
    ensures refused { IfErr result (λ fault. fault ≡ WriteFault.RecordLength
        → (tape.new ≡ tape.old) × (current.new ≡ current.old)
        × (HasLength current.old whole.now → ⊥)) }
    ensures always { (HasLength current.old whole.now → ⊥) → result ≡ Err WriteFault.RecordLength }
    ensures packed { IfInside T.TapeOut volumes.now capacity tape.old current.old
        (λ set_id fs records. OnOk result (IsInside (T.holds tape.new.out) volumes.now capacity
        set_id current.old.file tape.new.course current.new.packer fs
        (records ++ whole.now ∷ []))) }
    ensures stuck { IfErr result (λ fault. fault ≡ WriteFault.OutOfVolumes
        → IfInside T.TapeOut volumes.now capacity tape.old current.old
        (λ set_id fs records. IsStuck (T.holds tape.new.out) volumes.now capacity set_id
        current.old.file tape.new.course fs (records ++ whole.now ∷ []))) }
    // Whatever the fault, the tapes contain a prefix of the items that are written for the record.
    ensures front { IfInside T.TapeOut volumes.now capacity tape.old current.old
        (λ set_id fs records. IfErr result (λ fault. IsEnding fault → (course : Course)
        × IsMidRecord (HoldsFront (T.holds tape.new.out)) volumes.now capacity set_id
        current.old.file course fs (records ++ whole.now ∷ []))) }
    // This ensures that no infinite input can keep the writer busy forever.
    ensures room { OnOk result
        (room_of (length volumes.now) capacity tape.new.course current.new.packer
        < room_of (length volumes.now) capacity tape.old.course current.old.packer) }
    ensures asked { StaysAsked T.TapeOut volumes.now tape.old result tape.new }
    ensures ending { IfErr result (λ fault. fault ≢ WriteFault.RecordLength → IsEnding fault) }
    ensures lasting { TapeLasts T.TapeOut tape.old tape.new }
    ensures cause { FailsWith (T.failures tape.old.out) result (T.failures tape.new.out) }
{
    let mut rest = whole;
    'offers: loop {
        match current.packer.offer(rest) {
            Err(_) => return Err(WriteFault::RecordLength),
            Ok(Offer::Taken) => return Ok(()),
            Ok(Offer::BlockReady(taken)) => {
                flush(tape, &mut current.packer, &current.file, volumes, capacity)?;
                rest = &rest[taken..];
            }
        }
    }
}
