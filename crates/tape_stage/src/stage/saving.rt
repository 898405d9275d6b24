//! Saving: slots, their gates, and the order of writes and syncs.

ghost use Rattle.std.specs.Prelude.{◌≡◌, ◌≤◌, ◌<◌, ◌+◌, ℕ, List, false, not, OnOk, IsErrOf, Some};
ghost use Rattle.std.specs.Prelude.{None, ◌⊎◌, ◌^◌};
ghost use Rattle.tape_blocks.specs.Block.{Portion};
ghost use Rattle.tape_core.specs.Point.{Point};
ghost use Rattle.tape_stage.specs.Staged.{IsEither, IsSaving, KeepsFrames, Staged, slot_place};
ghost use Rattle.tape_stage.specs.{Body.most_generation, Moments.EndsSynced, Moments.Passes};
ghost use Rattle.tape_stage.specs.Parts.{IsFront};
ghost use Rattle.tape_stage.specs.Staged.{StagedIn, NamedIn, IsClosed, IsNext, Ready, SameFrames};
ghost use Rattle.tape_stage.specs.Stages.{IsStage, EndsCall, HasNamed, IsPending};

use crate::disk::{Disk, DiskFault};
use crate::stage::open_disk::{body_bytes, write_kept};
use crate::stage::{CLOSED, MOST_GENERATION, OPEN, Stage, StageFault};
use tape_core::Checkpoint;

impl<D: Disk> Stage<D> {
    /// Returns the last acknowledged checkpoint: that of the last call that successfully created,
    /// opened, saved or rolled back the stage.
    pub fn acknowledged(&self) -> Checkpoint
        ensures value { result ≡ self.now.acknowledged }
        // Whatever a crash leaves now represents this checkpoint and its parts.
        ensures stands { D.is_honest self.now.disk → (acked parts : List Portion)
            → IsStage self.now acked parts
            → (bytes : List ℕ) → D.may_leave self.now.disk bytes
            → Staged bytes self.now.generation self.now.acknowledged acked }
    {
        self.acknowledged
    }

    /// Returns the checkpoint that was being saved when the disk failed, if there was one.
    pub fn pending(&self) -> Option<Checkpoint>
        ensures { result ≡ self.now.pending }
    {
        self.pending
    }

    /// Makes `point` the acknowledged checkpoint, which counts all parts or the first of them. No
    /// part is dropped.
    ///
    /// # Errors
    ///
    /// Returns `Failed` if the disk failed before or the stage was opened for reading only, and
    /// `Full` if no generation is left; in both cases nothing is changed. After `Device` the
    /// checkpoint is pending, and the stage must be opened again.
    pub fn save(&mut self, point: &Checkpoint) -> Result<(), StageFault>
        requires { point.now.staged ≤ self.old.weight }
        ensures named { OnOk result (HasNamed point.now self.old self.new) }
        ensures pending { IsErrOf result StageFault.Device
            → IsPending point.now self.old self.new }
        ensures full { IsErrOf result StageFault.Full → most_generation ≤ self.old.generation }
        ensures ok { D.is_honest self.old.disk → OnOk result ((acked parts front : List Portion)
            → IsStage self.old acked parts → IsFront point.now.staged front parts
            → IsStage self.new front parts) }
        ensures any_moment { D.is_honest self.old.disk → (acked parts front : List Portion)
            → IsStage self.old acked parts → IsFront point.now.staged front parts
            → Passes D.Disk self.old.disk self.new.disk (IsEither self.old.in_second
            self.old.generation self.old.acknowledged point.now acked front) }
        // A checkpoint inside a part is saved too. The frames stay as they are, so the stage has no
        // valid frame at that part from then on.
        ensures any_point { D.is_honest self.old.disk → (acked parts : List Portion)
            → IsStage self.old acked parts
            → Passes D.Disk self.old.disk self.new.disk (IsSaving self.old.in_second
            self.old.generation self.old.acknowledged point.now acked
            (KeepsFrames (D.seen self.old.disk)))
            × OnOk result ((bytes : List ℕ) → D.may_leave self.new.disk bytes
            → NamedIn (not self.old.in_second) (self.old.generation + 1) point.now bytes
            × KeepsFrames (D.seen self.old.disk) bytes) }
        ensures weight { self.new.weight ≡ self.old.weight }
        ensures calm { OnOk result (D.faults self.new.disk ≡ D.faults self.old.disk) }
        ensures frames { D.is_honest self.old.disk
            → KeepsFrames (D.seen self.old.disk) (D.seen self.new.disk) }
        ensures ends { EndsCall self.old result self.new }
    {
        if self.failed {
            return Err(StageFault::Failed);
        }
        if self.generation >= MOST_GENERATION {
            return Err(StageFault::Full);
        }
        let generation = self.generation + 1;
        let next = *point;
        match replace_slot(
            &mut self.disk,
            self.in_second,
            self.other_open,
            generation,
            next,
        ) {
            Ok(()) => {
                self.generation = generation;
                self.in_second = !self.in_second;
                self.other_open = true;
                self.acknowledged = next;
                self.pending = None;
                Ok(())
            }
            Err(_) => {
                self.failed = true;
                self.readable = false;
                self.pending = Some(next);
                Err(StageFault::Device)
            }
        }
    }

    /// Makes `point` the acknowledged checkpoint, which counts only the first parts, and drops the
    /// other parts.
    ///
    /// # Errors
    ///
    /// Returns `Failed` if the disk failed before or the stage was opened for reading only, and
    /// `Full` if no generation is left; in both cases nothing is changed. After `Device` the
    /// checkpoint is pending or already acknowledged, and the stage must be opened again.
    pub fn restart(&mut self, point: &Checkpoint) -> Result<(), StageFault>
        requires { point.now.staged ≤ self.old.weight }
        ensures named { OnOk result (HasNamed point.now self.old self.new) }
        ensures pending { IsErrOf result StageFault.Device
            → HasNamed point.now self.old self.new ⊎ IsPending point.now self.old self.new }
        ensures full { IsErrOf result StageFault.Full → most_generation ≤ self.old.generation }
        ensures ok { D.is_honest self.old.disk → OnOk result ((acked parts front : List Portion)
            → IsStage self.old acked parts → IsFront point.now.staged front parts
            → IsStage self.new front front) }
        ensures any_moment { D.is_honest self.old.disk → (acked parts front : List Portion)
            → IsStage self.old acked parts → IsFront point.now.staged front parts
            → Passes D.Disk self.old.disk self.new.disk (IsEither self.old.in_second
            self.old.generation self.old.acknowledged point.now acked front) }
        // The same for a checkpoint inside a part, whose first bytes remain.
        ensures any_point { D.is_honest self.old.disk → (acked parts : List Portion)
            → IsStage self.old acked parts
            → Passes D.Disk self.old.disk self.new.disk (IsSaving self.old.in_second
            self.old.generation self.old.acknowledged point.now acked
            (SameFrames point.now.staged (D.seen self.old.disk))) }
        ensures frames { D.is_honest self.old.disk → OnOk result (SameFrames point.now.staged
            (D.seen self.old.disk) (D.seen self.new.disk)) }
        ensures weight { OnOk result (self.new.weight ≡ point.now.staged) }
        ensures ends { EndsCall self.old result self.new }
    {
        let staged = point.staged;
        // The checkpoint is saved before the disk is truncated: truncating first could drop parts
        // that the older checkpoint counts.
        self.save(point)?;
        self.cut_parts(staged)
    }
}

/// Returns the offset of a slot's gate.
fn gate_place(second: bool) -> u64
    ensures { result ≡ slot_place second }
{
    if second { 128 } else { 0 }
}

/// Closes the gate of the older slot, if it is open, and syncs in either case.
pub(crate) fn close_gate<D: Disk>(
    disk: &mut D,
    in_second: bool,
    is_open: bool,
) -> Result<(), DiskFault>
    requires { 256 ≤ D.length_of disk.old }
    ensures closed { D.is_honest disk.old
        → OnOk result ((g : ℕ) (point : Point) (parts : List Portion)
        → Ready in_second g point parts is_open (D.seen disk.old) (D.may_leave disk.old)
        → IsClosed in_second g point parts (D.seen disk.new)) }
    ensures frames { D.is_honest disk.old → KeepsFrames (D.seen disk.old) (D.seen disk.new) }
    ensures any_moment { D.is_honest disk.old → (g : ℕ) (point : Point) (parts : List Portion)
        → Ready in_second g point parts is_open (D.seen disk.old) (D.may_leave disk.old)
        → Passes D.Disk disk.old disk.new (StagedIn in_second g point parts) }
    ensures long { OnOk result (D.length_of disk.new ≡ D.length_of disk.old) }
    ensures synced { EndsSynced D.Disk disk.old result disk.new }
{
    // A closed gate is not written again: a torn write could leave it open before a body that was
    // never acknowledged. The sync is needed in either case, because it makes the frames durable.
    if is_open {
        return write_kept(disk, gate_place(!in_second), &[CLOSED]);
    }
    disk.sync()
}

/// Replaces the older slot with the next generation. A crash leaves the current or the next
/// generation.
pub(crate) fn replace_slot<D: Disk>(
    disk: &mut D,
    in_second: bool,
    is_open: bool,
    generation: u64,
    next: Checkpoint,
) -> Result<(), DiskFault>
    requires room { 256 ≤ D.length_of disk.old }
    requires fits { generation < 10 ^ 15 }
    ensures done { D.is_honest disk.old → OnOk result
        ((g : ℕ) (point : Point) (parts : List Portion) → g + 1 ≡ generation
        → Ready in_second g point parts is_open (D.seen disk.old) (D.may_leave disk.old)
        → IsNext in_second generation next (D.seen disk.new)) }
    ensures frames { D.is_honest disk.old → KeepsFrames (D.seen disk.old) (D.seen disk.new) }
    ensures any_moment { D.is_honest disk.old → (g : ℕ) (point : Point) (parts : List Portion)
        → g + 1 ≡ generation
        → Ready in_second g point parts is_open (D.seen disk.old) (D.may_leave disk.old)
        → Passes D.Disk disk.old disk.new
        (IsSaving in_second g point next parts (KeepsFrames (D.seen disk.old))) }
    ensures long { OnOk result (D.length_of disk.new ≡ D.length_of disk.old) }
    ensures synced { EndsSynced D.Disk disk.old result disk.new }
{
    // Each step is synced before the next begins. Whatever a crash leaves of the body does not
    // count, because its gate is closed on the disk.
    close_gate(disk, in_second, is_open)?;
    let body = body_bytes(generation, next);
    write_kept(disk, gate_place(!in_second) + 1, &body)?;
    // A single byte, after everything that it makes valid was synced: a crash leaves the gate open
    // or closed.
    write_kept(disk, gate_place(!in_second), &[OPEN])
}
