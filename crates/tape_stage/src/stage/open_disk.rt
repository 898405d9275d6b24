//! Opens and creates stages on disks.

ghost use Rattle.std.specs.Prelude.{◌≡◌, ◌+◌, ◌≤◌, [], ℕ, List, length, false, take, max, IfOk};
ghost use Rattle.std.specs.Prelude.{IfErr, OnOk, OnErr, ◌<◌, ◌^◌};
ghost use Rattle.tape_blocks.specs.Block.{Portion};
ghost use Rattle.tape_core.specs.Point.{Point};
ghost use Rattle.tape_stage.specs.Disk.{Holds as HoldsBytes, Torn, CutShort};
ghost use Rattle.tape_stage.specs.Stages.{IsStage, OpensOver, Holds, Survives, Returns};
ghost use Rattle.tape_stage.specs.Moments.{After, EndsSynced, IsDurable, Passes};
ghost use Rattle.tape_stage.specs.{Staged.Staged, Staged.new_slots, Body.body_text, Body.FitBody};
ghost use Rattle.tape_stage.specs.Stages.{RefusesCreating, RefusesOpening};
ghost use Rattle.tape_stage.specs.{Faults.IsNotDevice, Parts.longest_part};

use crate::disk::{Disk, DiskFault};
use crate::point::write_point;
use crate::stage::opening::look;
use crate::stage::{CLOSED, OPEN, Stage, StageFault};
use arrayvec::ArrayVec;
use std::alloc::{AllocError, Global};
use tape_core::Checkpoint;
use tape_label::{digits_of, put};

/// Returns the bytes after a gate: the generation, the checkpoint and spaces.
pub(crate) fn body_bytes(generation: u64, point: Checkpoint) -> [u8; 127]
    requires { generation < 10 ^ 15 }
    ensures text { result ≡ body_text generation point }
    ensures fit { FitBody generation point }
{
    let mut body = ArrayVec::new();
    put(&mut body, &digits_of::<15>(generation));
    put(&mut body, &write_point(&point));
    put(&mut body, &[b' '; 32]);
    body.into_inner().unwrap()
}

/// The size of the longest frame.
const ROOM: usize = 100_004;

/// Allocates the buffer for the frames of parts.
pub(crate) fn buffer_of(alloc: Global) -> Result<Vec<u8>, AllocError>
    ensures room { IfOk result (λ buffer. longest_part + 5 ≤ length buffer.items) }
{
    Vec::from_elem(alloc, 0u8, ROOM)
}

/// Writes `bytes` at offset `place`, and syncs. If a crash interrupts this, the range may contain
/// any bytes.
pub(crate) fn write_kept<D: Disk>(disk: &mut D, place: u64, bytes: &[u8]) -> Result<(), DiskFault>
    requires { place ≤ D.length_of disk.old }
    ensures written { D.is_honest disk.old
        → OnOk result (HoldsBytes (D.seen disk.old) place bytes.now (D.seen disk.new)) }
    ensures long { OnOk result (D.length_of disk.new ≡ max (D.length_of disk.old)
        (place + length bytes.now)) }
    ensures no_longer { D.length_of disk.new ≤ max (D.length_of disk.old)
        (place + length bytes.now) }
    ensures any_moment { D.is_honest disk.old → Passes D.Disk disk.old disk.new
        (After (Torn place (length bytes.now)) (D.may_leave disk.old)) }
    ensures torn { D.is_honest disk.old → Torn place (length bytes.now) (D.seen disk.old)
        (D.seen disk.new) }
    ensures synced { EndsSynced D.Disk disk.old result disk.new }
{
    disk.write_at(place, bytes)?;
    disk.sync()
}

/// Removes the bytes after the staged end, and syncs.
pub(crate) fn cut_kept<D: Disk>(disk: &mut D, end: u64) -> Result<(), DiskFault>
    requires { end ≤ D.length_of disk.old }
    ensures cut { D.is_honest disk.old → OnOk result
        (D.seen disk.new ≡ take end (D.seen disk.old)) }
    ensures partly { D.is_honest disk.old
        → OnErr result (CutShort end (D.seen disk.old) (D.seen disk.new)) }
    ensures any_moment { D.is_honest disk.old → IsDurable D.Disk disk.old
        → Passes D.Disk disk.old disk.new (λ c. take end c ≡ take end (D.seen disk.old)) }
    ensures short { OnOk result (D.length_of disk.new ≡ end) }
    ensures synced { EndsSynced D.Disk disk.old result disk.new }
{
    // Synced so that bytes appended later cannot be confused with old ones.
    disk.cut(end)?;
    disk.sync()
}

/// Returns the slots of a new stage before its first gate is opened: the first slot has generation
/// 1 and the checkpoint, and both gates are closed.
pub fn new_slots(point: &Checkpoint) -> [u8; 256]
    ensures text { result ≡ new_slots point.now }
    ensures fit { FitBody 1 point.now }
{
    let mut slots = ArrayVec::new();
    put(&mut slots, &[CLOSED]);
    put(&mut slots, &body_bytes(1, *point));
    put(&mut slots, &[CLOSED]);
    put(&mut slots, &[b'0'; 15]);
    put(&mut slots, &[b' '; 112]);
    slots.into_inner().unwrap()
}

/// The disk that was passed in, and the fault for which it was refused.
#[derive(Drop)]
pub struct Refused<D, F> {
    pub disk: D,
    pub fault: F,
}

impl<D: Disk> Stage<D> {
    /// Opens the stage on `disk`, and removes the bytes after it. A crash may also interrupt this
    /// call.
    ///
    /// # Errors
    ///
    /// Returns `NoPoint` if no slot is valid; `BadFrame` if a frame that the checkpoint counts is
    /// damaged; `OutOfMemory`; `Device`. Each returns the disk; nothing was written to it except in
    /// the case of `Device`.
    pub fn open_disk(
        alloc: Global,
        disk: D,
    ) -> Result<(Stage<D>, Checkpoint), Refused<D, StageFault>>
        ensures ok { D.is_honest disk → IfOk result (λ opened. (parts : List Portion)
            × Staged (D.seen disk) opened.0.generation opened.1 parts
            × (opened.0.acknowledged ≡ opened.1) × IsStage opened.0 parts parts) }
        ensures resumes { D.is_honest disk
            → IfOk result (λ opened. (g : ℕ) × (parts : List Portion)
            × Staged (D.seen disk) g opened.1 parts × Holds opened.0 parts
            × ((back : Point) (there : List Portion) → Returns opened.0 back there
            → (back ≡ opened.1) × (there ≡ parts))) }
        ensures survives { D.is_honest disk → IfOk result (λ opened. Survives opened.0) }
        ensures weight { IfOk result (λ opened. opened.0.weight ≡ opened.1.staged) }
        // A walk over the parts begins with the first.
        ensures walk { IfOk result (λ opened. opened.0.walked ≡ 0) }
        ensures calm { IfOk result (λ opened. opened.0.refused ≡ 0) }
        ensures any_moment { D.is_honest disk
            → IfOk result (λ opened. OpensOver D.Disk disk opened.0.disk) }
        // The opened stage lost at most the bytes after its staged end.
        ensures cut { D.is_honest disk → IfOk result (λ opened.
            D.seen opened.0.disk ≡ take (256 + opened.1.staged) (D.seen disk)) }
        ensures refused { IfErr result
            (λ refused. RefusesOpening D.Disk disk refused.fault refused.disk) }
    {
        let mut disk = disk;
        let (found, walked) = match look(&mut disk) {
            Ok(looked) => looked,
            Err(fault) => return Err(Refused { disk, fault }),
        };
        if let Some(place) = walked.broken {
            let fault = StageFault::BadFrame(place);
            return Err(Refused { disk, fault });
        }
        // The buffer is allocated before the disk is truncated, so a failed allocation leaves the
        // disk unchanged.
        let Ok(buffer) = buffer_of(alloc) else {
            let fault = StageFault::OutOfMemory;
            return Err(Refused { disk, fault });
        };
        let weight = found.staged();
        let Ok(()) = cut_kept(&mut disk, 256 + weight) else {
            let fault = StageFault::Device;
            return Err(Refused { disk, fault });
        };
        let stage = Stage {
            disk,
            generation: found.generation,
            in_second: found.in_second,
            other_open: found.other_open,
            acknowledged: found.point,
            pending: None,
            weight,
            failed: false,
            readable: true,
            buffer,
            walked: 0,
            refused: 0,
        };
        Ok((stage, found.point))
    }

    /// Creates a stage on an empty disk.
    ///
    /// # Errors
    ///
    /// Returns `OutOfMemory` or `Device`. Both return the disk: still empty after `OutOfMemory`,
    /// with at most 256 bytes after `Device`.
    pub fn create(
        alloc: Global,
        disk: D,
        point: &Checkpoint,
    ) -> Result<Stage<D>, Refused<D, StageFault>>
        requires empty { D.length_of disk ≡ 0 }
        requires none { point.now.staged ≡ 0 }
        ensures ok { D.is_honest disk → IfOk result
            (λ stage. (stage.acknowledged ≡ point.now) × IsStage stage [] []) }
        // On any disk, honest or not.
        ensures first { IfOk result (λ stage. (stage.acknowledged ≡ point.now)
            × (stage.generation ≡ 1) × (stage.weight ≡ 0) × (stage.failed ≡ false)) }
        ensures holds { D.is_honest disk → IfOk result (λ stage. Holds stage []) }
        ensures calm { IfOk result (λ stage. stage.refused ≡ 0) }
        ensures survives { D.is_honest disk → IfOk result (λ stage. Survives stage) }
        ensures returns { D.is_honest disk
            → IfOk result (λ stage. (back : Point) (there : List Portion) → Returns stage back there
            → (back ≡ point.now) × (there ≡ [])) }
        ensures refused { IfErr result
            (λ refused. RefusesCreating (D.faults disk) refused.fault (D.faults refused.disk)) }
        // Unless the disk failed it is unchanged; in any case at most the slots were written.
        ensures unwritten { IfErr result
            (λ refused. IsNotDevice refused.fault → refused.disk ≡ disk) }
        ensures few { IfErr result (λ refused. D.length_of refused.disk ≤ 256) }
    {
        let mut disk = disk;
        let Ok(buffer) = buffer_of(alloc) else {
            return Err(Refused {
                disk,
                fault: StageFault::OutOfMemory,
            });
        };
        let fault = StageFault::Device;
        // The gate is opened only after both slots are durable.
        let Ok(()) = write_kept(&mut disk, 0, &new_slots(point)) else {
            return Err(Refused { disk, fault });
        };
        let Ok(()) = write_kept(&mut disk, 0, &[OPEN]) else {
            return Err(Refused { disk, fault });
        };
        Ok(Stage {
            disk,
            generation: 1,
            in_second: false,
            other_open: false,
            acknowledged: *point,
            pending: None,
            weight: 0,
            failed: false,
            readable: true,
            buffer,
            walked: 0,
            refused: 0,
        })
    }

    /// Returns the disk.
    pub fn into_disk(self) -> D
        ensures { result ≡ self.disk }
    {
        self.disk
    }
}
