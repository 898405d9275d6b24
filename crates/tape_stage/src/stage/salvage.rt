//! Opening a stage, intact or damaged, for reading only.

ghost use Rattle.std.specs.Prelude.{◌≡◌, ℕ, List, length, IfOk, IfErr, true};
ghost use Rattle.tape_blocks.specs.{Block.Portion, Spans.join};
ghost use Rattle.tape_stage.specs.{OnlyReading.OnlyReads, Salvaged.Remains};
ghost use Rattle.tape_stage.specs.{Stages.Holds, Stages.RefusesReading};

use crate::disk::Disk;
use crate::stage::open_disk::{Refused, buffer_of};
use crate::stage::opening::look;
use crate::stage::{Stage, StageFault};
use std::alloc::Global;
use tape_core::Checkpoint;

/// A stage that was opened for reading only, with the parts before the first damaged frame.
#[derive(Drop)]
pub struct Salvage<D: Disk> {
    /// Refuses each change with `Failed`.
    pub stage: Stage<D>,
    /// The last acknowledged checkpoint. It also counts the parts after the damage.
    pub point: Checkpoint,
    /// The byte offset of the first damaged frame, counted from 0, or `None` if all frames that
    /// the checkpoint counts are intact.
    pub broken: Option<u64>,
    /// The number of complete records in the parts.
    pub records: u64,
}

impl<D: Disk> Stage<D> {
    /// Opens a stage for reading only: the last acknowledged checkpoint, and its parts, or the
    /// parts before the first damaged frame. Nothing is written or removed. A changed byte inside a
    /// part is not detected.
    ///
    /// # Errors
    ///
    /// Returns `NoPoint` if no slot is valid; `OutOfMemory`; `Device`. Each returns the disk.
    pub fn open_read_only(alloc: Global, disk: D) -> Result<Salvage<D>, Refused<D, StageFault>>
        ensures remains { D.is_honest disk → IfOk result (λ opened. (g : ℕ)
            × (parts : List Portion) × Remains (D.seen disk) g opened.point opened.broken parts
            × Holds opened.stage parts × (opened.records ≡ length (join parts).records)) }
        ensures sealed { IfOk result (λ opened. (opened.stage.failed ≡ true)
            × (opened.stage.readable ≡ true)) }
        ensures point { IfOk result (λ opened. opened.stage.acknowledged ≡ opened.point) }
        // A walk over the parts begins with the first.
        ensures walk { IfOk result (λ opened. opened.stage.walked ≡ 0) }
        ensures calm { IfOk result (λ opened. (opened.stage.refused ≡ 0)
            × (D.faults opened.stage.disk ≡ D.faults disk)) }
        // Nothing is written to the disk, honest or not, and its length does not change.
        ensures reads { IfOk result (λ opened. OnlyReads D.Disk disk opened.stage.disk) }
        ensures refused { IfErr result
            (λ refused. RefusesReading D.Disk disk refused.fault refused.disk) }
    {
        let mut disk = disk;
        let (found, walked) = match look(&mut disk) {
            Ok(looked) => looked,
            Err(fault) => return Err(Refused { disk, fault }),
        };
        let Ok(buffer) = buffer_of(alloc) else {
            let fault = StageFault::OutOfMemory;
            return Err(Refused { disk, fault });
        };
        // The weight of the intact frames.
        let weight = match walked.broken {
            None => found.staged(),
            Some(place) => place - 256,
        };
        let stage = Stage {
            disk,
            generation: found.generation,
            in_second: found.in_second,
            other_open: found.other_open,
            acknowledged: found.point,
            pending: None,
            weight,
            failed: true,
            readable: true,
            buffer,
            walked: 0,
            refused: 0,
        };
        Ok(Salvage {
            stage,
            point: found.point,
            broken: walked.broken,
            records: walked.records,
        })
    }
}
