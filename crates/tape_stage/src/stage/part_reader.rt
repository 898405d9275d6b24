//! The parts of a stage, one after another.
ghost use Rattle.std.specs.Prelude.{◌≡◌, List};
ghost use Rattle.tape_blocks.specs.Block.{Portion};
ghost use Rattle.tape_stage.specs.Stages.{Holds, IsAhead, SameStage};

use crate::disk::Disk;
use crate::stage::Stage;
use tape_blocks::Part;
use tape_core::{PartWalk, SinkFault};

/// A reader of the parts of a stage.
#[derive(Drop)]
pub struct PartReader<'s, D: Disk> {
    stage: &'s mut Stage<D>,
}

impl<'s, D: Disk> PartReader<'s, D> {
    ghost use Rattle.std.specs.Borrow.{sem};
    ghost use Rattle.tape_stage.specs.Reads.{ReadsAs};

    /// Returns the next part, or `None` after the last part.
    ///
    /// # Errors
    ///
    /// Returns the error of `PartWalk::next_part`; the same part is still to come.
    pub fn next(&mut self) -> Result<Option<Part<'_>>, SinkFault>
        ensures* after { sem 𝓛 (ReadsAs D.row D.Disk self.entry result) }
    {
        self.stage.next_part()
    }
}

impl<D: Disk> Stage<D> {
    /// Returns a reader of the parts, starting with the first.
    pub fn parts(&mut self) -> PartReader<'_, D>
        ensures same_stage { result.stage.ghost_name ≡ self.entry.ghost_name }
        ensures unchanged { SameStage self.old result.stage.now
            × (result.stage.now.disk ≡ self.old.disk)
            × (result.stage.now.refused ≡ self.old.refused) }
        ensures keeps { (parts : List Portion) → Holds self.old parts
            → Holds result.stage.now parts }
        ensures all { (parts : List Portion) → Holds self.old parts
            → IsAhead result.stage.now parts }
    {
        self.walked = 0;
        PartReader { stage: self }
    }
}
