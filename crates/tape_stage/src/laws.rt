//! Laws about the texts of checkpoints and the bytes of stages, each as the contract of a function.

ghost use Rattle.std.specs.Prelude.{◌≡◌, Ok, ℕ, List};
ghost use Rattle.tape_stage.specs.Cases.{CasesOfCrashes, CasesOfMoments, CasesOfFiles};
ghost use Rattle.tape_stage.specs.Laws.{EitherStands, NamedStands, ReadsOneOf, StandsOnce};
ghost use Rattle.tape_stage.specs.{Cases.CasesOfStages, Cases.CasesOfFaults, Laws.BadInside};
ghost use Rattle.tape_stage.specs.Laws.{HasBothTexts, IsTextOfOne, IsTextOnce};
ghost use Rattle.tape_stage.specs.{CasesOfLaws.CasesOfLaws, CasesOfSalvage.CasesOfSalvage};
ghost use Rattle.tape_stage.specs.Salvaged.{RemainsOnce};

use crate::disk::Disk;
use crate::point::text::PointFault;
use crate::point::{read_wide_point, write_point};
use tape_core::Checkpoint;

/// A checkpoint that was written is read back.
pub fn point_again(point: &Checkpoint) -> Result<Checkpoint, PointFault>
    ensures { result ≡ Ok point.now }
{
    read_wide_point(&write_point(point))
}

/// A text belongs to at most one checkpoint, in one version. Each checkpoint has at most one text
/// in each version, of 80 characters; before the millionth block of a section, with no parts
/// delivered, it has one in each.
pub fn texts_of_points()
    ensures of_one { IsTextOfOne }
    ensures once { IsTextOnce }
    ensures both { HasBothTexts }
{}

/// Bytes represent at most one generation, checkpoint and list of parts. At most one of each
/// remains of a damaged stage, with at most one offset of the damage. Bytes of a generation or the
/// next one are read as one of the two checkpoints, with its parts. If a checkpoint inside a part
/// was saved, opening the stage returns `BadFrame` with the offset of this part.
pub fn meaning_of_stages()
    ensures stands_once { (bytes : List ℕ) → StandsOnce bytes }
    ensures remains_once { (bytes : List ℕ) → RemainsOnce bytes }
    ensures named_stands { (bytes : List ℕ) → NamedStands bytes }
    ensures either_stands { (bytes : List ℕ) → EitherStands bytes }
    ensures reads_one_of { (bytes : List ℕ) → ReadsOneOf bytes }
    ensures bad_inside { (old bytes : List ℕ) → BadInside old bytes }
{}

/// Examples for the definitions of disks and stages: results of a crash and their moments, the
/// meaning of bytes, the contents of a stage after a call, the numbers of faults, the use of the
/// laws, and the contents of a damaged stage.
pub fn cases<D: Disk>()
    ensures crashes { CasesOfCrashes }
    ensures moments { CasesOfMoments }
    ensures files { CasesOfFiles }
    ensures stages { CasesOfStages D.Disk }
    ensures faults { CasesOfFaults }
    ensures laws { CasesOfLaws }
    ensures salvage { CasesOfSalvage }
{}
