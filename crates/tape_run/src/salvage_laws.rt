//! Laws that connect the definitions of `salvage`.

ghost use Rattle.tape_run.specs.SalvageWhole.{RecoversWhole, AllWhole, FirstStays, NeverLess};
ghost use Rattle.tape_run.specs.SalvageSections.{RecoversSectionOf, PassesSection, FindsSection};
ghost use Rattle.tape_run.specs.SalvageFile.{RecoversBlocks, RecoversFile, RecoversUpToGap};
ghost use Rattle.tape_run.specs.SalvageImage.{RestHasNothing};
ghost use Rattle.tape_run.specs.SalvageSections.{RecoversFromVolume, RecoversFromReading};
ghost use Rattle.tape_run.specs.{SalvageReadings.RecoversReading, SalvageGaps.GapsAreRuns};
ghost use Rattle.tape_run.specs.{SalvageClosed.ClosedAreThere, SalvageDamaged.ClosedAreExact};
ghost use Rattle.tape_run.specs.{SalvageUnnamed.UnnamedAreThere, SalvageFile.ReportsBlocks};
ghost use Rattle.tape_run.specs.SalvageSets.{RecoversSet, NoneHasMore};
ghost use Rattle.tape_run.specs.SalvageDamagedSets.{ClosedOfSetAreExact, FoundAreExact};
ghost use Rattle.tape_run.specs.SalvagedSets.{RecoversSets};

use crate::extract::images::ImageSource;
use std::io::{Read, Write};

/// If the parts of a file are in order, and any of its blocks are missing, the recovered records
/// are exactly those of which each part is in a block that was read.
#[tactic(auto, using(crate::proofs::SalvageWhole::gives_whole))]
pub fn whole_records_are_recovered()
    ensures { RecoversWhole }
{}

/// If no block is missing, all parts of the file are recovered.
#[tactic(auto, using(crate::proofs::SalvageWhole::all_whole))]
pub fn all_records_are_recovered()
    ensures { AllWhole }
{}

/// From a section of a valid set of which HDR1, the trailer label and the tape marks were read,
/// exactly the records of the blocks that were read are recovered, whichever of its other labels
/// were read. After it another section may begin.
pub fn sections_are_recovered()
    ensures { RecoversSectionOf }
{}

/// From another section nothing is recovered.
pub fn other_sections_are_passed()
    ensures { PassesSection }
{}

/// Such a section is found to close, with all of its data items counted, including unreadable ones.
pub fn sections_are_found()
    ensures { FindsSection }
{}

/// From a volume of a valid set of which HDR1, the trailer label and the tape marks of each section
/// were read, exactly the records of the section's blocks that were read are recovered. VOL1, HDR2,
/// EOF2 and further labels need not be readable.
#[tactic(auto, using(crate::proofs::SalvageVolumes::recovers_from_volume))]
pub fn volumes_are_recovered()
    ensures { RecoversFromVolume }
{}

/// Recovered records remain a prefix of the result, whatever follows.
#[tactic(auto, using(crate::proofs::SalvageGrows::first_stays))]
pub fn recovered_records_stay()
    ensures { FirstStays }
{}

/// Up to the first missing block nothing is left out, so at least as much is recovered as `extract`
/// recovers up to there.
pub fn never_less_than_up_to_the_gap()
    ensures { NeverLess }
{}

/// Reading stops at the mark after a section's data. If the section is on the image only once, the
/// rest of the image contains nothing more of it.
pub fn the_rest_has_nothing_more()
    ensures { RestHasNothing }
{}

/// From a reading of such a volume, which ends at the mark after the section's data or has all
/// items, exactly the records of the section's blocks that were read are recovered.
#[tactic(auto, using(crate::proofs::SalvageClosings::recovers_from_reading))]
pub fn readings_are_recovered()
    ensures { RecoversFromReading }
{}

/// A complete reading of a volume of a valid set, in which only data blocks were unreadable, is
/// such a volume. So exactly the records of a section's readable blocks are recovered from it.
pub fn readings_of_sets_are_recovered()
    ensures { RecoversReading }
{}

/// From readings of the volumes of a valid set, each section from one reading, exactly the records
/// in the sections' blocks, one after another, are recovered, whichever blocks were read. If
/// nothing is missing, every block was read.
pub fn sections_make_a_file()
    ensures { RecoversBlocks }
{}

/// So the recovered records of a file are exactly those of which each part is in a block that was
/// read. If nothing is missing, all parts of the file are recovered.
pub fn files_are_recovered()
    ensures { RecoversFile }
{}

/// Up to the first block that was not read no record of the file is left out, so at least as much
/// is recovered as `extract` recovers up to there.
pub fn files_are_recovered_up_to_the_gap()
    ensures { RecoversUpToGap }
{}

/// Each gap that is reported for a section is a longest run of unreadable blocks, and each such run
/// is reported as one gap, with the number of records before it. If the section is one of a valid
/// set, and was read from a reading of its volume, these are the section's own blocks.
pub fn gaps_are_the_missing_blocks()
    ensures runs { GapsAreRuns }
    ensures sections { ReportsBlocks }
{}

/// On any image, a section that is found by its HDR1 and closes is exactly the items between the
/// tape mark after its labels and the one before its trailer label: its number of blocks and its
/// digest are theirs.
#[tactic(auto, using(crate::proofs::SalvageClosed::closed_are_there))]
pub fn closed_sections_are_there()
    ensures { ClosedAreThere }
{}

/// On a volume of a valid set of which any items may be unreadable, also labels and tape marks, a
/// section of the set that is found by its HDR1 and closes has exactly its blocks, provided that no
/// other block reads as HDR1, EOF1 or EOV1.
#[tactic(auto, using(crate::proofs::SalvageDamaged::closed_are_exact))]
pub fn closed_sections_are_exact()
    ensures { ClosedAreExact }
{}

/// On any image, a section that is found without its HDR1 has exactly the items between two tape
/// marks; its trailer label follows, has its numbers, and counts exactly these items.
#[tactic(auto, using(crate::proofs::SalvageUnnamed::unnamed_are_there))]
pub fn sections_without_hdr1_are_there()
    ensures { UnnamedAreThere }
{}

/// From complete readings of volumes of a valid set, in which only data blocks were unreadable, in
/// any order and with repeats, of each section of a file exactly the blocks that its best image has
/// are recovered, or none if no image has it, and of these blocks exactly the complete records, if
/// each missing block contains part of a record. A section without blocks has to be on one of the
/// images. Up to the first missing block no record is left out. If nothing is missing, it is the
/// file.
pub fn files_of_sets_are_recovered()
    ensures recovers { RecoversSet }
    ensures most { NoneHasMore }
{}

/// In a reading of a volume of a valid set, of which any items may be unreadable or missing at the
/// end, a section that is found by its HDR1 and closes is one of the volume's sections, and has
/// exactly its blocks, provided that no other block of the set reads as HDR1, EOF1 or EOV1. So of
/// the copies that `salvage_to` finds, those that close have exactly the blocks of their sections.
pub fn closed_sections_of_sets_are_exact()
    ensures readings { ClosedOfSetAreExact }
    ensures found { FoundAreExact }
{}

/// So `salvage_to` recovers a file of a valid set from such images, if each is the same whenever it
/// is opened, and no reader failed: what it writes is what `files_of_sets_are_recovered` says. If
/// it returns that nothing is missing, this is what `extract` writes of the complete file.
#[tactic(auto, using(crate::proofs::SalvagedSets::recovers_sets))]
pub fn salvaged_sets_are_recovered<W: Write + Drop, R: Read + Drop, L: ImageSource<R>>()
    ensures { RecoversSets W.contents L.size L.gives R.remaining }
{}
