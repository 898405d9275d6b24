//! Laws about the reports of `survey` on images. Each is the contract of a function that does
//! nothing.

ghost use Rattle.tape_run.specs.{SurveyConflicts.CopiesAreShown, SurveyDigest.TellsWordsApart};
ghost use Rattle.tape_run.specs.SurveyLaws.{LeavesThere, EndedIsVolume, VolumesAreListed};
ghost use Rattle.tape_run.specs.SurveyLaws.{FindsWhatCheckFinds};

/// If an item is reported to break the order of a volume, the items before it are in that order,
/// and together with it they are not.
#[tactic(auto, using(crate::proofs::SurveyOrder::leaves_there))]
pub fn leaves_there()
    ensures { LeavesThere }
{}

/// An image reported as a complete volume is one: its label, further volume labels, sections in
/// their order, and the marks of its end, with nothing after them.
#[tactic(auto, using(crate::proofs::SurveyVolumes::ended_is_volume))]
pub fn ended_is_volume()
    ensures { EndedIsVolume }
{}

/// Digests of data blocks that differ in one word of one block are different. (A lost or a doubled
/// block changes the number of blocks, which is compared too.)
#[tactic(auto, using(crate::proofs::SurveyDigest::tells_words_apart))]
pub fn one_word_changes_the_digest()
    ensures { TellsWordsApart }
{}

/// Each complete copy that is compared is one that the items show, with all its data blocks.
#[tactic(auto, using(crate::proofs::SurveyShown::copies_are_shown))]
pub fn copies_are_shown()
    ensures { CopiesAreShown }
{}

/// The volume of each section that was found is among the volumes of its set, unless a section
/// before it ends its file; and where sections are missing between two volumes, one volume is
/// reported as missing.
#[tactic(auto, using(crate::proofs::SurveyListed::volumes_are_listed))]
pub fn volumes_are_listed()
    ensures { VolumesAreListed }
{}

/// If no HDR1 on an image is followed by a tape mark or by a header label other than HDR2, a survey
/// finds the sections that `check` finds, and no others if no item breaks the order of a volume.
#[tactic(auto, using(crate::proofs::OnwardFinds::finds_what_check_finds))]
pub fn finds_what_check_finds()
    ensures { FindsWhatCheckFinds }
{}
