//! Laws of runs, listings, catalogues, reports and printed names, as contracts of calls that do
//! nothing.

ghost use Rattle.tape_run.specs.GoesBehind.{LeavesBehind, LeadsOverAll, PassesFiles};
ghost use Rattle.tape_run.specs.Cases.{CasesOfMounts, CasesOfHistories, CasesOfGiven};
ghost use Rattle.tape_run.specs.Cases.{CasesOfVolumes, CasesOfSessions, CasesOfMade};
ghost use Rattle.tape_run.specs.CasesOfCatalogues.{CasesOfCatalogues, CasesOfImages, CasesOfCopies};
ghost use Rattle.tape_run.specs.WholeSet.{WholeVolumeIsGood, WholeSetIsGood, WholeCopiesAreAdded};
ghost use Rattle.tape_run.specs.{Cases.CasesOfCrashes, Listing.OneListing, Shown.GoodAreShown};
ghost use Rattle.tape_run.specs.{CasesOfCatalogues.CasesOfReports, CasesOfSections.CasesOfSections};
ghost use Rattle.tape_run.specs.WholeSet.{WholeSetLacksNothing, WholeSetIsFound};
ghost use Rattle.tape_run.specs.CasesOfReels.{CasesOfAnswers, CasesOfTable, CasesOfLeads};
ghost use Rattle.tape_run.specs.{CasesOfSaves.CasesOfSaved, CasesOfRounds.CasesOfRounds};
ghost use Rattle.tape_run.specs.{CasesOfCauses.CasesOfCauses, CasesOfExtracts.CasesOfTurns};
ghost use Rattle.tape_run.specs.CasesOfExtracts.{CasesOfOutputs};
ghost use Rattle.tape_run.specs.CasesOfSuspects.{CasesOfSuspects};
ghost use Rattle.tape_run.specs.{CasesOfSeen.CasesOfSeen, Runs.OnlyRefusalsStop, Lacks.LackIsFirst};
ghost use Rattle.tape_run.specs.{CasesOfRuns.CasesOfStops, OneEntry.OneEntryASection};
ghost use Rattle.tape_run.specs.{CasesOfSurveys.CasesOfSurveys, CasesOfUnpacking.CasesOfUnpacking};
ghost use Rattle.tape_run.specs.CasesOfLaws.{CasesOfRunLaws, CasesOfCatalogueLaws};
ghost use Rattle.tape_run.specs.{CasesOfSalvage.CasesOfSalvage, ExtractExamples.ExtractIsWorked};
ghost use Rattle.tape_run.specs.{Fronts.FrontsAreMounts, Fronts.GivenIsHistory, Lead.ItemsAreThere};
ghost use Rattle.tape_run.specs.CrashRuns.{StoodComesBack, StandsAcrossCrashes, ResumedGoesOn};
ghost use Rattle.tape_run.specs.{WorkedDays.DaysAreWorked, PlacedExamples.PlacesSay};
ghost use Rattle.tape_run.specs.{WorkedHistory.HistoryIsWorked, CheckExamples.ReportIsWorked};
ghost use Rattle.tape_run.specs.ListExamples.{ListingIsWorked, OutcomesSay};
ghost use Rattle.tape_run.specs.WholeReels.{WholeSetIsTold, GoodWasSeen};
ghost use Rattle.tape_run.specs.UnpackLaws.{NamesDiffer, NamesStay, NamesFit};
ghost use Rattle.tape_run.specs.QuotingLaws.{NamesShow, NamesTellApart, NamesKeep};
ghost use Rattle.tape_run.specs.{RecordText.CountedKeepsRecords, ReadableRuns.WideRunsRead};
ghost use Rattle.tape_run.specs.Translating.{TranslatesRecords, TranslatesInTurn};

/// What is written in the counted form determines the records, their number and their boundaries.
#[tactic(auto, using(crate::proofs::RecordTexts::keeps_records))]
pub fn counted_keeps_records()
    ensures { CountedKeepsRecords }
{}

/// What [`Translated`](crate::Translated) writes for a file are its records in the form, each with
/// its characters translated.
#[tactic(auto, using(crate::proofs::Translations::records_spelled))]
pub fn translates_records()
    ensures { TranslatesRecords }
{}

/// What [`Translated`](crate::Translated) writes does not depend on how the bytes are divided.
#[tactic(auto, using(crate::proofs::Translations::in_turn))]
pub fn translates_in_turn()
    ensures { TranslatesInTurn }
{}

/// Only a refusal can stop a run over a script with existing checkpoints and enough readers.
pub fn only_refusals_stop()
    ensures { OnlyRefusalsStop }
{}

/// The state that a crash leaves of a session is valid, if the reels read before it were those of
/// the set.
#[tactic(auto, using(crate::proofs::CrashRuns::comes_back))]
pub fn stood_comes_back()
    ensures { StoodComesBack }
{}

/// Across any number of crashes, if each session resumes from what the one before left, the
/// checkpoint that is left is valid.
pub fn stands_across_crashes()
    ensures { StandsAcrossCrashes }
{}

/// A session that was resumed at a checkpoint, and made its steps, is where the history leads from
/// there, with the parts before that position.
pub fn resumed_goes_on()
    ensures { ResumedGoesOn }
{}

/// A session that reads a file from its start in the wider reading is where the history leads, with
/// exactly the parts before that position. This holds for each set that the wider reading recovers,
/// so also for formats U and V.
pub fn wide_runs_read()
    ensures { WideRunsRead }
{}

/// The bytes that a reader returned of a mount before it failed are a mount.
pub fn fronts_are_mounts()
    ensures { FrontsAreMounts }
{}

/// Whichever readers failed, the returned bytes are a history if all bytes of the readers are one.
#[tactic(auto, using(crate::proofs::Fronts::given_is_history))]
pub fn given_is_history()
    ensures { GivenIsHistory }
{}

/// A worked history satisfies the premises of the headline. The law also states what the
/// headline then says: about this history; about its set if a reader fails or the sink refuses a
/// part; and about a session that is resumed on another day.
pub fn worked_history()
    ensures history { HistoryIsWorked }
    ensures days { DaysAreWorked }
{}

/// The bytes of any reader begin with a list of items, and with no other list.
#[tactic(auto, using(crate::proofs::Lead::items_are_there))]
pub fn items_are_there()
    ensures { ItemsAreThere }
{}

/// Examples for the definitions: histories and runs, a reel's answer and the table, catalogues and
/// reports, surveys, unpacking, recovered files, also those with gaps, and the laws.
pub fn cases()
    ensures mounts { CasesOfMounts }
    ensures histories { CasesOfHistories }
    ensures given { CasesOfGiven }
    ensures volumes { CasesOfVolumes }
    ensures sessions { CasesOfSessions }
    ensures made { CasesOfMade }
    ensures seen { CasesOfSeen }
    ensures stops { CasesOfStops }
    ensures crashes { CasesOfCrashes }
    ensures answers { CasesOfAnswers }
    ensures table { CasesOfTable }
    ensures leads { CasesOfLeads }
    ensures catalogues { CasesOfCatalogues }
    ensures images { CasesOfImages }
    ensures sections { CasesOfSections }
    ensures copies { CasesOfCopies }
    ensures reports { CasesOfReports }
    ensures surveys { CasesOfSurveys }
    ensures unpacking { CasesOfUnpacking }
    ensures salvage { CasesOfSalvage }
    ensures turns { CasesOfTurns }
    ensures outputs { CasesOfOutputs }
    ensures causes { CasesOfCauses }
    ensures saved { CasesOfSaved }
    ensures rounds { CasesOfRounds }
    ensures run_laws { CasesOfRunLaws }
    ensures catalogue_laws { CasesOfCatalogueLaws }
{}

/// Examples of suspect reels, and of others.
pub fn suspect_reels()
    ensures { CasesOfSuspects }
{}

/// The reader of a later file of the set skips the items that the reader of one file read up to the
/// end of a section, and then continues as if it had read the reel from its start.
pub fn passes_files()
    ensures passes { PassesFiles }
    ensures leads { LeadsOverAll }
    ensures leaves { LeavesBehind }
{}

/// Any bytes of an image have exactly one listing.
pub fn each_image_has_one_listing()
    ensures { OneListing }
{}

/// A worked listing.
pub fn listings_are_worked()
    ensures { ListingIsWorked }
{}

/// The meaning of each outcome of a listing, clause by clause.
pub fn outcomes_say()
    ensures { OutcomesSay }
{}

/// A worked listing with offsets: its items are those that the bytes begin with, and its offsets
/// are the only possible ones, and those of the first words of blocks and marks.
pub fn places_say()
    ensures { PlacesSay }
{}

/// For complete copies of all volumes of a valid set, in any order and with repeats, each section
/// is reported as GOOD, and nothing as missing.
pub fn whole_sets_are_told()
    ensures { WholeSetIsTold }
{}

/// A section reported as GOOD is complete on one of the images.
pub fn what_is_good_was_seen()
    ensures { GoodWasSeen }
{}

/// Lines of a report, worked out.
pub fn reports_are_worked()
    ensures { ReportIsWorked }
{}

/// A section that is reported as good is complete in the items that report it.
#[tactic(auto, using(crate::proofs::ShownSections::good_are_shown))]
pub fn good_sections_are_shown()
    ensures { GoodAreShown }
{}

/// A complete copy of a volume of a valid set makes each section on it good, whatever was found
/// before.
pub fn whole_volumes_make_sections_good()
    ensures { WholeVolumeIsGood }
{}

/// Complete copies of all volumes of a valid set, in any order and with repeats, make each of its
/// sections good.
pub fn whole_sets_are_good()
    ensures { WholeSetIsGood }
{}

/// The missing section of a file is its first section that is not good. Nothing is missing if its
/// sections are good up to one that ends it.
#[tactic(auto, using(crate::proofs::Lacking::first_one))]
pub fn what_lacks_comes_first()
    ensures { LackIsFirst }
{}

/// And if nothing else was found, no file of the set has a missing section.
#[tactic(auto, using(crate::proofs::WholeSets::nothing_lacks))]
pub fn whole_sets_lack_nothing()
    ensures { WholeSetLacksNothing }
{}

/// So if the set has a file, all of it is found: something was found, and nothing is missing.
#[tactic(auto, using(crate::proofs::WholeSets::all_found))]
pub fn whole_sets_are_found()
    ensures { WholeSetIsFound }
{}

/// For a complete copy whose reader did not fail, [`Catalogue::add`](crate::Catalogue::add) adds
/// exactly the sections in the volume's items.
pub fn whole_copies_are_added()
    ensures { WholeCopiesAreAdded }
{}

/// Whatever images are added to a catalogue, it has one entry for each section, and a report has
/// one line for each.
#[tactic(auto, using(crate::proofs::OneEntry::one_entry))]
pub fn one_entry_a_section()
    ensures { OneEntryASection }
{}

/// Examples of what `extract` writes and reports.
pub fn extract_is_worked()
    ensures { ExtractIsWorked }
{}

/// Files with different numbers, or in different sets, never have the same name, even if case is
/// ignored; the same is true of their stages.
#[tactic(auto, using(crate::proofs::UnpackedNames::names_differ))]
pub fn names_differ()
    ensures { NamesDiffer }
{}

/// No name leads out of its directory, and every file system accepts and keeps each name.
#[tactic(auto, using(crate::proofs::UnpackedFits::names_stay))]
pub fn names_stay()
    ensures { NamesStay }
{}

/// No name is that of a device, and no name is longer than 76 characters.
pub fn names_fit()
    ensures { NamesFit }
{}

/// No character of a printed name is a control character or an invisible one.
#[tactic(auto, using(crate::proofs::QuotedNames::names_show))]
pub fn names_show()
    ensures { NamesShow }
{}

/// Different names are printed differently.
#[tactic(auto, using(crate::proofs::QuotedNames::names_tell_apart))]
pub fn names_tell_apart()
    ensures { NamesTellApart }
{}

/// A name without `\` and hidden characters is printed unchanged.
#[tactic(auto, using(crate::proofs::QuotedNames::names_keep))]
pub fn names_keep()
    ensures { NamesKeep }
{}
