//! The sets that were found and their files: what is complete, and what is missing.
ghost use Rattle.std.specs.Prelude.{◌≡◌, IfOk, option_map};
ghost use Rattle.tape_run.specs.SurveySets.{standing_of, clear_standing, is_mixed, is_whole_file};
ghost use Rattle.tape_run.specs.SurveySets.{file_problems, flaw_in, all_good};
ghost use Rattle.tape_run.specs.SurveySets.{is_all, is_flawless};

use super::files::{FileKey, FileNote, FileNotes, any_differs, any_lost};
use super::fits::{Flaw, any_misfit, flaw_of};
use super::problems::{Problem, add_problems, before_of};
use super::strays::none_follows;
use super::view::Findings;
use crate::lacks::lack_of;
use crate::report::{found_all, sets_of};
use crate::section::{Entry, SectionKey};
use crate::sections::Sections;
use std::alloc::AllocError;
use tape_label::Field;

/// The state of a file.
#[derive(Clone, Copy)]
pub(crate) enum Standing {
    /// All its sections are complete.
    Complete,
    /// This section was found, and no copy of it is complete.
    Damaged(u16, Entry),
    /// This section is missing; the section before it is on this volume.
    Behind(u16, Field<6>),
    /// This section is missing, and the one before it is not known.
    Missing(u16),
    /// This section is complete, and not in a format that can be read.
    Misfit(u16),
}

/// Returns the state of a file.
pub(crate) fn standing_of(sections: &Sections, set_id: Field<6>, file: u16) -> Standing
    ensures { result ≡ standing_of sections.now.entries set_id file }
{
    let Some(sect) = lack_of(sections, set_id, file) else {
        return Standing::Complete;
    };
    let key = SectionKey { set_id, file, sect };
    match (sections.get(&key), before_of(sections, &key)) {
        (Some(entry), _) => Standing::Damaged(sect, *entry),
        (None, Some(before)) => Standing::Behind(sect, before.volume),
        (None, None) => Standing::Missing(sect),
    }
}

/// Returns the state of a file that is not readable for this reason, if there is one.
pub(crate) fn clear_standing(flaw: Option<Flaw>, standing: Standing) -> Standing
    ensures { result ≡ clear_standing flaw standing }
{
    match (flaw, standing) {
        (Some(Flaw::Lost), Standing::Complete) => Standing::Missing(1),
        (Some(flaw), Standing::Complete) => Standing::Misfit(flaw.section()),
        (_, standing) => standing,
    }
}

/// Returns whether header labels of different files were found.
pub(crate) fn is_mixed(note: Option<&FileNote>) -> bool
    ensures { result ≡ is_mixed (option_map (λ n. n.now) note.entry) }
{
    match note {
        Some(note) => note.conflict.is_some(),
        None => false,
    }
}

/// Returns whether nothing of a file is missing.
pub(crate) fn is_whole_file(sections: &Sections, set_id: Field<6>, file: u16) -> bool
    ensures { result ≡ is_whole_file sections.now.entries set_id file }
{
    lack_of(sections, set_id, file).is_none()
}

/// Returns the damaged and missing sections of a file, unless it is complete.
#[tactic(auto, unfolding(crate::specs::SurveySets::file_problems))]
pub(crate) fn file_problems(
    findings: &Findings,
    set_id: Field<6>,
    file: u16,
) -> Result<Vec<Problem>, AllocError>
    ensures { IfOk result (λ problems. problems.items
        ≡ file_problems findings.now.sections set_id file) }
{
    let mut problems = Vec::new(findings.alloc);
    if !is_whole_file(&findings.sections, set_id, file) {
        add_problems(&mut problems, &findings.sections, set_id, file)?;
    }
    Ok(problems)
}

/// Returns the reason why a file is not readable although all its sections are complete, if there
/// is one.
pub(crate) fn flaw_in(findings: &Findings, set_id: Field<6>, file: u16) -> Option<Flaw>
    ensures { result ≡ flaw_in findings.now set_id file }
{
    match findings.files.notes.get(&FileKey { set_id, file }) {
        Some(note) => flaw_of(note),
        None => None,
    }
}

/// Returns whether each section that was found has a complete copy.
fn all_good(sections: &Sections) -> bool
    ensures { result ≡ all_good sections.now.entries }
{
    for (_, entry) in sections {
        if !entry.state.is_good() {
            return false;
        }
    }
    true
}

/// Returns whether no second label is lost, and each block of a complete section is in its format.
fn is_flawless(files: &FileNotes) -> bool
    ensures { result ≡ is_flawless files.now.entries }
{
    !any_lost(files) && !any_misfit(files)
}

/// Returns whether all is well; the exit status of a survey says the same.
pub(crate) fn is_all(findings: &Findings) -> Result<bool, AllocError>
    ensures { IfOk result (λ all. all ≡ is_all findings.now) }
{
    let sets = sets_of(findings.alloc, &findings.sections)?;
    let found = found_all(&findings.sections, &sets);
    let good = all_good(&findings.sections);
    let one_file = !any_differs(&findings.files.notes);
    let agreed = findings.copies.conflicts.is_empty();
    let flawless = is_flawless(&findings.files.notes);
    let within = none_follows(&findings.sections);
    Ok(findings.whole && found && good && one_file && agreed && flawless && within)
}
