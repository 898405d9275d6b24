//! The sections of a file that are damaged or missing.
ghost use Rattle.std.specs.Prelude.{◌≡◌, ◌≤◌, ◌<◌, ◌+◌, ◌-◌, ◌++◌, OnOk, IfOk};
ghost use Rattle.tape_run.specs.SurveyProblems.{found_problem, known_problems, first_after};
ghost use Rattle.tape_run.specs.SurveyProblems.{ends, problems_from, problems_in};
ghost use Rattle.tape_run.specs.{Lacks.entry_at, Lacks.key_at};

use crate::section::{Entry, LAST_SECTION, SectionKey, SectionState};
use crate::sections::Sections;
use std::alloc::AllocError;
use tape_label::Field;

/// A section of a file that is damaged, or sections that are missing.
#[derive(Clone, Copy)]
pub(crate) enum Problem {
    /// This section was found, and no copy of it is complete.
    Damaged(u16, Entry),
    /// The sections from the first number up to, but not including, the second are missing.
    Missing(u16, u16),
}

/// Appends a section that was found, if it is damaged.
fn add_found(problems: &mut Vec<Problem>, sect: u16, entry: &Entry) -> Result<(), AllocError>
    ensures { OnOk result (problems.new.items
        ≡ problems.old.items ++ found_problem sect entry.now) }
{
    if !entry.state.is_good() {
        problems.push(Problem::Damaged(sect, *entry))?;
    }
    Ok(())
}

/// Returns the entry of the section before section `key`.
pub(crate) fn before_of(sections: &Sections, key: &SectionKey) -> Option<Entry>
    ensures { result ≡ entry_at sections.now.entries
        (key_at key.now.set_id key.now.file (key.now.sect - 1)) }
{
    let sect = key.sect.saturating_sub(1);
    sections.get(&SectionKey { sect, ..*key }).copied()
}

/// Appends section `key`, if it was found and is damaged, after the missing sections before it,
/// which begin with `first`. Returns the number of the first section that may be missing after it.
fn add_section(
    problems: &mut Vec<Problem>,
    sections: &Sections,
    first: u16,
    key: &SectionKey,
) -> Result<u16, AllocError>
    requires first { first ≤ key.now.sect }
    requires small { key.now.sect < 65535 }
    ensures few { IfOk result (λ next. next ≤ key.now.sect + 1) }
    ensures next { IfOk result (λ next. next
        ≡ first_after first key.now.sect (entry_at sections.now.entries key.now)) }
    ensures problems { IfOk result (λ _. problems.new.items ≡ problems.old.items
        ++ known_problems first key.now.sect (entry_at sections.now.entries key.now)) }
{
    let Some(entry) = sections.get(key) else {
        return Ok(first);
    };
    if first < key.sect {
        problems.push(Problem::Missing(first, key.sect))?;
    }
    add_found(problems, key.sect, entry)?;
    Ok(key.sect + 1)
}

/// Returns whether no section is known to follow the section before this one: it ends the file, or
/// has no trailer label.
pub(crate) fn ends(sections: &Sections, first: &SectionKey) -> bool
    ensures { result ≡ ends (entry_at sections.now.entries
        (key_at first.now.set_id first.now.file (first.now.sect - 1))) }
{
    match before_of(sections, first) {
        Some(entry) => entry.eof || matches!(entry.state, SectionState::Cut),
        None => false,
    }
}

/// Appends the problems among the first `most` sections of a file, and the section after the last
/// one that was found, if one follows.
fn add_sections(
    problems: &mut Vec<Problem>,
    sections: &Sections,
    set_id: Field<6>,
    file: u16,
    most: u16,
) -> Result<(), AllocError>
    requires { most ≤ 9999 }
    ensures { OnOk result (problems.new.items
        ≡ problems.old.items ++ problems_from sections.now.entries set_id file 1 1 most) }
{
    let mut first = 1;
    for before in 0..most {
        let sect = before + 1;
        let key = SectionKey { set_id, file, sect };
        first = add_section(problems, sections, first, &key)?;
    }
    let next = SectionKey {
        set_id,
        file,
        sect: first,
    };
    if ends(sections, &next) {
        return Ok(());
    }
    problems.push(Problem::Missing(first, first + 1))?;
    Ok(())
}

/// Appends each damaged section of a file, and the sections that are missing before or after the
/// sections found.
#[tactic(auto, unfolding(crate::specs::SurveyProblems::problems_in))]
pub(crate) fn add_problems(
    problems: &mut Vec<Problem>,
    sections: &Sections,
    set_id: Field<6>,
    file: u16,
) -> Result<(), AllocError>
    ensures { OnOk result (problems.new.items
        ≡ problems.old.items ++ problems_in sections.now.entries set_id file) }
{
    add_sections(problems, sections, set_id, file, LAST_SECTION)
}
