//! The sections of a catalogue, and the missing ones.

ghost use Rattle.std.specs.{Prelude.◌≡◌, Prelude.[], Prelude.map, Prelude.IfOk, Result.IsOkUnless};
ghost use Rattle.tape_run.specs.Lacks.{line_of, sets_from, set_lacks, lacks, found_all};
ghost use Rattle.tape_run.specs.NextLack.{IsNext};
ghost use Rattle.tape_run.specs.declared.fault.RunFault.TheVariants as faults;

use crate::catalogue::Catalogue;
use crate::fault::RunFault;
use crate::lacks::lack_of;
use crate::section::{Entry, Lack, SectionKey, SectionLine};
use crate::sections::Sections;
use indexmap::IndexMap;
use std::alloc::{AllocError, Global};
use tape_label::Field;
use tape_set::Sequence;

/// The sections of a catalogue, and those that are missing.
#[derive(Drop)]
pub struct Report {
    /// The sections, in the order in which they were found first.
    pub lines: Sequence<SectionLine>,
    /// The first missing section of each incomplete file: set by set in the order in which the sets
    /// were found first, and file by file from 1 to the greatest number that was found.
    pub lacks: Sequence<Lack>,
}

/// The file sets of a catalogue, each with the greatest number of a file.
pub(crate) type Sets = IndexMap<Field<6>, u16>;

/// Returns a section's line.
pub(crate) fn line_of(key: &SectionKey, entry: &Entry) -> SectionLine
    ensures { result ≡ line_of (key.now, entry.now) }
{
    SectionLine {
        set_id: key.set_id,
        file: key.file,
        sect: key.sect,
        volume: entry.volume,
        blocks: entry.blocks,
        state: entry.state,
    }
}

/// Returns the sets in the order in which they were found first, each with the greatest number of a
/// file.
pub(crate) fn sets_of(alloc: Global, sections: &Sections) -> Result<Sets, AllocError>
    ensures { IfOk result (λ sets. sets.entries ≡ sets_from [] sections.now.entries) }
{
    let mut sets = Sets::new(alloc);
    for (key, _) in sections {
        let greatest = match sets.get(&key.set_id) {
            Some(known) => (*known).max(key.file),
            None => key.file,
        };
        sets.insert(key.set_id, greatest)?;
    }
    Ok(sets)
}

/// Returns the next missing section, with the index of its set, after the first `searched` files of
/// the set at index `first`.
pub(crate) fn next_lack(
    sections: &Sections,
    sets: &Sets,
    first: usize,
    searched: u16,
) -> Option<(usize, Lack)>
    ensures { IsNext sections.now.entries sets.now.entries first searched result }
{
    let (mut place, mut file) = (first, searched);
    'search: while place < sets.len() {
        let Some((set_id, greatest)) = sets.get_index(place) else {
            unreachable!()
        };
        if file >= *greatest {
            place += 1;
            file = 0;
        } else {
            file += 1;
            if let Some(sect) = lack_of(sections, *set_id, file) {
                let set_id = *set_id;
                return Some((place, Lack { set_id, file, sect }));
            }
        }
    }
    None
}

/// Returns whether sections were found, in these sets, and none is missing.
pub(crate) fn found_all(sections: &Sections, sets: &Sets) -> bool
    requires { sets.now.entries ≡ sets_from [] sections.now.entries }
    ensures { result ≡ found_all sections.now.entries }
{
    !sections.is_empty() && next_lack(sections, sets, 0, 0).is_none()
}

/// Returns the first missing section of each incomplete file of the given sets.
fn lacks_of(alloc: Global, sections: &Sections, sets: &Sets) -> Result<Vec<Lack>, AllocError>
    ensures { IfOk result (λ lacks.
        lacks.items ≡ set_lacks sections.now.entries sets.now.entries) }
{
    let mut lacks = Vec::new(alloc);
    let (mut place, mut file) = (0usize, 0u16);
    'search: while let Some((set, lack)) = next_lack(sections, sets, place, file) {
        place = set;
        file = lack.file;
        lacks.push(lack)?;
    }
    Ok(lacks)
}

/// Returns the sections of a catalogue, and the first missing section of each incomplete file.
///
/// # Errors
///
/// Returns `OutOfMemory` if memory was refused, and no other error.
pub fn check_set(alloc: Global, catalogue: &Catalogue) -> Result<Report, RunFault>
    ensures lines { IfOk result (λ report. report.lines ≡ map line_of catalogue.now) }
    ensures lacks { IfOk result (λ report. report.lacks ≡ lacks catalogue.now) }
    ensures err { IsOkUnless result faults.OutOfMemory }
{
    let sections = &catalogue.sections;
    let mut lines = Vec::new(alloc);
    for (key, entry) in sections {
        lines.push(line_of(key, entry))?;
    }
    let sets = sets_of(alloc, sections)?;
    let lacks = lacks_of(alloc, sections, &sets)?;
    Ok(Report {
        lines: Sequence::of_vec(lines),
        lacks: Sequence::of_vec(lacks),
    })
}
