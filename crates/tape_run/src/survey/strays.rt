//! Sections that a complete file does not need: damaged ones, and those after the one that ends it.
ghost use Rattle.std.specs.Prelude.{◌≡◌};
ghost use Rattle.tape_run.specs.Lacks.{entry_at, good_end};
ghost use Rattle.tape_run.specs.SurveySets.{follows_end, is_known_end, none_follows};

use super::sets::is_whole_file;
use crate::lacks::good_end;
use crate::section::{Entry, SectionKey};
use crate::sections::Sections;
use crate::unpack::{FoundFiles, SetFile};

/// Returns whether the section with this key is good, and ends its file.
fn is_end(sections: &Sections, key: &SectionKey) -> bool
    ensures { result ≡ is_known_end (good_end (entry_at sections.now.entries key.now)) }
{
    match good_end(sections, key) {
        Some(end) => end,
        None => false,
    }
}

/// Returns whether a good section with a lower number ends the file of a section.
fn follows_end(sections: &Sections, key: &SectionKey, entry: &Entry) -> bool
    ensures { result ≡ follows_end sections.now.entries (key.now, entry.now) }
{
    let (set_id, file) = (key.set_id, key.file);
    for sect in 0..key.sect {
        if is_end(sections, &SectionKey { set_id, file, sect }) {
            return true;
        }
    }
    false
}

impl FoundFiles {
    /// Returns the number of an image on which a section of a file begins that follows a complete
    /// one which ends the file, if one was found.
    pub fn after_end(&self, file: &SetFile) -> Option<usize> {
        for (key, entry) in &self.sections {
            let is_of_file = key.set_id == file.set_id && key.file == file.file;
            if is_of_file && follows_end(&self.sections, key, entry) {
                return self.locations.get(key).copied();
            }
        }
        None
    }
}

/// Returns whether no section follows a good one that ends its file.
pub(crate) fn none_follows(sections: &Sections) -> bool
    ensures { result ≡ none_follows sections.now.entries sections.now.entries }
{
    for (key, entry) in sections {
        if follows_end(sections, key, entry) {
            return false;
        }
    }
    true
}

/// Returns whether the file of a section is complete without it, and it is damaged or follows the
/// section that ends the file.
pub(crate) fn is_stray(sections: &Sections, key: &SectionKey, entry: &Entry) -> bool {
    let is_needed = entry.state.is_good() && !follows_end(sections, key, entry);
    !is_needed && is_whole_file(sections, key.set_id, key.file)
}
