//! The lines about sections with several complete copies.

use super::page::Page;
use crate::section::SectionKey;
use crate::survey::copies::{CopyNote, CopyNotes};
use crate::text::Trimmed;

/// Sections that follow each other and have the same copies.
#[derive(Clone, Copy)]
struct Run {
    first: SectionKey,
    last: SectionKey,
    note: CopyNote,
}

impl Run {
    /// Returns whether a section continues the run.
    fn is_continued(&self, key: &SectionKey, note: &CopyNote) -> bool {
        let (last, before) = (&self.last, &self.note);
        let is_same = before.copies == note.copies
            && before.image == note.image
            && before.opponent() == note.opponent();
        let is_next = if key.sect == 1 {
            key.file == last.file.saturating_add(1)
        } else {
            key.file == last.file && key.sect == last.sect.saturating_add(1)
        };
        is_same && is_next && key.set_id == last.set_id
    }

    /// Appends its line.
    fn add_to(&self, page: &mut Page<'_>) {
        let (first, last, alloc) = (&self.first, &self.last, page.alloc());
        if self.note.opponent().is_some() {
            page.begin_entry();
        }
        let (set, file, sect) = (Trimmed(&first.set_id), first.file, first.sect);
        page.add(format!(in alloc; "{set} file {file} section {sect}"));
        if first != last {
            let (file, sect) = (last.file, last.sect);
            page.add(format!(in alloc; " to file {file} section {sect}"));
        }
        match self.note.opponent() {
            Some(other) => {
                page.put(b": good copies on ");
                page.add_name(self.note.image);
                page.put(b" and ");
                page.add_name(other);
                page.put(b" differ\n");
            }
            None => {
                let copies = self.note.copies;
                page.add(format!(in alloc; ": good, {copies} copies agree\n"));
            }
        }
    }
}

/// Returns whether a section has several complete copies, all of which agree.
pub(super) fn is_agreed(note: &CopyNote) -> bool {
    note.copies > 1 && note.opponent().is_none()
}

/// Returns the run with one more section or, once the line of the run was appended, a new one.
fn run_with(page: &mut Page<'_>, run: Option<Run>, key: &SectionKey, note: &CopyNote) -> Run {
    match run {
        Some(run) if run.is_continued(key, note) => Run { last: *key, ..run },
        before => {
            if let Some(before) = before {
                before.add_to(page);
            }
            Run {
                first: *key,
                last: *key,
                note: *note,
            }
        }
    }
}

/// Appends the sections with several complete copies that agree, or those whose complete copies
/// differ. Sections that follow each other and have the same copies share a line.
pub(super) fn add_runs(page: &mut Page<'_>, notes: &CopyNotes, agreed: bool) {
    let mut run = None;
    for (key, note) in notes {
        if is_agreed(note) == agreed && (agreed || note.opponent().is_some()) {
            run = Some(run_with(page, run, key, note));
        }
    }
    if let Some(run) = run {
        run.add_to(page);
    }
}
