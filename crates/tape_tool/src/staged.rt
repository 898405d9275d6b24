//! The sections of complete files that came from a stage alone.

use crate::fault::ToolFault;
use crate::program::End;
use crate::screen::Progress;
use crate::unpack::Listed;
use std::alloc::{AllocError, Global};
use std::cell::{Cell, RefCell};
use tape_label::Field;
use tape_run::{FileKey, FoundFiles, SectionKey, SectionState};
use tape_set::Want;

/// The number of the last section that a file may have.
const LAST_SECTION: u16 = 9_999;

/// Consecutive sections of a file that were complete on its stage when the run began, and of which
/// no trailer label was found on an image. The run cannot know whether their blocks are counted.
#[derive(Clone, Copy)]
pub struct StagedRow {
    set_id: Field<6>,
    file: u16,
    /// The number of the first of them.
    pub first: u16,
    /// The number of the last, or 9,999 if no image shows the file's end.
    pub last: u16,
}

/// The rows of such sections of the files of a run.
#[derive(Drop)]
pub struct StagedRows {
    rows: RefCell<Vec<StagedRow>>,
    /// Whether there was no memory for all of them.
    is_short: Cell<bool>,
}

impl StagedRows {
    /// Contains no row.
    pub fn new(alloc: Global) -> StagedRows {
        StagedRows {
            rows: RefCell::new(Vec::new(alloc)),
            is_short: Cell::new(false),
        }
    }

    /// Adds the row of a file from section `first` to `last`.
    fn add(&self, key: &FileKey, first: u16, last: u16) {
        let row = StagedRow {
            set_id: key.set_id,
            file: key.file,
            first,
            last,
        };
        let is_kept = match self.rows.try_borrow_mut() {
            Ok(mut rows) => rows.push(row).is_ok(),
            Err(_) => false,
        };
        if !is_kept {
            self.is_short.set(true);
        }
    }

    /// Returns the rows of a file.
    ///
    /// # Errors
    ///
    /// Returns `AllocError` if memory was refused for a row, or is refused for the result.
    pub fn of(&self, alloc: Global, key: FileKey) -> Result<Vec<StagedRow>, AllocError> {
        let mut found = Vec::new(alloc);
        match self.rows.try_borrow() {
            Ok(rows) if !self.is_short.get() => {
                for row in rows.as_slice() {
                    if row.set_id == key.set_id && row.file == key.file {
                        found.push(*row)?;
                    }
                }
                Ok(found)
            }
            _ => Err(AllocError),
        }
    }
}

/// Returns how many sections of a file are complete on its stage, on which this part is expected
/// next: as many as a file may have if the file is complete.
pub fn staged_before(want: Option<Want>) -> u16 {
    match want {
        Some(want) => want.sect.saturating_sub(1),
        None => LAST_SECTION,
    }
}

/// Remembers which sections of a complete file came from its stage alone. `met` is what was found
/// on the images, if they were surveyed.
pub fn note_staged<R: Progress>(rt: &R, met: Option<&FoundFiles>, key: &FileKey, listed: &Listed) {
    let mut first = 1;
    for before in 0..listed.staged {
        let sect = before.saturating_add(1);
        if let Some(is_last) = closed(met, key, sect) {
            if first <= before {
                rt.uncounted().staged.add(key, first, before);
            }
            if is_last {
                return;
            }
            first = sect.saturating_add(1);
        }
    }
    if first <= listed.staged {
        rt.uncounted().staged.add(key, first, listed.staged);
    }
}

/// Returns whether the file ends with this section, if a trailer label of it was found.
fn closed(met: Option<&FoundFiles>, key: &FileKey, sect: u16) -> Option<bool> {
    let key = SectionKey {
        set_id: key.set_id,
        file: key.file,
        sect,
    };
    let entry = met?.sections.get(&key)?;
    (entry.state != SectionState::Cut).then_some(entry.eof)
}

/// Returns the line of a row without its first word.
pub fn row_text(alloc: Global, row: StagedRow) -> Result<String, AllocError> {
    if row.last == LAST_SECTION {
        format!(in alloc; " {} -", row.first)
    } else {
        format!(in alloc; " {} {}", row.first, row.last)
    }
}
