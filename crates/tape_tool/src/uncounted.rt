//! The sections whose blocks are not counted, as a run finds them.

use crate::fault::ToolFault;
use crate::program::End;
use crate::screen::Progress;
use crate::staged::{StagedRows, row_text};
use std::alloc::{AllocError, Global};
use std::cell::{Cell, RefCell};
use std::io::Write;
use tape_label::{Field, Head1};
use tape_run::{FileKey, SectionKey, write_text};

/// The sections whose trailer labels have no block count, in the order in which those were read,
/// and those of which the run cannot know it.
#[derive(Drop)]
pub struct Uncounted {
    /// The sections of complete files of which this run cannot know it.
    pub staged: StagedRows,
    sections: RefCell<Vec<SectionKey>>,
    /// Whether there was no memory for all of them.
    is_short: Cell<bool>,
}

impl Uncounted {
    /// Contains no section.
    pub fn new(alloc: Global) -> Uncounted {
        Uncounted {
            staged: StagedRows::new(alloc),
            sections: RefCell::new(Vec::new(alloc)),
            is_short: Cell::new(false),
        }
    }

    /// Adds the section with this label, unless it is contained already.
    pub fn add(&self, head: &Head1) {
        let key = SectionKey {
            set_id: head.set_id,
            file: head.sequence,
            sect: head.sect,
        };
        let is_kept = match self.sections.try_borrow_mut() {
            Ok(mut sections) => sections.contains(&key) || sections.push(key).is_ok(),
            Err(_) => false,
        };
        if !is_kept {
            self.is_short.set(true);
        }
    }

    /// Contains no section any more.
    pub fn clear(&self) {
        if let Ok(mut sections) = self.sections.try_borrow_mut() {
            sections.clear();
        }
    }

    /// Returns the sections.
    ///
    /// # Errors
    ///
    /// Returns `AllocError` if memory was refused for one of them, or is refused for the result.
    pub fn sections(&self, alloc: Global) -> Result<Vec<SectionKey>, AllocError> {
        match self.sections.try_borrow() {
            Ok(sections) if !self.is_short.get() => Vec::from_slice(alloc, sections.as_slice()),
            _ => Err(AllocError),
        }
    }
}

/// Returns the numbers of the sections of a file whose blocks are not counted.
pub fn uncounted_of<R: Progress>(
    rt: &R,
    set_id: Field<6>,
    file: u16,
) -> Result<Vec<u16>, AllocError> {
    let sections = rt.uncounted().sections(rt.alloc())?;
    let mut numbers = Vec::new(rt.alloc());
    for section in &sections {
        if section.set_id == set_id && section.file == file {
            numbers.push(section.sect)?;
        }
    }
    Ok(numbers)
}

/// Returns whether the blocks of all sections of a file are counted, as far as this run knows.
pub fn are_counted<R: Progress>(rt: &R, key: FileKey) -> Result<bool, AllocError> {
    let staged = rt.uncounted().staged.of(rt.alloc(), key)?;
    Ok(staged.is_empty() && uncounted_of(rt, key.set_id, key.file)?.is_empty())
}

/// Prints a line for each section of a file whose blocks are not counted, with its number, and then
/// one for each row of sections that came from its stage alone, unless the run ended with a fault.
/// Returns how it ends now.
pub fn report_uncounted<R: Progress, W: Write>(
    rt: &R,
    set_id: Field<6>,
    file: u16,
    end: End,
    report: &mut W,
) -> End {
    if !matches!(end, End::Done | End::Incomplete) {
        return end;
    }
    match put_uncounted(rt, FileKey { set_id, file }, report) {
        Ok(()) => end,
        Err(fault) => End::Faulted(fault),
    }
}

/// Prints these lines of a file.
fn put_uncounted<R: Progress, W: Write>(
    rt: &R,
    key: FileKey,
    report: &mut W,
) -> Result<(), ToolFault> {
    let alloc = rt.alloc();
    for number in &uncounted_of(rt, key.set_id, key.file)? {
        let line = format!(in alloc; "UNCOUNTED {number}\n")?;
        write_text(report, line.as_bytes())?;
    }
    for row in &rt.uncounted().staged.of(alloc, key)? {
        let numbers = row_text(alloc, *row)?;
        let line = format!(in alloc; "STAGED{numbers}\n")?;
        write_text(report, line.as_bytes())?;
    }
    Ok(())
}
