//! The complete copies of sections, compared by their data blocks and by how they end.
ghost use Rattle.std.specs.{Result.IsOkUnless, Prelude.◌≡◌, Prelude.OnOk, Prelude.IfOk};
ghost use Rattle.std.specs.Prelude.{Some};
ghost use Rattle.tape_run.specs.SurveyCopies.{no_copies, copy_note, noted_at, with_told};
ghost use Rattle.tape_run.specs.SurveyCopies.{dispute_at, differs, disputed, disputed_on};
ghost use Rattle.tape_run.specs.SurveyCopies.{opponent_of, with_same, opponents_at, opponents_by};
ghost use Rattle.tape_run.specs.declared.fault.RunFault.TheVariants as faults;

use super::files::FileKey;
use crate::fault::RunFault;
use crate::met::Told;
use crate::section::{Entry, SectionKey};
use indexmap::IndexMap;
use std::alloc::{AllocError, Global};
use std::marker::Model;

/// The record of the complete copies of a section.
#[derive(Clone, Copy)]
pub struct CopyNote {
    /// The number of the image with the copy that was found first.
    pub image: usize,
    /// The number of its data blocks.
    pub blocks: u32,
    /// The digest of its data blocks.
    pub digest: u64,
    /// Whether the file ends with it.
    pub eof: bool,
    /// The number of copies that agree with this one, including itself.
    pub copies: u32,
    /// The number of the image with the first copy that has other data blocks.
    pub other: Option<usize>,
    /// The number of the image with the first copy that has these data blocks but ends otherwise:
    /// the file ends with one of the two, and continues after the other.
    pub other_end: Option<usize>,
}

impl CopyNote {
    /// Returns the number of the image with a copy that contradicts the first one, if there is one:
    /// a copy with other data blocks, or else one that ends otherwise.
    pub fn opponent(&self) -> Option<usize>
        ensures { result ≡ opponent_of self.now }
    {
        self.other.or(self.other_end)
    }

    /// Returns the record after one more copy with these data blocks, on image number `image`,
    /// which ends the file or does not.
    fn with_same(&self, image: usize, eof: bool) -> CopyNote
        ensures { result ≡ with_same self.now image eof }
    {
        if self.eof == eof {
            return CopyNote {
                copies: self.copies.saturating_add(1),
                ..*self
            };
        }
        CopyNote {
            other_end: self.other_end.or(Some(image)),
            ..*self
        }
    }

    /// Returns the record after one more copy, on image number `image`.
    fn with_copy(&self, image: usize, entry: &Entry, digest: u64) -> CopyNote
        ensures { result ≡ copy_note (Some self.now) image entry.now digest }
    {
        if self.blocks == entry.blocks && self.digest == digest {
            return self.with_same(image, entry.eof);
        }
        CopyNote {
            other: self.other.or(Some(image)),
            ..*self
        }
    }
}

/// The record of the complete copies of each section.
pub(crate) type CopyNotes = IndexMap<SectionKey, CopyNote>;

/// The files with a section whose copies differ, and the number of one such section of each.
pub(crate) type Conflicts = IndexMap<FileKey, u16>;

/// The number of an image, and a section of which it has a complete copy.
pub(crate) type Held = (usize, SectionKey);

/// The complete copies that were found.
#[derive(Drop)]
pub(crate) struct Copies {
    pub(crate) notes: CopyNotes,
    pub(crate) conflicts: Conflicts,
    /// Each copy, in the order in which they were found.
    held: Vec<Held>,
}

// Contracts see copies as what is known of each section, the files in conflict, and the copies.
impl Model for Copies {
    ghost use Rattle.tape_run.specs.SurveyCopies.{Copied};

    ghost Value = { Copied };

    ghost view = { λ c. record {
      notes = c.notes.entries;
      conflicts = c.conflicts.entries;
      held = c.held.items;
    } };
}

impl Copies {
    /// Creates an empty record, without copies. Does not allocate.
    pub(crate) fn new(alloc: Global) -> Copies
        ensures { result ≡ no_copies }
    {
        Copies {
            notes: CopyNotes::new(alloc),
            conflicts: Conflicts::new(alloc),
            held: Vec::new(alloc),
        }
    }

    /// Records the section that was completed on image number `image`, if it is complete there,
    /// with the digest of its data blocks.
    pub(crate) fn note(
        &mut self,
        image: usize,
        told: Option<Told>,
        digest: u64,
    ) -> Result<(), RunFault>
        ensures fault { IsOkUnless result faults.OutOfMemory }
        ensures ok { OnOk result (self.new ≡ with_told self.old image told digest) }
    {
        let Some((key, entry)) = told else {
            return Ok(());
        };
        if !entry.state.is_good() {
            return Ok(());
        }
        self.held.push((image, key))?;
        let note = self.note_of(image, &key, &entry, digest);
        self.notes.insert(key, note)?;
        if note.opponent().is_some() {
            let file = FileKey {
                set_id: key.set_id,
                file: key.file,
            };
            self.conflicts.insert(file, key.sect)?;
        }
        Ok(())
    }

    /// Returns the record of section `key` after one more complete copy.
    fn note_of(&self, image: usize, key: &SectionKey, entry: &Entry, digest: u64) -> CopyNote
        ensures { result ≡ copy_note (noted_at self.now.notes key.now) image entry.now digest }
    {
        match self.notes.get(key) {
            Some(note) => note.with_copy(image, entry, digest),
            None => CopyNote {
                image,
                blocks: entry.blocks,
                digest,
                eof: entry.eof,
                copies: 1,
                other: None,
                other_end: None,
            },
        }
    }

    /// Returns the number of a section of the file whose complete copies differ, if there is one.
    pub(crate) fn dispute(&self, key: &FileKey) -> Option<u16>
        ensures { result ≡ dispute_at self.now key.now }
    {
        self.conflicts.get(key).copied()
    }

    /// Returns the numbers of two images with complete copies of a section of the file that differ,
    /// if there are any.
    pub(crate) fn opponents(&self, key: &FileKey) -> Option<(usize, usize)>
        ensures { result ≡ opponents_at self.now key.now }
    {
        let (set_id, file) = (key.set_id, key.file);
        match self.dispute(key) {
            Some(sect) => opponents_of(self.notes.get(&SectionKey { set_id, file, sect }).copied()),
            None => None,
        }
    }

    /// Returns whether complete copies of a section differ.
    fn differs(&self, key: &SectionKey) -> bool
        ensures { result ≡ differs (noted_at self.now.notes key.now) }
    {
        match self.notes.get(key) {
            Some(note) => note.opponent().is_some(),
            None => false,
        }
    }

    /// Returns the complete copies of sections whose complete copies differ, in the order in which
    /// they were found.
    pub(crate) fn disputed(&self, alloc: Global) -> Result<Vec<Held>, AllocError>
        ensures { IfOk result (λ copies. copies.items ≡ disputed self.now) }
    {
        let mut copies = Vec::new(alloc);
        for held in self.held.as_slice() {
            if self.differs(&held.1) {
                copies.push(*held)?;
            }
        }
        Ok(copies)
    }
}

/// Returns the numbers of two images with complete copies of a section that differ, by the record
/// of the section.
fn opponents_of(note: Option<CopyNote>) -> Option<(usize, usize)>
    ensures { result ≡ opponents_by note }
{
    let note = note?;
    match note.opponent() {
        Some(other) => Some((note.image, other)),
        None => None,
    }
}

/// Returns the section of the first of these copies that is on image number `image`.
pub(crate) fn disputed_on(copies: &[Held], image: usize) -> Option<SectionKey>
    ensures { result ≡ disputed_on copies.now image }
{
    let mut left = copies;
    'copies: loop {
        let [(number, key), rest @ ..] = left else {
            return None;
        };
        if *number == image {
            return Some(*key);
        }
        left = rest;
    }
}
