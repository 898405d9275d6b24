//! The files whose header labels were found, by their numbers.
ghost use Rattle.std.specs.{Result.IsOkUnless, Prelude.◌≡◌, Prelude.OnOk, Prelude.IfOk};
ghost use Rattle.std.specs.Prelude.{Some};
ghost use Rattle.tape_run.specs.SurveyFiles.{no_labels, is_other, opponent, note_of, with_met};
ghost use Rattle.tape_run.specs.SurveyFiles.{file_key, reads_wide, is_unclear, any_lost};
ghost use Rattle.tape_run.specs.SurveyFiles.{has_trailers};
ghost use Rattle.tape_run.specs.SurveyFiles.{first_in, with_first, any_differs};
ghost use Rattle.tape_run.specs.SurveyFiles.{same_file, with_note};
ghost use Rattle.std.specs.Map.{lookup};
ghost use Rattle.tape_run.specs.declared.fault.RunFault.TheVariants as faults;

use super::fits::{Fit, Misfit};
use super::forms::FirstForms;
use super::padding::Padding;
use crate::fault::RunFault;
use crate::section::SectionKey;
use indexmap::IndexMap;
use std::alloc::Global;
use std::marker::Model;
use tape_label::{Field, Head1, Head2};

/// Identifies a file: its file set, and its number there.
#[derive(Clone, Copy, PartialEq, Eq, Hash)]
pub struct FileKey {
    pub set_id: Field<6>,
    pub file: u16,
}

/// The contents of the header labels of a file.
#[derive(Clone, Copy)]
pub struct FileNote {
    /// The label that was found first.
    pub head: Head1,
    /// The number of its image.
    pub image: usize,
    /// The second label that was found first, if one was supported.
    pub form: Option<Head2>,
    /// The character at position 39 of that label, in labels of IBM systems the block attribute; a
    /// space if there is none.
    pub blocking: u8,
    /// Whether a section without a second header label was found.
    pub absent: bool,
    /// Whether a section with a second trailer label was found.
    pub trailers: bool,
    /// Whether an unreadable item may be a second trailer label.
    pub doubted: bool,
    /// Whether the trailer labels of a section with HDR2, or without a second header label, end
    /// with a tape mark and none of them is unreadable.
    pub bare: bool,
    /// The first block that was found of a complete section that is not in its format, if any.
    pub misfit: Option<Misfit>,
    /// The padding that was found first, if any: of the blocks of its complete sections, or left
    /// out of those of sections with unreadable blocks.
    pub padding: Option<Padding>,
    /// The numbers of the first two images with labels of different files, if there are any.
    pub conflict: Option<(usize, usize)>,
}

/// The header label of a section that was found first, and the number of its image.
#[derive(Clone, Copy)]
pub struct FirstHead {
    pub image: usize,
    pub head: Head1,
}

/// The record of each file.
pub type FileNotes = IndexMap<FileKey, FileNote>;

/// The first label of each section.
type FirstHeads = IndexMap<SectionKey, FirstHead>;

/// The header labels that were found.
#[derive(Drop)]
pub(crate) struct Files {
    pub(crate) notes: FileNotes,
    heads: FirstHeads,
    pub(crate) forms: FirstForms,
    /// The file of the header label that was read last.
    pub(crate) reading: Option<FileKey>,
    /// The blocks of the section that is being read.
    pub(crate) fit: Fit,
}

// Contracts see the labels as the record of each file, the first labels of each section, and the
// file and the section that are being read.
impl Model for Files {
    ghost use Rattle.tape_run.specs.SurveyFiles.{Labelled};

    ghost Value = { Labelled };

    ghost view = { λ f. record {
      notes = f.notes.entries;
      heads = f.heads.entries;
      forms = f.forms.entries;
      reading = f.reading;
      fit = f.fit;
    } };
}

impl Files {
    /// Creates an empty record, without labels. Does not allocate.
    pub(crate) fn new(alloc: Global) -> Files
        ensures { result ≡ no_labels }
    {
        Files {
            notes: FileNotes::new(alloc),
            heads: FirstHeads::new(alloc),
            forms: FirstForms::new(alloc),
            reading: None,
            fit: Fit {
                form: None,
                begun: None,
                misfit: None,
                padding: None,
            },
        }
    }
}

/// Returns whether header labels with one file number belong to different files: by the file
/// identifier, and in one section also by the creation date and the generation. The sections of a
/// file may have been created on different days.
fn is_other(first: &Head1, second: &Head1) -> bool
    ensures { result ≡ is_other first.now second.now }
{
    first.file_id != second.file_id
        || (first.sect == second.sect
            && (first.created != second.created || first.generation != second.generation))
}

/// Returns the number of the image with a label of another file than `head`, if it is known: that
/// of `first`, the first label of the section, or else that of the file's first label.
fn opponent(note: &FileNote, first: Option<FirstHead>, head: &Head1) -> Option<usize>
    ensures { result ≡ opponent note.now first head.now }
{
    match first {
        Some(first) if is_other(&first.head, head) => Some(first.image),
        _ if is_other(&note.head, head) => Some(note.image),
        _ => None,
    }
}

/// Returns the record of a file after one more of its labels, on image number `image`. The first
/// label of its section is `first`, if one was found before.
fn note_of(note: Option<FileNote>, first: Option<FirstHead>, image: usize, head: Head1) -> FileNote
    ensures { result ≡ note_of note first image head }
{
    let Some(note) = note else {
        return FileNote {
            head,
            image,
            form: None,
            blocking: b' ',
            absent: false,
            trailers: false,
            doubted: false,
            bare: false,
            misfit: None,
            padding: None,
            conflict: None,
        };
    };
    let found = opponent(&note, first, &head).map(|other| (other, image));
    FileNote {
        conflict: note.conflict.or(found),
        ..note
    }
}

/// Records the header label that was found on image number `image`, if any.
pub(crate) fn note_met(files: &mut Files, image: usize, head: Option<Head1>) -> Result<(), RunFault>
    ensures fault { IsOkUnless result faults.OutOfMemory }
    ensures ok { OnOk result (files.new ≡ with_met files.old image head) }
{
    let Some(head) = head else {
        return Ok(());
    };
    files.reading = Some(FileKey {
        set_id: head.set_id,
        file: head.sequence,
    });
    let first = note_first(&mut files.heads, image, &head)?;
    note_file(&mut files.notes, first, image, head)
}

/// Records a label of a file, on image number `image`. The first label of its section is `first`,
/// if one was found before.
fn note_file(
    notes: &mut FileNotes,
    first: Option<FirstHead>,
    image: usize,
    head: Head1,
) -> Result<(), RunFault>
    ensures fault { IsOkUnless result faults.OutOfMemory }
    ensures ok { OnOk result (notes.new.entries ≡ with_note notes.old.entries first image head) }
{
    let key = FileKey {
        set_id: head.set_id,
        file: head.sequence,
    };
    let note = note_of(notes.get(&key).copied(), first, image, head);
    notes.insert(key, note)?;
    Ok(())
}

/// Records a header label, on image number `image`, unless one of its section was recorded before,
/// and returns that one.
fn note_first(
    heads: &mut FirstHeads,
    image: usize,
    head: &Head1,
) -> Result<Option<FirstHead>, RunFault>
    ensures fault { IsOkUnless result faults.OutOfMemory }
    ensures first { IfOk result (λ first. first ≡ first_in heads.old.entries head.now) }
    ensures ok { OnOk result (heads.new.entries ≡ with_first heads.old.entries image head.now
        (first_in heads.old.entries head.now)) }
{
    let section = SectionKey {
        set_id: head.set_id,
        file: head.sequence,
        sect: head.sect,
    };
    let Some(first) = heads.get(&section).copied() else {
        heads.insert(section, FirstHead { image, head: *head })?;
        return Ok(None);
    };
    Ok(Some(first))
}

/// Identifies the file of a section.
pub(crate) fn file_of(section: &SectionKey) -> FileKey
    ensures { result ≡ file_key section.now.set_id section.now.file }
{
    FileKey {
        set_id: section.set_id,
        file: section.file,
    }
}

/// Returns whether a section of a file has a second trailer label, or may have one. An unreadable
/// item does not count if the file has a section without second labels.
fn has_trailers(note: &FileNote) -> bool
    ensures { result ≡ has_trailers note.now }
{
    note.trailers || (note.doubted && !note.bare)
}

/// Returns whether a file may be read in the wider reading.
pub(crate) fn reads_wide(note: &FileNote) -> bool
    ensures { result ≡ reads_wide note.now }
{
    !(note.absent && (note.form.is_some() || has_trailers(note)))
}

/// Returns whether the second header label of a section of a file is lost, since a section has a
/// second trailer label or may have one, and no other header label says how the file was recorded.
pub(crate) fn is_unclear(note: &FileNote) -> bool
    ensures { result ≡ is_unclear (Some note.now) }
{
    note.absent && note.form.is_none() && has_trailers(note)
}

/// Returns whether a second label of any file is lost.
pub(crate) fn any_lost(files: &FileNotes) -> bool
    ensures { result ≡ any_lost files.now.entries }
{
    for (_, note) in files {
        if !reads_wide(note) {
            return true;
        }
    }
    false
}

/// Returns whether labels of different files were found under the number of any file.
pub(crate) fn any_differs(files: &FileNotes) -> bool
    ensures { result ≡ any_differs files.now.entries }
{
    for (_, note) in files {
        if note.conflict.is_some() {
            return true;
        }
    }
    false
}
