//! The second labels of sections: what they state, and where they are absent.
ghost use Rattle.std.specs.{Result.IsOkUnless, Prelude.◌≡◌, Prelude.OnOk, Prelude.IfOk};
ghost use Rattle.std.specs.Map.{lookup};
ghost use Rattle.tape_image.specs.Reader.{tape_item};
ghost use Rattle.tape_run.specs.SurveyFiles.{form_in, with_form, same_file, with_form_of};
ghost use Rattle.tape_run.specs.SurveyFiles.{with_absent, is_other_form, form_conflict, first_form};
ghost use Rattle.tape_run.specs.SurveyFiles.{with_first_form, with_trailer, after_trailing};
ghost use Rattle.tape_run.specs.SurveyFiles.{blocking_in};
ghost use Rattle.tape_run.specs.declared.fault.RunFault.TheVariants as faults;

use super::files::{FileKey, FileNote, FileNotes, Files, file_of};
use super::fits::Fit;
use crate::fault::RunFault;
use crate::passing::Phase;
use crate::section::SectionKey;
use indexmap::IndexMap;
use tape_image::Item;
use tape_label::{Head2, Kind, is_further_header, kind, read_wide_head2};

/// What an item says about the second labels of a file, or of its image.
#[derive(Clone, Copy)]
pub(crate) enum FormNote {
    /// The second label of a section, if it is supported, and the character at its position 39.
    Stated(SectionKey, Head2, u8),
    /// A section of the file has no second label.
    Absent(FileKey),
    /// What follows the trailer label of a section.
    Trailer(Trailing),
}

/// What an item after the trailer label of a section says about a second one.
#[derive(Clone, Copy)]
pub(crate) enum Trailing {
    /// It is one.
    Found,
    /// It is unreadable, and may be one.
    Doubted,
    /// It is the next tape mark, and no item before it was unreadable.
    Closed,
}

/// The second label of a section that was found first, and the number of its image.
#[derive(Clone, Copy)]
pub struct FirstForm {
    pub image: usize,
    pub form: Head2,
}

/// The first second label of each section.
pub(crate) type FirstForms = IndexMap<SectionKey, FirstForm>;

/// Returns what an item says about the second labels of a file, if it says anything.
pub(crate) fn form_in(phase: &Phase, item: Item<'_>) -> Option<FormNote>
    ensures { result ≡ form_in phase.now (tape_item item.entry) }
{
    match (phase, item) {
        (Phase::Second(met), Item::Mark) => Some(FormNote::Absent(file_of(&met.key))),
        (Phase::Second(met), Item::Block(bytes)) => {
            match (kind(bytes), read_wide_head2(bytes)) {
                (Some(Kind::Hdr2), Ok(form)) => {
                    Some(FormNote::Stated(met.key, form, blocking_in(bytes)))
                }
                _ if is_further_header(bytes) => Some(FormNote::Absent(file_of(&met.key))),
                _ => None,
            }
        }
        (Phase::Trailers(_), Item::Block(bytes)) => match kind(bytes) {
            Some(Kind::Eof2 | Kind::Eov2) => Some(FormNote::Trailer(Trailing::Found)),
            _ => None,
        },
        (Phase::Trailers(_), Item::Bad) => Some(FormNote::Trailer(Trailing::Doubted)),
        (Phase::Trailers(_), Item::Mark) => Some(FormNote::Trailer(Trailing::Closed)),
        _ => None,
    }
}

/// Returns the character at position 39 of a second label, or a space if it is too short.
fn blocking_in(label: &[u8]) -> u8
    ensures { result ≡ blocking_in label.now }
{
    label.get(38).copied().unwrap_or(b' ')
}

/// Records what an item of image number `image` said about second labels, if anything.
pub(crate) fn note_form(
    files: &mut Files,
    image: usize,
    found: Option<FormNote>,
) -> Result<(), RunFault>
    ensures fault { IsOkUnless result faults.OutOfMemory }
    ensures ok { OnOk result (files.new ≡ with_form files.old image found) }
{
    match found {
        Some(FormNote::Stated(key, form, blocking)) => {
            let first = note_first_form(&mut files.forms, image, key, form)?;
            note_form_of(
                &mut files.notes,
                file_of(&key),
                first,
                image,
                (form, blocking),
            )
        }
        Some(FormNote::Absent(key)) => note_absent(&mut files.notes, key),
        Some(FormNote::Trailer(item)) => {
            note_trailer(&mut files.notes, files.reading, item, &files.fit)
        }
        None => Ok(()),
    }
}

/// Records a second label of a section, on image number `image`, unless one of the section was
/// recorded before, and returns that one.
fn note_first_form(
    forms: &mut FirstForms,
    image: usize,
    section: SectionKey,
    form: Head2,
) -> Result<Option<FirstForm>, RunFault>
    ensures fault { IsOkUnless result faults.OutOfMemory }
    ensures first { IfOk result (λ first. first ≡ first_form forms.old.entries section) }
    ensures ok { OnOk result (forms.new.entries ≡ with_first_form forms.old.entries image section
        form (first_form forms.old.entries section)) }
{
    let Some(first) = forms.get(&section).copied() else {
        forms.insert(section, FirstForm { image, form })?;
        return Ok(None);
    };
    Ok(Some(first))
}

/// Records that a section of this file has no second label.
fn note_absent(notes: &mut FileNotes, key: FileKey) -> Result<(), RunFault>
    ensures fault { IsOkUnless result faults.OutOfMemory }
    ensures ok { OnOk result (notes.new.entries
        ≡ with_absent notes.old.entries key (lookup (same_file key) notes.old.entries)) }
{
    let Some(note) = notes.get(&key).copied() else {
        return Ok(());
    };
    let note = FileNote {
        absent: true,
        ..note
    };
    notes.insert(key, note)?;
    Ok(())
}

/// Returns the record of a file after an item that follows the trailer label of a section, whose
/// blocks are `fit`.
fn after_trailing(note: FileNote, item: Trailing, fit: &Fit) -> FileNote
    ensures { result ≡ after_trailing note item fit.now }
{
    match item {
        Trailing::Found => FileNote {
            trailers: true,
            ..note
        },
        Trailing::Doubted => FileNote {
            doubted: true,
            ..note
        },
        // The form is that of an HDR2, which is recorded, or there is none.
        Trailing::Closed => FileNote {
            bare: note.bare || fit.form.is_some(),
            ..note
        },
    }
}

/// Records what an item says that follows the trailer label of the section that is being read.
fn note_trailer(
    notes: &mut FileNotes,
    reading: Option<FileKey>,
    item: Trailing,
    fit: &Fit,
) -> Result<(), RunFault>
    ensures fault { IsOkUnless result faults.OutOfMemory }
    ensures ok { OnOk result (notes.new.entries
        ≡ with_trailer notes.old.entries reading item fit.now) }
{
    let Some(key) = reading else {
        return Ok(());
    };
    let Some(note) = notes.get(&key).copied() else {
        return Ok(());
    };
    notes.insert(key, after_trailing(note, item, fit))?;
    Ok(())
}

/// Returns whether two second labels of a section say different things.
fn is_other_form(first: &Head2, second: &Head2) -> bool
    ensures { result ≡ is_other_form first.now second.now }
{
    first.format.letter() != second.format.letter()
        || first.block_len != second.block_len
        || first.rec_len != second.rec_len
        || first.offset != second.offset
}

/// Returns the numbers of the images with the first second label of a section and with another one,
/// if they differ.
fn form_conflict(first: Option<FirstForm>, image: usize, form: &Head2) -> Option<(usize, usize)>
    ensures { result ≡ form_conflict first image form.now }
{
    match first {
        Some(first) if is_other_form(&first.form, form) => Some((first.image, image)),
        _ => None,
    }
}

/// Records a second header label of this file, on image number `image`. The first second label of
/// its section is `first`, if one was found before.
fn note_form_of(
    notes: &mut FileNotes,
    key: FileKey,
    first: Option<FirstForm>,
    image: usize,
    second: (Head2, u8),
) -> Result<(), RunFault>
    ensures fault { IsOkUnless result faults.OutOfMemory }
    ensures ok { OnOk result (notes.new.entries ≡ with_form_of notes.old.entries key
        (lookup (same_file key) notes.old.entries) first image second.0 second.1) }
{
    let Some(note) = notes.get(&key).copied() else {
        return Ok(());
    };
    let (form, blocking) = second;
    let note = FileNote {
        form: note.form.or(Some(form)),
        blocking: if note.form.is_some() {
            note.blocking
        } else {
            blocking
        },
        conflict: note.conflict.or(form_conflict(first, image, &form)),
        ..note
    };
    notes.insert(key, note)?;
    Ok(())
}
