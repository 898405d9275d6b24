//! `unpack`: which files are on the images.

pub mod choice;
pub mod line;
pub mod name;
mod order;
pub mod origin;
pub mod tally;

ghost use Rattle.std.specs.Prelude.{◌≡◌, ◌++◌, ◌∷◌, [], Some, IfOk, OnOk};
ghost use Rattle.std.specs.Result.{IsOkUnless};
ghost use Rattle.tape_run.specs.Unpacking.{file_at, file_by, files_from, files_of, lack_with};
ghost use Rattle.tape_run.specs.Unpacking.{is_read, is_passed, set_of, volume_of, FilesOn};
ghost use Rattle.tape_run.specs.declared.fault.RunFault.TheVariants as faults;

use crate::extract::images::ImageSource;
use crate::fault::RunFault;
use crate::lacks::lack_of;
use crate::report::sets_of;
use crate::sections::Sections;
use crate::survey::files::{FileKey, FileNote, FileNotes, reads_wide};
use crate::survey::fits::{Flaw, flaw_of};
use crate::survey::glance::First;
use crate::survey::locations::Locations;
use crate::survey::view::{Findings, ImageSurvey, read_images};
use std::alloc::{AllocError, Global};
use std::io::Read;
use tape_label::Field;
use tape_set::{Sequence, Want};

/// A file of a set.
#[derive(Clone, Copy)]
pub struct SetFile {
    pub set_id: Field<6>,
    /// Its number in the set, from 1.
    pub file: u16,
    /// The file identifier of the header label that was found first.
    pub file_id: Field<17>,
    /// The creation date of that label.
    pub created: Field<6>,
    /// Whether labels of different files have the number, or complete copies of a section differ.
    pub differs: bool,
    /// The numbers of two images with such labels or copies, if there are any.
    pub conflict: Option<(usize, usize)>,
    /// The first section that is complete on no image or, if each is complete on one, one that is
    /// not readable: its second label is lost or not supported, or a block is not in its format.
    pub lacks: Option<u16>,
    /// Whether it may be read in the wider reading ([`Session::widen`](crate::Session::widen)):
    /// each section has its second header label, or no section has one, nor a second trailer
    /// label. Otherwise that label is lost, and the blocks are not records.
    pub wide: bool,
}

/// The findings of `unpack` on its images.
#[derive(Drop)]
pub struct FoundFiles {
    /// The files for which a label was found: set by set in the order in which the sets were found
    /// first, and by their numbers.
    pub files: Sequence<SetFile>,
    /// For each image what it is and how far it was read, or `None` if it was not opened.
    pub images: Sequence<Option<ImageSurvey>>,
    /// Whether every image was read completely: each was opened, and is a volume from its label to
    /// its end, in formats that are read.
    pub whole: bool,
    /// For each section the number of an image on which it begins.
    pub locations: Locations,
    /// The sections that were found, each with its best state.
    pub sections: Sections,
    /// The labels of each file.
    pub notes: FileNotes,
}

/// Finds the files of all sets on the images: exactly those that `survey` reports.
///
/// Images are opened in their order, each read to its end or to a fault, and then closed. Allocates
/// for the reader of one image, for the sections and files that were found, and for what each image
/// is.
///
/// # Errors
///
/// Returns `OutOfMemory`, and no other error.
pub fn find_files<R: Read + Drop, L: ImageSource<R>>(
    alloc: Global,
    images: &mut L,
) -> Result<FoundFiles, RunFault>
    ensures ok { IfOk result
        (FilesOn L.size L.gives R.remaining images.old images.new) }
    ensures fault { IsOkUnless result faults.OutOfMemory }
{
    let mut findings = Findings::new(alloc);
    let count = images.count();
    let Ok(sights) = read_images(&mut findings, images, count) else {
        return Err(RunFault::OutOfMemory);
    };
    let whole = findings.whole;
    let Ok(files) = files_of(alloc, &findings) else {
        return Err(RunFault::OutOfMemory);
    };
    let (locations, sections) = (findings.locations, findings.sections);
    let labels = findings.files;
    Ok(FoundFiles {
        files: Sequence::of_vec(files),
        images: Sequence::of_vec(sights),
        whole,
        locations,
        sections,
        notes: labels.notes,
    })
}

/// Returns whether an image was read completely: it was opened, and is a volume from its label to
/// its end, in formats that are read.
pub fn is_read(sight: &Option<ImageSurvey>) -> bool
    ensures { result ≡ is_read sight.now }
{
    match sight {
        Some(sight) => sight.is_whole(),
        None => false,
    }
}

/// Returns the set of the section that begins first on an image, if any. On a valid volume no other
/// set has sections.
pub fn set_of(sight: &Option<ImageSurvey>) -> Option<Field<6>>
    ensures { result ≡ set_of sight.now }
{
    match sight {
        Some(sight) => sight.glance.head.map(|head| head.set_id),
        None => None,
    }
}

/// Returns whether only one section begins on an image, an earlier one of the file than the part
/// `want`. Such an image contains nothing that the file still needs.
pub fn is_passed(sight: &Option<ImageSurvey>, want: Want) -> bool
    ensures { result ≡ is_passed want sight.now }
{
    match sight {
        Some(sight) if sight.glance.files == 1 => match sight.glance.head {
            Some(head) => head.sequence == want.file && head.sect < want.sect,
            None => false,
        },
        _ => false,
    }
}

/// Returns the volume identifier of an image, if it was opened and begins with a volume label.
pub fn volume_of(sight: &Option<ImageSurvey>) -> Option<Field<6>>
    ensures { result ≡ volume_of sight.now }
{
    match sight {
        Some(sight) => match sight.glance.first {
            First::Volume(label) => Some(label.volume),
            _ => None,
        },
        None => None,
    }
}

/// Returns the first section that is complete on no image, or else the one that is not readable for
/// this reason, if there is one.
fn lack_with(flaw: Option<Flaw>, lack: Option<u16>) -> Option<u16>
    ensures { result ≡ lack_with flaw lack }
{
    match (lack, flaw) {
        (None, Some(flaw)) => Some(flaw.section()),
        (lack, _) => lack,
    }
}

/// Returns what is known of a file.
fn set_file(findings: &Findings, key: FileKey, note: &FileNote) -> SetFile
    ensures { result ∷ [] ≡ file_by findings.now key.set_id key.file (Some note.now) }
{
    let FileKey { set_id, file } = key;
    SetFile {
        set_id,
        file,
        file_id: note.head.file_id,
        created: note.head.created,
        differs: note.conflict.is_some() || findings.copies.dispute(&key).is_some(),
        conflict: note.conflict.or(findings.copies.opponents(&key)),
        lacks: lack_with(flaw_of(note), lack_of(&findings.sections, set_id, file)),
        wide: reads_wide(note),
    }
}

/// Adds a file to those before it, if a label of it was found.
fn add_file(
    files: &mut Vec<SetFile>,
    findings: &Findings,
    set_id: Field<6>,
    file: u16,
) -> Result<(), AllocError>
    ensures { OnOk result (files.new.items
        ≡ files.old.items ++ file_at findings.now set_id file) }
{
    let key = FileKey { set_id, file };
    let Some(note) = findings.files.notes.get(&key) else {
        return Ok(());
    };
    files.push(set_file(findings, key, note))?;
    Ok(())
}

/// Adds the files of a set, up to the greatest number of one.
fn add_files(
    files: &mut Vec<SetFile>,
    findings: &Findings,
    set_id: Field<6>,
    greatest: u16,
) -> Result<(), AllocError>
    ensures { OnOk result (files.new.items
        ≡ files.old.items ++ files_from findings.now set_id 1 greatest) }
{
    for before in 0..greatest {
        add_file(files, findings, set_id, before + 1)?;
    }
    Ok(())
}

/// Returns the files of all sets that were found.
fn files_of(alloc: Global, findings: &Findings) -> Result<Vec<SetFile>, AllocError>
    ensures { IfOk result (λ files. files.items ≡ files_of findings.now) }
{
    let sets = sets_of(alloc, &findings.sections)?;
    let mut files = Vec::new(alloc);
    for (set_id, greatest) in &sets {
        add_files(&mut files, findings, *set_id, *greatest)?;
    }
    Ok(files)
}
