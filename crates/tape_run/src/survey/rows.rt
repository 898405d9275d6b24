//! A survey in rows, for scripts.
ghost use Rattle.std.specs.Prelude.{◌≡◌, ◌<◌, ◌++◌, length, map, IfOk, OnOk};
ghost use Rattle.std.specs.List.{flat_map};
ghost use Rattle.tape_run.specs.SurveyCompared.{name_at, copy_row, copies_rows};
ghost use Rattle.tape_run.specs.SurveyRows.{problem_cell, file_row, found_row, file_rows};
ghost use Rattle.tape_run.specs.SurveyRows.{section_row, image_rows, survey_rows, padded_rows};
ghost use Rattle.tape_run.specs.SurveyRows.{sets_rows};
ghost use Rattle.tape_run.specs.SurveySets.{file_problems};

mod cells;

use super::copies::{CopyNote, CopyNotes, Held, disputed_on};
use super::files::{FileKey, FileNotes};
use super::gaps::{gap_first, is_found};
use super::sets::file_problems;
use super::view::{Findings, ImageSurvey};
use crate::quoting::name_text;
use crate::report::sets_of;
use crate::section::SectionKey;
use crate::sections::Sections;
use crate::text::Trimmed;
use cells::{file_cells, form_cells, gap_row, image_row, padded_row, problem_cell, section_row};
use std::alloc::AllocError;
use tape_label::Field;

/// Returns the rows of images that were read: those of the images, the sections, the files, the
/// sections with more than one complete copy, and the files with padding.
pub(super) fn rows(
    findings: &Findings,
    sights: &[Option<ImageSurvey>],
    names: &[&str],
) -> Result<Vec<u8>, AllocError>
    requires { length sights.now ≡ length names.now }
    ensures { IfOk result (λ rows. rows.items
        ≡ survey_rows (map (λ n. n.now) names.now) sights.now findings.now) }
{
    let mut rows = Vec::new(findings.alloc);
    let copies = findings.copies.disputed(findings.alloc)?;
    add_images(&mut rows, copies.as_slice(), sights, names)?;
    add_sections(&mut rows, &findings.sections)?;
    add_sets(&mut rows, findings)?;
    add_copies(&mut rows, names, &findings.copies.notes)?;
    add_padded(&mut rows, &findings.files.notes)?;
    Ok(rows)
}

/// Appends the row of each image; `copies` are the complete copies of sections whose complete
/// copies differ.
fn add_images(
    rows: &mut Vec<u8>,
    copies: &[Held],
    sights: &[Option<ImageSurvey>],
    names: &[&str],
) -> Result<(), AllocError>
    requires { length sights.now ≡ length names.now }
    ensures { OnOk result (rows.new.items ≡ rows.old.items
        ++ image_rows copies.now 0 (map (λ n. n.now) names.now) sights.now) }
{
    let alloc = *rows.allocator();
    for number in 0..names.len() {
        let (name, sight) = (names[number], &sights[number]);
        let dispute = disputed_on(copies, number);
        let row = image_row(alloc, name, sight, dispute)?;
        rows.extend_from_slice(row.as_slice())?;
    }
    Ok(())
}

/// Appends the row of each section.
fn add_sections(rows: &mut Vec<u8>, sections: &Sections) -> Result<(), AllocError>
    ensures { OnOk result (rows.new.items
        ≡ rows.old.items ++ flat_map section_row sections.now.entries) }
{
    let alloc = *rows.allocator();
    for (key, entry) in sections {
        let row = section_row(alloc, key, entry)?;
        rows.extend_from_slice(row.as_bytes())?;
    }
    Ok(())
}

/// Appends the rows of all sets that were found, in the order in which they were found first.
fn add_sets(rows: &mut Vec<u8>, findings: &Findings) -> Result<(), AllocError>
    ensures { OnOk result (rows.new.items ≡ rows.old.items ++ sets_rows findings.now) }
{
    let sets = sets_of(findings.alloc, &findings.sections)?;
    for (set_id, greatest) in &sets {
        add_set(rows, findings, *set_id, *greatest)?;
    }
    Ok(())
}

/// Appends the rows of a set's files, of which the greatest number is `greatest`.
fn add_set(
    rows: &mut Vec<u8>,
    findings: &Findings,
    set_id: Field<6>,
    greatest: u16,
) -> Result<(), AllocError>
    ensures { OnOk result (rows.new.items
        ≡ rows.old.items ++ file_rows findings.now set_id 1 greatest) }
{
    for before in 0..greatest {
        add_found(rows, findings, set_id, before + 1)?;
    }
    Ok(())
}

/// Appends the row of a file, if it was found, preceded by that for the numbers since the last file
/// that was found.
fn add_found(
    rows: &mut Vec<u8>,
    findings: &Findings,
    set_id: Field<6>,
    file: u16,
) -> Result<(), AllocError>
    requires { 0 < file }
    ensures { OnOk result (rows.new.items
        ≡ rows.old.items ++ found_row findings.now set_id file) }
{
    if !is_found(findings, set_id, file) {
        return Ok(());
    }
    let first = gap_first(findings, set_id, file);
    if first < file {
        let gap = gap_row(findings.alloc, &set_id, first, file)?;
        rows.extend_from_slice(gap.as_bytes())?;
    }
    add_file(rows, findings, set_id, file)
}

/// Appends the row of a file, with its damaged and missing sections.
fn add_file(
    rows: &mut Vec<u8>,
    findings: &Findings,
    set_id: Field<6>,
    file: u16,
) -> Result<(), AllocError>
    ensures { OnOk result (rows.new.items ≡ rows.old.items ++ file_row findings.now set_id file) }
{
    let front = file_cells(findings, set_id, file)?;
    rows.extend_from_slice(front.as_bytes())?;
    add_problems(rows, findings, set_id, file)?;
    let note = findings.files.notes.get(&FileKey { set_id, file });
    let form = form_cells(findings.alloc, note)?;
    rows.extend_from_slice(form.as_slice())?;
    rows.push(b'\n')?;
    Ok(())
}

/// Appends the damaged and missing sections of a file, unless it is complete.
fn add_problems(
    rows: &mut Vec<u8>,
    findings: &Findings,
    set_id: Field<6>,
    file: u16,
) -> Result<(), AllocError>
    ensures { OnOk result (rows.new.items ≡ rows.old.items
        ++ flat_map problem_cell (file_problems findings.now.sections set_id file)) }
{
    let problems = file_problems(findings, set_id, file)?;
    for problem in &problems {
        let cell = problem_cell(findings.alloc, problem)?;
        rows.extend_from_slice(cell.as_bytes())?;
    }
    Ok(())
}

/// Appends the name of image number `image`.
#[tactic(auto, using(crate::proofs::SurveyCompared::is_name))]
fn add_name(row: &mut Vec<u8>, names: &[&str], image: usize) -> Result<(), AllocError>
    ensures { OnOk result (row.new.items
        ≡ row.old.items ++ name_at (map (λ n. n.now) names.now) image) }
{
    if image >= names.len() {
        return Ok(());
    }
    let name = name_text(*row.allocator(), names[image])?;
    row.extend_from_slice(name.as_slice())
}

/// Appends the row for a section, with the name of the image whose copy differs, if any.
fn add_copy(
    rows: &mut Vec<u8>,
    names: &[&str],
    key: &SectionKey,
    note: &CopyNote,
) -> Result<(), AllocError>
    ensures { OnOk result (rows.new.items ≡ rows.old.items
        ++ copy_row (map (λ n. n.now) names.now) (key.now, note.now)) }
{
    let alloc = *rows.allocator();
    let (set_id, file, sect) = (Trimmed(&key.set_id), key.file, key.sect);
    let copies = note.copies;
    let front = format!(in alloc; "COPIES\t{set_id}\t{file}\t{sect}\t{copies}\t")?;
    rows.extend_from_slice(front.as_bytes())?;
    add_name(rows, names, note.image)?;
    let Some(other) = note.opponent() else {
        return rows.extend_from_slice(b"\t\tAGREE\n");
    };
    rows.push(b'\t')?;
    add_name(rows, names, other)?;
    rows.extend_from_slice(b"\tCONFLICT\n")
}

/// Appends the row for each section with more than one complete copy.
fn add_copies(rows: &mut Vec<u8>, names: &[&str], notes: &CopyNotes) -> Result<(), AllocError>
    ensures { OnOk result (rows.new.items ≡ rows.old.items
        ++ copies_rows (map (λ n. n.now) names.now) notes.now.entries) }
{
    for (key, note) in notes {
        if note.copies != 1 || note.opponent().is_some() {
            add_copy(rows, names, key, note)?;
        }
    }
    Ok(())
}

/// Appends the row of each file with padding.
fn add_padded(rows: &mut Vec<u8>, notes: &FileNotes) -> Result<(), AllocError>
    ensures { OnOk result (rows.new.items ≡ rows.old.items ++ padded_rows notes.now.entries) }
{
    let alloc = *rows.allocator();
    for (key, note) in notes {
        let row = padded_row(alloc, key, note.padding)?;
        rows.extend_from_slice(row.as_bytes())?;
    }
    Ok(())
}
