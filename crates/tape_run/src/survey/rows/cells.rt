//! The columns of the rows of a survey, separated by tabs.
ghost use Rattle.std.specs.Prelude.{◌≡◌, ◌||◌, IfOk, option_map, string_bytes};
ghost use Rattle.tape_run.specs.SurveyRows.{whole_cell, head_cells, sight_cells, section_row};
ghost use Rattle.tape_run.specs.SurveyRows.{known_cells, standing_cells, file_cells, form_cells};
ghost use Rattle.tape_run.specs.SurveyRows.{image_row, conflict_cell, found_cells, file_text};
ghost use Rattle.tape_run.specs.SurveyRows.{gap_row, problem_cell, padded_row};
ghost use Rattle.tape_run.specs.SurveyLine.{trimmed_text};

use crate::check_line::state_text;
use crate::quoting::name_text;
use crate::section::{Entry, SectionKey};
use crate::survey::dates::date_of;
use crate::survey::facts::seen_text;
use crate::survey::files::{FileKey, FileNote};
use crate::survey::gaps::Numbers;
use crate::survey::glance::First;
use crate::survey::padding::Padding;
use crate::survey::problems::Problem;
use crate::survey::sets::{Standing, clear_standing, flaw_in, is_mixed, standing_of};
use crate::survey::view::{Findings, ImageSurvey};
use crate::text::Trimmed;
use std::alloc::{AllocError, Global};
use tape_label::{Field, Head1};

/// Returns the row for the image named `name`; `dispute` is a section on it whose complete copies
/// differ, if any.
pub(crate) fn image_row(
    alloc: Global,
    name: &str,
    sight: &Option<ImageSurvey>,
    dispute: Option<SectionKey>,
) -> Result<Vec<u8>, AllocError>
    ensures { IfOk result (λ row. row.items ≡ image_row name.now sight.now dispute) }
{
    let mut row = Vec::from_slice(alloc, b"IMAGE\t")?;
    row.extend_from_slice(name_text(alloc, name)?.as_slice())?;
    let cells = sight_cells(alloc, sight, dispute)?;
    row.extend_from_slice(cells.as_bytes())?;
    Ok(row)
}

/// Returns the columns after the name of an image: its description, at last in words, or the text
/// that it was not opened.
fn sight_cells(
    alloc: Global,
    sight: &Option<ImageSurvey>,
    dispute: Option<SectionKey>,
) -> Result<String, AllocError>
    ensures { IfOk result (λ cells. string_bytes cells ≡ sight_cells sight.now dispute) }
{
    let Some(sight) = sight else {
        return format!(in alloc; "\tNOT OPENED\t\t\t\t\t\t\t\t\tnot opened\n");
    };
    let (glance, stop) = (&sight.glance, sight.stop);
    let whole = whole_cell(dispute.is_some(), sight.is_sound());
    let (volume, owner) = match &glance.first {
        First::Volume(label) => (
            trimmed(alloc, &label.volume)?,
            trimmed(alloc, &label.owner)?,
        ),
        _ => (String::new(alloc), String::new(alloc)),
    };
    let head = head_cells(alloc, &glance.head)?;
    let (items, files, bad) = (glance.items, glance.files, glance.bad);
    let seen = seen_text(alloc, "; ", sight, dispute)?;
    let front = format!(in alloc; "\t{whole}\t{volume}\t{head}\t{items}\t{files}\t{bad}")?;
    format!(in alloc; "{front}\t{stop}\t{owner}\t{seen}\n")
}

/// Returns the state of an image: whether it has a copy that differs from another, or else was read
/// completely without damage.
fn whole_cell(disputed: bool, sound: bool) -> &'static str
    ensures { result.now ≡ whole_cell disputed sound }
{
    if disputed {
        "CONFLICT"
    } else if sound {
        "WHOLE"
    } else {
        "PARTIAL"
    }
}

/// Returns the field without trailing spaces.
fn trimmed<const N: usize>(alloc: Global, field: &Field<N>) -> Result<String, AllocError>
    ensures { IfOk result (λ text. string_bytes text ≡ trimmed_text field.now) }
{
    format!(in alloc; "{}", Trimmed(field))
}

/// Returns the set and the system, if a section was found.
fn head_cells(alloc: Global, head: &Option<Head1>) -> Result<String, AllocError>
    ensures { IfOk result (λ cells. string_bytes cells ≡ head_cells head.now) }
{
    match head {
        Some(head) => {
            let (set_id, system) = (Trimmed(&head.set_id), Trimmed(&head.implementation));
            format!(in alloc; "{set_id}\t{system}")
        }
        None => format!(in alloc; "\t"),
    }
}

/// Returns the row for a section.
pub(crate) fn section_row(
    alloc: Global,
    key: &SectionKey,
    entry: &Entry,
) -> Result<String, AllocError>
    ensures { IfOk result (λ row. string_bytes row ≡ section_row (key.now, entry.now)) }
{
    let (set_id, file, sect) = (Trimmed(&key.set_id), key.file, key.sect);
    let (volume, blocks, state) = (
        Trimmed(&entry.volume),
        entry.blocks,
        state_text(entry.state),
    );
    let eof = if entry.eof { "EOF" } else { "" };
    let key = format!(in alloc; "SECTION\t{set_id}\t{file}\t{sect}")?;
    format!(in alloc; "{key}\t{volume}\t{blocks}\t{state}\t{eof}\n")
}

/// Returns the columns of a file, up to the last one.
pub(crate) fn file_cells(
    findings: &Findings,
    set_id: Field<6>,
    file: u16,
) -> Result<String, AllocError>
    ensures { IfOk result (λ cells. string_bytes cells ≡ file_cells findings.now set_id file) }
{
    let alloc = findings.alloc;
    let key = FileKey { set_id, file };
    let note = findings.files.notes.get(&key);
    let standing = standing_of(&findings.sections, set_id, file);
    let standing = clear_standing(flaw_in(findings, set_id, file), standing);
    let found = found_cells(
        alloc,
        note,
        &standing,
        findings.copies.dispute(&key).is_some(),
    )?;
    file_text(alloc, &set_id, file, found.as_str())
}

/// Returns the row of a file up to the columns `found`.
fn file_text(alloc: Global, set_id: &Field<6>, file: u16, found: &str) -> Result<String, AllocError>
    ensures { IfOk result (λ text. string_bytes text ≡ file_text set_id.now file found.now) }
{
    let set = trimmed(alloc, set_id)?;
    format!(in alloc; "FILE\t{set}\t{file}\t{found}")
}

/// Returns the columns with what was found of a file: its labels, its state, and whether labels of
/// different files were found, or copies differ.
fn found_cells(
    alloc: Global,
    note: Option<&FileNote>,
    standing: &Standing,
    disputed: bool,
) -> Result<String, AllocError>
    ensures { IfOk result (λ cells. string_bytes cells
        ≡ found_cells (option_map (λ n. n.now) note.entry) standing.now disputed) }
{
    let conflict = conflict_cell(is_mixed(note), disputed);
    let known = known_cells(alloc, note)?;
    let standing = standing_cells(alloc, standing)?;
    format!(in alloc; "{known}\t{standing}{conflict}")
}

/// Returns whether labels of different files were found under its number, or copies differ.
fn conflict_cell(mixed: bool, disputed: bool) -> &'static str
    ensures { result.now ≡ conflict_cell (mixed || disputed) }
{
    if mixed || disputed {
        "\tCONFLICT\t"
    } else {
        "\t\t"
    }
}

/// Returns the facts about a file that its labels state.
fn known_cells(alloc: Global, note: Option<&FileNote>) -> Result<String, AllocError>
    ensures { IfOk result (λ cells. string_bytes cells
        ≡ known_cells (option_map (λ n. n.now) note.entry)) }
{
    let Some(note) = note else {
        return format!(in alloc; "\t");
    };
    let file_id = trimmed(alloc, &note.head.file_id)?;
    match date_of(&note.head.created) {
        Some(date) => format!(in alloc; "{file_id}\t{date}"),
        None => format!(in alloc; "{file_id}\t"),
    }
}

/// Returns the state of a file, the number of its first section that is damaged or missing, and the
/// volume that this section is on, or follows.
fn standing_cells(alloc: Global, standing: &Standing) -> Result<String, AllocError>
    ensures { IfOk result (λ cells. string_bytes cells ≡ standing_cells standing.now) }
{
    match standing {
        Standing::Complete => format!(in alloc; "COMPLETE\t\t"),
        Standing::Damaged(sect, entry) => {
            let (state, volume) = (state_text(entry.state), trimmed(alloc, &entry.volume)?);
            format!(in alloc; "{state}\t{sect}\t{volume}")
        }
        Standing::Behind(sect, volume) => {
            let volume = trimmed(alloc, volume)?;
            format!(in alloc; "MISSING\t{sect}\t{volume}")
        }
        Standing::Missing(sect) => format!(in alloc; "MISSING\t{sect}\t"),
        Standing::Misfit(sect) => format!(in alloc; "FORMAT\t{sect}\t"),
    }
}

/// Returns the last columns of a file: its record format, block length and record length.
pub(crate) fn form_cells(alloc: Global, note: Option<&FileNote>) -> Result<Vec<u8>, AllocError>
    ensures { IfOk result (λ cells. cells.items
        ≡ form_cells (option_map (λ n. n.now) note.entry)) }
{
    let Some(note) = note else {
        return Vec::from_slice(alloc, b"\t\t\t");
    };
    let Some(form) = note.form else {
        return Vec::from_slice(alloc, b"\t\t\t");
    };
    let (block_len, rec_len) = (form.block_len, form.rec_len);
    let mut cells = Vec::from_slice(alloc, b"\t")?;
    cells.push(form.format.letter())?;
    let lengths = format!(in alloc; "\t{block_len}\t{rec_len}")?;
    cells.extend_from_slice(lengths.as_bytes())?;
    Ok(cells)
}

/// Returns the row for the file numbers `first` to `file - 1`, for which no label was found.
pub(crate) fn gap_row(
    alloc: Global,
    set_id: &Field<6>,
    first: u16,
    file: u16,
) -> Result<String, AllocError>
    ensures { IfOk result (λ row. string_bytes row ≡ gap_row set_id.now first file) }
{
    let (numbers, set_id) = (Numbers(first, file), Trimmed(set_id));
    format!(in alloc; "FILE\t{set_id}\t{numbers}\t\t\tMISSING\t1\t\t\t1:MISSING;\t\t\t\n")
}

/// Returns a damaged section, or missing ones, with the state.
pub(crate) fn problem_cell(alloc: Global, problem: &Problem) -> Result<String, AllocError>
    ensures { IfOk result (λ cell. string_bytes cell ≡ problem_cell problem.now) }
{
    match problem {
        Problem::Damaged(sect, entry) => {
            let state = state_text(entry.state);
            format!(in alloc; "{sect}:{state};")
        }
        Problem::Missing(first, next) => {
            let numbers = Numbers(*first, *next);
            format!(in alloc; "{numbers}:MISSING;")
        }
    }
}

/// Returns the row of a file with this padding, or nothing if it has none.
pub(crate) fn padded_row(
    alloc: Global,
    key: &FileKey,
    padding: Option<Padding>,
) -> Result<String, AllocError>
    ensures { IfOk result (λ row. string_bytes row ≡ padded_row key.now padding) }
{
    let Some(padding) = padding else {
        return Ok(String::new(alloc));
    };
    let (set_id, file, name) = (Trimmed(&key.set_id), key.file, padding.name());
    format!(in alloc; "PADDED\t{set_id}\t{file}\t{name}\n")
}
