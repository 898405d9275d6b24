//! The lines about a file, and the volumes of a set.

ghost use Rattle.std.specs.Prelude.{◌<◌};

use super::page::Page;
use crate::survey::dates::date_of;
use crate::survey::files::{FileKey, FileNote};
use crate::survey::fits::flaw_of;
use crate::survey::padding::Padding;
use crate::survey::sets::is_whole_file;
use crate::survey::view::Findings;
use crate::survey::volumes::VolumeItem;
use crate::text::{Identifier, Trimmed};
use std::alloc::{AllocError, Global};
use tape_label::{Field, Format, digits_value};

/// The column at which a line of volumes begins.
const INDENT: usize = 11;

/// The maximum length of a line of volumes, without a comma and the space after it.
const WIDTH: usize = 76;

/// Returns the ending of a plural, if there is more than one number from `first` to `next - 1`.
pub(super) fn plural(first: u16, next: u16) -> &'static str {
    if first < next.saturating_sub(1) {
        "s"
    } else {
        ""
    }
}

/// Returns the text of an entry of a set's volumes.
fn volume_text(alloc: Global, item: &VolumeItem) -> Result<String, AllocError> {
    match item {
        VolumeItem::Named(volume) => {
            let volume = Trimmed(volume);
            format!(in alloc; "{volume}")
        }
        VolumeItem::MissingFirst => format!(in alloc; "missing"),
        VolumeItem::MissingAfter(last) => {
            let last = Trimmed(last);
            format!(in alloc; "missing (follows {last})")
        }
    }
}

/// Appends the volumes of a set, if there are any, in lines of at most 80 columns.
pub(super) fn add_volumes(page: &mut Page, volumes: &[VolumeItem]) {
    let mut column = 0usize;
    for volume in volumes {
        let text = volume_text(page.alloc(), volume);
        let length = match &text {
            Ok(text) => text.len(),
            Err(_) => 0,
        };
        let (before, start) = if column == 0 {
            ("  Volumes: ", INDENT)
        } else if length < WIDTH.saturating_sub(column) {
            (", ", column.saturating_add(2))
        } else {
            (",\n           ", INDENT)
        };
        page.put(before.as_bytes());
        page.add(text);
        column = start.saturating_add(length);
    }
    if column > 0 {
        page.put(b"\n");
    }
}

/// Returns the facts about a file that its labels state.
fn known_text(alloc: Global, note: Option<&FileNote>) -> Result<String, AllocError> {
    let Some(note) = note else {
        return format!(in alloc; "(no label found)");
    };
    let name = Identifier(&note.head.file_id);
    match date_of(&note.head.created) {
        Some(date) => format!(in alloc; "{name}  {date}"),
        None => format!(in alloc; "{name}            "),
    }
}

/// Returns the version of a file that its labels state, unless it is the first one: for files of
/// OpenVMS the version in their names, for others the generation and its version.
fn version_text(alloc: Global, note: Option<&FileNote>) -> Result<String, AllocError> {
    let Some(note) = note else {
        return Ok(String::new(alloc));
    };
    let head = &note.head;
    let generation = digits_value(head.generation.bytes());
    let version = digits_value(head.gen_version.bytes());
    let is_vms = head.implementation.bytes().starts_with(b"DECFILE11");
    match (generation, version) {
        (Some(0 | 1), Some(0)) | (None, _) | (_, None) => Ok(String::new(alloc)),
        (Some(generation), Some(version)) if is_vms => {
            let before = generation.saturating_sub(1).saturating_mul(100);
            let number = before.saturating_add(version).saturating_add(1);
            format!(in alloc; ", version {number}")
        }
        (Some(generation), Some(0)) => format!(in alloc; ", generation {generation}"),
        (Some(generation), Some(version)) => {
            format!(in alloc; ", generation {generation} version {version}")
        }
    }
}

/// The state of a file, or of a number without a label.
#[derive(Clone, Copy)]
pub(super) enum FileState {
    /// All its sections are complete and readable.
    Complete,
    /// Labels of different files have its number, or complete copies of a section differ.
    Conflict,
    Incomplete,
    /// All its sections are complete, and not in a format that can be read.
    NotReadable,
    NotFound,
}

/// The words for the states of files, in their order.
pub(super) const FILE_WORDS: [&str; 5] = [
    "complete",
    "in conflict",
    "incomplete",
    "not readable",
    "not found",
];

impl FileState {
    /// Returns the place of the state among all.
    pub(super) fn place(self) -> usize
        ensures { result < 5 }
    {
        match self {
            FileState::Complete => 0,
            FileState::Conflict => 1,
            FileState::Incomplete => 2,
            FileState::NotReadable => 3,
            FileState::NotFound => 4,
        }
    }
}

/// Returns the state of a file.
pub(super) fn file_state(findings: &Findings, set_id: Field<6>, file: u16) -> FileState {
    let key = FileKey { set_id, file };
    let Some(note) = findings.files.notes.get(&key) else {
        return FileState::NotFound;
    };
    if note.conflict.is_some() || findings.copies.dispute(&key).is_some() {
        FileState::Conflict
    } else if !is_whole_file(&findings.sections, set_id, file) {
        FileState::Incomplete
    } else if flaw_of(note).is_some() {
        FileState::NotReadable
    } else {
        FileState::Complete
    }
}

/// Returns what the labels of a file say of its record format, if it is not F, D or S.
fn form_word(note: Option<&FileNote>) -> &'static str {
    let Some(note) = note else {
        return "";
    };
    match note.form {
        Some(form) => match form.format {
            Format::Undefined => ", U",
            Format::Variable => match note.blocking {
                b'B' => ", VB",
                b'S' => ", VS",
                b'R' => ", VBS",
                _ => ", V",
            },
            _ => "",
        },
        None if note.absent => ", blocks (no HDR2)",
        None => "",
    }
}

/// Returns what is to be known of the padding of a file, if it has any.
fn padding_word(note: Option<&FileNote>) -> &'static str {
    let Some(note) = note else {
        return "";
    };
    match note.padding {
        Some(Padding::Nuls) => ", padded with NULs",
        Some(Padding::Spaces) => ", padded with spaces",
        Some(Padding::Circumflexes) => ", the last records may be padding (^)",
        None => "",
    }
}

/// Appends the line of a file.
pub(super) fn add_file(page: &mut Page<'_>, findings: &Findings, set_id: Field<6>, file: u16) {
    let alloc = page.alloc();
    let note = findings.files.notes.get(&FileKey { set_id, file });
    let word = FILE_WORDS[file_state(findings, set_id, file).place()];
    let (indent, form) = (
        match file {
            0..=9 => "   ",
            10..=99 => "  ",
            100..=999 => " ",
            _ => "",
        },
        form_word(note),
    );
    page.add(format!(in alloc; "{indent}{file} "));
    page.add(known_text(alloc, note));
    let padding = padding_word(note);
    page.add(format!(in alloc; "  {word}{form}{padding}"));
    page.add(version_text(alloc, note));
    page.put(b"\n");
}
