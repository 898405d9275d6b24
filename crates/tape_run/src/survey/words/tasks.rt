//! What needs attention, in the order in which to act.

ghost use Rattle.std.specs.Prelude.{◌<◌};

use super::file::plural;
use super::page::Page;
use super::runs::add_runs;
use super::state::{ImageState, state_of};
use super::{Shelf, add_image};
use crate::section::{Entry, SectionKey, SectionState};
use crate::sections::Sections;
use crate::survey::course::{ExpectedItem, LabelOrder};
use crate::survey::damages::damage_text;
use crate::survey::files::{FileKey, is_unclear, reads_wide};
use crate::survey::fits::{Flaw, flaw_of};
use crate::survey::gaps::{Numbers, gap_first, is_found};
use crate::survey::glance::First;
use crate::survey::problems::Problem;
use crate::survey::sets::file_problems;
use crate::survey::strays::is_stray;
use crate::survey::view::{ImageSurvey, is_end};
use crate::text::Trimmed;
use tape_label::{Field, Head1};

const UNSUPPORTED: &str =
    "Unsupported: 'tape list' shows it, 'tape salvage --form blocks' its blocks\n";

/// What to do about an image.
#[derive(Clone, Copy, PartialEq, Eq)]
enum Task {
    Open,
    Convert,
    Reread,
    List,
    /// It is damaged only after the end of its volume.
    Look,
    /// Other images have what is damaged on it.
    Nothing,
}

/// Appends what needs attention, in lists whose headings say what to do.
pub(super) fn add_tasks(page: &mut Page<'_>, shelf: &Shelf<'_>) {
    page.begin_list("Not opened: check the names, and that you may read the files\n");
    add_images(page, shelf, Task::Open);
    page.begin_list("Nothing was read: copy them again, decompress or convert them\n");
    add_images(page, shelf, Task::Convert);
    page.begin_list("In conflict: find out which is right ('tape compare', 'tape list')\n");
    let findings = shelf.findings;
    add_runs(page, &findings.copies.notes, false);
    add_mixed(page, shelf);
    page.begin_list("Complete on no image: read or copy it again; 'tape unpack' joins copies\n");
    add_sections(page, shelf, false);
    page.begin_list(
        "Labels or marks damaged, or cut off: read the reel, or copy the image, again\n",
    );
    add_images(page, shelf, Task::Reread);
    page.begin_list("Missing: look for the reel, or for other images of it\n");
    add_missing(page, shelf);
    page.begin_list(UNSUPPORTED);
    add_images(page, shelf, Task::List);
    add_flaws(page, shelf);
    page.begin_list("Suspect: look at it with 'tape list'\n");
    add_sections(page, shelf, true);
    add_lost(page, shelf);
    add_images(page, shelf, Task::Look);
    page.begin_list("Damaged, but other images have the sections or the volume whole\n");
    add_images(page, shelf, Task::Nothing);
}

/// Returns what to do about an image, if anything. One whose labels are in order, with a damaged
/// section that no image has complete, may be named beside that section only.
fn task_of(shelf: &Shelf<'_>, sight: &Option<ImageSurvey>) -> Option<Task> {
    let findings = shelf.findings;
    match (state_of(sight, false), sight) {
        (ImageState::NotOpened, _) => Some(Task::Open),
        (ImageState::Empty | ImageState::NotTape, _) => Some(Task::Convert),
        (ImageState::Unsupported, Some(sight)) if matches!(sight.glance.first, First::Nothing) => {
            Some(Task::Convert)
        }
        (ImageState::Unsupported, _) => Some(Task::List),
        (ImageState::Damaged, Some(sight))
            if !is_in_order(sight) || sight.damaged.as_slice().is_empty() => {
            Some(damage_task(shelf, sight))
        }
        (ImageState::Damaged, Some(sight)) if is_spare(&findings.sections, sight) => {
            Some(Task::Nothing)
        }
        _ => None,
    }
}

/// Returns whether an image was read without a fault, and its items are in the order of a volume to
/// the volume's end.
fn is_in_order(sight: &ImageSurvey) -> bool {
    match sight.glance.course {
        LabelOrder::Ended | LabelOrder::Leaves(_, ExpectedItem::End) => is_end(sight.stop),
        _ => false,
    }
}

/// Returns whether other copies of all damaged sections on an image are complete.
fn is_spare(sections: &Sections, sight: &ImageSurvey) -> bool {
    for line in sight.damaged.as_slice() {
        let (set_id, file, sect) = (line.set_id, line.file, line.sect);
        match sections.get(&SectionKey { set_id, file, sect }) {
            Some(entry) if entry.state.is_good() => {}
            _ => return false,
        }
    }
    true
}

/// Returns whether these labels of two images are of one set, as far as they were found.
fn is_one_set(one: &Option<Head1>, other: &Option<Head1>) -> bool {
    match (one, other) {
        (Some(one), Some(other)) => one.set_id == other.set_id,
        _ => true,
    }
}

/// Returns what to do about an image that is damaged, and not in its sections alone.
fn damage_task(shelf: &Shelf<'_>, sight: &ImageSurvey) -> Task {
    match sight.glance.course {
        LabelOrder::Leaves(_, ExpectedItem::End) if is_end(sight.stop) => return Task::Look,
        _ => {}
    }
    let task = match sight.glance.course {
        // Nothing of the volume is damaged, but what follows it.
        LabelOrder::Ended => Task::Look,
        _ => Task::Reread,
    };
    let First::Volume(label) = &sight.glance.first else {
        return task;
    };
    let findings = shelf.findings;
    if !is_spare(&findings.sections, sight) {
        return task;
    }
    for other in shelf.sights {
        if let Some(other) = other
            && other.is_sound()
            && other.glance.files > 0
            && let First::Volume(same) = &other.glance.first
            && same.volume == label.volume
            && is_one_set(&sight.glance.head, &other.glance.head)
        {
            return Task::Nothing;
        }
    }
    task
}

/// Appends the images about which this is to be done.
fn add_images(page: &mut Page<'_>, shelf: &Shelf<'_>, task: Task) {
    for (image, sight) in shelf.sights.iter().enumerate() {
        if task_of(shelf, sight) == Some(task) {
            page.begin_entry();
            match task {
                Task::Open | Task::Nothing => {
                    page.add_name(image);
                    page.put(b"\n");
                }
                _ => add_image(page, shelf, image, "", "\n      "),
            }
        }
    }
}

/// Begins an entry about a file.
fn begin_file(page: &mut Page<'_>, shelf: &Shelf<'_>, set_id: Field<6>, file: u16) {
    let (alloc, set) = (page.alloc(), Trimmed(&set_id));
    page.begin_entry();
    page.add(format!(in alloc; "{set} file {file}"));
    let findings = shelf.findings;
    if let Some(note) = findings.files.notes.get(&FileKey { set_id, file }) {
        let name = Trimmed(&note.head.file_id);
        page.add(format!(in alloc; " {name}"));
    }
    page.put(b": ");
}

/// Appends the name of an image in parentheses, if there is one, and ends the line.
fn end_line(page: &mut Page<'_>, image: Option<usize>) {
    if let Some(image) = image {
        page.put(b" (");
        page.add_name(image);
        page.put(b")");
    }
    page.put(b"\n");
}

/// Appends the files whose number has labels of different files.
fn add_mixed(page: &mut Page<'_>, shelf: &Shelf<'_>) {
    let findings = shelf.findings;
    for (key, note) in &findings.files.notes {
        if let Some((one, other)) = note.conflict {
            begin_file(page, shelf, key.set_id, key.file);
            page.put(b"labels of different files, on ");
            page.add_name(one);
            if other != one {
                page.put(b" and ");
                page.add_name(other);
            }
            page.put(b"\n");
        }
    }
}

/// Appends the volume on which a section is, if its label was read.
fn add_volume(page: &mut Page<'_>, volume: &Field<6>) {
    if volume.bytes() == b"(none)".as_slice() {
        return;
    }
    let (alloc, volume) = (page.alloc(), Trimmed(volume));
    page.add(format!(in alloc; " on {volume}"));
}

/// Returns whether a section on an image is damaged in this way.
fn has_damage(sight: &ImageSurvey, key: &SectionKey, state: SectionState) -> bool {
    for line in sight.damaged.as_slice() {
        let (set_id, file, sect) = (line.set_id, line.file, line.sect);
        let found = SectionKey { set_id, file, sect };
        if found == *key && line.state == state {
            return true;
        }
    }
    false
}

/// Returns the number of the first image on which a section has the state of its entry.
fn image_of(shelf: &Shelf<'_>, key: &SectionKey, entry: &Entry) -> Option<usize> {
    let findings = shelf.findings;
    if entry.state.is_good() {
        return findings.locations.get(key).copied();
    }
    for (image, sight) in shelf.sights.iter().enumerate() {
        if let Some(sight) = sight
            && has_damage(sight, key, entry.state)
        {
            return Some(image);
        }
    }
    None
}

/// Appends the sections that no image has complete, or those that complete files do not need.
fn add_sections(page: &mut Page<'_>, shelf: &Shelf<'_>, strays: bool) {
    let (alloc, findings) = (page.alloc(), shelf.findings);
    let sections = &findings.sections;
    for (key, entry) in sections {
        if is_stray(sections, key, entry) == strays && (strays || !entry.state.is_good()) {
            begin_file(page, shelf, key.set_id, key.file);
            let (sect, damage) = (key.sect, damage_text(entry.state));
            page.add(format!(in alloc; "section {sect} {damage}"));
            add_volume(page, &entry.volume);
            let after_end = if strays { ", after the file's end" } else { "" };
            page.put(after_end.as_bytes());
            end_line(page, image_of(shelf, key, entry));
        }
    }
}

/// Appends the files and sections that no image has.
fn add_missing(page: &mut Page<'_>, shelf: &Shelf<'_>) {
    for (set_id, greatest) in shelf.sets {
        for before in 0..*greatest {
            add_missing_of(page, shelf, *set_id, before + 1);
        }
    }
}

/// Appends the missing sections of a file of which a label was found, and the missing files before
/// it.
fn add_missing_of(page: &mut Page<'_>, shelf: &Shelf<'_>, set_id: Field<6>, file: u16)
    requires { 0 < file }
{
    let (alloc, findings) = (page.alloc(), shelf.findings);
    if !is_found(findings, set_id, file) {
        return;
    }
    let first = gap_first(findings, set_id, file);
    if first < file {
        let (set, plural, numbers) = (Trimmed(&set_id), plural(first, file), Numbers(first, file));
        page.begin_entry();
        page.add(format!(in alloc; "{set} file{plural} {numbers}\n"));
    }
    match file_problems(findings, set_id, file) {
        Ok(problems) => {
            for problem in &problems {
                if let Problem::Missing(first, next) = problem {
                    let sect = *first;
                    let key = SectionKey { set_id, file, sect };
                    add_missing_sections(page, shelf, key, *next);
                }
            }
        }
        Err(refused) => page.add(Err(refused)),
    }
}

/// Appends the missing sections of a file from `key` up to, but not including, section `next`.
fn add_missing_sections(page: &mut Page<'_>, shelf: &Shelf<'_>, key: SectionKey, next: u16) {
    let (alloc, findings, first) = (page.alloc(), shelf.findings, key.sect);
    begin_file(page, shelf, key.set_id, key.file);
    let (plural, numbers) = (plural(first, next), Numbers(first, next));
    page.add(format!(in alloc; "section{plural} {numbers}"));
    let sect = first.saturating_sub(1);
    let before = SectionKey { sect, ..key };
    if let Some(entry) = findings.sections.get(&before) {
        let volume = Trimmed(&entry.volume);
        page.add(format!(in alloc; ", after volume {volume}"));
    }
    end_line(page, findings.locations.get(&before).copied());
}

/// Appends the files that are not readable.
fn add_flaws(page: &mut Page<'_>, shelf: &Shelf<'_>) {
    let (alloc, findings) = (page.alloc(), shelf.findings);
    for (key, note) in &findings.files.notes {
        if let Some(flaw) = flaw_of(note) {
            begin_file(page, shelf, key.set_id, key.file);
            match flaw {
                Flaw::Lost => page.put(b"HDR2 is lost on each image"),
                Flaw::Unsupported => page.put(b"no HDR2 with a supported record format"),
                Flaw::Misfits(misfit) => {
                    let (sect, block) = (misfit.sect, misfit.block);
                    page.add(format!(in alloc;
                        "section {sect}, block {block} is not as HDR2 states"
                    ));
                }
            }
            end_line(page, Some(note.image));
        }
    }
}

/// Appends the files of which an image has lost a second label that another one has.
fn add_lost(page: &mut Page<'_>, shelf: &Shelf<'_>) {
    let findings = shelf.findings;
    for (key, note) in &findings.files.notes {
        if !reads_wide(note) && !is_unclear(note) {
            begin_file(page, shelf, key.set_id, key.file);
            page.put(b"HDR2 is lost on an image, and was found on another\n");
        }
    }
}
