//! A survey in words, for people: first what needs attention, in the order in which to act, then
//! totals, and then everything else. Nothing is promised about the words: they may change.

mod counts;
mod file;
mod page;
mod runs;
mod state;
mod tasks;

use super::copies::{Held, disputed_on};
use super::facts::seen_text;
use super::gaps::is_found;
use super::view::{Findings, ImageSurvey};
use super::volumes::volumes_of;
use crate::report::{Sets, sets_of};
use crate::text::Trimmed;
use counts::{Tally, add_totals, count_files};
use file::{add_file, add_volumes};
use page::Page;
use runs::add_runs;
use state::{IMAGE_WORDS, state_of};
use std::alloc::AllocError;
use tape_label::Field;
use tasks::add_tasks;

/// The minimum width of a name, and of a word with the space after it, in columns.
const NAME: usize = 24;

const WORD: usize = 13;

/// The greatest number of images of which everything is printed without being asked for.
const FEW: usize = 5;

/// What a survey describes.
#[derive(Clone, Copy)]
struct Shelf<'a> {
    findings: &'a Findings,
    sights: &'a [Option<ImageSurvey>],
    sets: &'a Sets,
    /// The complete copies of sections whose complete copies differ.
    disputed: &'a [Held],
}

/// Returns the survey of images that were read; `full` requests everything of any number of images,
/// and `all` says whether all is well.
pub(super) fn words(
    findings: &Findings,
    sights: &[Option<ImageSurvey>],
    names: &[&str],
    full: bool,
    all: bool,
) -> Result<Vec<u8>, AllocError> {
    let alloc = findings.alloc;
    let disputed = findings.copies.disputed(alloc)?;
    let sets = sets_of(alloc, &findings.sections)?;
    let shelf = Shelf {
        findings,
        sights,
        sets: &sets,
        disputed: disputed.as_slice(),
    };
    let mut page = Page::new(alloc, names);
    add_tasks(&mut page, &shelf);
    page.begin_part();
    add_totals(&mut page, &shelf);
    if all {
        page.put(b"All files are complete, and every image was read to its end.\n");
    }
    page.begin_part();
    if full || sights.len() <= FEW {
        add_rest(&mut page, &shelf);
    } else {
        page.put(
            b"With --all: also each image, each set with its volumes and files, and copies.\n",
        );
    }
    page.finish()
}

/// Appends each image, each set with its files, and the copies that agree.
fn add_rest(page: &mut Page<'_>, shelf: &Shelf<'_>) {
    for (image, sight) in shelf.sights.iter().enumerate() {
        let is_disputed = disputed_on(shelf.disputed, image).is_some();
        let word = IMAGE_WORDS[state_of(sight, is_disputed).place()];
        add_image(page, shelf, image, word, "\n    ");
    }
    let findings = shelf.findings;
    for (set_id, greatest) in shelf.sets {
        add_set(page, findings, *set_id, *greatest);
    }
    add_runs(page, &findings.copies.notes, true);
}

/// Appends the name of an image, its state in a word, and the facts about it with `between` between
/// two, in columns.
fn add_image(page: &mut Page<'_>, shelf: &Shelf<'_>, image: usize, word: &str, between: &str) {
    let alloc = page.alloc();
    let width = page.add_name(image);
    page.add(" ".repeat(alloc, NAME.saturating_sub(width)));
    page.put(b"  ");
    page.put(word.as_bytes());
    if let Some(Some(sight)) = shelf.sights.get(image) {
        if !word.is_empty() {
            page.add(" ".repeat(alloc, WORD.saturating_sub(word.len())));
        }
        let dispute = disputed_on(shelf.disputed, image);
        page.add(seen_text(alloc, between, sight, dispute));
    }
    page.put(b"\n");
}

/// Appends a set whose greatest file number is `greatest`: its volumes and its files.
fn add_set(page: &mut Page<'_>, findings: &Findings, set_id: Field<6>, greatest: u16) {
    let (alloc, set) = (page.alloc(), Trimmed(&set_id));
    let mut files = Tally::new();
    count_files(&mut files, findings, set_id, greatest);
    let complete = files.first();
    page.add(format!(in alloc; "Set {set}: {complete} of {greatest} files complete\n"));
    match volumes_of(findings, set_id, greatest) {
        Ok(volumes) => add_volumes(page, volumes.as_slice()),
        Err(refused) => page.add(Err(refused)),
    }
    for before in 0..greatest {
        let file = before + 1;
        if is_found(findings, set_id, file) {
            add_file(page, findings, set_id, file);
        }
    }
}
