//! The numbers of images, sets, files and copies.

ghost use Rattle.std.specs.Prelude.{◌<◌};

use super::Shelf;
use super::file::{FILE_WORDS, file_state};
use super::page::Page;
use super::runs::is_agreed;
use super::state::{IMAGE_WORDS, state_of};
use crate::survey::copies::disputed_on;
use crate::survey::view::Findings;
use std::alloc::{AllocError, Global};
use tape_label::Field;

/// The numbers of things in each of `N` states.
#[derive(Clone, Copy)]
pub(super) struct Tally<const N: usize>([u32; N]);

impl<const N: usize> Tally<N> {
    /// Returns the numbers before anything was counted.
    pub(super) fn new() -> Tally<N> {
        Tally([0; N])
    }

    /// Counts a thing in the state at this place.
    fn count(&mut self, place: usize)
        requires { place < N }
    {
        self.0[place] = self.0[place].saturating_add(1);
    }

    /// Returns the number of things in the first state.
    pub(super) fn first(&self) -> u32 {
        self.0.first().copied().unwrap_or(0)
    }

    /// Returns the number of all things.
    fn sum(&self) -> u32 {
        let mut sum = 0u32;
        for number in &self.0 {
            sum = sum.saturating_add(*number);
        }
        sum
    }

    /// Appends the number in the first state, and in each other state that occurs.
    fn add_to(&self, page: &mut Page<'_>, words: &[&str]) {
        let alloc = page.alloc();
        let mut is_first = true;
        for (number, word) in self.0.iter().zip(words) {
            if *number > 0 || is_first {
                page.put(if is_first { b": " } else { b", " });
                page.add(format!(in alloc; "{number} {word}"));
                is_first = false;
            }
        }
        page.put(b"\n");
    }
}

/// Returns a number of things, called `one` in the singular.
fn number_of(alloc: Global, number: u32, one: &str) -> Result<String, AllocError> {
    let plural = if number == 1 { "" } else { "s" };
    format!(in alloc; "{number} {one}{plural}")
}

/// Counts the files of a set, up to its greatest file number.
pub(super) fn count_files(
    files: &mut Tally<5>,
    findings: &Findings,
    set_id: Field<6>,
    greatest: u16,
) {
    for before in 0..greatest {
        files.count(file_state(findings, set_id, before + 1).place());
    }
}

/// Appends the numbers of images, of sets and files, and of sections whose complete copies agree.
pub(super) fn add_totals(page: &mut Page<'_>, shelf: &Shelf<'_>) {
    let alloc = page.alloc();
    let mut images: Tally<8> = Tally::new();
    for (image, sight) in shelf.sights.iter().enumerate() {
        let is_disputed = disputed_on(shelf.disputed, image).is_some();
        images.count(state_of(sight, is_disputed).place());
    }
    page.add(number_of(alloc, images.sum(), "image"));
    images.add_to(page, &IMAGE_WORDS);
    let (mut sets, mut files) = (0u32, Tally::new());
    for (set_id, greatest) in shelf.sets {
        sets = sets.saturating_add(1);
        count_files(&mut files, shelf.findings, *set_id, *greatest);
    }
    if sets > 0 {
        page.add(number_of(alloc, sets, "set"));
        page.put(b", ");
        page.add(number_of(alloc, files.sum(), "file"));
        files.add_to(page, &FILE_WORDS);
    } else {
        page.put(b"No files were found.\n");
    }
    let mut agreed = 0u32;
    let findings = shelf.findings;
    for (_, note) in &findings.copies.notes {
        if is_agreed(note) {
            agreed = agreed.saturating_add(1);
        }
    }
    if agreed > 0 {
        page.add(number_of(alloc, agreed, "section"));
        page.put(b" with several good copies that agree\n");
    }
}
