//! Fills in the numbers of header and trailer labels that have none, and block counts.

ghost use Rattle.std.specs.Prelude.{◌≡◌, ◌≤◌, ◌<◌, ◌+◌, length};
ghost use Rattle.tape_core.specs.NormalForm.Mended.{is_dummy, number_or, number_at_or, numbered};
ghost use Rattle.tape_core.specs.NormalForm.Mended.{headed, trailed, seen_of, counted, uncounted};
ghost use Rattle.tape_core.specs.NormalForm.Mended.{one_more, count_or, count_at_or, with_count};
ghost use Rattle.tape_core.specs.NormalForm.Mended.{with_numbers, completed, without_count};
ghost use Rattle.tape_core.specs.NormalForm.Mended.{is_recounted, is_some_count, is_uncounted};
ghost use Rattle.tape_core.specs.NormalForm.Mended.{told, recounted, lost};

use crate::normal::mend::fill;
use tape_label::{digits_of, read_head1, read_trail1};
use tape_set::label_count;

/// The first header label of a volume without files.
const DUMMY: &[u8; 80] =
    b"HDR10000000000000000000000000000000000000000000000000000000000000000000000000000";

/// What was read of a file.
#[derive(Clone, Copy, Debug, PartialEq, Eq)]
pub struct FileSeen {
    /// The sequence number of the file. If it cannot be read, it is that of the file before this
    /// one, or 0 for the first file.
    pub sequence: u16,
    /// Whether numbers in its header label were filled in.
    pub is_filled: bool,
    /// The number of blocks of data read so far, unless an item among them could not be read.
    pub blocks: Option<u32>,
    /// Whether the block count of its trailer label was filled in.
    pub has_no_count: bool,
    /// Whether a trailer label that was read on this tape has a block count other than 0.
    pub counts: bool,
}

/// What is known before the first file.
pub(crate) const NO_FILE: FileSeen = FileSeen {
    sequence: 0,
    is_filled: false,
    blocks: None,
    has_no_count: false,
    counts: false,
};

impl FileSeen {
    /// Returns what is known after the first header label of the next file.
    fn next(self, sequence: u16, is_filled: bool) -> FileSeen
        ensures { result ≡ seen_of self sequence is_filled }
    {
        FileSeen {
            sequence,
            is_filled,
            blocks: Some(0),
            has_no_count: false,
            counts: self.counts,
        }
    }

    /// Counts a block of data.
    pub(crate) fn counted(self) -> FileSeen
        ensures { result ≡ counted self }
    {
        FileSeen {
            blocks: one_more(self.blocks),
            ..self
        }
    }

    /// Sets whether the block count was filled in.
    fn without_count(self, is: bool) -> FileSeen
        ensures { result ≡ without_count is self }
    {
        FileSeen {
            has_no_count: is,
            ..self
        }
    }

    /// Notes the block count of a trailer label.
    fn told(self, blocks: u32) -> FileSeen
        ensures { result ≡ told blocks self }
    {
        FileSeen {
            counts: self.counts || blocks != 0,
            ..self
        }
    }

    /// Returns whether a label with this block count states that there are no blocks, though some
    /// were read, on a tape of which no label before it counts blocks.
    fn is_uncounted(self, blocks: u32) -> bool
        ensures { result ≡ is_uncounted self blocks }
    {
        !self.counts && blocks == 0 && is_some_count(self.blocks)
    }

    /// Forgets what would be filled in, since an item was not expected.
    pub(crate) fn lost(self) -> FileSeen
        ensures { result ≡ lost self }
    {
        FileSeen {
            sequence: 9_999,
            is_filled: false,
            blocks: None,
            has_no_count: false,
            counts: self.counts,
        }
    }

    /// Counts no more, since an item among the data could not be read.
    pub(crate) fn uncounted(self) -> FileSeen
        ensures { result ≡ uncounted self }
    {
        FileSeen {
            blocks: None,
            ..self
        }
    }
}

/// Returns a number of blocks plus one.
fn one_more(blocks: Option<u32>) -> Option<u32>
    ensures { result ≡ one_more blocks }
{
    match blocks {
        Some(count) if count < u32::MAX => Some(count + 1),
        _ => None,
    }
}

/// Returns whether the number of blocks is known, and a label would not state it as 0.
fn is_some_count(blocks: Option<u32>) -> bool
    ensures { result ≡ is_some_count blocks }
{
    match blocks {
        Some(count) => label_count(count) != 0,
        None => false,
    }
}

/// Returns whether the label is an `HDR1` of zeros alone, as volumes without files have it.
pub(crate) fn is_dummy(label: &[u8; 80]) -> bool
    ensures { result ≡ is_dummy label.now }
{
    read_head1(label).is_err() && label.as_slice() == DUMMY.as_slice()
}

/// Fills a number of four digits with zeros on the left, or with `number` if it is blank or zero.
fn fill_or(field: &mut [u8], number: u16)
    requires length { length field.old ≡ 4 }
    requires small { number < 10000 }
    ensures { field.new ≡ number_or number field.old }
{
    fill(field);
    if &*field == b"0000".as_slice() {
        field.copy_from_slice(&digits_of::<4>(u64::from(number)));
    }
}

/// The same for the number of four digits at the position `first`, counted from 1.
fn fill_at_or(text: &mut [u8; 80], first: usize, number: u16)
    requires first { 1 ≤ first }
    requires last { first ≤ 77 }
    requires small { number < 10000 }
    ensures { text.new ≡ number_at_or first (first + 3) number text.old }
{
    fill_or(&mut text[first - 1..first + 3], number);
}

/// Returns the label with the numbers of section 1 of the file `sequence` if it has none.
fn numbered(sequence: u16, label: &[u8; 80]) -> [u8; 80]
    requires { sequence < 10000 }
    ensures { result ≡ numbered sequence label.now }
{
    let mut text = *label;
    fill_at_or(&mut text, 28, 1);
    fill_at_or(&mut text, 32, sequence);
    text
}

/// Fills a block count with zeros on the left, or with `number` if it is blank or zero.
fn count_or(field: &mut [u8], number: u32)
    requires length { length field.old ≡ 6 }
    requires small { number < 1000000 }
    ensures { field.new ≡ count_or number field.old }
{
    fill(field);
    if &*field == b"000000".as_slice() {
        field.copy_from_slice(&digits_of::<6>(u64::from(number)));
    }
}

/// The same for the block count at the position `first`, counted from 1.
fn count_at_or(text: &mut [u8; 80], first: usize, number: u32)
    requires first { 1 ≤ first }
    requires last { first ≤ 75 }
    requires small { number < 1000000 }
    ensures { text.new ≡ count_at_or first (first + 5) number text.old }
{
    count_or(&mut text[first - 1..first + 5], number);
}

/// Returns a first trailer label with the block count `number` if it has none.
fn with_number(number: u32, label: &[u8; 80]) -> [u8; 80]
    requires { number < 1000000 }
    ensures { result ≡ count_at_or 55 60 number label.now }
{
    let mut text = *label;
    count_at_or(&mut text, 55, number);
    text
}

/// Returns a first trailer label with the count of the blocks that were read if it has none.
fn with_count(blocks: Option<u32>, label: &[u8; 80]) -> [u8; 80]
    ensures { result ≡ with_count blocks label.now }
{
    match blocks {
        Some(blocks) => with_number(label_count(blocks), label),
        None => *label,
    }
}

/// Returns a first trailer label with the numbers of its header label, if those were filled in.
fn with_numbers(seen: FileSeen, label: &[u8; 80]) -> [u8; 80]
    ensures { result ≡ with_numbers seen label.now }
{
    if seen.is_filled && seen.sequence < 10_000 {
        return numbered(seen.sequence, label);
    }
    *label
}

/// Returns a first trailer label with its numbers and its block count filled in.
fn completed(seen: FileSeen, label: &[u8; 80]) -> [u8; 80]
    ensures { result ≡ completed seen label.now }
{
    with_count(seen.blocks, &with_numbers(seen, label))
}

/// Returns whether the block count of a label was replaced.
fn is_recounted(better: &[u8; 80], label: &[u8; 80]) -> bool
    ensures { result ≡ is_recounted better.now label.now }
{
    better[54..60] != label[54..60]
}

/// Returns a first header label after the file `before`, and what was read of its file. A label that
/// can be read stays as it is. One that can be read only with numbers filled in becomes that of
/// section 1 of the next file, unless it is that of a volume without files.
#[tactic(auto, unfolding(crate::specs::NormalForm::Mended::headed))]
pub(crate) fn headed(before: FileSeen, label: &[u8; 80]) -> ([u8; 80], FileSeen)
    ensures { result ≡ headed before label.now }
{
    if let Ok(head) = read_head1(label) {
        return (*label, before.next(head.sequence, false));
    }
    if before.sequence < 9_999 && !is_dummy(label) {
        let text = numbered(before.sequence + 1, label);
        if let Ok(head) = read_head1(&text) {
            return (text, before.next(head.sequence, true));
        }
    }
    (*label, before.next(before.sequence, false))
}

/// Returns a first trailer label that can be read, with the block count `blocks`, and what was read
/// of its file. It gets the count of the blocks that were read if it counts none, as no label
/// before it does.
fn recounted(seen: FileSeen, blocks: u32, label: &[u8; 80]) -> ([u8; 80], FileSeen)
    ensures { result ≡ recounted seen blocks label.now }
{
    if seen.is_uncounted(blocks) {
        return (with_count(seen.blocks, label), seen.without_count(true));
    }
    (*label, seen.told(blocks))
}

/// Returns a first trailer label, and what was read of its file. A label that can be read stays as
/// it is, unless it counts no blocks on a tape that counts none. One that can be read only with the
/// numbers of the header label, if those were filled in, or with the count of the blocks that were
/// read gets them.
#[tactic(auto, unfolding(crate::specs::NormalForm::Mended::trailed))]
pub(crate) fn trailed(seen: FileSeen, label: &[u8; 80]) -> ([u8; 80], FileSeen)
    ensures { result ≡ trailed seen label.now }
{
    if let Ok(trail) = read_trail1(label) {
        return recounted(seen, trail.blocks, label);
    }
    let text = completed(seen, label);
    if let Ok(_) = read_trail1(&text) {
        let is_recounted = is_recounted(&text, label);
        return (text, seen.without_count(is_recounted));
    }
    (*label, seen)
}
