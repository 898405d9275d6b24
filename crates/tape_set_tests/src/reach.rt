//! The position to which one reading moves a position: the definition as a plain program, for
//! testing faster readers.

ghost use Rattle.std.specs.Prelude.{◌≡◌, ◌<◌, ◌≤◌, IfSome, IsSome, IfOk, length};
ghost use Rattle.tape_set.specs.Layout.{is_data, ends_file};
ghost use Rattle.tape_set.specs.Lawful.{IsLawful, most_blocks};
ghost use Rattle.tape_set.specs.Reach.{far, passes, good_run, first_unread, both_good, moved};
ghost use Rattle.tape_set.specs.Reach.{stopped, behind};
ghost use Rattle.tape_set_tests.specs.Contents.{entry_told, entries_told};

use crate::contents::{EntryLayout, before_data};
use crate::list::{first, nth, rest};
use std::alloc::{AllocError, Global};
use tape_set::{Layout, Position, SectionLayout};

/// Returns the position to which one reading of volume `volume` moves `position` in file `file`.
/// `good` says for each item of the volume, from its start, whether it was readable.
///
/// Returns `None` if the numbers of the new position are too great for a `Position`, which is
/// impossible in a valid set.
///
/// # Errors
///
/// Returns `AllocError` if an allocation fails.
pub fn far(
    alloc: Global,
    layout: &Layout,
    file: u16,
    position: Position,
    volume: usize,
    good: &[bool],
) -> Result<Option<Position>, AllocError>
    ensures found { IfOk result (λ o. IfSome o (λ p.
        p ≡ far layout.now file position (record { volume = volume; good = good.now }))) }
    ensures lawful { IsLawful layout.now → IfOk result (λ o. IsSome o) }
{
    let Position::Awaits { sect, block, .. } = position else {
        return Ok(Some(position));
    };
    let Some(own) = nth(layout.files.as_slice(), usize::from(file)) else {
        return Ok(Some(position));
    };
    let Some(section) = nth(own.sections.as_slice(), usize::from(sect)) else {
        return Ok(Some(position));
    };
    if section.volume != volume {
        return Ok(Some(position));
    }
    let past = before_data(alloc, layout, file, sect, own, section)?;
    if !passes(good, past.as_slice()) {
        return Ok(Some(position));
    }
    Ok(moved(position, sect, block, section, rest(good, past.len())))
}

/// Returns true if the reading includes all entries of `past`, and all of them but data blocks were
/// readable.
fn passes(good: &[bool], past: &[EntryLayout]) -> bool
    ensures { result ≡ passes good.now (entries_told past.now) }
{
    let mut behind = good;
    for entry in past {
        match behind.first() {
            Some(well) if *well || is_data(entry) => behind = rest(behind, 1),
            _ => return false,
        }
    }
    true
}

/// Returns true if `entry` is a data block.
fn is_data(entry: &EntryLayout) -> bool
    ensures { result ≡ is_data (entry_told entry.now) }
{
    matches!(entry, EntryLayout::DataBlock(_))
}

/// Returns the position reached in the section; `good` begins after its headers.
fn moved(
    position: Position,
    sect: u16,
    block: u32,
    section: &SectionLayout,
    good: &[bool],
) -> Option<Position>
    ensures found { IfSome result (λ p. p ≡ moved position sect block section.now good.now) }
    ensures some { length section.now.blocks ≤ most_blocks → sect < 65535 → IsSome result }
{
    let blocks = section.blocks.as_slice().len();
    let from = block as usize;
    if blocks < from {
        return Some(position);
    }
    let reached = first_unread(good, from, blocks);
    if reached < blocks {
        return stopped(position, sect, block, reached);
    }
    if both_good(rest(good, blocks)) {
        return behind(sect, section);
    }
    stopped(position, sect, block, blocks)
}

/// Returns `position`, which is in block number `block`, or the start of block number `reached` if
/// that is another block.
fn stopped(position: Position, sect: u16, block: u32, reached: usize) -> Option<Position>
    ensures found { IfSome result (λ p. p ≡ stopped position sect block reached) }
    ensures some { reached ≤ most_blocks → IsSome result }
{
    let reached = u32::try_from(reached).ok()?;
    if reached == block {
        return Some(position);
    }
    Some(Position::awaiting(sect, reached))
}

/// Returns the position after the section.
fn behind(sect: u16, section: &SectionLayout) -> Option<Position>
    ensures found { IfSome result (λ p. p ≡ behind sect section.now) }
    ensures some { sect < 65535 → IsSome result }
{
    if ends_file(section) {
        return Some(Position::Finished);
    }
    Some(Position::awaiting(sect.checked_add(1)?, 0))
}

/// Returns true if the section's trailer ends its file.
fn ends_file(section: &SectionLayout) -> bool
    ensures { result ≡ ends_file section.now }
{
    first(section.trailer.as_slice(), 4) == b"EOF1".as_slice()
}

/// Returns the number of the first unreadable block, from `block` to `blocks - 1`, or `blocks` if
/// all of them were readable.
#[tactic(auto, using(tape_set::proofs::Reaching::first_unread_most))]
fn first_unread(good: &[bool], block: usize, blocks: usize) -> usize
    requires { block ≤ blocks }
    ensures { result ≡ first_unread good.now block blocks }
{
    block + good_run(first(rest(good, block), blocks - block))
}

/// Returns the number of readable items before the first one that was not readable.
fn good_run(good: &[bool]) -> usize
    ensures { result ≡ good_run good.now }
{
    for (n, well) in good.iter().enumerate() {
        if !*well {
            return n;
        }
    }
    good.len()
}

/// Returns true if the reading includes both of the next two items, and both were readable.
fn both_good(good: &[bool]) -> bool
    ensures { result ≡ both_good good.now }
{
    match good {
        [closing, trailer, ..] => *closing && *trailer,
        _ => false,
    }
}
