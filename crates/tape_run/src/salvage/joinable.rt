//! The copies of a section that may complete each other.

use crate::salvage::conflicts::{are_other_forms, are_other_labels, end_alike, is_named};
use crate::salvage::copies::SectionCopy;
use std::alloc::{AllocError, Global};

/// Returns whether blocks are missing if a section is read from this copy alone.
pub fn is_wanting(copy: &SectionCopy) -> bool {
    copy.closed.is_none() || copy.wrong_count().is_some() || copy.section.unreadable > 0
}

/// Returns whether the numbers of its blocks are certain, up to an unreadable one at least: its
/// trailer label counts them, or was not read.
fn is_numbered(copy: &SectionCopy) -> bool {
    copy.possible() > 0 && copy.wrong_count().is_none() && is_named(copy)
}

/// Returns whether two copies have the same labels, as far as they were read.
fn are_alike(one: &SectionCopy, other: &SectionCopy) -> bool {
    !are_other_labels(one, other) && !are_other_forms(&one.section.form, &other.section.form)
}

/// Returns a number that is greater for a copy that others complete rather: those that close come
/// first, and of these the ones with more readable blocks, then those with more data items.
fn base_rank(copy: &SectionCopy) -> u64 {
    match copy.closed {
        Some(_) => copy.rank().saturating_add(4_294_967_296),
        None => u64::from(copy.possible()),
    }
}

/// Returns the first copy with the greatest `base_rank` that is on none of the images `passed`.
fn best_base(copies: &[SectionCopy], passed: &[usize]) -> Option<SectionCopy> {
    let (mut base, mut rank) = (None, 0);
    for copy in copies {
        if rank < base_rank(copy) && !passed.contains(&copy.image) {
            (base, rank) = (Some(*copy), base_rank(copy));
        }
    }
    base
}

/// Returns the copies of section `sect` that may complete each other, with the one first that the
/// others complete: none on the images `passed`. Of each image only the first copy is considered,
/// since that is the one that is read.
///
/// # Errors
///
/// `AllocError` if the copies cannot be kept.
pub fn joinable(
    alloc: Global,
    copies: &[SectionCopy],
    sect: u16,
    passed: &[usize],
) -> Result<Vec<SectionCopy>, AllocError> {
    let mut found = Vec::new(alloc);
    let mut last = None;
    for copy in copies {
        if copy.section.key.sect == sect && last != Some(copy.image) {
            last = Some(copy.image);
            if is_numbered(copy) {
                found.push(*copy)?;
            }
        }
    }
    let mut joined = Vec::new(alloc);
    if let Some(base) = best_base(found.as_slice(), passed) {
        joined.push(base)?;
        for copy in found.as_slice() {
            if copy.image != base.image && are_alike(&base, copy) {
                joined.push(*copy)?;
            }
        }
    }
    Ok(joined)
}

/// Returns the index of a copy that closes otherwise than the first: with another number of blocks,
/// or as the end of the file.
pub fn contrary(copies: &[SectionCopy]) -> Option<usize> {
    let base = copies.first()?;
    for (number, copy) in copies.iter().enumerate() {
        let closes = base.closed.is_some() && copy.closed.is_some();
        let same = copy.section.blocks == base.section.blocks
            && end_alike(&base.closed, &copy.closed);
        if closes && !same {
            return Some(number);
        }
    }
    None
}
