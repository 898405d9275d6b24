//! What a copy of a section has of a block.

use crate::merge::candidate::Candidate;
use crate::salvage::copies::SectionCopy;
use crate::salvage::labels::{is_label, is_other_trailer, is_trailer};
use std::alloc::AllocError;
use tape_image::{ImageFault, Item};

/// What a copy has of a block.
#[derive(Clone, Copy, PartialEq, Eq)]
pub enum Answer {
    /// It is readable, and the same as in the copies before it that have it.
    Has,
    /// It is unreadable.
    Lacks,
    /// It is readable, and another one than in a copy before it.
    Differs,
    /// No item of the copy is certain to be this block.
    Unsure,
    /// The section ended before this block, at a tape mark that something follows.
    Ended,
    /// The section ended at a tape mark with a block that is not one of its trailer labels.
    EndedByOther,
}

/// Returns what the item after the tape mark that ends a section says; a block that is not one of
/// its trailer labels is compared with the one of the copies before. An image may have been cut
/// off, and ended with marks.
pub fn end_by(
    item: Result<Option<Item<'_>>, ImageFault>,
    copy: &SectionCopy,
    best: &mut Candidate,
) -> Result<Answer, AllocError> {
    let Ok(Some(item)) = item else {
        return Ok(Answer::Unsure);
    };
    match item {
        Item::Block(block) => {
            let may_be_own = !is_other_trailer(&copy.section.key, block) && is_trailer(block);
            if copy.closed.is_some() || may_be_own {
                return Ok(Answer::Ended);
            }
            if best.take(item)? {
                return Ok(Answer::EndedByOther);
            }
            Ok(Answer::Differs)
        }
        Item::Bad => Ok(Answer::Ended),
        Item::Mark => Ok(Answer::Unsure),
    }
}

/// Returns whether a data item ends those with certain numbers: a mark, a label in a section that
/// does not close, or an unreadable item if it is unsure that the data begin there.
pub fn ends(item: Item<'_>, is_open: bool, is_unsure: bool) -> bool {
    match item {
        Item::Block(block) => is_open && is_label(block),
        Item::Bad => is_unsure,
        Item::Mark => true,
    }
}
