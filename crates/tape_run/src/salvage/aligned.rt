//! Copies of one section, read side by side block by block.

use crate::merge::candidate::Candidate;
use crate::salvage::answer::{Answer, end_by, ends};
use crate::salvage::copies::SectionCopy;
use crate::salvage::fill::{Fill, Stretch, add_fill};
use crate::salvage::image::number_in;
use crate::salvage::labels::{is_other, is_other_trailer, is_trailer};
use crate::salvage::walk::{Expected, step};
use std::alloc::AllocError;
use std::io::Read;
use tape_image::{ImageReader, Item};

/// A copy of a section, of which the blocks up to some number have been read.
#[derive(Drop)]
pub struct Aligned<'r, R: Read> {
    image: ImageReader<'r, R>,
    copy: SectionCopy,
    expected: Expected,
    /// The byte offset at which the last item begins that was read.
    from: u64,
    /// Whether an item after its HDR1 and before its data is unreadable, or HDR1 itself.
    is_doubted: bool,
    /// Whether its first data item has to be a block that is no label.
    is_unsure: bool,
    /// Whether the numbers of its further items are not certain.
    is_over: bool,
    /// Whether its data ended with a tape mark that something follows.
    is_ended: bool,
}

impl<'r, R: Read> Aligned<'r, R> {
    /// Creates the reading of a copy from an unread image.
    pub fn new(image: ImageReader<'r, R>, copy: SectionCopy) -> Aligned<'r, R> {
        Aligned {
            image,
            expected: copy.start(),
            copy,
            from: 0,
            is_doubted: false,
            is_unsure: false,
            is_over: false,
            is_ended: false,
        }
    }

    /// Returns whether the next item is a data item of the section.
    fn is_at_data(&self) -> bool {
        let key = &self.copy.section.key;
        number_in(key, self.copy.possible(), &self.expected).is_some()
    }

    /// Returns whether all data items of the section were read that may be its blocks.
    fn is_past_data(&self) -> bool {
        match &self.expected {
            Expected::Data(section) => section.key == self.copy.section.key && !self.is_at_data(),
            _ => false,
        }
    }

    /// Reads up to the section's data. If the section does not close, the mark found may not be the
    /// one before them: the numbers of the items are certain only if no item before the mark is
    /// other than a header label, or one that is unreadable, and a block that is no label follows.
    pub fn reach(&mut self) {
        // The items after HDR1 that are neither header labels nor a tape mark.
        let mut others: u32 = 0;
        'items: for _ in 0..u32::MAX {
            if self.is_at_data() {
                let open = self.expected.open_section();
                self.is_doubted = open.is_some_and(|(section, _)| section.certain.is_some());
                let is_open = self.copy.closed.is_none();
                self.is_unsure = is_open && self.is_doubted;
                self.is_over = is_open && others > u32::from(self.is_doubted);
                return;
            }
            let Ok(Some(item)) = self.image.next() else {
                break;
            };
            if !matches!(self.expected, Expected::Second(_) | Expected::Headers(_)) {
                others = 0;
            } else if is_other(item) {
                others = others.saturating_add(1);
            }
            self.expected = step(self.expected, item).0;
        }
        self.is_over = true;
    }

    /// Returns whether labels may be among the data of a section that does not close: it is not
    /// certain where they begin, one of the blocks reads as a trailer label, or the trailer label
    /// of another section follows. Reads the data.
    pub fn may_have_labels(&mut self) -> bool {
        if self.is_over {
            return true;
        }
        for _ in 0..u32::MAX {
            match self.image.next() {
                Ok(Some(Item::Block(block))) => {
                    if is_trailer(block) {
                        return true;
                    }
                }
                Ok(Some(Item::Bad)) => {}
                Ok(Some(Item::Mark)) => {
                    return self.is_before_other();
                }
                _ => return false,
            }
        }
        false
    }

    /// Reads the next item. Returns whether it is the trailer label of another section.
    fn is_before_other(&mut self) -> bool {
        match self.image.next() {
            Ok(Some(Item::Block(block))) => is_other_trailer(&self.copy.section.key, block),
            _ => false,
        }
    }

    /// Returns the byte offset of the next item.
    pub fn place(&self) -> u64 {
        self.image.place()
    }

    /// Reads the next block, and compares it with the one of the copies before.
    fn ask(&mut self, best: &mut Candidate) -> Result<Answer, AllocError> {
        if self.is_ended {
            return Ok(Answer::Ended);
        }
        let is_at_data = self.is_at_data();
        if self.is_over || !(is_at_data || self.is_past_data()) {
            self.is_over = true;
            return Ok(Answer::Unsure);
        }
        self.from = self.image.place();
        let item = match self.image.next() {
            Ok(Some(item)) => item,
            _ => {
                self.is_over = true;
                return Ok(Answer::Unsure);
            }
        };
        self.expected = step(self.expected, item).0;
        let is_open = self.copy.closed.is_none();
        if !is_at_data || ends(item, is_open, self.is_unsure) {
            self.is_over = true;
            if item != Item::Mark {
                return Ok(Answer::Unsure);
            }
            let answer = end_by(self.image.next(), &self.copy, best)?;
            self.is_ended = answer != Answer::Unsure;
            return Ok(answer);
        }
        self.is_unsure = false;
        match item {
            Item::Block(_) if best.take(item)? => Ok(Answer::Has),
            Item::Block(_) => Ok(Answer::Differs),
            _ => Ok(Answer::Lacks),
        }
    }

    /// Returns whether other copies can complete it from here.
    fn is_base(&self) -> bool {
        !self.is_over && (self.copy.closed.is_some() || !self.is_doubted)
    }

    /// Returns whether it is a complete copy if it has as many of its blocks.
    fn is_whole(&self, read: u32) -> bool {
        self.copy.closed.is_some() && !self.is_doubted && read == self.copy.section.blocks
    }

    /// Records that an unreadable item was read that no copy has: if the section does not close, it
    /// may not have been a block.
    fn doubt(&mut self) {
        if self.copy.closed.is_none() {
            self.is_over = true;
        }
    }

    /// Returns the bytes of the block that was read last.
    fn last(&self) -> Stretch {
        Stretch {
            image: self.copy.image,
            from: self.from,
            to: self.image.place(),
        }
    }
}

/// The copies that have a block.
#[derive(Clone, Copy)]
enum Held {
    /// None of them.
    Nowhere,
    /// The one with this index is the first.
    First(usize),
    /// The ones with these indexes have different blocks.
    Differ(usize, usize),
}

/// The result of comparing copies.
#[derive(Clone, Copy)]
pub struct Compared {
    /// Whether others can complete the first copy: it is certain where its data begin.
    pub is_base: bool,
    /// Whether the first copy is complete with the blocks of the others.
    pub completes: bool,
    /// The number of blocks of the first copy that one of them has.
    pub read: u32,
    /// The indexes of two copies that have different blocks with the same number.
    pub differ: Option<(usize, usize)>,
}

/// Asks each copy for its next block. A copy that ended before a block that another one has differs
/// from it, and so do copies that ended with a block that is not one of their trailer labels, unless
/// all did.
fn ask_all<R: Read>(
    copies: &mut [Aligned<'_, R>],
    best: &mut Candidate,
) -> Result<Held, AllocError> {
    best.clear();
    let mut held = Held::Nowhere;
    let (mut ended, mut other) = (None, None);
    let mut others: usize = 0;
    for number in 0..copies.len() {
        match (copies[number].ask(best)?, held) {
            (Answer::Has, Held::Nowhere) => held = Held::First(number),
            (Answer::Differs, Held::First(first)) => return Ok(Held::Differ(first, number)),
            (Answer::Ended, _) => ended = Some(number),
            (Answer::EndedByOther, _) => {
                other = Some(number);
                others = others.saturating_add(1);
            }
            (Answer::Differs, _) => other = Some(number),
            _ => {}
        }
    }
    if let Some(number) = other
        && others < copies.len()
    {
        return Ok(Held::Differ(if number == 0 { 1 } else { 0 }, number));
    }
    let Held::First(first) = held else {
        return Ok(held);
    };
    Ok(match ended {
        Some(number) => Held::Differ(first, number),
        None => held,
    })
}

/// Compares the blocks of the copies. Adds to `fills` the runs of blocks that the first copy does
/// not have, and that another one has.
///
/// # Errors
///
/// `AllocError` if a block or a run cannot be kept.
pub fn compare<R: Read>(
    copies: &mut [Aligned<'_, R>],
    best: &mut Candidate,
    fills: &mut Vec<Fill>,
) -> Result<Compared, AllocError> {
    let mut compared = Compared {
        is_base: false,
        completes: false,
        read: 0,
        differ: None,
    };
    for number in 0..u32::MAX {
        let held = ask_all(copies, best)?;
        let base = copies.first().filter(|base| base.is_base());
        compared.is_base = compared.is_base || base.is_some();
        if let Held::Differ(one, other) = held
            && compared.is_base
        {
            compared.differ = Some((one, other));
            break;
        }
        let Some(base) = base else {
            break;
        };
        match held {
            Held::Differ(_, _) => break,
            Held::Nowhere => doubt_all(copies),
            Held::First(first) => {
                compared.read = compared.read.saturating_add(1);
                compared.completes = base.is_whole(compared.read);
                if let Some(source) = copies.get(first).filter(|_| first > 0) {
                    add_fill(fills, fill_of(number, base, source))?;
                }
            }
        }
    }
    Ok(compared)
}

/// Returns the block with this number, which `source` has, and `base` does not.
fn fill_of<R: Read>(number: u32, base: &Aligned<'_, R>, source: &Aligned<'_, R>) -> Fill {
    Fill {
        sect: base.copy.section.key.sect,
        first: number,
        last: number,
        gap: base.last(),
        source: source.last(),
    }
}

/// Records in each copy that none has the block that was read last.
fn doubt_all<R: Read>(copies: &mut [Aligned<'_, R>]) {
    for copy in copies {
        copy.doubt();
    }
}
