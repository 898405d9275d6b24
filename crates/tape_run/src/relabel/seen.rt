//! The sections of an image, as its labels name them.

use crate::relabel::steps::{LabelPart, LabelPlace, Name, step};
use std::alloc::{AllocError, Global};
use std::io::Read;
use tape_image::{ImageBuffer, ImageReader, Item};
use tape_label::{Field, Head1, read_head1, read_trail1, read_vol1};

/// A section of an image, as its first label names it.
#[derive(Clone, Copy)]
pub struct SeenSection {
    /// The characters that name it.
    pub(crate) name: Name,
    /// Its label, if it can be read.
    pub head: Option<Head1>,
    /// Whether every item up to this label was expected, so that no section before it was missed.
    pub is_certain: bool,
    /// Whether a further volume begins before it on the image.
    pub is_later: bool,
}

/// What the labels of an image say.
#[derive(Drop)]
pub struct SeenImage {
    /// The volume identifier of the first volume label, unless it is blank.
    pub volume: Option<Field<6>>,
    /// The sections, in their order.
    pub sections: Vec<SeenSection>,
    /// Whether the last section ends its file, or its file continues on another volume (`EOV1`).
    /// `None` if that is not certain.
    pub is_end: Option<bool>,
    /// Whether the image was opened.
    pub is_open: bool,
    /// Whether every item so far was expected.
    is_certain: bool,
    /// Whether a further volume has begun.
    is_later: bool,
}

/// Returns the field unless it is blank.
fn unless_blank(field: Field<6>) -> Option<Field<6>> {
    (field != Field::of_bytes([b' '; 6])).then_some(field)
}

/// Returns the characters of a label that name its section.
fn name_in(label: &[u8]) -> Name {
    let mut name = [0; 14];
    if let Some(text) = label.get(21..35) {
        name.copy_from_slice(text);
    }
    name
}

impl SeenImage {
    /// Returns what an image says that could not be opened.
    pub fn unopened(alloc: Global) -> SeenImage {
        SeenImage {
            volume: None,
            sections: Vec::new(alloc),
            is_end: None,
            is_open: false,
            is_certain: true,
            is_later: false,
        }
    }

    /// Returns whether a label of the image has this set identifier.
    pub fn has_set(&self, set_id: Field<6>) -> bool {
        let mut heads = self.sections.iter().filter_map(|section| section.head);
        heads.any(|head| head.set_id == set_id)
    }

    /// Notes a section with this first label.
    fn begin(&mut self, label: &[u8], head: Option<Head1>) -> Result<(), AllocError> {
        self.is_end = None;
        self.sections.push(SeenSection {
            name: name_in(label),
            head,
            is_certain: self.is_certain,
            is_later: self.is_later,
        })?;
        Ok(())
    }

    /// Notes the next item, where `place` is expected. Returns what is expected after it.
    fn note(&mut self, place: LabelPlace, item: Item<'_>) -> Result<LabelPlace, AllocError> {
        let turn = step(place, item);
        self.is_certain = self.is_certain && turn.expected;
        let Item::Block(block) = item else {
            return Ok(turn.next);
        };
        let trail = read_trail1(block).ok();
        match turn.part {
            LabelPart::Header => self.begin(block, read_head1(block).ok())?,
            LabelPart::LoneTrailer => self.begin(block, trail.map(|trail| trail.head))?,
            LabelPart::Trailer if self.is_certain => self.is_end = trail.map(|trail| trail.eof),
            LabelPart::Trailer => {}
            LabelPart::Other if place == LabelPlace::Outside => self.note_volume(block),
            LabelPart::Other => {}
        }
        Ok(turn.next)
    }

    /// Notes a block outside of sections, which may be a volume label.
    fn note_volume(&mut self, block: &[u8]) {
        let Ok(label) = read_vol1(block) else {
            return;
        };
        if self.sections.is_empty() {
            self.volume = self.volume.or(unless_blank(label.volume));
        } else {
            (self.is_certain, self.is_later) = (false, true);
        }
    }
}

/// Reads an image in normal form to its end or to a fault, and returns what its labels say.
///
/// # Errors
///
/// Returns `AllocError` if memory is refused.
pub fn sections_on<R: Read>(alloc: Global, device: &mut R) -> Result<SeenImage, AllocError> {
    let buffer = ImageBuffer::new(alloc)?;
    let mut image = ImageReader::over(buffer, device);
    let mut seen = SeenImage::unopened(alloc);
    seen.is_open = true;
    let mut place = LabelPlace::Outside;
    for _ in 0..u64::MAX {
        match image.next() {
            Ok(Some(item)) => place = seen.note(place, item)?,
            Ok(None) => break,
            Err(_) => {
                seen.is_certain = false;
                break;
            }
        }
    }
    if !seen.is_certain || place != LabelPlace::Outside {
        seen.is_end = None;
    }
    Ok(seen)
}
