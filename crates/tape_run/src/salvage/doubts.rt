//! What the copies of a file's sections say against each other.

ghost use Rattle.std.specs.Prelude.{IfErr};
ghost use Rattle.tape_run.specs.Checked.{IsCheckFault};

use crate::extract::images::ImageSource;
use crate::fault::{EngineFault, NO_MEMORY};
use crate::merge::candidate::Candidate;
use crate::salvage::aligned::Aligned;
use crate::salvage::copies::{SectionCopy, best_copy, last_section};
use crate::salvage::joining::{compare_section, find_again};
use crate::salvage::walk::OpenSection;
use std::alloc::{AllocError, Global};
use std::io::Read;
use tape_image::{ImageBuffer, ImageReader};
use tape_label::Field;

/// What the copies of a file's sections say against each other.
#[derive(Drop)]
pub struct Doubts {
    /// The numbers of two images that contradict each other about a section which no image has in
    /// full: as for the line `CONFLICT` of `salvage`.
    pub conflict: Option<(usize, usize)>,
    /// The copies of which a reading for the records reads no data.
    pub doubtful: Vec<DoubtfulCopy>,
}

/// A copy of a section that has unreadable blocks, and whose trailer label counts another number of
/// blocks; or one that does not close, and may have labels among its data, or is followed by the
/// trailer label of another section.
#[derive(Clone, Copy)]
pub struct DoubtfulCopy {
    /// The number of its image, counted from 0.
    pub image: usize,
    /// The section's number.
    pub sect: u16,
    /// The byte offset at which its data begin.
    pub place: u64,
}

/// Finds what the copies of a file's sections on the images say against each other.
///
/// Each image is read once, and again for each section of it that is compared. Allocates
/// 100,000 bytes for each image that is read then, and for a block.
///
/// # Errors
///
/// `Run(OutOfMemory)`.
pub fn find_doubts<R: Read + Drop, L: ImageSource<R>>(
    alloc: Global,
    set_id: &Field<6>,
    file: u16,
    images: &mut L,
) -> Result<Doubts, EngineFault>
    ensures fault { IfErr result IsCheckFault }
{
    let copies = find_again(alloc, set_id, file, images)?;
    match doubts_of(alloc, copies.as_slice(), images) {
        Ok(doubts) => Ok(doubts),
        Err(_) => Err(NO_MEMORY),
    }
}

/// Finds what these copies say against each other.
fn doubts_of<R: Read + Drop, L: ImageSource<R>>(
    alloc: Global,
    copies: &[SectionCopy],
    images: &mut L,
) -> Result<Doubts, AllocError> {
    let conflict = find_conflict(alloc, copies, images)?;
    let mut doubts = Doubts {
        conflict,
        doubtful: Vec::new(alloc),
    };
    add_doubtful(alloc, copies, images, &mut doubts.doubtful)?;
    Ok(doubts)
}

/// Returns whether a copy has unreadable blocks, and its trailer label counts another number of
/// blocks. Some systems always write a count of 0.
fn is_miscounted(copy: &SectionCopy) -> bool {
    match copy.wrong_count() {
        Some(count) => count > 0 && copy.section.unreadable > 0,
        None => false,
    }
}

/// Adds the copies that are doubtful.
fn add_doubtful<R: Read + Drop, L: ImageSource<R>>(
    alloc: Global,
    copies: &[SectionCopy],
    images: &mut L,
    doubtful: &mut Vec<DoubtfulCopy>,
) -> Result<(), AllocError> {
    for copy in copies {
        let has_data = copy.section.blocks > 0;
        if has_data && (copy.closed.is_none() || is_miscounted(copy)) {
            if let Some(place) = doubtful_place(alloc, copy, images)? {
                let (image, sect) = (copy.image, copy.section.key.sect);
                doubtful.push(DoubtfulCopy { image, sect, place })?;
            }
        }
    }
    Ok(())
}

/// Returns the numbers of two images that contradict each other about a section which no image has
/// in full.
fn find_conflict<R: Read + Drop, L: ImageSource<R>>(
    alloc: Global,
    copies: &[SectionCopy],
    images: &mut L,
) -> Result<Option<(usize, usize)>, AllocError> {
    let mut block = Candidate::new(alloc)?;
    let mut conflict = None;
    for before in 0..last_section(copies) {
        let sect = before + 1;
        if let Some(best) = best_copy(copies, sect) {
            if !best.is_complete() {
                let pair = conflict_of(alloc, copies, sect, images, &mut block)?;
                conflict = pair.or(conflict);
            }
        }
    }
    Ok(conflict)
}

/// Compares the copies of section `sect`. Returns the numbers of two images that contradict each
/// other.
fn conflict_of<R: Read + Drop, L: ImageSource<R>>(
    alloc: Global,
    copies: &[SectionCopy],
    sect: u16,
    images: &mut L,
    block: &mut Candidate,
) -> Result<Option<(usize, usize)>, AllocError> {
    let mut fills = Vec::new(alloc);
    let (own, compared) = compare_section(alloc, copies, sect, images, block, &mut fills)?;
    match compared.differ {
        Some((one, other)) => Ok(pair_of(own.as_slice(), one, other)),
        None => Ok(None),
    }
}

/// Returns the byte offset at which the data of a copy begin on its image, which is opened again.
/// Returns `None` if it does not close, no labels are among its data, and no trailer label of
/// another section follows them.
fn doubtful_place<R: Read + Drop, L: ImageSource<R>>(
    alloc: Global,
    copy: &SectionCopy,
    images: &mut L,
) -> Result<Option<u64>, AllocError> {
    let Some(mut device) = images.mount(copy.image)? else {
        return Ok(None);
    };
    let buffer = ImageBuffer::new(alloc)?;
    // Its data begin after the mark, also if the first item reads as its trailer label.
    let section = OpenSection {
        trailer: None,
        ..copy.section
    };
    let whole = SectionCopy { section, ..*copy };
    let mut reading = Aligned::new(ImageReader::over(buffer, &mut device), whole);
    reading.reach();
    let place = reading.place();
    if copy.closed.is_some() || reading.may_have_labels() {
        return Ok(Some(place));
    }
    Ok(None)
}

/// Returns the numbers of the images of two copies.
fn pair_of(copies: &[SectionCopy], one: usize, other: usize) -> Option<(usize, usize)> {
    match (copies.get(one), copies.get(other)) {
        (Some(one), Some(other)) => Some((one.image, other.image)),
        _ => None,
    }
}
