//! The copies of a file's sections on images, and how much of each is reliable.

ghost use Rattle.std.specs.Prelude.{◌≡◌, ◌++◌, ◌∷◌, max, min, [], List, OnOk, IfOk, IfErr};
ghost use Rattle.std.specs.Prelude.{None, Some};
ghost use Rattle.tape_image.specs.Reader.{going};
ghost use Rattle.tape_run.specs.SalvageCopies.{FindsCopies, believed, of_file, is_of, wrong_count};
ghost use Rattle.tape_run.specs.SalvageChoice.{IsBest, firsts};
ghost use Rattle.tape_run.specs.{Checked.IsCheckFault, SalvageWalk.in_list};
ghost use Rattle.tape_run.specs.SalvageCopies.{rank, rank_with, start_of, skip_of, is_complete};
ghost use Rattle.tape_run.specs.SalvageChoice.{last_section, form_of_file, recorded_form};
ghost use Rattle.tape_run.specs.SalvageChoice.{absent_form_in};
ghost use Rattle.tape_run.specs.declared.salvage.copies.SectionCopy.{SectionCopy};

use crate::catalogue::stop_at;
use crate::fault::{EngineFault, NO_MEMORY};
use crate::salvage::walk::{Closing, Expected, FoundSection, OpenSection, skipping, step};
use crate::section::ImageStop;
use std::alloc::Global;
use std::io::Read;
use tape_core::Known;
use tape_image::ImageReader;
use tape_label::{Field, absent_head2};

/// A section found on an image.
#[derive(Clone, Copy)]
pub struct SectionCopy {
    /// The image's number, counted from 0.
    pub image: usize,
    /// The section, and its data.
    pub section: OpenSection,
    /// The end of the section. If it is `None`, the section did not close, and may have other data
    /// than were found.
    pub closed: Option<Closing>,
    /// The number of items of the image before its data, if its HDR1 was not read.
    pub skip: Option<u64>,
}

impl SectionCopy {
    /// Returns how many of its data items are certainly its blocks: all if it closes, otherwise
    /// those before the first unreadable item, before the first that may be its own trailer
    /// label, and before those that may be blocks of another section.
    pub fn believed(&self) -> u32
        ensures { result ≡ believed self.now }
    {
        match self.closed {
            Some(_) => self.section.blocks,
            None => {
                let certain = self.section.certain.unwrap_or(self.section.blocks);
                let trailer = self.section.trailer.unwrap_or(self.section.blocks);
                if trailer < certain { trailer } else { certain }
            }
        }
    }

    /// Returns how many of its data items may be its blocks: those before the first that may be
    /// its own trailer label, if it does not close.
    pub fn possible(&self) -> u32 {
        match (self.closed, self.section.trailer) {
            (None, Some(trailer)) => trailer,
            _ => self.section.blocks,
        }
    }

    /// Returns how many of its blocks are recovered if `read` of its data items are read again.
    pub fn recovered(&self, read: u32) -> u32
        ensures { result ≡ min read (believed self.now) }
    {
        let believed = self.believed();
        if read < believed { read } else { believed }
    }

    /// Returns what is expected at the first item of the image if the section is read from it. If
    /// its HDR1 was not read, its data are found by their place.
    pub fn start(&self) -> Expected
        ensures { result ≡ start_of self.now }
    {
        match self.skip {
            None => Expected::Outside(0),
            Some(items) => skipping(
                items,
                OpenSection {
                    blocks: 0,
                    ..self.section
                },
            ),
        }
    }

    /// Returns the count of its trailer label, if that is not the number of its data items.
    pub fn wrong_count(&self) -> Option<u32>
        ensures { result ≡ wrong_count self.now }
    {
        match self.closed {
            Some(closed) if closed.count != tape_set::label_count(self.section.blocks) => {
                Some(closed.count)
            }
            _ => None,
        }
    }

    /// Returns whether the copy is complete: it closes, all of it was readable, and its trailer
    /// label counts its blocks.
    pub fn is_complete(&self) -> bool
        ensures { result ≡ is_complete self.now }
    {
        self.closed.is_some() && self.section.certain.is_none() && self.wrong_count().is_none()
    }

    /// Returns a number that is greater for a better copy: complete ones are best, then those with
    /// more readable blocks, and of these the ones that close.
    pub fn rank(&self) -> u64
        ensures { result ≡ rank self.now }
    {
        let read = match self.closed {
            Some(_) => self.section.blocks.saturating_sub(self.section.unreadable),
            None => self.believed(),
        };
        let rank = self.rank_with(read);
        if self.is_complete() {
            return 8_589_934_592 + rank;
        }
        rank
    }

    /// Returns the rank of a copy that is not complete if `read` of its blocks are readable.
    pub fn rank_with(&self, read: u32) -> u64
        ensures { result ≡ rank_with self.now read }
    {
        2 * u64::from(read) + u64::from(self.closed.is_some())
    }
}

/// Finds the sections of a file on an image, and adds them to `copies`. Returns how the image
/// ended.
///
/// # Errors
///
/// `Run(OutOfMemory)`.
pub fn copies_on<R: Read>(
    alloc: Global,
    set_id: &Field<6>,
    file: u16,
    number: usize,
    device: &mut R,
    copies: &mut Vec<SectionCopy>,
) -> Result<ImageStop, EngineFault>
    ensures ok { IfOk result (λ stop. FindsCopies (R.remaining device.old)
        (R.remaining device.new) set_id.now file number stop copies.old.items copies.new.items) }
    ensures fault { IfErr result IsCheckFault }
{
    let mut image = match ImageReader::new(alloc, device) {
        Ok(image) => image,
        Err(_) => return Err(NO_MEMORY),
    };
    let found = copies_in_items(&mut image, set_id, file, number, copies);
    // The caller gets back the device.
    image.into_device();
    found
}

/// Finds the sections of a file on an unread image. Returns how the image ended.
fn copies_in_items<R: Read>(
    image: &mut ImageReader<'_, R>,
    set_id: &Field<6>,
    file: u16,
    number: usize,
    copies: &mut Vec<SectionCopy>,
) -> Result<ImageStop, EngineFault>
    requires going { image.old.status ≡ going }
    requires first { image.old.place ≡ 0 }
    ensures same_device { image.new.device ≡ image.old.device }
    ensures ok { IfOk result (λ stop. FindsCopies image.old.left image.new.left set_id.now file
        number stop copies.old.items copies.new.items) }
    ensures fault { IfErr result IsCheckFault }
{
    let mut expected = Expected::Outside(0);
    let mut read = 0u64;
    'items: loop {
        match image.next() {
            Ok(Some(item)) => {
                let (next, found) = step(expected, item);
                add_copy(copies, set_id, file, number, read, found)?;
                expected = next;
                read = read.saturating_add(1);
            }
            Ok(None) => {
                let Some(ending) = image.ending() else {
                    unreachable!()
                };
                add_copy(copies, set_id, file, number, read, expected.open_section())?;
                return Ok(stop_at(ending));
            }
            Err(fault) => {
                add_copy(copies, set_id, file, number, read, expected.open_section())?;
                return Ok(ImageStop::Fault(fault));
            }
        }
    }
}

/// Returns how many items of an image precede the section's data, if its HDR1 was not read; `read`
/// items were read before the one that ended it.
fn skip_of(read: u64, section: &OpenSection) -> Option<u64>
    ensures { result ≡ skip_of read section.now }
{
    match section.after {
        None => None,
        Some(after) => {
            let ended = read.saturating_sub(u64::from(after));
            Some(ended.saturating_sub(u64::from(section.blocks)))
        }
    }
}

/// Adds the section that was found, if it belongs to the file; `read` is the number of items read
/// before the one that ended it.
fn add_copy(
    copies: &mut Vec<SectionCopy>,
    set_id: &Field<6>,
    file: u16,
    image: usize,
    read: u64,
    found: Option<FoundSection>,
) -> Result<(), EngineFault>
    ensures ok { OnOk result (copies.new.items
        ≡ copies.old.items ++ of_file set_id.now file image (in_list read found)) }
    ensures fault { IfErr result IsCheckFault }
{
    let Some((section, closed)) = found else {
        return Ok(());
    };
    if section.key.set_id.bytes() != set_id.bytes() || section.key.file != file {
        return Ok(());
    }
    let copy = SectionCopy {
        image,
        section,
        closed,
        skip: skip_of(read, &section),
    };
    match copies.push(copy) {
        Ok(()) => Ok(()),
        Err(_) => Err(NO_MEMORY),
    }
}

/// Returns the greatest number of a section among the copies.
pub fn last_section(copies: &[SectionCopy]) -> u16
    ensures { result ≡ last_section copies.now }
{
    let mut last = 0u16;
    for copy in copies {
        if last < copy.section.key.sect {
            last = copy.section.key.sect;
        }
    }
    last
}

/// Returns the copy with the greater rank, or `best` if both have the same rank.
fn better_of(best: &Option<SectionCopy>, copy: &SectionCopy) -> SectionCopy
    ensures { (cs : List SectionCopy) → IsBest cs best.now
        → IsBest (cs ++ copy.now ∷ []) (Some result) }
{
    match best {
        None => *copy,
        Some(other) => {
            if copy.rank() <= other.rank() {
                return *other;
            }
            *copy
        }
    }
}

/// Returns the best copy of section `sect`. If the section is on an image more than once, only the
/// first copy is considered, since that is the one that `recover_section` reads.
pub fn best_copy(copies: &[SectionCopy], sect: u16) -> Option<SectionCopy>
    ensures { IsBest (firsts sect None copies.now) result }
{
    let mut best = None;
    let mut last = None;
    for copy in copies {
        if copy.section.key.sect == sect && last != Some(copy.image) {
            best = Some(better_of(&best, copy));
            last = Some(copy.image);
        }
    }
    best
}

/// Returns the form of the file's blocks that the first label with a form records.
fn recorded_form(copies: &[SectionCopy]) -> Option<Known>
    ensures { result ≡ recorded_form copies.now }
{
    for copy in copies {
        if let Some(form) = copy.section.form {
            return Some(form);
        }
    }
    None
}

/// Returns the form of the first section without HDR2.
fn absent_form(copies: &[SectionCopy]) -> Option<Known>
    ensures { result ≡ absent_form_in copies.now }
{
    for copy in copies {
        if copy.section.has_no_second {
            let head = absent_head2();
            return Known::from_parts(head.format, head.rec_len, head.offset, copy.section.file_id);
        }
    }
    None
}

/// Returns the form of the file's blocks: that which a label records, or else that of a section
/// without HDR2.
pub fn form_of_file(copies: &[SectionCopy]) -> Option<Known>
    ensures { result ≡ form_of_file copies.now }
{
    recorded_form(copies).or(absent_form(copies))
}
