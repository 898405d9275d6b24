//! Which blocks of a file's sections are taken from other images than the rest.

ghost use Rattle.std.specs.Prelude.{IfErr};
ghost use Rattle.tape_run.specs.Checked.{IsCheckFault};

use crate::extract::images::ImageSource;
use crate::fault::{EngineFault, NO_MEMORY};
use crate::merge::candidate::Candidate;
use crate::salvage::SalvageTask;
use crate::salvage::aligned::{Aligned, Compared, compare};
use crate::salvage::copies::{SectionCopy, best_copy, copies_on, last_section};
use crate::salvage::fill::{Fill, push_fills};
use crate::salvage::joinable::{contrary, is_wanting, joinable};
use std::alloc::{AllocError, Global};
use std::io::Read;
use tape_image::{ImageBuffer, ImageReader};
use tape_label::Field;

/// How the copies of a file's sections complete each other.
#[derive(Drop)]
pub struct Joins {
    /// The runs of blocks that are taken from other images, in the order of the images that do not
    /// have them, and of their places there.
    pub fills: Vec<Fill>,
    /// The lines about them, and about copies that contradict each other.
    pub lines: Vec<u8>,
}

/// Finds the blocks that complete the copies of a file's sections. If copies of a section
/// contradict each other, none completes another.
///
/// Each image is read once, and again for each section that it may complete. Allocates 100,000
/// bytes for each image that is read then, and for a block.
///
/// # Errors
///
/// `Run(OutOfMemory)`.
pub fn find_joins<R: Read + Drop, L: ImageSource<R>>(
    alloc: Global,
    task: &SalvageTask,
    images: &mut L,
) -> Result<Joins, EngineFault>
    ensures fault { IfErr result IsCheckFault }
{
    let copies = find_again(alloc, &task.set_id, task.file, images)?;
    match joins_of(alloc, copies.as_slice(), images) {
        Ok(joins) => Ok(joins),
        Err(_) => Err(NO_MEMORY),
    }
}

/// Finds the copies of the file's sections on the images.
pub fn find_again<R: Read + Drop, L: ImageSource<R>>(
    alloc: Global,
    set_id: &Field<6>,
    file: u16,
    images: &mut L,
) -> Result<Vec<SectionCopy>, EngineFault>
    ensures fault { IfErr result IsCheckFault }
{
    let mut copies = Vec::new(alloc);
    for number in 0..images.count() {
        let Ok(image) = images.mount(number) else {
            return Err(NO_MEMORY);
        };
        if let Some(device) = image {
            let mut device = device;
            copies_on(alloc, set_id, file, number, &mut device, &mut copies)?;
        }
    }
    Ok(copies)
}

/// Finds the blocks that complete these copies.
fn joins_of<R: Read + Drop, L: ImageSource<R>>(
    alloc: Global,
    copies: &[SectionCopy],
    images: &mut L,
) -> Result<Joins, AllocError> {
    let mut joins = Joins {
        fills: Vec::new(alloc),
        lines: Vec::new(alloc),
    };
    let mut block = Candidate::new(alloc)?;
    for before in 0..last_section(copies) {
        let sect = before + 1;
        if let Some(best) = best_copy(copies, sect) {
            if is_wanting(&best) {
                join_section(alloc, copies, &best, images, &mut block, &mut joins)?;
            }
        }
    }
    joins
        .fills
        .sort_by_key(|fill| (fill.gap.image, fill.gap.from))?;
    Ok(joins)
}

/// Finds the blocks that complete a copy of the section of `best`, or with which it has more than
/// that one. If two of the copies contradict each other, none completes another.
fn join_section<R: Read + Drop, L: ImageSource<R>>(
    alloc: Global,
    copies: &[SectionCopy],
    best: &SectionCopy,
    images: &mut L,
    block: &mut Candidate,
    joins: &mut Joins,
) -> Result<(), AllocError> {
    let sect = best.section.key.sect;
    let mut fills = Vec::new(alloc);
    let (joined, compared) = compare_section(alloc, copies, sect, images, block, &mut fills)?;
    let own = joined.as_slice();
    if let Some((one, other)) = compared.differ {
        // What closes otherwise than the best copy is reported with the other conflicts.
        let is_best = own.first().is_some_and(|base| base.image == best.image);
        if is_best && contrary(own).is_some() {
            return Ok(());
        }
        return push_contrary(alloc, own, one, other, &mut joins.lines);
    }
    let joins_to = |base: &SectionCopy| base.rank_with(compared.read) > best.rank();
    if compared.completes || own.first().is_some_and(joins_to) {
        push_fills(alloc, fills.as_slice(), &mut joins.lines)?;
        joins.fills.extend_from_slice(fills.as_slice())?;
    }
    Ok(())
}

/// Compares the copies of section `sect` that may complete each other. Returns them, the one first
/// that the others complete, and the result. If they cannot complete one, since it does not close
/// and its data may begin elsewhere, they are compared again to complete the next.
pub fn compare_section<R: Read + Drop, L: ImageSource<R>>(
    alloc: Global,
    copies: &[SectionCopy],
    sect: u16,
    images: &mut L,
    block: &mut Candidate,
    fills: &mut Vec<Fill>,
) -> Result<(Vec<SectionCopy>, Compared), AllocError> {
    let mut passed = Vec::new(alloc);
    let mut own = joinable(alloc, copies, sect, passed.as_slice())?;
    let mut compared = compare_copies(alloc, own.as_slice(), images, block, fills)?;
    for _ in copies {
        if compared.is_base {
            break;
        }
        let Some(base) = own.first() else {
            break;
        };
        passed.push(base.image)?;
        own = joinable(alloc, copies, sect, passed.as_slice())?;
        compared = compare_copies(alloc, own.as_slice(), images, block, fills)?;
    }
    Ok((own, compared))
}

/// Compares the copies of a section, each read from its image. Adds to `fills` the blocks that
/// complete the first. What cannot be opened again completes nothing.
fn compare_copies<R: Read + Drop, L: ImageSource<R>>(
    alloc: Global,
    copies: &[SectionCopy],
    images: &mut L,
    block: &mut Candidate,
    fills: &mut Vec<Fill>,
) -> Result<Compared, AllocError> {
    let compared = Compared {
        is_base: true,
        completes: false,
        read: 0,
        differ: contrary(copies).map(|number| (0, number)),
    };
    if copies.len() < 2 || compared.differ.is_some() {
        return Ok(compared);
    }
    let mut devices = Vec::new(alloc);
    for copy in copies {
        let Some(device) = images.mount(copy.image)? else {
            return Ok(compared);
        };
        devices.push(device)?;
    }
    let mut aligned = Vec::new(alloc);
    for (device, copy) in devices.iter_mut().zip(copies.iter()) {
        let buffer = ImageBuffer::new(alloc)?;
        let mut reading = Aligned::new(ImageReader::over(buffer, device), *copy);
        reading.reach();
        aligned.push(reading)?;
    }
    compare(aligned.as_mut_slice(), block, fills)
}

/// Appends the line about two copies of a section that contradict each other.
fn push_contrary(
    alloc: Global,
    copies: &[SectionCopy],
    one: usize,
    other: usize,
    lines: &mut Vec<u8>,
) -> Result<(), AllocError> {
    if let (Some(one), Some(other)) = (copies.get(one), copies.get(other)) {
        let sect = one.section.key.sect;
        let (one, other) = (one.image.saturating_add(1), other.image.saturating_add(1));
        let line = format!(in alloc; "CONFLICT {sect} {one} {other}\n")?;
        lines.extend_from_slice(line.as_bytes())?;
    }
    Ok(())
}
