//! The parts before a position: the definition as a plain program, for testing faster programs.

ghost use Rattle.std.specs.Prelude.{◌≡◌, ◌++◌, IfOk};
ghost use Rattle.tape_blocks.specs.Tight.{parts_of_all};
ghost use Rattle.tape_set.specs.Layout.{nth};
ghost use Rattle.tape_set.specs.Before.{section_parts, blocks_of, parts_at, parts_up_to};
ghost use Rattle.tape_set.specs.Before.{parts_before, before};

use crate::list::{copied, first, nth};
use std::alloc::{AllocError, Global};
use tape_set::{BlockLayout, Layout, PartLayout, Position, SectionLayout};

/// Returns the parts of file `file` before `position`: those of the earlier sections, of the
/// earlier blocks in the same section, and the delivered parts of the same block. Returns an empty
/// list if the layout has no such file.
///
/// # Errors
///
/// Returns `AllocError` if an allocation fails.
pub fn before(
    alloc: Global,
    layout: &Layout,
    file: u16,
    position: &Position,
) -> Result<Vec<PartLayout>, AllocError>
    ensures { IfOk result (λ v. v.items ≡ before layout.now file position.now) }
{
    let mut parts = Vec::new(alloc);
    if let Some(file) = nth(layout.files.as_slice(), usize::from(file)) {
        put_before(alloc, &mut parts, file.sections.as_slice(), position)?;
    }
    Ok(parts)
}

/// Appends the parts before `position` in a file with the sections `sections`.
fn put_before(
    alloc: Global,
    parts: &mut Vec<PartLayout>,
    sections: &[SectionLayout],
    position: &Position,
) -> Result<(), AllocError>
    ensures { IfOk result (λ _.
        parts.new.items ≡ parts.old.items ++ parts_before sections.now position.now) }
{
    match *position {
        Position::Finished => put_sections(alloc, parts, sections),
        Position::Awaits { sect, block, part } => {
            let sect = usize::from(sect);
            put_sections(alloc, parts, first(sections, sect.saturating_sub(1)))?;
            put_up_to(alloc, parts, blocks_at(sections, sect), block, part)
        }
    }
}

/// Returns the data blocks of section number `sect`, counted from 1, or no blocks if there is no
/// such section.
fn blocks_at(sections: &[SectionLayout], sect: usize) -> &[BlockLayout]
    ensures { result.now ≡ blocks_of (nth sections.now sect) }
{
    match nth(sections, sect) {
        Some(section) => section.blocks.as_slice(),
        None => &[],
    }
}

/// Appends the parts of the blocks before block number `block`, and the first `part` parts of that
/// block.
fn put_up_to(
    alloc: Global,
    parts: &mut Vec<PartLayout>,
    blocks: &[BlockLayout],
    block: u32,
    part: u32,
) -> Result<(), AllocError>
    ensures { IfOk result (λ _.
        parts.new.items ≡ parts.old.items ++ parts_up_to blocks.now block part) }
{
    let under_way = parts_at(blocks, block as usize);
    put_blocks(alloc, parts, first(blocks, block as usize))?;
    put_parts(alloc, parts, first(under_way, part as usize))
}

/// Returns the parts of block number `block`, counted from 0, or no parts if there is no such
/// block.
fn parts_at(blocks: &[BlockLayout], block: usize) -> &[PartLayout]
    ensures { result.now ≡ parts_at blocks.now block }
{
    match blocks.get(block) {
        Some(found) => found.parts.as_slice(),
        None => &[],
    }
}

/// Appends all parts of `sections`.
fn put_sections(
    alloc: Global,
    parts: &mut Vec<PartLayout>,
    sections: &[SectionLayout],
) -> Result<(), AllocError>
    ensures { IfOk result (λ _. parts.new.items ≡ parts.old.items ++ section_parts sections.now) }
{
    for section in sections {
        put_blocks(alloc, parts, section.blocks.as_slice())?;
    }
    Ok(())
}

/// Appends all parts of `blocks`.
fn put_blocks(
    alloc: Global,
    parts: &mut Vec<PartLayout>,
    blocks: &[BlockLayout],
) -> Result<(), AllocError>
    ensures { IfOk result (λ _. parts.new.items ≡ parts.old.items ++ parts_of_all blocks.now) }
{
    for data in blocks {
        put_parts(alloc, parts, data.parts.as_slice())?;
    }
    Ok(())
}

/// Appends copies of `parts`.
fn put_parts(
    alloc: Global,
    parts: &mut Vec<PartLayout>,
    more: &[PartLayout],
) -> Result<(), AllocError>
    ensures { IfOk result (λ _. parts.new.items ≡ parts.old.items ++ more.now) }
{
    for one in more {
        let bytes = copied(alloc, one.bytes.as_slice())?;
        parts.push(PartLayout {
            span: one.span,
            bytes,
        })?;
    }
    Ok(())
}
