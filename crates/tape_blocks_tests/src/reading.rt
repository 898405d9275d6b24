//! Reads records back from the blocks that contain them, with plain programs.

ghost use Rattle.std.specs.Prelude.{◌≡◌, List, ℕ, map, IfOk, IfErr};
ghost use Rattle.tape_blocks.specs.Block.{Portion, Holds};
ghost use Rattle.tape_blocks.specs.Laws.{HoldRecords};
ghost use Rattle.tape_blocks.specs.Checked.{IsChecked};
ghost use Rattle.tape_blocks_tests.specs.Records.{contents, IsRefusedFor};

use crate::packing::pack_all;
use std::alloc::{AllocError, Global};
use tape_blocks::{PackFault, Parts, Shape, Span};

/// Returns the spans of the parts of a checked block, in order: a `for` over the parts yields
/// exactly the parts of the block.
///
/// # Errors
///
/// Returns an error only if an allocation fails.
pub fn spans_of(alloc: Global, shape: &Shape, block: &[u8]) -> Result<Vec<Span>, AllocError>
    requires { IsChecked shape.now block.now }
    ensures { IfOk result (λ spans. (parts : List Portion)
        → Holds shape.now.format shape.now.rec_len shape.now.offset block.now parts
        → spans.items ≡ map (λ p. p.span) parts) }
{
    let mut spans = Vec::new(alloc);
    for part in Parts::new(shape, block) {
        spans.push(part.span)?;
    }
    Ok(spans)
}

/// Returns the records in `blocks`: the parts of each block are joined to those before. Blocks into
/// which records were packed contain those records (`laws::packed_blocks_hold`).
///
/// # Errors
///
/// Returns an error only if an allocation fails.
pub fn records_in_blocks(
    alloc: Global,
    shape: &Shape,
    blocks: &[Vec<u8>],
) -> Result<Vec<Vec<u8>>, AllocError>
    requires { (records : List (List ℕ)) × HoldRecords shape.now (contents blocks.now) records }
    ensures { IfOk result (λ back. (records : List (List ℕ))
        → HoldRecords shape.now (contents blocks.now) records → contents back.items ≡ records) }
{
    let mut records = Vec::new(alloc);
    let mut record = Vec::new(alloc);
    for block in blocks {
        for part in Parts::new(shape, block) {
            record.extend_from_slice(part.bytes)?;
            if !part.span.leaves() {
                records.push(record)?;
                record = Vec::new(alloc);
            }
        }
    }
    Ok(records)
}

/// Packs records, and reads them back from their blocks: the result is equal to the input.
///
/// # Errors
///
/// The errors are those of [`pack_all`].
pub fn packed_again(
    alloc: Global,
    shape: Shape,
    records: &[Vec<u8>],
) -> Result<Vec<Vec<u8>>, PackFault>
    ensures same { IfOk result (λ back. contents back.items ≡ contents records.now) }
    ensures refused { IfErr result (IsRefusedFor shape (contents records.now)) }
{
    let blocks = pack_all(alloc, shape, records)?;
    match records_in_blocks(alloc, &shape, blocks.as_slice()) {
        Ok(back) => Ok(back),
        Err(_) => Err(PackFault::OutOfMemory),
    }
}
