//! Packs whole lists of records.

ghost use Rattle.std.specs.Prelude.{◌≡◌, ◌≢◌, List, [], ◌∷◌, ◌++◌, OnOk, IfOk, IfErr};
ghost use Rattle.tape_blocks.specs.Packing.{Given, IsWritable, emptied};
ghost use Rattle.tape_blocks_tests.specs.Records.{contents, IsRefusedFor, RefusesRecord};
ghost use Rattle.tape_blocks_tests.specs.Records.{PutsRecord};
ghost use Rattle.tape_blocks.specs.Records.{AreRecordsOf};
ghost use Rattle.tape_blocks.specs.Tight.{Packs};

use std::alloc::Global;
use tape_blocks::{Offer, PackFault, Packer, Shape};

/// Appends a copy of the packer's block to `blocks`, if it has one.
fn give(alloc: Global, packer: &mut Packer, blocks: &mut Vec<Vec<u8>>) -> Result<(), PackFault>
    ensures err { IfErr result (λ e. e ≡ PackFault.OutOfMemory) }
    ensures taken { OnOk result (packer.new ≡ emptied packer.old) }
    ensures none { OnOk result (packer.old.parts ≡ []
        → contents blocks.new.items ≡ contents blocks.old.items) }
    ensures some { OnOk result (packer.old.parts ≢ [] → (text : List _)
        × (contents blocks.new.items ≡ contents blocks.old.items ++ text ∷ [])
        × Given packer.old text) }
{
    if let Some(block) = packer.take_block() {
        let mut copy = Vec::new(alloc);
        if copy.extend_from_slice(block).is_err() || blocks.push(copy).is_err() {
            return Err(PackFault::OutOfMemory);
        }
    }
    Ok(())
}

/// Packs a whole record, and copies each block when it is ready.
fn put_record(
    alloc: Global,
    packer: &mut Packer,
    blocks: &mut Vec<Vec<u8>>,
    whole: &[u8],
) -> Result<(), PackFault>
    ensures ok { OnOk result (PutsRecord packer.old (contents blocks.old.items) whole.now
        packer.new (contents blocks.new.items)) }
    ensures err { IfErr result (RefusesRecord packer.old whole.now) }
{
    let mut rest = whole;
    'offers: loop {
        match packer.offer(rest)? {
            Offer::Taken => return Ok(()),
            Offer::BlockReady(taken) => {
                give(alloc, packer, blocks)?;
                rest = &rest[taken..];
            }
        }
    }
}

/// Packs `records` and returns the blocks, in order: one at each `BlockReady`, and the last one at
/// the end.
///
/// The parts of the blocks join into the records, and no block was closed that had room for the
/// next part.
///
/// # Errors
///
/// Returns `ShapeRange` if [`Packer::new`] returns it, `RecordLength` if a record has a length that
/// the shape does not allow, and `OutOfMemory` if an allocation fails.
pub fn pack_all(alloc: Global, shape: Shape, records: &[Vec<u8>]) -> Result<Vec<Vec<u8>>, PackFault>
    ensures writable { IfOk result (λ _. IsWritable shape) }
    ensures packed { IfOk result (λ blocks.
        Packs shape (contents records.now) (contents blocks.items)) }
    ensures lengths { IfOk result (λ _. AreRecordsOf shape (contents records.now)) }
    ensures refused { IfErr result (IsRefusedFor shape (contents records.now)) }
{
    let mut packer = Packer::new(alloc, shape)?;
    let mut blocks = Vec::new(alloc);
    for record in records {
        put_record(alloc, &mut packer, &mut blocks, record.as_slice())?;
    }
    give(alloc, &mut packer, &mut blocks)?;
    Ok(blocks)
}
