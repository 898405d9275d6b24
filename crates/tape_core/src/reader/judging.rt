//! Judges the expected block, and the block whose first parts were delivered.

ghost use Rattle.std.specs.Prelude.{◌≡◌, Bool, List, ◌<◌, ◌≤◌, ◌⊎◌, length, Ok, Some, OnOk, IfOk};
ghost use Rattle.tape_blocks.specs.{Block.Portion, Block.Holds, Spans.InOrder, Judged.judged};
ghost use Rattle.tape_set.specs.{Lawful.most_blocks, Position.block_of, Position.part_of};
ghost use Rattle.tape_core.specs.State.{ToldFits, State};
ghost use Rattle.tape_core.specs.Table as Table;
ghost use Rattle.tape_core.specs.Parts as Parts';

use crate::checkpoint::Known;
use crate::event::{Heading, Reason};
use tape_blocks::{Parts, Shape, after, check_block, own_offset};
use tape_label::Format;

/// Returns whether `block`, as block number `number`, leaves a record unfinished, or the reason why
/// it is refused. `part` is the number of its parts already delivered; `begun` says whether a
/// record is unfinished before the next one.
#[inline(always)]
pub(crate) fn judge_awaited(
    form: &Known,
    number: u32,
    part: u32,
    begun: bool,
    block: &[u8],
) -> Result<bool, Reason>
    requires told { ToldFits begun (Some form.now) }
    ensures table { (core : State) (heading : Heading) → block_of core.position ≡ number
        → part_of core.position ≡ part → core.begun ≡ begun
        → Table.at_awaited core heading form.now block.now
        ≡ Table.found_awaited core heading form.now result }
    ensures more { OnOk result (number < most_blocks) }
    ensures told { IfOk result (λ end. ToldFits end (Some form.now)) }
    ensures holds { IfOk result (λ end. (begun : Bool) × (parts : List Portion)
        × Holds form.now.format form.now.rec_len form.now.offset block.now parts
        × InOrder begun parts end
        × ((part ≡ 0) ⊎ (part < length parts))
        × (length parts ≤ length block.now)) }
{
    if number == u32::MAX {
        return Err(Reason::SectionDiffers);
    }
    let before = if part == 0 {
        begun
    } else {
        goes_on_at(form.format, form.offset, block)
    };
    match check_block(&shape_of(form), before, block) {
        Err(fault) => Err(Reason::BadBlock(fault)),
        Ok(_) if part > 0 && other_front(form, part, begun, block) => Err(Reason::SectionDiffers),
        Ok(end) => Ok(end),
    }
}

/// Returns the shape of the file's blocks, as far as readers check it.
pub fn shape_of(known: &Known) -> Shape
    ensures format { result.format ≡ known.now.format }
    ensures rec_len { result.rec_len ≡ known.now.rec_len }
    ensures offset { result.offset ≡ known.now.offset }
    ensures block_len { result.block_len ≡ 0 }
    ensures pad_full { result.pad_full ≡ Bool.false }
{
    Shape {
        format: known.format,
        block_len: 0,
        rec_len: known.rec_len,
        offset: known.offset,
        pad_full: false,
    }
}

/// Returns whether the block's first unit continues a record: in format S its indicator is `2` or
/// `3`, and in format V the code in its record descriptor word is 2 or 3.
pub fn goes_on_at(format: Format, offset: u8, block: &[u8]) -> bool
    ensures { result ≡ Parts'.goes_on_at format offset block.now }
{
    match format {
        Format::Fixed | Format::Counted | Format::Undefined => false,
        Format::Variable => {
            let units = after(own_offset(format, offset, block), block);
            matches!(units, [_, _, 2 | 3, 0, ..])
        }
        Format::Spanned => {
            let offset = usize::from(offset);
            if offset >= block.len() {
                return false;
            }
            matches!(block[offset], b'2' | b'3')
        }
    }
}

/// Returns whether `block`, already checked, differs from the block whose first `part` parts were
/// delivered: it has no further part, or a record is unfinished after them although `begun` is
/// false, or the converse.
#[inline(always)]
fn other_front(known: &Known, part: u32, begun: bool, block: &[u8]) -> bool
    requires some { 0 < part }
    requires checked { (before : Bool) × (end : Bool)
        × (judged known.now.format known.now.rec_len known.now.offset before block.now ≡ Ok end) }
    ensures { result ≡ Parts'.other_front known.now part begun block.now }
{
    let mut going = goes_on_at(known.format, known.offset, block);
    let mut left = part;
    for each in Parts::new(&shape_of(known), block) {
        if left == 0 {
            return going != begun;
        }
        going = each.span.leaves();
        left -= 1;
    }
    true
}
