//! The records before a fault of a block: where they end.

ghost use Rattle.std.specs.Prelude.{◌≡◌, ◌≤◌, ◌==◌, length};
ghost use Rattle.std.specs.List.{suffix_len};
ghost use Rattle.tape_run.specs.SalvageRecords.{fault_in, front_to, padding_len, records_end};
ghost use Rattle.tape_run.specs.SalvageRecords.{taken_end};

use tape_blocks::BlockFault;
use tape_core::Known;
use tape_label::Format;

/// Returns how often `byte` is repeated at the end of the bytes.
fn run_of(byte: u8, bytes: &[u8]) -> usize
    ensures value { result ≡ suffix_len (λ b. b == byte) bytes.now }
    ensures inside { result ≤ length bytes.now }
{
    let mut count = bytes.len();
    'same: while count > 0 && bytes[count - 1] == byte {
        count -= 1;
    }
    bytes.len() - count
}

/// Returns the number of NULs, or of spaces, at the end of the block.
fn padding_len(block: &[u8]) -> usize
    ensures value { result ≡ padding_len block.now }
    ensures inside { result ≤ length block.now }
{
    run_of(0, block).max(run_of(b' ', block))
}

/// Returns where records of the given length end of which one contains a byte before `start`, if
/// they end at `end` with those that do not.
fn records_end(rec_len: usize, start: usize, end: usize) -> usize
    requires { 1 ≤ rec_len }
    ensures { result ≡ records_end rec_len start end }
{
    if start <= end {
        end - (end - start) / rec_len * rec_len
    } else {
        end
    }
}

/// Returns where the records end that are taken from a block with a fault at `place`.
fn taken_end(form: &Known, block: &[u8], place: usize) -> usize
    ensures { result
        ≡ taken_end form.now.format form.now.rec_len form.now.offset block.now place }
{
    match form.format {
        Format::Fixed => {
            let start = usize::from(form.offset).max(block.len() - padding_len(block));
            records_end(form.rec_len as usize, start, place)
        }
        _ => place,
    }
}

/// Returns the fault of a block, with the place where the records end that are taken from it.
pub fn fault_in(form: &Known, block: &[u8], fault: BlockFault) -> BlockFault
    ensures { result ≡ fault_in form.now block.now fault }
{
    BlockFault {
        place: taken_end(form, block, fault.place),
        cause: fault.cause,
    }
}

/// Returns the bytes of a block in which the records before `place` are looked for: in format F
/// those before it, otherwise all, since the units of format V depend on the length of the block.
pub fn front_to(format: Format, block: &[u8], place: usize) -> &[u8]
    ensures value { result.now ≡ front_to format block.now place }
    ensures short { length result.now ≤ length block.now }
{
    match format {
        Format::Fixed if place < block.len() => &block[..place],
        _ => block,
    }
}
