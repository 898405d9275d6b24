//! Writes into a block that has room.

ghost use Rattle.std.specs.Prelude.{◌≡◌, ◌≢◌, ◌+◌, ◌<◌, ◌≤◌, ◌++◌, length, take, true};
ghost use Rattle.tape_label.specs.{Digits.digits, Formats.is_standard};
ghost use Rattle.tape_blocks.specs.Block.{spelling, head_len};

use crate::parts::Span;
use crate::writing::head_len;
use tape_label::{Format, digits_of};

/// Writes `text` at offset `place`.
fn put(block: &mut [u8], place: usize, text: &[u8])
    requires { place + length text.now ≤ length block.old }
    ensures front { take (place + length text.now) block.new ≡ take place block.old ++ text.now }
    ensures len { length block.new ≡ length block.old }
{
    block[place..place + text.len()].copy_from_slice(text);
}

/// Writes `count` in four digits at offset `place`.
fn put_count(block: &mut [u8], place: usize, count: usize)
    requires room { place + 4 ≤ length block.old }
    requires fits { count < 10000 }
    ensures front { take (place + 4) block.new ≡ take place block.old ++ digits 4 count }
    ensures len { length block.new ≡ length block.old }
{
    put(block, place, &digits_of::<4>(count as u64));
}

/// Writes the unit of a part at offset `place`.
pub(crate) fn put_unit(block: &mut [u8], place: usize, format: Format, span: Span, bytes: &[u8])
    requires room { place + (head_len format + length bytes.now) ≤ length block.old }
    requires standard { is_standard format ≡ true }
    requires fits { format ≢ Format.Fixed → head_len format + length bytes.now < 10000 }
    ensures front { take (place + (head_len format + length bytes.now)) block.new
        ≡ take place block.old ++ spelling format (record { span = span; bytes = bytes.now }) }
    ensures len { length block.new ≡ length block.old }
{
    match format {
        Format::Fixed => {}
        Format::Counted => put_count(block, place, 4 + bytes.len()),
        Format::Spanned => {
            put(block, place, &[span.indicator()]);
            put_count(block, place + 1, 5 + bytes.len());
        }
        Format::Undefined | Format::Variable => unreachable!(),
    }
    put(block, place + head_len(format), bytes);
}
