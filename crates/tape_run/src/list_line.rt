//! The line of one item, built without allocating.

ghost use Rattle.std.specs.Prelude.{◌≡◌, ◌<◌, ◌≤◌, ◌+◌, ◌-◌, ◌^◌, ◌++◌, ℕ, List, length};
ghost use Rattle.arrayvec.specs.ArrayVec.{array_vec_len};
ghost use Rattle.tape_image.specs.{Reader.tape_item, Tape.IsTapeItem};
ghost use Rattle.tape_label.specs.{Digits.digits, Head1.HeadFits, Head2.Head2Fits, Labels.IsLabel};
ghost use Rattle.tape_label.specs.Kinds.{identifier};
ghost use Rattle.tape_run.specs.ListLine.{item_number, head_text, head2_text, label_text};
ghost use Rattle.tape_run.specs.ListLine.{item_text, line_of};

use crate::text::{put, put_identifier};
use arrayvec::ArrayVec;
use tape_image::Item;
use tape_label::{Head1, Head2, Kind, Label, digits_of};

/// The length of the longest line, which is that of a trailer.
pub type Line = ArrayVec<u8, 64>;

/// Returns the line about item `number`, counted from 1.
pub fn line_of(number: u64, item: Item<'_>) -> Line
    requires number { number < 10 ^ 10 }
    requires item { IsTapeItem (tape_item item) }
    ensures { result.items ≡ line_of number (tape_item item.entry) }
{
    let mut line = Line::new();
    put_item_number(&mut line, number);
    put(&mut line, b" ");
    put_item(&mut line, item);
    put(&mut line, b"\n");
    line
}

/// Appends the number of an item, in at least six digits.
fn put_item_number(line: &mut Line, number: u64)
    requires empty { array_vec_len line.old ≡ 0 }
    requires fits { number < 10 ^ 10 }
    ensures items { line.new.items ≡ line.old.items ++ item_number number }
    ensures len { array_vec_len line.new ≤ 10 }
{
    match number {
        0..1_000_000 => put_number::<6>(line, number),
        1_000_000..10_000_000 => put_number::<7>(line, number),
        10_000_000..100_000_000 => put_number::<8>(line, number),
        100_000_000..1_000_000_000 => put_number::<9>(line, number),
        _ => put_number::<10>(line, number),
    }
}

/// Appends the text about an item: a block as the label that it reads as, otherwise by its length.
fn put_item(line: &mut Line, item: Item<'_>)
    requires room { array_vec_len line.old ≤ 11 }
    requires fits { IsTapeItem (tape_item item) }
    ensures items { line.new.items ≡ line.old.items ++ item_text (tape_item item.entry) }
    ensures len { array_vec_len line.new ≤ 63 }
{
    match item {
        Item::Block(bytes) => match tape_label::read_label(bytes) {
            Ok(label) => put_label(line, &label),
            Err(_) => {
                put(line, b"BLOCK ");
                put_number::<5>(line, bytes.len() as u64);
            }
        },
        Item::Bad => put(line, b"BAD"),
        Item::Mark => put(line, b"MARK"),
    }
}

/// Appends a label that was read from a block.
fn put_label(line: &mut Line, label: &Label)
    requires room { array_vec_len line.old ≤ 11 }
    requires read { (block : List ℕ) × IsLabel block label.now }
    ensures items { line.new.items ≡ line.old.items ++ label_text label.now }
    ensures len { array_vec_len line.new ≤ 63 }
{
    match label {
        Label::Vol1(label) => {
            put(line, b"VOL1 ");
            put_identifier(line, &label.volume);
        }
        Label::Head1(label) => {
            put(line, b"HDR1 ");
            put_head(line, label);
        }
        Label::Second(kind, label) => put_head2(line, *kind, label),
        Label::Trail1(label) => {
            put(line, if label.eof { b"EOF1 " } else { b"EOV1 " });
            put_head(line, &label.head);
            put(line, b" ");
            put_number::<6>(line, u64::from(label.blocks));
        }
    }
}

/// Appends file, file set, section and sequence number.
fn put_head(line: &mut Line, head: &Head1)
    requires room { array_vec_len line.old ≤ 16 }
    requires fits { HeadFits head.now }
    ensures items { line.new.items ≡ line.old.items ++ head_text head.now }
    ensures len { array_vec_len line.new ≡ array_vec_len line.old + 34 }
{
    put_identifier(line, &head.file_id);
    put(line, b" ");
    put_identifier(line, &head.set_id);
    put(line, b" ");
    put_number::<4>(line, u64::from(head.sect));
    put(line, b" ");
    put_number::<4>(line, u64::from(head.sequence));
}

/// Appends a second label: its identifier, format, lengths and buffer offset.
fn put_head2(line: &mut Line, kind: Kind, label: &Head2)
    requires room { array_vec_len line.old ≤ 11 }
    requires fits { Head2Fits label.now }
    ensures items { line.new.items ≡ line.old.items ++ head2_text kind label.now }
    ensures len { array_vec_len line.new ≤ 63 }
{
    put(line, identifier(kind));
    put(line, b" ");
    line.push(label.format.letter());
    put(line, b" ");
    put_number::<5>(line, u64::from(label.block_len));
    put(line, b" ");
    put_number::<5>(line, u64::from(label.rec_len));
    put(line, b" ");
    put_number::<2>(line, u64::from(label.offset));
}

/// Returns the four characters that name a kind of label.
fn identifier(kind: Kind) -> &'static [u8; 4]
    ensures { result.now ≡ identifier kind }
{
    match kind {
        Kind::Vol1 => b"VOL1",
        Kind::Hdr1 => b"HDR1",
        Kind::Hdr2 => b"HDR2",
        Kind::Eof1 => b"EOF1",
        Kind::Eof2 => b"EOF2",
        Kind::Eov1 => b"EOV1",
        Kind::Eov2 => b"EOV2",
    }
}

/// Appends a number in exactly W digits.
fn put_number<const W: usize>(line: &mut Line, number: u64)
    requires room { array_vec_len line.old + W ≤ 64 }
    requires fits { number < 10 ^ W }
    ensures items { line.new.items ≡ line.old.items ++ digits W number }
    ensures len { array_vec_len line.new ≡ array_vec_len line.old + W }
{
    put(line, &digits_of::<W>(number));
}
