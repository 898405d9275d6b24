//! The items of an image, as entries of a table.

ghost use Rattle.std.specs.Prelude.{◌≡◌, ◌≤◌, length, IfSome};
ghost use Rattle.tape_image.specs.{Reader.tape_item, Spelling.end_len};
ghost use Rattle.tape_c.specs.Items.{Tables, kind_number, last_entry};

use crate::end::{ALL, End, FULL, NO_MEMORY, give_nothing};
use byteorder::{ByteOrder, LittleEndian};
use std::alloc::Global;
use tape_image::{Ending, ImageReader, Item};

/// An item of an image.
#[repr(C)]
#[derive(Clone, Copy, Drop)]
pub struct Entry {
    /// The offset of the item in the image: that of its first length word.
    pub place: u64,
    /// The number of bytes of a block or bad block, which begin at `place + 4`; 0 for a tape mark.
    pub length: u32,
    /// 1 for a block, 2 for a bad block, 3 for a tape mark.
    pub kind: u32,
}

/// Writes the items of an image to `out`, as many as it has room for. If an item is left, `place`
/// of the result is where the next call has to begin.
///
/// Allocates the image reader's buffer.
#[unsafe(no_mangle)]
pub extern "C" fn tape_items(alloc: Global, image: &[u8], out: &mut [Entry]) -> End
    ensures { Tables image.now out.old out.new result }
{
    let mut device = image;
    let Ok(mut reader) = ImageReader::new(alloc, &mut device) else {
        return give_nothing(NO_MEMORY);
    };
    let mut count = 0;
    'items: loop {
        let place = reader.place();
        match reader.next() {
            Ok(Some(item)) => {
                let kind = kind_number(item);
                if count == out.len() {
                    return End {
                        count,
                        needed: count + 1,
                        place,
                        state: FULL,
                    };
                }
                out[count] = last_entry(&image[..reader.place() as usize], kind);
                count += 1;
            }
            Ok(None) => {
                return End {
                    count,
                    needed: count,
                    place: reader.place() - marker_len(reader.ending()),
                    state: ALL,
                };
            }
            Err(fault) => {
                return End {
                    count,
                    needed: count,
                    place: fault.place,
                    state: u32::from(fault.cause.number()),
                };
            }
        }
    }
}

/// Returns the number of bytes of the end-of-medium marker, if the medium ended with one.
fn marker_len(ending: Option<Ending>) -> u64
    ensures { IfSome ending (λ ending. result ≡ end_len ending) }
{
    match ending {
        Some(Ending::Marked) => 4,
        _ => 0,
    }
}

/// Returns the number of the item's kind.
fn kind_number(item: Item<'_>) -> u32
    ensures { result ≡ kind_number (tape_item item.entry) }
{
    match item {
        Item::Block(_) => 1,
        Item::Bad => 2,
        Item::Mark => 3,
    }
}

/// Returns the entry of the item that ends with `read`, which are the bytes of the image up to its
/// end. The reader does not report the length of a bad block, so it is taken from the last word of
/// the item, which equals the first one.
fn last_entry(read: &[u8], kind: u32) -> Entry
    requires { 4 ≤ length read.now }
    ensures { result ≡ last_entry read.now kind }
{
    let word = LittleEndian::read_u32(&read[read.len() - 4..]);
    let length = word % 0x0100_0000;
    let size = if length == 0 {
        4
    } else {
        8 + length + length % 2
    };
    Entry {
        place: read.len().saturating_sub(size as usize) as u64,
        length,
        kind,
    }
}
