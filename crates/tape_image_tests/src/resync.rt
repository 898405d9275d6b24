//! Tests of where the items of damaged images begin again: images written out by hand, from the
//! place of a fault on.

use super::checks::is_so;
use super::devices::Failing;
use std::io::ErrorKind;
use std::test::Fail;
use tape_image::items_again;

/// The bytes of an image from a place on, and how many precede the place where items begin again.
struct Row(&'static [u8], Option<usize>);

/// A block of two bytes is `\x02\0\0\0ab\x02\0\0\0`.
const ROWS: [Row; 19] = [
    // No fault: the end, a mark, a gap, the end-of-medium marker, a block, also an odd one.
    Row(b"", None),
    Row(b"\0\0\0\0\x02\0\0\0cd\x02\0\0\0", None),
    Row(b"\xFE\xFF\xFF\xFF\x02\0\0\0cd\x02\0\0\0", None),
    Row(b"\xFF\xFF\xFF\xFF\x02\0\0\0cd\x02\0\0\0", None),
    Row(b"\x02\0\0\0ab\x02\0\0\0\x02\0\0\0cd\x02\0\0\0", None),
    Row(b"\x03\0\0\0odd?\x03\0\0\0", None),
    // Cut off: in a word, in a block.
    Row(b"\x07\0\0", None),
    Row(b"\x40\0\0\0\x02\0\0\0cd\x02\0\0\0", None),
    // Nothing follows the damage, or only a mark.
    Row(b"\x02\0\0\0ab\x03\0\0\0", None),
    Row(b"\x02\0\0\0ab\x03\0\0\0\0\0\0\0", None),
    // A wrong word after a block: directly after it, also at a tape mark and a block.
    Row(b"\x02\0\0\0ab\x03\0\0\0\x02\0\0\0cd\x02\0\0\0", Some(10)),
    Row(
        b"\x02\0\0\0ab\x03\0\0\0\0\0\0\0\x02\0\0\0cd\x02\0\0\0\0\0\0\0",
        Some(10),
    ),
    // A wrong word before a block, also one that begins no item: the next block.
    Row(
        b"\x04\0\0\0ab\x02\0\0\0\x02\0\0\0cd\x02\0\0\0\xFF\xFF\xFF\xFF",
        Some(10),
    ),
    Row(b"\x02\0\0\x10ab\x02\0\0\0\x02\0\0\0cd\x02\0\0\0", Some(10)),
    // A tape mark before that block is passed over.
    Row(
        b"\x02\0\0\x10ab\x02\0\0\0\0\0\0\0\x02\0\0\0cd\x02\0\0\0\0\0\0\0",
        Some(14),
    ),
    // Bytes that were put in.
    Row(b"xyz\x7F\x02\0\0\0cd\x02\0\0\0\0\0\0\0", Some(4)),
    // The last block of the tape.
    Row(b"xyz\x7F\x02\0\0\0cd\x02\0\0\0", Some(4)),
    // A block that is followed by nothing that may follow one is none.
    Row(
        b"\x02\0\0\x10ab\x02\0\0\0\x02\0\0\0cd\x02\0\0\0\x07\0\0\0\0\0\0\0",
        None,
    ),
    // So is a block before a damaged one.
    Row(
        b"xyz\x7F\x02\0\0\0cd\x02\0\0\0\x02\0\0\0ef\x03\0\0\0\x02\0\0\0gh\x02\0\0\0",
        Some(24),
    ),
];

#[test]
fn items_begin_again_at_the_first_place(rt: HostRuntime) -> Result<(), Fail> {
    for (row, Row(image, want)) in ROWS.iter().enumerate() {
        let mut device: &[u8] = *image;
        is_so(
            &rt,
            row,
            items_again(rt.alloc(), &mut device).ok() == Some(*want),
        );
    }
    Ok(())
}

#[test]
fn a_device_that_fails_is_no_place(rt: HostRuntime) -> Result<(), Fail> {
    let mut device = Failing {
        bytes: b"xyz\x7F\x02\0\0\0cd\x02\0\0\0",
        kind: ErrorKind::Other,
        failures: 0,
    };
    is_so(&rt, 0, items_again(rt.alloc(), &mut device).is_err());
    Ok(())
}
