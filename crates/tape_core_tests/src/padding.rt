//! Tests of labels with padding.

use crate::normal_form::{BLANK2, EOF1, HDR1, HDR2, VOL1, ebcdic};
use std::process::Abort;
use tape_core::normal::{Replacement, TapePlace, step};
use tape_image::Item;

/// Returns a label in a block of `len` bytes, which ends with bytes `pad`.
fn padded(label: &[u8; 80], len: usize, pad: u8) -> [u8; 121] {
    let mut block = [pad; 121];
    for at in 0..80 {
        block[at] = label[at];
    }
    // The bytes after the block are others.
    for at in len..121 {
        block[at] = pad ^ 1;
    }
    block
}

/// Returns the first `len` bytes of a block.
fn front<'b>(rt: &impl Abort, block: &'b [u8; 121], len: usize) -> &'b [u8] {
    match block.as_slice().split_at_checked(len) {
        Some((front, _)) => front,
        None => panic!(rt; "no block has {len} bytes"),
    }
}

/// The blocks of a file, of which one looks like its last, and what they become: labels, or they
/// stay as they are.
const PADDED: [(&[u8; 80], bool); 6] = [
    (VOL1, true),
    (HDR1, true),
    (BLANK2, true),
    (EOF1, false),
    (EOF1, false),
    (EOF1, true),
];

/// Checks that labels of `len` bytes, in EBCDIC or in ASCII, become labels of 80 characters.
fn become_labels(rt: &impl Abort, len: usize, pad: u8, is_ebcdic: bool) {
    let mut place = TapePlace::Start(0);
    for (at, (label, is_label)) in PADDED.iter().enumerate() {
        let text = if is_ebcdic { ebcdic(label) } else { **label };
        let block = padded(&text, len, pad);
        if at == 3 || at == 5 {
            (place, _) = step(place, Item::Mark);
        }
        let (next, change) = step(place, Item::Block(front(rt, &block, len)));
        let wanted = match is_label {
            true if *label == BLANK2 => Replacement::Label(*HDR2),
            true => Replacement::Label(**label),
            false => Replacement::Same,
        };
        assert!(rt; change.instead == wanted, "{at}, {len} bytes");
        place = next;
    }
}

#[test]
fn padding_is_left_out(rt: HostRuntime) {
    for len in 81..121 {
        become_labels(&rt, len, b' ', false);
        become_labels(&rt, len, 0, true);
    }
    become_labels(&rt, 81, b'x', false);
    become_labels(&rt, 84, 0x40, true);
}

#[test]
fn other_blocks_are_no_padded_labels(rt: HostRuntime) {
    // too long, or with different bytes after the label
    let block = padded(VOL1, 121, b' ');
    let (next, _) = step(TapePlace::Start(0), Item::Block(&block));
    assert_eq!(rt; next, TapePlace::Over);
    let block = padded(VOL1, 83, b' ');
    let (next, _) = step(TapePlace::Start(0), Item::Block(front(&rt, &block, 84)));
    assert_eq!(rt; next, TapePlace::Over);
    // on a tape whose first label has 80 bytes
    let (next, _) = step(TapePlace::Start(0), Item::Block(VOL1));
    let block = padded(HDR1, 84, b' ');
    let (_, change) = step(next, Item::Block(front(&rt, &block, 84)));
    assert!(rt; change.instead == Replacement::Dropped);
}
