//! Tests of the normal form: tapes written out by hand, and what replaces each of their items.

use std::process::Abort;
use tape_core::normal::{Change, Missing, Replacement, TapePlace, step};
use tape_image::Item;

pub(crate) const VOL1: &[u8; 80] =
    b"VOL1ABC001                           SMITH                                     4";

pub(crate) const HDR1: &[u8; 80] =
    b"HDR1PAYROLL          ABC00100010001000100 85113 00000 000000SYSTEM              ";

pub(crate) const HDR2: &[u8; 80] =
    b"HDR2F0080000080                                   00                            ";

pub(crate) const BLANK2: &[u8; 80] =
    b"HDR2F00800   80                                                                 ";

/// A label of format V whose numbers begin with blanks and NULs.
const BLANK_WIDE2: &[u8; 80] =
    b"HDR2V 8192\0\0\0\0\0                                   \0\0                            ";

const WIDE2: &[u8; 80] =
    b"HDR2V0819200000                                   00                            ";

/// A label that only the wider reading accepts.
const SPACES2: &[u8; 80] =
    b"HDR2U     00000                                                                 ";

/// The same with a length that cannot be read.
const NO_NUMBER2: &[u8; 80] =
    b"HDR2U  X  00000                                                                 ";

const HDR3: &[u8; 80] =
    b"HDR3                                                                            ";

/// A header label that no standard has.
const LBL1: &[u8; 80] =
    b"LBL1 OF ANOTHER SYSTEM                                                          ";

pub(crate) const EOF1: &[u8; 80] =
    b"EOF1PAYROLL          ABC00100010001000100 85113 00000 000002SYSTEM              ";

/// Labels without numbers, and the same ones with those of the second file.
const BLANK1: &[u8; 80] =
    b"HDR1PAYROLL          ABC001        000100 85113 00000 000000SYSTEM              ";

const SECOND1: &[u8; 80] =
    b"HDR1PAYROLL          ABC00100010002000100 85113 00000 000000SYSTEM              ";

const ZERO_EOF1: &[u8; 80] =
    b"EOF1PAYROLL          ABC0010000\0\0\0\0000100 85113 00000 000002SYSTEM              ";

const SECOND_EOF1: &[u8; 80] =
    b"EOF1PAYROLL          ABC00100010002000100 85113 00000 000002SYSTEM              ";

/// A trailer label without a block count, and those of one block and of two.
const UNCOUNTED: &[u8; 80] =
    b"EOF1PAYROLL          ABC00100010001000100 85113 00000       SYSTEM              ";

const COUNTED: &[u8; 80] =
    b"EOF1PAYROLL          ABC00100010001000100 85113 00000 000001SYSTEM              ";

/// The label of one block, with blanks before the digit.
const PADDED_COUNT: &[u8; 80] =
    b"EOF1PAYROLL          ABC00100010001000100 85113 00000      1SYSTEM              ";

/// A trailer label that counts no blocks.
const NO_BLOCKS: &[u8; 80] =
    b"EOF1PAYROLL          ABC00100010001000100 85113 00000 000000SYSTEM              ";

/// A label with a number that begins with blanks.
const SHORT1: &[u8; 80] =
    b"HDR1PAYROLL          ABC0010001  07000100 85113 00000 000000SYSTEM              ";

const SEVENTH1: &[u8; 80] =
    b"HDR1PAYROLL          ABC00100010007000100 85113 00000 000000SYSTEM              ";

/// A label whose section number cannot be read.
const NO_SECTION1: &[u8; 80] =
    b"HDR1PAYROLL          ABC001000X    000100 85113 00000 000000SYSTEM              ";

const DUMMY: &[u8; 80] =
    b"HDR10000000000000000000000000000000000000000000000000000000000000000000000000000";

/// Returns a capital letter, digit or blank in code page 037. There the letters are in three runs.
fn in_ebcdic(character: u8) -> u8 {
    match character {
        b'A'..=b'I' => 0xC1 + (character - b'A'),
        b'J'..=b'R' => 0xD1 + (character - b'J'),
        b'S'..=b'Z' => 0xE2 + (character - b'S'),
        b'0'..=b'9' => 0xF0 + (character - b'0'),
        _ => 0x40,
    }
}

/// Returns a label in code page 037.
pub(crate) fn ebcdic(label: &[u8; 80]) -> [u8; 80] {
    let mut text = *label;
    for at in 0..80 {
        text[at] = in_ebcdic(label[at]);
    }
    text
}

/// Returns the label of a letter: in EBCDIC for a small letter.
pub(crate) fn label(letter: u8) -> Option<[u8; 80]> {
    Some(match letter {
        b'V' => *VOL1,
        b'H' => *HDR1,
        b'S' => *HDR2,
        b'P' => *BLANK2,
        b'U' => *BLANK_WIDE2,
        b'X' => *SPACES2,
        b'Y' => *NO_NUMBER2,
        b'T' => *HDR3,
        b'E' => *EOF1,
        b'Z' => *DUMMY,
        b'N' => *BLANK1,
        b'F' => *ZERO_EOF1,
        b'W' => *SHORT1,
        b'K' => *UNCOUNTED,
        b'k' => ebcdic(UNCOUNTED),
        b'R' => *PADDED_COUNT,
        b'J' => *NO_BLOCKS,
        b'j' => ebcdic(NO_BLOCKS),
        b'Q' => *NO_SECTION1,
        b'i' => ebcdic(BLANK1),
        b'v' => ebcdic(VOL1),
        b'h' => ebcdic(HDR1),
        b's' => ebcdic(HDR2),
        b'p' => ebcdic(BLANK2),
        b'e' => ebcdic(EOF1),
        b'l' => ebcdic(LBL1),
        _ => return None,
    })
}

/// Returns the label in ASCII that is expected instead of the label of a letter.
fn ascii(letter: u8) -> &'static [u8; 80] {
    match letter {
        b'v' => VOL1,
        b'h' | b'N' | b'i' => HDR1,
        b'W' => SEVENTH1,
        b'K' | b'k' | b'R' | b'J' | b'j' => COUNTED,
        b's' | b'P' | b'p' => HDR2,
        b'U' => WIDE2,
        b'l' => LBL1,
        _ => EOF1,
    }
}

/// Does the step for a letter: a label, `m` a mark, `b` an unreadable block, `n` four bytes of
/// noise, any other letter a block of 512 bytes.
fn step_of(place: TapePlace, letter: u8) -> (TapePlace, Change) {
    let long = [b'D'; 512];
    match (letter, label(letter)) {
        (b'm', _) => step(place, Item::Mark),
        (b'b', _) => step(place, Item::Bad),
        (b'n', _) => step(place, Item::Block(&long[..4])),
        (_, Some(text)) => step(place, Item::Block(&text)),
        (_, None) => step(place, Item::Block(&long)),
    }
}

/// Returns whether a label is one of the second file.
fn is_second(text: &[u8; 80]) -> bool {
    text == SECOND1 || text == SECOND_EOF1
}

/// Returns whether a label has no numbers, or no count.
fn is_blank(text: &[u8; 80]) -> bool {
    text == BLANK1 || text == UNCOUNTED
}

/// Returns what happened to the item of a letter: `=` it is kept, `-` dropped, `A` it became its
/// label in ASCII, `+` it is kept and `&` it became its label after an inserted volume label, `2`
/// it is kept and a second label is missing, `0` its numbers were filled, `B` it became a label of
/// the second file, `C` it became a trailer label that counts two blocks, `a` it became its label
/// in ASCII, and nothing was filled in.
fn shown(change: &Change, letter: u8) -> u8 {
    match (change.missing, change.instead) {
        (Missing::Nothing, Replacement::Same) => b'=',
        (Missing::Nothing, Replacement::Dropped) => b'-',
        (Missing::VolumeLabel, Replacement::Same) => b'+',
        (Missing::SecondLabel, Replacement::Same) => b'2',
        (Missing::Nothing, Replacement::Label(text)) if text == *ascii(letter) => b'A',
        (Missing::Nothing, Replacement::Label(text)) if is_second(&text) => b'B',
        (Missing::Nothing, Replacement::Label(text)) if text == *EOF1 => b'C',
        (Missing::Nothing, Replacement::Label(text)) if is_blank(&text) => b'a',
        (Missing::VolumeLabel, Replacement::Label(text)) if text == *ascii(letter) => b'&',
        (Missing::Digits, Replacement::Label(text)) if text == *ascii(letter) => b'0',
        _ => b'?',
    }
}

/// Checks what happens to each item of a tape.
fn becomes(rt: &impl Abort, items: &str, wanted: &str) {
    let mut got = [b' '; 16];
    let mut place = TapePlace::Start(0);
    let count = items.len().min(16);
    for at in 0..count {
        let letter = items.as_bytes()[at];
        let (next, change) = step_of(place, letter);
        got[at] = shown(&change, letter);
        place = next;
    }
    assert_eq!(rt; &got[..count], wanted.as_bytes(), "{items}");
}

#[test]
fn tapes_and_their_normal_forms(rt: HostRuntime) {
    let tapes = [
        ("VHSmDDmEmm", "=========="),
        ("vhsmeDmemm", "AAA====A=="),
        ("VHSmVHEmEmm", "==========="),
        ("mnVHSm", "--===="),
        ("VDHSm", "=-==="),
        ("HSmD", "+==="),
        ("hsmD", "&A=="),
        ("bHSm", "===="),
        ("DmVHS", "====="),
        ("VHmD", "==2="),
        ("VHTmD", "==2=="),
        ("VHbmD", "====="),
        ("VHPmD", "==0=="),
        ("VHUmD", "==0=="),
        ("VHXmD", "====="),
        ("VHYmD", "====="),
        ("vhpmD", "AA0=="),
        ("VHSmDmEmmDmbH", "=========---="),
        ("VZmmD", "=-==-"),
        ("vhsmDbDmemhsm", "AAA=====A=AA="),
        // items that are not expected, on tapes with labels in EBCDIC
        ("vhsmDDbemhsm", "AAA======AA="),
        ("vbhsmDmem", "A=AA===A="),
        ("vhbmDmemhsm", "AA====A=AA="),
        ("vhsbDDmemhsm", "AAA====A=AA="),
        ("vhsDDmemhsm", "AAA===A=AA="),
        ("vhsDmDmemhsm", "AAA====A=AA="),
        ("vhsmDmbmhsm", "AAA=====AA="),
        ("vhsmDmmhsm", "AAA====AA="),
        ("vhsmDmebmhsmDmem", "AAA===A==AA===A="),
        ("vhsmDmebhsmDmem", "AAA===A=AA===A="),
        ("vhsmDmehsmDmem", "AAA===AAA===A="),
        ("vhsmDmembsmDmem", "AAA===A==A===A="),
        ("vhsmDmemDmhsm", "AAA===A===AA="),
        ("vhsmDbbmbmism", "AAA=======aA="),
        ("vhbmDmkm", "AA====a="),
        // a header label that is not known, before data that begin like a label
        ("vhslmhDmem", "AAAA====A="),
        // the first HDR1 is lost, or a mark is before it
        ("vsmDmemhsm", "A-===A=AA="),
        ("vsmbmemhsm", "A-===A=AA="),
        ("vmDDmemhsm", "A====A=AA="),
        ("vmhsmDmem", "A=AA===A="),
        ("vmbhsmDmem", "A==AA===A="),
        ("vmbmhsm", "A===AA="),
        ("vmism", "A=aA="),
        ("vmmDemh", "A==---="),
        ("VSmDmEmHSm", "=-========"),
        // a later HDR1 is lost
        ("vhsmmemsmDmemhs", "AAA==A=====A=AA"),
        // labels without numbers
        ("VNSmDmFmm", "=A====A=="),
        ("VHSmDmEmNSmDmFmm", "========B====B=="),
        ("VHSmDmFmm", "========="),
        ("VWSmDmEmm", "=A======="),
        ("VQSmD", "====="),
        ("NSmDmFmm", "&====A=="),
        ("vismD", "AAA=="),
        ("VHSmNmEmm", "========="),
        ("bNSmD", "====="),
        ("VHSmDmbmNSm", "==========="),
        // labels without a count
        ("VHSmDmKmm", "======A=="),
        ("vhsmDmkmm", "AAA===A=="),
        ("VHSmDDmKmm", "=======C=="),
        ("VHSmDmRmm", "======A=="),
        ("VHSmDbmKmm", "=========="),
        ("VHSmDbmEmm", "=========="),
        ("VHSmKmKmm", "======A=="),
        ("VHSmDmEmHSmDmKmm", "=============A=="),
        // labels that count no blocks
        ("VHSmDmJmm", "======A=="),
        ("vhsmDmjmm", "AAA===A=="),
        ("VHSmDDmJmm", "=======C=="),
        ("VHSmDmJmHSmDmJmm", "======A======A=="),
        ("VHSmmJmm", "========"),
        ("VHSmDbmJmm", "=========="),
        ("VHSmDmEmHSmDmJmm", "================"),
        ("VHSmJmJmm", "======A=="),
    ];
    for (items, wanted) in tapes {
        becomes(&rt, items, wanted);
    }
}

#[test]
fn at_most_64_items_are_dropped(rt: HostRuntime) {
    let mut place = TapePlace::Start(0);
    let mut dropped = 0u8;
    for _ in 0..65 {
        let (next, change) = step(place, Item::Mark);
        if change.instead == Replacement::Dropped {
            dropped = dropped.saturating_add(1);
        }
        place = next;
    }
    assert_eq!(rt; (dropped, place), (64, TapePlace::Over));
}
