//! Tests of blocks that are refused, and of the first fault of each.

use crate::samples::{EOF1, EOF2, HDR1, HDR2, VOL1};
use std::process::Abort;
use std::test::*;
use tape_label::*;

/// Returns the faults of the four reading functions for the block, in this order: volume label,
/// first header label, second label, first trailer label.
fn faults(block: &[u8]) -> [Option<LabelFault>; 4] {
    [
        read_vol1(block).err(),
        read_head1(block).err(),
        read_head2(block).err(),
        read_trail1(block).err(),
    ]
}

/// Checks that the block is not a label because it does not have 80 characters.
fn is_not_eighty(rt: &impl Abort, name: &str, block: &[u8]) {
    let not_eighty = Some(LabelFault::NotEighty);
    assert_eq!(rt; faults(block), [not_eighty; 4], "{name}");
    assert!(rt; kind(block).is_none(), "kind of {name}");
}

#[test]
fn only_eighty_characters_are_a_label(rt: HostRuntime) {
    for (name, label) in [
        ("VOL1", VOL1),
        ("HDR1", HDR1),
        ("HDR2", HDR2),
        ("EOF1", EOF1),
    ] {
        let mut longer = [b' '; 81];
        longer[..80].copy_from_slice(label);
        is_not_eighty(&rt, name, &longer);
        is_not_eighty(&rt, name, &label[..79]);
    }
    is_not_eighty(&rt, "nothing", b"");
}

/// The identifier is checked before the fields: a second label is not read as a first trailer.
#[test]
fn other_identifiers(rt: HostRuntime) {
    let other = Some(LabelFault::Identifier);
    for (name, label, want) in [
        ("HDR1", HDR1, [other, None, other, other]),
        ("EOF1", EOF1, [other, other, other, None]),
        ("EOF2", EOF2, [other, other, None, other]),
    ] {
        assert_eq!(rt; faults(label), want, "{name}");
    }
}

/// The length is checked before the identifier, and the identifier before the contents of the
/// fields.
#[test]
fn blocks_that_are_none_of_the_labels(rt: HostRuntime) {
    for (block, fault) in [
        (&HDR1[..79], LabelFault::NotEighty),
        (&[b'X'; 81], LabelFault::NotEighty),
        (&[b'X'; 80], LabelFault::Identifier),
    ] {
        assert_eq!(rt; read_label(block), Err(fault), "wanted is {fault}");
    }
    for (identifier, fault) in [
        (b"VOL2", LabelFault::Identifier),
        (b"HDR1", LabelFault::NotDigits(28)),
        (b"EOF2", LabelFault::Format(b' ')),
    ] {
        let mut block = [b' '; 80];
        block[..4].copy_from_slice(identifier);
        assert_eq!(rt; read_label(&block), Err(fault), "{identifier:?}");
    }
}

#[test]
fn numbers_of_a_first_header(rt: HostRuntime) {
    let section_with_a_space =
        b"HDR1PAYROLL          ABC00100 10001000100 00000 00000 000000                    ";
    let section_zero =
        b"HDR1PAYROLL          ABC00100000001000100 00000 00000 000000                    ";
    let sequence_with_a_letter =
        b"HDR1PAYROLL          ABC0010001000A000100 00000 00000 000000                    ";
    let sequence_zero =
        b"HDR1PAYROLL          ABC00100010000000100 00000 00000 000000                    ";
    let both_wrong =
        b"HDR1PAYROLL          ABC0010000000A000100 00000 00000 000000                    ";
    for (label, fault) in [
        (section_with_a_space, LabelFault::NotDigits(28)),
        (section_zero, LabelFault::FieldRange(28)),
        (sequence_with_a_letter, LabelFault::NotDigits(32)),
        (sequence_zero, LabelFault::FieldRange(32)),
        (both_wrong, LabelFault::FieldRange(28)),
    ] {
        assert_eq!(rt; read_head1(label), Err(fault), "wanted is {fault}");
    }
}

#[test]
fn numbers_of_a_trailer(rt: HostRuntime) {
    let count_with_spaces =
        b"EOF1PAYROLL          ABC00100010001000100 00000 00000      3                    ";
    let section_zero_too =
        b"EOV1PAYROLL          ABC00100000001000100 00000 00000      3                    ";
    for (label, fault) in [
        (count_with_spaces, LabelFault::NotDigits(55)),
        (section_zero_too, LabelFault::FieldRange(28)),
    ] {
        assert_eq!(rt; read_trail1(label), Err(fault), "wanted is {fault}");
    }
}

#[test]
fn fields_of_a_second_label(rt: HostRuntime) {
    let undefined_records =
        b"HDR2U0080000080                                   00                            ";
    let block_length_with_spaces =
        b"HDR2F  80000080                                   00                            ";
    let record_length_with_spaces =
        b"HDR2D00800   80                                   00                            ";
    let fixed_records_of_no_bytes =
        b"HDR2F0080000000                                   00                            ";
    let offset_with_a_space =
        b"HDR2F0080000080                                    0                            ";
    for (label, fault) in [
        (undefined_records, LabelFault::Format(b'U')),
        (block_length_with_spaces, LabelFault::NotDigits(6)),
        (record_length_with_spaces, LabelFault::NotDigits(11)),
        (fixed_records_of_no_bytes, LabelFault::FieldRange(11)),
        (offset_with_a_space, LabelFault::NotDigits(51)),
    ] {
        assert_eq!(rt; read_head2(label), Err(fault), "wanted is {fault}");
    }
}
