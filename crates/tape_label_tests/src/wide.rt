//! Tests of the wider reading of second labels, beside the strict one.

use std::test::*;
use tape_label::*;

/// Returns a second label with these characters at positions 1 to 15 and 51 to 52, and spaces
/// elsewhere.
fn label(front: &[u8; 15], offset: &[u8; 2]) -> [u8; 80] {
    let mut label = [b' '; 80];
    label[..15].copy_from_slice(front);
    label[50..52].copy_from_slice(offset);
    label
}

/// Returns the fields that the wider reading returns.
fn fields(format: Format, block_len: u32, rec_len: u32, offset: u8) -> Result<Head2, LabelFault> {
    Ok(Head2 {
        format,
        block_len,
        rec_len,
        offset,
    })
}

#[test]
fn fields_in_the_wider_reading(rt: HostRuntime) {
    for (front, offset, format, block_len, rec_len, prefix) in [
        (b"HDR2U0051200512", b"00", Format::Undefined, 512, 512, 0),
        (b"EOF2U          ", b"04", Format::Undefined, 0, 0, 4),
        (b"EOV2V0800000104", b"  ", Format::Variable, 8000, 104, 0),
        (b"HDR2D02048     ", b"00", Format::Counted, 2048, 0, 0),
        (b"HDR2S     00000", b"00", Format::Spanned, 0, 0, 0),
        (b"HDR2F     00080", b"99", Format::Fixed, 0, 80, 99),
    ] {
        let want = fields(format, block_len, rec_len, prefix);
        assert_eq!(rt; read_wide_head2(&label(front, offset)), want, "{front:?}");
    }
}

/// The strict reading refuses the same labels.
#[test]
fn labels_that_only_the_wider_reading_accepts(rt: HostRuntime) {
    for (front, offset, fault) in [
        (b"HDR2U0051200512", b"00", LabelFault::Format(b'U')),
        (b"EOF2U          ", b"04", LabelFault::Format(b'U')),
        (b"EOV2V0800000104", b"  ", LabelFault::Format(b'V')),
        (b"HDR2D02048     ", b"00", LabelFault::NotDigits(11)),
        (b"HDR2S     00000", b"00", LabelFault::NotDigits(6)),
        (b"HDR2F     00080", b"99", LabelFault::NotDigits(6)),
    ] {
        assert_eq!(rt; read_head2(&label(front, offset)), Err(fault), "{front:?}");
    }
}

/// A fault has the same number in both readings, unless the strict one refuses the format first.
#[test]
fn labels_that_the_wider_reading_refuses(rt: HostRuntime) {
    for (front, offset, want) in [
        (b"HDR2F00800     ", b"00", LabelFault::NotDigits(11)),
        (b"HDR2F0080000000", b"00", LabelFault::FieldRange(11)),
        (b"HDR2X0080000080", b"00", LabelFault::Format(b'X')),
        (b"HDR2u0080000080", b"00", LabelFault::Format(b'u')),
        (b"HDR2 0080000080", b"00", LabelFault::Format(b' ')),
        (b"HDR2U 051200512", b"00", LabelFault::NotDigits(6)),
        (b"HDR2V05120    8", b"00", LabelFault::NotDigits(11)),
        (b"HDR2U0051200512", b" 0", LabelFault::NotDigits(51)),
        (b"HDR1U0051200512", b"00", LabelFault::Identifier),
    ] {
        assert_eq!(rt;
            read_wide_head2(&label(front, offset)),
            Err(want),
            "{front:?}"
        );
    }
}

#[test]
fn labels_that_both_readings_accept(rt: HostRuntime) {
    for (front, offset) in [
        (b"HDR2F0080000080", b"00"),
        (b"EOF2D0204800000", b"  "),
        (b"EOV2S0999900000", b"99"),
    ] {
        let block = label(front, offset);
        assert!(rt;
            read_wide_head2(&block) == read_head2(&block) && read_head2(&block).is_ok(),
            "{front:?}"
        );
    }
}

#[test]
fn a_section_without_a_second_label(rt: HostRuntime) {
    assert_eq!(rt; Ok(absent_head2()), fields(Format::Undefined, 0, 0, 0));
}

#[test]
fn header_labels_that_may_follow_the_second(rt: HostRuntime) {
    for (identifier, want) in [
        (b"HDR3", true),
        (b"HDR9", true),
        (b"UHL1", true),
        (b"UHLX", true),
        (b"HDR1", false),
        (b"HDR2", false),
        (b"HDR:", false),
        (b"HDRA", false),
        (b"EOF3", false),
        (b"UTL1", false),
        (b"UVL1", false),
    ] {
        let mut block = [b' '; 81];
        block[..4].copy_from_slice(identifier);
        let found = (
            is_further_header(&block[..80]),
            is_further_header(&block[..79]),
            is_further_header(&block),
        );
        assert_eq!(rt; found, (want, false, false), "{identifier:?}");
    }
}
