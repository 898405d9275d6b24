//! Tests of labels that are read.

use crate::samples::{EOF1, EOF2, EOV1, EOV2, HDR1, HDR2, VOL1, head, second, trailer, volume};
use std::test::*;
use tape_label::*;

#[test]
fn first_labels_of_a_written_volume(rt: HostRuntime) {
    assert_eq!(rt; read_vol1(VOL1), Ok(volume()));
    assert_eq!(rt; read_head1(HDR1), Ok(head()));
    for (label, eof) in [(EOF1, true), (EOV1, false)] {
        assert_eq!(rt;
            read_trail1(label),
            Ok(trailer(eof)),
            "end of the file: {eof}"
        );
    }
}

#[test]
fn second_labels_of_a_written_volume(rt: HostRuntime) {
    for (name, label) in [("HDR2", HDR2), ("EOF2", EOF2), ("EOV2", EOV2)] {
        assert_eq!(rt; read_head2(label), Ok(second()), "{name}");
    }
}

#[test]
fn blocks_read_as_the_label_that_they_name(rt: HostRuntime) {
    for (name, block, want) in [
        ("VOL1", VOL1, Label::Vol1(volume())),
        ("HDR1", HDR1, Label::Head1(head())),
        ("HDR2", HDR2, Label::Second(Kind::Hdr2, second())),
        ("EOF1", EOF1, Label::Trail1(trailer(true))),
        ("EOF2", EOF2, Label::Second(Kind::Eof2, second())),
        ("EOV1", EOV1, Label::Trail1(trailer(false))),
        ("EOV2", EOV2, Label::Second(Kind::Eov2, second())),
    ] {
        assert_eq!(rt; read_label(block), Ok(want), "{name}");
    }
}

/// A record length of 0 is accepted unless records have a fixed length.
#[test]
fn second_labels_without_a_record_length(rt: HostRuntime) {
    let spanned =
        b"EOV2S0999900000                                   99                            ";
    let counted =
        b"HDR2D0080000000                                   00                            ";
    for (label, format, block_len, offset) in [
        (spanned, Format::Spanned, 9999, 99),
        (counted, Format::Counted, 800, 0),
    ] {
        let want = Head2 {
            format,
            block_len,
            rec_len: 0,
            offset,
        };
        assert_eq!(rt; read_head2(label), Ok(want), "{format:?}");
    }
}
