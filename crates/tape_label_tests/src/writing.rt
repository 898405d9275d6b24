//! Tests of labels that are written byte by byte, and read again.

ghost use Rattle.tape_label.specs.Kinds.{IsSecond};

use crate::samples::{EOF1, EOF2, EOV1, EOV2, HDR1, HDR2, VOL1, head, second, trailer, volume};
use std::process::Abort;
use std::test::*;
use tape_label::*;

#[test]
fn first_labels_byte_by_byte(rt: HostRuntime) {
    assert_eq!(rt; write_vol1(&volume()), *VOL1);
    assert_eq!(rt; write_head1(&head()), *HDR1);
    for (eof, want) in [(true, EOF1), (false, EOV1)] {
        assert_eq!(rt;
            write_trail1(&trailer(eof)),
            *want,
            "end of the file: {eof}"
        );
    }
}

#[test]
fn second_labels_byte_by_byte(rt: HostRuntime) {
    is_second_label(&rt, Kind::Hdr2, HDR2);
    is_second_label(&rt, Kind::Eof2, EOF2);
    is_second_label(&rt, Kind::Eov2, EOV2);
}

fn is_second_label(rt: &impl Abort, kind: Kind, want: &[u8; 80])
    requires { IsSecond kind }
{
    assert_eq!(rt; write_head2(&second(), kind), *want, "{kind:?}");
}

#[test]
fn each_field_of_a_volume_label_in_its_place(rt: HostRuntime) {
    let volume = Vol1 {
        volume: Field::of_bytes(*b"RSTUVW"),
        access: b'X',
        implementation: Field::of_bytes(*b"0123456789ABC"),
        owner: Field::of_bytes(*b"DEFGHIJKLMNOPQ"),
        version: b'Y',
    };
    let expected =
        b"VOL1RSTUVWX             0123456789ABCDEFGHIJKLMNOPQ                            Y";
    assert_eq!(rt; write_vol1(&volume), *expected);
}

#[test]
fn each_field_of_a_first_header_in_its_place(rt: HostRuntime) {
    let head = Head1 {
        file_id: Field::of_bytes(*b"ABCDEFGHIJKLMNOPQ"),
        set_id: Field::of_bytes(*b"RSTUVW"),
        sect: 1234,
        sequence: 5678,
        generation: Field::of_bytes(*b"abcd"),
        gen_version: Field::of_bytes(*b"ef"),
        created: Field::of_bytes(*b"ghijkl"),
        expires: Field::of_bytes(*b"mnopqr"),
        access: b'X',
        implementation: Field::of_bytes(*b"0123456789ABC"),
    };
    let expected =
        b"HDR1ABCDEFGHIJKLMNOPQRSTUVW12345678abcdefghijklmnopqrX0000000123456789ABC       ";
    assert_eq!(rt; write_head1(&head), *expected);
}

#[test]
fn each_field_of_a_second_label_in_its_place(rt: HostRuntime) {
    let second = Head2 {
        format: Format::Spanned,
        block_len: 12345,
        rec_len: 67890,
        offset: 12,
    };
    let expected =
        b"EOF2S1234567890                                   12                            ";
    assert_eq!(rt; write_head2(&second, Kind::Eof2), *expected);
}

#[test]
fn what_is_written_is_read_again(rt: HostRuntime) {
    assert!(rt; laws::vol1_again(&volume()) == Ok(volume()));
    assert!(rt; laws::head1_again(&head()) == Ok(head()));
    assert!(rt; laws::head2_again(&second(), Kind::Eov2) == Ok(second()));
    assert!(rt; laws::trail1_again(&trailer(false)) == Ok(trailer(false)));
    assert!(rt; laws::digits_again::<4>(80) == Some(80));
}
