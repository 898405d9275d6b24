//! Tests of labels of another producer.

use std::test::*;
use tape_label::*;

/// Reserved positions are filled, and the version is not that of the fourth edition.
#[test]
fn volume_labels_of_another_producer(rt: HostRuntime) {
    let vol1 = b"VOL1ABC001X~~~~~~~~~~~~~SOMEONE ELSE THE OWNER     ############################3";
    let expected = Vol1 {
        volume: Field::of_bytes(*b"ABC001"),
        access: b'X',
        implementation: Field::of_bytes(*b"SOMEONE ELSE "),
        owner: Field::of_bytes(*b"THE OWNER     "),
        version: b'3',
    };
    assert_eq!(rt; read_vol1(vol1), Ok(expected));
}

/// The identifier has lower-case letters, and a header has no digits at the positions of a
/// trailer's block count.
#[test]
fn first_headers_of_another_producer(rt: HostRuntime) {
    let hdr1 = b"HDR1payroll.1985#    ABC00100120345000100085001099365XAB 9 7VENDOR       !!!!!!!";
    let expected = Head1 {
        file_id: Field::of_bytes(*b"payroll.1985#    "),
        set_id: Field::of_bytes(*b"ABC001"),
        sect: 12,
        sequence: 345,
        generation: Field::of_bytes(*b"0001"),
        gen_version: Field::of_bytes(*b"00"),
        created: Field::of_bytes(*b"085001"),
        expires: Field::of_bytes(*b"099365"),
        access: b'X',
        implementation: Field::of_bytes(*b"VENDOR       "),
    };
    assert_eq!(rt; read_head1(hdr1), Ok(expected));
}

/// Positions 16 to 50 and 53 to 80 are filled, and the buffer offset is blank.
#[test]
fn second_headers_of_another_producer(rt: HostRuntime) {
    let hdr2 = b"HDR2D02048020440VENDOR              XXXXXXXXXXXXXX  ZZZZZZZZZZZZZZZZZZZZZZZZZZZZ";
    let expected = Head2 {
        format: Format::Counted,
        block_len: 2048,
        rec_len: 2044,
        offset: 0,
    };
    assert_eq!(rt; read_head2(hdr2), Ok(expected));
}
