//! Tests of the kind of label that a block is.

use crate::samples::{EOF1, EOF2, EOV1, EOV2, HDR1, HDR2, VOL1};
use std::test::*;
use tape_label::*;

/// Returns a block in which only the first four characters are significant.
fn beginning(identifier: &[u8; 4]) -> [u8; 80] {
    let mut block = [0xff; 80];
    block[..4].copy_from_slice(identifier);
    block
}

#[test]
fn kinds_of_a_written_volume(rt: HostRuntime) {
    for (label, want) in [
        (VOL1, Kind::Vol1),
        (HDR1, Kind::Hdr1),
        (HDR2, Kind::Hdr2),
        (EOF1, Kind::Eof1),
        (EOF2, Kind::Eof2),
        (EOV1, Kind::Eov1),
        (EOV2, Kind::Eov2),
    ] {
        assert_eq!(rt; kind(label), Some(want), "{want:?}");
    }
}

/// The characters after the identifier do not matter, and a user label or a third header label is
/// not of any kind.
#[test]
fn kinds_by_identifier_alone(rt: HostRuntime) {
    for (identifier, want) in [
        (b"EOF1", Some(Kind::Eof1)),
        (b"UVL1", None),
        (b"HDR3", None),
        (b"hdr1", None),
    ] {
        assert_eq!(rt;
            kind(&beginning(identifier)),
            want,
            "kind {want:?}, {identifier:?}"
        );
    }
}

#[test]
fn identifiers_of_kinds(rt: HostRuntime) {
    for (kind, identifier, is_second) in [
        (Kind::Vol1, b"VOL1", false),
        (Kind::Hdr1, b"HDR1", false),
        (Kind::Hdr2, b"HDR2", true),
        (Kind::Eof1, b"EOF1", false),
        (Kind::Eof2, b"EOF2", true),
        (Kind::Eov1, b"EOV1", false),
        (Kind::Eov2, b"EOV2", true),
    ] {
        assert_eq!(rt; kind.identifier(), identifier, "{kind:?}");
        assert!(rt; kind.is_second() == is_second, "{kind:?} as a second label");
    }
}

#[test]
fn volume_labels_of_any_sort(rt: HostRuntime) {
    for (identifier, is_one) in [
        (b"VOL1", true),
        (b"VOL2", true),
        (b"VOLX", true),
        (b"UVL1", true),
        (b"UHL1", false),
        (b"HDR1", false),
        (b"vol1", false),
        (b"VOK1", false),
    ] {
        assert_eq!(rt;
            is_volume_label(&beginning(identifier)),
            is_one,
            "{identifier:?}"
        );
    }
    for (label, is_one) in [
        (VOL1.as_slice(), true),
        (HDR1.as_slice(), false),
        (&VOL1[..79], false),
    ] {
        assert!(rt; is_volume_label(label) == is_one, "{label:?}");
    }
}

#[test]
fn a_block_is_one_label_at_most(rt: HostRuntime) {
    for (label, readings) in [
        (VOL1, 1),
        (HDR1, 1),
        (HDR2, 1),
        (EOF1, 1),
        (EOF2, 1),
        (EOV1, 1),
        (EOV2, 1),
        (&[b' '; 80], 0),
    ] {
        assert_eq!(rt; laws::readings(label), readings, "{label:?}");
    }
}
