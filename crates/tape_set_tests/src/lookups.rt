//! Tests of block counts in labels, of lists, and of the volumes of sections.

use crate::layouts::two_files;
use std::test::Fail;
use tape_set::{Sequence, label_count, volume_of};

#[test]
fn labels_count_in_six_digits(rt: HostRuntime) {
    for (blocks, want) in [
        (0, 0),
        (3, 3),
        (999999, 999999),
        (1000000, 0),
        (1000003, 3),
        (4294967295, 967295),
    ] {
        assert_eq!(rt; label_count(blocks), want, "{blocks} blocks");
    }
}

#[test]
fn lists_go_there_and_back(rt: HostRuntime) -> Result<(), Fail> {
    let list = Sequence::of_vec(b"tape".to_vec(rt.alloc())?);
    assert_eq!(rt; list.as_slice(), b"tape".as_slice());
    assert_eq!(rt; list.into_vec().as_slice(), b"tape".as_slice());
    Ok(())
}

#[test]
fn sections_have_their_volumes(rt: HostRuntime) -> Result<(), Fail> {
    let layout = two_files(rt.alloc())?;
    for (file, sect, want) in [
        (1, 1, Some(1)),
        (1, 2, Some(2)),
        (2, 1, Some(2)),
        (0, 1, None),
        (1, 0, None),
        (0, 0, None),
        (1, 3, None),
        (2, 2, None),
        (3, 1, None),
        (65535, 65535, None),
    ] {
        assert_eq!(rt;
            volume_of(&layout, file, sect),
            want,
            "file {file}, section {sect}"
        );
    }
    Ok(())
}
