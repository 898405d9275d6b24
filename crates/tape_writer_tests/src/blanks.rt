//! Tests of prefixes and of blank volumes.

use crate::images::Piece::{Block, End, Mark};
use crate::images::image_of;
use crate::texts::VOL1_FIRST;
use std::alloc::{AllocError, Global};
use std::test::Fail;
use tape_writer::{Prefix, blank_image, blank_volume};

/// Texts, and whether they are prefixes.
const PREFIXES: &[(&str, bool)] = &[
    ("ABC", true),
    ("A09", true),
    ("Z9Z", true),
    ("AB", false),
    ("ABCD", false),
    ("abc", false),
    ("AB ", false),
    ("A@C", false),
    ("A[C", false),
    ("A/C", false),
    ("A:C", false),
    ("", false),
];

#[test]
fn prefixes(rt: HostRuntime) {
    for (text, is_prefix) in PREFIXES {
        assert!(rt; Prefix::new(text).is_some() == *is_prefix, "{text}");
    }
}

/// Returns true if the image of the first volume is its label, two tape marks and the end-of-medium
/// marker.
fn is_blank(alloc: Global) -> Result<bool, AllocError> {
    let wanted = image_of(alloc, &[Block(VOL1_FIRST), Mark, Mark, End])?;
    Ok(match Prefix::new("ABC") {
        Some(prefix) => blank_image(&blank_volume(prefix, 1)).as_slice() == wanted.as_slice(),
        None => false,
    })
}

#[test]
fn the_bytes_of_a_blank_volume(rt: HostRuntime) -> Result<(), Fail> {
    assert!(rt; is_blank(rt.alloc())?);
    Ok(())
}
