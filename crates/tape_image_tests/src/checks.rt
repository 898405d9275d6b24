//! Comparisons, one function for each kind of value. A comparison that fails prints its row.

use std::process::Abort;
use tape_image::{Ending, ImageFault, ImageWriteFault};

pub(super) fn is_so(rt: &impl Abort, row: usize, so: bool) {
    assert!(rt; so, "row {row}");
}

pub(super) fn same_count(rt: &impl Abort, row: usize, got: u64, want: u64) {
    assert_eq!(rt; got, want, "row {row}");
}

pub(super) fn same_ending(rt: &impl Abort, row: usize, got: Option<Ending>, want: Option<Ending>) {
    assert_eq!(rt; got, want, "row {row}");
}

pub(super) fn same_fault(
    rt: &impl Abort,
    row: usize,
    got: Option<ImageFault>,
    want: Option<ImageFault>,
) {
    assert_eq!(rt; got, want, "row {row}");
}

pub(super) fn same_write_fault(
    rt: &impl Abort,
    row: usize,
    got: Option<ImageWriteFault>,
    want: Option<ImageWriteFault>,
) {
    assert_eq!(rt; got, want, "row {row}");
}
