//! Tests of short images of a few items.

use super::readers::reads;
use std::test::Fail;
use tape_image::{Ending, Item};

#[test]
fn an_empty_image_ends_at_once(rt: HostRuntime) -> Result<(), Fail> {
    reads(&rt, rt.alloc(), b"", &[], Ending::Physical, 0)
}

#[test]
fn pad_bytes_are_not_judged(rt: HostRuntime) -> Result<(), Fail> {
    for pad in [0x00, 0x41, 0xFF] {
        let image = [1, 0, 0, 0, b'x', pad, 1, 0, 0, 0];
        let rows = [(Item::Block(b"x"), 10)];
        reads(&rt, rt.alloc(), &image, &rows, Ending::Physical, 10)?;
    }
    Ok(())
}

#[test]
fn a_block_recorded_with_an_error_is_bad(rt: HostRuntime) -> Result<(), Fail> {
    let image = b"\x03\0\0\x80bad\0\x03\0\0\x80\x02\0\0\0ok\x02\0\0\0";
    let rows = [(Item::Bad, 12), (Item::Block(b"ok"), 22)];
    reads(&rt, rt.alloc(), image, &rows, Ending::Physical, 22)
}
