//! Tests of blocks of the greatest lengths.

use super::checks::same_count;
use super::devices::{Endless, LONGEST_EXTENT};
use super::readers::{fails, gives, reads};
use std::alloc::{AllocError, Global};
use std::test::Fail;
use tape_image::{Ending, ImageCause, ImageFault, ImageReader, Item};

/// Returns `count` digits.
fn digits(alloc: Global, count: u32) -> Result<Vec<u8>, AllocError> {
    let mut digits = Vec::new(alloc);
    for place in 0..count {
        digits.push(b'0' + (place % 10) as u8)?;
    }
    Ok(digits)
}

/// Returns the encodings of a block with the 99,999 bytes `longest`, of a block of 100,000 digits,
/// and of a mark.
fn two_blocks(alloc: Global, longest: &[u8]) -> Result<Vec<u8>, AllocError> {
    let longer = digits(alloc, 100_000)?;
    let pieces: [&[u8]; 5] = [
        b"\x9F\x86\x01\x00",
        longest,
        b"\x00\x9F\x86\x01\x00\xA0\x86\x01\x00",
        longer.as_slice(),
        b"\xA0\x86\x01\x00\x00\x00\x00\x00",
    ];
    let mut image = Vec::new(alloc);
    for piece in pieces {
        image.extend_from_slice(piece)?;
    }
    Ok(image)
}

#[test]
fn a_block_has_up_to_99999_bytes(rt: HostRuntime) -> Result<(), Fail> {
    let longest = digits(rt.alloc(), 99_999)?;
    let image = two_blocks(rt.alloc(), longest.as_slice())?;
    let rows = [
        (Item::Block(longest.as_slice()), 100_008),
        (Item::Bad, 200_016),
        (Item::Mark, 200_020),
    ];
    reads(
        &rt,
        rt.alloc(),
        image.as_slice(),
        &rows,
        Ending::Physical,
        200_020,
    )
}

#[test]
fn an_image_without_end_is_too_long(rt: HostRuntime) -> Result<(), Fail> {
    let mut device = Endless { given: 0 };
    let mut reader = ImageReader::new(rt.alloc(), &mut device)?;
    for count in 1..256 {
        gives(
            &rt,
            count as usize,
            &mut reader,
            Item::Bad,
            count * LONGEST_EXTENT,
        );
    }
    let fault = ImageFault {
        place: 4_278_192_120,
        cause: ImageCause::TooLong,
    };
    fails(&rt, 256, &mut reader, fault);
    drop(reader);
    // Only the word of the long block was read.
    same_count(&rt, 256, device.given, 4_278_192_124);
    Ok(())
}
