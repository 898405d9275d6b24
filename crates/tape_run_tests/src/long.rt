//! Tests of a record longer than any buffer, read into a sink that stores none of its bytes.
use crate::image::{HDR1, Image, VOL1, front, long_byte, set_id};
use crate::readers::Counting;
use std::alloc::{AllocError, Global};
use std::test::Fail;
use tape_core::PartSink;
use tape_run::{Session, Step, run};

/// Returns a block with one segment: `control`, and `count` bytes of the long record.
fn segment(alloc: Global, control: &[u8; 5], count: usize) -> Result<Vec<u8>, AllocError> {
    let mut block = Vec::new(alloc);
    block.extend_from_slice(control)?;
    for place in 0..count {
        block.push(long_byte(place))?;
    }
    Ok(block)
}

/// Adds `times` blocks with the same segment.
fn add_blocks(
    image: &mut Image,
    times: usize,
    control: &[u8; 5],
    count: usize,
) -> Result<(), AllocError> {
    let block = segment(image.alloc, control, count)?;
    for _ in 0..times {
        image.block(block.as_slice())?;
    }
    Ok(())
}

/// Returns one record of 3,000,000 bytes in format S, in 301 blocks: 300 blocks of 9,999 bytes with
/// 9,994 bytes of the record each, and a last block with the remaining 1,800 bytes.
fn image(alloc: Global) -> Result<Image, AllocError> {
    let mut image = Image::new(alloc);
    image.headers(&[
        VOL1,
        HDR1,
        "HDR2S0999900000                                   00",
    ])?;
    add_blocks(&mut image, 1, b"19999", 9994)?;
    add_blocks(&mut image, 299, b"29999", 9994)?;
    add_blocks(&mut image, 1, b"31805", 1800)?;
    image.trailers(&["EOF1PAYROLL          ABC00100010001000100 00000 00000 000301"])?;
    image.end()?;
    Ok(image)
}

#[test]
fn three_million_bytes(rt: HostRuntime) -> Result<(), Fail> {
    let image = image(rt.alloc())?;
    let sink = Counting {
        parts: 0,
        weighs: 0,
        refused: 0,
    };
    let mut session = Session::new(rt.alloc(), set_id(), 1, sink)?;
    // The first reel is truncated in the middle of a block; the second is the complete volume.
    let whole = image.bytes.as_slice();
    run(
        &mut session,
        &[Step::Reel, Step::Reel],
        &mut [front(whole, 1_500_000), whole],
        &mut [],
    )?;
    assert_eq!(rt; session.want(), None);
    let counts = (session.sink().parts, session.sink().weight());
    assert_eq!(rt; counts, (301, 3_000_000 + 301 * 5));
    Ok(())
}
