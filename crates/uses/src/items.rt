//! Counts the items of an image.
use super::reel::SECOND_BAD;
use std::io::Read;
use std::test::Fail;
use tape_image::{ImageFault, ImageReader, Item};

/// Counts the remaining blocks, bad blocks and tape marks, up to the end of the medium.
fn counted<R: Read>(image: &mut ImageReader<'_, R>) -> Result<(u64, u64, u64), ImageFault> {
    let (mut blocks, mut bad, mut marks) = (0u64, 0u64, 0u64);
    // An image has fewer items than this bound. A loop without a bound would need a proof that it
    // ends.
    for _ in 0..u64::MAX {
        match image.next()? {
            Some(Item::Block(_)) => blocks = blocks.saturating_add(1),
            Some(Item::Bad) => bad = bad.saturating_add(1),
            Some(Item::Mark) => marks = marks.saturating_add(1),
            None => break,
        }
    }
    Ok((blocks, bad, marks))
}

#[test]
fn items_are_counted(rt: HostRuntime) -> Result<(), Fail> {
    let mut device = SECOND_BAD;
    let mut image = ImageReader::new(rt.alloc(), &mut device)?;
    assert!(rt; counted(&mut image)? == (7, 1, 4));
    Ok(())
}
