//! Tests of listings with offsets.
use crate::devices::Narrow;
use crate::image::{Image, front};
use std::alloc::{AllocError, Global};
use std::process::Abort;
use std::test::Fail;
use tape_image::{ImageCause, ImageFault};
use tape_run::{ListFault, list_places_to};

/// Returns a mark, a bad block of 7 bytes, a block of 3 bytes, a mark and the end-of-medium marker,
/// with a gap before each.
fn little(alloc: Global) -> Result<Image, AllocError> {
    let mut image = Image::with_gaps(alloc);
    image.mark()?;
    image.bad(b"spoilt!")?;
    image.block(b"odd")?;
    image.end()?;
    Ok(image)
}

const CUT_OFF: Result<(), ListFault> = Err(ListFault::Image(ImageFault {
    place: 32,
    cause: ImageCause::Truncated,
}));

/// The length of the image's prefix, the result and the listing.
const LISTED: &[(usize, Result<(), ListFault>, &str)] = &[
    (
        60,
        Ok(()),
        "4 4 000001 MARK
8 20 000002 BAD
32 12 000003 BLOCK 00003
48 4 000004 MARK
56 4 END MARKED
",
    ),
    (
        32,
        Ok(()),
        "4 4 000001 MARK\n8 20 000002 BAD\n32 0 END PHYSICAL\n",
    ),
    (43, CUT_OFF, "4 4 000001 MARK\n8 20 000002 BAD\n"),
];

/// Fails unless the listing has the result `answer`, and a writer that accepts `room` bytes has
/// accepted a prefix of `lines`.
fn is_listed<H: Abort + AllocGlobal>(
    rt: &H,
    bytes: &[u8],
    answer: Result<(), ListFault>,
    lines: &str,
    room: usize,
) {
    let mut out = Narrow::failing(rt.alloc(), room, None, true);
    let given = list_places_to(rt.alloc(), &mut { bytes }, &mut out);
    let whole = room >= lines.len();
    let wanted = if whole {
        answer
    } else {
        Err(ListFault::WriteFailed)
    };
    assert!(rt;
        given == wanted && out.taken.as_slice() == front(lines.as_bytes(), room),
        "{room}"
    );
}

#[test]
fn places(rt: HostRuntime) -> Result<(), Fail> {
    let image = little(rt.alloc())?;
    for (count, answer, lines) in LISTED {
        for room in 0..=lines.len() {
            is_listed(
                &rt,
                front(image.bytes.as_slice(), *count),
                *answer,
                lines,
                room,
            );
        }
    }
    Ok(())
}
