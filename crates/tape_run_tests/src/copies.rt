//! Tests of damaged copies, completed by others.
use crate::image::{EOF_FIVE, HDR1, HDR2, Image, VOL1};
use crate::scripts::{Do, Reel, Script, each_goes};
use std::alloc::{AllocError, Global};
use std::test::Fail;
use tape_core::Answer::Useless;
use tape_core::{Answer, Reason};
use tape_image::{ImageCause, ImageFault};
use tape_label::LabelFault;
use tape_run::{ReelAnswer, Step};

const ONE: &[Step] = &[Step::Reel];

/// The example file in five blocks, the fourth or the second of which is bad.
const FOURTH_BAD: Reel<'_> = Reel::Five(3, EOF_FIVE);

const SECOND_BAD: Reel<'_> = Reel::Five(1, EOF_FIVE);

/// The answer for the example volume truncated inside its last data block.
const CUT_OFF: ReelAnswer = ReelAnswer {
    answer: Useless(Reason::ReelEnded),
    fault: Some(ImageFault {
        place: 1884,
        cause: ImageCause::Truncated,
    }),
    blocks: 2,
};

const SCRIPTS: &[Script<'_>] = &[
    // The bad block of the second copy was delivered before, and does not stop it.
    (
        "bad blocks in two copies",
        1,
        &[
            Do::Reads(FOURTH_BAD, Useless(Reason::BadItem), 3, Some((1, 3))),
            Do::Reads(SECOND_BAD, Answer::Complete, 2, None),
            Do::Holds(25, None),
        ],
    ),
    (
        "both copies in one run",
        1,
        &[
            Do::Runs(&[Step::Reel, Step::Reel], &[FOURTH_BAD, SECOND_BAD], Ok(())),
            Do::Holds(25, None),
        ],
    ),
    (
        "the closing mark of the file before is lost",
        2,
        &[
            Do::Reads(
                Reel::WithoutMark,
                Useless(Reason::BadLabel(LabelFault::Identifier)),
                0,
                Some((1, 0)),
            ),
            Do::Runs(ONE, &[Reel::WithoutMark], Ok(())),
            Do::Holds(0, Some((1, 0))),
        ],
    ),
    (
        "cut behind the last block's data",
        1,
        &[
            Do::Runs(ONE, &[Reel::Cut(2288)], Ok(())),
            Do::Holds(20, Some((1, 2))),
            Do::Runs(ONE, &[Reel::Worked], Ok(())),
            Do::Holds(25, None),
        ],
    ),
    (
        "cut one byte into its first word",
        1,
        &[
            Do::Runs(ONE, &[Reel::Cut(1885)], Ok(())),
            Do::Holds(20, Some((1, 2))),
            Do::Runs(ONE, &[Reel::Worked], Ok(())),
            Do::Holds(25, None),
        ],
    ),
    (
        "cut behind the last block",
        1,
        &[
            Do::Runs(ONE, &[Reel::Cut(2292)], Ok(())),
            Do::Holds(25, Some((1, 3))),
            Do::Runs(ONE, &[Reel::Worked], Ok(())),
            Do::Holds(25, None),
        ],
    ),
    // An image that is truncated between two items has a physical end, which is not a fault.
    (
        "a cut is told with its place",
        1,
        &[
            Do::Breaks(Reel::Cut(2288), CUT_OFF, Some((1, 2))),
            Do::Reads(Reel::Cut(2292), Useless(Reason::ReelEnded), 1, Some((1, 3))),
        ],
    ),
];

#[test]
fn damaged_copies(rt: HostRuntime) -> Result<(), Fail> {
    each_goes(&rt, SCRIPTS)
}

/// Returns a volume with two files, where an unreadable block replaces the mark that closes the
/// first file.
pub fn without_a_mark(alloc: Global) -> Result<Image, AllocError> {
    let mut image = Image::new(alloc);
    image.headers(&[VOL1, HDR1, HDR2])?;
    image.records(0, 10, true)?;
    image.bad(b"?")?;
    image.headers(&[
        "EOF1PAYROLL          ABC00100010001000100 00000 00000 000001",
        "EOF2F0080000080                                   00",
    ])?;
    image.headers(&[
        "HDR1STOCK            ABC00100010002000100 00000 00000 000000",
        HDR2,
    ])?;
    image.records(0, 10, true)?;
    image.trailers(&["EOF1STOCK            ABC00100010002000100 00000 00000 000001"])?;
    image.end()?;
    Ok(image)
}
