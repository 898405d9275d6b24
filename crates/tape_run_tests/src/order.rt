//! Tests of reels in order, in any order, and of reels that yield nothing.
use crate::image::{HDR2, Image, VOL1};
use crate::scripts::{Do, Reel, Script, each_goes};
use std::alloc::{AllocError, Global};
use std::test::Fail;
use tape_core::Answer::Useless;
use tape_core::{Answer, Reason};
use tape_run::Step;

const ONE: &[Step] = &[Step::Reel];

const TWO: &[Step] = &[Step::Reel, Step::Reel];

const THREE: &[Step] = &[Step::Reel, Step::Reel, Step::Reel];

const SCRIPTS: &[Script<'_>] = &[
    (
        "a file on one volume",
        1,
        &[
            Do::IsLong(Reel::Worked, 2484),
            Do::Runs(ONE, &[Reel::Worked], Ok(())),
            Do::Holds(25, None),
            Do::Weighs(25 * 85, 0),
        ],
    ),
    (
        "a record on two volumes",
        1,
        &[
            Do::IsLong(Reel::LongFirst, 1032),
            Do::IsLong(Reel::LongSecond, 486),
            Do::Runs(TWO, &[Reel::LongFirst, Reel::LongSecond], Ok(())),
            Do::HoldsLong(23, None),
        ],
    ),
    // Reading the first volume again yields nothing more.
    (
        "the second volume first",
        1,
        &[
            Do::Runs(ONE, &[Reel::LongSecond], Ok(())),
            Do::HoldsLong(0, Some((1, 0))),
            Do::Reads(
                Reel::LongSecond,
                Useless(Reason::LaterSection),
                0,
                Some((1, 0)),
            ),
            Do::HoldsLong(0, Some((1, 0))),
            Do::Reads(Reel::LongFirst, Answer::SectionDone, 22, Some((2, 0))),
            Do::HoldsLong(22, Some((2, 0))),
            Do::Reads(
                Reel::LongFirst,
                Useless(Reason::EarlierSection),
                0,
                Some((2, 0)),
            ),
            Do::HoldsLong(22, Some((2, 0))),
            Do::Reads(Reel::LongSecond, Answer::Complete, 1, None),
            Do::HoldsLong(23, None),
        ],
    ),
    (
        "second, first, second in one run",
        1,
        &[
            Do::Runs(
                THREE,
                &[Reel::LongSecond, Reel::LongFirst, Reel::LongSecond],
                Ok(()),
            ),
            Do::HoldsLong(23, None),
        ],
    ),
    // The trailer that completes the file ends at 2,384; nothing after it was read, and nothing of
    // the second reel.
    (
        "a complete file reads nothing",
        1,
        &[
            Do::Leaves(TWO, &[Reel::Worked, Reel::Worked], [2484 - 2384, 2484]),
            Do::Reads(Reel::Worked, Answer::Complete, 0, None),
            Do::Holds(25, None),
        ],
    ),
    (
        "reels that are none of the set",
        1,
        &[
            Do::Runs(THREE, &[Reel::Foreign, Reel::Blank, Reel::Empty], Ok(())),
            Do::Holds(0, Some((1, 0))),
            Do::Reads(Reel::Foreign, Useless(Reason::OtherSet), 0, Some((1, 0))),
            Do::Reads(Reel::Blank, Useless(Reason::NotLabelled), 0, Some((1, 0))),
        ],
    ),
];

#[test]
fn reels_in_any_order(rt: HostRuntime) -> Result<(), Fail> {
    each_goes(&rt, SCRIPTS)
}

/// Returns a volume with the identifier of the example volume, but another set identifier.
pub fn foreign(alloc: Global) -> Result<Image, AllocError> {
    let mut image = Image::new(alloc);
    image.headers(&[
        VOL1,
        "HDR1PAYROLL          XYZ00100010001000100 00000 00000 000000",
        HDR2,
    ])?;
    image.records(0, 10, true)?;
    Ok(image)
}
