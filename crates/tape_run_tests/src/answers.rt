//! Tests of the answers to reels that contradict themselves.
use crate::image::{EOF_FIVE, HDR1, HDR2, Image, VOL1};
use crate::scripts::{Do, Reel, Script, each_goes};
use crate::volumes::EOF_FOUR;
use std::alloc::{AllocError, Global};
use std::test::Fail;
use tape_core::Answer::Useless;
use tape_core::{Reason, SinkFault};
use tape_image::{ImageCause, ImageFault};
use tape_label::LabelFault;
use tape_run::{ReelAnswer, RunFault, Step};

/// The example file in five good blocks, and with another count of them.
const GOOD: Reel<'_> = Reel::Five(5, EOF_FIVE);

const COUNTED: Reel<'_> = Reel::Five(5, EOF_FOUR);

const IDENTIFIER: Reason = Reason::BadLabel(LabelFault::Identifier);

/// The answer to a reserved word where the first data block begins.
const RESERVED: ReelAnswer = ReelAnswer {
    answer: Useless(Reason::ReelEnded),
    fault: Some(ImageFault {
        place: 268,
        cause: ImageCause::Reserved(0x1000_0001),
    }),
    blocks: 0,
};

const SCRIPTS: &[Script<'_>] = &[
    // A rollback repairs a session that a wrong count broke.
    (
        "another count",
        1,
        &[
            Do::Runs(&[Step::Save], &[COUNTED], Ok(())),
            Do::Reads(
                COUNTED,
                Useless(Reason::BlockCount { label: 4, seen: 5 }),
                5,
                Some((1, 5)),
            ),
            Do::Reads(GOOD, Useless(Reason::Broken), 0, Some((1, 5))),
            Do::Runs(&[Step::Restart(0), Step::Reel], &[GOOD], Ok(())),
            Do::Holds(25, None),
        ],
    ),
    (
        "no volume label",
        1,
        &[Do::Reads(
            Reel::Defaced(0),
            Useless(Reason::NotLabelled),
            0,
            Some((1, 0)),
        )],
    ),
    (
        "no first header label",
        1,
        &[Do::Reads(
            Reel::Defaced(1),
            Useless(Reason::NotLabelled),
            0,
            Some((1, 0)),
        )],
    ),
    (
        "no second header label",
        1,
        &[Do::Reads(Reel::Defaced(2), Useless(IDENTIFIER), 0, Some((1, 0)))],
    ),
    // The block after the data was delivered, and its trailer label is expected.
    (
        "no trailer label",
        1,
        &[Do::Reads(Reel::Defaced(3), Useless(IDENTIFIER), 1, Some((1, 1)))],
    ),
    (
        "a fault of the image is told",
        1,
        &[
            Do::Breaks(Reel::Reserved, RESERVED, Some((1, 0))),
            Do::Weighs(0, 0),
        ],
    ),
];

#[test]
fn reels_that_contradict_themselves(rt: HostRuntime) -> Result<(), Fail> {
    each_goes(&rt, SCRIPTS)
}

/// Returns a volume whose first data block begins with a reserved word.
pub fn with_reserved_word(alloc: Global) -> Result<Image, AllocError> {
    let mut image = Image::new(alloc);
    image.headers(&[VOL1, HDR1, HDR2])?;
    image.word([0x01, 0x00, 0x00, 0x10])?;
    Ok(image)
}

/// Returns a volume of one block, in which label number `which`, from 0 to 3, is replaced by 80
/// bytes 0xFF.
pub fn defaced(alloc: Global, which: usize) -> Result<Image, AllocError> {
    let mut image = Image::new(alloc);
    for (number, label) in [VOL1, HDR1, HDR2].iter().enumerate() {
        if number == which {
            image.block(&[0xFF; 80])?;
        } else {
            image.label(label)?;
        }
    }
    image.mark()?;
    image.records(0, 5, true)?;
    image.mark()?;
    if which == 3 {
        image.block(&[0xFF; 80])?;
    } else {
        image.label("EOF1PAYROLL          ABC00100010001000100 00000 00000 000001")?;
    }
    image.mark()?;
    image.end()?;
    Ok(image)
}

const NUMBERS: &[(RunFault, u8)] = &[
    (RunFault::Sink(SinkFault::Full), 1),
    (RunFault::NoSuchPoint, 2),
    (RunFault::TooFewReels, 3),
    (RunFault::OutOfMemory, 4),
    (RunFault::OtherFile, 5),
];

#[test]
fn faults_have_numbers(rt: HostRuntime) {
    for (fault, number) in NUMBERS {
        assert!(rt; fault.number() == *number, "{fault}");
    }
}
