//! Tests of sessions, step by step: the image that is read, the answer, and the state afterwards.
use crate::answers::{defaced, with_reserved_word};
use crate::copies::without_a_mark;
use crate::image::{
    EOF_FIVE, Image, blank, five_blocks, holds_long, holds_records, long_first, long_second,
};
use crate::order::foreign;
use crate::sections::{first_of_two, of_blocks, one_section, second_of_two};
use crate::sessions::begun;
use crate::volumes::cut;
use std::alloc::{AllocError, Global};
use std::process::Abort;
use std::test::Fail;
use tape_core::{Answer, MemorySink, PartSink};
use tape_run::{ReelAnswer, RunFault, Session, Step, Stopped, run};
use tape_set::{Position, Want};

/// An image that is read.
#[derive(Clone, Copy)]
pub enum Reel<'a> {
    /// The example volume.
    Worked,
    /// The first bytes of the example volume, as many as the number says.
    Cut(usize),
    /// The example file in five blocks, one of which is bad (5 means none), with this trailer
    /// label.
    Five(u8, &'a str),
    /// The first bytes of the example file in five good blocks, with the right count.
    FiveCut(usize),
    /// A volume with this number of blocks of one byte, and this trailer label.
    Blocks(u32, &'a str),
    /// A volume with a section of one block of one byte: its header label and its trailer label.
    Section(&'a str, &'a str),
    /// The example file on two volumes: the first one.
    FirstOfTwo,
    SecondOfTwo,
    /// The long record on two volumes: the first one.
    LongFirst,
    LongSecond,
    /// A volume with no file.
    Blank,
    /// An image without bytes.
    Empty,
    /// A volume of another set.
    Foreign,
    /// Two files, without the mark that closes the first.
    WithoutMark,
    /// A volume with a block in place of one of its labels.
    Defaced(usize),
    /// A volume with a reserved word where its first data block begins.
    Reserved,
}

/// The section and the block that is missing from its first part, or `None` if nothing is missing.
pub type Wanted = Option<(u16, u32)>;

/// A step of a session, and its expected result.
#[derive(Clone, Copy)]
pub enum Do<'a> {
    /// Reads a reel without a fault: the answer, the number of blocks delivered, and the block
    /// expected afterwards.
    Reads(Reel<'a>, Answer, u32, Wanted),
    /// Reads a reel up to a fault of the image: the answer, which contains the blocks delivered and
    /// the fault, and the block expected afterwards.
    Breaks(Reel<'a>, ReelAnswer, Wanted),
    /// Makes steps over some reels: the result.
    Runs(&'a [Step], &'a [Reel<'a>], Result<(), Stopped>),
    /// Makes steps over two reels: the number of bytes of each that are left.
    Leaves(&'a [Step], &'a [Reel<'a>], [usize; 2]),
    /// Saves a checkpoint: its position, and the staged weight.
    Saves(Position, u64),
    /// Rolls back to a checkpoint: its number, and the result.
    Restarts(usize, Result<(), RunFault>),
    /// Checks that the sink contains a number of the example records, and which block is expected
    /// next.
    Holds(u8, Wanted),
    /// Checks that the sink contains a number of parts of the long record, and which block is
    /// expected next.
    HoldsLong(usize, Wanted),
    /// Checks the weight of the sink's contents, and the number of readers that failed.
    Weighs(u64, u64),
    /// Checks the number of bytes in the image of a reel.
    IsLong(Reel<'a>, usize),
}

/// A script: its name, the file, and its steps.
pub type Script<'a> = (&'a str, u16, &'a [Do<'a>]);

/// Follows each script in a session of its own.
pub fn each_goes<H: Abort + AllocGlobal>(rt: &H, scripts: &[Script<'_>]) -> Result<(), Fail> {
    for (name, file, steps) in scripts {
        goes(rt, name, *file, steps)?;
    }
    Ok(())
}

/// Follows a script, and fails unless each step has its expected result.
fn goes<H: Abort + AllocGlobal>(
    rt: &H,
    name: &str,
    file: u16,
    steps: &[Do<'_>],
) -> Result<(), Fail> {
    let mut session = begun(rt.alloc(), file)?;
    for (number, step) in steps.iter().enumerate() {
        assert!(rt;
            takes(rt.alloc(), &mut session, file, step)?,
            "{name}: the step behind {number} others"
        );
    }
    Ok(())
}

/// Makes a step, and returns whether it had its expected result.
fn takes(
    alloc: Global,
    session: &mut Session<MemorySink>,
    file: u16,
    step: &Do<'_>,
) -> Result<bool, Fail> {
    match *step {
        Do::Reads(reel, answer, blocks, wanted) => {
            let told = of_no_fault(answer, blocks);
            Ok(answers(alloc, session, reel)? == told && wants(session, file, wanted))
        }
        Do::Breaks(reel, told, wanted) => {
            Ok(answers(alloc, session, reel)? == told && wants(session, file, wanted))
        }
        Do::Runs(steps, reels, end) => Ok(runs(alloc, session, steps, reels)? == end),
        Do::Leaves(steps, reels, left) => Ok(leaves(alloc, session, steps, reels, left)?),
        Do::Saves(position, staged) => Ok(saves(session, position, staged)?),
        Do::Restarts(number, end) => Ok(session.restart(number) == end),
        Do::IsLong(reel, length) => Ok(image_of(alloc, reel)?.bytes.len() == length),
        stands => Ok(stands_so(session, file, stands)),
    }
}

/// Returns whether the session is in the state that `step` describes.
fn stands_so(session: &Session<MemorySink>, file: u16, step: Do<'_>) -> bool {
    let sink = session.sink();
    match step {
        Do::Holds(count, wanted) => holds_records(sink, count) && wants(session, file, wanted),
        Do::HoldsLong(parts, wanted) => holds_long(sink, parts) && wants(session, file, wanted),
        Do::Weighs(weight, failed) => {
            (sink.weight(), session.device_faults()) == (weight, failed)
        }
        _ => false,
    }
}

/// Returns the answer of a reel that was read without a fault.
fn of_no_fault(answer: Answer, blocks: u32) -> ReelAnswer {
    ReelAnswer {
        answer,
        fault: None,
        blocks,
    }
}

/// Returns whether saving yields a checkpoint with position `position` and weight `staged`.
fn saves(
    session: &mut Session<MemorySink>,
    position: Position,
    staged: u64,
) -> Result<bool, RunFault> {
    let point = session.save()?;
    Ok((point.position, point.staged) == (position, staged))
}

/// Returns whether the session of the file expects `wanted` next.
fn wants(session: &Session<MemorySink>, file: u16, wanted: Wanted) -> bool {
    let want = match wanted {
        Some((sect, block)) => Some(Want {
            file,
            sect,
            block,
            part: 0,
        }),
        None => None,
    };
    session.want() == want
}

/// Returns the answer to the reel.
fn answers(
    alloc: Global,
    session: &mut Session<MemorySink>,
    reel: Reel<'_>,
) -> Result<ReelAnswer, Fail> {
    let image = image_of(alloc, reel)?;
    Ok(session.reel(&mut image.bytes.as_slice())?)
}

/// Makes the steps over the reels, and returns how they end.
fn runs(
    alloc: Global,
    session: &mut Session<MemorySink>,
    steps: &[Step],
    reels: &[Reel<'_>],
) -> Result<Result<(), Stopped>, AllocError> {
    let images = images_of(alloc, reels)?;
    let mut readers = readers_of(alloc, images.as_slice())?;
    Ok(run(session, steps, readers.as_mut_slice(), &mut []))
}

/// Returns whether the steps over two reels leave `left` bytes of each.
fn leaves(
    alloc: Global,
    session: &mut Session<MemorySink>,
    steps: &[Step],
    reels: &[Reel<'_>],
    left: [usize; 2],
) -> Result<bool, AllocError> {
    let images = images_of(alloc, reels)?;
    let mut readers = readers_of(alloc, images.as_slice())?;
    let done = run(session, steps, readers.as_mut_slice(), &mut []).is_ok();
    Ok(match readers.as_slice() {
        [first, second] => done && [first.len(), second.len()] == left,
        _ => false,
    })
}

/// Returns the images of the reels.
fn images_of(alloc: Global, reels: &[Reel<'_>]) -> Result<Vec<Image>, AllocError> {
    let mut images = Vec::new(alloc);
    for reel in reels {
        images.push(image_of(alloc, *reel)?)?;
    }
    Ok(images)
}

/// Returns a reader of each image.
fn readers_of<'a>(alloc: Global, images: &'a [Image]) -> Result<Vec<&'a [u8]>, AllocError> {
    let mut readers = Vec::new(alloc);
    for image in images {
        readers.push(image.bytes.as_slice())?;
    }
    Ok(readers)
}

/// Returns the image of a reel.
pub fn image_of(alloc: Global, reel: Reel<'_>) -> Result<Image, AllocError> {
    match reel {
        Reel::Worked => cut(alloc, 2484),
        Reel::Cut(length) => cut(alloc, length),
        Reel::Five(bad, trailer) => five_blocks(alloc, bad, trailer),
        Reel::FiveCut(length) => Ok(five_blocks(alloc, 5, EOF_FIVE)?.cut(length)),
        Reel::Blocks(count, trailer) => of_blocks(alloc, count, trailer),
        Reel::Section(header, trailer) => one_section(alloc, header, trailer),
        Reel::FirstOfTwo => first_of_two(alloc),
        Reel::SecondOfTwo => second_of_two(alloc),
        Reel::LongFirst => long_first(alloc),
        Reel::LongSecond => long_second(alloc),
        Reel::Blank => blank(alloc),
        Reel::Empty => Ok(Image::new(alloc)),
        Reel::Foreign => foreign(alloc),
        Reel::WithoutMark => without_a_mark(alloc),
        Reel::Defaced(label) => defaced(alloc, label),
        Reel::Reserved => with_reserved_word(alloc),
    }
}
