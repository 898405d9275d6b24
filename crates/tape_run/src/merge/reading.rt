//! A reading of a tape: an image, and the items read from it so far.

ghost use Rattle.std.specs.Prelude.{◌≡◌, IfOk, OnOk};
ghost use Rattle.tape_image.specs.Reader.{tape_item};
ghost use Rattle.tape_run.specs.MergeSteps.{Compares, Asked};
ghost use Rattle.tape_run.specs.MergeCalls.{has_first};

use super::candidate::Candidate;
use std::alloc::AllocError;
use std::io::Read;
use tape_image::{ImageFault, ImageReader, Item};

/// The result of comparing the item of one reading with the items of the readings before it.
#[derive(Clone, Copy, PartialEq, Eq)]
pub enum Verdict {
    /// It is the first item that could be read, or equal to it.
    First,
    /// It is unreadable.
    Bad,
    /// It is the first item that differs from the first readable one, or equal to it.
    Second,
    /// It differs from both.
    Third,
    /// There is no item: the reading ended.
    Ended,
    /// There is no item: the reading stopped at this fault.
    Failed(ImageFault),
}

/// An image that is read in parallel with others, and the items read from it so far.
#[derive(Drop)]
pub struct Reading<'r, R: Read> {
    pub image: ImageReader<'r, R>,
    /// The number of items that were read.
    pub items: u64,
    /// The number of bad items among them.
    pub bad: u64,
    /// The byte offset at which the last of them begins, including an erase gap before it.
    pub from: u64,
    /// The number of bytes of the last item, or 0 if it is not a block.
    pub length: u64,
    /// The verdict on its current item.
    pub verdict: Verdict,
}

impl Verdict {
    /// Returns 1 if the reading has the first item, and 0 otherwise.
    pub(crate) fn witnesses(&self) -> u64
        ensures { result ≡ has_first self.now }
    {
        match self {
            Verdict::First => 1,
            _ => 0,
        }
    }
}

impl<'r, R: Read> Reading<'r, R> {
    /// Creates a reading of an unread image.
    pub fn new(image: ImageReader<'r, R>) -> Reading<'r, R>
        ensures image { result.image ≡ image.entry }
        ensures none { (result.items ≡ 0) × (result.bad ≡ 0) }
    {
        Reading {
            image,
            items: 0,
            bad: 0,
            from: 0,
            length: 0,
            verdict: Verdict::Ended,
        }
    }
}

/// Compares an item of a reading with the candidate, and with the other one if it differs.
fn take_item(
    item: Item<'_>,
    best: &mut Candidate,
    other: &mut Candidate,
) -> Result<Verdict, AllocError>
    ensures { IfOk result (λ verdict. Compares verdict (tape_item item.entry)
        best.old best.new other.old other.new) }
{
    if best.take(item)? {
        return Ok(match item {
            Item::Bad => Verdict::Bad,
            Item::Mark | Item::Block(_) => Verdict::First,
        });
    }
    if other.take(item)? {
        return Ok(Verdict::Second);
    }
    Ok(Verdict::Third)
}

/// Reads the next item of a reading, compares it, and counts it.
pub(crate) fn ask<R: Read>(
    reading: &mut Reading<'_, R>,
    best: &mut Candidate,
    other: &mut Candidate,
) -> Result<(), AllocError>
    ensures same_device { reading.new.image.device ≡ reading.old.image.device }
    ensures asked { OnOk result (Asked reading.old reading.new best.old best.new
        other.old other.new) }
{
    let from = reading.image.place();
    let item = match reading.image.next() {
        Ok(Some(item)) => item,
        Ok(None) => {
            reading.verdict = Verdict::Ended;
            return Ok(());
        }
        Err(fault) => {
            reading.verdict = Verdict::Failed(fault);
            return Ok(());
        }
    };
    let (length, bad) = match item {
        Item::Block(bytes) => (bytes.len() as u64, 0),
        Item::Mark => (0, 0),
        Item::Bad => (0, 1),
    };
    reading.verdict = take_item(item, best, other)?;
    reading.items = reading.items.saturating_add(1);
    reading.bad = reading.bad.saturating_add(bad);
    reading.from = from;
    reading.length = length;
    Ok(())
}
