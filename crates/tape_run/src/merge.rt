//! `merge`: several readings of one tape are read in parallel and combined into one tape.

ghost use Rattle.std.specs.Prelude.{◌≡◌, ◌<◌, ◌≤◌, ◌+◌, ◌==◌, IfOk, IfErr, None};
ghost use Rattle.tape_image.specs.Writer.{writing};
ghost use Rattle.tape_run.specs.MergeSteps.{AskedAll, HaveTaken, one_if};
ghost use Rattle.tape_run.specs.MergeCalls.{Merges, FitsFault, firsts_in, miscounted_of};
ghost use Rattle.tape_run.specs.declared.merge.MergeFault.TheVariants as faults;

pub(crate) mod candidate;
mod line;
mod log;
pub(crate) mod now;
pub(crate) mod open;
pub(crate) mod reading;

use crate::fault::WriteFailed;
use crate::met::Told;
use crate::passing::Phase;
use crate::section::SectionState;
use candidate::Candidate;
use log::log_item;
use reading::{Reading, ask};
use std::alloc::AllocError;
use std::io::{Read, Write};
use tape_image::{ImageWriteFault, ImageWriter};

/// The tape that the readings combine to.
#[derive(Clone, Copy, PartialEq, Eq)]
pub struct Merged {
    /// The number of items.
    pub items: u64,
    /// The number of bad items among them.
    pub bad: u64,
    /// The number of items that only one reading could read.
    pub alone: u64,
    /// The number of file sections, as `check` finds them, whose trailer labels give a wrong number
    /// of blocks.
    pub miscounted: u64,
}

impl Merged {
    /// Counts one more item: whether it is bad, how many readings have it, and the section that it
    /// completes.
    fn count(&mut self, bad: bool, witnesses: u64, told: Option<Told>)
        requires room { self.old.items < 4611686018427387904 }
        requires bad { self.old.bad ≤ self.old.items }
        requires alone { self.old.alone ≤ self.old.items }
        requires miscounted { self.old.miscounted ≤ self.old.items }
        ensures items { self.new.items ≡ self.old.items + 1 }
        ensures bad { self.new.bad ≡ self.old.bad + one_if bad }
        ensures alone { self.new.alone ≡ self.old.alone + one_if (witnesses == 1) }
        ensures miscounted { self.new.miscounted ≡ self.old.miscounted + miscounted_of told }
    {
        self.items += 1;
        if bad {
            self.bad += 1;
        }
        if witnesses == 1 {
            self.alone += 1;
        }
        if let Some((_, entry)) = told {
            if entry.state == SectionState::Count {
                self.miscounted += 1;
            }
        }
    }
}

/// The reason why readings were not merged to their ends.
#[derive(Clone, Copy, PartialEq, Eq)]
pub enum MergeFault {
    /// Two readings have different readable items at the given number, counted from 1: they are not
    /// readings of one tape.
    Differ(u64),
    /// Memory was refused.
    OutOfMemory,
    /// The merged image could not be written.
    Write(ImageWriteFault),
    /// The log could not be written.
    Log,
}

impl From<AllocError> for MergeFault {
    ghost from_gives = { λ _ e. e ≡ faults.OutOfMemory };

    fn from(_error: AllocError) -> MergeFault {
        MergeFault::OutOfMemory
    }
}

impl From<ImageWriteFault> for MergeFault {
    ghost from_gives = { λ fault e. e ≡ faults.Write fault };

    fn from(fault: ImageWriteFault) -> MergeFault {
        MergeFault::Write(fault)
    }
}

impl From<WriteFailed> for MergeFault {
    ghost from_gives = { λ _ e. e ≡ faults.Log };

    fn from(_fault: WriteFailed) -> MergeFault {
        MergeFault::Log
    }
}

/// Asks each reading for its next item, and returns how many have it in readable form. The best
/// item becomes the candidate; an item that differs from it is kept as the other one.
fn ask_all<R: Read>(
    readings: &mut [Reading<'_, R>],
    best: &mut Candidate,
    other: &mut Candidate,
) -> Result<u64, AllocError>
    requires best { best.old ≡ None }
    requires other { other.old ≡ None }
    ensures asked { IfOk result (λ _. AskedAll readings.old readings.new None best.new
        None other.new) }
    ensures witnesses { IfOk result (λ witnesses. witnesses ≡ firsts_in readings.new) }
{
    let mut witnesses = 0u64;
    for number in 0..readings.len() {
        ask(&mut readings[number], best, other)?;
        witnesses += readings[number].verdict.witnesses();
    }
    Ok(witnesses)
}

/// Reads the readings side by side, item by item, and writes the tape that they make together. The
/// log gets a row for each item that fewer than two readings have, or that is bad in one.
///
/// `best` and `other` hold the item under way: the best one that was read, and one that differs
/// from it. At a difference every reading was asked for its item, and its `verdict` says how the
/// item compares.
///
/// # Errors
///
/// `Differ` at the first item at which two readings have different items, both readable.
/// `OutOfMemory` if a block cannot be copied. `Write` with `Device`, or with `TooLong` if the
/// merged image would be longer than an image may be. `Log` if the log fails. What was written
/// before stays written.
pub fn merge_items<R: Read, W: Write + Drop, G: Write>(
    readings: &mut [Reading<'_, R>],
    best: &mut Candidate,
    other: &mut Candidate,
    out: &mut ImageWriter<W>,
    log: &mut G,
) -> Result<Merged, MergeFault>
    requires writing { out.old.standing ≡ writing }
    ensures ok { IfOk result (λ merged. Merges (HaveTaken readings.old readings.new)
        readings.new merged out.old out.new (G.contents log.old) (G.contents log.new)) }
    ensures fault { IfErr result (FitsFault readings.old readings.new out.old out.new) }
{
    let mut merged = Merged {
        items: 0,
        bad: 0,
        alone: 0,
        miscounted: 0,
    };
    let mut phase = Phase::Volume;
    'items: loop {
        best.clear();
        other.clear();
        let witnesses = ask_all(readings, best, other)?;
        if other.is_some() {
            return Err(MergeFault::Differ(merged.items + 1));
        }
        if !best.put(out)? {
            return Ok(merged);
        }
        log_item(merged.items + 1, best, witnesses, readings, log)?;
        let (next, told) = best.step(phase);
        phase = next;
        merged.count(best.is_bad(), witnesses, told);
    }
}
