//! Tests of files for which the images are read several times.
ghost use Rattle.std.specs.Prelude.{⊤, length};

use crate::extract::shelf_of;
use crate::image::{Image, long_first, long_second, set_id};
use crate::taken_back::{lost, volume};
use std::alloc::{AllocError, Global};
use std::process::Abort;
use std::test::Fail;
use tape_blocks::Form;
use tape_core::MemorySink;
use tape_run::{AsTheyAre, ImageSource, Session, extract_in_passes};

/// A source of reels, each of which is returned as often as it is mounted.
#[derive(Drop)]
pub struct Kept<'a> {
    pub reels: &'a [&'a [u8]],
}

impl<'a> ImageSource<&'a [u8]> for Kept<'a> {
    ghost size = { λ kept. length kept.reels.now };

    ghost gives = { λ _ _ _ _. ⊤ };

    fn count(&self) -> usize {
        self.reels.len()
    }

    fn mount(&mut self, number: usize) -> Result<Option<&'a [u8]>, AllocError> {
        match self.reels.get(number) {
            Some(reel) => Ok(Some(*reel)),
            None => Ok(None),
        }
    }
}

/// Returns the example volume, with its first or its second block unreadable.
fn bad_at(alloc: Global, bad: u8) -> Result<Image, AllocError> {
    volume(
        alloc,
        &[(0, 10, bad != 1), (10, 20, bad != 2), (20, 25, true)],
    )
}

/// Fails unless a session with a checkpoint reports `lines` over `reels`, and writes `length`
/// bytes.
fn gives<H: Abort + AllocGlobal>(
    rt: &H,
    reels: &[&[u8]],
    lines: &str,
    length: usize,
) -> Result<(), Fail> {
    let (mut report, mut out) = (Vec::new(rt.alloc()), Vec::new(rt.alloc()));
    let mut session = Session::new(rt.alloc(), set_id(), 1, MemorySink::new(rt.alloc()))?;
    session.note()?;
    let mut shelf = Kept { reels };
    let (out, report) = (&mut out, &mut report);
    extract_in_passes(
        &mut session,
        &mut shelf,
        &mut AsTheyAre,
        true,
        Form::Raw,
        out,
        report,
    )?;
    assert_eq!(rt; report.as_slice(), lines.as_bytes(), "{lines}");
    assert!(rt; out.len() == length, "{lines}");
    Ok(())
}

const COPIES: &str = "REEL 1 BAD ITEM\nREEL 2 BAD ITEM\nREEL 3 COMPLETE\nCOMPLETE 25\n";

const VOLUMES: &str = "REEL 1 LATER SECTION\nREEL 2 SECTION DONE\nREEL 3 COMPLETE\nCOMPLETE 1\n";

const ALONE: &str = "REEL 1 BAD ITEM\nREEL 2 BAD ITEM\nAWAITS 1 1 1\n";

/// The report if the second reel has one block less: the session rolls back in each pass.
const DOUBT: &str = "REEL 1 BAD ITEM\nREEL 2 BLOCK COUNT 3 2\nREEL 3 BAD ITEM
REEL 4 BLOCK COUNT 3 2\nAWAITS 1 1 1\n";

#[test]
fn rounds_until_nothing_comes(rt: HostRuntime) -> Result<(), Fail> {
    let alloc = rt.alloc();
    let (one, two, lost) = (bad_at(alloc, 1)?, bad_at(alloc, 2)?, lost(alloc)?);
    let (one, two) = (one.bytes.as_slice(), two.bytes.as_slice());
    let (first, second) = (long_first(alloc)?, long_second(alloc)?);
    let (first, second) = (first.bytes.as_slice(), second.bytes.as_slice());
    gives(&rt, &[one, two], COPIES, 2000)?;
    gives(&rt, &[second, first], VOLUMES, 290)?;
    gives(&rt, &[two], ALONE, 0)?;
    gives(&rt, &[two, lost.bytes.as_slice()], DOUBT, 0)?;
    gives(&rt, &[], "AWAITS 1 1 0\n", 0)
}

/// A source that yields each reel once has none in the second pass.
#[test]
fn reels_that_are_given_once(rt: HostRuntime) -> Result<(), Fail> {
    let two = bad_at(rt.alloc(), 2)?;
    let (mut report, mut out) = (Vec::new(rt.alloc()), Vec::new(rt.alloc()));
    let mut session = Session::new(rt.alloc(), set_id(), 1, MemorySink::new(rt.alloc()))?;
    let mut shelf = shelf_of(rt.alloc(), &mut [Some(two.bytes.as_slice())])?;
    let (out, report) = (&mut out, &mut report);
    extract_in_passes(
        &mut session,
        &mut shelf,
        &mut AsTheyAre,
        true,
        Form::Raw,
        out,
        report,
    )?;
    let lines = "REEL 1 BAD ITEM\nREEL 2 NOT OPENED\nAWAITS 1 1 1\n";
    assert_eq!(rt; report.as_slice(), lines.as_bytes(), "{lines}");
    Ok(())
}
