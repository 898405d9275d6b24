//! The report of `salvage`, read: from which images the blocks of a file come.

use super::report::LastLine;
use std::alloc::Global;
use std::io::Write;
use std::{io, mem};
use tape_run::BlockRun;
use tape_set::Position;

/// Blocks of a section that are read from one image.
#[derive(Clone, Copy)]
struct TakenBlocks {
    sect: u16,
    /// The number of the image, counted from 0.
    image: usize,
    /// The number of the first block.
    first: u32,
    /// The number after that of the last one.
    after: u32,
}

/// A report of `salvage`: its last line, and the images from which blocks are read.
#[derive(Drop)]
pub struct SectionLines {
    pub last: LastLine,
    /// The blocks that are missing on the image of a section, and are on another one.
    fills: Vec<TakenBlocks>,
    /// The blocks of each section, without a gap if the file is complete.
    pub runs: Vec<BlockRun>,
    /// Whether there was no memory for all of them.
    pub is_short: bool,
    /// Whether those of each section end with its last block, since sections may be missing.
    has_ends: bool,
}

impl SectionLines {
    /// Creates a report without lines.
    pub fn new(alloc: Global) -> SectionLines {
        SectionLines {
            last: LastLine::new(),
            fills: Vec::new(alloc),
            runs: Vec::new(alloc),
            is_short: false,
            has_ends: false,
        }
    }

    /// Creates the report, without lines, of a file of which sections may be missing.
    pub fn with_ends(alloc: Global) -> SectionLines {
        let mut lines = SectionLines::new(alloc);
        lines.has_ends = true;
        lines
    }

    /// Records what the last line says about blocks. Lines `FILLED` precede the lines `SECTION`.
    fn note(&mut self) {
        let line = self.last.text();
        let is_kept = if let Some(fill) = taken_in(line, "FILLED ") {
            self.fills.push(fill).is_ok()
        } else if let Some(section) = taken_in(line, "SECTION ") {
            self.add_section(&section)
        } else {
            true
        };
        self.is_short = self.is_short || !is_kept;
    }

    /// Adds the blocks of a section: those of its image, and those that other images have instead.
    /// Returns false if there is no memory for them.
    fn add_section(&mut self, section: &TakenBlocks) -> bool {
        let (mut block, mut is_kept) = (0, true);
        for fill in &self.fills {
            if fill.sect == section.sect && fill.first >= block {
                if fill.first > block {
                    is_kept = is_kept && add_run(&mut self.runs, section, block);
                }
                is_kept = is_kept && add_run(&mut self.runs, fill, fill.first);
                block = fill.after;
            }
        }
        if block < section.after || block == 0 {
            is_kept = is_kept && add_run(&mut self.runs, section, block);
        }
        if self.has_ends
            && let Some(last) = self.runs.last_mut()
        {
            let (sect, block, part) = (section.sect, block.max(section.after), 0);
            last.end = Position::Awaits { sect, block, part };
        }
        is_kept
    }

    /// Gives `runs` the blocks of the sections, and keeps none.
    pub fn give_runs(&mut self, alloc: Global, runs: &mut Vec<BlockRun>) {
        *runs = mem::replace(&mut self.runs, Vec::new(alloc));
    }
}

/// Adds blocks that were taken from an image, from number `block` on: they end those before them,
/// unless these have an end. Returns false if there is no memory for them.
fn add_run(runs: &mut Vec<BlockRun>, taken: &TakenBlocks, block: u32) -> bool {
    let (sect, part) = (taken.sect, 0);
    let from = Position::Awaits { sect, block, part };
    if let Some(before) = runs.last_mut()
        && let Position::Finished = before.end
    {
        before.end = from;
    }
    let (image, end) = (Some(taken.image), Position::Finished);
    runs.push(BlockRun { image, from, end }).is_ok()
}

/// Returns the blocks in a line `SECTION S N BLOCKS` or `FILLED S N FIRST LAST`, which begins with
/// this word.
fn taken_in(line: &[u8], word: &str) -> Option<TakenBlocks> {
    let mut words = str::from_utf8(line).ok()?.strip_prefix(word)?.split(' ');
    let mut numbers = [0u32; 3];
    for place in 0..3 {
        numbers[place] = words.next()?.parse::<u32>().ok()?;
    }
    let last = words.next().and_then(|word| word.parse::<u32>().ok());
    let (first, after) = match last {
        Some(last) => (numbers[2], last.saturating_add(1)),
        None => (0, numbers[2]),
    };
    Some(TakenBlocks {
        sect: u16::try_from(numbers[0]).ok()?,
        image: (numbers[1] as usize).checked_sub(1)?,
        first,
        after,
    })
}

impl Write for SectionLines {
    fn write(&mut self, buf: &[u8]) -> io::Result<usize> {
        for byte in buf {
            self.last.write_all(&[*byte])?;
            if *byte == b'\n' {
                self.note();
            }
        }
        Ok(buf.len())
    }

    fn flush(&mut self) -> io::Result<()> {
        Ok(())
    }
}
