//! The images from which the blocks of a file came.

ghost use Rattle.std.specs.Prelude.{◌≡◌, ◌+◌, ◌≤◌, None, IfOk, IfSome};
ghost use Rattle.tape_run.specs.Origins.{is_before, AreSources, runs_from, section_runs};
ghost use Rattle.tape_set.specs.Position.{start, want_at};
ghost use Rattle.tape_set.specs.declared.position.Position.TheVariants.{Finished};

use crate::lacks::good_end;
use crate::section::{LAST_SECTION, SectionKey};
use crate::unpack::{FoundFiles, SetFile};
use std::alloc::{AllocError, Global};
use tape_label::Field;
use tape_set::{Position, Want};

/// An image that was opened for a file.
#[derive(Clone, Copy)]
pub struct OpenedImage {
    /// The number of the image, counted from 0.
    pub image: usize,
    /// The position of the file's session before the image was read.
    pub at: Position,
}

/// Consecutive blocks of a file that came from one image, or that its session had before any image
/// was read.
#[derive(Clone, Copy)]
pub struct BlockRun {
    /// The number of the image, counted from 0, or `None` if the session had them before.
    pub image: Option<usize>,
    /// The position before the first of them.
    pub from: Position,
    /// The position after the last of them: `Finished` if they are the last ones of the file.
    pub end: Position,
}

/// Returns the position at which this part is expected next, or the end of the file for `None`.
pub fn position_of(want: Option<Want>) -> Position
    ensures part { IfSome want (λ part. want_at part.file result ≡ Some part) }
    ensures end { want ≡ None → result ≡ Finished }
{
    match want {
        Some(
            Want {
                sect,
                block,
                part,
                ..
            },
        ) => Position::Awaits { sect, block, part },
        None => Position::Finished,
    }
}

/// Returns whether a position is before another one in the file.
fn is_before(a: Position, b: Position) -> bool
    ensures { result ≡ is_before a b }
{
    match (a, b) {
        (
            Position::Awaits { sect, block, part },
            Position::Awaits {
                sect: other_sect,
                block: other_block,
                part: other_part,
            },
        ) => {
            if sect != other_sect {
                sect < other_sect
            } else if block != other_block {
                block < other_block
            } else {
                part < other_part
            }
        }
        (Position::Awaits { .. }, Position::Finished) => true,
        (Position::Finished, _) => false,
    }
}

/// Returns where the blocks of a file came from that a session recovered from these images, which
/// were opened in this order, and which left it at `end`. What was recovered from an image is lost
/// where the session returned to an earlier position before a later image was opened.
///
/// # Errors
///
/// Returns `AllocError` if there is no memory for the runs.
pub fn runs_of(
    alloc: Global,
    openings: &[OpenedImage],
    end: Position,
) -> Result<Vec<BlockRun>, AllocError>
    ensures { IfOk result (λ runs. AreSources openings.now end runs.items) }
{
    let mut runs = Vec::new(alloc);
    let (mut rest, mut end) = (openings, end);
    'openings: while let Some((opening, before)) = rest.split_last() {
        let OpenedImage { image, at } = *opening;
        if is_before(at, end) {
            let (image, from) = (Some(image), at);
            runs.insert(0, BlockRun { image, from, end })?;
            end = at;
        }
        rest = before;
    }
    let (image, from) = (None, Position::start());
    if is_before(from, end) {
        runs.insert(0, BlockRun { image, from, end })?;
    }
    Ok(runs)
}

impl FoundFiles {
    /// Returns where the blocks of a file come from whose sections are complete: each section from
    /// the image that [`extract_located`](crate::extract_located) reads for it. Ends before the
    /// first section that is complete on no image.
    ///
    /// # Errors
    ///
    /// Returns `AllocError` if there is no memory for the runs.
    #[tactic(auto, unfolding(crate::specs::Origins::section_runs))]
    pub fn section_runs(&self, alloc: Global, file: &SetFile) -> Result<Vec<BlockRun>, AllocError>
        ensures { IfOk result (λ runs. runs.items ≡ section_runs self.now.locations.entries
            self.now.sections.entries file.now.set_id file.now.file) }
    {
        self.runs_from(alloc, file.set_id, file.file, 1, LAST_SECTION)
    }

    /// Returns the same of at most `most` sections of a file, from section `from` on.
    fn runs_from(
        &self,
        alloc: Global,
        set_id: Field<6>,
        file: u16,
        from: u16,
        most: u16,
    ) -> Result<Vec<BlockRun>, AllocError>
        requires { from + most ≤ 65535 }
        ensures { IfOk result (λ runs. runs.items ≡ runs_from self.now.locations.entries
            self.now.sections.entries set_id file from most) }
    {
        let mut runs = Vec::new(alloc);
        let mut sect = from;
        let mut left = most;
        'sections: while left > 0 {
            let key = SectionKey { set_id, file, sect };
            let Some(number) = self.locations.get(&key) else {
                return Ok(runs);
            };
            let Some(eof) = good_end(&self.sections, &key) else {
                return Ok(runs);
            };
            let (image, block, part) = (Some(*number), 0, 0);
            let from = Position::Awaits { sect, block, part };
            if eof {
                let end = Position::Finished;
                runs.push(BlockRun { image, from, end })?;
                return Ok(runs);
            }
            sect += 1;
            let end = Position::Awaits { sect, block, part };
            runs.push(BlockRun { image, from, end })?;
            left -= 1;
        }
        Ok(runs)
    }
}
