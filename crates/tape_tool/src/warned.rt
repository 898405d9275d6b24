//! Images that are read as they are. A warning on standard error names each that has other data
//! than were recovered before it. An image that cannot be compared is read without a warning.

use crate::extract::Task;
use crate::images::{Image, Images};
use crate::refusal::open;
use crate::screen::{Host, Progress};
use crate::stage::ReadOnly;
use crate::staging::same_file;
use std::alloc::{AllocError, Global};
use std::fs::File;
use tape_core::PartSink;
use tape_label::Field;
use tape_run::{ImageSource, Opener, RunFault, Session};
use tape_set::Want;
use tape_stage::{BufferedFile, Stage, buffered_file};

/// The place at which a session was before it read an image.
#[derive(Clone, Copy)]
struct Turn {
    /// The number of the image.
    number: usize,
    sect: u16,
    block: u32,
}

/// Opens images as they are. Before one is read that has blocks of the section needed which were
/// recovered before, these are compared: with the stage, if there is one, otherwise with the images
/// that gave them. The image is then opened up to four times more.
#[derive(Drop)]
pub struct Warned<'a> {
    /// Whether images are compared.
    is_on: bool,
    /// The path of the stage, if there is one.
    stage: Option<&'a str>,
    set_id: Field<6>,
    file: u16,
    /// The images that were read.
    turns: Vec<Turn>,
    /// How many of these have their blocks in `digests`.
    taken: usize,
    /// The section of `digests`.
    sect: u16,
    /// The digests of the first blocks of this section, or `None` for one that could not be read
    /// once more.
    digests: Vec<Option<u64>>,
}

impl<'a> Warned<'a> {
    /// Creates an opener for the file of `task` that compares images only if they can be read more
    /// than once.
    pub fn new(alloc: Global, task: &Task<'a>, is_on: bool) -> Warned<'a> {
        Warned {
            is_on,
            stage: task.stage,
            set_id: task.set_id,
            file: task.file,
            turns: Vec::new(alloc),
            taken: 0,
            sect: 0,
            digests: Vec::new(alloc),
        }
    }

    /// Returns whether image `number`, which is read next, has other blocks of the section needed
    /// than the session. Returns false if that cannot be found out.
    fn differs<S: PartSink, R: Progress>(
        &mut self,
        session: &Session<S>,
        images: &mut Images<'_, R>,
        number: usize,
    ) -> bool {
        let Some(want) = session.want() else {
            return false;
        };
        if !self.is_on {
            return false;
        }
        if let Some(path) = self.stage {
            return session.is_within() && self.differs_from(path, session, images, number);
        }
        let differs = want.block > 0 && self.differs_again(session, images, number, want);
        let turn = Turn {
            number,
            sect: want.sect,
            block: want.block,
        };
        if self.turns.push(turn).is_err() {
            self.is_on = false;
        }
        differs
    }

    /// Returns whether an image differs from the stage at `path`, as it was saved after the image
    /// before.
    fn differs_from<S: PartSink, R: Progress>(
        &self,
        path: &str,
        session: &Session<S>,
        images: &mut Images<'_, R>,
        number: usize,
    ) -> bool {
        let Some(mut saved) = saved_in(images.rt.host(), path, self.set_id, self.file) else {
            return false;
        };
        if saved.want() != session.want() {
            return false;
        }
        let reels = images.reels.take();
        let seam = saved.seam(images, number);
        images.reels = reels;
        matches!(seam, Ok(Some(_)))
    }

    /// Returns whether an image differs from those from which the session has its blocks. These are
    /// read once more, unless the image has none of the blocks.
    fn differs_again<S: PartSink, R: Progress>(
        &mut self,
        session: &Session<S>,
        images: &mut Images<'_, R>,
        number: usize,
        want: Want,
    ) -> bool {
        let Some(there) = digests_in(session, images, number, (0, want.block)) else {
            return false;
        };
        if there.is_empty() {
            return false;
        }
        if self.take_turns(session, images, want).is_err() {
            self.is_on = false;
            return false;
        }
        let mut pairs = self.digests.iter().zip(there.iter());
        pairs.any(|(one, other)| one.is_some() && other.is_some() && one != other)
    }

    /// Adds the digests of the blocks that the images which were read gave of the section needed.
    fn take_turns<S: PartSink, R: Progress>(
        &mut self,
        session: &Session<S>,
        images: &mut Images<'_, R>,
        want: Want,
    ) -> Result<(), AllocError> {
        if self.sect != want.sect {
            self.sect = want.sect;
            self.digests.clear();
        }
        for at in self.taken..self.turns.len() {
            let Some(&turn) = self.turns.get(at) else {
                return Ok(());
            };
            let next = self.turns.get(at.saturating_add(1));
            let (sect, to) = next.map_or((want.sect, want.block), |next| (next.sect, next.block));
            if sect == want.sect {
                let from = if turn.sect == sect { turn.block } else { 0 };
                self.add(session, images, turn.number, (from, to))?;
            }
        }
        self.taken = self.turns.len();
        Ok(())
    }

    /// Adds the digests of some blocks of an image, and `None` for each that is not found again.
    fn add<S: PartSink, R: Progress>(
        &mut self,
        session: &Session<S>,
        images: &mut Images<'_, R>,
        number: usize,
        blocks: (u32, u32),
    ) -> Result<(), AllocError> {
        let (from, to) = blocks;
        if to <= from {
            return Ok(());
        }
        let found = digests_in(session, images, number, blocks);
        for block in 0..to - from {
            let digest = match &found {
                Some(found) => found.get(block as usize).copied().flatten(),
                None => None,
            };
            self.digests.push(digest)?;
        }
        Ok(())
    }
}

/// Opens an image, which is not named on standard error. Returns `None` if it cannot be opened.
fn mounted<R: Progress>(images: &mut Images<'_, R>, number: usize) -> Option<Image<R>> {
    let reels = images.reels.take();
    let image = images.mount(number);
    images.reels = reels;
    match image {
        Ok(image) => image,
        Err(_) => None,
    }
}

/// Returns the digests of the blocks with the numbers in `blocks` of the section needed, as far as
/// an image has them, or `None` if it cannot be read.
fn digests_in<S: PartSink, R: Progress>(
    session: &Session<S>,
    images: &mut Images<'_, R>,
    number: usize,
    blocks: (u32, u32),
) -> Option<Vec<Option<u64>>> {
    let mut image = mounted(images, number)?;
    match session.skipped_digests(&mut image, blocks.0, blocks.1) {
        Ok(digests) => Some(digests),
        Err(_) => None,
    }
}

/// Opens a second session at the checkpoint in a stage, which is only read. The run that uses the
/// stage has it locked. Returns `None` if the stage cannot be read, or is not one of file `file` of
/// the set `set_id`.
fn saved_in<R: Host>(
    rt: &R,
    path: &str,
    set_id: Field<6>,
    file: u16,
) -> Option<Session<Stage<BufferedFile<ReadOnly>>>> {
    let Ok(bytes) = open(rt, path) else {
        return None;
    };
    let Ok(disk) = buffered_file(rt.alloc(), ReadOnly(bytes)) else {
        return None;
    };
    let Ok(opened) = Stage::open_read_only(rt.alloc(), disk) else {
        return None;
    };
    let point = opened.point;
    if opened.broken.is_some() || !same_file(&point, set_id, file) {
        return None;
    }
    Some(Session::resume(rt.alloc(), &point, opened.stage))
}

impl<S: PartSink, R: Progress> Opener<S, Image<R>, Images<'_, R>> for Warned<'_> {
    ghost refuses = { λ _ _ _. ⊥ };

    fn open(
        &mut self,
        session: &mut Session<S>,
        images: &mut Images<'_, R>,
        number: usize,
    ) -> Result<Option<Image<R>>, RunFault> {
        if self.differs(session, images, number) {
            let image = number.saturating_add(1);
            let _ = images.rt.eprint(format_args!(
                "tape: warning: image {image} differs from the data recovered before it\n"
            ));
        }
        match images.mount(number) {
            Ok(image) => Ok(image),
            Err(_) => Err(RunFault::OutOfMemory),
        }
    }
}
