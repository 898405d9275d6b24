//! Images that are compared with the data of a session before they are read for it.

ghost use Rattle.std.specs.Prelude.{◌≡◌, IfErr, OnOk};
ghost use Rattle.std.specs.Result.{IsOkUnless};
ghost use Rattle.tape_run.specs.{Causes.OpeningFails, Crash.IsWalked};
ghost use Rattle.tape_run.specs.declared.fault.RunFault.TheVariants as faults;

use crate::extract::Task;
use crate::fault::ToolFault;
use crate::normal::{Normal, NormalImages};
use crate::screen::Progress;
use std::alloc::Global;
use std::io::Read;
use tape_core::PartWalk;
use tape_run::{
    DoubtfulCopy, ImageSource, OpenedImage, Opener, RunFault, Session, find_doubts, position_of,
};
use tape_set::Want;

/// Opens images in normal form. If an image has other data of the section needed than the session,
/// or of a doubtful copy, the image is read as if it ended with a tape mark before these data.
#[derive(Drop)]
pub struct Compared {
    /// Whether images are compared: each is then opened up to four times more.
    is_on: bool,
    /// The numbers of the images that had other data.
    pub differing: Vec<usize>,
    /// The doubtful copies.
    doubtful: Vec<DoubtfulCopy>,
    /// Whether it is recorded which images were opened.
    pub is_recorded: bool,
    /// The images that were opened, in order, if that is recorded.
    pub openings: Vec<OpenedImage>,
}

impl Compared {
    /// Creates an opener that compares the images that can be read more than once, if `is_on`.
    pub fn new(alloc: Global, is_on: bool) -> Compared {
        Compared {
            is_on,
            differing: Vec::new(alloc),
            doubtful: Vec::new(alloc),
            is_recorded: false,
            openings: Vec::new(alloc),
        }
    }

    /// Finds out what the images named `names` say against each other about the file of `task`, and
    /// remembers which copies of its sections are doubtful. Returns the numbers of two images that
    /// contradict each other, if there are any.
    pub fn doubt<R: Progress>(
        &mut self,
        rt: &R,
        task: &Task<'_>,
        names: &[&str],
    ) -> Result<Option<(usize, usize)>, ToolFault> {
        let images = &mut NormalImages::again(rt, names);
        let doubts = find_doubts(rt.alloc(), &task.set_id, task.file, images)?;
        self.doubtful = doubts.doubtful;
        Ok(doubts.conflict)
    }

    /// Returns the byte offset of the data of a doubtful copy of the section needed on an image.
    pub fn doubtful_at(&self, number: usize, want: Option<Want>) -> Option<u64> {
        let sect = want?.sect;
        let mut copies = self.doubtful.iter();
        let copy = copies.find(|copy| copy.image == number && copy.sect == sect)?;
        Some(copy.place)
    }

    /// Records that an image is opened, if openings are to be recorded.
    fn record(&mut self, opening: OpenedImage) -> Result<(), RunFault>
        ensures { IsOkUnless result faults.OutOfMemory }
    {
        if self.is_recorded && self.openings.push(opening).is_err() {
            return Err(RunFault::OutOfMemory);
        }
        Ok(())
    }

    /// Returns the byte offset at which image `number` has other data of the section needed than
    /// the session has, or those of a doubtful copy, if it has.
    ///
    /// # Errors
    ///
    /// Returns `OutOfMemory`, or `Sink` with the fault of the walk over the session's parts.
    fn seam<S: PartWalk, R: Progress>(
        &mut self,
        session: &mut Session<S>,
        images: &mut NormalImages<'_, R>,
        number: usize,
    ) -> Result<Option<u64>, RunFault>
        ensures same { IsWalked S.PartSink session.old session.new }
        ensures calm { OnOk result
            (S.refusals session.new.sink ≡ S.refusals session.old.sink) }
        ensures cause { IfErr result
            (λ fault. OpeningFails S.PartSink S.refuses fault session.old session.new) }
    {
        if let Some(place) = self.doubtful_at(number, session.want()) {
            return Ok(Some(place));
        }
        if !self.is_on || !session.is_within() || !images.is_file(number) {
            return Ok(None);
        }
        let Some(place) = session.seam(images, number)? else {
            return Ok(None);
        };
        if !self.differing.contains(&number) && self.differing.push(number).is_err() {
            return Err(RunFault::OutOfMemory);
        }
        Ok(Some(place))
    }
}

/// Opens an image.
fn mounted<R: Progress>(
    images: &mut NormalImages<'_, R>,
    number: usize,
) -> Result<Option<Normal<R>>, RunFault>
    ensures { IsOkUnless result faults.OutOfMemory }
{
    match images.mount(number) {
        Ok(image) => Ok(image),
        Err(_) => Err(RunFault::OutOfMemory),
    }
}

impl<S: PartWalk, R: Progress> Opener<S, Normal<R>, NormalImages<'_, R>> for Compared {
    ghost refuses = { S.refuses };

    fn open(
        &mut self,
        session: &mut Session<S>,
        images: &mut NormalImages<'_, R>,
        number: usize,
    ) -> Result<Option<Normal<R>>, RunFault> {
        let (image, at) = (number, position_of(session.want()));
        self.record(OpenedImage { image, at })?;
        // Only the image that is read is named on standard error.
        let reels = images.images.reels.take();
        let seam = self.seam(session, images, number);
        images.images.reels = reels;
        let seam = seam?;
        let mut image = mounted(images, number)?;
        if let (Some(image), Some(place)) = (&mut image, seam) {
            image.end_at(place);
        }
        Ok(image)
    }
}
