//! Reads a reel into a sink, and returns the outcome.

pub mod walk;

ghost use Rattle.std.specs.Prelude.{◌≡◌, ℕ, ◌+◌, ◌++◌, ◌<◌, ◌≤◌, List, Some, None, OnOk, OnErr};
ghost use Rattle.std.specs.Prelude.{IfOk, IfErr, IfSome, length, drop};
ghost use Rattle.tape_image.specs.Reader.{going, seen, IfKnown};
ghost use Rattle.tape_blocks.specs.{Block.Portion, Block.Holds};
ghost use Rattle.tape_blocks.specs.Packing.{longest_block};
ghost use Rattle.tape_set.specs.{Lawful.FileForm, Position.part_of};
ghost use Rattle.tape_core.specs.{Follows.IsAwaited, Place.rest_of, Place.place_of, Arrive.arrival};
ghost use Rattle.tape_core.specs.{Table.saved, Table.after_block, Weight.IsFront};
ghost use Rattle.tape_run.specs.{Crash.BringsNoMore, Given.is_device, Steps.IsRefused};
ghost use Rattle.tape_run.specs.Puts.{refused_point, PutUpTo};
ghost use Rattle.tape_run.specs.Reels.{ReadsReel, ReadsToBlock, StopsAt};
ghost use Rattle.tape_run.specs.Taking.{ReadsImage, CutsTable, came_of, fault_of};

use std::io::Read;
use tape_blocks::{Parts, Shape};
use tape_core::{Answer, Awaited, Event, PartSink, ReaderCore, SinkFault};
use tape_image::{ImageCause, ImageFault, ImageReader, Item};
use tape_set::Position;

/// The outcome of reading a reel.
#[derive(Clone, Copy, PartialEq, Eq)]
pub struct ReelAnswer {
    /// The last answer of the reading: the one that ended it.
    pub answer: Answer,
    /// The fault of the image that ended the reading, if any.
    pub fault: Option<ImageFault>,
    /// The number of blocks of the file that were delivered.
    pub blocks: u32,
}

impl ReelAnswer {
    /// Creates an outcome from its three values.
    pub(crate) fn new(answer: Answer, fault: Option<ImageFault>, blocks: u32) -> ReelAnswer
        ensures answer { result.answer ≡ answer }
        ensures fault { result.fault ≡ fault }
        ensures blocks { result.blocks ≡ blocks }
    {
        ReelAnswer {
            answer,
            fault,
            blocks,
        }
    }

    /// Returns whether the reader failed.
    pub fn is_device(&self) -> bool
        ensures { result ≡ is_device self.now.fault }
    {
        match self.fault {
            Some(fault) => matches!(fault.cause, ImageCause::Device),
            None => false,
        }
    }
}

/// A core, and the sink of what it delivers.
#[derive(Drop)]
pub struct ReelReader<S> {
    pub core: ReaderCore,
    pub sink: S,
    /// Whether reels are read in the wider reading.
    pub wide: bool,
}

/// Returns the event for the result of an image's reader, and the image's fault, if any.
pub(crate) fn event_of<'a>(
    told: Result<Option<Item<'a>>, ImageFault>,
) -> (Event<'a>, Option<ImageFault>)
    ensures comes { arrival result.0 ≡ came_of (seen told.entry) }
    ensures fault { result.1 ≡ fault_of (seen told.entry) }
{
    match told {
        Ok(Some(Item::Block(bytes))) => (Event::Block(bytes), None),
        Ok(Some(Item::Bad)) => (Event::Bad, None),
        Ok(Some(Item::Mark)) => (Event::Mark, None),
        Ok(None) => (Event::ReelEnd, None),
        Err(fault) => (Event::ReelEnd, Some(fault)),
    }
}

/// Moves a core to part `part` of the expected block, which was refused. `begun` says whether a
/// record is unfinished before it.
#[cold]
#[inline(never)]
fn go_back(core: &mut ReaderCore, awaited: &Awaited, part: u32, begun: bool)
    requires awaited { (bytes : List ℕ) × IsAwaited core.old bytes awaited.now }
    requires from { part_of core.old.position ≤ part }
    requires few { part ≤ longest_block }
    ensures back { core.new ≡ place_of (refused_point (saved core.old 0)
        (saved (after_block core.old awaited.now.end) 0) part begun) }
    ensures set_id { core.new.set_id ≡ core.old.set_id }
    ensures file { core.new.file ≡ core.old.file }
{
    let before = core.save(0);
    if part == awaited.part {
        *core = ReaderCore::at(&before);
        return;
    }
    core.deliver(awaited.end);
    let after = core.save(0);
    *core = ReaderCore::at(&after.inside_block(before.position(), part, begun, 0));
}

impl<S: PartSink> ReelReader<S> {
    /// Puts the parts of the expected block, from the expected one on, and moves the core past the
    /// block.
    #[inline(always)]
    fn put_block(&mut self, awaited: &Awaited, content: &[u8]) -> Result<(), SinkFault>
        requires short { length content.now ≤ longest_block }
        requires awaited { IsAwaited self.old.core content.now awaited.now }
        ensures ok { OnOk result ((held parts : List Portion) (k : FileForm)
            → (after_block self.old.core awaited.now.end).known ≡ Some k
            → Holds k.format k.rec_len k.offset content.now parts
            → S.holds self.old.sink held
            → S.holds self.new.sink (held ++ drop (part_of self.old.core.position) parts)) }
        ensures moved { OnOk result (self.new.core ≡ after_block self.old.core awaited.now.end) }
        ensures err { OnErr result ((held parts : List Portion) (k : FileForm)
            → (after_block self.old.core awaited.now.end).known ≡ Some k
            → Holds k.format k.rec_len k.offset content.now parts
            → S.holds self.old.sink held
            → PutUpTo (S.holds self.new.sink) (saved self.old.core 0) held parts
            (rest_of (after_block self.old.core awaited.now.end)) (rest_of self.new.core)) }
        ensures stops { OnErr result (StopsAt (saved self.old.core 0)
            (saved (after_block self.old.core awaited.now.end) 0) self.new.core) }
        ensures file { self.new.core.file ≡ self.old.core.file }
        ensures set_id { self.new.core.set_id ≡ self.old.core.set_id }
        ensures wide { self.new.wide ≡ self.old.wide }
        ensures cause { IfErr result (λ fault. IsRefused S.refusals S.refuses_change
            self.old.sink fault self.new.sink) }
        ensures calm { OnOk result (S.refusals self.new.sink ≡ S.refusals self.old.sink) }
        ensures crash { BringsNoMore S.PartSink self.old.sink self.new.sink }
    {
        let first = awaited.part;
        let mut begun = awaited.begun;
        let mut seen = 0u32;
        for part in Parts::new(&awaited.shape, content) {
            if first <= seen {
                match self.sink.put(part) {
                    Ok(()) => begun = part.span.leaves(),
                    Err(cause) => {
                        go_back(&mut self.core, awaited, seen, begun);
                        return Err(cause);
                    }
                }
            }
            seen += 1;
        }
        self.core.deliver(awaited.end);
        Ok(())
    }

    /// Processes the items of an unread image, up to a final answer, the end of the medium or a
    /// fault.
    // Within a caller the loop would have fewer registers, and each part would take longer.
    #[inline(never)]
    pub fn read<R: Read>(&mut self, image: &mut ImageReader<'_, R>) -> Result<ReelAnswer, SinkFault>
        requires going { image.old.status ≡ going }
        requires first { image.old.place ≡ 0 }
        ensures same_device { image.new.device ≡ image.old.device }
        ensures file { self.new.core.file ≡ self.old.core.file }
        ensures set_id { self.new.core.set_id ≡ self.old.core.set_id }
        ensures wide { self.new.wide ≡ self.old.wide }
        ensures answer { IfOk result (λ answer. IfKnown image.old.left image.new.left
            (λ bytes left. ReadsReel self.old.wide self.old.core bytes left answer self.new.core)) }
        ensures complete { IfOk result (λ answer. answer.answer ≡ Answer.Complete
            → self.new.core.position ≡ Position.Finished) }
        ensures finished { IfOk result (λ answer.
            self.new.core.position ≡ Position.Finished → answer.answer ≡ Answer.Complete) }
        ensures taken { OnErr result (IfKnown image.old.left image.new.left
            (ReadsToBlock self.old.wide self.new.core self.old.core)) }
        ensures ok { IfOk result (λ answer. (held : List Portion) → S.holds self.old.sink held
            → (now : List Portion) × S.holds self.new.sink now × IsFront held now
            × IfSome image.old.left (ReadsImage self.old.wide (is_device answer.fault)
            self.old.core self.new.core held now image.new.left)) }
        ensures err { OnErr result ((held : List Portion) → S.holds self.old.sink held
            → (now : List Portion) × S.holds self.new.sink now × IsFront held now
            × IfSome image.old.left
            (CutsTable self.old.wide self.old.core (rest_of self.new.core) held now)) }
        ensures cause { IfErr result (λ fault. IsRefused S.refusals S.refuses_change
            self.old.sink fault self.new.sink) }
        ensures calm { OnOk result (S.refusals self.new.sink ≡ S.refusals self.old.sink) }
        ensures crash { BringsNoMore S.PartSink self.old.sink self.new.sink }
    {
        let wide = self.wide;
        let mut blocks = 0u32;
        'items: loop {
            let told = image.next();
            if let Ok(Some(Item::Block(block))) = told {
                let content = self.core.as_read(wide, block);
                if let Some(awaited) = self.core.awaited(content) {
                    self.put_block(&awaited, content)?;
                    blocks += 1;
                    continue 'items;
                }
            }
            let (event, fault) = event_of(told);
            match self.core.step_by(wide, event) {
                Answer::Passed => continue 'items,
                answer => return Ok(ReelAnswer::new(answer, fault, blocks)),
            }
        }
    }
}
