//! The blocks that an image and a session have of one section, compared with parts of a sink.

ghost use Rattle.std.specs.Prelude.{◌≡◌, ◌≢◌, ◌++◌, List, Some, OnOk, IfOk, IfErr, IfNone};
ghost use Rattle.tape_image.specs.{Tape.TapeItem, Tape.bad};
ghost use Rattle.tape_image.specs.Reader.{going, seen, IfKnown};
ghost use Rattle.tape_blocks.specs.Block.{Portion};
ghost use Rattle.tape_core.specs.Stands.{weight_of};
ghost use Rattle.tape_run.specs.{Crash.BringsNoMore, Steps.IsRefused, Taking.came_of};
ghost use Rattle.tape_run.specs.Comparing.{CameMeets, IsThere, IsOther, IsBehind, Finds, FindsAll};
ghost use Rattle.tape_run.specs.Comparing.{up_to};

use crate::reel_reader::event_of;
use crate::reel_reader::walk::{has_front, has_next, is_over, skip_to};
use std::io::Read;
use tape_blocks::{Parts, Shape, check_block};
use tape_core::{Answer, Expected, PartWalk, ReaderCore, SinkFault, goes_on_at};
use tape_image::{ImageFault, ImageReader, Item};

/// What a comparison of the blocks of an image with the parts of a session found.
#[derive(Clone, Copy, Debug, PartialEq, Eq)]
pub(super) enum Found {
    /// The blocks up to the session's position have exactly the session's parts.
    Same,
    /// A block has other parts, or is missing, or the session has more.
    Other,
    /// The blocks up to an unreadable one have the session's parts.
    Unknown,
    /// The reading ends before the session's position. Its blocks have the session's parts.
    Ended,
}

/// The blocks that an image and a session have of one section: those that the session would skip on
/// the image, from the one after the last unreadable one on.
#[derive(Clone, Copy, PartialEq, Eq)]
pub(super) struct Overlap {
    /// The number of the block at which the session continues, counted from 0 in the section.
    block: u32,
    /// The number of parts of this block that the session has.
    part: u32,
    /// The number of the block after the last unreadable one, or 0 if none is unreadable.
    from: u32,
    /// The weight of the parts that the blocks from there on have on the image, with the first
    /// parts of the block at which the session continues; the maximum if the image has an item that
    /// is no such block.
    pub weight: u64,
    /// The byte offset of the section's data in the image.
    pub place: u64,
}

impl Overlap {
    /// Creates the overlap with an image of which nothing was read.
    pub fn up_to(block: u32, part: u32) -> Overlap
        ensures { result ≡ up_to block part }
    {
        Overlap {
            block,
            part,
            from: 0,
            weight: 0,
            place: 0,
        }
    }

    /// Creates the overlap of the blocks `from` up to but not including `to`.
    pub fn behind(from: u32, to: u32) -> Overlap {
        Overlap {
            from,
            ..Overlap::up_to(to, 0)
        }
    }

    /// Returns whether there is nothing in it.
    pub fn is_empty(&self) -> bool {
        self.block <= self.from && self.part == 0
    }

    /// Adds an item of an image, at a byte offset, before a core takes it. Returns whether nothing
    /// more is compared.
    fn add(
        &mut self,
        core: &ReaderCore,
        wide: bool,
        told: Result<Option<Item<'_>>, ImageFault>,
        place: u64,
    ) -> bool {
        let Expected::Data { seen, shape } = core.expected() else {
            return false;
        };
        if seen == 0 {
            self.place = place;
        }
        let is_last = self.block <= seen;
        if is_last && self.part == 0 {
            return true;
        }
        let count = if is_last { Some(self.part) } else { None };
        match told {
            Ok(Some(Item::Block(bytes))) => {
                let weight = weight_in(&shape, core.as_read(wide, bytes), count);
                self.weight = self.weight.saturating_add(weight);
            }
            // The core refuses a mark that comes before a block that was delivered.
            Ok(Some(Item::Mark)) => self.weight = u64::MAX,
            _ => {
                self.from = seen.saturating_add(1);
                self.weight = 0;
            }
        }
        is_last
    }

    /// Compares an item of an image with the next parts of the walk over a sink, before a core
    /// takes it. Returns what was found if nothing more is compared.
    fn compare<S: PartWalk>(
        &self,
        core: &ReaderCore,
        wide: bool,
        told: Result<Option<Item<'_>>, ImageFault>,
        sink: &mut S,
    ) -> Result<Option<Found>, SinkFault>
        ensures goes { IfOk result (λ found. IfNone found ((ahead : List Portion)
            → S.ahead sink.old ahead → (left : List Portion) × CameMeets wide self.now.from
            core.now (came_of (seen told.entry)) ahead left × S.ahead sink.new left)) }
        ensures same { IfOk result (λ found. found ≡ Some Found.Same → (ahead : List Portion)
            → S.ahead sink.old ahead → (left : List Portion) × IsThere wide self.now core.now
            (came_of (seen told.entry)) ahead left × S.ahead sink.new left) }
        ensures other { IfOk result (λ found. found ≡ Some Found.Other → (ahead : List Portion)
            → S.ahead sink.old ahead → (item : TapeItem)
            × (came_of (seen told.entry) ≡ Some item) × IsOther wide self.now core.now item ahead) }
        ensures unknown { IfOk result (λ found. found ≡ Some Found.Unknown
            → (came_of (seen told.entry) ≡ Some bad) × IsBehind self.now.from core.now.phase) }
        ensures ended { IfOk result (λ found. found ≢ Some Found.Ended) }
        ensures kept { (parts : List Portion) → S.holds sink.old parts → S.holds sink.new parts }
        ensures crash { BringsNoMore S.PartSink sink.old sink.new }
        ensures calm { OnOk result (S.refusals sink.new ≡ S.refusals sink.old) }
        ensures cause { IfErr result (λ fault.
            IsRefused S.refusals S.refuses sink.old fault sink.new) }
    {
        let Expected::Data { seen, shape } = core.expected() else {
            return Ok(None);
        };
        if seen < self.from {
            return Ok(None);
        }
        if seen < self.block {
            return match told {
                Ok(Some(Item::Block(bytes))) => {
                    let block = core.as_read(wide, bytes);
                    let is_next = has_next(sink, &shape, block)?;
                    Ok(if is_next { None } else { Some(Found::Other) })
                }
                Ok(Some(Item::Bad)) => Ok(Some(Found::Unknown)),
                _ => Ok(None),
            };
        }
        if self.part == 0 {
            return Ok(Some(Found::Same));
        }
        match told {
            Ok(Some(Item::Block(bytes))) => {
                let content = core.as_read(wide, bytes);
                let is_same = has_front(sink, &shape, content, self.part)?;
                Ok(Some(if is_same { Found::Same } else { Found::Other }))
            }
            // The block of which the session has the first parts is not there.
            Ok(Some(Item::Mark)) => Ok(Some(Found::Other)),
            Ok(Some(Item::Bad)) => Ok(Some(Found::Unknown)),
            _ => Ok(None),
        }
    }
}

/// Returns the number of the block of the section needed that a core expects, or 0 if it expects
/// none.
pub(super) fn number_in(core: &ReaderCore) -> u32 {
    match core.expected() {
        Expected::Data { seen, .. } => seen,
        _ => 0,
    }
}

/// Returns the weight of the first `count` parts of a block, or of all of them; the maximum if the
/// block has no parts in this shape.
fn weight_in(shape: &Shape, block: &[u8], count: Option<u32>) -> u64 {
    let begun = goes_on_at(shape.format, shape.offset, block);
    if check_block(shape, begun, block).is_err() {
        return u64::MAX;
    }
    let mut weight = 0u64;
    let mut seen = 0u32;
    'parts: for part in Parts::new(shape, block) {
        if count == Some(seen) {
            break 'parts;
        }
        weight = weight
            .saturating_add(5)
            .saturating_add(part.bytes.len() as u64);
        seen = seen.saturating_add(1);
    }
    weight
}

/// Reads an unread image by a core up to the end of the overlap, which was empty. Returns false if
/// the reading ends before that.
pub(super) fn measure<R: Read>(
    overlap: &mut Overlap,
    core: &mut ReaderCore,
    wide: bool,
    image: &mut ImageReader<'_, R>,
) -> bool
    requires going { image.old.status ≡ going }
    requires first { image.old.place ≡ 0 }
    ensures same_device { image.new.device ≡ image.old.device }
{
    'items: loop {
        let place = image.place();
        let told = image.next();
        if overlap.add(core, wide, told, place) {
            return true;
        }
        let (event, _) = event_of(told);
        match core.step_by(wide, event) {
            Answer::Passed => continue 'items,
            _ => return false,
        }
    }
}

/// Reads an unread image by a core up to the end of the overlap, and compares its blocks with the
/// next parts of the walk over a sink.
fn compare_all<S: PartWalk, R: Read>(
    overlap: &Overlap,
    core: &mut ReaderCore,
    wide: bool,
    image: &mut ImageReader<'_, R>,
    sink: &mut S,
) -> Result<Found, SinkFault>
    requires going { image.old.status ≡ going }
    requires first { image.old.place ≡ 0 }
    ensures same_device { image.new.device ≡ image.old.device }
    ensures found { IfOk result (λ found. (ahead : List Portion) → S.ahead sink.old ahead
        → IfKnown image.old.left image.new.left (λ bytes left.
        Finds wide overlap.now core.old bytes found (S.ahead sink.new) ahead)) }
    ensures kept { (parts : List Portion) → S.holds sink.old parts → S.holds sink.new parts }
    ensures crash { BringsNoMore S.PartSink sink.old sink.new }
    ensures calm { OnOk result (S.refusals sink.new ≡ S.refusals sink.old) }
    ensures cause { IfErr result (λ fault.
        IsRefused S.refusals S.refuses sink.old fault sink.new) }
{
    'items: loop {
        let told = image.next();
        match overlap.compare(core, wide, told, sink) {
            Ok(Some(found)) => return Ok(found),
            Ok(None) => {}
            Err(fault) => return Err(fault),
        }
        let (event, _) = event_of(told);
        match core.step_by(wide, event) {
            Answer::Passed => continue 'items,
            _ => return Ok(Found::Ended),
        }
    }
}

/// Does the same with all parts that follow the first ones, of weight `before`.
pub(super) fn compare_after<S: PartWalk, R: Read>(
    overlap: &Overlap,
    core: &mut ReaderCore,
    wide: bool,
    image: &mut ImageReader<'_, R>,
    sink: &mut S,
    before: u64,
) -> Result<Found, SinkFault>
    requires going { image.old.status ≡ going }
    requires first { image.old.place ≡ 0 }
    ensures same_device { image.new.device ≡ image.old.device }
    ensures found { IfOk result (λ found. (front last : List Portion)
        → S.holds sink.old (front ++ last) → weight_of front ≡ before
        → IfKnown image.old.left image.new.left (λ bytes left.
        FindsAll wide overlap.now core.old bytes found last)) }
    ensures there { IfOk result (λ found. found ≢ Found.Other → (parts : List Portion)
        → S.holds sink.old parts → (front last : List Portion) × (parts ≡ front ++ last)
        × (weight_of front ≡ before)) }
    ensures kept { (parts : List Portion) → S.holds sink.old parts → S.holds sink.new parts }
    ensures crash { BringsNoMore S.PartSink sink.old sink.new }
    ensures calm { OnOk result (S.refusals sink.new ≡ S.refusals sink.old) }
    ensures cause { IfErr result (λ fault.
        IsRefused S.refusals S.refuses sink.old fault sink.new) }
{
    let is_found = skip_to(sink, before)?;
    if !is_found {
        return Ok(Found::Other);
    }
    let found = compare_all(overlap, core, wide, image, sink)?;
    match found {
        Found::Same => {}
        _ => return Ok(found),
    }
    let is_all = is_over(sink)?;
    Ok(if is_all { Found::Same } else { Found::Other })
}
