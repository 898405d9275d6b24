//! Compares an image with the data that a session has.

mod overlap;
mod paired;

ghost use Rattle.std.specs.Prelude.{◌≡◌, ◌≢◌, ◌++◌, ◌⊎◌, [], ℕ, List, OnOk, IfOk, IfErr};
ghost use Rattle.std.specs.{Bool.OnTrue, Bool.OnFalse, Result.IsOkUnless};
ghost use Rattle.tape_image.specs.Reader.{IfKnown};
ghost use Rattle.tape_blocks.specs.Block.{Portion};
ghost use Rattle.tape_core.specs.Stands.{weight_of};
ghost use Rattle.tape_run.specs.{Causes.OpeningFails, Crash.IsWalked};
ghost use Rattle.tape_run.specs.Comparing.{IsSame, IsSameFront, FindsAll, up_to, core_before};
ghost use Rattle.tape_run.specs.declared.fault.RunFault.TheVariants as faults;
ghost use Rattle.tape_set.specs.declared.position.Position.TheVariants.{Awaits};

use super::Session;
use crate::extract::images::ImageSource;
use crate::fault::RunFault;
use overlap::{Found, Overlap, compare_after, measure, number_in};
use std::io::Read;
use tape_core::{PartSink, PartWalk};
use tape_image::{ImageBuffer, ImageReader};
use tape_set::Position;

impl<S: PartSink> Session<S> {
    /// Returns whether a part of the section that the session needs was delivered.
    pub fn is_within(&self) -> bool {
        match self.reel_reader.core.position() {
            Position::Awaits { block, part, .. } => block > 0 || part > 0,
            Position::Finished => false,
        }
    }

    /// Returns what an image has of the section that the session needs, as far as the session has
    /// it, or `None` if a reading of the image does not come to the session's position.
    ///
    /// # Errors
    ///
    /// Returns `OutOfMemory` if the image reader's buffer was refused.
    fn overlap<R: Read>(&self, device: &mut R) -> Result<Option<Overlap>, RunFault>
        ensures fault { IsOkUnless result faults.OutOfMemory }
    {
        let Position::Awaits { block, part, .. } = self.reel_reader.core.position() else {
            return Ok(None);
        };
        let mut overlap = Overlap::up_to(block, part);
        let Ok(buffer) = ImageBuffer::new(self.alloc) else {
            return Err(RunFault::OutOfMemory);
        };
        let mut image = ImageReader::over(buffer, device);
        let mut core = self.core_before();
        let is_read = measure(&mut overlap, &mut core, self.reel_reader.wide, &mut image);
        image.into_device();
        Ok(if is_read { Some(overlap) } else { None })
    }
}

/// Opens an image.
fn mounted<R: Read, L: ImageSource<R>>(images: &mut L, number: usize) -> Result<Option<R>, RunFault>
    ensures fault { IsOkUnless result faults.OutOfMemory }
{
    match images.mount(number) {
        Ok(image) => Ok(image),
        Err(_) => Err(RunFault::OutOfMemory),
    }
}

impl<S: PartWalk> Session<S> {
    /// Returns the byte offset in image `number` of the data of the section that the session needs,
    /// if they are other data than the session has. The image is opened up to four times: once if
    /// it has all that the session has of section 1, or ends before that.
    ///
    /// # Errors
    ///
    /// Returns `OutOfMemory`, or `Sink` with the fault of the walk over the sink's parts.
    pub fn seam<R: Read + Drop, L: ImageSource<R>>(
        &mut self,
        images: &mut L,
        number: usize,
    ) -> Result<Option<u64>, RunFault>
        ensures same { IsWalked S.PartSink self.old self.new }
        ensures calm { OnOk result (S.refusals self.new.sink ≡ S.refusals self.old.sink) }
        ensures cause { IfErr result
            (λ fault. OpeningFails S.PartSink S.refuses fault self.old self.new) }
    {
        let found = self.compare_first(images, number)?;
        if matches!(found, Found::Same | Found::Ended) {
            return Ok(None);
        }
        let Some(mut image) = mounted(images, number)? else {
            return Ok(None);
        };
        let Some(overlap) = self.overlap(&mut image)? else {
            return Ok(None);
        };
        if found == Found::Other {
            return Ok(Some(overlap.place));
        }
        let Some(mut image) = mounted(images, number)? else {
            return Ok(None);
        };
        let differs = self.differs(&mut image, &overlap)?;
        Ok(if differs { Some(overlap.place) } else { None })
    }

    /// Compares the blocks that image `number` has of section 1 with the session's parts: those up
    /// to an unreadable one and, if it is known where their parts begin, those after it. An image
    /// that cannot be opened has none.
    ///
    /// # Errors
    ///
    /// The errors are those of `seam`.
    fn compare_first<R: Read + Drop, L: ImageSource<R>>(
        &mut self,
        images: &mut L,
        number: usize,
    ) -> Result<Found, RunFault>
        ensures same { IsWalked S.PartSink self.old self.new }
        ensures calm { OnOk result (S.refusals self.new.sink ≡ S.refusals self.old.sink) }
        ensures cause { IfErr result
            (λ fault. OpeningFails S.PartSink S.refuses fault self.old self.new) }
    {
        let Some(mut image) = mounted(images, number)? else {
            return Ok(Found::Ended);
        };
        let mut stop = 0;
        let found = self.compare(&mut image, &mut stop)?;
        match found {
            Found::Unknown => {}
            _ => return Ok(found),
        }
        let Some((rest, before)) = self.rest_after(stop) else {
            return Ok(Found::Unknown);
        };
        if rest.is_empty() {
            return Ok(Found::Same);
        }
        let Some(mut image) = mounted(images, number)? else {
            return Ok(Found::Ended);
        };
        match self.compare_from(&mut image, &rest, before, &mut stop)? {
            Found::Same => Ok(Found::Same),
            _ => Ok(Found::Unknown),
        }
    }

    /// Returns the overlap after block `bad` of section 1, and the weight of the session's parts
    /// before it, if all blocks have parts of the same weight. Returns `None` if they cannot have,
    /// or if the session needs another section. An overlap without blocks is returned in any case.
    fn rest_after(&self, bad: u32) -> Option<(Overlap, u64)> {
        match self.reel_reader.core.position() {
            Position::Awaits {
                sect: 1,
                block,
                part: 0,
            } if bad < block => {
                let (weight, from) = (self.reel_reader.sink.weight(), bad.saturating_add(1));
                let each = weight / block as u64;
                if from < block && each.saturating_mul(block as u64) != weight {
                    return None;
                }
                let before = each.saturating_mul(from as u64);
                Some((Overlap::behind(from, block), before))
            }
            _ => None,
        }
    }

    /// Compares the blocks that an unread image has of section 1 with the session's parts, if that
    /// is the section that the session needs. `stop` gets the number of the block at which the
    /// comparison ended, counted from 0.
    ///
    /// # Errors
    ///
    /// Returns `OutOfMemory` if the image reader's buffer was refused, and `Sink` with the fault of
    /// the walk over the sink's parts.
    fn compare<R: Read>(&mut self, device: &mut R, stop: &mut u32) -> Result<Found, RunFault>
        // What is found of all of the session's parts.
        ensures found { IfOk result (λ found. (number part : ℕ)
            → self.old.core.position ≡ Awaits 1 number part → (held : List Portion)
            → S.holds self.old.sink held
            → IfKnown (R.remaining device.old) (R.remaining device.new) (λ bytes left.
            FindsAll self.old.wide (up_to number part) (core_before self.old.core) bytes found
            held)) }
        ensures first { IfOk result (λ found. found ≢ Found.Unknown
            → (number part : ℕ) × (self.old.core.position ≡ Awaits 1 number part)) }
        ensures walked { IsWalked S.PartSink self.old self.new }
        ensures calm { OnOk result (S.refusals self.new.sink ≡ S.refusals self.old.sink) }
        ensures cause { IfErr result
            (λ fault. OpeningFails S.PartSink S.refuses fault self.old self.new) }
    {
        let Position::Awaits { sect, block, part } = self.reel_reader.core.position() else {
            return Ok(Found::Unknown);
        };
        if sect != 1 {
            return Ok(Found::Unknown);
        }
        self.compare_from(device, &Overlap::up_to(block, part), 0, stop)
    }

    /// Returns whether the overlap with an image has other parts on the image, which is read once
    /// more, than the session has.
    ///
    /// # Errors
    ///
    /// Returns `OutOfMemory` if the image reader's buffer was refused, and `Sink` with the fault of
    /// the walk over the sink's parts.
    fn differs<R: Read>(&mut self, device: &mut R, overlap: &Overlap) -> Result<bool, RunFault>
        // If the answer is false, the session's last parts have the overlap's weight, and they are
        // those of its blocks, as far as these can be read.
        ensures same { IfOk result (λ differs. OnFalse differs ((held : List Portion)
            → S.holds self.old.sink held → (front last : List Portion) × (held ≡ front ++ last)
            × (weight_of last ≡ overlap.now.weight)
            × IfKnown (R.remaining device.old) (R.remaining device.new) (λ bytes left.
            IsSame self.old.wide overlap.now (core_before self.old.core) bytes last []
            ⊎ IsSameFront self.old.wide overlap.now (core_before self.old.core) bytes last))) }
        // If it is true, the session has no last parts of this weight, or a block has others.
        ensures other { IfOk result (λ differs. OnTrue differs ((front last : List Portion)
            → S.holds self.old.sink (front ++ last) → weight_of last ≡ overlap.now.weight
            → IfKnown (R.remaining device.old) (R.remaining device.new) (λ bytes left.
            FindsAll self.old.wide overlap.now (core_before self.old.core) bytes Found.Other
            last))) }
        ensures walked { IsWalked S.PartSink self.old self.new }
        ensures calm { OnOk result (S.refusals self.new.sink ≡ S.refusals self.old.sink) }
        ensures cause { IfErr result
            (λ fault. OpeningFails S.PartSink S.refuses fault self.old self.new) }
    {
        let weight = self.reel_reader.sink.weight();
        if weight < overlap.weight {
            return Ok(true);
        }
        match self.compare_from(device, overlap, weight - overlap.weight, &mut 0)? {
            Found::Other => Ok(true),
            _ => Ok(false),
        }
    }

    /// Compares the blocks of the overlap with an image, which is read once more, with the
    /// session's parts after those of weight `before`. `stop` gets the number of the block at which
    /// the comparison ended.
    ///
    /// # Errors
    ///
    /// Returns `OutOfMemory` if the image reader's buffer was refused, and `Sink` with the fault of
    /// the walk over the sink's parts.
    fn compare_from<R: Read>(
        &mut self,
        device: &mut R,
        overlap: &Overlap,
        before: u64,
        stop: &mut u32,
    ) -> Result<Found, RunFault>
        ensures found { IfOk result (λ found. (front last : List Portion)
            → S.holds self.old.sink (front ++ last) → weight_of front ≡ before
            → IfKnown (R.remaining device.old) (R.remaining device.new) (λ bytes left.
            FindsAll self.old.wide overlap.now (core_before self.old.core) bytes found last)) }
        ensures there { IfOk result (λ found. found ≢ Found.Other → (parts : List Portion)
            → S.holds self.old.sink parts → (front last : List Portion) × (parts ≡ front ++ last)
            × (weight_of front ≡ before)) }
        ensures walked { IsWalked S.PartSink self.old self.new }
        ensures calm { OnOk result (S.refusals self.new.sink ≡ S.refusals self.old.sink) }
        ensures cause { IfErr result
            (λ fault. OpeningFails S.PartSink S.refuses fault self.old self.new) }
    {
        let Ok(buffer) = ImageBuffer::new(self.alloc) else {
            return Err(RunFault::OutOfMemory);
        };
        let mut image = ImageReader::over(buffer, device);
        let mut core = self.core_before();
        let wide = self.reel_reader.wide;
        let sink = &mut self.reel_reader.sink;
        let found = compare_after(overlap, &mut core, wide, &mut image, sink, before);
        image.into_device();
        *stop = number_in(&core);
        match found {
            Ok(found) => Ok(found),
            Err(cause) => Err(RunFault::Sink(cause)),
        }
    }
}
