//! The blocks that an image and a session have of one section, by their digests.

ghost use Rattle.std.specs.Prelude.{◌≡◌};
ghost use Rattle.tape_run.specs.Comparing.{core_before};
ghost use Rattle.std.specs.Result.{IsOkUnless};
ghost use Rattle.tape_image.specs.Reader.{going};
ghost use Rattle.tape_run.specs.declared.fault.RunFault.TheVariants as faults;

use crate::fault::RunFault;
use crate::reel_reader::event_of;
use crate::session::Session;
use crate::survey::digest::digest_with;
use std::io::Read;
use tape_core::{Answer, Expected, PartSink, ReaderCore};
use tape_image::{ImageBuffer, ImageFault, ImageReader, Item};

/// Returns the digest of a block, or `None` if it could not be read.
fn digest_of(told: Result<Option<Item<'_>>, ImageFault>) -> Option<u64> {
    match told {
        Ok(Some(Item::Block(bytes))) => Some(digest_with(0, bytes)),
        _ => None,
    }
}

/// Reads an unread image by a core, and adds the digests of the section's blocks `from` up to but
/// not including `to`, or up to the end of the reading.
fn add_digests<R: Read>(
    digests: &mut Vec<Option<u64>>,
    core: &mut ReaderCore,
    wide: bool,
    from: u32,
    to: u32,
    image: &mut ImageReader<'_, R>,
) -> Result<(), RunFault>
    requires going { image.old.status ≡ going }
    requires first { image.old.place ≡ 0 }
    ensures same_device { image.new.device ≡ image.old.device }
    ensures fault { IsOkUnless result faults.OutOfMemory }
{
    'items: loop {
        let told = image.next();
        if let Expected::Data { seen, .. } = core.expected() {
            if to <= seen {
                return Ok(());
            }
            if from <= seen && digests.push(digest_of(told)).is_err() {
                return Err(RunFault::OutOfMemory);
            }
        }
        let (event, _) = event_of(told);
        match core.step_by(wide, event) {
            Answer::Passed => continue 'items,
            _ => return Ok(()),
        }
    }
}

impl<S: PartSink> Session<S> {
    /// Returns a core at the session's position, at the start of a reel.
    pub(crate) fn core_before(&self) -> ReaderCore
        ensures { result ≡ core_before self.now.core }
    {
        let mut core = ReaderCore::at(&self.reel_reader.core.save(0));
        core.mount();
        core
    }

    /// Returns the digests of the blocks `from` up to but not including `to` of the section that
    /// the session needs, in their order, as far as it would skip them on an unread image; `None`
    /// for a block that could not be read.
    ///
    /// # Errors
    ///
    /// Returns `OutOfMemory`.
    pub fn skipped_digests<R: Read>(
        &self,
        device: &mut R,
        from: u32,
        to: u32,
    ) -> Result<Vec<Option<u64>>, RunFault>
        ensures fault { IsOkUnless result faults.OutOfMemory }
    {
        let mut digests = Vec::new(self.alloc);
        let Ok(buffer) = ImageBuffer::new(self.alloc) else {
            return Err(RunFault::OutOfMemory);
        };
        let mut image = ImageReader::over(buffer, device);
        let mut core = self.core_before();
        let wide = self.reel_reader.wide;
        let added = add_digests(&mut digests, &mut core, wide, from, to, &mut image);
        image.into_device();
        match added {
            Ok(()) => Ok(digests),
            Err(fault) => Err(fault),
        }
    }
}
