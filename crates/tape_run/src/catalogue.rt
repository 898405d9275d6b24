//! The catalogue of the file sections that were found.

ghost use Rattle.std.specs.Result.{IsOkUnless};
ghost use Rattle.tape_run.specs.declared.fault.RunFault.TheVariants as faults;
ghost use Rattle.std.specs.Prelude.{◌≡◌, [], OnErr, IfOk};
ghost use Rattle.tape_image.specs.Reader.{going};
ghost use Rattle.tape_run.specs.Added.{Adds, AddsInPart, stop_at};

use crate::fault::RunFault;
use crate::passing::Phase;
use crate::section::{ImageLine, ImageStop};
use crate::sections::{Sections, close, take};
use std::alloc::Global;
use std::io::Read;
use std::marker::Model;
use tape_image::{Ending, ImageBuffer, ImageReader};

/// The file sections found on reels, in the order in which they were found first.
///
/// A section that is found again keeps its place, and counts as complete once a complete copy was
/// found.
#[derive(Drop)]
pub struct Catalogue {
    alloc: Global,
    pub(crate) sections: Sections,
}

// Contracts see a catalogue as the list of its sections.
impl Model for Catalogue {
    ghost use Rattle.std.specs.Prelude.{List};
    ghost use Rattle.tape_run.specs.Passing.{Told};

    ghost Value = { List Told };

    ghost view = { λ c. c.sections.entries };
}

impl Catalogue {
    /// Creates a catalogue without sections. Does not allocate.
    pub fn new(alloc: Global) -> Catalogue
        ensures { result ≡ [] }
    {
        Catalogue {
            alloc,
            sections: Sections::new(alloc),
        }
    }

    /// Reads an image to its end, and adds the sections that are on it, with the image's volume
    /// identifier.
    ///
    /// The sections are those of a labelled volume, read with every section skipped (ECMA-13, the
    /// order of labels and files on a volume); items after them are counted and otherwise ignored.
    ///
    /// # Errors
    ///
    /// Returns `OutOfMemory` if the reader's buffer or the memory for a section was refused, and no
    /// other error. The sections found before remain.
    pub fn add<R: Read>(&mut self, reader: &mut R) -> Result<ImageLine, RunFault>
        ensures ok { IfOk result (λ line.
            Adds (R.remaining reader.old) (R.remaining reader.new) self.old line self.new) }
        ensures err { OnErr result (AddsInPart (R.remaining reader.old) self.old self.new) }
        ensures fault { IsOkUnless result faults.OutOfMemory }
    {
        let mut image = ImageReader::over(ImageBuffer::new(self.alloc)?, reader);
        let added = add_items(&mut self.sections, &mut image);
        // The caller gets back the rest of the reader.
        image.into_device();
        added
    }
}

/// Adds the sections on an unread image.
fn add_items<R: Read>(
    sections: &mut Sections,
    image: &mut ImageReader<'_, R>,
) -> Result<ImageLine, RunFault>
    requires going { image.old.status ≡ going }
    requires first { image.old.place ≡ 0 }
    ensures same_device { image.new.device ≡ image.old.device }
    ensures ok { IfOk result (λ line.
        Adds image.old.left image.new.left sections.old.entries line sections.new.entries) }
    ensures err { OnErr result (
        AddsInPart image.old.left sections.old.entries sections.new.entries) }
    ensures fault { IsOkUnless result faults.OutOfMemory }
{
    let mut phase = Phase::Volume;
    let mut items = 0u32;
    'items: loop {
        match image.next() {
            Ok(Some(item)) => {
                items += 1;
                phase = take(sections, phase, item)?;
            }
            Ok(None) => {
                let Some(ending) = image.ending() else {
                    unreachable!()
                };
                close(sections, phase)?;
                let stop = stop_at(ending);
                return Ok(ImageLine { items, stop });
            }
            Err(fault) => {
                close(sections, phase)?;
                let stop = ImageStop::Fault(fault);
                return Ok(ImageLine { items, stop });
            }
        }
    }
}

/// Returns the end of the medium as a way to stop.
pub(crate) fn stop_at(ending: Ending) -> ImageStop
    ensures { result ≡ stop_at ending }
{
    match ending {
        Ending::Marked => ImageStop::Marked,
        Ending::Physical => ImageStop::Physical,
    }
}
