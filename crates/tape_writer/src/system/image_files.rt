//! The image files of a set, one after another.
ghost use Rattle.std.specs.Prelude.{◌≡◌, ◌≤◌, ◌<◌, ◌+◌, ◌-◌, ◌++◌, ◌∷◌, [], min, length, IfOk};
ghost use Rattle.std.specs.Prelude.{MatchOption, None, vec_capacity};
ghost use Rattle.std.specs.Option.{option_map_or};
ghost use Rattle.tape_writer.specs.Blank.{volume_id};

use crate::blank::{Prefix, blank_volume};
use crate::store::ImageStore;
use crate::system::Host;
use crate::system::image_file::ImageFile;
use std::alloc::{AllocError, Global};
use tape_label::{Field, Vol1};

/// The maximum number of volumes of a set in a directory.
pub const VOLUMES: u16 = 256;

/// A volume that was written.
#[derive(Clone, Copy)]
pub struct Ended {
    pub volume: Field<6>,
    /// The size of its image in bytes, including its end-of-medium marker.
    pub size: u64,
}

/// Lends the file of each image in turn, and closes and records it when its image has ended. The
/// contracts make no claim about the contents of files.
#[derive(Drop)]
pub struct ImageFiles<'a, R: Host> {
    rt: &'a R,
    folder: &'a str,
    prefix: Prefix,
    /// Whether the bytes are only counted.
    dry: bool,
    /// The number of files lent.
    lent: u16,
    /// The numbers of the images that have ended and whose files were created.
    pub(crate) made: Vec<u16>,
    /// The volumes whose images ended, and their sizes.
    pub(crate) ended: Vec<Ended>,
    ghost room: { 256 ≤ vec_capacity ended },
}

impl<'a, R: Host> ImageFiles<'a, R> {
    /// Returns the image files of volumes with prefix `prefix` in directory `folder`. Opens
    /// nothing. If `dry` is true, nothing will be written to them.
    ///
    /// # Errors
    ///
    /// Returns `AllocError` if the allocation fails.
    pub fn new(
        rt: &'a R,
        folder: &'a str,
        prefix: Prefix,
        dry: bool,
    ) -> Result<ImageFiles<'a, R>, AllocError>
        ensures { IfOk result (λ files. (files.prefix ≡ prefix) × (files.lent ≡ 0)
            × (files.ended.items ≡ [])) }
    {
        Ok(ImageFiles {
            rt,
            folder,
            prefix,
            dry,
            lent: 0,
            made: Vec::new(rt.alloc()),
            ended: Vec::with_capacity(rt.alloc(), usize::from(VOLUMES))?,
        })
    }
}

impl<'a, R: Host> ImageStore for ImageFiles<'a, R> {
    type Device = ImageFile<'a, R>;

    ghost holds = { λ files lent images. ⊥ };

    ghost left = { λ files. 256 - files.lent };

    ghost asked = { λ _ _. Unit {0} };

    fn left(&self) -> usize {
        usize::from(VOLUMES.saturating_sub(self.lent))
    }

    fn next(&mut self, _volume: &Vol1) -> Option<ImageFile<'a, R>>
        ensures lends { MatchOption result ((256 ≤ self.old.lent) × (self.new ≡ self.old))
            (λ file. (file.prefix ≡ self.old.prefix) × (file.number ≡ self.new.lent)
            × (file.file ≡ None) × (file.fault ≡ None)
            × (self.new.lent ≡ self.old.lent + 1) × (self.new.prefix ≡ self.old.prefix)
            × (self.new.ended ≡ self.old.ended)) }
    {
        if self.lent >= VOLUMES {
            return None;
        }
        self.lent += 1;
        Some(ImageFile::new(self.rt, self.folder, self.prefix, self.lent, self.dry))
    }

    fn keep(&mut self, device: ImageFile<'a, R>)
        ensures listed { length self.old.ended.items < 256
            → self.new.ended.items ≡ self.old.ended.items ++ record {
              volume = volume_id self.old.prefix.characters (min self.old.lent 256);
              size = option_map_or (λ file. file.size) device.entry.file 0;
            } ∷ [] }
        ensures same { (self.new.lent ≡ self.old.lent) × (self.new.prefix ≡ self.old.prefix) }
    {
        if let (number, true) = device.origin() {
            // If memory runs out, this image is not removed after a fault.
            let _ = self.made.push(number);
        }
        let volume = blank_volume(self.prefix, self.lent.min(VOLUMES)).volume;
        // The list has room for all files that are lent.
        let _ = self.ended.push(Ended {
            volume,
            size: device.size(),
        });
    }
}
