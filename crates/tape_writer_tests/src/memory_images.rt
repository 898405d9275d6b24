//! In-memory images.

ghost use Rattle.std.specs.Prelude.{◌≡◌, [], ℕ, List, Some, true, false, IfOk, map, vec_capacity};
ghost use Rattle.tape_writer_tests.specs.HoldsImages.{HoldsImages};

use std::alloc::{AllocError, Global};
use std::io::{Result as IoResult, Write};
use tape_label::Vol1;
use tape_writer::ImageStore;

/// An in-memory image, as far as it has been written.
#[derive(Drop)]
pub(crate) struct MemoryImage {
    pub(crate) bytes: Vec<u8>,
}

impl Write for MemoryImage {
    ghost contents = { λ image. Some image.bytes.items };

    fn write(&mut self, buf: &[u8]) -> IoResult<usize> {
        self.bytes.extend_from_slice(buf)?;
        Ok(buf.len())
    }

    fn flush(&mut self) -> IoResult<()> {
        Ok(())
    }
}

/// An image store that keeps the images in memory.
#[derive(Drop)]
pub(crate) struct MemoryImages {
    alloc: Global,
    left: usize,
    images: Vec<Vec<u8>>,
}

impl MemoryImages {
    /// Creates a store without images, and with `count` devices.
    ///
    /// # Errors
    ///
    /// Returns `AllocError` if there is no memory for a list of `count` images.
    pub(crate) fn new(alloc: Global, count: usize) -> Result<Self, AllocError>
        ensures left { IfOk result (λ images. images.left ≡ count) }
        ensures held { IfOk result (λ images. HoldsImages (map (λ v. v.items) images.images.items)
            (vec_capacity images.images) images.left false []) }
    {
        let images = Vec::with_capacity(alloc, count)?;
        Ok(MemoryImages {
            alloc,
            left: count,
            images,
        })
    }

    /// Returns the images that have ended, in order.
    pub(crate) fn into_images(self) -> Vec<Vec<u8>>
        ensures { result.items ≡ self.images.items }
    {
        let MemoryImages { images, .. } = self;
        images
    }
}

impl ImageStore for MemoryImages {
    type Device = MemoryImage;

    ghost holds = { λ store lent images. HoldsImages (map (λ v. v.items) store.images.items)
        (vec_capacity store.images) store.left lent images };

    ghost left = { λ store. store.left };

    ghost asked = { λ _ _. Unit {0} };

    fn left(&self) -> usize {
        self.left
    }

    fn next(&mut self, _volume: &Vol1) -> Option<MemoryImage> {
        if self.left == 0 {
            return None;
        }
        self.left -= 1;
        Some(MemoryImage {
            bytes: Vec::new(self.alloc),
        })
    }

    fn keep(&mut self, device: MemoryImage) {
        // The list has room for the image of each device that was lent.
        let _ = self.images.push(device.bytes);
    }
}

/// States test cases for the definition of an image store in memory, which has room also for the
/// image whose device is lent.
pub(crate) fn cases()
    ensures room_for_the_lent { HoldsImages [] 2 2 true [] → ⊥ }
    ensures room_for_all { HoldsImages [] 3 2 true [] }
    ensures kept { (kept images : List (List ℕ)) → HoldsImages kept 5 1 false images
        → kept ≡ images }
{}
