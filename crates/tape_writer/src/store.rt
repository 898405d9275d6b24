//! The store of images.

ghost use Rattle.std.specs.Prelude.{◌≡◌, ◌<◌, ◌++◌, ◌∷◌, [], ℕ, List, Bool, true, false, Some};
ghost use Rattle.std.specs.Prelude.{IsSome, IfSome};
ghost use Rattle.tape_label.specs.declared.values.Vol1.{Vol1};

use std::io::Write;
use tape_label::Vol1;

/// Lends a device for each image, one after another, and receives the images that have ended.
///
/// Only one device is lent at a time: its image is returned before the next device is requested.
pub trait ImageStore {
    /// The device that an image is written to.
    type Device: Write + Drop;

    /// Relates the store to exactly the images that it received, in order, and to whether a further
    /// device is lent. It relates an untrusted store to no images.
    ghost holds: { Self → Bool → List (List ℕ) → Type 0 };

    /// The number of images for which the store still has a device.
    ghost left: { Self → ℕ };

    /// Whether the last device was requested with the given label. For a store that does not record
    /// labels this holds for every label.
    ghost asked: { Self → Vol1 → Type 0 };

    /// Returns the number of images for which the store still has a device.
    fn left(&self) -> usize
        ensures { result ≡ left self.now };

    /// Lends the device of the next image, for the volume with the label `volume`; nothing was
    /// written to the device yet. Returns `None` if no device is left.
    fn next(&mut self, volume: &Vol1) -> Option<Self::Device>
        ensures some { 0 < left self.old → IsSome result }
        ensures lent { (images : List (List ℕ)) → holds self.old false images
            → IfSome result (λ device. (Self.Device.contents device ≡ Some [])
            × holds self.new true images) }
        ensures asked { IfSome result (λ _. asked self.new volume.now) };

    /// Receives the device that was lent. Its image has ended and was flushed.
    fn keep(&mut self, device: Self::Device)
        ensures kept { (images : List (List ℕ)) (bytes : List ℕ) → holds self.old true images
            → Self.Device.contents device ≡ Some bytes
            → holds self.new false (images ++ bytes ∷ []) }
        ensures left { left self.new ≡ left self.old }
        ensures asked { (v : Vol1) → asked self.old v → asked self.new v };
}
