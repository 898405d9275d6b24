//! Volumes as images, one after another.

ghost use Rattle.std.specs.Prelude.{◌≡◌, ◌≤◌, ◌<◌, [], None, Option, false, OnOk};
ghost use Rattle.tape_label.specs.declared.values.Vol1.{Vol1};
ghost use Rattle.tape_writer.specs.Tapes.{Ended, Rose, Closes, Keeps, HasCause};
ghost use Rattle.tape_writer.specs.Images.{Holds, HasStopped, device_failures};

use crate::fault::OutFault;
use crate::out::TapeOut;
use crate::store::ImageStore;
use std::marker::Model;
use tape_image::ImageWriter;
use tape_label::Vol1;

/// Writes each volume as an image in the format of "SIMH Magtape Representation and Handling": its
/// items and the end-of-medium marker.
///
/// Keeps only the image of the current volume. When a volume ends, its image is flushed and passed
/// to the store before the next one begins, so that no later failure can affect it.
///
/// Returns `Device` if an image writer refuses a call, if there is no current volume, or if the
/// store has no device left; after that no further volume begins. Does not allocate.
#[derive(Drop)]
pub struct ImageTapes<S: ImageStore + Drop> {
    store: S,
    image: Option<ImageWriter<S::Device>>,
    failed: u64,
}

impl<S: ImageStore + Drop> Model for ImageTapes<S> {
    ghost use Rattle.std.specs.Prelude.{◌<◌};
    ghost use Rattle.tape_writer.specs.Images.{Images, HasStopped};

    ghost Value = { Images S };

    ghost view = { λ t. record {
      store = t.store;
      image = t.image;
      failed = t.failed;
    } };

    ghost invariant = { λ t. 0 < t.failed → HasStopped (S.left t.store) t.image };
}

impl<S: ImageStore + Drop> ImageTapes<S> {
    /// Creates a writer that has no volume yet. The store must not have received an image.
    pub fn new(store: S) -> Self
        ensures store { result.store ≡ store }
        ensures image { result.image ≡ None }
        ensures failed { result.failed ≡ 0 }
        ensures held { S.holds store false [] → Holds S.holds result (Ended []) }
    {
        ImageTapes {
            store,
            image: None,
            failed: 0,
        }
    }

    /// Returns the store, which received the images that have ended, and the image of the current
    /// volume, if there is one.
    pub fn into_parts(self) -> (S, Option<ImageWriter<S::Device>>)
        ensures store { result.0 ≡ self.store }
        ensures image { result.1 ≡ self.image }
        // If a call failed, the store has no device left, or the image accepts no further items.
        ensures stopped { 0 < self.failed → HasStopped (S.left result.0) result.1 }
    {
        let ImageTapes { store, image, .. } = self;
        (store, image)
    }

    /// Counts a failure.
    fn fail(&mut self) -> OutFault
        requires stopped { HasStopped (S.left self.old.store) self.old.image }
        ensures fault { result ≡ OutFault.Device }
        ensures counted { Rose self.old.failed self.new.failed }
        ensures grew { self.old.failed ≤ self.new.failed }
        ensures store { self.new.store ≡ self.old.store }
        ensures image { self.new.image ≡ self.old.image }
    {
        self.failed = self.failed.saturating_add(1);
        OutFault::Device
    }

    /// Ends the image of the current volume, if there is one, and passes it to the store.
    fn end_image(&mut self) -> Result<(), OutFault>
        ensures ok { Closes (Holds S.holds self.old) result (Holds S.holds self.new) }
        ensures err { Keeps (Holds S.holds self.old) result (Holds S.holds self.new) }
        ensures count { self.old.failed ≤ self.new.failed }
        ensures cause { HasCause OutFault.Device OutFault.OutOfMemory
            (device_failures self.old.failed) result (device_failures self.new.failed) }
        ensures none { OnOk result (self.new.image ≡ None) }
        ensures same { OnOk result (self.new.failed ≡ self.old.failed) }
        ensures left { S.left self.new.store ≡ S.left self.old.store }
        ensures asked { (v : Vol1) → S.asked self.old.store v → S.asked self.new.store v }
    {
        let Some(mut image) = self.image.take() else {
            return Ok(());
        };
        match image.finish() {
            Ok(()) => {
                self.store.keep(image.into_device());
                Ok(())
            }
            Err(_) => {
                self.image = Some(image);
                Err(self.fail())
            }
        }
    }
}

impl<S: ImageStore + Drop> TapeOut for ImageTapes<S> {
    ghost holds = { λ t tapes. Holds S.holds t tapes };

    ghost failures = { λ t. device_failures t.failed };

    ghost asked = { λ t v. S.asked t.store v };

    fn block(&mut self, bytes: &[u8]) -> Result<(), OutFault> {
        let Some(image) = &mut self.image else {
            return Err(self.fail());
        };
        match image.block(bytes) {
            Ok(()) => Ok(()),
            Err(_) => Err(self.fail()),
        }
    }

    fn mark(&mut self) -> Result<(), OutFault> {
        let Some(image) = &mut self.image else {
            return Err(self.fail());
        };
        match image.mark() {
            Ok(()) => Ok(()),
            Err(_) => Err(self.fail()),
        }
    }

    fn change_volume(&mut self, volume: &Vol1) -> Result<(), OutFault> {
        // Checked first: otherwise the current volume would already have ended when the next volume
        // is refused.
        if self.failed > 0 || self.store.left() == 0 {
            return Err(self.fail());
        }
        self.end_image()?;
        let Some(device) = self.store.next(volume) else {
            return Err(self.fail());
        };
        self.image = Some(ImageWriter::new(device));
        Ok(())
    }

    fn close(&mut self) -> Result<(), OutFault> {
        self.end_image()
    }
}
