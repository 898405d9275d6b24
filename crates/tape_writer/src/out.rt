//! The output of the writer: volumes, item by item.

ghost use Rattle.std.specs.Prelude.{◌<◌, ◌∷◌, [], OnOk};
ghost use Rattle.tape_image.specs.Tape.{IsTapeItem, block, mark};
ghost use Rattle.tape_writer.specs.Tapes.{Tapes, Takes, Changes, Closes, Keeps, HasCause};
ghost use Rattle.tape_label.specs.declared.values.Vol1.{Vol1};
ghost use Rattle.tape_writer.specs.Tapes.{Failures, Grows};

use crate::fault::OutFault;
use tape_label::Vol1;

/// Receives the items of volumes, one volume after another.
///
/// A call that is refused does not change the contents. Any failure of a device, including an
/// interruption, is `Device`.
pub trait TapeOut {
    /// Relates a value to the volumes that it contains. It relates an untrusted value to no
    /// volumes.
    ghost holds: { Self → Tapes → Type 0 };

    /// The number of calls in which the device failed, and of failed allocations, each at most 2^64
    /// - 1.
    ghost failures: { Self → Failures };

    /// Whether the last change of the volume was called with the given label. For tapes that do not
    /// record labels this holds for every label.
    ghost asked: { Self → Vol1 → Type 0 };

    /// Appends a block of 1 to 99,999 bytes to the current volume.
    fn block(&mut self, bytes: &[u8]) -> Result<(), OutFault>
        requires sized { IsTapeItem (block bytes.now) }
        ensures ok { Takes (block bytes.now ∷ []) (holds self.old) result (holds self.new) }
        ensures err { Keeps (holds self.old) result (holds self.new) }
        ensures count { Grows (failures self.old) (failures self.new) }
        ensures cause { HasCause OutFault.Device OutFault.OutOfMemory
            (failures self.old) result (failures self.new) }
        ensures asked { (v : Vol1) → asked self.old v → asked self.new v };

    /// Appends a tape mark to the current volume.
    fn mark(&mut self) -> Result<(), OutFault>
        ensures ok { Takes (mark ∷ []) (holds self.old) result (holds self.new) }
        ensures err { Keeps (holds self.old) result (holds self.new) }
        ensures count { Grows (failures self.old) (failures self.new) }
        ensures cause { HasCause OutFault.Device OutFault.OutOfMemory
            (failures self.old) result (failures self.new) }
        ensures asked { (v : Vol1) → asked self.old v → asked self.new v };

    /// Ends the current volume, if there is one, and begins the next volume, whose label is
    /// `volume`. The label itself is written by `block`.
    fn change_volume(&mut self, volume: &Vol1) -> Result<(), OutFault>
        ensures ok { Changes [] (holds self.old) result (holds self.new) }
        ensures err { Keeps (holds self.old) result (holds self.new) }
        ensures count { Grows (failures self.old) (failures self.new) }
        ensures cause { HasCause OutFault.Device OutFault.OutOfMemory
            (failures self.old) result (failures self.new) }
        ensures asked { OnOk result (asked self.new volume.now) };

    /// Ends the current volume, if there is one.
    fn close(&mut self) -> Result<(), OutFault>
        ensures ok { Closes (holds self.old) result (holds self.new) }
        ensures err { Keeps (holds self.old) result (holds self.new) }
        ensures count { Grows (failures self.old) (failures self.new) }
        ensures cause { HasCause OutFault.Device OutFault.OutOfMemory
            (failures self.old) result (failures self.new) }
        ensures asked { (v : Vol1) → asked self.old v → asked self.new v };
}
