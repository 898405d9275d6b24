//! The writer's position on the volumes.

ghost use Rattle.std.specs.Prelude.{◌≡◌};
ghost use Rattle.tape_writer.specs.Labels.{head_at as head_at_of};

use tape_blocks::Shape;
use tape_label::Head1;

/// A file that has begun: its head (with the set's identifier, section 1 and the file's number) and
/// its shape.
#[derive(Clone, Copy)]
pub struct Opened {
    /// The fields of HDR1 in the file's first section.
    pub head: Head1,
    /// The shape of the file's blocks and records.
    pub shape: Shape,
}

/// The current volume and section.
#[derive(Clone, Copy)]
pub struct Course {
    /// The number of the volume, from 1; 0 before the first volume.
    pub volume: u16,
    /// The number of the section in its file, from 1.
    pub sect: u16,
    /// The number of data blocks in the section so far.
    pub count: u32,
    /// The size of the volume as an image so far, in bytes.
    pub used: u32,
}

impl Opened {
    /// Returns the fields of HDR1 in section number `sect`.
    pub(crate) fn head_at(&self, sect: u16) -> Head1
        ensures { result ≡ head_at_of self.now sect }
    {
        Head1 { sect, ..self.head }
    }
}
