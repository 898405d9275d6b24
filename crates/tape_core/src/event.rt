//! The events from reels, the answers to them, and the items that a reader expects next.

ghost use Rattle.std.specs.Prelude.{◌≡◌};
ghost use Rattle.tape_core.specs.Faults.{number};

use crate::checkpoint::Known;
use tape_blocks::{BlockFault, Shape, Span};
use tape_label::{Field, LabelFault};
use thiserror::Error;

/// The next event from the mounted reel.
#[derive(Clone, Copy)]
pub enum Event<'a> {
    /// A readable block.
    Block(&'a [u8]),
    /// An unreadable block or tape mark; the two cannot be distinguished.
    Bad,
    /// A tape mark.
    Mark,
    /// The reel ended, or its reader failed: no more items follow.
    ReelEnd,
}

/// The answer to an event. A reading continues after `Passed` and `Deliver`, and ends after all
/// other answers.
#[derive(Clone, Copy, Debug, PartialEq, Eq)]
pub enum Answer {
    /// The item was expected, and contains no part that is needed.
    Passed,
    /// The block is the expected one, and its contents were checked: its parts, beginning with the
    /// expected one, are the next parts of the file. The position is now after the block.
    Deliver,
    /// The section is complete, and the file continues in the next section.
    SectionDone,
    /// The file is complete.
    Complete,
    /// This reading yields nothing more. The position is unchanged.
    Useless(Reason),
}

/// The reason why a reading yields nothing more.
#[derive(Clone, Copy, Debug, PartialEq, Eq)]
pub enum Reason {
    /// The reel does not begin with VOL1, further volume labels and HDR1 (ECMA-13, 4th edition,
    /// label groups).
    NotLabelled,
    /// HDR1 names another file set.
    OtherSet,
    /// The section needed is not on this reel: the header of a later file, or the end of the
    /// volume, comes first.
    NotOnReel,
    /// A later section of the file begins here.
    LaterSection,
    /// An earlier section of the file begins here.
    EarlierSection,
    /// An item that is needed is unreadable.
    BadItem,
    /// The reel ended, or no reading is in progress.
    ReelEnded,
    /// The expected block does not contain records as described by the labels, or its records do
    /// not continue the file.
    BadBlock(BlockFault),
    /// The trailer label gives a different number of blocks than were seen. Nothing is read before
    /// a restart.
    BlockCount {
        /// The label's count, which contains only the last six digits.
        label: u32,
        /// The number of data blocks in the section, including unreadable blocks.
        seen: u32,
    },
    /// The file's last section ends inside a record.
    SpanLeft,
    /// The section's labels differ from those of earlier sections, or its trailer differs from its
    /// own header, or the section is too long, or it has fewer blocks than were delivered, or the
    /// block differs from the one whose first parts were delivered.
    SectionDiffers,
    /// A block that should be a label cannot be read as a label. For a tape mark instead of a label
    /// the cause is `Identifier`.
    BadLabel(LabelFault),
    /// The reader is broken: after `BlockCount` nothing is read before a restart.
    Broken,
}

/// The reason why a reader cannot be created, or cannot roll back to a checkpoint.
#[derive(Clone, Copy, Debug, PartialEq, Eq, Error)]
pub enum CoreFault {
    /// The file number is not 1 to 9,999.
    #[error("the file number is not 1 to 9,999")]
    FileNumber,
    /// The checkpoint belongs to another file or file set.
    #[error("the checkpoint belongs to another file")]
    OtherFile,
}

impl CoreFault {
    /// Returns the fault's fixed number, 1 for `FileNumber` and 2 for `OtherFile`.
    pub fn number(&self) -> u8
        ensures { result ≡ number self.now }
    {
        match self {
            CoreFault::FileNumber => 1,
            CoreFault::OtherFile => 2,
        }
    }
}

/// The expected block, which was checked.
#[derive(Clone, Copy)]
pub struct Awaited {
    /// The shape of its records, as `ReaderCore::shape` returns it.
    pub shape: Shape,
    /// The number of its parts that were delivered already.
    pub part: u32,
    /// Whether a record is unfinished after these parts.
    pub begun: bool,
    /// Whether the block leaves a record unfinished.
    pub end: bool,
}

/// The item of the section needed that a reader expects next.
#[derive(Clone, Copy)]
pub enum Expected {
    /// Its HDR2. The item before was its HDR1.
    Header2,
    /// A data block, or the mark after the data.
    Data {
        /// The number of its blocks already seen.
        seen: u32,
        /// The shape of its records, as its labels say.
        shape: Shape,
    },
    /// Its trailer label, or a mark instead of it.
    Trailer,
    /// Nothing: no item of the section needed is expected.
    Other,
}

/// The fields of an HDR1 that are remembered while its section is read.
#[derive(Clone, Copy)]
pub(crate) struct Heading {
    /// The number of the file in its set.
    pub sequence: u16,
    /// The number of the section in its file.
    pub sect: u16,
    /// The file identifier.
    pub file_id: Field<17>,
}

/// The items expected next on the mounted reel. The numbers of HDR1 are remembered until the end of
/// a section, and for the section needed also the form from its labels.
#[derive(Clone, Copy)]
pub(crate) enum Phase {
    /// Nothing: no reading is in progress.
    Over,
    /// Nothing: no reading begins before a restart.
    Broken,
    /// VOL1.
    Volume,
    /// A further volume label, or HDR1.
    VolumeLabels,
    /// HDR2 of the section needed (`true`) or of a skipped section.
    Header2(Heading, bool),
    /// Further headers, or the mark after them. The form is `None` for a skipped section.
    Headers(Heading, Option<Known>),
    /// Data of a skipped section, or the mark after them.
    DataPassed(Heading),
    /// Data of the section needed, or the mark after them; the number is that of the blocks already
    /// seen.
    DataWanted(Heading, Known, u32),
    /// EOF1 or EOV1 of a skipped section.
    TrailerPassed(Heading),
    /// EOF1 or EOV1 of the section needed.
    TrailerWanted(Heading, Known),
    /// Further trailers of a skipped section, or the mark after them.
    Trailers,
    /// HDR1 of the next section, or the second mark.
    NextFile,
}

/// The position of a part within its record, and the offset at which its bytes end.
#[derive(Clone, Copy)]
pub(crate) struct Entry {
    /// The position of the part within its record.
    pub span: Span,
    /// The total number of bytes of all parts up to and including this part.
    pub end: usize,
}
