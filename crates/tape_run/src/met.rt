//! A file section being read: its labels were found, and its data are counted.

ghost use Rattle.std.specs.Prelude.{◌≡◌, ◌<◌};
ghost use Rattle.tape_set.specs.Lawful.{most_blocks};

use crate::section::{Entry, SectionKey, SectionState};
use tape_label::{Field, Head1, Trail1};
use tape_set::label_count;

/// A section whose labels were found, with its data so far.
#[derive(Clone, Copy)]
pub(crate) struct Met {
    pub(crate) volume: Field<6>,
    pub(crate) key: SectionKey,
    pub(crate) blocks: u32,
    pub(crate) bad: bool,
}

/// A complete description of a section, for the catalogue.
pub(crate) type Told = (SectionKey, Entry);

impl Met {
    ghost use Rattle.tape_run.specs.Passing.{cut, closes, told, with_block, met_by};

    /// Creates a section of which only the label `head` was read.
    pub(crate) fn new(volume: Field<6>, head: &Head1) -> Met
        ensures { result ≡ met_by volume head.now }
    {
        Met {
            volume,
            key: SectionKey {
                set_id: head.set_id,
                file: head.sequence,
                sect: head.sect,
            },
            blocks: 0,
            bad: false,
        }
    }

    /// Counts one more data block.
    pub(crate) fn with_block(self, bad: bool) -> Met
        requires { self.blocks < most_blocks }
        ensures { result ≡ with_block self bad }
    {
        Met {
            blocks: self.blocks + 1,
            bad: self.bad || bad,
            ..self
        }
    }

    /// Returns the description of the section as truncated: no trailer label was read.
    pub(crate) fn cut(self) -> Told
        ensures { result ≡ cut self }
    {
        let entry = Entry {
            volume: self.volume,
            blocks: self.blocks,
            eof: false,
            state: SectionState::Cut,
        };
        (self.key, entry)
    }

    /// Returns whether `trail` is the section's trailer label.
    pub(crate) fn closes(&self, trail: &Trail1) -> bool
        ensures { result ≡ closes self.now trail.now }
    {
        trail.head.sect == self.key.sect && trail.head.sequence == self.key.file
    }

    /// Returns the description of the section, completed from its trailer label.
    pub(crate) fn told(&self, trail: &Trail1) -> Told
        ensures { result ≡ told self.now trail.now }
    {
        let state = if trail.blocks != label_count(self.blocks) {
            SectionState::Count
        } else if self.bad {
            SectionState::Bad
        } else {
            SectionState::Good
        };
        let entry = Entry {
            volume: self.volume,
            blocks: self.blocks,
            eof: trail.eof,
            state,
        };
        (self.key, entry)
    }
}
