//! The rules that were applied to a tape.

use crate::normal::code::Code;
use crate::normal::machine::{Change, Missing, Replacement, TapePlace};

/// The rules by which the normal form of a tape differs from the tape, as far as it was read.
#[derive(Clone, Copy, Debug, PartialEq, Eq)]
pub struct Rules {
    /// Whether labels are in EBCDIC.
    pub ebcdic: bool,
    /// Whether labels are in blocks with padding.
    pub padded: bool,
    /// Whether the volume label is missing.
    pub no_volume_label: bool,
    /// Whether a file has no second header label.
    pub no_second_label: bool,
    /// Whether numbers in a second label begin with blanks or NULs.
    pub blank_numbers: bool,
    /// Whether a first header label has no section or sequence number.
    pub no_file_numbers: bool,
    /// Whether a first trailer label has no block count.
    pub no_block_count: bool,
    /// The number of items before the first file that are left out.
    pub before: u64,
    /// The number of items after the end of the volume that are left out.
    pub after: u64,
}

impl Rules {
    /// No rule.
    pub const NONE: Rules = Rules {
        ebcdic: false,
        padded: false,
        no_volume_label: false,
        no_second_label: false,
        blank_numbers: false,
        no_file_numbers: false,
        no_block_count: false,
        before: 0,
        after: 0,
    };

    /// Notes the rules of a change at the place `place`, after which `next` is expected.
    pub(crate) fn note(&mut self, place: TapePlace, next: TapePlace, change: &Change) {
        match change.missing {
            Missing::Nothing => {}
            Missing::VolumeLabel => self.no_volume_label = true,
            Missing::SecondLabel => self.no_second_label = true,
            Missing::Digits => self.blank_numbers = true,
        }
        match (change.instead, place) {
            (Replacement::Dropped, TapePlace::Ended) => self.after = self.after.saturating_add(1),
            (Replacement::Dropped, _) => self.before = self.before.saturating_add(1),
            (Replacement::Same | Replacement::Label(_), _) => {}
        }
        match next {
            TapePlace::Labels(code, _) => self.note_code(code),
            TapePlace::Second(code, seen) => {
                self.note_code(code);
                self.no_file_numbers = self.no_file_numbers || seen.is_filled;
            }
            TapePlace::Trailers(_, seen) => {
                self.no_block_count = self.no_block_count || seen.has_no_count;
            }
            _ => {}
        }
    }

    /// Notes the code of labels.
    fn note_code(&mut self, code: Code) {
        match code {
            Code::Ascii => {}
            Code::Ebcdic => self.ebcdic = true,
            Code::PaddedAscii => self.padded = true,
            Code::PaddedEbcdic => {
                self.ebcdic = true;
                self.padded = true;
            }
        }
    }
}
