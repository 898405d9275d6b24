//! The cutting of an input into records, and the maximum length of a record.
ghost use Rattle.std.specs.Prelude.{◌≡◌, ◌<◌, ◌≤◌, ◌++◌, ◌∷◌, [], ℕ, List, take, false, MatchBool};
ghost use Rattle.std.specs.Prelude.{length as count};
ghost use Rattle.tape_writer.specs.Records.{Adds, last_record, longest as longest_of};
ghost use Rattle.tape_writer.specs.WriteSet.{cut_of as cut_by};

use memchr::memchr;
use tape_blocks::{Form, Shape};
use tape_label::Format;

/// The way in which an input is cut into records.
#[derive(Clone, Copy)]
pub enum Cut {
    /// The input is cut after each line feed, which belongs to no record.
    Lines,
    /// The input is cut into records of this length.
    Length(u32),
    /// The whole input is one record.
    Whole,
}

/// A prefix of the bytes that were read, which continues a record.
#[derive(Clone, Copy)]
pub struct Piece {
    /// The number of bytes that belong to the record.
    pub content: usize,
    /// The number of bytes that are used: those of the record, and a line feed after them, if there
    /// is one.
    pub taken: usize,
    /// Whether the record ends with these bytes.
    pub ended: bool,
}

impl Cut {
    /// Returns the prefix of `bytes` that continues a record of which `held` bytes were read.
    pub fn piece(self, held: usize, bytes: &[u8]) -> Piece
        ensures within { (result.content ≤ result.taken) × (result.taken ≤ count bytes.now) }
        ensures some { 0 < count bytes.now → 0 < result.taken }
        ensures all { result.ended ≡ false → result.content ≡ result.taken }
        ensures adds { (r : List ℕ) → count r ≡ held → Adds self r (take result.taken bytes.now)
            (r ++ take result.content bytes.now) result.ended }
    {
        let all = Piece {
            content: bytes.len(),
            taken: bytes.len(),
            ended: false,
        };
        match self {
            Cut::Lines => match memchr(b'\n', bytes) {
                Some(place) => Piece {
                    content: place,
                    taken: place + 1,
                    ended: true,
                },
                None => all,
            },
            Cut::Length(length) => {
                let length = length as usize;
                if held >= length {
                    // A record that is already this long never ends. This happens only if the
                    // length is 0.
                    return all;
                }
                let wanted = length - held;
                if bytes.len() < wanted {
                    return all;
                }
                Piece {
                    content: wanted,
                    taken: wanted,
                    ended: true,
                }
            }
            Cut::Whole => all,
        }
    }

    /// Returns true if `held` bytes at the end of the input are a record.
    pub fn is_last(self, held: usize) -> bool
        ensures { (r : List ℕ) → held ≡ count r
            → MatchBool result (last_record self r ≡ r ∷ []) (last_record self r ≡ []) }
    {
        match self {
            Cut::Lines | Cut::Length(_) => held > 0,
            Cut::Whole => true,
        }
    }
}

/// Returns how inputs of form `form` are cut for files of shape `shape`, or `None` for raw inputs
/// in format D, which cannot be cut, and in formats U and V, which are not written, and for the
/// form `Counted`, which is for outputs only.
pub fn cut_of(form: Form, shape: &Shape) -> Option<Cut>
    ensures { result ≡ cut_by form shape.now }
{
    match form {
        Form::Lines => Some(Cut::Lines),
        Form::Raw => match shape.format {
            Format::Fixed => Some(Cut::Length(shape.rec_len)),
            Format::Spanned => Some(Cut::Whole),
            Format::Counted | Format::Undefined | Format::Variable => None,
        },
        Form::Counted => None,
    }
}

/// Returns the maximum length of a record in a file of shape `shape`; in formats U and V, which are
/// not written, 0.
pub fn longest(shape: &Shape) -> u32
    ensures { result ≡ longest_of shape.now }
{
    match shape.format {
        Format::Fixed => shape.rec_len,
        Format::Counted => shape.rec_len.saturating_sub(4),
        Format::Spanned => u32::MAX,
        Format::Undefined | Format::Variable => 0,
    }
}
