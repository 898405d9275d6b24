//! The machine that turns a tape into its normal form, one item at a time.

ghost use Rattle.std.specs.Prelude.{◌≡◌, ◌≢◌, ◌||◌, ℕ, IfSome, IfNone, is_some, option_map, length};
ghost use Rattle.std.specs.Prelude.{true, false, Some, None, if◌then◌else◌};
ghost use Rattle.tape_image.specs.{Tape.TapeItem, Tape.block, Reader.tape_item};
ghost use Rattle.tape_core.specs.NormalForm.{Codes.in_ascii, begins_tape, code_of};
ghost use Rattle.tape_core.specs.NormalForm.Steps.{Gives, begin_in, drop_block, drop_first};
ghost use Rattle.tape_core.specs.NormalForm.Steps.{header_at, inserted_label, instead_in, labels_at};
ghost use Rattle.tape_core.specs.NormalForm.Steps.{next_at, replaced_with, second_at, step_of};
ghost use Rattle.tape_core.specs.NormalForm.Steps.{trailer_at, translated_with};

use crate::normal::code::{Code, label_in};
use crate::normal::mend::mended;
use crate::normal::numbers::{FileSeen, NO_FILE, headed, is_dummy, trailed};
use crate::normal::other::{further_header, further_trailer, left, other_block, step_at_bad};
use tape_image::Item;
use tape_label::{Kind, is_further_header, is_volume_label, kind};

/// What is expected next on a tape.
#[derive(Clone, Copy, Debug, PartialEq, Eq)]
pub enum TapePlace {
    /// The volume label, after so many items that are not labels and were dropped.
    Start(u8),
    /// A further volume label or the first file, after so many dropped blocks.
    Labels(Code, u8),
    /// The second mark of a volume without files.
    Blank(Code),
    /// The second label of a file.
    Second(Code, FileSeen),
    /// Further labels of a file, up to a mark.
    Headers(Code, FileSeen),
    /// The data of a file, up to a mark.
    Data(Code, FileSeen),
    /// The first trailer label of a file.
    Trailer(Code, FileSeen),
    /// Further trailer labels, up to a mark.
    Trailers(Code, FileSeen),
    /// The next file, or the second mark.
    Next(Code, FileSeen),
    /// Nothing: the volume has ended.
    Ended,
    /// Anything: after an item that is not expected the rest of the tape is left unchanged.
    Over,
}

/// What is missing on a tape: a label, or digits of one.
#[derive(Clone, Copy, PartialEq, Eq)]
pub enum Missing {
    /// None.
    Nothing,
    /// The volume label, which is inserted.
    VolumeLabel,
    /// The second header label. None is inserted, since the form of the records is not known.
    SecondLabel,
    /// The digits at the start of numbers in the second label that replaces the item.
    Digits,
}

/// What replaces an item.
#[derive(Clone, Copy, PartialEq, Eq)]
pub enum Replacement {
    /// The item itself.
    Same,
    /// Nothing.
    Dropped,
    /// A label.
    Label([u8; 80]),
}

/// What replaces an item, and which label is missing before it.
#[derive(Clone, Copy, PartialEq, Eq)]
pub struct Change {
    /// The label that is missing before the item.
    pub missing: Missing,
    /// What replaces the item.
    pub instead: Replacement,
}

/// The greatest number of items that are dropped before the first label, and before the first file.
const MOST_DROPPED: u8 = 64;

/// Blocks shorter than this are noise before the first label. The shortest labels have 14 bytes.
const NOISE: usize = 14;

/// The volume label of a tape that has none.
const NO_VOLUME_LABEL: &[u8; 80] =
    b"VOL1                                                                           4";

impl Missing {
    /// Returns the label that is inserted before the item, if any.
    pub fn label(&self) -> Option<&'static [u8; 80]>
        ensures { option_map (λ t. t.now) result ≡ inserted_label self.now }
    {
        match self {
            Missing::VolumeLabel => Some(NO_VOLUME_LABEL),
            Missing::Nothing | Missing::SecondLabel | Missing::Digits => None,
        }
    }
}

/// The item unchanged, with no label missing.
pub(crate) const SAME: Change = Change {
    missing: Missing::Nothing,
    instead: Replacement::Same,
};

/// Nothing instead of the item.
pub(crate) const DROPPED: Change = Change {
    missing: Missing::Nothing,
    instead: Replacement::Dropped,
};

/// Returns a label in ASCII: the item itself if it is in ASCII already.
fn instead_in(code: Code, label: [u8; 80]) -> Replacement
    ensures { result ≡ instead_in code label }
{
    match code {
        Code::Ascii => Replacement::Same,
        Code::Ebcdic | Code::PaddedAscii | Code::PaddedEbcdic => Replacement::Label(label),
    }
}

/// Returns the change that translates a label to ASCII.
pub(crate) fn translated(code: Code, label: [u8; 80]) -> Change
    ensures { result ≡ translated_with Missing.Nothing code label }
{
    Change {
        missing: Missing::Nothing,
        instead: instead_in(code, label),
    }
}

/// Returns the change to the label `better`: the item itself if it is that label already.
fn replaced(code: Code, missing: Missing, better: [u8; 80], label: [u8; 80]) -> Change
    ensures { result ≡ replaced_with missing code better label }
{
    let instead = if better == label {
        instead_in(code, label)
    } else {
        Replacement::Label(better)
    };
    Change { missing, instead }
}

/// Takes the first header label of the file after `before`.
pub(crate) fn header(
    code: Code,
    missing: Missing,
    before: FileSeen,
    label: [u8; 80],
) -> (TapePlace, Change)
    ensures { result ≡ header_at code missing before label }
{
    let (better, seen) = headed(before, &label);
    (
        TapePlace::Second(code, seen),
        replaced(code, missing, better, label),
    )
}

/// Takes a block as the first label, in the given code.
#[tactic(auto, using(crate::proofs::Labels::no_kind))]
fn begin_in(code: Code, bytes: &[u8]) -> Option<(TapePlace, Change)>
    ensures { result ≡ if begins_tape code bytes.now
        then Some (begin_in code (in_ascii code bytes.now)) else None }
{
    let text = label_in(code, bytes)?;
    match kind(&text) {
        Some(Kind::Vol1) => Some((TapePlace::Labels(code, 0), translated(code, text))),
        Some(Kind::Hdr1) => Some(header(code, Missing::VolumeLabel, NO_FILE, text)),
        _ => None,
    }
}

/// Takes a block as the first label, in any code.
fn begin(bytes: &[u8]) -> Option<(TapePlace, Change)>
    ensures { result ≡ option_map (λ code. begin_in code (in_ascii code bytes.now))
        (code_of bytes.now) }
{
    begin_in(Code::Ascii, bytes)
        .or(begin_in(Code::Ebcdic, bytes))
        .or(begin_in(Code::PaddedAscii, bytes))
        .or(begin_in(Code::PaddedEbcdic, bytes))
}

/// Takes a block after the volume label: a label, or a block to be dropped.
#[tactic(auto, using(crate::proofs::Labels::no_kind, crate::proofs::Labels::no_volume_label))]
fn label_of_volume(code: Code, dropped: u8, bytes: &[u8]) -> (TapePlace, Change)
    ensures { result ≡ labels_at code dropped (in_ascii code bytes.now) }
{
    let Some(text) = label_in(code, bytes) else {
        return drop_block(code, dropped);
    };
    if is_volume_label(&text) {
        return (TapePlace::Labels(code, dropped), translated(code, text));
    }
    match kind(&text) {
        Some(Kind::Hdr1) if !is_dummy(&text) => header(code, Missing::Nothing, NO_FILE, text),
        _ => drop_block(code, dropped),
    }
}

/// Drops a block between the labels of the volume and the first file, unless there are too many.
fn drop_block(code: Code, dropped: u8) -> (TapePlace, Change)
    ensures { result ≡ drop_block code dropped }
{
    if dropped < MOST_DROPPED {
        (TapePlace::Labels(code, dropped + 1), DROPPED)
    } else {
        (TapePlace::Over, SAME)
    }
}

/// Drops an item before the first label, unless there are too many.
fn drop_first(dropped: u8) -> (TapePlace, Change)
    ensures { result ≡ drop_first dropped }
{
    if dropped < MOST_DROPPED {
        (TapePlace::Start(dropped + 1), DROPPED)
    } else {
        (TapePlace::Over, SAME)
    }
}

/// Takes a block after an `HDR1`.
#[tactic(auto, using(crate::proofs::Labels::second_other))]
fn second_label(code: Code, seen: FileSeen, bytes: &[u8]) -> (TapePlace, Change)
    ensures { result ≡ second_at code seen (in_ascii code bytes.now) }
{
    let Some(text) = label_in(code, bytes) else {
        return other_block(code, seen, bytes);
    };
    if let Some(Kind::Hdr2) = kind(&text) {
        let filled = mended(&text);
        if filled == text {
            return (TapePlace::Headers(code, seen), translated(code, text));
        }
        let change = Change {
            missing: Missing::Digits,
            instead: Replacement::Label(filled),
        };
        return (TapePlace::Headers(code, seen), change);
    }
    if is_further_header(&text) {
        let change = Change {
            missing: Missing::SecondLabel,
            instead: instead_in(code, text),
        };
        return (TapePlace::Headers(code, seen), change);
    }
    other_block(code, seen, bytes)
}

/// Takes a block where the `HDR1` of the next file may be.
#[tactic(auto, using(crate::proofs::Labels::no_kind))]
fn next_header(code: Code, before: FileSeen, bytes: &[u8]) -> (TapePlace, Change)
    ensures { result ≡ next_at code before (in_ascii code bytes.now) }
{
    let Some(text) = label_in(code, bytes) else {
        return other_block(code, before, bytes);
    };
    match kind(&text) {
        Some(Kind::Hdr1) => header(code, Missing::Nothing, before, text),
        _ => other_block(code, before, bytes),
    }
}

/// Takes a block where the first trailer label is expected.
#[tactic(auto, using(crate::proofs::Labels::no_kind))]
fn first_trailer(code: Code, seen: FileSeen, bytes: &[u8]) -> (TapePlace, Change)
    ensures { result ≡ trailer_at code seen (in_ascii code bytes.now) }
{
    let Some(text) = label_in(code, bytes) else {
        return other_block(code, seen, bytes);
    };
    match kind(&text) {
        Some(Kind::Eof1 | Kind::Eov1) => {
            let (better, seen) = trailed(seen, &text);
            let change = replaced(code, Missing::Nothing, better, text);
            (TapePlace::Trailers(code, seen), change)
        }
        _ => other_block(code, seen, bytes),
    }
}

/// Returns what is expected after a block, and what replaces it.
fn step_at_block(place: TapePlace, bytes: &[u8]) -> (TapePlace, Change)
    ensures { result ≡ step_of place (block bytes.now) }
{
    match place {
        TapePlace::Start(dropped) => match begin(bytes) {
            Some(begun) => begun,
            None if bytes.len() < NOISE => drop_first(dropped),
            None => (TapePlace::Over, SAME),
        },
        TapePlace::Labels(code, dropped) => label_of_volume(code, dropped, bytes),
        TapePlace::Second(code, seen) => second_label(code, seen, bytes),
        TapePlace::Headers(code, seen) => further_header(code, seen, bytes),
        TapePlace::Data(code, seen) => (TapePlace::Data(code, seen.counted()), SAME),
        TapePlace::Trailer(code, seen) => first_trailer(code, seen, bytes),
        TapePlace::Trailers(code, seen) => further_trailer(code, seen, bytes),
        TapePlace::Next(code, seen) => next_header(code, seen, bytes),
        TapePlace::Ended => match begin(bytes) {
            Some(_) => (TapePlace::Over, SAME),
            None => (TapePlace::Ended, DROPPED),
        },
        TapePlace::Blank(code) => other_block(code, NO_FILE, bytes),
        TapePlace::Over => (TapePlace::Over, SAME),
    }
}

/// Returns what is expected after an item, and what replaces the item. Does not allocate.
#[tactic(auto, using(crate::proofs::NormalForm::Agree::table_gives))]
pub fn step(place: TapePlace, item: Item<'_>) -> (TapePlace, Change)
    // The items that the change yields, followed by the normal form of the rest, are the normal
    // form of the item and the rest.
    ensures gives { Gives place (tape_item item.entry) result.0 result.1 }
    ensures exact { result ≡ step_of place (tape_item item.entry) }
{
    match item {
        Item::Block(bytes) => step_at_block(place, bytes),
        Item::Bad => step_at_bad(place),
        Item::Mark => match place {
            TapePlace::Start(dropped) => drop_first(dropped),
            TapePlace::Labels(code, _) => (TapePlace::Blank(code), SAME),
            TapePlace::Second(code, seen) => {
                let change = Change {
                    missing: Missing::SecondLabel,
                    instead: Replacement::Same,
                };
                (TapePlace::Data(code, seen), change)
            }
            TapePlace::Headers(code, seen) => (TapePlace::Data(code, seen), SAME),
            TapePlace::Data(code, seen) => (TapePlace::Trailer(code, seen), SAME),
            TapePlace::Trailers(code, seen) => (TapePlace::Next(code, seen), SAME),
            TapePlace::Next(_, _) | TapePlace::Blank(_) => (TapePlace::Ended, SAME),
            TapePlace::Ended => (TapePlace::Ended, DROPPED),
            TapePlace::Trailer(code, seen) => {
                (left(code, TapePlace::Trailer(code, seen.lost())), SAME)
            }
            TapePlace::Over => (TapePlace::Over, SAME),
        },
    }
}
