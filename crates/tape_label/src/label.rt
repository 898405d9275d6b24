//! The kinds of labels, reading a block as a label, and the faults of labels.

ghost use Rattle.std.specs.Prelude.{◌≡◌, ◌≢◌, IfOk, Ok, Err, length, ◌↔◌, IfSome, Some, IsTrue};
ghost use Rattle.std.specs.Prelude.{false};
ghost use Rattle.tape_label.specs.{Kinds.HasKind, Kinds.kind_at, Faults.number};
ghost use Rattle.tape_label.specs.Labels.{IsLabel, label_at, no_kind};
ghost use Rattle.tape_label.specs.VolumeLabels.{IsOfVolume, is_volume_label};

use crate::reading::{read_head1, read_head2, read_trail1, read_vol1};
use crate::values::{Head1, Head2, Kind, Trail1, Vol1};
use thiserror::Error;

/// The reason why a block is not a valid label, or a text is not a valid field. Positions in a
/// label are counted from 1.
#[derive(Clone, Copy, Debug, PartialEq, Eq, Error)]
pub enum LabelFault {
    /// The block does not have 80 characters.
    #[error("a label has 80 characters")]
    NotEighty,
    /// The block does not begin with the identifier of a label that the function reads.
    #[error("the block does not begin with the expected label identifier")]
    Identifier,
    /// The number that begins at this position contains a character that is not a digit.
    #[error("the number at position {0} contains a character that is not a digit")]
    NotDigits(u8),
    /// The character at position 5 is not one of the record formats `F`, `D` and `S`.
    #[error("byte {0} is not a record format")]
    Format(u8),
    /// The number that begins at this position is less than its minimum.
    #[error("the number at position {0} is out of range")]
    FieldRange(u8),
    /// The byte at this index of the text, counted from 0, is not an a-character.
    #[error("the byte at index {0} is not an a-character")]
    NotACharacter(usize),
    /// The text has more bytes than its field has positions.
    #[error("the text is longer than its field")]
    FieldLength,
}

impl LabelFault {
    /// Returns the fixed number of the fault, from 1 to 7 in the order of the list above.
    pub fn number(&self) -> u8
        ensures { result ≡ number self.now }
    {
        match self {
            LabelFault::NotEighty => 1,
            LabelFault::Identifier => 2,
            LabelFault::NotDigits(_) => 3,
            LabelFault::Format(_) => 4,
            LabelFault::FieldRange(_) => 5,
            LabelFault::NotACharacter(_) => 6,
            LabelFault::FieldLength => 7,
        }
    }
}

/// Returns the kind of the label `block`, judged only by its length of 80 characters and its first
/// four characters, or `None` if it is not a label of one of these kinds (ECMA-13, 4th edition,
/// label identifier and label number).
#[tactic(auto, unfolding(crate::specs::Kinds::kind_at))]
pub fn kind(block: &[u8]) -> Option<Kind>
    ensures found { IfSome result (HasKind block.now) }
    ensures only { (kind : Kind) → HasKind block.now kind → result ≡ Some kind }
    // The result is this function of the block.
    ensures exact { result ≡ kind_at block.now }
{
    if block.len() != 80 {
        return None;
    }
    match &block[..4] {
        b"VOL1" => Some(Kind::Vol1),
        b"HDR1" => Some(Kind::Hdr1),
        b"HDR2" => Some(Kind::Hdr2),
        b"EOF1" => Some(Kind::Eof1),
        b"EOF2" => Some(Kind::Eof2),
        b"EOV1" => Some(Kind::Eov1),
        b"EOV2" => Some(Kind::Eov2),
        _ => None,
    }
}

/// Returns true if the block is a volume label of any sort: 80 characters that begin with `VOL` or
/// `UVL` (ECMA-13, 4th edition, volume header labels and user volume header labels).
#[tactic(auto, unfolding(crate::specs::VolumeLabels::is_volume_label))]
pub fn is_volume_label(block: &[u8]) -> bool
    ensures found { IsTrue result ↔ IsOfVolume block.now }
    // Of these labels, only VOL1 can be read.
    ensures other { (kind : Kind) → HasKind block.now kind → kind ≢ Kind.Vol1 → result ≡ false }
    // The result is this function of the block.
    ensures exact { result ≡ is_volume_label block.now }
{
    block.len() == 80 && (&block[..3] == b"VOL".as_slice() || &block[..3] == b"UVL".as_slice())
}

/// A label with its fields.
#[derive(Clone, Copy, Debug, PartialEq, Eq)]
pub enum Label {
    /// `VOL1`, the volume label.
    Vol1(Vol1),
    /// `HDR1`, a first header label.
    Head1(Head1),
    /// `HDR2`, `EOF2` or `EOV2`, a second label, with its kind.
    Second(Kind, Head2),
    /// `EOF1` or `EOV1`, a first trailer label.
    Trail1(Trail1),
}

/// Reads the block as the label that its first four characters identify (ECMA-13, 4th edition,
/// label identifier and label number).
///
/// # Errors
///
/// Returns `NotEighty` if the block does not have 80 characters; `Identifier` if it does not begin
/// with the identifier of one of the seven kinds; otherwise the fault of the function for its kind.
#[tactic(auto, unfolding(crate::specs::Labels::label_at))]
pub fn read_label(block: &[u8]) -> Result<Label, LabelFault>
    // A label that is read has these fields,
    ensures found { IfOk result (IsLabel block.now) }
    // and every block that is a label with some fields is read.
    ensures only { (label : Label) → IsLabel block.now label → result ≡ Ok label }
    // A block of another length is refused as such,
    ensures other_length { length block.now ≢ 80 → result ≡ Err LabelFault.NotEighty }
    // and so is one that begins with none of the seven identifiers.
    ensures no_kind { length block.now ≡ 80 → ((kind : Kind) → HasKind block.now kind → ⊥)
        → result ≡ Err LabelFault.Identifier }
    // The result is this function of the block.
    ensures exact { result ≡ label_at block.now }
{
    match kind(block) {
        None => Err(no_kind(block)),
        Some(Kind::Vol1) => Ok(Label::Vol1(read_vol1(block)?)),
        Some(Kind::Hdr1) => Ok(Label::Head1(read_head1(block)?)),
        Some(Kind::Eof1 | Kind::Eov1) => Ok(Label::Trail1(read_trail1(block)?)),
        Some(kind) => Ok(Label::Second(kind, read_head2(block)?)),
    }
}

/// Returns the reason why a block that is of none of the expected kinds is not such a label:
/// `NotEighty`, or `Identifier` if it has 80 characters.
pub fn no_kind(block: &[u8]) -> LabelFault
    ensures { result ≡ no_kind block.now }
{
    if block.len() == 80 {
        LabelFault::Identifier
    } else {
        LabelFault::NotEighty
    }
}
