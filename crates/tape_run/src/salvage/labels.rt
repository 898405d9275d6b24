//! Items between HDR1 and a section's data, among these or after them, that read as labels.

ghost use Rattle.std.specs.Prelude.{◌≡◌, length, map};
ghost use Rattle.tape_core.specs.NormalForm.Codes.{is_padding, repeats, to_ascii, unpadded};
ghost use Rattle.tape_run.specs.SalvageTrailers.{count_in, is_first, is_other_trailer, is_own_by};
ghost use Rattle.tape_run.specs.SalvageTrailers.{is_own_label, is_own_trailer, may_be};
ghost use Rattle.tape_run.specs.SalvageWalk.{followed_by};

use crate::salvage::walk::OpenSection;
use crate::section::SectionKey;
use tape_core::normal::to_ascii;
use tape_image::Item;
use tape_label::{Kind, digits_value, is_further_header, kind};

/// The maximum number of bytes of a label with the padding after it.
const LONGEST_LABEL: usize = 120;

/// Returns whether each of the bytes is `byte`.
fn repeats(byte: u8, bytes: &[u8]) -> bool
    ensures { result ≡ repeats byte bytes.now }
{
    match bytes {
        [first, rest @ ..] => *first == byte && repeats(byte, rest),
        [] => true,
    }
}

/// Returns whether the bytes are all the same.
fn is_padding(bytes: &[u8]) -> bool
    ensures { result ≡ is_padding bytes.now }
{
    match bytes {
        [first, rest @ ..] => repeats(*first, rest),
        [] => true,
    }
}

/// Returns the label in a block with padding, all of the same bytes, or the block.
fn unpadded(block: &[u8]) -> &[u8]
    ensures { result.now ≡ unpadded block.now }
{
    if block.len() >= 80 && block.len() <= LONGEST_LABEL && is_padding(&block[80..]) {
        return &block[..80];
    }
    block
}

/// Returns whether a field of a label is this number, or none.
fn may_be(number: u16, field: &[u8]) -> bool
    requires { length field.now ≡ 4 }
    ensures { result ≡ may_be number field.now }
{
    match digits_value(field) {
        Some(value) => value == 0 || value == u64::from(number),
        None => true,
    }
}

/// Returns whether this is the identifier of a first trailer label.
fn is_first(name: &[u8]) -> bool
    ensures { result ≡ is_first name.now }
{
    name == b"EOF1".as_slice() || name == b"EOV1".as_slice()
}

/// Returns whether a label with this identifier and these numbers is a first trailer label that has
/// no other section number or file number.
fn is_own_by(key: &SectionKey, name: &[u8], sect: &[u8], file: &[u8]) -> bool
    requires sect { length sect.now ≡ 4 }
    requires file { length file.now ≡ 4 }
    ensures { result ≡ is_own_by key.now name.now sect.now file.now }
{
    is_first(name) && may_be(key.sect, sect) && may_be(key.file, file)
}

/// Returns four characters in EBCDIC as they are in ASCII.
fn turned(field: &[u8]) -> [u8; 4]
    requires { length field.now ≡ 4 }
    ensures { result ≡ map to_ascii field.now }
{
    match field {
        [a, b, c, d] => [to_ascii(*a), to_ascii(*b), to_ascii(*c), to_ascii(*d)],
        _ => unreachable!(),
    }
}

/// Returns whether a label, in ASCII or EBCDIC, is a first trailer label that has no other section
/// number or file number.
fn is_own_label(key: &SectionKey, label: &[u8]) -> bool
    requires { length label.now ≡ 80 }
    ensures { result ≡ is_own_label key.now label.now }
{
    let (name, sect, file) = (&label[..4], &label[27..31], &label[31..35]);
    is_own_by(key, name, sect, file) || is_own_by(key, &turned(name), &turned(sect), &turned(file))
}

/// Returns whether a block may be the trailer label of this section: it is EOF1 or EOV1, in ASCII
/// or EBCDIC, with padding or without, and has no other section number or file number.
pub fn is_own_trailer(key: &SectionKey, block: &[u8]) -> bool
    ensures { result ≡ is_own_trailer key.now block.now }
{
    let label = unpadded(block);
    label.len() == 80 && is_own_label(key, label)
}

/// Returns whether the block after the data of this section is the trailer label of another one.
pub fn is_other_trailer(key: &SectionKey, block: &[u8]) -> bool
    ensures { result ≡ is_other_trailer key.now block.now }
{
    block.len() == 80 && is_first(&block[..4]) && !is_own_label(key, block)
}

/// Returns the count of a trailer label, or 0 if it has none.
fn count_in(label: &[u8]) -> u32
    requires { length label.now ≡ 80 }
    ensures { result ≡ count_in label.now }
{
    match digits_value(&label[54..60]) {
        Some(count) => count as u32,
        None => 0,
    }
}

impl OpenSection {
    /// Returns the section if this block follows its data and does not close it. If it is the
    /// trailer label of another section, the last data items may be blocks of that section: as many
    /// as the label counts, or all.
    pub fn followed_by(&self, block: &[u8]) -> OpenSection
        ensures { result ≡ followed_by block.now self.now }
    {
        if !is_other_trailer(&self.key, block) {
            return *self;
        }
        let certain = match (count_in(block), self.certain) {
            (0, _) => 0,
            (count, None) => self.blocks.saturating_sub(count),
            (count, Some(certain)) => certain.min(self.blocks.saturating_sub(count)),
        };
        OpenSection {
            certain: Some(certain),
            ..*self
        }
    }
}

/// Returns whether a block reads as a trailer label, in ASCII or EBCDIC, with padding or without.
pub fn is_trailer(block: &[u8]) -> bool {
    let label = unpadded(block);
    match kind(label) {
        Some(Kind::Eof1 | Kind::Eof2 | Kind::Eov1 | Kind::Eov2) => true,
        Some(_) => false,
        None => {
            label.len() == 80
                && matches!(
                    &label[..4],
                    b"\xC5\xD6\xC6\xF1"
                        | b"\xC5\xD6\xC6\xF2"
                        | b"\xC5\xD6\xE5\xF1"
                        | b"\xC5\xD6\xE5\xF2"
                )
        }
    }
}

/// Returns whether a block reads as a label, with padding or without.
pub fn is_label(block: &[u8]) -> bool {
    kind(unpadded(block)).is_some() || is_trailer(block)
}

/// Returns whether an item after HDR1 is neither a further header label nor a tape mark.
pub fn is_other(item: Item<'_>) -> bool {
    match item {
        Item::Block(block) => kind(block) != Some(Kind::Hdr2) && !is_further_header(block),
        Item::Bad => true,
        Item::Mark => false,
    }
}
