//! Which items of a tape in normal form are the first labels of its sections, and what is written
//! in their place.

ghost use Rattle.std.specs.Prelude.{◌≡◌, ◌≤◌, ◌<◌, ◌+◌, ◌-◌, length};
ghost use Rattle.tape_image.specs.{Reader.tape_item, Tape.bad};
ghost use Rattle.tape_label.specs.{Kinds.kind_at, VolumeLabels.is_volume_label};
ghost use Rattle.tape_label.specs.WideHead2.{is_further_header};
ghost use Rattle.tape_run.specs.Relabel.{headers_by, named, outside_by, relabelled, replaced};
ghost use Rattle.tape_run.specs.Relabel.{step_of, trailer_by, trailers_by, turn_to};

use crate::section::SectionKey;
use tape_image::Item;
use tape_label::{Kind, digits_of, is_further_header, is_volume_label, kind};

/// What is expected next on a tape.
#[derive(Clone, Copy, PartialEq, Eq)]
pub(crate) enum LabelPlace {
    /// A volume label, a section, or a mark.
    Outside,
    /// Further header labels of a section, up to a mark.
    Headers,
    /// The data of a section, up to a mark.
    Data,
    /// The first trailer label of a section.
    Trailer,
    /// Further trailer labels, up to a mark.
    Trailers,
}

/// What an item is.
#[derive(Clone, Copy, PartialEq, Eq)]
pub(crate) enum LabelPart {
    /// No first label of a section.
    Other,
    /// The first header label of the next section.
    Header,
    /// The first trailer label of the section.
    Trailer,
    /// The first trailer label of a section whose header labels were not read.
    LoneTrailer,
}

/// What an item is, and what is expected after it.
#[derive(Clone, Copy, PartialEq, Eq)]
pub(crate) struct Turn {
    pub(crate) next: LabelPlace,
    pub(crate) part: LabelPart,
    /// Whether the item is one that was expected.
    pub(crate) expected: bool,
}

/// Returns what an item is.
fn turn_to(next: LabelPlace, part: LabelPart, expected: bool) -> Turn
    ensures { result ≡ turn_to next part expected }
{
    Turn {
        next,
        part,
        expected,
    }
}

/// Takes a block outside of sections.
fn outside(bytes: &[u8]) -> Turn
    ensures { result ≡ outside_by (kind_at bytes.now) (is_volume_label bytes.now) }
{
    match kind(bytes) {
        Some(Kind::Hdr1) => turn_to(LabelPlace::Headers, LabelPart::Header, true),
        Some(Kind::Eof1 | Kind::Eov1) => {
            turn_to(LabelPlace::Trailers, LabelPart::LoneTrailer, false)
        }
        _ => turn_to(
            LabelPlace::Outside,
            LabelPart::Other,
            is_volume_label(bytes),
        ),
    }
}

/// Takes a block among the header labels of a section.
fn header(bytes: &[u8]) -> Turn
    ensures { result ≡ headers_by (kind_at bytes.now) (is_further_header bytes.now) }
{
    match kind(bytes) {
        Some(Kind::Hdr1) => turn_to(LabelPlace::Headers, LabelPart::Header, false),
        Some(Kind::Eof1 | Kind::Eov1) => turn_to(LabelPlace::Trailers, LabelPart::Trailer, false),
        Some(Kind::Hdr2) => turn_to(LabelPlace::Headers, LabelPart::Other, true),
        _ => turn_to(
            LabelPlace::Headers,
            LabelPart::Other,
            is_further_header(bytes),
        ),
    }
}

/// Takes a block where the first trailer label is expected.
fn trailer(bytes: &[u8]) -> Turn
    ensures { result ≡ trailer_by (kind_at bytes.now) }
{
    match kind(bytes) {
        Some(Kind::Eof1 | Kind::Eov1) => turn_to(LabelPlace::Trailers, LabelPart::Trailer, true),
        Some(Kind::Hdr1) => turn_to(LabelPlace::Headers, LabelPart::Header, false),
        _ => turn_to(LabelPlace::Data, LabelPart::Other, false),
    }
}

/// Takes a block among the trailer labels of a section.
fn trailers(bytes: &[u8]) -> Turn
    ensures { result ≡ trailers_by (kind_at bytes.now) }
{
    match kind(bytes) {
        Some(Kind::Hdr1) => turn_to(LabelPlace::Headers, LabelPart::Header, false),
        _ => turn_to(LabelPlace::Trailers, LabelPart::Other, true),
    }
}

/// Returns what an item is. Among the data of a section none is a label.
pub(crate) fn step(place: LabelPlace, item: Item<'_>) -> Turn
    ensures { result ≡ step_of place (tape_item item.entry) }
{
    match item {
        Item::Block(bytes) => match place {
            LabelPlace::Outside => outside(bytes),
            LabelPlace::Headers => header(bytes),
            LabelPlace::Data => turn_to(LabelPlace::Data, LabelPart::Other, true),
            LabelPlace::Trailer => trailer(bytes),
            LabelPlace::Trailers => trailers(bytes),
        },
        Item::Mark => match place {
            LabelPlace::Outside => turn_to(LabelPlace::Outside, LabelPart::Other, true),
            LabelPlace::Headers => turn_to(LabelPlace::Data, LabelPart::Other, true),
            LabelPlace::Data => turn_to(LabelPlace::Trailer, LabelPart::Other, true),
            LabelPlace::Trailer => turn_to(LabelPlace::Outside, LabelPart::Other, false),
            LabelPlace::Trailers => turn_to(LabelPlace::Outside, LabelPart::Other, true),
        },
        Item::Bad => turn_to(place, LabelPart::Other, place == LabelPlace::Data),
    }
}

/// The characters of a first label that name its section: the file set identifier, the section
/// number and the sequence number, at positions 22 to 35.
pub(crate) type Name = [u8; 14];

/// Returns a first header or trailer label that names a section by the characters `from` as that of
/// the section `key`, and any other as it is. All other characters stay.
pub(crate) fn relabelled(from: &Name, key: &SectionKey, label: &[u8; 80]) -> [u8; 80]
    ensures { result ≡ relabelled from.now key.now label.now }
{
    if label[21..35] == from[..] && key.sect < 10_000 && key.file < 10_000 {
        return named(key, label);
    }
    *label
}

/// Replaces the characters at the positions `first` to `last` of a label, counted from 1.
fn replace(label: &mut [u8; 80], first: usize, last: usize, text: &[u8])
    requires first { 1 ≤ first }
    requires last { last ≤ 80 }
    requires size { first - 1 + length text.now ≡ last }
    ensures { label.new ≡ replaced first last text.now label.old }
{
    label[first - 1..last].copy_from_slice(text);
}

/// Returns a first header or trailer label as that of the section `key`.
fn named(key: &SectionKey, label: &[u8; 80]) -> [u8; 80]
    requires sect { key.now.sect < 10000 }
    requires file { key.now.file < 10000 }
    ensures { result ≡ named key.now label.now }
{
    let mut text = *label;
    let sect = digits_of::<4>(u64::from(key.sect));
    let file = digits_of::<4>(u64::from(key.file));
    replace(&mut text, 22, 27, key.set_id.bytes());
    replace(&mut text, 28, 31, &sect);
    replace(&mut text, 32, 35, &file);
    text
}
