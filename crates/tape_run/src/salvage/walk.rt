//! Follows the items of an image past unreadable ones: which section an item belongs to, and which
//! of its blocks it is.

ghost use Rattle.std.specs.Prelude.{◌≡◌};
ghost use Rattle.tape_image.specs.{Reader.tape_item, Tape.block, Tape.bad, Tape.mark};
ghost use Rattle.tape_run.specs.SalvageWalk as Walk;

use crate::salvage::labels::is_own_trailer;
use crate::salvage::outside::{begun_by, outside_by, unnamed_after};
use crate::salvage::second::{second_by, trailer_form};
use crate::section::SectionKey;
use crate::survey::digest::digest_with;
use tape_core::Known;
use tape_image::Item;
use tape_label::{
    Field, Head1, Head2, Kind, LabelFault, Trail1, is_further_header, kind, read_head1,
    read_trail1, read_wide_head2,
};

/// A section whose first label was read.
#[derive(Clone, Copy)]
pub struct OpenSection {
    /// Which section it is.
    pub key: SectionKey,
    /// The file identifier of its HDR1.
    pub file_id: Field<17>,
    /// The creation date in its HDR1.
    pub created: Field<6>,
    /// The generation number in its HDR1.
    pub generation: Field<4>,
    /// The form of its blocks in its HDR2 or, if no HDR2 was read, in its EOF2 or EOV2.
    pub form: Option<Known>,
    /// Whether its HDR1 was followed by a tape mark or a further header label, and its trailer
    /// label by no unreadable item: it has no HDR2.
    pub has_no_second: bool,
    /// The number of data items so far, including unreadable ones.
    pub blocks: u32,
    /// The number of data items before the first unreadable item after the section's HDR1, or
    /// before those that may be blocks of another section, whose trailer label follows.
    pub certain: Option<u32>,
    /// The number of data items before the first that may be its own trailer label.
    pub trailer: Option<u32>,
    /// The number of unreadable data items.
    pub unreadable: u32,
    /// If its HDR1 was not read: how many items follow its data so far.
    pub after: Option<u32>,
    /// The digest of its readable data blocks so far.
    pub digest: u64,
}

/// Items after a tape mark outside of sections, which may be the data of a section whose first
/// label was not read.
#[derive(Clone, Copy)]
pub struct UnnamedItems {
    /// The number of items.
    pub items: u32,
    /// The number of unreadable items.
    pub unreadable: u32,
}

/// The kind of item that is expected next.
#[derive(Clone, Copy)]
pub enum Expected {
    /// A section's first label, at any block. After two tape marks only a trailer label shows that
    /// the volume continues.
    Outside(u8),
    /// A section's second label.
    Second(OpenSection),
    /// Blocks that follow a section's labels, up to a tape mark.
    Headers(OpenSection),
    /// A section's data, up to a tape mark.
    Data(OpenSection),
    /// A section's first trailer label.
    Trailer(OpenSection),
    /// Blocks that follow a section's trailer label, up to a tape mark.
    Trailers(OpenSection, Closing),
    /// The next section, or the mark that ends the volume.
    Next,
    /// Nothing: the volume has ended.
    Over,
    /// More items outside of sections, up to a tape mark, or a section's first label.
    Unnamed(UnnamedItems),
    /// The trailer label of a section with these items as its data, or what follows a tape mark
    /// outside of sections.
    UnnamedTrailer(UnnamedItems),
    /// A number of items, and then the data of a section.
    Skipping(u64, OpenSection),
}

/// The end of a section.
#[derive(Clone, Copy)]
pub struct Closing {
    /// Whether the file ends with it.
    pub eof: bool,
    /// The count of its trailer label: the last six digits.
    pub count: u32,
    /// Whether its trailer label names the file of its HDR1, its creation date and generation.
    pub named: bool,
}

/// A section that ended, and how. `None` means that no trailer label with its numbers was read.
pub type FoundSection = (OpenSection, Option<Closing>);

impl OpenSection {
    /// Counts one more data item. The count cannot overflow, since an image has fewer items.
    fn with_item(self) -> OpenSection
        ensures { result ≡ Walk.with_item self }
    {
        OpenSection {
            blocks: self.blocks.saturating_add(1),
            ..self
        }
    }

    /// Counts one more data block that was read, and includes it in the digest.
    fn with_data(self, block: &[u8]) -> OpenSection
        ensures { result ≡ Walk.with_data block.now self }
    {
        let digest = digest_with(self.digest, block);
        let trailer = self.trailer_by(is_own_trailer(&self.key, block));
        let counted = self.with_item();
        OpenSection {
            trailer,
            digest,
            ..counted
        }
    }

    /// Returns the number of data items before the first that may be its own trailer label;
    /// `may_end` says whether the next one may.
    fn trailer_by(&self, may_end: bool) -> Option<u32>
        ensures { result ≡ Walk.trailer_by self.now may_end }
    {
        match self.trailer {
            None if may_end => Some(self.blocks),
            _ => self.trailer,
        }
    }

    /// Records an unreadable item: what follows is reliable only if the section closes.
    fn doubted(self) -> OpenSection
        ensures { result ≡ Walk.doubted self }
    {
        match self.certain {
            Some(_) => self,
            None => OpenSection {
                certain: Some(self.blocks),
                ..self
            },
        }
    }

    /// Records an unreadable data item.
    fn with_unreadable(self) -> OpenSection
        ensures { result ≡ Walk.with_unreadable self }
    {
        let count = self.unreadable;
        let doubted = self.doubted();
        OpenSection {
            unreadable: count.saturating_add(1),
            ..doubted
        }
    }

    /// Processes a label after its trailer label: EOF2 and EOV2 record the form of its blocks too.
    fn with_trailer(self, found: Option<Kind>, read: Result<Head2, LabelFault>) -> OpenSection
        ensures { result ≡ Walk.with_trailer self found read }
    {
        let after = self.after.map(|count| count.saturating_add(1));
        match self.form {
            Some(_) => OpenSection { after, ..self },
            None => OpenSection {
                form: trailer_form(self.file_id, found, read),
                after,
                ..self
            },
        }
    }

    /// Records whether what follows one of its labels shows that it has no HDR2.
    fn with_second(self, is_absent: bool) -> OpenSection
        ensures { result ≡ Walk.with_second is_absent self }
    {
        OpenSection {
            has_no_second: is_absent,
            ..self
        }
    }

    /// Returns whether `trail` is the section's trailer label.
    fn closes(&self, trail: &Trail1) -> bool
        ensures { result ≡ Walk.closes self.now trail.now }
    {
        trail.head.sect == self.key.sect && trail.head.sequence == self.key.file
    }

    /// Returns the end that its trailer label records.
    pub fn closing_of(&self, trail: &Trail1) -> Closing
        ensures { result ≡ Walk.closing_of self.now trail.now }
    {
        let head = &trail.head;
        Closing {
            eof: trail.eof,
            count: trail.blocks,
            named: head.file_id.bytes() == self.file_id.bytes()
                && head.created.bytes() == self.created.bytes()
                && head.generation.bytes() == self.generation.bytes(),
        }
    }
}

/// Returns what is expected after a block in place of a section's trailer label; `other` is the
/// section if it does not close.
fn closed_by(
    section: OpenSection,
    other: OpenSection,
    read: Result<Trail1, LabelFault>,
    head: Result<Head1, LabelFault>,
) -> (Expected, Option<FoundSection>)
    ensures { result ≡ Walk.closed_by section other read head }
{
    match read {
        Ok(trail) if section.closes(&trail) => {
            (
                Expected::Trailers(section, section.closing_of(&trail)),
                None,
            )
        }
        _ => (begun_by(head, Expected::Outside(0)), Some((other, None))),
    }
}

/// Returns what is expected before `items` items that are skipped, followed by the data of the
/// section.
pub fn skipping(items: u64, section: OpenSection) -> Expected
    ensures { result ≡ Walk.skipping items section }
{
    if items == 0 {
        return Expected::Data(section);
    }
    Expected::Skipping(items, section)
}

/// Returns what is expected after a block, and the section that ended there, if any.
fn block_step(expected: Expected, bytes: &[u8]) -> (Expected, Option<FoundSection>)
    ensures { result ≡ Walk.step expected (block bytes.now) }
{
    match expected {
        Expected::Outside(marks) => (outside_by(marks, kind(bytes), read_head1(bytes)), None),
        Expected::Second(section) => {
            let section = section.with_second(is_further_header(bytes));
            let read = read_wide_head2(bytes);
            (second_by(section, kind(bytes), read), None)
        }
        Expected::Headers(section) => (Expected::Headers(section), None),
        Expected::Data(section) => (Expected::Data(section.with_data(bytes)), None),
        Expected::Trailer(section) => {
            let other = section.followed_by(bytes);
            closed_by(section, other, read_trail1(bytes), read_head1(bytes))
        }
        Expected::Trailers(section, closed) => {
            let section = section.with_trailer(kind(bytes), read_wide_head2(bytes));
            (Expected::Trailers(section, closed), None)
        }
        Expected::Next => (begun_by(read_head1(bytes), Expected::Outside(0)), None),
        Expected::Over => (Expected::Over, None),
        Expected::Unnamed(items) => {
            let other = Expected::Unnamed(items.and_read());
            (begun_by(read_head1(bytes), other), None)
        }
        Expected::UnnamedTrailer(items) => {
            (items.named_by(read_trail1(bytes), read_head1(bytes)), None)
        }
        Expected::Skipping(items, section) => (skipping(items.saturating_sub(1), section), None),
    }
}

/// Returns what is expected after a tape mark, and the section that ended there, if any.
fn mark_step(expected: Expected) -> (Expected, Option<FoundSection>)
    ensures { result ≡ Walk.step expected mark }
{
    match expected {
        Expected::Outside(0) => (Expected::Outside(1), None),
        Expected::Outside(1) => (Expected::Outside(2), None),
        Expected::Outside(_) => (Expected::Over, None),
        Expected::Second(section) => (Expected::Data(section.with_second(true)), None),
        Expected::Headers(section) => (Expected::Data(section), None),
        Expected::Data(section) => (Expected::Trailer(section), None),
        Expected::Trailer(section) => (Expected::Outside(1), Some((section, None))),
        Expected::Trailers(section, closed) => (Expected::Next, Some((section, Some(closed)))),
        Expected::Next | Expected::Over => (Expected::Over, None),
        Expected::Unnamed(items) => (Expected::UnnamedTrailer(items), None),
        Expected::UnnamedTrailer(_) => (Expected::Outside(2), None),
        Expected::Skipping(items, section) => (skipping(items.saturating_sub(1), section), None),
    }
}

/// Returns what is expected after an unreadable item, and the section that ended there, if any.
fn bad_step(expected: Expected) -> (Expected, Option<FoundSection>)
    ensures { result ≡ Walk.step expected bad }
{
    match expected {
        Expected::Outside(marks) if marks < 2 => (unnamed_after(marks, false), None),
        Expected::Outside(marks) => (Expected::Outside(marks), None),
        Expected::Over => (Expected::Over, None),
        Expected::Second(section) | Expected::Headers(section) => (
            Expected::Headers(section.doubted()),
            None,
        ),
        Expected::Data(section) => (Expected::Data(section.with_unreadable().with_item()), None),
        Expected::Trailer(section) => (Expected::Outside(0), Some((section, None))),
        // The unreadable item may be an EOF2: then the section had an HDR2, which is lost.
        Expected::Trailers(section, closed) => (
            Expected::Outside(0),
            Some((section.with_second(false), Some(closed))),
        ),
        Expected::Next => (Expected::Outside(0), None),
        Expected::Unnamed(items) => (Expected::Unnamed(items.and_unreadable()), None),
        Expected::UnnamedTrailer(_) => (unnamed_after(1, false), None),
        Expected::Skipping(items, section) => (skipping(items.saturating_sub(1), section), None),
    }
}

/// Returns what is expected after an item, and the section that ended there, if any.
pub fn step(expected: Expected, item: Item<'_>) -> (Expected, Option<FoundSection>)
    ensures { result ≡ Walk.step expected (tape_item item.entry) }
{
    match item {
        Item::Block(bytes) => block_step(expected, bytes),
        Item::Bad => bad_step(expected),
        Item::Mark => mark_step(expected),
    }
}

impl Expected {
    /// Returns the current section, if the items end here.
    pub fn open_section(&self) -> Option<FoundSection>
        ensures { result ≡ Walk.open_section self.now }
    {
        match *self {
            Expected::Headers(section) | Expected::Data(section) | Expected::Trailer(section) => {
                Some((section, None))
            }
            Expected::Trailers(section, closed) => Some((section, Some(closed))),
            _ => None,
        }
    }
}
