//! The step after an item outside of sections, where a section may begin. A section whose first
//! label was not read is identified by its trailer label.

ghost use Rattle.std.specs.Prelude.{◌≡◌, if◌then◌else◌};
ghost use Rattle.tape_run.specs.SalvageWalk as Walk;

use crate::salvage::walk::{Expected, OpenSection, UnnamedItems};
use crate::section::SectionKey;
use tape_label::{Head1, Kind, LabelFault, Trail1};
use tape_set::label_count;

/// Returns the section that begins with first label `head`.
fn section_by(head: Head1) -> OpenSection
    ensures { result ≡ Walk.section_by head }
{
    OpenSection {
        key: SectionKey {
            set_id: head.set_id,
            file: head.sequence,
            sect: head.sect,
        },
        file_id: head.file_id,
        created: head.created,
        generation: head.generation,
        form: None,
        has_no_second: false,
        blocks: 0,
        certain: None,
        trailer: None,
        unreadable: 0,
        after: None,
        digest: 0,
    }
}

/// Returns what is expected after a block at which a section may begin; `other` if no section
/// begins.
pub fn begun_by(read: Result<Head1, LabelFault>, other: Expected) -> Expected
    ensures { result ≡ Walk.begun_by read other }
{
    match read {
        Ok(head) => Expected::Second(section_by(head)),
        Err(_) => other,
    }
}

impl UnnamedItems {
    /// Returns one item, and whether it was read.
    fn one(is_read: bool) -> UnnamedItems
        ensures { result ≡ (if is_read then Walk.one_read else Walk.one_unreadable) }
    {
        UnnamedItems {
            items: 1,
            unreadable: if is_read { 0 } else { 1 },
        }
    }

    /// Counts one more item that was read.
    pub fn and_read(self) -> UnnamedItems
        ensures { result ≡ Walk.and_read self }
    {
        UnnamedItems {
            items: self.items.saturating_add(1),
            ..self
        }
    }

    /// Counts one more item that could not be read.
    pub fn and_unreadable(self) -> UnnamedItems
        ensures { result ≡ Walk.and_unreadable self }
    {
        UnnamedItems {
            items: self.items.saturating_add(1),
            unreadable: self.unreadable.saturating_add(1),
        }
    }

    /// Returns what is expected after a block that may be the trailer label of a section with the
    /// items so far as its data: it is, if it counts as many blocks.
    pub fn named_by(
        self,
        read: Result<Trail1, LabelFault>,
        head: Result<Head1, LabelFault>,
    ) -> Expected
        ensures { result ≡ Walk.unnamed_by self read head }
    {
        match read {
            Ok(trail) if trail.blocks == label_count(self.items) => {
                let section = OpenSection {
                    blocks: self.items,
                    certain: Some(0),
                    unreadable: self.unreadable,
                    after: Some(2),
                    ..section_by(trail.head)
                };
                Expected::Trailers(section, section.closing_of(&trail))
            }
            _ => begun_by(head, Expected::Unnamed(UnnamedItems::one(true))),
        }
    }
}

/// Returns what is expected after an item outside of sections that begins no section, with `marks`
/// tape marks before it. Only after exactly one mark may the item be the first of a section's data.
pub fn unnamed_after(marks: u8, is_read: bool) -> Expected
    ensures { result ≡ Walk.unnamed_after marks
        (if is_read then Walk.one_read else Walk.one_unreadable) }
{
    if marks == 1 {
        return Expected::Unnamed(UnnamedItems::one(is_read));
    }
    Expected::Outside(0)
}

/// Returns what is expected after a block outside of sections, with `marks` tape marks before it.
pub fn outside_by(marks: u8, kind: Option<Kind>, head: Result<Head1, LabelFault>) -> Expected
    ensures { result ≡ Walk.outside_by marks kind head }
{
    if marks < 2 {
        return begun_by(head, unnamed_after(marks, true));
    }
    match kind {
        Some(Kind::Eof1 | Kind::Eov1 | Kind::Eof2 | Kind::Eov2) => Expected::Outside(0),
        _ => Expected::Over,
    }
}
