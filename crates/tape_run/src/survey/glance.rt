//! A summary of an image, from its items alone.
ghost use Rattle.std.specs.Result.{IsOkUnless};
ghost use Rattle.std.specs.Prelude.{◌≡◌, ◌<◌, ◌≤◌, ◌++◌, OnOk};
ghost use Rattle.tape_image.specs.{Reader.tape_item, Begins.image_limit};
ghost use Rattle.tape_run.specs.SurveyGlance.{blank_glance, first_of, is_vol1, head_in, label_in};
ghost use Rattle.tape_run.specs.SurveyGlance.{trailer_in};
ghost use Rattle.tape_run.specs.SurveyGlance.{unread_in, one_if, damages_in, look_to};
ghost use Rattle.tape_run.specs.Passing.{in_list};
ghost use Rattle.tape_label.specs.Reading.{trail1_at};
ghost use Rattle.tape_run.specs.declared.fault.RunFault.TheVariants as faults;

use super::course::{LabelOrder, course_with};
use crate::fault::RunFault;
use crate::met::Told;
use crate::passing::Phase;
use crate::report::line_of;
use crate::section::SectionLine;
use tape_image::Item;
use tape_label::{Head1, Kind, Vol1, kind, read_head1, read_trail1, read_vol1, read_wide_head2};

/// The kind of item that an image begins with.
#[derive(Clone, Copy)]
pub enum First {
    /// The image has no items.
    Nothing,
    /// A volume label.
    Volume(Vol1),
    /// A volume label in EBCDIC.
    Ebcdic,
    /// Another block, of the given length.
    Block(u64),
    /// An unreadable block.
    Bad,
    /// A tape mark.
    Mark,
}

/// The summary of an image.
#[derive(Clone, Copy)]
pub struct ImageSummary {
    /// The number of its items.
    pub items: u32,
    /// The kind of item that the image begins with.
    pub first: First,
    /// The number of the first volume label after the first item.
    pub late: Option<u32>,
    /// The first section's `HDR1`.
    pub head: Option<Head1>,
    /// The number of sections that begin on the image.
    pub files: u32,
    /// The number of unreadable blocks.
    pub bad: u32,
    /// The number of the first file whose `HDR2` is not supported.
    pub unread: Option<u16>,
    /// The extent to which the items are in the order of a volume.
    pub course: LabelOrder,
}

/// Returns the summary of an unread image.
pub(crate) fn blank_glance() -> ImageSummary
    ensures { result ≡ blank_glance }
{
    ImageSummary {
        items: 0,
        first: First::Nothing,
        late: None,
        head: None,
        files: 0,
        bad: 0,
        unread: None,
        course: LabelOrder::Follows,
    }
}

/// Classifies an image by its first item, `item`. A volume label in EBCDIC is recognized by its
/// length and its first four bytes.
#[tactic(auto, unfolding(crate::specs::SurveyGlance::is_ebcdic))]
fn first_of(item: Item<'_>) -> First
    ensures { result ≡ first_of (tape_item item.entry) }
{
    match item {
        Item::Block(bytes) => match read_vol1(bytes) {
            Ok(label) => First::Volume(label),
            Err(_) if bytes.len() == 80 && &bytes[..4] == b"\xE5\xD6\xD3\xF1".as_slice() => {
                First::Ebcdic
            }
            Err(_) => First::Block(bytes.len() as u64),
        },
        Item::Bad => First::Bad,
        Item::Mark => First::Mark,
    }
}

/// Returns whether an item is a volume label.
fn is_vol1(item: Item<'_>) -> bool
    ensures { result ≡ is_vol1 (tape_item item.entry) }
{
    match item {
        Item::Block(bytes) => matches!(kind(bytes), Some(Kind::Vol1)),
        Item::Bad | Item::Mark => false,
    }
}

/// Returns the header label that an item is, if a section begins there.
pub(crate) fn head_in(phase: &Phase, item: Item<'_>) -> Option<Head1>
    ensures { result ≡ head_in phase.now (tape_item item.entry) }
{
    let Item::Block(bytes) = item else {
        return None;
    };
    match phase {
        Phase::Volume | Phase::Labels(_) | Phase::Second(_) | Phase::Trailer(_) | Phase::Next(_) =>
            match read_head1(bytes) {
                Ok(head) => Some(head),
                Err(_) => None,
            },
        _ => None,
    }
}

/// Returns the trailer label that a block is: of the section that is being read, with the set of
/// its header, or of one whose header label was not read.
fn trailer_in(phase: &Phase, bytes: &[u8]) -> Option<Head1>
    ensures { result ≡ trailer_in phase.now (trail1_at bytes.now) }
{
    match phase {
        Phase::Trailer(met) => match read_trail1(bytes) {
            Ok(trail) if met.closes(&trail) => Some(Head1 {
                set_id: met.key.set_id,
                ..trail.head
            }),
            _ => None,
        },
        Phase::Labels(_) | Phase::Next(_) => match read_trail1(bytes) {
            Ok(trail) => Some(trail.head),
            Err(_) => None,
        },
        _ => None,
    }
}

/// Returns the label of a section that an item is, with the fields of a first header label: its
/// HDR1, or its trailer label.
pub(crate) fn label_in(phase: &Phase, item: Item<'_>) -> Option<Head1>
    ensures { result ≡ label_in phase.now (tape_item item.entry) }
{
    match item {
        Item::Block(bytes) => head_in(phase, item).or(trailer_in(phase, bytes)),
        Item::Bad | Item::Mark => None,
    }
}

/// Returns the number of the current file if `item` is an `HDR2` that is not supported.
fn unread_in(phase: &Phase, item: Item<'_>) -> Option<u16>
    ensures { result ≡ unread_in phase.now (tape_item item.entry) }
{
    let (Phase::Second(met), Item::Block(bytes)) = (phase, item) else {
        return None;
    };
    match (kind(bytes), read_wide_head2(bytes)) {
        (Some(Kind::Hdr2), Err(_)) => Some(met.key.file),
        _ => None,
    }
}

/// Returns 1 if `so` is true, otherwise 0.
pub(crate) fn one_if(so: bool) -> u32
    ensures exact { result ≡ one_if so }
    ensures most { result ≤ 1 }
{
    if so { 1 } else { 0 }
}

/// Adds the line of the section that was found, if any, if it is damaged.
pub(crate) fn note_damage(
    damaged: &mut Vec<SectionLine>,
    told: &Option<Told>,
) -> Result<(), RunFault>
    ensures fault { IsOkUnless result faults.OutOfMemory }
    ensures ok { OnOk result (damaged.new.items
        ≡ damaged.old.items ++ damages_in (in_list told.now)) }
{
    let Some((key, entry)) = told else {
        return Ok(());
    };
    if entry.state.is_good() {
        return Ok(());
    }
    damaged.push(line_of(key, entry))?;
    Ok(())
}

/// Returns the summary after one more item, with the phase before it, and the phase after it in the
/// order of a volume.
pub(crate) fn look(
    glance: &ImageSummary,
    phase: &Phase,
    item: Item<'_>,
    next: &Phase,
) -> ImageSummary
    requires items { glance.now.items < image_limit }
    requires files { glance.now.files ≤ glance.now.items }
    requires bad { glance.now.bad ≤ glance.now.items }
    ensures exact { result ≡ look_to glance.now phase.now (tape_item item.entry) next.now }
    ensures files { result.files ≤ result.items }
    ensures bad { result.bad ≤ result.items }
{
    let number = glance.items + 1;
    let head = head_in(phase, item);
    let first = if number == 1 {
        first_of(item)
    } else {
        glance.first
    };
    let late = if number != 1 && is_vol1(item) {
        glance.late.or(Some(number))
    } else {
        glance.late
    };
    ImageSummary {
        items: number,
        first,
        late,
        head: glance.head.or(head),
        files: glance.files + one_if(head.is_some()),
        bad: glance.bad + one_if(matches!(item, Item::Bad)),
        unread: glance.unread.or(unread_in(phase, item)),
        course: course_with(glance.course, number, *phase, item, *next),
    }
}
