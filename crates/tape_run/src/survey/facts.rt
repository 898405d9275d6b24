//! The facts in a survey's description of an image.
ghost use Rattle.std.specs.Prelude.{◌≡◌, IfOk, string_bytes};
ghost use Rattle.tape_run.specs.SurveyLine.{first_text, none_text, system_text, files_text, bad_text};
ghost use Rattle.tape_run.specs.SurveyLine.{late_text, unread_text, wanted_text, course_text};
ghost use Rattle.tape_run.specs.SurveyLine.{rest_text};
ghost use Rattle.tape_run.specs.SurveyLine.{course_shown, left_text, is_told, kind_text};
ghost use Rattle.tape_run.specs.SurveyLine.{fault_text, stop_text, glance_text, seen_text};
ghost use Rattle.tape_run.specs.SurveyWhole.{is_named, is_no_image};

use super::course::{ExpectedItem, LabelOrder};
use super::damages::{DamagesText, dispute_text};
use super::glance::{First, ImageSummary};
use super::view::ImageSurvey;
use crate::container::{Container, container_text};
use crate::section::{ImageStop, SectionKey};
use crate::text::{Trimmed, trimmed_len};
use std::alloc::{AllocError, Global};
use tape_image::ImageFault;
use tape_label::Head1;

/// Returns the text for an image without items, which ends with `stop`.
fn none_text(alloc: Global, stop: ImageStop) -> Result<String, AllocError>
    ensures { IfOk result (λ text. string_bytes text ≡ none_text stop) }
{
    match stop {
        ImageStop::Marked => format!(in alloc; "no items before the end-of-medium marker"),
        ImageStop::Fault(_) | ImageStop::Physical => format!(in alloc; "no items"),
    }
}

/// Returns the text for the item that an image begins with. It ends with `stop`.
fn first_text(alloc: Global, first: &First, stop: ImageStop) -> Result<String, AllocError>
    ensures { IfOk result (λ text. string_bytes text ≡ first_text first.now stop) }
{
    match first {
        First::Nothing => none_text(alloc, stop),
        First::Volume(label) => format!(in alloc; "volume {}", Trimmed(&label.volume)),
        First::Ebcdic => format!(in alloc; "labels in EBCDIC"),
        First::Block(length) => format!(in alloc; "no labels; its first block has {length} bytes"),
        First::Bad => format!(in alloc; "does not begin with a label"),
        First::Mark => format!(in alloc; "begins with a tape mark"),
    }
}

/// Returns the text for the system that wrote an image, if a header label names one.
fn system_text(alloc: Global, head: &Option<Head1>) -> Result<String, AllocError>
    ensures { IfOk result (λ text. string_bytes text ≡ system_text head.now) }
{
    let Some(head) = head else {
        return Ok(String::new(alloc));
    };
    if trimmed_len(head.implementation.bytes()) > 0 {
        format!(in alloc; ", written by {}", Trimmed(&head.implementation))
    } else {
        Ok(String::new(alloc))
    }
}

/// Returns the text for the number of sections.
fn files_text(alloc: Global, number: u32) -> Result<String, AllocError>
    ensures { IfOk result (λ text. string_bytes text ≡ files_text number) }
{
    match number {
        0 => Ok(String::new(alloc)),
        1 => format!(in alloc; ", 1 section"),
        _ => format!(in alloc; ", {number} sections"),
    }
}

/// Returns the text for the number of unreadable blocks.
fn bad_text(alloc: Global, between: &str, number: u32) -> Result<String, AllocError>
    ensures { IfOk result (λ text. string_bytes text ≡ bad_text between.now number) }
{
    match number {
        0 => Ok(String::new(alloc)),
        1 => format!(in alloc; "{between}1 unreadable block"),
        _ => format!(in alloc; "{between}{number} unreadable blocks"),
    }
}

/// Returns the text for a volume label that follows another item.
fn late_text(alloc: Global, between: &str, late: Option<u32>) -> Result<String, AllocError>
    ensures { IfOk result (λ text. string_bytes text ≡ late_text between.now late) }
{
    match late {
        Some(number) => format!(in alloc; "{between}a VOL1 at item {number}"),
        None => Ok(String::new(alloc)),
    }
}

/// Returns the text for a file whose records cannot be read.
fn unread_text(alloc: Global, between: &str, unread: Option<u16>) -> Result<String, AllocError>
    ensures { IfOk result (λ text. string_bytes text ≡ unread_text between.now unread) }
{
    match unread {
        Some(file) => format!(in alloc; "{between}file {file} has an unsupported record format"),
        None => Ok(String::new(alloc)),
    }
}

/// Returns the contents of an image that ends with `stop`, with the text `between` between two
/// facts.
fn glance_text(
    alloc: Global,
    between: &str,
    glance: &ImageSummary,
    stop: ImageStop,
) -> Result<String, AllocError>
    ensures { IfOk result (λ text. string_bytes text ≡ glance_text between.now glance.now stop) }
{
    let first = first_text(alloc, &glance.first, stop)?;
    let system = system_text(alloc, &glance.head)?;
    let files = files_text(alloc, glance.files)?;
    let bad = bad_text(alloc, between, glance.bad)?;
    let late = late_text(alloc, between, glance.late)?;
    let unread = unread_text(alloc, between, glance.unread)?;
    let rest = format!(in alloc; "{bad}{late}{unread}")?;
    format!(in alloc; "{first}{system}{files}{rest}")
}

/// Returns the label order that is described: an image without items has none.
fn course_shown(glance: &ImageSummary) -> LabelOrder
    ensures { result ≡ course_shown glance.now.first glance.now.course }
{
    match glance.first {
        First::Nothing => LabelOrder::Ended,
        _ => glance.course,
    }
}

/// Returns the extent to which the items are in the order of a volume.
fn course_text(
    alloc: Global,
    between: &str,
    course: LabelOrder,
    stop: ImageStop,
) -> Result<String, AllocError>
    ensures { IfOk result (λ text. string_bytes text ≡ course_text between.now course stop) }
{
    match course {
        LabelOrder::Ended => Ok(String::new(alloc)),
        LabelOrder::Leaves(number, wanted) => left_text(alloc, between, number, wanted),
        LabelOrder::Follows | LabelOrder::Blank => match stop {
            // A fault is reported as such.
            ImageStop::Fault(_) => Ok(String::new(alloc)),
            ImageStop::Marked | ImageStop::Physical => {
                format!(in alloc; "{between}ends before the end of the volume")
            }
        },
    }
}

/// Returns the text about the item that breaks the label order.
fn left_text(
    alloc: Global,
    between: &str,
    number: u32,
    wanted: ExpectedItem,
) -> Result<String, AllocError>
    ensures { IfOk result (λ text. string_bytes text ≡ left_text between.now number wanted) }
{
    if is_told(wanted) {
        let (is_not, rest) = (wanted_text(wanted), rest_text(wanted));
        format!(in alloc; "{between}item {number} {is_not}: {rest}")
    } else {
        Ok(String::new(alloc))
    }
}

/// Returns whether to print what was expected: a missing volume label is reported already.
fn is_told(wanted: ExpectedItem) -> bool
    ensures { result ≡ is_told wanted }
{
    match wanted {
        ExpectedItem::Volume => false,
        _ => true,
    }
}

/// Returns the text for the item that was expected in its place.
fn wanted_text(wanted: ExpectedItem) -> &'static str
    ensures { result.now ≡ wanted_text wanted }
{
    match wanted {
        ExpectedItem::Volume => "is not VOL1",
        ExpectedItem::Section => "is not HDR1",
        ExpectedItem::Second => "is not HDR2",
        ExpectedItem::Mark => "is neither a label nor a tape mark",
        ExpectedItem::Trailer => "is not EOF1 or EOV1 of its section",
        ExpectedItem::Next => "is neither HDR1 nor a tape mark",
        ExpectedItem::SecondMark => "is not a second tape mark",
        ExpectedItem::End => "follows the end of the volume",
    }
}

/// Returns what is done with the items that follow: sections are found there too, unless the volume
/// has ended.
fn rest_text(wanted: ExpectedItem) -> &'static str
    ensures { result.now ≡ rest_text wanted }
{
    match wanted {
        ExpectedItem::End => "the rest is ignored",
        _ => "counting continues",
    }
}

/// Returns whether the kind is known and is not that of a SIMH image.
pub(super) fn is_named(kind: Container) -> bool
    ensures { result ≡ is_named kind }
{
    !matches!(kind, Container::Unknown | Container::Simh)
}

/// Returns whether no item of it can be read, so that it is probably not an image.
pub(super) fn is_no_image(fault: &ImageFault) -> bool
    ensures { result ≡ is_no_image fault.now }
{
    fault.place == 0 && fault.cause.number() <= 3
}

/// Returns the kind of an image that cannot be read further, as text: if it is another kind than a
/// SIMH image, or if it stops before its first item.
fn kind_text(alloc: Global, kind: Container, fault: &ImageFault) -> Result<String, AllocError>
    ensures { IfOk result (λ text. string_bytes text ≡ kind_text kind fault.now) }
{
    if is_named(kind) || is_no_image(fault) {
        let text = container_text(kind);
        format!(in alloc; ": {text}")
    } else {
        Ok(String::new(alloc))
    }
}

/// Returns the text about a fault of the image, and the kind of the image.
fn fault_text(alloc: Global, kind: Container, fault: &ImageFault) -> Result<String, AllocError>
    ensures { IfOk result (λ text. string_bytes text ≡ fault_text kind fault.now) }
{
    let (number, place) = (fault.cause.number(), fault.place);
    let kind = kind_text(alloc, kind, fault)?;
    format!(in alloc; "image fault {number} at byte {place}{kind}")
}

/// Returns the fault with which an image of this kind ends, if any.
fn stop_text(
    alloc: Global,
    between: &str,
    kind: Container,
    stop: ImageStop,
) -> Result<String, AllocError>
    ensures { IfOk result (λ text. string_bytes text ≡ stop_text between.now kind stop) }
{
    match stop {
        ImageStop::Fault(fault) => {
            let text = fault_text(alloc, kind, &fault)?;
            format!(in alloc; "{between}{text}")
        }
        ImageStop::Marked | ImageStop::Physical => Ok(String::new(alloc)),
    }
}

/// Returns the description of an image, with the text `between` between two facts; `dispute` is a
/// section on it whose complete copies differ, if any.
pub(super) fn seen_text(
    alloc: Global,
    between: &str,
    sight: &ImageSurvey,
    dispute: Option<SectionKey>,
) -> Result<String, AllocError>
    ensures { IfOk result (λ text. string_bytes text ≡ seen_text between.now sight.now dispute) }
{
    let glance = glance_text(alloc, between, &sight.glance, sight.stop)?;
    let course = course_text(alloc, between, course_shown(&sight.glance), sight.stop)?;
    let stop = stop_text(alloc, between, sight.kind, sight.stop)?;
    let damages = DamagesText(between, sight.damaged.as_slice());
    let dispute = dispute_text(alloc, between, dispute)?;
    let rest = format!(in alloc; "{stop}{damages}{dispute}")?;
    format!(in alloc; "{glance}{course}{rest}")
}
