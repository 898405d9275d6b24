//! The extent to which the items of an image are in the order of a volume.
ghost use Rattle.std.specs.Prelude.{◌≡◌};
ghost use Rattle.tape_image.specs.Reader.{tape_item};
ghost use Rattle.tape_run.specs.SurveyGlance.{wanted_in, course_with};

use crate::passing::Phase;
use tape_image::Item;

/// The next item expected in the order of a volume.
#[derive(Clone, Copy)]
pub enum ExpectedItem {
    /// `VOL1`.
    Volume,
    /// `HDR1`.
    Section,
    /// `HDR2`.
    Second,
    /// A label or a tape mark.
    Mark,
    /// `EOF1` or `EOV1`, with the section's numbers.
    Trailer,
    /// `HDR1` or a tape mark.
    Next,
    /// A second tape mark.
    SecondMark,
    /// Nothing.
    End,
}

/// The extent to which the items are in the order of a volume.
#[derive(Clone, Copy)]
pub enum LabelOrder {
    /// All items do so far, and the volume continues.
    Follows,
    /// One tape mark follows the volume labels: the volume is blank if a second one follows.
    Blank,
    /// All items do, up to the volume's end.
    Ended,
    /// The number, counted from 1, of the first item that was not expected.
    Leaves(u32, ExpectedItem),
}

/// Returns the item expected in a phase.
fn wanted_in(phase: Phase) -> ExpectedItem
    ensures { result ≡ wanted_in phase }
{
    match phase {
        Phase::Volume => ExpectedItem::Volume,
        Phase::Labels(_) => ExpectedItem::Section,
        Phase::Second(_) => ExpectedItem::Second,
        Phase::Headers(_) | Phase::Data(_) | Phase::Trailers(_) => ExpectedItem::Mark,
        Phase::Trailer(_) => ExpectedItem::Trailer,
        Phase::Next(_) => ExpectedItem::Next,
        Phase::Over => ExpectedItem::End,
    }
}

/// Returns the label order after item `number`; `phase` and `next` are the phases before and after
/// it.
pub(crate) fn course_with(
    course: LabelOrder,
    number: u32,
    phase: Phase,
    item: Item<'_>,
    next: Phase,
) -> LabelOrder
    ensures { result ≡ course_with course number phase (tape_item item.entry) next }
{
    match (course, phase, item) {
        (LabelOrder::Follows, Phase::Labels(_), Item::Mark) => LabelOrder::Blank,
        (LabelOrder::Follows, Phase::Next(_), Item::Mark) => LabelOrder::Ended,
        (LabelOrder::Follows, _, _) => match next {
            Phase::Over => LabelOrder::Leaves(number, wanted_in(phase)),
            _ => LabelOrder::Follows,
        },
        (LabelOrder::Blank, _, Item::Mark) => LabelOrder::Ended,
        (LabelOrder::Blank, _, _) => LabelOrder::Leaves(number, ExpectedItem::SecondMark),
        (LabelOrder::Ended, _, _) => LabelOrder::Leaves(number, ExpectedItem::End),
        (LabelOrder::Leaves(_, _), _, _) => course,
    }
}
