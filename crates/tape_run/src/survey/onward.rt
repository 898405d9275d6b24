//! What a survey expects after an item that breaks the order of a volume, so that it finds the
//! sections after that item too.
ghost use Rattle.std.specs.Prelude.{◌≡◌};
ghost use Rattle.tape_image.specs.Reader.{tape_item};
ghost use Rattle.tape_label.specs.Reading.{trail1_at};
ghost use Rattle.tape_run.specs.Onward.{volume_in, past, past_bad, past_mark, past_block};
ghost use Rattle.tape_run.specs.Onward.{stray_in, told_past, goes_on};

use crate::met::{Met, Told};
use crate::passing::Phase;
use tape_image::Item;
use tape_label::{Field, Head1, LabelFault, read_head1, read_trail1};

/// The identifier of a volume that does not begin with a volume label.
const NO_VOLUME: [u8; 6] = *b"(none)";

/// Returns the identifier of the volume, if its label was read.
fn volume_in(phase: Phase) -> Field<6>
    ensures { result ≡ volume_in phase }
{
    match phase {
        Phase::Labels(volume) | Phase::Trailers(volume) | Phase::Next(volume) => volume,
        Phase::Second(met) | Phase::Headers(met) | Phase::Data(met) | Phase::Trailer(met) => {
            met.volume
        }
        Phase::Volume | Phase::Over => Field::of_bytes(NO_VOLUME),
    }
}

/// Returns what is expected after an unreadable item that breaks the order: a section continues
/// if its HDR1 was read, but is not complete.
fn past_bad(phase: Phase) -> Phase
    ensures { result ≡ past_bad phase }
{
    match phase {
        Phase::Second(met) | Phase::Headers(met) => Phase::Headers(Met { bad: true, ..met }),
        Phase::Over => Phase::Over,
        _ => Phase::Labels(volume_in(phase)),
    }
}

/// Returns what is expected after a tape mark that breaks the order: a second mark in sequence ends
/// the volume.
fn past_mark(phase: Phase) -> Phase
    ensures { result ≡ past_mark phase }
{
    match phase {
        Phase::Next(_) | Phase::Over => Phase::Over,
        _ => Phase::Next(volume_in(phase)),
    }
}

/// Returns what is expected after a block that breaks the order: a section begins there if it is a
/// header label; one in place of HDR2 is not reliable.
fn past_block(phase: Phase, read: Result<Head1, LabelFault>) -> Phase
    ensures { result ≡ past_block phase read }
{
    match (phase, read) {
        (Phase::Over, _) => Phase::Over,
        (Phase::Second(met), Ok(head)) => Phase::Second(Met {
            bad: true,
            ..Met::new(met.volume, &head)
        }),
        (_, Ok(head)) => Phase::Second(Met::new(volume_in(phase), &head)),
        (_, Err(_)) => Phase::Labels(volume_in(phase)),
    }
}

/// Returns what is expected after an item that breaks the order.
fn past(phase: Phase, item: Item<'_>) -> Phase
    ensures { result ≡ past phase (tape_item item.entry) }
{
    match item {
        Item::Block(bytes) => past_block(phase, read_head1(bytes)),
        Item::Bad => past_bad(phase),
        Item::Mark => past_mark(phase),
    }
}

/// Returns the section of which a block is the trailer label, if it is one. No header label of the
/// section was read, and none of its blocks is counted.
fn stray_in(volume: Field<6>, bytes: &[u8]) -> Option<Told>
    ensures { result ≡ stray_in volume (trail1_at bytes.now) }
{
    match read_trail1(bytes) {
        Ok(trail) => Some(Met::new(volume, &trail.head).cut()),
        Err(_) => None,
    }
}

/// Returns the section that an item that breaks the order truncates, or whose trailer label it is.
fn told_past(phase: &Phase, item: Item<'_>) -> Option<Told>
    ensures { result ≡ told_past phase.now (tape_item item.entry) }
{
    match (phase, item) {
        (Phase::Trailer(met), _) | (Phase::Second(met), Item::Block(_)) => Some(met.cut()),
        (Phase::Labels(volume) | Phase::Next(volume), Item::Block(bytes)) => {
            stray_in(*volume, bytes)
        }
        _ => None,
    }
}

/// Returns what is expected after an item, and the section that it completes or truncates, if any.
/// In the order of a volume these are `ordered`.
pub(super) fn goes_on(
    phase: &Phase,
    item: Item<'_>,
    ordered: (Phase, Option<Told>),
) -> (Phase, Option<Told>)
    ensures { result ≡ goes_on phase.now (tape_item item.entry) ordered }
{
    match ordered.0 {
        Phase::Over => (past(*phase, item), told_past(phase, item)),
        _ => ordered,
    }
}
