//! Reads a reel with every section skipped: what is expected next, and which sections were found.

ghost use Rattle.std.specs.Prelude.{◌≡◌, ◌<◌};
ghost use Rattle.tape_image.specs.Reader.{tape_item};
ghost use Rattle.tape_set.specs.Lawful.{most_blocks};
ghost use Rattle.tape_run.specs.Passing.{under_way, blocks_of, header_phase, step};
ghost use Rattle.tape_run.specs.WidePassing as Wide;

use crate::met::{Met, Told};
use tape_image::Item;
use tape_label::{
    Field, Kind, is_further_header, is_volume_label, kind, read_head1, read_trail1, read_vol1,
};

/// The kind of item that is expected next.
#[derive(Clone, Copy)]
pub(crate) enum Phase {
    /// The volume label.
    Volume,
    /// A further volume label, or the first section.
    Labels(Field<6>),
    /// A section's second label.
    Second(Met),
    /// Blocks that follow a section's labels, up to a tape mark.
    Headers(Met),
    /// A section's data, up to a tape mark.
    Data(Met),
    /// A section's first trailer label.
    Trailer(Met),
    /// Blocks that follow a trailer label, up to a tape mark.
    Trailers(Field<6>),
    /// The next section.
    Next(Field<6>),
    /// Nothing: what follows is not read.
    Over,
}

/// Returns what is expected after a block at which a section may begin.
fn header_phase(volume: Field<6>, block: &[u8]) -> Phase
    ensures { result ≡ header_phase volume block.now }
{
    match read_head1(block) {
        Ok(head) => Phase::Second(Met::new(volume, &head)),
        Err(_) => Phase::Over,
    }
}

/// Returns what is expected after an item, and the section that it completes, if any.
pub(crate) fn step(phase: Phase, item: Item<'_>) -> (Phase, Option<Told>)
    requires { blocks_of phase < most_blocks }
    ensures { result ≡ step phase (tape_item item.entry) }
{
    match item {
        Item::Block(bytes) => match phase {
            Phase::Volume => match read_vol1(bytes) {
                Ok(label) => (Phase::Labels(label.volume), None),
                Err(_) => (Phase::Over, None),
            },
            Phase::Labels(volume) => match is_volume_label(bytes) {
                true => (Phase::Labels(volume), None),
                false => (header_phase(volume, bytes), None),
            },
            Phase::Next(volume) => (header_phase(volume, bytes), None),
            Phase::Second(met) => match kind(bytes) {
                Some(Kind::Hdr2) => (Phase::Headers(met), None),
                _ => (Phase::Over, None),
            },
            Phase::Headers(met) => (Phase::Headers(met), None),
            Phase::Data(met) => (Phase::Data(met.with_block(false)), None),
            Phase::Trailer(met) => match read_trail1(bytes) {
                Ok(trail) if met.closes(&trail) => {
                    (Phase::Trailers(met.volume), Some(met.told(&trail)))
                }
                _ => (Phase::Over, Some(met.cut())),
            },
            Phase::Trailers(volume) => (Phase::Trailers(volume), None),
            Phase::Over => (Phase::Over, None),
        },
        Item::Bad => match phase {
            Phase::Data(met) => (Phase::Data(met.with_block(true)), None),
            Phase::Trailer(met) => (Phase::Over, Some(met.cut())),
            _ => (Phase::Over, None),
        },
        Item::Mark => match phase {
            Phase::Headers(met) => (Phase::Data(met), None),
            Phase::Data(met) => (Phase::Trailer(met), None),
            Phase::Trailer(met) => (Phase::Over, Some(met.cut())),
            Phase::Trailers(volume) => (Phase::Next(volume), None),
            _ => (Phase::Over, None),
        },
    }
}

/// Processes an item as `step` does, in the wider reading: a section has no HDR2 if its HDR1 is
/// followed by a tape mark or a further header label.
pub(crate) fn wide_step(phase: Phase, item: Item<'_>) -> (Phase, Option<Told>)
    requires { blocks_of phase < most_blocks }
    ensures { result ≡ Wide.step phase (tape_item item.entry) }
{
    match (phase, item) {
        (Phase::Second(met), Item::Mark) => (Phase::Data(met), None),
        (Phase::Second(met), Item::Block(bytes)) if is_further_header(bytes) => {
            (Phase::Headers(met), None)
        }
        _ => step(phase, item),
    }
}

impl Phase {
    /// Returns the section that is not complete when the items end here: it is cut.
    pub(crate) fn under_way(&self) -> Option<Told>
        ensures { result ≡ under_way self.now }
    {
        match *self {
            Phase::Data(met) | Phase::Trailer(met) => Some(met.cut()),
            _ => None,
        }
    }
}
