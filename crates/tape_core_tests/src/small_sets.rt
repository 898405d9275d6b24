//! Tests of readings of some hundred small sets, compared with the simple programs for positions
//! and parts.

use crate::plans::{NO_MEMORY, Planned, Style, blocks_before, layout, on_volume};
use crate::readers::{go_to, known, point_at, reader};
use std::alloc::Global;
use std::process::Abort;
use tape_core::Event::{Bad, Block, Mark};
use tape_core::{Answer, Checkpoint, Event, ReaderCore};
use tape_label::Format;
use tape_set::{Layout, Position};
use tape_set_tests::{EntryLayout, before, entries, far};

/// Returns whether a record is unfinished before block `block` of a section.
fn is_begun(style: Style, plan: &[Planned], file: u16, sect: u16, block: u32) -> bool {
    let before = blocks_before(plan, file, sect).saturating_add(block);
    let count = blocks_before(plan, file, u16::MAX);
    style.format == Format::Spanned && before > 0 && before < count
}

/// Returns the checkpoint at a position in the file, with the form known if the position is not the
/// start.
fn point_in(
    rt: &impl Abort,
    set: &Set,
    plan: &[Planned],
    (sect, block, part): (u16, u32, u32),
) -> Checkpoint {
    let position = Position::awaiting(sect, block).at_part(part);
    let begun = is_begun(set.style, plan, set.file, sect, block);
    let known = if position.is_start() {
        None
    } else {
        Some(known(rt, set.style.format, set.style.record_length()))
    };
    point_at(rt, set.file, (position, begun), known)
}

fn event_of(entry: &EntryLayout) -> Event<'_> {
    match entry {
        EntryLayout::Label(bytes) | EntryLayout::DataBlock(bytes) => Block(bytes.as_slice()),
        EntryLayout::Mark => Mark,
    }
}

/// Reads the beginning of a volume; `good` says which items are readable. Returns the number of
/// delivered blocks.
fn read(core: &mut ReaderCore, volume: &[EntryLayout], good: &[bool]) -> u32 {
    core.mount();
    let mut delivered = 0u32;
    for (entry, well) in volume.iter().zip(good.iter()) {
        let event = if *well { event_of(entry) } else { Bad };
        if core.step(event) == Answer::Deliver {
            delivered = delivered.saturating_add(1);
        }
    }
    delivered
}

/// Returns the number of parts before `position`.
fn parts_before(rt: &impl Abort, alloc: Global, set: &Set, position: &Position) -> usize {
    before(alloc, &set.layout, set.file, position)
        .expect(rt, NO_MEMORY)
        .len()
}

/// Checks that the definition also leads from `from` to `to`, by a reading of volume `number` with
/// the readable items `good`.
fn leads(
    rt: &impl Abort,
    alloc: Global,
    set: &Set,
    (from, to): (&Position, &Position),
    (number, good): (usize, &[bool]),
) {
    let led = far(alloc, &set.layout, set.file, *from, number, good);
    assert!(rt;
        led.expect(rt, NO_MEMORY) == Some(*to),
        "volume {number}: {} items",
        good.len()
    );
}

/// Checks that there are as many parts between `from` and `to` as in the `delivered` blocks.
fn gives(
    rt: &impl Abort,
    alloc: Global,
    set: &Set,
    (from, to): (&Position, &Position),
    delivered: u32,
) {
    let old = parts_before(rt, alloc, set, from);
    let new = parts_before(rt, alloc, set, to);
    // If the position moved, the first parts of its block were delivered.
    assert!(rt; new.saturating_sub(old) == parts_given(&set.style, from, delivered));
}

/// Makes one reading from `from`, and checks the resulting position and the delivered parts.
fn compare(
    rt: &impl Abort,
    alloc: Global,
    core: &mut ReaderCore,
    set: &Set,
    from: &Checkpoint,
    (number, volume, good): (usize, &[EntryLayout], &[bool]),
) {
    go_to(rt, core, from);
    let delivered = read(core, volume, good);
    let (stood, stands) = (from.position(), core.position());
    leads(rt, alloc, set, (&stood, &stands), (number, good));
    if delivered > 0 {
        gives(rt, alloc, set, (&stood, &stands), delivered);
    }
}

/// Returns the number of parts in the next `blocks` blocks, without those already delivered.
fn parts_given(style: &Style, from: &Position, blocks: u32) -> usize {
    let first = match from {
        Position::Awaits { part, .. } if blocks > 0 => *part,
        _ => 0,
    };
    let parts = blocks.saturating_mul(style.parts_of_a_block());
    parts.saturating_sub(first) as usize
}

/// A set, one of its files, and the style of its labels and blocks.
#[derive(Drop)]
struct Set {
    layout: Layout,
    file: u16,
    style: Style,
}

/// Reads the first `met` items of a volume with every combination of at most `most_bad` unreadable
/// items. Returns the number of readings.
fn each_of_front(
    rt: &impl Abort,
    alloc: Global,
    set: &Set,
    from: &Checkpoint,
    (number, volume): (usize, &[EntryLayout]),
    (met, most_bad): (u32, u32),
) -> u32 {
    let mut core = reader(rt, set.file);
    let mut readings = 0u32;
    for bits in 0..1u32.wrapping_shl(met) {
        if bits.count_ones() <= most_bad {
            let bad = flags(bits);
            let good = bad.get(..met as usize).unwrap_or(&[]);
            compare(rt, alloc, &mut core, set, from, (number, volume, good));
            readings = readings.saturating_add(1);
        }
    }
    readings
}

/// Reads each beginning of a volume from `from`, with at most two unreadable items if the volume is
/// long. Returns the number of readings.
fn each_reading(
    rt: &impl Abort,
    alloc: Global,
    set: &Set,
    from: &Checkpoint,
    number: usize,
) -> u32 {
    let volume = entries(alloc, &set.layout, number).expect(rt, NO_MEMORY);
    let most_bad = if volume.len() < 10 { 9 } else { 2 };
    let mut readings = 0u32;
    for met in 0..=volume.len().min(20) {
        let here = (number, volume.as_slice());
        let more = each_of_front(rt, alloc, set, from, here, (met as u32, most_bad));
        readings = readings.saturating_add(more);
    }
    readings
}

/// Returns `bits` as flags, each false if the bit is set.
fn flags(bits: u32) -> [bool; 20] {
    let mut good = [true; 20];
    let mut left = bits;
    for each in good.iter_mut() {
        *each = left % 2 == 0;
        left /= 2;
    }
    good
}

/// Reads both volumes from every position in a block, or at the end of the section.
fn each_part(
    rt: &impl Abort,
    alloc: Global,
    set: &Set,
    plan: &[Planned],
    (planned, block): (&Planned, u32),
) -> u32 {
    let mut readings = 0u32;
    let parts = if block < planned.blocks {
        set.style.parts_of_a_block()
    } else {
        1
    };
    for part in 0..parts {
        let from = point_in(rt, set, plan, (planned.sect, block, part));
        let first = each_reading(rt, alloc, set, &from, 1);
        let second = each_reading(rt, alloc, set, &from, 2);
        readings = readings.saturating_add(first).saturating_add(second);
    }
    readings
}

/// Reads both volumes from every position of the file.
fn each_position(rt: &impl Abort, alloc: Global, set: &Set, plan: &[Planned]) -> u32 {
    let mut readings = 0u32;
    for planned in plan {
        if planned.file == set.file {
            for block in 0..=planned.blocks {
                let more = each_part(rt, alloc, set, plan, (planned, block));
                readings = readings.saturating_add(more);
            }
        }
    }
    readings
}

/// Reads each file of the set from every position.
fn each_file(rt: &impl Abort, alloc: Global, style: Style, plan: &[Planned]) -> u32 {
    let mut readings = 0u32;
    for file in 1..3 {
        let set = Set {
            layout: layout(rt, alloc, style, plan),
            file,
            style,
        };
        let more = each_position(rt, alloc, &set, plan);
        readings = readings.saturating_add(more);
    }
    readings
}

const FORMATS: [Format; 3] = [Format::Fixed, Format::Counted, Format::Spanned];

/// Reads a file of one section, alone and followed by another section with zero to two blocks.
fn one_section_and_two(rt: &impl Abort, alloc: Global, style: Style, blocks: u32) -> u32 {
    let mut readings = each_file(rt, alloc, style, &[on_volume(1, 1, 1, blocks, true)]);
    for more in 0..3 {
        let first = on_volume(1, 1, 1, blocks, false);
        let two = [first, on_volume(1, 2, 2, more, true)];
        readings = readings.saturating_add(each_file(rt, alloc, style, &two));
    }
    readings
}

#[test]
fn files_of_one_section_and_of_two(rt: HostRuntime) {
    let mut readings = 0u32;
    for format in FORMATS {
        for further in [false, true] {
            for blocks in 0..3 {
                let style = Style { format, further };
                let more = one_section_and_two(&rt, rt.alloc(), style, blocks);
                readings = readings.saturating_add(more);
            }
        }
    }
    assert!(rt; readings > 100_000, "{readings}");
}

/// Reads two files, with `a` and `b` blocks, on one volume, and with a volume change in the first
/// file.
fn two_files(rt: &impl Abort, alloc: Global, style: Style, a: u32, b: u32) -> u32 {
    let two = [on_volume(1, 1, 1, a, true), on_volume(2, 1, 1, b, true)];
    let readings = each_file(rt, alloc, style, &two);
    let three = [
        on_volume(1, 1, 1, a, false),
        on_volume(1, 2, 2, b, true),
        on_volume(2, 1, 2, 1, true),
    ];
    readings.saturating_add(each_file(rt, alloc, style, &three))
}

#[test]
fn two_files_of_which_one_changes_the_volume(rt: HostRuntime) {
    let mut readings = 0u32;
    for format in FORMATS {
        let style = Style {
            format,
            further: false,
        };
        for a in 0..3 {
            for b in 0..3 {
                let more = two_files(&rt, rt.alloc(), style, a, b);
                readings = readings.saturating_add(more);
            }
        }
    }
    assert!(rt; readings > 100_000, "{readings}");
}
