//! Small sets, laid out according to a plan.

use crate::readers::set_id;
use crate::reels::{
    EOF1, EOF2, EOV1, HDR1, HDR2, HDR2_D, HDR2_S, HDR3, UVL1, VOL1, counted, numbered,
};
use std::alloc::Global;
use std::process::Abort;
use tape_blocks::Span;
use tape_label::Format;
use tape_set::{
    BlockLayout, FileLayout, Layout, PartLayout, SectionLayout, Sequence, VolumeLayout,
};

/// A section of a small set.
#[derive(Clone, Copy)]
pub(crate) struct Planned {
    pub(crate) file: u16,
    pub(crate) sect: u16,
    pub(crate) volume: usize,
    pub(crate) blocks: u32,
    pub(crate) is_last: bool,
}

/// The style that all files of a small set share.
#[derive(Clone, Copy)]
pub(crate) struct Style {
    pub(crate) format: Format,
    /// Whether the labels are followed by further labels, which a reader skips.
    pub(crate) further: bool,
}

impl Style {
    fn second_header(&self) -> &'static [u8; 80] {
        match self.format {
            Format::Fixed => HDR2,
            Format::Counted => HDR2_D,
            _ => HDR2_S,
        }
    }

    /// Returns the record length that a reader knows: 0 if records contain their own length.
    pub(crate) fn record_length(&self) -> u32 {
        match self.format {
            Format::Fixed => 4,
            _ => 0,
        }
    }

    pub(crate) fn parts_of_a_block(&self) -> u32 {
        match self.format {
            Format::Counted => 2,
            _ => 1,
        }
    }

    /// Returns block `n` of `count` blocks of a file, counted from 0. In format S the blocks
    /// contain one record.
    fn block(&self, rt: &impl Abort, alloc: Global, n: u32, count: u32) -> BlockLayout {
        let whole = (Span::Whole, b"AB".as_slice());
        match self.format {
            Format::Fixed => laid(rt, alloc, b"AAAA", &[(Span::Whole, b"AAAA")]),
            Format::Counted => laid(rt, alloc, b"0006AB0004", &[whole, (Span::Whole, b"")]),
            _ => {
                let (span, text) = span_at(n, count);
                laid(rt, alloc, text, &[(span, b"A")])
            }
        }
    }

    fn further(&self, rt: &impl Abort, alloc: Global, label: &[u8]) -> Sequence<Sequence<u8>> {
        let mut labels = Vec::new(alloc);
        if self.further {
            labels.push(bytes(rt, alloc, label)).expect(rt, NO_MEMORY);
        }
        Sequence::of_vec(labels)
    }
}

pub(crate) const NO_MEMORY: &str = "no memory";

/// Returns the piece of the record in block `n` of `count` blocks, and the block.
fn span_at(n: u32, count: u32) -> (Span, &'static [u8]) {
    match (n == 0, n.saturating_add(1) == count) {
        (true, true) => (Span::Whole, b"00006A"),
        (true, false) => (Span::First, b"10006A"),
        (false, false) => (Span::Middle, b"20006A"),
        (false, true) => (Span::Last, b"30006A"),
    }
}

fn bytes(rt: &impl Abort, alloc: Global, text: &[u8]) -> Sequence<u8> {
    Sequence::of_vec(text.to_vec(alloc).expect(rt, NO_MEMORY))
}

/// Returns a block with the bytes `text`, which contains the parts `contents`.
fn laid(rt: &impl Abort, alloc: Global, text: &[u8], contents: &[(Span, &[u8])]) -> BlockLayout {
    let mut parts = Vec::new(alloc);
    for (span, content) in contents {
        let part = PartLayout {
            span: *span,
            bytes: bytes(rt, alloc, content),
        };
        parts.push(part).expect(rt, NO_MEMORY);
    }
    BlockLayout {
        bytes: bytes(rt, alloc, text),
        parts: Sequence::of_vec(parts),
    }
}

/// Returns a one-digit number in four digits.
fn four_digits(number: u16) -> [u8; 4] {
    let [_, low] = number.to_be_bytes();
    [b'0', b'0', b'0', low.saturating_add(b'0')]
}

/// Returns the number of blocks in the file's sections before section `sect`.
pub(crate) fn blocks_before(plan: &[Planned], file: u16, sect: u16) -> u32 {
    plan.iter()
        .filter(|each| each.file == file && each.sect < sect)
        .fold(0, |sum: u32, each| sum.saturating_add(each.blocks))
}

/// Returns the data blocks of a section.
fn blocks(
    rt: &impl Abort,
    alloc: Global,
    style: Style,
    plan: &[Planned],
    planned: Planned,
) -> Sequence<BlockLayout> {
    let first = blocks_before(plan, planned.file, planned.sect);
    let count = blocks_before(plan, planned.file, u16::MAX);
    let mut blocks = Vec::new(alloc);
    for n in 0..planned.blocks {
        let block = style.block(rt, alloc, first.saturating_add(n), count);
        blocks.push(block).expect(rt, NO_MEMORY);
    }
    Sequence::of_vec(blocks)
}

/// Returns the first header label of a section, and its first trailer label.
fn first_labels(planned: Planned) -> ([u8; 80], [u8; 80]) {
    let (sect, sequence) = (four_digits(planned.sect), four_digits(planned.file));
    let [_, _, _, low] = planned.blocks.to_be_bytes();
    let seen = [b'0', b'0', b'0', b'0', b'0', low.saturating_add(b'0')];
    let trailer = if planned.is_last { EOF1 } else { EOV1 };
    let trailer = counted(&numbered(trailer, &sect, &sequence), &seen);
    (numbered(HDR1, &sect, &sequence), trailer)
}

fn section(
    rt: &impl Abort,
    alloc: Global,
    style: Style,
    plan: &[Planned],
    planned: Planned,
) -> SectionLayout {
    let (hdr1, trailer) = first_labels(planned);
    SectionLayout {
        volume: planned.volume,
        hdr1: bytes(rt, alloc, &hdr1),
        hdr2: bytes(rt, alloc, style.second_header()),
        headers: style.further(rt, alloc, HDR3),
        blocks: blocks(rt, alloc, style, plan, planned),
        trailer: bytes(rt, alloc, &trailer),
        trailers: style.further(rt, alloc, EOF2),
    }
}

fn file(rt: &impl Abort, alloc: Global, style: Style, plan: &[Planned], number: u16) -> FileLayout {
    let mut sections = Vec::new(alloc);
    for planned in plan {
        if planned.file == number {
            let section = section(rt, alloc, style, plan, *planned);
            sections.push(section).expect(rt, NO_MEMORY);
        }
    }
    FileLayout {
        sections: Sequence::of_vec(sections),
    }
}

fn volume(rt: &impl Abort, alloc: Global, style: Style) -> VolumeLayout {
    VolumeLayout {
        vol1: bytes(rt, alloc, VOL1),
        labels: style.further(rt, alloc, UVL1),
    }
}

/// Returns the planned set, on two volumes.
pub(crate) fn layout(rt: &impl Abort, alloc: Global, style: Style, plan: &[Planned]) -> Layout {
    let mut volumes = Vec::new(alloc);
    let mut files = Vec::new(alloc);
    for number in 1..3 {
        volumes.push(volume(rt, alloc, style)).expect(rt, NO_MEMORY);
        files
            .push(file(rt, alloc, style, plan, number))
            .expect(rt, NO_MEMORY);
    }
    Layout {
        set_id: set_id(),
        volumes: Sequence::of_vec(volumes),
        files: Sequence::of_vec(files),
    }
}

/// Returns a planned section.
pub(crate) fn on_volume(
    file: u16,
    sect: u16,
    volume: usize,
    blocks: u32,
    is_last: bool,
) -> Planned {
    Planned {
        file,
        sect,
        volume,
        blocks,
        is_last,
    }
}
