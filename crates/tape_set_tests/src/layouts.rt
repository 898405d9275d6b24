//! The set for the tests: a file on volumes 1 and 2, and another file that begins on volume 2.

use std::alloc::{AllocError, Global};
use tape_blocks::Span;
use tape_label::Field;
use tape_set::{
    BlockLayout, FileLayout, Layout, PartLayout, SectionLayout, Sequence, VolumeLayout,
};

pub(crate) fn two_files(alloc: Global) -> Result<Layout, AllocError> {
    let files = vec![in alloc; file(alloc, &[1, 2])?, file(alloc, &[2])?]?;
    Ok(Layout {
        set_id: Field::of_bytes(*b"ABC001"),
        volumes: volumes(alloc)?,
        files: Sequence::of_vec(files),
    })
}

fn bytes(alloc: Global, text: &[u8]) -> Result<Sequence<u8>, AllocError> {
    Ok(Sequence::of_vec(text.to_vec(alloc)?))
}

fn volumes(alloc: Global) -> Result<Sequence<VolumeLayout>, AllocError> {
    let volumes = vec![in alloc; volume(alloc)?, volume(alloc)?]?;
    Ok(Sequence::of_vec(volumes))
}

fn volume(alloc: Global) -> Result<VolumeLayout, AllocError> {
    let labels = vec![in alloc; bytes(alloc, b"UVL1")?]?;
    Ok(VolumeLayout {
        vol1: bytes(alloc, b"VOL1")?,
        labels: Sequence::of_vec(labels),
    })
}

fn file(alloc: Global, volumes: &[usize]) -> Result<FileLayout, AllocError> {
    let mut sections = Vec::new(alloc);
    for volume in volumes {
        sections.push(section(alloc, *volume)?)?;
    }
    Ok(FileLayout {
        sections: Sequence::of_vec(sections),
    })
}

fn section(alloc: Global, volume: usize) -> Result<SectionLayout, AllocError> {
    Ok(SectionLayout {
        volume,
        hdr1: bytes(alloc, b"HDR1")?,
        hdr2: bytes(alloc, b"HDR2")?,
        headers: Sequence::of_vec(Vec::new(alloc)),
        blocks: blocks(alloc)?,
        trailer: bytes(alloc, b"EOF1")?,
        trailers: Sequence::of_vec(Vec::new(alloc)),
    })
}

fn blocks(alloc: Global) -> Result<Sequence<BlockLayout>, AllocError> {
    let first = block(alloc, b"0002AB", &[b"AB"])?;
    let second = block(alloc, b"0006CDEF", &[b"CD", b"EF"])?;
    Ok(Sequence::of_vec(vec![in alloc; first, second]?))
}

// A block with the given parts. The tests do not check how the block encodes them.
fn block(alloc: Global, text: &[u8], contents: &[&[u8]]) -> Result<BlockLayout, AllocError> {
    let mut parts = Vec::new(alloc);
    for content in contents {
        parts.push(PartLayout {
            span: Span::Whole,
            bytes: bytes(alloc, content)?,
        })?;
    }
    Ok(BlockLayout {
        bytes: bytes(alloc, text)?,
        parts: Sequence::of_vec(parts),
    })
}
