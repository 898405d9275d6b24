//! The contents of a volume of a layout: the definition as a plain program, for testing faster
//! readers and writers.

ghost use Rattle.std.specs.Prelude.{◌≡◌, ◌++◌, ℕ, [], ◌∷◌, map, IfOk};
ghost use Rattle.std.specs.Option.{option_copied};
ghost use Rattle.tape_set.specs.Layout.{nth, group_of, a_label, a_mark, item_of, numbered};
ghost use Rattle.tape_set.specs.Layout.{all_numbered, on, all_entries, entries_on, volume_group};
ghost use Rattle.tape_set.specs.Layout.{section_entries, header_group, data_group, trailer_group};
ghost use Rattle.tape_set.specs.Layout.{entries, items};
ghost use Rattle.tape_set.specs.Reach.{before_data};
ghost use Rattle.tape_set_tests.specs.Contents.{entries_told};

use crate::list::{copied, first, nth};
use std::alloc::{AllocError, Global};
use tape_set::{BlockLayout, FileLayout, Layout, SectionLayout, Sequence, VolumeLayout};

/// One entry of a volume.
#[derive(Debug, Drop)]
pub enum EntryLayout {
    /// A block other than a data block: a label, or another block among labels.
    Label(Sequence<u8>),
    /// A data block.
    DataBlock(Sequence<u8>),
    /// A tape mark.
    Mark,
}

/// Returns the contents of volume number `volume`, counted from 1, in order (ECMA-13, 4th edition:
/// labels and tape marks on a volume): its labels, then each section on it with its labels, data
/// blocks and marks, and a second mark at the end. Returns an empty list if the layout has no such
/// volume.
///
/// # Errors
///
/// Returns `AllocError` if an allocation fails.
pub fn entries(
    alloc: Global,
    layout: &Layout,
    volume: usize,
) -> Result<Vec<EntryLayout>, AllocError>
    ensures entries { IfOk result (λ v. entries_told v.items ≡ entries layout.now volume) }
    ensures items { IfOk result (λ v.
        map item_of (entries_told v.items) ≡ items layout.now volume) }
{
    let mut entries = Vec::new(alloc);
    if let Some(labels) = nth(layout.volumes.as_slice(), volume) {
        let files = layout.files.as_slice();
        put_volume(alloc, &mut entries, labels, files, volume)?;
    }
    Ok(entries)
}

/// Returns the entries of the section's volume that precede the section's data; `own` is the file
/// of the section.
///
/// # Errors
///
/// Returns `AllocError` if an allocation fails.
pub fn before_data(
    alloc: Global,
    layout: &Layout,
    file: u16,
    sect: u16,
    own: &FileLayout,
    section: &SectionLayout,
) -> Result<Vec<EntryLayout>, AllocError>
    requires own { nth layout.now.files file ≡ Some own.now }
    requires section { nth own.now sect ≡ Some section.now }
    ensures { IfOk result (λ v.
        entries_told v.items ≡ before_data layout.now file sect section.now) }
{
    let mut entries = Vec::new(alloc);
    let volume = section.volume;
    put_labels_of(alloc, &mut entries, nth(layout.volumes.as_slice(), volume))?;
    let files = first(layout.files.as_slice(), usize::from(file).saturating_sub(1));
    put_files(alloc, &mut entries, files, volume)?;
    let sections = first(own.sections.as_slice(), usize::from(sect).saturating_sub(1));
    put_sections(alloc, &mut entries, sections, volume)?;
    put_headers(alloc, &mut entries, section)?;
    Ok(entries)
}

/// Appends the start of a volume, if it exists.
fn put_labels_of(
    alloc: Global,
    entries: &mut Vec<EntryLayout>,
    volume: Option<&VolumeLayout>,
) -> Result<(), AllocError>
    ensures { IfOk result (λ _. entries_told entries.new.items
        ≡ entries_told entries.old.items ++ group_of (option_copied volume.entry)) }
{
    match volume {
        Some(labels) => put_volume_labels(alloc, entries, labels),
        None => Ok(()),
    }
}

/// Appends volume `volume`, with the labels `labels`, of a set with the files `files`.
fn put_volume(
    alloc: Global,
    entries: &mut Vec<EntryLayout>,
    labels: &VolumeLayout,
    files: &[FileLayout],
    volume: usize,
) -> Result<(), AllocError>
    ensures { IfOk result (λ _. entries_told entries.new.items ≡ entries_told entries.old.items
        ++ entries_on (Some labels.now) volume (all_numbered 1 files.now)) }
{
    put_volume_labels(alloc, entries, labels)?;
    put_files(alloc, entries, files, volume)?;
    put_mark(entries)
}

/// Appends the start of a volume.
fn put_volume_labels(
    alloc: Global,
    entries: &mut Vec<EntryLayout>,
    labels: &VolumeLayout,
) -> Result<(), AllocError>
    ensures { IfOk result (λ _. entries_told entries.new.items
        ≡ entries_told entries.old.items ++ volume_group labels.now) }
{
    put_label(alloc, entries, labels.vol1.as_slice())?;
    put_labels(alloc, entries, labels.labels.as_slice())
}

/// Appends the sections on the volume, file by file.
fn put_files(
    alloc: Global,
    entries: &mut Vec<EntryLayout>,
    files: &[FileLayout],
    volume: usize,
) -> Result<(), AllocError>
    ensures { IfOk result (λ _. entries_told entries.new.items
        ≡ entries_told entries.old.items ++ all_entries (on volume (all_numbered 1 files.now))) }
{
    for file in files {
        put_sections(alloc, entries, file.sections.as_slice(), volume)?;
    }
    Ok(())
}

/// Appends the sections of a file that are on the volume.
fn put_sections(
    alloc: Global,
    entries: &mut Vec<EntryLayout>,
    sections: &[SectionLayout],
    volume: usize,
) -> Result<(), AllocError>
    ensures { (file : ℕ) → IfOk result (λ _. entries_told entries.new.items
        ≡ entries_told entries.old.items
        ++ all_entries (on volume (numbered file 1 sections.now))) }
{
    for section in sections {
        if section.volume == volume {
            put_section(alloc, entries, section)?;
        }
    }
    Ok(())
}

/// Appends a section, from its first label to the mark after its last label.
fn put_section(
    alloc: Global,
    entries: &mut Vec<EntryLayout>,
    section: &SectionLayout,
) -> Result<(), AllocError>
    ensures { IfOk result (λ _. entries_told entries.new.items
        ≡ entries_told entries.old.items ++ section_entries section.now) }
{
    put_headers(alloc, entries, section)?;
    put_data(alloc, entries, section.blocks.as_slice())?;
    put_trailers(alloc, entries, section)
}

/// Appends the start of a section, up to its data.
fn put_headers(
    alloc: Global,
    entries: &mut Vec<EntryLayout>,
    section: &SectionLayout,
) -> Result<(), AllocError>
    ensures { IfOk result (λ _. entries_told entries.new.items
        ≡ entries_told entries.old.items ++ header_group section.now) }
{
    put_label(alloc, entries, section.hdr1.as_slice())?;
    put_label(alloc, entries, section.hdr2.as_slice())?;
    put_labels(alloc, entries, section.headers.as_slice())?;
    put_mark(entries)
}

/// Appends the end of a section, after its data.
fn put_trailers(
    alloc: Global,
    entries: &mut Vec<EntryLayout>,
    section: &SectionLayout,
) -> Result<(), AllocError>
    ensures { IfOk result (λ _. entries_told entries.new.items
        ≡ entries_told entries.old.items ++ trailer_group section.now) }
{
    put_mark(entries)?;
    put_label(alloc, entries, section.trailer.as_slice())?;
    put_labels(alloc, entries, section.trailers.as_slice())?;
    put_mark(entries)
}

/// Appends the data blocks of a section.
fn put_data(
    alloc: Global,
    entries: &mut Vec<EntryLayout>,
    blocks: &[BlockLayout],
) -> Result<(), AllocError>
    ensures { IfOk result (λ _. entries_told entries.new.items
        ≡ entries_told entries.old.items ++ data_group blocks.now) }
{
    for data in blocks {
        let copy = copied(alloc, data.bytes.as_slice())?;
        entries.push(EntryLayout::DataBlock(copy))?;
    }
    Ok(())
}

/// Appends labels, one after another.
pub fn put_labels(
    alloc: Global,
    entries: &mut Vec<EntryLayout>,
    labels: &[Sequence<u8>],
) -> Result<(), AllocError>
    ensures { IfOk result (λ _. entries_told entries.new.items
        ≡ entries_told entries.old.items ++ map a_label labels.now) }
{
    for label in labels {
        put_label(alloc, entries, label.as_slice())?;
    }
    Ok(())
}

/// Appends a label.
fn put_label(alloc: Global, entries: &mut Vec<EntryLayout>, bytes: &[u8]) -> Result<(), AllocError>
    ensures { IfOk result (λ _. entries_told entries.new.items
        ≡ entries_told entries.old.items ++ a_label bytes.now ∷ []) }
{
    Ok(entries.push(EntryLayout::Label(copied(alloc, bytes)?))?)
}

/// Appends a tape mark.
fn put_mark(entries: &mut Vec<EntryLayout>) -> Result<(), AllocError>
    ensures { IfOk result (λ _. entries_told entries.new.items
        ≡ entries_told entries.old.items ++ a_mark ∷ []) }
{
    Ok(entries.push(EntryLayout::Mark)?)
}
