//! Whether the blocks of sections are in the format that their second labels state.
ghost use Rattle.std.specs.{Result.IsOkUnless, Prelude.◌≡◌, Prelude.OnOk};
ghost use Rattle.std.specs.Map.{lookup};
ghost use Rattle.tape_image.specs.Reader.{tape_item};
ghost use Rattle.tape_run.specs.SurveyFiles.{same_file, with_blocks, with_blocks_of, with_fit};
ghost use Rattle.tape_run.specs.SurveyFiles.{any_misfit, flaw_of, flaw_section};
ghost use Rattle.tape_run.specs.SurveyFits.{end_of, end_at, either_end, form_at, fit_from};
ghost use Rattle.tape_run.specs.SurveyFits.{with_block, fit_in, misfit_of, misfit_in};
ghost use Rattle.tape_run.specs.declared.fault.RunFault.TheVariants as faults;

use super::files::{FileKey, FileNote, FileNotes, Files, file_of, is_unclear};
use super::padding::{Padding, padding_after, padding_in, padding_left_out};
use crate::fault::RunFault;
use crate::met::{Met, Told};
use crate::passing::Phase;
use crate::section::{Entry, SectionState};
use tape_blocks::{Shape, check_block, content};
use tape_image::Item;
use tape_label::{Format, Head2, Kind, absent_head2, is_further_header, kind, read_wide_head2};

/// What is known of the blocks of the section that is being read.
#[derive(Clone, Copy)]
pub(crate) struct Fit {
    /// The second label of the section, that of format U if it has none; `None` if it is not
    /// supported.
    pub(crate) form: Option<Head2>,
    /// Whether a record is unfinished. That is not known in a later section of a file before its
    /// first record.
    pub(crate) begun: Option<bool>,
    /// The number of the first block that is not in this format, counted from 0.
    pub(crate) misfit: Option<u32>,
    /// The padding of the blocks so far, if they have any.
    pub(crate) padding: Option<Padding>,
}

/// How a block in the format of its second label ends.
#[derive(Clone, Copy)]
pub(crate) struct BlockEnd {
    /// Whether a record is unfinished, if that is known.
    pub(crate) begun: Option<bool>,
    /// Whether padding of NULs or spaces was left out.
    pub(crate) padded: bool,
}

/// A block of a complete section that is not in the format that the second label states.
#[derive(Clone, Copy)]
pub struct Misfit {
    /// The number of the section in its file.
    pub sect: u16,
    /// The number of the block in the section, counted from 0.
    pub block: u32,
}

/// The reason why a file is not readable although all its sections are complete.
#[derive(Clone, Copy)]
pub(crate) enum Flaw {
    /// Its second header label is lost on each image.
    Lost,
    /// Its second header label is not supported.
    Unsupported,
    /// A block is not in the format that the second label states.
    Misfits(Misfit),
}

/// Returns how a block ends in the wider reading if a record is unfinished before it or not; `None`
/// if the block is not in this format.
fn end_of(form: &Head2, begun: bool, block: &[u8]) -> Option<BlockEnd>
    ensures { result ≡ end_of form.now begun block.now }
{
    if let (Format::Fixed, 0) = (form.format, form.rec_len) {
        return None;
    }
    let shape = Shape::of(form);
    if let Ok(end) = check_block(&shape, begun, block) {
        return Some(BlockEnd {
            begun: Some(end),
            padded: false,
        });
    }
    match check_block(&shape, begun, content(&shape, block)) {
        Ok(end) => Some(BlockEnd {
            begun: Some(end),
            padded: true,
        }),
        Err(_) => None,
    }
}

/// Returns how a block ends by what follows from each possible beginning.
fn either_end(whole: Option<BlockEnd>, begun: Option<BlockEnd>) -> Option<BlockEnd>
    ensures { result ≡ either_end whole begun }
{
    match (whole, begun) {
        (None, None) => None,
        (Some(whole), Some(begun)) => Some(BlockEnd {
            begun: None,
            padded: whole.padded && begun.padded,
        }),
        (Some(end), None) => Some(end),
        (None, Some(end)) => Some(end),
    }
}

/// Returns how a block ends, or `None` if it is not in this format. `begun` says whether a record
/// is unfinished before it, if that is known.
fn end_at(form: &Head2, begun: Option<bool>, block: &[u8]) -> Option<BlockEnd>
    ensures { result ≡ end_at form.now begun block.now }
{
    let Some(begun) = begun else {
        return either_end(end_of(form, false, block), end_of(form, true, block));
    };
    end_of(form, begun, block)
}

/// Returns the second label of a section, if the item after its first label says how its blocks are
/// to be read.
fn form_at(item: Item<'_>) -> Option<Head2>
    ensures { result ≡ form_at (tape_item item.entry) }
{
    match item {
        Item::Mark => Some(absent_head2()),
        Item::Block(bytes) => match (kind(bytes), read_wide_head2(bytes)) {
            (Some(Kind::Hdr2), Ok(form)) => Some(form),
            _ if is_further_header(bytes) => Some(absent_head2()),
            _ => None,
        },
        Item::Bad => None,
    }
}

/// Returns what is known of a section before its blocks. `item` follows its first label.
fn fit_from(met: &Met, item: Item<'_>) -> Fit
    ensures { result ≡ fit_from met.now (tape_item item.entry) }
{
    let begun = if met.key.sect == 1 { Some(false) } else { None };
    Fit {
        form: form_at(item),
        begun,
        misfit: None,
        padding: None,
    }
}

/// Returns what is known after data block number `number`.
fn with_block(fit: Fit, number: u32, block: &[u8]) -> Fit
    ensures { result ≡ with_block fit number block.now }
{
    let (Some(form), None) = (fit.form, fit.misfit) else {
        return fit;
    };
    match end_at(&form, fit.begun, block) {
        Some(end) => Fit {
            begun: end.begun,
            padding: padding_after(fit.padding, end.padded, &form, block),
            ..fit
        },
        None => Fit {
            misfit: Some(number),
            ..fit
        },
    }
}

/// Returns what is known of the section that is being read, after one more item.
fn fit_in(fit: Fit, phase: &Phase, item: Item<'_>) -> Fit
    ensures { result ≡ fit_in fit phase.now (tape_item item.entry) }
{
    match (phase, item) {
        (Phase::Second(met), item) => fit_from(met, item),
        (Phase::Data(met), Item::Block(bytes)) => with_block(fit, met.blocks, bytes),
        _ => fit,
    }
}

/// Returns the block of a section that is not in the format stated. It is the last one if the file
/// ends in a record.
fn misfit_of(fit: &Fit, entry: &Entry) -> Option<u32>
    ensures { result ≡ misfit_of fit.now entry.now }
{
    match (fit.misfit, fit.begun) {
        (None, Some(true)) if entry.eof => Some(entry.blocks.saturating_sub(1)),
        (misfit, _) => misfit,
    }
}

/// Returns the same block, with the number of its section.
fn misfit_in(sect: u16, block: Option<u32>) -> Option<Misfit>
    ensures { result ≡ misfit_in sect block }
{
    match block {
        Some(block) => Some(Misfit { sect, block }),
        None => None,
    }
}

/// Records that a block of a section is not in its format, and its padding, if it is so; what was
/// recorded of the file before is kept.
fn note_blocks_of(
    notes: &mut FileNotes,
    key: FileKey,
    misfit: Option<Misfit>,
    padding: Option<Padding>,
) -> Result<(), RunFault>
    ensures fault { IsOkUnless result faults.OutOfMemory }
    ensures ok { OnOk result (notes.new.entries ≡ with_blocks_of notes.old.entries key
        (lookup (same_file key) notes.old.entries) misfit padding) }
{
    let Some(note) = notes.get(&key).copied() else {
        return Ok(());
    };
    let note = FileNote {
        misfit: note.misfit.or(misfit),
        padding: note.padding.or(padding),
        ..note
    };
    notes.insert(key, note)?;
    Ok(())
}

/// Records the first block of the section that was completed that is not in its format, and its
/// padding, if the section is complete. Of a section with unreadable blocks, only the padding that
/// is left out of the others is recorded.
fn note_blocks(notes: &mut FileNotes, told: Option<Told>, fit: &Fit) -> Result<(), RunFault>
    ensures fault { IsOkUnless result faults.OutOfMemory }
    ensures ok { OnOk result (notes.new.entries ≡ with_blocks notes.old.entries told fit.now) }
{
    let Some((key, entry)) = told else {
        return Ok(());
    };
    match entry.state {
        SectionState::Good => {
            let misfit = misfit_in(key.sect, misfit_of(fit, &entry));
            note_blocks_of(notes, file_of(&key), misfit, padding_in(fit, &entry))
        }
        SectionState::Bad => note_blocks_of(notes, file_of(&key), None, padding_left_out(fit)),
        SectionState::Count | SectionState::Cut => Ok(()),
    }
}

/// Records what an item says about the blocks of sections, and about the section that it completes,
/// if any.
pub(crate) fn note_fit(
    files: &mut Files,
    phase: &Phase,
    item: Item<'_>,
    told: Option<Told>,
) -> Result<(), RunFault>
    ensures fault { IsOkUnless result faults.OutOfMemory }
    ensures ok { OnOk result (files.new
        ≡ with_fit files.old phase.now (tape_item item.entry) told) }
{
    files.fit = fit_in(files.fit, phase, item);
    note_blocks(&mut files.notes, told, &files.fit)
}

/// Returns whether a block of a complete section of any file is not in its format.
pub(crate) fn any_misfit(files: &FileNotes) -> bool
    ensures { result ≡ any_misfit files.now.entries }
{
    for (_, note) in files {
        if note.misfit.is_some() {
            return true;
        }
    }
    false
}

/// Returns the reason why a file is not readable although all its sections are complete, if there
/// is one.
pub(crate) fn flaw_of(note: &FileNote) -> Option<Flaw>
    ensures { result ≡ flaw_of note.now }
{
    if is_unclear(note) {
        return Some(Flaw::Lost);
    }
    match note.misfit {
        Some(misfit) => Some(Flaw::Misfits(misfit)),
        None if note.absent || note.form.is_some() => None,
        None => Some(Flaw::Unsupported),
    }
}

impl Flaw {
    /// Returns the number of the section that cannot be read.
    pub(crate) fn section(&self) -> u16
        ensures { result ≡ flaw_section self.now }
    {
        match self {
            Flaw::Lost | Flaw::Unsupported => 1,
            Flaw::Misfits(misfit) => misfit.sect,
        }
    }
}
