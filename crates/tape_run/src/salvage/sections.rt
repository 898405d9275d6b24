//! The sections of a file, each recovered from its best copy.

ghost use Rattle.std.specs.Prelude.{◌≡◌, true, Some, ℕ, List, OnOk, OnErr, IfOk, IfErr};
ghost use Rattle.tape_image.specs.Reader.{going};
ghost use Rattle.tape_run.specs.Checked.{IsCheckFault};
ghost use Rattle.tape_run.specs.SalvageTaking.{form_for, has_form, TakesSection, TakesCopy};
ghost use Rattle.tape_run.specs.SalvageBlocks.{Salvaged, ReportsFront};
ghost use Rattle.tape_run.specs.SalvageTaking.{TakesFile, StopsTaking, StopsSection, StopsCopy};
ghost use Rattle.tape_run.specs.declared.salvage.ending.SectionEnd.TheVariants.{FileEnds};

use crate::extract::images::ImageSource;
use crate::fault::{EngineFault, NO_MEMORY};
use crate::salvage::Content;
use crate::salvage::copies::{SectionCopy, best_copy, form_of_file, last_section};
use crate::salvage::ending::SectionEnd;
use crate::salvage::image::recover_section;
use crate::salvage::recovery::Recovery;
use crate::text::write_line;
use std::alloc::Global;
use std::io::{Read, Write};
use tape_core::Known;
use tape_image::ImageReader;

/// Recovers the sections of a file one after another, each from its best copy.
///
/// # Errors
///
/// `Run(OutOfMemory)`; `WriteFailed` if a record or the report can't be written.
pub fn recover_sections<W: Write, R: Read + Drop, L: ImageSource<R>, P: Write>(
    alloc: Global,
    copies: &[SectionCopy],
    content: Content,
    images: &mut L,
    recovery: &mut Recovery<W>,
    report: &mut P,
) -> Result<(), EngineFault>
    ensures ok { OnOk result (TakesFile W.contents L.gives R.remaining copies.now content images.old
        images.new recovery.old recovery.new (P.contents report.old) (P.contents report.new)) }
    ensures front { OnErr result ((lines : Salvaged → List ℕ) × StopsTaking L.gives R.remaining
        copies.now content images.old images.new lines × ReportsFront W.contents recovery.old
        (P.contents report.old) (P.contents report.new) lines) }
    ensures fault { IfErr result IsCheckFault }
{
    let form = form_of_file(copies);
    let last = last_section(copies);
    let mut end = SectionEnd::Continues;
    for before in 0..last {
        let sect = before + 1;
        end = recover(
            alloc, copies, content, sect, &form, images, recovery, report,
        )?;
        if end.ends_file() {
            return Ok(());
        }
    }
    match end {
        SectionEnd::Continues => Ok(recovery.miss_section(last.saturating_add(1), report)?),
        SectionEnd::FileEnds | SectionEnd::Unknown => Ok(()),
    }
}

/// Returns the form in which a section's blocks are read: the section's own, otherwise that of the
/// file.
fn form_for(content: Content, own: Option<Known>, known: Option<Known>) -> Option<Known>
    ensures { result ≡ form_for content own known }
{
    match content {
        Content::Blocks => None,
        Content::Records if own.is_some() => own,
        Content::Records => known,
    }
}

/// Returns whether blocks can be read in this form. Blocks that are copied unchanged need no form.
fn has_form(content: Content, form: &Option<Known>) -> bool
    ensures { result ≡ has_form content form.now }
{
    match content {
        Content::Blocks => true,
        Content::Records => form.is_some(),
    }
}

/// Recovers a section, and returns how it ended.
fn recover<W: Write, R: Read + Drop, L: ImageSource<R>, P: Write>(
    alloc: Global,
    copies: &[SectionCopy],
    content: Content,
    sect: u16,
    known: &Option<Known>,
    images: &mut L,
    recovery: &mut Recovery<W>,
    report: &mut P,
) -> Result<SectionEnd, EngineFault>
    ensures ok { IfOk result (TakesSection W.contents L.gives R.remaining copies.now content
        known.now sect images.old images.new recovery.old recovery.new (P.contents report.old)
        (P.contents report.new)) }
    ensures front { OnErr result ((lines : Salvaged → List ℕ) × StopsSection L.gives R.remaining
        copies.now content known.now sect images.old images.new lines × ReportsFront W.contents
        recovery.old (P.contents report.old) (P.contents report.new) lines) }
    ensures fault { IfErr result IsCheckFault }
{
    let Some(copy) = best_copy(copies, sect) else {
        recovery.miss_section(sect, report)?;
        return Ok(SectionEnd::Unknown);
    };
    let section = copy.section;
    let form = form_for(content, section.form, *known);
    if !has_form(content, &form) {
        recovery.miss_form(sect, report)?;
        return Ok(SectionEnd::Unknown);
    }
    let Ok(image) = images.mount(copy.image) else {
        return Err(NO_MEMORY);
    };
    let Some(mut device) = image else {
        recovery.miss_section(sect, report)?;
        return Ok(SectionEnd::Unknown);
    };
    let Ok(mut reader) = ImageReader::new(alloc, &mut device) else {
        return Err(NO_MEMORY);
    };
    recover_copy(&mut reader, &copy, sect, &form, recovery, report)
}

/// Recovers a section from its copy on an unread image.
fn recover_copy<W: Write, R: Read, P: Write>(
    image: &mut ImageReader<'_, R>,
    copy: &SectionCopy,
    sect: u16,
    form: &Option<Known>,
    recovery: &mut Recovery<W>,
    report: &mut P,
) -> Result<SectionEnd, EngineFault>
    requires going { image.old.status ≡ going }
    requires first { image.old.place ≡ 0 }
    ensures ok { IfOk result (TakesCopy W.contents image.old.left copy.now sect form.now
        recovery.old recovery.new (P.contents report.old) (P.contents report.new)) }
    ensures front { OnErr result ((lines : Salvaged → List ℕ) × StopsCopy image.old.left sect
        copy.now form.now lines × ReportsFront W.contents recovery.old (P.contents report.old)
        (P.contents report.new) lines) }
    ensures fault { IfErr result IsCheckFault }
{
    let (number, blocks) = (copy.image.saturating_add(1), copy.section.blocks);
    write_line(report, &format_args!("SECTION {sect} {number} {blocks}\n"))?;
    let key = copy.section.key;
    let read = recover_section(
        image,
        copy.start(),
        &key,
        copy.believed(),
        form,
        recovery,
        report,
    )?;
    let end = recovery.end_section(copy, read, report)?;
    Ok(end)
}
