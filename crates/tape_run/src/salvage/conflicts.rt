//! Copies of one section that contradict each other, and sections whose labels are not of one file.

ghost use Rattle.std.specs.Prelude.{◌≡◌, ◌||◌, ℕ, Bool, List, IfOk, OnOk, OnErr};
ghost use Rattle.std.specs.Io.KnownBytes.{Appends};
ghost use Rattle.tape_image.specs.Written.{AppendsFront};
ghost use Rattle.tape_run.specs.SalvageChoice.{last_section};
ghost use Rattle.tape_run.specs.SalvageConflicts.{AreConflicts, are_conflicting, conflict_text};
ghost use Rattle.tape_run.specs.SalvageConflicts.{has_conflict, text_if, are_unlike, end_alike};
ghost use Rattle.tape_run.specs.SalvageConflicts.{is_counted, have_same_blocks, is_digested};
ghost use Rattle.tape_run.specs.SalvageConflicts.{as_read};
ghost use Rattle.tape_run.specs.SalvageLabels.{are_of_one_file, are_same_forms, have_same_form};
ghost use Rattle.tape_run.specs.SalvageLabels.{form_read, is_form_of, has_other, labels_text};
ghost use Rattle.tape_run.specs.SalvageLabels.{are_other_labels, are_other_forms, is_named_copy};

use crate::fault::WriteFailed;
use crate::salvage::copies::{SectionCopy, best_copy, form_of_file, last_section};
use crate::salvage::walk::{Closing, OpenSection};
use crate::text::write_line;
use std::io::Write;
use tape_core::Known;

/// Returns whether the HDR1 of two copies of a section say different things: they are not copies of
/// one recording.
pub fn are_other_labels(best: &SectionCopy, copy: &SectionCopy) -> bool
    ensures { result ≡ are_other_labels best.now copy.now }
{
    best.section.file_id.bytes() != copy.section.file_id.bytes()
        || best.section.created.bytes() != copy.section.created.bytes()
        || best.section.generation.bytes() != copy.section.generation.bytes()
}

/// Returns whether both closed, and the file ends with both of them or with none.
pub fn end_alike(one: &Option<Closing>, other: &Option<Closing>) -> bool
    ensures { result ≡ end_alike one.now other.now }
{
    match (one, other) {
        (Some(one), Some(other)) => one.eof == other.eof,
        _ => false,
    }
}

/// Returns whether the trailer label of a copy was read, and counts its blocks.
fn is_counted(copy: &SectionCopy) -> bool
    ensures { result ≡ is_counted copy.now }
{
    copy.closed.is_some() && copy.wrong_count().is_none()
}

/// Returns whether the digest of a copy is that of all its blocks: each could be read, and so could
/// its HDR1.
fn is_digested(copy: &SectionCopy) -> bool
    ensures { result ≡ is_digested copy.now }
{
    copy.section.unreadable == 0 && copy.skip.is_none()
}

/// Returns whether both copies have equally many blocks and, if the digests of both are those of
/// all, the same ones.
fn have_same_blocks(best: &SectionCopy, copy: &SectionCopy) -> bool
    ensures { result ≡ have_same_blocks best.now copy.now }
{
    let are_digested = is_digested(best) && is_digested(copy);
    copy.section.blocks == best.section.blocks
        && (!are_digested || copy.section.digest == best.section.digest)
}

/// Returns whether the trailer labels of both copies count their blocks, but they have different
/// ones, or the file ends with one of the two and continues after the other.
fn are_unlike(best: &SectionCopy, copy: &SectionCopy) -> bool
    ensures { result ≡ are_unlike best.now copy.now }
{
    let alike = have_same_blocks(best, copy) && end_alike(&best.closed, &copy.closed);
    is_counted(best) && is_counted(copy) && !alike
}

/// Returns whether the forms of both copies are recorded, and differ.
pub fn are_other_forms(one: &Option<Known>, other: &Option<Known>) -> bool
    ensures { result ≡ are_other_forms one.now other.now }
{
    match (one, other) {
        (Some(one), Some(other)) => !are_same_forms(one, other),
        _ => false,
    }
}

/// Returns whether both are copies of one section, but contradict each other: both count their
/// blocks and have different ones or end otherwise, or their HDR1 or their recorded forms differ.
fn are_conflicting(best: &SectionCopy, copy: &SectionCopy) -> bool
    ensures { result ≡ are_conflicting best.now copy.now }
{
    copy.section.key.sect == best.section.key.sect
        && (are_unlike(best, copy)
            || are_other_labels(best, copy)
            || are_other_forms(&best.section.form, &copy.section.form))
}

/// Reports a copy if it contradicts the best copy of its section. Returns whether it does, or a
/// copy before it did.
fn report_copy<P: Write>(
    best: &SectionCopy,
    copy: &SectionCopy,
    any: bool,
    report: &mut P,
) -> Result<bool, WriteFailed>
    ensures any { IfOk result
        (λ now. now ≡ (are_conflicting best.now copy.now || any)) }
    ensures text { OnOk result (Appends (P.contents report.old) (P.contents report.new)
        (text_if (are_conflicting best.now copy.now) best.now copy.now)) }
    ensures front { OnErr result (AppendsFront (P.contents report.old) (P.contents report.new)
        (text_if (are_conflicting best.now copy.now) best.now copy.now)) }
{
    if !are_conflicting(best, copy) {
        return Ok(any);
    }
    let sect = copy.section.key.sect;
    let used = best.image.saturating_add(1);
    let other = copy.image.saturating_add(1);
    write_line(report, &format_args!("CONFLICT {sect} {used} {other}\n"))?;
    Ok(true)
}

/// Reports the copies of a section that contradict its best copy, if it has one. Returns whether
/// there are any, or `any`.
fn report_section<P: Write>(
    copies: &[SectionCopy],
    best: &Option<SectionCopy>,
    any: bool,
    report: &mut P,
) -> Result<bool, WriteFailed>
    ensures any { IfOk result (λ now. now ≡ (has_conflict best.now copies.now || any)) }
    ensures text { OnOk result (Appends (P.contents report.old) (P.contents report.new)
        (conflict_text best.now copies.now)) }
    ensures front { OnErr result (AppendsFront (P.contents report.old) (P.contents report.new)
        (conflict_text best.now copies.now)) }
{
    let Some(best) = best else {
        return Ok(any);
    };
    let mut any = any;
    for copy in copies {
        any = report_copy(best, copy, any, report)?;
    }
    Ok(any)
}

/// Returns the form in which a copy is read: its own, otherwise that of the file.
fn form_read(known: &Option<Known>, copy: &SectionCopy) -> Option<Known>
    ensures { result ≡ form_read known.now copy.now }
{
    copy.section.form.or(*known)
}

/// Returns the best copy of a section with the form in which it is read.
fn as_read(known: &Option<Known>, best: &Option<SectionCopy>) -> Option<SectionCopy>
    ensures { result ≡ as_read known.now best.now }
{
    match best {
        None => None,
        Some(copy) => {
            let form = form_read(known, copy);
            let section = OpenSection {
                form,
                ..copy.section
            };
            Some(SectionCopy { section, ..*copy })
        }
    }
}

/// Returns whether blocks of both forms contain records in the same way.
fn are_same_forms(one: &Known, other: &Known) -> bool
    ensures { result ≡ are_same_forms one.now other.now }
{
    one.format.letter() == other.format.letter()
        && one.rec_len == other.rec_len
        && one.offset == other.offset
}

/// Returns whether both have the same form, or both have none.
fn have_same_form(one: &Option<Known>, other: &Option<Known>) -> bool
    ensures { result ≡ have_same_form one.now other.now }
{
    match (one, other) {
        (None, None) => true,
        (Some(one), Some(other)) => are_same_forms(one, other),
        _ => false,
    }
}

/// Returns whether the form in which a copy is read is recorded in labels with its own file
/// identifier.
fn is_form_of(copy: &SectionCopy, form: &Option<Known>) -> bool
    ensures { result ≡ is_form_of copy.now.section.file_id form.now }
{
    match form {
        None => true,
        Some(form) => form.file_id.bytes() == copy.section.file_id.bytes(),
    }
}

/// Returns whether its trailer label, if it has one, names the file of its HDR1.
pub fn is_named(copy: &SectionCopy) -> bool
    ensures { result ≡ is_named_copy copy.now }
{
    match copy.closed {
        None => true,
        Some(closed) => closed.named,
    }
}

/// Returns whether copies of two sections have the labels of one file: one file identifier, and one
/// form; and the trailer label of `copy` names the file of its HDR1.
fn are_of_one_file(known: &Option<Known>, first: &SectionCopy, copy: &SectionCopy) -> bool
    ensures { result ≡ are_of_one_file known.now first.now copy.now }
{
    let form = form_read(known, copy);
    is_named(copy)
        && copy.section.file_id.bytes() == first.section.file_id.bytes()
        && is_form_of(copy, &form)
        && have_same_form(&form_read(known, first), &form)
}

/// Reports the best copy of a section if its labels are not those of the file that begins with
/// `first`. Returns whether they are not, or `any`.
fn report_labels<P: Write>(
    known: &Option<Known>,
    first: &Option<SectionCopy>,
    best: &Option<SectionCopy>,
    any: bool,
    report: &mut P,
) -> Result<bool, WriteFailed>
    ensures any { IfOk result (λ now. now ≡ (has_other known.now first.now best.now || any)) }
    ensures text { OnOk result (Appends (P.contents report.old) (P.contents report.new)
        (labels_text known.now first.now best.now)) }
    ensures front { OnErr result (AppendsFront (P.contents report.old) (P.contents report.new)
        (labels_text known.now first.now best.now)) }
{
    let (Some(first), Some(best)) = (first, best) else {
        return Ok(any);
    };
    if are_of_one_file(known, first, best) {
        return Ok(any);
    }
    let sect = best.section.key.sect;
    let used = best.image.saturating_add(1);
    let other = first.image.saturating_add(1);
    write_line(
        report,
        &format_args!("LABELS DIFFER {sect} {used} {other}\n"),
    )?;
    Ok(true)
}

/// Reports the copies of each section that contradict the one that is used, in the form in which it
/// is read, and each section whose labels are not of the same file as those of the first section
/// that was found. Returns whether there are any.
///
/// # Errors
///
/// `WriteFailed` if the report can't be written. Then it got a prefix of these lines.
pub fn report_conflicts<P: Write>(
    copies: &[SectionCopy],
    report: &mut P,
) -> Result<bool, WriteFailed>
    ensures ok { IfOk result (λ any. (text : List ℕ)
        × AreConflicts copies.now (last_section copies.now) text any
        × Appends (P.contents report.old) (P.contents report.new) text) }
    ensures front { OnErr result ((text : List ℕ) × (any : Bool)
        × AreConflicts copies.now (last_section copies.now) text any
        × AppendsFront (P.contents report.old) (P.contents report.new) text) }
{
    let last = last_section(copies);
    let known = form_of_file(copies);
    let mut any = false;
    let mut first = None;
    for before in 0..last {
        let best = best_copy(copies, before + 1);
        first = first.or(best);
        any = report_section(copies, &as_read(&known, &best), any, report)?;
        any = report_labels(&known, &first, &best, any, report)?;
    }
    Ok(any)
}
