//! `salvage`: recovers the readable parts of a file that no image has completely.

ghost use Rattle.std.specs.Prelude.{◌≡◌, ◌<◌, ◌⊎◌, ◌&&◌, not, Bool, Option, Some, List, ℕ, OnOk};
ghost use Rattle.std.specs.Prelude.{option_map, OnErr, IfOk, IfErr, if◌then◌else◌, codes};
ghost use Rattle.std.specs.Io.KnownBytes.{Appends};
ghost use Rattle.tape_run.specs.{Checked.IsCheckFault, SalvageLine.stopped_line};
ghost use Rattle.tape_run.specs.SalvageJoined.{SalvagesJoined, FailsJoined};
ghost use Rattle.tape_run.specs.Salvaging.{FindsOn, FindsAll, Salvages, StopsSalvage};
ghost use Rattle.tape_image.specs.Written.{AppendsFront};

mod aligned;
mod answer;
mod conflicts;
mod copies;
mod doubts;
mod ending;
mod fill;
mod front;
mod image;
mod joinable;
pub(crate) mod joined;
mod joining;
mod labels;
mod mender;
mod outside;
mod recovery;
mod second;
mod sections;
mod walk;

use crate::extract::Place;
use crate::extract::images::ImageSource;
use crate::fault::{EngineFault, NO_MEMORY, WriteFailed};
use crate::salvage::conflicts::report_conflicts;
use crate::salvage::copies::{SectionCopy, copies_on};
use crate::salvage::joined::JoinedImages;
use crate::salvage::joining::find_joins;
use crate::salvage::recovery::Recovery;
use crate::salvage::sections::recover_sections;
use crate::section::ImageStop;
use crate::text::{flush, write_line, write_text};
pub use doubts::{DoubtfulCopy, Doubts, find_doubts};
use std::alloc::Global;
use std::io::{Read, Write};
use tape_blocks::Form;
use tape_label::Field;

/// The form in which blocks are recovered.
#[derive(Clone, Copy)]
pub enum Content {
    /// Its records, in the form that the labels record.
    Records,
    /// The block as it is.
    Blocks,
}

/// The file to be recovered, and the form in which it is written.
#[derive(Clone, Copy)]
pub struct SalvageTask {
    /// The identifier of its set.
    pub set_id: Field<6>,
    /// The file's number in its set.
    pub file: u16,
    /// Whether its records are recovered, or its blocks.
    pub content: Content,
    /// The form in which records or blocks are written.
    pub form: Form,
}

/// Recovers the readable parts of a file from images, writes them to `out`, and reports each gap,
/// each copy of a section that contradicts the one that is used, and each section whose labels are
/// not of the file that begins with the first. Returns whether nothing is missing, no copy
/// contradicts another, and all sections are of one file and have one form. After everything is
/// written, gives `out` its name, and reports the last line.
///
/// Each image is read twice: once to find the copies of the file's sections on it, and again if a
/// section is read from it. Allocates a buffer for one image, a row for each copy of a section, and
/// room for an unfinished record.
///
/// # Errors
///
/// `Run(OutOfMemory)`; `WriteFailed` if `out`, its name or the report failed. Then what has the
/// name is unchanged, and a prefix of the report on what was read was written; or `out` is
/// completely written and has the name, and only the last line could not be reported.
pub fn salvage_to<W: Write + Drop, R: Read + Drop, L: ImageSource<R>, O: Place<W>, P: Write>(
    alloc: Global,
    task: &SalvageTask,
    images: &mut L,
    out: W,
    place: &mut O,
    report: &mut P,
) -> Result<bool, EngineFault>
    ensures ok { IfOk result (λ complete. Salvages W.contents L.size L.gives R.remaining task.now
        out images.old images.new (O.stands place.new) (P.contents report.old)
        (P.contents report.new) complete) }
    // After an error the file with the name is unchanged, and the report got a prefix of the lines
    // about what was read; or everything is written and has the name, and only the rest of the
    // report could not be written.
    ensures err { OnErr result (((O.stands place.new ≡ O.stands place.old)
        × StopsSalvage L.size L.gives R.remaining task.now images.old images.new
        (P.contents report.old) (P.contents report.new))
        ⊎ ((complete : Bool) × (says : Option (List ℕ)) × Salvages W.contents L.size L.gives
        R.remaining task.now out images.old images.new (O.stands place.new) (P.contents report.old)
        says complete × ((rest : List ℕ) × Appends (P.contents report.new) says rest))) }
    ensures fault { IfErr result IsCheckFault }
{
    let copies = find_copies(alloc, task, images, report)?;
    let conflict = report_conflicts(copies.as_slice(), report)?;
    let mut recovery = Recovery::new(alloc, out, task.form);
    recover_sections(
        alloc,
        copies.as_slice(),
        task.content,
        images,
        &mut recovery,
        report,
    )?;
    let complete = is_complete(recovery.missing, conflict);
    let records = recovery.mender.records();
    let mut written = recovery.into_out();
    flush(&mut written)?;
    place.place(written)?;
    let word = last_word(complete);
    write_line(report, &format_args!("{word} {records}\n"))?;
    flush(report)?;
    Ok(complete)
}

/// Recovers the readable parts of a file as `salvage_to` does. Blocks that are unreadable on the
/// image from which a section is read are taken from other images, if copies of the section agree
/// in all blocks that two of them have; these blocks, and copies that do not agree, are reported
/// first. If nothing is reported first, the images are read as they are.
///
/// Each image is read once more, and once more for each section that it may complete.
///
/// # Errors
///
/// As `salvage_to`.
pub fn salvage_joined<W: Write + Drop, R: Read + Drop, L: ImageSource<R>, O: Place<W>, P: Write>(
    alloc: Global,
    task: &SalvageTask,
    images: &mut L,
    out: W,
    place: &mut O,
    report: &mut P,
) -> Result<bool, EngineFault>
    ensures ok { IfOk result (λ complete. SalvagesJoined W.contents L.size L.gives R.remaining
        task.now out images.new (O.stands place.new) (P.contents report.old)
        (P.contents report.new) complete) }
    ensures err { OnErr result (FailsJoined W.contents L.size L.gives R.remaining task.now out
        images.new (O.stands place.old) (O.stands place.new) (P.contents report.old)
        (P.contents report.new)) }
    ensures fault { IfErr result IsCheckFault }
{
    let joins = find_joins(alloc, task, images)?;
    if joins.lines.is_empty() {
        return salvage_to(alloc, task, images, out, place, report);
    }
    write_text(report, joins.lines.as_slice())?;
    let mut joined = JoinedImages::new(alloc, images, joins.fills.as_slice());
    salvage_to(alloc, task, &mut joined, out, place, report)
}

/// Returns whether nothing is missing and no copies differ.
fn is_complete(missing: bool, conflict: bool) -> bool
    ensures { result ≡ (not missing && not conflict) }
{
    !missing && !conflict
}

/// Returns the first word of the last line.
fn last_word(complete: bool) -> &'static str
    ensures { result.now ≡ (if complete then codes "COMPLETE" else codes "SALVAGED") }
{
    if complete { "COMPLETE" } else { "SALVAGED" }
}

/// Finds the copies of the file's sections on the images.
fn find_copies<R: Read + Drop, L: ImageSource<R>, P: Write>(
    alloc: Global,
    task: &SalvageTask,
    images: &mut L,
    report: &mut P,
) -> Result<Vec<SectionCopy>, EngineFault>
    ensures ok { IfOk result (λ copies. FindsAll L.size L.gives R.remaining task.now.set_id
        task.now.file images.old images.new copies.items (P.contents report.old)
        (P.contents report.new)) }
    ensures front { OnErr result (StopsSalvage L.size L.gives R.remaining task.now images.old
        images.new (P.contents report.old) (P.contents report.new)) }
    ensures fault { IfErr result IsCheckFault }
{
    let mut copies = Vec::new(alloc);
    for number in 0..images.count() {
        let Ok(image) = images.mount(number) else {
            return Err(NO_MEMORY);
        };
        find_on(alloc, task, number, image, &mut copies, report)?;
    }
    Ok(copies)
}

/// Finds the copies of the file's sections on an image. Reports an image that could not be opened,
/// or not be read to its end.
fn find_on<R: Read + Drop, P: Write>(
    alloc: Global,
    task: &SalvageTask,
    number: usize,
    image: Option<R>,
    copies: &mut Vec<SectionCopy>,
    report: &mut P,
) -> Result<(), EngineFault>
    requires { number < 18446744073709551615 }
    ensures ok { OnOk result ((text : List ℕ) × FindsOn task.now.set_id task.now.file number
        (option_map R.remaining image) copies.old.items copies.new.items text
        × Appends (P.contents report.old) (P.contents report.new) text) }
    ensures front { OnErr result ((P.contents report.new ≡ P.contents report.old)
        ⊎ ((text : List ℕ) × FindsOn task.now.set_id task.now.file number
        (option_map R.remaining image) copies.old.items copies.new.items text
        × AppendsFront (P.contents report.old) (P.contents report.new) text)) }
    ensures fault { IfErr result IsCheckFault }
{
    match image {
        Some(device) => {
            let mut device = device;
            let stop = copies_on(alloc, &task.set_id, task.file, number, &mut device, copies)?;
            Ok(write_stop(report, number + 1, stop)?)
        }
        None => {
            let number = number + 1;
            write_line(report, &format_args!("IMAGE {number} NOT OPENED\n"))?;
            Ok(())
        }
    }
}

/// Reports that an image could not be read to its end, if it ended with a fault.
fn write_stop<P: Write>(report: &mut P, number: usize, stop: ImageStop) -> Result<(), WriteFailed>
    ensures ok { OnOk result (Appends (P.contents report.old) (P.contents report.new)
        (stopped_line number stop)) }
    ensures front { OnErr result (AppendsFront (P.contents report.old) (P.contents report.new)
        (stopped_line number stop)) }
{
    if let ImageStop::Fault(fault) = stop {
        let (cause, place) = (fault.cause.number(), fault.place);
        return write_line(
            report,
            &format_args!("IMAGE {number} FAULT {cause} {place}\n"),
        );
    }
    Ok(())
}
