//! `check`: which file sections are on any images, which of them are complete, and which are
//! missing.

ghost use Rattle.std.specs.Prelude.{◌≡◌, IfOk, IfErr, OnOk, OnErr};
ghost use Rattle.std.specs.{List.flat_map, Io.KnownBytes.Appends};
ghost use Rattle.tape_run.specs.{Lacks.set_lacks, Lacks.found_all, CheckLine.lack_line};
ghost use Rattle.tape_run.specs.Checked.{summary, Reports, ReportsInPart, IsCheckFault};
ghost use Rattle.tape_image.specs.Written.{AppendsFront};

use crate::catalogue::Catalogue;
use crate::check_line::{ImageRow, state_text};
use crate::extract::images::ImageSource;
use crate::fault::{EngineFault, WriteFailed};
use crate::report::{Sets, found_all, next_lack, sets_of};
use crate::sections::Sections;
use crate::text::{Identifier, flush, pass_line, write_line, write_text};
use std::alloc::Global;
use std::io::{Read, Write};

/// Reports the file sections on the images: a line for each image, a line for each section in the
/// order in which they were found first, a line for each file with a missing section, and a last
/// line if sections were found and none is missing. Returns whether all sections were found.
///
/// Opens an image when its turn comes, reads it to its end or to a fault, and closes it. Reports
/// and skips one that cannot be opened. Allocates the buffer of one image, the memory for opening
/// it, and the sections. Flushes the line of an image before opening the next one, and the rest of
/// the report at the end; no contract can express that, so tests show it.
///
/// # Errors
///
/// Returns `WriteFailed` if the report could not be written, and `Run(OutOfMemory)`.
pub fn check_to<R: Read + Drop, L: ImageSource<R>, P: Write>(
    alloc: Global,
    images: &mut L,
    report: &mut P,
) -> Result<bool, EngineFault>
    // On success the whole report was written, and the result says whether all was found.
    ensures ok { IfOk result (Reports L.size L.gives R.remaining images.old images.new
        (P.contents report.old) (P.contents report.new)) }
    // On any error a prefix of a report on the images that were read was written.
    ensures front { OnErr result (ReportsInPart L.size L.gives R.remaining images.old images.new
        (P.contents report.old) (P.contents report.new)) }
    ensures fault { IfErr result IsCheckFault }
{
    let mut catalogue = Catalogue::new(alloc);
    for number in 0..images.count() {
        let image = images.mount(number)?;
        let met = match image {
            Some(mut device) => Some(catalogue.add(&mut device)?),
            None => None,
        };
        let number = number + 1;
        pass_line(report, &ImageRow { number, met })?;
    }
    summarize(alloc, &catalogue.sections, report)
}

/// Writes the part of the report that follows the lines of the images, and returns whether all
/// sections were found.
fn summarize<P: Write>(
    alloc: Global,
    sections: &Sections,
    report: &mut P,
) -> Result<bool, EngineFault>
    ensures ok { IfOk result (λ found. (found ≡ found_all sections.now.entries)
        × Appends (P.contents report.old) (P.contents report.new)
        (summary sections.now.entries)) }
    ensures front { OnErr result (AppendsFront (P.contents report.old) (P.contents report.new)
        (summary sections.now.entries)) }
    ensures fault { IfErr result IsCheckFault }
{
    let sets = sets_of(alloc, sections)?;
    for (key, entry) in sections {
        let (set_id, volume) = (Identifier(&key.set_id), Identifier(&entry.volume));
        let (file, sect, blocks) = (key.file, key.sect, entry.blocks);
        let state = state_text(entry.state);
        let name = format_args!("{set_id} {file} {sect}");
        let line = format_args!("SECTION {name} {volume} {blocks} {state}\n");
        write_line(report, &line)?;
    }
    write_lacks(report, sections, &sets)?;
    let found = found_all(sections, &sets);
    let last: &[u8] = if found { b"ALL SECTIONS FOUND\n" } else { b"" };
    pass_on(report, last)?;
    Ok(found)
}

/// Writes a line for each missing section.
fn write_lacks<P: Write>(
    report: &mut P,
    sections: &Sections,
    sets: &Sets,
) -> Result<(), WriteFailed>
    ensures ok { OnOk result (Appends (P.contents report.old) (P.contents report.new)
        (flat_map lack_line (set_lacks sections.now.entries sets.now.entries))) }
    ensures front { OnErr result (AppendsFront (P.contents report.old) (P.contents report.new)
        (flat_map lack_line (set_lacks sections.now.entries sets.now.entries))) }
{
    let (mut place, mut file) = (0usize, 0u16);
    'search: while let Some((set, lack)) = next_lack(sections, sets, place, file) {
        let set_id = Identifier(&lack.set_id);
        let (number, sect) = (lack.file, lack.sect);
        write_line(report, &format_args!("LACKS {set_id} {number} {sect}\n"))?;
        place = set;
        file = lack.file;
    }
    Ok(())
}

/// Writes a text, and flushes.
pub(crate) fn pass_on<P: Write>(report: &mut P, text: &[u8]) -> Result<(), WriteFailed>
    ensures ok { OnOk result
        (Appends (P.contents report.old) (P.contents report.new) text.now) }
    ensures err { OnErr result
        (AppendsFront (P.contents report.old) (P.contents report.new) text.now) }
{
    write_text(report, text)?;
    flush(report)
}
