//! How many files `unpack` has reported, by their outcomes.
ghost use Rattle.std.specs.Prelude.{◌≡◌, OnOk, OnErr, IfErr, ◌<◌, ◌-◌};
ghost use Rattle.std.specs.Io.KnownBytes.{Appends};
ghost use Rattle.tape_image.specs.Written.{AppendsFront};
ghost use Rattle.tape_run.specs.{Checked.IsCheckFault, SurveyGaps.numbers_line};
ghost use Rattle.tape_run.specs.UnpackLine.{file_line};
ghost use Rattle.tape_run.specs.UnpackTally.{nothing_counted, counted, total_line};

use super::SetFile;
use super::line::{UnpackOutcome, file_line};
use crate::fault::EngineFault;
use crate::survey::gaps::Numbers;
use crate::text::{Identifier, Text, put, put_decimal, write_line, write_text};
use std::alloc::Global;
use std::io::Write;
use tape_label::Field;

/// The number of files reported, by outcome. A count stops at its greatest value.
#[derive(Clone, Copy)]
pub struct Tally {
    /// Files that are complete, or would be.
    pub complete: u64,
    /// Files whose names existed.
    pub existing: u64,
    /// Files of which a part is missing.
    pub incomplete: u64,
    pub in_conflict: u64,
    pub not_found: u64,
    pub failed: u64,
}

impl Tally {
    /// Creates a tally of no files.
    pub fn new() -> Tally
        ensures { result ≡ nothing_counted }
    {
        Tally {
            complete: 0,
            existing: 0,
            incomplete: 0,
            in_conflict: 0,
            not_found: 0,
            failed: 0,
        }
    }

    /// Adds this many files with this outcome.
    pub fn count(&mut self, outcome: UnpackOutcome, files: u64)
        ensures { self.new ≡ counted self.old outcome files }
    {
        match outcome {
            UnpackOutcome::Complete | UnpackOutcome::Ready => {
                self.complete = self.complete.saturating_add(files);
            }
            UnpackOutcome::Exists | UnpackOutcome::Different | UnpackOutcome::NotCompared => {
                self.existing = self.existing.saturating_add(files);
            }
            UnpackOutcome::Awaits | UnpackOutcome::Lacks => {
                self.incomplete = self.incomplete.saturating_add(files);
            }
            UnpackOutcome::Conflict => self.in_conflict = self.in_conflict.saturating_add(files),
            UnpackOutcome::NotFound => self.not_found = self.not_found.saturating_add(files),
            UnpackOutcome::Failed => self.failed = self.failed.saturating_add(files),
            // The file was counted before.
            UnpackOutcome::Salvaged
            | UnpackOutcome::StageKept
            | UnpackOutcome::Differs
            | UnpackOutcome::Staged
            | UnpackOutcome::Uncounted => {}
        }
    }
}

/// Writes the line of a file, and counts it.
///
/// # Errors
///
/// Returns `WriteFailed` if the line could not be written, and `Run(OutOfMemory)`.
pub fn report_file<P: Write>(
    alloc: Global,
    report: &mut P,
    tally: &mut Tally,
    file: &SetFile,
    outcome: UnpackOutcome,
    details: &[u8],
    path: &str,
) -> Result<(), EngineFault>
    ensures ok { OnOk result (Appends (P.contents report.old) (P.contents report.new)
        (file_line file.now.set_id file.now.file outcome details.now path.now)) }
    ensures counted { OnOk result (tally.new ≡ counted tally.old outcome 1) }
    ensures front { OnErr result (AppendsFront (P.contents report.old) (P.contents report.new)
        (file_line file.now.set_id file.now.file outcome details.now path.now)) }
    ensures uncounted { OnErr result (tally.new ≡ tally.old) }
    ensures fault { IfErr result IsCheckFault }
{
    let line = file_line(alloc, file, outcome, details, path)?;
    write_text(report, line.as_slice())?;
    tally.count(outcome, 1);
    Ok(())
}

/// Writes the line for the file numbers from `first` up to, but not including, `file`, for which no
/// label was found, and counts each of them as not found.
///
/// # Errors
///
/// Returns `WriteFailed` if the line could not be written.
pub fn report_numbers<P: Write>(
    report: &mut P,
    tally: &mut Tally,
    set_id: &Field<6>,
    first: u16,
    file: u16,
) -> Result<(), EngineFault>
    requires { first < file }
    ensures ok { OnOk result (Appends (P.contents report.old) (P.contents report.new)
        (numbers_line set_id.now first file)) }
    ensures counted { OnOk result
        (tally.new ≡ counted tally.old UnpackOutcome.NotFound (file - first)) }
    ensures front { OnErr result (AppendsFront (P.contents report.old) (P.contents report.new)
        (numbers_line set_id.now first file)) }
    ensures uncounted { OnErr result (tally.new ≡ tally.old) }
    ensures fault { IfErr result (λ fault. fault ≡ EngineFault.WriteFailed) }
{
    let (set_id, numbers) = (Identifier(set_id), Numbers(first, file));
    write_line(report, &format_args!("FILE {set_id} {numbers} NOT FOUND\n"))?;
    tally.count(UnpackOutcome::NotFound, u64::from(file - first));
    Ok(())
}

/// Returns the last line, with all counts.
pub fn total_line(tally: &Tally) -> Text
    ensures { result.items ≡ total_line tally.now }
{
    let mut text = Text::new();
    put(&mut text, b"TOTAL ");
    put_decimal(&mut text, tally.complete);
    put(&mut text, b" complete ");
    put_decimal(&mut text, tally.existing);
    put(&mut text, b" existing ");
    put_decimal(&mut text, tally.incomplete);
    put(&mut text, b" incomplete ");
    put_decimal(&mut text, tally.in_conflict);
    put(&mut text, b" in conflict ");
    put_decimal(&mut text, tally.not_found);
    put(&mut text, b" not found ");
    put_decimal(&mut text, tally.failed);
    put(&mut text, b" failed\n");
    text
}
