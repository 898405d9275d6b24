//! The two files that `unpack --salvage` writes for an incomplete file: its readable records, and
//! the report of its gaps. The last line of the report contains the checksums of both, so that a
//! later run replaces or removes them only if they are unchanged. The records never have their name
//! without the report, and the report of a run that was interrupted may be alone.

ghost use Rattle.std.specs.Prelude.{None};

use super::completion::salvage_task;
use super::report::LastLine;
use super::summed::sum_of;
use crate::extract::Draft;
use crate::fault::{FileFault, ToolFault};
use crate::normal::NormalImages;
use crate::program::{End, end_of};
use crate::readings::printed_name;
use crate::record_form::{RecordForm, Under};
use crate::refusal::{FileId, open, remove};
use crate::screen::{Host, Progress};
use hex::encode;
use sha2::{Digest, Sha256};
use std::alloc::{AllocError, Global};
use std::fs::File;
use std::io::{BufWriter, Read, Write};
use std::{fs, io};
use tape_run::{
    Place, SalvageTask, SetFile, WriteFailed, flush, name_text, salvage_joined, write_text,
};
use tape_writer::system::found;

/// The length of the last line of a report: `SUMS`, two checksums of 64 digits, two spaces and a
/// line feed.
const SUMS: usize = 135;

/// The place in that line after the first checksum.
const SUM_OF_LINES: usize = 69;

/// The paths of the salvaged records and of their report.
#[derive(Drop)]
pub struct Salvaged {
    pub records: String,
    pub report: String,
}

/// A new file, with the checksum of its bytes and with its last line.
#[derive(Drop)]
struct Summed {
    out: BufWriter<File>,
    sum: Sha256,
    last: LastLine,
}

impl Summed {
    /// Creates a writer to `out`, which also computes the checksum of the bytes.
    fn new(out: BufWriter<File>) -> Summed {
        Summed {
            out,
            sum: Sha256::new(),
            last: LastLine::new(),
        }
    }
}

impl Write for Summed {
    fn write(&mut self, buf: &[u8]) -> io::Result<usize> {
        let count = self.out.write(buf)?;
        if let Some(written) = buf.get(..count) {
            self.sum.update(written);
            self.last.write_all(written)?;
        }
        Ok(count)
    }

    fn flush(&mut self) -> io::Result<()> {
        self.out.flush()
    }
}

/// A slot that keeps a file without giving it a name.
#[derive(Drop)]
struct Kept(Option<Summed>);

impl Place<Summed> for Kept {
    ghost stands = { λ _. None };

    fn place(&mut self, out: Summed) -> Result<(), WriteFailed> {
        self.0 = Some(out);
        Ok(())
    }
}

impl Salvaged {
    /// Returns the paths for the file at `out`.
    pub fn of(alloc: Global, out: &str) -> Result<Salvaged, AllocError> {
        Ok(Salvaged {
            records: format!(in alloc; "{out}.salvaged")?,
            report: format!(in alloc; "{out}.gaps")?,
        })
    }

    /// Writes the readable records of `file` on the images named `names`, in this form, and returns
    /// their checksum; `last` remembers the last line of `salvage`.
    ///
    /// # Errors
    ///
    /// Returns `Exists` if one of the paths has a file other than those that an earlier run wrote,
    /// unchanged; otherwise the fault of creating or writing a file.
    pub fn write<R: Progress>(
        &self,
        rt: &R,
        (file, form): (&SetFile, RecordForm),
        names: &[&str],
        last: &mut LastLine,
    ) -> Result<[u8; 32], ToolFault> {
        let (before, report) = self.earlier(rt.host())?;
        let (mut draft, out) = Draft::over(rt, self.records.as_str(), before)?;
        let mut sum = [0; 32];
        let end = match Draft::over(rt, self.report.as_str(), report) {
            Ok((mut of_report, lines)) => {
                let task = (&salvage_task(file, form), form);
                let done = written(rt, task, names, out, lines, &mut sum, last);
                let placed = done.and_then(|(records, report)| {
                    self.clear(rt, before)?;
                    of_report.place(report)?;
                    Ok(draft.place(records)?)
                });
                of_report.ended(end_of(placed))
            }
            Err(fault) => End::Faulted(fault),
        };
        match draft.ended(end) {
            End::Faulted(fault) => Err(fault),
            _ => Ok(sum),
        }
    }

    /// Removes the records that an earlier run wrote, unless they are no longer the file `before`.
    /// The report of an interrupted run is then alone, and not beside records of another run.
    fn clear<R: Progress>(&self, rt: &R, before: Option<FileId>) -> Result<(), ToolFault> {
        let now = found(fs::symlink_metadata(rt.host(), self.records.as_str()))?;
        if now.is_some_and(|now| before == Some(FileId::of(&now))) {
            remove(rt, self.records.as_str());
        }
        Ok(())
    }

    /// Removes the files that an earlier run wrote, unless they have changed since then, or cannot
    /// be read.
    pub fn remove<R: Progress>(&self, rt: &R) -> Result<(), ToolFault> {
        match self.earlier(rt.host()) {
            Ok((_, Some(_))) => {
                remove(rt, self.records.as_str());
                remove(rt, self.report.as_str());
                Ok(())
            }
            Ok(_) | Err(ToolFault::File(_)) => Ok(()),
            Err(fault) => Err(fault),
        }
    }

    /// Returns the files that an earlier run wrote, if the two paths have files, or the report if it
    /// is alone. Returns `Exists` if they have others, or these were changed: the last line of the
    /// report contains the checksums of both.
    fn earlier<R: Host>(&self, rt: &R) -> Result<(Option<FileId>, Option<FileId>), ToolFault> {
        let records = found(fs::symlink_metadata(rt, self.records.as_str()))?;
        let report = found(fs::symlink_metadata(rt, self.report.as_str()))?;
        let other = ToolFault::File(FileFault::Exists);
        let (records, report) = match (records, report) {
            (None, None) => return Ok((None, None)),
            (None, Some(report)) if report.is_file() => (None, report),
            (Some(records), Some(report)) if records.is_file() && report.is_file() => {
                (Some(records), report)
            }
            _ => return Err(other),
        };
        let length = records.as_ref().map(|records| records.len());
        if !self.has_sums(rt, length, report.len())? {
            return Err(other);
        }
        Ok((
            records.as_ref().map(|records| FileId::of(records)),
            Some(FileId::of(&report)),
        ))
    }

    /// Returns whether the report ends with the checksums of both files, which have these lengths.
    /// Without records only its own checksum is compared.
    fn has_sums<R: Host>(
        &self,
        rt: &R,
        records: Option<u64>,
        report: u64,
    ) -> Result<bool, ToolFault> {
        let Some(lines) = report.checked_sub(SUMS as u64) else {
            return Ok(false);
        };
        let mut file = open(rt, self.report.as_str())?;
        let of_lines = sum_of(&mut file, lines)?;
        let mut last = [0; SUMS];
        file.read_exact(&mut last)
            .map_err(|_| FileFault::ReadFailed)?;
        let (mut of_records, mut from) = ([0; 32], SUM_OF_LINES);
        if let Some(length) = records {
            of_records = sum_of(&mut open(rt, self.records.as_str())?, length)?;
            from = 0;
        }
        let line = sums_line(rt.alloc(), &of_records, &of_lines)?;
        let due = line.as_bytes().get(from..).unwrap_or(&[]);
        Ok(last.as_slice().get(from..).unwrap_or(&[]) == due)
    }
}

/// Writes the records, and the report, which begins with the names of the images and ends with the
/// checksums. Returns both files, and in `sum_of_records` the checksum of the first. Neither has its
/// name yet.
fn written<R: Progress>(
    rt: &R,
    (task, form): (&SalvageTask, RecordForm),
    names: &[&str],
    records: BufWriter<File>,
    lines: BufWriter<File>,
    sum_of_records: &mut [u8; 32],
    last: &mut LastLine,
) -> Result<(BufWriter<File>, BufWriter<File>), ToolFault> {
    let mut report = Summed::new(lines);
    write_names(rt.alloc(), names, &mut report)?;
    let (mut kept, images) = (Under(Kept(None)), &mut NormalImages::again(rt, names));
    let records = form.over(Summed::new(records));
    salvage_joined(rt.alloc(), task, images, records, &mut kept, &mut report)?;
    let Some(records) = kept.0.0 else {
        return Err(ToolFault::File(FileFault::WriteFailed));
    };
    let Summed {
        mut out,
        sum,
        last: told,
    } = report;
    *last = told;
    let sums = (records.sum.finalize(), sum.finalize());
    *sum_of_records = sums.0;
    write_sums(rt.alloc(), &sums.0, &sums.1, &mut out)?;
    Ok((records.out, out))
}

/// Writes the names of the images, each on a line.
fn write_names(alloc: Global, names: &[&str], report: &mut Summed) -> Result<(), ToolFault> {
    for (number, name) in names.iter().enumerate() {
        let front = format!(in alloc; "FROM {} ", number.saturating_add(1))?;
        write_text(report, front.as_bytes())?;
        let name = printed_name(alloc, *name)?;
        write_text(report, name_text(alloc, name.as_str())?.as_slice())?;
        write_text(report, b"\n")?;
    }
    Ok(())
}

/// Writes the last line of a report.
fn write_sums(
    alloc: Global,
    records: &[u8; 32],
    lines: &[u8; 32],
    report: &mut BufWriter<File>,
) -> Result<(), ToolFault> {
    write_text(report, sums_line(alloc, records, lines)?.as_bytes())?;
    Ok(flush(report)?)
}

/// Returns the last line of a report: the checksums of the records, and of the lines before it.
fn sums_line(alloc: Global, records: &[u8; 32], lines: &[u8; 32]) -> Result<String, AllocError> {
    let records = encode(alloc, records.as_slice())?;
    let lines = encode(alloc, lines.as_slice())?;
    format!(in alloc; "SUMS {records} {lines}\n")
}
