//! The log of a merge: a row for each item that fewer than two readings have, or that is bad in
//! one.

ghost use Rattle.std.specs.Prelude.{◌≡◌, ◌++◌, ◌||◌, nat_lt, true, codes, decimal, map, IfOk, OnOk};
ghost use Rattle.std.specs.{Prelude.OnErr, Io.KnownBytes.Appends};
ghost use Rattle.tape_run.specs.MergeLog.{log_head, verdict_cell, verdict_cells, has_bad_verdict};
ghost use Rattle.tape_run.specs.{MergeLines.kind_text, MergeLog.row_now};

use super::candidate::Candidate;
use super::reading::{Reading, Verdict};
use crate::fault::WriteFailed;
use crate::quoting::name_text;
use crate::text::{write_line, write_text};
use std::alloc::{AllocError, Global};
use std::io::{Read, Write};

/// Returns the row of the column names: the names of the images come last.
pub(crate) fn log_head(alloc: Global, names: &[&str]) -> Result<Vec<u8>, AllocError>
    ensures { IfOk result (λ head. head.items ≡ log_head (map (λ n. n.now) names.now)) }
{
    let mut head = Vec::from_slice(alloc, b"ITEM\tKIND")?;
    for name in names {
        head.push(b'\t')?;
        let name = name_text(alloc, *name)?;
        head.extend_from_slice(name.as_slice())?;
    }
    head.push(b'\n')?;
    Ok(head)
}

/// Writes the row of the candidate, unless at least two readings have it, and none has a bad item
/// there.
pub(crate) fn log_item<R: Read, G: Write>(
    number: u64,
    best: &Candidate,
    witnesses: u64,
    readings: &[Reading<'_, R>],
    log: &mut G,
) -> Result<(), WriteFailed>
    ensures ok { OnOk result (Appends (G.contents log.old) (G.contents log.new)
        (row_now number best.now witnesses readings.now)) }
    ensures due { OnErr result ((nat_lt witnesses 2 || has_bad_verdict readings.now) ≡ true) }
{
    let Some(kind) = best.kind() else {
        return Ok(());
    };
    if witnesses > 1 && !has_bad(readings) {
        return Ok(());
    }
    write_line(log, &format_args!("{number}\t{kind}"))?;
    log_cells(readings, log)?;
    write_text(log, b"\n")
}

/// Writes a cell for each reading.
fn log_cells<R: Read, G: Write>(readings: &[Reading<'_, R>], log: &mut G) -> Result<(), WriteFailed>
    ensures { OnOk result (Appends (G.contents log.old) (G.contents log.new)
        (verdict_cells readings.now)) }
{
    for reading in readings {
        write_text(log, cell(reading.verdict))?;
    }
    Ok(())
}

/// Returns whether one of the readings has a bad item.
fn has_bad<R: Read>(readings: &[Reading<'_, R>]) -> bool
    ensures { result ≡ has_bad_verdict readings.now }
{
    for reading in readings {
        if matches!(reading.verdict, Verdict::Bad) {
            return true;
        }
    }
    false
}

/// Returns the cell for a verdict.
fn cell(verdict: Verdict) -> &'static [u8]
    ensures { result.now ≡ verdict_cell verdict }
{
    match verdict {
        Verdict::First | Verdict::Second | Verdict::Third => b"\tGOOD",
        Verdict::Bad => b"\tBAD",
        Verdict::Ended | Verdict::Failed(_) => b"\t",
    }
}
