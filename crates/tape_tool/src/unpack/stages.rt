//! The stages of files that were recovered completely.

use super::existing::Existing;
use super::run::Run;
use super::salvaged::Salvaged;
use crate::fault::ToolFault;
use crate::record_form::RecordForm;
use crate::refusal::{open, remove};
use crate::screen::{Host, Progress};
use crate::stage::ReadOnly;
use crate::staging::{is_unmade, locked_stage};
use std::alloc::Global;
use std::cell::Cell;
use std::fs;
use std::io::Write;
use tape_blocks::{Form, Part, Span};
use tape_core::PartWalk;
use tape_run::{SetFile, UnpackOutcome, write_part};
use tape_stage::{Disk, Stage, StageFault, buffered_file};
use tape_writer::system::found;

/// Returns whether the data in the stage of `file` at `path`, as records in this form, are the
/// beginning of the file at `out`. A file that is empty, or has only the beginning of a new stage,
/// has no data. Returns false if that cannot be found out: `path` is not a plain file or not an
/// intact stage, another run uses it, or a file cannot be read.
pub fn is_front<R: Host>(rt: &R, file: &SetFile, path: &str, out: &str, form: RecordForm) -> bool {
    // A link is not followed to a stage.
    let is_plain = fs::symlink_metadata(rt, path).is_ok_and(|found| found.is_file());
    is_plain && compare(rt, file, path, out, form) == Ok(())
}

impl<R: Progress, P: Write> Run<'_, R, P> {
    /// Removes what earlier runs left next to the complete file at `out`. Reports a stage that is
    /// kept: a copy that was read earlier has other data.
    pub fn end_stage(&mut self, file: &SetFile, out: &str, stage: &str) -> Result<(), ToolFault> {
        if self.remove_remains(file, out, stage)? {
            return Ok(());
        }
        self.tell(file, UnpackOutcome::StageKept, b"", stage)
    }

    /// Removes what earlier runs left next to the complete file at `out`: its stage and salvaged
    /// records. Keeps them and returns false if the stage has other data than the file: the
    /// records may then be those of another copy.
    pub fn remove_remains(
        &self,
        file: &SetFile,
        out: &str,
        stage: &str,
    ) -> Result<bool, ToolFault> {
        let host = self.rt.host();
        if !matches!(found(fs::symlink_metadata(host, stage)), Ok(None)) {
            if !is_front(host, file, stage, out, self.form()) {
                return Ok(false);
            }
            remove(self.rt, stage);
        }
        Salvaged::of(self.rt.alloc(), out)?.remove(self.rt)?;
        Ok(true)
    }
}

/// Compares the data in a stage with a file. The stage is only read.
fn compare<R: Host>(
    rt: &R,
    file: &SetFile,
    path: &str,
    out: &str,
    form: RecordForm,
) -> Result<(), ToolFault> {
    let kept = open(rt, path)?;
    locked_stage(kept.try_lock_shared())?;
    let disk = buffered_file(rt.alloc(), ReadOnly(kept));
    let mut disk = disk.map_err(|fault| ToolFault::Stage(fault))?;
    if is_unmade(&mut disk, file.set_id, file.file) == Ok(true) {
        return Ok(());
    }
    let opened = match Stage::open_read_only(rt.alloc(), disk) {
        Ok(opened) => opened,
        Err(refused) => return Err(ToolFault::Stage(refused.fault)),
    };
    if let Some(place) = opened.broken {
        return Err(ToolFault::Stage(StageFault::BadFrame(place)));
    }
    let mut stage = opened.stage;
    let differs = &Cell::new(false);
    compare_parts(
        rt.alloc(),
        &mut stage,
        Existing::open(rt, out, differs)?,
        form,
    )
}

/// Compares the parts in a stage with the bytes of a file.
fn compare_parts<D: Disk>(
    alloc: Global,
    stage: &mut Stage<D>,
    file: Existing<'_>,
    form: RecordForm,
) -> Result<(), ToolFault> {
    let (given, mut bytes) = (form.given(), form.over(file));
    let mut held = Vec::new(alloc);
    stage.rewind();
    for _ in 0..u64::MAX {
        match stage.next_part() {
            Ok(Some(part)) => write_part(&mut bytes, part, given, &mut held)?,
            Ok(None) => return compare_begun(bytes.into_inner(), form, &mut held),
            Err(_) => break,
        }
    }
    Err(ToolFault::Stage(StageFault::Device))
}

/// Compares the bytes of an unfinished record, which are in `held`, with those that follow in a
/// file, after the length of the record in the form `Counted`.
fn compare_begun(
    file: Existing<'_>,
    form: RecordForm,
    held: &mut Vec<u8>,
) -> Result<(), ToolFault> {
    if held.is_empty() {
        return Ok(());
    }
    let mut file = file;
    if form.form == Form::Counted {
        file.pass_length()?;
    }
    let end = Part {
        span: Span::Last,
        bytes: b"",
    };
    let raw = RecordForm {
        form: Form::Raw,
        is_text: form.is_text,
    };
    Ok(write_part(&mut raw.over(file), end, raw.given(), held)?)
}
