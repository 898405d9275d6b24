//! Reports on stages: the contents of a stage, and its records.
ghost use Rattle.std.specs.Prelude.{◌≡◌, ℕ, List, length, IfOk, IfErr, IsErrOf, OnOk, OnErr, Some};
ghost use Rattle.std.specs.{Prelude.None, Prelude.false, Prelude.true, Io.KnownBytes.Appends};
ghost use Rattle.tape_blocks.specs.{Block.Portion, Spans.join};
ghost use Rattle.tape_core.specs.Weight.{Rose};
ghost use Rattle.tape_image.specs.Written.{AppendsFront};
ghost use Rattle.tape_stage.specs.{OnlyReading.OnlyReads, Stages.Holds};
ghost use Rattle.tape_tool.specs.StageReport.{told_with, ending_of, EndsInRecords, Shows};
ghost use Rattle.tape_tool.specs.StageReport.{StopsShowing, output_in};

use crate::fault::{FileFault, ToolFault};
use arrayvec::ArrayVec;
use std::alloc::Global;
use std::io::Write;
use tape_blocks::Form;
use tape_core::{Checkpoint, PartWalk};
use tape_run::text::{put, put_decimal, put_identifier};
use tape_run::{flush, last_line, write_part, write_text};
use tape_set::Want;
use tape_stage::{Disk, Salvage, Stage, StageFault};

/// The end of a stage that was shown, after its parts.
#[derive(Clone, Copy, PartialEq, Eq)]
pub enum StageEnding {
    /// All frames are intact. Contains the missing part of the file, if any.
    Whole(Option<Want>),
    /// The frames are damaged at this offset of the stage.
    Broken(u64),
}

/// Prints the file and the number of complete records of the stage on `disk`, and the last line
/// that `extract` would print. If `form` is `Some`, the records, from the beginning of the file,
/// are written to `out` and flushed before anything is printed. Returns the missing part of the
/// file, if any.
///
/// With `damaged`, a damaged stage is accepted: its complete records before the damage are used,
/// and the offset of the damage is printed in place of the missing part.
///
/// The disk is only read, and is returned in any case. The stage is walked once when it is opened,
/// which reads the headers of its frames and counts the records; to write the records, it is walked
/// again.
///
/// # Errors
///
/// Returns `Stage` with the fault of opening the stage, after which nothing was written, or with
/// `Device` if its parts could not be read again; `File` with `WriteFailed` if writing to `out` or
/// `report` failed; in the form `Counted` also `Run(OutOfMemory)`, as [`write_part`]. `NoPoint` is
/// returned only if there is no stage.
pub fn show_stage<D: Disk + Drop, W: Write, P: Write>(
    alloc: Global,
    disk: D,
    damaged: bool,
    form: Option<Form>,
    out: &mut W,
    report: &mut P,
) -> (Result<StageEnding, ToolFault>, D)
    ensures ok { D.is_honest disk → IfOk result.0 (Shows (D.seen disk) damaged form
        (W.contents out.old) (W.contents out.new) (P.contents report.old) (P.contents report.new)) }
    ensures err { D.is_honest disk → IfErr result.0 (StopsShowing (D.seen disk) damaged form
        (W.contents out.old) (W.contents out.new) (P.contents report.old) (P.contents report.new)) }
    ensures reads { OnlyReads D.Disk disk result.1 }
    ensures cause { D.is_honest disk → IsErrOf result.0 (ToolFault.Stage StageFault.Device)
        → Rose (D.faults disk) (D.faults result.1) }
{
    let opened = match Stage::open_read_only(alloc, disk) {
        Ok(opened) => opened,
        Err(refused) => return (Err(ToolFault::Stage(refused.fault)), refused.disk),
    };
    let Salvage {
        stage,
        point,
        broken,
        records,
    } = opened;
    let mut stage = stage;
    let ending = match ending_at(&point, broken, damaged) {
        Ok(ending) => ending,
        Err(fault) => return (Err(fault), stage.into_disk()),
    };
    if let Err(fault) = write_in(alloc, &mut stage, records, form, out) {
        return (Err(fault), stage.into_disk());
    }
    match write_text(report, &lines_of(&point, ending, records)) {
        Ok(()) => (Ok(ending), stage.into_disk()),
        Err(_) => {
            let fault = ToolFault::File(FileFault::WriteFailed);
            (Err(fault), stage.into_disk())
        }
    }
}

/// Returns the end of a stage that is damaged at offset `broken`, or intact. Without `damaged`, a
/// damaged stage is refused.
fn ending_at(
    point: &Checkpoint,
    broken: Option<u64>,
    damaged: bool,
) -> Result<StageEnding, ToolFault>
    ensures ok { IfOk result (λ ending.
        (ending ≡ ending_of point.now broken) × (damaged ≡ false → broken ≡ None)) }
    ensures err { IfErr result (λ fault. (place : ℕ) × (broken ≡ Some place)
        × (damaged ≡ false) × (fault ≡ ToolFault.Stage (StageFault.BadFrame place))) }
{
    match broken {
        None => Ok(StageEnding::Whole(point.position.want(point.file))),
        Some(place) if damaged => Ok(StageEnding::Broken(place)),
        Some(place) => Err(ToolFault::Stage(StageFault::BadFrame(place))),
    }
}

/// Writes the records of the parts of `stage` if `form` is `Some`. Their number is `records`.
#[tactic(auto, using(crate::proofs::StageFaults::ends_so))]
fn write_in<D: Disk, W: Write>(
    alloc: Global,
    stage: &mut Stage<D>,
    records: u64,
    form: Option<Form>,
    out: &mut W,
) -> Result<(), ToolFault>
    ensures ok { OnOk result ((parts : List Portion) → Holds stage.old parts
        → records ≡ length (join parts).records
        → Appends (W.contents out.old) (W.contents out.new) (output_in form parts)) }
    ensures err { OnErr result ((parts : List Portion) → Holds stage.old parts
        → records ≡ length (join parts).records
        → AppendsFront (W.contents out.old) (W.contents out.new) (output_in form parts)) }
    ensures fault { IfErr result (EndsInRecords form) }
    ensures reads { OnlyReads D.Disk stage.old.disk stage.new.disk }
    ensures cause { IsErrOf result (ToolFault.Stage StageFault.Device)
        → stage.old.readable ≡ true → (parts : List Portion) → Holds stage.old parts
        → records ≡ length (join parts).records
        → Rose (D.faults stage.old.disk) (D.faults stage.new.disk) }
{
    let Some(form) = form else {
        return Ok(());
    };
    stage.rewind();
    let mut held = Vec::new(alloc);
    let mut ended = 0u64;
    'parts: while ended < records {
        match stage.next_part() {
            Ok(Some(part)) => {
                let leaves = part.span.leaves();
                write_part(out, part, form, &mut held)?;
                ended += u64::from(!leaves);
            }
            Ok(None) => return Err(ToolFault::Stage(StageFault::Device)),
            Err(_) => return Err(ToolFault::Stage(StageFault::Device)),
        }
    }
    Ok(flush(out)?)
}

/// A buffer for both lines, which are shorter.
type Lines = ArrayVec<u8, 512>;

/// Returns the line about the stage, with its file and number of complete records, and the line
/// about its end: the missing part, the completeness of the file, or the offset of the damage.
fn lines_of(point: &Checkpoint, ending: StageEnding, records: u64) -> Lines
    ensures { result.items ≡ told_with point.now ending records }
{
    let mut lines = Lines::new();
    put(&mut lines, b"STAGE ");
    put_identifier(&mut lines, &point.set_id);
    put(&mut lines, b" ");
    put_decimal(&mut lines, u64::from(point.file));
    put(&mut lines, b" ");
    put_decimal(&mut lines, records);
    put(&mut lines, b"\n");
    match ending {
        StageEnding::Whole(want) => {
            put(&mut lines, last_line(want, records).as_bytes());
            lines
        }
        StageEnding::Broken(place) => {
            put(&mut lines, b"TRUNCATED AT ");
            put_decimal(&mut lines, place);
            put(&mut lines, b"\n");
            lines
        }
    }
}
