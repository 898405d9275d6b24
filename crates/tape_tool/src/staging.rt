//! Sessions over stages, on any disk and in a file.

ghost use Rattle.std.specs.Prelude.{◌≡◌, ◌↔◌, ◌⊎◌, ◌<◌, ◌≤◌, ℕ, [], IfOk, IfErr, IsTrue, OnErr};
ghost use Rattle.std.specs.Prelude.{OnOk, false, length, slice_index};
ghost use Rattle.std.specs.Bool.{OnFalse, OnTrue};
ghost use Rattle.tape_core.specs.{Known.IsFileNumber, Weight.Rose};
ghost use Rattle.tape_stage.specs.{OnlyReading.OnlyReads, Stages.OpensOver};
ghost use Rattle.tape_run.specs.{Headline.IsStart, Seen.seen};
ghost use Rattle.tape_tool.specs.Staging.{IsOfFile, StandsAt, GoesOn, IsUnmade, IsUnopened};
ghost use Rattle.tape_tool.specs.Staging.{FailsBy, RefusesBeginning, RefusesSession, as_sink};
ghost use Rattle.tape_tool.specs.{Guards.locked_stage, Staging.first_point};

use crate::fault::{FileFault, ToolFault};
use crate::screen::Host;
use std::alloc::Global;
use std::fs::{File, OpenOptions, TryLockError};
use tape_core::{Checkpoint, ReaderCore};
use tape_label::{Field, same_field};
use tape_run::{RunFault, Session};
use tape_stage::{
    BufferedFile, Disk, DiskFault, Refused, Stage, StageFault, buffered_file, new_slots,
};
use tape_writer::system::{LockFault, locked, sync_folder_of};

/// The stage of a run, in a file.
pub type StageSink = Stage<BufferedFile<File>>;

/// The reason why a session over a stage could not be opened.
#[derive(Clone, Copy, PartialEq, Eq)]
pub enum StagingFault {
    /// The stage could not be opened or created.
    Stage(StageFault),
    /// The staged data belong to a file with another number or to another set; or no file can have
    /// the number.
    OtherFile,
}

/// Opens a session for file `file` of set `set_id` over the stage on `disk`. It continues at the
/// stage's checkpoint, with the parts before it. If the disk is empty, or has only the beginning of
/// a new stage of this file, for example because the disk was full, creates a stage, with which the
/// session begins at the file's start.
///
/// # Errors
///
/// Returns `Stage` with the fault of opening or creating the stage; `OtherFile` if the checkpoint
/// belongs to another file or set, or `file` is not in 1 to 9,999. Each error returns the disk.
pub fn open_session<D: Disk + Drop>(
    alloc: Global,
    disk: D,
    set_id: Field<6>,
    file: u16,
) -> Result<Session<Stage<D>>, Refused<D, StagingFault>>
    // If the disk has a stage, the session's position and parts are those of the checkpoint that
    // was read.
    ensures goes_on { D.is_honest disk → (IsUnmade set_id file (D.seen disk) → ⊥)
        → IfOk result (GoesOn set_id file (D.seen disk)) }
    // If a stage is created, the session begins at the file's start, without parts.
    ensures begins { D.is_honest disk → IsUnmade set_id file (D.seen disk)
        → IfOk result (StandsAt (first_point set_id file) []) }
    ensures start { D.length_of disk ≡ 0
        → IfOk result (λ session. IsStart set_id file (seen as_sink session [])) }
    // On any disk, the session is one of this file.
    ensures file { IfOk result (λ session.
        (session.core.set_id ≡ set_id) × (session.core.file ≡ file)) }
    // No other disk is emptied. A crash at any moment of the call leaves contents that were
    // possible before, or that represent the same.
    ensures any_moment { D.is_honest disk → (IsUnmade set_id file (D.seen disk) → ⊥)
        → IfOk result (λ session. OpensOver D.Disk disk session.sink.disk) }
    // What a fault says about the bytes of such a disk is true, and what is staged is unchanged.
    ensures refused { D.is_honest disk → (IsUnmade set_id file (D.seen disk) → ⊥) → IfErr result
        (λ refused. RefusesSession set_id file D.Disk disk refused.fault refused.disk) }
    // Even a dishonest disk that is longer than such a beginning keeps its length if no stage was
    // opened and the disk did not fail.
    ensures same_length { 256 < D.length_of disk → IfErr result (λ refused.
        IsUnopened refused.fault → D.length_of refused.disk ≡ D.length_of disk) }
    // A disk that is empty, or has such a beginning, is never reported as one without a stage,
    // since a stage is created. At most its slots were written.
    ensures empty { D.length_of disk ≡ 0 → IfErr result (λ refused.
        RefusesBeginning file (D.faults disk) refused.fault (D.faults refused.disk)
        × (D.length_of refused.disk ≤ 256)) }
    ensures begins_not { D.is_honest disk → IsFileNumber file → IsUnmade set_id file (D.seen disk)
        → IfErr result (λ refused.
        RefusesBeginning file (D.faults disk) refused.fault (D.faults refused.disk)
        × (D.length_of refused.disk ≤ 256)) }
    ensures cause { IfErr result (λ refused.
        FailsBy (D.faults disk) refused.fault (D.faults refused.disk)) }
{
    let mut disk = disk;
    let fault = StagingFault::Stage(StageFault::Device);
    match disk.len() {
        Ok(0) => begin(alloc, disk, set_id, file),
        Ok(_) => match is_unmade(&mut disk, set_id, file) {
            Ok(true) => match disk.cut(0) {
                Ok(()) => begin(alloc, disk, set_id, file),
                Err(_) => Err(Refused { disk, fault }),
            },
            Ok(false) => match Stage::open_disk(alloc, disk) {
                Ok((stage, point)) if same_file(&point, set_id, file) => {
                    Ok(Session::resume(alloc, &point, stage))
                }
                Ok((stage, _)) => Err(Refused {
                    disk: stage.into_disk(),
                    fault: StagingFault::OtherFile,
                }),
                Err(refused) => Err(Refused {
                    disk: refused.disk,
                    fault: StagingFault::Stage(refused.fault),
                }),
            },
            Err(_) => Err(Refused { disk, fault }),
        },
        Err(_) => Err(Refused { disk, fault }),
    }
}

/// Creates a new stage, and a session over it at the start of file `file`.
fn begin<D: Disk + Drop>(
    alloc: Global,
    disk: D,
    set_id: Field<6>,
    file: u16,
) -> Result<Session<Stage<D>>, Refused<D, StagingFault>>
    requires empty { D.length_of disk ≡ 0 }
    ensures begins { D.is_honest disk → IfOk result (StandsAt (first_point set_id file) []) }
    ensures start { IfOk result
        (λ session. IsStart set_id file (seen as_sink session [])) }
    ensures file { IfOk result (λ session.
        (session.core.set_id ≡ set_id) × (session.core.file ≡ file)) }
    ensures refused { IfErr result (λ refused.
        RefusesBeginning file (D.faults disk) refused.fault (D.faults refused.disk)
        × (D.length_of refused.disk ≤ 256)) }
    ensures same_length { IfErr result (λ refused.
        IsUnopened refused.fault → D.length_of refused.disk ≡ D.length_of disk) }
{
    let Ok(core) = ReaderCore::new(set_id, file) else {
        let fault = StagingFault::OtherFile;
        return Err(Refused { disk, fault });
    };
    match Stage::create(alloc, disk, &core.save(0)) {
        Ok(stage) => {
            // The file number is valid, since the reader was created.
            let Ok(session) = Session::new(alloc, set_id, file, stage) else {
                unreachable!()
            };
            Ok(session)
        }
        Err(refused) => Err(Refused {
            disk: refused.disk,
            fault: StagingFault::Stage(refused.fault),
        }),
    }
}

/// Returns whether the disk has at most 256 bytes, each of them zero or equal to the byte at the
/// same offset of a new stage of the file, as it is before its first gate is opened. A file
/// contains zeros where its system lost written bytes. The disk is only read.
///
/// # Errors
///
/// Returns `Device` if the disk failed.
pub fn is_unmade<D: Disk>(disk: &mut D, set_id: Field<6>, file: u16) -> Result<bool, DiskFault>
    ensures unmade { D.is_honest disk.old
        → IfOk result (λ yes. OnTrue yes (IsUnmade set_id file (D.seen disk.old))) }
    ensures made { D.is_honest disk.old → IsFileNumber file
        → IfOk result (λ yes. OnFalse yes (IsUnmade set_id file (D.seen disk.old) → ⊥)) }
    ensures long { 256 < D.length_of disk.old → IfOk result (λ yes. yes ≡ false) }
    ensures cause { OnErr result (Rose (D.faults disk.old) (D.faults disk.new)) }
    ensures calm { OnOk result (D.faults disk.new ≡ D.faults disk.old) }
    ensures reads { OnlyReads D.Disk disk.old disk.new }
    ensures honest { D.is_honest disk.old → D.is_honest disk.new }
{
    let Ok(core) = ReaderCore::new(set_id, file) else {
        return Ok(false);
    };
    let len = match disk.len() {
        Ok(len) if len <= 256 => len as usize,
        Ok(_) => return Ok(false),
        Err(fault) => return Err(fault),
    };
    let mut bytes = [0; 256];
    let bytes = &mut bytes[..len];
    let Ok(()) = disk.read(0, bytes) else {
        return Err(DiskFault::Device);
    };
    Ok(is_begun(bytes, &new_slots(&core.save(0))))
}

/// Returns whether each of `bytes` is zero or equal to the byte of `due` at the same offset.
fn is_begun(bytes: &[u8], due: &[u8; 256]) -> bool
    requires { length bytes.now ≤ 256 }
    ensures { IsTrue result ↔ ((i : ℕ) → i < length bytes.now → (slice_index bytes.now i ≡ 0)
        ⊎ (slice_index bytes.now i ≡ slice_index due.now i)) }
{
    for (byte, due) in bytes.iter().zip(due) {
        if *byte != 0 && byte != due {
            return false;
        }
    }
    true
}

/// Returns whether the checkpoint belongs to file `file` of a set with identifier `set_id`.
pub fn same_file(point: &Checkpoint, set_id: Field<6>, file: u16) -> bool
    ensures { IsTrue result ↔ IsOfFile set_id file point.now }
{
    same_field(&point.set_id, &set_id) && point.file == file
}

/// Opens a session over the stage in the file at `path`. If the file does not exist or is empty,
/// creates a stage.
///
/// The file is locked before anything is read from it, and stays locked until it is closed.
///
/// # Errors
///
/// Returns `StageInUse` if another run uses the stage; `File` with `NotOpened` if the file cannot
/// be opened, created or locked; `Stage` with `Device` if the directory cannot be synced, otherwise
/// with the fault of opening or creating the stage; `Run` with `OtherFile` if the staged data
/// belong to another file or set, or with `OutOfMemory` if the session's checkpoint cannot be
/// stored.
pub fn session_in<R: Host>(
    rt: &R,
    path: &str,
    set_id: Field<6>,
    file: u16,
) -> Result<Session<StageSink>, ToolFault> {
    let mut options = OpenOptions::new();
    options.read(true).write(true).create(true);
    let Ok(kept) = options.open(rt, path) else {
        return Err(ToolFault::File(FileFault::NotOpened));
    };
    locked_stage(kept.try_lock())?;
    let disk = buffered_file(rt.alloc(), kept).map_err(|fault| ToolFault::Stage(fault))?;
    // A new stage is lost if its name is, so the directory is synced.
    if sync_folder_of(rt, path).is_err() {
        return Err(ToolFault::Stage(StageFault::Device));
    }
    match open_session(rt.alloc(), disk, set_id, file) {
        Ok(mut session) => {
            // Takes the checkpoint to which the session returns after a reel with a wrong count.
            session.note()?;
            Ok(session)
        }
        Err(refused) => Err(match refused.fault {
            StagingFault::Stage(fault) => ToolFault::Stage(fault),
            StagingFault::OtherFile => ToolFault::Run(RunFault::OtherFile),
        }),
    }
}

/// Returns whether a run may use a stage, given the result of locking it. On a file system without
/// locks, other runs are not excluded.
pub fn locked_stage(attempt: Result<(), TryLockError>) -> Result<(), ToolFault>
    ensures { result ≡ locked_stage attempt }
{
    match locked(attempt) {
        Ok(()) => Ok(()),
        Err(LockFault::InUse) => Err(ToolFault::StageInUse),
        Err(LockFault::Failed) => Err(ToolFault::File(FileFault::NotOpened)),
    }
}
