//! Frames (the header and content of a part): walking, reading and truncating them.

ghost use Rattle.std.specs.Prelude.{◌≡◌, ◌+◌, ◌≤◌, ◌<◌, ◌∷◌, List, length, OnOk, OnErr, IfOk};
ghost use Rattle.std.specs.Prelude.{MatchOption, take, drop, IsErrOf, true, false, ◌⊎◌, IfErr};
ghost use Rattle.std.specs.{Prelude.IfSome, Prelude.None, Int.to_be_bytes};
ghost use Rattle.std.proofs.Common.{w32};
ghost use Rattle.tape_blocks.specs.Block.{Portion, indicator};
ghost use Rattle.tape_core.specs.{Weight.Rose, Known.most_staged};
ghost use Rattle.tape_stage.specs.Staged.{IsNoHeader, StagedIn, FrontOf};
ghost use Rattle.tape_stage.specs.{OnlyReading.OnlyReads, Salvaged.WalkedIn, Salvaged.WalkedOver};
ghost use Rattle.tape_stage.specs.{Moments.Passes, Parts.IsFrameAt, Parts.NoFrameAt};
ghost use Rattle.tape_stage.specs.Parts.{longest_part, IsFront};
ghost use Rattle.tape_stage.specs.Stages.{IsStage, EndsCall};

use crate::disk::{Disk, DiskFault};
use crate::stage::{Stage, StageFault};
use tape_blocks::Span;
use tape_core::SinkFault;

/// The maximum number of bytes of a part.
const LONGEST_PART: u32 = 99_999;

/// Returns the span and the length in a header, if it is valid.
fn header_of(header: &[u8; 5]) -> Option<(Span, u64)>
    ensures { MatchOption result (IsNoHeader header.now)
        (λ found. (found.1 ≤ longest_part)
        × (header.now ≡ indicator found.0 ∷ to_be_bytes w32 found.1)) }
{
    let span = match header[0] {
        b'0' => Span::Whole,
        b'1' => Span::First,
        b'2' => Span::Middle,
        b'3' => Span::Last,
        _ => return None,
    };
    let size = u32::from_be_bytes([header[1], header[2], header[3], header[4]]);
    if size > LONGEST_PART {
        return None;
    }
    Some((span, u64::from(size)))
}

/// Reads the header of the frame that begins at offset `place` and ends at or before `end`. Returns
/// its span and the length of its part, or `None` if there is no such frame.
#[inline(always)]
fn frame_at<D: Disk>(disk: &mut D, place: u64, end: u64) -> Result<Option<(Span, u64)>, DiskFault>
    requires order { place ≤ end }
    requires there { end ≤ D.length_of disk.old }
    ensures short { IfOk result (λ found. IfSome found (λ frame. frame.1 ≤ longest_part)) }
    ensures ends { IfOk result (λ found. IfSome found (λ frame. place + (5 + frame.1) ≤ end)) }
    ensures header { D.is_honest disk.old → IfOk result (λ found. IfSome found (λ frame.
        take 5 (drop place (D.seen disk.old)) ≡ indicator frame.0 ∷ to_be_bytes w32 frame.1)) }
    ensures none { D.is_honest disk.old → IfOk result
        (λ found. found ≡ None → NoFrameAt place end (D.seen disk.old)) }
    ensures cause { OnErr result (Rose (D.faults disk.old) (D.faults disk.new)) }
    ensures calm { OnOk result (D.faults disk.new ≡ D.faults disk.old) }
    ensures reads { OnlyReads D.Disk disk.old disk.new }
    ensures honest { D.is_honest disk.old → D.is_honest disk.new }
{
    if end - place < 5 {
        return Ok(None);
    }
    let mut header = [0; 5];
    disk.read(place, &mut header)?;
    let Some((span, size)) = header_of(&header) else {
        return Ok(None);
    };
    if size > end - place - 5 {
        return Ok(None);
    }
    Ok(Some((span, size)))
}

/// The result of a walk over the frames of a stage.
#[derive(Clone, Copy)]
pub(crate) struct Walked {
    /// The offset of the first damaged frame, if there is one.
    pub(crate) broken: Option<u64>,
    /// The number of records that end in the intact frames.
    pub(crate) records: u64,
}

/// Walks over frames of total weight `staged`, reading only their headers. A frame that does not
/// end within that weight and the disk is damaged; the walk ends there.
pub(crate) fn walk<D: Disk>(disk: &mut D, staged: u64) -> Result<Walked, DiskFault>
    requires long { 256 ≤ D.length_of disk.old }
    requires fits { staged ≤ most_staged }
    ensures within { IfOk result (λ walked. WalkedIn staged (D.length_of disk.new) walked.broken) }
    ensures framed { D.is_honest disk.old → IfOk result
        (λ walked. WalkedOver staged walked.broken walked.records (D.seen disk.old)) }
    ensures cause { OnErr result (Rose (D.faults disk.old) (D.faults disk.new)) }
    ensures calm { OnOk result (D.faults disk.new ≡ D.faults disk.old) }
    ensures reads { OnlyReads D.Disk disk.old disk.new }
    ensures honest { D.is_honest disk.old → D.is_honest disk.new }
{
    let len = disk.len()?;
    let end = 256 + staged;
    let limit = end.min(len);
    let mut place: u64 = 256;
    let mut records: u64 = 0;
    while place < end {
        let Some((span, size)) = frame_at(disk, place, limit)? else {
            return Ok(Walked {
                broken: Some(place),
                records,
            });
        };
        if !span.leaves() {
            records += 1;
        }
        place += 5 + size;
    }
    Ok(Walked {
        broken: None,
        records,
    })
}

/// Reads the frame at offset `place` into `buffer`, and returns its span and the length of its
/// part. Returns `Failed` if there is no frame at that offset.
#[inline(always)]
pub(crate) fn read_frame<D: Disk>(
    disk: &mut D,
    buffer: &mut [u8],
    place: u64,
    end: u64,
) -> Result<(Span, usize), SinkFault>
    requires inside { place < end }
    requires there { end ≤ D.length_of disk.old }
    requires room { longest_part ≤ length buffer.old }
    ensures short { IfOk result (λ found. found.1 ≤ longest_part) }
    ensures ends { IfOk result (λ found. place + (5 + found.1) ≤ end) }
    ensures found { D.is_honest disk.old → IfOk result
        (λ found. IsFrameAt place end (D.seen disk.old) found.0 (take found.1 buffer.new)) }
    ensures none { D.is_honest disk.old → IsErrOf result SinkFault.Failed
        → NoFrameAt place end (D.seen disk.old) }
    ensures kinds { IsErrOf result SinkFault.Device → Rose (D.faults disk.old) (D.faults disk.new) }
    ensures only { IfErr result (λ f. (f ≡ SinkFault.Device) ⊎ (f ≡ SinkFault.Failed)) }
    ensures calm { OnOk result (D.faults disk.new ≡ D.faults disk.old) }
    ensures reads { OnlyReads D.Disk disk.old disk.new }
    ensures honest { D.is_honest disk.old → D.is_honest disk.new }
{
    let Ok(found) = frame_at(disk, place, end) else {
        return Err(SinkFault::Device);
    };
    let Some((span, size)) = found else {
        return Err(SinkFault::Failed);
    };
    let size = size as usize;
    let Ok(()) = disk.read(place + 5, &mut buffer[..size]) else {
        return Err(SinkFault::Device);
    };
    Ok((span, size))
}

impl<D: Disk> Stage<D> {
    /// Removes the parts after the first ones of weight `staged`; the removed parts were not
    /// acknowledged.
    pub(crate) fn cut_parts(&mut self, staged: u64) -> Result<(), StageFault>
        requires alive { self.old.failed ≡ false }
        requires behind { self.old.acknowledged.staged ≤ staged }
        requires there { staged ≤ self.old.weight }
        ensures ok { D.is_honest self.old.disk → OnOk result ((acked parts front : List Portion)
            → IsStage self.old acked parts → IsFront staged front parts
            → IsStage self.new acked front) }
        ensures any_moment { D.is_honest self.old.disk → (acked parts : List Portion)
            → IsStage self.old acked parts → Passes D.Disk self.old.disk self.new.disk
            (StagedIn self.old.in_second self.old.generation self.old.acknowledged acked) }
        ensures cut { D.is_honest self.old.disk → OnOk result
            (D.seen self.new.disk ≡ take (256 + staged) (D.seen self.old.disk)) }
        ensures crash { D.is_honest self.old.disk → Passes D.Disk self.old.disk self.new.disk
            (FrontOf (256 + staged) (D.may_leave self.old.disk)) }
        ensures device { IfErr result (λ fault. fault ≡ StageFault.Device) }
        ensures weight { OnOk result (self.new.weight ≡ staged) }
        ensures rewinds { OnOk result (self.new.walked ≡ 0) }
        ensures acknowledged { self.new.acknowledged ≡ self.old.acknowledged }
        ensures pending { self.new.pending ≡ self.old.pending }
        ensures slot { (self.new.in_second ≡ self.old.in_second)
            × (self.new.generation ≡ self.old.generation) }
        ensures ends { EndsCall self.old result self.new }
    {
        // No sync: bytes after that weight do not count, whether or not a crash leaves them.
        match self.disk.cut(256 + staged) {
            Ok(()) => {
                self.walked = 0;
                self.weight = staged;
                Ok(())
            }
            Err(_) => {
                self.failed = true;
                self.readable = false;
                Err(StageFault::Device)
            }
        }
    }
}
