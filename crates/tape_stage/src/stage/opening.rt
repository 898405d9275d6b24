//! Finds a stage on a disk.

ghost use Rattle.std.specs.Prelude.{◌≡◌, ◌≤◌, ◌==◌, length, OnOk, IfOk, IfErr, IfSome, MatchOption};
ghost use Rattle.std.specs.Prelude.{None, Some, false, true, not};
ghost use Rattle.tape_core.specs.Known.{most_staged};
ghost use Rattle.tape_stage.specs.{Staged.read_slot, Staged.slot_at, Staged.Loses, Found.IsFound};
ghost use Rattle.tape_stage.specs.Salvaged.{RemainsNone, WalkedIn, WalkedOver};
ghost use Rattle.tape_stage.specs.{Faults.SaysNone, Faults.OnBadFrame, Moments.IsDurable};
ghost use Rattle.tape_stage.specs.{Stages.EndsFinding, OnlyReading.OnlyReads, Body.most_generation};

use crate::disk::Disk;
use crate::point::read_wide_point;
use crate::stage::frames::{Walked, walk};
use crate::stage::{Found, OPEN, StageFault};
use tape_core::Checkpoint;
use tape_label::digits_value;

/// Returns the generation and the checkpoint in a slot, if its gate is open and they are valid.
fn read_slot(gate: u8, body: &[u8]) -> Option<(u64, Checkpoint)>
    requires { length body.now ≡ 127 }
    ensures says { read_slot gate body.now ≡ result }
    ensures generation { IfSome result (λ read. read.0 ≤ most_generation) }
{
    if gate != OPEN {
        return None;
    }
    let generation = digits_value(&body[..15])?;
    match read_wide_point(&body[15..95]) {
        Ok(point) => Some((generation, point)),
        Err(_) => None,
    }
}

/// Returns the current slot, and whether the other slot's gate is open.
fn found_in(bytes: &[u8], in_second: bool, generation: u64, point: Checkpoint) -> Found
    requires size { length bytes.now ≡ 256 }
    requires says { slot_at in_second bytes.now ≡ Some (generation, point) }
    requires meant { Loses in_second generation (slot_at (not in_second) bytes.now) }
    ensures found { IsFound result bytes.now }
    ensures generation { result.generation ≡ generation }
    ensures point { result.point ≡ point }
{
    let other = if in_second { bytes[0] } else { bytes[128] };
    Found {
        in_second,
        other_open: other == OPEN,
        generation,
        point,
    }
}

/// Returns the current slot: the slot with the greater generation, or the first if both are equal.
fn find(bytes: &[u8]) -> Option<Found>
    requires { length bytes.now ≡ 256 }
    ensures found { MatchOption result
        ((slot_at false bytes.now ≡ None) × (slot_at true bytes.now ≡ None))
        (λ found. IsFound found bytes.now) }
    ensures generation { IfSome result (λ found. found.generation ≤ most_generation) }
{
    let first = read_slot(bytes[0], &bytes[1..128]);
    let second = read_slot(bytes[128], &bytes[129..256]);
    match second {
        None => match first {
            None => None,
            Some((generation, point)) => Some(found_in(bytes, false, generation, point)),
        },
        Some((generation, point)) => match first {
            None => Some(found_in(bytes, true, generation, point)),
            Some((first_generation, first_point)) => {
                if first_generation < generation {
                    return Some(found_in(bytes, true, generation, point));
                }
                Some(found_in(bytes, false, first_generation, first_point))
            }
        },
    }
}

/// Finds the staged data: the current slot, and the frames that its checkpoint counts. The disk is
/// only read.
pub(crate) fn look<D: Disk>(disk: &mut D) -> Result<(Found, Walked), StageFault>
    ensures found { D.is_honest disk.old → IfOk result
        (λ looked. IsFound looked.0 (D.seen disk.old)) }
    ensures framed { D.is_honest disk.old → IfOk result (λ looked. WalkedOver
        looked.0.point.staged looked.1.broken looked.1.records (D.seen disk.old)) }
    ensures within { IfOk result (λ looked.
        WalkedIn looked.0.point.staged (D.length_of disk.new) looked.1.broken) }
    ensures generation { IfOk result (λ looked. looked.0.generation ≤ most_generation) }
    ensures staged { IfOk result (λ looked. looked.0.point.staged ≤ most_staged) }
    ensures none { D.is_honest disk.old → IfErr result
        (λ fault. SaysNone fault → RemainsNone (D.seen disk.old)) }
    ensures no_frame { IfErr result (λ fault. OnBadFrame fault (λ place. ⊥)) }
    ensures durable { D.is_honest disk.old → OnOk result (IsDurable D.Disk disk.new) }
    ensures calm { OnOk result (D.faults disk.new ≡ D.faults disk.old) }
    ensures reads { OnlyReads D.Disk disk.old disk.new }
    ensures ends { EndsFinding D.Disk disk.old result disk.new }
{
    // The disk is synced before anything is read: reads then return the bytes that a crash leaves,
    // and the truncation afterwards relies on slots that do not change.
    disk.sync()?;
    let len = disk.len()?;
    if len < 256 {
        return Err(StageFault::NoPoint);
    }
    let mut bytes = [0; 256];
    disk.read(0, &mut bytes)?;
    let Some(found) = find(&bytes) else {
        return Err(StageFault::NoPoint);
    };
    let walked = walk(disk, found.staged())?;
    Ok((found, walked))
}
