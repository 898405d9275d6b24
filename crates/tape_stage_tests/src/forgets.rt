//! Tests of a disk whose system forgets: it silently drops the bytes that a failed sync should have
//! written.

ghost use Rattle.std.specs.Prelude.{◌≡◌, false};
ghost use Rattle.tape_core.specs.Weight.{Rose};

use crate::fixtures::*;
use std::alloc::{AllocError, Global};
use std::test::*;
use tape_core::Checkpoint;
use tape_stage::{Disk, DiskFault, MemoryDisk, Stage};

/// A disk on which one sync fails, and each later sync returns Ok and writes nothing. It satisfies
/// the contract of `Disk`, and is honest up to the failed sync.
#[derive(Drop)]
struct Forgetful<D: Disk> {
    disk: D,
    syncs: u64,
    has_failed: bool,
    failed: u64,
}

impl<D: Disk> Forgetful<D> {
    /// Creates a disk on which a sync fails after `syncs` others.
    fn new(disk: D, syncs: u64) -> Forgetful<D> {
        Forgetful {
            disk,
            syncs,
            has_failed: false,
            failed: 0,
        }
    }

    /// Counts a failed call.
    fn fail(&mut self) -> DiskFault
        ensures disk { self.new.disk ≡ self.old.disk }
        ensures has_failed { self.new.has_failed ≡ self.old.has_failed }
        ensures counted { Rose self.old.failed self.new.failed }
    {
        self.failed = self.failed.saturating_add(1);
        DiskFault::Device
    }
}

impl<D: Disk> Disk for Forgetful<D> {
    ghost is_honest = { λ f. (f.has_failed ≡ false) × D.is_honest f.disk };

    ghost length_of = { λ f. D.length_of f.disk };

    ghost seen = { λ f. D.seen f.disk };

    ghost may_leave = { λ f. D.may_leave f.disk };

    ghost moment = { λ f. D.moment f.disk };

    ghost left_since = { λ f. D.left_since f.disk };

    ghost faults = { λ f. f.failed };

    ghost long_as_seen = { λ f honest. D.long_as_seen f.disk honest.1 };

    ghost seen_now = { λ f honest. D.seen_now f.disk honest.1 };

    ghost counts_now = { λ f t c honest le now. D.counts_now f.disk t c honest.1 le now };

    ghost only_now = { λ f c honest left. D.only_now f.disk c honest.1 left };

    fn len(&mut self) -> Result<u64, DiskFault> {
        match self.disk.len() {
            Ok(len) => Ok(len),
            Err(_) => Err(self.fail()),
        }
    }

    fn read(&mut self, place: u64, buf: &mut [u8]) -> Result<(), DiskFault> {
        match self.disk.read(place, buf) {
            Ok(()) => Ok(()),
            Err(_) => Err(self.fail()),
        }
    }

    fn write_at(&mut self, place: u64, bytes: &[u8]) -> Result<(), DiskFault> {
        match self.disk.write_at(place, bytes) {
            Ok(()) => Ok(()),
            Err(_) => Err(self.fail()),
        }
    }

    fn cut(&mut self, len: u64) -> Result<(), DiskFault> {
        match self.disk.cut(len) {
            Ok(()) => Ok(()),
            Err(_) => Err(self.fail()),
        }
    }

    fn sync(&mut self) -> Result<(), DiskFault> {
        if self.has_failed {
            return Ok(());
        }
        if self.syncs == 0 {
            self.has_failed = true;
            return Err(self.fail());
        }
        self.syncs -= 1;
        match self.disk.sync() {
            Ok(()) => Ok(()),
            Err(_) => Err(self.fail()),
        }
    }
}

/// Saves a record on a disk that fails in the last sync of the save, and opens the stage again.
/// Returns the checkpoint acknowledged then, and the disk.
fn saved_and_forgotten(alloc: Global) -> Option<(Checkpoint, MemoryDisk)> {
    // Opening makes two syncs, and saving makes three.
    let disk = Forgetful::new(made(alloc)?.into_disk(), 4);
    let (mut stage, _) = Stage::open_disk(alloc, disk).ok()?;
    if !put(&mut stage, b'a') || save(&mut stage, &in_front(1, 85)?) {
        return None;
    }
    let (stage, point) = Stage::open_disk(alloc, stage.into_disk()).ok()?;
    Some((point, stage.into_disk().disk))
}

/// Returns the checkpoint that remains after the worst crash of an opened stage's disk.
fn behind_a_crash(alloc: Global, disk: MemoryDisk) -> Option<Checkpoint> {
    let (_, point) = Stage::open_disk(alloc, disk.crash()).ok()?;
    Some(point)
}

#[test]
fn behind_a_failed_sync_a_copy_is_kept_and_the_disk_is_not(
    rt: HostRuntime,
) -> Result<(), AllocError> {
    let Some((point, disk)) = saved_and_forgotten(rt.alloc()) else {
        assert!(rt; false);
        return Ok(());
    };
    let copy = disk_of(rt.alloc(), disk.bytes())?;
    assert!(rt; point.staged == 85 && behind_a_crash(rt.alloc(), copy) == Some(point));
    assert!(rt; behind_a_crash(rt.alloc(), disk) == Some(start()));
    Ok(())
}
