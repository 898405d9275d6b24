//! A buffer for a disk.
ghost use Rattle.std.specs.Prelude.{◌≡◌, ◌+◌, ◌<◌, ◌≤◌, ◌^◌, [], length, max, take, slice_range};
ghost use Rattle.std.specs.Prelude.{OnOk, OnErr, true, vec_capacity};
ghost use Rattle.std.proofs.Common.{inr, ⊎_elim};
ghost use Rattle.tape_core.specs.Weight.{Rose};
ghost use Rattle.tape_stage.specs.Holding.{with_held, unwritten, LeftTorn, LeftSince, held_long};
ghost use Rattle.tape_stage.specs.Holding.{held_over, torn_same};
ghost use Rattle.tape_stage.specs.{Disk.NoMore, OnlyReading.Looks};

use crate::disk::{Disk, DiskFault, fail};

/// A disk with a buffer, which merges adjacent small writes or holds bytes that were read ahead.
///
/// Bytes to be written are written when a write is not adjacent or does not fit, and before
/// truncating, syncing and reading other bytes; so reads return them, and a sync makes them
/// durable. If writing them fails, the call returns `Device` and they stay buffered: a failure does
/// not change the result of a read, and the next call tries to write them again. Dropping the disk
/// drops them, since no sync has promised to keep them.
///
/// Consecutive reads of any length read each byte of the disk once. The next write or truncation
/// drops the bytes read ahead.
///
/// A call fails only if the disk fails in it.
#[derive(Drop)]
pub struct Buffered<D: Disk> {
    pub(crate) disk: D,
    pub(crate) start: u64,
    /// The buffer, whose capacity is the limit. It never grows.
    pub(crate) bytes: Vec<u8>,
    /// Whether the disk has the bytes of the buffer. Otherwise they are to be written.
    pub(crate) on_disk: bool,
    pub(crate) failed: u64,
    ghost caused: { failed ≤ D.faults disk },
    ghost small: { failed ≤ 18446744073709551615 },
    ghost within: { start ≤ D.length_of disk },
    ghost low: { start + length bytes.items < 2 ^ 64 },
    ghost there: { on_disk ≡ true → start + length bytes.items ≤ D.length_of disk },
    ghost right: { D.is_honest disk → on_disk ≡ true
        → with_held start bytes.items (D.seen disk) ≡ D.seen disk },
}

#[tactic(auto, using(crate::proofs::Caused::caused_on, crate::proofs::Caused::caused_more))]
impl<D: Disk> Buffered<D> {
    /// Creates a disk with an empty buffer that has the capacity of `room`; the contents of `room`
    /// are dropped.
    pub fn over(disk: D, room: Vec<u8>) -> Buffered<D>
        ensures disk { result.disk ≡ disk }
        ensures bytes { result.bytes.items ≡ [] }
        ensures room { vec_capacity result.bytes ≡ vec_capacity room }
        ensures calm { result.failed ≡ 0 }
    {
        let mut bytes = room;
        bytes.clear();
        Buffered {
            disk,
            start: 0,
            bytes,
            on_disk: true,
            failed: 0,
        }
    }

    /// Returns the disk. Bytes to be written are dropped: no sync has promised to keep them.
    pub fn into_disk(self) -> D
        ensures { result ≡ self.disk }
    {
        self.disk
    }

    /// Writes the bytes that are to be written. If that fails, the next call tries again.
    #[inline(never)]
    fn pass_on(&mut self) -> Result<(), DiskFault>
        ensures clean { OnOk result (self.new.on_disk ≡ true) }
        ensures looks { Looks ⟦<Self as Disk>⟧ self.old self.new }
        ensures stays { D.is_honest self.old.disk → let b = ⟦<Self as Disk>⟧ in
            NoMore (b.may_leave self.new) (b.may_leave self.old) }
        ensures cause { OnErr result (Rose self.old.failed self.new.failed) }
        ensures calm { OnOk result (self.new.failed ≡ self.old.failed) }
    {
        if self.on_disk {
            return Ok(());
        }
        let Ok(()) = self.disk.write_at(self.start, self.bytes.as_slice()) else {
            return Err(fail(&mut self.failed));
        };
        self.on_disk = true;
        Ok(())
    }

    /// Fills the start of `buf` with those bytes at offset `place` that are buffered. Returns the
    /// number of these bytes.
    #[inline(always)]
    fn give(&self, place: u64, buf: &mut [u8]) -> usize
        ensures few { result ≤ length buf.old }
        ensures low { place + result < 2 ^ 64 }
        ensures bytes { D.is_honest self.now.disk → take result buf.new ≡ slice_range
            (with_held self.now.start self.now.bytes.items (D.seen self.now.disk))
            place (place + result) }
    {
        // An offset before the start wraps around, and is too great as well.
        let at = place.wrapping_sub(self.start);
        if at > self.bytes.len() as u64 {
            return 0;
        }
        let rest = &self.bytes[at as usize..];
        let count = rest.len().min(buf.len());
        buf[..count].copy_from_slice(&rest[..count]);
        count
    }

    /// Reads ahead at offset `place`, as many bytes as exist and fit, if more than `size` fit. A
    /// failure is ignored, since no caller asked for all of these bytes.
    fn look_ahead(&mut self, place: u64, size: usize)
        requires there { place ≤ D.length_of self.old.disk }
        requires clean { self.old.on_disk ≡ true }
        ensures looks { Looks D.Disk self.old.disk self.new.disk }
        ensures clean { self.new.on_disk ≡ true }
        ensures calm { self.new.failed ≡ self.old.failed }
    {
        if size >= self.bytes.capacity() {
            return;
        }
        let Ok(len) = self.disk.len() else {
            return;
        };
        let count = (len - place).min(self.bytes.capacity() as u64) as usize;
        self.bytes.resize(count, 0).unwrap();
        // The read overwrites the buffer, even if it fails.
        let Ok(()) = self.disk.read(place, self.bytes.as_mut_slice()) else {
            self.bytes.clear();
            return;
        };
        self.start = place;
    }

    /// Fills `buf` with the bytes of the disk at offset `place`. Reads ahead first, if `buf` is
    /// smaller than the buffer.
    #[inline(never)]
    fn look(&mut self, place: u64, buf: &mut [u8]) -> Result<(), DiskFault>
        requires there { place + length buf.old ≤ D.length_of self.old.disk }
        requires clean { self.old.on_disk ≡ true }
        ensures bytes { D.is_honest self.old.disk → OnOk result (buf.new
            ≡ slice_range (D.seen self.old.disk) place (place + length buf.old)) }
        ensures looks { Looks D.Disk self.old.disk self.new.disk }
        ensures clean { self.new.on_disk ≡ true }
        ensures cause { OnErr result (Rose self.old.failed self.new.failed) }
        ensures calm { OnOk result (self.new.failed ≡ self.old.failed) }
    {
        self.look_ahead(place, buf.len());
        if self.give(place, buf) == buf.len() {
            return Ok(());
        }
        match self.disk.read(place, buf) {
            Ok(()) => Ok(()),
            Err(_) => Err(fail(&mut self.failed)),
        }
    }
}

#[tactic(auto, using(crate::proofs::Caused::caused_on, crate::proofs::Caused::caused_more))]
impl<D: Disk> Disk for Buffered<D> {
    ghost is_honest = { λ h. D.is_honest h.disk };

    ghost length_of = { λ h. max (D.length_of h.disk) (h.start + length h.bytes.items) };

    ghost seen = { λ h. with_held h.start h.bytes.items (D.seen h.disk) };

    ghost may_leave = { λ h. LeftTorn (D.may_leave h.disk) h.start
        (unwritten h.on_disk h.bytes.items) };

    ghost moment = { λ h. D.moment h.disk };

    ghost left_since = { λ h. LeftSince (D.left_since h.disk) (D.may_leave h.disk) h.start
        (unwritten h.on_disk h.bytes.items) };

    ghost faults = { λ h. h.failed };

    ghost long_as_seen = { λ h honest. held_long h.start h.bytes.items (D.seen h.disk)
        (D.length_of h.disk) (D.long_as_seen h.disk honest) h.within };

    ghost seen_now = { λ h honest. (
      D.seen h.disk,
      D.seen_now h.disk honest,
      held_over h.on_disk h.start
          h.bytes.items (D.seen h.disk) (D.length_of h.disk) (D.long_as_seen h.disk honest)
          h.within (h.right honest),
    ) };

    ghost counts_now = { λ h t c honest le now. inr now };

    ghost only_now = { λ h c honest left. ⊎_elim (λ was. (
      c,
      D.only_now h.disk c honest was,
      torn_same h.start (length (unwritten h.on_disk h.bytes.items)) c,
    )) (λ now. now) left };

    fn len(&mut self) -> Result<u64, DiskFault> {
        match self.disk.len() {
            Ok(len) => Ok(len.max(self.start + self.bytes.len() as u64)),
            Err(_) => Err(fail(&mut self.failed)),
        }
    }

    #[inline(always)]
    fn read(&mut self, place: u64, buf: &mut [u8]) -> Result<(), DiskFault> {
        let given = self.give(place, buf);
        let rest = &mut buf[given..];
        if rest.is_empty() {
            return Ok(());
        }
        self.pass_on()?;
        self.look(place + given as u64, rest)
    }

    #[inline(always)]
    fn write_at(&mut self, place: u64, bytes: &[u8]) -> Result<(), DiskFault> {
        let is_low = place.checked_add(bytes.len() as u64).is_some();
        let room = self.bytes.capacity() - self.bytes.len();
        let end = self.start + self.bytes.len() as u64;
        if !self.on_disk && end == place && bytes.len() <= room && is_low {
            self.bytes.extend_from_slice(bytes).unwrap();
            return Ok(());
        }
        self.pass_on()?;
        self.bytes.clear();
        self.start = 0;
        if bytes.len() > self.bytes.capacity() || !is_low {
            return match self.disk.write_at(place, bytes) {
                Ok(()) => Ok(()),
                Err(_) => Err(fail(&mut self.failed)),
            };
        }
        self.start = place;
        self.on_disk = false;
        self.bytes.extend_from_slice(bytes).unwrap();
        Ok(())
    }

    fn cut(&mut self, len: u64) -> Result<(), DiskFault> {
        self.pass_on()?;
        self.bytes.clear();
        self.start = 0;
        match self.disk.cut(len) {
            Ok(()) => Ok(()),
            Err(_) => Err(fail(&mut self.failed)),
        }
    }

    fn sync(&mut self) -> Result<(), DiskFault> {
        self.pass_on()?;
        match self.disk.sync() {
            Ok(()) => Ok(()),
            Err(_) => Err(fail(&mut self.failed)),
        }
    }
}
