//! An in-memory disk, which keeps a record of its calls.
ghost use Rattle.std.specs.Prelude.{◌≡◌, ◌≤◌, [], length, refl, Some, None, OnOk, OnErr};
ghost use Rattle.tape_core.specs.Weight.{Rose};
ghost use Rattle.tape_stage.specs.Calls.{counts, only, seen_image};
ghost use Rattle.tape_stage.specs.Disk.{Only, CountsDown};

use crate::disk::content::Content;
use crate::disk::{Disk, DiskFault, fail};
use std::alloc::Global;

/// A `Disk` that keeps its bytes in memory. A crash and a limited number of calls can be simulated.
#[derive(Drop)]
pub struct MemoryDisk {
    pub(crate) content: Content,
    /// The number of further calls after which each call fails, if a limit was set.
    left: Option<u64>,
    pub(crate) failed: u64,
}

impl MemoryDisk {
    ghost use Rattle.tape_stage.specs.Memory.{memory_bytes, memory_leaves, memory_worst};

    /// Creates an empty disk. Does not allocate.
    pub fn new(alloc: Global) -> Self
        ensures bytes { memory_bytes result ≡ [] }
        ensures calm { result.failed ≡ 0 }
        ensures runs { result.left ≡ None }
        ensures durable { Only (memory_bytes result) (memory_leaves result) }
    {
        MemoryDisk::from_bytes(alloc, Vec::new(alloc))
    }

    /// Creates a disk containing `bytes`, all of them durable. Does not allocate.
    pub fn from_bytes(alloc: Global, bytes: Vec<u8>) -> Self
        ensures bytes { memory_bytes result ≡ bytes.items }
        ensures calm { result.failed ≡ 0 }
        ensures runs { result.left ≡ None }
        ensures durable { Only (memory_bytes result) (memory_leaves result) }
    {
        MemoryDisk {
            content: Content {
                alloc,
                bytes,
                changed: false,
                first: Vec::new(alloc),
                worst: Vec::new(alloc),
                calls: Vec::new(alloc),
            },
            left: None,
            failed: 0,
        }
    }

    /// Returns the contents that reads see.
    pub fn bytes(&self) -> &[u8]
        ensures { result.now ≡ memory_bytes self.now }
    {
        &self.content.bytes
    }

    /// Makes every call fail after the next `count` calls.
    pub fn stop_after(&mut self, count: u64)
        ensures left { self.new.left ≡ Some count }
        ensures bytes { memory_bytes self.new ≡ memory_bytes self.old }
        ensures content { self.new.content ≡ self.old.content }
        ensures calm { self.new.failed ≡ self.old.failed }
    {
        self.left = Some(count);
    }

    /// Returns the worst disk that a crash may leave: every byte that was not durable is 255, and
    /// no byte is missing. All bytes of the new disk are durable, and its calls succeed.
    pub fn crash(self) -> MemoryDisk
        ensures calm { result.failed ≡ 0 }
        ensures runs { result.left ≡ None }
        ensures durable { Only (memory_bytes result) (memory_leaves result) }
        ensures possible { memory_leaves self (memory_bytes result) }
        ensures worst { memory_bytes result ≡ memory_worst self }
        ensures longest { length (memory_bytes self) ≤ length (memory_bytes result) }
    {
        let content = self.content;
        if content.changed {
            MemoryDisk::from_bytes(content.alloc, content.worst)
        } else {
            MemoryDisk::from_bytes(content.alloc, content.bytes)
        }
    }

    /// Counts a call.
    ///
    /// # Errors
    ///
    /// Returns `Device` if no call is left.
    fn count(&mut self) -> Result<(), DiskFault>
        ensures content { self.new.content ≡ self.old.content }
        ensures made { OnOk result (CountsDown (Unit {0}) self.old.left self.new.left) }
        ensures counts { CountsDown ⊥ self.old.left self.new.left }
        ensures cause { OnErr result (Rose self.old.failed self.new.failed) }
        ensures calm { OnOk result (self.new.failed ≡ self.old.failed) }
    {
        let Some(left) = self.left else {
            return Ok(());
        };
        if left == 0 {
            return Err(fail(&mut self.failed));
        }
        self.left = Some(left - 1);
        Ok(())
    }
}

impl Disk for MemoryDisk {
    ghost use Rattle.tape_stage.specs.Memory.{first_of, memory_bytes, memory_leaves, memory_left};

    ghost is_honest = { λ _. Unit {0} };

    ghost length_of = { λ d. length (memory_bytes d) };

    ghost seen = { memory_bytes };

    ghost may_leave = { memory_leaves };

    ghost moment = { λ d. length d.content.calls.items };

    ghost left_since = { memory_left };

    ghost faults = { λ d. d.failed };

    ghost calls_left = { λ d. d.left };

    ghost long_as_seen = { λ d _. refl };

    ghost seen_now = { λ d _. seen_image (first_of d.content)
        (memory_bytes d) d.content.calls.items d.content.right.fit d.content.right.seen };

    ghost counts_now = { λ d t c honest le now. counts (first_of d.content)
        (λ b. b ≡ first_of d.content) d.content.calls.items t c le now };

    ghost only_now = { λ d c honest left. only (first_of d.content)
        (λ b. b ≡ first_of d.content) d.content.calls.items c left };

    fn len(&mut self) -> Result<u64, DiskFault> {
        self.count()?;
        match self.content.look() {
            Ok(()) => Ok(self.content.bytes.len() as u64),
            Err(_) => Err(fail(&mut self.failed)),
        }
    }

    fn read(&mut self, place: u64, buf: &mut [u8]) -> Result<(), DiskFault> {
        self.count()?;
        match self.content.look() {
            Ok(()) => {
                let start = place as usize;
                buf.copy_from_slice(&self.content.bytes[start..start + buf.len()]);
                Ok(())
            }
            Err(_) => Err(fail(&mut self.failed)),
        }
    }

    fn write_at(&mut self, place: u64, bytes: &[u8]) -> Result<(), DiskFault> {
        self.count()?;
        match self.content.write(place as usize, bytes) {
            Ok(()) => Ok(()),
            Err(_) => Err(fail(&mut self.failed)),
        }
    }

    fn cut(&mut self, len: u64) -> Result<(), DiskFault> {
        self.count()?;
        match self.content.cut(len as usize) {
            Ok(()) => Ok(()),
            Err(_) => Err(fail(&mut self.failed)),
        }
    }

    fn sync(&mut self) -> Result<(), DiskFault> {
        self.count()?;
        match self.content.sync() {
            Ok(()) => Ok(()),
            Err(_) => Err(fail(&mut self.failed)),
        }
    }
}
