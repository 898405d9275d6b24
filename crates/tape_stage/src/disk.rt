//! Disks, which store a stage's bytes.

pub mod buffered;
pub mod content;
pub mod file;
pub mod memory;

ghost use Rattle.std.specs.Prelude.{◌≡◌, ◌+◌, ◌≤◌, ℕ, List, length, take, max, slice_range, IfOk};
ghost use Rattle.std.specs.Prelude.{OnOk, OnErr, IsOk, Option, None};
ghost use Rattle.tape_core.specs.Weight.{Rose};
ghost use Rattle.tape_stage.specs.Disk.{Holds, Torn, CutShort, Follows, Allows, NoMore, Only};
ghost use Rattle.tape_stage.specs.Disk.{IsLater, SameFact, CountsDown};

/// The disk failed.
#[derive(Clone, Copy, Debug, PartialEq, Eq)]
pub enum DiskFault {
    Device,
}

/// Counts a failed call.
pub(crate) fn fail(failed: &mut u64) -> DiskFault
    ensures counted { Rose failed.old failed.new }
    ensures once { failed.new ≤ failed.old + 1 }
    ensures small { failed.new ≤ 18446744073709551615 }
{
    *failed = failed.saturating_add(1);
    DiskFault::Device
}

/// A disk, which stores a stage's bytes: it is read and written at any offset, truncated and
/// synced.
pub trait Disk {
    /// Whether the contract of each call holds in full; on other disks only the contracts about
    /// lengths and counts hold. After a failed sync, a disk may no longer be honest.
    ghost is_honest: { Self → Type 0 };

    /// The length in bytes.
    ghost length_of: { Self → ℕ };

    /// The bytes that reads return.
    ghost seen: { Self → List ℕ };

    /// The contents that a crash at this moment may leave.
    ghost may_leave: { Self → List ℕ → Type 0 };

    /// The current moment, a number that never decreases.
    ghost moment: { Self → ℕ };

    /// The contents that a crash at any moment since `t` might have left, during a call or between
    /// two calls.
    ghost left_since: { Self → ℕ → List ℕ → Type 0 };

    /// The number of failures so far.
    ghost faults: { Self → ℕ };

    /// The number of further calls after which each call fails, if a limit was set.
    ghost calls_left: { Self → Option ℕ } = { λ _. None };

    /// Returns the length in bytes.
    ///
    /// # Errors
    ///
    /// Returns `Device` on failure. The bytes are unchanged.
    fn len(&mut self) -> Result<u64, DiskFault>
        ensures value { IfOk result (λ n. n ≡ length_of self.old) }
        ensures same_length { length_of self.new ≡ length_of self.old }
        ensures same { is_honest self.old → seen self.new ≡ seen self.old }
        ensures crash { is_honest self.old → NoMore (may_leave self.old) (may_leave self.new) }
        ensures time { is_honest self.old → IsLater moment left_since may_leave self.old self.new }
        ensures cause { OnErr result (Rose (faults self.old) (faults self.new)) }
        ensures calm { OnOk result (faults self.new ≡ faults self.old) }
        ensures stop { CountsDown (IsOk result) (calls_left self.old) (calls_left self.new) }
        ensures honest { SameFact (is_honest self.old) (is_honest self.new) }
        ensures stays { is_honest self.old → NoMore (may_leave self.new) (may_leave self.old) };

    /// Fills the buffer with the bytes at offset `place`.
    ///
    /// # Errors
    ///
    /// Returns `Device` on failure. The bytes are unchanged; the buffer may then contain anything.
    fn read(&mut self, place: u64, buf: &mut [u8]) -> Result<(), DiskFault>
        requires { place + length buf.old ≤ length_of self.old }
        ensures bytes { is_honest self.old
            → OnOk result (buf.new ≡ slice_range (seen self.old) place (place + length buf.old)) }
        ensures same_length { length_of self.new ≡ length_of self.old }
        ensures same { is_honest self.old → seen self.new ≡ seen self.old }
        ensures crash { is_honest self.old → NoMore (may_leave self.old) (may_leave self.new) }
        ensures time { is_honest self.old → IsLater moment left_since may_leave self.old self.new }
        ensures cause { OnErr result (Rose (faults self.old) (faults self.new)) }
        ensures calm { OnOk result (faults self.new ≡ faults self.old) }
        ensures stop { CountsDown (IsOk result) (calls_left self.old) (calls_left self.new) }
        ensures honest { SameFact (is_honest self.old) (is_honest self.new) };

    /// Writes `bytes` at offset `place`, and extends the disk if needed. Until a sync, a crash may
    /// leave any bytes in that range.
    ///
    /// # Errors
    ///
    /// Returns `Device` on failure. The range may then contain any bytes; all other bytes are
    /// unchanged.
    fn write_at(&mut self, place: u64, bytes: &[u8]) -> Result<(), DiskFault>
        requires { place ≤ length_of self.old }
        ensures written { is_honest self.old
            → OnOk result (Holds (seen self.old) place bytes.now (seen self.new)) }
        ensures long { OnOk result (length_of self.new ≡ max (length_of self.old)
            (place + length bytes.now)) }
        ensures no_shorter { length_of self.old ≤ length_of self.new }
        ensures no_longer { length_of self.new ≤ max (length_of self.old)
            (place + length bytes.now) }
        ensures partly { is_honest self.old
            → OnErr result (Torn place (length bytes.now) (seen self.old) (seen self.new)) }
        ensures crash { is_honest self.old
            → Follows (Torn place (length bytes.now)) (may_leave self.old) (may_leave self.new) }
        ensures time { is_honest self.old → IsLater moment left_since may_leave self.old self.new }
        ensures cause { OnErr result (Rose (faults self.old) (faults self.new)) }
        ensures calm { OnOk result (faults self.new ≡ faults self.old) }
        ensures stop { CountsDown (IsOk result) (calls_left self.old) (calls_left self.new) }
        ensures honest { SameFact (is_honest self.old) (is_honest self.new) }
        ensures stays { is_honest self.old → NoMore (may_leave self.new) (may_leave self.old) }
        ensures any { is_honest self.old
            → OnOk result (Allows (Torn place (length bytes.now)) (may_leave self.old)
            (may_leave self.new)) };

    /// Truncates the disk to length `len`.
    ///
    /// # Errors
    ///
    /// Returns `Device` on failure. Any bytes, or none, may then follow that length; the bytes
    /// before it are unchanged.
    fn cut(&mut self, len: u64) -> Result<(), DiskFault>
        requires { len ≤ length_of self.old }
        ensures cut { is_honest self.old → OnOk result (seen self.new ≡ take len (seen self.old)) }
        ensures short { OnOk result (length_of self.new ≡ len) }
        ensures partly { is_honest self.old
            → OnErr result (CutShort len (seen self.old) (seen self.new)) }
        ensures crash { is_honest self.old
            → Follows (CutShort len) (may_leave self.old) (may_leave self.new) }
        ensures time { is_honest self.old → IsLater moment left_since may_leave self.old self.new }
        ensures cause { OnErr result (Rose (faults self.old) (faults self.new)) }
        ensures calm { OnOk result (faults self.new ≡ faults self.old) }
        ensures stop { CountsDown (IsOk result) (calls_left self.old) (calls_left self.new) }
        ensures honest { SameFact (is_honest self.old) (is_honest self.new) };

    /// Makes all bytes durable: after a sync, a crash leaves the bytes that reads return.
    ///
    /// # Errors
    ///
    /// Returns `Device` on failure. From then on the disk need not be honest: a system may have
    /// dropped bytes that it could not write, and may return Ok from the next sync.
    fn sync(&mut self) -> Result<(), DiskFault>
        ensures durable { is_honest self.old
            → OnOk result (Only (seen self.old) (may_leave self.new)) }
        ensures same_length { length_of self.new ≡ length_of self.old }
        ensures same { is_honest self.old → seen self.new ≡ seen self.old }
        ensures crash { is_honest self.old → NoMore (may_leave self.old) (may_leave self.new) }
        ensures time { is_honest self.old → IsLater moment left_since may_leave self.old self.new }
        ensures cause { OnErr result (Rose (faults self.old) (faults self.new)) }
        ensures calm { OnOk result (faults self.new ≡ faults self.old) }
        ensures stop { CountsDown (IsOk result) (calls_left self.old) (calls_left self.new) }
        ensures honest { OnOk result (is_honest self.old → is_honest self.new) }
        ensures back { is_honest self.new → is_honest self.old };

    /// The length is the number of bytes that reads return.
    ghost long_as_seen: { (disk : Self) → is_honest disk → length_of disk ≡ length (seen disk) };

    /// The bytes that reads return are a possible result of a crash.
    ghost seen_now: { (disk : Self) → is_honest disk → may_leave disk (seen disk) };

    /// The current moment is among those since an earlier moment.
    ghost counts_now: { (disk : Self) (t : ℕ) (c : List ℕ) → is_honest disk → t ≤ moment disk
        → may_leave disk c → left_since disk t c };

    /// Among the moments since the current one there is no later moment.
    ghost only_now: { (disk : Self) (c : List ℕ) → is_honest disk → left_since disk (moment disk) c
        → may_leave disk c };
}
