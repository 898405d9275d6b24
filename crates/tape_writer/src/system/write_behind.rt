//! A write buffer for a device.
ghost use Rattle.std.specs.Prelude.{◌≡◌, ◌≤◌, [], Err, vec_capacity, OnOk, OnErr, IsOkUnless};
ghost use Rattle.std.specs.Bool.{OnTrue};
ghost use Rattle.tape_writer.specs.Holding.{fresh, TakesAll, PassesOn, Stops};

use crate::system::bytes::put_all;
use crate::system::fault::FileFault;
use std::io::Write;
use std::marker::Model;

/// The size of the buffer in bytes.
pub const ROOM: usize = 8_192;

/// A device with a write buffer of 8,192 bytes, which merges small writes. The buffer is written
/// when it is full, and when `pass_on` is called.
///
/// If the device fails, it contains a prefix of the accepted bytes, and every later call is
/// refused. Dropping the value discards the buffer.
#[derive(Drop)]
pub struct WriteBehind<W: Write + Drop> {
    device: W,
    held: Vec<u8>,
    size: u64,
    failed: bool,
}

impl<W: Write + Drop> Model for WriteBehind<W> {
    ghost use Rattle.std.specs.Prelude.{◌≤◌, length, vec_capacity};
    ghost use Rattle.tape_writer.specs.Holding.{Holding};

    ghost Value = { Holding };

    ghost view = { λ w. record {
      device = W.contents w.device;
      held = w.held.items;
      size = w.size;
      failed = w.failed;
    } };

    ghost invariant = { λ w. (length w.held.items ≤ 8192) × (8192 ≤ vec_capacity w.held) };
}

impl<W: Write + Drop> WriteBehind<W> {
    /// Creates a device with an empty write buffer. `room` is the memory of the buffer, and does
    /// not grow.
    pub fn over(room: Vec<u8>, device: W) -> WriteBehind<W>
        requires none { room.items ≡ [] }
        requires room { 8192 ≤ vec_capacity room }
        ensures { result ≡ fresh (W.contents device) }
    {
        WriteBehind {
            device,
            held: room,
            size: 0,
            failed: false,
        }
    }

    /// Borrows the device. It does not contain the buffered bytes.
    pub fn device(&self) -> &W
        ensures { W.contents result.now ≡ self.now.device }
    {
        &self.device
    }

    /// Returns the number of bytes accepted.
    pub fn size(&self) -> u64
        ensures { result ≡ self.now.size }
    {
        self.size
    }

    /// Accepts `bytes`, after all bytes accepted before.
    ///
    /// # Errors
    ///
    /// Returns `WriteFailed` if the device failed before, or fails now.
    pub fn take(&mut self, bytes: &[u8]) -> Result<(), FileFault>
        ensures ok { OnOk result (TakesAll bytes.now self.old self.new) }
        ensures err { OnErr result (Stops bytes.now self.old self.new) }
        ensures refused { OnTrue self.old.failed
            ((result ≡ Err FileFault.WriteFailed) × (self.new ≡ self.old)) }
        ensures fault { IsOkUnless result FileFault.WriteFailed }
    {
        if self.failed || bytes.len() > ROOM - self.held.len() {
            self.pass_on()?;
        }
        if bytes.len() > ROOM {
            if let Err(fault) = put_all(&mut self.device, bytes) {
                self.failed = true;
                return Err(fault);
            }
        } else {
            self.held.extend_from_slice(bytes).unwrap();
        }
        self.size = self.size.saturating_add(bytes.len() as u64);
        Ok(())
    }

    /// Writes the buffered bytes.
    ///
    /// # Errors
    ///
    /// The errors are those of `take`.
    pub fn pass_on(&mut self) -> Result<(), FileFault>
        ensures ok { OnOk result (PassesOn self.old self.new) }
        ensures err { OnErr result (Stops [] self.old self.new) }
        ensures refused { OnTrue self.old.failed
            ((result ≡ Err FileFault.WriteFailed) × (self.new ≡ self.old)) }
        ensures fault { IsOkUnless result FileFault.WriteFailed }
    {
        if self.failed {
            return Err(FileFault::WriteFailed);
        }
        if let Err(fault) = put_all(&mut self.device, self.held.as_slice()) {
            self.failed = true;
            return Err(fault);
        }
        self.held.clear();
        Ok(())
    }
}
