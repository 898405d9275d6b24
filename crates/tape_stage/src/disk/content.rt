//! The contents of an in-memory disk, with a record of its calls.
ghost use Rattle.std.specs.Prelude.{◌≡◌, ◌≤◌, ◌+◌, ◌-◌, ◌++◌, length, take, drop};
ghost use Rattle.std.specs.Prelude.{true, OnOk, OnErr, IfOk};
ghost use Rattle.tape_stage.specs.Calls.{kept_or, IsRight, right_one_way};

use std::alloc::{AllocError, Global};

/// A successful call.
#[derive(Drop)]
pub enum Call {
    Look,
    Write { place: u64, bytes: Vec<u8> },
    Cut { len: u64 },
    Sync,
}

/// The bytes, the worst contents that a crash may leave, and all calls so far.
#[derive(Drop)]
pub struct Content {
    pub alloc: Global,
    pub bytes: Vec<u8>,
    pub changed: bool,
    pub first: Vec<u8>,
    pub worst: Vec<u8>,
    pub calls: Vec<Call>,
    ghost right: { IsRight (kept_or changed first.items bytes.items)
        (kept_or changed worst.items bytes.items) bytes.items calls.items } by { right_one_way
            (kept_or changed first.items bytes.items)
            (kept_or changed worst.items bytes.items) bytes.items calls.items },
}

/// Returns `old` with `bytes` written at offset `place`.
fn written(alloc: Global, old: &[u8], place: usize, bytes: &[u8]) -> Result<Vec<u8>, AllocError>
    requires { place ≤ length old.now }
    ensures { IfOk result (λ v. v.items ≡ take place old.now ++ bytes.now ++ drop
        (place + length bytes.now) old.now) }
{
    let mut next = old[..place].to_vec(alloc)?;
    next.extend_from_slice(bytes)?;
    if bytes.len() < old.len() - place {
        next.extend_from_slice(&old[place + bytes.len()..])?;
    }
    Ok(next)
}

impl Content {
    ghost use Rattle.tape_stage.specs.Memory.{SameContent, DidCall};

    /// Saves a copy of the original contents before the first change.
    fn keep_first(&mut self) -> Result<(), AllocError>
        ensures same { SameContent self.old self.new }
        ensures ok { OnOk result (self.new.changed ≡ true) }
    {
        if self.changed {
            return Ok(());
        }
        let first = self.bytes.to_vec(self.alloc)?;
        let worst = self.bytes.to_vec(self.alloc)?;
        self.first = first;
        self.worst = worst;
        self.changed = true;
        Ok(())
    }

    /// Records a call that changed nothing.
    pub fn look(&mut self) -> Result<(), AllocError>
        ensures ok { OnOk result (DidCall Call.Look self.old self.new) }
        ensures err { OnErr result (SameContent self.old self.new) }
    {
        self.calls.push(Call::Look)?;
        Ok(())
    }

    /// Writes, and records the call.
    pub fn write(&mut self, place: usize, bytes: &[u8]) -> Result<(), AllocError>
        requires { place ≤ length self.old.bytes.items }
        ensures ok { OnOk result ((b : _) × (b.items ≡ bytes.now)
            × DidCall (Call.Write place b) self.old self.new) }
        ensures err { OnErr result (SameContent self.old self.new) }
    {
        self.keep_first()?;
        let next = written(self.alloc, &self.bytes, place, bytes)?;
        // The value 255 represents an unknown byte.
        let open = vec![in self.alloc; 0xFFu8; bytes.len()]?;
        let worst = written(self.alloc, &self.worst, place, &open)?;
        let copy = bytes.to_vec(self.alloc)?;
        self.calls.push(Call::Write {
            place: place as u64,
            bytes: copy,
        })?;
        self.bytes = next;
        self.worst = worst;
        Ok(())
    }

    /// Truncates, and records the call.
    pub fn cut(&mut self, len: usize) -> Result<(), AllocError>
        requires { len ≤ length self.old.bytes.items }
        ensures ok { OnOk result (DidCall (Call.Cut len) self.old self.new) }
        ensures err { OnErr result (SameContent self.old self.new) }
    {
        self.keep_first()?;
        let next = self.bytes[..len].to_vec(self.alloc)?;
        let mut worst = self.worst[..len].to_vec(self.alloc)?;
        let open = vec![in self.alloc; 0xFFu8; self.worst.len() - len]?;
        worst.extend_from_slice(&open)?;
        self.calls.push(Call::Cut { len: len as u64 })?;
        self.bytes = next;
        self.worst = worst;
        Ok(())
    }

    /// Records a sync: the contents are durable.
    pub fn sync(&mut self) -> Result<(), AllocError>
        ensures ok { OnOk result (DidCall Call.Sync self.old self.new) }
        ensures err { OnErr result (SameContent self.old self.new) }
    {
        self.keep_first()?;
        let worst = self.bytes.to_vec(self.alloc)?;
        self.calls.push(Call::Sync)?;
        self.worst = worst;
        Ok(())
    }
}
