//! In-memory volumes.

ghost use Rattle.std.specs.Prelude.{◌≡◌, ◌≤◌, [], length, slice_get};
ghost use Rattle.std.specs.Option.{option_map, option_copied};
ghost use Rattle.tape_image.specs.Reader.{tape_item};
ghost use Rattle.tape_writer.specs.Tapes.{Ended, all_volumes, volume_at, Rose};

use crate::fault::OutFault;
use crate::out::TapeOut;
use std::alloc::Global;
use std::marker::Model;
use tape_image::Item;
use tape_label::Vol1;

/// An item of an in-memory volume.
#[derive(Drop)]
enum Kept {
    /// A block.
    Block(Vec<u8>),
    /// A tape mark.
    Mark,
}

/// Returns element number `n`, counted from 0, or `None` if there is no such element.
fn nth<T>(elements: &[T], n: usize) -> Option<&T>
    ensures { option_copied result ≡ slice_get elements.now n }
{
    elements.get(n)
}

/// A `TapeOut` that keeps the volumes in memory.
///
/// `count`, `length` and `item` return the contents. Writing an item returns `Device` if no volume
/// is current.
#[derive(Drop)]
pub struct MemoryTapes {
    alloc: Global,
    ended: Vec<Vec<Kept>>,
    current: Option<Vec<Kept>>,
    misused: u64,
    refused: u64,
}

impl Model for MemoryTapes {
    ghost use Rattle.tape_writer.specs.Kept.{InMemory, tapes_of};
    ghost use Rattle.std.specs.{Prelude.map, Option.option_map};

    ghost Value = { InMemory };

    ghost view = { λ m. record {
      tapes = tapes_of (map (λ v. v.items) m.ended.items) (option_map (λ v. v.items) m.current);
      misused = m.misused;
      refused = m.refused;
    } };
}

impl MemoryTapes {
    ghost use Rattle.tape_writer.specs.Kept.{volume_of};

    /// Creates tapes without volumes.
    pub fn new(alloc: Global) -> Self
        ensures { result ≡ record { tapes = Ended []; misused = 0; refused = 0 } }
    {
        MemoryTapes {
            alloc,
            ended: Vec::new(alloc),
            current: None,
            misused: 0,
            refused: 0,
        }
    }

    /// Returns the number of volumes, including the current one.
    pub fn count(&self) -> usize
        ensures { result ≡ length (all_volumes self.now.tapes) }
    {
        match &self.current {
            None => self.ended.len(),
            Some(_) => self.ended.len() + 1,
        }
    }

    /// Returns the number of items on volume `volume`, counted from 0, or 0 if there is no such
    /// volume.
    #[tactic(auto, using(crate::proofs::Closing::kept_length))]
    pub fn length(&self, volume: usize) -> usize
        ensures { result ≡ length (volume_at self.now.tapes volume) }
    {
        self.items(volume).len()
    }

    /// Returns item `place` of volume `volume`, both counted from 0, or `None` if there is no such
    /// item.
    #[tactic(auto, using(crate::proofs::Closing::kept_item))]
    pub fn item(&self, volume: usize, place: usize) -> Option<Item<'_>>
        ensures { option_map tape_item result
            ≡ slice_get (volume_at self.now.tapes volume) place }
    {
        match nth(self.items(volume), place) {
            Some(Kept::Block(bytes)) => Some(Item::Block(bytes.as_slice())),
            Some(Kept::Mark) => Some(Item::Mark),
            None => None,
        }
    }

    /// Returns the items of volume `index`, counted from 0, or no items if there is no such
    /// volume.
    fn items(&self, index: usize) -> &[Kept]
        ensures { volume_of result.now ≡ volume_at self.now.tapes index }
    {
        match &self.current {
            Some(current) if index == self.ended.len() => current.as_slice(),
            _ => match nth(self.ended.as_slice(), index) {
                Some(items) => items.as_slice(),
                None => &[],
            },
        }
    }

    /// Counts a call without a current volume.
    fn misuse(&mut self) -> OutFault
        ensures fault { result ≡ OutFault.Device }
        ensures counted { Rose self.old.misused self.new.misused }
        ensures grew { self.old.misused ≤ self.new.misused }
        ensures tapes { self.new.tapes ≡ self.old.tapes }
        ensures refused { self.new.refused ≡ self.old.refused }
    {
        self.misused = self.misused.saturating_add(1);
        OutFault::Device
    }

    /// Counts a failed allocation.
    fn refuse(&mut self) -> OutFault
        ensures fault { result ≡ OutFault.OutOfMemory }
        ensures counted { Rose self.old.refused self.new.refused }
        ensures grew { self.old.refused ≤ self.new.refused }
        ensures tapes { self.new.tapes ≡ self.old.tapes }
        ensures misused { self.new.misused ≡ self.old.misused }
    {
        self.refused = self.refused.saturating_add(1);
        OutFault::OutOfMemory
    }
}

impl TapeOut for MemoryTapes {
    ghost use Rattle.std.specs.Prelude.{Err, IfErr, ◌∷◌, ◌↔◌};
    ghost use Rattle.tape_image.specs.Tape.{IsTapeItem, block, mark};
    ghost use Rattle.tape_writer.specs.Kept.{failures_in};
    ghost use Rattle.tape_writer.specs.Tapes.{Takes, Changes, Closes, Keeps, Grows, HasCause};

    ghost holds = { λ m tapes. m.tapes ≡ tapes };

    ghost failures = { λ m. failures_in m };

    ghost asked = { λ _ _. Unit {0} };

    fn block(&mut self, bytes: &[u8]) -> Result<(), OutFault>
        requires sized { IsTapeItem (block bytes.now) }
        ensures ok { Takes (block bytes.now ∷ []) (λ t. self.old.tapes ≡ t) result
            (λ t. self.new.tapes ≡ t) }
        ensures err { Keeps (λ t. self.old.tapes ≡ t) result (λ t. self.new.tapes ≡ t) }
        ensures count { Grows (failures_in self.old) (failures_in self.new) }
        ensures cause { HasCause OutFault.Device OutFault.OutOfMemory
            (failures_in self.old) result (failures_in self.new) }
        ensures misuse { (result ≡ Err OutFault.Device)
            ↔ (self.old.tapes ≡ Ended (all_volumes self.old.tapes)) }
    {
        let Some(items) = &mut self.current else {
            return Err(self.misuse());
        };
        let Ok(copy) = bytes.to_vec(self.alloc) else {
            return Err(self.refuse());
        };
        match items.push(Kept::Block(copy)) {
            Ok(()) => Ok(()),
            Err(_) => Err(self.refuse()),
        }
    }

    fn mark(&mut self) -> Result<(), OutFault>
        ensures ok { Takes (mark ∷ []) (λ t. self.old.tapes ≡ t) result
            (λ t. self.new.tapes ≡ t) }
        ensures err { Keeps (λ t. self.old.tapes ≡ t) result (λ t. self.new.tapes ≡ t) }
        ensures count { Grows (failures_in self.old) (failures_in self.new) }
        ensures cause { HasCause OutFault.Device OutFault.OutOfMemory
            (failures_in self.old) result (failures_in self.new) }
        ensures misuse { (result ≡ Err OutFault.Device)
            ↔ (self.old.tapes ≡ Ended (all_volumes self.old.tapes)) }
    {
        let Some(items) = &mut self.current else {
            return Err(self.misuse());
        };
        match items.push(Kept::Mark) {
            Ok(()) => Ok(()),
            Err(_) => Err(self.refuse()),
        }
    }

    fn change_volume(&mut self, _volume: &Vol1) -> Result<(), OutFault>
        ensures ok { Changes [] (λ t. self.old.tapes ≡ t) result (λ t. self.new.tapes ≡ t) }
        ensures err { Keeps (λ t. self.old.tapes ≡ t) result (λ t. self.new.tapes ≡ t) }
        ensures count { Grows (failures_in self.old) (failures_in self.new) }
        ensures cause { HasCause OutFault.Device OutFault.OutOfMemory
            (failures_in self.old) result (failures_in self.new) }
        ensures memory { IfErr result (λ fault. fault ≡ OutFault.OutOfMemory) }
    {
        self.close()?;
        self.current = Some(Vec::new(self.alloc));
        Ok(())
    }

    fn close(&mut self) -> Result<(), OutFault>
        ensures ok { Closes (λ t. self.old.tapes ≡ t) result (λ t. self.new.tapes ≡ t) }
        ensures err { Keeps (λ t. self.old.tapes ≡ t) result (λ t. self.new.tapes ≡ t) }
        ensures count { Grows (failures_in self.old) (failures_in self.new) }
        ensures cause { HasCause OutFault.Device OutFault.OutOfMemory
            (failures_in self.old) result (failures_in self.new) }
        ensures memory { IfErr result (λ fault. fault ≡ OutFault.OutOfMemory) }
    {
        let Some(items) = self.current.take() else {
            return Ok(());
        };
        match self.ended.push(items) {
            Ok(()) => Ok(()),
            Err(failed) => {
                self.current = Some(failed.value);
                Err(self.refuse())
            }
        }
    }
}
