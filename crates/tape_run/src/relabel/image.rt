//! The bytes of an image whose labels get other identifiers and numbers.

ghost use Rattle.std.specs.Prelude.{◌≡◌, ◌≤◌, length, IfOk};

use crate::relabel::plan::{ImagePlan, NewName};
use crate::relabel::steps::{LabelPart, LabelPlace, relabelled, step};
use byteorder::{ByteOrder, LittleEndian};
use std::io;
use std::io::Read;
use tape_image::Item;
use tape_label::Head1;

/// The number of bytes of a label as a block: 80 characters between two words.
const LABEL: usize = 88;

/// The word of an erase gap.
const GAP: u32 = 0xFFFF_FFFE;

/// The length of the longest block. A longer block is bad.
const LONGEST_BLOCK: u32 = 99_999;

/// What follows the bytes that are held.
#[derive(Clone, Copy, PartialEq, Eq)]
enum Rest {
    /// An item.
    Items,
    /// So many bytes of an item, and then an item.
    Bytes(u64),
    /// Bytes that stay as they are.
    Unchanged,
    /// Nothing: the image ends.
    Nothing,
}

/// An image whose labels are changed as it is read: those of its sections, one after another, by
/// its plan. Its items stay at their places, and no other byte is changed.
#[derive(Drop)]
pub struct Relabelling {
    plan: ImagePlan,
    place: LabelPlace,
    /// The number of sections that have begun.
    begun: usize,
    /// Bytes that were read: `filled` of them, of which `given` were given on.
    held: [u8; LABEL],
    filled: usize,
    given: usize,
    /// Whether these were looked at.
    is_ready: bool,
    rest: Rest,
}

impl Relabelling {
    /// Creates the image of an unread one that has this plan.
    pub fn new(plan: ImagePlan) -> Relabelling {
        Relabelling {
            plan,
            place: LabelPlace::Outside,
            begun: 0,
            held: [0; LABEL],
            filled: 0,
            given: 0,
            is_ready: false,
            rest: Rest::Items,
        }
    }

    /// Returns the new name of the section that began last.
    fn name(&self) -> Option<NewName> {
        let number = self.begun.checked_sub(1)?;
        self.plan.names.get(number).copied()
    }

    /// Returns a header label that the unread image has in the section that began last, as it is
    /// with its new name.
    pub fn head(&self, head: &Head1) -> Head1 {
        match self.name() {
            Some(NewName { key: Some(key), .. }) => Head1 {
                set_id: key.set_id,
                sect: key.sect,
                sequence: key.file,
                ..*head
            },
            _ => *head,
        }
    }

    /// Holds `count` bytes. Returns false if the device ends before that.
    fn fill<R: Read>(&mut self, device: &mut R, count: usize) -> io::Result<bool> {
        let count = count.min(LABEL);
        for _ in 0..count {
            if self.filled >= count {
                break;
            }
            match device.read(&mut self.held[self.filled..count])? {
                0 => return Ok(false),
                read => self.filled = self.filled.saturating_add(read),
            }
        }
        Ok(self.filled >= count)
    }

    /// Takes an item, and returns what it is.
    fn take(&mut self, item: Item<'_>) -> LabelPart
        ensures { self.new.held ≡ self.old.held }
    {
        let turn = step(self.place, item);
        self.place = turn.next;
        if matches!(turn.part, LabelPart::Header | LabelPart::LoneTrailer) {
            self.begun = self.begun.saturating_add(1);
            if self.plan.ends && self.begun > self.plan.names.len() {
                self.rest = Rest::Nothing;
            }
        }
        turn.part
    }

    /// Takes the label that is held, and changes it.
    fn take_label(&mut self) {
        let mut label = [0; 80];
        label.copy_from_slice(&self.held[4..84]);
        if self.take(Item::Block(&label)) == LabelPart::Other {
            return;
        }
        let Some(name) = self.name() else {
            return;
        };
        let NewName { from, key } = name;
        if let Some(key) = key {
            let text = relabelled(&from, &key, &label);
            self.held[4..84].copy_from_slice(&text);
        }
    }

    /// Takes the item that the word `word` begins. Among the data of a section nothing is changed.
    fn take_item<R: Read>(&mut self, device: &mut R, word: u32) -> io::Result<()>
        ensures data { self.old.place ≡ LabelPlace.Data → self.new.held ≡ self.old.held }
        ensures unread { self.old.place ≡ LabelPlace.Data → device.new ≡ device.old }
    {
        let (len, high) = (word % 0x0100_0000, word / 0x0100_0000);
        if word == GAP {
            return Ok(());
        }
        if word == 0 {
            self.take(Item::Mark);
            return Ok(());
        }
        if len == 0 || (high != 0 && high != 0x80) {
            self.rest = Rest::Unchanged;
            return Ok(());
        }
        if word == 80 && self.place != LabelPlace::Data {
            if self.fill(device, LABEL)? && LittleEndian::read_u32(&self.held[84..]) == word {
                self.take_label();
            } else {
                self.rest = Rest::Unchanged;
            }
            return Ok(());
        }
        self.take(if word > LONGEST_BLOCK {
            Item::Bad
        } else {
            Item::Block(&[0])
        });
        self.rest = Rest::Bytes(u64::from(len) + u64::from(len % 2) + 4);
        Ok(())
    }

    /// Looks at the next item.
    fn look<R: Read>(&mut self, device: &mut R) -> io::Result<()> {
        if self.fill(device, 4)? {
            let word = LittleEndian::read_u32(&self.held);
            self.take_item(device, word)?;
        } else {
            self.rest = Rest::Unchanged;
        }
        self.is_ready = true;
        Ok(())
    }

    /// Gives on bytes that are held.
    fn give(&mut self, buf: &mut [u8]) -> usize
        ensures { result ≤ length buf.new }
    {
        let held = self.held.get(self.given..self.filled).unwrap_or(&[]);
        let count = held.len().min(buf.len());
        buf[..count].copy_from_slice(&held[..count]);
        self.given = self.given.saturating_add(count);
        if self.given >= self.filled {
            (self.given, self.filled, self.is_ready) = (0, 0, false);
        }
        count
    }

    /// Reads the next bytes of the image that `device` gives, with other labels.
    ///
    /// # Errors
    ///
    /// Returns the error of the device.
    pub fn read<R: Read>(&mut self, device: &mut R, buf: &mut [u8]) -> io::Result<usize>
        ensures { IfOk result (λ count. count ≤ length buf.new) }
    {
        if buf.is_empty() {
            return Ok(0);
        }
        if self.rest == Rest::Items && !self.is_ready {
            self.look(device)?;
        }
        match self.rest {
            Rest::Nothing => Ok(0),
            _ if self.is_ready && self.filled > 0 => Ok(self.give(buf)),
            Rest::Bytes(left) => {
                let most = left.min(buf.len() as u64) as usize;
                let read = device.read(&mut buf[..most])?;
                let left = left.saturating_sub(read as u64);
                self.rest = if left == 0 {
                    Rest::Items
                } else {
                    Rest::Bytes(left)
                };
                Ok(read)
            }
            Rest::Items | Rest::Unchanged => device.read(buf),
        }
    }
}
