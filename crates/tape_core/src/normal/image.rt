//! The image of a tape in normal form, read from the image of the tape.

ghost use Rattle.std.specs.Prelude.{◌≡◌, ◌≤◌, ◌<◌, [], length, IfOk, IfSome, IfNone, option_map};
ghost use Rattle.std.specs.Prelude.{true};
ghost use Rattle.std.specs.Prelude.{false, Some, ◌++◌, take};
ghost use Rattle.std.specs.{Io.ReadsAtMost, Io.KnownBytes.ReadConsumes};
ghost use Rattle.std.specs.Io.KnownBytes.{Keeps, IsAtEnd, prepend_known};
ghost use Rattle.tape_core.specs.NormalForm.Bytes.{looked, reads_labels};
ghost use Rattle.tape_core.specs.NormalForm.Bytes.{normal_bytes, normal_from, by_looked, is_over};
ghost use Rattle.tape_core.specs.NormalForm.{Bytes.IsHeld, Bytes.IsShort};
ghost use Rattle.tape_core.specs.NormalForm.Image.{normal_remaining, steps_left, GivesOn};

use crate::normal::counting::Counting;
use crate::normal::held::{Held, copy_front};
use crate::normal::looking::{Looked, block_size, counted, look, size_looked_at};
use crate::normal::machine::{Missing, Replacement, TapePlace};
use crate::normal::rules::Rules;
use byteorder::{ByteOrder, LittleEndian};
use std::io;
use std::io::Read;

/// What is done with the next bytes of the device.
#[derive(Clone, Copy)]
pub(crate) enum Course {
    /// They begin with an item that has not been looked at.
    Looking,
    /// So many are given on.
    Passing(u64),
    /// So many are left out.
    Skipping(u64),
}

/// The volume label of a tape that has none, as a block.
const VOLUME_LABEL: &[u8; 88] = b"P\0\0\0VOL1                                        \
    \x20                                  4P\0\0\0";

/// The greatest byte offset at which an item may end.
const IMAGE_LIMIT: u64 = 4_294_967_295;

/// A device, and the bytes that were read from it and have not been taken.
#[derive(Drop)]
struct Input<R> {
    device: R,
    held: Held,
}

impl<R: Read> Input<R> {
    /// Holds the next item as far as it is looked at. Returns false if the device ends before that.
    fn hold(&mut self, place: TapePlace) -> io::Result<bool>
        ensures keeps { Keeps (prepend_known self.old.held (R.remaining self.old.device))
            (prepend_known self.new.held (R.remaining self.new.device)) }
        ensures all { IfOk result (λ whole. whole ≡ true → IsHeld place self.new.held) }
        ensures end { IfOk result (λ whole. whole ≡ false
            → IsShort place self.new.held × IsAtEnd (R.remaining self.new.device)) }
    {
        if !self.held.fill(&mut self.device, 4)? {
            return Ok(false);
        }
        let size = size_looked_at(place, self.held.bytes());
        self.held.fill(&mut self.device, size)
    }

    /// Looks at the next item. Returns `None` if there is none.
    fn peek(&mut self, room: u64, place: TapePlace) -> io::Result<Option<Looked>>
        ensures keeps { Keeps (prepend_known self.old.held (R.remaining self.old.device))
            (prepend_known self.new.held (R.remaining self.new.device)) }
        ensures seen { IfOk result (λ seen. IfSome
            (prepend_known self.new.held (R.remaining self.new.device))
            (λ xs. seen ≡ looked room place xs)) }
        ensures size { IfOk result (λ seen. IfSome seen
            (λ l. (4 ≤ l.size) × (l.size ≤ room))) }
    {
        if self.hold(place)? {
            Ok(look(room, place, self.held.bytes()))
        } else {
            Ok(None)
        }
    }
}

impl<R: Read> Read for Input<R> {
    ghost remaining = { λ s. prepend_known s.held (R.remaining s.device) };

    fn read(&mut self, buf: &mut [u8]) -> io::Result<usize> {
        if self.held.bytes().is_empty() {
            return self.device.read(buf);
        }
        Ok(self.held.take(buf))
    }
}

/// The image of a tape in normal form, read from the image of the tape.
#[derive(Drop)]
pub struct NormalImage<R> {
    input: Input<R>,
    rules: Rules,
    pub(crate) counting: Counting,
    /// The number of bytes up to the greatest offset at which an item may end.
    room: u64,
    place: TapePlace,
    course: Course,
    /// The label that is inserted, as a block.
    inserted: &'static [u8],
    /// The label that replaces the item, as a block.
    label: Held,
}

impl<R: Read> NormalImage<R> {
    /// Creates the image in normal form of the image that `device` gives.
    pub fn new(device: R) -> NormalImage<R>
        ensures { normal_remaining R.remaining result
            ≡ option_map normal_bytes (R.remaining device) }
    {
        NormalImage {
            input: Input {
                device,
                held: Held::new(),
            },
            rules: Rules::NONE,
            counting: Counting::START,
            room: IMAGE_LIMIT,
            place: TapePlace::Start(0),
            course: Course::Looking,
            inserted: &[],
            label: Held::new(),
        }
    }

    /// Returns the rules that were applied so far.
    pub fn rules(&self) -> Rules {
        self.rules
    }

    /// Looks at the next item.
    fn advance(&mut self) -> io::Result<()>
        requires on { self.old.course ≡ Course.Looking }
        requires there { is_over self.old.place ≡ false }
        requires inserted { self.old.inserted.now ≡ [] }
        requires label { self.old.label ≡ [] }
        ensures keeps { Keeps (normal_remaining R.remaining self.old)
            (normal_remaining R.remaining self.new) }
        ensures steps { IfOk result (λ _. steps_left self.new < steps_left self.old) }
    {
        let seen = self.input.peek(self.room, self.place)?;
        match seen {
            Some(looked) => self.replace(looked),
            None => {
                self.place = TapePlace::Over;
                self.course = Course::Passing(0);
            }
        }
        Ok(())
    }

    /// Replaces an item that was looked at.
    fn replace(&mut self, looked: Looked)
        requires least { 4 ≤ looked.size }
        requires most { looked.size ≤ self.old.room }
        requires on { self.old.course ≡ Course.Looking }
        requires there { is_over self.old.place ≡ false }
        requires inserted { self.old.inserted.now ≡ [] }
        requires label { self.old.label ≡ [] }
        ensures left { normal_remaining R.remaining self.new ≡ option_map
            (λ xs. by_looked (Some looked) self.old.room xs normal_from)
            (prepend_known self.old.input.held (R.remaining self.old.input.device)) }
        ensures steps { steps_left self.new < steps_left self.old }
    {
        let Looked { size, next, change } = looked;
        self.rules.note(self.place, next, &change);
        self.counting
            .note(self.place, next, &change, self.input.held.bytes());
        self.room -= size;
        self.place = next;
        if let Missing::VolumeLabel = change.missing {
            self.inserted = VOLUME_LABEL;
        }
        match change.instead {
            Replacement::Same => self.course = Course::Passing(size),
            Replacement::Dropped => self.course = Course::Skipping(size),
            Replacement::Label(text) => {
                self.label.put(&text);
                self.course = Course::Skipping(size);
            }
        }
    }

    /// Leaves out `count` bytes. If the image ends before that, what is left is one byte.
    fn skip(&mut self, count: u64) -> io::Result<()>
        requires on { self.old.course ≡ Course.Skipping count }
        requires inserted { self.old.inserted.now ≡ [] }
        requires label { self.old.label ≡ [] }
        ensures keeps { Keeps (normal_remaining R.remaining self.old)
            (normal_remaining R.remaining self.new) }
        ensures steps { IfOk result (λ _. steps_left self.new < steps_left self.old) }
    {
        let mut waste = [0u8; 512];
        let mut left = count;
        'bytes: while left > 0 {
            let most = left.min(512) as usize;
            match self.input.read(&mut waste[..most]) {
                Ok(0) => {
                    self.label.cut();
                    self.place = TapePlace::Over;
                    self.course = Course::Passing(0);
                    return Ok(());
                }
                Ok(read) => left -= read as u64,
                Err(e) => {
                    self.course = Course::Skipping(left);
                    return Err(e);
                }
            }
        }
        self.course = Course::Looking;
        Ok(())
    }

    /// Gives on the word of a block of data. Returns `None` if something else, or nothing, is next,
    /// or if `buf` has no room for a word.
    #[inline(always)]
    fn give_word(&mut self, buf: &mut [u8]) -> io::Result<Option<usize>>
        requires on { self.old.course ≡ Course.Looking }
        requires data { reads_labels self.old.place ≡ false }
        requires there { is_over self.old.place ≡ false }
        requires inserted { self.old.inserted.now ≡ [] }
        requires label { self.old.label ≡ [] }
        ensures { GivesOn (normal_remaining R.remaining self.old)
            (normal_remaining R.remaining self.new) result buf.new }
    {
        if buf.len() < 4 || !self.input.held.bytes().is_empty() {
            return Ok(None);
        }
        let read = self.input.device.read(&mut buf[..4])?;
        if read == 4 {
            if let Some(size) = block_size(self.room, LittleEndian::read_u32(buf)) {
                let place = counted(self.place);
                self.room -= size;
                self.place = place;
                self.course = Course::Passing(size - 4);
                return Ok(Some(4));
            }
        }
        self.input.held.keep(&buf[..read]);
        Ok(None)
    }

    /// Gives the next bytes on, or takes a step towards them.
    fn give(&mut self, buf: &mut [u8]) -> io::Result<Option<usize>>
        requires { 0 < length buf.old }
        ensures given { GivesOn (normal_remaining R.remaining self.old)
            (normal_remaining R.remaining self.new) result buf.new }
        ensures steps { IfOk result
            (λ given. IfNone given (steps_left self.new < steps_left self.old)) }
    {
        if !self.inserted.is_empty() {
            let (count, rest) = copy_front(self.inserted, buf);
            self.inserted = rest;
            return Ok(Some(count));
        }
        if !self.label.bytes().is_empty() {
            return Ok(Some(self.label.take(buf)));
        }
        match self.course {
            Course::Passing(count) => {
                if count == 0 {
                    self.course = Course::Looking;
                    return Ok(None);
                }
                let most = count.min(buf.len() as u64) as usize;
                let read = self.input.read(&mut buf[..most])?;
                self.course = Course::Passing(count - read as u64);
                return Ok(Some(read));
            }
            Course::Skipping(count) => self.skip(count)?,
            Course::Looking => match self.place {
                TapePlace::Over => return Ok(Some(self.input.read(buf)?)),
                _ => self.advance()?,
            },
        }
        Ok(None)
    }

    /// Reads the next bytes of an item that stays as it is, or the word of a block of data. Returns
    /// `None` if something else is next, or if `buf` is empty. No further rules are applied.
    ///
    /// # Errors
    ///
    /// Returns the error of the device.
    #[inline(always)]
    pub fn read_plain(&mut self, buf: &mut [u8]) -> io::Result<Option<usize>>
        ensures { GivesOn (normal_remaining R.remaining self.old)
            (normal_remaining R.remaining self.new) result buf.new }
    {
        if !self.inserted.is_empty() || !self.label.bytes().is_empty() {
            return Ok(None);
        }
        match self.course {
            Course::Passing(count) if count > 0 => {
                let most = count.min(buf.len() as u64) as usize;
                if most == 0 {
                    return Ok(None);
                }
                let read = self.input.read(&mut buf[..most])?;
                self.course = Course::Passing(count - read as u64);
                return Ok(Some(read));
            }
            Course::Skipping(_) => return Ok(None),
            Course::Passing(_) | Course::Looking => self.course = Course::Looking,
        }
        match self.place {
            TapePlace::Data(_, _) => self.give_word(buf),
            _ => Ok(None),
        }
    }

    /// Takes steps until bytes are given on, or nothing is left.
    #[cold]
    fn give_next(&mut self, buf: &mut [u8]) -> io::Result<usize>
        requires { 0 < length buf.old }
        ensures bound { ReadsAtMost result buf.new }
        ensures bytes { ReadConsumes (normal_remaining R.remaining self.old)
            (normal_remaining R.remaining self.new) result buf.new }
    {
        'steps: loop {
            if let Some(count) = self.give(buf)? {
                return Ok(count);
            }
        }
    }
}

impl<R: Read> Read for NormalImage<R> {
    ghost remaining = { λ s. normal_remaining R.remaining s };

    fn read(&mut self, buf: &mut [u8]) -> io::Result<usize> {
        if buf.is_empty() {
            return Ok(0);
        }
        match self.read_plain(buf)? {
            Some(count) => Ok(count),
            None => self.give_next(buf),
        }
    }
}
