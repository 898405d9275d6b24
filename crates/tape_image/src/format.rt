//! Images of other formats than SIMH's, read as SIMH images.

ghost use Rattle.std.specs.Prelude.{◌≡◌, ◌∷◌, ◌<◌, [], length, option_map};
ghost use Rattle.std.specs.{Io.ReadsAtMost, Io.KnownBytes.ReadConsumes};
ghost use Rattle.std.specs.Io.KnownBytes.{Keeps, prepend_known};
ghost use Rattle.tape_image.specs.Format.{simh_bytes, bytes_after, by_step};
ghost use Rattle.tape_image.specs.FormatState.{simh_remaining, GivesOn, IsWithin};
ghost use Rattle.byteorder.specs.Endian.{little_bytes};

pub(crate) mod few;
mod input;
pub(crate) mod step;

use crate::block::LONGEST_BLOCK;
use byteorder::{ByteOrder, LittleEndian};
use few::Few;
use input::{Input, keep_some};
use std::alloc::Global;
use std::io;
use std::io::{ErrorKind, Read};
use step::{Chunk, Passed, Piece, Step, word_behind};

/// A format of images that is read as a SIMH image.
#[derive(Clone, Copy, Debug, PartialEq, Eq)]
pub enum ImageFormat {
    /// SIMH's extended format, which is SIMH's with further classes of items. Items of these
    /// classes are left out, but for a bad record of length 0.
    Extended,
    /// E11's format, which is SIMH's without pad bytes.
    E11,
    /// The AWS format: a header of six bytes precedes each tape mark, and each of the chunks that a
    /// block consists of.
    Aws,
}

/// What is done with the next bytes of the device.
#[derive(Clone, Copy)]
pub(crate) enum Course {
    /// They begin with an item that has not been looked at.
    Looking,
    /// They are given on.
    Passing(Passed),
    /// So many are left out, and the word is to follow them.
    Leaving(u64, u32),
    /// So many, with which the chunk ends, are kept.
    Keeping(u64, Chunk),
    /// The bytes that are kept are given, from this one on, and the word after them.
    Giving(usize, u32),
    /// They are not read.
    Over,
}

/// The SIMH image of an image of another format, read from that image. Each item of the image
/// is an item of the SIMH image.
#[derive(Drop)]
pub struct SimhImage<R> {
    input: Input<R>,
    format: ImageFormat,
    /// The length of the AWS chunk before, or 0.
    before: u32,
    course: Course,
    /// The bytes of an AWS block that has begun.
    kept: Vec<u8>,
    /// Bytes that are given before those of the device.
    out: Few,
}

impl<R: Read> SimhImage<R> {
    /// Creates the SIMH image of the image of format `format` that `device` gives. Does not
    /// allocate: reading does, for blocks in several chunks, and returns an error if there is no
    /// memory.
    pub fn new(alloc: Global, device: R, format: ImageFormat) -> SimhImage<R>
        ensures { simh_remaining R.remaining result
            ≡ option_map (simh_bytes format) (R.remaining device) }
    {
        SimhImage {
            input: Input {
                device,
                held: Few::new(),
            },
            format,
            before: 0,
            course: Course::Looking,
            kept: Vec::new(alloc),
            out: Few::new(),
        }
    }

    /// Looks at the next item.
    fn advance(&mut self) -> io::Result<()>
        requires on { self.old.course ≡ Course.Looking }
        requires out { self.old.out ≡ [] }
        ensures { Keeps (simh_remaining R.remaining self.old)
            (simh_remaining R.remaining self.new) }
    {
        let begun = !self.kept.as_slice().is_empty();
        let step = self.input.peek(self.format, self.before, begun)?;
        self.follow(step);
        Ok(())
    }

    /// Does what an item that was looked at asks for.
    fn follow(&mut self, step: Step)
        requires within { IsWithin self.old.input.held step }
        requires out { self.old.out ≡ [] }
        ensures { simh_remaining R.remaining self.new ≡ option_map
            (λ xs. by_step step self.old.kept.items xs (bytes_after self.old.format))
            (prepend_known self.old.input.held (R.remaining self.old.input.device)) }
    {
        match step {
            Step::Stop(piece) => {
                self.out.put(piece);
                self.course = Course::Over;
            }
            Step::Give(given) => {
                self.input.held.skip(given.taken);
                self.out.put(given.front);
                self.before = given.before;
                self.kept.clear();
                self.course = Course::Passing(given.passed);
            }
            Step::Keep(chunk) => {
                self.input.held.skip(6);
                self.course = Course::Keeping(u64::from(chunk.count), chunk);
            }
            Step::Leave(count, word) => {
                self.input.held.skip(4);
                self.course = Course::Leaving(count, word);
            }
        }
    }

    /// Leaves out `count` bytes. If the device ends before that, the word `word` is the last of the
    /// image.
    fn leave(&mut self, count: u64, word: u32) -> io::Result<()>
        requires on { self.old.course ≡ Course.Leaving count word }
        requires out { self.old.out ≡ [] }
        ensures { Keeps (simh_remaining R.remaining self.old)
            (simh_remaining R.remaining self.new) }
    {
        let mut waste = [0u8; 512];
        let mut left = count;
        'bytes: while left > 0 {
            let most = left.min(512) as usize;
            match self.input.read(&mut waste[..most]) {
                Ok(0) => {
                    self.stop(word);
                    return Ok(());
                }
                Ok(read) => left -= read as u64,
                Err(e) => {
                    self.course = Course::Leaving(left, word);
                    return Err(e);
                }
            }
        }
        self.course = Course::Leaving(0, word);
        Ok(())
    }

    /// Leaves out the word `word`. If something else is next, the word is the last of the image.
    fn leave_word(&mut self, word: u32) -> io::Result<()>
        requires on { self.old.course ≡ Course.Leaving 0 word }
        requires out { self.old.out ≡ [] }
        ensures { Keeps (simh_remaining R.remaining self.old)
            (simh_remaining R.remaining self.new) }
    {
        if self.input.held.fill(&mut self.input.device, 4)?
            && LittleEndian::read_u32(self.input.held.bytes()) == word
        {
            self.input.held.skip(4);
            self.before = 0;
            self.kept.clear();
            self.course = Course::Looking;
        } else {
            self.stop(word);
        }
        Ok(())
    }

    /// Keeps `count` bytes, with which the chunk `chunk` ends. If the device ends before that, the
    /// image ends with the byte 0.
    fn keep(&mut self, count: u64, chunk: Chunk) -> io::Result<()>
        requires on { self.old.course ≡ Course.Keeping count chunk }
        requires out { self.old.out ≡ [] }
        ensures { Keeps (simh_remaining R.remaining self.old)
            (simh_remaining R.remaining self.new) }
    {
        let mut left = count;
        'bytes: while left > 0 {
            match keep_some(&mut self.input, &mut self.kept, left) {
                Ok(0) => {
                    self.cut();
                    return Ok(());
                }
                Ok(read) => left -= read as u64,
                Err(e) => {
                    self.course = Course::Keeping(left, chunk);
                    return Err(e);
                }
            }
        }
        self.course = Course::Keeping(0, chunk);
        Ok(())
    }

    /// Ends a chunk, whose bytes are kept. Gives a block that ends with it, or a bad block instead
    /// of one that is too long.
    fn end_chunk(&mut self, chunk: Chunk)
        requires on { self.old.course ≡ Course.Keeping 0 chunk }
        requires out { self.old.out ≡ [] }
        ensures { simh_remaining R.remaining self.new ≡ simh_remaining R.remaining self.old }
    {
        self.before = chunk.count;
        self.course = Course::Looking;
        if !chunk.last {
            return;
        }
        let len = self.kept.as_slice().len();
        if len > LONGEST_BLOCK as usize {
            self.kept.clear();
            self.out.put(Piece::Bad);
            return;
        }
        self.out.put(Piece::Word(len as u32));
        self.course = Course::Giving(0, len as u32);
    }

    /// Gives the next of the bytes that are kept, from `at` on, or the word `word` after them.
    fn give_kept(&mut self, at: usize, word: u32, buf: &mut [u8]) -> io::Result<Option<usize>>
        requires on { self.old.course ≡ Course.Giving at word }
        requires out { self.old.out ≡ [] }
        requires room { 0 < length buf.old }
        ensures { GivesOn (simh_remaining R.remaining self.old)
            (simh_remaining R.remaining self.new) result buf.new }
    {
        let kept = self.kept.as_slice();
        if at < kept.len() {
            let count = (kept.len() - at).min(buf.len());
            buf[..count].copy_from_slice(&kept[at..at + count]);
            self.course = Course::Giving(at + count, word);
            return Ok(Some(count));
        }
        self.kept.clear();
        self.out.put(word_behind(word));
        self.course = Course::Looking;
        Ok(None)
    }

    /// Ends the image with the byte 0: it is cut off.
    fn cut(&mut self)
        ensures { simh_remaining R.remaining self.new ≡ option_map (λ _. 0 ∷ [])
            (prepend_known self.old.input.held (R.remaining self.old.input.device)) }
    {
        self.out.put(Piece::Zero);
        self.course = Course::Over;
    }

    /// Ends the image with the word `word`.
    fn stop(&mut self, word: u32)
        ensures { simh_remaining R.remaining self.new ≡ option_map (λ _. little_bytes 4 word)
            (prepend_known self.old.input.held (R.remaining self.old.input.device)) }
    {
        self.out.put(Piece::Word(word));
        self.course = Course::Over;
    }

    /// Passes on bytes of an item, or takes the next step if none are left.
    fn pass(&mut self, passed: Passed, buf: &mut [u8]) -> io::Result<Option<usize>>
        requires on { self.old.course ≡ Course.Passing passed }
        requires out { self.old.out ≡ [] }
        requires room { 0 < length buf.old }
        ensures { GivesOn (simh_remaining R.remaining self.old)
            (simh_remaining R.remaining self.new) result buf.new }
    {
        let Passed { count, tail, last } = passed;
        if count == 0 {
            self.out.put(tail);
            self.course = match (tail, last) {
                (Piece::Nothing, 0) => Course::Looking,
                _ => Course::Passing(Passed {
                    count: last,
                    tail: Piece::Nothing,
                    last: 0,
                }),
            };
            return Ok(None);
        }
        let most = count.min(buf.len() as u64) as usize;
        let read = self.input.read(&mut buf[..most])?;
        if read == 0 {
            // The device is at its end.
            self.course = Course::Passing(Passed {
                count: 0,
                tail,
                last,
            });
            return Ok(None);
        }
        let count = count - read as u64;
        self.course = Course::Passing(Passed { count, tail, last });
        Ok(Some(read))
    }

    /// Gives the next bytes on, or takes a step towards them.
    fn give(&mut self, buf: &mut [u8]) -> io::Result<Option<usize>>
        requires { 0 < length buf.old }
        ensures { GivesOn (simh_remaining R.remaining self.old)
            (simh_remaining R.remaining self.new) result buf.new }
    {
        if !self.out.bytes().is_empty() {
            return Ok(Some(self.out.take(buf)));
        }
        match self.course {
            Course::Over => return Ok(Some(0)),
            Course::Looking => self.advance()?,
            Course::Passing(passed) => return self.pass(passed, buf),
            Course::Keeping(0, chunk) => self.end_chunk(chunk),
            Course::Keeping(count, chunk) => self.keep(count, chunk)?,
            Course::Giving(at, word) => return self.give_kept(at, word, buf),
            Course::Leaving(0, word) => self.leave_word(word)?,
            Course::Leaving(count, word) => self.leave(count, word)?,
        }
        Ok(None)
    }
}

impl<R: Read> Read for SimhImage<R> {
    ghost remaining = { λ s. simh_remaining R.remaining s };

    fn read(&mut self, buf: &mut [u8]) -> io::Result<usize> {
        if buf.is_empty() {
            return Ok(0);
        }
        'steps: for _ in 0..u64::MAX {
            if let Some(count) = self.give(buf)? {
                return Ok(count);
            }
        }
        // No image has so many items.
        Err(io::Error::from(ErrorKind::Other))
    }
}
