//! The writer of an image.

ghost use Rattle.std.specs.Prelude.{◌≡◌};
ghost use Rattle.byteorder.specs.Endian.{little_bytes};
ghost use Rattle.tape_image.specs.{Tape.bad, Tape.mark, Word.end_word, Written.written};

use crate::block::{BAD, END, Found, IMAGE_LIMIT, LONGEST_BLOCK, MARK, WORD};
use crate::item::ImageWriteFault;
use crate::put::{put_block, put_last, put_word, write_bytes};
use std::io::Write;
use std::marker::Model;

/// The state of a writer.
#[derive(Clone, Copy)]
enum Phase {
    /// Items may follow.
    Open,
    /// The end-of-medium marker was written.
    Done,
    /// The device failed.
    Broken,
}

/// Writes an image to a device, one item after another, in the format of "SIMH Magtape
/// Representation and Handling".
///
/// Does not allocate. Writing a block calls the device up to four times: wrap the device in a
/// `BufWriter` if its calls are slow. The device is flushed once, after the end-of-medium marker.
/// Existing contents of the device are kept, and are not counted.
#[derive(Drop)]
pub struct ImageWriter<W: Write + Drop> {
    device: W,
    size: u64,
    phase: Phase,
}

impl<W: Write + Drop> Model for ImageWriter<W> {
    ghost use Rattle.std.specs.Prelude.{◌≤◌};
    ghost use Rattle.tape_image.specs.{Begins.image_limit, Writer.Writer, Standing.standing_of};

    ghost Value = { Writer };

    ghost view = { λ w. record {
      size = w.size;
      standing = standing_of w.phase;
      contents = W.contents w.device;
    } };

    ghost invariant = { λ w. w.size ≤ image_limit };
}

impl<W: Write + Drop> ImageWriter<W> {
    ghost use Rattle.std.specs.Prelude.{◌≤◌, ◌+◌};
    ghost use Rattle.tape_image.specs.Begins.{image_limit};
    ghost use Rattle.tape_image.specs.Writer.{writing, finished, PutsFrom, BlockFrom};
    ghost use Rattle.tape_image.specs.Standing.{standing_of, MayWrite, HasRoom, noted};

    /// Creates a writer that appends to `device`.
    pub fn new(device: W) -> ImageWriter<W>
        ensures { result ≡ record { size = 0; standing = writing; contents = W.contents device } }
    {
        ImageWriter {
            device,
            size: 0,
            phase: Phase::Open,
        }
    }

    /// Returns the number of bytes of the items written, including the end-of-medium marker.
    pub fn size(&self) -> u64
        ensures { result ≡ self.now.size }
    {
        // Bytes of an item at which the device failed are not counted.
        self.size
    }

    /// Writes a block of 1 to 99,999 bytes: its word, its bytes, a zero pad byte if their number is
    /// odd, and its word again.
    ///
    /// # Errors
    ///
    /// Returns, in this order: `Device` if the device failed before, `Finished`, `BlockLength`,
    /// `TooLong` if this block would make the image longer than 4,294,967,295 bytes, and `Device`
    /// if the device fails now.
    pub fn block(&mut self, content: &[u8]) -> Result<(), ImageWriteFault>
        ensures { BlockFrom self.old.standing content.now self.old result self.new }
    {
        self.may_write()?;
        if content.is_empty() || content.len() > LONGEST_BLOCK as usize {
            return Err(ImageWriteFault::BlockLength);
        }
        let extent = Found::Block(content.len() as u32).extent();
        self.has_room(extent)?;
        let put = put_block(&mut self.device, content);
        self.note(put, extent, Phase::Open)
    }

    /// Writes a tape mark.
    ///
    /// # Errors
    ///
    /// Returns, in this order: `Device` if the device failed before, `Finished`, `TooLong` if this
    /// mark would make the image longer than 4,294,967,295 bytes, and `Device` if the device fails
    /// now.
    pub fn mark(&mut self) -> Result<(), ImageWriteFault>
        ensures { PutsFrom self.old.standing (written mark) writing self.old result self.new }
    {
        self.may_write()?;
        self.has_room(WORD)?;
        let put = put_word(&mut self.device, MARK);
        self.note(put, WORD, Phase::Open)
    }

    /// Writes a bad block: one byte, 0, with the error flag set. The bytes that a drive returned
    /// for an unreadable block are not kept.
    ///
    /// # Errors
    ///
    /// The errors are those of `mark`, for this block.
    pub fn bad(&mut self) -> Result<(), ImageWriteFault>
        ensures { PutsFrom self.old.standing (written bad) writing self.old result self.new }
    {
        self.may_write()?;
        self.has_room(BAD.len() as u64)?;
        let written = write_bytes(&mut self.device, &BAD);
        self.note(written, BAD.len() as u64, Phase::Open)
    }

    /// Writes the end-of-medium marker and flushes the device. Nothing is written after it.
    ///
    /// # Errors
    ///
    /// The errors are those of `mark`, for the marker; also `Device` if the flush fails.
    pub fn finish(&mut self) -> Result<(), ImageWriteFault>
        ensures { PutsFrom self.old.standing (little_bytes 4 end_word) finished
            self.old result self.new }
    {
        self.may_write()?;
        self.has_room(WORD)?;
        let put = put_last(&mut self.device, END);
        self.note(put, WORD, Phase::Done)
    }

    /// Returns the device, with the bytes that were written to it.
    pub fn into_device(self) -> W
        ensures { W.contents result ≡ self.contents }
    {
        self.device
    }

    /// Returns an error if nothing may be written: the device failed, or the writer is finished.
    fn may_write(&self) -> Result<(), ImageWriteFault>
        ensures { MayWrite self.now.standing result }
    {
        match self.phase {
            Phase::Open => Ok(()),
            Phase::Done => Err(ImageWriteFault::Finished),
            Phase::Broken => Err(ImageWriteFault::Device),
        }
    }

    /// Returns `TooLong` if `extent` more bytes would exceed the limit.
    fn has_room(&self, extent: u64) -> Result<(), ImageWriteFault>
        ensures { HasRoom self.now.size extent result }
    {
        if IMAGE_LIMIT - self.size < extent {
            return Err(ImageWriteFault::TooLong);
        }
        Ok(())
    }

    /// Counts the bytes that were written, or records that the device failed.
    fn note(
        &mut self,
        put: Result<(), ImageWriteFault>,
        extent: u64,
        after: Phase,
    ) -> Result<(), ImageWriteFault>
        requires { self.old.size + extent ≤ image_limit }
        ensures answer { result ≡ put }
        ensures left { self.new ≡ noted put extent (standing_of after) self.old }
    {
        match put {
            Ok(()) => {
                self.size += extent;
                self.phase = after;
            }
            Err(_) => self.phase = Phase::Broken,
        }
        put
    }
}
