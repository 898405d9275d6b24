//! The images of a run, opened one at a time.

ghost use Rattle.std.specs.Prelude.{⊤, length, ◌≡◌, ◌≤◌, map, filter_map, slice_get, true};
ghost use Rattle.std.specs.Prelude.{IfOk};
ghost use Rattle.std.specs.Io.Buffered.{reader_remaining};
ghost use Rattle.tape_run.specs.ReadingOrder.{reading_order};

use crate::readings::{is_extended_name, opened_at, place_in};
use crate::screen::{Host, Progress};
use crate::shown::Shown;
use std::alloc::{AllocError, Global};
use std::fs::File;
use std::io;
use std::io::{BufRead, BufReader, Read};
use tape_label::Field;
use tape_run::{Container, FoundFiles, ImageSource, KIND_BYTES, container_of};

/// Returns the names in the order in which the images of file `key` are read
/// (`FoundFiles::reading_order`).
pub fn in_reading_order<'n>(
    alloc: Global,
    names: &[&'n str],
    met: &FoundFiles,
    key: (Field<6>, u16),
) -> Result<Vec<&'n str>, AllocError>
    ensures { IfOk result (λ order. map (λ n. n.now) order.items
        ≡ filter_map (slice_get (map (λ n. n.now) names.now))
        (reading_order met.now.locations.entries met.now.images key.0 key.1 true)) }
{
    let (set_id, file) = key;
    let numbers = met.reading_order(alloc, set_id, file, true)?;
    let mut order = Vec::new(alloc);
    for number in &numbers {
        if let Some(name) = names.get(*number) {
            order.push(*name)?;
        }
    }
    Ok(order)
}

/// Returns the place among all these names of the one with number `number` among some of them.
pub fn place_of(names: &[&str], some: &[&str], number: usize) -> Option<usize> {
    let name = some.get(number)?;
    for (place, other) in names.iter().enumerate() {
        if *other == *name {
            return Some(place);
        }
    }
    None
}

/// The bytes of an image: those of a file, or standard input.
#[derive(Drop)]
enum InputBytes<R: Host> {
    Named(File),
    Input(R::Reader),
}

/// The bytes of an image. As they are read, the screen shows how many that were.
#[derive(Drop)]
pub struct Watched<R: Progress> {
    rt: R,
    /// The number of the image, counted from 1.
    image: usize,
    /// The number of images.
    count: usize,
    /// The number of bytes that were read.
    bytes: u64,
    inner: InputBytes<R::System>,
}

impl<R: Host> Read for InputBytes<R> {
    fn read(&mut self, buf: &mut [u8]) -> io::Result<usize> {
        match self {
            InputBytes::Named(file) => file.read(buf),
            InputBytes::Input(reader) => reader.read(buf),
        }
    }
}

impl<R: Progress> Read for Watched<R> {
    fn read(&mut self, buf: &mut [u8]) -> io::Result<usize> {
        let read = if self.bytes == 0 {
            read_first(&mut self.inner, buf)
        } else {
            self.inner.read(buf)
        };
        if let Ok(bytes) = &read {
            self.bytes = self.bytes.saturating_add(*bytes as u64);
            self.rt.show(self.image, self.count, self.bytes);
        }
        read
    }
}

/// Reads until `buf` is full, the reader is at its end or a later read fails. A pipe may deliver
/// the bytes by which the kind of an image is recognised in several pieces.
fn read_first<R: Read>(reader: &mut R, buf: &mut [u8]) -> io::Result<usize>
    ensures { IfOk result (λ count. count ≤ length buf.new) }
{
    let mut count = reader.read(buf)?;
    'reads: for _ in 0..buf.len() {
        match reader.read(&mut buf[count..]) {
            Ok(0) | Err(_) => return Ok(count),
            Ok(more) => count += more,
        }
    }
    Ok(count)
}

/// The size of the read buffer of an image in bytes: all by which the kind of a file is recognised.
const SIZE: usize = KIND_BYTES;

/// A reader with a buffer. Reads of buffered bytes are inlined in their callers, since each block
/// of an image takes two of them.
#[derive(Drop)]
pub struct ReadAhead<R> {
    inner: BufReader<R>,
}

impl<R: Read + Drop> ReadAhead<R> {
    /// Creates a reader of the bytes of `reader`, with an empty buffer.
    ///
    /// # Errors
    ///
    /// Returns `AllocError` if there is no memory for the buffer.
    pub fn new(alloc: Global, reader: R) -> Result<ReadAhead<R>, AllocError>
        ensures { IfOk result (λ ahead.
            reader_remaining R.remaining ahead.inner ≡ R.remaining reader) }
    {
        match BufReader::with_capacity(alloc, SIZE, reader) {
            Ok(inner) => Ok(ReadAhead { inner }),
            Err(_) => Err(AllocError),
        }
    }
}

impl<R: Read> ReadAhead<R> {
    /// Reads the first bytes of an unread image, and returns them. Later reads return them again.
    /// Returns no bytes if the system refuses; the next read then asks again.
    pub fn front(&mut self) -> &[u8] {
        self.inner.fill_buf().unwrap_or(&[])
    }
}

impl<R: Read> Read for ReadAhead<R> {
    ghost remaining = { λ ahead. reader_remaining R.remaining ahead.inner };

    #[inline(always)]
    fn read(&mut self, buf: &mut [u8]) -> io::Result<usize> {
        let ready = self.inner.buffer();
        if ready.len() < buf.len() {
            return self.inner.read(buf);
        }
        buf.copy_from_slice(&ready[..buf.len()]);
        self.inner.consume(buf.len());
        Ok(buf.len())
    }
}

/// An open image, with a read buffer.
pub type Image<R> = ReadAhead<Watched<R>>;

/// The images of a run, by their names, of which one may be standard input. Each is opened when it
/// is mounted.
#[derive(Drop)]
pub struct Images<'a, R> {
    pub(crate) rt: &'a R,
    pub(crate) names: &'a [&'a str],
    /// The number of the image that is standard input, if any.
    pub input: Option<usize>,
    /// How many images were mounted, if each is named on standard error when it is mounted, with
    /// its number in the lines of `extract`.
    pub reels: Option<u64>,
}

impl<'a, R: Progress> Images<'a, R> {
    /// Creates the source of the image files named `names`. None is opened yet.
    pub fn new(rt: &'a R, names: &'a [&'a str]) -> Images<'a, R> {
        Images {
            rt,
            names,
            input: None,
            reels: None,
        }
    }

    /// Returns whether image `number` is a reading that begins after a wrong word.
    pub fn is_further(&self, number: usize) -> bool {
        self.names
            .get(number)
            .is_some_and(|name| place_in(*name).1 > 0)
    }

    /// Returns the kind of the unread image `number`, by its name or else by its first bytes.
    pub fn kind_of(&self, number: usize, image: &mut Image<R>) -> Container {
        match self.names.get(number) {
            Some(name) if place_in(*name).1 > 0 => Container::Simh,
            Some(name) if is_extended_name(*name) => Container::Extended,
            _ => container_of(image.front()),
        }
    }
}

impl<'a, R: Progress> ImageSource<Image<R>> for Images<'a, R> {
    ghost size = { λ images. length images.names.now };

    ghost gives = { λ _ _ _ _. ⊤ };

    fn count(&self) -> usize {
        self.names.len()
    }

    fn mount(&mut self, number: usize) -> Result<Option<Image<R>>, AllocError> {
        let Some(name) = self.names.get(number) else {
            return Ok(None);
        };
        let opened = if self.input == Some(number) {
            Some(InputBytes::Input(self.rt.host().reader()))
        } else {
            match opened_at(self.rt.host(), *name) {
                Ok(file) => Some(InputBytes::Named(file)),
                Err(_) => None,
            }
        };
        let image = match opened {
            Some(inner) => {
                let watched = Watched {
                    rt: self.rt.clone()?,
                    image: number.saturating_add(1),
                    count: self.names.len(),
                    bytes: 0,
                    inner,
                };
                Some(ReadAhead::new(self.rt.alloc(), watched)?)
            }
            None => None,
        };
        if let Some(reel) = &mut self.reels {
            *reel = reel.saturating_add(1);
            tell_reel(self.rt, *reel, *name);
        }
        Ok(image)
    }
}

/// Names the reading that is read as number `reel`.
fn tell_reel<R: Progress>(rt: &R, reel: u64, name: &str) {
    let (path, start) = place_in(name);
    let _ = match start {
        0 => rt.eprint(format_args!("  REEL {reel}: {}\n", Shown(path))),
        _ => rt.eprint(format_args!("  REEL {reel}: {}@{start}\n", Shown(path))),
    };
}
