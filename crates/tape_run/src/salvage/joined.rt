//! Images of which unreadable blocks are replaced by the same blocks of other images.

ghost use Rattle.std.specs.Prelude.{⊤, ◌≤◌, length, IfOk};

use crate::extract::images::ImageSource;
use crate::salvage::fill::Fill;
use std::alloc::{AllocError, Global};
use std::io;
use std::io::{ErrorKind, Read};

/// An open image, and the number of bytes that were read of it.
#[derive(Drop)]
struct Opened<R> {
    device: R,
    place: u64,
}

/// An image that has blocks of a section.
#[derive(Drop)]
struct Source<R> {
    opened: Opened<R>,
    /// The image's number, counted from 0.
    image: usize,
    /// The section's number.
    sect: u16,
}

impl<R> Source<R> {
    /// Returns whether it has these blocks.
    fn has(&self, fill: &Fill) -> bool {
        self.image == fill.source.image && self.sect == fill.sect
    }
}

impl<R: Read> Opened<R> {
    /// Reads bytes before byte offset `end`. Returns 0 at the offset, and at the end of the image.
    fn read_to(&mut self, end: u64, buf: &mut [u8]) -> io::Result<usize>
        ensures { IfOk result (λ count. count ≤ length buf.new) }
    {
        let most = end.saturating_sub(self.place).min(buf.len() as u64) as usize;
        if most == 0 {
            return Ok(0);
        }
        let count = self.device.read(&mut buf[..most])?;
        self.place = self.place.saturating_add(count as u64);
        Ok(count)
    }

    /// Leaves out the bytes before byte offset `end`, or up to the end of the image.
    fn skip_to(&mut self, end: u64) -> io::Result<()> {
        let mut waste = [0u8; 4096];
        'bytes: for _ in self.place..end {
            if self.read_to(end, &mut waste)? == 0 {
                return Ok(());
            }
        }
        Ok(())
    }
}

/// An image of which blocks are replaced by those of other images.
#[derive(Drop)]
pub struct JoinedImage<'f, R> {
    base: Opened<R>,
    sources: Vec<Source<R>>,
    /// The blocks that have not been replaced yet, in their order on the image.
    fills: &'f [Fill],
}

impl<'f, R: Read> JoinedImage<'f, R> {
    /// Reads bytes of the blocks that replace those of a run. Returns 0 behind them.
    fn read_source(&mut self, fill: &Fill, buf: &mut [u8]) -> io::Result<usize>
        ensures { IfOk result (λ count. count ≤ length buf.new) }
    {
        for source in self.sources.as_mut_slice() {
            if source.has(fill) {
                source.opened.skip_to(fill.source.from)?;
                let count = source.opened.read_to(fill.source.to, buf)?;
                if count > 0 || source.opened.place == fill.source.to {
                    return Ok(count);
                }
            }
        }
        Err(io::Error::from(ErrorKind::UnexpectedEof))
    }

    /// Reads the next bytes. Returns 0 after a run of blocks, and at the end of the image.
    fn give(&mut self, buf: &mut [u8]) -> io::Result<usize>
        ensures { IfOk result (λ count. count ≤ length buf.new) }
    {
        let Some(fill) = self.fills.first() else {
            return self.base.device.read(buf);
        };
        if self.base.place < fill.gap.from {
            return self.base.read_to(fill.gap.from, buf);
        }
        let count = self.read_source(fill, buf)?;
        if count == 0 {
            self.base.skip_to(fill.gap.to)?;
            self.fills = self.fills.get(1..).unwrap_or(&[]);
        }
        Ok(count)
    }
}

impl<R: Read> Read for JoinedImage<'_, R> {
    fn read(&mut self, buf: &mut [u8]) -> io::Result<usize> {
        if buf.is_empty() {
            return Ok(0);
        }
        'runs: for _ in 0..u64::MAX {
            let left = self.fills.len();
            let count = self.give(buf)?;
            if count > 0 || left == self.fills.len() {
                return Ok(count);
            }
        }
        // No image has so many runs of blocks.
        Err(io::Error::from(ErrorKind::Other))
    }
}

/// Images of which blocks are replaced by those of other images.
#[derive(Drop)]
pub struct JoinedImages<'a, L> {
    alloc: Global,
    images: &'a mut L,
    /// The runs of blocks, in the order of the images that do not have them, and of their places
    /// there.
    fills: &'a [Fill],
}

impl<'a, L> JoinedImages<'a, L> {
    /// Creates the source of these images. None is opened yet.
    pub fn new(alloc: Global, images: &'a mut L, fills: &'a [Fill]) -> JoinedImages<'a, L> {
        JoinedImages {
            alloc,
            images,
            fills,
        }
    }

    /// Returns the runs of blocks that an image does not have.
    fn fills_of(&self, number: usize) -> &'a [Fill] {
        let fills = self.fills;
        let before = fills.iter().filter(|fill| fill.gap.image < number);
        let rest = fills.get(before.count()..).unwrap_or(&[]);
        let own = rest.iter().filter(|fill| fill.gap.image == number);
        rest.get(..own.count()).unwrap_or(&[])
    }
}

impl<'a, R: Read + Drop, L: ImageSource<R>> ImageSource<JoinedImage<'a, R>>
    for JoinedImages<'a, L> {
    ghost size = { λ source. L.size source.images.now };

    ghost gives = { λ _ _ _ _. ⊤ };

    fn count(&self) -> usize {
        self.images.count()
    }

    fn mount(&mut self, number: usize) -> Result<Option<JoinedImage<'a, R>>, AllocError> {
        let mut sources = Vec::new(self.alloc);
        let fills = self.fills_of(number);
        let Some(device) = self.images.mount(number)? else {
            return Ok(None);
        };
        // Nothing fails from here on: the source changes only if the image is mounted.
        let all = open_sources(self.images, fills, &mut sources);
        Ok(Some(JoinedImage {
            base: Opened { device, place: 0 },
            sources,
            fills: if all { fills } else { &[] },
        }))
    }
}

/// Opens the images that have the blocks of these runs. Returns whether all of them were opened.
fn open_sources<R: Read + Drop, L: ImageSource<R>>(
    images: &mut L,
    fills: &[Fill],
    sources: &mut Vec<Source<R>>,
) -> bool {
    for fill in fills {
        if !sources.iter().any(|source| source.has(fill)) {
            let Ok(Some(device)) = images.mount(fill.source.image) else {
                return false;
            };
            let source = Source {
                opened: Opened { device, place: 0 },
                image: fill.source.image,
                sect: fill.sect,
            };
            if sources.push(source).is_err() {
                return false;
            }
        }
    }
    true
}
