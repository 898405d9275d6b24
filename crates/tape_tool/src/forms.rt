//! Images as SIMH images, whatever their format.

ghost use Rattle.std.specs.Prelude.{⊤, length};

use crate::convert::format_of;
use crate::images::{Image, Images};
use crate::screen::Progress;
use std::alloc::AllocError;
use std::io;
use std::io::Read;
use tape_image::SimhImage;
use tape_run::{ImageSource, container_of};

/// An open image: as it is, or the SIMH image of one of another format.
#[derive(Drop)]
pub enum AnyImage<R: Progress> {
    Simh(Image<R>),
    Other(SimhImage<Image<R>>),
}

impl<R: Progress> Read for AnyImage<R> {
    fn read(&mut self, buf: &mut [u8]) -> io::Result<usize> {
        match self {
            AnyImage::Simh(image) => image.read(buf),
            AnyImage::Other(image) => image.read(buf),
        }
    }
}

/// The images of a run, each as a SIMH image.
#[derive(Drop)]
pub struct AnyImages<'a, R> {
    images: Images<'a, R>,
}

impl<'a, R: Progress> AnyImages<'a, R> {
    /// Creates the source of the image files named `names`. None is opened yet.
    pub fn new(rt: &'a R, names: &'a [&'a str]) -> AnyImages<'a, R> {
        AnyImages {
            images: Images::new(rt, names),
        }
    }
}

impl<'a, R: Progress> ImageSource<AnyImage<R>> for AnyImages<'a, R> {
    ghost size = { λ source. length source.images.names.now };

    ghost gives = { λ _ _ _ _. ⊤ };

    fn count(&self) -> usize {
        self.images.count()
    }

    fn mount(&mut self, number: usize) -> Result<Option<AnyImage<R>>, AllocError> {
        let Some(image) = self.images.mount(number)? else {
            return Ok(None);
        };
        let (mut image, alloc) = (image, self.images.rt.alloc());
        Ok(Some(match format_of(container_of(image.front())) {
            Some(format) => AnyImage::Other(SimhImage::new(alloc, image, format)),
            None => AnyImage::Simh(image),
        }))
    }
}
