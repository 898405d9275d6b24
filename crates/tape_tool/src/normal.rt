//! Images in normal form. The rules by which they differ from the images are named on standard
//! error.

ghost use Rattle.std.specs.Prelude.{⊤, ◌≤◌, length, IfOk, IfSome};

mod followed;
mod labelled;

use crate::convert::{format_of, is_simh};
use crate::images::{Image, Images};
use crate::refusal::is_file;
use crate::screen::Progress;
use followed::Followed;
use labelled::Labelled;
use std::alloc::{AllocError, Global};
use std::io;
use std::io::Read;
use tape_core::normal::{NormalImage, Rules};
use tape_image::{ImageFormat, SimhImage};
use tape_label::Head1;
use tape_run::{Container, ImageSource};

/// The rules that may be applied to an image, in the order in which they are named.
const TEXTS: [&str; 9] = [
    "labels in EBCDIC",
    "labels with padding",
    "no volume label",
    "a file has no HDR2",
    "numbers in HDR2 begin with blanks or NULs",
    "a file has no number in HDR1",
    "a file has no block count",
    "something before the first file is ignored",
    "something after the end of the volume is ignored",
];

/// Returns which of the rules of `TEXTS` were applied.
fn applied(rules: Rules) -> [bool; 9] {
    [
        rules.ebcdic,
        rules.padded,
        rules.no_volume_label,
        rules.no_second_label,
        rules.blank_numbers,
        rules.no_file_numbers,
        rules.no_block_count,
        rules.before > 0,
        rules.after > 0,
    ]
}

/// Returns the name of a format by which an image is read as a SIMH image. SIMH's own has none.
fn format_text(format: Option<ImageFormat>) -> Option<&'static str> {
    match format {
        Some(ImageFormat::Aws) => Some("an AWS image"),
        Some(ImageFormat::E11) => Some("an E11 image"),
        Some(ImageFormat::Extended) | None => None,
    }
}

/// An open image in normal form. On its first reading it names each rule on standard error when
/// the rule is first applied.
#[derive(Drop)]
pub struct Normal<R: Progress> {
    rt: R,
    /// The number of the image, counted from 1.
    image: usize,
    /// Whether the image is read for the first time.
    is_first: bool,
    /// The first bytes, which may be read before the items in them. A fault among these items ends
    /// the image for all who read it, so rules that are applied after it are not named.
    front: Option<Followed>,
    /// Whether it begins after a wrong word.
    is_further: bool,
    /// The rules that were named.
    named: Rules,
    /// The bytes before a tape mark with which the image ends, and those left of the mark, if it is
    /// not read to its own end.
    seam: Option<(u64, usize)>,
    inner: Labelled<R>,
}

/// The bytes of an image: in normal form or, if the image is of a kind that `tape` does not read,
/// as they are.
#[derive(Drop)]
enum Form<R: Progress> {
    Normal(NormalImage<Image<R>>),
    /// The normal form of the SIMH image of an image of another format.
    Converted(NormalImage<SimhImage<Image<R>>>),
    Other(Image<R>),
}

impl<R: Progress> Form<R> {
    /// Returns the form of an unread image of this kind.
    fn new(alloc: Global, image: Image<R>, kind: Container) -> Form<R> {
        match format_of(kind) {
            Some(format) => Form::Converted(NormalImage::new(SimhImage::new(alloc, image, format))),
            None if is_simh(kind) => Form::Normal(NormalImage::new(image)),
            None => Form::Other(image),
        }
    }

    /// Returns the rules that were applied so far.
    fn rules(&self) -> Rules {
        match self {
            Form::Normal(image) => image.rules(),
            Form::Converted(image) => image.rules(),
            Form::Other(_) => Rules::NONE,
        }
    }

    /// Returns the label of the section that ended last if its blocks are not counted, once.
    #[inline(always)]
    fn take_uncounted(&mut self) -> Option<Head1> {
        match self {
            Form::Normal(image) => image.take_uncounted(),
            Form::Converted(image) => image.take_uncounted(),
            Form::Other(_) => None,
        }
    }

    /// Reads bytes where no rule can be applied. Returns `None` if one may be.
    #[inline(always)]
    fn read_plain(&mut self, buf: &mut [u8]) -> io::Result<Option<usize>>
        ensures bound { IfOk result (λ read. IfSome read (λ count. count ≤ length buf.new)) }
    {
        match self {
            Form::Normal(image) => image.read_plain(buf),
            Form::Converted(image) => image.read_plain(buf),
            Form::Other(image) => Ok(Some(image.read(buf)?)),
        }
    }
}

impl<R: Progress> Read for Form<R> {
    fn read(&mut self, buf: &mut [u8]) -> io::Result<usize> {
        match self {
            Form::Normal(image) => image.read(buf),
            Form::Converted(image) => image.read(buf),
            Form::Other(image) => image.read(buf),
        }
    }
}

impl<R: Progress> Normal<R> {
    /// Ends the image, which is unread, with a tape mark at byte offset `place`.
    pub fn end_at(&mut self, place: u64) {
        self.seam = Some((place, 4));
    }

    /// Reads an image that ends with a tape mark after `before` more bytes.
    #[cold]
    fn read_to_mark(&mut self, buf: &mut [u8], before: u64, mark: usize) -> io::Result<usize>
        ensures bound { IfOk result (λ count. count ≤ length buf.new) }
    {
        if before == 0 {
            let count = buf.len().min(mark);
            buf[..count].fill(0);
            self.seam = Some((0, mark - count));
            return Ok(count);
        }
        let room = before.min(buf.len() as u64) as usize;
        let count = self.inner.read(&mut buf[..room])?;
        self.seam = Some((before.saturating_sub(count as u64), mark));
        Ok(count)
    }

    /// Follows the next of the first bytes, which a call read into `buf`.
    #[cold]
    fn follow(&mut self, buf: &[u8], read: &io::Result<usize>) {
        let (Some(front), Ok(count)) = (self.front, read) else {
            return;
        };
        let mut front = front;
        front.read(buf.get(..*count).unwrap_or(&[]));
        self.front = if front.is_done() && !front.is_over() {
            None
        } else {
            Some(front)
        };
    }

    /// Remembers a section whose blocks are not counted.
    #[cold]
    fn note_uncounted(&self, head: &Head1) {
        if !self.front.is_some_and(|front| front.is_over()) {
            self.rt.uncounted().add(head);
        }
    }

    /// Reads bytes, and names the rules that are applied to the items before them.
    #[cold]
    fn read_other(&mut self, buf: &mut [u8]) -> io::Result<usize>
        ensures bound { IfOk result (λ count. count ≤ length buf.new) }
    {
        let read = self.inner.read(buf);
        let rules = self.inner.form.rules();
        if self.is_further && rules.no_file_numbers {
            // Which number the file has depends on the files before it, which were not read.
            self.seam = Some((0, 0));
            return Ok(0);
        }
        if self.is_first && rules != self.named {
            self.name_rules(rules);
        }
        if let Some(head) = self.inner.take_uncounted() {
            self.note_uncounted(&head);
        }
        read
    }

    /// Names the rules that were applied since the last call.
    #[cold]
    fn name_rules(&mut self, rules: Rules) {
        let before = applied(self.named);
        self.named = rules;
        if self.front.is_some_and(|front| front.is_over()) {
            return;
        }
        let image = self.image;
        for ((now, before), text) in applied(rules).iter().zip(before.iter()).zip(TEXTS.iter()) {
            if *now && !*before {
                let _ = self.rt.eprint(format_args!("  image {image}: {text}\n"));
            }
        }
    }
}

impl<R: Progress> Read for Normal<R> {
    #[inline(always)]
    fn read(&mut self, buf: &mut [u8]) -> io::Result<usize> {
        if let Some((before, mark)) = self.seam {
            return self.read_to_mark(buf, before, mark);
        }
        let read = match self.inner.read_plain(buf)? {
            Some(count) => Ok(count),
            None => self.read_other(buf),
        };
        if self.front.is_some() {
            self.follow(buf, &read);
        }
        read
    }
}

/// Images that are read in normal form. The rules that are applied to an image are named when it
/// is read for the first time, if the images are mounted in order.
#[derive(Drop)]
pub struct NormalImages<'a, R> {
    /// The images as they are.
    pub images: Images<'a, R>,
    /// The number of images, from the first one on, that have been read before.
    read: usize,
}

impl<'a, R: Progress> NormalImages<'a, R> {
    /// Creates the source of the image files named `names`. None is opened yet.
    pub fn new(rt: &'a R, names: &'a [&'a str]) -> NormalImages<'a, R> {
        NormalImages {
            images: Images::new(rt, names),
            read: 0,
        }
    }

    /// Names no rules of the first `count` images, since they were read before.
    pub fn are_told(&mut self, count: usize) {
        self.read = count;
    }

    /// Names no rules from now on, since the images were read before.
    pub fn is_told(&mut self) {
        self.read = self.images.names.len();
    }

    /// Returns whether image `number` can be read more than once.
    pub fn is_file(&self, number: usize) -> bool {
        let name = self.images.names.get(number);
        name.is_some_and(|name| is_file(self.images.rt.host(), name))
    }

    /// Creates the same source, for images that were read before: no rules are named.
    pub fn again(rt: &'a R, names: &'a [&'a str]) -> NormalImages<'a, R> {
        NormalImages {
            images: Images::new(rt, names),
            read: names.len(),
        }
    }
}

impl<'a, R: Progress> ImageSource<Normal<R>> for NormalImages<'a, R> {
    ghost size = { λ source. length source.images.names.now };

    ghost gives = { λ _ _ _ _. ⊤ };

    fn count(&self) -> usize {
        self.images.count()
    }

    fn mount(&mut self, number: usize) -> Result<Option<Normal<R>>, AllocError> {
        let rt = self.images.rt.clone()?;
        let labels = match self.images.names.get(number) {
            Some(name) => rt.plans().of(rt.alloc(), name)?,
            None => None,
        };
        let Some(image) = self.images.mount(number)? else {
            return Ok(None);
        };
        let mut image = image;
        let is_further = self.images.is_further(number);
        let kind = self.images.kind_of(number, &mut image);
        let form = Form::new(rt.alloc(), image, kind);
        let inner = Labelled { form, labels };
        // Nothing fails from here on: the source changes only if the image is mounted.
        let is_first = number >= self.read;
        self.read = self.read.max(number.saturating_add(1));
        let image = number.saturating_add(1);
        if let Some(text) = format_text(format_of(kind))
            && is_first
        {
            let _ = rt.eprint(format_args!("  image {image}: read as {text}\n"));
        }
        Ok(Some(Normal {
            rt,
            image,
            is_first,
            front: is_first.then_some(Followed::START),
            is_further,
            named: Rules::NONE,
            seam: None,
            inner,
        }))
    }
}
