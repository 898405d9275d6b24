//! The labels of a file on images: whether all of them can be those of one file.

use std::alloc::{AllocError, Global};
use std::io::Read;
use tape_image::{ImageReader, Item};
use tape_label::{Head1, Head2, Kind, kind, read_head1, read_trail1, read_wide_head2};
use tape_run::{ImageSource, SetFile};

/// What the labels of a file say that were read so far.
#[derive(Drop)]
struct Labels<'f> {
    file: &'f SetFile,
    /// The first label that was read of each section.
    heads: Vec<Head1>,
    /// The second label that was read first, of those that have lengths or are header labels.
    second: Option<Head2>,
    /// The second trailer label without lengths that was read first.
    bare: Option<Head2>,
    /// Whether all labels can be those of one file.
    agree: bool,
    /// Whether an unreadable item, or a second trailer label that cannot be read, follows a first
    /// label.
    is_doubted: bool,
}

impl Labels<'_> {
    /// Processes a first header or trailer label of the file.
    fn take_first(&mut self, head: Head1) -> Result<(), AllocError> {
        self.agree = self.agree && head.file_id == self.file.file_id;
        for other in self.heads.as_slice() {
            if other.sect == head.sect {
                self.agree = self.agree && is_same_day(other, &head);
                return Ok(());
            }
        }
        Ok(self.heads.push(head)?)
    }

    /// Processes a block after a first label, which is a second label of the file or none. Many
    /// systems wrote no lengths in the second trailer label.
    fn take_second(&mut self, block: &[u8]) {
        let is_trailer = match kind(block) {
            Some(Kind::Hdr2) => false,
            Some(Kind::Eof2 | Kind::Eov2) => true,
            _ => return,
        };
        match read_wide_head2(block) {
            Ok(head) if is_trailer && head.block_len == 0 && head.rec_len == 0 => {
                let first = self.bare.unwrap_or(head);
                self.agree = self.agree && head == first;
                self.bare = Some(first);
            }
            Ok(head) => {
                let first = self.second.unwrap_or(head);
                self.agree = self.agree && head == first;
                self.second = Some(first);
            }
            Err(_) if is_trailer => self.is_doubted = true,
            Err(_) => self.agree = false,
        }
    }

    /// Returns whether all labels that were read can be those of one file.
    fn are_of_one_file(&self) -> bool {
        let second = match (self.second, self.bare) {
            (Some(head), Some(bare)) => head.format == bare.format && head.offset == bare.offset,
            (None, None) => !self.is_doubted,
            _ => true,
        };
        self.agree && second
    }

    /// Reads the labels of the file on an image, as far as the image can be read.
    fn read_image<R: Read>(&mut self, image: &mut ImageReader<'_, R>) -> Result<(), AllocError> {
        let mut is_second = false;
        for _ in 0..u64::MAX {
            match image.next() {
                Ok(Some(Item::Block(block))) => {
                    if is_second {
                        self.take_second(block);
                    }
                    let head = label_in(block, self.file);
                    is_second = head.is_some();
                    if let Some(head) = head {
                        self.take_first(head)?;
                    }
                }
                Ok(Some(Item::Bad)) => {
                    self.is_doubted = self.is_doubted || is_second;
                    is_second = false;
                }
                Ok(Some(Item::Mark)) => is_second = false,
                _ => break,
            }
        }
        Ok(())
    }
}

/// Returns whether two labels of a section have the same creation date and generation.
fn is_same_day(one: &Head1, other: &Head1) -> bool {
    one.created == other.created && one.generation == other.generation
}

/// Returns the fields of a block that reads as a first header or trailer label of the file.
fn label_in(block: &[u8], file: &SetFile) -> Option<Head1> {
    let head = match read_head1(block) {
        Ok(head) => head,
        Err(_) => read_trail1(block).ok()?.head,
    };
    if (head.set_id, head.sequence) == (file.set_id, file.file) {
        Some(head)
    } else {
        None
    }
}

/// Returns whether the labels of a file on the images can be those of one file: every first header
/// or trailer label with its number has its file identifier, those of one section have the same
/// creation date and generation, and all second labels give the same format; in a trailer the
/// lengths may be missing, or the second label may be unreadable. If no second label is readable,
/// none is unreadable. A block of data that reads as such a label counts as one.
///
/// # Errors
///
/// Returns `AllocError` if memory is refused.
pub fn are_of_one_file<R: Read + Drop, L: ImageSource<R>>(
    alloc: Global,
    images: &mut L,
    file: &SetFile,
) -> Result<bool, AllocError> {
    let mut labels = Labels {
        file,
        heads: Vec::new(alloc),
        second: None,
        bare: None,
        agree: true,
        is_doubted: false,
    };
    for number in 0..images.count() {
        if let Some(device) = images.mount(number)? {
            let mut device = device;
            let Ok(mut image) = ImageReader::new(alloc, &mut device) else {
                return Err(AllocError);
            };
            labels.read_image(&mut image)?;
        }
    }
    Ok(labels.are_of_one_file())
}
