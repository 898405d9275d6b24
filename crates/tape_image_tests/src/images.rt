//! Images, encoded byte by byte according to the description of the format.

use std::alloc::{AllocError, Global};

pub(super) const GAP: [u8; 4] = [0xFE, 0xFF, 0xFF, 0xFF];

pub(super) const END: [u8; 4] = [0xFF, 0xFF, 0xFF, 0xFF];

pub(super) const MARK: [u8; 4] = [0, 0, 0, 0];

const VOL1: &[u8; 80] =
    b"VOL1ABC001                                                                     4";

const HDR1: &[u8; 80] =
    b"HDR1PAYROLL          ABC00100010001000100 00000 00000 000000                    ";

const HDR2: &[u8; 80] =
    b"HDR2F0080000080                                   00                            ";

const EOF1: &[u8; 80] =
    b"EOF1PAYROLL          ABC00100010001000100 00000 00000 000003                    ";

const EOF2: &[u8; 80] =
    b"EOF2F0080000080                                   00                            ";

/// An item of the example image.
#[derive(Clone, Copy)]
pub(super) enum WorkedItem {
    Label(&'static [u8; 80]),
    /// Records: the number of the first one, and how many there are.
    Records(u8, u8),
    Mark,
}

/// The items of the example image: the volume ABC001 with the file PAYROLL of 25 records of 80
/// characters in blocks of 800.
pub(super) const ITEMS: [WorkedItem; 12] = [
    WorkedItem::Label(VOL1),
    WorkedItem::Label(HDR1),
    WorkedItem::Label(HDR2),
    WorkedItem::Mark,
    WorkedItem::Records(1, 10),
    WorkedItem::Records(11, 10),
    WorkedItem::Records(21, 5),
    WorkedItem::Mark,
    WorkedItem::Label(EOF1),
    WorkedItem::Label(EOF2),
    WorkedItem::Mark,
    WorkedItem::Mark,
];

/// The offsets of the items of the example image, and of its end-of-medium marker.
const STARTS: [usize; 13] = [
    0, 88, 176, 264, 268, 1_076, 1_884, 2_292, 2_296, 2_384, 2_472, 2_476, 2_480,
];

/// Returns how many items end within the first `size` bytes of the example image, and the offset of
/// the next item.
pub(super) fn whole_items(size: usize) -> (usize, usize) {
    let mut whole = (0, 0);
    for (items, &start) in STARTS.iter().enumerate() {
        if start <= size {
            whole = (items, start);
        }
    }
    whole
}

/// Returns the first `count` bytes of `bytes`, or all of them if there are fewer.
pub(super) fn front(bytes: &[u8], count: usize) -> &[u8] {
    &bytes[..count.min(bytes.len())]
}

/// Returns the bytes of `bytes` after the first `count`.
pub(super) fn behind(bytes: &[u8], count: usize) -> &[u8] {
    &bytes[count.min(bytes.len())..]
}

/// Returns record `number`: four digits, and spaces up to 80 characters.
fn record(number: u8) -> [u8; 80] {
    let mut line = [b' '; 80];
    line[..4].copy_from_slice(&[b'0', b'0', b'0' + number / 10 % 10, b'0' + number % 10]);
    line
}

impl WorkedItem {
    /// Returns the bytes of a block, or `None` for a mark.
    pub(super) fn content(self, alloc: Global) -> Result<Option<Vec<u8>>, AllocError> {
        let mut content = Vec::new(alloc);
        match self {
            WorkedItem::Label(label) => content.extend_from_slice(label)?,
            WorkedItem::Records(first, count) => {
                for number in 0..count {
                    content.extend_from_slice(&record(first.wrapping_add(number)))?;
                }
            }
            WorkedItem::Mark => return Ok(None),
        }
        Ok(Some(content))
    }
}

/// An image being built.
#[derive(Drop)]
struct Image<'a> {
    bytes: Vec<u8>,
    /// The bytes before each item and before the end-of-medium marker.
    before: &'a [u8],
}

impl Image<'_> {
    fn word(&mut self, word: [u8; 4]) -> Result<(), AllocError> {
        self.bytes.extend_from_slice(self.before)?;
        self.bytes.extend_from_slice(&word)
    }

    /// Appends a block with the bytes `content`, or a mark.
    fn item(&mut self, content: Option<&[u8]>) -> Result<(), AllocError> {
        match content {
            Some(content) => self.block(content),
            None => self.word(MARK),
        }
    }

    /// Appends a block of fewer than 65,536 bytes.
    fn block(&mut self, content: &[u8]) -> Result<(), AllocError> {
        let [low, high, ..] = content.len().to_le_bytes();
        self.word([low, high, 0, 0])?;
        self.bytes.extend_from_slice(content)?;
        if content.len() % 2 == 1 {
            self.bytes.extend_from_slice(b"?")?;
        }
        self.bytes.extend_from_slice(&[low, high, 0, 0])
    }
}

/// Returns the example image, with `before` before each item and before its end-of-medium marker.
pub(super) fn worked(alloc: Global, before: &[u8]) -> Result<Vec<u8>, AllocError> {
    let mut image = Image {
        bytes: Vec::new(alloc),
        before,
    };
    for item in ITEMS {
        image.item(item.content(alloc)?.as_deref())?;
    }
    image.word(END)?;
    Ok(image.bytes)
}
