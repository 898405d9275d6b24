//! Images, written item by item and label by label.
use std::alloc::{AllocError, Global};
use tape_core::MemorySink;
use tape_label::Field;

/// The word of an erase gap.
pub const GAP: [u8; 4] = [0xFE, 0xFF, 0xFF, 0xFF];

/// The items of a tape, as the bytes of its image.
#[derive(Drop)]
pub struct Image {
    pub alloc: Global,
    pub bytes: Vec<u8>,
    /// Whether an erase gap precedes each word.
    gaps: bool,
}

/// Returns the first `count` bytes, or all if there are fewer.
pub fn front(bytes: &[u8], count: usize) -> &[u8] {
    if count <= bytes.len() {
        &bytes[..count]
    } else {
        bytes
    }
}

/// Returns the identifier of the set of all example images but the foreign one.
pub fn set_id() -> Field<6> {
    Field::of_bytes(*b"ABC001")
}

impl Image {
    pub fn new(alloc: Global) -> Image {
        Image {
            alloc,
            bytes: Vec::new(alloc),
            gaps: false,
        }
    }

    /// Returns an image with an erase gap before each of its words.
    pub fn with_gaps(alloc: Global) -> Image {
        Image {
            alloc,
            bytes: Vec::new(alloc),
            gaps: true,
        }
    }

    /// Returns the image truncated to its first `length` bytes.
    pub fn cut(mut self, length: usize) -> Image {
        self.bytes.truncate(length);
        self
    }

    /// Appends a word, least significant byte first.
    pub fn word(&mut self, word: [u8; 4]) -> Result<(), AllocError> {
        if self.gaps {
            self.bytes.extend_from_slice(&GAP)?;
        }
        self.bytes.extend_from_slice(&word)
    }

    pub fn mark(&mut self) -> Result<(), AllocError> {
        self.word([0, 0, 0, 0])
    }

    /// Appends the second mark of a volume, and the end-of-medium marker.
    pub fn end(&mut self) -> Result<(), AllocError> {
        self.mark()?;
        self.word([0xFF, 0xFF, 0xFF, 0xFF])
    }

    /// Appends `content` between two words with the high byte `high`, and a pad byte if its length
    /// is odd.
    fn framed(&mut self, content: &[u8], high: u8) -> Result<(), AllocError> {
        let count = content.len();
        let word = [
            (count % 256) as u8,
            (count / 256 % 256) as u8,
            (count / 65536 % 256) as u8,
            high,
        ];
        self.word(word)?;
        self.bytes.extend_from_slice(content)?;
        if count % 2 == 1 {
            self.bytes.push(0)?;
        }
        self.bytes.extend_from_slice(&word)
    }

    pub fn block(&mut self, content: &[u8]) -> Result<(), AllocError> {
        self.framed(content, 0)
    }

    /// Appends a block that was recorded with an error.
    pub fn bad(&mut self, content: &[u8]) -> Result<(), AllocError> {
        self.framed(content, 0x80)
    }

    /// Appends a block of 80 characters: `text`, padded with spaces.
    pub fn label(&mut self, text: &str) -> Result<(), AllocError> {
        self.label_of(text.as_bytes(), b' ')
    }

    /// Appends a block of 80 bytes: `front`, followed by copies of `filler`.
    pub fn label_of(&mut self, front: &[u8], filler: u8) -> Result<(), AllocError> {
        let mut label = [filler; 80];
        for (slot, byte) in label.iter_mut().zip(front) {
            *slot = *byte;
        }
        self.block(&label)
    }

    /// Appends labels, and the mark before the data.
    pub fn headers(&mut self, labels: &[&str]) -> Result<(), AllocError> {
        for label in labels {
            self.label(label)?;
        }
        self.mark()
    }

    /// Appends the mark after the data, labels, and the mark after them.
    pub fn trailers(&mut self, labels: &[&str]) -> Result<(), AllocError> {
        self.mark()?;
        self.headers(labels)
    }

    /// Appends a block of records of 80 characters, numbered from `from` up to but not including
    /// `to`. A bad block has the same length as a good one.
    pub fn records(&mut self, from: u8, to: u8, good: bool) -> Result<(), AllocError> {
        let mut block = Vec::new(self.alloc);
        for number in from..to {
            block.extend_from_slice(&record(number))?;
        }
        if good {
            self.block(block.as_slice())
        } else {
            self.bad(block.as_slice())
        }
    }
}

/// Returns record `number` of 80 characters: two digits, and 78 spaces.
pub fn record(number: u8) -> [u8; 80] {
    let mut record = [b' '; 80];
    record[0] = b'0' + number / 10 % 10;
    record[1] = b'0' + number % 10;
    record
}

pub const VOL1: &str =
    "VOL1ABC001                                                                     4";

pub const HDR1: &str = "HDR1PAYROLL          ABC00100010001000100 00000 00000 000000";

/// HDR2 of format F, with records of 80 characters.
pub const HDR2: &str = "HDR2F0080000080                                   00";

/// Returns the example volume, of 2,484 bytes: 25 records in blocks of 10, 10 and 5 records. The
/// data blocks begin at 268, 1,076 and 1,884, and the closing mark is at 2,292.
pub fn payroll(alloc: Global) -> Result<Image, AllocError> {
    payroll_on(Image::new(alloc), TRAILERS)
}

/// Returns the example volume with an erase gap before each of its words.
pub fn payroll_with_gaps(alloc: Global) -> Result<Image, AllocError> {
    payroll_on(Image::with_gaps(alloc), TRAILERS)
}

/// The trailer labels of the example volume.
const TRAILERS: &[&str] = &[
    EOF_THREE,
    "EOF2F0080000080                                   00",
];

/// Returns the example volume with the trailer labels `trailers`.
pub fn payroll_with(alloc: Global, trailers: &[&str]) -> Result<Image, AllocError> {
    payroll_on(Image::new(alloc), trailers)
}

/// Appends the example volume with the trailer labels `trailers` to an empty image.
fn payroll_on(mut image: Image, trailers: &[&str]) -> Result<Image, AllocError> {
    image.headers(&[VOL1, HDR1, HDR2])?;
    image.records(0, 10, true)?;
    image.records(10, 20, true)?;
    image.records(20, 25, true)?;
    image.trailers(trailers)?;
    image.end()?;
    Ok(image)
}

/// Returns 25 records in five blocks of 5 records, with block `bad` unreadable (5 means none) and
/// the trailer label `trailer`.
pub fn five_blocks(alloc: Global, bad: u8, trailer: &str) -> Result<Image, AllocError> {
    let mut image = Image::new(alloc);
    image.headers(&[VOL1, HDR1, HDR2])?;
    for number in 0..5u8 {
        image.records(number * 5, number * 5 + 5, number != bad)?;
    }
    image.trailers(&[
        trailer,
        "EOF2F0040000080                                   00",
    ])?;
    image.end()?;
    Ok(image)
}

/// Returns a volume with no file.
pub fn blank(alloc: Global) -> Result<Image, AllocError> {
    let mut image = Image::new(alloc);
    image.headers(&[VOL1])?;
    image.end()?;
    Ok(image)
}

/// The trailer labels of three and of five blocks.
pub const EOF_THREE: &str = "EOF1PAYROLL          ABC00100010001000100 00000 00000 000003";

pub const EOF_FIVE: &str = "EOF1PAYROLL          ABC00100010001000100 00000 00000 000005";

/// Returns byte number `place` of the long record, which has 290 bytes in blocks of 18: the letter
/// with the number `place` modulo 26, where `a` is 0.
pub fn long_byte(place: usize) -> u8 {
    b'a' + (place % 26) as u8
}

/// Returns a block of 18 bytes with 13 bytes of the long record, which begin at offset `from` of
/// the record.
fn segment(indicator: u8, from: usize) -> [u8; 18] {
    let mut block = *b"?0018^^^^^^^^^^^^^";
    block[0] = indicator;
    for (place, slot) in (from..).zip(block[5..].iter_mut()) {
        *slot = long_byte(place);
    }
    block
}

/// Returns the first volume of the long record: 22 blocks with 286 of its bytes, and end-of-volume
/// labels; 1,032 bytes. Its first data block begins at 268, each occupies 26 bytes, and the closing
/// mark is at 840.
pub fn long_first(alloc: Global) -> Result<Image, AllocError> {
    let mut image = Image::new(alloc);
    image.headers(&[
        VOL1,
        HDR1,
        "HDR2S0001800000                                   00",
    ])?;
    image.block(&segment(b'1', 0))?;
    for number in 1..22usize {
        image.block(&segment(b'2', number * 13))?;
    }
    image.trailers(&[
        "EOV1PAYROLL          ABC00100010001000100 00000 00000 000022",
        "EOV2S0001800000                                   00",
    ])?;
    image.end()?;
    Ok(image)
}

/// Returns the second volume: one block with the last 4 bytes, and end-of-file labels; 486 bytes.
pub fn long_second(alloc: Global) -> Result<Image, AllocError> {
    let mut image = Image::new(alloc);
    image.headers(&[
        "VOL1ABC002                                                                     4",
        "HDR1PAYROLL          ABC00100020001000100 00000 00000 000000",
        "HDR2S0001800000                                   00",
    ])?;
    let mut last = *b"30009    ^^^^^^^^^";
    for (place, slot) in (286usize..).zip(last[5..9].iter_mut()) {
        *slot = long_byte(place);
    }
    image.block(&last)?;
    image.trailers(&[
        "EOF1PAYROLL          ABC00100020001000100 00000 00000 000001",
        "EOF2S0001800000                                   00",
    ])?;
    image.end()?;
    Ok(image)
}

/// Returns whether the sink contains `count` records of 80 characters, numbered from 0.
pub fn holds_records(sink: &MemorySink, count: u8) -> bool {
    sink.count() == count as usize
        && (0..count).all(|number| match sink.part(number as usize) {
            Some(part) => part.bytes == record(number).as_slice(),
            None => false,
        })
}

/// Returns whether the sink contains the first `parts` parts of the long record, each of 13 bytes
/// except perhaps the last.
pub fn holds_long(sink: &MemorySink, parts: usize) -> bool {
    let mut place = 0usize;
    for number in 0..sink.count() {
        let Some(part) = sink.part(number) else {
            return false;
        };
        for byte in part.bytes {
            if *byte != long_byte(place) {
                return false;
            }
            place = place.saturating_add(1);
        }
    }
    sink.count() == parts
        && place
            == if parts == 23 {
                290
            } else {
                parts.saturating_mul(13)
            }
}
