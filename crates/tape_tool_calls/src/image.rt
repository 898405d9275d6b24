//! Volumes of the example file set, complete and damaged, written item by item.
use std::alloc::{AllocError, Global};

const MARK: &[u8] = &[0, 0, 0, 0];

const VOL1: &[u8; 80] =
    b"VOL1ABC001                                                                     4";

const HDR1: &[u8; 80] =
    b"HDR1PAYROLL          ABC00100010001000100 00000 00000 000000                    ";

const HDR2: &[u8; 80] =
    b"HDR2F0080000080                                   00                            ";

/// Two tape marks, and the end-of-medium marker.
const END: &[u8] = &[0, 0, 0, 0, 0, 0, 0, 0, 0xFF, 0xFF, 0xFF, 0xFF];

/// Appends a block of an even length to an image, with the high byte `high` in its length words
/// (0x80 marks a bad block).
fn push_block(image: &mut Vec<u8>, content: &[u8], high: u8) -> Result<(), AllocError> {
    let count = content.len();
    let word = [(count % 256) as u8, (count / 256 % 256) as u8, 0, high];
    image.extend_from_slice(&word)?;
    image.extend_from_slice(content)?;
    image.extend_from_slice(&word)
}

/// Appends erase gaps of 36,864 bytes.
fn push_gaps(image: &mut Vec<u8>) -> Result<(), AllocError> {
    for _ in 0..9_216u16 {
        image.extend_from_slice(&[0xFE, 0xFF, 0xFF, 0xFF])?;
    }
    Ok(())
}

/// Returns a capital letter, digit or space in EBCDIC. There the letters are in three runs.
fn in_ebcdic(character: u8) -> u8 {
    match character {
        b'A'..=b'I' => 0xC1 + (character - b'A'),
        b'J'..=b'R' => 0xD1 + (character - b'J'),
        b'S'..=b'Z' => 0xE2 + (character - b'S'),
        b'0'..=b'9' => 0xF0 + (character - b'0'),
        _ => 0x40,
    }
}

/// The example volume, or a variant of it, that is written item by item.
#[derive(Drop)]
struct Volume<'a> {
    name: &'a str,
    /// The digit of the volume's number, and of that of the section on it.
    section: u8,
    /// The digit of the file's number in its set.
    file: u8,
    /// The length of a full block.
    size: usize,
    /// The items so far.
    image: Vec<u8>,
}

impl Volume<'_> {
    /// Appends all items of the volume, with these records. Block `bad` is unreadable if the
    /// records are in blocks of 400.
    fn push_all(&mut self, records: &[u8], bad: usize) -> Result<(), AllocError> {
        self.push_front()?;
        self.push_file(records, bad)?;
        if self.name == "twins" {
            self.image.extend_from_slice(MARK)?;
            self.name = "twin";
            self.push_file(records, bad)?;
        }
        self.image.extend_from_slice(END)
    }

    /// Appends the items of a file up to the mark after its trailer labels.
    fn push_file(&mut self, records: &[u8], bad: usize) -> Result<(), AllocError> {
        let is_empty = self.name == "second" || self.file == b'2';
        let full = if self.size == 400 { b'5' } else { b'3' };
        let count = if is_empty { b'0' } else { full };
        let is_first = self.name.starts_with("first");
        self.push_labels(b"HDR", b'0')?;
        self.image.extend_from_slice(MARK)?;
        self.push_blocks(if is_empty { &[] } else { records }, bad)?;
        self.image.extend_from_slice(MARK)?;
        self.push_labels(if is_first { b"EOV" } else { b"EOF" }, count)
    }

    /// Appends what comes before the first header label.
    fn push_front(&mut self) -> Result<(), AllocError> {
        let mut label = *VOL1;
        label[9] = self.section;
        match self.name {
            "unnamed" => return Ok(()),
            "marked" => self.image.extend_from_slice(MARK)?,
            _ => {}
        }
        self.push_label(label)?;
        match self.name {
            "booted" => push_block(&mut self.image, &[b'B'; 512], 0),
            "late" => push_gaps(&mut self.image),
            _ => Ok(()),
        }
    }

    /// Appends the two labels of a group, the first of which counts `count` blocks.
    fn push_labels(&mut self, group: &[u8; 3], count: u8) -> Result<(), AllocError> {
        let (mut first, mut second) = (*HDR1, *HDR2);
        first[..3].copy_from_slice(group);
        second[..3].copy_from_slice(group);
        if self.file == b'2' || self.name == "twin" {
            first[4..11].copy_from_slice(b"LEDGER ");
        }
        match self.name {
            "again" => {}
            _ => first[30] = self.section,
        }
        if self.name == "own" {
            first[26] = self.section;
        }
        first[34] = self.file;
        first[59] = count;
        if self.name == "uncounted" {
            first[54..60].fill(b' ');
        }
        second[7] = if self.size == 400 { b'4' } else { b'8' };
        self.push_label(first)?;
        self.push_label(second)
    }

    /// Appends a label, in EBCDIC or in ASCII.
    fn push_label(&mut self, label: [u8; 80]) -> Result<(), AllocError> {
        let mut label = label;
        if self.name == "ebcdic" {
            for character in label.iter_mut() {
                *character = in_ebcdic(*character);
            }
        }
        push_block(&mut self.image, &label, 0)
    }

    /// Appends the records in blocks.
    fn push_blocks(&mut self, records: &[u8], bad: usize) -> Result<(), AllocError> {
        if self.size == 0 {
            return Ok(());
        }
        let is_lost = self.name.starts_with("lost");
        for (number, block) in records.chunks(self.size).enumerate() {
            if !(is_lost && number == 1) {
                let is_bad = self.size == 400 && number == bad;
                push_block(&mut self.image, block, if is_bad { 0x80 } else { 0 })?;
            }
            if self.name == "late" && number == 0 {
                self.image
                    .extend_from_slice(&[0, 0, 0, (bad % 16) as u8 * 16])?;
            }
        }
        Ok(())
    }
}

/// Returns the example volume, 2,484 bytes with 25 records of 80 characters in blocks of 800, or a
/// variant of it, as a script names it:
///
/// - `lost` is without its second block, which its trailer label still counts;
/// - `damaged` has the records in blocks of 400, of which block `bad` is unreadable;
/// - `lost_damaged` is `damaged` without its second block, which its trailer label still counts;
/// - `first` has no room for the end-of-file labels, and `second` is the volume after it, with an
///   empty section;
/// - `first_damaged` is `first` with the blocks of `damaged`;
/// - `second_file` has only the second file of its set, without records;
/// - `ebcdic` has its labels in EBCDIC, `booted` a block of 512 bytes after its volume label,
///   `marked` a mark before it, `unnamed` no volume label, and `uncounted` blanks in place of its
///   block counts;
/// - `own` and `again` are the volume after `first`, with all 25 records. `own` has its own
///   identifier as that of its set, and `again` has section number 1;
/// - `twins` has two files with the sequence number 1;
/// - `late` has erase gaps of 36,864 bytes after its volume label, and after its first block of
///   data the word of an item of SIMH's extended format: one of class `bad`, with the length 0.
pub fn example(alloc: Global, name: &str, bad: usize) -> Result<Vec<u8>, AllocError> {
    let records = payroll(alloc)?;
    let mut volume = Volume {
        name,
        section: match name {
            "second" | "own" | "again" => b'2',
            _ => b'1',
        },
        file: if name == "second_file" { b'2' } else { b'1' },
        size: if name.ends_with("damaged") { 400 } else { 800 },
        image: Vec::new(alloc),
    };
    volume.push_all(records.as_slice(), bad)?;
    Ok(volume.image)
}

/// Returns an image without item `number`, counted from 0, or with an unreadable item in its place.
pub fn damage(
    alloc: Global,
    image: &[u8],
    number: usize,
    is_lost: bool,
) -> Result<Vec<u8>, AllocError> {
    let mut damaged = Vec::new(alloc);
    let mut rest = image;
    for at in 0..image.len() {
        let [low, high, ..] = rest else { break };
        let count = usize::from(*low) + 256 * usize::from(*high);
        // A mark is one word, and a block is between two. Their lengths are even here.
        let length = if count == 0 { 4 } else { count + 8 };
        let (item, others) = rest.split_at(length.min(rest.len()));
        if at != number {
            damaged.extend_from_slice(item)?;
        } else if !is_lost {
            push_block(&mut damaged, b"??", 0x80)?;
        }
        rest = others;
    }
    Ok(damaged)
}

/// Returns the 25 records of the example volume. Record i consists of i in four digits and 76
/// spaces.
pub fn payroll(alloc: Global) -> Result<Vec<u8>, AllocError> {
    let mut bytes = Vec::new(alloc);
    for number in 1..26u8 {
        let mut record = [b' '; 80];
        record[..2].fill(b'0');
        record[2] = b'0' + number / 10 % 10;
        record[3] = b'0' + number % 10;
        bytes.extend_from_slice(&record)?;
    }
    Ok(bytes)
}
