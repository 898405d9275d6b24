//! Tests of images of other formats: images written out by hand, and the SIMH images of them.

use super::checks::is_so;
use std::alloc::{AllocError, Global};
use std::io;
use std::io::{Error, ErrorKind, Read};
use std::process::Abort;
use std::test::Fail;
use tape_image::{ImageFormat, SimhImage, convert_to};

/// An image of a format, and its SIMH image.
struct Row(ImageFormat, &'static [u8], &'static [u8]);

/// A header of AWS with a length, the length before, and flags.
const ROWS: [Row; 32] = [
    // E11: a pad byte follows each block of odd length.
    Row(ImageFormat::E11, b"", b""),
    Row(
        ImageFormat::E11,
        b"\x03\0\0\0odd\x03\0\0\0\0\0\0\0\x04\0\0\0even\x04\0\0\0\xFF\xFF\xFF\xFFrest",
        b"\x03\0\0\0odd\0\x03\0\0\0\0\0\0\0\x04\0\0\0even\x04\0\0\0\xFF\xFF\xFF\xFF",
    ),
    Row(
        ImageFormat::E11,
        b"\xFE\xFF\xFF\xFF\x01\0\0\x80x\x01\0\0\x80",
        b"\xFE\xFF\xFF\xFF\x01\0\0\x80x\0\x01\0\0\x80",
    ),
    // A word that begins no item is the last; so is a part of a word, as the byte 0.
    Row(
        ImageFormat::E11,
        b"\0\0\0\0\x01\0\0\x10x",
        b"\0\0\0\0\x01\0\0\x10",
    ),
    Row(ImageFormat::E11, b"\0\0\0\0\x03\0\0", b"\0\0\0\0\0"),
    Row(ImageFormat::E11, b"\x03\0\0\0od", b"\x03\0\0\0od\0"),
    // The extended format: blocks, marks and gaps stay.
    Row(
        ImageFormat::Extended,
        b"\x03\0\0\0odd?\x03\0\0\0\0\0\0\0\xFE\xFF\xFF\xFF\x01\0\0\x80x?\x01\0\0\x80\xFF\xFF\xFF\xFFm",
        b"\x03\0\0\0odd?\x03\0\0\0\0\0\0\0\xFE\xFF\xFF\xFF\x01\0\0\x80x?\x01\0\0\x80\xFF\xFF\xFF\xFF",
    ),
    // A description, a private record, and markers are left out.
    Row(
        ImageFormat::Extended,
        b"\x05\0\0\xE0about\0\x05\0\0\xE0\0\0\0\0",
        b"\0\0\0\0",
    ),
    Row(
        ImageFormat::Extended,
        b"\x02\0\0\x10by\x02\0\0\x10\0\0\0\0",
        b"\0\0\0\0",
    ),
    Row(
        ImageFormat::Extended,
        b"\x01\0\0\x70\0\0\0\0\x01\0\0\xF0\0\0\0\0",
        b"\0\0\0\0\0\0\0\0",
    ),
    // A record without its second word ends the image with its first.
    Row(
        ImageFormat::Extended,
        b"\0\0\0\0\x02\0\0\x10by\x03\0\0\x10\0\0\0\0",
        b"\0\0\0\0\x02\0\0\x10",
    ),
    Row(
        ImageFormat::Extended,
        b"\0\0\0\0\x02\0\0\x10b",
        b"\0\0\0\0\x02\0\0\x10",
    ),
    // A bad record of length 0 has one word or two.
    Row(
        ImageFormat::Extended,
        b"\0\0\0\x80\0\0\0\0\0\0\0\x80\0\0\0\x80",
        b"\x01\0\0\x80\0\0\x01\0\0\x80\0\0\0\0\x01\0\0\x80\0\0\x01\0\0\x80",
    ),
    // Half an erase gap takes two bytes before a gap, and four before anything else.
    Row(
        ImageFormat::Extended,
        b"\xFF\xFF\xFE\xFF\xFF\xFF\0\0\0\0",
        b"\xFE\xFF\xFF\xFF\0\0\0\0",
    ),
    Row(
        ImageFormat::Extended,
        b"\xFF\xFF\xFE\xFF\0\0\0\0",
        b"\0\0\0\0",
    ),
    // A record of more than 24 bits is no item.
    Row(ImageFormat::Extended, b"\0\0\0\x01\0\0\0\0", b"\0\0\0\x01"),
    // AWS: each block is put between two words.
    Row(ImageFormat::Aws, b"", b""),
    Row(
        ImageFormat::Aws,
        b"\x03\0\0\0\xA0\0odd\0\0\x03\0\x40\0\x04\0\0\0\xA0\0even",
        b"\x03\0\0\0odd\0\x03\0\0\0\0\0\0\0\x04\0\0\0even\x04\0\0\0",
    ),
    // Zeros fill the end.
    Row(
        ImageFormat::Aws,
        b"\0\0\0\0\x40\0\0\0\0\0\0\0\0\0",
        b"\0\0\0\0",
    ),
    // The length before is wrong; the header is not whole; the flags are of HET.
    Row(
        ImageFormat::Aws,
        b"\0\0\0\0\x40\0\x01\0\x01\0\xA0\0x",
        b"\0\0\0\0\xFF\xFF\xFF\x7F",
    ),
    Row(
        ImageFormat::Aws,
        b"\0\0\0\0\x40\0\x01\0\0\0\xA0",
        b"\0\0\0\0\0",
    ),
    Row(ImageFormat::Aws, b"\x01\0\0\0\xA1\0x", b"\xFF\xFF\xFF\x7F"),
    // A block in two chunks, and one in three; the header after it has the length of the last.
    Row(
        ImageFormat::Aws,
        b"\x03\0\0\0\x80\0abc\x02\0\x03\0\x20\0de\0\0\x02\0\x40\0",
        b"\x05\0\0\0abcde\0\x05\0\0\0\0\0\0\0",
    ),
    Row(
        ImageFormat::Aws,
        b"\x01\0\0\0\x80\0a\x02\0\x01\0\0\0bc\x01\0\x02\0\x20\0d\x01\0\x01\0\xA0\0e",
        b"\x04\0\0\0abcd\x04\0\0\0\x01\0\0\0e\0\x01\0\0\0",
    ),
    // After a chunk that does not end the block comes a mark, a new block, its end without bytes,
    // or a chunk with a wrong length before.
    Row(
        ImageFormat::Aws,
        b"\x01\0\0\0\x80\0a\0\0\x01\0\x40\0",
        b"\xFF\xFF\xFF\x7F",
    ),
    Row(
        ImageFormat::Aws,
        b"\x01\0\0\0\x80\0a\x01\0\x01\0\xA0\0b",
        b"\xFF\xFF\xFF\x7F",
    ),
    Row(
        ImageFormat::Aws,
        b"\x01\0\0\0\x80\0a\0\0\x01\0\x20\0",
        b"\xFF\xFF\xFF\x7F",
    ),
    Row(
        ImageFormat::Aws,
        b"\0\0\0\0\x40\0\x01\0\0\0\x80\0a\x01\0\x02\0\x20\0b",
        b"\0\0\0\0\xFF\xFF\xFF\x7F",
    ),
    // Zeros do not fill the end within a block, and no block continues that has not begun.
    Row(
        ImageFormat::Aws,
        b"\x01\0\0\0\x80\0a\0\0\0\0\0\0",
        b"\xFF\xFF\xFF\x7F",
    ),
    Row(ImageFormat::Aws, b"\x01\0\0\0\x20\0x", b"\xFF\xFF\xFF\x7F"),
    // The image ends before a chunk, and in one.
    Row(ImageFormat::Aws, b"\x01\0\0\0\x80\0a", b"\0"),
    Row(
        ImageFormat::Aws,
        b"\x01\0\0\0\x80\0a\x02\0\x01\0\x20\0b",
        b"\0",
    ),
];

/// A reader that returns one byte in every second call, and fails in the others.
#[derive(Drop)]
struct Halting<'a> {
    bytes: &'a [u8],
    fails: bool,
}

impl Read for Halting<'_> {
    fn read(&mut self, buf: &mut [u8]) -> io::Result<usize> {
        self.fails = !self.fails;
        if self.fails {
            return Err(Error::from(ErrorKind::TimedOut));
        }
        match (self.bytes, buf) {
            ([first, others @ ..], [slot, ..]) => {
                *slot = *first;
                self.bytes = others;
                Ok(1)
            }
            _ => Ok(0),
        }
    }
}

/// Returns all bytes of the reader, read in pieces of up to `size`. Reads on after each error.
fn all_of<R: Read>(alloc: Global, reader: &mut R, size: usize) -> Result<Vec<u8>, AllocError> {
    let mut bytes = Vec::new(alloc);
    let mut buffer = [0; 64];
    for _ in 0..10_000 {
        match reader.read(&mut buffer[..size.min(64)]) {
            Ok(0) => return Ok(bytes),
            Ok(count) => bytes.extend_from_slice(&buffer[..count])?,
            Err(_) => {}
        }
    }
    Ok(bytes)
}

/// Returns the SIMH image of an image, read in pieces of up to `size` bytes.
fn simh(
    alloc: Global,
    format: ImageFormat,
    image: &[u8],
    size: usize,
) -> Result<Vec<u8>, AllocError> {
    all_of(alloc, &mut SimhImage::new(alloc, image, format), size)
}

#[test]
fn images_have_these_simh_images(rt: HostRuntime) -> Result<(), Fail> {
    for (row, Row(format, image, want)) in ROWS.iter().enumerate() {
        for size in [1, 2, 3, 4, 5, 7, 64] {
            let found = simh(rt.alloc(), *format, *image, size)?;
            is_so(&rt, row, found.as_slice() == *want);
        }
        let mut found = Vec::new(rt.alloc());
        is_so(
            &rt,
            row,
            convert_to(rt.alloc(), *image, *format, &mut found).is_ok(),
        );
        is_so(&rt, row, found.as_slice() == *want);
    }
    Ok(())
}

/// Appends a chunk of `len` bytes, all of them 7, after one of `before` bytes.
fn add_chunk(image: &mut Vec<u8>, len: u16, before: u16, flags: u8) -> Result<(), AllocError> {
    image.extend_from_slice(&len.to_le_bytes())?;
    image.extend_from_slice(&before.to_le_bytes())?;
    image.extend_from_slice(&[flags, 0])?;
    for _ in 0..len {
        image.push(7)?;
    }
    Ok(())
}

#[test]
fn a_block_in_chunks_may_have_the_greatest_length(rt: HostRuntime) -> Result<(), Fail> {
    // The length of the last chunk, and the bytes of the SIMH image of the block and a mark: a
    // block of 99,999 bytes, its pad byte and words, or a bad block.
    for (row, (last, bytes)) in [(34_464, 100_012), (34_465, 14), (65_535, 14)]
        .iter()
        .enumerate()
    {
        let mut image = Vec::new(rt.alloc());
        add_chunk(&mut image, 65_535, 0, 0x80)?;
        add_chunk(&mut image, *last, 65_535, 0x20)?;
        add_chunk(&mut image, 0, *last, 0x40)?;
        let found = simh(rt.alloc(), ImageFormat::Aws, image.as_slice(), 64)?;
        is_so(&rt, row, found.len() == *bytes);
        is_so(&rt, row, found.as_slice().ends_with(b"\0\0\0\0"));
        let word: [u8; 4] = if *bytes == 14 {
            [1, 0, 0, 0x80]
        } else {
            [0x9F, 0x86, 1, 0]
        };
        is_so(&rt, row, found.as_slice().starts_with(&word));
    }
    Ok(())
}

#[test]
fn a_device_that_fails_loses_nothing(rt: HostRuntime) -> Result<(), Fail> {
    for (row, Row(format, image, want)) in ROWS.iter().enumerate() {
        let device = Halting {
            bytes: *image,
            fails: false,
        };
        let image = &mut SimhImage::new(rt.alloc(), device, *format);
        let found = all_of(rt.alloc(), image, 64)?;
        is_so(&rt, row, found.as_slice() == *want);
    }
    Ok(())
}

#[test]
fn a_part_of_an_image_gives_the_front_of_its_simh_image(rt: HostRuntime) -> Result<(), Fail> {
    for (row, Row(format, image, want)) in ROWS.iter().enumerate() {
        for size in 0..image.len() {
            let found = simh(rt.alloc(), *format, &image[..size], 64)?;
            // But for its last bytes, which stand for the item that is cut off.
            let sure = found.len().saturating_sub(10);
            is_so(&rt, row, want.starts_with(&found[..sure]));
        }
    }
    Ok(())
}
