//! Tests of the kinds of files by their first bytes. Each file is built from the description of its
//! format.
use std::alloc::{AllocError, Global};
use std::process::Abort;
use std::test::Fail;
use tape_run::{Container, container_of};

const VOLUME: &[u8; 80] =
    b"VOL1CONT01                                                                     4";

const HEADER: &[u8; 80] =
    b"HDR1TEXT.TXT         CONT0100010001000100 85142 00000 000000DECFILE11A          ";

/// A block of odd length.
const ODD: &[u8; 21] = b"a card\na second\ncard\n";

/// The items of a tape: blocks, and marks as empty blocks.
const TAPE: &[&[u8]] = &[VOLUME, HEADER, b"", ODD, ODD, b"", HEADER, b"", b""];

/// A format of images of tapes.
#[derive(Clone, Copy)]
enum Format {
    Simh,
    E11,
    BigEndian,
    TwoByteWords,
    Tpc,
    Aws,
    Het,
    FakeTape,
    P7b,
}

/// The formats, and the kind of an image in each.
const FORMATS: &[(Format, Container)] = &[
    (Format::Simh, Container::Simh),
    (Format::E11, Container::E11),
    (Format::BigEndian, Container::BigEndian),
    (Format::TwoByteWords, Container::TwoByteWords),
    (Format::Tpc, Container::Tpc),
    (Format::Aws, Container::Aws),
    (Format::Het, Container::Het),
    (Format::FakeTape, Container::FakeTape),
    (Format::P7b, Container::P7b),
];

/// Appends a pad byte after an odd number of bytes.
fn pad(bytes: &mut Vec<u8>, item: &[u8]) -> Result<(), AllocError> {
    if item.len() % 2 == 1 {
        bytes.push(0)?;
    }
    Ok(())
}

/// Appends a block between two copies of its length, or a length of 0 for a mark.
fn framed(bytes: &mut Vec<u8>, item: &[u8], length: &[u8], padded: bool) -> Result<(), AllocError> {
    bytes.extend_from_slice(length)?;
    if !item.is_empty() {
        bytes.extend_from_slice(item)?;
        if padded {
            pad(bytes, item)?;
        }
        bytes.extend_from_slice(length)?;
    }
    Ok(())
}

/// Appends the header of an AWS or HET image, and the block. In a HET image the second label is
/// marked as compressed.
fn headed(bytes: &mut Vec<u8>, item: &[u8], before: u16, packed: bool) -> Result<(), AllocError> {
    let flags = match (item.is_empty(), packed) {
        (true, _) => 0x40,
        (false, false) => 0xA0,
        (false, true) => 0xA2,
    };
    bytes.extend_from_slice(&((item.len() % 256) as u16).to_le_bytes())?;
    bytes.extend_from_slice(&before.to_le_bytes())?;
    bytes.extend_from_slice(&[flags, 0])?;
    bytes.extend_from_slice(item)
}

/// Appends the lengths before a block in a FakeTape image, and the block. All lengths are 0, 21 or
/// 80.
fn spelled(bytes: &mut Vec<u8>, item: &[u8], before: usize) -> Result<(), AllocError> {
    let digits: [(usize, &[u8]); 3] = [(0, b"0000"), (21, b"0015"), (80, b"0050")];
    // The third number is the first two, combined bit by bit.
    let checks: [(usize, &[u8]); 5] = [
        (0, b"0000"),
        (21, b"0015"),
        (80, b"0050"),
        (80 + 21, b"0045"),
        (21 + 21, b"0000"),
    ];
    for (number, text) in digits {
        if number == before {
            bytes.extend_from_slice(text)?;
        }
    }
    for (number, text) in digits {
        if number == item.len() {
            bytes.extend_from_slice(text)?;
        }
    }
    for (number, text) in checks {
        if number == before.saturating_add(item.len()) {
            bytes.extend_from_slice(text)?;
        }
    }
    bytes.extend_from_slice(item)
}

/// Appends a block of a P7B image: six bits and parity of each byte, and a mark on the first.
fn seven(bytes: &mut Vec<u8>, item: &[u8]) -> Result<(), AllocError> {
    let mut mark = 0x80;
    for byte in item {
        bytes.push((byte % 0x40 + 0x40) | mark)?;
        mark = 0;
    }
    if item.is_empty() {
        bytes.push(0x8F)?;
    }
    Ok(())
}

/// Appends an item in a format; `before` is the length of the item before it.
fn put(bytes: &mut Vec<u8>, format: Format, item: &[u8], before: usize) -> Result<(), AllocError> {
    let length = (item.len() % 65_536) as u16;
    let word = u32::from(length);
    match format {
        Format::Simh => framed(bytes, item, &word.to_le_bytes(), true),
        Format::E11 => framed(bytes, item, &word.to_le_bytes(), false),
        Format::BigEndian => framed(bytes, item, &word.to_be_bytes(), true),
        Format::TwoByteWords => framed(bytes, item, &length.to_le_bytes(), false),
        Format::Tpc => {
            bytes.extend_from_slice(&length.to_le_bytes())?;
            bytes.extend_from_slice(item)?;
            pad(bytes, item)
        }
        Format::Aws => headed(bytes, item, (before % 65_536) as u16, false),
        Format::Het => headed(
            bytes,
            item,
            (before % 65_536) as u16,
            item.starts_with(b"HDR1"),
        ),
        Format::FakeTape => spelled(bytes, item, before),
        Format::P7b => seven(bytes, item),
    }
}

/// Returns the tape in a format.
fn tape_in(alloc: Global, format: Format) -> Result<Vec<u8>, AllocError> {
    let mut bytes = Vec::new(alloc);
    let mut before = 0;
    for item in TAPE {
        put(&mut bytes, format, *item, before)?;
        before = item.len();
    }
    Ok(bytes)
}

/// Fails unless the file that begins with `front` is of kind `kind`.
fn is_kind<H: Abort>(rt: &H, front: &[u8], kind: Container) -> Result<(), Fail> {
    let found = container_of(front);
    let shown = front.len().min(16);
    assert!(rt;
        found == kind,
        "{found:?}, not {kind:?}, of {:?}",
        &front[..shown]
    );
    Ok(())
}

#[test]
fn formats_of_tapes(rt: HostRuntime) -> Result<(), Fail> {
    for (format, kind) in FORMATS {
        let tape = tape_in(rt.alloc(), *format)?;
        is_kind(&rt, tape.as_slice(), *kind)?;
    }
    Ok(())
}

/// The first bytes of files, and their kinds.
const FRONTS: &[(&[u8], Container)] = &[
    (b"", Container::Unknown),
    (b"P", Container::Unknown),
    (b"\x1F\x8B\x08\0\0\0\0\0\0\x03", Container::Gzip),
    (b"\x1F\x9D\x90\x50\0", Container::Compress),
    (b"BZh91AY&SY", Container::Bzip2),
    (b"\xFD7zXZ\0\0\x04", Container::Xz),
    (b"\x28\xB5\x2F\xFD\x24", Container::Zstd),
    (b"PK\x03\x04\x14\0", Container::Zip),
    (b"7z\xBC\xAF\x27\x1C\0\x04", Container::SevenZip),
    (b"C64-TAPE-RAW\x01\0\0\0", Container::Commodore),
    (b"C16-TAPE-RAW\x01\x01\0\0", Container::Commodore),
    (
        b"\x13\0\0\x03game      \x00\x1B\0\x40\0\x80\x64",
        Container::Spectrum,
    ),
    // Names of other formats, of which the rest does not follow.
    (b"\x1F\x8B\x09\0", Container::Unknown),
    (b"BZhaar of Baghdad", Container::Unknown),
    (b"P\0\0\0\xA0\0", Container::Unknown),
    (b"VOL1 of the letters", Container::Unknown),
    (b"000000000000000000000000", Container::Unknown),
    (b"\x89PNG\r\n\x1A\n\0\0\0\x0D", Container::Unknown),
    (b"{\"tape\":\"CONT01\"}\n", Container::Unknown),
    (b"\0\0\0\0\0\0\0\0", Container::Unknown),
    (b"\xFF\xFF\xFF\xFF", Container::Unknown),
    // SIMH images whose blocks have the bytes of other formats at the same place.
    (b"\x04\0\0\0\xA0\0\0\0\x04\0\0\0\0\0\0\0", Container::Simh),
    (
        b"\0\0\0\0\xFE\xFF\xFF\xFF\x02\0\0\0BZ\x02\0\0\0\x1F\x8B\x08\0",
        Container::Simh,
    ),
    (
        b"\x13\0\0\0C64-TAPE-RAW1234567\0\x13\0\0\0",
        Container::Simh,
    ),
    // Items of SIMH's extended format: a description, a private record, a reserved one, markers, a
    // half gap, and bad blocks of which nothing is known.
    (b"\x02\0\0\xE0{}\x02\0\0\xE0", Container::Extended),
    (b"\x03\0\0\x10abc\0\x03\0\0\x10", Container::Extended),
    (
        b"\x02\0\0\0ab\x02\0\0\0\x01\0\0\x90a\0\x01\0\0\x90",
        Container::Extended,
    ),
    (b"\x01\0\0\x70\x02\0\0\0ab\x02\0\0\0", Container::Extended),
    (
        b"\0\0\0\0\xFF\xFF\xFE\xFF\x02\0\0\0ab\x02\0\0\0",
        Container::Extended,
    ),
    (b"\0\0\0\x80\x02\0\0\0ab\x02\0\0\0", Container::Extended),
    (
        b"\x05\0\0\xF0\0\0\0\0\x02\0\0\0ab\x02\0\0\0",
        Container::Extended,
    ),
    (
        b"\x05\0\0\xF0\0\0\0\0\x02\0\0\0ab\x03\0\0\0",
        Container::Unknown,
    ),
    (
        b"\x02\0\0\0ab\x02\0\0\0\0\0\0\x80\0\0\0\x80",
        Container::Extended,
    ),
    // Damage, which has no name.
    (
        b"\x02\0\0\0ab\x02\0\0\0\x02\0\0\xE0{}\x03\0\0\xE0",
        Container::Simh,
    ),
    (b"\x02\0\0\0ab\x03\0\0\0", Container::Unknown),
    (
        b"\x02\0\0\0ab\x02\0\0\0\xFF\xFF\xFF\xFF\x01\0\0\x70\x02\0\0\0ab\x02\0\0\0",
        Container::Simh,
    ),
];

#[test]
fn first_bytes(rt: HostRuntime) -> Result<(), Fail> {
    for (front, kind) in FRONTS {
        is_kind(&rt, *front, *kind)?;
    }
    Ok(())
}

/// Returns `count` zeros, and the bytes `mark`.
fn behind_zeros(alloc: Global, count: usize, mark: &[u8]) -> Result<Vec<u8>, AllocError> {
    let mut bytes = Vec::from_elem(alloc, 0u8, count)?;
    bytes.extend_from_slice(mark)?;
    Ok(bytes)
}

#[test]
fn marks_at_a_distance(rt: HostRuntime) -> Result<(), Fail> {
    let disc = behind_zeros(rt.alloc(), 32_768, b"\x01CD001\x01\0")?;
    is_kind(&rt, disc.as_slice(), Container::Iso)?;
    let zeros = behind_zeros(rt.alloc(), 36_864, b"")?;
    is_kind(&rt, zeros.as_slice(), Container::Unknown)?;
    let mut archive = Vec::from_slice(rt.alloc(), b"simh.tap")?;
    archive.extend_from_slice(behind_zeros(rt.alloc(), 249, b"ustar\x0000")?.as_slice())?;
    is_kind(&rt, archive.as_slice(), Container::Tar)?;
    let mut blocks = Vec::from_slice(rt.alloc(), VOLUME)?;
    blocks.extend_from_slice(HEADER)?;
    is_kind(&rt, blocks.as_slice(), Container::Raw)
}

#[test]
fn copied_as_text(rt: HostRuntime) -> Result<(), Fail> {
    let tape = tape_in(rt.alloc(), Format::Simh)?;
    let mut copy = Vec::new(rt.alloc());
    for byte in tape.as_slice() {
        if *byte == b'\n' {
            copy.push(b'\r')?;
        }
        copy.push(*byte)?;
    }
    is_kind(&rt, copy.as_slice(), Container::TextCopy)
}
