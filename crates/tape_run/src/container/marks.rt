//! Files that are not close to SIMH's format, by bytes that each of them has at the same place.
ghost use Rattle.std.specs.Prelude.{◌≡◌, drop};
ghost use Rattle.tape_run.specs.ContainerMarks.{has, packed, other_medium, labelled};
ghost use Rattle.tape_run.specs.ContainerMarks.{has_volume, has_header};

use crate::container::Container;

/// Returns the bytes from offset `place` on.
pub(super) fn from(bytes: &[u8], place: usize) -> &[u8]
    ensures { result.now ≡ drop place bytes.now }
{
    bytes.get(place..).unwrap_or(&[])
}

/// Returns whether the bytes `mark` are at offset `place`.
pub(super) fn has(front: &[u8], place: usize, mark: &[u8]) -> bool
    ensures { result ≡ has place mark.now front.now }
{
    from(front, place).starts_with(mark)
}

/// Returns the kind of a compressed file or an archive.
pub(super) fn packed(front: &[u8]) -> Option<Container>
    ensures { result ≡ packed front.now }
{
    if has(front, 0, b"\x1F\x8B\x08") {
        Some(Container::Gzip)
    } else if has(front, 0, b"\x1F\x9D\x90") {
        Some(Container::Compress)
    } else if has(front, 0, b"BZh") && has(front, 4, b"1AY&SY") {
        Some(Container::Bzip2)
    } else if has(front, 0, b"\xFD7zXZ\0") {
        Some(Container::Xz)
    } else if has(front, 0, b"\x28\xB5\x2F\xFD") {
        Some(Container::Zstd)
    } else if has(front, 0, b"PK\x03\x04") {
        Some(Container::Zip)
    } else if has(front, 0, b"7z\xBC\xAF\x27\x1C") {
        Some(Container::SevenZip)
    } else if has(front, 257, b"ustar") {
        Some(Container::Tar)
    } else {
        None
    }
}

/// Returns the kind of a cassette of a home computer, or of a disc.
pub(super) fn other_medium(front: &[u8]) -> Option<Container>
    ensures { result ≡ other_medium front.now }
{
    if has(front, 0, b"C64-TAPE-RAW") || has(front, 0, b"C16-TAPE-RAW") {
        Some(Container::Commodore)
    } else if has(front, 0, b"\x13\0\0\0") || has(front, 0, b"\x13\0\0\x01") {
        Some(Container::Spectrum)
    } else if has(front, 0, b"\x13\0\0\x02") || has(front, 0, b"\x13\0\0\x03") {
        Some(Container::Spectrum)
    } else if has(front, 32_769, b"CD001") {
        Some(Container::Iso)
    } else {
        None
    }
}

/// Returns whether a volume label is at offset `place`.
pub(super) fn has_volume(front: &[u8], place: usize) -> bool
    ensures { result ≡ has_volume place front.now }
{
    has(front, place, b"VOL1") || has(front, place, b"\xE5\xD6\xD3\xF1")
}

/// Returns whether a first header label is at offset `place`.
fn has_header(front: &[u8], place: usize) -> bool
    ensures { result ≡ has_header place front.now }
{
    has(front, place, b"HDR1") || has(front, place, b"\xC8\xC4\xD9\xF1")
}

/// Returns the kind of a tape that begins with a volume label.
pub(super) fn labelled(front: &[u8]) -> Option<Container>
    ensures { result ≡ labelled front.now }
{
    if has_volume(front, 0) && has_header(front, 80) {
        Some(Container::Raw)
    } else if !(has(front, 0, b"\x50\0") && has_volume(front, 2)) {
        None
    } else if has(front, 82, b"\x50\0\x50\0") {
        Some(Container::TwoByteWords)
    } else if has(front, 82, b"\x50\0") {
        Some(Container::Tpc)
    } else {
        None
    }
}
