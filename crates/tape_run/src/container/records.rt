//! Images that hold lengths in other forms than SIMH's.
ghost use Rattle.std.specs.Prelude.{◌≡◌, ◌≤◌, ◌<◌, ◌+◌, length};
ghost use Rattle.byteorder.specs.Endian.{little_number};
ghost use Rattle.tape_run.specs.ContainerRecords.{is_block_flag, fits_flag, is_header};
ghost use Rattle.tape_run.specs.ContainerRecords.{after_header, is_plain};
ghost use Rattle.tape_run.specs.ContainerRecords.{begins_aws, has_packed, is_digit, is_fake_tape};
ghost use Rattle.tape_run.specs.ContainerRecords.{is_seven_track, is_p7b, is_big, recorded};
ghost use Rattle.std.specs.List.{list_all};

use crate::container::Container;
use crate::container::marks::{from, has, has_volume};
use byteorder::{BigEndian, ByteOrder, LittleEndian};

/// Returns whether an AWS or HET header may have the flags `flag` before a block.
fn is_block_flag(flag: u8) -> bool
    ensures { result ≡ is_block_flag flag }
{
    let packing = flag % 4;
    packing < 3 && matches!(flag - packing, 0xA0 | 0x80 | 0x20 | 0)
}

/// Returns whether the bytes begin with an AWS or HET header after a block of `before` bytes.
fn is_header(bytes: &[u8], before: u16) -> bool
    ensures is { result ≡ is_header before bytes.now }
{
    if bytes.len() < 6 {
        return false;
    }
    let len = LittleEndian::read_u16(bytes);
    let fits = if len == 0 {
        bytes[4] == 0x40
    } else {
        is_block_flag(bytes[4])
    };
    LittleEndian::read_u16(&bytes[2..]) == before && bytes[5] == 0 && fits
}

/// Returns what follows an AWS or HET header and its block.
fn after_header(bytes: &[u8]) -> &[u8]
    requires { 2 ≤ length bytes.now }
    ensures { result.now ≡ after_header bytes.now }
{
    from(bytes, 6 + usize::from(LittleEndian::read_u16(bytes)))
}

/// Returns whether the bytes begin with an AWS or HET header, and a block that either is a volume
/// label or is followed by another header that fits.
fn begins_aws(front: &[u8]) -> bool
    ensures { result ≡ begins_aws front.now }
{
    if !is_header(front, 0) {
        return false;
    }
    is_header(after_header(front), LittleEndian::read_u16(front)) || has_volume(front, 6)
}

/// Returns whether a header, as far as they fit, has the flag of a compressed block.
#[tactic(auto, using(crate::proofs::ContainerSteps::packs_stop, crate::proofs::ContainerSteps::packs_found))]
fn has_packed(front: &[u8]) -> bool
    ensures { result ≡ has_packed front.now }
{
    let (mut rest, mut before, mut left) = (front, 0, front.len());
    'headers: while left > 0 {
        if !is_header(rest, before) {
            return false;
        }
        if rest[4] % 4 > 0 {
            return true;
        }
        before = LittleEndian::read_u16(rest);
        rest = after_header(rest);
        left -= 1;
    }
    false
}

/// Returns whether the byte is a hexadecimal digit, as FakeTape writes them.
fn is_digit(byte: u8) -> bool
    ensures { result ≡ is_digit byte }
{
    (48 <= byte && byte <= 57) || (65 <= byte && byte <= 70)
}

/// Returns whether all bytes are such digits.
fn are_digits(bytes: &[u8]) -> bool
    ensures { result ≡ list_all is_digit bytes.now }
{
    let mut left = bytes;
    'digits: while let [byte, rest @ ..] = left {
        if !is_digit(*byte) {
            return false;
        }
        left = rest;
    }
    true
}

/// Returns whether the bytes begin with the header of a first block in a FakeTape image.
fn is_fake_tape(front: &[u8]) -> bool
    ensures { result ≡ is_fake_tape front.now }
{
    if !has(front, 0, b"0000") || has(front, 4, b"0000") || front.len() < 12 {
        return false;
    }
    let digits = &front[4..8];
    are_digits(digits) && front[8..].starts_with(digits)
}

/// Returns whether no byte has its highest bit set.
fn are_plain(bytes: &[u8]) -> bool
    ensures { result ≡ list_all is_plain bytes.now }
{
    let mut left = bytes;
    'bytes: while let [byte, rest @ ..] = left {
        if *byte >= 128 {
            return false;
        }
        left = rest;
    }
    true
}

/// Returns whether the bytes begin with a block of 80 bytes in a P7B image, and another follows.
fn is_seven_track(bytes: &[u8]) -> bool
    ensures { result ≡ is_seven_track bytes.now }
{
    if bytes.len() <= 80 {
        return false;
    }
    bytes[0] >= 128 && bytes[80] >= 128 && are_plain(&bytes[1..80])
}

/// Returns whether the bytes begin with two blocks of 80 bytes in a P7B image.
fn is_p7b(front: &[u8]) -> bool
    ensures { result ≡ is_p7b front.now }
{
    is_seven_track(front) && is_seven_track(from(front, 80))
}

/// Returns whether the bytes begin with a block between two words with the greatest byte first.
fn is_big(front: &[u8]) -> bool
    ensures { result ≡ is_big front.now }
{
    if front.len() < 4 {
        return false;
    }
    let word = BigEndian::read_u32(front);
    if word == 0 || word >= 0x0100_0000 {
        return false;
    }
    let len = word as usize;
    let rest = from(front, 4 + len + len % 2);
    rest.len() >= 4 && BigEndian::read_u32(rest) == word
}

/// Returns the kind of an image with lengths in another form than SIMH's.
pub(super) fn recorded(front: &[u8]) -> Option<Container>
    ensures { result ≡ recorded front.now }
{
    if begins_aws(front) {
        Some(if has_packed(front) {
            Container::Het
        } else {
            Container::Aws
        })
    } else if is_fake_tape(front) {
        Some(Container::FakeTape)
    } else if is_p7b(front) {
        Some(Container::P7b)
    } else if is_big(front) {
        Some(Container::BigEndian)
    } else {
        None
    }
}
