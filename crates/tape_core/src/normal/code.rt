//! The codes of the characters in labels.

ghost use Rattle.std.specs.Prelude.{◌≡◌, ◌≢◌, ◌<◌, ◌≤◌, map, length, IfSome, None};
ghost use Rattle.tape_core.specs.NormalForm.Codes.{ebcdic_table, to_ascii, in_ascii, repeats};
ghost use Rattle.tape_core.specs.NormalForm.Codes.{is_label_length, is_padding, unpadded, turned};

/// The code in which the labels of a tape are written. In blocks with padding, up to 40 bytes
/// follow the 80 characters, all of them the same.
#[derive(Clone, Copy, Debug, PartialEq, Eq)]
pub enum Code {
    /// ASCII, required by the standard.
    Ascii,
    /// EBCDIC, code page 037.
    Ebcdic,
    /// ASCII, in blocks with padding.
    PaddedAscii,
    /// EBCDIC, in blocks with padding.
    PaddedEbcdic,
}

/// For each byte, as a character of code page 037, the same character in ISO 8859-1.
const TABLE: [u8; 256] = [
    0x00, 0x01, 0x02, 0x03, 0x9C, 0x09, 0x86, 0x7F, 0x97, 0x8D, 0x8E, 0x0B, 0x0C, 0x0D, 0x0E, 0x0F,
    0x10, 0x11, 0x12, 0x13, 0x9D, 0x85, 0x08, 0x87, 0x18, 0x19, 0x92, 0x8F, 0x1C, 0x1D, 0x1E, 0x1F,
    0x80, 0x81, 0x82, 0x83, 0x84, 0x0A, 0x17, 0x1B, 0x88, 0x89, 0x8A, 0x8B, 0x8C, 0x05, 0x06, 0x07,
    0x90, 0x91, 0x16, 0x93, 0x94, 0x95, 0x96, 0x04, 0x98, 0x99, 0x9A, 0x9B, 0x14, 0x15, 0x9E, 0x1A,
    0x20, 0xA0, 0xE2, 0xE4, 0xE0, 0xE1, 0xE3, 0xE5, 0xE7, 0xF1, 0xA2, 0x2E, 0x3C, 0x28, 0x2B, 0x7C,
    0x26, 0xE9, 0xEA, 0xEB, 0xE8, 0xED, 0xEE, 0xEF, 0xEC, 0xDF, 0x21, 0x24, 0x2A, 0x29, 0x3B, 0xAC,
    0x2D, 0x2F, 0xC2, 0xC4, 0xC0, 0xC1, 0xC3, 0xC5, 0xC7, 0xD1, 0xA6, 0x2C, 0x25, 0x5F, 0x3E, 0x3F,
    0xF8, 0xC9, 0xCA, 0xCB, 0xC8, 0xCD, 0xCE, 0xCF, 0xCC, 0x60, 0x3A, 0x23, 0x40, 0x27, 0x3D, 0x22,
    0xD8, 0x61, 0x62, 0x63, 0x64, 0x65, 0x66, 0x67, 0x68, 0x69, 0xAB, 0xBB, 0xF0, 0xFD, 0xFE, 0xB1,
    0xB0, 0x6A, 0x6B, 0x6C, 0x6D, 0x6E, 0x6F, 0x70, 0x71, 0x72, 0xAA, 0xBA, 0xE6, 0xB8, 0xC6, 0xA4,
    0xB5, 0x7E, 0x73, 0x74, 0x75, 0x76, 0x77, 0x78, 0x79, 0x7A, 0xA1, 0xBF, 0xD0, 0xDD, 0xDE, 0xAE,
    0x5E, 0xA3, 0xA5, 0xB7, 0xA9, 0xA7, 0xB6, 0xBC, 0xBD, 0xBE, 0x5B, 0x5D, 0xAF, 0xA8, 0xB4, 0xD7,
    0x7B, 0x41, 0x42, 0x43, 0x44, 0x45, 0x46, 0x47, 0x48, 0x49, 0xAD, 0xF4, 0xF6, 0xF2, 0xF3, 0xF5,
    0x7D, 0x4A, 0x4B, 0x4C, 0x4D, 0x4E, 0x4F, 0x50, 0x51, 0x52, 0xB9, 0xFB, 0xFC, 0xF9, 0xFA, 0xFF,
    0x5C, 0xF7, 0x53, 0x54, 0x55, 0x56, 0x57, 0x58, 0x59, 0x5A, 0xB2, 0xD4, 0xD6, 0xD2, 0xD3, 0xD5,
    0x30, 0x31, 0x32, 0x33, 0x34, 0x35, 0x36, 0x37, 0x38, 0x39, 0xB3, 0xDB, 0xDC, 0xD9, 0xDA, 0x9F,
];

/// Returns the character that a byte is in EBCDIC (code page 037), in ISO 8859-1, which begins with
/// ASCII.
pub fn to_ascii(byte: u8) -> u8
    ensures { result ≡ to_ascii byte }
{
    TABLE[usize::from(byte)]
}

/// Turns the characters of a label from EBCDIC into ASCII.
fn turn(text: &mut [u8; 80])
    ensures { text.new ≡ map to_ascii text.old }
{
    let mut place = 80;
    while place > 0 {
        place -= 1;
        text[place] = to_ascii(text[place]);
    }
}

/// Returns the bytes of a block of 80.
fn eighty(bytes: &[u8]) -> Option<&[u8; 80]>
    ensures some { IfSome result (λ label. label.now ≡ bytes.now) }
    ensures none { result ≡ None → length bytes.now ≢ 80 }
{
    bytes.try_into().ok()
}

/// The greatest number of bytes of a label with its padding.
pub(crate) const LONGEST_LABEL: u64 = 120;

/// Returns whether a block of `len` bytes can be a label.
pub(crate) fn is_label_length(len: u64) -> bool
    ensures { result ≡ is_label_length len }
{
    len >= 80 && len <= LONGEST_LABEL
}

/// Returns whether each of the bytes is `byte`.
fn repeats(byte: u8, bytes: &[u8]) -> bool
    ensures { result ≡ repeats byte bytes.now }
{
    match bytes {
        [first, rest @ ..] => *first == byte && repeats(byte, rest),
        [] => true,
    }
}

/// Returns whether the bytes are one byte over and over, or none.
fn is_padding(bytes: &[u8]) -> bool
    ensures { result ≡ is_padding bytes.now }
{
    match bytes {
        [first, rest @ ..] => repeats(*first, rest),
        [] => true,
    }
}

/// Returns the 80 characters of a label, without the padding after them; any other block as it is.
fn unpadded(block: &[u8]) -> &[u8]
    ensures { result.now ≡ unpadded block.now }
{
    if block.len() >= 80 && block.len() as u64 <= LONGEST_LABEL && is_padding(&block[80..]) {
        return &block[..80];
    }
    block
}

/// Returns the characters of a label, or `None` if the block does not have 80 bytes.
fn plain(block: &[u8]) -> Option<[u8; 80]>
    ensures some { IfSome result (λ text. text ≡ block.now) }
    ensures none { result ≡ None → length block.now ≢ 80 }
{
    let label = eighty(block)?;
    Some(*label)
}

/// Returns the characters of a label in EBCDIC, or `None` if the block does not have 80 bytes.
#[tactic(auto, using(crate::proofs::Labels::turned_none))]
fn turned(block: &[u8]) -> Option<[u8; 80]>
    ensures some { IfSome result (λ text. text ≡ turned block.now) }
    ensures none { result ≡ None → length (turned block.now) ≢ 80 }
{
    let label = eighty(block)?;
    let mut text = *label;
    turn(&mut text);
    Some(text)
}

/// Returns the characters of a label in ASCII, or `None` if the block is not one by its length.
pub(crate) fn label_in(code: Code, block: &[u8]) -> Option<[u8; 80]>
    ensures some { IfSome result (λ text. text ≡ in_ascii code block.now) }
    ensures none { result ≡ None → length (in_ascii code block.now) ≢ 80 }
{
    match code {
        Code::Ascii => plain(block),
        Code::Ebcdic => turned(block),
        Code::PaddedAscii => plain(unpadded(block)),
        Code::PaddedEbcdic => turned(unpadded(block)),
    }
}
