//! Blank volumes: their labels, made from a prefix and a number, and their images.
ghost use Rattle.std.specs.Prelude.{◌≡◌, ◌<◌, ◌↔◌, IsSome, IfSome, IsTrue};
ghost use Rattle.tape_writer.specs.Blank.{IsPrefixByte, IsPrefix, blank_volume, blank_image};

use arrayvec::ArrayVec;
use tape_label::{Field, Vol1, digits_of, put, write_vol1};

/// The size of the image of a blank volume, in bytes.
pub const BLANK: usize = 100;

/// The image of a blank volume: a volume without files.
pub type BlankImage = ArrayVec<u8, BLANK>;

/// The first three characters of the identifiers of a set's volumes, each `A` to `Z` or `0` to `9`.
#[derive(Clone, Copy, PartialEq, Eq)]
pub struct Prefix {
    pub characters: [u8; 3],
}

impl Prefix {
    /// Returns the prefix, or `None` if `text` is not three of these characters.
    pub fn new(text: &str) -> Option<Prefix>
        ensures some { IsSome result ↔ IsPrefix text.now }
        ensures same { IfSome result (λ prefix. prefix.characters ≡ text.now) }
    {
        match text.as_bytes() {
            [a, b, c] if is_prefix_byte(*a) && is_prefix_byte(*b) && is_prefix_byte(*c) => {
                let characters = [*a, *b, *c];
                Some(Prefix { characters })
            }
            _ => None,
        }
    }
}

/// Returns true for a capital letter or a digit.
fn is_prefix_byte(byte: u8) -> bool
    ensures { IsTrue result ↔ IsPrefixByte byte }
{
    byte.is_ascii_uppercase() || byte.is_ascii_digit()
}

/// Returns the label of volume number `number`: its identifier, version 4, and spaces in all other
/// fields.
pub fn blank_volume(prefix: Prefix, number: u16) -> Vol1
    requires { number < 1000 }
    ensures { result ≡ blank_volume prefix.characters number }
{
    let [a, b, c] = prefix.characters;
    let [d, e, f] = digits_of::<3>(u64::from(number));
    Vol1 {
        volume: Field::of_bytes([a, b, c, d, e, f]),
        access: b' ',
        implementation: Field::of_bytes([b' '; 13]),
        owner: Field::of_bytes([b' '; 14]),
        version: b'4',
    }
}

/// Returns the image of a blank volume: its label, two tape marks and the end-of-medium marker.
pub fn blank_image(volume: &Vol1) -> BlankImage
    ensures { result.items ≡ blank_image volume.now }
{
    let mut image = BlankImage::new();
    put(&mut image, &[80, 0, 0, 0]);
    put(&mut image, &write_vol1(volume));
    put(&mut image, &[80, 0, 0, 0]);
    put(&mut image, &[0; 8]);
    put(&mut image, &[0xFF; 4]);
    image
}
