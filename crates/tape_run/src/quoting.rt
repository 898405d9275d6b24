//! Names as they are printed for people: no character of a name controls the terminal.
ghost use Rattle.std.specs.Prelude.{◌≡◌, ◌<◌, encode_utf8_all, IfOk};
ghost use Rattle.tape_run.specs.Quoting.{hex, is_hidden, quoted, name_text};

use arrayvec::ArrayString;
use std::alloc::{AllocError, Global};

/// Returns a hexadecimal digit.
pub(crate) fn hex(digit: u32) -> u8
    requires { digit < 16 }
    ensures value { result ≡ hex digit }
    ensures ascii { result < 128 }
{
    let digit = digit as u8;
    if digit < 10 { b'0' + digit } else { 55 + digit }
}

/// Returns whether a character is a control character, or an invisible one that ends a line, joins
/// or separates characters, or changes the direction of the text.
fn is_hidden(c: char) -> bool
    ensures { result ≡ is_hidden c }
{
    match u32::from(c) {
        0..=0x1F | 0x7F..=0x9F | 0xAD | 0x61C | 0xFEFF => true,
        0x200B..=0x200F | 0x2028..=0x202E | 0x2060..=0x206F => true,
        _ => false,
    }
}

/// Returns a character of a name as it is printed: `\\` for `\`, `\u` and four hexadecimal digits
/// for a control character or an invisible one, and any other character unchanged.
pub fn quoted_char(c: char) -> ArrayString<8>
    ensures { result.bytes ≡ encode_utf8_all (quoted c) }
{
    let mut text = ArrayString::new();
    if c == '\\' {
        text.push('\\');
        text.push('\\');
    } else if is_hidden(c) {
        let number = u32::from(c);
        text.push('\\');
        text.push('u');
        text.push(char::from(hex(number / 16 / 16 / 16)));
        text.push(char::from(hex(number / 16 / 16 % 16)));
        text.push(char::from(hex(number / 16 % 16)));
        text.push(char::from(hex(number % 16)));
    } else {
        // A character has at most four bytes.
        text.try_push(c).unwrap();
    }
    text
}

/// Returns a name as it is printed, character by character as `quoted_char` does: nothing of it is
/// hidden, and different names are printed differently (`laws`).
///
/// # Errors
///
/// `AllocError`: a growth was refused.
pub fn name_text(alloc: Global, name: &str) -> Result<Vec<u8>, AllocError>
    ensures { IfOk result (λ text. text.items ≡ name_text name.now) }
{
    let mut text = Vec::new(alloc);
    for c in name.chars() {
        text.extend_from_slice(quoted_char(c).as_bytes())?;
    }
    Ok(text)
}
