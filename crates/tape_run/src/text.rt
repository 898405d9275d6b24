//! Texts of limited length, built without allocating, and their output.

ghost use Rattle.std.specs.Prelude.{◌≡◌, ◌≤◌, ◌+◌, ◌++◌, length, decimal, OnOk, OnErr, IfSome};
ghost use Rattle.std.specs.{Prelude.Some, Io.KnownBytes.Appends, Io.KnownBytes.Keeps};
ghost use Rattle.arrayvec.specs.{ArrayString.array_string_len, ArrayVec.array_vec_len};
ghost use Rattle.tape_run.specs.Identifier.{printed, identifier_text};
ghost use Rattle.tape_run.specs.SurveyLine.{trimmed_len, trimmed_text};
ghost use Rattle.tape_image.specs.Written.{AppendsFront};

use crate::fault::WriteFailed;
use arrayvec::{ArrayString, ArrayVec};
use std::fmt::{self, Display, Write as _};
use std::io::Write;
use std::str;
use tape_image::write_bytes;
use tape_label::Field;
pub use tape_label::put;

/// Room for a file name, or for the last line, of `unpack`.
pub type Text = ArrayVec<u8, 1024>;

/// Returns the byte, or a question mark for one outside the printable range.
pub fn printed(byte: u8) -> u8
    ensures { result ≡ printed byte }
{
    if (b' '..=b'~').contains(&byte) {
        byte
    } else {
        b'?'
    }
}

/// Appends a number in decimals, without leading zeros.
pub fn put_decimal<const N: usize>(text: &mut ArrayVec<u8, N>, number: u64)
    requires room { array_vec_len text.old + 20 ≤ N }
    ensures items { text.new.items ≡ text.old.items ++ decimal number }
    ensures len { array_vec_len text.new ≤ array_vec_len text.old + 20 }
{
    put(text, itoa::Buffer::new().format(number).as_bytes());
}

/// Appends a number in decimals, without leading zeros, to a string.
pub fn push_decimal<const N: usize>(text: &mut ArrayString<N>, number: u64)
    requires room { array_string_len text.old + 20 ≤ N }
    ensures text { text.new.bytes ≡ text.old.bytes ++ decimal number }
    ensures len { array_string_len text.new ≤ array_string_len text.old + 20 }
{
    text.push_str(itoa::Buffer::new().format(number));
}

/// Appends an identifier in its full width, with a question mark for each unprintable byte.
pub fn put_identifier<const W: usize, const N: usize>(text: &mut ArrayVec<u8, N>, field: &Field<W>)
    requires { array_vec_len text.old + W ≤ N }
    ensures items { text.new.items ≡ text.old.items ++ identifier_text field.now }
    ensures len { array_vec_len text.new ≡ array_vec_len text.old + W }
{
    for byte in field.bytes() {
        text.push(printed(*byte));
    }
}

/// Returns the length of the bytes without trailing spaces.
pub(crate) fn trimmed_len(bytes: &[u8]) -> usize
    ensures { result ≡ trimmed_len bytes.now }
{
    let mut count = bytes.len();
    'spaces: while count > 0 && bytes[count - 1] == b' ' {
        count -= 1;
    }
    count
}

/// Appends an identifier without trailing spaces, with a question mark for each unprintable byte.
pub(crate) fn put_trimmed<const W: usize, const N: usize>(
    text: &mut ArrayVec<u8, N>,
    field: &Field<W>,
)
    requires { array_vec_len text.old + W ≤ N }
    ensures items { text.new.items ≡ text.old.items ++ trimmed_text field.now }
    ensures len { array_vec_len text.new ≤ array_vec_len text.old + W }
{
    let bytes = field.bytes();
    for byte in &bytes[..trimmed_len(bytes)] {
        text.push(printed(*byte));
    }
}

/// An identifier in its full width, with a question mark for each unprintable byte.
#[derive(Clone, Copy)]
pub(crate) struct Identifier<'a, const W: usize>(pub(crate) &'a Field<W>);

impl<const W: usize> Display for Identifier<'_, W> {
    ghost output = { λ text. Some (identifier_text text.0.now) };

    fn fmt<F: fmt::Write>(&self, f: &mut fmt::Formatter<F>) -> fmt::Result {
        // No field of a label is longer.
        if W > 80 {
            return Err(fmt::Error);
        }
        let mut text = ArrayVec::<u8, 80>::new();
        put_identifier(&mut text, self.0);
        f.write_str(str::from_utf8(&text).map_err(|_| fmt::Error)?)
    }
}

/// An identifier without trailing spaces, with a question mark for each unprintable byte.
#[derive(Clone, Copy)]
pub(crate) struct Trimmed<'a, const W: usize>(pub(crate) &'a Field<W>);

impl<const W: usize> Display for Trimmed<'_, W> {
    ghost output = { λ text. Some (trimmed_text text.0.now) };

    fn fmt<F: fmt::Write>(&self, f: &mut fmt::Formatter<F>) -> fmt::Result {
        // No field of a label is longer.
        if W > 80 {
            return Err(fmt::Error);
        }
        let mut text = ArrayVec::<u8, 80>::new();
        put_trimmed(&mut text, self.0);
        f.write_str(str::from_utf8(&text).map_err(|_| fmt::Error)?)
    }
}

/// Writes all of the text.
///
/// # Errors
///
/// Returns `WriteFailed` if the writer returns an error, even an interruption, or accepts none of
/// the remaining bytes; it has then accepted a prefix of the text. A failed write is not repeated.
#[inline(always)]
pub fn write_text<W: Write>(writer: &mut W, text: &[u8]) -> Result<(), WriteFailed>
    ensures ok { OnOk result
        (Appends (W.contents writer.old) (W.contents writer.new) text.now) }
    ensures err { OnErr result
        (AppendsFront (W.contents writer.old) (W.contents writer.new) text.now) }
{
    match write_bytes(writer, text) {
        Ok(()) => Ok(()),
        Err(_) => Err(WriteFailed),
    }
}

/// Writes a line in a single call.
///
/// # Errors
///
/// Returns `WriteFailed` like `write_text`, and for a line of more than 1,024 bytes, which does not
/// occur.
pub fn write_line<W: Write, D: Display>(writer: &mut W, line: &D) -> Result<(), WriteFailed>
    ensures ok { OnOk result (IfSome (D.output line.now) (λ text.
        Appends (W.contents writer.old) (W.contents writer.new) text)) }
    ensures err { OnErr result (IfSome (D.output line.now) (λ text.
        AppendsFront (W.contents writer.old) (W.contents writer.new) text)) }
{
    let mut text = ArrayString::<1024>::new();
    match write!(text, "{line}") {
        Ok(()) => write_text(writer, text.as_bytes()),
        Err(_) => Err(WriteFailed),
    }
}

/// Writes a line in a single call, and flushes.
///
/// # Errors
///
/// Returns `WriteFailed` like `write_line` and `flush`.
pub(crate) fn pass_line<W: Write, D: Display>(writer: &mut W, line: &D) -> Result<(), WriteFailed>
    ensures ok { OnOk result (IfSome (D.output line.now) (λ text.
        Appends (W.contents writer.old) (W.contents writer.new) text)) }
    ensures err { OnErr result (IfSome (D.output line.now) (λ text.
        AppendsFront (W.contents writer.old) (W.contents writer.new) text)) }
{
    write_line(writer, line)?;
    flush(writer)
}

/// Flushes the writer.
///
/// # Errors
///
/// Returns `WriteFailed` if the writer returns an error.
pub fn flush<W: Write>(writer: &mut W) -> Result<(), WriteFailed>
    ensures kept { Keeps (W.contents writer.old) (W.contents writer.new) }
{
    match writer.flush() {
        Ok(()) => Ok(()),
        Err(_) => Err(WriteFailed),
    }
}
