//! The names under which files are unpacked.
ghost use Rattle.std.specs.Prelude.{◌≡◌, ◌≤◌, ◌<◌, ◌+◌, ◌*◌, ◌++◌};
ghost use Rattle.arrayvec.specs.ArrayVec.{array_vec_len};
ghost use Rattle.tape_run.specs.Unpacking.{is_kept, escape, escaped};
ghost use Rattle.tape_run.specs.Unpacking.{fit, fit_last, fit_text, file_name};

use crate::quoting::hex;
use crate::text::{Text, put, put_decimal, trimmed_len};
use tape_label::Field;

/// Returns the name of a file, `SET.FILE.NAME`: its set identifier, its number there and its file
/// identifier, for example `ABC001.1.PAYROLL`.
///
/// Names are unique in a directory, even if its file system ignores case: files with different
/// numbers or of different sets never have the same name (`names_differ`). Every file system
/// accepts each name and keeps it (`names_stay`, `names_fit`). `%` with two hexadecimal digits
/// replaces a byte: in the set identifier every byte except digits, capital letters and the space,
/// which becomes `_`; in the file identifier `%`, unprintable bytes and the characters `" * / : < >
/// ? \ |`. Spaces at the end of the file identifier are left out; a full stop at its end is
/// replaced too, and an identifier of spaces is `%20`.
pub fn file_name(set_id: &Field<6>, file: u16, file_id: &Field<17>) -> Text
    ensures { result.items ≡ file_name set_id.now file file_id.now }
{
    let mut text = Text::new();
    for byte in set_id.bytes() {
        put_byte(&mut text, *byte);
    }
    put(&mut text, b".");
    put_decimal(&mut text, u64::from(file));
    put(&mut text, b".");
    put_file_id(&mut text, file_id);
    text
}

/// Returns whether the byte is a printable character that every file system accepts in names.
fn is_kept(byte: u8) -> bool
    ensures { result ≡ is_kept byte }
{
    match byte {
        b'"' | b'*' | b'/' | b':' | b'<' | b'>' | b'?' | b'\\' | b'|' => false,
        _ => (b' '..=b'~').contains(&byte),
    }
}

/// Appends a byte as `%` and its two hexadecimal digits.
fn put_escape(text: &mut Text, byte: u8)
    requires { array_vec_len text.old ≤ 500 }
    ensures items { text.new.items ≡ text.old.items ++ escape byte }
    ensures len { array_vec_len text.new ≡ array_vec_len text.old + 3 }
{
    text.push(b'%');
    text.push(hex(u32::from(byte / 16)));
    text.push(hex(u32::from(byte % 16)));
}

/// Appends a byte of a set identifier.
fn put_byte(text: &mut Text, byte: u8)
    requires { array_vec_len text.old ≤ 100 }
    ensures items { text.new.items ≡ text.old.items ++ escaped byte }
    ensures len { array_vec_len text.new ≤ array_vec_len text.old + 3 }
{
    if (b'0'..=b'9').contains(&byte) || (b'A'..=b'Z').contains(&byte) {
        text.push(byte);
    } else if byte == b' ' {
        text.push(b'_');
    } else {
        put_escape(text, byte);
    }
}

/// Appends a byte of a file identifier that is followed by another one.
fn put_fit(text: &mut Text, byte: u8)
    requires { array_vec_len text.old ≤ 500 }
    ensures items { text.new.items ≡ text.old.items ++ fit byte }
    ensures len { array_vec_len text.new ≤ array_vec_len text.old + 3 }
{
    if is_kept(byte) && byte != b'%' {
        text.push(byte);
    } else {
        put_escape(text, byte);
    }
}

/// Appends the last byte: some file systems drop a space or a full stop at the end.
fn put_last(text: &mut Text, byte: u8)
    requires { array_vec_len text.old ≤ 500 }
    ensures { text.new.items ≡ text.old.items ++ fit_last byte }
{
    if byte == b' ' || byte == b'.' {
        put_escape(text, byte);
    } else {
        put_fit(text, byte);
    }
}

/// Appends a file identifier without trailing spaces, or one space if it has no other characters.
fn put_file_id(text: &mut Text, file_id: &Field<17>)
    requires { array_vec_len text.old ≤ 200 }
    ensures { text.new.items ≡ text.old.items ++ fit_text file_id.now }
{
    let bytes = file_id.bytes();
    let count = trimmed_len(bytes);
    if count == 0 {
        put_last(text, b' ');
        return;
    }
    for byte in &bytes[..count - 1] {
        put_fit(text, *byte);
    }
    put_last(text, bytes[count - 1]);
}
