//! Records in EBCDIC, translated while they are written.

ghost use Rattle.std.specs.Prelude.{◌≡◌, ◌≤◌, ℕ, List, Option, Some, None, IfOk, OnOk, map, take};
ghost use Rattle.std.specs.Prelude.{length, IfSome, ◌<◌};
ghost use Rattle.std.specs.Io.KnownBytes.{Appends, Keeps};
ghost use Rattle.std.specs.Io.{WritesAtMost};
ghost use Rattle.tape_core.specs.NormalForm.Codes.{to_ascii};
ghost use Rattle.tape_run.specs.Translating.{due_end, IsTaken, number_at};

use crate::extract::records::{record_end, write_head};
use arrayvec::ArrayVec;
use std::io;
use std::io::{Error, ErrorKind, Write};
use tape_blocks::Form;
use tape_core::normal::to_ascii;

/// The number of bytes that are translated at a time.
const PIECE: usize = 256;

/// A writer of records that are in EBCDIC (code page 037). What is written to it are the records in
/// the form [`Counted`](Form::Counted). It writes them in another form, each byte of a record as the
/// same character in ISO 8859-1, which begins with ASCII. Neither lengths nor line feeds are
/// translated. Without a form it writes everything as it is.
#[derive(Drop)]
pub struct Translated<W> {
    out: W,
    /// The form in which translated records are written, if records are to be translated.
    form: Option<Form>,
    /// How many bytes of the current record are still to come, or 0 before the length of a record.
    left: u32,
}

impl<W: Write> Translated<W> {
    /// Creates a writer to `out`, to which nothing was written.
    pub fn new(out: W, form: Option<Form>) -> Translated<W>
        ensures out { result.out ≡ out }
        ensures form { result.form ≡ form }
        ensures left { result.left ≡ 0 }
    {
        Translated { out, form, left: 0 }
    }

    /// Returns the writer of the translated records.
    pub fn into_inner(self) -> W
        ensures { result ≡ self.out }
    {
        self.out
    }

    /// Ends the record if no byte of it is still to come.
    fn end(&mut self, form: Form) -> io::Result<()>
        ensures text { OnOk result (Appends (W.contents self.old.out) (W.contents self.new.out)
            (due_end form self.old.left)) }
        ensures form { self.new.form ≡ self.old.form }
        ensures left { self.new.left ≡ self.old.left }
    {
        if self.left == 0 {
            self.out.write_all(record_end(form))?;
        }
        Ok(())
    }

    /// Takes the length of the next record, which is in the first four bytes.
    fn take_length(&mut self, form: Form, buf: &[u8]) -> io::Result<usize>
        ensures taken { IfOk result (λ n. n ≤ length buf.now × IsTaken (Some form) 0
            (take n buf.now) (W.contents self.old.out) (W.contents self.new.out) self.new.left) }
        ensures form { self.new.form ≡ self.old.form }
    {
        let Some(length) = number_at(buf) else {
            return Err(Error::from(ErrorKind::InvalidData));
        };
        self.left = length;
        let Ok(()) = write_head(&mut self.out, form, length as usize) else {
            return Err(Error::from(ErrorKind::Other));
        };
        self.end(form)?;
        Ok(4)
    }

    /// Takes bytes of the current record, as many as are translated at a time.
    fn take_bytes(&mut self, form: Form, buf: &[u8]) -> io::Result<usize>
        requires { 0 < self.old.left }
        ensures taken { IfOk result (λ n. n ≤ length buf.now × IsTaken (Some form) self.old.left
            (take n buf.now) (W.contents self.old.out) (W.contents self.new.out) self.new.left) }
        ensures form { self.new.form ≡ self.old.form }
    {
        let count = buf.len().min(self.left as usize).min(PIECE);
        self.out.write_all(&characters(&buf[..count]))?;
        self.left -= count as u32;
        self.end(form)?;
        Ok(count)
    }
}

/// Returns the number in the first four bytes, the most significant first, if there are as many.
fn number_at(bytes: &[u8]) -> Option<u32>
    ensures some { IfSome result (λ n. 4 ≤ length bytes.now × n ≡ number_at bytes.now) }
{
    if bytes.len() < 4 {
        return None;
    }
    let (a, b) = (u32::from(bytes[0]), u32::from(bytes[1]));
    let (c, d) = (u32::from(bytes[2]), u32::from(bytes[3]));
    Some(((a * 256 + b) * 256 + c) * 256 + d)
}

/// Returns bytes that are in EBCDIC as the same characters in ISO 8859-1.
fn characters(bytes: &[u8]) -> ArrayVec<u8, PIECE>
    requires { length bytes.now ≤ 256 }
    ensures { result.items ≡ map to_ascii bytes.now }
{
    let mut text = ArrayVec::new();
    for byte in bytes {
        text.push(to_ascii(*byte));
    }
    text
}

impl<W: Write> Write for Translated<W> {
    #[inline(always)]
    fn write(&mut self, buf: &[u8]) -> io::Result<usize>
        ensures bound { WritesAtMost result buf.now }
        ensures taken { IfOk result (λ n. IsTaken self.old.form self.old.left (take n buf.now)
            (W.contents self.old.out) (W.contents self.new.out) self.new.left) }
        ensures form { self.new.form ≡ self.old.form }
    {
        match self.form {
            None => self.out.write(buf),
            Some(_) if buf.is_empty() => Ok(0),
            Some(form) if self.left == 0 => self.take_length(form, buf),
            Some(form) => self.take_bytes(form, buf),
        }
    }

    fn flush(&mut self) -> io::Result<()>
        ensures bytes { Keeps (W.contents self.old.out) (W.contents self.new.out) }
        ensures form { self.new.form ≡ self.old.form }
        ensures left { self.new.left ≡ self.old.left }
    {
        self.out.flush()
    }
}
