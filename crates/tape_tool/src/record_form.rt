//! The form in which records are written, and whether their characters are translated.

ghost use Rattle.std.specs.Prelude.{◌≡◌, None};
ghost use Rattle.tape_tool.specs.TextForm.{given_form};

use std::io::Write;
use tape_blocks::Form;
use tape_run::{Place, Translated, WriteFailed};

/// How records are written.
#[derive(Clone, Copy, PartialEq, Eq)]
pub struct RecordForm {
    pub form: Form,
    /// Whether their characters are translated from EBCDIC (code page 037).
    pub is_text: bool,
}

impl RecordForm {
    /// Returns the form in which the records are given to the writer that `over` returns.
    pub fn given(self) -> Form
        ensures { result ≡ given_form self.is_text self.form }
    {
        if self.is_text {
            Form::Counted
        } else {
            self.form
        }
    }

    /// Returns a writer that writes records to `out`, to which nothing was written.
    pub fn over<W: Write>(self, out: W) -> Translated<W> {
        Translated::new(out, self.is_text.then_some(self.form))
    }
}

/// The place for an output to which a writer of `RecordForm` writes.
#[derive(Drop)]
pub struct Under<P>(pub P);

impl<W: Write, P: Place<W>> Place<Translated<W>> for Under<P> {
    ghost stands = { λ _. None };

    fn place(&mut self, out: Translated<W>) -> Result<(), WriteFailed> {
        self.0.place(out.into_inner())
    }
}
