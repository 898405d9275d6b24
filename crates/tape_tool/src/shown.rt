//! Names and other arguments of a user, as they are printed.
ghost use Rattle.std.specs.Prelude.{◌≡◌, Some};
ghost use Rattle.tape_run.specs.Quoting.{name_text};

use std::fmt;
use tape_run::quoted_char;

/// A name or another argument, printed character by character by `quoted_char`.
#[derive(Clone, Copy)]
pub struct Shown<'a>(pub &'a str);

impl Shown<'_> {
    /// Returns the name. This is a function because the result of a call is known to be text, but a
    /// field is not.
    fn name(&self) -> &str
        ensures { result.now ≡ self.now.0.now }
    {
        self.0
    }
}

impl fmt::Display for Shown<'_> {
    ghost output = { λ shown. Some (name_text shown.0.now) };

    fn fmt<W: fmt::Write>(&self, f: &mut fmt::Formatter<W>) -> fmt::Result {
        for c in self.name().chars() {
            f.write_str(quoted_char(c).as_str())?;
        }
        Ok(())
    }
}
