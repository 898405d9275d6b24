//! Images in normal form whose labels are read with another set identifier or other numbers, if
//! that is requested.

ghost use Rattle.std.specs.Prelude.{◌≤◌, length, IfOk, IfSome};

use super::Form;
use crate::screen::Progress;
use std::io;
use std::io::Read;
use tape_label::Head1;
use tape_run::Relabelling;

/// The bytes of an image in normal form, with the labels that are requested.
#[derive(Drop)]
pub struct Labelled<R: Progress> {
    pub(super) form: Form<R>,
    /// What changes the labels, if they are changed.
    pub(super) labels: Option<Relabelling>,
}

impl<R: Progress> Labelled<R> {
    /// Returns the label of the section that ended last if its blocks are not counted, once.
    #[inline(always)]
    pub fn take_uncounted(&mut self) -> Option<Head1> {
        let head = self.form.take_uncounted()?;
        Some(match &self.labels {
            Some(labels) => labels.head(&head),
            None => head,
        })
    }

    /// Reads bytes where no rule can be applied. Returns `None` if one may be.
    #[inline(always)]
    pub fn read_plain(&mut self, buf: &mut [u8]) -> io::Result<Option<usize>>
        ensures bound { IfOk result (λ read. IfSome read (λ count. count ≤ length buf.new)) }
    {
        if self.labels.is_some() {
            return Ok(None);
        }
        self.form.read_plain(buf)
    }
}

impl<R: Progress> Read for Labelled<R> {
    fn read(&mut self, buf: &mut [u8]) -> io::Result<usize> {
        match &mut self.labels {
            Some(labels) => labels.read(&mut self.form, buf),
            None => self.form.read(buf),
        }
    }
}
