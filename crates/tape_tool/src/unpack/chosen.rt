//! The form in which the records of a file are written, chosen by their bytes.

ghost use Rattle.std.specs.Prelude.{◌≡◌, ◌&&◌, [], None};
ghost use Rattle.tape_tool.specs.TextForm.{form_for, is_text, is_text_byte};

use super::completion::salvage_task;
use super::report::LastLine;
use super::run::Run;
use crate::fault::{OUT_OF_MEMORY, ToolFault};
use crate::normal::NormalImages;
use crate::record_form::{RecordForm, Under};
use crate::screen::Progress;
use std::io;
use std::io::{Read, Write};
use tape_blocks::Form;
use tape_core::PartWalk;
use tape_run::{
    EngineFault, ImageSource, Opener, OutSink, Place, Session, SetFile, WriteFailed,
    extract_in_passes, extract_located, salvage_joined,
};
use tape_set::Want;
use tape_writer::system::name_in_folder;

/// Returns whether a byte is text: printable ASCII, a tab or a form feed.
fn is_text_byte(byte: u8) -> bool
    ensures { result ≡ is_text_byte byte }
{
    (32 <= byte && byte <= 126) || byte == b'\t' || byte == b'\x0C'
}

/// Returns whether each byte is text.
fn is_text(bytes: &[u8]) -> bool
    ensures { result ≡ is_text bytes.now }
{
    let mut left = bytes;
    'bytes: while let [byte, rest @ ..] = left {
        if !is_text_byte(*byte) {
            return false;
        }
        left = rest;
    }
    true
}

/// A writer that only finds out whether all that is written is text.
#[derive(Drop)]
struct TextCheck {
    is_text: bool,
}

impl TextCheck {
    /// Creates a writer to which nothing was written.
    fn new() -> TextCheck
        ensures { result.is_text ≡ is_text [] }
    {
        TextCheck { is_text: true }
    }

    /// Adds bytes to those that were written.
    fn add(&mut self, bytes: &[u8])
        ensures { self.new.is_text ≡ (self.old.is_text && is_text bytes.now) }
    {
        self.is_text = self.is_text && is_text(bytes);
    }

    /// Returns the form for records of which all bytes were written: lines for text, since no
    /// record then contains a line feed, and raw for others.
    fn form(&self) -> Form
        ensures { result ≡ form_for self.now.is_text }
    {
        if self.is_text { Form::Lines } else { Form::Raw }
    }
}

impl Write for TextCheck {
    fn write(&mut self, buf: &[u8]) -> io::Result<usize> {
        self.add(buf);
        Ok(buf.len())
    }

    fn flush(&mut self) -> io::Result<()> {
        Ok(())
    }
}

/// The form for the records that were written, if all were.
#[derive(Drop)]
struct Chosen(Option<Form>);

impl Place<TextCheck> for Chosen {
    ghost stands = { λ _. None };

    fn place(&mut self, out: TextCheck) -> Result<(), WriteFailed> {
        self.0 = Some(out.form());
        Ok(())
    }
}

/// Recovers a file as `extract_in_passes` does, in the form `form` or, if it is `None`, in the one
/// for its records, which `form` then gets. If `is_text`, its characters are translated.
pub fn extract_in_form<
    S: PartWalk,
    R: Read + Drop,
    L: ImageSource<R>,
    M: Opener<S, R, L>,
    W: Write,
    P: Write,
>(
    session: &mut Session<S>,
    images: &mut L,
    opener: &mut M,
    form: &mut Option<Form>,
    is_text: bool,
    out: &mut W,
    report: &mut P,
) -> Result<Option<Want>, EngineFault> {
    if let Some(form) = *form {
        let form = RecordForm { form, is_text };
        let (given, mut out) = (form.given(), form.over(&mut *out));
        return extract_in_passes(session, images, opener, true, given, &mut out, report);
    }
    let mut check = TextCheck::new();
    let raw = raw(is_text);
    let (given, mut out_of_check) = (raw.given(), raw.over(&mut check));
    let want = extract_in_passes(
        session,
        images,
        opener,
        true,
        given,
        &mut out_of_check,
        report,
    )?;
    if want.is_none() {
        let chosen = check.form();
        *form = Some(chosen);
        let form = RecordForm {
            form: chosen,
            is_text,
        };
        session.write_file(form.given(), &mut form.over(&mut *out))?;
    }
    Ok(want)
}

/// Returns how records are written to find out the form for them.
fn raw(is_text: bool) -> RecordForm {
    RecordForm {
        form: Form::Raw,
        is_text,
    }
}

impl<R: Progress, P: Write> Run<'_, R, P> {
    /// Begins with the form for the next file, at `out`: the recorded one or else the one that is
    /// asked for, or none yet.
    pub fn begin_form(&mut self, out: &str) {
        match self.recorded.form_of(name_in_folder(out)) {
            Some(RecordForm { form, is_text }) => {
                self.form = Some(form);
                self.is_text = is_text;
            }
            None => {
                self.form = self.order.form;
                self.is_text = self.order.is_text;
            }
        }
    }

    /// Chooses the form of a file if it is to be chosen, and all sections of the file are complete.
    /// Reads the images that have them. The last one stays open for the next file.
    pub fn choose_whole(&mut self, file: &SetFile) -> Result<(), ToolFault> {
        if self.form.is_some() || file.lacks.is_some() {
            return Ok(());
        }
        let rt = self.rt;
        let raw = raw(self.is_text);
        let form = raw.given();
        let sink = OutSink::new(rt.alloc(), raw.over(TextCheck::new()), form);
        let Ok(mut session) = Session::new(rt.alloc(), file.set_id, file.file, sink) else {
            return Ok(());
        };
        if file.wide {
            session.widen();
        }
        let images = &mut NormalImages::again(rt, self.names);
        let (met, checked, mut chosen) = (self.met, &mut self.checked, Under(Chosen(None)));
        let locations = &met.locations;
        match extract_located(&mut session, images, checked, locations, form, &mut chosen) {
            Err(fault) if ToolFault::from(fault) == OUT_OF_MEMORY => return Err(OUT_OF_MEMORY),
            // Recovering the file will meet the same fault, and report it.
            Ok(_) | Err(_) => {}
        }
        self.form = chosen.0.0;
        Ok(())
    }

    /// Chooses the form of a file if it is to be chosen: by the records that `salvage` recovers
    /// from the images named `names`.
    pub fn choose_salvaged(&mut self, file: &SetFile, names: &[&str]) -> Result<(), ToolFault> {
        if self.form.is_some() {
            return Ok(());
        }
        let (rt, mut chosen, raw) = (self.rt, Under(Chosen(None)), raw(self.is_text));
        let images = &mut NormalImages::again(rt, names);
        let (task, told) = (salvage_task(file, raw), &mut LastLine::new());
        let check = raw.over(TextCheck::new());
        match salvage_joined(rt.alloc(), &task, images, check, &mut chosen, told) {
            Err(fault) if ToolFault::from(fault) == OUT_OF_MEMORY => return Err(OUT_OF_MEMORY),
            Ok(_) | Err(_) => {}
        }
        self.form = chosen.0.0;
        Ok(())
    }

    /// Chooses the form of a file that is only listed, if it is to be chosen, and all sections of the
    /// file are complete.
    pub fn choose_listed(&mut self, file: &SetFile) -> Result<(), ToolFault> {
        self.choose_whole(file)?;
        let names = self.names_of_file(file)?;
        self.choose_salvaged(file, names.as_slice())
    }

    /// Returns the form of the current file, or that of lines if none was chosen.
    pub fn form(&self) -> RecordForm {
        RecordForm {
            form: self.form.unwrap_or(Form::Lines),
            is_text: self.is_text,
        }
    }
}
